//! Finds schedule changes and commands after the last frame of a run, which affect no frame.

use bridge_config::{Command, Plan};
use bridge_semantics::Outcome;
use bridge_text::TextBuilder;
use show_lint::Hypercycle;
use std::alloc::Global;

const LATE_CHANGE: &str =
    "Warning: the schedule change at {0} ns comes after the last frame, which arrives or leaves at {1} ns. No frame of this run meets the new schedule. Move `at` of `[[change]]`, or use longer captures.\n";

const LATE_COMMAND: &str =
    "Warning: `command` {0} at {1} ns comes after the last frame, which arrives at {2} ns. It changes the verdict of no frame. Move its `at`, or use longer captures.\n";

/// Times in ns of a run: `came` is the last arrival, `left` the last end of transmission, or `came` if that is later.
#[derive(Clone, Copy)]
pub(crate) struct Last {
    pub came: u64,
    pub left: u64,
}

/// Returns the number of frames that arrived in a run, by the counts of the ports. `last_frame` compares it with the number of recorded
/// frames.
fn count_frames(outcome: &Outcome<Global>) -> u64 {
    let mut frames = 0u64;
    for port in &outcome.ports {
        frames = frames.saturating_add(port.1.frames);
    }
    frames
}

/// Returns the times of the last arrival and departure; `None` if a frame's time is unknown, because unfiltered frames have no record.
/// `write_run_picture` calls it.
pub(crate) fn last_frame(outcome: &Outcome<Global>) -> Option<Last> {
    let mut last = Last { came: 0, left: 0 };
    let mut frames = 0u64;
    for filter in &outcome.filters {
        for stored in &filter.1.origins {
            frames = frames.saturating_add(1);
            last.came = last.came.max(stored.origin().at);
        }
        for stored in &filter.1.departures {
            last.left = last.left.max(stored.departure().done);
        }
    }
    last.left = last.left.max(last.came);
    if frames == 0 || frames != count_frames(outcome) {
        return None;
    }
    Some(last)
}

/// Writes a warning for the schedule change and each command after the last frame: they affect no frame, which is likely a mistake.
/// `warnings_of_run` calls it.
pub(crate) fn put_late(
    said: &mut TextBuilder<Global>,
    plan: &Plan<Global>,
    orders: &[Command],
    last: Last,
) {
    if let Some(at) = Hypercycle::from_plan(plan).change {
        if at > last.left {
            said.put_template(LATE_CHANGE, &[at, last.left], &[]);
        }
    }
    let mut place = 0u64;
    for order in orders {
        place = place.saturating_add(1);
        if order.at > last.came {
            said.put_template(LATE_COMMAND, &[place, order.at, last.came], &[]);
        }
    }
}
