//! Finds frames that arrive over links at the times of other events at their bridge.
use bridge_config::Command;
use bridge_core::{Outcome, View};
use bridge_semantics::Origin;
use net_model::Link;
use net_run::is_linked;
use std::alloc::Global;

/// Events at whose times frames arrived over links.
#[derive(Clone, Copy, Default)]
pub struct Meetings {
    /// Whether a frame arrived when a copy of an earlier frame started.
    pub start: bool,
    /// Whether a frame arrived at the time of a command.
    pub command: bool,
    /// Whether a frame arrived when another frame arrived at another port.
    pub arrival: bool,
}

/// Whether frame `own` of a filter, numbered from 1, arrived before `moment`.
fn has_earlier_arrival(view: &View<Global>, own: u64, moment: u64) -> bool {
    match view.origins.get(own.saturating_sub(1) as usize) {
        Some(origin) => origin.origin().at < moment,
        None => false,
    }
}

/// Whether a copy of a filter's frame started at `moment` and the frame had arrived before.
fn has_start_in_record(view: &View<Global>, moment: u64) -> bool {
    for stored in &view.departures {
        let departure = stored.departure();
        if departure.start == moment && has_earlier_arrival(view, departure.own, moment) {
            return true;
        }
    }
    false
}

/// Whether a copy started at `moment` and its frame had arrived before.
fn has_start_at_time(outcome: &Outcome<Global>, moment: u64) -> bool {
    for (_, view) in &outcome.filters {
        if has_start_in_record(view, moment) {
            return true;
        }
    }
    false
}

/// Whether a command has the time `moment`.
fn has_command_at_time(commands: &[Command], moment: u64) -> bool {
    for command in commands {
        if command.at == moment {
            return true;
        }
    }
    false
}

/// Whether a frame of a filter arrived at the time of `one`, at another port.
fn has_arrival_in_record(view: &View<Global>, one: Origin) -> bool {
    for stored in &view.origins {
        let origin = stored.origin();
        if origin.at == one.at && origin.port != one.port {
            return true;
        }
    }
    false
}

/// Whether a frame of any filter arrived at the time of `one`, at another port.
fn has_other_arrival(outcome: &Outcome<Global>, one: Origin) -> bool {
    for (_, view) in &outcome.filters {
        if has_arrival_in_record(view, one) {
            return true;
        }
    }
    false
}

/// Adds the events at the arrival time of a frame to those found `before`.
fn frame_meetings(
    outcome: &Outcome<Global>,
    commands: &[Command],
    one: Origin,
    before: Meetings,
) -> Meetings {
    Meetings {
        start: before.start || has_start_at_time(outcome, one.at),
        command: before.command || has_command_at_time(commands, one.at),
        arrival: before.arrival || has_other_arrival(outcome, one),
    }
}

/// Adds the events at the arrival times of a filter's frames over links to those found `before`.
fn filter_meetings(
    outcome: &Outcome<Global>,
    commands: &[Command],
    links: &[Link],
    bridge: u16,
    view: &View<Global>,
    before: Meetings,
) -> Meetings {
    let mut meetings = before;
    for stored in &view.origins {
        let origin = stored.origin();
        if is_linked(links, bridge as usize, origin.port) {
            meetings = frame_meetings(outcome, commands, origin, meetings);
        }
    }
    meetings
}

/// Adds the events at the arrival times of a bridge's frames over links to those found `before`.
pub fn bridge_meetings(
    outcome: &Outcome<Global>,
    commands: &[Command],
    links: &[Link],
    bridge: u16,
    before: Meetings,
) -> Meetings {
    let mut meetings = before;
    for (_, view) in &outcome.filters {
        meetings = filter_meetings(outcome, commands, links, bridge, view, meetings);
    }
    meetings
}
