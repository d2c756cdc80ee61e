//! Finds the windows of a class at a port, and the longest frame that fits, for descriptions and explanations of plans.
ghost use Rattle.std.specs.Prelude.{◌↔◌, ◌<◌, ◌≡◌, true, IfSome};
ghost use Rattle.bridge_cycle.specs.Runs.{Allows};
ghost use Rattle.bridge_frame.specs.Link.{transmission_time};

use crate::sentence::LintText;
use bridge_config::PortPlan;
use bridge_cycle::{CyclicList, Egress, Run, Timeline, is_open, longest_run};
use bridge_frame::{Speed, occupation};
use bridge_limits::LONGEST_FRAME;
use std::alloc::Allocator;

/// Steps of the search for the longest frame, in octets: powers of two, the largest first.
const LENGTH_STEPS: [u32; 14] = [
    8192, 4096, 2048, 1024, 512, 256, 128, 64, 32, 16, 8, 4, 2, 1,
];

/// Returns the text of the window with index `place`, from 0: `{0}` is its start and `{1}` its end, offsets in ns. Only the first eight
/// windows are listed. `put_window` calls it.
fn window_template(place: usize) -> &'static str {
    match place {
        0 => "open {0} to {1} ns",
        1..=7 => ", {0} to {1} ns",
        8 => ", ..",
        _ => "",
    }
}

/// Writes the window with index `place`, from 0, from offset `from` to `to` in ns. After eight windows, writes once that there are more.
/// `put_list_windows` calls it.
fn put_window(said: &mut LintText, place: usize, from: u64, to: u64) {
    said.put_template(window_template(place), &[from, to], &[]);
}

/// Writes the windows of a class in one cycle of a list, at most eight, and the cycle time. `put_open_windows` calls it.
fn put_list_windows<A: Allocator + Copy>(said: &mut LintText, list: &CyclicList<u8, A>, class: u8)
    requires { class < 8 }
{
    let mut count = 0usize;
    let mut start = 0u64;
    let mut opened = None;
    for entry in list.entries() {
        if is_open(entry.0, class) {
            opened = opened.or(Some(start));
        } else if let Some(from) = opened {
            put_window(said, count, from, start);
            count = count.saturating_add(1);
            opened = None;
        }
        start = start.saturating_add(entry.1);
    }
    let cycle = list.cycle();
    match opened {
        Some(from) => put_window(said, count, from, cycle),
        None if count == 0 => return said.put("never open"),
        None => {}
    }
    said.put_template(" of each {0} ns", &[cycle], &[]);
}

/// Writes the windows of a class at a port; with a schedule change, the windows of the old list and of the new list. `put_queue` and
/// `put_too_long` call it.
pub(crate) fn put_open_windows<A: Allocator + Copy>(
    said: &mut LintText,
    port: &PortPlan<A>,
    class: u8,
)
    requires { class < 8 }
{
    match &port.list {
        None => said.put("always open"),
        Some(Egress::Cyclic(list)) => put_list_windows(said, list, class),
        Some(Egress::Joined(joined)) => {
            let (old, new) = joined.lists();
            put_list_windows(said, old, class);
            said.put_template(
                "; after the change at {0} ns ",
                &[joined.change_time()],
                &[],
            );
            put_list_windows(said, new, class);
        }
    }
}

/// Returns whether a window as long as `run` suffices for a frame of `length` octets on a link with speed `speed`. `longest_frame_in_run`
/// calls it.
fn can_fit(run: Run, speed: Speed, length: u32) -> bool
    ensures { (result ≡ true) ↔ Allows run (transmission_time length speed) }
{
    run.allows(occupation(length, speed))
}

/// Returns the length in octets, at most 9,216, of the longest frame that fits a window as long as `run`. Returns `None` if no frame fits.
/// Lengths exclude the check sequence. `longest_frame_of_class` calls it.
pub(crate) fn longest_frame_in_run(run: Run, speed: Speed) -> Option<u32>
    ensures fits { IfSome result (λ length. Allows run (transmission_time length speed)) }
{
    if !can_fit(run, speed, 1) {
        return None;
    }
    let mut longest = 1u32;
    for step in &LENGTH_STEPS {
        let more = longest.saturating_add(*step);
        if more <= LONGEST_FRAME && can_fit(run, speed, more) {
            longest = more;
        }
    }
    Some(longest)
}

/// Returns the shorter of two longest windows: frames must fit before and after a schedule change. `class_run` calls it.
fn shorter_run(one: Run, other: Run) -> Run {
    match one {
        Run::Always => other,
        Run::Never => one,
        Run::For(length) => match other {
            Run::Always => one,
            Run::Never => other,
            Run::For(more) => Run::For(length.min(more)),
        },
    }
}

/// Returns the longest window of a class at a port. If a schedule change joins two lists, returns the shorter of their longest windows.
/// `longest_frame_of_class` and `put_remedy` call it.
pub(crate) fn class_run<A: Allocator + Copy>(port: &PortPlan<A>, class: u8) -> Run
    requires { class < 8 }
{
    match &port.list {
        None => Run::Always,
        Some(Egress::Cyclic(list)) => longest_run(list, class),
        Some(Egress::Joined(joined)) => {
            let (old, new) = joined.lists();
            shorter_run(longest_run(old, class), longest_run(new, class))
        }
    }
}

/// Returns the length in octets of the longest frame that fits the longest window of a class at a port. Returns `None` if no frame fits.
/// `put_queue` and `put_remedy` call it.
pub(crate) fn longest_frame_of_class<A: Allocator + Copy>(
    port: &PortPlan<A>,
    class: u8,
) -> Option<u32>
    requires { class < 8 }
{
    longest_frame_in_run(class_run(port, class), port.speed)
}
