//! Longest time in which the frames of a full queue leave, if they begin to wait between two times.
//!
//! In this file, `occ` is a frame's transmission time in ns, and `room` the number of waiting frames.
ghost use Rattle.std.specs.Prelude.{◌≡◌, ◌+◌, ◌-◌, ◌*◌, ◌%◌, ◌<◌, ◌≤◌, ◌⊎◌, ℕ, max, MatchOption, true};
ghost use Rattle.bridge_cycle.specs.Cyclic.{IsLawful};
ghost use Rattle.bridge_port.specs.GateSchedule.{list_can_fit, list_opens};
ghost use Rattle.bridge_bounds.specs.Bounds.{IsLongestTimeBetween};
ghost use Rattle.bridge_bounds.specs.Intervals.{IsLatestStart};

use crate::longest_time::{frames_duration, last_fit, list_first_fit, longest_time_after_edges};
use bridge_cycle::{CyclicList, LONGEST_CYCLE};
use std::alloc::Allocator;

/// Returns the latest time in ns, from `from` to `to`, with this property: frames sent back to back from then on miss the last fit of the
/// window at `to` by 1 ns.
///
/// Returns `from` if no frame fits at `to`, if the window never ends, or if this time is before `from`. `interval_longest_time` calls it.
fn latest_start<A: Allocator + Copy>(
    list: &CyclicList<u8, A>,
    class: u8,
    occ: u64,
    from: u64,
    to: u64,
) -> u64
    requires class { class < 8 }
    requires some { 1 ≤ occ }
    requires occ { occ ≤ LONGEST_CYCLE }
    requires times { from ≤ to }
    requires to { to ≤ 1_000_000_000_000_000_000 }
    requires lawful { IsLawful list.now }
    requires ever { list_can_fit list.now class occ ≡ true }
    ensures from { from ≤ result }
    ensures to { result ≤ to }
    ensures latest { IsLatestStart (list_opens list.now class) occ from to result }
{
    if list_first_fit(list, class, occ, to) != to {
        return from;
    }
    match last_fit(list, class, occ, to) {
        None => from,
        Some(last) => from.max((to + 1 + (last - to) % occ).saturating_sub(occ)),
    }
}

/// Returns the longest time in ns in which `room` frames of `occ` ns each leave. All begin to wait together, at a time from `from` to `to`.
///
/// The frames need this time if they begin at `from`, 1 ns after a window's last fit, or at the latest start before `to`.
/// `openings_longest_time` calls it.
pub(crate) fn interval_longest_time<A: Allocator + Copy>(
    list: &CyclicList<u8, A>,
    class: u8,
    occ: u64,
    room: u16,
    from: u64,
    to: u64,
) -> u64
    requires class { class < 8 }
    requires some { 1 ≤ occ }
    requires occ { occ ≤ LONGEST_CYCLE }
    requires times { from ≤ to }
    requires to { to ≤ 1_000_000_000_000_000_000 }
    requires lawful { IsLawful list.now }
    requires ever { list_can_fit list.now class occ ≡ true }
    ensures longest { IsLongestTimeBetween (list_opens list.now class) occ room from to result }
    ensures bounded { result ≤ room * (2 * LONGEST_CYCLE) }
{
    let after_edges = longest_time_after_edges(list, class, occ, room, from, to);
    let latest = latest_start(list, class, occ, from, to);
    if latest == from {
        return after_edges;
    }
    after_edges.max(frames_duration(list, class, occ, room, latest))
}
