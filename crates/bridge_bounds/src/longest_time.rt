//! Longest time in which the frames of a full queue leave, by the gate control lists of their port.
//!
//! In this file, `occ` is a frame's transmission time in ns, and `room` the number of waiting frames.
ghost use Rattle.std.specs.Prelude.{◌≡◌, ◌↔◌, ◌+◌, ◌-◌, ◌*◌, ◌<◌, ◌≤◌, ℕ, MatchOption, true, Some};
ghost use Rattle.bridge_cycle.specs.Cyclic.{IsLawful};
ghost use Rattle.bridge_cycle.specs.Fits.{Fits, IsFirstFit};
ghost use Rattle.bridge_port.specs.GateSchedule.{can_fit, list_can_fit, list_opens, gate_schedule, opens};
ghost use Rattle.bridge_bounds.specs.Bounds.{FramesEnd, IsTimeAttained, IsEdge, IsLeastTime, IsLongestTime};
ghost use Rattle.bridge_bounds.specs.Intervals.{IsLongestAfterEdges, IsWindowEnd};

use bridge_cycle::{CyclicList, Egress, LONGEST_CYCLE, Timeline, first_fit, is_open};
use std::alloc::Allocator;

/// Returns the first time in ns, from `from` on, at which a frame with transmission time `occ` ns fits. Wraps `first_fit`, and bounds the
/// wait by `LONGEST_CYCLE`.
///
/// `latest_start` and the searches of this file call it.
pub(crate) fn list_first_fit<A: Allocator + Copy>(
    list: &CyclicList<u8, A>,
    class: u8,
    occ: u64,
    from: u64,
) -> u64
    requires class { class < 8 }
    requires occ { occ ≤ LONGEST_CYCLE }
    requires from { from ≤ 8_999_999_999_999_999_999 }
    requires lawful { IsLawful list.now }
    requires ever { list_can_fit list.now class occ ≡ true }
    ensures first { IsFirstFit (list_opens list.now class) occ from result }
    ensures soon { result ≤ from + LONGEST_CYCLE }
{
    first_fit(list, class, occ, from)
}

/// Returns the last time in ns at which a frame still fits in the window that is open at `at`. Returns `None` if this window never ends.
/// Examines at most one cycle.
///
/// `latest_start` and `window_frames` call it.
pub(crate) fn last_fit<A: Allocator + Copy>(
    list: &CyclicList<u8, A>,
    class: u8,
    occ: u64,
    at: u64,
) -> Option<u64>
    requires class { class < 8 }
    requires some { 1 ≤ occ }
    requires occ { occ ≤ LONGEST_CYCLE }
    requires at { at ≤ 8_999_999_999_999_999_999 }
    requires lawful { IsLawful list.now }
    requires fits { Fits (list_opens list.now class) occ at }
    ensures { MatchOption result ((v : ℕ) → at ≤ v → Fits (list_opens list.now class) occ v)
        (IsWindowEnd (list_opens list.now class) occ at) }
{
    let end = at + occ + list.cycle();
    let mut seen = at + occ;
    while seen < end {
        let turn = list.turn(seen);
        if !is_open(turn.state, class) {
            return Some(seen - occ);
        }
        seen = turn.end;
    }
    None
}

/// Returns the number of frames of `occ` ns, at most `most`, that leave in one window, one after another from `start` ns on. A frame fits
/// at `start`. `frames_end`, `repeating_round` and `frames_duration` call it.
fn window_frames<A: Allocator + Copy>(
    list: &CyclicList<u8, A>,
    class: u8,
    occ: u64,
    most: u16,
    start: u64,
) -> u16
    requires class { class < 8 }
    requires some { 1 ≤ occ }
    requires occ { occ ≤ LONGEST_CYCLE }
    requires most { 1 ≤ most }
    requires start { start ≤ 8_999_999_999_999_999_999 }
    requires lawful { IsLawful list.now }
    requires fits { Fits (list_opens list.now class) occ start }
    ensures some { 1 ≤ result }
    ensures within { result ≤ most }
    ensures ends { FramesEnd (list_opens list.now class) occ result start (start + result * occ) }
{
    match last_fit(list, class, occ, start) {
        None => most,
        Some(last) => {
            let after_first = (last - start) / occ;
            if after_first < most as u64 {
                after_first as u16 + 1
            } else {
                most
            }
        }
    }
}

/// Returns the time in ns at which `count` frames that wait from `from` on have left, one after another. Counts the frames of a window at
/// once. `end_after_rounds` calls it.
fn frames_end<A: Allocator + Copy>(
    list: &CyclicList<u8, A>,
    class: u8,
    occ: u64,
    count: u16,
    from: u64,
) -> u64
    requires class { class < 8 }
    requires some { 1 ≤ occ }
    requires occ { occ ≤ LONGEST_CYCLE }
    requires from { from ≤ 8_000_000_000_000_000_000 }
    requires lawful { IsLawful list.now }
    requires ever { list_can_fit list.now class occ ≡ true }
    ensures ends { FramesEnd (list_opens list.now class) occ count from result }
    ensures begun { from ≤ result }
    ensures soon { result ≤ from + count * (2 * LONGEST_CYCLE) }
{
    let mut end = from;
    let mut done = 0;
    while done < count {
        let start = list_first_fit(list, class, occ, end);
        let frames = window_frames(list, class, occ, count - done, start);
        end = start + frames as u64 * occ;
        done += frames;
    }
    end
}

/// Returns a number of frames, at most `room`, and the time in ns at which they have left. If fewer than `room`, the next frame starts
/// whole cycles after the first.
///
/// So the frames repeat, and `end_after_rounds` skips the repetitions. `frames_duration` calls it.
fn repeating_round<A: Allocator + Copy>(
    list: &CyclicList<u8, A>,
    class: u8,
    occ: u64,
    room: u16,
    from: u64,
) -> (u16, u64)
    requires class { class < 8 }
    requires occ { occ ≤ LONGEST_CYCLE }
    requires some_time { 1 ≤ occ }
    requires some_room { 1 ≤ room }
    requires from { from ≤ 1_100_000_000_000_000_000 }
    requires lawful { IsLawful list.now }
    requires ever { list_can_fit list.now class occ ≡ true }
    ensures some { 1 ≤ result.0 }
    ensures within { result.0 ≤ room }
    ensures ends { FramesEnd (list_opens list.now class) occ result.0 from result.1 }
{
    let cycle = list.cycle();
    let first = list_first_fit(list, class, occ, from);
    let mut done = window_frames(list, class, occ, room, first);
    let mut end = first + done as u64 * occ;
    while done < room {
        let start = list_first_fit(list, class, occ, end);
        if (start - first) % cycle == 0 {
            return (done, end);
        }
        let frames = window_frames(list, class, occ, room - done, start);
        end = start + frames as u64 * occ;
        done += frames;
    }
    (room, end)
}

/// Returns the time in ns at which `room` frames of `occ` ns have left if they wait from `from` on. The first `done` frames have left at
/// `end`.
///
/// If the next frame starts whole cycles after the first, these `done` frames repeat; the function then adds whole rounds by arithmetic,
/// without a loop. `frames_duration` calls it.
fn end_after_rounds<A: Allocator + Copy>(
    list: &CyclicList<u8, A>,
    class: u8,
    occ: u64,
    room: u16,
    from: u64,
    done: u16,
    end: u64,
) -> u64
    requires class { class < 8 }
    requires occ { occ ≤ LONGEST_CYCLE }
    requires some_time { 1 ≤ occ }
    requires from { from ≤ 1_100_000_000_000_000_000 }
    requires lawful { IsLawful list.now }
    requires ever { list_can_fit list.now class occ ≡ true }
    requires some { 1 ≤ done }
    requires within { done ≤ room }
    requires ends { FramesEnd (list_opens list.now class) occ done from end }
    ensures { FramesEnd (list_opens list.now class) occ room from result }
{
    let cycle = list.cycle();
    let left = room - done;
    let round = list_first_fit(list, class, occ, end) - list_first_fit(list, class, occ, from);
    if round % cycle != 0 {
        return frames_end(list, class, occ, left, end);
    }
    let rounds = left / done;
    frames_end(list, class, occ, left % done, end + rounds as u64 * round)
}

/// Returns the time in ns that `room` frames take if they wait from `from` on and leave one after another.
///
/// The frames of the first window may start anywhere in it. Later windows are filled from their start, so they repeat after one cycle.
/// `interval_longest_time` and `longest_time_after_edges` call it.
pub(crate) fn frames_duration<A: Allocator + Copy>(
    list: &CyclicList<u8, A>,
    class: u8,
    occ: u64,
    room: u16,
    from: u64,
) -> u64
    requires class { class < 8 }
    requires some { 1 ≤ occ }
    requires occ { occ ≤ LONGEST_CYCLE }
    requires from { from ≤ 1_000_000_000_000_000_001 }
    requires lawful { IsLawful list.now }
    requires ever { list_can_fit list.now class occ ≡ true }
    ensures ends { FramesEnd (list_opens list.now class) occ room from (from + result) }
    ensures bounded { result ≤ room * (2 * LONGEST_CYCLE) }
{
    if room == 0 {
        return 0;
    }
    let start = list_first_fit(list, class, occ, from);
    let lead = window_frames(list, class, occ, room, start);
    let next = start + lead as u64 * occ;
    if lead == room {
        return next - from;
    }
    let (done, end) = repeating_round(list, class, occ, room - lead, next);
    end_after_rounds(list, class, occ, room - lead, next, done, end) - from
}

/// Whether a frame fits at time `moment` in ns, and doesn't fit 1 ns later. Frames that arrive just after this time wait longest.
/// `longest_time_after_edges` calls it.
fn is_edge<A: Allocator + Copy>(list: &CyclicList<u8, A>, class: u8, occ: u64, moment: u64) -> bool
    requires class { class < 8 }
    requires occ { occ ≤ LONGEST_CYCLE }
    requires moment { moment ≤ 1_000_000_000_000_000_000 }
    requires lawful { IsLawful list.now }
    requires ever { list_can_fit list.now class occ ≡ true }
    ensures { (result ≡ true) ↔ IsEdge (list_opens list.now class) occ moment }
{
    list_first_fit(list, class, occ, moment) == moment
        && list_first_fit(list, class, occ, moment + 1) != moment + 1
}

/// Returns the longest time in ns until `room` frames of `occ` ns have left. All begin to wait together: at `from`, or 1 ns after a
/// window's last fit, but not after `to`.
///
/// `list_longest_time` and `interval_longest_time` call it: frames that just miss a window wait longest.
pub(crate) fn longest_time_after_edges<A: Allocator + Copy>(
    list: &CyclicList<u8, A>,
    class: u8,
    occ: u64,
    room: u16,
    from: u64,
    to: u64,
) -> u64
    requires class { class < 8 }
    requires some { 1 ≤ occ }
    requires occ { occ ≤ LONGEST_CYCLE }
    requires times { from ≤ to }
    requires to { to ≤ 1_000_000_000_000_000_000 }
    requires lawful { IsLawful list.now }
    requires ever { list_can_fit list.now class occ ≡ true }
    ensures longest { IsLongestAfterEdges (list_opens list.now class) occ room from to result }
    ensures bounded { result ≤ room * (2 * LONGEST_CYCLE) }
{
    let end = to + (occ - 1);
    let mut longest = frames_duration(list, class, occ, room, from);
    let mut seen = from + (occ - 1);
    while seen < end {
        seen = list.turn(seen).end;
        let last = seen.min(end) - occ;
        if is_edge(list, class, occ, last) {
            let time = frames_duration(list, class, occ, room, last + 1);
            longest = time.max(longest);
        }
    }
    longest
}

/// Returns the longest time in ns in which `room` waiting frames leave under one list. The frames need it if they wait from 1 ns after a
/// window's last fit.
///
/// If the class is always open, the frames need this time from any time on. `egress_longest_time` calls it.
fn list_longest_time<A: Allocator + Copy>(
    list: &CyclicList<u8, A>,
    class: u8,
    occ: u64,
    room: u16,
) -> u64
    requires class { class < 8 }
    requires some { 1 ≤ occ }
    requires occ { occ ≤ LONGEST_CYCLE }
    requires lawful { IsLawful list.now }
    requires ever { list_can_fit list.now class occ ≡ true }
    ensures longest { IsLongestTime (list_opens list.now class) occ room result }
    ensures attained { IsTimeAttained (list_opens list.now class) occ room result }
    ensures bounded { result ≤ room * (2 * LONGEST_CYCLE) }
{
    longest_time_after_edges(list, class, occ, room, 0, list.cycle() + 1)
}

/// Returns a time in ns in which `room` waiting frames always leave under a port's lists. With a schedule change, it sums the longest times
/// under the old and the new list. `port_longest_time` calls it.
fn egress_longest_time<A: Allocator + Copy>(
    lists: &Egress<A>,
    class: u8,
    occ: u64,
    room: u16,
) -> u64
    requires class { class < 8 }
    requires some { 1 ≤ occ }
    requires occ { occ ≤ LONGEST_CYCLE }
    requires ever { can_fit (gate_schedule (Some lists.now)) class occ ≡ true }
    ensures longest { IsLongestTime (opens (gate_schedule (Some lists.now)) class) occ room result }
    ensures least { IsLeastTime (gate_schedule (Some lists.now)) class occ room result }
    ensures bounded { result ≤ room * (4 * LONGEST_CYCLE) }
{
    match lists {
        Egress::Cyclic(list) => {
            let _ = list.cycle();
            list_longest_time(list, class, occ, room)
        }
        Egress::Joined(joined) => {
            let (old, new) = joined.lists();
            list_longest_time(old, class, occ, room) + list_longest_time(new, class, occ, room)
        }
    }
}

/// Returns a time in ns in which `room` waiting frames always leave, each with transmission time `occ`. Without a schedule change, this is
/// the longest time that they need. `class_bound` and `lesser_bound` call it.
pub(crate) fn port_longest_time<A: Allocator + Copy>(
    lists: &Option<Egress<A>>,
    class: u8,
    occ: u64,
    room: u16,
) -> u64
    requires class { class < 8 }
    requires some { 1 ≤ occ }
    requires occ { occ ≤ LONGEST_CYCLE }
    requires ever { can_fit (gate_schedule lists.now) class occ ≡ true }
    ensures longest { IsLongestTime (opens (gate_schedule lists.now) class) occ room result }
    ensures least { IsLeastTime (gate_schedule lists.now) class occ room result }
    ensures bounded { result ≤ room * (4 * LONGEST_CYCLE) }
{
    match lists {
        None => room as u64 * occ,
        Some(lists) => egress_longest_time(lists, class, occ, room),
    }
}
