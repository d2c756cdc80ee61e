//! Tests whether the stream gates of the filters that share a queue are apart in time.
ghost use Rattle.std.specs.Prelude.{◌≡◌, ◌≤◌, ◌<◌, length, true};
ghost use Rattle.bridge_limits.specs.Members.{IsMember};
ghost use Rattle.bridge_cycle.specs.Cyclic.{Cyclic, IsLawful};
ghost use Rattle.bridge_gate.specs.declared.schedule.GateEntry.{GateEntry as Entry};
ghost use Rattle.bridge_groups.specs.ApartGates as spec;

use crate::merged_gates::gates_cycle;
use bridge_cycle::{CyclicList, LONGEST_CYCLE, Timeline};
use bridge_gate::GateEntry;
use std::alloc::Allocator;

/// Number of intervals of a stream gate after which `is_closed` and `leaves_gap` give up. A gate of a merged list has at most 256 intervals
/// in the common cycle.
const MOST_INTERVALS: u32 = 1_024;

/// Largest gap that `are_lists_apart` tests, in ns (11 days). It keeps `until` within the precondition of `is_closed`.
const LONGEST_GAP: u64 = 1_000_000_000_000_000;

/// Whether a stream gate stays closed from time `from` to before time `until`, in ns. Also `false` if this takes `MOST_INTERVALS` or more
/// intervals. `are_others_closed` calls it.
fn is_closed<A: Allocator + Copy>(list: &CyclicList<GateEntry, A>, from: u64, until: u64) -> bool
    requires until { until ≤ 3_000_000_000_000_000 }
    requires lawful { IsLawful list.now }
    ensures { result ≡ true → spec.IsClosedUntil list.now from until }
{
    let mut seen = from;
    for _interval in 0..MOST_INTERVALS {
        if seen >= until {
            return true;
        }
        let turn = list.turn(seen);
        if turn.state.lets {
            return false;
        }
        seen = turn.end;
    }
    false
}

/// Whether all stream gates but the one with index `own` stay closed from time `from` to before time `until`, in ns. `leaves_gap` calls it.
fn are_others_closed<A: Allocator + Copy>(
    lists: &[CyclicList<GateEntry, A>],
    own: usize,
    from: u64,
    until: u64,
) -> bool
    requires until { until ≤ 3_000_000_000_000_000 }
    requires lawful { (l : Cyclic Entry) → IsMember l lists.now → IsLawful l }
    ensures { result ≡ true → spec.AreOthersClosed lists.now own from until }
{
    for index in 0..lists.len() {
        if index != own && !is_closed(&lists[index], from, until) {
            return false;
        }
    }
    true
}

/// Whether, after each time at which the gate with index `own` is open, all other gates are closed for `gap` ns. Tests the times before
/// `cycle`, in ns. Also `false` if there are `MOST_INTERVALS` or more intervals. `are_lists_apart` calls it.
fn leaves_gap<A: Allocator + Copy>(
    lists: &[CyclicList<GateEntry, A>],
    own: usize,
    cycle: u64,
    gap: u64,
) -> bool
    requires own { own < length lists.now }
    requires cycle { cycle ≤ LONGEST_CYCLE }
    requires gap { gap ≤ LONGEST_GAP }
    requires lawful { (l : Cyclic Entry) → IsMember l lists.now → IsLawful l }
    ensures { result ≡ true → spec.LeavesGap lists.now gap cycle own }
{
    let list = &lists[own];
    let mut seen = 0;
    for _interval in 0..MOST_INTERVALS {
        if seen >= cycle {
            return true;
        }
        let turn = list.turn(seen);
        if turn.state.lets && !are_others_closed(lists, own, seen, turn.end - 1 + gap) {
            return false;
        }
        seen = turn.end;
    }
    false
}

/// Whether, after each time at which one of the stream gates is open, all others are closed for `gap` ns. Also `false` if the lists have no
/// common cycle, or if the test takes too long. `gate_figures` calls it.
pub(crate) fn are_lists_apart<A: Allocator + Copy>(
    lists: &[CyclicList<GateEntry, A>],
    gap: u64,
) -> bool
    requires lawful { (l : Cyclic Entry) → IsMember l lists.now → IsLawful l }
    ensures { result ≡ true → spec.AreListsApart lists.now gap }
{
    if gap > LONGEST_GAP {
        return false;
    }
    let Some(cycle) = gates_cycle(lists) else {
        return false;
    };
    for index in 0..lists.len() {
        if !leaves_gap(lists, index, cycle, gap) {
            return false;
        }
    }
    true
}
