//! Cycles that a stream gate's list and a port's list share.
ghost use Rattle.std.specs.Prelude.{◌≡◌, ◌*◌, ◌%◌, ◌<◌, ◌≤◌, ℕ, MatchOption};
ghost use Rattle.bridge_cycle.specs.declared.cyclic_list.TheConstants.{LONGEST_CYCLE};
ghost use Rattle.bridge_bounds.specs.Openings.{AreLeastCycles, IsCommonCycle};

use bridge_cycle::{CyclicList, LONGEST_CYCLE, Timeline};
use bridge_gate::GateEntry;
use std::alloc::Allocator;

/// Largest number of intervals that the lists of a stream gate and a port together may have in a common cycle. It limits the work for one
/// bound.
pub const MAX_INTERVALS: u64 = 1024;

/// Returns the least number of cycles of `cycle` ns that together are whole cycles of `other` ns; `None` if it is above `most`.
/// `common_cycle` calls it.
fn least_cycles(cycle: u64, other: u64, most: u64) -> Option<u64>
    requires cycle { cycle ≤ LONGEST_CYCLE }
    requires other { 1 ≤ other }
    requires most { most ≤ MAX_INTERVALS }
    ensures { MatchOption result ((i : ℕ) → 1 ≤ i → i ≤ most → ¬ (i * cycle % other ≡ 0))
        (AreLeastCycles cycle other most) }
{
    let mut cycles = 1;
    while cycles <= most {
        if cycles * cycle % other == 0 {
            return Some(cycles);
        }
        cycles += 1;
    }
    None
}

/// Returns the least common cycle in ns of a stream gate's list and a port's list. Returns `None` if both lists together have more than
/// `MAX_INTERVALS` intervals in this cycle.
///
/// `lack_common_cycle` and `list_bound` call it.
pub(crate) fn common_cycle<A: Allocator + Copy>(
    gate: &CyclicList<GateEntry, A>,
    list: &CyclicList<u8, A>,
) -> Option<u64>
    ensures { MatchOption result ((span : ℕ) → ¬ IsCommonCycle gate.now list.now span)
        (IsCommonCycle gate.now list.now) }
{
    let (gate_cycle, list_cycle) = (gate.cycle(), list.cycle());
    let gate_entries = gate.entries().len() as u64;
    let list_entries = list.entries().len() as u64;
    let Some(cycles) = least_cycles(gate_cycle, list_cycle, MAX_INTERVALS / gate_entries) else {
        return None;
    };
    let span = cycles * gate_cycle;
    if cycles * gate_entries + span / list_cycle * list_entries > MAX_INTERVALS {
        return None;
    }
    Some(span)
}
