//! Runs of successive fits under one gate control list. A fit is a time at which a transmission fits.
ghost use Rattle.std.specs.Prelude.{◌≡◌, ℕ, Bool, true, false, ◌<◌, ◌≤◌, ◌+◌, ◌*◌};
ghost use Rattle.bridge_cycle.specs.Cyclic.{IsLawful};
ghost use Rattle.bridge_cycle.specs.Fits.{Fits, IsFirstFit};
ghost use Rattle.bridge_port.specs.GateSchedule.{list_can_fit, list_opens};
ghost use Rattle.bridge_groups.specs.FitRuns.{IsFitRun};

use bridge_cycle::{CyclicList, LONGEST_CYCLE, Timeline, first_fit, is_open};
use std::alloc::Allocator;

/// Run of successive fits: each ns from `first` on is a fit, `length` times.
#[derive(Clone, Copy)]
pub(crate) struct FitRun {
    /// First fit in ns.
    pub(crate) first: u64,
    /// Number of fits of the run, one each ns.
    pub(crate) length: u64,
}

/// Returns the first time in ns, `from` or later, at which `class` is closed. `next_fit_run` computes the length of a run from it.
fn first_closed<A: Allocator + Copy>(list: &CyclicList<u8, A>, class: u8, from: u64) -> u64
    requires class { class < 8 }
    requires from { from ≤ 8_000_000_000_000_000_000 }
    requires closes { (u : ℕ) × (from ≤ u) × (u ≤ from + LONGEST_CYCLE)
        × (list_opens list.now class u ≡ false) }
    ensures after { from ≤ result }
    ensures open { (u : ℕ) → from ≤ u → u < result → list_opens list.now class u ≡ true }
    ensures closed { list_opens list.now class result ≡ false }
    ensures soon { result ≤ from + LONGEST_CYCLE }
{
    let mut seen = from;
    let mut turn = list.turn(seen);
    while is_open(turn.state, class) {
        seen = turn.end;
        turn = list.turn(seen);
    }
    seen
}

/// Returns the first run of fits, at time `from` or later, for transmissions of `occ` ns in `class`. The class must be closed at some time
/// of each cycle. `has_long_starts`, `all_spans_bound` and others call it.
pub(crate) fn next_fit_run<A: Allocator + Copy>(
    list: &CyclicList<u8, A>,
    class: u8,
    occ: u64,
    from: u64,
) -> FitRun
    requires class { class < 8 }
    requires some { 1 ≤ occ }
    requires occ { occ ≤ LONGEST_CYCLE }
    requires from { from ≤ 7_000_000_000_000_000_000 }
    requires lawful { IsLawful list.now }
    requires ever { list_can_fit list.now class occ ≡ true }
    requires closes { (u : ℕ) × (list_opens list.now class u ≡ false) }
    ensures run { IsFitRun (list_opens list.now class) occ from result }
    ensures soon { result.first + result.length ≤ from + 3 * LONGEST_CYCLE }
{
    let first = first_fit(list, class, occ, from);
    let closed = first_closed(list, class, first + occ);
    FitRun {
        first,
        length: closed - occ - first + 1,
    }
}
