//! Times by which work that waits in a queue has left.
ghost use Rattle.std.specs.Prelude.{◌≡◌, ℕ, true, false, ◌<◌, ◌≤◌, ◌+◌, ◌-◌, ◌*◌, max, IfSome};
ghost use Rattle.bridge_cycle.specs.Cyclic.{IsLawful};
ghost use Rattle.bridge_port.specs.GateSchedule.{list_can_fit, list_opens};
ghost use Rattle.bridge_groups.specs.IntervalWork.{LeavesBy};
ghost use Rattle.bridge_groups.specs.Work.{IsNthFit};

use crate::fit_runs::next_fit_run;
use bridge_cycle::{CyclicList, LONGEST_CYCLE};
use std::alloc::Allocator;

/// Largest number of runs of fits that a search visits.
pub(crate) const MOST_FIT_RUNS: u64 = 512;

/// Returns the time in ns of fit number `number`, counted from 0 at the first fit at `from` or later. At a fit, a transmission of `occ` ns
/// fits in `class`.
///
/// Returns `None` if too many runs of fits come before it. `leave_time` calls it.
fn nth_fit<A: Allocator + Copy>(
    list: &CyclicList<u8, A>,
    class: u8,
    occ: u64,
    number: u64,
    from: u64,
) -> Option<u64>
    requires class { class < 8 }
    requires some { 1 ≤ occ }
    requires occ { occ ≤ LONGEST_CYCLE }
    requires from { from ≤ 1_000_000_000_000_000_000 }
    requires lawful { IsLawful list.now }
    requires ever { list_can_fit list.now class occ ≡ true }
    requires closes { (u : ℕ) × (list_opens list.now class u ≡ false) }
    ensures fit { IfSome result (IsNthFit (list_opens list.now class) occ number from) }
    ensures soon { IfSome result (λ fit. fit ≤ from + (MOST_FIT_RUNS + 1) * (3 * LONGEST_CYCLE)) }
{
    let mut run = next_fit_run(list, class, occ, from);
    let mut left = number;
    for _run in 0..MOST_FIT_RUNS {
        if left < run.length {
            return Some(run.first + left);
        }
        left -= run.length;
        run = next_fit_run(list, class, occ, run.first + run.length);
    }
    None
}

/// Returns the time in ns by which work of `work` ns that waits from time `from` has left. Its last frame takes `least` ns. The search
/// counts fits of `occ` ns in `class`.
///
/// Returns `None` if the search takes too long. `longest_delay` and `add_interval` call it.
pub(crate) fn leave_time<A: Allocator + Copy>(
    list: &CyclicList<u8, A>,
    class: u8,
    occ: u64,
    least: u64,
    work: u64,
    from: u64,
) -> Option<u64>
    requires class { class < 8 }
    requires some { 1 ≤ occ }
    requires occ { occ ≤ LONGEST_CYCLE }
    requires least { (least ≤ work) × (least ≤ 200_000) }
    requires from { from ≤ 1_000_000_000_000_000_000 }
    requires lawful { IsLawful list.now }
    requires ever { list_can_fit list.now class occ ≡ true }
    requires closes { (u : ℕ) × (list_opens list.now class u ≡ false) }
    ensures leaves { IfSome result (LeavesBy (list_opens list.now class) occ least work from) }
    ensures after { IfSome result (λ end. from ≤ end) }
    ensures soon { IfSome result (λ end. end ≤ from + 1_000_000_000_000_000) }
{
    Some(nth_fit(list, class, occ, work - least, from)? + least)
}

/// Returns the longest delay in ns of work of `work` ns that arrives at a time from `first` to `last`. Earlier work has left by `clear`.
/// `leave_time` explains the other parameters.
///
/// The delay is greatest for arrivals at `first`, at `last`, or just after a run of fits. Returns `None` if the search takes too long.
/// `add_interval` calls it.
pub(crate) fn longest_delay<A: Allocator + Copy>(
    list: &CyclicList<u8, A>,
    class: u8,
    occ: u64,
    least: u64,
    work: u64,
    clear: u64,
    first: u64,
    last: u64,
) -> Option<u64>
    requires class { class < 8 }
    requires some { 1 ≤ occ }
    requires occ { occ ≤ LONGEST_CYCLE }
    requires least { (least ≤ work) × (least ≤ 200_000) }
    requires clear { clear ≤ 1_000_000_000_000_000_000 }
    requires last { (first ≤ last) × (last ≤ 1_000_000_000_000_000_000) }
    requires lawful { IsLawful list.now }
    requires ever { list_can_fit list.now class occ ≡ true }
    requires closes { (u : ℕ) × (list_opens list.now class u ≡ false) }
    ensures { (t : ℕ) → first ≤ t → t ≤ last
        → IfSome result (λ d. LeavesBy (list_opens list.now class) occ least work (max clear t) (t + d)) }
{
    let from = first.max(clear);
    let mut longest = leave_time(list, class, occ, least, work, from)? - first;
    let mut seen = from;
    for _run in 0..MOST_FIT_RUNS {
        if seen >= last {
            return Some(longest);
        }
        let run = next_fit_run(list, class, occ, seen);
        seen = last.min(run.first + run.length);
        let delay = leave_time(list, class, occ, least, work, seen)? - seen;
        longest = delay.max(longest);
    }
    None
}
