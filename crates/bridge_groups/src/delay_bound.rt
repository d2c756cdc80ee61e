//! Delay bounds of a queue under one gate control list, from the arrival curve of its frames.
ghost use Rattle.std.specs.Prelude.{◌≡◌, ℕ, true, false, ◌<◌, ◌≤◌, ◌+◌, ◌*◌, IfSome, None};
ghost use Rattle.bridge_cycle.specs.Cyclic.{IsLawful};
ghost use Rattle.bridge_port.specs.GateSchedule.{list_can_fit, list_opens};
ghost use Rattle.bridge_groups.specs.LinearCurves.{IsLinearCurve, curve_at};
ghost use Rattle.bridge_groups.specs.SpanSearches.{AreAllSpansBounded};
ghost use Rattle.bridge_groups.specs.Work.{HasFitsPerCycle, IsDelayBound};

use crate::fit_runs::next_fit_run;
use crate::linear_curve::{LARGEST_BURST, LinearCurve};
use crate::span_search::{fits_per_cycle, spans_bound};
use bridge_cycle::{CyclicList, LONGEST_CYCLE, Timeline, is_open};
use std::alloc::Allocator;

/// Returns a time in ns at which `class` is closed, or `None` if it is always open. `list_cost_bound`, `list_delay_bound` and others call
/// it.
pub(crate) fn find_closed<A: Allocator + Copy>(list: &CyclicList<u8, A>, class: u8) -> Option<u64>
    requires class { class < 8 }
    requires lawful { IsLawful list.now }
    ensures closed { IfSome result (λ u. list_opens list.now class u ≡ false) }
    ensures within { IfSome result (λ u. u < list.now.cycle) }
    ensures open { (u : ℕ) → result ≡ None → list_opens list.now class u ≡ true }
{
    let cycle = list.cycle();
    let mut seen = 0;
    while seen < cycle {
        let turn = list.turn(seen);
        if !is_open(turn.state, class) {
            return Some(seen);
        }
        seen = turn.end;
    }
    None
}

/// Returns a bound in ns of the delays over all spans of at least `shortest` ns, whenever they begin. `span_search.rt` defines spans;
/// `SpanLimits` explains `work`.
///
/// Each cycle has `per_cycle` fits for `occ` ns in `class`. Returns `None` if the list has too many runs of fits. `windows_delay_bound` and
/// `is_sufficient` call it.
pub(crate) fn all_spans_bound<A: Allocator + Copy>(
    list: &CyclicList<u8, A>,
    class: u8,
    occ: u64,
    curve: &LinearCurve,
    per_cycle: u64,
    work: u64,
    shortest: u64,
) -> Option<u64>
    requires class { class < 8 }
    requires some { 1 ≤ occ }
    requires occ { occ ≤ LONGEST_CYCLE }
    requires lawful { IsLawful list.now }
    requires ever { list_can_fit list.now class occ ≡ true }
    requires closes { (u : ℕ) × (list_opens list.now class u ≡ false) }
    requires curve { IsLinearCurve curve.now }
    requires some_fit { 1 ≤ per_cycle }
    requires fits { HasFitsPerCycle (list_opens list.now class) occ list.now.cycle per_cycle }
    requires stable { curve.now.rate * list.now.cycle ≤ per_cycle * curve.now.unit }
    requires work { work ≤ 1_000_000_000 }
    requires shortest { shortest ≤ 3_000_000_000_000_000_000 }
    requires low { work ≤ curve_at curve.now shortest }
    requires burst { curve_at curve.now shortest ≤ work + LARGEST_BURST }
    ensures { IfSome result (AreAllSpansBounded (list_opens list.now class) occ work (curve_at curve.now) shortest) }
{
    let cycle = list.cycle();
    let mut bound = spans_bound(list, class, occ, curve, per_cycle, work, 0, shortest)?;
    let mut covered = 0;
    while covered < cycle {
        let run = next_fit_run(list, class, occ, covered);
        covered = run.first + run.length;
        let next = spans_bound(list, class, occ, curve, per_cycle, work, covered, shortest)?;
        bound = next.max(bound);
    }
    Some(bound)
}

/// Returns the result of `list_delay_bound` for a class that is closed at some time of each cycle.
///
/// Returns `None` if more work arrives in the long run than fits, or if the list has too many runs of fits.
fn windows_delay_bound<A: Allocator + Copy>(
    list: &CyclicList<u8, A>,
    class: u8,
    occ: u64,
    least: u64,
    curve: &LinearCurve,
) -> Option<u64>
    requires class { class < 8 }
    requires some { 1 ≤ occ }
    requires occ { occ ≤ LONGEST_CYCLE }
    requires lawful { IsLawful list.now }
    requires ever { list_can_fit list.now class occ ≡ true }
    requires closes { (u : ℕ) × (list_opens list.now class u ≡ false) }
    requires curve { IsLinearCurve curve.now }
    requires least { least ≤ 1_000_000_000 }
    requires low { least ≤ curve_at curve.now 0 }
    requires burst { curve_at curve.now 0 ≤ least + LARGEST_BURST }
    ensures { IfSome result (IsDelayBound (list_opens list.now class) occ least (curve_at curve.now)) }
{
    let per_cycle = fits_per_cycle(list, class, occ);
    if !curve.is_stable(list.cycle(), per_cycle) {
        return None;
    }
    all_spans_bound(list, class, occ, curve, per_cycle, least, 0)
}

/// Returns a delay bound in ns of a queue that has its link to itself while `class` is open. Its frames have transmission times from
/// `least` to `occ` ns and the arrival curve `curve`.
///
/// Returns `None` if too much work arrives: in the long run more than fits into the windows, or at once more than `LARGEST_BURST` ns.
///
/// It also returns `None` if no frame of `least` ns can arrive at once. `fit_bound`, `change_bound` and `lists_bound` call it.
pub fn list_delay_bound<A: Allocator + Copy>(
    list: &CyclicList<u8, A>,
    class: u8,
    occ: u64,
    least: u64,
    curve: &LinearCurve,
) -> Option<u64>
    requires class { class < 8 }
    requires some { 1 ≤ occ }
    requires occ { occ ≤ LONGEST_CYCLE }
    requires lawful { IsLawful list.now }
    requires ever { list_can_fit list.now class occ ≡ true }
    requires curve { IsLinearCurve curve.now }
    requires least { least ≤ 1_000_000_000 }
    ensures { IfSome result (IsDelayBound (list_opens list.now class) occ least (curve_at curve.now)) }
{
    let burst = curve.work_at_once()?;
    if burst < least {
        return None;
    }
    match find_closed(list, class) {
        None => Some(burst),
        Some(_) => windows_delay_bound(list, class, occ, least, curve),
    }
}
