//! Searches the spans that begin at one time for the greatest delay. A span begins when a frame enters the empty queue. It ends when the
//! frame in question arrives.
ghost use Rattle.std.specs.Prelude.{◌≡◌, ℕ, true, false, ◌<◌, ◌≤◌, ◌+◌, ◌*◌, IfSome};
ghost use Rattle.bridge_cycle.specs.Cyclic.{IsLawful};
ghost use Rattle.bridge_cycle.specs.Fits.{IsFirstFit};
ghost use Rattle.bridge_port.specs.GateSchedule.{list_can_fit, list_opens};
ghost use Rattle.bridge_groups.specs.FitRuns.{IsFitRun};
ghost use Rattle.bridge_groups.specs.LinearCurves.{IsLinearCurve, curve_at};
ghost use Rattle.bridge_groups.specs.SpanSearches.{AreSpansBounded, IsSearched};
ghost use Rattle.bridge_groups.specs.Work.{HasFitsPerCycle, IsNthFit};

use crate::fit_runs::{FitRun, next_fit_run};
use crate::linear_curve::{LARGEST_BURST, LinearCurve};
use bridge_cycle::{CyclicList, LONGEST_CYCLE, Timeline};
use std::alloc::Allocator;

/// Largest number of runs of fits that a search visits. Two cycles of a list have at most 258 runs.
const MOST_RUNS: u64 = 4_096;

/// Returns the number of fits of `occ` ns in `class` in each cycle of the list. `windows_delay_bound` and `room_fits` call it.
pub(crate) fn fits_per_cycle<A: Allocator + Copy>(
    list: &CyclicList<u8, A>,
    class: u8,
    occ: u64,
) -> u64
    requires class { class < 8 }
    requires some { 1 ≤ occ }
    requires occ { occ ≤ LONGEST_CYCLE }
    requires lawful { IsLawful list.now }
    requires ever { list_can_fit list.now class occ ≡ true }
    requires closes { (u : ℕ) × (list_opens list.now class u ≡ false) }
    ensures fits { HasFitsPerCycle (list_opens list.now class) occ list.now.cycle result }
    ensures some { 1 ≤ result }
    ensures few { result ≤ list.now.cycle }
{
    let cycle = list.cycle();
    let mut run = next_fit_run(list, class, occ, 0);
    let end = run.first + cycle;
    let mut count = 0;
    while run.first + run.length <= end {
        count += run.length;
        run = next_fit_run(list, class, occ, run.first + run.length);
    }
    count + (end - run.first)
}

/// Figures that all steps of a search share. They are start and lengths of the spans, the work of the frame in question, and the skipped
/// cycles.
#[derive(Clone, Copy)]
pub(crate) struct SpanLimits {
    /// Work in ns of the frame in question. The frame starts once all other work has left.
    pub(crate) work: u64,
    /// Time in ns at which the spans begin.
    pub(crate) start: u64,
    /// Length in ns of the shortest span.
    pub(crate) shortest: u64,
    /// Length in ns at which the search ends: `shortest` plus one cycle. All spans of the search are shorter.
    pub(crate) end: u64,
    /// Whole cycles in ns that the burst fills, so the search skips them.
    pub(crate) shift: u64,
}

/// State of a search: all spans shorter than `span` have a delay of at most `bound`.
#[derive(Clone, Copy)]
pub(crate) struct SpanSearch {
    /// Time in ns from which the next run of fits is looked for, without the skipped cycles.
    pub(crate) from: u64,
    /// Number of fits from the start of the spans up to `from`, with the fits of the skipped cycles.
    pub(crate) rank: u64,
    /// Length in ns of the shortest span that the search hasn't covered yet.
    pub(crate) span: u64,
    /// Greatest delay in ns so far.
    pub(crate) bound: u64,
}

/// Returns the search state after the run of fits `run`. A span is covered if its last frame starts in this run. Then `span` moves past the
/// covered spans, and `bound` grows to at least the delay of the shortest one. `search_step` calls it.
fn pass_run(curve: &LinearCurve, limits: &SpanLimits, search: SpanSearch, run: FitRun) -> SpanSearch
    requires curve { IsLinearCurve curve.now }
    requires times { (search.from ≤ 100_000_000_000_000) × (run.first + run.length ≤ search.from + 3 * LONGEST_CYCLE) }
    requires limits { (limits.now.work ≤ 1_000_000_000) × (limits.now.start ≤ search.from)
        × (limits.now.end ≤ 4_000_000_000_000_000_000) × (limits.now.shift ≤ 4_000_000_000_000_000_000) }
    requires rank { search.rank + limits.now.start ≤ search.from + 4_000_000_000 }
    requires reached { search.rank + limits.now.work ≤ curve_at curve.now search.span }
    requires most { curve_at curve.now search.span ≤ limits.now.work + search.rank + 4_000_000_000 }
    requires before { search.span < limits.now.end }
    requires after { search.from ≤ run.first }
    ensures from { result.from ≡ run.first + run.length }
    ensures rank { result.rank ≡ search.rank + run.length }
    ensures span { (search.span ≤ result.span) × (result.span ≤ limits.now.end) }
    ensures bound { search.bound ≤ result.bound }
    ensures reached { result.span < limits.now.end
        → result.rank + limits.now.work ≤ curve_at curve.now result.span }
    ensures most { result.span < limits.now.end
        → curve_at curve.now result.span ≤ limits.now.work + result.rank + 4_000_000_000 }
    ensures ends { (w : ℕ) → w < result.span → search.span ≤ w
        → curve_at curve.now w < limits.now.work + search.rank + run.length }
    ensures delay { search.span < result.span
        → run.first + limits.now.shift + curve_at curve.now search.span
        ≤ search.rank + limits.now.start + search.span + result.bound }
{
    let reached = curve.at(search.span) - limits.work;
    let rank = search.rank + run.length;
    let from = run.first + run.length;
    if reached >= rank {
        return SpanSearch {
            from,
            rank,
            ..search
        };
    }
    let end = run.first + limits.shift + (reached - search.rank) + limits.work;
    let delay = end.saturating_sub(limits.start + search.span);
    let next = match curve.first_time(limits.work + rank) {
        Some(time) => time.min(limits.end),
        None => limits.end,
    };
    SpanSearch {
        from,
        rank,
        span: next,
        bound: delay.max(search.bound),
    }
}

/// Finds the next run of fits of `occ` ns in `class`, and returns the search after it. `spans_bound` repeats this step until all spans are
/// covered.
fn search_step<A: Allocator + Copy>(
    list: &CyclicList<u8, A>,
    class: u8,
    occ: u64,
    curve: &LinearCurve,
    limits: &SpanLimits,
    search: SpanSearch,
) -> SpanSearch
    requires class { class < 8 }
    requires some { 1 ≤ occ }
    requires occ { occ ≤ LONGEST_CYCLE }
    requires lawful { IsLawful list.now }
    requires ever { list_can_fit list.now class occ ≡ true }
    requires closes { (u : ℕ) × (list_opens list.now class u ≡ false) }
    requires curve { IsLinearCurve curve.now }
    requires from { search.from ≤ 100_000_000_000_000 }
    requires limits { (limits.now.work ≤ 1_000_000_000) × (limits.now.end ≤ 4_000_000_000_000_000_000)
        × (limits.now.shift ≤ 4_000_000_000_000_000_000) }
    requires shift { (cycles : ℕ) × (limits.now.shift ≡ cycles * list.now.cycle) }
    requires before { search.span < limits.now.end }
    requires searched { IsSearched (list_opens list.now class) occ (curve_at curve.now) limits.now search }
    ensures searched { IsSearched (list_opens list.now class) occ (curve_at curve.now) limits.now result }
    ensures from { result.from ≤ search.from + 3 * LONGEST_CYCLE }
{
    let run = next_fit_run(list, class, occ, search.from);
    pass_run(curve, limits, search, run)
}

/// Returns a bound in ns of the delays over all spans that begin at `start` and last from `shortest` ns up to one cycle more. The other
/// parameters are as in `all_spans_bound`.
///
/// Returns `None` if the list has too many runs of fits. `all_spans_bound` calls it.
pub(crate) fn spans_bound<A: Allocator + Copy>(
    list: &CyclicList<u8, A>,
    class: u8,
    occ: u64,
    curve: &LinearCurve,
    per_cycle: u64,
    work: u64,
    start: u64,
    shortest: u64,
) -> Option<u64>
    requires class { class < 8 }
    requires some { 1 ≤ occ }
    requires occ { occ ≤ LONGEST_CYCLE }
    requires lawful { IsLawful list.now }
    requires ever { list_can_fit list.now class occ ≡ true }
    requires closes { (u : ℕ) × (list_opens list.now class u ≡ false) }
    requires curve { IsLinearCurve curve.now }
    requires some_fit { 1 ≤ per_cycle }
    requires fits { HasFitsPerCycle (list_opens list.now class) occ list.now.cycle per_cycle }
    requires work { work ≤ 1_000_000_000 }
    requires start { start ≤ 4 * LONGEST_CYCLE }
    requires shortest { shortest ≤ 3_000_000_000_000_000_000 }
    requires low { work ≤ curve_at curve.now shortest }
    requires burst { curve_at curve.now shortest ≤ work + LARGEST_BURST }
    ensures { IfSome result (AreSpansBounded (list_opens list.now class) occ work (curve_at curve.now) start shortest
        (shortest + list.now.cycle)) }
{
    let cycle = list.cycle();
    let skipped = (curve.at(shortest) - work) / per_cycle;
    let limits = SpanLimits {
        work,
        start,
        shortest,
        end: shortest + cycle,
        shift: skipped * cycle,
    };
    let mut search = SpanSearch {
        from: start,
        rank: skipped * per_cycle,
        span: shortest,
        bound: 0,
    };
    for _run in 0..MOST_RUNS {
        if search.span >= limits.end {
            return Some(search.bound);
        }
        search = search_step(list, class, occ, curve, &limits, search);
    }
    None
}
