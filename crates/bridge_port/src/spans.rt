//! Spans: times for which a list opens a class without a break. Spans speed up the search for the earliest start.
ghost use Rattle.std.specs.Prelude.{◌≡◌, ◌<◌, ◌≤◌, ◌+◌, ◌-◌, ◌*◌, ◌^◌, ◌%◌, true, length, IfOk, IfSome};
ghost use Rattle.bridge_cycle.specs.Cyclic.{IsLawful};
ghost use Rattle.bridge_cycle.specs.Fits.{IsFirstFit};
ghost use Rattle.bridge_port.specs.GateSchedule.{RunsMatchTest, Changing, list_can_fit, list_opens, opens};
ghost use Rattle.bridge_port.specs.Spans.{AreListSpans, HasSpans, span_end, open_or_stopped};
ghost use Rattle.bridge_port.specs.Spans as the_spans;

use bridge_cycle::{CyclicList, Joined, Run, Timeline, is_open, longest_run};
use std::alloc::{AllocError, Allocator};

/// Span from `start` to `end`, in which a class is open without a break. At `end`, the class is closed. Both times count from the start of
/// a cycle.
#[derive(Clone, Copy)]
pub struct OpenSpan {
    /// Start in ns, in the first three cycles of a list.
    start: u32,
    /// End in ns, when the class closes.
    end: u32,
}

/// Runs and spans of all classes under one list, which a search for the earliest start reads.
#[derive(Drop)]
pub struct ClassSpans<A: Allocator + Copy> {
    /// Longest run of each class.
    pub runs: [Run; 8],
    /// Spans of each class, by rising time.
    pub each: Vec<Vec<OpenSpan, A>, A>,
}

/// Largest number of spans that a linear search reads; beyond that, binary search is faster.
const MAX_WALK: usize = 8;

/// Start of the next search in a list: the number of earlier cycles, and the span that the last search found for each class. A hint changes
/// no result.
#[derive(Clone, Copy)]
pub struct SearchHint {
    /// Number of whole cycles before the time of the last search.
    laps: u64,
    /// Index of the last span that was found, for each class.
    places: [usize; 8],
}

/// Hints for a port's only list (`old`), or for its old and new list.
#[derive(Clone, Copy)]
pub struct SearchHints {
    /// Hint for the only list, or for the list before the schedule change.
    pub old: SearchHint,
    /// Hint for the list after the schedule change.
    pub new: SearchHint,
}

impl SearchHints {
    /// Makes hints before the first search. `TransmissionGates::new` calls it.
    pub fn new() -> SearchHints {
        let last = SearchHint {
            laps: 0,
            places: [0; 8],
        };
        SearchHints {
            old: last,
            new: last,
        }
    }
}

impl<A: Allocator + Copy> ClassSpans<A> {
    /// Makes empty spans, in place of a list that a port doesn't have. Allocates no memory. `make_cache` calls it.
    pub fn empty(alloc: A) -> ClassSpans<A> {
        ClassSpans {
            runs: [Run::Never; 8],
            each: Vec::new(alloc),
        }
    }
}

/// Returns the longest run of each class of a list. `class_spans` calls it.
fn longest_runs<A: Allocator + Copy>(list: &CyclicList<u8, A>) -> [Run; 8]
    ensures lawful { IsLawful list.now }
    ensures runs { RunsMatchTest (list_can_fit list.now) result }
{
    let _ = list.cycle();
    let mut runs = [Run::Always; 8];
    for class in 0..8usize {
        runs[class] = longest_run(list, class as u8);
    }
    runs
}

/// Returns the spans of `class` in the first three cycles of a list, except a span that outlasts them. `class_spans` calls it for each
/// class.
fn open_spans<A: Allocator + Copy>(
    alloc: A,
    list: &CyclicList<u8, A>,
    class: u8,
) -> Result<Vec<OpenSpan, A>, AllocError>
    requires { class < 8 }
    ensures { IfOk result (λ v. HasSpans (list_opens list.now class) v.items) }
{
    let end = 3 * list.cycle();
    let Ok(mut spans) = Vec::with_capacity(alloc, list.entries().len() * 3 / 2 + 1) else {
        return Err(AllocError);
    };
    let mut start = 0;
    let mut seen = 0;
    while seen < end {
        let turn = list.turn(seen);
        if !is_open(turn.state, class) {
            if start < seen {
                let span = OpenSpan {
                    start: start as u32,
                    end: seen as u32,
                };
                let Ok(()) = spans.push(span) else {
                    return Err(AllocError);
                };
            }
            start = turn.end;
        }
        seen = turn.end;
    }
    Ok(spans)
}

/// Returns the first time in ns, `from` or later, from which a span lasts for `occ` ns, or up to `stop`, when the list ends. `None` if no
/// span lasts that long.
///
/// All times count from a cycle's start. `fit_until_stop` calls it.
fn fit_in_spans(spans: &[OpenSpan], from: u64, occ: u64, stop: u64) -> Option<u64>
    requires from { from < 9_000_000_000_000_000_000 }
    requires occ { occ ≤ 1_000_000_000 }
    ensures fit { result ≡ the_spans.fit_in_spans spans.now from occ stop }
    ensures near { IfSome result (λ t. t < from + 2 ^ 32) }
{
    for span in spans {
        let start = from.max(u64::from(span.start).min(stop));
        if (start + occ).min(stop) <= u64::from(span.end) {
            return Some(start);
        }
    }
    None
}

/// Returns the number of first spans that end at `t` ns or earlier, by binary search. This is the index of the first span that ends later.
/// `find_index` calls it.
#[inline(never)]
fn search_index(spans: &[OpenSpan], t: u64) -> usize
    ensures within { result ≤ length spans.now }
    ensures behind { 0 < result → span_end spans.now (result - 1) ≤ t }
{
    let mut low = 0;
    let mut high = spans.len();
    while low < high {
        let middle = low + (high - low) / 2;
        if u64::from(spans[middle].end) <= t {
            low = middle + 1;
        } else {
            high = middle;
        }
    }
    low
}

/// Whether all spans before index `place` end at `t` ns or earlier. `find_index` may then start at this index.
#[inline(always)]
fn have_ended(spans: &[OpenSpan], place: usize, t: u64) -> bool
    requires { place ≤ length spans.now }
    ensures { result ≡ true → 0 < place → span_end spans.now (place - 1) ≤ t }
{
    if place == 0 {
        return true;
    }
    u64::from(spans[place - 1].end) <= t
}

/// Whether the first span that ends after `t` ns, or the end of the list, is at most `MAX_WALK` spans after index `place`. `find_index`
/// calls it.
#[inline(always)]
fn is_within_walk(spans: &[OpenSpan], place: usize, t: u64) -> bool
    requires { place ≤ length spans.now }
{
    if spans.len() - place <= MAX_WALK {
        return true;
    }
    t < u64::from(spans[place + MAX_WALK].end)
}

/// Returns the index of the first span that ends after `t` ns. The search starts at index `from`; all earlier spans have ended.
/// `find_index` calls it near the last span found.
#[inline(always)]
fn walk_spans(spans: &[OpenSpan], from: usize, t: u64) -> usize
    requires within { from ≤ length spans.now }
    requires behind { 0 < from → span_end spans.now (from - 1) ≤ t }
    ensures within { result ≤ length spans.now }
    ensures behind { 0 < result → span_end spans.now (result - 1) ≤ t }
{
    let mut place = from;
    while place < spans.len() && u64::from(spans[place].end) <= t {
        place += 1;
    }
    place
}

/// Returns the index of the first span that ends after `t` ns. The search starts at index `last` if this index is near; otherwise it is a
/// binary search. `fit_until_stop` calls it.
#[inline(always)]
fn find_index(spans: &[OpenSpan], last: usize, t: u64) -> usize
    ensures within { result ≤ length spans.now }
    ensures behind { 0 < result → span_end spans.now (result - 1) ≤ t }
{
    if last <= spans.len() && have_ended(spans, last, t) && is_within_walk(spans, last, t) {
        return walk_spans(spans, last, t);
    }
    search_index(spans, t)
}

/// Returns the offset of time `t` in its cycle of `cycle` ns. `laps` is the number of whole cycles before the last call's time: if it still
/// is right, no division is needed.
///
/// Otherwise the function updates `laps`. `fit_until_stop` calls it.
#[inline(always)]
fn phase_in_cycle(laps: &mut u64, cycle: u64, t: u64) -> u64
    requires cycle { 0 < cycle }
    requires early { t < 9_000_000_000_000_000_000 }
    ensures { result ≡ t % cycle }
{
    let lap = laps.saturating_mul(cycle);
    if lap <= t && t - lap < cycle {
        return t - lap;
    }
    *laps = t / cycle;
    t % cycle
}

/// Makes the runs and spans of all classes of a list. `make_cache` calls it.
pub fn class_spans<A: Allocator + Copy>(
    alloc: A,
    list: &CyclicList<u8, A>,
) -> Result<ClassSpans<A>, AllocError>
    ensures { IfOk result (λ x. AreListSpans list.now x.runs x.each.items) }
{
    let runs = longest_runs(list);
    let Ok(mut each) = Vec::with_capacity(alloc, 8) else {
        return Err(AllocError);
    };
    for class in 0..8u8 {
        let Ok(spans) = open_spans(alloc, list, class) else {
            return Err(AllocError);
        };
        let Ok(()) = each.push(spans) else {
            return Err(AllocError);
        };
    }
    Ok(ClassSpans { runs, each })
}

/// Returns the earliest time in ns, `from` or later, from which `list` opens `class` for `occ` ns or up to `stop`, by stored spans. `None`
/// if no span is long enough.
///
/// `fit_in_list` and `fit_in_changing_list` call it.
fn fit_until_stop<A: Allocator + Copy>(
    list: &CyclicList<u8, A>,
    spans: &ClassSpans<A>,
    last: &mut SearchHint,
    class: usize,
    occ: u64,
    from: u64,
    stop: u64,
) -> Option<u64>
    requires class { class < 8 }
    requires occ { occ ≤ 1_000_000_000 }
    requires from { from < 9_000_000_000_000_000_000 }
    requires stop { from ≤ stop }
    requires spans { AreListSpans list.now spans.now.runs spans.now.each.items }
    ensures fit { IfSome result (λ t. IsFirstFit (open_or_stopped (list_opens list.now class) stop) occ from t) }
    ensures near { IfSome result (λ t. t < from + 2 ^ 32) }
{
    let cycle = list.cycle();
    if let Run::Always = spans.runs[class] {
        return Some(from);
    }
    if occ == 0 {
        return Some(from);
    }
    let into = phase_in_cycle(&mut last.laps, cycle, from);
    let lap = from - into;
    let own = spans.each[class].as_slice();
    let place = find_index(own, last.places[class], into);
    last.places[class] = place;
    match fit_in_spans(&own[place..], into, occ, stop - lap) {
        Some(t) => Some(t + lap),
        None => None,
    }
}

/// Returns the earliest time in ns, `from` or later, from which `list` opens `class` for `occ` ns, by stored spans. Updates hint `last`.
///
/// Returns `None` if no stored span is long enough. `fit_by_spans` and, for the new list of a schedule change, `fit_in_changing_list` call
/// it.
pub fn fit_in_list<A: Allocator + Copy>(
    list: &CyclicList<u8, A>,
    spans: &ClassSpans<A>,
    last: &mut SearchHint,
    class: usize,
    occ: u64,
    from: u64,
) -> Option<u64>
    requires class { class < 8 }
    requires occ { occ ≤ 1_000_000_000 }
    requires from { from < 9_000_000_000_000_000_000 }
    requires spans { AreListSpans list.now spans.now.runs spans.now.each.items }
    ensures { IfSome result (λ t. IsFirstFit (list_opens list.now class) occ from t) }
{
    fit_until_stop(list, spans, last, class, occ, from, u64::MAX)
}

/// Returns the earliest time in ns, `from` or later, from which the lists of a schedule change open `class` for `occ` ns, by stored spans.
/// Updates the hints `last`.
///
/// Returns `None` if no stored span is long enough. `fit_by_spans` calls it.
pub fn fit_in_changing_list<A: Allocator + Copy>(
    lists: &Joined<u8, A>,
    old: &ClassSpans<A>,
    new: &ClassSpans<A>,
    last: &mut SearchHints,
    class: usize,
    occ: u64,
    from: u64,
) -> Option<u64>
    requires class { class < 8 }
    requires occ { occ ≤ 1_000_000_000 }
    requires from { from < 9_000_000_000_000_000_000 }
    requires old { AreListSpans lists.now.old old.now.runs old.now.each.items }
    requires new { AreListSpans lists.now.new new.now.runs new.now.each.items }
    ensures { IfSome result (λ t. IsFirstFit (opens (Changing lists.now) class) occ from t) }
{
    let (before, after) = lists.lists();
    let at = lists.change_time();
    if at <= from {
        return fit_in_list(after, new, &mut last.new, class, occ, from);
    }
    match fit_until_stop(before, old, &mut last.old, class, occ, from, at) {
        Some(first) if first + occ <= at => Some(first),
        Some(first) if first <= at => {
            match fit_in_list(after, new, &mut last.new, class, first + occ - at, at) {
                Some(behind) if behind == at => Some(first),
                Some(_) => fit_in_list(after, new, &mut last.new, class, occ, at),
                None => None,
            }
        }
        _ => None,
    }
}
