//! Finds the next time at which a transmission fits the open times of an egress port's class.
ghost use Rattle.std.specs.Prelude.{◌≡◌, ◌↔◌, ◌+◌, ◌*◌, ◌<◌, ◌≤◌, ℕ, IfOk, IfSome, Some, true, slice_index_or};
ghost use Rattle.bridge_cycle.specs.GateControlLists as egress;
ghost use Rattle.bridge_cycle.specs.Fits.{Fits, IsFirstFit};
ghost use Rattle.bridge_cycle.specs.Opens.{turn_opens};
ghost use Rattle.bridge_cycle.specs.Runs.{Allows};
ghost use Rattle.bridge_cycle.specs.declared.run.Run.TheVariants.{Never};
ghost use Rattle.bridge_port.specs.GateSchedule.{can_fit, HasRuns, IsListsTurn, KeepsTurn, GateSchedule, gate_schedule, opens};
ghost use Rattle.bridge_port.specs.Spans.{AreOptionalSpans, AreGateSpans};

use crate::spans::{ClassSpans, SearchHints, class_spans, fit_in_changing_list, fit_in_list};
use bridge_cycle::{
    END_OF_SEARCHES, Egress, LONGEST_CYCLE, Run, Timeline, Turn, first_fit, is_open,
};
use std::alloc::{AllocError, Allocator};
use std::marker::Model;

/// Precomputed runs and spans of a port's lists, so that a search rarely walks interval by interval.
#[derive(Drop)]
struct GateCache<A: Allocator + Copy> {
    /// Longest run of each class; with a schedule change, the shorter run of the two lists.
    runs: [Run; 8],
    /// Spans of the only list, or of the list before the schedule change; empty without a list.
    old: ClassSpans<A>,
    /// Spans of the list after the schedule change; empty without a schedule change.
    new: ClassSpans<A>,
}

/// Transmission gates of a port, with data that speeds up the search for an earliest start.
#[derive(Drop)]
pub struct TransmissionGates<A: Allocator + Copy> {
    /// Gate control lists; `None` if all classes are always open.
    list: Option<Egress<A>>,
    /// Runs and spans of the lists.
    kept: GateCache<A>,
    /// Whether the lists are short, so that a search reads the current interval first.
    is_short: bool,
    /// Interval that the last search of short lists read.
    turn: Turn<u8>,
    /// Hints from the last search by spans, at which the next search starts.
    last: SearchHints,
}

/// Largest number of entries of short lists. Their intervals last for many frames, so a search reads the current interval first.
const MAX_SHORT_ENTRIES: usize = 16;

impl<A: Allocator + Copy> Model for TransmissionGates<A> {
    ghost Value = { GateSchedule };

    ghost view = { λ g. gate_schedule g.list };

    ghost invariant = { λ g. record {
      runs : HasRuns (gate_schedule g.list) g.kept.runs;
      spans : AreOptionalSpans g.list g.kept.old.runs g.kept.old.each.items g.kept.new.runs g.kept.new.each.items;
      turn : KeepsTurn g.list g.turn;
    } };
}

/// Returns the shorter of two runs: `Never` is the shortest run, `Always` the longest. `shorter_runs` calls it for each class.
fn shorter_run(one: Run, other: Run) -> Run
    ensures { (n : ℕ) → Allows result n ↔ (Allows one n × Allows other n) }
{
    match (one, other) {
        (Run::Never, _) => Run::Never,
        (Run::Always, _) => other,
        (Run::For(_), Run::Never) => Run::Never,
        (Run::For(_), Run::Always) => one,
        (Run::For(one), Run::For(other)) => Run::For(one.min(other)),
    }
}

/// Returns the shorter run of each class, because a frame must fit under both lists of a schedule change. `make_cache` calls it.
fn shorter_runs(one: &[Run; 8], other: &[Run; 8]) -> [Run; 8]
    ensures { (c : ℕ) → c < 8 → (n : ℕ)
        → Allows (slice_index_or result c Never) n
        ↔ (Allows (slice_index_or one.now c Never) n × Allows (slice_index_or other.now c Never) n) }
{
    let mut runs = [Run::Never; 8];
    for class in 0..8usize {
        runs[class] = shorter_run(one[class], other[class]);
    }
    runs
}

/// Makes the cache for a port's gate control lists: each class's longest run of open time, and the open spans of each class.
///
/// With a schedule change, a class's run is the shorter one of the two lists. `new` calls it.
fn make_cache<A: Allocator + Copy>(
    alloc: A,
    list: &Option<Egress<A>>,
) -> Result<GateCache<A>, AllocError>
    ensures runs { IfOk result (λ k. HasRuns (gate_schedule list.now) k.runs) }
    ensures spans { IfOk result (λ k. AreOptionalSpans list.now k.old.runs k.old.each.items k.new.runs
        k.new.each.items) }
{
    match list {
        None => Ok(GateCache {
            runs: [Run::Always; 8],
            old: ClassSpans::empty(alloc),
            new: ClassSpans::empty(alloc),
        }),
        Some(Egress::Cyclic(list)) => {
            let Ok(old) = class_spans(alloc, list) else {
                return Err(AllocError);
            };
            let runs = old.runs;
            Ok(GateCache {
                runs,
                old,
                new: ClassSpans::empty(alloc),
            })
        }
        Some(Egress::Joined(lists)) => {
            let (before, after) = lists.lists();
            let Ok(old) = class_spans(alloc, before) else {
                return Err(AllocError);
            };
            let Ok(new) = class_spans(alloc, after) else {
                return Err(AllocError);
            };
            let runs = shorter_runs(&old.runs, &new.runs);
            Ok(GateCache { runs, old, new })
        }
    }
}

/// Whether the kept interval contains time `t` in ns. If not, another interval of the lists may contain it. `find_turn` and
/// `fits_in_kept_turn` call it.
#[inline(always)]
fn has_time<A: Allocator + Copy>(kept: &Turn<u8>, list: &Egress<A>, t: u64) -> bool
    requires range { t < END_OF_SEARCHES }
    requires kept { IsListsTurn list.now kept.now }
    requires lawful { egress.IsLawful list.now }
    ensures { result ≡ true → egress.turn_by_time list.now t ≡ Some kept.now }
{
    let _list = list;
    kept.start <= t as i64 && t < kept.end
}

/// Keeps the interval that contains time `t` in ns: the interval kept so far, or an interval from the lists. `fits_in_turn` calls it.
fn find_turn<A: Allocator + Copy>(kept: &mut Turn<u8>, list: &Egress<A>, t: u64)
    requires range { t < END_OF_SEARCHES }
    requires kept { IsListsTurn list.now kept.old }
    requires lawful { egress.IsLawful list.now }
    ensures turn { egress.turn_by_time list.now t ≡ Some kept.new }
    ensures kept { IsListsTurn list.now kept.new }
{
    if has_time(kept, list, t) {
        return;
    }
    *kept = list.turn(t);
}

/// Whether the lists have at most 16 entries each, or are absent. For such lists, a search reads the current interval first. `new` calls
/// it.
fn has_few_entries<A: Allocator + Copy>(list: &Option<Egress<A>>) -> bool {
    match list {
        None => true,
        Some(Egress::Cyclic(list)) => list.entries().len() <= MAX_SHORT_ENTRIES,
        Some(Egress::Joined(lists)) => {
            let (before, after) = lists.lists();
            before.entries().len().max(after.entries().len()) <= MAX_SHORT_ENTRIES
        }
    }
}

/// Whether `class` stays open for `occ` ns from `from` on within the kept interval. Returns false if the lists aren't short. `earliest_fit`
/// calls it first; `fits_in_turn` calls it too.
#[inline(always)]
fn fits_in_kept_turn<A: Allocator + Copy>(
    is_short: bool,
    kept: &Turn<u8>,
    list: &Egress<A>,
    class: usize,
    occ: u64,
    from: u64,
) -> bool
    requires class { class < 8 }
    requires occ { occ ≤ LONGEST_CYCLE }
    requires from { from < END_OF_SEARCHES }
    requires kept { IsListsTurn list.now kept.now }
    requires lawful { egress.IsLawful list.now }
    ensures first { result ≡ true → IsFirstFit (λ v. turn_opens (egress.turn_by_time list.now v) class) occ from from }
{
    if !is_short {
        return false;
    }
    if has_time(kept, list, from) {
        return is_open(kept.state, class as u8) && from + occ <= kept.end;
    }
    false
}

/// Whether `class` stays open for `occ` ns from `from` on within the interval that contains `from`; this interval is then kept. Returns
/// false if the lists aren't short.
///
/// `search_fit` calls it first.
fn fits_in_turn<A: Allocator + Copy>(
    is_short: bool,
    kept: &mut Turn<u8>,
    list: &Egress<A>,
    class: usize,
    occ: u64,
    from: u64,
) -> bool
    requires class { class < 8 }
    requires occ { occ ≤ LONGEST_CYCLE }
    requires from { from < END_OF_SEARCHES }
    requires kept { IsListsTurn list.now kept.old }
    requires lawful { egress.IsLawful list.now }
    ensures first { result ≡ true → IsFirstFit (λ v. turn_opens (egress.turn_by_time list.now v) class) occ from from }
    ensures kept { IsListsTurn list.now kept.new }
{
    if !is_short {
        return false;
    }
    find_turn(kept, list, from);
    fits_in_kept_turn(is_short, kept, list, class, occ, from)
}

/// Returns the earliest time, `from` or later, from which `class` stays open for `occ` ns. If the stored spans show none, returns `None`;
/// `fit_in_lists` then searches interval by interval.
fn fit_by_spans<A: Allocator + Copy>(
    list: &Egress<A>,
    kept: &GateCache<A>,
    last: &mut SearchHints,
    class: usize,
    occ: u64,
    from: u64,
) -> Option<u64>
    requires class { class < 8 }
    requires occ { occ ≤ LONGEST_CYCLE }
    requires from { from < END_OF_SEARCHES }
    requires kept { AreGateSpans list.now kept.now.old.runs kept.now.old.each.items kept.now.new.runs
        kept.now.new.each.items }
    ensures { IfSome result (λ t. IsFirstFit (λ v. turn_opens (egress.turn_by_time list.now v) class) occ from t) }
{
    match list {
        Egress::Cyclic(list) => fit_in_list(list, &kept.old, &mut last.old, class, occ, from),
        Egress::Joined(lists) => fit_in_changing_list(
            lists, &kept.old, &kept.new, last, class, occ, from,
        ),
    }
}

/// Returns the earliest time, `from` or later, from which `class` stays open for `occ` ns: by spans, or interval by interval. `search_fit`
/// calls it.
fn fit_in_lists<A: Allocator + Copy>(
    list: &Egress<A>,
    kept: &GateCache<A>,
    last: &mut SearchHints,
    class: usize,
    occ: u64,
    from: u64,
) -> u64
    requires class { class < 8 }
    requires occ { occ ≤ LONGEST_CYCLE }
    requires from { from < END_OF_SEARCHES }
    requires lawful { egress.IsLawful list.now }
    requires kept { AreGateSpans list.now kept.now.old.runs kept.now.old.each.items kept.now.new.runs
        kept.now.new.each.items }
    requires some { (u : ℕ) × (from ≤ u) × (u ≤ from + 2 * LONGEST_CYCLE)
        × Fits (λ v. turn_opens (egress.turn_by_time list.now v) class) occ u }
    ensures { IsFirstFit (λ v. turn_opens (egress.turn_by_time list.now v) class) occ from result }
{
    match fit_by_spans(list, kept, last, class, occ, from) {
        Some(fit) => fit,
        None => first_fit(list, class as u8, occ, from),
    }
}

/// Returns the earliest time, `from` or later, from which `class` stays open for `occ` ns. For short lists, keeps the interval at `from`.
/// Isn't inlined: a search in the kept interval then needs few registers.
///
/// `earliest_fit` calls it.
#[inline(never)]
fn search_fit<A: Allocator + Copy>(
    is_short: bool,
    turn: &mut Turn<u8>,
    list: &Egress<A>,
    kept: &GateCache<A>,
    last: &mut SearchHints,
    class: usize,
    occ: u64,
    from: u64,
) -> u64
    requires class { class < 8 }
    requires occ { occ ≤ LONGEST_CYCLE }
    requires from { from < END_OF_SEARCHES }
    requires turn { IsListsTurn list.now turn.old }
    requires lawful { egress.IsLawful list.now }
    requires kept { AreGateSpans list.now kept.now.old.runs kept.now.old.each.items kept.now.new.runs
        kept.now.new.each.items }
    requires some { (u : ℕ) × (from ≤ u) × (u ≤ from + 2 * LONGEST_CYCLE)
        × Fits (λ v. turn_opens (egress.turn_by_time list.now v) class) occ u }
    ensures first { IsFirstFit (λ v. turn_opens (egress.turn_by_time list.now v) class) occ from result }
    ensures turn { IsListsTurn list.now turn.new }
{
    if fits_in_turn(is_short, turn, list, class, occ, from) {
        return from;
    }
    fit_in_lists(list, kept, last, class, occ, from)
}

impl<A: Allocator + Copy> TransmissionGates<A> {
    /// Makes the gates for the lists. Without lists, all gates are always open. `Port::new` calls it.
    pub fn new(alloc: A, list: Option<Egress<A>>) -> Result<TransmissionGates<A>, AllocError>
        ensures { IfOk result (λ g. g ≡ gate_schedule list) }
    {
        let Ok(kept) = make_cache(alloc, &list) else {
            return Err(AllocError);
        };
        let turn = Turn {
            state: 0,
            start: 0,
            end: 0,
        };
        let is_short = has_few_entries(&list);
        Ok(TransmissionGates {
            list,
            kept,
            is_short,
            turn,
            last: SearchHints::new(),
        })
    }

    /// Whether each list opens `class` for `occ` ns at some time. `Port::refusal` calls it: otherwise the copy is dropped as `NeverFits`.
    #[inline(always)]
    pub fn can_fit(&self, class: usize, occ: u64) -> bool
        requires { class < 8 }
        ensures { result ≡ can_fit self.now class occ }
    {
        self.kept.runs[class].allows(occ)
    }

    /// Returns the earliest time, `from` or later, from which `class` stays open for `occ` ns. In a class that is always open, that
    /// is `from`. `head_fit` and `add_item_fit` call it.
    #[inline(always)]
    pub fn earliest_fit(&mut self, class: usize, occ: u64, from: u64) -> u64
        requires class { class < 8 }
        requires occ { occ ≤ 1_000_000_000 }
        requires from { from < 9_000_000_000_000_000_000 }
        requires ever { can_fit self.old class occ ≡ true }
        ensures first { IsFirstFit (opens self.old class) occ from result }
        ensures soon { result ≤ from + 2_000_000_000 }
        ensures same { self.new ≡ self.old }
    {
        if let Run::Always = self.kept.runs[class] {
            return from;
        }
        match &self.list {
            None => from,
            Some(list) => {
                if fits_in_kept_turn(self.is_short, &self.turn, list, class, occ, from) {
                    return from;
                }
                search_fit(
                    self.is_short,
                    &mut self.turn,
                    list,
                    &self.kept,
                    &mut self.last,
                    class,
                    occ,
                    from,
                )
            }
        }
    }
}
