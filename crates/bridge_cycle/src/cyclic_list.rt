//! Cyclic lists: gate control lists and lists of stream gates.
ghost use Rattle.std.specs.Prelude.{◌≡◌, ◌<◌, ◌≤◌, ◌-◌, ◌%◌, Some, None, length, true, ◌↔◌, IfOk, IfErr, IfSome, unwrap_or};
ghost use Rattle.bridge_cycle.specs.declared.cyclic_list.ListFault.TheVariants as fault;
ghost use Rattle.bridge_cycle.specs.Cyclic as cyclic;
ghost use Rattle.bridge_cycle.specs.IntervalEnds as running;

use crate::timeline::{Timeline, Turn};
use bridge_limits::{END_OF_TIME, NoMemory};
use std::alloc::{AllocError, Allocator};
use std::marker::Model;
use thiserror::Error;

/// Why a list is refused.
#[derive(Clone, Copy, Debug, PartialEq, Eq, Error)]
pub enum ListFault {
    /// The list has no entry.
    #[error("a list without an entry")]
    Empty,
    /// An entry has an interval of 0 ns.
    #[error("an interval of 0 ns")]
    ZeroInterval,
    /// The intervals of one cycle are together longer than the cycle time.
    #[error("intervals longer than the cycle")]
    OverCycle,
    /// The cycle time isn't 1 to 1,000,000,000 ns.
    #[error("a cycle outside of 1 to 1000000000 ns")]
    CycleOutOfRange,
    /// The list has more than 256 entries.
    #[error("more than 256 entries")]
    TooManyEntries,
    /// Memory ran out.
    #[error("no memory")]
    NoMemory,
}

impl ListFault {
    /// Returns the number of the fault: 1 for `Empty`, 2 for `ZeroInterval`, 3 for `OverCycle`, 4 for `CycleOutOfRange`, 5 for
    /// `TooManyEntries`, 6 for `NoMemory`.
    ///
    /// Contracts compare faults by this number.
    pub fn number(self) -> u8
        ensures { result ≡ cyclic.fault_code self }
    {
        match self {
            ListFault::Empty => 1,
            ListFault::ZeroInterval => 2,
            ListFault::OverCycle => 3,
            ListFault::CycleOutOfRange => 4,
            ListFault::TooManyEntries => 5,
            ListFault::NoMemory => 6,
        }
    }
}

impl From<AllocError> for ListFault {
    ghost from_gives = { λ _ e. e ≡ fault.NoMemory };

    fn from(_error: AllocError) -> ListFault {
        ListFault::NoMemory
    }
}

/// Largest number of entries of a list.
pub const MAX_ENTRIES: usize = 256;

/// Longest cycle time of a list, in ns.
pub const LONGEST_CYCLE: u64 = 1_000_000_000;

/// List of states that repeats in cycles, also before its base time. Each state lasts for its interval in ns, the last one until the cycle
/// ends.
///
/// Each entry has one interval per cycle, even if neighbouring entries have equal states. Gate control lists (IEEE 802.1Q-2018, 8.6.8.4)
/// and lists of stream gates (8.6.5.1.2) have this type.
#[derive(Drop)]
pub struct CyclicList<S, A: Allocator + Copy> {
    /// Base time in ns.
    base: u64,
    /// Cycle time in ns.
    cycle: u64,
    /// Number of ns, 1 to the cycle time. A time plus this number, modulo the cycle time, is the time's offset in its cycle.
    shift: u64,
    /// Mean number of entries per ns, times 2^32. A search multiplies this number by an offset to guess the index of the entry in force.
    density: u64,
    /// States with the lengths of their intervals in ns.
    entries: Vec<(S, u64), A>,
    /// Offset in ns, from the start of a cycle, at which each interval ends.
    ends: Vec<u64, A>,
}

impl<S, A: Allocator + Copy> Model for CyclicList<S, A> {
    ghost Value = { cyclic.Cyclic S };

    ghost view = { λ l. record { base = l.base; cycle = l.cycle; entries = l.entries.items } };

    ghost invariant = { λ l. cyclic.IsLawful (record { base = l.base; cycle = l.cycle; entries = l.entries.items })
        × running.AreIntervalEnds l.entries.items l.ends.items × (l.shift ≡ l.cycle - l.base % l.cycle) };
}

impl<S: Copy, A: Allocator + Copy> CyclicList<S, A> {
    /// Makes a list of a base time and cycle time in ns, and of states with their intervals in ns.
    ///
    /// Tests run in the order `Empty`, `TooManyEntries`, `CycleOutOfRange`, `ZeroInterval`, `OverCycle`. After a fault, the entries are
    /// dropped. `optional_list` of `bridge_config` and `is_list_refused` of `show_explain` call it.
    pub fn new(
        alloc: A,
        base: u64,
        cycle: u64,
        entries: Vec<(S, u64), A>,
    ) -> Result<Self, ListFault>
        requires { base < END_OF_TIME }
        ensures accepted { IfOk result (λ l. cyclic.first_fault cycle entries.items ≡ None) }
        ensures list { IfOk result (λ l. l ≡ record { base = base; cycle = cycle; entries = entries.items }) }
        ensures refused { IfErr result (λ e. e ≡ unwrap_or (cyclic.first_fault cycle entries.items) fault.NoMemory) }
    {
        if let Some(fault) = first_fault(cycle, &entries) {
            return Err(fault);
        }
        let ends = interval_ends(alloc, &entries)?;
        Ok(CyclicList {
            base,
            cycle,
            shift: cycle - base % cycle,
            density: entry_density(&ends),
            entries,
            ends,
        })
    }

    /// Returns an equal list in new memory, or `NoMemory`. `Joined::copy`, `Egress::copy` and `Schedule::copy` of `bridge_gate` call it.
    pub fn copy(&self, alloc: A) -> Result<Self, NoMemory>
        ensures equal { IfOk result (λ l. l ≡ self.now) }
    {
        Ok(CyclicList {
            base: self.base,
            cycle: self.cycle,
            shift: self.shift,
            density: self.density,
            entries: Vec::from_slice(alloc, &self.entries)?,
            ends: Vec::from_slice(alloc, &self.ends)?,
        })
    }

    /// Returns the entries from the start of a cycle: each state with its duration in ns. Ports, checks, delay bounds and warnings examine
    /// them.
    pub fn entries(&self) -> &[(S, u64)]
        ensures entries { result.now ≡ self.now.entries }
        ensures lawful { cyclic.IsLawful self.now }
    {
        &self.entries
    }

    /// Returns the base time in ns: a cycle starts at this time. `put_list_shift` of `net_check`, and `find_long_wait` and
    /// `find_queue_stage_warnings` of `show_lint` call it.
    pub fn base(&self) -> u64
        ensures base { result ≡ self.now.base }
        ensures lawful { cyclic.IsLawful self.now }
    {
        self.base
    }
}

/// Returns the first fault of a cycle time in ns and entries; `None` if they make a valid list. `CyclicList::new` calls it.
fn first_fault<S: Copy>(cycle: u64, entries: &[(S, u64)]) -> Option<ListFault>
    ensures { result ≡ cyclic.first_fault cycle entries.now }
{
    if entries.len() == 0 {
        Some(ListFault::Empty)
    } else if entries.len() > MAX_ENTRIES {
        Some(ListFault::TooManyEntries)
    } else if cycle == 0 || cycle > LONGEST_CYCLE {
        Some(ListFault::CycleOutOfRange)
    } else if has_zero_interval(entries) {
        Some(ListFault::ZeroInterval)
    } else if !is_within_cycle(entries, cycle) {
        Some(ListFault::OverCycle)
    } else {
        None
    }
}

/// Whether an interval is 0 ns, which a list must not have. `first_fault` calls it.
fn has_zero_interval<S: Copy>(entries: &[(S, u64)]) -> bool
    ensures { result ≡ cyclic.has_zero_interval entries.now }
{
    entries.iter().any(|entry| entry.1 == 0)
}

/// Whether the sum of the intervals is at most the cycle time in ns. `first_fault` calls it.
fn is_within_cycle<S: Copy>(entries: &[(S, u64)], cycle: u64) -> bool
    ensures { (result ≡ true) ↔ (cyclic.interval_sum entries.now ≤ cycle) }
{
    let mut left = cycle;
    for entry in entries {
        if entry.1 > left {
            return false;
        }
        left -= entry.1;
    }
    true
}

/// Returns the offset in ns, from the start of a cycle, at which each interval ends. A search for an entry compares these ends.
/// `CyclicList::new` calls it.
fn interval_ends<S: Copy, A: Allocator + Copy>(
    alloc: A,
    entries: &[(S, u64)],
) -> Result<Vec<u64, A>, AllocError>
    requires { cyclic.interval_sum entries.now ≤ LONGEST_CYCLE }
    ensures { IfOk result (λ v. running.AreIntervalEnds entries.now v.items) }
{
    let mut ends = Vec::with_capacity(alloc, entries.len())?;
    let mut end = 0;
    for entry in entries {
        end += entry.1;
        ends.push(end)?;
    }
    Ok(ends)
}

/// Returns the mean number of entries per ns, times 2^32, from the ends of the intervals. `CyclicList::new` stores it.
///
/// A search guesses an index from this number; binary search corrects a bad guess.
fn entry_density(ends: &[u64]) -> u64 {
    let total = match ends.last() {
        Some(end) => (*end).max(1),
        None => 1,
    };
    ((ends.len() as u64) << 32) / total
}

/// Whether the entry at index `place` is in force at offset `phase`, in ns from the start of a cycle. `index_near_guess` calls it for up to
/// three entries.
#[inline(always)]
fn is_in_entry(ends: &[u64], phase: u64, place: usize) -> bool
    ensures { result ≡ true → running.IsEntryIndex ends.now phase place }
{
    place < ends.len()
        && (place == 0 || ends[place - 1] <= phase)
        && (place + 1 == ends.len() || phase < ends[place])
}

/// Returns the index of the entry in force at offset `phase` ns, if it is `guess` or next to `guess`; otherwise `None`. If all intervals
/// have similar lengths, the guess usually succeeds.
///
/// `find_index` calls it.
#[inline(always)]
fn index_near_guess(ends: &[u64], phase: u64, guess: usize) -> Option<usize>
    ensures { IfSome result (λ place. running.IsEntryIndex ends.now phase place) }
{
    if is_in_entry(ends, phase, guess) {
        return Some(guess);
    }
    let below = guess.saturating_sub(1);
    if is_in_entry(ends, phase, below) {
        return Some(below);
    }
    let above = guess.saturating_add(1);
    if is_in_entry(ends, phase, above) {
        return Some(above);
    }
    None
}

/// Returns the index of the entry in force at offset `phase` ns, by binary search. `find_index` calls it after a wrong guess.
#[inline(never)]
fn search_index(ends: &[u64], phase: u64) -> usize
    requires some { 0 < length ends.now }
    ensures { running.IsEntryIndex ends.now phase result }
{
    let mut low = 0;
    let mut high = ends.len() - 1;
    while low < high {
        let middle = low + (high - low) / 2;
        if ends[middle] <= phase {
            low = middle + 1;
        } else {
            high = middle;
        }
    }
    low
}

/// Returns the index of the entry in force at offset `phase` ns: by a guess first, then by binary search. `find_interval` calls it.
#[inline(always)]
fn find_index(ends: &[u64], density: u64, phase: u64) -> usize
    requires some { 0 < length ends.now }
    ensures { running.IsEntryIndex ends.now phase result }
{
    let guess = (phase.wrapping_mul(density) >> 32) as usize;
    match index_near_guess(ends, phase, guess) {
        Some(place) => place,
        None => search_index(ends, phase),
    }
}

/// Returns the state in force at offset `phase` ns, and the offsets at which the state's interval starts and ends. `CyclicList::turn` calls
/// it for the offset of a time.
#[inline(always)]
fn find_interval<S: Copy>(
    entries: &[(S, u64)],
    ends: &[u64],
    density: u64,
    cycle: u64,
    phase: u64,
) -> (S, u64, u64)
    requires some { 0 < length entries.now }
    requires ends { running.AreIntervalEnds entries.now ends.now }
    ensures { cyclic.entry_interval entries.now 0 cycle phase
        ≡ Some (record { state = result.0; start = result.1; end = result.2 }) }
{
    let place = find_index(ends, density, phase);
    let start = if place == 0 { 0 } else { ends[place - 1] };
    let end = if place + 1 == ends.len() {
        cycle
    } else {
        ends[place]
    };
    (entries[place].0, start, end)
}

impl<S: Copy, A: Allocator + Copy> Timeline for CyclicList<S, A> {
    type State = S;

    ghost is_lawful = { cyclic.IsLawful };

    ghost turn_at = { cyclic.turn_by_time };

    ghost cycle_of = { λ l. l.cycle };

    fn turn(&self, t: u64) -> Turn<S> {
        let phase = (t + self.shift) % self.cycle;
        let (state, start, end) = find_interval(
            &self.entries,
            &self.ends,
            self.density,
            self.cycle,
            phase,
        );
        Turn {
            state,
            start: t as i64 - (phase - start) as i64,
            end: t + (end - phase),
        }
    }

    fn cycle(&self) -> u64 {
        self.cycle
    }

    ghost use Rattle.bridge_cycle.specs.CyclicLaws.{cyclic_turn_is_exact, cyclic_turn_exists};

    ghost is_there = { λ l t lawful. cyclic_turn_exists l t lawful };

    ghost begins = { λ l t x lawful h. (cyclic_turn_is_exact l t x lawful h).begins };

    ghost goes_on = { λ l t x lawful h. (cyclic_turn_is_exact l t x lawful h).ends };

    ghost same = { λ l t u x lawful h. (cyclic_turn_is_exact l t x lawful h).same u };

    ghost soon = { λ l t x lawful h. (cyclic_turn_is_exact l t x lawful h).soon };
}
