//! Delay bounds of a queue from the openings and the octet limits of a stream gate.
ghost use Rattle.std.specs.Prelude.{◌≡◌, ℕ, true, false, ◌<◌, ◌≤◌, ◌+◌, ◌*◌, ◌-◌, max, IfSome, Some};
ghost use Rattle.bridge_cycle.specs.Cyclic.{IsLawful, turn_by_time};
ghost use Rattle.bridge_port.specs.GateSchedule.{list_can_fit, list_opens};
ghost use Rattle.bridge_groups.specs.GateIntervals as spec;
ghost use Rattle.bridge_groups.specs.GateIntervals.{AreCovered, IsNextOpening, LeaveInTime, gate_opens, last_opening, opening_work};
ghost use Rattle.bridge_groups.specs.IntervalWork.{IsIntervalBound};

use crate::delay_bound::find_closed;
use crate::leave_times::{leave_time, longest_delay};
use crate::openings::{Opening, next_opening, turn_work};
use bridge_cycle::{CyclicList, LONGEST_CYCLE, Timeline, is_open};
use bridge_gate::GateEntry;
use std::alloc::Allocator;

/// Largest number of openings of a stream gate that a search visits.
const MOST_OPENINGS: u64 = 2_048;

/// Largest number of the port's cycles in a common cycle of port and stream gate.
const MOST_CYCLES: u64 = 1_024;

/// Greatest `carry` (of `GateDelays`) in ns with which a search begins. If a search finds a greater one, there is no bound.
const LONGEST_CARRY: u64 = 100_000_000_000_000_000;

/// Largest number of searches over a common cycle. Each search assumes the `carry` that the search before it found.
const MOST_SEARCHES: u32 = 4;

/// Greatest delays that a search over openings of a stream gate has found.
#[derive(Clone, Copy)]
pub(crate) struct GateDelays {
    /// Longest delay in ns.
    pub(crate) longest: u64,
    /// Longest time in ns after an opening until the work of earlier openings has left.
    pub(crate) carry: u64,
}

/// Returns `delays`, raised to the values of the open interval `opening` if these are greater. Work of earlier intervals has left `carry`
/// ns after the start of `opening`; the next opening is at `next` ns.
///
/// Each `share` octets of SDUs take at most `least` ns. Returns `None` if the search takes too long. `visit_openings` calls it.
fn add_interval<A: Allocator + Copy>(
    list: &CyclicList<u8, A>,
    class: u8,
    occ: u64,
    least: u64,
    share: u64,
    opening: &Opening,
    next: u64,
    carry: u64,
    delays: GateDelays,
) -> Option<GateDelays>
    requires class { class < 8 }
    requires some { 1 ≤ occ }
    requires occ { occ ≤ LONGEST_CYCLE }
    requires least { least ≤ 200_000 }
    requires share { 1 ≤ share }
    requires carry { carry ≤ 100_000_000_000_000_000 }
    requires times { (opening.now.start < opening.now.turn.end) × (opening.now.turn.end ≤ 100_000_000_000_000_000) }
    requires lawful { IsLawful list.now }
    requires ever { list_can_fit list.now class occ ≡ true }
    requires closes { (u : ℕ) × (list_opens list.now class u ≡ false) }
    ensures covered { IfSome result (AreCovered (list_opens list.now class) occ least share opening.now next carry) }
    ensures grows { IfSome result (λ d. (delays.longest ≤ d.longest) × (delays.carry ≤ d.carry)) }
{
    let work = turn_work(&opening.turn, least, share);
    if work < least {
        return Some(delays);
    }
    let last = opening.last();
    let clear = opening.start + carry;
    let longest = longest_delay(list, class, occ, least, work, clear, opening.start, last)?;
    let gone = leave_time(list, class, occ, least, work, clear.max(last))?;
    Some(GateDelays {
        longest: delays.longest.max(longest),
        carry: delays.carry.max(gone.saturating_sub(next)),
    })
}

/// Returns the greatest delays over all open intervals that start in the `common` ns from `first` on. Work of earlier intervals has left
/// `carry` ns after each opening.
///
/// Each `share` octets of SDUs take at most `least` ns. Returns `None` if the search takes too long. `gate_delay_bound` calls it.
fn visit_openings<A: Allocator + Copy>(
    list: &CyclicList<u8, A>,
    class: u8,
    occ: u64,
    least: u64,
    gate: &CyclicList<GateEntry, A>,
    share: u64,
    first: Opening,
    common: u64,
    carry: u64,
) -> Option<GateDelays>
    requires class { class < 8 }
    requires some { 1 ≤ occ }
    requires occ { occ ≤ LONGEST_CYCLE }
    requires least { least ≤ 200_000 }
    requires share { 1 ≤ share }
    requires carry { carry ≤ 100_000_000_000_000_000 }
    requires common { common ≤ 2_000_000_000_000 }
    requires early { first.start ≤ 3 * LONGEST_CYCLE }
    requires lawful { IsLawful list.now }
    requires ever { list_can_fit list.now class occ ≡ true }
    requires closes { (u : ℕ) × (list_opens list.now class u ≡ false) }
    requires gated { IsLawful gate.now }
    requires opening { (from : ℕ) × IsNextOpening gate.now from first }
    ensures { IfSome result (λ d. LeaveInTime (list_opens list.now class) occ least share gate.now carry d.longest
        d.carry first.start (first.start + common)) }
{
    let end = first.start + common;
    let mut opening = first;
    let mut delays = GateDelays {
        longest: 0,
        carry: 0,
    };
    for _opening in 0..MOST_OPENINGS {
        if opening.start >= end {
            return Some(delays);
        }
        let next = next_opening(gate, opening.turn.end)?;
        delays = add_interval(
            list, class, occ, least, share, &opening, next.start, carry, delays,
        )?;
        opening = next;
    }
    None
}

/// Returns the least common multiple in ns of the cycle times of a port and a stream gate. Returns `None` if this multiple contains too
/// many of the port's cycles. `gate_delay_bound` and `gates_cycle` call it.
pub(crate) fn common_cycle(port: u64, gate: u64) -> Option<u64>
    requires port { (1 ≤ port) × (port ≤ LONGEST_CYCLE) }
    requires gate { 1 ≤ gate }
    ensures port { IfSome result (λ common. (n : ℕ) × (common ≡ n * port)) }
    ensures gate { IfSome result (λ common. (n : ℕ) × (common ≡ n * gate)) }
    ensures some { IfSome result (λ common. 1 ≤ common) }
    ensures few { IfSome result (λ common. common ≤ MOST_CYCLES * port) }
{
    for count in 1..=MOST_CYCLES {
        let common = count * port;
        if common % gate == 0 {
            return Some(common);
        }
    }
    None
}

/// Returns the transmission time in ns of the frames that pass a stream gate in one cycle, at most `u64::MAX`. Each `share` octets of their
/// SDUs take at most `least` ns. `is_overloaded` calls it.
fn cycle_work<A: Allocator + Copy>(gate: &CyclicList<GateEntry, A>, least: u64, share: u64) -> u64
    requires share { 1 ≤ share }
{
    let mut work = 0_u64;
    for entry in gate.entries() {
        if entry.0.lets {
            let octets = u64::from(entry.0.octets.unwrap_or(0));
            work = work.saturating_add(least.saturating_mul(octets) / share);
        }
    }
    work
}

/// Returns the time in ns for which `class` is open in one cycle of a port, at most `u64::MAX`. `is_overloaded` calls it.
fn open_time<A: Allocator + Copy>(list: &CyclicList<u8, A>, class: u8) -> u64
    requires class { class < 8 }
{
    let mut time = 0_u64;
    for entry in list.entries() {
        if is_open(entry.0, class) {
            time = time.saturating_add(entry.1);
        }
    }
    time
}

/// Whether more frames pass the stream gate in the long run than fit into the windows of `class`. Each `share` octets of SDUs take at most
/// `least` ns.
///
/// If so, each search would find a greater `carry`, and `gate_delay_bound` begins none.
fn is_overloaded<A: Allocator + Copy>(
    list: &CyclicList<u8, A>,
    class: u8,
    least: u64,
    gate: &CyclicList<GateEntry, A>,
    share: u64,
) -> bool
    requires class { class < 8 }
    requires share { 1 ≤ share }
{
    let passes = cycle_work(gate, least, share).saturating_mul(list.cycle());
    open_time(list, class).saturating_mul(gate.cycle()) < passes
}

/// Returns a delay bound in ns of a queue that has its link to itself while `class` is open. Transmissions take `least` to `occ` ns.
///
/// The frames pass a stream gate while it is open: each `share` octets take at most `least` ns.
///
/// Returns `None` if the class is always open, if more frames pass than fit into the windows, or if the search takes too long.
/// `lists_gate_bound` calls it.
pub fn gate_delay_bound<A: Allocator + Copy>(
    list: &CyclicList<u8, A>,
    class: u8,
    occ: u64,
    least: u64,
    gate: &CyclicList<GateEntry, A>,
    share: u64,
) -> Option<u64>
    requires class { class < 8 }
    requires some { 1 ≤ occ }
    requires occ { occ ≤ LONGEST_CYCLE }
    requires least { least ≤ 200_000 }
    requires share { 1 ≤ share }
    requires lawful { IsLawful list.now }
    requires ever { list_can_fit list.now class occ ≡ true }
    requires gated { IsLawful gate.now }
    ensures { IfSome result (IsIntervalBound (list_opens list.now class) (gate_opens gate.now) occ least
        (last_opening gate.now) (opening_work gate.now least share)) }
{
    let Some(_) = find_closed(list, class) else {
        return None;
    };
    if is_overloaded(list, class, least, gate, share) {
        return None;
    }
    let common = common_cycle(list.cycle(), gate.cycle())?;
    let first = next_opening(gate, gate.turn(0).end)?;
    let mut carry = 0;
    for _search in 0..MOST_SEARCHES {
        let delays = visit_openings(list, class, occ, least, gate, share, first, common, carry)?;
        if delays.carry <= carry {
            return Some(delays.longest);
        }
        if delays.carry > LONGEST_CARRY {
            return None;
        }
        carry = delays.carry;
    }
    None
}
