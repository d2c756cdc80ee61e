//! Merges the lists of the stream gates of the filters that share a queue into one gate control list.
ghost use Rattle.std.specs.Prelude.{◌≡◌, ◌≤◌, ◌<◌, ◌+◌, ◌%◌, IfOk, IfSome, ℕ, Some, length, nat_eq, true};
ghost use Rattle.std.specs.List.{list_all};
ghost use Rattle.bridge_limits.specs.Members.{IsMember};
ghost use Rattle.bridge_cycle.specs.Cyclic.{Cyclic, IsLawful};
ghost use Rattle.bridge_gate.specs.declared.schedule.GateEntry.{GateEntry as Entry};
ghost use Rattle.bridge_groups.specs.GateIntervals.{turn_limit};
ghost use Rattle.bridge_groups.specs.MergedGates as spec;

use crate::gate_bounds::are_limited;
use crate::opening_bound::common_cycle;
use bridge_check::find_gate;
use bridge_config::Plan;
use bridge_cycle::{CyclicList, LONGEST_CYCLE, ListFault, MAX_ENTRIES, NoMemory, Timeline, Turn};
use bridge_filter::FilterPlan;
use bridge_gate::{GateEntry, Schedule};
use std::alloc::Allocator;

/// Most stream gates whose lists are merged. `merged_list` visits each gate once for each entry of the merged list.
const MOST_GATES: usize = 256;

/// Returns the list of a filter's stream gate. `None` if the gate has a fixed state or a schedule change, or if an open entry has no octet
/// limit. `gate_lists` calls it.
fn gate_list<'a, A: Allocator + Copy>(
    plan: &'a Plan<A>,
    filter: &FilterPlan,
) -> Option<&'a CyclicList<GateEntry, A>>
    ensures { IfSome result (λ l. spec.IsGateList plan.now filter.now l.now) }
{
    let gate = find_gate(plan.gates(), filter.gate)?;
    let Schedule::Cyclic(list) = &gate.schedule else {
        return None;
    };
    if !are_limited(list.entries()) {
        return None;
    }
    Some(list)
}

/// Returns copies of the lists of the filters' stream gates, in the order of the filters. Returns `None` if `gate_list` returns `None` for
/// a filter. `gate_figures` calls it.
pub(crate) fn gate_lists<A: Allocator + Copy>(
    alloc: A,
    plan: &Plan<A>,
    sharers: &[(u32, FilterPlan)],
) -> Result<Option<Vec<CyclicList<GateEntry, A>, A>>, NoMemory>
    ensures { IfOk result (λ o. IfSome o (λ v. spec.AreGateLists plan.now sharers.now v.items)) }
{
    let mut lists = Vec::new(alloc);
    for sharer in sharers {
        let Some(list) = gate_list(plan, &sharer.1) else {
            return Ok(None);
        };
        let Ok(copy) = list.copy(alloc) else {
            return Err(NoMemory);
        };
        let Ok(()) = lists.push(copy) else {
            return Err(NoMemory);
        };
    }
    Ok(Some(lists))
}

/// Whether `cycle` ns are a multiple of each list's cycle time. `gates_cycle` calls it.
fn is_common_cycle<A: Allocator + Copy>(lists: &[CyclicList<GateEntry, A>], cycle: u64) -> bool
    ensures { result ≡ list_all (λ l. nat_eq (cycle % l.cycle) 0) lists.now }
{
    for list in lists {
        if cycle % list.cycle() != 0 {
            return false;
        }
    }
    true
}

/// Returns a common multiple in ns of the lists' cycle times; 1 without lists. Returns `None` if the search finds none up to
/// `LONGEST_CYCLE`. `merged_list` and `are_lists_apart` call it.
pub(crate) fn gates_cycle<A: Allocator + Copy>(lists: &[CyclicList<GateEntry, A>]) -> Option<u64>
    ensures common { IfSome result (λ n. list_all (λ l. nat_eq (n % l.cycle) 0) lists.now ≡ true) }
    ensures some { IfSome result (λ n. (1 ≤ n) × (n ≤ LONGEST_CYCLE)) }
{
    let mut cycle = 1;
    for list in lists {
        cycle = common_cycle(list.cycle(), cycle)?;
        if cycle > LONGEST_CYCLE {
            return None;
        }
    }
    if is_common_cycle(lists, cycle) {
        Some(cycle)
    } else {
        None
    }
}

/// Returns the octet limit of an open interval; 0 if the gate is closed or has no limit. `limit_sum` calls it.
fn open_limit(turn: &Turn<GateEntry>) -> u64
    ensures limit { result ≡ turn_limit (Some turn.now) }
    ensures few { result ≤ 4_294_967_295 }
{
    if !turn.state.lets {
        return 0;
    }
    match turn.state.octets {
        None => 0,
        Some(octets) => u64::from(octets),
    }
}

/// Returns the sum of the octet limits of the gates that are open at `at` ns. `merged_entry` calls it.
fn limit_sum<A: Allocator + Copy>(lists: &[CyclicList<GateEntry, A>], at: u64) -> u64
    requires few { length lists.now ≤ MOST_GATES }
    requires at { at < LONGEST_CYCLE }
    ensures { result ≡ spec.limit_sum lists.now at }
{
    let mut sum = 0;
    for list in lists {
        sum += open_limit(&list.turn(at));
    }
    sum
}

/// Whether at least one of the gates is open at `at` ns. `merged_entry` calls it.
fn is_any_open<A: Allocator + Copy>(lists: &[CyclicList<GateEntry, A>], at: u64) -> bool
    requires at { at < LONGEST_CYCLE }
    ensures { result ≡ spec.is_any_open lists.now at }
{
    for list in lists {
        if list.turn(at).state.lets {
            return true;
        }
    }
    false
}

/// Returns the earliest end in ns of the gates' intervals at `at` ns, at most `until`. `merged_entry` calls it.
fn first_end<A: Allocator + Copy>(lists: &[CyclicList<GateEntry, A>], at: u64, until: u64) -> u64
    requires at { at < until }
    requires until { until ≤ LONGEST_CYCLE }
    ensures end { result ≡ spec.first_end lists.now at until }
    ensures after { at < result }
    ensures upto { result ≤ until }
{
    let mut end = until;
    for list in lists {
        end = end.min(list.turn(at).end);
    }
    end
}

/// Returns the entry of the merged list for the gates' intervals at `at` ns, which ends at `until` at the latest. `None` if the limits
/// together exceed a `u32`. `merged_entries` calls it.
fn merged_entry<A: Allocator + Copy>(
    lists: &[CyclicList<GateEntry, A>],
    at: u64,
    until: u64,
) -> Option<(GateEntry, u64)>
    requires few { length lists.now ≤ MOST_GATES }
    requires at { at < until }
    requires until { until ≤ LONGEST_CYCLE }
    ensures some { IfSome result (λ e. (1 ≤ e.1) × (at + e.1 ≤ until)) }
    ensures opens { IfSome result (λ e. spec.is_any_open lists.now at ≡ true → e.0.lets ≡ true) }
    ensures limit { IfSome result (λ e. spec.limit_sum lists.now at ≤ spec.entry_limit e.0) }
    ensures end { IfSome result (λ e. at + e.1 ≡ spec.first_end lists.now at until) }
{
    let Ok(octets) = u32::try_from(limit_sum(lists, at)) else {
        return None;
    };
    let entry = GateEntry {
        lets: is_any_open(lists, at) || octets > 0,
        ipv: None,
        octets: Some(octets),
    };
    Some((entry, first_end(lists, at, until) - at))
}

/// Returns the entries of the merged list for one common cycle of `cycle` ns. `None` if they are too many for a list, or if octet limits
/// together exceed a `u32`. `merged_list` calls it.
fn merged_entries<A: Allocator + Copy>(
    alloc: A,
    lists: &[CyclicList<GateEntry, A>],
    cycle: u64,
) -> Result<Option<Vec<(GateEntry, u64), A>>, NoMemory>
    requires few { length lists.now ≤ MOST_GATES }
    requires cycle { cycle ≤ LONGEST_CYCLE }
    ensures { IfOk result (λ o. IfSome o (λ v. spec.AreMergedEntries lists.now v.items 0 cycle)) }
{
    let mut entries = Vec::new(alloc);
    let mut seen = 0;
    while seen < cycle {
        if entries.len() >= MAX_ENTRIES {
            return Ok(None);
        }
        let Some(entry) = merged_entry(lists, seen, cycle) else {
            return Ok(None);
        };
        let Ok(()) = entries.push(entry) else {
            return Err(NoMemory);
        };
        seen += entry.1;
    }
    Ok(Some(entries))
}

/// Returns one list for several stream gates: open while at least one is open, with the sum of the octet limits of the open gates.
///
/// Returns `None` if there are more than `MOST_GATES` lists, or if they have no common cycle up to `LONGEST_CYCLE`. It also returns `None`
/// if the merged list would be invalid. `gate_figures` calls it.
pub(crate) fn merged_list<A: Allocator + Copy>(
    alloc: A,
    lists: &[CyclicList<GateEntry, A>],
) -> Result<Option<CyclicList<GateEntry, A>>, NoMemory>
    requires lawful { (l : Cyclic Entry) → IsMember l lists.now → IsLawful l }
    ensures { IfOk result (λ o. IfSome o (spec.IsMergedList lists.now)) }
{
    if lists.len() > MOST_GATES {
        return Ok(None);
    }
    let Some(cycle) = gates_cycle(lists) else {
        return Ok(None);
    };
    let Ok(found) = merged_entries(alloc, lists, cycle) else {
        return Err(NoMemory);
    };
    let Some(entries) = found else {
        return Ok(None);
    };
    match CyclicList::new(alloc, 0, cycle, entries) {
        Ok(list) => {
            let _ = list.cycle();
            Ok(Some(list))
        }
        Err(ListFault::NoMemory) => Err(NoMemory),
        Err(_) => Ok(None),
    }
}
