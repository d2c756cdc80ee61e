//! Tests whether a period suits the cycles of a plan, and the faults of traffic rows compared with a plan.
ghost use Rattle.std.specs.Prelude.{◌≡◌, ◌||◌, ◌+◌, ◌<◌, ◌≤◌, length, nat_eq, option_map};
ghost use Rattle.std.specs.Map.{lookup};
ghost use Rattle.bridge_check.specs.Reach.{some_number_passes, reaches_queue};
ghost use Rattle.bridge_check.specs.ReachTables.{filter_reach};
ghost use Rattle.net_latency.specs.Traffic as spec;
ghost use Rattle.net_latency.specs.TalkerRows as kinds;

use crate::bounds::is_reached;
use bridge_bounds::find_filter;
use bridge_check::{Reach, filter_reach, find_gate};
use bridge_config::{Plan, PortPlan};
use bridge_cycle::{Egress, Timeline};
use bridge_filter::FilterPlan;
use bridge_gate::Schedule;
use net_file::{
    NetFault, NetField, NetKeyLocation, NetSection, TalkerRow, TrafficFault, TrafficRow,
};
use std::alloc::Allocator;

/// Returns whether a period, in ns, is a multiple of each cycle time of a stream gate: of the old and of the new list. Returns true for a
/// fixed gate, which has no cycle.
///
/// `suits_gate` calls it.
fn suits_schedule<A: Allocator + Copy>(period: u64, schedule: &Schedule<A>) -> bool
    ensures { result ≡ spec.suits_schedule period schedule.now }
{
    match schedule {
        Schedule::Fixed { lets: _, ipv: _ } => true,
        Schedule::Cyclic(list) => period % list.cycle() == 0,
        Schedule::Joined(joined) => {
            let (old, new) = joined.lists();
            period % old.cycle() == 0 && period % new.cycle() == 0
        }
    }
}

/// Returns whether a period in ns is a multiple of each cycle time of a port: of the old and of the new list. Returns true without a list.
/// `suits_port` calls it.
fn suits_lists<A: Allocator + Copy>(period: u64, lists: &Option<Egress<A>>) -> bool
    ensures { result ≡ spec.suits_lists period lists.now }
{
    match lists {
        None => true,
        Some(Egress::Cyclic(list)) => period % list.cycle() == 0,
        Some(Egress::Joined(joined)) => {
            let (old, new) = joined.lists();
            period % old.cycle() == 0 && period % new.cycle() == 0
        }
    }
}

/// Returns whether a period, in ns, is a multiple of the cycle times of the stream gate `gate`. Returns true if the gate is missing.
/// `suits` calls it.
fn suits_gate<A: Allocator + Copy>(plan: &Plan<A>, gate: u32, period: u64) -> bool
    ensures { result ≡ spec.suits_gate period (lookup (nat_eq gate) plan.now.gates) }
{
    match find_gate(plan.gates(), gate) {
        None => true,
        Some(gate) => suits_schedule(period, &gate.schedule),
    }
}

/// Returns whether `a` or `b` is true. The loops of `can_wait_at_port` and `has_misfit` call it to combine their results.
fn either(a: bool, b: bool) -> bool
    ensures { result ≡ (a || b) }
{
    a || b
}

/// Returns whether the filter has a reachable queue at a port, in any class. `reach` is the filter's reach. `has_misfit_at_port` and
/// `put_ports` call it.
pub(crate) fn can_wait_at_port<A: Allocator + Copy>(
    plan: &Plan<A>,
    filter: &FilterPlan,
    reach: &Reach,
    port: u8,
) -> bool
    requires reach { reach.now ≡ filter_reach plan.now filter.now }
    requires from { 1 ≤ port }
    requires to { port ≤ 16 }
    ensures { result ≡ some_number_passes 8 (λ c. reaches_queue plan.now filter.now port c) }
{
    let mut found = false;
    for class in 0..8u8 {
        let here = is_reached(plan, filter, reach, port, class);
        found = either(found, here);
    }
    found
}

/// Returns whether a period, in ns, is a multiple of the cycle times of a port. Returns true if the port is missing. `has_misfit_at_port`
/// calls it.
fn suits_port<A: Allocator + Copy>(period: u64, port: Option<&PortPlan<A>>) -> bool
    ensures { result ≡ spec.suits_port period (option_map (λ p. p.now) port.entry) }
{
    match port {
        None => true,
        Some(port) => suits_lists(period, &port.list),
    }
}

/// Returns whether the filter has a reachable queue at `port`, and the period, in ns, isn't a multiple of the port's cycle times.
/// `has_misfit` calls it.
fn has_misfit_at_port<A: Allocator + Copy>(
    plan: &Plan<A>,
    filter: &FilterPlan,
    reach: &Reach,
    period: u64,
    port: u8,
) -> bool
    requires reach { reach.now ≡ filter_reach plan.now filter.now }
    requires from { 1 ≤ port }
    requires to { port ≤ 16 }
    ensures { result ≡ spec.has_misfit_at_port plan.now filter.now period port }
{
    let comes = can_wait_at_port(plan, filter, reach, port);
    let suits = suits_port(period, plan.port(port));
    comes && !suits
}

/// Returns whether the filter has a reachable queue at some port, and the period, in ns, isn't a multiple of this port's cycle times.
/// `suits` calls it.
fn has_misfit<A: Allocator + Copy>(
    plan: &Plan<A>,
    filter: &FilterPlan,
    reach: &Reach,
    period: u64,
) -> bool
    requires reach { reach.now ≡ filter_reach plan.now filter.now }
    ensures { result ≡ some_number_passes 16 (λ i. spec.has_misfit_at_port plan.now filter.now period (i + 1)) }
{
    let mut found = false;
    for place in 0..16u8 {
        let here = has_misfit_at_port(plan, filter, reach, period, place + 1);
        found = either(found, here);
    }
    found
}

/// Returns whether a period, in ns, is a multiple of each cycle time on a filter's route. The route has its stream gate, and each port with
/// a reachable queue. `suits_filter` and `row_fault` call it.
pub(crate) fn suits<A: Allocator + Copy>(plan: &Plan<A>, filter: &FilterPlan, period: u64) -> bool
    ensures { result ≡ spec.suits plan.now filter.now period }
{
    if !suits_gate(plan, filter.gate, period) {
        return false;
    }
    let reach = filter_reach(plan, filter);
    !has_misfit(plan, filter, &reach, period)
}

/// Returns the fault of periodic row `index`. The row has a fault if its filter is missing or unprotected, or its period isn't a multiple
/// of a cycle time on the route.
///
/// Returns `None` if the row has no fault. `talker_row_fault` calls it.
pub(crate) fn row_fault<A: Allocator + Copy>(
    plan: &Plan<A>,
    index: u32,
    row: &TrafficRow,
) -> Option<TrafficFault>
    ensures { result ≡ spec.row_fault plan.now index row.now }
{
    let Some(filter) = find_filter(plan.filters(), row.filter) else {
        return Some(TrafficFault::Text(NetFault::Unresolved(NetKeyLocation {
            section: NetSection::Traffic,
            index,
            field: NetField::Filter,
        })));
    };
    if !filter.protected {
        return Some(TrafficFault::NotProtected(index));
    }
    if !suits(plan, &filter, row.traffic.period) {
        return Some(TrafficFault::Text(NetFault::OutOfRange(NetKeyLocation {
            section: NetSection::Traffic,
            index,
            field: NetField::Period,
        })));
    }
    None
}

/// Returns the fault of limited row `index`: its filter is missing or belongs to no group. Returns `None` if the row has no fault.
/// `talker_row_fault` calls it.
fn group_fault<A: Allocator + Copy>(plan: &Plan<A>, index: u32, filter: u32) -> Option<TrafficFault>
    ensures { result ≡ kinds.group_fault index (lookup (nat_eq filter) plan.now.filters) }
{
    let Some(filter) = find_filter(plan.filters(), filter) else {
        return Some(TrafficFault::Text(NetFault::Unresolved(NetKeyLocation {
            section: NetSection::Traffic,
            index,
            field: NetField::Filter,
        })));
    };
    match filter.group {
        Some(_) => None,
        None => Some(TrafficFault::NotGrouped(index)),
    }
}

/// Returns the fault of row `index`, from 1, compared with the plan. The filter of a periodic row may be missing or unprotected, or its
/// period may be no multiple of a cycle time.
///
/// The filter of a limited row may be missing or in no group. Returns `None` if the row has no fault. `explain_rows` and `traffic_fault`
/// call it.
pub(crate) fn talker_row_fault<A: Allocator + Copy>(
    plan: &Plan<A>,
    index: u32,
    row: &TalkerRow,
) -> Option<TrafficFault>
    ensures { result ≡ kinds.talker_row_fault plan.now index row.now }
{
    match row {
        TalkerRow::Periodic(row) => row_fault(plan, index, row),
        TalkerRow::Limited(row) => group_fault(plan, index, row.filter),
    }
}

/// Returns the first fault of the rows compared with the plan. A filter may be missing, unprotected or in no group, or a period no multiple
/// of a cycle time.
///
/// Returns `None` if no row has a fault. `check_and_report` calls it.
pub fn traffic_fault<A: Allocator + Copy>(
    plan: &Plan<A>,
    rows: &[TalkerRow],
) -> Option<TrafficFault>
    requires { length rows.now ≤ 1024 }
    ensures { result ≡ kinds.first_row_fault plan.now 1 rows.now }
{
    let mut index: u32 = 1;
    for row in rows {
        if let Some(fault) = talker_row_fault(plan, index, row) {
            return Some(fault);
        }
        index += 1;
    }
    None
}
