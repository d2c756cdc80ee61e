//! Finds parts of an accepted plan without effect: streams, stream gates, meters and filters.
ghost use Rattle.std.specs.Prelude.{◌≡◌, ◌<◌, IfSome};
ghost use Rattle.bridge_filter.specs.Verdicts.{is_priority_match};
ghost use Rattle.show_lint.specs.Filters as spec;

use crate::lint::push_warning;
use crate::warning::{
    ClosedFrom, HiddenFilter, LowOctetLimit, StaticToIngress, TakenTogether, Warning,
};
use bridge_config::Plan;
use bridge_filter::FilterPlan;
use bridge_forward::StaticEntry;
use bridge_gate::{GateEntry, GatePlan, Schedule};
use bridge_ident::{Kind, StreamEntry};
use bridge_meter::MeterPlan;
use std::alloc::{AllocError, Allocator};

/// Octets that a meter counts for the shortest frame: 60, plus 4 for the frame check sequence.
pub(crate) const SHORTEST: u64 = 64;

/// SDU octets of the shortest frame: its EtherType.
const LEAST_SDU: u32 = 2;

/// Returns whether at least one filter is protected or grouped. If none is, the plan has no guarantee. `find_unprotected` calls it.
fn has_tested(filters: &[(u32, FilterPlan)]) -> bool
    ensures { result ≡ spec.has_tested filters.now }
{
    for filter in filters {
        if filter.1.protected || filter.1.group.is_some() {
            return true;
        }
    }
    false
}

/// Adds a warning if no filter is protected or grouped: the plan then isolates no filter and bounds no delay. `find_plan_warnings` calls
/// it.
pub(crate) fn find_unprotected(
    found: &mut Vec<Warning>,
    filters: &[(u32, FilterPlan)],
) -> Result<(), AllocError> {
    if has_tested(filters) {
        return Ok(());
    }
    push_warning(found, Warning::NoneProtected)
}

/// Adds the warnings about streams, stream gates, meters and filters without effect. `find_plan_warnings` calls it.
pub(crate) fn find_unused_parts<A: Allocator + Copy>(
    found: &mut Vec<Warning>,
    plan: &Plan<A>,
) -> Result<(), AllocError> {
    find_streams(found, plan)?;
    find_gates(found, plan.gates(), plan.filters())?;
    find_meters(found, plan.meters())?;
    find_filters(found, plan)
}

/// Returns whether `entry` has the stream's VLAN and address, and its egress ports include the stream's ingress port. `is_sent_to_ingress`
/// calls it.
fn is_entry_to_ingress(stream: &StreamEntry, entry: &StaticEntry) -> bool {
    if stream.port == 0 || stream.port > 16 {
        return false;
    }
    entry.vid == stream.vid && entry.address == stream.address && entry.ports.has(stream.port)
}

/// Returns whether a stream is identified by destination, and the static entry names the stream's ingress port. `find_streams` calls it.
fn is_sent_to_ingress(stream: &StreamEntry, statics: &[StaticEntry]) -> bool {
    match stream.kind {
        Kind::Null => statics
            .iter()
            .any(|entry| is_entry_to_ingress(stream, entry)),
        Kind::Source => false,
    }
}

/// Returns whether the stream gate with number `number` is always closed, and false if the plan lacks it. `are_strays` calls it.
fn is_gate_closed<A: Allocator + Copy>(gates: &[(u32, GatePlan<A>)], number: u32) -> bool {
    for gate in gates {
        if gate.0 == number {
            return is_always_closed(&gate.1);
        }
    }
    false
}

/// Returns whether all filters of a handle are neither protected nor grouped, and have closed stream gates: they only refuse stray frames.
/// Returns false without a filter. `find_streams` calls it.
fn are_strays<A: Allocator + Copy>(plan: &Plan<A>, handle: u32) -> bool {
    let mut is_asked = false;
    for filter in plan.filters() {
        if filter.1.handle == Some(handle) {
            let is_tested = filter.1.protected || filter.1.group.is_some();
            if is_tested || !is_gate_closed(plan.gates(), filter.1.gate) {
                return false;
            }
            is_asked = true;
        }
    }
    is_asked
}

/// Adds a warning for each stream whose static entry names the stream's ingress port, unless the stream's filters only refuse stray frames.
/// `find_unused_parts` calls it.
fn find_streams<A: Allocator + Copy>(
    found: &mut Vec<Warning>,
    plan: &Plan<A>,
) -> Result<(), AllocError> {
    let mut place = 0usize;
    for stream in plan.streams() {
        place = place.saturating_add(1);
        if is_sent_to_ingress(stream, plan.statics()) && !are_strays(plan, stream.handle) {
            let StreamEntry { handle, port, .. } = *stream;
            let own = StaticToIngress {
                place,
                handle,
                port,
            };
            push_warning(found, Warning::OwnPort(own))?;
        }
    }
    Ok(())
}

/// Returns whether a stream gate is closed in all these entries of its list. `closing_time` and `is_always_closed` call it.
fn are_all_closed(entries: &[(GateEntry, u64)]) -> bool {
    entries.iter().all(|entry| !entry.0.lets)
}

/// Returns whether a stream gate is always closed, also after a schedule change. `find_gates` and `is_gate_closed` call it.
fn is_always_closed<A: Allocator + Copy>(gate: &GatePlan<A>) -> bool {
    match &gate.schedule {
        Schedule::Fixed { lets, .. } => !*lets,
        Schedule::Cyclic(list) => are_all_closed(list.entries()),
        Schedule::Joined(joined) => {
            let (old, new) = joined.lists();
            are_all_closed(old.entries()) && are_all_closed(new.entries())
        }
    }
}

/// Returns the time in ns of the schedule change that closes a stream gate for ever. Returns `None` without a change, if the gate opens
/// after it, or never opened before. `find_gates` calls it.
fn closing_time<A: Allocator + Copy>(gate: &GatePlan<A>) -> Option<u64> {
    match &gate.schedule {
        Schedule::Joined(joined) => {
            let (old, new) = joined.lists();
            if are_all_closed(new.entries()) && !are_all_closed(old.entries()) {
                Some(joined.change_time())
            } else {
                None
            }
        }
        _ => None,
    }
}

/// Returns the number of the first protected or grouped filter that uses stream gate `gate`. `None` if no protected or grouped filter does.
/// `find_gates` and `is_decision` call it.
fn tested_filter_with_gate(filters: &[(u32, FilterPlan)], gate: u32) -> Option<u32>
    ensures { result ≡ spec.tested_with gate filters.now }
{
    for filter in filters {
        if filter.1.gate == gate && (filter.1.protected || filter.1.group.is_some()) {
            return Some(filter.0);
        }
    }
    None
}

/// Returns whether at least one filter uses stream gate `gate`. `is_decision` calls it.
fn is_used(filters: &[(u32, FilterPlan)], gate: u32) -> bool
    ensures { result ≡ spec.is_used gate filters.now }
{
    for filter in filters {
        if filter.1.gate == gate {
            return true;
        }
    }
    false
}

/// Returns whether a filter uses stream gate `gate`, but no protected or grouped filter does. If it is closed, there is no warning: the
/// gate may refuse stray frames. `find_gates` calls it.
fn is_decision(filters: &[(u32, FilterPlan)], gate: u32) -> bool
    ensures { result ≡ spec.is_decision gate filters.now }
{
    is_used(filters, gate) && tested_filter_with_gate(filters, gate).is_none()
}

/// Adds a warning for each stream gate that is always closed, except gates that only unprotected filters use. Adds another for each
/// protected or grouped filter's gate that a schedule change closes. `find_unused_parts` calls it.
fn find_gates<A: Allocator + Copy>(
    found: &mut Vec<Warning>,
    gates: &[(u32, GatePlan<A>)],
    filters: &[(u32, FilterPlan)],
) -> Result<(), AllocError> {
    for (number, gate) in gates {
        let gate_number = *number;
        if is_always_closed(gate) {
            if !is_decision(filters, gate_number) {
                push_warning(found, Warning::ClosedGate { gate: gate_number })?;
            }
        } else if let (Some(at), Some(filter)) = (
            closing_time(gate),
            tested_filter_with_gate(filters, gate_number),
        ) {
            let closed = ClosedFrom {
                gate: gate_number,
                filter,
                at,
            };
            push_warning(found, Warning::ClosedFrom(closed))?;
        }
    }
    Ok(())
}

/// Adds a warning for each meter whose buckets are smaller than the shortest frame, or never refill. `find_unused_parts` calls it.
fn find_meters(found: &mut Vec<Warning>, meters: &[(u32, MeterPlan)]) -> Result<(), AllocError> {
    for (number, meter) in meters {
        if meter.cbs < SHORTEST && meter.ebs < SHORTEST {
            push_warning(found, Warning::NoToken { meter: *number })?;
        } else if meter.cir == 0 && meter.eir == 0 {
            push_warning(found, Warning::NoTokenRefill { meter: *number })?;
        }
    }
    Ok(())
}

/// Adds the warnings about filters that match no frame, are hidden by others, refuse every length, or have a gate with a low octet limit.
/// `find_unused_parts` calls it.
fn find_filters<A: Allocator + Copy>(
    found: &mut Vec<Warning>,
    plan: &Plan<A>,
) -> Result<(), AllocError> {
    for (number, filter) in plan.filters() {
        find_unused_handle(found, plan.streams(), *number, filter)?;
        find_hidden_filter(found, plan.filters(), *number, filter)?;
        find_no_length(found, *number, filter)?;
        find_low_limit(found, plan.gates(), *number, filter)?;
    }
    Ok(())
}

/// Adds a warning if filter `number` names a handle that no stream has: then it matches no frame. `find_filters` calls it.
fn find_unused_handle(
    found: &mut Vec<Warning>,
    streams: &[StreamEntry],
    number: u32,
    filter: &FilterPlan,
) -> Result<(), AllocError> {
    let Some(handle) = filter.handle else {
        return Ok(());
    };
    if streams.iter().any(|stream| stream.handle == handle) {
        return Ok(());
    }
    let filter = number;
    push_warning(found, Warning::NoStream { filter, handle })
}

/// Returns whether a filter with handle `one` matches each frame that a filter with handle `other` matches. `None` matches every handle.
/// `covers_filter` and `taking_filter` call it.
fn covers_handle(one: Option<u32>, other: Option<u32>) -> bool
    ensures { result ≡ spec.covers one other }
{
    match (one, other) {
        (None, _) => true,
        (Some(one), Some(other)) => one == other,
        (Some(_), None) => false,
    }
}

/// Returns whether a filter with priority `one` matches each frame that a filter with priority `other` matches. `None` matches every
/// priority. `covers_filter` calls it.
fn covers_priority(one: Option<u8>, other: Option<u8>) -> bool
    ensures { result ≡ spec.covers one other }
{
    match (one, other) {
        (None, _) => true,
        (Some(one), Some(other)) => one == other,
        (Some(_), None) => false,
    }
}

/// Returns whether filter `one` matches each frame that filter `other` matches. `first_hiding_filter` calls it.
fn covers_filter(one: &FilterPlan, other: &FilterPlan) -> bool
    ensures { result ≡ spec.covers_filter one.now other.now }
{
    covers_handle(one.handle, other.handle) && covers_priority(one.priority, other.priority)
}

/// Returns the number of the first filter below `number` that matches each frame of `filter`. `None` if no filter does.
/// `find_hidden_filter` calls it.
fn first_hiding_filter(
    filters: &[(u32, FilterPlan)],
    number: u32,
    filter: &FilterPlan,
) -> Option<u32>
    ensures { result ≡ spec.first_hiding_filter filter.now number filters.now }
{
    for (lower, one) in filters {
        if *lower < number && covers_filter(one, filter) {
            return Some(*lower);
        }
    }
    None
}

/// Returns whether a filter with the optional priority `own` matches frames of `priority`. `None` matches every priority. `taking_filter`
/// calls it.
fn takes_value(own: Option<u8>, priority: u8) -> bool
    ensures { result ≡ is_priority_match own priority }
{
    match own {
        None => true,
        Some(own) => own == priority,
    }
}

/// Returns the number of the first filter below `number` that matches each frame of `filter` with priority `priority`. `None` if no filter
/// does. `is_priority_taken` and `taking_filters` call it.
fn taking_filter(
    filters: &[(u32, FilterPlan)],
    number: u32,
    filter: &FilterPlan,
    priority: u8,
) -> Option<u32>
    ensures { result ≡ spec.taker_at filter.now number priority filters.now }
{
    for (lower, one) in filters {
        if *lower < number
            && covers_handle(one.handle, filter.handle)
            && takes_value(one.priority, priority)
        {
            return Some(*lower);
        }
    }
    None
}

/// Returns whether a filter with a lower number matches each frame of `filter` with priority `priority`. `are_all_taken` calls it.
fn is_priority_taken(
    filters: &[(u32, FilterPlan)],
    number: u32,
    filter: &FilterPlan,
    priority: u8,
) -> bool
    ensures { result ≡ spec.is_taken_at filter.now number priority filters.now }
{
    taking_filter(filters, number, filter, priority).is_some()
}

/// Returns whether filters with lower numbers match all frames of `filter`, for all priorities. `find_hidden_filter` calls it.
fn are_all_taken(filters: &[(u32, FilterPlan)], number: u32, filter: &FilterPlan) -> bool
    ensures { result ≡ spec.are_all_taken filter.now number filters.now }
{
    is_priority_taken(filters, number, filter, 0)
        & is_priority_taken(filters, number, filter, 1)
        & is_priority_taken(filters, number, filter, 2)
        & is_priority_taken(filters, number, filter, 3)
        & is_priority_taken(filters, number, filter, 4)
        & is_priority_taken(filters, number, filter, 5)
        & is_priority_taken(filters, number, filter, 6)
        & is_priority_taken(filters, number, filter, 7)
}

/// Returns for each priority, from 0, the number of the first filter below `number` that matches the frames of `filter`. The number is 0 if
/// no filter matches. `find_hidden_filter` calls it.
fn taking_filters(filters: &[(u32, FilterPlan)], number: u32, filter: &FilterPlan) -> [u32; 8] {
    let mut takers = [0u32; 8];
    for priority in 0..8u8 {
        takers[priority as usize] = taking_filter(filters, number, filter, priority).unwrap_or(0);
    }
    takers
}

/// Adds a warning if one filter below `number` matches all frames of filter `number` or, for a filter without priority, several together
/// do. `find_filters` calls it.
fn find_hidden_filter(
    found: &mut Vec<Warning>,
    filters: &[(u32, FilterPlan)],
    number: u32,
    filter: &FilterPlan,
) -> Result<(), AllocError> {
    if let Some(lower) = first_hiding_filter(filters, number, filter) {
        let taken = HiddenFilter {
            filter: number,
            lower,
        };
        return push_warning(found, Warning::HiddenFilter(taken));
    }
    if filter.priority.is_some() || !are_all_taken(filters, number, filter) {
        return Ok(());
    }
    let taken = TakenTogether {
        filter: number,
        takers: taking_filters(filters, number, filter),
    };
    push_warning(found, Warning::TakenTogether(taken))
}

/// Adds a warning if the SDU of every frame is longer than the largest SDU of filter `number`. Then the filter refuses all frames.
/// `find_filters` calls it.
fn find_no_length(
    found: &mut Vec<Warning>,
    number: u32,
    filter: &FilterPlan,
) -> Result<(), AllocError> {
    match filter.max_sdu {
        Some(sdu) if sdu < LEAST_SDU => {
            let filter = number;
            push_warning(found, Warning::NoLength { filter, sdu })
        }
        _ => Ok(()),
    }
}

/// Returns the first octet limit of an open entry that is less than `sdu` octets. `None` if no limit is less. `low_schedule_limit` calls
/// it.
fn first_low_limit(entries: &[(GateEntry, u64)], sdu: u32) -> Option<u32>
    ensures { IfSome result (λ octets. octets < sdu) }
{
    for entry in entries {
        if entry.0.lets {
            if let Some(octets) = entry.0.octets {
                if octets < sdu {
                    return Some(octets);
                }
            }
        }
    }
    None
}

/// Returns the first octet limit of a stream gate's open entries that is less than `sdu` octets. `None` if no limit is less. The old list
/// comes before the new list. `low_gate_limit` calls it.
fn low_schedule_limit<A: Allocator + Copy>(schedule: &Schedule<A>, sdu: u32) -> Option<u32>
    ensures { IfSome result (λ octets. octets < sdu) }
{
    match schedule {
        Schedule::Fixed { .. } => None,
        Schedule::Cyclic(list) => first_low_limit(list.entries(), sdu),
        Schedule::Joined(joined) => {
            let (old, new) = joined.lists();
            first_low_limit(old.entries(), sdu).or(first_low_limit(new.entries(), sdu))
        }
    }
}

/// Returns the first octet limit of stream gate `number` that is less than `sdu`. Returns `None` if no limit is less, or if the gate is
/// missing. `find_low_limit` calls it.
fn low_gate_limit<A: Allocator + Copy>(
    gates: &[(u32, GatePlan<A>)],
    number: u32,
    sdu: u32,
) -> Option<u32>
    ensures { IfSome result (λ octets. octets < sdu) }
{
    for gate in gates {
        if gate.0 == number {
            return low_schedule_limit(&gate.1.schedule, sdu);
        }
    }
    None
}

/// Adds a warning if an open entry of filter `number`'s stream gate passes fewer octets than the filter's largest SDU. `find_filters` calls
/// it.
fn find_low_limit<A: Allocator + Copy>(
    found: &mut Vec<Warning>,
    gates: &[(u32, GatePlan<A>)],
    number: u32,
    filter: &FilterPlan,
) -> Result<(), AllocError> {
    let Some(sdu) = filter.max_sdu else {
        return Ok(());
    };
    let Some(octets) = low_gate_limit(gates, filter.gate, sdu) else {
        return Ok(());
    };
    let below = LowOctetLimit {
        gate: filter.gate,
        octets,
        sdu,
        filter: number,
    };
    push_warning(found, Warning::LowOctetLimit(below))
}
