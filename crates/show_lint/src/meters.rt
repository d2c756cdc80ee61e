//! Finds meters that refuse frames of a protected or grouped filter, for the warnings `SmallBurst` and `LowRate`.
use crate::gate_openings::{
    OfferedLoad, change_stages, gate_list, gate_openings, has_gate_change, longest_length,
    offered_load, total_count,
};
use crate::lint::push_warning;
use crate::unused_parts::SHORTEST;
use crate::warning::{LowRate, ScheduleStage, SmallBurst, Warning};
use bridge_check::find_gate;
use bridge_config::Plan;
use bridge_cycle::{CyclicList, Timeline};
use bridge_filter::FilterPlan;
use bridge_gate::GateEntry;
use bridge_meter::MeterPlan;
use std::alloc::{AllocError, Allocator, Global};

/// Returns the octets that a meter counts for a frame of `length` octets: padded to at least 60, plus 4 for the frame check sequence.
/// `find_meter_warnings` and `low_rate` call it.
fn metered_octets(length: u32) -> u32 {
    length.max(60).saturating_add(4)
}

/// Returns the meter with number `number`. `None` if the list lacks it. `add` and `find_meter_warnings` call it.
pub(crate) fn find_meter(meters: &[(u32, MeterPlan)], number: u32) -> Option<MeterPlan> {
    for meter in meters {
        if meter.0 == number {
            return Some(meter.1);
        }
    }
    None
}

/// Adds warnings about the meter of filter `number`, protected or grouped: buckets too small, or a rate too low. Does nothing without a
/// meter or a largest SDU. `find_plan_warnings` calls it.
pub(crate) fn find_meter_warnings<A: Allocator + Copy>(
    alloc: Global,
    found: &mut Vec<Warning>,
    plan: &Plan<A>,
    number: u32,
    filter: &FilterPlan,
) -> Result<(), AllocError> {
    let (Some(meter), Some(sdu)) = (filter.meter, filter.max_sdu) else {
        return Ok(());
    };
    let Some(limits) = find_meter(plan.meters(), meter) else {
        return Ok(());
    };
    find_burst(
        found,
        number,
        meter,
        &limits,
        metered_octets(longest_length(sdu)),
    )?;
    find_rates(alloc, found, plan, number, filter, &limits)
}

/// Returns whether all buckets that a frame may use are smaller than `octets`. Then the meter refuses each frame of this length.
/// `find_burst` calls it.
fn has_small_buckets(limits: &MeterPlan, octets: u32) -> bool {
    let octets = u64::from(octets);
    limits.cbs < octets && (limits.drop_yellow || limits.ebs < octets)
}

/// Adds a warning if the buckets of filter `filter`'s meter are smaller than its longest frame, which has `octets` metered octets.
///
/// Adds none if they are smaller than the shortest frame, for which there is the warning `NoToken`.
///
/// `find_meter_warnings` calls it.
fn find_burst(
    found: &mut Vec<Warning>,
    filter: u32,
    meter: u32,
    limits: &MeterPlan,
    octets: u32,
) -> Result<(), AllocError> {
    if limits.cbs < SHORTEST && limits.ebs < SHORTEST {
        return Ok(());
    }
    if !has_small_buckets(limits, octets) {
        return Ok(());
    }
    let burst = SmallBurst {
        filter,
        meter,
        cbs: limits.cbs,
        ebs: limits.ebs,
        drops_yellow: limits.drop_yellow,
        octets,
    };
    push_warning(found, Warning::SmallBurst(burst))
}

/// Returns the octets for which a meter gets tokens in `cycle` ns. Tokens of the excess bucket don't count if the meter drops yellow
/// frames. `low_rate` calls it.
fn tokens_per_cycle(limits: &MeterPlan, cycle: u64) -> u64 {
    let excess = if limits.drop_yellow { 0 } else { limits.eir };
    let rate = u128::from(limits.cir.saturating_add(excess));
    let octets = rate.saturating_mul(u128::from(cycle)) / 8_000_000_000;
    octets.min(u128::from(u64::MAX)) as u64
}

/// Adds a warning if a cycle of filter `number`'s stream gate can pass more octets than the meter gets tokens. With a schedule change,
/// tests both lists. `find_meter_warnings` calls it.
fn find_rates<A: Allocator + Copy>(
    alloc: Global,
    found: &mut Vec<Warning>,
    plan: &Plan<A>,
    number: u32,
    filter: &FilterPlan,
    limits: &MeterPlan,
) -> Result<(), AllocError> {
    let (Some(handle), Some(sdu)) = (filter.handle, filter.max_sdu) else {
        return Ok(());
    };
    let Some(gate) = find_gate(plan.gates(), filter.gate) else {
        return Ok(());
    };
    let feed = offered_load(plan, handle, sdu);
    for stage in change_stages(has_gate_change(&gate.schedule)) {
        if let Some(list) = gate_list(&gate.schedule, *stage) {
            if let Some(rate) = low_rate(alloc, *stage, number, filter, limits, &feed, list)? {
                push_warning(found, Warning::LowRate(rate))?;
            }
        }
    }
    Ok(())
}

/// Returns the warning `LowRate` about filter `number` if its meter gets fewer tokens in a cycle of `list` than the gate passes octets,
/// otherwise `None`. `find_rates` calls it.
fn low_rate<A: Allocator + Copy>(
    alloc: Global,
    stage: ScheduleStage,
    number: u32,
    filter: &FilterPlan,
    limits: &MeterPlan,
    feed: &OfferedLoad,
    list: &CyclicList<GateEntry, A>,
) -> Result<Option<LowRate>, AllocError> {
    let Some(meter) = filter.meter else {
        return Ok(None);
    };
    let openings = gate_openings(alloc, list, feed)?;
    let count = total_count(&openings);
    let octets = count.saturating_mul(u64::from(metered_octets(feed.length)));
    let cycle = list.cycle();
    let tokens = tokens_per_cycle(limits, cycle);
    if octets <= tokens {
        return Ok(None);
    }
    Ok(Some(LowRate {
        stage,
        filter: number,
        meter,
        gate: filter.gate,
        cycle,
        count,
        octets,
        tokens,
        drops_yellow: limits.drop_yellow,
    }))
}
