//! Finds warnings about the queues of protected filters: overload, small capacity, long waits and cycles that don't match.
ghost use Rattle.std.specs.Prelude.{◌<◌, ◌≤◌};

use crate::gate_openings::{
    GateOpening, OfferedLoad, change_stages, gate_list, gate_openings, has_gate_change,
    has_port_change, offered_load, port_list,
};
use crate::hypercycle::aligned_period;
use crate::lint::push_warning;
use crate::queue_warnings::{ScheduledQueue, find_long_wait, find_overload, find_small_queue};
use crate::warning::{CycleMismatch, QueueId, ScheduleStage, Warning};
use bridge_check::{can_wait, filter_reach, find_gate};
use bridge_config::{Plan, PortPlan};
use bridge_cycle::Timeline;
use bridge_filter::FilterPlan;
use bridge_frame::occupation;
use bridge_gate::GatePlan;
use std::alloc::{AllocError, Allocator, Global};

/// Protected filter with its stream gate and its greatest load: the input of all searches for queue warnings.
#[derive(Drop)]
struct ProtectedFilter<'a, A: Allocator + Copy> {
    plan: &'a Plan<A>,
    number: u32,
    filter: &'a FilterPlan,
    gate: &'a GatePlan<A>,
    feed: OfferedLoad,
}

/// Adds warnings about the queues of protected filter `number`: overload, small capacity, long waits and cycles that don't match. Does
/// nothing if the filter lacks a handle, a largest SDU or a stream gate.
///
/// `find_plan_warnings` calls it.
pub(crate) fn find_queues<A: Allocator + Copy>(
    alloc: Global,
    found: &mut Vec<Warning>,
    plan: &Plan<A>,
    number: u32,
    filter: &FilterPlan,
) -> Result<(), AllocError> {
    let (Some(handle), Some(sdu)) = (filter.handle, filter.max_sdu) else {
        return Ok(());
    };
    let Some(gate) = find_gate(plan.gates(), filter.gate) else {
        return Ok(());
    };
    let case = ProtectedFilter {
        plan,
        number,
        filter,
        gate,
        feed: offered_load(plan, handle, sdu),
    };
    let reach = filter_reach(plan, filter);
    for port in 1..17u8 {
        if reach.ports[port as usize - 1] {
            find_port_warnings(alloc, found, &case, port)?;
        }
    }
    Ok(())
}

/// Adds warnings about each queue of a protected filter at port `number`, then about cycles; none if the port is missing. `find_queues`
/// calls it.
fn find_port_warnings<A: Allocator + Copy>(
    alloc: Global,
    found: &mut Vec<Warning>,
    case: &ProtectedFilter<'_, A>,
    number: u8,
) -> Result<(), AllocError>
    requires from { 1 ≤ number }
    requires to { number ≤ 16 }
{
    let Some(port) = case.plan.port(number) else {
        return Ok(());
    };
    let is_changing = has_gate_change(&case.gate.schedule) || has_port_change(port);
    let mut waits = false;
    for class in 0..8u8 {
        if can_wait(case.plan, case.filter, number, class) {
            waits = true;
            for stage in change_stages(is_changing) {
                find_queue_stage_warnings(alloc, found, case, port, class, *stage)?;
            }
        }
    }
    if waits {
        for stage in change_stages(is_changing) {
            find_cycles(found, case, port, *stage)?;
        }
    }
    Ok(())
}

/// Adds a warning if, at `stage`, neither the stream gate's cycle nor the port's cycle is a multiple of the other. Then waits differ from
/// cycle to cycle. `find_port_warnings` calls it.
fn find_cycles<A: Allocator + Copy>(
    found: &mut Vec<Warning>,
    case: &ProtectedFilter<'_, A>,
    port: &PortPlan<A>,
    stage: ScheduleStage,
) -> Result<(), AllocError> {
    let (Some(gate), Some(list)) = (
        gate_list(&case.gate.schedule, stage),
        port_list(port, stage),
    ) else {
        return Ok(());
    };
    let cycle = gate.cycle();
    let round = list.cycle();
    let Some(hypercycle) = aligned_period(cycle, round) else {
        return Ok(());
    };
    let cycles = CycleMismatch {
        stage,
        filter: case.number,
        gate: case.filter.gate,
        port: port.number,
        cycle,
        port_cycle: round,
        hypercycle,
    };
    push_warning(found, Warning::CycleMismatch(cycles))
}

/// Adds warnings about the queue of class `class` of a protected filter at `stage`. Does nothing if the stream gate or the port lacks a
/// list. `find_port_warnings` calls it.
fn find_queue_stage_warnings<A: Allocator + Copy>(
    alloc: Global,
    found: &mut Vec<Warning>,
    case: &ProtectedFilter<'_, A>,
    port: &PortPlan<A>,
    class: u8,
    stage: ScheduleStage,
) -> Result<(), AllocError>
    requires { class < 8 }
{
    let (Some(gate), Some(list)) = (
        gate_list(&case.gate.schedule, stage),
        port_list(port, stage),
    ) else {
        return Ok(());
    };
    let spot = QueueId {
        stage,
        filter: case.number,
        gate: case.filter.gate,
        port: port.number,
        class,
    };
    let queue = ScheduledQueue {
        spot,
        base: gate.base(),
        cycle: gate.cycle(),
        list,
        occupied: occupation(case.feed.length, port.speed),
        room: port.rooms[class as usize],
    };
    let all = gate_openings(alloc, gate, &case.feed)?;
    let openings = class_openings(alloc, &all, case.filter.priority, &port.classes, class)?;
    find_opening_warnings(found, &queue, &openings)
}

/// Adds warnings about a queue by the stream gate's entries `openings`, whose frames enter it: overload, small capacity, long waits.
/// `find_queue_stage_warnings` calls it.
fn find_opening_warnings<A: Allocator + Copy>(
    found: &mut Vec<Warning>,
    queue: &ScheduledQueue<'_, A>,
    openings: &[GateOpening],
) -> Result<(), AllocError>
    requires { queue.now.spot.class < 8 }
{
    find_overload(found, queue, openings)?;
    find_small_queue(found, queue, openings)?;
    find_long_wait(found, queue, openings)
}

/// Returns whether all frames that an entry passes enter class `class`. The entry's internal priority value decides or, if the entry has
/// none, the filter's priority. `class_openings` calls it.
fn is_opening_for_class(
    opening: &GateOpening,
    priority: Option<u8>,
    classes: &[u8; 8],
    class: u8,
) -> bool {
    match opening.ipv.or(priority) {
        Some(value) => match classes.get(usize::from(value)) {
            Some(own) => *own == class,
            None => false,
        },
        None => false,
    }
}

/// Returns the openings whose frames all enter class `class`, for a filter of priority `priority`. Only these certainly load the queue.
/// `find_queue_stage_warnings` calls it.
fn class_openings(
    alloc: Global,
    openings: &[GateOpening],
    priority: Option<u8>,
    classes: &[u8; 8],
    class: u8,
) -> Result<Vec<GateOpening>, AllocError> {
    let mut coming = Vec::new(alloc);
    for opening in openings {
        if is_opening_for_class(opening, priority, classes, class)
            && coming.push(*opening).is_err()
        {
            return Err(AllocError);
        }
    }
    Ok(coming)
}
