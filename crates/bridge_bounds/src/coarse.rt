//! Tests whether delay bounds are coarse: they assume arrivals at any time, because the lists of stream gate and port have no common cycle.
ghost use Rattle.std.specs.Prelude.{◌≡◌, ◌↔◌, ◌≤◌, true};
ghost use Rattle.bridge_bounds.specs.Bounds.{IsCoarse, LackCommonCycle};
ghost use Rattle.bridge_bounds.specs.declared.common_cycle.TheConstants.{MAX_INTERVALS};

use crate::common_cycle::common_cycle;
use crate::queue_bounds::find_filter;
use bridge_check::{Accepted, find_gate};
use bridge_cycle::Egress;
use bridge_gate::Schedule;
use std::alloc::Allocator;

/// Whether a stream gate and a port have one list each, and both lists have no common cycle with at most `MAX_INTERVALS` intervals.
/// `is_coarse` calls it.
fn lack_common_cycle<A: Allocator + Copy>(schedule: &Schedule<A>, lists: &Option<Egress<A>>) -> bool
    ensures { (result ≡ true) ↔ LackCommonCycle schedule.now lists.now }
{
    match schedule {
        Schedule::Fixed { lets: _, ipv: _ } => false,
        Schedule::Joined(_) => false,
        Schedule::Cyclic(gate) => match lists {
            None => false,
            Some(Egress::Joined(_)) => false,
            Some(Egress::Cyclic(list)) => common_cycle(gate, list).is_none(),
        },
    }
}

/// Whether the delay bounds of filter `number` at `port` assume arrivals at any time. The reason is that the lists of its stream gate and
/// of the port have no common cycle.
///
/// Returns false if the filter, its stream gate or the port is missing. `least_queue_bound` of `bridge_groups`, `put_tight_bound` of
/// `net_latency`, and `put_gate_bounds` of `show_lint` call it.
pub fn is_coarse<A: Allocator + Copy>(accepted: &Accepted<A>, number: u32, port: u8) -> bool
    ensures coarse { (result ≡ true) ↔ IsCoarse accepted.now number port }
    ensures limit { MAX_INTERVALS ≡ 1_024 }
{
    let plan = accepted.plan();
    let Some(filter) = find_filter(plan.filters(), number) else {
        return false;
    };
    let Some(out) = plan.port(port) else {
        return false;
    };
    let Some(gate) = find_gate(plan.gates(), filter.gate) else {
        return false;
    };
    lack_common_cycle(&gate.schedule, &out.list)
}
