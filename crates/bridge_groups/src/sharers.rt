//! Filters of a group that share a queue: their numbers, longest SDU and meters, for delay bounds.
ghost use Rattle.std.specs.Prelude.{◌≡◌, ◌≤◌, IfOk, Some};
ghost use Rattle.bridge_config.specs.Rules.{find_port};
ghost use Rattle.bridge_check.specs.ReachTables.{filter_reach};
ghost use Rattle.bridge_groups.specs.Sharers as spec;

use bridge_check::{Reach, can_wait_in_reach, filter_reach};
use bridge_config::{Plan, PortPlan};
use bridge_filter::FilterPlan;
use bridge_limits::NoMemory;
use std::alloc::Allocator;

/// Returns the reach of each filter of a plan, in the order of the plan. Callers compute it once for all queues. `plan_shared_queues` calls
/// it.
pub fn plan_reaches<A: Allocator + Copy>(
    alloc: A,
    plan: &Plan<A>,
) -> Result<Vec<Reach, A>, NoMemory>
    ensures { IfOk result (λ v. v.items ≡ spec.plan_reaches plan.now plan.now.filters) }
{
    let mut reaches = Vec::new(alloc);
    for filter in plan.filters() {
        let Ok(()) = reaches.push(filter_reach(plan, &filter.1)) else {
            return Err(NoMemory);
        };
    }
    Ok(reaches)
}

/// Whether a filter is in the group and can reach the queue of class `class` at `port`. `is_group_queue` and `queue_sharers` call it.
pub(crate) fn is_sharer<A: Allocator + Copy>(
    plan: &Plan<A>,
    group: u32,
    port: &PortPlan<A>,
    class: u8,
    filter: &FilterPlan,
    reach: &Reach,
) -> bool
    requires from { 1 ≤ port.now.number }
    requires to { port.now.number ≤ 16 }
    requires port { find_port plan.now.ports port.now.number ≡ Some port.now }
    requires reach { reach.now ≡ filter_reach plan.now filter.now }
    ensures { result ≡ spec.is_sharer plan.now group port.now.number class filter.now }
{
    match filter.group {
        Some(own) => own == group && can_wait_in_reach(plan, filter, reach, port, class),
        None => false,
    }
}

/// Returns the filters of the group that can reach the queue of class `class` at `port`, in the order of the plan. `shared_queue` calls it.
pub fn queue_sharers<A: Allocator + Copy>(
    alloc: A,
    plan: &Plan<A>,
    reaches: &[Reach],
    group: u32,
    port: &PortPlan<A>,
    class: u8,
) -> Result<Vec<(u32, FilterPlan), A>, NoMemory>
    requires from { 1 ≤ port.now.number }
    requires to { port.now.number ≤ 16 }
    requires port { find_port plan.now.ports port.now.number ≡ Some port.now }
    requires reaches { reaches.now ≡ spec.plan_reaches plan.now plan.now.filters }
    ensures { IfOk result (λ v. v.items ≡ spec.queue_sharers plan.now group port.now.number class plan.now.filters) }
{
    let filters = plan.filters();
    let mut sharers = Vec::new(alloc);
    for at in 0..filters.len() {
        let filter = filters[at];
        if is_sharer(plan, group, port, class, &filter.1, &reaches[at]) {
            let Ok(()) = sharers.push(filter) else {
                return Err(NoMemory);
            };
        }
    }
    Ok(sharers)
}

/// Returns the greatest limit of SDU octets among the filters; 0 for none. `shared_queue` calls it.
pub fn longest_sdu(filters: &[(u32, FilterPlan)]) -> u32
    ensures { result ≡ spec.longest_sdu filters.now }
{
    let mut longest = 0;
    for filter in filters {
        longest = longest.max(filter.1.max_sdu.unwrap_or(0));
    }
    longest
}

/// Whether each of the filters has a flow meter. `meter_figures` calls it.
pub fn are_metered(filters: &[(u32, FilterPlan)]) -> bool
    ensures { result ≡ spec.are_metered filters.now }
{
    filters.iter().all(|filter| filter.1.meter.is_some())
}
