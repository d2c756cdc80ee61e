//! Delay bounds of the ports by which the frames of a protected or grouped filter can leave, for the table of delays.
ghost use Rattle.std.specs.Prelude.{◌≡◌, nat_eq, IfOk};
ghost use Rattle.std.specs.Map.{lookup};
ghost use Rattle.bridge_groups.specs.GroupRows.{AreSharedQueues};
ghost use Rattle.show_tables.specs.GroupBounds as spec;

use crate::port_bounds::{greater_bound, port_bounds};
use bridge_bounds::find_filter;
use bridge_check::Accepted;
use bridge_filter::FilterPlan;
use bridge_groups::{SharedQueue, least_shared_bound};
use bridge_limits::NoMemory;
use std::alloc::Allocator;

/// Returns the group of a filter; `None` if the filter is in no group, or if the plan lacks it. `filter_bounds` calls it.
fn filter_group(filters: &[(u32, FilterPlan)], filter: u32) -> Option<u32>
    ensures { result ≡ spec.group_of (lookup (nat_eq filter) filters.now) }
{
    match find_filter(filters, filter) {
        Some(plan) => plan.group,
        None => None,
    }
}

/// Returns the least bound of a shared queue in ns if it is a queue of group `group` at port `port`, otherwise `None`. `group_bound` calls
/// it.
fn bound_at(queue: &SharedQueue, group: u32, port: u8) -> Option<u64>
    ensures { result ≡ spec.bound_at group port queue.now }
{
    if queue.group == group && queue.port == port {
        Some(least_shared_bound(queue))
    } else {
        None
    }
}

/// Returns the greatest bound in ns of the queues that a group shares at `port`; `None` if the group shares no queue there. `group_bounds`
/// calls it.
fn group_bound(queues: &[SharedQueue], group: u32, port: u8) -> Option<u64>
    ensures { result ≡ spec.group_bound queues.now group port }
{
    let mut bound = None;
    for queue in queues {
        bound = greater_bound(bound, bound_at(queue, group, port));
    }
    bound
}

/// Returns the bounds in ns of a group at ports 1 to 16; `None` for a port at which the group shares no queue. `filter_bounds` calls it.
fn group_bounds<A: Allocator>(
    alloc: A,
    queues: &[SharedQueue],
    group: u32,
) -> Result<Vec<Option<u64>, A>, NoMemory>
    ensures { IfOk result (λ bounds. spec.AreGroupBounds queues.now group bounds.items) }
{
    let mut bounds = Vec::with_capacity(alloc, 16)?;
    for port in 1..17u8 {
        bounds.push(group_bound(queues, group, port))?;
    }
    Ok(bounds)
}

/// Returns the delay bounds in ns of ports 1 to 16 for a filter; `None` for a port without bound. `queues` are the plan's shared queues.
/// `put_filter_with_bounds` calls it.
pub(crate) fn filter_bounds<A: Allocator + Copy>(
    alloc: A,
    accepted: &Accepted<A>,
    queues: &[SharedQueue],
    filter: u32,
) -> Result<Vec<Option<u64>, A>, NoMemory>
    requires shared { AreSharedQueues accepted.now queues.now }
    ensures { IfOk result (λ bounds. spec.AreFilterBounds accepted.now filter bounds.items) }
{
    match filter_group(accepted.plan().filters(), filter) {
        Some(group) => group_bounds(alloc, queues, group),
        None => port_bounds(alloc, accepted, filter),
    }
}
