//! Delay bounds of all reachable queues of a plan's protected filters.
ghost use Rattle.std.specs.Prelude.{All, ◌≡◌, ℕ, ◌+◌, ◌<◌, ◌≤◌, [], Some, length, nat_eq, OnOk, IfOk, MatchOption};
ghost use Rattle.std.specs.Map.{lookup};
ghost use Rattle.bridge_limits.specs.Members.{IsOrdered};
ghost use Rattle.bridge_check.specs.Reach.{reaches_queue};
ghost use Rattle.bridge_check.specs.ReachTables.{filter_reach};
ghost use Rattle.bridge_bounds.specs.Bounds.{HasNoBound, IsQueueBound};
ghost use Rattle.net_latency.specs.Bounds.{AreBounds, AreBoundsSoFar, HasValidPort, IsFilterReach};

use bridge_bounds::queue_bound;
use bridge_check::{Accepted, Reach, can_wait_in_reach, filter_reach};
use bridge_config::Plan;
use bridge_filter::FilterPlan;
use bridge_limits::NoMemory;
use std::alloc::Allocator;

/// Delay bound of a protected filter's frames in one of its reachable queues.
#[derive(Clone, Copy)]
pub struct QueueBound {
    /// Filter number.
    pub filter: u32,
    /// Port number, 1 to 16.
    pub port: u8,
    /// Class of the queue, 0 to 7.
    pub class: u8,
    /// Largest delay in ns of a sent copy, from arrival to the end of transmission, gap included.
    pub bound: u64,
}

/// Number of queues of a bridge: 8 classes at 16 ports.
const QUEUES: u8 = 128;

/// Returns whether the queue of `class` at `port` is reachable for the filter. `reach` is the filter's reach, computed once by the caller.
/// Returns false if the port is missing.
pub(crate) fn is_reached<A: Allocator + Copy>(
    plan: &Plan<A>,
    filter: &FilterPlan,
    reach: &Reach,
    port: u8,
    class: u8,
) -> bool
    requires reach { reach.now ≡ filter_reach plan.now filter.now }
    requires from { 1 ≤ port }
    requires to { port ≤ 16 }
    ensures { result ≡ reaches_queue plan.now filter.now port class }
{
    match plan.port(port) {
        Some(found) => can_wait_in_reach(plan, filter, reach, found, class),
        None => false,
    }
}

/// Returns the delay bound of a queue in ns, or `None` if the filter can't reach the queue. The caller computes `reach` once for all queues
/// of the filter. `put_bound` calls it.
#[tactic(auto, using(crate::proofs::Bounded::unprotected, crate::proofs::Bounded::unreached_by))]
fn bound_in_reach<A: Allocator + Copy>(
    accepted: &Accepted<A>,
    filter: (u32, FilterPlan),
    reach: &Reach,
    port: u8,
    class: u8,
) -> Option<u64>
    requires found { lookup (nat_eq filter.0) accepted.now.filters ≡ Some filter.1 }
    requires reach { reach.now ≡ filter_reach accepted.now filter.1 }
    requires from { 1 ≤ port }
    requires to { port ≤ 16 }
    requires class { class < 8 }
    ensures { MatchOption result (HasNoBound accepted.now filter.0 port class)
        (IsQueueBound accepted.now filter.0 port class) }
{
    if !filter.1.protected {
        return None;
    }
    if !is_reached(accepted.plan(), &filter.1, reach, port, class) {
        return None;
    }
    queue_bound(accepted, filter.0, port, class)
}

/// Appends to `rows` the bound of the filter with index `at` in `order`, in its queue `place`: 0 to 127, by port and class.
///
/// Appends nothing if the filter is unprotected or can't reach the queue.
/// Appends nothing if the filter is unprotected or can't reach the queue.
///
/// `put_filter_bounds` calls it.
fn put_bound<A: Allocator + Copy>(
    accepted: &Accepted<A>,
    order: &[(u32, FilterPlan)],
    at: usize,
    reach: &Reach,
    place: u8,
    rows: &mut Vec<QueueBound, A>,
) -> Result<(), NoMemory>
    requires at { at < length order.now }
    requires place { place < 128 }
    requires rises { IsOrdered (λ x y. x.0 < y.0) order.now }
    requires same { (n : ℕ) → lookup (nat_eq n) order.now ≡ lookup (nat_eq n) accepted.now.filters }
    requires reach { IsFilterReach accepted.now order.now at reach.now }
    requires so_far { AreBoundsSoFar accepted.now order.now at place rows.old.items }
    ensures one_more { OnOk result (AreBoundsSoFar accepted.now order.now at (place + 1) rows.new.items) }
{
    let filter = order[at];
    let port = place / 8 + 1;
    let class = place % 8;
    if let Some(bound) = bound_in_reach(accepted, filter, reach, port, class) {
        rows.push(QueueBound {
            filter: filter.0,
            port,
            class,
            bound,
        })?;
    }
    Ok(())
}

/// Appends to `rows` the bounds of all queues that the filter with index `at` in `order` can reach, by rising port and class. Appends
/// nothing if the filter is unprotected. `put_all_bounds` calls it.
fn put_filter_bounds<A: Allocator + Copy>(
    accepted: &Accepted<A>,
    order: &[(u32, FilterPlan)],
    at: usize,
    rows: &mut Vec<QueueBound, A>,
) -> Result<(), NoMemory>
    requires at { at < length order.now }
    requires rises { IsOrdered (λ x y. x.0 < y.0) order.now }
    requires same { (n : ℕ) → lookup (nat_eq n) order.now ≡ lookup (nat_eq n) accepted.now.filters }
    requires so_far { AreBoundsSoFar accepted.now order.now at 0 rows.old.items }
    ensures one_more { OnOk result (AreBoundsSoFar accepted.now order.now (at + 1) 0 rows.new.items) }
{
    let reach = filter_reach(accepted.plan(), &order[at].1);
    for place in 0..QUEUES {
        let Ok(()) = put_bound(accepted, order, at, &reach, place, rows) else {
            return Err(NoMemory);
        };
    }
    Ok(())
}

/// Appends to `rows` the bounds of all protected filters. `order` has the filters by rising number. `queue_bounds` calls it.
fn put_all_bounds<A: Allocator + Copy>(
    accepted: &Accepted<A>,
    order: &[(u32, FilterPlan)],
    rows: &mut Vec<QueueBound, A>,
) -> Result<(), NoMemory>
    requires rises { IsOrdered (λ x y. x.0 < y.0) order.now }
    requires same { (n : ℕ) → lookup (nat_eq n) order.now ≡ lookup (nat_eq n) accepted.now.filters }
    requires none { rows.old.items ≡ [] }
    ensures all { OnOk result (AreBounds accepted.now rows.new.items) }
{
    for at in 0..order.len() {
        let Ok(()) = put_filter_bounds(accepted, order, at, rows) else {
            return Err(NoMemory);
        };
    }
    Ok(())
}

/// Returns the delay bounds of all reachable queues of protected filters, by rising filter, port and class. `tight_queue_bounds`,
/// `least_queue_bounds` and `queue_timings` call it.
#[tactic(auto, using(crate::proofs::Placed::all_placed))]
pub fn queue_bounds<A: Allocator + Copy>(
    alloc: A,
    accepted: &Accepted<A>,
) -> Result<Vec<QueueBound, A>, NoMemory>
    ensures bounds { IfOk result (λ rows. AreBounds accepted.now rows.items) }
    ensures placed { IfOk result (λ rows. All HasValidPort rows.items) }
{
    let Ok(order) = accepted.plan().filters_in_order(alloc) else {
        return Err(NoMemory);
    };
    let mut rows = Vec::new(alloc);
    let Ok(()) = put_all_bounds(accepted, &order, &mut rows) else {
        return Err(NoMemory);
    };
    Ok(rows)
}
