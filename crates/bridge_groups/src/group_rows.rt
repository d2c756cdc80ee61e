//! Lists all queues that the groups of a plan share, each with bound and capacity.
ghost use Rattle.std.specs.Prelude.{◌≡◌, ◌≤◌, ◌<◌, ◌+◌, [], IfOk, OnOk, Some};
ghost use Rattle.bridge_filter.specs.Routes.{lesser_number};
ghost use Rattle.bridge_config.specs.Rules.{find_port};
ghost use Rattle.bridge_groups.specs.Sharers.{has_sharer, plan_reaches};
ghost use Rattle.bridge_groups.specs.GroupRows as spec;

use crate::shared_queues::{SharedQueue, shared_queue};
use crate::sharers::{is_sharer, plan_reaches};
use bridge_check::{Accepted, Reach};
use bridge_config::{Plan, PortPlan};
use bridge_filter::FilterPlan;
use bridge_limits::NoMemory;
use std::alloc::Allocator;

/// Number of queues of a bridge with 16 ports: 8 for each port, one for each class.
const QUEUES: u8 = 128;

/// Whether a filter of the group can reach the queue of class `class` at `port`. `reaches` has the reachable queues of each filter, in the
/// order of the plan. `put_row` calls it.
fn is_group_queue<A: Allocator + Copy>(
    plan: &Plan<A>,
    reaches: &[Reach],
    group: u32,
    port: &PortPlan<A>,
    class: u8,
) -> bool
    requires from { 1 ≤ port.now.number }
    requires to { port.now.number ≤ 16 }
    requires port { find_port plan.now.ports port.now.number ≡ Some port.now }
    requires reaches { reaches.now ≡ plan_reaches plan.now plan.now.filters }
    ensures { result ≡ has_sharer plan.now group port.now.number class plan.now.filters }
{
    let filters = plan.filters();
    for at in 0..filters.len() {
        if is_sharer(plan, group, port, class, &filters[at].1, &reaches[at]) {
            return true;
        }
    }
    false
}

/// Returns a filter's group if it has one and its number is at least `from`, otherwise `None`. `least_group` calls it.
fn group_from(from: u64, group: Option<u32>) -> Option<u32>
    ensures { result ≡ spec.group_from from group }
{
    match group {
        Some(group) => if from <= u64::from(group) {
            Some(group)
        } else {
            None
        },
        None => None,
    }
}

/// Returns the lesser of two optional group numbers. Returns the present one if the other is `None`. `least_group` calls it.
fn lesser_group(a: Option<u32>, b: Option<u32>) -> Option<u32>
    ensures { result ≡ lesser_number a b }
{
    match (a, b) {
        (None, b) => b,
        (Some(a), None) => Some(a),
        (Some(a), Some(b)) => Some(a.min(b)),
    }
}

/// Returns the least group number of the filters that is at least `from`; `None` if there is none. `put_all_rows` finds one group after
/// another with it.
fn least_group(filters: &[(u32, FilterPlan)], from: u64) -> Option<u32>
    ensures { result ≡ spec.least_group from filters.now }
{
    let mut least = None;
    for filter in filters {
        least = lesser_group(least, group_from(from, filter.1.group));
    }
    least
}

/// Appends to `rows` the row of the queue with index `place` (0 to 127, by port and class), if the group shares this queue.
/// `put_group_rows` calls it.
fn put_row<A: Allocator + Copy>(
    alloc: A,
    accepted: &Accepted<A>,
    reaches: &[Reach],
    group: u32,
    place: u8,
    rows: &mut Vec<SharedQueue, A>,
) -> Result<(), NoMemory>
    requires place { place < 128 }
    requires reaches { reaches.now ≡ plan_reaches accepted.now accepted.now.filters }
    requires so_far { spec.AreRowsSoFar accepted.now group place rows.old.items }
    ensures one_more { OnOk result (spec.AreRowsSoFar accepted.now group (place + 1) rows.new.items) }
{
    let plan = accepted.plan();
    let class = place % 8;
    let Some(port) = plan.port(place / 8 + 1) else {
        return Ok(());
    };
    if !is_group_queue(plan, reaches, group, port, class) {
        return Ok(());
    }
    let Ok(row) = shared_queue(alloc, accepted, reaches, group, port, class) else {
        return Err(NoMemory);
    };
    rows.push(row)?;
    Ok(())
}

/// Appends to `rows` the rows of all queues that a group shares, by rising port and class. `put_all_rows` calls it.
fn put_group_rows<A: Allocator + Copy>(
    alloc: A,
    accepted: &Accepted<A>,
    reaches: &[Reach],
    group: u32,
    rows: &mut Vec<SharedQueue, A>,
) -> Result<(), NoMemory>
    requires reaches { reaches.now ≡ plan_reaches accepted.now accepted.now.filters }
    requires so_far { spec.AreRowsSoFar accepted.now group 0 rows.old.items }
    ensures one_more { OnOk result (spec.AreRowsSoFar accepted.now (group + 1) 0 rows.new.items) }
{
    for place in 0..QUEUES {
        let Ok(()) = put_row(alloc, accepted, reaches, group, place, rows) else {
            return Err(NoMemory);
        };
    }
    Ok(())
}

/// Returns `group` + 1 without overflow. `put_all_rows` looks for the next group from this number on.
fn number_after(group: u32) -> u64
    ensures next { result ≡ group + 1 }
    ensures few { result ≤ 4_294_967_296 }
{
    u64::from(group) + 1
}

/// Appends to `rows` the rows of all groups, by rising group. `plan_shared_queues` calls it.
fn put_all_rows<A: Allocator + Copy>(
    alloc: A,
    accepted: &Accepted<A>,
    reaches: &[Reach],
    rows: &mut Vec<SharedQueue, A>,
) -> Result<(), NoMemory>
    requires reaches { reaches.now ≡ plan_reaches accepted.now accepted.now.filters }
    requires none { rows.old.items ≡ [] }
    ensures all { OnOk result (spec.AreSharedQueues accepted.now rows.new.items) }
{
    let filters = accepted.plan().filters();
    let mut from = 0u64;
    'groups: loop {
        let Some(group) = least_group(filters, from) else {
            return Ok(());
        };
        let Ok(()) = put_group_rows(alloc, accepted, reaches, group, rows) else {
            return Err(NoMemory);
        };
        from = number_after(group);
    }
}

/// Returns the delay bounds and capacities of all queues that the groups of a plan share, by rising group, port and class. Functions of
/// `net_latency`, `show_lint`, `show_picture` and other crates call it.
pub fn plan_shared_queues<A: Allocator + Copy>(
    alloc: A,
    accepted: &Accepted<A>,
) -> Result<Vec<SharedQueue, A>, NoMemory>
    ensures { IfOk result (λ rows. spec.AreSharedQueues accepted.now rows.items) }
{
    let Ok(reaches) = plan_reaches(alloc, accepted.plan()) else {
        return Err(NoMemory);
    };
    let mut rows = Vec::new(alloc);
    let Ok(()) = put_all_rows(alloc, accepted, &reaches, &mut rows) else {
        return Err(NoMemory);
    };
    Ok(rows)
}
