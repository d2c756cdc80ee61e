//! Computes every filter's reach, and finds filters that share a queue.
ghost use Rattle.std.specs.Prelude.{◌≡◌, ◌≤◌, IfOk, Some};
ghost use Rattle.bridge_filter.specs.Routes.{lesser_number};
ghost use Rattle.bridge_check.specs.Faults.{is_in_group};
ghost use Rattle.bridge_check.specs.ReachTables.{all_reaches, is_outsider, least_outsider};

use crate::reach::{Reach, filter_reach};
use bridge_config::Plan;
use std::alloc::{AllocError, Allocator};

/// Reach of a filter with its number and group. By these, `is_outsider` decides whether the filter may share a queue.
#[derive(Clone, Copy)]
pub(crate) struct FilterReach {
    /// Number of the filter.
    pub number: u32,
    /// Group of the filter; `None` without a group.
    pub group: Option<u32>,
    /// Ports and priorities that the filter's frames can have.
    pub reach: Reach,
}

/// Returns every filter's number, group and reach, in plan order. Computed once, because test 6 compares each filter with all others.
/// `all_faults` and `first_fault` call it.
pub(crate) fn all_reaches<A: Allocator + Copy>(
    alloc: A,
    plan: &Plan<A>,
) -> Result<Vec<FilterReach, A>, AllocError>
    ensures { IfOk result (λ v. v.items ≡ all_reaches plan.now plan.now.filters) }
{
    let Ok(mut reaches) = Vec::with_capacity(alloc, plan.filters().len()) else {
        return Err(AllocError);
    };
    for (number, filter) in plan.filters() {
        let own = FilterReach {
            number: *number,
            group: filter.group,
            reach: filter_reach(plan, filter),
        };
        let Ok(()) = reaches.push(own) else {
            return Err(AllocError);
        };
    }
    Ok(reaches)
}

/// Returns the lower one of `number` and `least`; `number` if `least` is `None`. `least_outsider` calls it.
fn lesser_number(least: Option<u32>, number: u32) -> u32
    ensures { Some result ≡ lesser_number least (Some number) }
{
    match least {
        Some(n) => n.min(number),
        None => number,
    }
}

/// Whether a filter's group `own` is `group`. A filter without a group is in none. `is_outsider` calls it.
fn is_in_group(group: u32, own: Option<u32>) -> bool
    ensures { result ≡ is_in_group group own }
{
    match own {
        Some(own) => own == group,
        None => false,
    }
}

/// Whether filter `other` may not share a queue with filter `number`, which shares queues with `group`, or with nobody (`None`).
/// `least_outsider` calls it.
fn is_outsider(group: Option<u32>, number: u32, other: &FilterReach) -> bool
    ensures { result ≡ is_outsider group number other.now }
{
    match group {
        None => other.number != number,
        Some(group) => !is_in_group(group, other.group),
    }
}

/// Returns the lowest number of an outsider that can reach class `class` at port `port`; `None` if no outsider can reach it. Filter
/// `number` shares queues with `group`; `classes` gives the class of each priority.
///
/// `other_filter_in_queue` calls it.
pub(crate) fn least_outsider(
    reaches: &[FilterReach],
    group: Option<u32>,
    number: u32,
    port: u8,
    classes: &[u8; 8],
    class: u8,
) -> Option<u32>
    requires from { 1 ≤ port }
    requires to { port ≤ 16 }
    ensures { result ≡ least_outsider reaches.now group number port classes.now class }
{
    let mut least = None;
    for other in reaches {
        if is_outsider(group, number, other) && other.reach.has_queue(port, classes, class) {
            least = Some(lesser_number(least, other.number));
        }
    }
    least
}
