//! Collects the warnings of a plan, in the order in which commands print them.

use crate::closed::find_closed_classes;
use crate::hidden_stream::find_hidden_streams;
use crate::meters::find_meter_warnings;
use crate::not_forwarded::find_not_forwarded;
use crate::queues::find_queues;
use crate::unused_parts::{find_unprotected, find_unused_parts};
use crate::warning::Warning;
use bridge_check::Accepted;
use bridge_config::Plan;
use bridge_limits::NoMemory;
use std::alloc::{AllocError, Allocator, Global};

/// Returns the warnings of an accepted plan: parts without effect, hidden streams, closed classes, then by filter its streams, meter and
/// queues. `put_warnings` writes them.
pub fn find_warnings<A: Allocator + Copy>(
    alloc: Global,
    accepted: &Accepted<A>,
) -> Result<Vec<Warning>, NoMemory> {
    let mut found = Vec::new(alloc);
    find_plan_warnings(alloc, &mut found, accepted.plan())?;
    Ok(found)
}

/// Adds the warnings of a plan to `found`, in the order in which commands print them. `find_warnings` calls it.
fn find_plan_warnings<A: Allocator + Copy>(
    alloc: Global,
    found: &mut Vec<Warning>,
    plan: &Plan<A>,
) -> Result<(), AllocError> {
    find_unprotected(found, plan.filters())?;
    find_unused_parts(found, plan)?;
    find_hidden_streams(found, plan)?;
    find_closed_classes(found, plan)?;
    for (number, filter) in plan.filters() {
        if filter.protected {
            find_not_forwarded(found, plan, *number, filter)?;
        }
        if filter.protected || filter.group.is_some() {
            find_meter_warnings(alloc, found, plan, *number, filter)?;
        }
        if filter.protected {
            find_queues(alloc, found, plan, *number, filter)?;
        }
    }
    Ok(())
}

/// Adds the warning `advice` to `found`. Fails if memory runs out. All searches for warnings call it.
pub(crate) fn push_warning(found: &mut Vec<Warning>, advice: Warning) -> Result<(), AllocError> {
    match found.push(advice) {
        Ok(()) => Ok(()),
        Err(_) => Err(AllocError),
    }
}
