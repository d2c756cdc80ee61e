//! Delay bounds of the ports by which the frames of a protected filter can leave. `group_bounds` adds the bounds of grouped filters.
ghost use Rattle.std.specs.Prelude.{◌≡◌, ◌≤◌, IfOk};
ghost use Rattle.show_tables.specs.PortBounds as spec;

use bridge_check::Accepted;
use bridge_groups::least_queue_bound;
use bridge_limits::NoMemory;
use std::alloc::Allocator;

/// Returns the greater of the optional bounds `one` and `other`; a missing bound (`None`) counts as less. `group_bound` and `port_bound`
/// call it.
pub(crate) fn greater_bound(one: Option<u64>, other: Option<u64>) -> Option<u64>
    ensures { result ≡ spec.greater_bound one other }
{
    match (one, other) {
        (Some(one), Some(other)) => Some(one.max(other)),
        (Some(one), None) => Some(one),
        (None, other) => other,
    }
}

/// Returns the delay bound in ns of `port` for a filter: the greatest of the bounds that `bounds` prints for its classes.
///
/// Returns `None` if the filter is unprotected or has no queue there. `port_bounds` calls it.
fn port_bound<A: Allocator + Copy>(accepted: &Accepted<A>, filter: u32, port: u8) -> Option<u64>
    requires from { 1 ≤ port }
    requires to { port ≤ 16 }
    ensures { spec.IsPortBound accepted.now filter port result }
{
    let mut bound = None;
    for class in 0..8u8 {
        bound = greater_bound(bound, least_queue_bound(accepted, filter, port, class));
    }
    bound
}

/// Returns the delay bounds in ns of ports 1 to 16 for a filter. Returns `None` for a port at which the filter has no queue, or an
/// unprotected filter. `filter_bounds` calls it.
pub(crate) fn port_bounds<A: Allocator + Copy>(
    alloc: A,
    accepted: &Accepted<A>,
    filter: u32,
) -> Result<Vec<Option<u64>, A>, NoMemory>
    ensures { IfOk result (λ bounds. spec.ArePortBounds accepted.now filter bounds.items) }
{
    let mut bounds = Vec::with_capacity(alloc, 16)?;
    for port in 1..17u8 {
        bounds.push(port_bound(accepted, filter, port))?;
    }
    Ok(bounds)
}

/// Returns the bound of port `port` from `bounds`, the bounds of ports 1 to 16. Returns `None` without a bound or for another number.
/// `put_row_of_port` calls it.
pub(crate) fn bound_by_port(bounds: &[Option<u64>], port: u8) -> Option<u64>
    ensures { result ≡ spec.bound_by_port bounds.now port }
{
    if port == 0 {
        return None;
    }
    match bounds.get(port as usize - 1) {
        Some(bound) => *bound,
        None => None,
    }
}
