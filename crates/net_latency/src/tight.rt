//! Tight delay bounds of all queues of a plan: octet limits of stream gates may lower the bounds.
ghost use Rattle.std.specs.Prelude.{All, ◌++◌, ◌∷◌, [], IfOk, List, OnOk};
ghost use Rattle.bridge_bounds.specs.Bounds.{IsQueueBound};
ghost use Rattle.net_latency.specs.Bounds.{AreBounds, AreLeastBounds, AreLowered, AreTightBounds, AreTightened, HasLeastBound, HasValidPort};

use crate::bounds::{QueueBound, queue_bounds};
use bridge_bounds::{is_coarse, tight_queue_bound};
use bridge_check::Accepted;
use bridge_groups::{least_bound, least_queue_bound, padded_bound};
use bridge_limits::NoMemory;
use std::alloc::Allocator;

/// Tight delay bound of a protected filter's frames in one of its reachable queues.
#[derive(Clone, Copy)]
pub struct TightBound {
    /// Filter number.
    pub filter: u32,
    /// Port number, 1 to 16.
    pub port: u8,
    /// Class of the queue, 0 to 7.
    pub class: u8,
    /// Whether the bound allows for any arrival time, because the lists of stream gate and port have no common cycle.
    pub coarse: bool,
    /// Largest delay in ns of a sent copy, from arrival to the end of transmission, gap included.
    pub bound: u64,
    /// Lesser bound in ns for frames of at least 60 octets, if one is known.
    pub padded: Option<u64>,
}

/// Appends to `made` the tight bounds of the queue of `bound`, for all frames and for frames of at least 60 octets. `tighten_bounds` calls
/// it.
fn put_tight_bound<A: Allocator + Copy>(
    accepted: &Accepted<A>,
    bound: &QueueBound,
    made: &mut Vec<TightBound, A>,
) -> Result<(), NoMemory>
    requires bound { IsQueueBound accepted.now bound.now.filter bound.now.port bound.now.class bound.now.bound }
    ensures one_more { OnOk result ((bounds : List QueueBound) → AreTightened accepted.now bounds made.old.items
        → AreTightened accepted.now (bounds ++ bound.now ∷ []) made.new.items) }
{
    let _ = accepted.plan();
    if let Some(tight) = tight_queue_bound(accepted, bound.filter, bound.port, bound.class) {
        let coarse = is_coarse(accepted, bound.filter, bound.port);
        let least = least_bound(
            accepted,
            bound.filter,
            bound.port,
            bound.class,
            tight,
            coarse,
        );
        made.push(TightBound {
            filter: bound.filter,
            port: bound.port,
            class: bound.class,
            coarse,
            bound: least,
            padded: padded_bound(
                accepted,
                bound.filter,
                bound.port,
                bound.class,
                least,
                coarse,
            ),
        })?;
    }
    Ok(())
}

/// Returns the tight bounds of the queues in `bounds`, in the order of `bounds`. A queue's tight bound is at most its bound in `bounds`.
/// `tight_queue_bounds` calls it.
fn tighten_bounds<A: Allocator + Copy>(
    alloc: A,
    accepted: &Accepted<A>,
    bounds: &[QueueBound],
) -> Result<Vec<TightBound, A>, NoMemory>
    requires bounds { AreBounds accepted.now bounds.now }
    ensures { IfOk result (λ rows. AreTightened accepted.now bounds.now rows.items) }
{
    let mut made = Vec::new(alloc);
    for bound in bounds {
        let Ok(()) = put_tight_bound(accepted, bound, &mut made) else {
            return Err(NoMemory);
        };
    }
    Ok(made)
}

/// Returns the tight delay bounds of all reachable queues of protected filters, by rising filter, port and class. `bound_lines` calls it.
pub fn tight_queue_bounds<A: Allocator + Copy>(
    alloc: A,
    accepted: &Accepted<A>,
) -> Result<Vec<TightBound, A>, NoMemory>
    ensures { IfOk result (λ rows. AreTightBounds accepted.now rows.items) }
{
    let Ok(bounds) = queue_bounds(alloc, accepted) else {
        return Err(NoMemory);
    };
    tighten_bounds(alloc, accepted, &bounds)
}

/// Returns the row of `queue` with the least delay bound that holds for any capture. `lower_bounds` calls it for each queue.
fn lower_bound<A: Allocator + Copy>(accepted: &Accepted<A>, queue: &QueueBound) -> QueueBound
    requires bound { IsQueueBound accepted.now queue.now.filter queue.now.port queue.now.class queue.now.bound }
    ensures { HasLeastBound accepted.now queue.now result }
{
    let _ = accepted.plan();
    match least_queue_bound(accepted, queue.filter, queue.port, queue.class) {
        Some(bound) => QueueBound { bound, ..*queue },
        None => *queue,
    }
}

/// Returns the queues of `bounds`, in the same order, with their least bounds. `least_queue_bounds` calls it.
fn lower_bounds<A: Allocator + Copy>(
    alloc: A,
    accepted: &Accepted<A>,
    bounds: &[QueueBound],
) -> Result<Vec<QueueBound, A>, NoMemory>
    requires bounds { AreBounds accepted.now bounds.now }
    ensures { IfOk result (λ rows. AreLowered accepted.now bounds.now rows.items) }
{
    let mut made = Vec::new(alloc);
    for queue in bounds {
        let row = lower_bound(accepted, queue);
        let Ok(()) = made.push(row) else {
            return Err(NoMemory);
        };
    }
    Ok(made)
}

/// Returns the least delay bounds of all reachable queues of protected filters, by rising filter, port and class. They hold for any
/// capture.
/// Networks add them up over the hops of a stream.
///
/// `all_queue_bounds` calls it.
pub fn least_queue_bounds<A: Allocator + Copy>(
    alloc: A,
    accepted: &Accepted<A>,
) -> Result<Vec<QueueBound, A>, NoMemory>
    ensures bounds { IfOk result (λ rows. AreLeastBounds accepted.now rows.items) }
    ensures placed { IfOk result (λ rows. All HasValidPort rows.items) }
{
    let Ok(bounds) = queue_bounds(alloc, accepted) else {
        return Err(NoMemory);
    };
    match lower_bounds(alloc, accepted, &bounds) {
        Ok(rows) => Ok(rows),
        Err(NoMemory) => Err(NoMemory),
    }
}
