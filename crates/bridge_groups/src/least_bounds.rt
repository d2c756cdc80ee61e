//! Lesser delay bounds of queues, which follow from the octets that stream gates pass in an interval.
ghost use Rattle.std.specs.Prelude.{◌≡◌, ◌≤◌, ◌<◌, IfSome, MatchOption};
ghost use Rattle.bridge_bounds.specs.Bounds.{HasNoBound, IsTightBound};
ghost use Rattle.bridge_groups.specs.GateBounds.{IsLeastBound, IsPaddedBound};
ghost use Rattle.bridge_groups.specs.SharedQueues as shared;

use crate::gate_bounds::{CAPTURED_SDU, PADDED_SDU, gate_work_bound};
use crate::group_gates::lesser_bound;
use crate::shared_queues::SharedQueue;
use bridge_bounds::{is_coarse, tight_queue_bound};
use bridge_check::Accepted;
use std::alloc::Allocator;

/// Returns the lesser of two bounds in ns of filter `number` in the queue of `class` at `port`. They are `tight`, and the bound from the
/// octets that the filter's stream gate passes.
///
/// If `coarse`, the lists of stream gate and port have no common cycle. The search for the second bound would then take too long, and the
/// function returns `tight`.
///
/// `least_queue_bound` and `put_tight_bound` of `net_latency` call it.
pub fn least_bound<A: Allocator + Copy>(
    accepted: &Accepted<A>,
    number: u32,
    port: u8,
    class: u8,
    tight: u64,
    coarse: bool,
) -> u64
    requires from { 1 ≤ port }
    requires to { port ≤ 16 }
    requires class { class < 8 }
    requires tight { IsTightBound accepted.now number port class tight }
    ensures { IsLeastBound accepted.now number port class result }
{
    if coarse {
        return tight;
    }
    match gate_work_bound(accepted, number, port, class, CAPTURED_SDU) {
        Some(bound) if bound < tight => bound,
        _ => tight,
    }
}

/// Returns the bound in ns of filter `number` in the queue of `class` at `port`, for frames of at least 60 octets. It follows from the
/// octets that the filter's stream gate passes.
///
/// Returns `None` if this bound isn't below `bound`, or if no frame of this length passes. It also returns `None` if the lists of stream
/// gate and port have no common cycle (`coarse`).
///
/// `put_tight_bound` of `net_latency` and `put_gate_bounds` of `show_lint` call it.
pub fn padded_bound<A: Allocator + Copy>(
    accepted: &Accepted<A>,
    number: u32,
    port: u8,
    class: u8,
    bound: u64,
    coarse: bool,
) -> Option<u64>
    requires from { 1 ≤ port }
    requires to { port ≤ 16 }
    requires class { class < 8 }
    ensures { IfSome result (IsPaddedBound accepted.now number port class bound) }
{
    if coarse {
        return None;
    }
    match gate_work_bound(accepted, number, port, class, PADDED_SDU) {
        Some(padded) if 0 < padded && padded < bound => Some(padded),
        _ => None,
    }
}

/// Returns the least known bound in ns of filter `number` in the queue of `class` at `port`, for any capture: the bound that `bounds`
/// prints. Allocates no memory.
///
/// Returns `None` exactly if the filter is missing or unprotected, or can't reach the queue. Functions of `net_latency`, `show_lint`,
/// `show_picture` and other crates call it.
pub fn least_queue_bound<A: Allocator + Copy>(
    accepted: &Accepted<A>,
    number: u32,
    port: u8,
    class: u8,
) -> Option<u64>
    requires from { 1 ≤ port }
    requires to { port ≤ 16 }
    requires class { class < 8 }
    ensures { MatchOption result (HasNoBound accepted.now number port class)
        (IsLeastBound accepted.now number port class) }
{
    let tight = tight_queue_bound(accepted, number, port, class)?;
    let coarse = is_coarse(accepted, number, port);
    Some(least_bound(accepted, number, port, class, tight, coarse))
}

/// Returns the least delay bound in ns of a shared queue, for any capture: by meters, costs, capacity or stream gates. `bounds`, `check`,
/// tables and pictures show it.
pub fn least_shared_bound(row: &SharedQueue) -> u64
    ensures { result ≡ shared.least_shared_bound row.now }
{
    lesser_bound(row.bound, row.by_gates)
}

/// Returns the delay bound in ns of a shared queue for frames of at least 60 octets, if it is less than `least_shared_bound`. `bounds`
/// prints it as `padded`.
pub fn padded_shared_bound(row: &SharedQueue) -> Option<u64>
    ensures { result ≡ shared.padded_shared_bound row.now }
{
    let least = least_shared_bound(row);
    match row.padded {
        Some(padded) => if padded < least { Some(padded) } else { None },
        None => None,
    }
}

/// Whether the stream gates of the filters give the least bound of a shared queue. Then `bounds` doesn't call the queue `unmetered`.
pub fn is_bounded_by_gates(row: &SharedQueue) -> bool
    ensures { result ≡ shared.is_bounded_by_gates row.now }
{
    least_shared_bound(row) < row.bound
}
