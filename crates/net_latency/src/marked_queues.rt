//! Warnings of `bounds` about queues that groups share: queues that may drop copies as full, and queues that only their capacity bounds.
ghost use Rattle.std.specs.Prelude.{◌≡◌, ◌++◌, [], IfOk, OnOk, codes, string_bytes};
ghost use Rattle.net_latency.specs.SharedWarnings.{AreSharedWarnings, lossy_warning, queue_fault, queue_warning, shared_warning, shared_warnings, small_remedy};

use crate::shared_lines::is_lossy;
use bridge_check::Accepted;
use bridge_groups::{SharedQueue, is_bounded_by_gates, plan_shared_queues};
use bridge_limits::NoMemory;
use std::alloc::{AllocError, Allocator};

/// Fault and remedy of a queue whose delay only its capacity bounds.
const UNMETERED: &str =
    ". A filter has no meter, or the meters pass more than the windows carry. Give each filter a meter, or lower the rates.\n";

/// Fault and remedy of a queue whose filters don't all have meters.
const UNKNOWN_ROOM: &str =
    ", because no capacity of the queue is known to suffice. Give each filter a meter.\n";

/// Fault and remedy of a queue for whose meters no capacity is known to suffice.
const UNBOUNDED: &str =
    ", because no capacity of the queue is known to suffice. Remove the `[[change]]`, or lower the rates of the meters.\n";

/// Appends the start of the warning for a queue: `start`, the queue's group, `fault`, its port and class. `push_queue_warning` and
/// `push_small_warning` call it.
#[tactic(auto, unfolding(crate::specs::SharedWarnings::queue_fault))]
fn push_queue_fault<A: Allocator + Copy>(
    text: &mut String<A>,
    row: &SharedQueue,
    start: &str,
    fault: &str,
) -> Result<(), AllocError>
    ensures { OnOk result (string_bytes text.new ≡ string_bytes text.old ++ queue_fault start.now fault.now row.now) }
{
    let SharedQueue {
        group,
        port,
        class,
        ..
    } = *row;
    write!(
        text,
        "Warning: {start}group {group}{fault} at port {port}, class {class}"
    )
}

/// Appends the warning for a queue: its start (`push_queue_fault`) and `remedy`. `push_shared_warning` and `push_lossy_warning` call it.
fn push_queue_warning<A: Allocator + Copy>(
    text: &mut String<A>,
    row: &SharedQueue,
    start: &str,
    fault: &str,
    remedy: &str,
) -> Result<(), AllocError>
    ensures { OnOk result (string_bytes text.new ≡ string_bytes text.old ++ queue_warning start.now fault.now row.now
        remedy.now) }
{
    push_queue_fault(text, row, start, fault)?;
    text.push_str(remedy)
}

/// Appends the remedy for a queue that contains `capacity` frames and needs `room`. `push_small_warning` calls it.
#[tactic(auto, unfolding(crate::specs::SharedWarnings::small_remedy))]
fn push_small_remedy<A: Allocator + Copy>(
    text: &mut String<A>,
    room: u16,
    capacity: u16,
) -> Result<(), AllocError>
    ensures { OnOk result (string_bytes text.new ≡ string_bytes text.old ++ small_remedy room capacity) }
{
    write!(
        text,
        ", because the queue holds only {capacity} instead of {room}. Raise `rooms`, or lower the rates of the meters.\n"
    )
}

/// Appends the warning for a queue that holds fewer frames than `room`, which would suffice. `push_lossy_warning` calls it.
fn push_small_warning<A: Allocator + Copy>(
    text: &mut String<A>,
    row: &SharedQueue,
    room: u16,
) -> Result<(), AllocError>
    ensures { OnOk result (string_bytes text.new ≡ string_bytes text.old
        ++ queue_warning [] (codes " may lose frames") row.now (small_remedy room row.now.capacity)) }
{
    push_queue_fault(text, row, "", " may lose frames")?;
    push_small_remedy(text, room, row.capacity)
}

/// Appends the warning for a queue that may be full and drop copies, because its capacity isn't known to suffice. `push_shared_warning`
/// calls it.
fn push_lossy_warning<A: Allocator + Copy>(
    text: &mut String<A>,
    row: &SharedQueue,
) -> Result<(), AllocError>
    ensures { OnOk result (string_bytes text.new ≡ string_bytes text.old ++ lossy_warning row.now) }
{
    match row.room {
        Some(room) => push_small_warning(text, row, room),
        None => push_queue_warning(text, row, "", " may lose frames", UNBOUNDED),
    }
}

/// Appends the warning about a shared queue, at most one. Appends nothing for a queue without a mark. `rows_warnings` calls it.
fn push_shared_warning<A: Allocator + Copy>(
    text: &mut String<A>,
    row: &SharedQueue,
) -> Result<(), AllocError>
    ensures { OnOk result (string_bytes text.new ≡ string_bytes text.old ++ shared_warning row.now) }
{
    if !row.is_metered {
        return if is_bounded_by_gates(row) {
            push_queue_warning(text, row, "", " may lose frames", UNKNOWN_ROOM)
        } else {
            push_queue_warning(
                text,
                row,
                "only the capacity bounds the delay of ",
                "",
                UNMETERED,
            )
        };
    }
    if is_lossy(row.room, row.capacity) {
        return push_lossy_warning(text, row);
    }
    Ok(())
}

/// Returns one warning for each queue of `rows` with the mark `unmetered` or `lossy`, in the order of `rows`. `shared_warnings` calls it.
fn rows_warnings<A: Allocator + Copy>(alloc: A, rows: &[SharedQueue]) -> Result<String<A>, NoMemory>
    ensures { IfOk result (λ text. string_bytes text ≡ shared_warnings rows.now) }
{
    let mut text = String::new(alloc);
    for row in rows {
        let Ok(()) = push_shared_warning(&mut text, row) else {
            return Err(NoMemory);
        };
    }
    Ok(text)
}

/// Returns one warning for each shared queue of an accepted plan that may drop copies as full, or that only its capacity bounds. Empty if
/// no shared queue needs a warning.
///
/// `plan_warnings` of `app_networks` calls it.
pub fn shared_warnings<A: Allocator + Copy>(
    alloc: A,
    accepted: &Accepted<A>,
) -> Result<String<A>, NoMemory>
    ensures { IfOk result (λ text. AreSharedWarnings accepted.now (string_bytes text)) }
{
    let Ok(shared) = plan_shared_queues(alloc, accepted) else {
        return Err(NoMemory);
    };
    rows_warnings(alloc, &shared)
}
