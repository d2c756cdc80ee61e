//! Lines of `bounds` about the queues that groups share.
ghost use Rattle.std.specs.Prelude.{◌≡◌, ◌++◌, OnOk, string_bytes};
ghost use Rattle.net_latency.specs.SharedLines.{apart_word, is_lossy, padded_words, room_words, shared_line, shared_mark, shared_text};

use bridge_groups::{SharedQueue, is_bounded_by_gates, least_shared_bound, padded_shared_bound};
use bridge_limits::NoMemory;
use std::alloc::{AllocError, Allocator};

/// Returns whether a queue may drop copies as full. `room` is the capacity that suffices (`None` if no such capacity is known), `capacity`
/// the queue's own capacity. `push_limited_timing`, `push_shared_warning` and `shared_mark` call it.
pub(crate) fn is_lossy(room: Option<u16>, capacity: u16) -> bool
    ensures { result ≡ is_lossy room capacity }
{
    match room {
        Some(room) => capacity < room,
        None => true,
    }
}

/// Returns the mark of a shared queue's line, with a blank before it: ` unmetered` or ` lossy`. Empty for a queue that drops no copy as
/// full. `push_shared_line` calls it.
fn shared_mark(row: &SharedQueue) -> &'static str
    ensures { result.now ≡ shared_mark row.now }
{
    if !row.is_metered {
        return if is_bounded_by_gates(row) {
            " lossy"
        } else {
            " unmetered"
        };
    }
    if is_lossy(row.room, row.capacity) {
        " lossy"
    } else {
        ""
    }
}

/// Appends `room`, the capacity that suffices for a queue, or the word `none` if no such capacity is known, and the queue's own capacity.
/// `push_shared_line` calls it.
fn push_room<A: Allocator + Copy>(
    text: &mut String<A>,
    room: Option<u16>,
    capacity: u16,
) -> Result<(), AllocError>
    ensures { OnOk result (string_bytes text.new ≡ string_bytes text.old ++ room_words room capacity) }
{
    match room {
        Some(room) => write!(text, " room {room} of {capacity}"),
        None => write!(text, " room none of {capacity}"),
    }
}

/// Appends the delay bound in ns of frames of at least 60 octets, if there is one. `push_shared_line` calls it.
fn push_padded<A: Allocator + Copy>(
    text: &mut String<A>,
    padded: Option<u64>,
) -> Result<(), AllocError>
    ensures { OnOk result (string_bytes text.new ≡ string_bytes text.old ++ padded_words padded) }
{
    match padded {
        Some(padded) => write!(text, " padded {padded}"),
        None => Ok(()),
    }
}

/// Returns the last word of a shared queue's line, with a blank before it: ` apart` if the stream gates of its filters are apart in time,
/// otherwise nothing. `push_shared_line` calls it.
fn apart_word(is_apart: bool) -> &'static str
    ensures { result.now ≡ apart_word is_apart }
{
    if is_apart { " apart" } else { "" }
}

/// Appends the line of a shared queue, such as `group 1 port 3 class 6 bound 348665 room 134 of 256`. `push_shared_text` calls it.
#[tactic(auto, unfolding(crate::specs::SharedLines::shared_line))]
fn push_shared_line<A: Allocator + Copy>(
    text: &mut String<A>,
    row: &SharedQueue,
) -> Result<(), AllocError>
    ensures { OnOk result (string_bytes text.new ≡ string_bytes text.old ++ shared_line row.now) }
{
    let SharedQueue {
        group,
        port,
        class,
        room,
        capacity,
        is_apart,
        ..
    } = *row;
    let mark = shared_mark(row);
    let bound = least_shared_bound(row);
    write!(
        text,
        "group {group} port {port} class {class}{mark} bound {bound}"
    )?;
    push_padded(text, padded_shared_bound(row))?;
    push_room(text, room, capacity)?;
    let apart = apart_word(is_apart);
    write!(text, "{apart}\n")
}

/// Appends one line for each shared queue, in the order of `rows`. `bound_lines` calls it after the lines of bounds.
pub(crate) fn push_shared_text<A: Allocator + Copy>(
    text: &mut String<A>,
    rows: &[SharedQueue],
) -> Result<(), NoMemory>
    ensures { OnOk result (string_bytes text.new ≡ string_bytes text.old ++ shared_text rows.now) }
{
    for row in rows {
        let Ok(()) = push_shared_line(text, row) else {
            return Err(NoMemory);
        };
    }
    Ok(())
}
