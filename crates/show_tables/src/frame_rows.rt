//! Rows of the table of `run --frames`, which `frames` puts together.
ghost use Rattle.std.specs.Prelude.{◌++◌, codes, decimal};
ghost use Rattle.bridge_text.specs.Growth.{HasGrown};
ghost use Rattle.show_tables.specs.FrameTable as spec;

use bridge_filter::Verdict;
use bridge_report::{refusal_word, verdict_word};
use bridge_semantics::{Departure, Dropped, Origin};
use bridge_text::TextBuilder;
use std::alloc::Allocator;

/// Header line of the table: filter, frame number from 1, ingress port, arrival time and verdict. For each copy: egress port, start, end
/// and delay, or the reason of its drop. Times are in ns.
pub const FRAMES_HEADER: &str =
    "filter,frame,ingress,arrival,verdict,port,start,done,delay,refusal\n";

/// Frame of a filter, as a row shows it: filter, frame number from 1, origin and verdict.
#[derive(Clone, Copy)]
pub(crate) struct FilterFrame {
    pub filter: u32,
    pub own: u64,
    pub origin: Origin,
    pub verdict: Verdict,
}

/// Writes a field: a number and a comma. `put_figures`, `put_bound` and 7 more call it.
pub(crate) fn put_field<A: Allocator>(text: &mut TextBuilder<A>, number: u64)
    ensures { HasGrown text.old (spec.field number) text.new }
{
    text.put_number(number);
    text.put(",");
}

/// Writes the last field of a row: a number and a line feed. `put_losses` calls it.
pub(crate) fn put_last_field<A: Allocator>(text: &mut TextBuilder<A>, number: u64)
    ensures { HasGrown text.old (decimal number ++ codes "\n") text.new }
{
    text.put_number(number);
    text.put("\n");
}

/// Writes the start of each row of a frame: filter, frame number, ingress port, arrival time and verdict. `put_lone_row`,
/// `put_departure_row` and `put_drop_row` call it.
fn put_row_start<A: Allocator>(text: &mut TextBuilder<A>, frame: &FilterFrame)
    ensures { HasGrown text.old (spec.row_start frame.now) text.new }
{
    put_field(text, u64::from(frame.filter));
    put_field(text, frame.own);
    put_field(text, u64::from(frame.origin.port));
    put_field(text, frame.origin.at);
    text.put(verdict_word(frame.verdict));
    text.put(",");
}

/// Writes the row of a frame without copies: the fields of a copy are empty. `put_frame` calls it.
pub(crate) fn put_lone_row<A: Allocator>(text: &mut TextBuilder<A>, frame: &FilterFrame)
    ensures { HasGrown text.old (spec.lone_row frame.now) text.new }
{
    put_row_start(text, frame);
    text.put(",,,,\n");
}

/// Writes the row of a copy that left: egress port, start and end of its transmission, and delay since the frame's arrival, in ns.
/// `put_port_departure` calls it.
fn put_departure_row<A: Allocator>(
    text: &mut TextBuilder<A>,
    frame: &FilterFrame,
    departure: &Departure,
)
    ensures { HasGrown text.old (spec.departure_row frame.now departure.now) text.new }
{
    let Departure {
        own: _,
        port,
        start,
        done,
    } = *departure;
    put_row_start(text, frame);
    put_field(text, u64::from(port));
    put_field(text, start);
    put_field(text, done);
    put_field(text, done.saturating_sub(frame.origin.at));
    text.put("\n");
}

/// Writes the row of a dropped copy: the port that dropped it, and the reason. `put_port_drop` calls it.
fn put_drop_row<A: Allocator>(text: &mut TextBuilder<A>, frame: &FilterFrame, dropped: &Dropped)
    ensures { HasGrown text.old (spec.drop_row frame.now dropped.now) text.new }
{
    put_row_start(text, frame);
    put_field(text, u64::from(dropped.port));
    text.put(",,,");
    text.put(refusal_word(dropped.refusal));
    text.put("\n");
}

/// Writes the row of a copy that left, if it left by `port`. `put_departure_rows` calls it.
fn put_port_departure<A: Allocator>(
    text: &mut TextBuilder<A>,
    frame: &FilterFrame,
    port: u8,
    departure: &Departure,
)
    ensures { HasGrown text.old (spec.port_departure_row frame.now port departure.now) text.new }
{
    if departure.port == port {
        put_departure_row(text, frame, departure);
    }
}

/// Writes the row of a dropped copy, if `port` dropped it. `put_drop_rows` calls it.
fn put_port_drop<A: Allocator>(
    text: &mut TextBuilder<A>,
    frame: &FilterFrame,
    port: u8,
    dropped: &Dropped,
)
    ensures { HasGrown text.old (spec.port_drop_row frame.now port dropped.now) text.new }
{
    if dropped.port == port {
        put_drop_row(text, frame, dropped);
    }
}

/// Writes the rows of those copies in `departures` that left by `port`. All belong to the frame `frame`. `put_port_copies` calls it.
fn put_departure_rows<A: Allocator>(
    text: &mut TextBuilder<A>,
    frame: &FilterFrame,
    port: u8,
    departures: &[Departure],
)
    ensures { HasGrown text.old (spec.departure_rows frame.now port departures.now) text.new }
{
    for departure in departures {
        put_port_departure(text, frame, port, departure);
    }
}

/// Writes the rows of those copies in `drops` that `port` dropped. All belong to the frame `frame`. `put_port_copies` calls it.
fn put_drop_rows<A: Allocator>(
    text: &mut TextBuilder<A>,
    frame: &FilterFrame,
    port: u8,
    drops: &[Dropped],
)
    ensures { HasGrown text.old (spec.drop_rows frame.now port drops.now) text.new }
{
    for dropped in drops {
        put_port_drop(text, frame, port, dropped);
    }
}

/// Writes the rows of the copies that left by `port`, then of the copies that it dropped. `put_copies` calls it.
fn put_port_copies<A: Allocator>(
    text: &mut TextBuilder<A>,
    frame: &FilterFrame,
    departures: &[Departure],
    drops: &[Dropped],
    port: u8,
)
    ensures { HasGrown text.old (spec.port_copy_rows frame.now departures.now drops.now port) text.new }
{
    put_departure_rows(text, frame, port, departures);
    put_drop_rows(text, frame, port, drops);
}

/// Writes the rows of a frame's copies, by rising port. `departures` and `drops` are the frame's own. `put_frame` calls it.
pub(crate) fn put_copies<A: Allocator>(
    text: &mut TextBuilder<A>,
    frame: &FilterFrame,
    departures: &[Departure],
    drops: &[Dropped],
)
    ensures { HasGrown text.old (spec.copy_rows frame.now departures.now drops.now) text.new }
{
    for port in 1..17u8 {
        put_port_copies(text, frame, departures, drops, port);
    }
}
