//! The table `frames.csv` of a network run: the fate of each frame of a stream at each hop. `write_stream` writes its rows.
ghost use Rattle.std.specs.Prelude.{◌≡◌, ◌++◌, codes};
ghost use Rattle.bridge_text.specs.Growth.{HasGrown};
ghost use Rattle.net_report.specs.FrameTable as spec;

use crate::hop_counting::is_pass;
use crate::hops::is_onward;
use crate::sources::{SourceFrame, source_frame};
use crate::stream_table::put_number_with_suffix;
use bridge_filter::Verdict;
use bridge_report::{arrival_time, refusal_word, verdict_word};
use bridge_semantics::{
    Departure, Dropped, StoredDeparture, StoredDrop, StoredOrigin, StoredVerdict, View,
};
use bridge_text::TextBuilder;
use std::alloc::Allocator;

/// First line of the table `frames.csv`. The columns `frame` and `came` have the number and the arrival time at the first hop, `at` the
/// arrival time at this hop. Times and delays are in ns.
pub const FRAMES_HEADER: &str = "stream,hop,frame,came,at,fate,port,start,done,delay\n";

/// Writes the source frame's number and its arrival time at the first hop in ns, or two empty fields if the source is unknown.
/// `put_line_start` calls it.
fn put_source_frame<A: Allocator>(text: &mut TextBuilder<A>, root: Option<SourceFrame>)
    ensures { HasGrown text.old (spec.source_frame_words root) text.new }
{
    match root {
        Some(SourceFrame { number, came }) => {
            put_number_with_suffix(text, number, ",");
            put_number_with_suffix(text, came, ",");
        }
        None => text.put(",,"),
    }
}

/// Writes the beginning of a row of `frames.csv`: stream, hop, source frame, and the arrival time at this hop in ns. `put_refused`,
/// `put_drop` and `put_departure` call it.
fn put_line_start<A: Allocator>(
    text: &mut TextBuilder<A>,
    stream: &str,
    hop: &str,
    root: Option<SourceFrame>,
    at: u64,
)
    ensures { HasGrown text.old (spec.line_start stream.now hop.now root at) text.new }
{
    text.put(stream);
    text.put(",");
    text.put(hop);
    text.put(",");
    put_source_frame(text, root);
    put_number_with_suffix(text, at, ",");
}

/// Writes the `frames.csv` row of a refused frame, with the verdict as its fate. `at` is the arrival time at this hop in ns. `put_verdict`
/// calls it.
fn put_refused<A: Allocator>(
    text: &mut TextBuilder<A>,
    stream: &str,
    hop: &str,
    root: Option<SourceFrame>,
    at: u64,
    verdict: Verdict,
)
    ensures { HasGrown text.old (spec.refused_line stream.now hop.now root at verdict) text.new }
{
    put_line_start(text, stream, hop, root, at);
    text.put(verdict_word(verdict));
    text.put(",,,,\n");
}

/// Writes the `frames.csv` row of a dropped copy, with the reason of the drop as its fate. `at` is the frame's arrival time at this hop in
/// ns. `put_drops` calls it.
fn put_drop<A: Allocator>(
    text: &mut TextBuilder<A>,
    stream: &str,
    hop: &str,
    root: Option<SourceFrame>,
    at: u64,
    dropped: &Dropped,
)
    ensures { HasGrown text.old (spec.drop_line stream.now hop.now root at dropped.now) text.new }
{
    put_line_start(text, stream, hop, root, at);
    text.put(refusal_word(dropped.refusal));
    text.put(",");
    put_number_with_suffix(text, dropped.port as u64, ",,,\n");
}

/// Writes the delay in ns of a copy from its frame's arrival at the first hop to `done`, and ends the row. The field is empty if the source
/// is unknown. `put_departure` calls it.
fn put_delay<A: Allocator>(text: &mut TextBuilder<A>, done: u64, root: Option<SourceFrame>)
    ensures { HasGrown text.old (spec.delay_word done root ++ codes "\n") text.new }
{
    match root {
        Some(root) => put_number_with_suffix(text, done.saturating_sub(root.came), "\n"),
        None => text.put("\n"),
    }
}

/// Returns the word for the fate of a copy that left: `sent` if its port leads to a hop (`on`), otherwise `delivered`. `put_departure`
/// calls it.
fn departure_word(on: bool) -> &'static str
    ensures { result.now ≡ spec.departure_word on }
{
    if on { "sent" } else { "delivered" }
}

/// Writes the `frames.csv` row of a copy that left. `on` is true if its port leads to a hop; `at` is the frame's arrival time at this hop
/// in ns. `put_departures` calls it.
fn put_departure<A: Allocator>(
    text: &mut TextBuilder<A>,
    stream: &str,
    hop: &str,
    root: Option<SourceFrame>,
    at: u64,
    departure: &Departure,
    on: bool,
)
    ensures { HasGrown text.old (spec.departure_line stream.now hop.now root at departure.now on) text.new }
{
    put_line_start(text, stream, hop, root, at);
    text.put(departure_word(on));
    text.put(",");
    put_number_with_suffix(text, departure.port as u64, ",");
    put_number_with_suffix(text, departure.start, ",");
    put_number_with_suffix(text, departure.done, ",");
    put_delay(text, departure.done, root);
}

/// Writes the `frames.csv` row of a frame that arrived at time `at` in ns, if it was refused. Passed frames get rows by their copies.
/// `put_verdicts` calls it.
fn put_verdict<A: Allocator>(
    text: &mut TextBuilder<A>,
    stream: &str,
    hop: &str,
    root: Option<SourceFrame>,
    at: u64,
    verdict: Verdict,
)
    ensures { HasGrown text.old (spec.verdict_line stream.now hop.now root at verdict) text.new }
{
    if !is_pass(verdict) {
        put_refused(text, stream, hop, root, at, verdict);
    }
}

/// Writes the rows of the frames that a hop refused. `roots` and `origins` have source and arrival of each frame of the hop, in order of
/// their numbers from 1. `put_hop_lines` calls it.
fn put_verdicts<A: Allocator>(
    text: &mut TextBuilder<A>,
    stream: &str,
    hop: &str,
    roots: &[Option<SourceFrame>],
    origins: &[StoredOrigin],
    verdicts: &[StoredVerdict],
)
    ensures { HasGrown text.old (spec.verdict_lines stream.now hop.now roots.now origins.now 1 verdicts.now) text.new }
{
    let mut left = verdicts;
    let mut own = 1u64;
    while let Some((first, rest)) = left.split_first() {
        put_verdict(
            text,
            stream,
            hop,
            source_frame(roots, own),
            arrival_time(origins, own),
            first.verdict(),
        );
        own += 1;
        left = rest;
    }
}

/// Writes the `frames.csv` rows of the copies that a hop dropped. `roots` and `origins` have source and arrival of each frame of the hop.
/// `put_hop_lines` calls it.
fn put_drops<A: Allocator>(
    text: &mut TextBuilder<A>,
    stream: &str,
    hop: &str,
    roots: &[Option<SourceFrame>],
    origins: &[StoredOrigin],
    drops: &[StoredDrop],
)
    ensures { HasGrown text.old (spec.drop_lines stream.now hop.now roots.now origins.now drops.now) text.new }
{
    for dropped in drops {
        put_drop(
            text,
            stream,
            hop,
            source_frame(roots, dropped.dropped_copy().own),
            arrival_time(origins, dropped.dropped_copy().own),
            &dropped.dropped_copy(),
        );
    }
}

/// Writes the `frames.csv` rows of the copies that left a hop. `ways` has for ports 1 to 16 whether the port leads to a hop.
/// `put_hop_lines` calls it.
fn put_departures<A: Allocator>(
    text: &mut TextBuilder<A>,
    stream: &str,
    hop: &str,
    roots: &[Option<SourceFrame>],
    origins: &[StoredOrigin],
    departures: &[StoredDeparture],
    ways: &[bool],
)
    ensures { HasGrown text.old (spec.departure_lines stream.now hop.now roots.now origins.now ways.now departures.now)
        text.new }
{
    for departure in departures {
        put_departure(
            text,
            stream,
            hop,
            source_frame(roots, departure.departure().own),
            arrival_time(origins, departure.departure().own),
            &departure.departure(),
            is_onward(ways, departure.departure().port),
        );
    }
}

/// Writes the `frames.csv` rows of a hop's record `view`: refused frames, dropped copies, then copies that left. `ways` has whether each
/// port leads to a hop. `rows_of_hop` calls it.
pub(crate) fn put_hop_lines<A: Allocator + Copy>(
    text: &mut TextBuilder<A>,
    stream: &str,
    hop: &str,
    roots: &[Option<SourceFrame>],
    ways: &[bool],
    view: &View<A>,
)
    ensures { HasGrown text.old (spec.view_lines stream.now hop.now roots.now ways.now view.now) text.new }
{
    put_verdicts(text, stream, hop, roots, &view.origins, &view.verdicts);
    put_drops(text, stream, hop, roots, &view.origins, &view.drops);
    put_departures(
        text,
        stream,
        hop,
        roots,
        &view.origins,
        &view.departures,
        ways,
    );
}
