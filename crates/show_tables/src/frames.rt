//! The table of `run --frames`: verdict of each frame, and fate of each copy.
ghost use Rattle.std.specs.Prelude.{◌≡◌, IfOk, string_bytes};
ghost use Rattle.bridge_text.specs.Growth.{HasGrown};
ghost use Rattle.std.specs.List.Sorted.{IsNonDecreasingBy};
ghost use Rattle.show_tables.specs.FrameTable as spec;

use crate::copies::{departures_by_frame, drops_by_frame, frame_departures, frame_drops};
use crate::frame_rows::{FRAMES_HEADER, FilterFrame, put_copies, put_lone_row};
use bridge_limits::NoMemory;
use bridge_semantics::{Departure, Dropped, Outcome, StoredOrigin, StoredVerdict, View};
use bridge_text::TextBuilder;
use std::alloc::Allocator;

/// Writes the rows of a frame. `departures` and `drops` are the frame's own; if there is no copy, the frame gets one row.
/// `put_sorted_frame` calls it.
fn put_frame<A: Allocator>(
    text: &mut TextBuilder<A>,
    frame: &FilterFrame,
    departures: &[Departure],
    drops: &[Dropped],
)
    ensures { HasGrown text.old (spec.copies_or_lone_row frame.now departures.now drops.now) text.new }
{
    let before = text.len();
    put_copies(text, frame, departures, drops);
    if text.len() == before {
        put_lone_row(text, frame);
    }
}

/// Writes the rows of a frame. `departures` and `drops` belong to all frames of its filter, and must rise by frame number. `put_frames`
/// calls it.
fn put_sorted_frame<A: Allocator>(
    text: &mut TextBuilder<A>,
    frame: &FilterFrame,
    departures: &[Departure],
    drops: &[Dropped],
)
    requires departures { IsNonDecreasingBy (λ (d : Departure). d.own) departures.now }
    requires drops { IsNonDecreasingBy (λ (d : Dropped). d.own) drops.now }
    ensures { HasGrown text.old (spec.frame_rows frame.now departures.now drops.now) text.new }
{
    put_frame(
        text,
        frame,
        frame_departures(departures, frame.own),
        frame_drops(drops, frame.own),
    );
}

/// Writes the rows of a filter's frames, numbered from 1. Departures and drops must rise by frame number. `put_filter_frames` calls it.
fn put_frames<A: Allocator>(
    text: &mut TextBuilder<A>,
    filter: u32,
    origins: &[StoredOrigin],
    verdicts: &[StoredVerdict],
    departures: &[Departure],
    drops: &[Dropped],
)
    requires departures { IsNonDecreasingBy (λ (d : Departure). d.own) departures.now }
    requires drops { IsNonDecreasingBy (λ (d : Dropped). d.own) drops.now }
    ensures { HasGrown text.old (spec.frames_rows filter departures.now drops.now 1 origins.now verdicts.now) text.new }
{
    let mut came = origins;
    let mut judged = verdicts;
    let mut own = 1u64;
    while let Some((origin, behind)) = came.split_first() {
        let Some((verdict, rest)) = judged.split_first() else {
            return;
        };
        let frame = FilterFrame {
            filter,
            own,
            origin: origin.origin(),
            verdict: verdict.verdict(),
        };
        put_sorted_frame(text, &frame, departures, drops);
        own += 1;
        came = behind;
        judged = rest;
    }
}

/// Writes the rows of a filter's frames, from its record `view`. If memory runs out while copies are sorted, the whole text is discarded.
/// `frame_table` calls it.
fn put_filter_frames<A: Allocator + Copy>(
    alloc: A,
    text: &mut TextBuilder<A>,
    filter: u32,
    view: &View<A>,
)
    ensures { HasGrown text.old (spec.filter_rows filter view.now) text.new }
{
    let Ok(departures) = departures_by_frame(alloc, &view.departures) else {
        text.discard();
        return;
    };
    let Ok(drops) = drops_by_frame(alloc, &view.drops) else {
        text.discard();
        return;
    };
    put_frames(
        text,
        filter,
        &view.origins,
        &view.verdicts,
        &departures,
        &drops,
    );
}

/// Returns the table of `run --frames` as CSV: a header line, then rows by filter, frame and port. A frame without copies has one row.
/// `write_frame_table` of `app_commands` calls it.
pub fn frame_table<A: Allocator + Copy>(
    alloc: A,
    outcome: &Outcome<A>,
) -> Result<String<A>, NoMemory>
    ensures { IfOk result (λ table. string_bytes table ≡ spec.frame_table outcome.now.filters.items) }
{
    let mut text = TextBuilder::new(alloc);
    text.put(FRAMES_HEADER);
    for (filter, view) in &outcome.filters {
        put_filter_frames(alloc, &mut text, *filter, view);
    }
    text.finish()
}
