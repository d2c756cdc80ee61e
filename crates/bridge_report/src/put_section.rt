//! Writes report sections to any report sink: a text in memory or a buffered writer.
ghost use Rattle.bridge_report.specs.Growth.{HasGrown};
ghost use Rattle.bridge_report.specs.Section.{copy_lines, list_lines, report_text, section_text, state_lines};

use crate::lines::{
    put_counters, put_delay, put_flags, put_header, put_optional_buckets, put_queued,
};
use crate::lists::{put_departures, put_drops, put_frames};
use crate::report_sink::ReportSink;
use bridge_semantics::View;
use std::alloc::Allocator;

/// Writes the header, and the final counters, flags and buckets of a filter, its stream gate and its meter. `put_section` calls it.
fn put_state<A: Allocator, T: ReportSink>(text: &mut T, filter: u32, view: &View<A>)
    ensures { HasGrown T.contents text.old (state_lines filter view.now) text.new }
{
    put_header(text, filter, view.protected);
    put_counters(text, &view.counters);
    put_flags(text, &view.flags);
    put_optional_buckets(text, view.buckets);
}

/// Writes the counts of the copies of a filter's frames, and their longest delay. `put_section` calls it.
fn put_copies<A: Allocator, T: ReportSink>(text: &mut T, view: &View<A>)
    ensures { HasGrown T.contents text.old (copy_lines view.now) text.new }
{
    put_queued(text, &view.departures, &view.drops);
    put_delay(text, view.delay);
}

/// Writes the last part of a section: the lists of frames, drops and departures. `put_section` calls it.
fn put_lists<A: Allocator, T: ReportSink>(text: &mut T, view: &View<A>)
    ensures { HasGrown T.contents text.old (list_lines view.now) text.new }
{
    put_frames(text, &view.verdicts);
    put_drops(text, &view.drops);
    put_departures(text, &view.departures);
}

/// Writes the report section of filter `filter` with the record `view`, from its header to the line `end`. `put_sections` and `section`
/// call it.
pub fn put_section<A: Allocator, T: ReportSink>(text: &mut T, filter: u32, view: &View<A>)
    ensures { HasGrown T.contents text.old (section_text filter view.now) text.new }
{
    put_state(text, filter, view);
    put_copies(text, view);
    put_lists(text, view);
    text.put("end\n");
}

/// Writes the sections of `filters`, in list order: the whole report of a run. `report` and `write_report` call it.
pub fn put_sections<A: Allocator, T: ReportSink>(text: &mut T, filters: &[(u32, View<A>)])
    ensures { HasGrown T.contents text.old (report_text filters.now) text.new }
{
    for (filter, view) in filters {
        put_section(text, *filter, view);
    }
}
