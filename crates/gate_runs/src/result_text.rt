//! Writes the result of a run as a text.

use crate::line_output::{LineOutput, add};
use bridge_capture::hex_lines;
use bridge_core::{Outcome, RunFault, View};
use bridge_report::{has_section, report, section, summary, write_report};
use bridge_text::TextBuilder;
use std::alloc::Global;

/// Returns the result or the fault of a run, and the captures of its ports, as a text.
pub fn result_text(
    said: &mut LineOutput,
    ended: &Result<Outcome<Global>, RunFault>,
    left: [&[u8]; 3],
) -> String {
    let alloc = said.alloc;
    let mut text = TextBuilder::new(alloc);
    match ended {
        Ok(outcome) => put_outcome(said, &mut text, outcome),
        Err(fault) => add(&mut text, format!(in alloc; "stops: {fault:?}\n")),
    }
    put_left(alloc, &mut text, left);
    said.piece_or_stop(text.finish())
}

/// Adds the result of a run: report, frames of each filter, counts of each port, and line of counts.
fn put_outcome(said: &mut LineOutput, text: &mut TextBuilder<Global>, outcome: &Outcome<Global>) {
    let alloc = said.alloc;
    let own = said.piece_or_stop(report(alloc, outcome));
    if !is_written(alloc, outcome, own.as_bytes()) || !has_front(alloc, outcome, own.as_str()) {
        said.stop("a report that is written otherwise, or begins with another section");
    }
    text.put(own.as_str());
    put_counts(alloc, text, outcome);
    add(text, summary(alloc, outcome));
}

/// Whether a report into a writer has equal contents.
fn is_written(alloc: Global, outcome: &Outcome<Global>, text: &[u8]) -> bool {
    match write_report(alloc, outcome, Vec::new(alloc)) {
        Ok(written) => written.as_slice() == text,
        Err(_) => false,
    }
}

/// Whether a report begins with the section of filter 10, or is empty if this section is missing.
fn has_front(alloc: Global, outcome: &Outcome<Global>, text: &str) -> bool {
    if !has_section(outcome, 10) {
        return text.is_empty();
    }
    match section(alloc, outcome, 10) {
        Ok(own) => text.starts_with(own.as_str()),
        Err(_) => false,
    }
}

/// Adds the frames of each filter and the counts of each port, which no report contains.
fn put_counts(alloc: Global, text: &mut TextBuilder<Global>, outcome: &Outcome<Global>) {
    for (filter, view) in &outcome.filters {
        put_view(alloc, text, *filter, view);
    }
    for (port, count) in &outcome.ports {
        add(text, format!(in alloc; "port {port} {count:?}\n"));
    }
}

/// Adds the buckets of a filter's meter, then port, arrival time and verdict of each of its frames.
fn put_view(alloc: Global, text: &mut TextBuilder<Global>, filter: u32, view: &View<Global>) {
    let (origins, buckets) = (view.origins.len(), view.buckets);
    add(
        text,
        format!(in alloc; "filter {filter} origins {origins} buckets {buckets:?}\n"),
    );
    for (judged, came) in view.verdicts.iter().zip(&view.origins) {
        let (verdict, origin) = (judged.verdict(), came.origin());
        add(
            text,
            format!(in alloc; "came to {filter} {origin:?} {verdict:?}\n"),
        );
    }
}

/// Adds the octets that left each port, in hexadecimal.
fn put_left(alloc: Global, text: &mut TextBuilder<Global>, left: [&[u8]; 3]) {
    for (place, octets) in left.iter().enumerate() {
        let port = place.saturating_add(1) as u64;
        text.put_template("left {0} {1} octets\n", &[port, octets.len() as u64], &[]);
        if !octets.is_empty() {
            add(text, hex_lines(alloc, octets));
        }
    }
}
