//! Writes captures to sinks of each kind.

use crate::captures::{Row, number_after_word, prefix};
use crate::text_pieces::add_debug;
use bridge_capture::{ByteSink, CaptureFault, FromWrite, VecSink, WriteBehind, Writer};
use bridge_text::TextBuilder;
use std::alloc::{Allocator, Global};
use std::cell::Cell;
use std::io::{self, ErrorKind, Write};

/// Returns a sink that fails after `count` octets, or accepts an octet for each call, as the row's words ask.
pub fn row_sink<A: Allocator + Copy>(alloc: A, row: &Row<'_>) -> VecSink<A> {
    if row.words.contains("sink") {
        VecSink::with_allowance(alloc, row.count)
    } else if row.words.contains("one by one") {
        VecSink::with_single_octets(alloc)
    } else {
        VecSink::new(alloc)
    }
}

/// Adds the number of octets that left, and whether they are the wanted octets or a prefix. A failing sink shows how many octets it lacks.
pub fn put_left(said: &mut TextBuilder<Global>, octets: &[u8], row: &Row<'_>) {
    let count = octets.len();
    let form = if octets == row.wanted {
        ", {0} octets, all"
    } else if octets != prefix(row.wanted, count) {
        ", {0} other octets"
    } else if row.words.contains("sink") {
        ", {1} octets less than it takes"
    } else {
        ", {0} octets"
    };
    let lacking = row.count.saturating_sub(count);
    said.put_template(form, &[count as u64, lacking as u64], &[]);
}

/// Counts of a writer.
#[derive(Drop)]
struct Counts {
    writes: Cell<u64>,
    whole: Cell<u64>,
    flushes: Cell<u64>,
}

/// A writer that accepts at most `most` octets for each call and fails at the call after `allowance` calls. It counts calls, and calls with
/// a whole block.
#[derive(Drop)]
struct CountingWriter<'a> {
    counts: &'a Counts,
    block: usize,
    most: usize,
    allowance: usize,
}

/// Adds one to `count`.
fn count_one(count: &Cell<u64>) {
    count.set(count.get().wrapping_add(1));
}

impl Write for CountingWriter<'_> {
    fn write(&mut self, octets: &[u8]) -> io::Result<usize> {
        count_one(&self.counts.writes);
        if octets.len() == self.block {
            count_one(&self.counts.whole);
        }
        let left = self.allowance;
        self.allowance = left.wrapping_sub(1);
        if left == 0 {
            return Err(io::Error::from(ErrorKind::Interrupted));
        }
        Ok(octets.len().min(self.most))
    }

    fn flush(&mut self) -> io::Result<()> {
        count_one(&self.counts.flushes);
        Ok(())
    }
}

/// Writes a row to the sink that its words name, and adds the result.
pub fn put_writing<A: Allocator + Copy>(
    alloc: A,
    heap: Global,
    said: &mut TextBuilder<Global>,
    row: &Row<'_>,
) {
    if row.words.contains("watched") {
        put_counting_writer(alloc, heap, said, row);
    } else if row.words.contains("buffer") {
        put_buffered(alloc, heap, said, row);
    } else if row.words.contains("vector") {
        let mut sink = FromWrite::new(Vec::new(heap));
        put_written(heap, said, &mut sink, row);
        put_left(said, &sink.into_inner(), row);
    } else {
        let mut sink = row_sink(alloc, row);
        put_written(heap, said, &mut sink, row);
        put_left(said, sink.octets(), row);
    }
}

/// Writes a row to a buffer before a vector, and adds the result.
fn put_buffered<A: Allocator + Copy>(
    alloc: A,
    heap: Global,
    said: &mut TextBuilder<Global>,
    row: &Row<'_>,
) {
    match WriteBehind::new(alloc, Vec::new(heap)) {
        Ok(mut sink) => {
            put_written(heap, said, &mut sink, row);
            match sink.finish() {
                Ok(octets) => put_left(said, &octets, row),
                Err(_) => said.put(", not finished"),
            }
        }
        Err(_) => said.put("no buffer"),
    }
}

/// Writes a row to a counting writer, and adds its counts.
fn put_counting_writer<A: Allocator + Copy>(
    alloc: A,
    heap: Global,
    said: &mut TextBuilder<Global>,
    row: &Row<'_>,
) {
    let counts = Counts {
        writes: Cell::new(0),
        whole: Cell::new(0),
        flushes: Cell::new(0),
    };
    put_counted_writing(alloc, heap, said, row, &counts);
    said.put_template(
        ", {0} writes, {1} of a whole block, {2} flushes",
        &[
            counts.writes.get(),
            counts.whole.get(),
            counts.flushes.get(),
        ],
        &[],
    );
}

/// Writes a row to a counting writer, with or without a buffer, and adds the result.
fn put_counted_writing<A: Allocator + Copy>(
    alloc: A,
    heap: Global,
    said: &mut TextBuilder<Global>,
    row: &Row<'_>,
    counts: &Counts,
) {
    let writer = CountingWriter {
        counts,
        block: number_after_word(row.words, "block ", 131_072),
        most: number_after_word(row.words, "most ", usize::MAX),
        allowance: row.count,
    };
    if row.words.contains("plain") {
        return put_written(heap, said, &mut FromWrite::new(writer), row);
    }
    let sink = match number_after_word(row.words, "block ", 0) {
        0 => WriteBehind::new(alloc, writer),
        block => WriteBehind::with_block(alloc, writer, block.clamp(1, 131_072)),
    };
    match sink {
        Ok(sink) => put_buffered_sink(heap, said, sink, row),
        Err(_) => said.put("no buffer"),
    }
}

/// Writes a row to a buffered sink, then finishes or drops the sink.
fn put_buffered_sink<W: Write + Drop, A: Allocator>(
    heap: Global,
    said: &mut TextBuilder<Global>,
    sink: WriteBehind<W, A>,
    row: &Row<'_>,
) {
    let mut sink = sink;
    put_written(heap, said, &mut sink, row);
    if row.words.contains("finished") {
        let _ = sink.finish();
    } else {
        drop(sink);
    }
}

/// Writes records of a row's octets to a sink, or only the octets `times` times, and adds the result.
fn put_written<W: ByteSink>(
    heap: Global,
    said: &mut TextBuilder<Global>,
    sink: &mut W,
    row: &Row<'_>,
) {
    let times = number_after_word(row.words, "times ", 2);
    if row.words.starts_with("fills") {
        let refused = count_refusals(sink, times, row.octets);
        said.put_template("{0} refused, ", &[refused], &[]);
    } else {
        let ended = write_records(sink, times, row);
        add_debug(heap, said, &ended);
        said.put(", ");
    }
    said.put(if sink.failed() { "failed" } else { "sound" });
}

/// Writes octets `times` times, and returns how often the sink refuses them.
fn count_refusals<W: ByteSink>(sink: &mut W, times: usize, octets: &[u8]) -> u64 {
    let mut refused = 0u64;
    for _ in 0..times {
        if sink.write(octets).is_err() {
            refused = refused.saturating_add(1);
        }
    }
    refused
}

/// Writes `times` records of a row's octets. The times of records follow `at` and `step`.
fn write_records<W: ByteSink>(
    sink: &mut W,
    times: usize,
    row: &Row<'_>,
) -> Result<(), CaptureFault> {
    let len = number_after_word(row.words, "length ", 60);
    let step = number_after_word(row.words, "step ", 1);
    let mut done = number_after_word(row.words, "at ", 0);
    if row.octets.len() > len || len > 1_500 {
        return Err(CaptureFault::LengthsCross(1));
    }
    let mut writer = Writer::begin(sink)?;
    for _ in 0..times {
        writer.put(
            sink,
            done.min(3_999_999_999_999_999_999) as u64,
            len as u32,
            row.octets,
        )?;
        done = done.saturating_add(step);
    }
    Ok(())
}
