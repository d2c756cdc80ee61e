//! Reads captures from sources of each kind, and sends them through a queue.

use crate::captures::{Row, number_after_word, prefix};
use crate::sinks::{put_left, row_sink};
use crate::text_pieces::add_debug;
use bridge_capture::{ByteSource, Capture, CaptureFault, FromRead, ReadAhead, SliceSource};
use bridge_frame::Speed;
use bridge_text::TextBuilder;
use bridge_wire::wire;
use std::alloc::{Allocator, Global};
use std::io::{self, Cursor, ErrorKind, Read};

/// Returns the octets of a row as a source: cut or failing after `count` octets, or with an octet for each call.
fn row_source<'a>(row: &Row<'a>) -> SliceSource<'a> {
    if row.words.contains("source") {
        SliceSource::with_allowance(row.octets, row.count)
    } else if row.words.contains("cut") {
        SliceSource::new(prefix(row.octets, row.count))
    } else if row.words.contains("one by one") {
        SliceSource::with_single_octets(row.octets)
    } else {
        SliceSource::new(row.octets)
    }
}

/// A reader whose first call fails, and whose later calls succeed.
#[derive(Drop)]
struct ErrsOnce {
    has_erred: bool,
}

impl Read for ErrsOnce {
    fn read(&mut self, _: &mut [u8]) -> io::Result<usize> {
        if self.has_erred {
            return Ok(0);
        }
        self.has_erred = true;
        Err(io::Error::from(ErrorKind::Interrupted))
    }
}

/// Reads a row's octets from the source that its words name, and adds the result.
pub fn put_reading<A: Allocator + Copy>(
    alloc: A,
    heap: Global,
    said: &mut TextBuilder<Global>,
    row: &Row<'_>,
) {
    if row.words.contains("erring") {
        put_reader(alloc, heap, said, row.words, ErrsOnce { has_erred: false });
    } else if row.words.contains("reader") {
        put_reader(alloc, heap, said, row.words, Cursor::new(row.octets));
    } else {
        put_read(alloc, heap, said, &mut row_source(row));
    }
}

/// Reads a capture from a reader, with or without a buffer, and adds the result.
fn put_reader<R: Read + Drop, A: Allocator + Copy>(
    alloc: A,
    heap: Global,
    said: &mut TextBuilder<Global>,
    words: &str,
    reader: R,
) {
    if words.contains("buffer") {
        match ReadAhead::new(alloc, reader) {
            Ok(mut source) => {
                put_read(alloc, heap, said, &mut source);
                drop(source);
            }
            Err(_) => said.put("no buffer"),
        }
    } else {
        put_read(alloc, heap, said, &mut FromRead::new(reader));
    }
}

/// Reads a source, and adds its first two packets, the number of packets, the ending, and the source's state.
fn put_read<R: ByteSource, A: Allocator + Copy>(
    alloc: A,
    heap: Global,
    said: &mut TextBuilder<Global>,
    source: &mut R,
) {
    let (count, ended) = match Capture::begin(source) {
        Ok(mut capture) => read_to_end(alloc, said, &mut capture, source),
        Err(fault) => (0, Err(fault)),
    };
    said.put_template("{0} packets, ", &[count], &[]);
    add_debug(heap, said, &ended);
    said.put(", ");
    said.put(source_state(source));
}

/// Adds the first two packets of a capture, and returns the number of packets and the ending: a fault, or no packet.
fn read_to_end<R: ByteSource, A: Allocator + Copy>(
    alloc: A,
    said: &mut TextBuilder<Global>,
    capture: &mut Capture,
    source: &mut R,
) -> (u64, Result<bool, CaptureFault>) {
    for count in 0..1_000_002u64 {
        let next = has_next(alloc, said, count, capture, source);
        if next != Ok(true) {
            return (count, repeat_ending(alloc, said, capture, source, next));
        }
    }
    (1_000_002, Ok(true))
}

/// Returns the ending of a capture if three more calls give it, or `Ok(true)` otherwise.
fn repeat_ending<R: ByteSource, A: Allocator + Copy>(
    alloc: A,
    said: &mut TextBuilder<Global>,
    capture: &mut Capture,
    source: &mut R,
    ended: Result<bool, CaptureFault>,
) -> Result<bool, CaptureFault> {
    for _ in 0..3 {
        if has_next(alloc, said, 2, capture, source) != ended {
            return Ok(true);
        }
    }
    ended
}

/// Returns whether a capture gives a further packet, and adds the packet if it is among the first two.
fn has_next<R: ByteSource, A: Allocator + Copy>(
    alloc: A,
    said: &mut TextBuilder<Global>,
    count: u64,
    capture: &mut Capture,
    source: &mut R,
) -> Result<bool, CaptureFault> {
    match capture.next(alloc, source) {
        Ok(Some(packet)) => {
            if count < 2 {
                put_packet(said, packet.time, packet.len, &packet.octets);
            }
            Ok(true)
        }
        Ok(None) => Ok(false),
        Err(fault) => Err(fault),
    }
}

/// Adds a packet's time, length, number of octets, and first 20 octets.
fn put_packet(said: &mut TextBuilder<Global>, time: u64, len: u32, octets: &[u8]) {
    said.put_template(
        "{0} {1} {2}:",
        &[time, u64::from(len), octets.len() as u64],
        &[],
    );
    for octet in prefix(octets, 20) {
        said.put(" ");
        said.put_number(u64::from(*octet));
    }
    said.put(", ");
}

/// Returns the state of a source: sound, failed once, or failed for good.
fn source_state<R: ByteSource>(source: &mut R) -> &'static str {
    if !source.failed() {
        return "sound";
    }
    for _ in 0..3 {
        if source.read(&mut [0; 4]).is_ok() | !source.failed() {
            return "failed once";
        }
    }
    "failed"
}

/// Sends a row's octets through a queue before a link of 1,000 Mb/s, and adds the result. The words give the queue capacity.
pub fn put_sending<A: Allocator + Copy>(
    alloc: A,
    heap: Global,
    said: &mut TextBuilder<Global>,
    row: &Row<'_>,
) {
    let places = number_after_word(row.words, "places ", 4).clamp(1, 4_096);
    let mut sink = row_sink(alloc, row);
    let mut source = row_source(row);
    let ended = wire(
        alloc,
        Speed::Mbps1000,
        places as u16,
        &mut source,
        &mut sink,
    );
    add_debug(heap, said, &ended);
    put_left(said, sink.octets(), row);
}
