//! Buffers for the readers and writers of captures, and their flush after a run.
ghost use Rattle.std.specs.Prelude.{◌≡◌, ◌<◌, ◌≤◌, [], length, map, take, vec_capacity, IfOk};
ghost use Rattle.app_commands.specs.Flushed.{AllKept, NoneFailed};

use app_failure::NoMemory;
use bridge_capture::{ByteSink, ByteSource, ReadAhead, WriteBehind};
use std::alloc::Allocator;
use std::io::{Read, Write};

/// Returns the block size in octets for each of `count` readers or writers. Blocks are whole pages of a file, and together stay in the
/// processor's caches. `buffered_sources` and `buffered_sinks` call it.
fn block_size(count: usize) -> usize
    ensures some { 0 < result }
    ensures most { result ≤ 65536 }
{
    if count <= 8 { 65_536 } else { 32_768 }
}

/// Returns a buffered source over each reader, in list order. Whole blocks are read at once. `run_captures` calls it.
pub fn buffered_sources<R: Read + Drop, A: Allocator + Copy>(
    alloc: A,
    readers: Vec<R, A>,
) -> Result<Vec<ReadAhead<R, A>, A>, NoMemory>
    ensures { IfOk result (λ sources. map ⟦<ReadAhead<R, A> as ByteSource>⟧.remaining sources.items
        ≡ map R.remaining readers.items) }
{
    let block = block_size(readers.len());
    let mut sources = Vec::with_capacity(alloc, readers.len())?;
    for reader in readers {
        let source = ReadAhead::with_width(alloc, reader, block)?;
        if sources.push(source).is_err() {
            return Err(NoMemory);
        }
    }
    Ok(sources)
}

/// Returns a buffered sink over each writer, in list order. Whole blocks are written at once. `run_captures` calls it.
pub fn buffered_sinks<W: Write + Drop, A: Allocator + Copy>(
    alloc: A,
    writers: Vec<W, A>,
) -> Result<Vec<WriteBehind<W, A>, A>, NoMemory>
    ensures { IfOk result (λ sinks. AllKept W.contents ⟦<WriteBehind<W, A> as ByteSink>⟧.contents writers.items
        sinks.items) }
{
    let block = block_size(writers.len());
    let mut sinks = Vec::with_capacity(alloc, writers.len())?;
    for writer in writers {
        let sink = WriteBehind::with_block(alloc, writer, block)?;
        if sinks.push(sink).is_err() {
            return Err(NoMemory);
        }
    }
    Ok(sinks)
}

/// Flushes the sinks in list order, and returns the writers before the first that fails. Later sinks are dropped, which writes their
/// buffers too. `flushed` is empty, with capacity for all writers. `run_captures` calls it.
pub fn finish_sinks<W: Write + Drop, A: Allocator + Copy>(
    sinks: Vec<WriteBehind<W, A>, A>,
    flushed: Vec<W, A>,
) -> Vec<W, A>
    requires none { flushed.items ≡ [] }
    requires room { length sinks.items ≤ vec_capacity flushed }
    ensures few { length result.items ≤ length sinks.items }
    ensures kept { AllKept ⟦<WriteBehind<W, A> as ByteSink>⟧.contents W.contents
        (take (length result.items) sinks.items) result.items }
    ensures sound { NoneFailed ⟦<WriteBehind<W, A> as ByteSink>⟧.has_failed (take (length result.items) sinks.items) }
{
    let mut flushed = flushed;
    for sink in sinks {
        match sink.finish() {
            Ok(writer) => match flushed.push(writer) {
                Ok(()) => {}
                Err(_) => unreachable!(),
            },
            Err(_) => return flushed,
        }
    }
    flushed
}
