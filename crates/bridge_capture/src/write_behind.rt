//! Writers of the standard library as sinks that hold octets back.
ghost use Rattle.std.specs.Prelude.{◌≡◌, ◌≤◌, ◌<◌, ◌-◌, length, true, false, IsErr, IfOk, OnOk, OnErr};
ghost use Rattle.std.specs.Io.KnownBytes.{Keeps, WriteAppends};
ghost use Rattle.bridge_capture.specs.Buffers.{write_behind_contents};

use crate::byte_sink::ByteSink;
use crate::byte_source::Broken;
use crate::from_write::FromWrite;
use crate::transfer::write_by_many_writes;
use crate::write_buffer::{MAX_BLOCK, WriteBuffer};
use bridge_limits::NoMemory;
use std::alloc::Allocator;
use std::io::Write;

/// Writer as a sink that holds back up to a block of octets, and the rest of a record. Each write except the last is a whole block:
/// whole pages of a file.
///
/// `finish` or dropping the sink writes the rest. Each error of the writer is permanent, even an interrupted call; a failed writer
/// is never called again.
pub struct WriteBehind<W: Write + Drop, A: Allocator> {
    /// Writer, as a sink without a buffer.
    sink: FromWrite<W>,
    /// Octets that weren't written to the sink yet.
    held: WriteBuffer<A>,
}

impl<W: Write + Drop, A: Allocator> WriteBehind<W, A> {
    /// Makes a sink with blocks of 131,072 octets. Allocates memory once. If memory runs out, the writer is dropped. `wire_capture` of
    /// `app_commands` calls it.
    pub fn new(alloc: A, writer: W) -> Result<WriteBehind<W, A>, NoMemory>
        ensures contents { IfOk result (λ sink. Keeps (W.contents writer)
            (⟦<WriteBehind<W, A> as ByteSink>⟧.contents sink)) }
        ensures sound { IfOk result (λ sink. ⟦<WriteBehind<W, A> as ByteSink>⟧.has_failed sink ≡ false) }
    {
        WriteBehind::with_block(alloc, writer, MAX_BLOCK)
    }

    /// Makes a sink with blocks of `block` octets, 1 to 131,072. Smaller blocks are faster if many sinks alternate. `new` and
    /// `buffered_sinks` of `app_commands` call it.
    pub fn with_block(alloc: A, writer: W, block: usize) -> Result<WriteBehind<W, A>, NoMemory>
        requires some { 0 < block }
        requires most { block ≤ 131_072 }
        ensures contents { IfOk result (λ sink. Keeps (W.contents writer)
            (⟦<WriteBehind<W, A> as ByteSink>⟧.contents sink)) }
        ensures sound { IfOk result (λ sink. ⟦<WriteBehind<W, A> as ByteSink>⟧.has_failed sink ≡ false) }
    {
        match WriteBuffer::new(alloc, block) {
            Ok(held) => Ok(WriteBehind {
                sink: FromWrite::new(writer),
                held,
            }),
            Err(_) => Err(NoMemory),
        }
    }

    /// Writes the octets held back, and returns the writer. A failed writer is never called again. Functions of `app_commands` call it
    /// after the last frame.
    pub fn finish(mut self) -> Result<W, Broken>
        ensures contents { IfOk result (λ writer. Keeps (⟦<WriteBehind<W, A> as ByteSink>⟧.contents self)
            (W.contents writer)) }
        ensures failed { ⟦<WriteBehind<W, A> as ByteSink>⟧.has_failed self ≡ true → IsErr result }
    {
        let held = self.held.len();
        let handed = self.flush_octets(held);
        let WriteBehind { sink, held: _ } = self;
        let mut writer = sink.into_inner();
        if handed.is_err() {
            return Err(Broken);
        }
        match writer.flush() {
            Ok(()) => Ok(writer),
            Err(_) => Err(Broken),
        }
    }

    /// Writes the first `count` octets held back. Octets that the writer doesn't accept stay. A failure is permanent.
    /// `WriteBehind::finish`, `write_with_flush` and `drop` call it.
    fn flush_octets(&mut self, count: usize) -> Result<(), Broken>
        requires { count ≤ self.old.held.count }
        ensures kept { Keeps (write_behind_contents W.contents self.old) (write_behind_contents W.contents self.new) }
        ensures count { OnOk result (self.new.held.count ≡ self.old.held.count - count) }
        ensures fails { OnErr result (self.new.sink.is_broken ≡ true) }
        ensures works { OnOk result (self.new.sink.is_broken ≡ false) }
        ensures stays { self.old.sink.is_broken ≡ true → IsErr result }
    {
        if self.sink.failed() {
            return Err(Broken);
        }
        match write_by_many_writes(&mut self.sink, &self.held.octets()[..count]) {
            Ok(()) => {
                self.held.skip(count);
                Ok(())
            }
            Err(taken) => {
                self.held.skip(taken);
                Err(Broken)
            }
        }
    }

    /// Writes octets held back to the writer, then holds back a prefix of `octets`, and returns its length. `write` calls it if the buffer
    /// lacks capacity, or after a failure.
    #[cold]
    #[inline(never)]
    fn write_with_flush(&mut self, octets: &[u8]) -> Result<usize, Broken>
        ensures count { IfOk result (λ n. n ≤ length octets.now) }
        ensures some { IfOk result (λ n. 0 < length octets.now → 0 < n) }
        ensures bytes { WriteAppends (write_behind_contents W.contents self.old)
            (write_behind_contents W.contents self.new) result octets.now }
        ensures fails { OnErr result (self.new.sink.is_broken ≡ true) }
        ensures works { OnOk result (self.new.sink.is_broken ≡ false) }
        ensures stays { self.old.sink.is_broken ≡ true → IsErr result }
    {
        let held = self.held.len();
        let block = self.held.block_len();
        if let Err(broken) = self.flush_octets(if held < block { held } else { block }) {
            return Err(broken);
        }
        let room = self.held.room();
        let count = if octets.len() < room {
            octets.len()
        } else {
            room
        };
        self.held.put(&octets[..count]);
        Ok(count)
    }
}

impl<W: Write + Drop, A: Allocator> ByteSink for WriteBehind<W, A> {
    ghost contents = { write_behind_contents W.contents };

    ghost has_failed = { λ s. s.sink.is_broken };

    ghost never_fails = { λ _. false };

    ghost ran_out = { λ _. false };

    #[inline(always)]
    fn write(&mut self, octets: &[u8]) -> Result<usize, Broken> {
        if !self.held.has_room(octets.len()) || self.sink.failed() {
            return self.write_with_flush(octets);
        }
        self.held.put(octets);
        Ok(octets.len())
    }

    #[inline(always)]
    fn write_words(&mut self, first: u64, second: u64, octets: &[u8]) -> bool {
        if !self.held.has_room(16 + octets.len()) || self.sink.failed() {
            return false;
        }
        self.held.put_record(first, second, octets);
        true
    }

    fn failed(&self) -> bool {
        self.sink.failed()
    }
}

impl<W: Write + Drop, A: Allocator> Drop for WriteBehind<W, A> {
    fn drop(mut self) {
        let held = self.held.len();
        let _ = self.flush_octets(held);
        let WriteBehind { sink: _, held: _ } = self;
    }
}
