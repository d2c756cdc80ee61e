//! Readers of the standard library as sources that read ahead.
ghost use Rattle.std.specs.Prelude.{◌≡◌, ◌≤◌, ◌<◌, length, true, false, IfOk, OnOk, OnErr, IsErr};
ghost use Rattle.std.specs.Io.KnownBytes.{ReadConsumes};
ghost use Rattle.bridge_capture.specs.Buffers.{read_ahead_remaining, lendable_octets};

use crate::byte_source::{Broken, ByteSource};
use crate::from_read::FromRead;
use crate::read_buffer::ReadBuffer;
use bridge_limits::NoMemory;
use std::alloc::Allocator;
use std::io::Read;

/// Largest number of octets that one read of the reader returns, if `new` makes the source.
const MAX_READ: usize = 131_072;

/// Reader as a source that reads blocks of 131,072 octets or of another width. Each error of the reader is permanent, even an
/// interrupted call.
#[derive(Drop)]
pub struct ReadAhead<R: Read, A: Allocator> {
    /// Reader, as a source without a buffer.
    source: FromRead<R>,
    /// Octets that were read ahead.
    window: ReadBuffer<A>,
}

impl<R: Read + Drop, A: Allocator> ReadAhead<R, A> {
    /// Makes a source of a reader. Allocates memory once. If memory runs out, the reader is dropped. `wire_capture` and `capture_fault` of
    /// `app_commands` call it.
    pub fn new(alloc: A, reader: R) -> Result<ReadAhead<R, A>, NoMemory>
        ensures remaining { IfOk result (λ source. ⟦<ReadAhead<R, A> as ByteSource>⟧.remaining source
            ≡ R.remaining reader) }
        ensures sound { IfOk result (λ source. ⟦<ReadAhead<R, A> as ByteSource>⟧.has_failed source ≡ false) }
    {
        ReadAhead::with_width(alloc, reader, MAX_READ)
    }

    /// Makes a source that reads `width` octets at once, at least 1. A smaller width is faster if many sources alternate. `new` and
    /// `buffered_sources` of `app_commands` call it.
    pub fn with_width(alloc: A, reader: R, width: usize) -> Result<ReadAhead<R, A>, NoMemory>
        requires { 0 < width }
        ensures remaining { IfOk result (λ source. ⟦<ReadAhead<R, A> as ByteSource>⟧.remaining source
            ≡ R.remaining reader) }
        ensures sound { IfOk result (λ source. ⟦<ReadAhead<R, A> as ByteSource>⟧.has_failed source ≡ false) }
    {
        match ReadBuffer::new(alloc, width) {
            Ok(window) => Ok(ReadAhead {
                source: FromRead::new(reader),
                window,
            }),
            Err(_) => Err(NoMemory),
        }
    }
}

impl<R: Read, A: Allocator> ReadAhead<R, A> {
    /// Reads octets into `buf`, for `read`, if `buf` is longer than the octets that were read ahead, or if the reader has failed.
    #[cold]
    #[inline(never)]
    fn read_with_refill(&mut self, buf: &mut [u8]) -> Result<usize, Broken>
        ensures count { IfOk result (λ n. n ≤ length buf.new) }
        ensures bytes { ReadConsumes (read_ahead_remaining R.remaining self.old)
            (read_ahead_remaining R.remaining self.new) result buf.new }
        ensures fails { OnErr result (self.new.source.is_broken ≡ true) }
        ensures works { OnOk result (self.new.source.is_broken ≡ false) }
        ensures stays { self.old.source.is_broken ≡ true → IsErr result }
    {
        if self.source.failed() {
            return Err(Broken);
        }
        if self.window.len() == 0 {
            if buf.len() >= self.window.width() {
                return self.source.read(buf);
            }
            if let Err(broken) = self.window.refill(&mut self.source) {
                return Err(broken);
            }
        }
        let count = buf.len().min(self.window.len());
        self.window.copy_front(&mut buf[..count]);
        Ok(count)
    }
}

impl<R: Read, A: Allocator> ByteSource for ReadAhead<R, A> {
    ghost remaining = { read_ahead_remaining R.remaining };

    ghost has_failed = { λ s. s.source.is_broken };

    ghost never_fails = { λ _. false };

    ghost at_hand = { lendable_octets };

    #[inline(always)]
    fn read(&mut self, buf: &mut [u8]) -> Result<usize, Broken> {
        if self.window.len() < buf.len() || self.source.failed() {
            return self.read_with_refill(buf);
        }
        self.window.copy_front(buf);
        Ok(buf.len())
    }

    fn failed(&self) -> bool {
        self.source.failed()
    }

    #[inline(always)]
    fn buffered_octets(&self) -> &[u8] {
        if self.source.failed() {
            return &[];
        }
        self.window.octets()
    }

    #[inline(always)]
    fn consume(&mut self, count: usize) {
        self.window.skip(count);
    }
}
