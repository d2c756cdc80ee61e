//! Buffer of octets that were read ahead from a capture.
ghost use Rattle.std.specs.Prelude.{◌≡◌, ◌≤◌, ◌<◌, ◌-◌, ◌++◌, length, take, slice_range, vec_len, true, false, IfOk, OnOk, OnErr};
ghost use Rattle.std.specs.Io.KnownBytes.{Consumes, IsAtEnd, Keeps, prepend_known};

use crate::byte_source::{Broken, ByteSource};
use bridge_limits::NoMemory;
use std::alloc::Allocator;

/// Octets that were read ahead and aren't used yet: from `start` to `end`.
#[derive(Drop)]
pub struct ReadBuffer<A: Allocator> {
    /// Buffer; only octets from `start` to `end` have a meaning.
    octets: Vec<u8, A>,
    /// Index of the first unused octet.
    start: usize,
    /// Index after the last unused octet.
    end: usize,
    ghost wide: { 0 < vec_len octets },
    ghost ordered: { start ≤ end },
    ghost within: { end ≤ vec_len octets },
}

impl<A: Allocator> ReadBuffer<A> {
    /// Makes an empty buffer of `width` octets. Allocates memory once. `with_width` calls it.
    pub fn new(alloc: A, width: usize) -> Result<ReadBuffer<A>, NoMemory>
        requires { 0 < width }
        ensures start { IfOk result (λ window. window.start ≡ 0) }
        ensures end { IfOk result (λ window. window.end ≡ 0) }
    {
        match Vec::from_elem(alloc, 0u8, width) {
            Ok(octets) => Ok(ReadBuffer {
                octets,
                start: 0,
                end: 0,
            }),
            Err(_) => Err(NoMemory),
        }
    }

    /// Returns the capacity in octets: the number that one refill reads at most. `read_with_refill` calls it.
    pub fn width(&self) -> usize
        ensures positive { 0 < result }
    {
        self.octets.len()
    }

    /// Returns the number of octets in the buffer. `ReadAhead` reads from its source if the buffer has too few.
    #[inline(always)]
    pub fn len(&self) -> usize
        ensures { result ≡ self.now.end - self.now.start }
    {
        self.end - self.start
    }

    /// Fills `buf` with the next octets, which must be in the buffer. `read_with_refill` and `ReadAhead::read` call it.
    #[inline(always)]
    pub fn copy_front(&mut self, buf: &mut [u8])
        requires { length buf.old ≤ self.old.end - self.old.start }
        ensures given { slice_range self.old.octets.items self.old.start self.old.end ≡ buf.new
            ++ slice_range self.new.octets.items self.new.start self.new.end }
        ensures length { length buf.new ≡ length buf.old }
    {
        let from = self.start;
        let to = from + buf.len();
        buf.copy_from_slice(&self.octets[from..to]);
        self.start = to;
    }

    /// Returns the octets in the buffer. `ReadAhead` hands them to the reader of a capture.
    #[inline(always)]
    pub fn octets(&self) -> &[u8]
        ensures { result.now ≡ slice_range self.now.octets.items self.now.start self.now.end }
    {
        &self.octets[self.start..self.end]
    }

    /// Drops the first `count` octets, which must be in the buffer. `ReadAhead::consume` calls it for octets that its caller has copied.
    #[inline(always)]
    pub fn skip(&mut self, count: usize)
        requires { count ≤ self.old.end - self.old.start }
        ensures { slice_range self.old.octets.items self.old.start self.old.end
            ≡ take count (slice_range self.old.octets.items self.old.start self.old.end)
            ++ slice_range self.new.octets.items self.new.start self.new.end }
    {
        self.start += count;
    }

    /// Fills the empty buffer with one read of the source. Fails if the source fails. `read_with_refill` calls it.
    pub fn refill<R: ByteSource>(&mut self, source: &mut R) -> Result<(), Broken>
        requires { self.old.start ≡ self.old.end }
        ensures kept { Keeps (R.remaining source.old)
            (prepend_known (slice_range self.new.octets.items self.new.start self.new.end) (R.remaining source.new)) }
        ensures end { OnOk result (self.new.end ≡ self.new.start → IsAtEnd (R.remaining source.new)) }
        ensures none { OnErr result (self.new.end ≡ self.new.start) }
        ensures fails { OnErr result (R.has_failed source.new ≡ true) }
        ensures works { OnOk result (R.has_failed source.new ≡ false) }
    {
        self.start = 0;
        self.end = 0;
        match overwrite_octets(source, &mut self.octets) {
            Ok(count) => {
                self.end = count;
                Ok(())
            }
            Err(broken) => Err(broken),
        }
    }
}

/// Reads octets of the source into `octets`, over the old ones, by one read. Returns their number; 0 at the source's end. Fails if the
/// source fails. `refill` calls it.
fn overwrite_octets<R: ByteSource, A: Allocator>(
    source: &mut R,
    octets: &mut Vec<u8, A>,
) -> Result<usize, Broken>
    ensures length { vec_len octets.new ≡ vec_len octets.old }
    ensures count { IfOk result (λ n. n ≤ vec_len octets.new) }
    ensures bytes { IfOk result (λ n. Consumes (R.remaining source.old) (R.remaining source.new)
        (take n octets.new.items)) }
    ensures end { IfOk result (λ n. n ≡ 0 → 0 < vec_len octets.old → IsAtEnd (R.remaining source.new)) }
    ensures kept { OnErr result (Keeps (R.remaining source.old) (R.remaining source.new)) }
    ensures fails { OnErr result (R.has_failed source.new ≡ true) }
    ensures works { OnOk result (R.has_failed source.new ≡ false) }
{
    source.read(octets.as_mut_slice())
}
