//! Defines `ByteSource`: the interface by which captures are read, from a reader or from memory.
ghost use Rattle.std.specs.Prelude.{◌≡◌, ◌≤◌, ◌<◌, ℕ, List, Option, Bool, true, false, length, take, drop, IsErr, IsOk, IfOk, OnOk, OnErr};
ghost use Rattle.std.specs.Io.KnownBytes.{ReadConsumes, Consumes};

use thiserror::Error;

/// A source or sink has failed. The failure is permanent.
#[derive(Clone, Copy, Debug, PartialEq, Eq, Error)]
#[error("the device failed")]
pub struct Broken;

/// Source of a capture's octets. Contracts can name the octets that remain.
pub trait ByteSource {
    /// Remaining octets, if they are known.
    ghost remaining: { Self → Option (List ℕ) };

    /// Whether the source has failed. A failure is permanent.
    ghost has_failed: { Self → Bool };

    /// Whether the source never fails.
    ghost never_fails: { Self → Bool };

    /// Next octets that the source lends without reading.
    ghost at_hand: { Self → List ℕ };

    /// Reads the next octets to the front of `buf`, and returns their number. 0 means the end, unless `buf` is empty. Fails if the source
    /// fails. `fill_buffer`, `fill_by_many_reads` and `overwrite_octets` call it.
    fn read(&mut self, buf: &mut [u8]) -> Result<usize, Broken>
        ensures count { IfOk result (λ n. n ≤ length buf.new) }
        ensures bytes { ReadConsumes (remaining self.old) (remaining self.new) result buf.new }
        ensures fails { OnErr result (has_failed self.new ≡ true) }
        ensures works { OnOk result (has_failed self.new ≡ false) }
        ensures sure { never_fails self.old ≡ true → IsOk result }
        ensures lasts { never_fails self.old ≡ true → never_fails self.new ≡ true }
        ensures stays { has_failed self.old ≡ true → IsErr result };

    /// Whether the source has failed. Buffers of captures then stop reading from it.
    fn failed(&self) -> bool
        ensures { result ≡ has_failed self.now };

    /// Returns the buffered octets that are next; none after a failure. `read_next_record` copies a record from them without a read.
    fn buffered_octets(&self) -> &[u8]
        ensures lent { result.now ≡ at_hand self.now }
        ensures sound { 0 < length result.now → has_failed self.now ≡ false };

    /// Drops the first `count` buffered octets. `read_next_record` calls it for the octets that it has copied.
    fn consume(&mut self, count: usize)
        requires { count ≤ length (at_hand self.old) }
        ensures bytes { Consumes (remaining self.old) (remaining self.new) (take count (at_hand self.old)) }
        ensures rest { at_hand self.new ≡ drop count (at_hand self.old) }
        ensures stays { has_failed self.new ≡ has_failed self.old }
        ensures lasts { never_fails self.old ≡ true → never_fails self.new ≡ true };
}
