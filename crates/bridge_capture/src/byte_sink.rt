//! Defines `ByteSink`: the interface by which captures are written, to a writer or to memory.
ghost use Rattle.std.specs.Prelude.{◌≡◌, ◌≤◌, ◌<◌, ◌++◌, ℕ, List, Option, Bool, true, false, length, IsErr, IfOk, OnOk, OnErr};
ghost use Rattle.std.specs.Int.{w64, to_le_bytes};
ghost use Rattle.std.specs.Io.KnownBytes.{WriteAppends, Appends};

use crate::byte_source::Broken;

/// Sink of a capture's octets. Contracts can name the octets that it contains.
pub trait ByteSink {
    /// Octets in the sink, if they are known.
    ghost contents: { Self → Option (List ℕ) };

    /// Whether the sink has failed. A failure is permanent.
    ghost has_failed: { Self → Bool };

    /// Whether the sink fails only if memory runs out.
    ghost never_fails: { Self → Bool };

    /// Whether memory for the sink ran out.
    ghost ran_out: { Self → Bool };

    /// Writes a prefix of `octets`, and returns its length: at least 1 unless `octets` is empty. Fails if the sink fails. `write_all` and
    /// `write_by_many_writes` call it until all octets are written.
    fn write(&mut self, octets: &[u8]) -> Result<usize, Broken>
        ensures count { IfOk result (λ n. n ≤ length octets.now) }
        ensures some { IfOk result (λ n. 0 < length octets.now → 0 < n) }
        ensures bytes { WriteAppends (contents self.old) (contents self.new) result octets.now }
        ensures fails { OnErr result (has_failed self.new ≡ true) }
        ensures works { OnOk result (has_failed self.new ≡ false) }
        ensures sure { never_fails self.old ≡ true → OnErr result (ran_out self.new ≡ true) }
        ensures lasts { never_fails self.old ≡ true → never_fails self.new ≡ true }
        ensures stays { has_failed self.old ≡ true → IsErr result };

    /// Writes `first` and `second`, each as eight little-endian octets, then `octets`, if the sink can accept all at once; otherwise writes
    /// nothing. Returns whether it wrote. `Writer::put` calls it.
    fn write_words(&mut self, first: u64, second: u64, octets: &[u8]) -> bool
        ensures bytes { result ≡ true
            → Appends (contents self.old) (contents self.new) ((to_le_bytes w64 first ++ to_le_bytes w64 second)
            ++ octets.now) }
        ensures fresh { result ≡ true → has_failed self.old ≡ false }
        ensures works { result ≡ true → has_failed self.new ≡ false }
        ensures lasts { never_fails self.old ≡ true → never_fails self.new ≡ true }
        ensures untouched { result ≡ false → self.new ≡ self.old };

    /// Whether the sink has failed. Buffers of captures then stop writing to it.
    fn failed(&self) -> bool
        ensures { result ≡ has_failed self.now };
}
