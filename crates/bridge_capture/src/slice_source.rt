//! Octets in memory as a source that can fail after a given number of octets.
ghost use Rattle.std.specs.Prelude.{◌≡◌, ◌≤◌, ◌-◌, ◌<◌, ◌⊎◌, [], length, Some, true, false, IfOk, OnOk, OnErr, IsErr, IsOk, option_map};
ghost use Rattle.std.specs.Io.KnownBytes.{ReadConsumes};
ghost use Rattle.bridge_capture.specs.Memory.{is_unfailing_source};

use crate::allowance::{allowed_octets, is_failing, remaining_allowance};
use crate::byte_source::{Broken, ByteSource};
use std::marker::Model;

/// Source of a slice's octets, for captures in memory.
#[derive(Drop)]
pub struct SliceSource<'a> {
    /// Octets of the capture that weren't read yet.
    rest: &'a [u8],
    /// Number of octets until failure; `None` means unlimited.
    allowance: Option<usize>,
    /// Largest number of octets per call.
    step: usize,
    /// Whether the source has failed.
    is_broken: bool,
}

impl<'a> Model for SliceSource<'a> {
    ghost use Rattle.std.specs.Prelude.{◌<◌, false};
    ghost use Rattle.bridge_capture.specs.Memory.{MemoryDevice};

    ghost Value = { MemoryDevice };

    ghost view = { λ s. record {
      octets = s.rest.now;
      allowance = s.allowance;
      step = s.step;
      is_broken = s.is_broken;
      ran_out = false;
    } };

    ghost invariant = { λ s. 0 < s.step };
}

impl<'a> SliceSource<'a> {
    ghost use Rattle.std.specs.Prelude.{◌≡◌, ◌<◌, Some, None, false};

    /// Makes a source that never fails. `wire_text` of `app_commands` and `capture_sources` of `net_run` call it.
    pub fn new(octets: &'a [u8]) -> SliceSource<'a>
        ensures octets { result.octets ≡ octets.entry.now }
        ensures never { result.allowance ≡ None }
        ensures sound { result.is_broken ≡ false }
    {
        SliceSource::with_limits(octets, None, usize::MAX)
    }

    /// Makes a source that fails at the next read after `count` octets. Tests of failing reads call it.
    pub fn with_allowance(octets: &'a [u8], count: usize) -> SliceSource<'a>
        ensures octets { result.octets ≡ octets.entry.now }
        ensures after { result.allowance ≡ Some count }
        ensures sound { result.is_broken ≡ false }
    {
        SliceSource::with_limits(octets, Some(count), usize::MAX)
    }

    /// Makes a source that never fails and gives at most one octet per call. Tests of incomplete reads call it.
    pub fn with_single_octets(octets: &'a [u8]) -> SliceSource<'a>
        ensures octets { result.octets ≡ octets.entry.now }
        ensures never { result.allowance ≡ None }
        ensures single { result.step ≡ 1 }
        ensures sound { result.is_broken ≡ false }
    {
        SliceSource::with_limits(octets, None, 1)
    }

    /// Makes a source with this allowance, which gives at most `step` octets per call. The other constructors call it.
    fn with_limits(octets: &'a [u8], allowance: Option<usize>, step: usize) -> SliceSource<'a>
        requires { 0 < step }
        ensures { result ≡ record {
          octets = octets.entry.now;
          allowance = allowance;
          step = step;
          is_broken = false;
          ran_out = false;
        } }
    {
        SliceSource {
            rest: octets,
            allowance,
            step,
            is_broken: false,
        }
    }
}

impl<'a> ByteSource for SliceSource<'a> {
    ghost remaining = { λ s. Some s.octets };

    ghost has_failed = { λ s. s.is_broken };

    ghost never_fails = { λ s. is_unfailing_source s };

    ghost at_hand = { λ _. [] };

    fn read(&mut self, buf: &mut [u8]) -> Result<usize, Broken>
        ensures count { IfOk result (λ n. n ≤ length buf.new) }
        ensures bytes { ReadConsumes (Some self.old.octets) (Some self.new.octets) result buf.new }
        ensures fails { OnErr result (self.new.is_broken ≡ true) }
        ensures works { OnOk result (self.new.is_broken ≡ false) }
        ensures sure { is_unfailing_source self.old ≡ true → IsOk result }
        ensures lasts { is_unfailing_source self.old ≡ true → is_unfailing_source self.new ≡ true }
        ensures stays { self.old.is_broken ≡ true → IsErr result }

        // The source fails only if it has failed before, or if its allowance is 0. It subtracts the octets that it gives from the
        // allowance.
        ensures spent { OnErr result ((self.old.is_broken ≡ true) ⊎ (self.old.allowance ≡ Some 0)) }
        ensures dry { self.old.allowance ≡ Some 0 → 0 < length buf.old → IsErr result }
        ensures counted { IfOk result (λ n. self.new.allowance ≡ option_map (λ left. left - n) self.old.allowance) }
        ensures step { IfOk result (λ n. n ≤ self.old.step) }
        ensures kept { self.new.step ≡ self.old.step }
    {
        if is_failing(self.is_broken, self.allowance, buf.len()) {
            self.is_broken = true;
            return Err(Broken);
        }
        let count = allowed_octets(
            self.allowance,
            self.step.min(buf.len()).min(self.rest.len()),
        );
        self.allowance = remaining_allowance(self.allowance, count);
        let (now, later) = self.rest.split_at(count);
        buf[..count].copy_from_slice(now);
        self.rest = later;
        Ok(count)
    }

    fn failed(&self) -> bool {
        self.is_broken
    }

    fn buffered_octets(&self) -> &[u8] {
        &[]
    }

    fn consume(&mut self, _count: usize) {}
}
