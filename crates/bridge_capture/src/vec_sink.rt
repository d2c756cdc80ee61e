//! Sink in memory that can fail after a given number of octets.
ghost use Rattle.std.specs.Prelude.{◌≡◌, ◌≤◌, ◌-◌, ◌<◌, ◌⊎◌, length, Some, true, false, IfOk, OnOk, OnErr, IsErr, option_map};
ghost use Rattle.std.specs.Io.KnownBytes.{WriteAppends};
ghost use Rattle.bridge_capture.specs.Memory.{is_unfailing_sink};

use crate::allowance::{allowed_octets, is_failing, remaining_allowance};
use crate::byte_sink::ByteSink;
use crate::byte_source::Broken;
use std::alloc::Allocator;
use std::marker::Model;

/// Sink that stores its octets in memory.
#[derive(Drop)]
pub struct VecSink<A: Allocator> {
    /// Octets of the capture that were written so far.
    octets: Vec<u8, A>,
    /// Number of octets until failure; `None` means unlimited.
    allowance: Option<usize>,
    /// Largest number of octets per call.
    step: usize,
    /// Whether the sink has failed.
    is_broken: bool,
    /// Whether memory ran out.
    ran_out: bool,
}

impl<A: Allocator> Model for VecSink<A> {
    ghost use Rattle.std.specs.Prelude.{◌<◌};
    ghost use Rattle.bridge_capture.specs.Memory.{MemoryDevice};

    ghost Value = { MemoryDevice };

    ghost view = { λ s. record {
      octets = s.octets.items;
      allowance = s.allowance;
      step = s.step;
      is_broken = s.is_broken;
      ran_out = s.ran_out;
    } };

    ghost invariant = { λ s. 0 < s.step };
}

impl<A: Allocator> VecSink<A> {
    ghost use Rattle.std.specs.Prelude.{◌≡◌, ◌<◌, [], Some, None, false};

    /// Makes an empty sink that fails only if memory runs out. `wire_text` of `app_commands`, and `empty_sinks` and `copy_sink` of
    /// `net_run` call it.
    pub fn new(alloc: A) -> VecSink<A>
        ensures octets { result.octets ≡ [] }
        ensures never { result.allowance ≡ None }
        ensures sound { result.is_broken ≡ false }
        ensures room { result.ran_out ≡ false }
    {
        VecSink::with_limits(alloc, None, usize::MAX)
    }

    /// Makes an empty sink that fails after `count` octets, or if memory runs out. Tests of failing writes call it.
    pub fn with_allowance(alloc: A, count: usize) -> VecSink<A>
        ensures octets { result.octets ≡ [] }
        ensures after { result.allowance ≡ Some count }
        ensures sound { result.is_broken ≡ false }
        ensures room { result.ran_out ≡ false }
    {
        VecSink::with_limits(alloc, Some(count), usize::MAX)
    }

    /// Makes an empty sink that accepts at most one octet per call, and fails only if memory runs out. Tests of incomplete writes call it.
    pub fn with_single_octets(alloc: A) -> VecSink<A>
        ensures octets { result.octets ≡ [] }
        ensures never { result.allowance ≡ None }
        ensures single { result.step ≡ 1 }
        ensures sound { result.is_broken ≡ false }
        ensures room { result.ran_out ≡ false }
    {
        VecSink::with_limits(alloc, None, 1)
    }

    /// Makes an empty sink with this allowance, which accepts at most `step` octets per call. The other constructors call it.
    fn with_limits(alloc: A, allowance: Option<usize>, step: usize) -> VecSink<A>
        requires { 0 < step }
        ensures { result ≡ record {
          octets = [];
          allowance = allowance;
          step = step;
          is_broken = false;
          ran_out = false;
        } }
    {
        VecSink {
            octets: Vec::new(alloc),
            allowance,
            step,
            is_broken: false,
            ran_out: false,
        }
    }

    /// Returns the octets in the sink. If the program has no arguments, it prints them. Network runs deliver them over links.
    pub fn octets(&self) -> &[u8]
        ensures { result.now ≡ self.now.octets }
    {
        &self.octets
    }

    /// Whether memory ran out, the only reason why an unlimited sink fails. `wire_text` of `app_commands` calls it.
    pub fn is_out_of_memory(&self) -> bool
        ensures { result ≡ self.now.ran_out }
    {
        self.ran_out
    }
}

impl<A: Allocator> ByteSink for VecSink<A> {
    ghost contents = { λ s. Some s.octets };

    ghost has_failed = { λ s. s.is_broken };

    ghost never_fails = { λ s. is_unfailing_sink s };

    ghost ran_out = { λ s. s.ran_out };

    fn write(&mut self, octets: &[u8]) -> Result<usize, Broken>
        ensures count { IfOk result (λ n. n ≤ length octets.now) }
        ensures some { IfOk result (λ n. 0 < length octets.now → 0 < n) }
        ensures bytes { WriteAppends (Some self.old.octets) (Some self.new.octets) result octets.now }
        ensures fails { OnErr result (self.new.is_broken ≡ true) }
        ensures works { OnOk result (self.new.is_broken ≡ false) }
        ensures sure { is_unfailing_sink self.old ≡ true → OnErr result (self.new.ran_out ≡ true) }
        ensures lasts { is_unfailing_sink self.old ≡ true → is_unfailing_sink self.new ≡ true }
        ensures stays { self.old.is_broken ≡ true → IsErr result }

        // The sink fails only after its allowance, after an earlier failure, or if memory runs out. It subtracts the octets that it
        // accepts.
        ensures fault { OnErr result ((self.old.is_broken ≡ true) ⊎ (self.old.allowance ≡ Some 0)
            ⊎ (self.new.ran_out ≡ true)) }
        ensures room { OnOk result (self.new.ran_out ≡ self.old.ran_out) }
        ensures counted { IfOk result (λ n. self.new.allowance ≡ option_map (λ left. left - n) self.old.allowance) }
        ensures step { IfOk result (λ n. n ≤ self.old.step) }
        ensures kept { self.new.step ≡ self.old.step }
        ensures spent { self.old.allowance ≡ Some 0 → 0 < length octets.now → IsErr result }
    {
        if is_failing(self.is_broken, self.allowance, octets.len()) {
            self.is_broken = true;
            return Err(Broken);
        }
        let count = allowed_octets(self.allowance, self.step.min(octets.len()));
        match self.octets.extend_from_slice(&octets[..count]) {
            Ok(()) => {
                self.allowance = remaining_allowance(self.allowance, count);
                Ok(count)
            }
            Err(_) => {
                self.is_broken = true;
                self.ran_out = true;
                Err(Broken)
            }
        }
    }

    fn write_words(&mut self, _first: u64, _second: u64, _octets: &[u8]) -> bool {
        false
    }

    fn failed(&self) -> bool {
        self.is_broken
    }
}
