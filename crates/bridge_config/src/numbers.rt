//! Looks up the numbers of gates, meters and filters, and converts tested numbers of a plan to 32 or 8 bits.
ghost use Rattle.std.specs.Prelude.{◌≡◌, ◌≤◌, ◌<◌};
ghost use Rattle.std.specs.Option.{ForSome};
ghost use Rattle.bridge_config.specs.Sections as sections;

use bridge_schema::NumberLookup;
use std::alloc::AllocError;

/// Whether an instance has number `number`. Numbers of later instances must differ, and keys may name only existing numbers.
///
/// `CommandTargets::has`, `InstanceNumbers::has`, `read_gate` and `read_meter` call it.
pub(crate) fn has_number<X>(instances: &[(u32, X)], number: u64) -> bool
    ensures { result ≡ sections.has_number instances.now number }
{
    for instance in instances {
        if instance.0 as u64 == number {
            return true;
        }
    }
    false
}

/// Numbers of a section's instances. Readers look up a number that must exist because a key names it, or that must be new.
pub(crate) struct InstanceNumbers<'a, X> {
    /// Instances with their numbers.
    pub instances: &'a [(u32, X)],
}

impl<'a, X> Clone for InstanceNumbers<'a, X> {
    ghost is_clone = { λ x y. y ≡ x };

    ghost is_infallible = { λ _. Unit {0} };

    fn clone(&self) -> Result<InstanceNumbers<'a, X>, AllocError> {
        Ok(*self)
    }
}

impl<'a, X> Copy for InstanceNumbers<'a, X> {}

impl<'a, X> NumberLookup for InstanceNumbers<'a, X> {
    ghost among = { λ s. sections.has_number s.instances.now };

    fn has(&self, number: u64) -> bool {
        has_number(self.instances, number)
    }
}

/// Converts an optional number to 32 bits, which plans store; readers of keys return 64 bits. The number's range was tested when its key
/// was read.
///
/// `read_filter_by_lookup` and `GateEntryReader::read` call it.
pub(crate) fn optional_u32(number: Option<u64>) -> Option<u32>
    requires { ForSome number (λ n. n ≤ u32.MAX) }
    ensures { result ≡ number }
{
    match number {
        Some(n) => Some(n as u32),
        None => None,
    }
}

/// Converts an optional number to 8 bits. The number's range was tested when its key was read. `read_filter_by_lookup`,
/// `GateEntryReader::read` and `read_gate` call it.
pub(crate) fn optional_u8(number: Option<u64>) -> Option<u8>
    requires { ForSome number (λ n. n ≤ 255) }
    ensures { result ≡ number }
{
    match number {
        Some(n) => Some(n as u8),
        None => None,
    }
}
