//! Ranges of the numbers in plans and commands.
ghost use Rattle.std.specs.Prelude.{◌≡◌, ◌-◌, ◌^◌};

use crate::value_kinds::NumberRange;
use bridge_limits::END_OF_TIME;
use bridge_meter::{HIGHEST_RATE, LARGEST_BURST};

/// Largest number of octets of a plan, a network file or another TOML text; a longer text isn't parsed.
pub const MOST_OCTETS: usize = 1_048_576;

/// Largest integer of TOML.
const MAX_TOML_INTEGER: u64 = 9_223_372_036_854_775_807;

/// Largest number of an instance, stream handle or octet limit: 2^32 - 1.
pub const LARGEST_NUMBER: u64 = u32::MAX as u64;

/// Latest base time, schedule change or command, in ns.
pub const LAST_TIME: u64 = END_OF_TIME - 1;

/// Gives proofs the value of `LARGEST_NUMBER`: 2^32 - 1.
pub fn the_limit()
    ensures number { LARGEST_NUMBER ≡ 2 ^ 32 - 1 }
{}

/// Range of instance numbers, stream handles and octet limits.
pub const NUMBER: NumberRange = NumberRange {
    low: 0,
    high: LARGEST_NUMBER,
};

/// Range of port numbers.
pub const PORT: NumberRange = NumberRange { low: 1, high: 16 };

/// Range of VLAN identifiers.
pub const VID: NumberRange = NumberRange { low: 1, high: 4094 };

/// Range of priorities, internal priority values and classes.
pub const PRIORITY: NumberRange = NumberRange { low: 0, high: 7 };

/// Range of times in ns.
pub const TIME: NumberRange = NumberRange {
    low: 0,
    high: LAST_TIME,
};

/// Range of the lengths of cycles and entries in ns.
pub const LENGTH: NumberRange = NumberRange {
    low: 0,
    high: MAX_TOML_INTEGER,
};

/// Range of maximum SDU sizes in octets.
pub const MAX_SDU: NumberRange = NumberRange {
    low: 0,
    high: 65_535,
};

/// Range of information rates in bit/s.
pub const RATE: NumberRange = NumberRange {
    low: 0,
    high: HIGHEST_RATE,
};

/// Range of burst sizes in octets.
pub const BURST: NumberRange = NumberRange {
    low: 0,
    high: LARGEST_BURST,
};

/// Range of queue capacities in frames.
pub const ROOM: NumberRange = NumberRange { low: 1, high: 4096 };
