#![tactic(auto)]
//! Limits of a bridge, and the error for refused memory. All crates of the bridge use them.

ghost use Rattle.std.specs.Prelude.{◌≡◌, ◌*◌, ◌^◌};

use std::alloc::{AllocError, AllocFailed};
use thiserror::Error;

/// The allocator refused memory. Functions of the bridge that allocate return this error.
#[derive(Clone, Copy, Debug, PartialEq, Eq, Error)]
#[error("no memory")]
pub struct NoMemory;

impl From<AllocError> for NoMemory {
    fn from(_error: AllocError) -> NoMemory {
        NoMemory
    }
}

impl<T: Drop> From<AllocFailed<T>> for NoMemory {
    fn from(_error: AllocFailed<T>) -> NoMemory {
        NoMemory
    }
}

/// End of time in ns: each arrival time and each base time is less.
pub const END_OF_TIME: u64 = 4_000_000_000_000_000_000;

/// Time in ns at which all transmissions of a run have ended, even if frames wait as long as possible.
pub const END_OF_SENDING: u64 = 4_100_000_000_000_000_000;

/// Longest frame in octets, without check sequence. A longer frame is malformed.
pub const LONGEST_FRAME: u32 = 9_216;

/// Largest number of octets that a capture keeps of a frame.
pub const MAX_CAPTURED_OCTETS: u32 = 262_144;

/// Largest number of frames that arrive at a bridge in one run: a million on each of 16 ports.
pub const MAX_ARRIVALS: u64 = 16_000_000;

/// Gives proofs the limits of a bridge as numbers.
pub fn the_limits()
    ensures time { END_OF_TIME ≡ 4 * 10 ^ 18 }
    ensures sending { END_OF_SENDING ≡ 41 * 10 ^ 17 }
    ensures frame { LONGEST_FRAME ≡ 9_216 }
    ensures captured { MAX_CAPTURED_OCTETS ≡ 262_144 }
    ensures arrivals { MAX_ARRIVALS ≡ 16_000_000 }
{}
