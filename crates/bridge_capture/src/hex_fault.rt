//! Reasons why the hexadecimal text on standard input is refused.
ghost use Rattle.std.specs.Prelude.{◌≡◌};
ghost use Rattle.bridge_capture.specs.declared.hex_fault.HexFault.TheVariants.{NoMemory};

use std::alloc::{AllocError, AllocFailed};
use thiserror::Error;

/// Reason why a text gives no octets.
#[derive(Clone, Copy, Debug, PartialEq, Eq, Error)]
pub enum HexFault {
    /// A character is neither a hexadecimal digit nor a blank, a blank stands inside a pair, or the last digit has no partner.
    #[error("the text is not hexadecimal")]
    NotHex,
    /// The text has more than `MAX_OCTETS` octets or `MAX_TEXT_BYTES` bytes.
    #[error("the text is too long")]
    TooLong,
    /// Memory ran out.
    #[error("no memory")]
    NoMemory,
}

impl From<AllocError> for HexFault {
    ghost from_gives = { λ _ e. e ≡ NoMemory };

    fn from(_e: AllocError) -> HexFault {
        HexFault::NoMemory
    }
}

impl<T: Drop> From<AllocFailed<T>> for HexFault {
    ghost from_gives = { λ _ e. e ≡ NoMemory };

    fn from(_e: AllocFailed<T>) -> HexFault {
        HexFault::NoMemory
    }
}
