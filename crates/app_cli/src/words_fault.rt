//! Faults of arguments that request no command.
ghost use Rattle.std.specs.Prelude.{◌≡◌};
ghost use Rattle.app_cli.specs.declared.words_fault.ArgumentsFault.TheVariants.{NoMemory as no_memory};

use bridge_limits::NoMemory;
use std::alloc::AllocError;

/// Why the arguments request no command and no help.
#[derive(Clone, Copy)]
pub enum ArgumentsFault {
    /// The arguments are refused.
    Words,
    /// Memory ran out.
    NoMemory,
}

impl From<NoMemory> for ArgumentsFault {
    ghost from_gives = { λ _ fault. fault ≡ no_memory };

    fn from(_: NoMemory) -> ArgumentsFault {
        ArgumentsFault::NoMemory
    }
}

impl From<AllocError> for ArgumentsFault {
    ghost from_gives = { λ _ fault. fault ≡ no_memory };

    fn from(_: AllocError) -> ArgumentsFault {
        ArgumentsFault::NoMemory
    }
}
