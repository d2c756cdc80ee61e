//! Queued items, and reasons why a port drops a copy.
ghost use Rattle.std.specs.Prelude.{◌≡◌};
ghost use Rattle.bridge_port.specs.StandsFor.{refusal_code};

use thiserror::Error;

/// Frame in a queue.
#[derive(Debug, Drop)]
pub struct Item<T> {
    /// Length of the frame in octets.
    pub len: u32,
    /// Load that the owner of the port gets back when the frame starts or is dropped, such as the frame's octets.
    pub load: T,
}

/// Reason why a port drops a copy of a frame.
#[derive(Clone, Copy, Debug, PartialEq, Eq, Error)]
pub enum Refusal {
    /// At least one list of the port never opens the class for the whole transmission time.
    #[error("the frame fits in no window")]
    NeverFits,
    /// The queue of the class is full.
    #[error("the queue is full")]
    Full,
}

impl Refusal {
    /// Returns the number of the refusal, in the order of the tests: 1 for `NeverFits`, 2 for `Full`. Contracts compare refusals by this
    /// number.
    pub fn number(self) -> u8
        ensures { result ≡ refusal_code self }
    {
        match self {
            Refusal::NeverFits => 1,
            Refusal::Full => 2,
        }
    }
}
