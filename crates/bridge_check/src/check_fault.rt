//! Faults of a plan that doesn't isolate a protected or grouped filter.
ghost use Rattle.std.specs.Prelude.{◌≡◌};
ghost use Rattle.bridge_check.specs.declared.check_fault.CheckFault.TheVariants.{NoMemory};
ghost use Rattle.bridge_check.specs.FaultCodes.{fault_filter, fault_code};

use std::alloc::{AllocError, AllocFailed};
use thiserror::Error;

/// Why a plan doesn't isolate a protected or grouped filter, in the order of the tests. `filter` and `other` are filter numbers, `port` is
/// 1 to 16, `class` 0 to 7.
#[derive(Clone, Copy, Debug, PartialEq, Eq, Error)]
pub enum CheckFault {
    /// The filter names no stream handle, so it matches frames of any stream.
    #[error("no stream handle")]
    ProtectedWildcard {
        filter: u32,
    },
    /// The filter has no limit for its service data units (SDU).
    #[error("no maximum SDU size")]
    NoMaxSdu {
        filter: u32,
    },
    /// Another filter uses the filter's stream gate.
    #[error("its gate is shared with another filter")]
    GateShared {
        filter: u32,
    },
    /// Another filter uses the filter's meter.
    #[error("its meter is shared with another filter")]
    MeterShared {
        filter: u32,
    },
    /// The filter with the greatest number isn't a catch-all filter, so frames may match no filter.
    #[error("no catch-all filter")]
    NoCatchAll {
        filter: u32,
    },
    /// Frames of filter `other` can enter a reachable queue of filter `filter`. For a grouped filter, only filters outside its group count.
    /// If several count, `other` is the lowest number.
    #[error("its queue is shared with another filter")]
    QueueShared {
        filter: u32,
        port: u8,
        class: u8,
        other: u32,
    },
    /// The port opens the queue's class together with another class, first at the offset `at` in ns. The old list of a schedule change
    /// comes first. If the port has no list, `at` is 0.
    #[error("its window is shared with another class")]
    WindowShared {
        filter: u32,
        port: u8,
        class: u8,
        at: u64,
    },
    /// The filter's longest frame fits no window of the class in some list of the port.
    #[error("its longest frame never fits")]
    MaxSduNeverFits {
        filter: u32,
        port: u8,
        class: u8,
    },
    /// Memory ran out.
    #[error("no memory")]
    NoMemory,
}

impl CheckFault {
    /// Returns the fault's number, 1 to 9 in the order of the variants. Contracts compare faults by this number.
    pub fn number(self) -> u8
        ensures { result ≡ fault_code self }
    {
        match self {
            CheckFault::ProtectedWildcard { .. } => 1,
            CheckFault::NoMaxSdu { .. } => 2,
            CheckFault::GateShared { .. } => 3,
            CheckFault::MeterShared { .. } => 4,
            CheckFault::NoCatchAll { .. } => 5,
            CheckFault::QueueShared { .. } => 6,
            CheckFault::WindowShared { .. } => 7,
            CheckFault::MaxSduNeverFits { .. } => 8,
            CheckFault::NoMemory => 9,
        }
    }

    /// Returns the number of the filter that fails the test; `None` if memory ran out. Explanations and pictures find the filter by this
    /// number.
    pub fn filter(self) -> Option<u32>
        ensures { result ≡ fault_filter self }
    {
        match self {
            CheckFault::ProtectedWildcard { filter }
            | CheckFault::NoMaxSdu { filter }
            | CheckFault::GateShared { filter }
            | CheckFault::MeterShared { filter }
            | CheckFault::NoCatchAll { filter }
            | CheckFault::QueueShared { filter, .. }
            | CheckFault::WindowShared { filter, .. }
            | CheckFault::MaxSduNeverFits { filter, .. } => Some(filter),
            CheckFault::NoMemory => None,
        }
    }
}

impl From<AllocError> for CheckFault {
    ghost from_gives = { λ _ e. e ≡ NoMemory };

    fn from(_error: AllocError) -> CheckFault {
        CheckFault::NoMemory
    }
}

impl<T: Drop> From<AllocFailed<T>> for CheckFault {
    ghost from_gives = { λ _ e. e ≡ NoMemory };

    fn from(_error: AllocFailed<T>) -> CheckFault {
        CheckFault::NoMemory
    }
}
