//! Reasons why a run of a bridge or of one queue stops.
ghost use Rattle.std.specs.Prelude.{◌≡◌};

use crate::capture_fault::CaptureFault;
use thiserror::Error;

/// Reason why a run stops. If memory for a capture or a writer runs out, the reason is `NoMemory`.
#[derive(Clone, Copy, Debug, PartialEq, Eq, Error)]
pub enum RunFault {
    /// The capture of a port was refused, or reading it failed.
    #[error("capture {port}: {fault}")]
    Capture { port: u8, fault: CaptureFault },
    /// Writing the capture of a port failed.
    #[error("capture {port} not written")]
    Write { port: u8 },
    /// Memory ran out.
    #[error("no memory")]
    NoMemory,
}

impl RunFault {
    ghost use Rattle.bridge_capture.specs.RunFaultCodes.{fault_code};

    /// Returns the number of the fault, 1 to 3. Contracts compare faults by this number.
    pub fn number(self) -> u8
        ensures { result ≡ fault_code self }
    {
        match self {
            RunFault::Capture { .. } => 1,
            RunFault::Write { .. } => 2,
            RunFault::NoMemory => 3,
        }
    }
}
