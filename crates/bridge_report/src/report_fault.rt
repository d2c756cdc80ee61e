//! Faults of a report, which `write_report` returns.
ghost use Rattle.std.specs.Prelude.{◌≡◌};

use thiserror::Error;

/// Why the program can't write a report. `write_report` returns it.
#[derive(Clone, Copy, Debug, PartialEq, Eq, Error)]
pub enum ReportFault {
    /// The writer failed.
    #[error("the report is not written")]
    Broken,
    /// Memory ran out.
    #[error("no memory")]
    NoMemory,
}

impl ReportFault {
    ghost use Rattle.bridge_report.specs.FaultCodes.{fault_code};

    /// Returns the number of the fault: 1 for `Broken`, 2 for `NoMemory`. Contracts compare faults by it.
    pub fn number(self) -> u8
        ensures { result ≡ fault_code self }
    {
        match self {
            ReportFault::Broken => 1,
            ReportFault::NoMemory => 2,
        }
    }
}
