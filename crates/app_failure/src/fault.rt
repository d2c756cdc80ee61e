//! Failures that end a command of the program without result.
ghost use Rattle.std.specs.Prelude.{◌≡◌, ℕ, List};
ghost use Rattle.app_failure.specs.Faults.{of_file_fault};
ghost use Rattle.app_failure.specs.declared.fault.Failure.TheVariants.{NoMemory as no_memory};
ghost use Rattle.app_files.specs.FailedFiles.{IsCaptureFault, IsOfPath};
ghost use Rattle.app_files.specs.Folders.{LackPath};
ghost use Rattle.app_files.specs.declared.failed_file.Access.{Access};
ghost use Rattle.app_failure.specs.Reading.{EndsFiles, FailsCaptures, IsFileFault, LacksPath};

use app_files::{FileError, FileFault};
use bridge_capture::RunFault;
use bridge_check::CheckFault;
use bridge_limits::NoMemory;
use bridge_schema::PlanFault;
use std::alloc::AllocError;
use thiserror::Error;

/// Why a hexadecimal text isn't run.
#[derive(Clone, Copy, Debug, PartialEq, Eq, Error)]
pub enum TextFault {
    /// The text isn't hexadecimal.
    #[error("the text is not hexadecimal")]
    NotHex,
    /// The text is longer than 4,194,304 octets, or encodes more than 1,048,576 octets.
    #[error("the text is too long")]
    TooLong,
    /// The run over its octets stopped, or memory ran out.
    #[error("{0}")]
    Run(RunFault),
}

impl TextFault {
    ghost use Rattle.app_failure.specs.Numbering.{fault_code};

    /// Returns the number of the fault, 1 to 3. Contracts compare faults by these numbers.
    pub fn number(self) -> u8
        ensures { result ≡ fault_code self }
    {
        match self {
            TextFault::NotHex => 1,
            TextFault::TooLong => 2,
            TextFault::Run(_) => 3,
        }
    }
}

/// Failure: why a command of the program ends without result. Fault line, exit status and explanation are made from it.
#[derive(Debug, Drop)]
pub enum Failure {
    /// The arguments are refused.
    Words,
    /// Memory ran out.
    NoMemory,
    /// A file can't be opened, created, read or written. Standard input and output have the path `-`.
    File(FileError),
    /// The hexadecimal text on standard input is refused, or its run stopped.
    Text(TextFault),
    /// A run stopped, because a capture is refused or a device failed.
    Run(RunFault),
    /// A plan is refused.
    Plan(PlanFault),
    /// A plan doesn't isolate a protected filter.
    Check(CheckFault),
    /// The commands are refused.
    Commands(PlanFault),
    /// A network or its traffic is refused. The text is the fault line.
    Network(String),
    /// A network run stopped at a capture, or didn't settle. The text is the fault line.
    Rounds(String),
}

impl From<AllocError> for Failure {
    ghost from_gives = { λ _ fault. fault ≡ no_memory };

    fn from(_: AllocError) -> Failure {
        Failure::NoMemory
    }
}

impl From<NoMemory> for Failure {
    ghost from_gives = { λ _ fault. fault ≡ no_memory };

    fn from(_: NoMemory) -> Failure {
        Failure::NoMemory
    }
}

impl From<FileFault> for Failure {
    ghost from_gives = { λ file fault. fault ≡ of_file_fault file };

    fn from(fault: FileFault) -> Failure {
        match fault {
            FileFault::File(error) => Failure::File(error),
            FileFault::NoMemory => Failure::NoMemory,
        }
    }
}

/// Returns the command's failure for file fault `fault`: the failed file with its cause, or `NoMemory`. `wire_files` of `app_commands`,
/// `end_table` of `app_networks` and many more call it.
pub fn file_failure(fault: FileFault) -> Failure
    ensures same { result ≡ of_file_fault fault }
    ensures ends { EndsFiles result }
    ensures path { (access : Access) (path : List ℕ) → IsOfPath access path fault → IsFileFault access path result }
    ensures captures { (access : Access) (folder ports : List ℕ) → IsCaptureFault access folder ports fault
        → FailsCaptures access folder ports result }
    ensures folders { (input output : List ℕ) → LackPath input output fault → LacksPath input output result }
{
    match fault {
        FileFault::File(error) => Failure::File(error),
        FileFault::NoMemory => Failure::NoMemory,
    }
}
