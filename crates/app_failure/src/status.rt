//! Exit statuses of commands that failed.
ghost use Rattle.std.specs.Prelude.{◌≡◌};
ghost use Rattle.app_failure.specs.Status.{fault_status, capture_fault_status, check_fault_status, list_fault_status, plan_fault_status, run_fault_status, text_fault_status};

use crate::fault::{Failure, TextFault};
use bridge_capture::{CaptureFault, RunFault};
use bridge_check::CheckFault;
use bridge_cycle::ListFault;
use bridge_schema::PlanFault;

/// Status after a refused plan, commands, network or traffic.
const REFUSED_PLAN: u8 = 1;

/// Status after a refused text or capture, or a network run that doesn't settle.
const REFUSED: u8 = 2;

/// Status after a failed file or device, or out of memory.
const FAILED: u8 = 3;

/// Status after refused arguments.
const WORDS: u8 = 4;

/// Returns the exit status of a command with failure `fault`, 1 to 4. `fault_line` calls it.
pub fn fault_status(fault: &Failure) -> u8
    ensures { result ≡ fault_status fault.now }
{
    match fault {
        Failure::Text(fault) => text_fault_status(fault),
        Failure::Run(fault) => run_fault_status(fault),
        Failure::Plan(fault) => plan_fault_status(fault),
        Failure::Check(fault) => check_fault_status(fault),
        Failure::Commands(fault) => plan_fault_status(fault),
        Failure::Network(_) => REFUSED_PLAN,
        Failure::Rounds(_) => REFUSED,
        Failure::Words => WORDS,
        Failure::NoMemory | Failure::File(_) => FAILED,
    }
}

/// Returns the exit status after a refused hexadecimal text (2), or after its stopped run: 2 for a refused capture, 3 for devices and
/// memory. `fault_status` calls it.
fn text_fault_status(fault: &TextFault) -> u8
    ensures { result ≡ text_fault_status fault.now }
{
    match fault {
        TextFault::NotHex | TextFault::TooLong => REFUSED,
        TextFault::Run(fault) => run_fault_status(fault),
    }
}

/// Returns the exit status after a stopped run: 2 for a refused capture, 3 for devices and memory. `fault_status` and `text_fault_status`
/// call it.
fn run_fault_status(fault: &RunFault) -> u8
    ensures { result ≡ run_fault_status fault.now }
{
    match fault {
        RunFault::Capture { fault, .. } => capture_fault_status(fault),
        RunFault::Write { .. } | RunFault::NoMemory => FAILED,
    }
}

/// Returns the exit status after a capture fault: 2 if the capture is refused, 3 if a device failed or memory ran out. `run_fault_status`
/// calls it.
fn capture_fault_status(fault: &CaptureFault) -> u8
    ensures { result ≡ capture_fault_status fault.now }
{
    match fault {
        CaptureFault::Read | CaptureFault::Write | CaptureFault::NoMemory => FAILED,
        _ => REFUSED,
    }
}

/// Returns the exit status after a refused plan or refused commands: 1, or 3 if memory ran out. `fault_status` calls it.
fn plan_fault_status(fault: &PlanFault) -> u8
    ensures { result ≡ plan_fault_status fault.now }
{
    match fault {
        PlanFault::BadList(_, _, fault) => list_fault_status(fault),
        PlanFault::NoMemory => FAILED,
        _ => REFUSED_PLAN,
    }
}

/// Returns the exit status after a plan that doesn't isolate a protected filter: 1, or 3 if memory ran out. `fault_status` calls it.
fn check_fault_status(fault: &CheckFault) -> u8
    ensures { result ≡ check_fault_status fault.now }
{
    match fault {
        CheckFault::NoMemory => FAILED,
        _ => REFUSED_PLAN,
    }
}

/// Returns the exit status after a refused list of a plan: 1, or 3 if memory ran out. `plan_fault_status` calls it.
fn list_fault_status(fault: &ListFault) -> u8
    ensures { result ≡ list_fault_status fault.now }
{
    match fault {
        ListFault::NoMemory => FAILED,
        _ => REFUSED_PLAN,
    }
}
