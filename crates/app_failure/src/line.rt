//! Writes the fault line of a command's failure.
ghost use Rattle.std.specs.Prelude.{◌≡◌, IfOk, string_bytes, ◌⊎◌, IfErr};
ghost use Rattle.bridge_text.specs.Growth.{HasGrown};
ghost use Rattle.app_failure.specs.Lines.{fault_line, capture_fault_line, run_fault_line, text_fault_line, not_read, not_written, file_fault_line, refused_capture, refused_record};
ghost use Rattle.app_failure.specs.Status.{fault_status};
ghost use Rattle.std.specs.Process.{exit_status};
ghost use Rattle.app_failure.specs.Reading.{IsStandardStreamFault};
ghost use Rattle.app_files.specs.declared.failed_file.Access.TheVariants.{Writing};

use crate::fault::{Failure, TextFault, file_failure};
use crate::isolation_line::put_check_fault;
use crate::plan_line::put_plan_fault;
use crate::refused_commands::put_commands_fault;
use crate::status::fault_status;
use app_files::print_text;
use bridge_capture::{CaptureFault, RunFault};
use bridge_limits::NoMemory;
use bridge_text::TextBuilder;
use std::alloc::Allocator;
use std::process::ExitCode;

/// Returns the fault line, without its line feed, and the exit status, 1 to 4. `print_fault`, `report_fault` of `app_commands` and 4 more
/// call it.
pub fn fault_line<A: Allocator + Copy>(
    alloc: A,
    fault: &Failure,
) -> Result<(String<A>, u8), NoMemory>
    ensures line { IfOk result (λ said. string_bytes said.0 ≡ fault_line fault.now) }
    ensures status { IfOk result (λ said. said.1 ≡ fault_status fault.now) }
{
    let mut text = TextBuilder::new(alloc);
    put_fault(alloc, &mut text, fault);
    match text.finish() {
        Ok(line) => Ok((line, fault_status(fault))),
        Err(fault) => Err(fault),
    }
}

/// Writes the fault line of a failure by the function for its kind. The failure of a network has its line already. `fault_line` calls it.
fn put_fault<A: Allocator + Copy>(alloc: A, text: &mut TextBuilder<A>, fault: &Failure)
    ensures { HasGrown text.old (fault_line fault.now) text.new }
{
    match fault {
        Failure::Text(fault) => put_text_fault(text, fault),
        Failure::Run(fault) => put_run_fault(text, fault),
        Failure::Plan(fault) => put_plan_fault(text, fault),
        Failure::Check(fault) => put_check_fault(text, fault),
        Failure::Commands(fault) => put_commands_fault(alloc, text, fault),
        Failure::Network(line) => text.put(line.as_str()),
        Failure::Rounds(line) => text.put(line.as_str()),
        Failure::Words => text.put("command line refused"),
        Failure::NoMemory => text.put("no memory"),
        Failure::File(error) => put_file(text, error.path()),
    }
}

/// Writes the fault line of a refused hexadecimal text, or of its stopped run. `put_fault` calls it.
fn put_text_fault<A: Allocator>(text: &mut TextBuilder<A>, fault: &TextFault)
    ensures { HasGrown text.old (text_fault_line fault.now) text.new }
{
    match fault {
        TextFault::NotHex => text.put("text refused: NotHex"),
        TextFault::TooLong => text.put("text refused: TooLong"),
        TextFault::Run(fault) => put_run_fault(text, fault),
    }
}

/// Writes the fault line of a stopped run: a port's capture or output, or `no memory`. `put_fault` and `put_text_fault` call it.
fn put_run_fault<A: Allocator>(text: &mut TextBuilder<A>, fault: &RunFault)
    ensures { HasGrown text.old (run_fault_line fault.now) text.new }
{
    match fault {
        RunFault::Capture { port, fault } => put_capture_fault(text, *port, fault),
        RunFault::Write { port } => put_unwritten(text, *port),
        RunFault::NoMemory => text.put("no memory"),
    }
}

/// Writes the fault line of a port's capture that is refused, or can't be read or written. `put_run_fault` calls it.
fn put_capture_fault<A: Allocator>(text: &mut TextBuilder<A>, port: u8, fault: &CaptureFault)
    ensures { HasGrown text.old (capture_fault_line port fault.now) text.new }
{
    match fault {
        CaptureFault::BadMagic => put_refused_capture(text, port, "BadMagic"),
        CaptureFault::BadVersion => put_refused_capture(text, port, "BadVersion"),
        CaptureFault::BadLinkType => put_refused_capture(text, port, "BadLinkType"),
        CaptureFault::HeaderCut => put_refused_capture(text, port, "HeaderCut"),
        CaptureFault::RecordCut(n) => put_refused_record(text, port, "RecordCut", *n),
        CaptureFault::LengthsCross(n) => put_refused_record(text, port, "LengthsCross", *n),
        CaptureFault::RecordTooLarge(n) => put_refused_record(text, port, "RecordTooLarge", *n),
        CaptureFault::TimeBack(n) => put_refused_record(text, port, "TimeBack", *n),
        CaptureFault::TimeTooLate(n) => put_refused_record(text, port, "TimeTooLate", *n),
        CaptureFault::TooManyRecords => put_refused_capture(text, port, "TooManyRecords"),
        CaptureFault::Read => put_unread(text, port),
        CaptureFault::Write => put_unwritten(text, port),
        CaptureFault::NoMemory => text.put("no memory"),
    }
}

/// Writes the fault line `capture PORT refused: NAME` of a fault without record number. `put_capture_fault` calls it.
fn put_refused_capture<A: Allocator>(text: &mut TextBuilder<A>, port: u8, name: &str)
    ensures { HasGrown text.old (refused_capture port name.now) text.new }
{
    text.put("capture ");
    text.put_number(u64::from(port));
    text.put(" refused: ");
    text.put(name);
}

/// Writes the fault line `capture PORT refused: NAME NUMBER` of a capture's record `number`, from 1. `put_capture_fault` calls it.
fn put_refused_record<A: Allocator>(text: &mut TextBuilder<A>, port: u8, name: &str, number: u32)
    ensures { HasGrown text.old (refused_record port name.now number) text.new }
{
    text.put("capture ");
    text.put_number(u64::from(port));
    text.put(" refused: ");
    text.put(name);
    text.put(" ");
    text.put_number(u64::from(number));
}

/// Writes the fault line `capture PORT not read`. `put_capture_fault` calls it.
fn put_unread<A: Allocator>(text: &mut TextBuilder<A>, port: u8)
    ensures { HasGrown text.old (not_read port) text.new }
{
    text.put("capture ");
    text.put_number(u64::from(port));
    text.put(" not read");
}

/// Writes the fault line `capture PORT not written`. `put_run_fault` and `put_capture_fault` call it.
fn put_unwritten<A: Allocator>(text: &mut TextBuilder<A>, port: u8)
    ensures { HasGrown text.old (not_written port) text.new }
{
    text.put("capture ");
    text.put_number(u64::from(port));
    text.put(" not written");
}

/// Writes the fault line `file PATH`. Escapes control characters in the path, so that it stays one line. `put_fault` calls it.
fn put_file<A: Allocator>(text: &mut TextBuilder<A>, path: &str)
    ensures { HasGrown text.old (file_fault_line path.now) text.new }
{
    text.put("file ");
    text.put_escaped(path);
}

/// Prints `text` to standard output. A failed write is a failure of the file `-`. Only test programs call it.
pub fn print(rt: &(impl AllocGlobal + Print), text: &str) -> Result<(), Failure>
    ensures { IfErr result (IsStandardStreamFault Writing) }
{
    match print_text(rt, text) {
        Ok(()) => Ok(()),
        Err(fault) => Err(file_failure(fault)),
    }
}

/// Prints the fault line to standard error, and returns the exit status; 3 if memory for the line runs out. `main` of `tsnbridge` and test
/// programs call it.
pub fn print_fault(rt: &(impl AllocGlobal + Eprint), fault: &Failure) -> ExitCode
    ensures { (exit_status result ≡ fault_status fault.now) ⊎ (exit_status result ≡ 3) }
{
    let (line, status) = match fault_line(rt.alloc(), fault) {
        Ok(said) => said,
        Err(_) => {
            let _ = eprintln!(rt; "no memory");
            return ExitCode::from(3);
        }
    };
    let _ = eprintln!(rt; "{line}");
    ExitCode::from(status)
}
