//! Explains failures, and finds the warnings of a run.
//!
//! These functions never fail: if memory runs out, the explanation is left out.
ghost use Rattle.app_commands.specs.Explanations.{BeginsWithPath, ExplainsFile, ExplainsWords};

use crate::context::{RunRequest, Texts};
use crate::late::{Last, put_late};
use app_failure::Failure;
use app_files::{Cause, capture_path, is_file, is_standard, read_at_most};
use bridge_capture::{Capture, CaptureFault, MAX_RECORDS, ReadAhead, RunFault};
use bridge_check::{Accepted, CheckFault};
use bridge_config::{Command, plan_of};
use bridge_text::{TextBuilder, escape_text};
use show_explain::{
    explain_arguments, explain_commands, explain_file, explain_plan, explain_run, explain_text,
    warn_unread_capture,
};
use show_lint::{describe_plan, explain_check};
use std::alloc::Global;
use std::fs;
use std::rt::Files;

/// Number of a capture's first octets that an explanation reads: enough for the header.
const FRONT: u64 = 64;

/// Explains why arguments, hexadecimal text, or standard input and output failed. Returns `None` for other failures without a file, or if
/// memory runs out. `report_words`, and `explain_failure` of `app_networks` call it.
pub fn explain_words_fault(alloc: Global, words: &[String], fault: &Failure) -> Option<String>
    ensures { ExplainsWords fault.now result }
{
    match fault {
        Failure::Words => explain_arguments(alloc, words).ok(),
        Failure::Text(fault) => explain_text(alloc, fault).ok(),
        fault => explain_file_fault(alloc, fault),
    }
}

/// Explains a failed file (`Failure::File`) by its path and cause. Returns `None` for other failures, or if memory runs out.
///
/// `explain_words_fault`, `explain_plan_fault`, `explain_wire_fault`, and `explain_network_file` of `app_networks` call it.
pub fn explain_file_fault(alloc: Global, fault: &Failure) -> Option<String>
    ensures { ExplainsFile fault.now result }
{
    match fault {
        Failure::File(error) => explain_file_cause(alloc, error.path(), error.cause()),
        _ => None,
    }
}

/// Explains why the file at `path` failed. Escapes control characters in the path, so that it has one line. Returns `None` if memory runs
/// out. `explain_file_fault`, and `explain_unread` of `app_networks` call it.
pub fn explain_file_cause(alloc: Global, path: &str, cause: Cause) -> Option<String>
    ensures { BeginsWithPath path.now result }
{
    let shown = escape_text(alloc, path).ok()?;
    explain_file(alloc, shown.as_str(), cause).ok()
}

/// Explains why the plan at `path` with the contents `text` is refused, or why its file failed. Returns `None` for other failures, or if
/// memory runs out.
///
/// `explain_run_fault`, `explain_bridge_plan` of `app_networks` and 3 more call it.
pub fn explain_plan_fault(
    alloc: Global,
    path: &str,
    text: &[u8],
    fault: &Failure,
) -> Option<String> {
    match fault {
        Failure::Plan(fault) => explain_plan(alloc, path, text, fault).ok(),
        Failure::Check(fault) => explain_check_fault(alloc, path, text, fault),
        fault => explain_file_fault(alloc, fault),
    }
}

/// Explains why a plan doesn't isolate a protected filter. Reads the plan's text again, because the fault has no plan. Returns `None` if
/// memory runs out. `explain_plan_fault` calls it.
fn explain_check_fault(
    alloc: Global,
    path: &str,
    text: &[u8],
    fault: &CheckFault,
) -> Option<String> {
    let Ok(plan) = plan_of(alloc, alloc, text) else {
        return None;
    };
    let said = explain_check(alloc, path, text, &plan, fault);
    drop(plan);
    said.ok()
}

/// Explains why the command `run` failed; `texts` has the plan and the commands that it read. Returns `None` if memory runs out or a
/// capture can't be read again. `explain_failure` of `app_networks` calls it.
pub fn explain_run_fault(
    rt: &(impl AllocGlobal + Files),
    job: &RunRequest<'_>,
    texts: &Texts,
    fault: &Failure,
) -> Option<String> {
    match fault {
        Failure::NoMemory => explain_stopped_run(rt, job, &RunFault::NoMemory),
        Failure::Run(fault) => explain_stopped_run(rt, job, fault),
        Failure::Commands(fault) => {
            let path = match job.commands {
                Some(path) => path.as_str(),
                None => "",
            };
            explain_commands(rt.alloc(), path, &texts.commands, &texts.plan, fault).ok()
        }
        fault => explain_plan_fault(rt.alloc(), job.plan, &texts.plan, fault),
    }
}

/// Explains why a run stopped. The explanation names the input or the output capture of the port at fault; without a port, port 1 serves as
/// example. `explain_run_fault` calls it.
fn explain_stopped_run(
    rt: &(impl AllocGlobal + Files),
    job: &RunRequest<'_>,
    fault: &RunFault,
) -> Option<String> {
    let port = match fault {
        RunFault::Capture { port, .. } | RunFault::Write { port } => *port,
        RunFault::NoMemory => 1,
    };
    let read = capture_path(rt.alloc(), job.input, port).ok()?;
    let written = capture_path(rt.alloc(), job.output, port).ok()?;
    explain_captures(rt, read.as_str(), written.as_str(), fault)
}

/// Explains why the command `wire` failed; `read` and `written` are the paths of its input and its output.
///
/// Returns `None` if memory runs out, the input can't be read again, or the failure is of another kind. `explain_failure` of `app_networks`
/// calls it.
pub fn explain_wire_fault(
    rt: &(impl AllocGlobal + Files),
    read: &str,
    written: &str,
    fault: &Failure,
) -> Option<String> {
    match fault {
        Failure::NoMemory => explain_captures(rt, read, written, &RunFault::NoMemory),
        Failure::Run(fault) => explain_captures(rt, read, written, fault),
        fault => explain_file_fault(rt.alloc(), fault),
    }
}

/// Explains why a run stopped; `read` and `written` are the paths of an input and an output capture. The fault decides which of the two the
/// explanation names. `explain_stopped_run` and `explain_wire_fault` call it.
fn explain_captures(
    rt: &(impl AllocGlobal + Files),
    read: &str,
    written: &str,
    fault: &RunFault,
) -> Option<String> {
    match fault {
        RunFault::Capture { .. } => explain_capture(rt, read, fault),
        RunFault::Write { .. } => explain_run(rt.alloc(), written, &[], fault).ok(),
        RunFault::NoMemory => explain_run(rt.alloc(), read, &[], fault).ok(),
    }
}

/// Explains why the capture at `path` is refused: reads it again. Returns `None` if this reading finds no fault, or if the path leads to no
/// regular file. `explain_refused_capture` of `app_networks` calls it.
pub fn explain_capture_file(rt: &(impl AllocGlobal + Files), path: &str) -> Option<String> {
    let fault = capture_fault(rt, path)?;
    explain_capture(rt, path, &RunFault::Capture { port: 1, fault })
}

/// Returns the fault of the capture at `path`, found by reading it whole. Returns `None` if the capture has no fault, or the path leads to
/// no regular file, or can't be opened.
///
/// `explain_capture_file` calls it.
fn capture_fault<H: AllocGlobal + Files>(rt: &H, path: &str) -> Option<CaptureFault> {
    if !fs::metadata(rt, path).ok()?.is_file() {
        return None;
    }
    let reader = fs::open(rt, path).ok()?;
    let mut source = ReadAhead::new(rt.alloc(), reader).ok()?;
    let mut capture = match Capture::begin(&mut source) {
        Ok(capture) => capture,
        Err(fault) => return Some(fault),
    };
    let mut octets = Vec::new(rt.alloc());
    for _record in 0..=MAX_RECORDS {
        match capture.read_packet(&mut octets, &mut source) {
            Ok(Some(_)) => {}
            Ok(None) => return None,
            Err(fault) => return Some(fault),
        }
    }
    None
}

/// Explains why the capture at `path` is refused or can't be read; reads its first octets again. Returns `None` if they can't be read
/// again. `explain_captures` and `explain_capture_file` call it.
fn explain_capture(
    rt: &(impl AllocGlobal + Files),
    path: &str,
    fault: &RunFault,
) -> Option<String> {
    if is_standard(path) {
        return None;
    }
    let data = fs::metadata(rt, path).ok()?;
    if data.is_dir() {
        return explain_file(rt.alloc(), path, Cause::Folder).ok();
    }
    if !data.is_file() {
        return None;
    }
    let reader = fs::open(rt, path).ok()?;
    let front = read_at_most(rt.alloc(), reader, FRONT).ok()?;
    explain_run(rt.alloc(), path, &front, fault).ok()
}

/// Returns warnings about an accepted plan, its capture folder, and changes and commands after the last frame. `idle` is the line of a
/// schedule change without effect. Returns `None` if memory runs out.
///
/// `run_warnings` calls it.
pub(crate) fn warnings_of_run<H: AllocGlobal + Files>(
    rt: &H,
    accepted: &Accepted<Global>,
    orders: &[Command],
    folder: &str,
    idle: Option<usize>,
    last: Option<Last>,
) -> Option<String> {
    let warned = describe_plan(rt.alloc(), accepted, idle).ok()?;
    let mut said = TextBuilder::new(rt.alloc());
    said.put(warned.as_str());
    for port in 1..=16u8 {
        if accepted.plan().port(port).is_none() {
            warn_if_capture_unread(rt, &mut said, folder, port);
        }
    }
    if let Some(last) = last {
        put_late(&mut said, accepted.plan(), orders, last);
    }
    said.finish().ok()
}

/// Writes a warning if the folder has a capture for `port`, which the plan lacks: the run doesn't read it. `warnings_of_run` calls it.
fn warn_if_capture_unread<H: AllocGlobal + Files>(
    rt: &H,
    said: &mut TextBuilder<Global>,
    folder: &str,
    port: u8,
) {
    match capture_path(rt.alloc(), folder, port) {
        Ok(path) if is_file(rt, path.as_str()) => warn_unread_capture(said, path.as_str(), port),
        Ok(_) => {}
        Err(_) => said.discard(),
    }
}
