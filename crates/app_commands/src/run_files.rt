//! Runs a bridge over a folder of captures, and writes captures and report.
ghost use Rattle.std.specs.Prelude.{◌≡◌, IfOk, IfErr, length, option_map, string_bytes};
ghost use Rattle.bridge_config.specs.Commands.{AreCommands};
ghost use Rattle.app_files.specs.Folders.{HavePaths};
ghost use Rattle.app_commands.specs.ReadTexts.{AreCommandsAt, EndsCommandsAt, EndsReadingAt, IsAcceptedAt};
ghost use Rattle.app_commands.specs.RunFiles.{EndsSending, HasReport, IsCheckedPlan, IsOfOutputs, IsOfReport};

use crate::context::{Flags, RunRequest, Texts};
use crate::plan::read_file_text;
use crate::progress::{Progress, all_input_octets, watched_readers};
use crate::report::Report;
use crate::running::run_captures;
use app_failure::{Failure, file_failure, read_commands_and_check, read_plan};
use app_files::{
    CommandFiles, Output, ReadFiles, open_captures, refuse_same_folder, report_path, test_folders,
    write_content,
};
use bridge_capture::RunFault;
use bridge_check::Accepted;
use bridge_config::{Command, Plan};
use bridge_semantics::Outcome;
use std::alloc::Global;
use std::fs::OpenFile;
use std::io::Write;
use std::rt::{Clock, Files};

/// Result of a complete run, and the file of its report.
#[derive(Drop)]
pub struct Sent<F: Write + OpenFile + Drop> {
    /// Result of the run.
    pub outcome: Outcome<Global>,
    /// File of the report, completely written.
    pub report: Output<F>,
}

/// Runs captures under an accepted plan between the folders of `job`, and writes the report. Refuses outputs that are files in use, and an
/// empty folder path. Inputs and outputs are in use afterwards.
///
/// `run_with_outputs` calls it.
pub fn run_folder<H: AllocGlobal + Clock + Eprint + Files>(
    files: &mut CommandFiles<'_, H>,
    accepted: &Accepted<Global>,
    orders: &[Command],
    job: &RunRequest<'_>,
    flags: Flags,
) -> Result<Sent<H::File>, Failure>
    requires commands { AreCommands accepted.now orders.now }
    ensures named { IfOk result (λ _. HavePaths job.now.input.now job.now.output.now) }
    ensures reported { IfOk result (λ sent. HasReport ⟦<Output<H::File> as Write>⟧.contents sent.outcome sent.report) }
    ensures err { IfErr result (EndsSending accepted.now job.now.input.now job.now.output.now) }
{
    match test_folders(files.alloc(), job.input, job.output) {
        Ok(()) => send_named(files, accepted, orders, job, flags),
        Err(fault) => Err(file_failure(fault)),
    }
}

/// Runs captures under an accepted plan between two folders with nonempty paths: opens all files, runs, then writes the report.
///
/// Fails if a file can't be opened, read or written, or if a capture is refused. `run_folder` calls it.
fn send_named<H: AllocGlobal + Clock + Eprint + Files>(
    files: &mut CommandFiles<'_, H>,
    accepted: &Accepted<Global>,
    orders: &[Command],
    job: &RunRequest<'_>,
    flags: Flags,
) -> Result<Sent<H::File>, Failure>
    requires commands { AreCommands accepted.now orders.now }
    requires named { HavePaths job.now.input.now job.now.output.now }
    ensures reported { IfOk result (λ sent. HasReport ⟦<Output<H::File> as Write>⟧.contents sent.outcome sent.report) }
    ensures err { IfErr result (EndsSending accepted.now job.now.input.now job.now.output.now) }
{
    let (input, output) = (job.input, job.output);
    let Ok(ports) = accepted.plan().port_numbers(files.alloc()) else {
        return Err(Failure::NoMemory);
    };
    let readers = match open_captures(files.rt, input, &ports) {
        Ok(readers) => readers,
        Err(fault) => return Err(file_failure(fault)),
    };
    if let Err(fault) = refuse_same_folder(files.rt, input, output) {
        drop(readers);
        return Err(file_failure(fault));
    }
    let writers = match create_outputs(files, output, &ports, &readers) {
        Ok(writers) => writers,
        Err(fault) => {
            drop(readers);
            return Err(fault);
        }
    };
    let outcome = match run_watched(files.rt, accepted, orders, readers, writers, flags) {
        Ok(outcome) => outcome,
        Err(fault) => return Err(Failure::Run(fault)),
    };
    match write_report_file(files, &outcome, output) {
        Ok(report) => Ok(Sent { outcome, report }),
        Err(fault) => {
            drop(outcome);
            Err(fault)
        }
    }
}

/// Runs captures from readers into writers, and shows the progress of a long run if `flags` asks for it. Fails if a capture is refused, or
/// if a reader or writer fails.
fn run_watched<H: AllocGlobal + Clock + Eprint + Files>(
    rt: &H,
    accepted: &Accepted<Global>,
    orders: &[Command],
    readers: Vec<H::File>,
    writers: Vec<Output<H::File>>,
    flags: Flags,
) -> Result<Outcome<Global>, RunFault>
    requires commands { AreCommands accepted.now orders.now }
    requires readers { length readers.items ≡ length accepted.now.ports }
    requires writers { length writers.items ≡ length accepted.now.ports }
{
    let progress = Progress::new(rt, all_input_octets(&readers), flags.is_watched);
    let Ok(readers) = watched_readers(rt.alloc(), readers, &progress) else {
        drop(writers);
        return Err(RunFault::NoMemory);
    };
    let ran = run_captures(rt.alloc(), accepted, orders, readers, writers);
    progress.clear();
    match ran {
        Ok((outcome, _)) => Ok(outcome),
        Err(halted) => Err(halted.fault),
    }
}

/// Opens the output captures of `ports` in a folder. Refuses captures and a report that are files in use, and two captures that are one
/// file. Readers and outputs are in use afterwards.
///
/// `send_named` calls it.
fn create_outputs<H: AllocGlobal + Files>(
    files: &mut CommandFiles<'_, H>,
    folder: &str,
    ports: &[u8],
    readers: &[H::File],
) -> Result<Vec<Output<H::File>>, Failure>
    ensures all { IfOk result (λ outputs. length outputs.items ≡ length ports.now) }
    ensures only { IfErr result (IsOfOutputs folder.now ports.now) }
{
    if files.note_files(readers).is_err() {
        return Err(Failure::NoMemory);
    }
    let outputs = match files.create_captures(folder, ports) {
        Ok(outputs) => outputs,
        Err(fault) => return Err(file_failure(fault)),
    };
    if let Err(fault) = files.note_captures(folder, ports) {
        drop(outputs);
        return Err(file_failure(fault));
    }
    if let Err(fault) = check_report_is_unused(files, folder) {
        drop(outputs);
        return Err(fault);
    }
    Ok(outputs)
}

/// Refuses a folder whose report is a file in use, before the run: the report is opened only after it. `create_outputs` calls it.
fn check_report_is_unused<H: AllocGlobal + Files>(
    files: &CommandFiles<'_, H>,
    folder: &str,
) -> Result<(), Failure>
    ensures { IfErr result (IsOfReport folder.now) }
{
    let Ok(path) = report_path(files.alloc(), folder) else {
        return Err(Failure::NoMemory);
    };
    match files.refuse_in_use(path.as_str()) {
        Ok(()) => Ok(()),
        Err(fault) => Err(file_failure(fault)),
    }
}

/// Reads a run's plan and commands, and accepts the plan. Both files are in use afterwards, and `texts` keeps their contents for
/// explanations.
///
/// Fails if a file can't be read, or if the plan or the commands are refused.
pub fn read_plan_and_commands<F: ReadFiles>(
    alloc: Global,
    files: &mut F,
    job: &RunRequest<'_>,
    texts: &mut Texts,
) -> Result<(Accepted<Global>, Vec<Command>), Failure>
    ensures accepted { IfOk result (λ read. IsAcceptedAt (F.octets_at files.old) job.now.plan.now read.0) }
    ensures commands { IfOk result (λ read. AreCommands read.0 read.1.items) }
    ensures listed { IfOk result (λ read. AreCommandsAt (F.octets_at files.old)
        (option_map string_bytes job.now.commands.now) read.0 read.1.items) }
    ensures err { IfErr result (EndsReadingAt Global (F.octets_at files.old) job.now.plan.now
        (option_map string_bytes job.now.commands.now)) }
{
    let text = match read_file_text(files, job.plan) {
        Ok(text) => text,
        Err(fault) => return Err(fault),
    };
    texts.plan = text;
    let plan = match read_plan(alloc, alloc, job.plan, texts.plan.as_slice()) {
        Ok(plan) => plan,
        Err(fault) => return Err(fault),
    };
    match read_commands(alloc, files, plan, job.commands, texts) {
        Ok(read) => Ok(read),
        Err(fault) => Err(fault),
    }
}

/// Reads a plan's commands from the file at an optional path, then checks the plan. Without a path there are no commands.
///
/// Fails if the file can't be read, or if the commands or the plan are refused.
fn read_commands<F: ReadFiles>(
    alloc: Global,
    files: &mut F,
    plan: Plan<Global>,
    path: &Option<String>,
    texts: &mut Texts,
) -> Result<(Accepted<Global>, Vec<Command>), Failure>
    ensures accepted { IfOk result (λ read. IsCheckedPlan plan read.0) }
    ensures commands { IfOk result (λ read. AreCommands read.0 read.1.items) }
    ensures listed { IfOk result (λ read. AreCommandsAt (F.octets_at files.old) (option_map string_bytes path.now) plan
        read.1.items) }
    ensures err { IfErr result (EndsCommandsAt (F.octets_at files.old) (option_map string_bytes path.now) plan) }
{
    let Some(path) = path else {
        return match read_commands_and_check(alloc, alloc, plan, None::<(String, &[u8])>) {
            Ok(read) => Ok(read),
            Err(fault) => Err(fault),
        };
    };
    let text = match read_file_text(files, path.as_str()) {
        Ok(text) => text,
        Err(fault) => {
            drop(plan);
            return Err(fault);
        }
    };
    texts.commands = text;
    let Ok(copy) = String::from_str(alloc, path.as_str()) else {
        drop(plan);
        return Err(Failure::NoMemory);
    };
    match read_commands_and_check(alloc, alloc, plan, Some((copy, texts.commands.as_slice()))) {
        Ok(read) => Ok(read),
        Err(fault) => Err(fault),
    }
}

/// Writes a run's report to a folder, and returns its file, which is then in use. Fails if the report's file can't be written. `send_named`
/// calls it.
fn write_report_file<H: AllocGlobal + Files>(
    files: &mut CommandFiles<'_, H>,
    outcome: &Outcome<Global>,
    folder: &str,
) -> Result<Output<H::File>, Failure>
    ensures reported { IfOk result (HasReport ⟦<Output<H::File> as Write>⟧.contents outcome.now) }
    ensures fails { IfErr result (IsOfReport folder.now) }
{
    let alloc = files.alloc();
    let Ok(path) = report_path(alloc, folder) else {
        return Err(Failure::NoMemory);
    };
    let report = Report { outcome };
    let output = match files.create_new(path.as_str()) {
        Ok(output) => output,
        Err(fault) => return Err(file_failure(fault)),
    };
    match write_content(alloc, path.as_str(), output, &report) {
        Ok(output) => Ok(output),
        Err(fault) => Err(file_failure(fault)),
    }
}
