//! Runs a folder of captures, and writes the requested tables and picture.
ghost use Rattle.std.specs.Prelude.{◌≡◌, ◌⊎◌, IfOk, IfErr, option_map, string_bytes};
ghost use Rattle.bridge_config.specs.Commands.{AreCommands};
ghost use Rattle.app_files.specs.Folders.{HavePaths};
ghost use Rattle.app_commands.specs.RunFiles.{PrintsRun};
ghost use Rattle.app_commands.specs.RunJobs.{FailsRunUnder};
ghost use Rattle.app_commands.specs.ShownFiles.{IsOfShowing, IsOfTables};
ghost use Rattle.app_commands.specs.Losing.{TellsLost, lost_if};

use crate::context::{Flags, RunRequest};
use crate::late::{Last, last_frame};
use crate::picturing::put_run_picture;
use crate::run_files::run_folder;
use crate::sparing::check_run_outputs_unused;
use crate::tables::write_tables;
use app_failure::Failure;
use app_files::CommandFiles;
use bridge_check::Accepted;
use bridge_config::Command;
use bridge_limits::NoMemory;
use bridge_report::{lost_lines, summary};
use bridge_semantics::Outcome;
use std::alloc::Global;
use std::rt::{Clock, Files};

/// Lines of a complete run, from which the output of `run` is made.
#[derive(Drop)]
pub(crate) struct RunLines {
    /// Line of counts of the run.
    pub(crate) line: String,
    /// One `lost:` line for each protected filter that lost a frame or a copy, if losses are errors.
    pub(crate) lost: String,
    /// Whether losses are errors and a protected filter lost a frame or a copy.
    pub(crate) is_lossy: bool,
    /// Times of the last arrival and departure. `None` unless an explanation is requested and the times are known.
    pub(crate) last: Option<Last>,
}

/// Runs captures under an accepted plan between two folders, and writes report, requested tables and picture. Refuses outputs that are
/// files in use. Returns the run's lines. `run_accepted_captures` and `send_strictly` call it.
#[tactic(auto, using(crate::proofs::ShownEnded::memory_ends))]
pub(crate) fn run_with_outputs<H: AllocGlobal + Clock + Eprint + Files>(
    files: &mut CommandFiles<'_, H>,
    accepted: &Accepted<Global>,
    orders: &[Command],
    job: &RunRequest<'_>,
    flags: Flags,
) -> Result<RunLines, Failure>
    requires commands { AreCommands accepted.now orders.now }
    ensures named { IfOk result (λ _. HavePaths job.now.input.now job.now.output.now) }
    ensures ok { IfOk result (λ lines. PrintsRun Global (string_bytes lines.line)) }
    ensures lost { IfOk result (λ lines. TellsLost Global flags.is_strict (string_bytes lines.line)
        (string_bytes lines.lost)
        lines.is_lossy) }
    ensures err { IfErr result (FailsRunUnder accepted.now job.now) }
{
    if files.note_standard_output().is_err() {
        return Err(Failure::NoMemory);
    }
    if let Err(fault) = check_run_outputs_unused(files, accepted, job) {
        return Err(fault);
    }
    let sent = match run_folder(files, accepted, orders, job, flags) {
        Ok(sent) => sent,
        Err(fault) => return Err(fault),
    };
    let told = write_outputs(files, accepted, &sent.outcome, job, flags);
    drop(sent);
    told
}

/// Writes the requested tables, then the requested picture of a run, and returns the run's lines. Fails if a table or the picture can't be
/// written. `run_with_outputs` calls it.
fn write_outputs<H: AllocGlobal + Files>(
    files: &mut CommandFiles<'_, H>,
    accepted: &Accepted<Global>,
    outcome: &Outcome<Global>,
    job: &RunRequest<'_>,
    flags: Flags,
) -> Result<RunLines, Failure>
    ensures ok { IfOk result (λ lines. PrintsRun Global (string_bytes lines.line)) }
    ensures lost { IfOk result (λ lines. TellsLost Global flags.is_strict (string_bytes lines.line)
        (string_bytes lines.lost)
        lines.is_lossy) }
    ensures err { IfErr result (λ f. IsOfShowing (option_map (λ s. string_bytes s.file) job.now.picture.now) f
        ⊎ IsOfTables (option_map string_bytes job.now.tables.now.delays)
        (option_map string_bytes job.now.tables.now.frames) f) }
{
    match write_tables(files, accepted, outcome, job.tables) {
        Ok(written) => drop(written),
        Err(fault) => return Err(fault),
    }
    write_run_picture(files, accepted, outcome, job, flags)
}

/// Writes the requested picture of a run, if any, and returns the run's lines. Fails if the picture can't be written. `write_outputs` calls
/// it.
fn write_run_picture<H: AllocGlobal + Files>(
    files: &mut CommandFiles<'_, H>,
    accepted: &Accepted<Global>,
    outcome: &Outcome<Global>,
    job: &RunRequest<'_>,
    flags: Flags,
) -> Result<RunLines, Failure>
    ensures ok { IfOk result (λ lines. PrintsRun Global (string_bytes lines.line)) }
    ensures lost { IfOk result (λ lines. TellsLost Global flags.is_strict (string_bytes lines.line)
        (string_bytes lines.lost)
        lines.is_lossy) }
    ensures err { IfErr result (IsOfShowing (option_map (λ s. string_bytes s.file) job.now.picture.now)) }
{
    if let Some(request) = job.picture {
        if let Err(fault) = put_run_picture(files, accepted, outcome, request) {
            return Err(fault);
        }
    }
    let Ok(line) = summary(files.alloc(), outcome) else {
        return Err(Failure::NoMemory);
    };
    let Ok(lost) = lost_if(files.alloc(), outcome, flags.is_strict) else {
        return Err(Failure::NoMemory);
    };
    let is_lossy = !lost.as_str().is_empty();
    let last = if flags.is_explained {
        last_frame(outcome)
    } else {
        None
    };
    Ok(RunLines {
        line,
        lost,
        is_lossy,
        last,
    })
}

/// Returns one `lost:` line for each protected filter that lost a frame or a copy, if losses are errors; otherwise the empty text.
/// `write_run_picture` calls it.
fn lost_if(alloc: Global, outcome: &Outcome<Global>, is_strict: bool) -> Result<String, NoMemory>
    ensures { IfOk result (λ lost. string_bytes lost ≡ lost_if is_strict outcome.now.filters.items) }
{
    if is_strict {
        lost_lines(alloc, outcome)
    } else {
        Ok(String::new(alloc))
    }
}
