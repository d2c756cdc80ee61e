//! A run with the warnings of its plan and the lines of lost frames.
ghost use Rattle.std.specs.Prelude.{◌≡◌, [], IfOk, IfErr, IfSome, None, false, string_bytes, true};
ghost use Rattle.bridge_config.specs.Commands.{AreCommands};
ghost use Rattle.app_files.specs.Folders.{HavePaths};
ghost use Rattle.app_commands.specs.RunFiles.{PrintsRun};
ghost use Rattle.app_commands.specs.RunJobs.{FailsRun, FailsRunUnder};
ghost use Rattle.app_commands.specs.Losing.{TellsLost};
ghost use Rattle.app_commands.specs.Notes.{AreNotes};

use crate::context::{Flags, RunRequest, Texts};
use crate::explaining::warnings_of_run;
use crate::job::run_with_outputs;
use crate::late::Last;
use crate::notes::{idle_line, plan_notes};
use crate::run_files::read_plan_and_commands;
use app_failure::Failure;
use app_files::CommandFiles;
use bridge_check::Accepted;
use bridge_config::Command;
use std::alloc::Global;
use std::rt::{Clock, Files};

/// Result of the command `run`, from which its output is made. Warnings and losses may be errors.
#[derive(Drop)]
pub struct StrictRun {
    /// Line of the run. `None` if a warning kept it from running.
    pub line: Option<String>,
    /// Text for standard error about the plan: its warnings or an explanation.
    pub told: String,
    /// Whether warnings are errors and the plan has one.
    pub is_warned: bool,
    /// Text for standard error about the run: one `lost:` line for each protected filter with losses, if losses are errors.
    pub lost: String,
    /// Whether `lost` has a line.
    pub is_lossy: bool,
}

impl StrictRun {
    ghost use Rattle.std.specs.Prelude.{◌≡◌};
    ghost use Rattle.app_commands.specs.Losing.{status_of};

    /// Returns the run's exit status: 1 if a warning or a loss is an error, otherwise 0. `run_output` calls it.
    pub fn status(&self) -> u8
        ensures { result ≡ status_of self.now.is_warned self.now.is_lossy }
    {
        if self.is_warned || self.is_lossy {
            1
        } else {
            0
        }
    }
}

/// Runs captures through the bridge of a plan, and writes the requested tables and picture. If warnings are errors and the plan has one,
/// nothing runs, and only plan and commands are opened.
///
/// Reads plan and commands once, so both may be pipes. Fails if a file fails, or if the plan, the commands or a capture is refused.
/// `run_bridge` calls it.
pub(crate) fn run_job<H: AllocGlobal + Clock + Eprint + Files>(
    files: &mut CommandFiles<'_, H>,
    job: &RunRequest<'_>,
    flags: Flags,
    texts: &mut Texts,
) -> Result<StrictRun, Failure>
    ensures ok { IfOk result (λ strict. IfSome strict.line (λ line. PrintsRun Global (string_bytes line))) }
    ensures named { IfOk result (λ strict. IfSome strict.line (λ _. HavePaths job.now.input.now job.now.output.now)) }
    ensures warned { IfOk result (λ strict. strict.is_warned ≡ true → strict.line ≡ None) }
    ensures left { IfOk result (λ strict. strict.line ≡ None → (strict.is_warned ≡ true) × (flags.is_strict ≡ true)) }
    ensures none { IfOk result (λ strict. strict.line ≡ None → string_bytes strict.lost ≡ []) }
    ensures notes { IfOk result (λ strict. AreNotes flags.is_strict flags.is_explained (string_bytes strict.told)
        strict.is_warned) }
    ensures lost { IfOk result (λ strict. IfSome strict.line
        (λ line. TellsLost Global flags.is_strict (string_bytes line)
        (string_bytes strict.lost) strict.is_lossy)) }
    ensures err { IfErr result (FailsRun job.now) }
{
    let (accepted, orders) = match read_plan_and_commands(files.alloc(), files, job, texts) {
        Ok(read) => read,
        Err(fault) => return Err(fault),
    };
    let idle = idle_line(&texts.plan, &accepted, flags);
    texts.plan = Vec::new(files.alloc());
    texts.commands = Vec::new(files.alloc());
    let told = run_accepted_captures(files, &accepted, &orders, job, flags, idle);
    drop(accepted);
    told
}

/// Runs captures under an accepted plan. If warnings are errors, a plan with a warning doesn't run. `idle` is the line of a schedule change
/// without effect.
///
/// Fails if a file fails or a capture is refused. `run_job` calls it.
fn run_accepted_captures<H: AllocGlobal + Clock + Eprint + Files>(
    files: &mut CommandFiles<'_, H>,
    accepted: &Accepted<Global>,
    orders: &[Command],
    job: &RunRequest<'_>,
    flags: Flags,
    idle: Option<usize>,
) -> Result<StrictRun, Failure>
    requires commands { AreCommands accepted.now orders.now }
    ensures ok { IfOk result (λ strict. IfSome strict.line (λ line. PrintsRun Global (string_bytes line))) }
    ensures named { IfOk result (λ strict. IfSome strict.line (λ _. HavePaths job.now.input.now job.now.output.now)) }
    ensures warned { IfOk result (λ strict. strict.is_warned ≡ true → strict.line ≡ None) }
    ensures left { IfOk result (λ strict. strict.line ≡ None → (strict.is_warned ≡ true) × (flags.is_strict ≡ true)) }
    ensures none { IfOk result (λ strict. strict.line ≡ None → string_bytes strict.lost ≡ []) }
    ensures notes { IfOk result (λ strict. AreNotes flags.is_strict flags.is_explained (string_bytes strict.told)
        strict.is_warned) }
    ensures lost { IfOk result (λ strict. IfSome strict.line
        (λ line. TellsLost Global flags.is_strict (string_bytes line)
        (string_bytes strict.lost) strict.is_lossy)) }
    ensures err { IfErr result (FailsRunUnder accepted.now job.now) }
{
    if flags.is_strict {
        return send_strictly(files, accepted, orders, job, flags, idle);
    }
    match run_with_outputs(files, accepted, orders, job, flags) {
        Ok(lines) => {
            let behind = ExplanationData {
                idle,
                last: lines.last,
            };
            Ok(StrictRun {
                line: Some(lines.line),
                told: run_warnings(files.rt, accepted, orders, job, flags, behind),
                is_warned: false,
                lost: lines.lost,
                is_lossy: lines.is_lossy,
            })
        }
        Err(fault) => Err(fault),
    }
}

/// Facts of a complete run that its explanation needs.
#[derive(Clone, Copy)]
struct ExplanationData {
    /// Line in the plan of a schedule change without effect. `None` if the plan has no change without effect.
    idle: Option<usize>,
    /// Times of the last arrival and departure, or `None` if unknown.
    last: Option<Last>,
}

/// Returns the warnings of a plan and its run, if an explanation is requested. The text is empty otherwise, and if memory runs out.
/// `run_accepted_captures` calls it.
fn run_warnings<H: AllocGlobal + Files>(
    rt: &H,
    accepted: &Accepted<Global>,
    orders: &[Command],
    job: &RunRequest<'_>,
    flags: Flags,
    behind: ExplanationData,
) -> String
    ensures { AreNotes false flags.is_explained (string_bytes result) false }
{
    if !flags.is_explained {
        return String::new(rt.alloc());
    }
    let notes = warnings_of_run(rt, accepted, orders, job.input, behind.idle, behind.last);
    match notes {
        Some(notes) => notes,
        None => String::new(rt.alloc()),
    }
}

/// Runs captures under an accepted plan if the plan has no warning; otherwise returns the warnings. Fails if a file fails or a capture is
/// refused. `run_accepted_captures` calls it if warnings are errors.
#[tactic(auto, using(crate::proofs::ShownEnded::memory_ends))]
fn send_strictly<H: AllocGlobal + Clock + Eprint + Files>(
    files: &mut CommandFiles<'_, H>,
    accepted: &Accepted<Global>,
    orders: &[Command],
    job: &RunRequest<'_>,
    flags: Flags,
    idle: Option<usize>,
) -> Result<StrictRun, Failure>
    requires commands { AreCommands accepted.now orders.now }
    requires strict { flags.is_strict ≡ true }
    ensures ok { IfOk result (λ strict. IfSome strict.line (λ line. PrintsRun Global (string_bytes line))) }
    ensures named { IfOk result (λ strict. IfSome strict.line (λ _. HavePaths job.now.input.now job.now.output.now)) }
    ensures warned { IfOk result (λ strict. strict.is_warned ≡ true → strict.line ≡ None) }
    ensures left { IfOk result (λ strict. strict.line ≡ None → (strict.is_warned ≡ true) × (flags.is_strict ≡ true)) }
    ensures none { IfOk result (λ strict. strict.line ≡ None → string_bytes strict.lost ≡ []) }
    ensures notes { IfOk result (λ strict. AreNotes flags.is_strict flags.is_explained (string_bytes strict.told)
        strict.is_warned) }
    ensures lost { IfOk result (λ strict. IfSome strict.line
        (λ line. TellsLost Global flags.is_strict (string_bytes line)
        (string_bytes strict.lost) strict.is_lossy)) }
    ensures err { IfErr result (FailsRunUnder accepted.now job.now) }
{
    let Ok((told, is_warned)) = plan_notes(files.alloc(), accepted, idle, flags) else {
        return Err(Failure::NoMemory);
    };
    if is_warned {
        return Ok(StrictRun {
            line: None,
            told,
            is_warned,
            lost: String::new(files.alloc()),
            is_lossy: false,
        });
    }
    match run_with_outputs(files, accepted, orders, job, flags) {
        Ok(lines) => Ok(StrictRun {
            line: Some(lines.line),
            told,
            is_warned: false,
            lost: lines.lost,
            is_lossy: lines.is_lossy,
        }),
        Err(fault) => Err(fault),
    }
}
