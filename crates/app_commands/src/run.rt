//! The command `run`: captures through the bridge of a plan.
ghost use Rattle.std.specs.Prelude.{◌≡◌, IfErr, IfOk, string_bytes};
ghost use Rattle.app_commands.specs.CommandOutputs.{IsOutputOf, IsRunOutput, line_if};
ghost use Rattle.app_commands.specs.RunJobs.{FailsRun};

use crate::context::{Flags, RunRequest, Texts};
use crate::output::Output;
use crate::strict::{StrictRun, run_job};
use app_failure::{Failure, NoMemory};
use app_files::CommandFiles;
use std::alloc::Global;
use std::rt::{Clock, Files};

/// Runs captures through a plan's bridge, and returns the output of `run`. Nothing runs if warnings are errors and the plan has one. A
/// warning or loss that is an error gives status 1.
///
/// `run_request` of `app_networks` calls it.
pub fn run_bridge<H: AllocGlobal + Clock + Eprint + Files>(
    files: &mut CommandFiles<'_, H>,
    job: &RunRequest<'_>,
    flags: Flags,
    texts: &mut Texts,
) -> Result<Output, Failure>
    ensures ok { IfOk result (IsRunOutput job.now.input.now job.now.output.now flags.is_strict flags.is_explained) }
    ensures fails { IfErr result (FailsRun job.now) }
{
    match run_job(files, job, flags, texts) {
        Ok(run) => match run_output(files.alloc(), run) {
            Ok(output) => Ok(output),
            Err(NoMemory) => Err(Failure::NoMemory),
        },
        Err(fault) => Err(fault),
    }
}

/// Returns the output of a run: its line on standard output; lines about the plan and about lost frames on standard error. `run_bridge`
/// calls it.
fn run_output(alloc: Global, run: StrictRun) -> Result<Output, NoMemory>
    ensures { IfOk result (IsOutputOf run) }
{
    let status = run.status();
    let StrictRun {
        line,
        told,
        is_warned: _,
        lost,
        is_lossy: _,
    } = run;
    let mut stderr = told;
    let Ok(()) = stderr.push_str(lost.as_str()) else {
        return Err(NoMemory);
    };
    let stdout = line_or_nothing(alloc, line);
    Ok(Output {
        stdout,
        stderr,
        status,
    })
}

/// Returns a line, or the empty text if there is none. `run_output` and `output_of_run` of `app_networks` call it.
pub fn line_or_nothing(alloc: Global, line: Option<String>) -> String
    ensures { string_bytes result ≡ line_if line }
{
    match line {
        Some(line) => line,
        None => String::new(alloc),
    }
}
