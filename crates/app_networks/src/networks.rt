//! The commands for networks: `net check`, `net` and `picture`.
ghost use Rattle.std.specs.Prelude.{[], ◌≡◌, IfErr, IfOk, false, option_map, string_bytes};
ghost use Rattle.std.specs.declared.alloc.Global.{Global};
ghost use Rattle.net_check.specs.Networks.{EndsNetwork};
ghost use Rattle.app_networks.specs.Folders.{EndsRounds};
ghost use Rattle.app_commands.specs.CommandOutputs.{IsPictureOutput};
ghost use Rattle.app_networks.specs.Networks.{FailsNetworkPicture, IsNetworkOutput, IsNetworkRunOutput, IsOutputOfCheck, IsOutputOfRun, IsWithRounds};

use crate::again::can_read_network_again;
use crate::drawing::network_picture;
use crate::job::{NetworkRunRequest, NetworkRunResult, run_rounds};
use app_commands::{
    Flags, Output, line_or_nothing, picture_apart, print_text, status_if, write_picture_file,
};
use app_failure::{Failure, NoMemory};
use app_files::{CommandFiles, is_standard};
use net_check::{NetworkOutput, explain_streams, network_job};
use std::alloc::Global;
use std::rt::Files;

/// Returns the output of `net check`. The status is 1 if a stream is refusable or late, or if a warning is an error. `run_request` calls
/// it.
pub(crate) fn check_network<H: AllocGlobal + Files>(
    files: &mut CommandFiles<'_, H>,
    path: &str,
    flags: Flags,
) -> Result<Output, Failure>
    ensures ok { IfOk result (IsNetworkOutput flags.is_strict flags.is_explained) }
    ensures fails { IfErr result (EndsNetwork Global path.now) }
{
    let said = match network_job(files.alloc(), files, path) {
        Ok(said) => said,
        Err(fault) => return Err(fault),
    };
    let reasons = stream_explanations(files.rt, path, flags.is_explained);
    match output_of_check(said, reasons, flags) {
        Ok(output) => Ok(output),
        Err(NoMemory) => Err(Failure::NoMemory),
    }
}

/// Returns the explanation of the streams if it is requested (`is_asked`). The text is empty otherwise, or if memory runs out or a file is
/// a pipe. `check_network` calls it.
fn stream_explanations(rt: &(impl AllocGlobal + Files), path: &str, is_asked: bool) -> String
    ensures { is_asked ≡ false → string_bytes result ≡ [] }
{
    let reasons = if is_asked && can_read_network_again(rt, path) {
        explain_streams(rt, path)
    } else {
        None
    };
    match reasons {
        Some(reasons) => reasons,
        None => String::new(rt.alloc()),
    }
}

/// Returns the output of `net check` for an accepted network: lines and warnings on standard output, the explanation of the streams on
/// standard error. `check_network` calls it.
fn output_of_check(said: NetworkOutput, reasons: String, flags: Flags) -> Result<Output, NoMemory>
    ensures { IfOk result (IsOutputOfCheck said flags.is_strict reasons) }
{
    let NetworkOutput { lines, told, kept } = said;
    let is_well = kept && !(flags.is_strict && !told.as_str().is_empty());
    let mut stdout = lines;
    let Ok(()) = stdout.push_str(told.as_str()) else {
        return Err(NoMemory);
    };
    Ok(Output {
        stdout,
        stderr: reasons,
        status: status_if(is_well),
    })
}

/// Runs a network and returns the output of `net`. The status is 1 if a warning or a loss is an error. If a warning is an error, the
/// network doesn't run. `run_network_request` calls it.
pub(crate) fn run_network<H: AllocGlobal + Eprint + Files>(
    files: &mut CommandFiles<'_, H>,
    job: &NetworkRunRequest<'_>,
    flags: Flags,
) -> Result<Output, Failure>
    ensures ok { IfOk result (IsNetworkRunOutput flags.is_strict flags.is_explained) }
    ensures fails { IfErr result (EndsRounds Global job.now.network.now job.now.input.now job.now.output.now
        (option_map string_bytes job.now.picture.now)) }
{
    match run_rounds(files, job, flags) {
        Ok(said) => Ok(output_of_run(files.alloc(), said, flags)),
        Err(fault) => Err(fault),
    }
}

/// Returns the output of `net`. Standard output gets the run's line. Standard error gets warnings, or lines about lost and late streams,
/// and with `--explain` the number of rounds of a complete run.
///
/// `run_network` calls it.
fn output_of_run(alloc: Global, said: NetworkRunResult, flags: Flags) -> Output
    ensures { IsOutputOfRun said flags.is_explained result }
{
    let status = said.status();
    let NetworkRunResult {
        line,
        told,
        rounds,
        is_warned: _,
        is_lossy: _,
    } = said;
    let has_run = line.is_some();
    Output {
        stdout: line_or_nothing(alloc, line),
        stderr: with_rounds(alloc, told, rounds, flags.is_explained && has_run),
        status,
    }
}

/// Returns the text `told`, and if `is_explained`, the number of rounds after it. If memory runs out, the number is left out.
/// `output_of_run` calls it.
fn with_rounds(alloc: Global, told: String, rounds: u32, is_explained: bool) -> String
    ensures { IsWithRounds (string_bytes told) is_explained (string_bytes result) }
{
    let mut all = told;
    if is_explained {
        let _ = all.push_str(rounds_line(alloc, rounds).as_str());
    }
    all
}

/// Returns the line with the number of rounds; the empty text if memory runs out. `with_rounds` calls it.
fn rounds_line(alloc: Global, rounds: u32) -> String {
    match format!(in alloc; "Rounds until nothing changed: {rounds}.\n") {
        Ok(text) => text,
        Err(_) => String::new(alloc),
    }
}

/// Draws a network into `file`, or to standard output for `-`, and returns the output of `picture`. Fails if the network is refused, or if
/// a file fails. `draw` calls it.
pub(crate) fn draw_network<H: AllocGlobal + Files>(
    files: &mut CommandFiles<'_, H>,
    path: &str,
    file: &str,
) -> Result<Output, Failure>
    ensures ok { IfOk result (IsPictureOutput file.now) }
    ensures fails { IfErr result (FailsNetworkPicture path.now file.now) }
{
    let text = match network_picture(files.alloc(), files, path) {
        Ok(text) => text,
        Err(fault) => return Err(fault),
    };
    if is_standard(file) {
        return match picture_apart(files, text) {
            Ok(text) => Ok(print_text(files.alloc(), text, 0)),
            Err(fault) => Err(fault),
        };
    }
    match write_picture_file(files, file, text.as_str()) {
        Ok(_) => Ok(print_text(files.alloc(), String::new(files.alloc()), 0)),
        Err(fault) => Err(fault),
    }
}
