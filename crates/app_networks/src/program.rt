//! Finds the command that the arguments request, and carries it out.
ghost use Rattle.std.specs.Prelude.{[], ◌≡◌, IfErr, IfOk, is_some, map, option_map, string_bytes};
ghost use Rattle.app_cli.specs.CommandLine.{HasRoom};
ghost use Rattle.app_commands.specs.Outputs.{Prints, Reports};
ghost use Rattle.app_commands.specs.CommandOutputs.{IsPictureOutput};
ghost use Rattle.app_networks.specs.Networks.{IsNetworkRunOutput};
ghost use Rattle.app_networks.specs.Folders.{EndsRounds};
ghost use Rattle.app_networks.specs.Program.{FailsBounds, FailsPicture, FailsRequest, PerformsBounds, IsOutput, IsOutputOf, MissesHelp, PerformsRequest};

use crate::bounds::{bound_plan, bound_traffic};
use crate::failing::explain_failure;
use crate::job::NetworkRunRequest;
use crate::networks::{check_network, draw_network, run_network};
use app_cli::{Command, PictureRequest, Request, parse_request, requested_help};
use app_commands::{
    Flags, Output, RunRequest, Texts, check_plan, draw_plan, is_network, report_fault,
    report_words, run_bridge, send_capture, send_text, words_failure,
};
use app_failure::{Failure, NoMemory};
use app_files::CommandFiles;
use std::alloc::Global;
use std::rt::{Clock, Files};

/// Carries out the arguments `words`, and returns the program's output. The status is 4 for help or the version. If `is_watched`, a long
/// run shows its progress on standard error. `run` of `tsnbridge` calls it.
pub fn perform<H: Input + AllocGlobal + Clock + Print + Eprint + Files>(
    rt: &H,
    words: &[String],
    is_watched: bool,
) -> Result<Output, NoMemory>
    ensures { IfOk result (IsOutput (map string_bytes words.now)) }
{
    match requested_help(rt.alloc(), words) {
        Ok(None) => perform_request(rt, words, is_watched),
        Ok(Some(text)) => Ok(help_output(rt.alloc(), text)),
        Err(fault) => report_words(rt.alloc(), words, &words_failure(fault)),
    }
}

/// Exit status after a request for help or the version.
const HELP_STATUS: u8 = 4;

/// Returns the output for a request for help or the version. `perform` calls it.
fn help_output(alloc: Global, text: String) -> Output
    ensures { Prints (string_bytes text) [] 4 result }
{
    Output {
        stdout: text,
        stderr: String::new(alloc),
        status: HELP_STATUS,
    }
}

/// Reads the request from the arguments, and returns its output. If the arguments are refused, returns the output of this failure.
/// `perform` calls it.
fn perform_request<H: Input + AllocGlobal + Clock + Print + Eprint + Files>(
    rt: &H,
    words: &[String],
    is_watched: bool,
) -> Result<Output, NoMemory>
    requires { MissesHelp (map string_bytes words.now) }
    ensures { IfOk result (IsOutput (map string_bytes words.now)) }
{
    match parse_request(rt.alloc(), words) {
        Ok(request) => request_output(rt, words, &request, is_watched),
        Err(fault) => report_words(rt.alloc(), words, &words_failure(fault)),
    }
}

/// Returns the output of a request: of the command if it succeeds, otherwise of the failure. Keeps the texts that the command reads, so
/// that an explanation needs no second reading.
fn request_output<H: Input + AllocGlobal + Clock + Print + Eprint + Files>(
    rt: &H,
    words: &[String],
    request: &Request,
    is_watched: bool,
) -> Result<Output, NoMemory>
    requires { HasRoom request.now.job }
    ensures { IfOk result (IsOutputOf request.now) }
{
    let mut texts = Texts::new(rt.alloc());
    match run_request(rt, request, is_watched, &mut texts) {
        Ok(output) => Ok(output),
        Err(fault) => report_failure(rt, words, request, &texts, &fault),
    }
}

/// Returns the output of a failed command: its fault line, and the explanation if requested. `request_output` calls it.
fn report_failure<H: AllocGlobal + Files>(
    rt: &H,
    words: &[String],
    request: &Request,
    texts: &Texts,
    fault: &Failure,
) -> Result<Output, NoMemory>
    ensures { IfOk result (Reports request.now.is_explained fault.now) }
{
    let explanation = if request.is_explained {
        explain_failure(rt, words, request, texts, fault)
    } else {
        None
    };
    report_fault(rt.alloc(), fault, explanation)
}

/// Builds the request of a run of one bridge from the values of the command `run`. The run and the explanation of its failure use it.
pub(crate) fn requested_run<'a>(
    request: &'a Request,
    plan: &'a String,
    input: &'a String,
    output: &'a String,
    commands: &'a Option<String>,
) -> RunRequest<'a>
    ensures plan { result.plan.now ≡ string_bytes plan.now }
    ensures input { result.input.now ≡ string_bytes input.now }
    ensures output { result.output.now ≡ string_bytes output.now }
    ensures commands { result.commands.now ≡ commands.now }
    ensures tables { result.tables.now ≡ request.now.tables }
    ensures picture { result.picture.now ≡ request.now.picture }
{
    RunRequest {
        plan: plan.as_str(),
        input: input.as_str(),
        output: output.as_str(),
        commands,
        tables: &request.tables,
        picture: &request.picture,
    }
}

/// Carries out the command of a request by the command's function. Keeps the texts that it reads in `texts`, for explanations. Fails with
/// the failure of the command's function. `request_output` calls it.
fn run_request<H: Input + AllocGlobal + Clock + Print + Eprint + Files>(
    rt: &H,
    request: &Request,
    watched: bool,
    texts: &mut Texts,
) -> Result<Output, Failure>
    requires { HasRoom request.now.job }
    ensures ok { IfOk result (PerformsRequest request.now) }
    ensures fails { IfErr result (FailsRequest request.now) }
{
    let flags = Flags {
        is_strict: request.is_strict,
        is_explained: request.is_explained,
        is_watched: watched,
    };
    let mut files = CommandFiles::new(rt);
    match &request.job {
        Command::Text => send_text(rt),
        Command::Wire {
            speed,
            room,
            input,
            output,
        } => send_capture(rt, *speed, *room, input.as_str(), output.as_str(), watched),
        Command::Check { plan } => check_plan(&mut files, plan.as_str(), flags, texts),
        Command::Run {
            plan,
            input,
            output,
            commands,
        } => {
            let run = requested_run(request, plan, input, output, commands);
            run_bridge(&mut files, &run, flags, texts)
        },
        Command::Picture { plan, file } => draw(&mut files, plan, file, &request.picture, texts),
        Command::Bounds { plan, traffic } => bound(&mut files, plan, traffic, flags, texts),
        Command::Network { network } => check_network(&mut files, network.as_str(), flags),
        Command::RunNetwork {
            network,
            input,
            output,
            picture,
        } => run_network_request(&mut files, network, input, output, picture, flags),
    }
}

/// Returns the output of `bounds`, with traffic or without. Fails with the failure of the command's function. `run_request` calls it.
fn bound<H: AllocGlobal + Files>(
    files: &mut CommandFiles<'_, H>,
    plan: &String,
    traffic: &Option<String>,
    flags: Flags,
    texts: &mut Texts,
) -> Result<Output, Failure>
    ensures ok { IfOk result (PerformsBounds (is_some traffic.now) flags.is_strict flags.is_explained) }
    ensures fails { IfErr result (FailsBounds (string_bytes plan.now) (option_map string_bytes traffic.now)) }
{
    match traffic {
        Some(file) => match bound_traffic(
            files.rt,
            files,
            plan.as_str(),
            file.as_str(),
            flags,
            texts,
        ) {
            Ok(output) => Ok(output),
            Err(fault) => Err(fault),
        },
        None => match bound_plan(files.alloc(), files, plan.as_str(), flags, texts) {
            Ok(output) => Ok(output),
            Err(fault) => Err(fault),
        },
    }
}

/// Runs a network from one folder into another, and returns the output of `net`. Fails with the failure of the command's function.
/// `run_request` calls it.
fn run_network_request<H: AllocGlobal + Eprint + Files>(
    files: &mut CommandFiles<'_, H>,
    network: &String,
    input: &String,
    output: &String,
    picture: &Option<String>,
    flags: Flags,
) -> Result<Output, Failure>
    ensures ok { IfOk result (IsNetworkRunOutput flags.is_strict flags.is_explained) }
    ensures fails { IfErr result (EndsRounds Global (string_bytes network.now) (string_bytes input.now)
        (string_bytes output.now) (option_map string_bytes picture.now)) }
{
    let request = NetworkRunRequest {
        network: network.as_str(),
        input: input.as_str(),
        output: output.as_str(),
        picture,
    };
    run_network(files, &request, flags)
}

/// Draws the network or plan at `path` into `file`, or to standard output for `-`. Refuses the arguments if they request a part of a
/// network. `run_request` calls it.
fn draw<H: AllocGlobal + Files>(
    files: &mut CommandFiles<'_, H>,
    path: &String,
    file: &String,
    part: &Option<PictureRequest>,
    texts: &mut Texts,
) -> Result<Output, Failure>
    ensures ok { IfOk result (IsPictureOutput (string_bytes file.now)) }
    ensures fails { IfErr result (FailsPicture (string_bytes path.now) (string_bytes file.now) (is_some part.now)) }
{
    if !is_network(files.rt, path.as_str()) {
        return draw_plan(files, path.as_str(), file.as_str(), part.as_ref(), texts);
    }
    if part.is_some() {
        return Err(Failure::Words);
    }
    draw_network(files, path.as_str(), file.as_str())
}
