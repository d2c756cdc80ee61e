//! Finds the command that the arguments request.
ghost use Rattle.std.specs.Prelude.{◌≡◌, ◌≢◌, [], Err, IfOk, IfErr, None, Option, Some, ℕ, codes, map, option_map, string_bytes};
ghost use Rattle.bridge_frame.specs.declared.Speed.{Speed};
ghost use Rattle.clap.specs.Words.{Text, fault_of, first_of, found_of, kind_of, rows_of, subcommand_of, subcommand_rows_of};
ghost use Rattle.app_cli.specs.declared.job.Command.{Command};
ghost use Rattle.app_cli.specs.CommandLine.{AsksFor, AsksForBounds, AsksForCheck, AsksForNetwork, AsksForNetworkRun, AsksForPicture, AsksForRun, AsksForWire, HasRoom, IsBoundsJob, IsCheckJob, IsNetworkJob, IsPictureJob, IsRunJob, IsWireJob, commands, fault_of_kind};

use crate::number::{parse_room, parse_speed};
use crate::words_fault::ArgumentsFault;
use bridge_frame::Speed;
use clap::error::ErrorKind;
use clap::{ArgMatches, Error};
use std::alloc::Global;

/// Command that the arguments request, with the values of its arguments.
#[derive(Debug, Drop)]
pub enum Command {
    /// Send a capture through one queue, from hexadecimal text on standard input.
    Text,
    /// Send a capture file through one queue into another file.
    Wire {
        /// Speed of the link.
        speed: Speed,
        /// Queue capacity, 1 to 4,096 frames.
        room: u16,
        /// Path of the input capture.
        input: String,
        /// Path of the output capture.
        output: String,
    },
    /// Check whether a plan isolates its protected filters.
    Check {
        /// Path of the plan.
        plan: String,
    },
    /// Run captures of a folder through the bridge of a plan, into another folder.
    Run {
        /// Path of the plan.
        plan: String,
        /// Path of the input folder.
        input: String,
        /// Path of the output folder.
        output: String,
        /// Path of the bridge's commands; `None` for a run without commands.
        commands: Option<String>,
    },
    /// Compute delay bounds of a plan's protected filters.
    Bounds {
        /// Path of the plan.
        plan: String,
        /// Path of the traffic of its talkers; `None` without `--traffic`.
        traffic: Option<String>,
    },
    /// Check whether a network isolates its streams.
    Network {
        /// Path of the network.
        network: String,
    },
    /// Run captures of folders through a network, into other folders.
    RunNetwork {
        /// Path of the network.
        network: String,
        /// Path of the folder that contains each bridge's input folder.
        input: String,
        /// Path of the folder for each bridge's output folder.
        output: String,
        /// Path of the picture of the run; `None` without `--picture`.
        picture: Option<String>,
    },
    /// Draw a plan.
    Picture {
        /// Path of the plan.
        plan: String,
        /// Path of the picture.
        file: String,
    },
}

/// Returns the command that `matches` names, with its values from `clap`. At least one argument is required. Fails with `Words` if the
/// arguments request no valid command, or with `NoMemory`. `request_by_matches` calls it.
pub(crate) fn job_by_matches(
    alloc: Global,
    words: &[String],
    matches: &ArgMatches,
) -> Result<Command, ArgumentsFault>
    requires some { words.now ≢ [] }
    requires taken { fault_of commands (map string_bytes words.now) ≡ [] }
    requires values { subcommand_rows_of matches.now ≡ subcommand_of commands (map string_bytes words.now) }
    ensures ok { IfOk result (AsksFor (map string_bytes words.now)) }
    ensures room { IfOk result HasRoom }
    ensures words { result ≡ Err ArgumentsFault.Words → (job : Command) → ¬ AsksFor (map string_bytes words.now) job }
{
    match matches.subcommand() {
        Some((name, values)) => job_by_command(alloc, words, name, values),
        None => Err(ArgumentsFault::Words),
    }
}

/// Returns the requested command with the values `values` that `clap` found; `name` is the command's name in the arguments. Fails with
/// `Words` if the arguments request no valid command, or with `NoMemory`. `job_by_matches` calls it.
fn job_by_command(
    alloc: Global,
    words: &[String],
    name: &str,
    values: &ArgMatches,
) -> Result<Command, ArgumentsFault>
    requires some { map string_bytes words.now ≢ [] }
    requires taken { fault_of commands (map string_bytes words.now) ≡ [] }
    requires named { subcommand_of commands (map string_bytes words.now)
        ≡ Some (name.now, rows_of (found_of values.now)) }
    ensures ok { IfOk result (AsksFor (map string_bytes words.now)) }
    ensures room { IfOk result HasRoom }
    ensures words { result ≡ Err ArgumentsFault.Words → (job : Command) → ¬ AsksFor (map string_bytes words.now) job }
{
    match name {
        "wire" => wire_job(alloc, values),
        "check" => check_job(alloc, values),
        "run" => run_job(alloc, values),
        "picture" => picture_job(alloc, values),
        "bounds" => bounds_job(alloc, values),
        "net" => network_job(alloc, values),
        _ => Err(ArgumentsFault::Words),
    }
}

/// Returns the command `wire` with the values that `clap` found. Fails with `Words` for a wrong speed or capacity. `job_by_command` calls
/// it.
fn wire_job(alloc: Global, values: &ArgMatches) -> Result<Command, ArgumentsFault>
    ensures ok { IfOk result (IsWireJob (rows_of (found_of values.now))) }
    ensures room { IfOk result HasRoom }
    ensures words { result ≡ Err ArgumentsFault.Words → (speed : Speed) (room : ℕ) (input output : Text)
        → ¬ AsksForWire (rows_of (found_of values.now)) speed room input output }
{
    let Some(mbps) = argument_value(values, "mbps") else {
        return Err(ArgumentsFault::Words);
    };
    let Some(speed) = parse_speed(mbps) else {
        return Err(ArgumentsFault::Words);
    };
    let Some(places) = argument_value(values, "room") else {
        return Err(ArgumentsFault::Words);
    };
    let Some(room) = parse_room(places) else {
        return Err(ArgumentsFault::Words);
    };
    let input = match required_text(alloc, values, "input") {
        Ok(input) => input,
        Err(fault) => return Err(fault),
    };
    let output = match required_text(alloc, values, "output") {
        Ok(output) => output,
        Err(fault) => return Err(fault),
    };
    Ok(Command::Wire {
        speed,
        room,
        input,
        output,
    })
}

/// Returns the command `check` with the values that `clap` found. Fails with `Words` if the arguments request no valid command, or with
/// `NoMemory`. `job_by_command` calls it.
fn check_job(alloc: Global, values: &ArgMatches) -> Result<Command, ArgumentsFault>
    ensures ok { IfOk result (IsCheckJob (rows_of (found_of values.now))) }
    ensures room { IfOk result HasRoom }
    ensures words { result ≡ Err ArgumentsFault.Words → (plan : Text)
        → ¬ AsksForCheck (rows_of (found_of values.now)) plan }
{
    match required_text(alloc, values, "plan") {
        Ok(plan) => Ok(Command::Check { plan }),
        Err(fault) => Err(fault),
    }
}

/// Returns the command `run` with the values that `clap` found. Fails with `Words` if the arguments request no valid command, or with
/// `NoMemory`. `job_by_command` calls it.
fn run_job(alloc: Global, values: &ArgMatches) -> Result<Command, ArgumentsFault>
    ensures ok { IfOk result (IsRunJob (rows_of (found_of values.now))) }
    ensures room { IfOk result HasRoom }
    ensures words { result ≡ Err ArgumentsFault.Words → (plan input output : Text) (commands : Option Text)
        → ¬ AsksForRun (rows_of (found_of values.now)) plan input output commands }
{
    let plan = match required_text(alloc, values, "plan") {
        Ok(plan) => plan,
        Err(fault) => return Err(fault),
    };
    let input = match required_text(alloc, values, "input") {
        Ok(input) => input,
        Err(fault) => return Err(fault),
    };
    let output = match required_text(alloc, values, "output") {
        Ok(output) => output,
        Err(fault) => return Err(fault),
    };
    let commands = match optional_text(alloc, values, "commands") {
        Ok(commands) => commands,
        Err(fault) => return Err(fault),
    };
    Ok(Command::Run {
        plan,
        input,
        output,
        commands,
    })
}

/// Returns the command `picture` with the values that `clap` found. Fails with `Words` if the arguments request no valid command, or with
/// `NoMemory`. `job_by_command` calls it.
fn picture_job(alloc: Global, values: &ArgMatches) -> Result<Command, ArgumentsFault>
    ensures ok { IfOk result (IsPictureJob (rows_of (found_of values.now))) }
    ensures room { IfOk result HasRoom }
    ensures words { result ≡ Err ArgumentsFault.Words → (plan file : Text)
        → ¬ AsksForPicture (rows_of (found_of values.now)) plan file }
{
    let plan = match required_text(alloc, values, "plan") {
        Ok(plan) => plan,
        Err(fault) => return Err(fault),
    };
    let file = match required_text(alloc, values, "file") {
        Ok(file) => file,
        Err(fault) => return Err(fault),
    };
    Ok(Command::Picture { plan, file })
}

/// Returns the command `bounds` with the values that `clap` found. Fails with `Words` if the arguments request no valid command, or with
/// `NoMemory`. `job_by_command` calls it.
fn bounds_job(alloc: Global, values: &ArgMatches) -> Result<Command, ArgumentsFault>
    ensures ok { IfOk result (IsBoundsJob (rows_of (found_of values.now))) }
    ensures room { IfOk result HasRoom }
    ensures words { result ≡ Err ArgumentsFault.Words → (plan : Text) (traffic : Option Text)
        → ¬ AsksForBounds (rows_of (found_of values.now)) plan traffic }
{
    let plan = match required_text(alloc, values, "plan") {
        Ok(plan) => plan,
        Err(fault) => return Err(fault),
    };
    let traffic = match optional_text(alloc, values, "traffic") {
        Ok(traffic) => traffic,
        Err(fault) => return Err(fault),
    };
    Ok(Command::Bounds { plan, traffic })
}

/// Returns the command `net` with the values that `clap` found: a network run if there are three arguments, otherwise a check. Fails with
/// `Words` if the arguments request no valid command, or with `NoMemory`.
///
/// `job_by_command` calls it.
fn network_job(alloc: Global, values: &ArgMatches) -> Result<Command, ArgumentsFault>
    ensures ok { IfOk result (IsNetworkJob (rows_of (found_of values.now))) }
    ensures room { IfOk result HasRoom }
    ensures checks { result ≡ Err ArgumentsFault.Words → (network : Text)
        → ¬ AsksForNetwork (rows_of (found_of values.now)) network }
    ensures runs { result ≡ Err ArgumentsFault.Words → (network input output : Text) (picture : Option Text)
        → ¬ AsksForNetworkRun (rows_of (found_of values.now)) network input output picture }
{
    match argument_value(values, "output") {
        Some(to_folder) => network_run_job(alloc, values, to_folder),
        None => network_check_job(alloc, values),
    }
}

/// Returns the command `net check` with the values that `clap` found, which lack an output folder. Fails with `Words` if the first argument
/// isn't `check`, or if the arguments request a picture. `network_job` calls it.
fn network_check_job(alloc: Global, values: &ArgMatches) -> Result<Command, ArgumentsFault>
    requires { first_of (codes "output") (rows_of (found_of values.now)) ≡ None }
    ensures ok { IfOk result (IsNetworkJob (rows_of (found_of values.now))) }
    ensures room { IfOk result HasRoom }
    ensures words { result ≡ Err ArgumentsFault.Words → (network : Text)
        → ¬ AsksForNetwork (rows_of (found_of values.now)) network }
{
    let Some(task) = argument_value(values, "first") else {
        return Err(ArgumentsFault::Words);
    };
    if task != "check" {
        return Err(ArgumentsFault::Words);
    }
    if argument_value(values, "picture").is_some() {
        return Err(ArgumentsFault::Words);
    }
    match required_text(alloc, values, "second") {
        Ok(network) => Ok(Command::Network { network }),
        Err(fault) => Err(fault),
    }
}

/// Returns the command `net` with the values that `clap` found: a network run into the folder `to_folder`. Fails with `Words` if the
/// arguments request no valid command, or with `NoMemory`. `network_job` calls it.
fn network_run_job(
    alloc: Global,
    values: &ArgMatches,
    to_folder: &str,
) -> Result<Command, ArgumentsFault>
    requires { first_of (codes "output") (rows_of (found_of values.now)) ≡ Some to_folder.now }
    ensures ok { IfOk result (IsNetworkJob (rows_of (found_of values.now))) }
    ensures room { IfOk result HasRoom }
    ensures words { result ≡ Err ArgumentsFault.Words → (network input output : Text) (picture : Option Text)
        → ¬ AsksForNetworkRun (rows_of (found_of values.now)) network input output picture }
{
    let network = match required_text(alloc, values, "first") {
        Ok(network) => network,
        Err(fault) => return Err(fault),
    };
    let input = match required_text(alloc, values, "second") {
        Ok(input) => input,
        Err(fault) => return Err(fault),
    };
    let picture = match optional_text(alloc, values, "picture") {
        Ok(picture) => picture,
        Err(fault) => return Err(fault),
    };
    let Ok(output) = String::from_str(alloc, to_folder) else {
        return Err(ArgumentsFault::NoMemory);
    };
    Ok(Command::RunNetwork {
        network,
        input,
        output,
        picture,
    })
}

/// Returns the value that `clap` found for argument or option `name`, or `None` if it is absent. `wire_job`, `network_job` and 8 more call
/// it.
pub(crate) fn argument_value<'a>(values: &ArgMatches<'a>, name: &str) -> Option<&'a str>
    ensures { option_map (λ s. s.now) result ≡ first_of name.now (rows_of (found_of values.now)) }
{
    values.get_str(name)
}

/// Copies the value of argument `name`. Fails with `Words` if it is missing. `wire_job`, `check_job` and 5 more call it.
fn required_text(alloc: Global, values: &ArgMatches, name: &str) -> Result<String, ArgumentsFault>
    ensures value { IfOk result (λ t. first_of name.now (rows_of (found_of values.now)) ≡ Some (string_bytes t)) }
    ensures none { result ≡ Err ArgumentsFault.Words → first_of name.now (rows_of (found_of values.now)) ≡ None }
{
    let Some(word) = argument_value(values, name) else {
        return Err(ArgumentsFault::Words);
    };
    match String::from_str(alloc, word) {
        Ok(text) => Ok(text),
        Err(_) => Err(ArgumentsFault::NoMemory),
    }
}

/// Copies the value of argument `name`. Returns `None` if it is absent. Fails only if memory runs out. `run_job`, `bounds_job` and 3 more
/// call it.
pub(crate) fn optional_text(
    alloc: Global,
    values: &ArgMatches,
    name: &str,
) -> Result<Option<String>, ArgumentsFault>
    ensures value { IfOk result (λ t. first_of name.now (rows_of (found_of values.now)) ≡ option_map string_bytes t) }
    ensures memory { IfErr result (λ fault. fault ≡ ArgumentsFault.NoMemory) }
{
    let Some(word) = argument_value(values, name) else {
        return Ok(None);
    };
    match String::from_str(alloc, word) {
        Ok(text) => Ok(Some(text)),
        Err(_) => Err(ArgumentsFault::NoMemory),
    }
}

/// Returns the fault of arguments that `clap` refuses: `NoMemory` if memory ran out, otherwise `Words`. `parse_request`
/// calls it.
pub(crate) fn argument_fault(error: &Error) -> ArgumentsFault
    ensures { result ≡ fault_of_kind (kind_of error.now) }
{
    match error.kind() {
        ErrorKind::OutOfMemory => ArgumentsFault::NoMemory,
        _ => ArgumentsFault::Words,
    }
}
