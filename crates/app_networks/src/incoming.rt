//! Reading of the inputs of a network run: captures of open ports and commands, from a folder for each bridge.
ghost use Rattle.std.specs.Prelude.{◌≡◌, ℕ, List, IfErr, IfOk, length};
ghost use Rattle.bridge_config.specs.Commands.{AreCommands};
ghost use Rattle.net_run.specs.Rounds.{AreBridgeInputs};
ghost use Rattle.net_run.specs.BridgeRuns.{IsBridgeInput};
ghost use Rattle.app_failure.specs.Reading.{IsFileFault};
ghost use Rattle.app_files.specs.Paths.{capture_path};
ghost use Rattle.app_networks.specs.Folders.{AreInputsOfPlans, EndsBridge, EndsCommands, EndsReading};
ghost use Rattle.app_networks.specs.RunFiles.{IsOpenCapture, NamesFile};
ghost use Rattle.app_files.specs.declared.failed_file.Access.TheVariants.{Reading};

use crate::outputs::bridge_folder;
use crate::refusing::{bridge_commands_fault, bridge_name};
use app_failure::{Failure, file_failure};
use app_files::{MOST_TEXT, ReadFiles, capture_path};
use bridge_check::Accepted;
use bridge_config::{Command, commands_of};
use net_file::BridgeRow;
use net_model::{Link, Network};
use net_run::{BridgeInput, is_linked};
use std::alloc::Global;

/// Largest number of octets read from a capture: 1,000,001 records of the greatest length, one more than a capture may have.
const MOST_CAPTURE: u64 = 65_552_065_576;

/// Reads at most `most` octets of the file at `path`. Converts a file fault to the command's failure. `read_capture` and `read_commands`
/// call it.
fn read_file<F: ReadFiles>(files: &mut F, path: &str, most: u64) -> Result<Vec<u8>, Failure>
    ensures { IfErr result (IsFileFault Reading path.now) }
{
    match files.read(path, most) {
        Ok(octets) => Ok(octets),
        Err(fault) => Err(file_failure(fault)),
    }
}

/// Reads the capture of port `port` from a bridge's folder. Returns a failure if the file is missing. `read_captures` calls it.
fn read_capture<F: ReadFiles>(
    alloc: Global,
    files: &mut F,
    folder: &str,
    port: u8,
) -> Result<Vec<u8>, Failure>
    ensures { IfErr result (IsFileFault Reading (capture_path folder.now port)) }
{
    match capture_path(alloc, folder, port) {
        Ok(path) => read_file(files, path.as_str(), MOST_CAPTURE),
        Err(_) => Err(Failure::NoMemory),
    }
}

/// Returns a capture for each port of a bridge, by rising number: read from the folder for an open port, otherwise empty. Fails if a
/// capture can't be read. `read_bridge_input` calls it.
fn read_captures<F: ReadFiles>(
    alloc: Global,
    files: &mut F,
    links: &[Link],
    bridge: usize,
    ports: &[u8],
    folder: &str,
) -> Result<Vec<Vec<u8>>, Failure>
    ensures each { IfOk result (λ captures. length captures.items ≡ length ports.now) }
    ensures ends { IfErr result (NamesFile Reading (IsOpenCapture links.now bridge ports.now folder.now)) }
{
    let mut captures = Vec::new(alloc);
    for port in ports {
        let capture = if is_linked(links, bridge, *port) {
            Vec::new(alloc)
        } else {
            read_capture(alloc, files, folder, *port)?
        };
        if captures.push(capture).is_err() {
            return Err(Failure::NoMemory);
        }
    }
    Ok(captures)
}

/// Returns the commands in a text, which must suit the bridge's plan. A failure has the bridge's name `name`. `read_commands` calls it.
fn bridge_commands(
    alloc: Global,
    accepted: &Accepted<Global>,
    name: &str,
    text: &[u8],
) -> Result<Vec<Command>, Failure>
    ensures commands { IfOk result (λ commands. AreCommands accepted.now commands.items) }
    ensures ends { (folder : List ℕ) → IfErr result (EndsCommands accepted.now name.now folder) }
{
    match commands_of(alloc, alloc, text, accepted.plan()) {
        Ok(commands) => Ok(commands),
        Err(fault) => Err(bridge_commands_fault(alloc, name, fault)),
    }
}

/// Reads the commands in `folder`, the input folder of the bridge with name `name`. Returns an empty list if the folder has no file
/// `commands.toml`. Fails if the commands can't be read or are refused.
///
/// `read_bridge_input` calls it.
fn read_commands<F: ReadFiles>(
    alloc: Global,
    files: &mut F,
    accepted: &Accepted<Global>,
    name: &str,
    folder: &str,
) -> Result<Vec<Command>, Failure>
    ensures commands { IfOk result (λ commands. AreCommands accepted.now commands.items) }
    ensures ends { IfErr result (EndsCommands accepted.now name.now folder.now) }
{
    let Ok(path) = format!(in alloc; "{folder}/commands.toml") else {
        return Err(Failure::NoMemory);
    };
    if !files.is_there(path.as_str()) {
        return Ok(Vec::new(alloc));
    }
    let text = match read_file(files, path.as_str(), MOST_TEXT) {
        Ok(text) => text,
        Err(fault) => return Err(fault),
    };
    bridge_commands(alloc, accepted, name, &text)
}

/// Reads the input of a bridge from outside: captures of its open ports, and its commands. `place` has its name and folder. Fails if a file
/// can't be read or commands are refused.
///
/// `read_inputs_of_plans` calls it.
fn read_bridge_input<F: ReadFiles>(
    alloc: Global,
    files: &mut F,
    links: &[Link],
    bridge: usize,
    accepted: &Accepted<Global>,
    place: &Place<'_>,
) -> Result<BridgeInput<Global>, Failure>
    ensures came { IfOk result (IsBridgeInput accepted.now) }
    ensures ends { IfErr result (EndsBridge links.now bridge accepted.now place.now.name.now
        place.now.folder.now) }
{
    let Ok(ports) = accepted.plan().port_numbers(alloc) else {
        return Err(Failure::NoMemory);
    };
    let captures = read_captures(alloc, files, links, bridge, &ports, place.folder)?;
    let commands = read_commands(alloc, files, accepted, place.name, place.folder)?;
    Ok(BridgeInput { commands, captures })
}

/// Name of a bridge, which failures show, and its folder in the input.
#[derive(Clone, Copy)]
struct Place<'a> {
    /// Name of the bridge.
    name: &'a str,
    /// Folder of the bridge.
    folder: &'a str,
}

/// Reads the input of each bridge from its folder in `input`. Returns the first failure: by bridge, then by rising port, with the bridge's
/// commands last. `read_bridge_inputs` calls it.
fn read_inputs_of_plans<F: ReadFiles>(
    alloc: Global,
    files: &mut F,
    plans: &[Accepted<Global>],
    links: &[Link],
    bridges: &[BridgeRow<Global>],
    input: &str,
) -> Result<Vec<BridgeInput<Global>>, Failure>
    ensures came { IfOk result (λ all. AreInputsOfPlans plans.now all.items) }
    ensures ends { IfErr result (EndsReading links.now plans.now bridges.now input.now) }
{
    let mut all = Vec::new(alloc);
    for accepted in plans {
        let bridge = all.len();
        let name = bridge_name(bridges, bridge);
        let Ok(folder) = bridge_folder(alloc, input, name) else {
            return Err(Failure::NoMemory);
        };
        let place = Place {
            name,
            folder: folder.as_str(),
        };
        let came = read_bridge_input(alloc, files, links, bridge, accepted, &place)?;
        let Ok(()) = all.push(came) else {
            return Err(Failure::NoMemory);
        };
    }
    Ok(all)
}

/// Reads the captures and commands of each bridge of a network, from its folder in `input`. Fails if a file can't be read or commands are
/// refused. `open_run` calls it.
pub(crate) fn read_bridge_inputs<F: ReadFiles>(
    alloc: Global,
    files: &mut F,
    network: &Network<Global>,
    bridges: &[BridgeRow<Global>],
    input: &str,
) -> Result<Vec<BridgeInput<Global>>, Failure>
    ensures came { IfOk result (λ all. AreBridgeInputs network.now.plans all.items) }
    ensures ends { IfErr result (EndsReading network.now.links network.now.plans bridges.now input.now) }
{
    let all = read_inputs_of_plans(
        alloc,
        files,
        network.plans(),
        network.links(),
        bridges,
        input,
    )?;
    Ok(all)
}
