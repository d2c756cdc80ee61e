//! Failures of a network run, with the names of its bridges.
ghost use Rattle.std.specs.Prelude.{◌≡◌, IfOk, string_bytes};
ghost use Rattle.net_check.specs.Naming.{bridge_name};
ghost use Rattle.app_networks.specs.Folders.{IsCaptureLine, SaysCommands, IsStoppedRunFault, unsettled_line};

use app_failure::{Failure, fault_line};
use bridge_capture::RunFault;
use bridge_limits::NoMemory;
use bridge_schema::PlanFault;
use net_file::BridgeRow;
use net_run::RoundsFault;
use std::alloc::Global;

/// Exit status for refused commands. By it, `bridge_commands_fault` distinguishes them from memory that ran out.
const REFUSED_COMMANDS: u8 = 1;

/// Returns the command's failure for the refused commands of bridge `name`: a line with this name, then the commands' own fault line.
/// Returns `NoMemory` if memory ran out. `bridge_commands` calls it.
#[tactic(auto, unfolding(crate::specs::Folders::commands_lines))]
pub(crate) fn bridge_commands_fault(alloc: Global, name: &str, fault: PlanFault) -> Failure
    ensures { SaysCommands name.now fault result }
{
    let Ok((line, status)) = fault_line(alloc, &Failure::Commands(fault)) else {
        return Failure::NoMemory;
    };
    if status != REFUSED_COMMANDS {
        return Failure::NoMemory;
    }
    match format!(in alloc; "network refused: Commands {name}\n{line}") {
        Ok(line) => Failure::Network(line),
        Err(_) => Failure::NoMemory,
    }
}

/// Returns the name of the bridge with index `bridge`, from 0, or an empty text if it is missing. `read_inputs_of_plans`, `hop_prefix` and
/// 4 more call it.
pub(crate) fn bridge_name(bridges: &[BridgeRow<Global>], bridge: usize) -> &str
    ensures { result.now ≡ bridge_name bridges.now bridge }
{
    if bridge < bridges.len() {
        bridges[bridge].name()
    } else {
        ""
    }
}

/// Returns the fault line of a bridge's capture that stops its run: `capture BRIDGE.PORT` and the capture's fault. `run_failure` calls it.
fn capture_fault_line(alloc: Global, name: &str, fault: RunFault) -> Result<String, NoMemory>
    ensures { IfOk result (λ line. IsCaptureLine name.now fault (string_bytes line)) }
{
    let (line, _) = fault_line(alloc, &Failure::Run(fault))?;
    match line.as_str().strip_prefix("capture ") {
        Some(rest) => Ok(format!(in alloc; "capture {name}.{rest}")?),
        None => Ok(line),
    }
}

/// Returns the fault line of a network run whose inputs still change after the last allowed round. It names the bridge and port of the
/// first input that still changes. `run_failure` calls it.
fn unsettled_line(alloc: Global, name: &str, port: u8) -> Result<String, NoMemory>
    ensures { IfOk result (λ line. string_bytes line ≡ unsettled_line name.now port) }
{
    Ok(format!(in alloc; "network not settled {name}.{port}")?)
}

/// Returns the command's failure after a stopped network run: `Rounds` with its fault line, or `NoMemory`. The line names a bridge and a
/// port. `run_network_folders` calls it.
pub(crate) fn run_failure(
    alloc: Global,
    bridges: &[BridgeRow<Global>],
    fault: RoundsFault,
) -> Failure
    ensures { IsStoppedRunFault bridges.now fault result }
{
    let said = match fault {
        RoundsFault::Bridge { bridge, fault } => {
            capture_fault_line(alloc, bridge_name(bridges, bridge), fault)
        }
        RoundsFault::NotSettled { bridge, port } => {
            unsettled_line(alloc, bridge_name(bridges, bridge), port)
        }
        RoundsFault::NoMemory => return Failure::NoMemory,
    };
    match said {
        Ok(line) => Failure::Rounds(line),
        Err(_) => Failure::NoMemory,
    }
}

/// Returns the first lines of the explanation of a network run whose inputs still change after 64 rounds; the caller appends the loops.
/// Returns `None` for other fault lines. `explain_stopped_run` calls it.
pub fn explain_stopped(alloc: Global, line: &str) -> Option<String> {
    let rest = line.strip_prefix("network not settled ")?;
    format!(in alloc;
        "After 64 rounds the input of {rest} still changes. The plans allow these loops:\n"
    ).ok()
}
