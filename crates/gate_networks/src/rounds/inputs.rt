//! Makes the inputs of a network's bridges from outside.
ghost use Rattle.std.specs.Prelude.{IfOk};
ghost use Rattle.bridge_config.specs.Commands.{AreCommands};
ghost use Rattle.net_run.specs.BridgeRuns.{IsBridgeInput};
ghost use Rattle.net_run.specs.Rounds.{AreBridgeInputs};
ghost use Rattle.gate_networks.specs.Coming.{AllIncoming};

use crate::random_numbers::RandomNumbers;
use crate::rounds::random_plan::commands_text;
use crate::rounds::traffic::{Damage, FrameSource, random_port_capture, spoil};
use bridge_check::Accepted;
use bridge_config::{Command, commands_of};
use bridge_limits::NoMemory;
use net_model::Link;
use net_run::{BridgeInput, is_linked};
use std::alloc::Global;

/// Inputs of a network from outside.
#[derive(Clone, Copy)]
pub struct NetworkCase {
    /// Seeds of the talker's frames and of all other inputs.
    pub talker: u64,
    pub others: u64,
    /// Greatest number of frames at a port other than the talker's.
    pub most: u32,
    /// Bridge whose capture at port 4 is damaged, and the damage.
    pub spoilt: Option<(u16, Damage)>,
}

/// Returns the random numbers of a port.
fn port_random_numbers(seed: u64, bridge: u16, port: u8) -> RandomNumbers {
    RandomNumbers::from_mixed_seed(
        seed.wrapping_mul(1_000)
            .wrapping_add(bridge as u64 * 20)
            .wrapping_add(port as u64),
    )
}

/// Returns the capture of an open port.
fn open_capture(
    alloc: Global,
    case: &NetworkCase,
    bridge: u16,
    port: u8,
) -> Result<Vec<u8>, NoMemory> {
    let talker = bridge == 0 && port == 4;
    let (seed, most) = if talker {
        (case.talker, 30)
    } else {
        (case.others, case.most)
    };
    let mut numbers = port_random_numbers(seed, bridge, port);
    let comer = FrameSource {
        bridge,
        port,
        talker,
        most,
    };
    let mut text = random_port_capture(alloc, &mut numbers, comer)?;
    if spoil_if_due(case, bridge, port, &mut text) {
        Ok(text)
    } else {
        Err(NoMemory)
    }
}

/// Damages the capture of a port if `case` asks for it, and returns whether memory sufficed.
fn spoil_if_due(case: &NetworkCase, bridge: u16, port: u8, text: &mut Vec<u8>) -> bool {
    match case.spoilt {
        Some((there, spoilt)) if there == bridge && port == 4 => spoil(text, spoilt),
        _ => true,
    }
}

/// Returns the capture of a port. For a linked port, it has no octets.
pub fn port_capture(
    alloc: Global,
    links: &[Link],
    case: &NetworkCase,
    bridge: u16,
    port: u8,
) -> Result<Vec<u8>, NoMemory> {
    if is_linked(links, bridge as usize, port) {
        return Ok(Vec::new(alloc));
    }
    open_capture(alloc, case, bridge, port)
}

/// Returns the captures of ports 1 to 4.
fn bridge_captures(
    alloc: Global,
    links: &[Link],
    case: &NetworkCase,
    bridge: u16,
) -> Result<Vec<Vec<u8>>, NoMemory> {
    let mut captures = Vec::new(alloc);
    for port in 1..5u8 {
        captures.push(port_capture(alloc, links, case, bridge, port)?)?;
    }
    Ok(captures)
}

/// Returns the commands of a bridge.
pub fn bridge_commands(
    alloc: Global,
    accepted: &Accepted<Global>,
    case: &NetworkCase,
    bridge: u16,
) -> Result<Vec<Command>, NoMemory>
    ensures { IfOk result (λ v. AreCommands accepted.now v.items) }
{
    let mut numbers = port_random_numbers(case.others, bridge, 9);
    let Ok(text) = commands_text(alloc, &mut numbers) else {
        return Err(NoMemory);
    };
    match commands_of(alloc, alloc, text.as_bytes(), accepted.plan()) {
        Ok(commands) => Ok(commands),
        Err(_) => Err(NoMemory),
    }
}

/// Returns the input of a bridge with four ports.
pub fn bridge_input(
    alloc: Global,
    links: &[Link],
    accepted: &Accepted<Global>,
    case: &NetworkCase,
    bridge: u16,
) -> Result<BridgeInput<Global>, NoMemory>
    ensures { IfOk result (IsBridgeInput accepted.now) }
{
    let commands = bridge_commands(alloc, accepted, case, bridge)?;
    let captures = bridge_captures(alloc, links, case, bridge)?;
    if captures.len() != accepted.plan().ports().len() {
        return Err(NoMemory);
    }
    Ok(BridgeInput { commands, captures })
}

/// Returns the input of each plan's bridge.
fn inputs_by_bridge(
    alloc: Global,
    plans: &[Accepted<Global>],
    links: &[Link],
    case: &NetworkCase,
) -> Result<Vec<BridgeInput<Global>>, NoMemory>
    ensures { IfOk result (λ all. AllIncoming plans.now all.items) }
{
    let mut all = Vec::new(alloc);
    let mut bridge = 0u16;
    for accepted in plans {
        let came = bridge_input(alloc, links, accepted, case, bridge)?;
        let Ok(()) = all.push(came) else {
            return Err(NoMemory);
        };
        bridge = bridge.saturating_add(1);
    }
    Ok(all)
}

/// Returns the inputs of all bridges, as a network run requires them.
pub fn network_inputs(
    alloc: Global,
    plans: &[Accepted<Global>],
    links: &[Link],
    case: &NetworkCase,
) -> Result<Vec<BridgeInput<Global>>, NoMemory>
    ensures { IfOk result (λ all. AreBridgeInputs plans.now all.items) }
{
    let all = inputs_by_bridge(alloc, plans, links, case)?;
    Ok(all)
}
