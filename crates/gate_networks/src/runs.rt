//! Runs a bridge over captures.
ghost use Rattle.bridge_config.specs.Commands.{AreCommands};

use bridge_capture::{RunFault, SliceSource, VecSink};
use bridge_check::Accepted;
use bridge_config::Command;
use bridge_core::{View, simulate};
use bridge_limits::NoMemory;
use net_run::BridgeResult;
use std::alloc::Global;

/// Returns sources of captures. Refuses an empty capture, which stands for refused memory.
fn capture_sources<'a>(
    alloc: Global,
    captures: &[&'a [u8]],
) -> Result<Vec<SliceSource<'a>>, NoMemory> {
    let mut sources = Vec::new(alloc);
    for capture in captures {
        if capture.is_empty() || sources.push(SliceSource::new(*capture)).is_err() {
            return Err(NoMemory);
        }
    }
    Ok(sources)
}

/// Returns `count` empty outputs.
fn empty_sinks(alloc: Global, count: usize) -> Result<Vec<VecSink<Global>>, NoMemory> {
    let mut sinks = Vec::new(alloc);
    for _ in 0..count {
        if sinks.push(VecSink::new(alloc)).is_err() {
            return Err(NoMemory);
        }
    }
    Ok(sinks)
}

/// Runs a bridge over commands, and captures by rising port number. An empty capture stands for refused memory.
pub fn run_captures(
    alloc: Global,
    accepted: &Accepted<Global>,
    commands: &[Command],
    captures: &[&[u8]],
) -> Result<BridgeResult<Global>, RunFault>
    requires { AreCommands accepted.now commands.now }
{
    let Ok(mut sources) = capture_sources(alloc, captures) else {
        return Err(RunFault::NoMemory);
    };
    let Ok(mut taps) = empty_sinks(alloc, sources.len()) else {
        return Err(RunFault::NoMemory);
    };
    let count = accepted.plan().ports().len();
    if sources.len() != count || taps.len() != count {
        return Err(RunFault::NoMemory);
    }
    match simulate(alloc, accepted, commands, &mut sources, &mut taps) {
        Ok(outcome) => Ok(BridgeResult { outcome, taps }),
        Err(fault) => Err(fault),
    }
}

/// Runs a bridge without commands, over captures by rising port number.
#[tactic(auto, using(crate::proofs::NoCommands::none))]
pub fn run_without_commands(
    alloc: Global,
    accepted: &Accepted<Global>,
    captures: &[&[u8]],
) -> Result<BridgeResult<Global>, RunFault> {
    run_captures(alloc, accepted, &[], captures)
}

/// Returns the capture of the frames that left `port`. Expects ports numbered from 1 without gaps.
pub fn sent_capture(ran: &BridgeResult<Global>, port: u8) -> &[u8] {
    match ran.taps.get((port as usize).saturating_sub(1)) {
        Some(tap) => tap.octets(),
        None => &[],
    }
}

/// Returns the record of a filter.
pub fn find_view(ran: &BridgeResult<Global>, filter: u32) -> Option<&View<Global>> {
    for (number, view) in &ran.outcome.filters {
        if *number == filter {
            return Some(view);
        }
    }
    None
}
