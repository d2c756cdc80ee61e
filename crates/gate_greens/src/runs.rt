//! Runs one bridge over captures.
use bridge_capture::{RunFault, SliceSource, VecSink};
use bridge_check::Accepted;
use bridge_core::{Outcome, View, simulate};
use bridge_limits::NoMemory;
use std::alloc::Global;

/// Returns sources of captures. Refuses an empty capture, which stands for refused memory.
fn capture_sources<'a>(
    alloc: Global,
    captures: &'a [Vec<u8>],
) -> Result<Vec<SliceSource<'a>>, NoMemory> {
    let mut sources = Vec::new(alloc);
    for capture in captures {
        if capture.is_empty() || sources.push(SliceSource::new(capture)).is_err() {
            return Err(NoMemory);
        }
    }
    Ok(sources)
}

/// Returns `count` empty outputs.
fn empty_sinks(alloc: Global, count: usize) -> Result<Vec<VecSink<Global>>, NoMemory> {
    let mut sinks = Vec::new(alloc);
    for _ in 0..count {
        if sinks.push(VecSink::new(alloc)).is_err() {
            return Err(NoMemory);
        }
    }
    Ok(sinks)
}

/// Runs a bridge without commands, over captures by rising port number.
#[tactic(auto, using(crate::proofs::NoCommands::none))]
pub fn run_bridge(
    alloc: Global,
    accepted: &Accepted<Global>,
    captures: &[Vec<u8>],
) -> Result<Outcome<Global>, RunFault> {
    let Ok(mut sources) = capture_sources(alloc, captures) else {
        return Err(RunFault::NoMemory);
    };
    let Ok(mut taps) = empty_sinks(alloc, sources.len()) else {
        return Err(RunFault::NoMemory);
    };
    let count = accepted.plan().ports().len();
    if sources.len() != count || taps.len() != count {
        return Err(RunFault::NoMemory);
    }
    simulate(alloc, accepted, &[], &mut sources, &mut taps)
}

/// Returns the record of a filter.
pub fn filter_view(outcome: &Outcome<Global>, filter: u32) -> Option<&View<Global>> {
    for (number, view) in &outcome.filters {
        if *number == filter {
            return Some(view);
        }
    }
    None
}
