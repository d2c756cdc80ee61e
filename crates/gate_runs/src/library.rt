//! Checks a plan and runs a bridge in memory over one frame. docs/LIBRARY.md shows this file.

use app_failure::{Failure, accepted_plan, print};
use bridge_capture::{SliceSource, VecSink, parse_octets};
use bridge_check::Accepted;
use bridge_config::commands_of;
use bridge_core::{Outcome, RunFault, simulate};
use bridge_report::report;
use fixture_bridge::base::BASE;
use std::alloc::Global;

/// A capture of one frame of 60 octets, at 100,000 ns.
const FRAME: &str =
    "4d3cb2a1020004000000000000000000ffff00000100000000000000a0860100120000003c00000002000000000a0200000000018100000a88b5";
/// A capture without frames.
const SILENT: &str = "4d3cb2a1020004000000000000000000ffff000001000000";

/// Returns the octets of a capture in hexadecimal form.
fn capture(alloc: Global, hex: &str) -> Vec<u8> {
    match parse_octets(alloc, hex.as_bytes()) {
        Ok(octets) => octets,
        Err(_) => Vec::new(alloc),
    }
}

/// Runs the bridge over the captures of its three ports, without commands.
fn run(
    alloc: Global,
    accepted: &Accepted<Global>,
    sinks: &mut [VecSink<Global>],
) -> Result<Outcome<Global>, RunFault> {
    let Ok(commands) = commands_of(alloc, alloc, b"", accepted.plan()) else {
        return Err(RunFault::NoMemory);
    };
    let (frame, silent) = (capture(alloc, FRAME), capture(alloc, SILENT));
    let mut sources = [
        SliceSource::new(&frame),
        SliceSource::new(&silent),
        SliceSource::new(&silent),
    ];
    let ports = accepted.plan().ports().len();
    if ports != sources.len() || ports != sinks.len() {
        return Err(RunFault::NoMemory);
    }
    simulate(alloc, accepted, &commands, &mut sources, sinks)
}

/// Checks the plan, runs the bridge, and prints the report.
pub fn print_report_of_run(rt: &(impl AllocGlobal + Print)) -> Result<(), Failure> {
    let alloc = rt.alloc();
    let accepted = accepted_plan(alloc, alloc, BASE.as_bytes())?;
    let mut sinks = [
        VecSink::new(alloc),
        VecSink::new(alloc),
        VecSink::new(alloc),
    ];
    match run(alloc, &accepted, &mut sinks) {
        Ok(outcome) => match report(alloc, &outcome) {
            Ok(text) => print(rt, text.as_str()),
            Err(_) => Err(Failure::NoMemory),
        },
        Err(fault) => Err(Failure::Run(fault)),
    }
}
