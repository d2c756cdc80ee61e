#![tactic(auto)]
//! Tests networks and bounds beyond their contracts. Generators draw plans and captures from fixed seeds, and runs are compared with bounds
//! or with other runs.

mod bounds;
mod captures;
mod pairs;
mod random_numbers;
mod rounds;
mod runs;

use app_failure::{Failure, print, print_fault};
use bridge_capture::RunFault;
use bridge_text::TextBuilder;
use std::alloc::Global;
use std::process::ExitCode;
use std::rt::Files;

fn main(rt: HostRuntime) -> ExitCode {
    match run(&rt) {
        Ok(true) => ExitCode::from(0),
        Ok(false) => ExitCode::from(1),
        Err(fault) => print_fault(&rt, &fault),
    }
}

/// Prints the report, even after a fault, and returns whether all results are right.
fn run(rt: &(impl AllocGlobal + Print + Files)) -> Result<bool, Failure> {
    let mut said = TextBuilder::new(rt.alloc());
    let are_so = report_all(rt, &mut said);
    print_report(rt, said)?;
    are_so
}

/// Prints a text on standard output.
fn print_report(rt: &(impl AllocGlobal + Print), said: TextBuilder<Global>) -> Result<(), Failure> {
    match said.finish() {
        Ok(said) => print(rt, said.as_str()),
        Err(_) => Err(Failure::NoMemory),
    }
}

/// Reports pairs of bridges, runs of networks, and bounds, and returns whether all results are right.
fn report_all(
    rt: &(impl AllocGlobal + Files),
    said: &mut TextBuilder<Global>,
) -> Result<bool, Failure> {
    let are_pairs_so = run_result(pairs::run(rt.alloc(), said))?;
    let are_rounds_so = run_result(rounds::run(rt.alloc(), said))?;
    let are_bounds_so = bounds::run(rt, said)?;
    Ok(are_pairs_so && are_rounds_so && are_bounds_so)
}

/// Returns the result, or the run's fault as a fault of the program.
fn run_result(told: Result<bool, RunFault>) -> Result<bool, Failure> {
    match told {
        Ok(are_so) => Ok(are_so),
        Err(fault) => Err(Failure::Run(fault)),
    }
}
