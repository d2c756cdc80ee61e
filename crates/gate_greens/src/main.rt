#![tactic(auto)]
//! Tries to refute the words `passes`, `met` and `nowhere`, delays, bounds and capacities. Runs many random plans, groups and networks
//! over conforming and hostile frames.

mod frames;
mod groups;
mod networks;
mod numbers;
mod plans;
mod runs;

use app_failure::{Failure, print, print_fault};
use bridge_capture::RunFault;
use bridge_text::TextBuilder;
use std::alloc::Global;
use std::process::ExitCode;

fn main(rt: HostRuntime) -> ExitCode {
    match run(&rt) {
        Ok(true) => ExitCode::from(0),
        Ok(false) => ExitCode::from(1),
        Err(fault) => print_fault(&rt, &fault),
    }
}

/// Prints the counts, and returns whether no figure is refuted.
fn run(rt: &(impl AllocGlobal + Print)) -> Result<bool, Failure> {
    let mut said = TextBuilder::new(rt.alloc());
    let are_right = try_all(rt.alloc(), &mut said);
    print_said(rt, said)?;
    match are_right {
        Ok(are_right) => Ok(are_right),
        Err(fault) => Err(Failure::Run(fault)),
    }
}

/// Prints a text on standard output.
fn print_said(rt: &(impl AllocGlobal + Print), said: TextBuilder<Global>) -> Result<(), Failure> {
    match said.finish() {
        Ok(said) => print(rt, said.as_str()),
        Err(_) => Err(Failure::NoMemory),
    }
}

/// Tries plans, then groups, then networks.
fn try_all(alloc: Global, said: &mut TextBuilder<Global>) -> Result<bool, RunFault> {
    let are_plans_right = plans::run(alloc, said)?;
    let are_groups_right = groups::run(alloc, said)?;
    let are_networks_right = networks::run(alloc, said)?;
    Ok(are_plans_right && are_groups_right && are_networks_right)
}
