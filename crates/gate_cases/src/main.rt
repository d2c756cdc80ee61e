#![tactic(auto)]
//! Judges files of cases, then prints explanations of files of cases. The arguments are the paths of both kinds of files, separated by
//! `told`.
//!
//! The README of `data` defines the form of cases.

mod bases;
mod captures;
mod case;
mod command_lines;
mod explained_faults;
mod explanation_cases;
mod explanations;
mod fault_lines;
mod growths;
mod hexadecimal;
mod job_cases;
mod judge;
mod networks;
mod outcome;
mod parts;
mod reading;
mod short_memory;
mod sinks;
mod sources;
mod text_pieces;

use app_cli::read_arguments;
use app_failure::{Failure, print_fault};
use explanations::print_all;
use judge::judge_files;
use std::process::ExitCode;
use std::rt::{Env, Files};

fn main(rt: HostRuntime) -> ExitCode {
    match run(&rt) {
        Ok(true) => ExitCode::from(0),
        Ok(false) => ExitCode::from(1),
        Err(fault) => print_fault(&rt, &fault),
    }
}

/// Judges the cases before the argument `told`, prints those after it, and returns whether all hold.
fn run(rt: &(impl AllocGlobal + Print + Env + Files)) -> Result<bool, Failure> {
    let Ok(words) = read_arguments(rt) else {
        return Err(Failure::Words);
    };
    let Some(place) = words.iter().position(|word| word.as_str() == "told") else {
        return Err(Failure::Words);
    };
    let (judges, tells) = words.split_at(place);
    let holds = judge_files(rt, judges)?;
    print_all(rt, tells.get(1..).unwrap_or(&[]))?;
    Ok(holds)
}
