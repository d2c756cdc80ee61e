//! Runs commands over files, and counts their allocations. Each allocation is refused in a run of its own.

use crate::case::expand_forms;
use crate::fault_lines::put_status;
use crate::growths::{count_growths, put_growths};
use crate::short_memory::{is_refused, put_refused};
use app_commands::wire_text;
use app_failure::{
    Failure, NoMemory, check_line, read_accepted_plan, read_commands_and_check, read_plan,
};
use bridge_check::Accepted;
use bridge_config::Command;
use bridge_text::TextBuilder;
use fixture_bridge::Ending;
use std::alloc::{Allocator, Global};

/// Result that shows a refused allocation.
const NO_MEMORY: &str = "no memory (status 3)\n";

/// Adds the output of a case's command, and the number of its allocations.
pub fn put_job_case(alloc: Global, said: &mut TextBuilder<Global>, heading: &str, lines: &str) {
    match expand_forms(alloc, said, lines) {
        Some(text) => put_with_growths(alloc, said, heading, text.as_str()),
        None => said.put("no case\n"),
    }
}

/// Adds the output of a command over a text, and the number of its allocations.
fn put_with_growths(alloc: Global, said: &mut TextBuilder<Global>, heading: &str, text: &str) {
    match job_output(alloc, alloc, heading, text) {
        Ok(whole) => {
            let whole = whole.as_str();
            said.put(whole);
            let growths = count_growths(
                alloc,
                |gate| job_ending_by_output(gate, alloc, heading, text, whole),
            );
            put_growths(said, growths);
            if heading.ends_with(", also without memory") {
                let refused = is_refused(
                    alloc,
                    || short_memory_ending(alloc, heading, text, whole),
                );
                put_refused(said, refused);
            }
        }
        Err(_) => said.discard(),
    }
}

/// Returns how a command ends with too little memory. Its output with enough memory is `whole`.
fn short_memory_ending(heap: Global, heading: &str, text: &str, whole: &str) -> Ending {
    match job_output(heap, heap, heading, text) {
        Ok(said) => Ending::from_flags(said.as_str() == whole, said.as_str() == NO_MEMORY),
        Err(NoMemory) => Ending::NoMemory,
    }
}

/// Returns how a command ends with the allocator `alloc`. Its output with enough memory is `whole`.
fn job_ending_by_output<A: Allocator + Copy>(
    alloc: A,
    heap: Global,
    heading: &str,
    text: &str,
    whole: &str,
) -> Ending {
    match job_output(alloc, heap, heading, text) {
        Ok(said) => Ending::from_flags(said.as_str() == whole, said.as_str() == NO_MEMORY),
        Err(_) => Ending::Wrong,
    }
}

/// Returns the output of a command: its text, or the fault line and the exit status.
fn job_output<A: Allocator + Copy>(
    alloc: A,
    heap: Global,
    heading: &str,
    text: &str,
) -> Result<String, NoMemory> {
    let mut said = TextBuilder::new(heap);
    match run_job(alloc, heap, heading, text) {
        Ok(printed) => said.put(printed.as_str()),
        Err(fault) => put_status(heap, &mut said, &fault),
    }
    said.finish()
}

/// Runs a command: `check` of a plan, `run` with commands, or sending a text. The heading gives the command.
fn run_job<A: Allocator + Copy>(
    alloc: A,
    heap: Global,
    heading: &str,
    text: &str,
) -> Result<String<A>, Failure> {
    if heading.starts_with("check") {
        accepted_line(
            alloc,
            read_accepted_plan(alloc, heap, "PLAN", text.as_bytes()),
        )
    } else if heading.starts_with("run") {
        parse_commands(alloc, heap, text)
    } else {
        match wire_text(alloc, text.as_bytes()) {
            Ok(lines) => Ok(lines),
            Err(fault) => Err(Failure::Text(fault)),
        }
    }
}

/// Returns the line of an accepted plan.
fn accepted_line<A: Allocator + Copy>(
    alloc: A,
    accepted: Result<Accepted<A>, Failure>,
) -> Result<String<A>, Failure> {
    match accepted {
        Ok(accepted) => {
            let line = check_line(alloc, &accepted);
            drop(accepted);
            Ok(line?)
        }
        Err(fault) => Err(fault),
    }
}

/// Reads a plan, and the commands after a line `--` if there is one, and returns the number of commands.
fn parse_commands<A: Allocator + Copy>(
    alloc: A,
    heap: Global,
    text: &str,
) -> Result<String<A>, Failure> {
    let (plan, file) = match text.split_once("\n--\n") {
        Some((plan, commands)) => (
            plan,
            Some((String::from_str(heap, "COMMANDS")?, commands.as_bytes())),
        ),
        None => (text, None),
    };
    match read_plan(alloc, heap, "PLAN", plan.as_bytes()) {
        Ok(plan) => count_commands(alloc, read_commands_and_check(alloc, heap, plan, file)),
        Err(fault) => Err(fault),
    }
}

/// Returns the number of commands, as a line.
fn count_commands<A: Allocator + Copy>(
    alloc: A,
    taken: Result<(Accepted<A>, Vec<Command, A>), Failure>,
) -> Result<String<A>, Failure> {
    match taken {
        Ok((accepted, commands)) => {
            drop(accepted);
            Ok(format!(in alloc; "{} commands\n", commands.len())?)
        }
        Err(fault) => Err(fault),
    }
}
