#![tactic(auto)]
//! Runs whole runs of a bridge: the run that docs/LIBRARY.md shows, then scripts whose lines set the plan and the inputs, and print results.
//!
//! The arguments are the paths of names and scripts; the README of `data` defines both. Each line is printed before its output. A failed
//! line ends the run with status 1.

mod captures;
mod case;
mod failures;
mod growths;
mod library;
mod line_output;
mod random_capture;
mod reading;
mod reports;
mod result_text;
mod run_forms;
mod run_results;
mod verbs;

use app_cli::read_arguments;
use case::Case;
use library::print_report_of_run;
use line_output::LineOutput;
use std::fs;
use std::rt::{Env, Files};
use std::test::Fail;
use verbs::step;

fn main(rt: HostRuntime) -> Result<(), Fail> {
    let Ok(()) = print_report_of_run(&rt) else {
        return Err(Fail::from("no report"));
    };
    run(&rt)
}

/// Plays the scripts of the arguments. The first argument is the file of names.
fn run(rt: &(impl AllocGlobal + Print + Env + Files)) -> Result<(), Fail> {
    let Ok(words) = read_arguments(rt) else {
        return Err(Fail::from("no words"));
    };
    let [names, scripts @ ..] = words.as_slice() else {
        return Err(Fail::from("no names"));
    };
    let names = fs::read_to_string(rt, names.as_str())?;
    play_all(rt, names.as_str(), scripts)
}

/// Plays scripts, one after the other.
fn play_all(
    rt: &(impl AllocGlobal + Print + Files),
    names: &str,
    scripts: &[String],
) -> Result<(), Fail> {
    for path in scripts {
        let script = fs::read_to_string(rt, path.as_str())?;
        play(rt, names, script.as_str())?;
    }
    Ok(())
}

/// Plays a script.
fn play(rt: &(impl AllocGlobal + Print), names: &str, script: &str) -> Result<(), Fail> {
    let mut said = LineOutput::new(rt.alloc());
    let mut case = Case::new(&mut said);
    play_lines(rt, &mut said, &mut case, names, script)
}

/// Plays a script line by line, and prints each line with its output.
fn play_lines(
    rt: &impl Print,
    said: &mut LineOutput,
    case: &mut Case,
    names: &str,
    script: &str,
) -> Result<(), Fail> {
    for line in script.lines() {
        said.text.put_template("{a}\n", &[], &[line]);
        let done = step(said, names, case, line);
        let why = said.print(rt);
        done?;
        if let Some(why) = why {
            return Err(Fail::from(why));
        }
    }
    Ok(())
}
