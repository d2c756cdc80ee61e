#![tactic(auto)]
//! Runs sessions of the program: scripts whose lines are commands, or show and change files.
//!
//! The arguments are paths of scripts. The program prints each line, then its output. An unknown line or a file error ends the run with
//! status 1.
//!
//! `$ WORDS` runs the command with these arguments, which single spaces separate. Lines of standard error begin with `! `. An exit status
//! other than 0 is printed last.

mod files;
mod pipes;
mod sections;

use app_cli::read_arguments;
use app_networks::{Output, perform};
use bridge_text::TextBuilder;
use files::{
    change, link_or_copy, pad, read_octets, show, show_first_lines, show_if_same, show_lengths,
    show_matching_lines, show_octets, split_pair,
};
use pipes::put_pipe;
use sections::compare;
use std::alloc::Global;
use std::fs;
use std::process::ExitCode;
use std::rt::{Clock, Env, Files};

fn main(rt: HostRuntime) -> ExitCode {
    ExitCode::from(if run(&rt) { 0 } else { 1 })
}

/// Plays the scripts that the arguments name, and returns whether all lines succeeded.
fn run<H: Input + AllocGlobal + Clock + Print + Eprint + Env + Files>(rt: &H) -> bool {
    let Ok(words) = read_arguments(rt) else {
        return false;
    };
    for path in &words {
        if !play(rt, path.as_str()) {
            return false;
        }
    }
    true
}

/// Plays a script line by line. If a line fails, prints it on standard error and returns false.
fn play<H: Input + AllocGlobal + Clock + Print + Eprint + Files>(rt: &H, path: &str) -> bool {
    let Ok(script) = fs::read_to_string(rt, path) else {
        return false;
    };
    for line in script.as_str().lines() {
        if !step(rt, line) {
            let _ = eprintln!(rt; "{path}: {line}");
            return false;
        }
    }
    true
}

/// Prints a line of a script, carries it out, and prints its output. Returns false if it fails.
fn step<H: Input + AllocGlobal + Clock + Print + Eprint + Files>(rt: &H, line: &str) -> bool {
    let is_begun = println!(rt; "{line}").is_ok();
    let mut said = TextBuilder::new(rt.alloc());
    let (word, rest) = line.split_once(' ').unwrap_or((line, ""));
    look(rt, &mut said, word, rest);
    match said.finish() {
        Ok(text) => is_begun & rt.print(text.as_str()).is_ok(),
        Err(_) => false,
    }
}

/// Carries out a line of a script, and adds its output to `said`.
fn look<H: Input + AllocGlobal + Clock + Print + Eprint + Files>(
    rt: &H,
    said: &mut TextBuilder<Global>,
    word: &str,
    rest: &str,
) {
    match word {
        "" | "#" => {}
        "$" => job(rt, said, rest),
        "show" => show(rt, said, rest),
        "first" => show_first_lines(rt, said, rest),
        "octets" => show_octets(rt, said, rest),
        "count" => show_lengths(rt, said, rest),
        "same" => show_if_same(rt, said, rest),
        "holding" => show_matching_lines(rt, said, rest),
        "compare" => compare(rt, said, rest),
        "folder" | "remove" => change(rt, said, word, rest),
        "link" | "copy" => link_or_copy(rt, said, word, rest),
        "pad" => pad(rt, said, rest),
        "pipe" => pipe(rt, said, rest),
        _ => said.discard(),
    }
}

/// Splits a line at its single spaces.
fn split_words(alloc: Global, said: &mut TextBuilder<Global>, line: &str) -> Vec<String> {
    let mut words = Vec::new(alloc);
    for word in line.split(' ') {
        let is_added = match String::from_str(alloc, word) {
            Ok(word) => words.push(word).is_ok(),
            Err(_) => false,
        };
        if !is_added {
            said.discard();
        }
    }
    words
}

/// Runs the command that `line` has as arguments, and adds its output.
fn job<H: Input + AllocGlobal + Clock + Print + Eprint + Files>(
    rt: &H,
    said: &mut TextBuilder<Global>,
    line: &str,
) {
    let words = split_words(rt.alloc(), said, line);
    match perform(rt, &words, false) {
        Ok(output) => tell(said, &output),
        Err(_) => said.discard(),
    }
}

/// Adds the output of a command: standard output, each line of standard error after `! `, and the exit status if it isn't 0.
fn tell(said: &mut TextBuilder<Global>, output: &Output) {
    said.put(output.stdout.as_str());
    for line in output.stderr.as_str().lines() {
        said.put_template("! {a}\n", &[], &[line]);
    }
    if output.status != 0 {
        said.put_template("status {0}\n", &[output.status as u64], &[]);
    }
}

/// Runs a command while `PATH` leads to a pipe that gives a file's contents once: `pipe FILE PATH WORDS`.
fn pipe<H: Input + AllocGlobal + Clock + Print + Eprint + Files>(
    rt: &H,
    said: &mut TextBuilder<Global>,
    rest: &str,
) {
    let (file, rest) = split_pair(said, rest);
    let (path, words) = split_pair(said, rest);
    let octets = read_octets(rt, said, file);
    let end = put_pipe(rt, said, &octets, path);
    job(rt, said, words);
    drop(end);
}
