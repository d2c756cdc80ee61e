#![tactic(auto)]
//! Plays worked examples of a bridge's parts. The arguments are paths of scripts, `measure` for the times of calls, or `few` for a few
//! calls.
//!
//! The first word of a paragraph names its part. Lines that define nothing ask the part. Any other line is printed unchanged.

mod benches;
mod consistency;
mod databases;
mod frames;
mod gates;
mod growths;
mod lists;
mod meters;
mod parts;
mod police;
mod ports;
mod streams;
mod words;

use bridge_text::TextBuilder;
use databases::database;
use frames::frames;
use gates::gate;
use growths::refuse;
use lists::lists;
use meters::meter;
use police::police;
use ports::port;
use std::alloc::Global;
use std::rt::{Clock, Env, Files};
use std::{env, fs, io};
use streams::streams;
use words::{Output, first_word, show, split_first_line};

fn main(rt: HostRuntime) -> io::Result<()> {
    run(&rt)
}

/// Carries out the arguments, one after the other.
fn run<H: AllocGlobal + Print + Clock + Env + Files>(rt: &H) -> io::Result<()> {
    for word in env::args(rt)?.skip(1) {
        run_argument(rt, word.as_str())?;
    }
    Ok(())
}

/// Plays the script of an argument, or measures calls.
fn run_argument<H: AllocGlobal + Print + Clock + Files>(rt: &H, word: &str) -> io::Result<()> {
    match word {
        "few" => print_measurements(rt, false),
        "measure" => print_measurements(rt, true),
        path => play(rt, path),
    }
}

/// Measures calls, and prints the times if `measures` is true.
fn print_measurements<H: AllocGlobal + Print + Clock>(rt: &H, measures: bool) -> io::Result<()> {
    let mut said = new_output(rt.alloc());
    match benches::measure(rt, &mut said, measures) {
        Ok(()) => print(rt, said, measures),
        Err(fault) => {
            drop(said);
            Err(fault)
        }
    }
}

/// Plays a script, and prints its output.
fn play<H: AllocGlobal + Print + Files>(rt: &H, path: &str) -> io::Result<()> {
    let script = fs::read_to_string(rt, path)?;
    let mut said = new_output(rt.alloc());
    play_paragraphs(&mut said, script.as_str());
    print(rt, said, true)
}

/// Returns an empty output.
fn new_output(alloc: Global) -> Output {
    Output {
        alloc,
        text: TextBuilder::new(alloc),
    }
}

/// Prints an output, if `is_wanted` is true.
fn print<H: Print>(rt: &H, said: Output, is_wanted: bool) -> io::Result<()> {
    match said.text.finish() {
        Ok(text) => {
            if is_wanted {
                rt.print(text.as_str())
            } else {
                Ok(())
            }
        }
        Err(_) => Err(io::Error::from(io::ErrorKind::OutOfMemory)),
    }
}

/// Plays a script, paragraph by paragraph.
fn play_paragraphs(said: &mut Output, script: &str) {
    for part in script.split("\n\n") {
        play_paragraph(said, part);
        show(said, "");
    }
}

/// Makes the part that a paragraph's first line names, and asks it.
fn play_paragraph(said: &mut Output, text: &str) {
    match first_word(split_first_line(text).0) {
        "list" => lists(said, text),
        "meter" => meter(said, text),
        "gate" => gate(said, text),
        "frames" => frames(said, text),
        "streams" => streams(said, text),
        "database" => database(said, text),
        "police" => police(said, text),
        "port" => port(said, text),
        "refuse" => refuse(said, text),
        _ => show(said, text),
    }
}
