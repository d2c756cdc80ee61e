//! Runs a bridge with sources and sinks that fail after each number of octets, and with writers of limited capacity.

use crate::case::Case;
use crate::line_output::{LineOutput, NO_MEMORY, add};
use crate::reading::{parse_number, split_first_word};
use crate::reports::zero_octets;
use crate::run_forms::{
    FORMS, Form, Moves, port_sinks, run_into_sinks, run_over_writers, sink_octets, vec_of_three,
};
use bridge_capture::VecSink;
use bridge_check::Accepted;
use std::alloc::Global;

/// Returns the outputs of the whole run.
pub fn whole_outputs(
    said: &mut LineOutput,
    accepted: &Accepted<Global>,
    case: &Case,
) -> [VecSink<Global>; 3] {
    let (alloc, moves) = (said.alloc, Moves::AtOnce);
    let mut sinks = port_sinks(alloc, moves);
    let ended = run_into_sinks(alloc, said, accepted, case, Form::Plain, moves, &mut sinks);
    drop(ended);
    sinks
}

/// Whether each capture is a prefix of the whole capture of its port.
pub fn are_prefixes(fronts: [&[u8]; 3], whole: [&[u8]; 3]) -> bool {
    for (front, octets) in fronts.iter().zip(&whole) {
        if !octets.starts_with(front) {
            return false;
        }
    }
    true
}

/// Returns the octets of a port's capture.
fn capture_of_port(all: [&[u8]; 3], port: u64) -> &[u8] {
    let [first, second, third] = all;
    match port {
        1 => first,
        2 => second,
        _ => third,
    }
}

/// Returns how a run with a failing source or sink ends, and the number of octets that left each port.
fn failing_result(
    said: &mut LineOutput,
    accepted: &Accepted<Global>,
    case: &Case,
    form: Form,
    moves: Moves,
    whole: [&[u8]; 3],
) -> String {
    let alloc = said.alloc;
    let mut sinks = port_sinks(alloc, moves);
    let fault = run_into_sinks(alloc, said, accepted, case, form, moves, &mut sinks).err();
    let [first, second, third] = sink_octets(&sinks);
    if !are_prefixes([first, second, third], whole) {
        said.stop("other octets than the whole run leaves");
    }
    let (first, second, third) = (first.len(), second.len(), third.len());
    said.piece_or_stop(format!(in alloc; "{fault:?}, left {first} {second} {third}"))
}

/// Adds how a run with a failing source or sink ends, and the calls by which it ends differently.
fn put_failing(
    said: &mut LineOutput,
    accepted: &Accepted<Global>,
    case: &Case,
    moves: Moves,
    whole: [&[u8]; 3],
) {
    let first = failing_result(said, accepted, case, Form::Plain, moves, whole);
    said.text.put_template("{a}\n", &[], &[first.as_str()]);
    for (form, way) in FORMS {
        let seen = failing_result(said, accepted, case, *form, moves, whole);
        said.compare(seen.as_str() == first.as_str(), way, "");
    }
}

/// Adds how runs end whose source or sink fails after each number of octets, from 0: `source PORT` or `sink PORT`.
pub fn put_failures(said: &mut LineOutput, accepted: &Accepted<Global>, case: &Case, rest: &str) {
    let (what, port) = split_first_word(rest);
    let port = parse_number(said, port);
    let sinks = whole_outputs(said, accepted, case);
    let whole = sink_octets(&sinks);
    if what == "source" {
        for count in 0..=capture_of_port(case.texts(), port).len() {
            let moves = Moves::UntilSource { port, count };
            put_failing(said, accepted, case, moves, whole);
        }
    } else {
        for count in 0..=capture_of_port(whole, port).len() {
            let moves = Moves::UntilSink { port, count };
            put_failing(said, accepted, case, moves, whole);
        }
    }
}

/// Adds how a run into `writers` ends, and the number of writers that it returns.
fn put_stop(
    said: &mut LineOutput,
    accepted: &Accepted<Global>,
    case: &Case,
    writers: Vec<&mut [u8]>,
) {
    let alloc = said.alloc;
    let [first, second, third] = case.texts();
    let Ok(readers) = vec_of_three(alloc, first, second, third) else {
        return said.stop(NO_MEMORY);
    };
    match run_over_writers(alloc, said, accepted, case, readers, writers) {
        Ok(_) => said.text.put("whole\n"),
        Err(halted) => {
            let (fault, back) = (halted.fault, halted.writers.len());
            drop(halted);
            add(
                &mut said.text,
                format!(in alloc; "stops: {fault:?}, {back} writers come back\n"),
            );
        }
    }
}

/// Adds how a run ends into writers with these capacities in octets: `COUNT COUNT COUNT`.
pub fn put_rooms(said: &mut LineOutput, accepted: &Accepted<Global>, case: &Case, rest: &str) {
    let (first, rest) = split_first_word(rest);
    let (second, third) = split_first_word(rest);
    let (first, second, third) = (
        parse_number(said, first),
        parse_number(said, second),
        parse_number(said, third),
    );
    let mut first = zero_octets(said, first);
    let mut second = zero_octets(said, second);
    let mut third = zero_octets(said, third);
    let writers = vec_of_three(
        said.alloc,
        first.as_mut_slice(),
        second.as_mut_slice(),
        third.as_mut_slice(),
    );
    match writers {
        Ok(writers) => put_stop(said, accepted, case, writers),
        Err(_) => said.stop(NO_MEMORY),
    }
}
