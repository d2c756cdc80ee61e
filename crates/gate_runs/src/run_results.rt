//! Compares the results of a run in each way of making it.

use crate::captures::{header, push_frame};
use crate::case::Case;
use crate::line_output::LineOutput;
use crate::result_text::result_text;
use crate::run_forms::{
    FORMS, Form, MOVES, Moves, case_commands, port_sinks, run_into_sinks, run_with_growing_writers,
    sink_octets,
};
use bridge_check::Accepted;
use bridge_config::Command;
use bridge_core::{Agenda, Outcome, RowAgenda, RunFault, Sent, TreeAgenda};
use fixture_bridge::drive_bridge;
use std::alloc::Global;
use std::test::Fail;

/// Returns the result of a run from sources to sinks, as a text.
fn run_result(
    said: &mut LineOutput,
    accepted: &Accepted<Global>,
    case: &Case,
    form: Form,
    moves: Moves,
) -> String {
    let alloc = said.alloc;
    let mut sinks = port_sinks(alloc, moves);
    let ended = run_into_sinks(alloc, said, accepted, case, form, moves, &mut sinks);
    result_text(said, &ended, sink_octets(&sinks))
}

/// Returns the contents of three writers.
fn written_octets(writers: &[Vec<u8>]) -> [&[u8]; 3] {
    match writers {
        [first, second, third] => [first, second, third],
        _ => [&[], &[], &[]],
    }
}

/// Returns the result of a run from readers to writers, as a text.
fn readers_result(said: &mut LineOutput, accepted: &Accepted<Global>, case: &Case) -> String {
    match run_with_growing_writers(said.alloc, said, accepted, case) {
        Ok((outcome, written)) => result_text(said, &Ok(outcome), written_octets(&written)),
        Err(halted) => result_text(said, &Err(halted.fault), written_octets(&halted.writers)),
    }
}

/// Returns the capture of the frames that left `port`.
fn sent_capture(said: &mut LineOutput, gone: &[Sent<Global>], port: u8) -> Vec<u8> {
    let mut text = header(said);
    for sent in gone {
        if sent.port == port {
            push_frame(said, &mut text, sent.done, sent.len as u64, &sent.octets);
        }
    }
    text
}

/// Returns the result of a run with these sent frames, as a text.
fn sent_frames_result(
    said: &mut LineOutput,
    ended: &Result<Outcome<Global>, RunFault>,
    gone: &[Sent<Global>],
) -> String {
    let first = sent_capture(said, gone, 1);
    let second = sent_capture(said, gone, 2);
    let third = sent_capture(said, gone, 3);
    result_text(said, ended, [&first, &second, &third])
}

/// Returns the first command of a case, if any.
fn first_command(
    said: &mut LineOutput,
    accepted: &Accepted<Global>,
    case: &Case,
) -> Option<Command> {
    match case_commands(said, accepted, case) {
        Some(commands) => commands.first().copied(),
        None => None,
    }
}

/// Drives a bridge by single calls, with the agenda `G`. If the result differs, adds the way.
fn compare_driven<G: Agenda + Drop>(
    said: &mut LineOutput,
    accepted: &Accepted<Global>,
    case: &Case,
    first: &str,
    way: &str,
) -> Result<(), Fail> {
    let command = first_command(said, accepted, case);
    let (outcome, gone) = drive_bridge::<G>(said.alloc, accepted, command, case.texts())?;
    let seen = sent_frames_result(said, &Ok(outcome), &gone);
    said.compare(seen.as_str() == first, way, "");
    Ok(())
}

/// Runs a bridge by each call, at once and octet by octet, and from readers to writers. Adds the ways with a different result.
fn compare_runs(said: &mut LineOutput, accepted: &Accepted<Global>, case: &Case, first: &str) {
    for (form, way) in FORMS {
        for (moves, how) in MOVES {
            let seen = run_result(said, accepted, case, *form, *moves);
            said.compare(seen.as_str() == first, way, how);
        }
    }
    let over = readers_result(said, accepted, case);
    said.compare(over.as_str() == first, "readers to writers", "");
}

/// Runs a bridge in all ways, and adds the ways whose result differs from `first`.
fn compare_all(
    said: &mut LineOutput,
    accepted: &Accepted<Global>,
    case: &Case,
    first: &str,
) -> Result<(), Fail> {
    compare_runs(said, accepted, case, first);
    if first.starts_with("stops") {
        return Ok(());
    }
    compare_driven::<RowAgenda>(said, accepted, case, first, "single calls over a row")?;
    compare_driven::<TreeAgenda>(said, accepted, case, first, "single calls over a tree")
}

/// Returns the result of a run as a text, and adds the ways with a different result.
pub fn compared_result(
    said: &mut LineOutput,
    accepted: &Accepted<Global>,
    case: &Case,
) -> Result<String, Fail> {
    let first = run_result(said, accepted, case, Form::Plain, Moves::AtOnce);
    match compare_all(said, accepted, case, first.as_str()) {
        Ok(()) => Ok(first),
        Err(fail) => Err(fail),
    }
}
