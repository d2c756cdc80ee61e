//! Writes reports to writers: after earlier contents, and with too little capacity.

use crate::case::Case;
use crate::line_output::{LineOutput, NO_MEMORY};
use crate::reading::{parse_number, split_first_word};
use crate::run_forms::{Form, Moves, port_sinks, run_into_sinks};
use bridge_check::Accepted;
use bridge_core::Outcome;
use bridge_report::{ReportFault, report, write_report};
use std::alloc::Global;

/// Contents of a writer before a report.
const BEFORE: &[u8] = &[1, 2, 3];

/// Adds the length of a run's report, whether it is appended to a writer's contents, and how reports end in limited writers: `FIRST LAST`.
pub fn reports(said: &mut LineOutput, accepted: &Accepted<Global>, case: &Case, rest: &str) {
    let (first, last) = split_first_word(rest);
    let (first, last) = (parse_number(said, first), parse_number(said, last));
    let (alloc, moves) = (said.alloc, Moves::AtOnce);
    let mut sinks = port_sinks(alloc, moves);
    let ended = run_into_sinks(alloc, said, accepted, case, Form::Plain, moves, &mut sinks);
    match &ended {
        Ok(outcome) => {
            put_appended_report(said, outcome);
            put_limited_reports(said, outcome, first, last);
        }
        Err(_) => said.stop("no report of a run that stops"),
    }
}

/// Adds the length of a run's report in octets, and whether it is appended to a writer's contents.
fn put_appended_report(said: &mut LineOutput, outcome: &Outcome<Global>) {
    let text = said.piece_or_stop(report(said.alloc, outcome));
    let word = if is_appended(said.alloc, outcome, text.as_bytes()) {
        "true"
    } else {
        "false"
    };
    let form = "{0} octets, behind what a writer holds: {a}\n";
    said.text.put_template(form, &[text.len() as u64], &[word]);
}

/// Whether the report of a run is appended to a writer's contents.
fn is_appended(alloc: Global, outcome: &Outcome<Global>, text: &[u8]) -> bool {
    let Ok(before) = Vec::from_slice(alloc, BEFORE) else {
        return false;
    };
    let Ok(written) = write_report(alloc, outcome, before) else {
        return false;
    };
    match written.strip_prefix(BEFORE) {
        Some(behind) => behind == text,
        None => false,
    }
}

/// Adds the numbers of failed and of whole reports into writers with capacities from `first` to `last` octets.
fn put_limited_reports(said: &mut LineOutput, outcome: &Outcome<Global>, first: u64, last: u64) {
    let (mut broken, mut whole) = (0u64, 0u64);
    for room in first..=last {
        let mut octets = zero_octets(said, room);
        match write_report(said.alloc, outcome, octets.as_mut_slice()) {
            Ok(_) => whole = whole.saturating_add(1),
            Err(ReportFault::Broken) => broken = broken.saturating_add(1),
            Err(ReportFault::NoMemory) => said.stop(NO_MEMORY),
        }
    }
    let form = "broken in {0} writers, whole in {1}\n";
    said.text.put_template(form, &[broken, whole], &[]);
}

/// Returns `count` zero octets.
pub fn zero_octets(said: &mut LineOutput, count: u64) -> Vec<u8> {
    let mut room = Vec::new(said.alloc);
    for _ in 0..count {
        if room.push(0u8).is_err() {
            said.stop(NO_MEMORY);
        }
    }
    room
}
