//! Refuses the allocations that make a part, one by one.

use crate::databases::parse_database;
use crate::gates::parse_gate_plan;
use crate::lists::parse_lists;
use crate::police::parse_police;
use crate::ports::parse_port;
use crate::streams::parse_table;
use crate::words::{Fault, Output, first_word, show, split_first_line, tell};
use fixture_bridge::{Ending, RefusesOne};
use std::alloc::Allocator;

/// Greatest number of allocations tried. A part makes fewer.
const NEVER: u64 = 100_000;

/// Returns how making a value ended, and drops the value.
fn value_ending<T: Drop>(made: Result<T, Fault>) -> Ending {
    match made {
        Ok(value) => {
            drop(value);
            Ending::Whole
        }
        Err(fault) => Ending::from_flags(false, fault == Fault::NoMemory),
    }
}

/// Makes the part of a paragraph, and returns how that ended.
fn part_ending<A: Allocator + Copy>(alloc: A, text: &str) -> Ending {
    let (head, lines) = split_first_line(text);
    match first_word(head) {
        "list" => value_ending(parse_lists(alloc, head)),
        "gate" => value_ending(parse_gate_plan(alloc, head)),
        "streams" => value_ending(parse_table(alloc, lines, true)),
        "database" => value_ending(parse_database(alloc, lines)),
        "police" => value_ending(parse_police(alloc, lines)),
        "port" => value_ending(parse_port(alloc, head)),
        _ => Ending::Wrong,
    }
}

/// Makes the part after the first line repeatedly, each time with another allocation refused. Adds the number of its allocations, or the
/// allocation with a wrong ending.
pub fn refuse(said: &mut Output, text: &str) {
    let (line, part) = split_first_line(text);
    for n in 1..NEVER {
        let gate = RefusesOne::new(said.alloc, n);
        let ending = part_ending(&gate, part);
        match (ending, gate.has_refused()) {
            (Ending::Whole, false) => {
                tell(said, line, &(n - 1));
                break;
            }
            (Ending::NoMemory, true) => {}
            (ending, refused) => {
                tell(said, line, &(n, ending, refused));
                break;
            }
        }
    }
    show(said, part);
}
