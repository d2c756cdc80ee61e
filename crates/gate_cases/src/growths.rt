//! Refuses the allocations of a call, one by one. The call must report that memory ran out, or succeed if no allocation was refused.

use app_commands::wire_line;
use app_failure::{Failure, NoMemory, fault_line};
use bridge_text::TextBuilder;
use bridge_wire::WireCount;
use fixture_bridge::{Ending, RefusesOne};
use std::alloc::{Allocator, Global};

/// Returns the number of a call's allocations. Repeats the call with each of them refused, and returns `None` if it ends in another way.
pub fn count_growths<F: FnMut(&RefusesOne<Global>) -> Ending>(
    alloc: Global,
    mut call: F,
) -> Option<u64>
    requires { F.IsAlwaysCallable call }
{
    for n in 1..100_000u64 {
        let gate = RefusesOne::new(alloc, n);
        let ended = (call(&gate), gate.has_refused());
        drop(gate);
        match ended {
            (Ending::NoMemory, true) => {}
            (Ending::Whole, false) => return Some(n - 1),
            _ => return None,
        }
    }
    None
}

/// Adds the number of refused allocations, or that a refused allocation was answered in another way.
pub fn put_growths(said: &mut TextBuilder<Global>, growths: Option<u64>) {
    match growths {
        Some(growths) => said.put_template("growths refused: {0}\n", &[growths], &[]),
        None => said.put("a refused growth is answered otherwise\n"),
    }
}

/// Returns how making the line and exit status of a fault ends.
fn line_ending<A: Allocator + Copy>(alloc: A, fault: &Failure, line: &str, status: u8) -> Ending {
    match fault_line(alloc, fault) {
        Ok((said, ended)) => Ending::from_flags(said.as_str() == line && ended == status, false),
        Err(NoMemory) => Ending::NoMemory,
    }
}

/// Returns the number of allocations of a fault's line.
pub fn count_line_growths(alloc: Global, fault: &Failure, line: &str, status: u8) -> Option<u64> {
    count_growths(alloc, |gate| line_ending(gate, fault, line, status))
}

/// Returns how making the line of counts ends.
fn count_ending<A: Allocator + Copy>(alloc: A, count: &WireCount, line: &str) -> Ending {
    match wire_line(alloc, count) {
        Ok(said) => Ending::from_flags(said.as_str() == line, false),
        Err(NoMemory) => Ending::NoMemory,
    }
}

/// Returns the number of allocations of the line of counts.
pub fn count_wire_line_growths(alloc: Global, count: &WireCount, line: &str) -> Option<u64> {
    count_growths(alloc, |gate| count_ending(gate, count, line))
}
