//! Asks stream gates for answers, flags and octets.

use crate::parts::{Part, ask_made, collect_parts};
use crate::words::{
    Fault, Output, first_word, has_word, number_by_name, number_or_max, parse_number, show,
    split_first_line, tell, u32_or_max,
};
use bridge_cycle::CyclicList;
use bridge_gate::{GateEntry, GatePlan, Schedule, StreamGate};
use bridge_limits::END_OF_TIME;
use std::alloc::{Allocator, Global};
use std::str::FromStr;

/// Returns the number at index `place` of parts, which commas separate.
fn parse_part<N: FromStr>(parts: &str, place: usize) -> Option<N>
where
    N::Err: Drop,
{
    match parts.split(',').nth(place) {
        Some(part) => parse_number(part),
        None => None,
    }
}

/// Reads an entry `shut:INTERVAL`, `open:INTERVAL`, `open,PRIORITY:INTERVAL` or `open,PRIORITY,OCTETS:INTERVAL`.
fn parse_gate_entry(word: &str) -> Option<(GateEntry, u64)> {
    let (state, interval) = word.split_once(':')?;
    let entry = GateEntry {
        lets: state.starts_with("open"),
        ipv: parse_part(state, 1),
        octets: parse_part(state, 2),
    };
    Some((entry, parse_number(interval)?))
}

/// Reads the schedule of a line: `fixed open ipv NUMBER`, or a list with base time 0.
fn parse_schedule<A: Allocator + Copy>(alloc: A, line: &str) -> Result<Schedule<A>, Fault> {
    if has_word(line, "fixed") {
        return Ok(Schedule::Fixed {
            lets: has_word(line, "open"),
            ipv: number_by_name(line, "ipv"),
        });
    }
    let cycle = number_by_name(line, "cycle").unwrap_or(0);
    let list = CyclicList::new(
        alloc,
        0,
        cycle,
        collect_parts(alloc, line, ' ', parse_gate_entry)?,
    )?;
    Ok(Schedule::Cyclic(list))
}

/// Reads the gate of a line. With the word `copied`, returns its copy.
pub fn parse_gate_plan<A: Allocator + Copy>(alloc: A, line: &str) -> Result<GatePlan<A>, Fault> {
    let plan = GatePlan {
        shut_on_rx: has_word(line, "shut_on_rx"),
        shut_on_octets: has_word(line, "shut_on_octets"),
        schedule: parse_schedule(alloc, line)?,
    };
    if !has_word(line, "copied") {
        return Ok(plan);
    }
    let copied = plan.copy(alloc);
    drop(plan);
    Ok(copied?)
}

/// Makes a stream gate, and asks it line by line.
pub fn gate(said: &mut Output, text: &str) {
    let (head, lines) = split_first_line(text);
    ask_made(said, parse_gate(said.alloc, head), head, lines)
}

/// Makes the stream gate of a line. Refuses invalid internal priorities.
fn parse_gate(alloc: Global, line: &str) -> Result<StreamGate<Global>, Fault> {
    let plan = parse_gate_plan(alloc, line)?;
    if !plan.schedule.has_valid_priorities() {
        drop(plan);
        return Err(Fault::NotAllowed);
    }
    Ok(StreamGate::new(plan))
}

impl Part for StreamGate<Global> {
    fn ask(&mut self, said: &mut Output, line: &str) {
        match first_word(line) {
            "frame" => frame(said, self, line),
            "earliest" => tell(said, line, &self.earliest()),
            "flags" => tell(said, line, &self.flags()),
            "clear" => clear(said, self, line),
            _ => show(said, line),
        }
    }
}

/// Adds the answer to a frame, and the earliest time of the next frame: `frame MOMENT OCTETS`.
fn frame(said: &mut Output, gate: &mut StreamGate<Global>, line: &str) {
    let t = number_or_max(line, 1);
    if t < gate.earliest() || t >= END_OF_TIME {
        return tell(said, line, &Fault::NotAllowed);
    }
    let answer = gate.ask(t, u32_or_max(line, 2));
    tell(said, line, &(answer, gate.earliest()))
}

/// Clears the flag that a line names: `rx`, or otherwise `octets`.
fn clear(said: &mut Output, gate: &mut StreamGate<Global>, line: &str) {
    if has_word(line, "rx") {
        gate.clear_rx();
    } else {
        gate.clear_octets();
    }
    show(said, line)
}
