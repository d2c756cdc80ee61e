//! Prints the parts of a plan, and results of frames, octets and commands.

use crate::captures::split_at_mark;
use crate::text_pieces::{add, add_debug};
use bridge_capture::parse_octets;
use bridge_config::{Plan, commands_of, plan_of};
use bridge_gate::{GatePlan, Schedule};
use bridge_text::TextBuilder;
use std::alloc::Global;
use std::fmt::Debug;

/// Adds the parts of a plan, or results of the lines after `--`: commands, frames as `PORT VLAN ADDRESS`, or `octets` of a plan.
pub fn put_parts_case(alloc: Global, said: &mut TextBuilder<Global>, text: &str) {
    let (text, behind) = split_at_mark(text, "\n--\n");
    match plan_of(alloc, alloc, text.as_bytes()) {
        Ok(plan) => {
            put_plan_parts(alloc, said, &plan, behind);
            drop(plan);
        }
        Err(fault) => put_shape(alloc, said, &fault),
    }
}

/// Adds a value as its `Debug` writes it, and a line feed.
fn put_shape<T: Debug>(alloc: Global, said: &mut TextBuilder<Global>, value: &T) {
    add_debug(alloc, said, value);
    said.put("\n");
}

/// Adds the parts of a plan, or the results of the text after it.
fn put_plan_parts(
    alloc: Global,
    said: &mut TextBuilder<Global>,
    plan: &Plan<Global>,
    behind: &str,
) {
    if behind.starts_with("[[command]]") {
        put_commands(alloc, said, plan, behind.as_bytes());
    } else if behind.is_empty() {
        put_parts(alloc, said, plan);
    } else {
        for line in behind.lines() {
            put_line(alloc, said, plan, line);
        }
    }
}

/// Adds the commands that a text contains, or their fault.
fn put_commands(alloc: Global, said: &mut TextBuilder<Global>, plan: &Plan<Global>, text: &[u8]) {
    match commands_of(alloc, alloc, text, plan) {
        Ok(commands) => put_shape(alloc, said, &commands.as_slice()),
        Err(fault) => put_shape(alloc, said, &fault),
    }
}

/// Adds the parts of a plan.
fn put_parts(alloc: Global, said: &mut TextBuilder<Global>, plan: &Plan<Global>) {
    put_ports(alloc, said, plan);
    put_shape(alloc, said, &plan.vlans());
    put_shape(alloc, said, &plan.statics());
    put_shape(alloc, said, &plan.streams());
    for (number, gate) in plan.gates() {
        put_gate(said, *number, gate);
    }
    put_shape(alloc, said, &plan.meters());
    put_shape(alloc, said, &plan.filters());
}

/// Adds the ports of a plan, and whether the numbers 0, 1, 3 and 4 have a port.
fn put_ports(alloc: Global, said: &mut TextBuilder<Global>, plan: &Plan<Global>) {
    for port in plan.ports() {
        let numbers = (port.number, port.speed, port.vid, port.priority);
        put_shape(
            alloc,
            said,
            &(numbers, port.classes, port.rooms, port.list.is_some()),
        );
    }
    let (zero, first) = (plan.port(0).is_some(), plan.port(1).is_some());
    let (third, fourth) = (plan.port(3).is_some(), plan.port(4).is_some());
    put_shape(alloc, said, &(zero, first, third, fourth));
}

/// Returns a truth value as text.
fn boolean_word(holds: bool) -> &'static str {
    if holds { "true" } else { "false" }
}

/// Adds a stream gate of a plan.
fn put_gate(said: &mut TextBuilder<Global>, number: u32, gate: &GatePlan<Global>) {
    let (on_rx, on_octets) = (
        boolean_word(gate.shut_on_rx),
        boolean_word(gate.shut_on_octets),
    );
    let schedule = match gate.schedule {
        Schedule::Cyclic(_) => "by a list",
        Schedule::Fixed {
            lets: true,
            ipv: Some(0),
        } => "open, in class 0",
        Schedule::Fixed { .. } => "in another state",
        Schedule::Joined(_) => "by two lists",
    };
    said.put_template(
        "gate {0}: {a} {b} {c}\n",
        &[u64::from(number)],
        &[on_rx, on_octets, schedule],
    );
}

/// Adds a line after a plan, and its result.
fn put_line(alloc: Global, said: &mut TextBuilder<Global>, plan: &Plan<Global>, line: &str) {
    let (first, rest) = split_at_mark(line, " ");
    let (second, third) = split_at_mark(rest, " ");
    if first == "octets" {
        return put_octets(alloc, said, plan, second);
    }
    let port = first.parse::<u8>().unwrap_or(1).clamp(1, 16);
    let vid = second.parse::<u16>().unwrap_or(0);
    let ports = plan.forward(port, vid, &parse_address(alloc, third));
    said.put_template("{a}: ", &[], &[line]);
    add(said, format!(in alloc; "{:b}", ports.bits()));
    said.put_template(", port 2: {a}\n", &[], &[boolean_word(ports.has(2))]);
}

/// Returns the six octets of a hexadecimal text, or zeros if it has another number of octets.
fn parse_address(alloc: Global, word: &str) -> [u8; 6] {
    match parse_octets(alloc, word.as_bytes()) {
        Ok(octets) => match octets.as_slice() {
            [a, b, c, d, e, f] => [*a, *b, *c, *d, *e, *f],
            _ => [0; 6],
        },
        Err(_) => [0; 6],
    }
}

/// Adds the faults of octets that are read as a plan and as commands.
fn put_octets(alloc: Global, said: &mut TextBuilder<Global>, plan: &Plan<Global>, word: &str) {
    match parse_octets(alloc, word.as_bytes()) {
        Ok(octets) => {
            said.put_template("{a}: ", &[], &[word]);
            add_debug(alloc, said, &plan_of(alloc, alloc, &octets).err());
            said.put(", ");
            put_shape(alloc, said, &commands_of(alloc, alloc, &octets, plan).err());
        }
        Err(_) => said.put("no octets\n"),
    }
}
