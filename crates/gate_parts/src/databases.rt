//! Asks the filtering database where frames go. In a set of ports, bit n - 1 stands for port n.

use crate::parts::{Part, ask_made, collect_parts};
use crate::words::{
    Fault, Output, first_word, has_line, number_or_max, parse_address, parse_number, show,
    split_first_line, tell, word_at_index,
};
use bridge_forward::{Forwarding, PortSet, StaticEntry, Vlan, laws};
use std::alloc::{AllocError, Allocator, Global};

/// Number of `static` entries that the line `many` makes.
const MANY: u16 = 4096;

/// Returns the 16-bit number at index `place` of a line, or 0 if there is none.
fn parse_short(line: &str, place: usize) -> u16 {
    parse_number(word_at_index(line, place)).unwrap_or(0)
}

/// Reads the VLAN of a line `vlan VLAN PORTS`.
fn parse_vlan(line: &str) -> Option<Vlan> {
    if first_word(line) != "vlan" {
        return None;
    }
    Some(Vlan {
        vid: parse_short(line, 1),
        members: PortSet::from_bits(parse_short(line, 2)),
    })
}

/// Reads the entry of a line `static VLAN ADDRESS PORTS`.
fn parse_static(line: &str) -> Option<StaticEntry> {
    if first_word(line) != "static" {
        return None;
    }
    Some(StaticEntry {
        vid: parse_short(line, 1),
        address: parse_address(word_at_index(line, 2)),
        ports: PortSet::from_bits(parse_short(line, 3)),
    })
}

/// Reads the entries of lines. A line `many` adds `MANY` entries.
fn parse_statics<A: Allocator>(alloc: A, lines: &str) -> Result<Vec<StaticEntry, A>, AllocError> {
    let mut statics = collect_parts(alloc, lines, '\n', parse_static)?;
    if has_line(lines, "many") {
        push_many(&mut statics)?;
    }
    Ok(statics)
}

/// Adds `MANY` entries of VLAN 10, each with another address.
fn push_many<A: Allocator>(statics: &mut Vec<StaticEntry, A>) -> Result<(), AllocError> {
    for number in 0..MANY {
        statics.push(StaticEntry {
            vid: 10,
            address: numbered_address(number),
            ports: PortSet::from_bits(port_bits(number)),
        })?;
    }
    Ok(())
}

fn numbered_address(number: u16) -> [u8; 6] {
    let [high, low] = number.to_be_bytes();
    [2, 0, 0, 0, high, low]
}

/// Returns port 2 for an even `number`, and port 16 for an odd one.
fn port_bits(number: u16) -> u16 {
    if number % 2 == 0 { 2 } else { 32_768 }
}

/// Makes the database of lines.
pub fn parse_database<A: Allocator + Copy>(alloc: A, lines: &str) -> Result<Forwarding<A>, Fault> {
    let vlans = collect_parts(alloc, lines, '\n', parse_vlan)?;
    let statics = parse_statics(alloc, lines)?;
    Ok(Forwarding::new(alloc, vlans, statics)?)
}

/// Makes a database, and asks it line by line.
pub fn database(said: &mut Output, text: &str) {
    let (head, lines) = split_first_line(text);
    ask_made(said, parse_database(said.alloc, lines), head, lines)
}

impl Part for Forwarding<Global> {
    fn ask(&mut self, said: &mut Output, line: &str) {
        match first_word(line) {
            "frame" => frame(said, self, line),
            "vlans" => tell(said, line, &self.vlans().len()),
            "statics" => tell(said, line, &self.statics().len()),
            "each" => tell(said, line, &count_found(self)),
            "laws" => name_laws(said, line),
            _ => show(said, line),
        }
    }
}

/// Adds the egress ports of a frame, and whether port 3 is among them: `frame PORT VLAN ADDRESS`.
fn frame(said: &mut Output, database: &Forwarding<Global>, line: &str) {
    let port = number_or_max(line, 1);
    if port < 1 || port > 16 {
        return tell(said, line, &Fault::NotAllowed);
    }
    let address = parse_address(word_at_index(line, 3));
    let ports = database.forward(port as u8, parse_short(line, 2), &address);
    tell(said, line, &(ports.bits(), ports.has(3)))
}

/// Returns for how many of `MANY` entries a frame goes to the entry's ports.
fn count_found(database: &Forwarding<Global>) -> u64 {
    let mut found = 0u64;
    for number in 0..MANY {
        let ports = database.forward(1, 10, &numbered_address(number));
        if ports.bits() == port_bits(number) {
            found = found.saturating_add(1);
        }
    }
    found
}

/// Names the laws of the database, to show that other crates can use them.
fn name_laws(said: &mut Output, line: &str) {
    laws::forward_is_port_rule();
    laws::outputs_are_members();
    laws::ingress_is_no_output();
    laws::no_vlan_no_outputs();
    laws::outputs_fit();
    said.text.put_template("{a} -> named\n", &[], &[line]);
}
