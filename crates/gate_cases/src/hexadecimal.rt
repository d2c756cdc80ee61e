//! Prints the octets that a hexadecimal text spells.

use crate::text_pieces::add_debug;
use bridge_capture::{hex_lines, parse_octets};
use bridge_text::TextBuilder;
use std::alloc::{Allocator, Global};

/// Adds the number of octets that `text` spells, their sum and, up to 1,000 octets, their lines.
pub fn put_spelled<A: Allocator + Copy>(
    alloc: A,
    heap: Global,
    said: &mut TextBuilder<Global>,
    text: &[u8],
) {
    match parse_octets(alloc, text) {
        Ok(octets) => put_lines(alloc, said, &octets),
        Err(fault) => {
            said.put("no octets: ");
            add_debug(heap, said, &fault);
        }
    }
}

/// Adds the number of octets, their sum and, up to 1,000 octets, their lines, or that memory ran out for the lines.
fn put_lines<A: Allocator + Copy>(alloc: A, said: &mut TextBuilder<Global>, octets: &[u8]) {
    let count = octets.len() as u64;
    said.put_template("{0} octets, sum {1}", &[count, sum_octets(octets)], &[]);
    if count <= 1_000 {
        match hex_lines(alloc, octets) {
            Ok(lines) => {
                said.put("\n");
                said.put(lines.as_str());
            }
            Err(_) => said.put(", no lines"),
        }
    }
}

/// Returns the sum of octets.
fn sum_octets(octets: &[u8]) -> u64 {
    let mut sum = 0u64;
    for octet in octets {
        sum = sum.saturating_add(u64::from(*octet));
    }
    sum
}
