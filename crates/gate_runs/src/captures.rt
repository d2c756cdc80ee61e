//! Makes captures of frames.

use crate::line_output::{LineOutput, NO_MEMORY};
use crate::reading::{find_named, parse_hex, parse_number, split_first_word};

/// Adds octets to a capture.
fn push(said: &mut LineOutput, text: &mut Vec<u8>, octets: &[u8]) {
    if text.extend_from_slice(octets).is_err() {
        said.stop(NO_MEMORY);
    }
}

/// Returns a capture without records.
pub fn header(said: &mut LineOutput) -> Vec<u8> {
    let mut text = Vec::new(said.alloc);
    push(
        said,
        &mut text,
        &[
            0x4d, 0x3c, 0xb2, 0xa1, 2, 0, 4, 0, 0, 0, 0, 0, 0, 0, 0, 0, 0xff, 0xff, 0, 0, 1, 0, 0,
            0,
        ],
    );
    text
}

/// Adds a record: time in ns, length of the frame in octets, and captured octets.
pub fn push_frame(said: &mut LineOutput, text: &mut Vec<u8>, at: u64, len: u64, octets: &[u8]) {
    let second = 1_000_000_000;
    for word in [at / second, at % second, octets.len() as u64, len] {
        let word = (word % 4_294_967_296) as u32;
        push(said, text, &word.to_le_bytes());
    }
    push(said, text, octets);
}

/// Adds a frame `MOMENT LENGTH HEAD`, or `COUNT` frames with `STEP` ns between them: `MOMENT LENGTH HEAD COUNT STEP`.
fn push_some(said: &mut LineOutput, names: &str, text: &mut Vec<u8>, frames: &str) {
    let (at, rest) = split_first_word(frames);
    let (len, rest) = split_first_word(rest);
    let (head, rest) = split_first_word(rest);
    let (count, step) = split_first_word(if rest.is_empty() { "1 0" } else { rest });
    let (at, len) = (parse_number(said, at), parse_number(said, len));
    let (count, step) = (parse_number(said, count), parse_number(said, step));
    let head = find_named(said, names, head);
    let octets = parse_hex(said, head);
    for n in 0..count {
        let at = at.saturating_add(n.saturating_mul(step));
        push_frame(said, text, at, len, &octets);
    }
}

/// Returns the capture of frames, which `, ` separates.
pub fn parse_capture(said: &mut LineOutput, names: &str, frames: &str) -> Vec<u8> {
    let mut text = header(said);
    for some in frames.split(", ").filter(|some| !some.is_empty()) {
        push_some(said, names, &mut text, some);
    }
    text
}
