//! Asks for heads of frames, transmission times, and the drop eligible indication.

use crate::parts::{Part, ask_each, collect_parts};
use crate::words::{
    Fault, Output, first_word, parse_number, show, split_first_line, tell, u32_or_max,
    word_at_index,
};
use bridge_frame::{FrameFault, Head, Speed, mark_drop_eligible, occupation, parse};
use bridge_limits::MAX_CAPTURED_OCTETS;
use std::alloc::{AllocError, Global};

/// Returns the octets of a word, which commas separate.
fn parse_octets(alloc: Global, word: &str) -> Result<Vec<u8>, AllocError> {
    collect_parts(alloc, word, ',', parse_number)
}

/// The functions on frames, as a part without state.
#[derive(Drop)]
struct Asking;

impl Part for Asking {
    fn ask(&mut self, said: &mut Output, line: &str) {
        match first_word(line) {
            "occupation" => show_occupation(said, line),
            "speed" => tell(said, line, &Speed::of(u32_or_max(line, 1))),
            "head" => show_head(said, line),
            "mark" => show_mark(said, line),
            _ => show(said, line),
        }
    }
}

/// Asks the functions on frames line by line.
pub fn frames(said: &mut Output, text: &str) {
    let (head, lines) = split_first_line(text);
    show(said, head);
    ask_each(said, &mut Asking, lines)
}

/// Adds the transmission time of a frame in ns: `occupation OCTETS SPEED`.
fn show_occupation(said: &mut Output, line: &str) {
    match Speed::of(u32_or_max(line, 2)) {
        Some(speed) => tell(said, line, &occupation(u32_or_max(line, 1), speed)),
        None => tell(said, line, &Fault::NotAllowed),
    }
}

/// Adds the head of a frame: `head LENGTH OCTETS`.
fn show_head(said: &mut Output, line: &str) {
    let Ok(octets) = parse_octets(said.alloc, word_at_index(line, 2)) else {
        return said.text.discard();
    };
    tell(said, line, &parse_head(&octets, u32_or_max(line, 1)))
}

/// Reads the head of a frame. Returns `None` if it has more captured octets than `len` or the limit.
fn parse_head(octets: &[u8], len: u32) -> Option<Result<Head, FrameFault>> {
    if octets.len() <= MAX_CAPTURED_OCTETS as usize && octets.len() <= len as usize {
        Some(parse(octets, len))
    } else {
        None
    }
}

/// Adds whether a frame was marked, and its octets afterwards: `mark OCTETS`.
fn show_mark(said: &mut Output, line: &str) {
    let Ok(mut octets) = parse_octets(said.alloc, word_at_index(line, 1)) else {
        return said.text.discard();
    };
    let is_marked = mark_drop_eligible(&mut octets);
    tell(said, line, &(is_marked, octets.as_slice()))
}
