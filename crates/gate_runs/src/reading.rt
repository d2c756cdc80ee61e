//! Reads parts of a script's line.

use crate::line_output::LineOutput;
use bridge_capture::parse_octets;

/// Returns the first word of a text, and the text after its space.
pub fn split_first_word(text: &str) -> (&str, &str) {
    text.split_once(' ').unwrap_or((text, ""))
}

/// Reads a number. If `word` is none, the line fails and the result is 0.
pub fn parse_number(said: &mut LineOutput, word: &str) -> u64 {
    match word.parse::<u64>() {
        Ok(number) => number,
        Err(_) => {
            said.stop("no number");
            0
        }
    }
}

/// Reads octets in hexadecimal. If `word` isn't hexadecimal, the line fails and the result is empty.
pub fn parse_hex(said: &mut LineOutput, word: &str) -> Vec<u8> {
    match parse_octets(said.alloc, word.as_bytes()) {
        Ok(octets) => octets,
        Err(_) => {
            said.stop("no hexadecimals");
            Vec::new(said.alloc)
        }
    }
}

/// Returns the lines below `name` in the file of names. If the name is missing, the line fails.
pub fn find_named<'a>(said: &mut LineOutput, names: &'a str, name: &str) -> &'a str {
    for part in names.split("== ") {
        if let Some((first, rest)) = part.split_once(": ")
            && first == name
        {
            return rest.split_once('\n').unwrap_or((rest, "")).1;
        }
    }
    said.stop("no such name");
    ""
}
