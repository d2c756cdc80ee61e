//! Reads words and numbers of a line, and writes answers.

use bridge_cycle::ListFault;
use bridge_limits::NoMemory;
use bridge_text::TextBuilder;
use std::alloc::{AllocError, Global};
use std::fmt::Debug;
use std::str::{FromStr, Split};

/// Reason why a part isn't made or isn't asked.
#[derive(Clone, Copy, Debug, PartialEq, Eq)]
pub enum Fault {
    /// The list is refused.
    Refused(ListFault),
    /// A number is missing, or outside the range of the part.
    NotAllowed,
    /// Memory ran out.
    NoMemory,
}

impl From<AllocError> for Fault {
    fn from(_: AllocError) -> Fault {
        Fault::NoMemory
    }
}

impl From<NoMemory> for Fault {
    fn from(_: NoMemory) -> Fault {
        Fault::NoMemory
    }
}

impl From<ListFault> for Fault {
    fn from(fault: ListFault) -> Fault {
        match fault {
            ListFault::NoMemory => Fault::NoMemory,
            fault => Fault::Refused(fault),
        }
    }
}

/// Output of a script.
#[derive(Drop)]
pub struct Output {
    pub alloc: Global,
    pub text: TextBuilder<Global>,
}

/// Returns the first word of a line.
pub fn first_word(line: &str) -> &str {
    match line.split_once(' ') {
        Some((word, _)) => word,
        None => line,
    }
}

/// Returns the first line of a text, and the lines after it.
pub fn split_first_line(text: &str) -> (&str, &str) {
    match text.split_once('\n') {
        Some(parts) => parts,
        None => (text, ""),
    }
}

/// Whether a line has the word `name`.
pub fn has_word(line: &str, name: &str) -> bool {
    for word in line.split(' ') {
        if word == name {
            return true;
        }
    }
    false
}

/// Whether a text has the line `name`.
pub fn has_line(text: &str, name: &str) -> bool {
    for line in text.lines() {
        if line == name {
            return true;
        }
    }
    false
}

/// Returns the number after the word `name` of a line.
pub fn number_by_name<N: FromStr>(line: &str, name: &str) -> Option<N>
where
    N::Err: Drop,
{
    let mut is_next = false;
    for word in line.split(' ') {
        if is_next {
            return parse_number(word);
        }
        is_next = word == name;
    }
    None
}

/// Returns the word at index `place` of a line, from 0, or an empty text.
pub fn word_at_index(line: &str, place: usize) -> &str {
    match line.split(' ').nth(place) {
        Some(word) => word,
        None => "",
    }
}

/// Returns the number that a word is.
pub fn parse_number<N: FromStr>(word: &str) -> Option<N>
where
    N::Err: Drop,
{
    match word.parse::<N>() {
        Ok(number) => Some(number),
        Err(_) => None,
    }
}

/// Returns the number at index `place` of a line, or the greatest number, which no part accepts.
pub fn number_or_max(line: &str, place: usize) -> u64 {
    parse_number(word_at_index(line, place)).unwrap_or(u64::MAX)
}

/// Returns the 32-bit number at index `place` of a line, or the greatest number.
pub fn u32_or_max(line: &str, place: usize) -> u32 {
    parse_number(word_at_index(line, place)).unwrap_or(u32::MAX)
}

/// Returns the six octets of a word, which commas separate. A missing octet is 0.
pub fn parse_address(word: &str) -> [u8; 6] {
    let mut parts = word.split(',');
    [
        next_octet(&mut parts),
        next_octet(&mut parts),
        next_octet(&mut parts),
        next_octet(&mut parts),
        next_octet(&mut parts),
        next_octet(&mut parts),
    ]
}

fn next_octet(parts: &mut Split<'_, char>) -> u8 {
    match parts.next() {
        Some(part) => parse_number(part).unwrap_or(0),
        None => 0,
    }
}

/// Adds a line without answer.
pub fn show(said: &mut Output, line: &str) {
    said.text.put_template("{a}\n", &[], &[line]);
}

/// Adds a line with its answer or its fault.
pub fn answer<T: Debug + Drop>(said: &mut Output, line: &str, answer: Result<T, Fault>) {
    match answer {
        Ok(answer) => tell(said, line, &answer),
        Err(fault) => tell(said, line, &fault),
    }
}

/// Adds a line with its answer.
pub fn tell<T: Debug>(said: &mut Output, line: &str, answer: &T) {
    let alloc = said.alloc;
    match format!(in alloc; "{line} -> {answer:?}\n") {
        Ok(told) => said.text.put(told.as_str()),
        Err(_) => said.text.discard(),
    }
}
