//! Judges cases of captures: reads, sends and writes them, and spells octets. Cases can repeat for each number of octets, or with each
//! allocation refused.

use crate::case::expand_forms;
use crate::growths::{count_growths, put_growths};
use crate::hexadecimal::put_spelled;
use crate::sinks::put_writing;
use crate::sources::{put_reading, put_sending};
use app_failure::NoMemory;
use bridge_capture::{each_text_reads_one_way, parse_octets, written_is_read};
use bridge_text::TextBuilder;
use fixture_bridge::Ending;
use std::alloc::{Allocator, Global};

/// Results that show a refused allocation.
const REFUSED: &[&str] = &[
    "Err(NoMemory), ",
    "Err(Write { port: 1 }), ",
    "Err(Write), failed",
    "no buffer",
    "no octets: NoMemory",
    "no lines",
];

/// A case: words and octets.
#[derive(Clone, Copy)]
pub struct Row<'a> {
    /// Words of the heading, up to the first comma.
    pub words: &'a str,
    /// Octets to read, send or write.
    pub octets: &'a [u8],
    /// Octets that are to leave.
    pub wanted: &'a [u8],
    /// Number of octets after which a source or sink fails or a capture is cut, or of calls after which a writer fails.
    pub count: usize,
}

/// Returns the number after `name` in `words`, or `otherwise` if there is none.
pub fn number_after_word(words: &str, name: &str, otherwise: usize) -> usize {
    let (_, behind) = words.split_once(name).unwrap_or(("", ""));
    let (word, _) = behind.split_once(' ').unwrap_or((behind, ""));
    word.parse::<usize>().unwrap_or(otherwise)
}

/// Returns the first `count` octets, or all if there are fewer.
pub fn prefix(octets: &[u8], count: usize) -> &[u8] {
    octets.get(..count).unwrap_or(octets)
}

/// Adds the result of a case by its heading.
pub fn put_capture_case(alloc: Global, said: &mut TextBuilder<Global>, heading: &str, lines: &str) {
    written_is_read();
    each_text_reads_one_way();
    let words = split_at_mark(heading, ",").0;
    match expand_forms(alloc, said, lines) {
        Some(text) => put_text_case(alloc, said, words, text.as_str()),
        None => said.put("no case\n"),
    }
}

/// Returns the text before and after `mark`. If there is no mark, the second text is empty.
pub fn split_at_mark<'a>(text: &'a str, mark: &str) -> (&'a str, &'a str) {
    text.split_once(mark).unwrap_or((text, ""))
}

/// Adds the result of a text to spell, or of a capture and the octets that are to leave.
fn put_text_case(alloc: Global, said: &mut TextBuilder<Global>, words: &str, text: &str) {
    if words.starts_with("spells") {
        return put_octets_case(alloc, said, words, text.as_bytes(), &[]);
    }
    let (come, leave) = split_at_mark(text, "\n--\n");
    match parse_octets(alloc, come.as_bytes()) {
        Ok(octets) => put_with_zeros(alloc, said, words, octets, leave.as_bytes()),
        Err(_) => said.put("no case\n"),
    }
}

/// Adds the result of octets followed by zeros. `leave` spells the octets that are to leave.
fn put_with_zeros(
    alloc: Global,
    said: &mut TextBuilder<Global>,
    words: &str,
    octets: Vec<u8>,
    leave: &[u8],
) {
    let mut octets = octets;
    let zeros = number_after_word(words, "zeros ", 0);
    if octets
        .resize(octets.len().saturating_add(zeros), 0)
        .is_err()
    {
        said.discard();
    }
    match parse_octets(alloc, leave) {
        Ok(wanted) => put_octets_case(alloc, said, words, &octets, &wanted),
        Err(_) => said.put("no case\n"),
    }
}

/// Adds the result of octets: once, for each number of octets, or with the number of allocations.
fn put_octets_case(
    alloc: Global,
    said: &mut TextBuilder<Global>,
    words: &str,
    octets: &[u8],
    wanted: &[u8],
) {
    let row = Row {
        words,
        octets,
        wanted,
        count: number_after_word(words, "behind ", usize::MAX),
    };
    if words.contains("each") {
        put_by_prefix_length(alloc, said, &row);
    } else if words.contains("refused") {
        put_with_growths(alloc, said, &row);
    } else {
        put_row(alloc, alloc, said, &row);
        said.put("\n");
    }
}

/// Returns the result of a row, without a line feed.
fn row_output<A: Allocator + Copy>(
    alloc: A,
    heap: Global,
    row: &Row<'_>,
) -> Result<String, NoMemory> {
    let mut said = TextBuilder::new(heap);
    put_row(alloc, heap, &mut said, row);
    said.finish()
}

/// Adds the result of a row, and the number of its allocations, which are refused one by one.
fn put_with_growths(alloc: Global, said: &mut TextBuilder<Global>, row: &Row<'_>) {
    match row_output(alloc, alloc, row) {
        Ok(whole) => {
            said.put_template("{a}\n", &[], &[whole.as_str()]);
            let growths = count_growths(alloc, |gate| row_ending(gate, alloc, row, whole.as_str()));
            put_growths(said, growths);
        }
        Err(_) => said.discard(),
    }
}

/// Returns how a row ends whose result with enough memory is `whole`.
fn row_ending<A: Allocator + Copy>(alloc: A, heap: Global, row: &Row<'_>, whole: &str) -> Ending {
    match row_output(alloc, heap, row) {
        Ok(said) => Ending::from_flags(said.as_str() == whole, is_refusal(said.as_str())),
        Err(_) => Ending::Wrong,
    }
}

/// Whether a result shows a refused allocation.
fn is_refusal(said: &str) -> bool {
    for refused in REFUSED {
        if said.contains(*refused) {
            return true;
        }
    }
    false
}

/// Adds the result of a row for each `count` from 0 at which the result changes.
fn put_by_prefix_length(alloc: Global, said: &mut TextBuilder<Global>, row: &Row<'_>) {
    let most = number_after_word(row.words, "up to ", row.octets.len().max(row.wanted.len()));
    let mut last = String::new(alloc);
    for count in 0..=most {
        match row_output(alloc, alloc, &Row { count, ..*row }) {
            Ok(told) => put_if_changed(said, &mut last, count as u64, told.as_str()),
            Err(_) => said.discard(),
        }
    }
    said.put_template("up to {0}\n", &[most as u64], &[]);
}

/// Adds the result for `count`, if it differs from the last result.
fn put_if_changed(said: &mut TextBuilder<Global>, last: &mut String, count: u64, told: &str) {
    if last.as_str() != told {
        said.put_template("from {0}: {a}\n", &[count], &[told]);
        last.clear();
        if last.push_str(told).is_err() {
            said.discard();
        }
    }
}

/// Adds the result of a row, without a line feed.
fn put_row<A: Allocator + Copy>(
    alloc: A,
    heap: Global,
    said: &mut TextBuilder<Global>,
    row: &Row<'_>,
) {
    if row.words.starts_with("reads") {
        put_reading(alloc, heap, said, row);
    } else if row.words.starts_with("sends") {
        put_sending(alloc, heap, said, row);
    } else if row.words.starts_with("spells") {
        put_spelled(alloc, heap, said, row.octets);
    } else {
        put_writing(alloc, heap, said, row);
    }
}
