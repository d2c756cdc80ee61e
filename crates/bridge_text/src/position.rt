//! Positions in a text, and positions of tables and keys of a TOML document.
//!
//! The search reads line by line. It finds a header such as `[[port]]`, or a key before `=`, at the start of a line. Other layouts
//! have no position.

use crate::text_builder::TextBuilder;
use std::alloc::Allocator;

/// Line and column in a text, as explanations and warnings give them.
#[derive(Clone, Copy)]
pub struct Position {
    /// Line, from 1.
    pub line: usize,
    /// Column in characters, from 1.
    pub column: usize,
}

/// Returns the position after the first `count` octets. Explanations of syntax errors call it, because the TOML parser gives offsets.
pub fn position_at_offset(octets: &[u8], count: usize) -> Position {
    let mut line = 1usize;
    let mut column = 1usize;
    for octet in octets.iter().take(count) {
        if *octet == b'\n' {
            line = line.saturating_add(1);
            column = 1;
        } else if *octet & 0xC0 != 0x80 {
            column = column.saturating_add(1);
        }
    }
    Position { line, column }
}

/// Returns the position of the first non-blank character of line `number`. Positions of tables and keys are at this character.
/// `table_position`, `key_position` and `top_level_position` call it.
fn first_char_position(number: usize, line: &str) -> Position {
    let blanks = line.len().saturating_sub(line.trim_start().len());
    Position {
        line: number,
        column: blanks.saturating_add(1),
    }
}

/// Returns the rest of a line after `word`, without leading blanks. `None` if the line's first non-blank text isn't `word`. All searches
/// for headers and keys use it.
fn strip_word<'a>(line: &'a str, word: &str) -> Option<&'a str> {
    match line.trim_start().strip_prefix(word) {
        Some(rest) => Some(rest.trim_start()),
        None => None,
    }
}

/// Returns the rest of a table header such as `[[name]]`, after `name`. `None` if the line isn't a header that begins with `name`.
/// `is_table_header` and `is_key_line` call it.
fn strip_header_name<'a>(line: &'a str, name: &str) -> Option<&'a str> {
    strip_word(strip_word(line, "[")?.trim_start_matches('['), name)
}

/// Whether a line is a table header of `name`, followed by `word`, such as `]]` or `.`. `table_position` and `key_position` find headers by
/// it.
fn is_table_header(line: &str, name: &str, word: &str) -> bool {
    match strip_header_name(line, name) {
        Some(rest) => rest.starts_with(word),
        None => false,
    }
}

/// Whether a line sets `key`, or is the header of `key` as a table inside `name`. `key_position` and `top_level_position` test each line by
/// it.
fn is_key_line(line: &str, name: &str, key: &str) -> bool {
    if let Some(rest) = strip_word(line, key) {
        if rest.starts_with('=') {
            return true;
        }
    }
    match strip_header_name(line, name) {
        Some(rest) => match strip_word(rest, ".") {
            Some(inner) => match strip_word(inner, key) {
                Some(end) => end.starts_with(']'),
                None => false,
            },
            None => false,
        },
        None => false,
    }
}

/// Returns the position of table `index`, from 1, of the array `name`. `None` unless the text has exactly `count` headers of this array.
///
/// `Instance::position`, and `filter_position` and `port_key_line` of `show_lint` call it.
pub fn table_position(text: &str, name: &str, index: u32, count: usize) -> Option<Position> {
    let mut position = None;
    let mut found = 0usize;
    let mut number = 0usize;
    for line in text.lines() {
        number = number.saturating_add(1);
        if is_table_header(line, name, "]]") && strip_word(line, "[[").is_some() {
            found = found.saturating_add(1);
            if found == index as usize {
                position = Some(first_char_position(number, line));
            }
        }
    }
    if found == count { position } else { None }
}

/// Returns the position of `key` in the table `name` whose header is on line `header`. `None` if no line of this table sets the key.
/// `Instance::position`, and `port_key_line` of `show_lint` call it.
pub fn key_position(text: &str, name: &str, header: usize, key: &str) -> Option<Position> {
    let mut number = header;
    for line in text.lines().skip(header) {
        number = number.saturating_add(1);
        if is_key_line(line, name, key) {
            return Some(first_char_position(number, line));
        }
        if strip_word(line, "[").is_some() && !is_table_header(line, name, ".") {
            return None;
        }
    }
    None
}

/// Returns the first position of a top-level key, or of a table header with this name. `None` if the text has neither. `put_no_list` and
/// `put_stray_section`, and `idle_change` of `show_lint` call it.
pub fn top_level_position(text: &str, key: &str) -> Option<Position> {
    let mut number = 0usize;
    let mut is_top = true;
    for line in text.lines() {
        number = number.saturating_add(1);
        if is_table_header(line, key, "]")
            || is_table_header(line, key, ".")
            || is_top && is_key_line(line, key, key)
        {
            return Some(first_char_position(number, line));
        }
        is_top = is_top && strip_word(line, "[").is_none();
    }
    None
}

/// Writes a position, if it is known, after the name of the file. `Instance::put_place`, `put_row_position` of `net_latency` and 7 more
/// call it.
pub fn put_position<A: Allocator>(said: &mut TextBuilder<A>, position: Option<Position>) {
    match position {
        Some(Position { line, column }) => said.put_template(
            ", line {0}, column {1}: ",
            &[line as u64, column as u64],
            &[],
        ),
        None => said.put(": "),
    }
}
