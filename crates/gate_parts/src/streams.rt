//! Asks stream identification for handles.

use crate::parts::{Part, ask_formatted, collect_parts};
use crate::words::{
    Fault, Output, first_word, has_line, has_word, parse_address, parse_number, show,
    split_first_line, tell, u32_or_max, word_at_index,
};
use bridge_frame::{Head, Tag};
use bridge_ident::{Ident, Kind, StreamEntry, TagKind};
use std::alloc::{AllocError, Allocator, Global};

/// Number of entries that the line `many` makes.
const MANY: u16 = 4096;

const TALKER: [u8; 6] = [2, 0, 0, 0, 0, 1];

const LISTENER: [u8; 6] = [2, 0, 0, 0, 0, 10];

/// Reads the entry of a line `entry HANDLE PORT source|null ADDRESS VLAN tagged|priority|all`.
fn parse_stream_entry(line: &str) -> Option<StreamEntry> {
    if first_word(line) != "entry" {
        return None;
    }
    Some(StreamEntry {
        handle: u32_or_max(line, 1),
        port: parse_number(word_at_index(line, 2)).unwrap_or(0),
        kind: if has_word(line, "source") {
            Kind::Source
        } else {
            Kind::Null
        },
        address: parse_address(word_at_index(line, 4)),
        vid: parse_number(word_at_index(line, 5)).unwrap_or(0),
        tag: parse_tag_kind(line),
    })
}

fn parse_tag_kind(line: &str) -> TagKind {
    match word_at_index(line, 6) {
        "tagged" => TagKind::Tagged,
        "priority" => TagKind::Priority,
        _ => TagKind::All,
    }
}

/// Returns entry `number` of many, with ports from 0 to 255 and VLANs from 0 to 65,520. Even numbers compare the destination, odd ones the
/// source.
fn numbered_entry(number: u16) -> StreamEntry {
    StreamEntry {
        handle: u32::from(number),
        port: (number % 256) as u8,
        kind: if number % 2 == 0 {
            Kind::Null
        } else {
            Kind::Source
        },
        address: TALKER,
        vid: number.wrapping_mul(16),
        tag: TagKind::All,
    }
}

/// Reads the entries of lines. A line `many` adds `MANY` entries.
fn parse_stream_entries<A: Allocator>(
    alloc: A,
    lines: &str,
) -> Result<Vec<StreamEntry, A>, AllocError> {
    let mut entries = collect_parts(alloc, lines, '\n', parse_stream_entry)?;
    if has_line(lines, "many") {
        push_many(&mut entries)?;
    }
    Ok(entries)
}

fn push_many<A: Allocator>(entries: &mut Vec<StreamEntry, A>) -> Result<(), AllocError> {
    for number in 0..MANY {
        entries.push(numbered_entry(number))?;
    }
    Ok(())
}

/// Makes the table of the entries of lines, with or without an index.
pub fn parse_table<A: Allocator + Copy>(
    alloc: A,
    lines: &str,
    has_index: bool,
) -> Result<Ident<A>, Fault> {
    let entries = parse_stream_entries(alloc, lines)?;
    if has_index {
        Ok(Ident::with_index(alloc, entries)?)
    } else {
        Ok(Ident::new(entries))
    }
}

/// Asks a table without an index, then a table with an index.
pub fn streams(said: &mut Output, text: &str) {
    table(said, text, false);
    table(said, text, true);
}

fn table(said: &mut Output, text: &str, has_index: bool) {
    let (head, lines) = split_first_line(text);
    let form = if has_index {
        "{a}, with an index: true\n"
    } else {
        "{a}, with an index: false\n"
    };
    let table = parse_table(said.alloc, lines, has_index);
    ask_formatted(said, table, form, head, lines)
}

impl Part for Ident<Global> {
    fn ask(&mut self, said: &mut Output, line: &str) {
        match first_word(line) {
            "frame" => frame(said, self, line),
            "entries" => tell(said, line, &self.entries().len()),
            "each" => tell(said, line, &count_found(self)),
            _ => show(said, line),
        }
    }
}

/// Adds the handle of a frame from talker to listener, with a tag or without: `frame PORT TAG VLAN`.
fn frame(said: &mut Output, table: &Ident<Global>, line: &str) {
    let port = parse_number(word_at_index(line, 1)).unwrap_or(0);
    let head = make_head(parse_number(word_at_index(line, 2)));
    let vid = parse_number(word_at_index(line, 3)).unwrap_or(0);
    tell(said, line, &table.handle_of(port, &head, vid))
}

/// Returns the head of a frame from talker to listener.
fn make_head(vid: Option<u16>) -> Head {
    let tag = match vid {
        Some(vid) => Some(Tag {
            pcp: 0,
            dei: false,
            vid,
        }),
        None => None,
    };
    Head {
        da: LISTENER,
        sa: TALKER,
        tag,
        sdu: 44,
    }
}

/// Returns for how many of `MANY` entries a frame gets the handle, and for how many a frame with exchanged addresses gets none.
fn count_found(table: &Ident<Global>) -> (u64, u64) {
    let from = make_head(Some(10));
    let to = Head {
        da: TALKER,
        sa: LISTENER,
        ..from
    };
    let (mut found, mut missed) = (0u64, 0u64);
    for number in 0..MANY {
        let entry = numbered_entry(number);
        let (own, other) = if number % 2 == 1 {
            (&from, &to)
        } else {
            (&to, &from)
        };
        if table.handle_of(entry.port, own, entry.vid) == Some(entry.handle) {
            found = found.saturating_add(1);
        }
        if table.handle_of(entry.port, other, entry.vid) == None {
            missed = missed.saturating_add(1);
        }
    }
    (found, missed)
}
