//! Reads command lines, and prints their requests.

use crate::fault_lines::put_status;
use crate::short_memory::{is_refused, put_refused};
use crate::text_pieces::add_debug;
use app_cli::{ArgumentsFault, PictureRequest, Request, TableRequest, parse_request};
use app_commands::words_failure;
use bridge_text::TextBuilder;
use fixture_bridge::Ending;
use std::alloc::{AllocError, Global};

/// Command lines that are also read with too little memory.
const SHORT: &[&str] = &[
    "wire 10 1 IN OUT",
    "run PLAN IN OUT --commands COMMANDS --delays DELAYS",
    "net NET IN OUT",
];

/// Adds each line of a file. Below a line that begins with `$`, adds the request of its arguments.
pub fn put_command_lines(alloc: Global, said: &mut TextBuilder<Global>, text: &str) {
    for line in text.lines() {
        said.put_template("{a}\n", &[], &[line]);
        if let Some(words) = line.strip_prefix('$') {
            match split_words(alloc, words) {
                Ok(words) => put_parsed(alloc, said, &words),
                Err(_) => said.discard(),
            }
        }
    }
}

/// Splits a line into arguments at its blanks. The text between two `'` is a single argument.
pub fn split_words(alloc: Global, line: &str) -> Result<Vec<String>, AllocError> {
    let mut words = Vec::new(alloc);
    let mut is_one = false;
    let mut is_whole = true;
    for piece in line.split('\'') {
        if is_one {
            is_whole &= push(alloc, &mut words, piece);
        } else {
            for word in piece.split_whitespace() {
                is_whole &= push(alloc, &mut words, word);
            }
        }
        is_one = !is_one;
    }
    if is_whole { Ok(words) } else { Err(AllocError) }
}

/// Adds an argument, and returns whether memory sufficed.
fn push(alloc: Global, words: &mut Vec<String>, word: &str) -> bool {
    match String::from_str(alloc, word) {
        Ok(word) => words.push(word).is_ok(),
        Err(_) => false,
    }
}

/// Adds the command, picture and tables that arguments ask for, or the fault line and the exit status.
fn put_parsed(alloc: Global, said: &mut TextBuilder<Global>, words: &[String]) {
    match parse_request(alloc, words) {
        Ok(request) => {
            put_job(alloc, said, &request);
            put_picture(alloc, said, &request.picture);
            put_tables(alloc, said, &request.tables);
        }
        Err(fault) => put_status(alloc, said, &words_failure(fault)),
    }
}

/// Adds a command, and whether its arguments ask for an explanation and for strictness.
fn put_job(alloc: Global, said: &mut TextBuilder<Global>, request: &Request) {
    add_debug(alloc, said, &request.job);
    if request.is_explained {
        said.put(", explained");
    }
    if request.is_strict {
        said.put(", strict");
    }
    said.put("\n");
}

/// Adds the requested picture, if any.
fn put_picture(alloc: Global, said: &mut TextBuilder<Global>, picture: &Option<PictureRequest>) {
    if let Some(picture) = picture {
        add_debug(alloc, said, picture);
        said.put("\n");
    }
}

/// Adds the requested tables, if any.
fn put_tables(alloc: Global, said: &mut TextBuilder<Global>, tables: &TableRequest) {
    if tables.delays.is_some() || tables.frames.is_some() {
        add_debug(alloc, said, tables);
        said.put("\n");
    }
}

/// Adds the lines of `SHORT`, and whether reading them with too little memory reports that memory ran out.
pub fn put_short_lines(alloc: Global, said: &mut TextBuilder<Global>) {
    for line in SHORT {
        said.put_template("$ {a}\n", &[], &[*line]);
        match split_words(alloc, line) {
            Ok(words) => put_refused(said, is_refused(alloc, || request_ending(alloc, &words))),
            Err(_) => said.discard(),
        }
    }
}

/// Returns how reading the arguments of a command ends.
fn request_ending(alloc: Global, words: &[String]) -> Ending {
    match parse_request(alloc, words) {
        Ok(_) => Ending::Whole,
        Err(ArgumentsFault::NoMemory) => Ending::NoMemory,
        Err(_) => Ending::Wrong,
    }
}
