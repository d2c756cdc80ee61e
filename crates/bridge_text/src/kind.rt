//! Kinds of files, recognised by the headers of their sections.

use crate::value::{Said, fill_with_word};

/// Kind of a TOML file. If a command got a file of another kind, the explanation names the kind.
#[derive(Clone, Copy, PartialEq, Eq)]
pub enum FileKind {
    /// Plan of one bridge.
    Plan,
    /// Network: bridges, links and streams.
    Network,
    /// Traffic of periodic talkers.
    Traffic,
    /// Commands to one bridge.
    Commands,
}

/// Header that only networks have.
const NETWORK: [&str; 1] = ["[[bridge]]"];

/// Headers that only plans have.
const PLAN: [&str; 7] = [
    "[[change]]",
    "[[port]]",
    "[[vlan]]",
    "[[static]]",
    "[[gate]]",
    "[[meter]]",
    "[[filter]]",
];

/// Header of the section of traffic.
const TRAFFIC: [&str; 1] = ["[[traffic]]"];

/// Header of the section of commands.
const COMMANDS: [&str; 1] = ["[[command]]"];

/// Whether a line begins with one of `headers`. `has_header` calls it for each line of a file.
fn is_header(line: &[u8], headers: &[&str]) -> bool {
    headers
        .iter()
        .any(|header| line.starts_with(header.as_bytes()))
}

/// Whether a line of `text` begins with one of `headers`. `file_kind` recognises kinds of files by it.
fn has_header(text: &[u8], headers: &[&str]) -> bool {
    text.split(|octet| *octet == b'\n')
        .any(|line| is_header(line, headers))
}

/// Whether a text describes a network: a line begins with `[[bridge]]`. `file_kind` and `is_network` of `app_commands` call it.
pub fn is_network_text(text: &[u8]) -> bool {
    has_header(text, &NETWORK)
}

/// Returns the kind of a file. `None` if the text has headers of no kind, or of several kinds. `put_other_kind` calls it.
pub fn file_kind(text: &[u8]) -> Option<FileKind> {
    let kinds = [
        (is_network_text(text), FileKind::Network),
        (has_header(text, &PLAN), FileKind::Plan),
        (has_header(text, &TRAFFIC), FileKind::Traffic),
        (has_header(text, &COMMANDS), FileKind::Commands),
    ];
    let mut found = None;
    for (is_it, kind) in kinds {
        if is_it {
            if found.is_some() {
                return None;
            }
            found = Some(kind);
        }
    }
    found
}

/// Returns the sentences for a file of kind `kind`: its contents, and the command that reads it. `{a}` is the path. `put_other_kind` calls
/// it.
fn kind_sentence(kind: FileKind) -> &'static str {
    match kind {
        FileKind::Plan => ": This file describes one bridge. `tsnbridge check {a}` checks it.\n",
        FileKind::Network =>
            ": This file describes a network. `tsnbridge net check {a}` checks it.\n",
        FileKind::Traffic =>
            ": This file describes talkers. `tsnbridge bounds PLAN --traffic {a}` prints their delays.\n",
        FileKind::Commands =>
            ": This file has commands. `tsnbridge run PLAN IN OUT --commands {a}` sends them.\n",
    }
}

/// Writes the kind of a file and the command that reads it, if the kind isn't `wanted`. The text follows a path and ends with the path, so
/// that an explanation can follow.
pub fn put_other_kind(said: &mut Said, path: &str, text: &[u8], wanted: FileKind) {
    if let Some(kind) = file_kind(text) {
        if kind != wanted {
            let name = if path == "-" { "FILE" } else { path };
            fill_with_word(said, kind_sentence(kind), 0, name);
            said.put(path);
        }
    }
}
