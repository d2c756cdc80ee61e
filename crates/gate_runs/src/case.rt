//! Holds the plan of a bridge, and its inputs.

use crate::captures::{header, parse_capture};
use crate::line_output::LineOutput;
use crate::random_capture::{RandomNumbers, random_capture};
use crate::reading::{find_named, parse_hex, parse_number, split_first_word};
use fixture_bridge::base::BASE;

/// Texts of a plan and of commands, and captures of ports 1, 2 and 3.
#[derive(Drop)]
pub struct Case {
    pub plan: String,
    pub commands: String,
    first: Vec<u8>,
    second: Vec<u8>,
    third: Vec<u8>,
}

impl Case {
    /// Returns the base plan without inputs.
    pub fn new(said: &mut LineOutput) -> Case {
        let alloc = said.alloc;
        Case {
            plan: said.piece_or_stop(String::from_str(alloc, BASE)),
            commands: String::new(alloc),
            first: header(said),
            second: header(said),
            third: header(said),
        }
    }

    /// Resets to the base plan without inputs.
    pub fn reset(&mut self, said: &mut LineOutput) {
        *self = Case::new(said);
    }

    /// Replaces the commands by the command of a line, or by none.
    pub fn set_command(&mut self, said: &mut LineOutput, rest: &str) {
        self.commands = command_text(said, rest);
    }

    /// Returns the captures of ports 1, 2 and 3.
    pub fn texts(&self) -> [&[u8]; 3] {
        [
            self.first.as_slice(),
            self.second.as_slice(),
            self.third.as_slice(),
        ]
    }

    /// Returns the capture of `port`.
    fn text(&mut self, said: &mut LineOutput, port: &str) -> &mut Vec<u8> {
        match port {
            "1" => &mut self.first,
            "2" => &mut self.second,
            "3" => &mut self.third,
            _ => {
                said.stop("no such port");
                &mut self.third
            }
        }
    }

    /// Replaces the plan by the base plan with named changes.
    pub fn change_plan(&mut self, said: &mut LineOutput, names: &str, changes: &str) {
        let alloc = said.alloc;
        self.plan = said.piece_or_stop(String::from_str(alloc, BASE));
        for name in changes.split_whitespace() {
            let change = find_named(said, names, name);
            self.plan = apply_change(said, self.plan.as_str(), change);
        }
    }

    /// Replaces the frames of a port.
    pub fn set_frames(&mut self, said: &mut LineOutput, names: &str, rest: &str) {
        let (port, frames) = split_first_word(rest);
        let octets = parse_capture(said, names, frames);
        *self.text(said, port) = octets;
    }

    /// Replaces the capture of a port by octets, which may be no capture.
    pub fn set_octets(&mut self, said: &mut LineOutput, rest: &str) {
        let (port, octets) = split_first_word(rest);
        let octets = parse_hex(said, octets);
        *self.text(said, port) = octets;
    }

    /// Cuts the capture of a port after the first octets.
    pub fn cut_capture(&mut self, said: &mut LineOutput, rest: &str) {
        let (port, count) = split_first_word(rest);
        let count = parse_number(said, count);
        let text = self.text(said, port);
        for _ in count..text.len() as u64 {
            let _ = text.pop();
        }
    }

    /// Replaces the frames of ports 2 and 3 by random frames from time `from` on, in ns.
    pub fn set_random_frames(
        &mut self,
        said: &mut LineOutput,
        numbers: &mut RandomNumbers,
        from: &str,
    ) {
        let from = parse_number(said, from);
        self.second = random_capture(said, numbers, from);
        self.third = random_capture(said, numbers, from);
    }
}

/// Returns a text with a change. The lines before `--` are replaced by the lines after it.
fn apply_change(said: &mut LineOutput, text: &str, change: &str) -> String {
    let alloc = said.alloc;
    if let Some((old, new)) = change.split_once("--\n")
        && let Some((before, behind)) = text.split_once(old)
    {
        return said.piece_or_stop(format!(in alloc; "{before}{new}{behind}"));
    }
    said.stop("a change without lines, or a plan without them");
    String::new(alloc)
}

/// Returns the text of a command `MOMENT FLAG NUMBER`, or an empty text for an incomplete line.
fn command_text(said: &mut LineOutput, rest: &str) -> String {
    let alloc = said.alloc;
    let (at, rest) = split_first_word(rest);
    let (clear, number) = split_first_word(rest);
    if number.is_empty() {
        return String::new(alloc);
    }
    said.piece_or_stop(format!(in alloc;
        "[[command]]\nat = {at}\nclear = \"{clear}\"\nnumber = {number}\n"
    ))
}
