//! Writes captured frames as hexadecimal text, for the program without arguments.
ghost use Rattle.std.specs.Prelude.{◌≡◌, ◌≤◌, ◌<◌, ◌+◌, ◌^◌, ◌++◌, List, length, All, IfOk, OnOk};
ghost use Rattle.std.specs.String.{string_bytes};
ghost use Rattle.std.specs.Char.{digit_char};
ghost use Rattle.bridge_capture.specs.Grammar.{CapturedFrame, captured_length};
ghost use Rattle.bridge_capture.specs.WrittenCapture.{written_format, written_text};
ghost use Rattle.bridge_capture.specs.HexLines.{hex_line, hex_text};

use bridge_limits::NoMemory;
use std::alloc::{AllocError, Allocator};

/// Length of a capture's header in octets.
const HEADER_LEN: usize = 24;

/// Length of a record's header in octets.
const WORDS_LEN: usize = 16;

/// Returns the length in octets, with header, of the record at the front of `octets`; 16 if its header is incomplete. `hex_lines` calls it.
fn record_len(octets: &[u8]) -> usize
    ensures words { 16 ≤ result }
    ensures whole { 16 ≤ length octets.now → result ≡ 16 + captured_length written_format octets.now }
{
    match octets {
        [_, _, _, _, _, _, _, _, a, b, c, d, _, _, _, _, ..] => {
            WORDS_LEN + u32::from_le_bytes([*a, *b, *c, *d]) as usize
        }
        _ => WORDS_LEN,
    }
}

/// Returns the lower-case hexadecimal digit of a number below 16. `push_line` calls it.
fn hex_digit(n: u8) -> char
    requires { n < 16 }
    ensures { result ≡ digit_char n }
{
    char::from(if n < 10 { b'0' + n } else { b'a' + (n - 10) })
}

/// Appends the two digits of each octet, and a line feed, to `text`. `hex_lines` calls it for the header and for each record.
fn push_line<A: Allocator>(text: &mut String<A>, octets: &[u8]) -> Result<(), AllocError>
    ensures { OnOk result (string_bytes text.new ≡ string_bytes text.old ++ hex_line octets.now) }
{
    for octet in octets {
        text.push(hex_digit(*octet / 16))?;
        text.push(hex_digit(*octet % 16))?;
    }
    text.push('\n')
}

/// Returns a written capture in lower-case hexadecimal: one line for the header, one line for each record. Octets that aren't a written
/// capture give a text without meaning. Allocates memory once.
///
/// `wire_text` of `app_commands` calls it.
pub fn hex_lines<A: Allocator>(alloc: A, capture: &[u8]) -> Result<String<A>, NoMemory>
    ensures { IfOk result (λ text. (frames : List CapturedFrame) → All (λ frame. length frame.octets < 2 ^ 32) frames →
        capture.now ≡ written_text frames → string_bytes text ≡ hex_text frames) }
{
    let lines = capture.len() / WORDS_LEN + 2;
    let room = capture.len().saturating_mul(2).saturating_add(lines);
    let mut text = String::with_capacity(alloc, room)?;
    let (header, mut rest) = capture.split_at(capture.len().min(HEADER_LEN));
    push_line(&mut text, header)?;
    while !rest.is_empty() {
        let (record, behind) = rest.split_at(record_len(rest).min(rest.len()));
        push_line(&mut text, record)?;
        rest = behind;
    }
    Ok(text)
}
