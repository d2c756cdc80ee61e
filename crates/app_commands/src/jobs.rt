//! Runs captures through one queue, and returns the text to print.
ghost use Rattle.std.specs.Prelude.{◌≡◌, ◌≤◌, ℕ, List, Some, IfOk, IfErr, string_bytes};
ghost use Rattle.app_commands.specs.Jobs.{EndsText, EndsWire, IsCountsLine, IsOfRun, PrintsCounts, PrintsText};

use crate::captures::wire_capture;
use crate::hexadecimal::wire_text;
use crate::plan::read_standard_text;
use crate::wire::wire_line;
use app_failure::Failure;
use bridge_frame::Speed;
use bridge_port::LARGEST_ROOM;
use std::alloc::Global;
use std::io::{Read, Write};

/// Largest number of octets read from standard input. It exceeds the longest text by one octet, so that a longer text is refused and not
/// cut.
const MOST_INPUT: u64 = 4_194_305;

/// Reads hexadecimal text from a reader, sends its capture through one queue, and returns the output capture as text. Fails if the text
/// can't be read, or if the text or its capture is refused.
///
/// `send_text` calls it.
pub fn text_job<R: Read + Drop>(alloc: Global, reader: R) -> Result<String, Failure>
    ensures ok { (input : List ℕ) → R.remaining reader ≡ Some input
        → IfOk result (λ lines. PrintsText input (string_bytes lines)) }
    ensures err { (input : List ℕ) → R.remaining reader ≡ Some input → IfErr result (EndsText input) }
    ensures read { IfOk result (λ lines. (input : List ℕ) × PrintsText input (string_bytes lines)) }
    ensures only { IfErr result (λ fault. (input : List ℕ) × EndsText input fault) }
{
    let text = match read_standard_text(alloc, reader, MOST_INPUT) {
        Ok(text) => text,
        Err(fault) => return Err(fault),
    };
    match wire_text(alloc, &text) {
        Ok(lines) => Ok(lines),
        Err(fault) => Err(Failure::Text(fault)),
    }
}

/// Sends a reader's capture through one queue of `room` frames (1 to 4,096) into a writer. Returns the line of counts and the writer.
///
/// Fails if the capture is refused, or if the reader or the writer fails. `wire_streams` calls it.
pub fn wire_job<R: Read + Drop, W: Write + Drop>(
    alloc: Global,
    speed: Speed,
    room: u16,
    reader: R,
    writer: W,
) -> Result<(String, W), Failure>
    requires room { (1 ≤ room) × (room ≤ LARGEST_ROOM) }
    ensures ok { (input : List ℕ) → R.remaining reader ≡ Some input →
        IfOk result (λ done. PrintsCounts speed room input (W.contents writer) (W.contents done.1)
        (string_bytes done.0)) }
    ensures line { IfOk result (λ done. IsCountsLine (string_bytes done.0)) }
    ensures err { (input : List ℕ) → R.remaining reader ≡ Some input → IfErr result (EndsWire input) }
    ensures one { IfErr result IsOfRun }
{
    match wire_capture(alloc, speed, room, reader, writer) {
        Ok((count, writer)) => match wire_line(alloc, &count) {
            Ok(line) => Ok((line, writer)),
            Err(_) => Err(Failure::NoMemory),
        },
        Err(halted) => Err(Failure::Run(halted.fault)),
    }
}
