//! Sends one capture from a file or standard input to a file or standard output.
ghost use Rattle.std.specs.Prelude.{◌≡◌, ◌≤◌, ◌↔◌, ℕ, List, Some, IfOk, IfErr, IsTrue, string_bytes};
ghost use Rattle.app_files.specs.Said.{IsStandard, is_noted, line_of};
ghost use Rattle.app_commands.specs.WireFiles.{EndsInto, EndsOver, EndsWiring, SaysCounts};
ghost use Rattle.app_commands.specs.Jobs.{EndsWire, IsOfRun, PrintsCounts};

use crate::jobs::wire_job;
use crate::progress::{Progress, WatchedReader, input_octets};
use app_failure::{Failure, file_failure};
use app_files::{
    Cause, FileId, Said, create_apart, is_standard, open_capture, open_file_id, path_file_id,
    standard_output_fault,
};
use bridge_frame::Speed;
use bridge_port::LARGEST_ROOM;
use bridge_wire::RunFault;
use std::alloc::Global;
use std::io;
use std::io::{Read, Write};
use std::rt::{Clock, Files};

/// Path of standard input's file. Its identity shows whether the output would overwrite the input.
const STANDARD_INPUT: &str = "/dev/stdin";

/// Sends one capture through one queue of `room` frames (1 to 4,096). `-` stands for standard input or output.
///
/// Refuses an output that is the input file. The output keeps its contents until the first read succeeds. If `is_watched`, a long run shows
/// its progress. `send_capture` calls it.
pub fn wire_files<H: Input + AllocGlobal + Clock + Print + Eprint + Files>(
    rt: &H,
    speed: Speed,
    room: u16,
    input: &str,
    output: &str,
    is_watched: bool,
) -> Result<Said, Failure>
    requires room { (1 ≤ room) × (room ≤ LARGEST_ROOM) }
    ensures ok { IfOk result (SaysCounts output.now) }
    ensures err { IfErr result (EndsWiring input.now output.now) }
{
    if is_standard(input) {
        let file = path_file_id(rt, STANDARD_INPUT);
        let progress = Progress::new(rt, 0, is_watched);
        let reader = WatchedReader::new(rt.reader(), &progress);
        let said = wire_to_output(rt, speed, room, reader, file, output);
        progress.clear();
        return said;
    }
    let reader = match open_capture(rt, input, Cause::NotFound) {
        Ok(reader) => reader,
        Err(fault) => return Err(file_failure(fault)),
    };
    let file = open_file_id(&reader);
    let progress = Progress::new(rt, input_octets(&reader), is_watched);
    let said = wire_to_output(
        rt,
        speed,
        room,
        WatchedReader::new(reader, &progress),
        file,
        output,
    );
    progress.clear();
    said
}

/// Sends a reader's capture to the file at `output` or to standard output. Refuses an output that is `file`, the reader's own file. `file`
/// is `None` if the system can't identify it. `wire_files` calls it.
fn wire_to_output<R: Read + Drop, H: AllocGlobal + Print + Files>(
    rt: &H,
    speed: Speed,
    room: u16,
    reader: R,
    file: Option<FileId>,
    output: &str,
) -> Result<Said, Failure>
    requires room { (1 ≤ room) × (room ≤ LARGEST_ROOM) }
    ensures ok { IfOk result (SaysCounts output.now) }
    ensures err { IfErr result (EndsInto output.now) }
{
    if is_standard(output) {
        return match wire_streams(rt.alloc(), speed, room, reader, io::writer(rt), output) {
            Ok((said, _)) => Ok(said),
            Err(fault) => Err(fault),
        };
    }
    let writer = match create_apart(rt, output, file) {
        Ok(writer) => writer,
        Err(fault) => {
            drop(reader);
            return Err(file_failure(fault));
        }
    };
    match wire_streams(rt.alloc(), speed, room, reader, writer, output) {
        Ok((said, _)) => Ok(said),
        Err(fault) => Err(fault),
    }
}

/// Sends a reader's capture through one queue of `room` frames into `writer`. Failures name the path `output`; if it is `-`, the counts go
/// to standard error.
///
/// Contracts name the returned writer's contents. `wire_to_output` calls it.
pub fn wire_streams<R: Read + Drop, W: Write + Drop>(
    alloc: Global,
    speed: Speed,
    room: u16,
    reader: R,
    writer: W,
    output: &str,
) -> Result<(Said, W), Failure>
    requires room { (1 ≤ room) × (room ≤ LARGEST_ROOM) }
    ensures ok { (input : List ℕ) → R.remaining reader ≡ Some input →
        IfOk result (λ done. PrintsCounts speed room input (W.contents writer) (W.contents done.1) (line_of done.0)) }
    ensures place { IfOk result (λ done. SaysCounts output.now done.0) }
    ensures err { (input : List ℕ) → R.remaining reader ≡ Some input
        → IfErr result (EndsOver output.now input) }
    ensures only { IfErr result (EndsInto output.now) }
{
    match wire_job(alloc, speed, room, reader, writer) {
        Ok((line, writer)) => Ok((summary_output(line, output), writer)),
        Err(fault) => Err(output_fault(alloc, fault, output)),
    }
}

/// Returns the line of counts as a message. It goes to standard error if the capture goes to standard output. `wire_streams` calls it.
fn summary_output(line: String, output: &str) -> Said
    ensures line { line_of result ≡ string_bytes line }
    ensures place { IsTrue (is_noted result) ↔ IsStandard output.now }
{
    if is_standard(output) {
        Said::Noted(line)
    } else {
        Said::Printed(line)
    }
}

/// Returns the command's failure after a run. A failed write of a capture to standard output, which has no port, becomes a failure of the
/// file `-`. `wire_streams` calls it.
fn output_fault(alloc: Global, fault: Failure, output: &str) -> Failure
    ensures over { (input : List ℕ) → EndsWire input fault → EndsOver output.now input result }
    ensures only { IsOfRun fault → EndsInto output.now result }
{
    match fault {
        Failure::Run(RunFault::Write { .. }) if is_standard(output) => {
            file_failure(standard_output_fault(alloc))
        }
        fault => fault,
    }
}
