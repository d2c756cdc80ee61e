//! The command `wire`: one capture through one queue.
ghost use Rattle.std.specs.Prelude.{◌≤◌, ℕ, IfErr, IfOk, List, ◌≡◌, string_bytes};
ghost use Rattle.app_commands.specs.WireFiles.{EndsWiring, SaysCounts};
ghost use Rattle.app_commands.specs.CommandOutputs.{IsWireOutput};
ghost use Rattle.app_commands.specs.Counts.{counts_line};

use crate::files::wire_files;
use crate::output::{Output, print_text};
use app_failure::Failure;
use app_files::Said;
use bridge_frame::Speed;
use bridge_limits::NoMemory;
use bridge_port::LARGEST_ROOM;
use bridge_wire::WireCount;
use std::alloc::{Allocator, Global};
use std::rt::{Clock, Files};

/// Sends a capture through a queue of `room` frames (1 to 4,096), and returns the output of `wire`. The counts go to standard error if
/// standard output gets the capture. `is_watched` shows progress.
///
/// `run_request` of `app_networks` calls it.
pub fn send_capture<H: Input + AllocGlobal + Clock + Print + Eprint + Files>(
    rt: &H,
    speed: Speed,
    room: u16,
    input: &str,
    output: &str,
    is_watched: bool,
) -> Result<Output, Failure>
    requires room { (1 ≤ room) × (room ≤ LARGEST_ROOM) }
    ensures ok { IfOk result (IsWireOutput output.now) }
    ensures fails { IfErr result (EndsWiring input.now output.now) }
{
    match wire_files(rt, speed, room, input, output, is_watched) {
        Ok(said) => Ok(wire_output(rt.alloc(), said)),
        Err(fault) => Err(fault),
    }
}

/// Returns the output of `wire` by its message: on standard output, or on standard error. `send_capture` calls it.
fn wire_output(alloc: Global, said: Said) -> Output
    ensures { (output : List ℕ) → SaysCounts output said → IsWireOutput output result }
{
    match said {
        Said::Printed(line) => print_text(alloc, line, 0),
        Said::Noted(line) => Output {
            stdout: String::new(alloc),
            stderr: line,
            status: 0,
        },
    }
}

/// Returns the line of counts, with its line feed: frames that arrived, malformed frames, copies that left, and copies dropped by the full
/// queue. `wire_job` calls it.
pub fn wire_line<A: Allocator + Copy>(alloc: A, count: &WireCount) -> Result<String<A>, NoMemory>
    ensures { IfOk result (λ line. string_bytes line ≡ counts_line count.now) }
{
    let WireCount {
        frames,
        malformed,
        sent,
        full,
    } = *count;
    Ok(format!(in alloc; "frames {frames} malformed {malformed} sent {sent} full {full}\n")?)
}
