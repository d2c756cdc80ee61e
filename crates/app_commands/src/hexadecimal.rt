//! Sends one capture, as hexadecimal text, through one queue.
ghost use Rattle.std.specs.Prelude.{◌≡◌, ◌≢◌, ◌⊎◌, ℕ, List, Ok, Err, IfOk, IfErr};
ghost use Rattle.std.specs.String.{string_bytes};
ghost use Rattle.bridge_capture.specs.Hex.{spelled_octets};
ghost use Rattle.bridge_capture.specs.declared.hex_fault.HexFault.TheVariants as hex;
ghost use Rattle.app_commands.specs.Text.{IsTextRun, StopsText, text_fault};
ghost use Rattle.bridge_capture.specs.declared.fault.RunFault.{RunFault};
ghost use Rattle.bridge_capture.specs.declared.capture_fault.CaptureFault.TheVariants as capture_faults;
ghost use Rattle.app_commands.specs.CommandOutputs.{FailsText, IsTextOutput};

use crate::jobs::text_job;
use crate::output::{Output, print_text};
use app_failure::{Failure, TextFault};
use bridge_capture::{HexFault, SliceSource, VecSink, hex_lines, parse_octets};
use bridge_frame::Speed;
use bridge_wire::{RunFault, wire};
use std::alloc::Allocator;

/// Queue capacity in frames for a run without arguments.
const ROOM: u16 = 4;

/// Sends a capture in hexadecimal text through one queue of 4 frames at 1,000 Mb/s. Returns the output capture as lower-case hexadecimal
/// text, one line for the header and each record.
///
/// Fails if the text or its capture is refused, or if memory runs out. `text_job` calls it.
pub fn wire_text<A: Allocator + Copy>(alloc: A, text: &[u8]) -> Result<String<A>, TextFault>
    ensures ok { IfOk result (λ lines. (octets : List ℕ) × (spelled_octets text.now ≡ Ok octets)
        × IsTextRun octets (string_bytes lines)) }
    ensures not_hex { result ≡ Err TextFault.NotHex → spelled_octets text.now ≡ Err hex.NotHex }
    ensures too_long { result ≡ Err TextFault.TooLong → spelled_octets text.now ≡ Err hex.TooLong }
    ensures run { (fault : RunFault) (octets : List ℕ) → result ≡ Err (TextFault.Run fault)
        → spelled_octets text.now ≡ Ok octets → StopsText octets fault }
    ensures sure { (port : ℕ) → result ≢ Err (TextFault.Run (RunFault.Capture port capture_faults.Read)) }
    ensures whole { (port : ℕ) → result ≢ Err (TextFault.Run (RunFault.Write port)) }
    ensures spelled { (fault : RunFault) → result ≡ Err (TextFault.Run fault)
        → (fault ≡ RunFault.NoMemory) ⊎ ((octets : List ℕ) × (spelled_octets text.now ≡ Ok octets)) }
{
    let octets = match parse_octets(alloc, text) {
        Ok(octets) => octets,
        Err(fault) => return Err(text_fault(fault)),
    };
    let mut source = SliceSource::new(&octets);
    let mut sink = VecSink::new(alloc);
    if let Err(fault) = wire(alloc, Speed::Mbps1000, ROOM, &mut source, &mut sink) {
        // The sink can't fail except by running out of memory.
        if sink.is_out_of_memory() {
            return Err(TextFault::Run(RunFault::NoMemory));
        }
        return Err(TextFault::Run(fault));
    }
    match hex_lines(alloc, sink.octets()) {
        Ok(lines) => Ok(lines),
        Err(_) => Err(TextFault::Run(RunFault::NoMemory)),
    }
}

/// Returns why `wire_text` doesn't run a text: it isn't hexadecimal, is too long, or memory ran out.
fn text_fault(fault: HexFault) -> TextFault
    ensures { result ≡ text_fault fault }
{
    match fault {
        HexFault::NotHex => TextFault::NotHex,
        HexFault::TooLong => TextFault::TooLong,
        HexFault::NoMemory => TextFault::Run(RunFault::NoMemory),
    }
}

/// Carries out a call without arguments: sends a capture as hexadecimal text from standard input through one queue. Returns the output
/// capture's text as output.
///
/// Fails if standard input can't be read, or if its text or capture is refused.
pub fn send_text(rt: &(impl Input + AllocGlobal)) -> Result<Output, Failure>
    ensures ok { IfOk result IsTextOutput }
    ensures fails { IfErr result FailsText }
{
    match text_job(rt.alloc(), rt.reader()) {
        Ok(lines) => Ok(print_text(rt.alloc(), lines, 0)),
        Err(fault) => Err(fault),
    }
}
