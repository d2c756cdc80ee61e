//! Sends a capture through one queue, from a reader into a writer.
ghost use Rattle.std.specs.Prelude.{◌≡◌, ◌≤◌, ◌+◌, ◌⊎◌, ℕ, List, Option, Some, None, IfOk, IfErr, IfSome};
ghost use Rattle.bridge_wire.specs.Wire.{NamesPortOne, StopsRun, WiresText};

use bridge_capture::{MAX_RECORDS, ReadAhead, WriteBehind};
use bridge_frame::Speed;
use bridge_port::LARGEST_ROOM;
use bridge_wire::{RunFault, WireCount, wire};
use std::alloc::Allocator;
use std::io::{Read, Write};

/// Why a run through one queue stopped, with its flushed writer. `writer` is `None` if a part of its contents may be missing.
#[derive(Drop)]
pub struct StoppedRun<W> {
    pub fault: RunFault,
    pub writer: Option<W>,
}

/// Sends a reader's capture through one queue of `room` frames (1 to 4,096) into a writer, and returns the flushed writer.
///
/// Reads and writes blocks of 131,072 octets. Flushes the writer even after a fault; a failed flush replaces that fault. `wire_job` calls
/// it.
pub fn wire_capture<R: Read + Drop, W: Write + Drop, A: Allocator + Copy>(
    alloc: A,
    speed: Speed,
    room: u16,
    reader: R,
    writer: W,
) -> Result<(WireCount, W), StoppedRun<W>>
    requires room { (1 ≤ room) × (room ≤ LARGEST_ROOM) }
    ensures ok { (text : List ℕ) → R.remaining reader ≡ Some text →
        IfOk result (λ done. WiresText speed room text (W.contents writer) (W.contents done.1) done.0) }
    ensures err { (text : List ℕ) → R.remaining reader ≡ Some text →
        IfErr result (λ halted. IfSome halted.writer (λ w.
        (rest : Option (List ℕ)) × StopsRun speed room text rest (W.contents writer) (W.contents w) halted.fault)) }
    ensures lost { IfErr result (λ halted. halted.writer ≡ None
        → (halted.fault ≡ RunFault.Write 1) ⊎ (halted.fault ≡ RunFault.NoMemory)) }
    ensures sums { IfOk result (λ done. done.0.malformed + done.0.sent + done.0.full ≡ done.0.frames) }
    ensures few { IfOk result (λ done. done.0.frames ≤ MAX_RECORDS) }
    ensures one { IfErr result (λ halted. NamesPortOne halted.fault) }
{
    let Ok(mut source) = ReadAhead::new(alloc, reader) else {
        return Err(StoppedRun {
            fault: RunFault::NoMemory,
            writer: Some(writer),
        });
    };
    let Ok(mut sink) = WriteBehind::new(alloc, writer) else {
        return Err(StoppedRun {
            fault: RunFault::NoMemory,
            writer: None,
        });
    };
    let ran = wire(alloc, speed, room, &mut source, &mut sink);
    let Ok(writer) = sink.finish() else {
        return Err(StoppedRun {
            fault: RunFault::Write { port: 1 },
            writer: None,
        });
    };
    match ran {
        Ok(count) => Ok((count, writer)),
        Err(fault) => Err(StoppedRun {
            fault,
            writer: Some(writer),
        }),
    }
}
