//! Starts the due frames of a queue, and writes their records to the output capture.
ghost use Rattle.std.specs.Prelude.{◌≡◌, ◌≤◌, ◌<◌, ◌+◌, ◌*◌, ◌^◌, ℕ, true, false, Err, List, Option, OnOk, OnErr, max, length};
ghost use Rattle.std.specs.Io.KnownBytes.{Appends};
ghost use Rattle.bridge_capture.specs.Grammar.{CapturedFrame};
ghost use Rattle.bridge_capture.specs.Sinks.{AppendsPrefix};
ghost use Rattle.bridge_capture.specs.WrittenCapture.{written_record};
ghost use Rattle.bridge_port.specs.StandsFor.{count_queued, IsNextStartTime, HasNoStartEarlier};
ghost use Rattle.bridge_wire.specs.Wire.{Offer};
ghost use Rattle.bridge_wire.specs.Departures.{WritesDepartures, is_overlong, IsNotEarlier, HasSent};
ghost use Rattle.bridge_wire.specs.OpenQueues.{place_ahead, queue_state};

use crate::open_queue::OpenQueue;
use bridge_capture::{ByteSink, RunFault, SNAP_LENGTH, Writer};
use std::alloc::Allocator;

/// Starts the oldest frame at `start` ns, and writes its record, whose time is the end of transmission. If the write fails, returns
/// `RunFault::Write` of port 1.
///
/// `send_due_frames` calls it.
#[inline(always)]
pub fn send_next<W: ByteSink, A: Allocator + Copy>(
    start: u64,
    queue: &mut OpenQueue<A>,
    writer: &mut Writer,
    sink: &mut W,
) -> Result<(), RunFault>
    requires due { start ≡ max queue.old.free queue.old.earliest }
    requires some { 0 < queue.old.queued }
    requires within { count_queued is_overlong (queue_state queue.old) ≡ 0 }
    ensures goes { (offers : List Offer) (sent full : ℕ) (left : List CapturedFrame)
        → HasSent (queue_state queue.old) offers sent full left
        → WritesDepartures (queue_state queue.new) offers sent full left (W.contents sink.old) (W.contents sink.new)
        result }
    ensures same { (queue.new.speed ≡ queue.old.speed) × ((queue_state queue.new).rooms ≡ (queue_state queue.old).rooms)
        × (queue.new.offered ≡ queue.old.offered) × (place_ahead queue.new ≡ place_ahead queue.old) }
    ensures within { count_queued is_overlong (queue_state queue.new) ≡ 0 }
    ensures fewer { queue.new.queued < queue.old.queued }
    ensures moment { queue.new.earliest ≡ start + 1 }
    ensures late { (h : ℕ) → HasNoStartEarlier (queue_state queue.old) h → h < queue.new.earliest }
    ensures only { OnErr result (result ≡ Err (RunFault.Write 1)) }
    ensures fails { OnErr result (W.has_failed sink.new ≡ true) }
    ensures sound { W.never_fails sink.old ≡ true → OnErr result (W.ran_out sink.new ≡ true) }
    ensures holds { W.never_fails sink.old ≡ true → W.never_fails sink.new ≡ true }
{
    let end = queue.end_of_transmission(start);
    let item = queue.oldest();
    let is_written = write_record(writer, sink, end, item.len, &item.load);
    queue.start(start, end);
    if is_written {
        return Ok(());
    }
    Err(RunFault::Write { port: 1 })
}

/// Writes the record of a frame whose transmission ends at `done` ns. Returns whether the sink accepted the whole record. `send_next` calls
/// it.
#[inline(always)]
fn write_record<W: ByteSink>(
    writer: &mut Writer,
    sink: &mut W,
    done: u64,
    len: u32,
    octets: &[u8],
) -> bool
    requires seconds { done < 2 ^ 32 * 10 ^ 9 }
    requires captured { length octets.now ≤ SNAP_LENGTH }
    requires original { length octets.now ≤ len }
    ensures whole { result ≡ true
        → Appends (W.contents sink.old) (W.contents sink.new) (written_record done len octets.now) }
    ensures front { result ≡ false
        → AppendsPrefix (W.contents sink.old) (W.contents sink.new) (written_record done len octets.now) }
    ensures fails { result ≡ false → W.has_failed sink.new ≡ true }
    ensures sure { W.never_fails sink.old ≡ true → result ≡ false → W.ran_out sink.new ≡ true }
    ensures lasts { W.never_fails sink.old ≡ true → W.never_fails sink.new ≡ true }
{
    writer.put(sink, done, len, octets).is_ok()
}

/// Starts and writes all frames due before time `t` in ns. Stops at the first failed write. `offer_frame` and `send_all` call it.
#[inline(always)]
pub fn send_due_frames<W: ByteSink, A: Allocator + Copy>(
    t: u64,
    queue: &mut OpenQueue<A>,
    writer: &mut Writer,
    sink: &mut W,
) -> Result<(), RunFault>
    requires within { count_queued is_overlong (queue_state queue.old) ≡ 0 }
    ensures goes { (offers : List Offer) (sent full : ℕ) (left : List CapturedFrame)
        → HasSent (queue_state queue.old) offers sent full left
        → WritesDepartures (queue_state queue.new) offers sent full left (W.contents sink.old) (W.contents sink.new)
        result }
    ensures same { (queue.new.speed ≡ queue.old.speed) × ((queue_state queue.new).rooms ≡ (queue_state queue.old).rooms)
        × (queue.new.offered ≡ queue.old.offered) × (place_ahead queue.new ≡ place_ahead queue.old) }
    ensures within { count_queued is_overlong (queue_state queue.new) ≡ 0 }
    ensures earliest { queue.old.earliest ≤ t → queue.new.earliest ≤ t }
    ensures due { OnOk result ((next : Option ℕ) × IsNextStartTime (queue_state queue.new) next × IsNotEarlier t next) }
    ensures calm { (h : ℕ) → HasNoStartEarlier (queue_state queue.old) h → HasNoStartEarlier (queue_state queue.new) h }
    ensures late { OnErr result ((h : ℕ) → HasNoStartEarlier (queue_state queue.old) h → h ≤ queue.new.earliest) }
    ensures only { OnErr result (result ≡ Err (RunFault.Write 1)) }
    ensures fails { OnErr result (W.has_failed sink.new ≡ true) }
    ensures sound { W.never_fails sink.old ≡ true → OnErr result (W.ran_out sink.new ≡ true) }
    ensures holds { W.never_fails sink.old ≡ true → W.never_fails sink.new ≡ true }
{
    while let Some(k) = queue.next_start() {
        if k >= t {
            return Ok(());
        }
        send_next(k, queue, writer, sink)?;
    }
    Ok(())
}
