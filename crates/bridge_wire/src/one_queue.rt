//! Sends one capture through one queue. The frame ahead is the capture's next frame: it was read, and isn't offered to the queue yet.
ghost use Rattle.std.specs.Prelude.{◌≡◌, ◌≢◌, ◌≤◌, ◌<◌, ◌+◌, ℕ, List, [], ◌∷◌, ◌++◌, None, Some, Err, Option, Vec, length, true, IfOk, IfErr, OnOk, OnErr};
ghost use Rattle.bridge_capture.specs.Grammar.{CapturedFrame};
ghost use Rattle.bridge_capture.specs.StandsFor.{HasReadFrames, IsReading, records_left, StandsFor};
ghost use Rattle.bridge_port.specs.StandsFor.{count_queued};
ghost use Rattle.bridge_capture.specs.CaptureReaders.{IsReader, frames_left as room_ahead};
ghost use Rattle.bridge_wire.specs.Wire.{NamesPortOne, StopsRun, WiresText};
ghost use Rattle.bridge_wire.specs.Departures.{RunsOneMore, EndsOrStops, is_overlong, IsRunning, IsUnderWay, no_count};
ghost use Rattle.bridge_wire.specs.OpenQueues.{ContinuesOrStops, arrived_frame, packet_ahead, place_ahead, queue_reader, queue_state, with_frames};

use crate::departures::send_due_frames;
use crate::open_queue::OpenQueue;
use crate::wire_count::WireCount;
use bridge_capture::{
    ByteSink, ByteSource, Capture, CaptureFault, CaptureReader, MAX_RECORDS, Packet, RunFault,
    Writer, run_fault,
};
use bridge_frame::{Speed, parse};
use bridge_limits::{END_OF_TIME, MAX_CAPTURED_OCTETS};
use bridge_port::{Item, LARGEST_ROOM};
use std::alloc::Allocator;

/// Starts and writes all frames that are due before `time` ns, when the frame ahead arrived. Then offers the frame ahead to the queue, or
/// only counts it if its header can't be read.
///
/// Fails with `Write` if the sink fails. `process_frame` calls it.
#[inline(always)]
fn offer_frame<W: ByteSink, A: Allocator + Copy>(
    speed: Speed,
    time: u64,
    queue: &mut OpenQueue<A>,
    writer: &mut Writer,
    sink: &mut W,
    count: &mut WireCount,
) -> Result<(), RunFault>
    requires time { (queue.old.earliest ≤ time) × (time < END_OF_TIME) }
    requires octets { (x : Item (Vec ℕ A)) → place_ahead queue.old ≡ Some x
        → (length x.load.items ≤ MAX_CAPTURED_OCTETS) × (length x.load.items ≤ x.len) }
    requires speed { queue.old.speed ≡ speed }
    requires within { count_queued is_overlong (queue_state queue.old) ≡ 0 }
    requires offered { queue.old.offered ≤ (with_frames count.old).frames }
    requires few { (with_frames count.old).frames < MAX_RECORDS }
    ensures continues { (x : Item (Vec ℕ A)) (room : ℕ) (frames : List CapturedFrame) (began : Option (List ℕ))
        → place_ahead queue.old ≡ Some x
        → IsRunning speed room frames (queue_state queue.old) (with_frames count.old) began (W.contents sink.old)
        → RunsOneMore speed room frames (arrived_frame time x) (queue_state queue.new) (with_frames count.new) began
        (W.contents sink.new) result }
    ensures same { OnOk result ((queue.new.speed ≡ speed) × (count_queued is_overlong (queue_state queue.new) ≡ 0)) }
    ensures early { OnOk result (queue.new.earliest ≤ time) }
    ensures counts { OnOk result (((with_frames count.new).frames ≡ (with_frames count.old).frames + 1)
        × (queue.new.offered ≤ (with_frames count.new).frames)) }
    ensures only { OnErr result (result ≡ Err (RunFault.Write 1)) }
    ensures fails { OnErr result (W.has_failed sink.new ≡ true) }
    ensures sound { W.never_fails sink.old ≡ true → OnErr result (W.ran_out sink.new ≡ true) }
    ensures holds { W.never_fails sink.old ≡ true → W.never_fails sink.new ≡ true }
{
    if let Err(fault) = send_due_frames(time, queue, writer, sink) {
        return Err(fault);
    }
    let ahead = queue.ahead();
    match parse(&ahead.load, ahead.len) {
        Err(_) => count.malformed += 1,
        Ok(_) => {
            if queue.offer(time) {
                count.sent += 1;
            } else {
                count.full += 1;
            }
        }
    }
    Ok(())
}

/// Writes frames that start before `time` ns, then offers the frame ahead, which arrived at `time`, to the queue; malformed frames are only
/// counted.
///
/// Then reads the next record and returns its arrival time in ns. Returns `None` at the capture's end. Fails if the sink or the next record
/// fails. `send_all` calls it.
#[inline(always)]
fn process_frame<R: ByteSource, W: ByteSink, A: Allocator + Copy>(
    speed: Speed,
    time: u64,
    capture: &mut Capture,
    queue: &mut OpenQueue<A>,
    writer: &mut Writer,
    count: &mut WireCount,
    source: &mut R,
    sink: &mut W,
) -> Result<Option<u64>, RunFault>
    requires time { (queue.old.earliest ≤ time) × (time < END_OF_TIME) }
    requires octets { (x : Item (Vec ℕ A)) → place_ahead queue.old ≡ Some x
        → (length x.load.items ≤ MAX_CAPTURED_OCTETS) × (length x.load.items ≤ x.len) }
    requires speed { queue.old.speed ≡ speed }
    requires within { count_queued is_overlong (queue_state queue.old) ≡ 0 }
    requires offered { queue.old.offered ≤ (with_frames count.old).frames }
    requires few { (with_frames count.old).frames < MAX_RECORDS }
    requires reading { IsReading capture.old }
    requires latest { capture.old.latest ≡ time }
    ensures goes { (x : Item (Vec ℕ A)) (room : ℕ) (text : List ℕ) (frames : List CapturedFrame)
        (began : Option (List ℕ)) → place_ahead queue.old ≡ Some x
        → StandsFor capture.old (R.remaining source.old) text (frames ++ arrived_frame time x ∷ [])
        → HasReadFrames text (frames ++ arrived_frame time x ∷ [])
        → IsRunning speed room frames (queue_state queue.old) (with_frames count.old) began (W.contents sink.old)
        → ContinuesOrStops speed room text (R.remaining source.new) capture.new queue.new (with_frames count.new)
        began
        (W.contents sink.new) result }
    ensures same { OnOk result ((queue.new.speed ≡ speed) × (count_queued is_overlong (queue_state queue.new) ≡ 0)) }
    ensures lane { IfOk result (λ next. IsReader (queue_reader capture.new next queue.new)) }
    ensures onward { IfOk result (λ next. (t : ℕ) → next ≡ Some t → queue.new.earliest ≤ t) }
    ensures fewer { IfOk result (λ next. room_ahead (queue_reader capture.new next queue.new)
        ≤ records_left capture.old) }
    ensures counts { OnOk result (((with_frames count.new).frames ≡ (with_frames count.old).frames + 1)
        × (queue.new.offered ≤ (with_frames count.new).frames)) }
    ensures one { IfErr result NamesPortOne }
    ensures read { (number : ℕ) → result ≡ Err (RunFault.Capture number CaptureFault.Read)
        → R.has_failed source.new ≡ true }
    ensures sure { (number : ℕ) → R.never_fails source.old ≡ true
        → result ≢ Err (RunFault.Capture number CaptureFault.Read) }
    ensures lasts { R.never_fails source.old ≡ true → R.never_fails source.new ≡ true }
    ensures write { (number : ℕ) → result ≡ Err (RunFault.Write number) → W.has_failed sink.new ≡ true }
    ensures sound { (number : ℕ) → W.never_fails sink.old ≡ true → result ≡ Err (RunFault.Write number)
        → W.ran_out sink.new ≡ true }
    ensures holds { W.never_fails sink.old ≡ true → W.never_fails sink.new ≡ true }
{
    if let Err(fault) = offer_frame(speed, time, queue, writer, sink, count) {
        return Err(fault);
    }
    match queue.read_ahead(capture, source) {
        Ok(next) => Ok(next),
        Err(fault) => Err(run_fault(1, fault)),
    }
}

/// Sends all frames of a capture through a queue, writes all departures, and returns the counts. The frame ahead arrived at `first` ns;
/// `first` is `None` if the capture has no frame.
///
/// Stops at the first fault. `wire` calls it.
fn send_all<R: ByteSource, W: ByteSink, A: Allocator + Copy>(
    speed: Speed,
    first: Option<u64>,
    capture: &mut Capture,
    queue: &mut OpenQueue<A>,
    writer: &mut Writer,
    source: &mut R,
    sink: &mut W,
) -> Result<WireCount, RunFault>
    requires new { (queue.old.earliest ≡ 0) × (queue.old.offered ≡ 0) }
    requires speed { queue.old.speed ≡ speed }
    requires within { count_queued is_overlong (queue_state queue.old) ≡ 0 }
    requires lane { IsReader (queue_reader capture.old first queue.old) }
    requires few { room_ahead (queue_reader capture.old first queue.old) ≤ MAX_RECORDS }
    ensures ends { (room : ℕ) (text : List ℕ) (began : Option (List ℕ))
        → IsUnderWay speed room text (R.remaining source.old) (queue_reader capture.old first queue.old)
        (queue_state queue.old) no_count began (W.contents sink.old)
        → EndsOrStops speed room text (R.remaining source.new) began (W.contents sink.new) result }
    ensures sums { IfOk result (λ count. count.malformed + count.sent + count.full ≡ count.frames) }
    ensures few { IfOk result (λ count. count.frames ≤ MAX_RECORDS) }
    ensures one { IfErr result NamesPortOne }
    ensures read { (number : ℕ) → result ≡ Err (RunFault.Capture number CaptureFault.Read)
        → R.has_failed source.new ≡ true }
    ensures sure { (number : ℕ) → R.never_fails source.old ≡ true
        → result ≢ Err (RunFault.Capture number CaptureFault.Read) }
    ensures write { (number : ℕ) → result ≡ Err (RunFault.Write number) → W.has_failed sink.new ≡ true }
    ensures sound { (number : ℕ) → W.never_fails sink.old ≡ true → result ≡ Err (RunFault.Write number)
        → W.ran_out sink.new ≡ true }
{
    let mut count = WireCount {
        frames: 0,
        malformed: 0,
        sent: 0,
        full: 0,
    };
    let mut next = first;
    while let Some(time) = next {
        match process_frame(
            speed, time, capture, queue, writer, &mut count, source, sink,
        ) {
            Ok(after) => next = after,
            Err(fault) => return Err(fault),
        }
    }
    if let Err(fault) = send_due_frames(u64::MAX, queue, writer, sink) {
        return Err(fault);
    }
    // Each frame adds 1 to exactly one of these three counts, so the loop doesn't count all frames.
    count.frames = count.malformed + count.sent + count.full;
    Ok(count)
}

/// Splits the optional frame ahead into its arrival time in ns and an item. Without a frame, returns `None` and an empty item. `wire` gives
/// the item to the queue.
fn split_packet<A: Allocator + Copy>(
    alloc: A,
    ahead: Option<Packet<A>>,
) -> (Option<u64>, Item<Vec<u8, A>>)
    ensures { packet_ahead result.0 (Some result.1) ≡ ahead }
{
    match ahead {
        Some(Packet { time, len, octets }) => (Some(time), Item { len, load: octets }),
        None => (
            None,
            Item {
                len: 0,
                load: Vec::new(alloc),
            },
        ),
    }
}

/// Sends the frames of a capture through one queue with capacity `room`, always open, on a link of speed `speed`. Writes the capture of the
/// frames that left, at the ends of their transmissions.
///
/// The reader is one record ahead: earlier starts are written before a frame is offered. Nothing is written before the first read. Frames
/// without a readable header are only counted.
///
/// Faults of the source are `Capture` of port 1. Faults of the sink are `Write` of port 1; the sink then has a prefix of the capture.
///
/// `wire_capture` and `wire_text` of `app_commands` call it.
pub fn wire<R: ByteSource, W: ByteSink, A: Allocator + Copy>(
    alloc: A,
    speed: Speed,
    room: u16,
    source: &mut R,
    sink: &mut W,
) -> Result<WireCount, RunFault>
    requires room { (1 ≤ room) × (room ≤ LARGEST_ROOM) }
    ensures ok { (text : List ℕ) → R.remaining source.old ≡ Some text
        → IfOk result (WiresText speed room text (W.contents sink.old) (W.contents sink.new)) }
    ensures err { (text : List ℕ) → R.remaining source.old ≡ Some text →
        IfErr result (StopsRun speed room text (R.remaining source.new) (W.contents sink.old) (W.contents sink.new)) }

    // Guarantees for any source and sink.
    ensures sums { IfOk result (λ count. count.malformed + count.sent + count.full ≡ count.frames) }
    ensures few { IfOk result (λ count. count.frames ≤ MAX_RECORDS) }
    ensures one { IfErr result NamesPortOne }
    ensures read { (port : ℕ) → result ≡ Err (RunFault.Capture port CaptureFault.Read)
        → R.has_failed source.new ≡ true }
    ensures sure { (port : ℕ) → R.never_fails source.old ≡ true
        → result ≢ Err (RunFault.Capture port CaptureFault.Read) }
    ensures write { (port : ℕ) → result ≡ Err (RunFault.Write port) → W.has_failed sink.new ≡ true }
    ensures sound { (port : ℕ) → W.never_fails sink.old ≡ true → result ≡ Err (RunFault.Write port)
        → W.ran_out sink.new ≡ true }
{
    let lane = match CaptureReader::begin(alloc, 1, source) {
        Ok(lane) => lane,
        Err(fault) => return Err(run_fault(1, fault)),
    };
    let CaptureReader {
        mut capture,
        ahead,
        ..
    } = lane;
    let (first, item) = split_packet(alloc, ahead);
    let Ok(mut queue) = OpenQueue::new(alloc, speed, room, item) else {
        return Err(RunFault::NoMemory);
    };
    let Ok(mut writer) = Writer::begin(sink) else {
        drop(queue);
        return Err(RunFault::Write { port: 1 });
    };
    let done = send_all(
        speed,
        first,
        &mut capture,
        &mut queue,
        &mut writer,
        source,
        sink,
    );
    drop(queue);
    done
}
