//! Handles frames and commands of a run one by one, in order of time. `simulation` prepares the run. Functions update relay, next frames
//! (`heads`), readers (`lanes`), writers (`lines`), `sources`, `sinks` and spare buffers.
ghost use Rattle.std.specs.Prelude.{◌≡◌, ◌≢◌, ℕ, ◌+◌, ◌<◌, ◌≤◌, nat_eq, List, [], Some, None, Option, length, slice_get, Err, true, false, IfSome, IsTrue, OnOk, if◌then◌else◌};
ghost use Rattle.bridge_config.specs.Model as config;
ghost use Rattle.bridge_config.specs.Commands.{has_instance, AreCommands};
ghost use Rattle.bridge_capture.specs.StandsFor.{IsReading};
ghost use Rattle.bridge_relay.specs.Ports.{StartsNoEarlier};
ghost use Rattle.bridge_semantics.specs.Merge.{Input, command_as_input};
ghost use Rattle.bridge_capture.specs.Devices.{AreUnfailing};
ghost use Rattle.bridge_capture.specs.CaptureReaders.{IsEarliestReader, port_numbers, total_frames_left};
ghost use Rattle.bridge_core.specs.CaptureWriters.{writer_ports as written_numbers};
ghost use Rattle.bridge_core.specs.Running.{AreHeads, AreHeadsLater, first_command, RunsOrStops, FinishesOrStops, DoesCommand, HasTakenFrame, HasReadAhead, IsHeadEarlier, IsUnderWay, CanTakeFrames, nth_head_time, head_time, PrecedesCommand, AgreesWithDevices};

use crate::capture_writer::{CaptureWriter, send_due_frames};
use bridge_capture::{
    BufferPool, ByteSink, ByteSource, CaptureFault, CaptureReader, Packet, RunFault, run_fault,
};
use bridge_config::Command;
use bridge_events::Agenda;
use bridge_relay::Relay;
use std::alloc::Allocator;

/// Sets the agenda's entry `place`, from 1, to the time of the next frame of reader `lane`. Clears the entry if the capture has no more
/// frames. `make_heads` and `update_head` call it.
#[inline(always)]
fn set_reader_head<H: Agenda, A: Allocator + Copy>(
    heads: &mut H,
    place: u8,
    lane: &CaptureReader<A>,
)
    requires from { 1 ≤ place }
    requires to { place ≤ 16 }
    ensures { (q : ℕ) → H.held heads.new q ≡ (if nat_eq q place then head_time lane.now else H.held heads.old q) }
{
    match &lane.ahead {
        Some(packet) => heads.set(place, packet.time),
        None => heads.clear(place),
    }
}

/// Updates the agenda's entry of the reader with index `place`, whose next frame has changed. Other entries must be right. `process_frame`
/// calls it after each read.
#[inline(always)]
fn update_head<H: Agenda, A: Allocator + Copy>(
    heads: &mut H,
    lanes: &[CaptureReader<A>],
    place: usize,
)
    requires place { place < length lanes.now }
    requires few { length lanes.now ≤ 16 }
    requires others { (q : ℕ) → q ≢ place + 1 → H.held heads.old q ≡ nth_head_time lanes.now q }
    ensures { AreHeads (H.held heads.new) lanes.now }
{
    set_reader_head(heads, place as u8 + 1, &lanes[place]);
}

/// Returns the agenda of the readers' next frames: the time of each, at the reader's index plus 1. `next_reader` looks up the earliest.
/// `run_prepared` calls it.
pub fn make_heads<H: Agenda, A: Allocator + Copy>(lanes: &[CaptureReader<A>]) -> H
    requires { length lanes.now ≤ 16 }
    ensures { AreHeads (H.held result) lanes.now }
{
    let mut heads = H::empty();
    for place in 0..lanes.len() {
        set_reader_head(&mut heads, place as u8 + 1, &lanes[place]);
    }
    heads
}

/// Removes the next frame from the reader with index `place`, which must have one. Returns the frame with its port. `process_frame` calls
/// it.
fn take_frame<A: Allocator + Copy>(lanes: &mut [CaptureReader<A>], place: usize) -> (u8, Packet<A>)
    requires place { place < length lanes.old }
    requires first { IsEarliestReader lanes.old place }
    ensures given { HasTakenFrame lanes.old lanes.new place result }
{
    let lane = &mut lanes[place];
    match lane.ahead.take() {
        Some(packet) => (lane.number, packet),
        None => unreachable!(),
    }
}

/// Reads the next record of the capture with index `place`, after `take_frame` has removed a frame. The record's octets use the buffer
/// `spare`.
///
/// Fails if the record is refused, the source fails or memory runs out. `process_frame` calls it.
fn read_next_ahead<R: ByteSource, A: Allocator + Copy>(
    spare: Vec<u8, A>,
    place: usize,
    lanes: &mut [CaptureReader<A>],
    sources: &mut [R],
) -> Result<(), CaptureFault>
    requires place { place < length lanes.old }
    requires size { length sources.old ≡ length lanes.old }
    requires reading { (lane : CaptureReader A) → slice_get lanes.old place ≡ Some lane → IsReading lane.capture }
    ensures looked { HasReadAhead R.remaining lanes.old lanes.new sources.old sources.new place result }
    ensures read { result ≡ Err CaptureFault.Read → (source : R) → slice_get sources.new place ≡ Some source
        → R.has_failed source ≡ true }
    ensures sure { AreUnfailing R.never_fails sources.old → result ≢ Err CaptureFault.Read }
    ensures lasts { AreUnfailing R.never_fails sources.old → AreUnfailing R.never_fails sources.new }
    ensures no_write { result ≢ Err CaptureFault.Write }
{
    lanes[place].read_ahead(spare, &mut sources[place])
}

/// Handles the earliest frame, which the reader with index `place` holds. First starts all transmissions that are due before its arrival,
/// and writes their frames to `sinks`.
///
/// Then gives the frame to the relay, and reads the capture's next record. Fails if a sink or the next record fails, or if memory runs out.
/// `process_earlier_frames` calls it.
fn process_frame<R: ByteSource, W: ByteSink, G: Agenda + Drop, A: Allocator + Copy>(
    place: usize,
    relay: &mut Relay<'_, G, A>,
    heads: &mut G,
    lanes: &mut [CaptureReader<A>],
    lines: &mut [CaptureWriter],
    sources: &mut [R],
    sinks: &mut [W],
    spares: &mut BufferPool<A>,
) -> Result<(), RunFault>
    requires place { place < length lanes.old }
    requires first { IsEarliestReader lanes.old place }
    requires may { CanTakeFrames relay.old lanes.old }
    requires lines { written_numbers lines.old ≡ port_numbers lanes.old }
    requires sources { length sources.old ≡ length lanes.old }
    requires sinks { length sinks.old ≡ length lines.old }
    requires waits { StartsNoEarlier (G.held relay.old.ports.agenda) relay.old.earliest }
    requires heads { AreHeads (G.held heads.old) lanes.old }
    ensures goes { (p : config.Plan A) (texts : ℕ → List ℕ) (commanded : List Input) (next : Option Input)
        (olds : List W) → PrecedesCommand lanes.old place next
        → IsUnderWay R.remaining W.contents p texts commanded next olds relay.old lanes.old sources.old sinks.old
        → RunsOrStops R.remaining W.contents p texts commanded next olds relay.new lanes.new sources.new sinks.new
        result }
    ensures may { OnOk result (CanTakeFrames relay.new lanes.new) }
    ensures waits { OnOk result (StartsNoEarlier (G.held relay.new.ports.agenda) relay.new.earliest) }
    ensures heads { OnOk result (AreHeads (G.held heads.new) lanes.new) }
    ensures fewer { OnOk result (total_frames_left lanes.new < total_frames_left lanes.old) }
    ensures moved { OnOk result ((l : CaptureReader A) (c : Packet A) → slice_get lanes.old place ≡ Some l
        → l.ahead ≡ Some c → relay.new.earliest ≡ c.time) }
    ensures same { (relay.new.plan ≡ relay.old.plan) × (port_numbers lanes.new ≡ port_numbers lanes.old)
        × (written_numbers lines.new ≡ written_numbers lines.old) }
    ensures devices { AgreesWithDevices R.has_failed R.never_fails W.has_failed W.never_fails W.ran_out
        (port_numbers lanes.old)
        sources.old sources.new sinks.old sinks.new result }
{
    let (number, packet) = take_frame(lanes, place);
    if let Err(fault) = send_due_frames(Some(packet.time), relay, lines, sinks, spares) {
        return Err(fault);
    }
    match relay.handle_arrival(number, packet, spares) {
        Ok(()) => {}
        Err(_) => {
            relay.assert_reached();
            return Err(RunFault::NoMemory);
        }
    }
    match read_next_ahead(spares.take(), place, lanes, sources) {
        Ok(()) => {
            update_head(heads, lanes, place);
            Ok(())
        }
        Err(fault) => {
            relay.assert_reached();
            Err(run_fault(number, fault))
        }
    }
}

/// Returns whether `time` is before `until`, both in ns. True if `until` is `None`. `next_reader` calls it for the earliest frame.
#[inline(always)]
fn is_earlier(time: u64, until: Option<u64>) -> bool
    ensures before { result ≡ true → IfSome until (λ t. time < t) }
    ensures later { result ≡ false → (t : ℕ) × (until ≡ Some t) × (t ≤ time) }
{
    match until {
        Some(t) => time < t,
        None => true,
    }
}

/// Returns the index of the reader with the earliest frame, if this frame arrives before `until` ns; otherwise `None`. Reads only the
/// agenda, not the frames. `process_earlier_frames` calls it.
#[inline(always)]
fn next_reader<H: Agenda, A: Allocator + Copy>(
    heads: &H,
    lanes: &[CaptureReader<A>],
    until: Option<u64>,
) -> Option<usize>
    requires heads { AreHeads (H.held heads.now) lanes.now }
    ensures place { IfSome result (λ place. place < length lanes.now) }
    ensures first { IfSome result (IsEarliestReader lanes.now) }
    ensures before { IfSome result (IsHeadEarlier until lanes.now) }
    ensures later { result ≡ None → AreHeadsLater until lanes.now }
{
    match heads.least() {
        Some((port, time)) if is_earlier(time, until) => Some(port as usize - 1),
        _ => None,
    }
}

/// Handles all frames before time `until` in ns, or all frames if it is `None`. Stops at the first fault. `process_command` and `run` call
/// it.
fn process_earlier_frames<R: ByteSource, W: ByteSink, G: Agenda + Drop, A: Allocator + Copy>(
    until: Option<u64>,
    relay: &mut Relay<'_, G, A>,
    heads: &mut G,
    lanes: &mut [CaptureReader<A>],
    lines: &mut [CaptureWriter],
    sources: &mut [R],
    sinks: &mut [W],
    spares: &mut BufferPool<A>,
) -> Result<(), RunFault>
    requires may { CanTakeFrames relay.old lanes.old }
    requires lines { written_numbers lines.old ≡ port_numbers lanes.old }
    requires sources { length sources.old ≡ length lanes.old }
    requires sinks { length sinks.old ≡ length lines.old }
    requires waits { StartsNoEarlier (G.held relay.old.ports.agenda) relay.old.earliest }
    requires heads { AreHeads (G.held heads.old) lanes.old }
    requires early { IfSome until (λ t. relay.old.earliest ≤ t) }
    ensures goes { (p : config.Plan A) (texts : ℕ → List ℕ) (commanded : List Input) (next : Option Input)
        (olds : List W) → IfSome next (λ y. until ≡ Some y.at)
        → IsUnderWay R.remaining W.contents p texts commanded next olds relay.old lanes.old sources.old sinks.old
        → RunsOrStops R.remaining W.contents p texts commanded next olds relay.new lanes.new sources.new sinks.new
        result }
    ensures may { OnOk result (CanTakeFrames relay.new lanes.new) }
    ensures waits { OnOk result (StartsNoEarlier (G.held relay.new.ports.agenda) relay.new.earliest) }
    ensures heads { OnOk result (AreHeads (G.held heads.new) lanes.new) }
    ensures later { OnOk result (AreHeadsLater until lanes.new) }
    ensures early { OnOk result (IfSome until (λ t. relay.new.earliest ≤ t)) }
    ensures same { (relay.new.plan ≡ relay.old.plan) × (port_numbers lanes.new ≡ port_numbers lanes.old)
        × (written_numbers lines.new ≡ written_numbers lines.old) }
    ensures devices { AgreesWithDevices R.has_failed R.never_fails W.has_failed W.never_fails W.ran_out
        (port_numbers lanes.old)
        sources.old sources.new sinks.old sinks.new result }
{
    while let Some(place) = next_reader(heads, lanes, until) {
        if let Err(fault) = process_frame(
            place, relay, heads, lanes, lines, sources, sinks, spares,
        ) {
            return Err(fault);
        }
    }
    Ok(())
}

/// Handles all frames before the command's time, writes due frames to `sinks`, and clears the command's flag. Frames that arrive at the
/// command's time are handled later.
///
/// Fails if a capture or a sink fails, or if memory runs out. `run` calls it.
fn process_command<R: ByteSource, W: ByteSink, G: Agenda + Drop, A: Allocator + Copy>(
    command: Command,
    relay: &mut Relay<'_, G, A>,
    heads: &mut G,
    lanes: &mut [CaptureReader<A>],
    lines: &mut [CaptureWriter],
    sources: &mut [R],
    sinks: &mut [W],
    spares: &mut BufferPool<A>,
) -> Result<(), RunFault>
    requires may { CanTakeFrames relay.old lanes.old }
    requires lines { written_numbers lines.old ≡ port_numbers lanes.old }
    requires sources { length sources.old ≡ length lanes.old }
    requires sinks { length sinks.old ≡ length lines.old }
    requires waits { StartsNoEarlier (G.held relay.old.ports.agenda) relay.old.earliest }
    requires heads { AreHeads (G.held heads.old) lanes.old }
    requires time { relay.old.earliest ≤ command.at }
    requires instance { IsTrue (has_instance relay.old.plan command.clear command.number) }
    ensures goes { (p : config.Plan A) (texts : ℕ → List ℕ) (commanded : List Input) (next : Option Input)
        (olds : List W) → IfSome next (λ y. command.at ≤ y.at)
        → IsUnderWay R.remaining W.contents p texts commanded
        (Some (command_as_input command)) olds relay.old lanes.old sources.old sinks.old
        → DoesCommand R.remaining W.contents p texts commanded command next olds relay.new lanes.new sources.new
        sinks.new
        result }
    ensures may { OnOk result (CanTakeFrames relay.new lanes.new) }
    ensures waits { OnOk result (StartsNoEarlier (G.held relay.new.ports.agenda) relay.new.earliest) }
    ensures heads { OnOk result (AreHeads (G.held heads.new) lanes.new) }
    ensures moved { OnOk result (relay.new.earliest ≡ command.at) }
    ensures same { (relay.new.plan ≡ relay.old.plan) × (port_numbers lanes.new ≡ port_numbers lanes.old)
        × (written_numbers lines.new ≡ written_numbers lines.old) }
    ensures devices { AgreesWithDevices R.has_failed R.never_fails W.has_failed W.never_fails W.ran_out
        (port_numbers lanes.old)
        sources.old sources.new sinks.old sinks.new result }
{
    let at = Some(command.at);
    if let Err(fault) = process_earlier_frames(
        at, relay, heads, lanes, lines, sources, sinks, spares,
    ) {
        return Err(fault);
    }
    if let Err(fault) = send_due_frames(at, relay, lines, sinks, spares) {
        return Err(fault);
    }
    relay.clear(command.at, command.clear, command.number);
    Ok(())
}

/// Handles all frames and commands in their order. Starts all transmissions, and writes their frames. Stops at the first fault.
/// `run_prepared` calls it.
pub fn run<R: ByteSource, W: ByteSink, G: Agenda + Drop, A: Allocator + Copy>(
    commands: &[Command],
    relay: &mut Relay<'_, G, A>,
    heads: &mut G,
    lanes: &mut [CaptureReader<A>],
    lines: &mut [CaptureWriter],
    sources: &mut [R],
    sinks: &mut [W],
    spares: &mut BufferPool<A>,
) -> Result<(), RunFault>
    requires may { CanTakeFrames relay.old lanes.old }
    requires new { relay.old.earliest ≡ 0 }
    requires commands { AreCommands relay.old.plan commands.now }
    requires lines { written_numbers lines.old ≡ port_numbers lanes.old }
    requires sources { length sources.old ≡ length lanes.old }
    requires sinks { length sinks.old ≡ length lines.old }
    requires heads { AreHeads (G.held heads.old) lanes.old }
    ensures goes { (p : config.Plan A) (texts : ℕ → List ℕ) (olds : List W)
        → IsUnderWay R.remaining W.contents p texts []
        (first_command commands.now) olds relay.old lanes.old sources.old sinks.old
        → FinishesOrStops R.remaining W.contents p texts commands.now olds relay.new lanes.new sources.new sinks.new
        result }
    ensures idle { OnOk result ((q : ℕ) → G.held relay.new.ports.agenda q ≡ None) }
    ensures same { (relay.new.plan ≡ relay.old.plan) × (port_numbers lanes.new ≡ port_numbers lanes.old)
        × (written_numbers lines.new ≡ written_numbers lines.old) }
    ensures devices { AgreesWithDevices R.has_failed R.never_fails W.has_failed W.never_fails W.ran_out
        (port_numbers lanes.old)
        sources.old sources.new sinks.old sinks.new result }
{
    for command in commands {
        if let Err(fault) = process_command(
            *command, relay, heads, lanes, lines, sources, sinks, spares,
        ) {
            return Err(fault);
        }
    }
    if let Err(fault) = process_earlier_frames(
        None, relay, heads, lanes, lines, sources, sinks, spares,
    ) {
        return Err(fault);
    }
    send_due_frames(None, relay, lines, sinks, spares)
}
