//! Output captures of a run, one for each port: their headers, and the frames that leave.
ghost use Rattle.std.specs.Prelude.{◌≡◌, ◌≢◌, ℕ, ◌<◌, ◌≤◌, ◌*◌, ◌^◌, List, [], Some, None, Option, length, slice_get, Err, IfOk, IfErr, IfSome, OnOk, OnErr, vec_capacity};
ghost use Rattle.bridge_limits.specs.Members.{IsOrdered};
ghost use Rattle.bridge_capture.specs.Grammar.{CapturedFrame};
ghost use Rattle.bridge_config.specs.Model as config;
ghost use Rattle.bridge_relay.specs.Ports.{StartsNoEarlier};
ghost use Rattle.bridge_relay.specs.RelayState.{with_sent_frame, RelayStandsFor};
ghost use Rattle.bridge_semantics.specs.Events.{Event};
ghost use Rattle.bridge_capture.specs.Devices.{HasFailed, AreUnfailing};
ghost use Rattle.bridge_core.specs.CaptureWriters.{AreWritten, SendsDueFrames, IsOutOfMemory, StopsAtHeaders, writer_ports, WritesFrame};

use bridge_capture::{BufferPool, ByteSink, RunFault, Writer};
use bridge_events::Agenda;
use bridge_limits::LONGEST_FRAME;
use bridge_relay::{Relay, Sent};
use std::alloc::Allocator;

/// Output capture of a port, without its sink: sinks stand in a list of their own.
#[derive(Drop)]
pub struct CaptureWriter {
    /// Port whose departures the capture gets.
    pub number: u8,
    /// Writer of the capture's records.
    pub writer: Writer,
}

/// Writes each capture's header to the sink with the port's index. Returns a writer for each port, in `lines`, which must be empty and have
/// the capacity.
///
/// A failed write is `RunFault::Write`. `run_prepared` calls it.
pub fn begin_writers<W: ByteSink, A: Allocator + Copy>(
    ports: &[u8],
    lines: Vec<CaptureWriter, A>,
    sinks: &mut [W],
) -> Result<Vec<CaptureWriter, A>, RunFault>
    requires size { length sinks.old ≡ length ports.now }
    requires none { lines.items ≡ [] }
    requires room { length ports.now ≤ vec_capacity lines }
    ensures lines { IfOk result (λ lines. writer_ports lines.items ≡ ports.now) }
    ensures headers { IfOk result (λ _. AreWritten W.contents ports.now sinks.old sinks.new (λ _. [])) }
    ensures stops { IfErr result (StopsAtHeaders W.contents W.has_failed ports.now sinks.old sinks.new) }
    ensures sound { AreUnfailing W.never_fails sinks.old
        → IfErr result (StopsAtHeaders W.contents W.ran_out ports.now sinks.old sinks.new) }
    ensures holds { AreUnfailing W.never_fails sinks.old → AreUnfailing W.never_fails sinks.new }
{
    let mut lines = lines;
    for place in 0..ports.len() {
        let number = ports[place];
        match Writer::begin(&mut sinks[place]) {
            Ok(writer) => lines.push_reserved(CaptureWriter { number, writer }),
            Err(_) => return Err(RunFault::Write { port: number }),
        }
    }
    Ok(lines)
}

/// Returns the index of the writer of port `port`; `None` if the port has no writer. Tries index `port` - 1 first, because ports are often
/// numbered 1, 2, 3 and so on.
///
/// `write_frame` calls it.
#[inline(always)]
fn writer_index(lines: &[CaptureWriter], port: u8) -> Option<usize>
    ensures within { IfSome result (λ place. place < length lines.now) }
    ensures there { IfSome result (λ place. slice_get (writer_ports lines.now) place ≡ Some port) }
    ensures none { result ≡ None → (i q : ℕ) → slice_get (writer_ports lines.now) i ≡ Some q → q ≢ port }
{
    let own = (port as usize).saturating_sub(1);
    if own < lines.len() && lines[own].number == port {
        return Some(own);
    }
    for place in 0..lines.len() {
        if lines[place].number == port {
            return Some(place);
        }
    }
    None
}

/// Writes a frame that left to the capture of its port. A failed write is `RunFault::Write` of this port. Does nothing if the port lacks a
/// writer. `send_due_frames` calls it.
#[inline(always)]
pub fn write_frame<W: ByteSink, A: Allocator + Copy>(
    lines: &mut [CaptureWriter],
    sinks: &mut [W],
    sent: &Sent<A>,
) -> Result<(), RunFault>
    requires size { length sinks.old ≡ length lines.old }
    requires rises { IsOrdered (λ a b. a < b) (writer_ports lines.old) }
    requires writable { (sent.now.done < 2 ^ 32 * 10 ^ 9) × (length sent.now.octets.items ≤ sent.now.len)
        × (sent.now.len ≤ LONGEST_FRAME) }
    ensures writes { (olds : List W) (left : ℕ → List CapturedFrame)
        → AreWritten W.contents (writer_ports lines.old) olds sinks.old left
        → WritesFrame W.contents sent.now.port (writer_ports lines.old) olds sinks.new (with_sent_frame left sent.now)
        result }
    ensures numbers { writer_ports lines.new ≡ writer_ports lines.old }
    ensures only { OnErr result (result ≡ Err (RunFault.Write sent.now.port)) }
    ensures failed { OnErr result (HasFailed W.has_failed (writer_ports lines.old) sent.now.port sinks.new) }
    ensures sound { AreUnfailing W.never_fails sinks.old
        → OnErr result (IsOutOfMemory W.ran_out (writer_ports lines.old) sent.now.port sinks.new) }
    ensures holds { AreUnfailing W.never_fails sinks.old → AreUnfailing W.never_fails sinks.new }
{
    let Some(place) = writer_index(lines, sent.port) else {
        return Ok(());
    };
    let line = &mut lines[place];
    let sink = &mut sinks[place];
    match line.writer.put(sink, sent.done, sent.len, &sent.octets) {
        Ok(()) => Ok(()),
        Err(_) => Err(RunFault::Write { port: sent.port }),
    }
}

/// Starts all transmissions that are due before time `until` in ns, or all if `until` is `None`, and writes their frames. The frames'
/// buffers return to the pool `spares`.
///
/// Stops with `Write` at the first failed write. `run`, `process_frame` and `process_command` call it.
#[inline(always)]
pub fn send_due_frames<W: ByteSink, G: Agenda + Drop, A: Allocator + Copy>(
    until: Option<u64>,
    relay: &mut Relay<'_, G, A>,
    lines: &mut [CaptureWriter],
    sinks: &mut [W],
    spares: &mut BufferPool<A>,
) -> Result<(), RunFault>
    requires size { length sinks.old ≡ length lines.old }
    requires rises { IsOrdered (λ a b. a < b) (writer_ports lines.old) }
    requires early { IfSome until (λ t. relay.old.earliest ≤ t) }
    requires waits { StartsNoEarlier (G.held relay.old.ports.agenda) relay.old.earliest }
    ensures departs { (p : config.Plan A) (es : List Event) (olds : List W) (left : ℕ → List CapturedFrame)
        → RelayStandsFor p relay.old es left → AreWritten W.contents (writer_ports lines.old) olds sinks.old left
        → SendsDueFrames W.contents p es relay.old.earliest until relay.new (writer_ports lines.old) olds sinks.new
        result }
    ensures waits { OnOk result (IfSome until (StartsNoEarlier (G.held relay.new.ports.agenda))) }
    ensures idle { OnOk result (until ≡ None → (q : ℕ) → G.held relay.new.ports.agenda q ≡ None) }
    ensures early { IfSome until (λ t. relay.new.earliest ≤ t) }
    ensures onward { relay.old.earliest ≤ relay.new.earliest }
    ensures same { (relay.new.plan ≡ relay.old.plan) × (relay.new.arrived ≡ relay.old.arrived) }
    ensures numbers { writer_ports lines.new ≡ writer_ports lines.old }
    ensures failed { (port : ℕ) → result ≡ Err (RunFault.Write port)
        → HasFailed W.has_failed (writer_ports lines.old) port sinks.new }
    ensures sound { AreUnfailing W.never_fails sinks.old → (port : ℕ) → result ≡ Err (RunFault.Write port)
        → IsOutOfMemory W.ran_out (writer_ports lines.old) port sinks.new }
    ensures holds { AreUnfailing W.never_fails sinks.old → AreUnfailing W.never_fails sinks.new }
    ensures only { OnErr result ((port : ℕ) × (result ≡ Err (RunFault.Write port))) }
{
    while let Some((_, start)) = relay.due() {
        if let Some(t) = until
            && start >= t
        {
            return Ok(());
        }
        let sent = relay.advance();
        if let Err(fault) = write_frame(lines, sinks, &sent) {
            return Err(fault);
        }
        let Sent { octets, .. } = sent;
        spares.put(octets);
    }
    Ok(())
}
