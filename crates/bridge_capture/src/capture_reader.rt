//! Reads the capture of a bridge's port one record ahead.
ghost use Rattle.std.specs.Prelude.{◌≡◌, ◌≢◌, ℕ, ◌<◌, ◌≤◌, List, Option, [], None, Some, length, Err, true, IfOk, IfErr, OnOk};
ghost use Rattle.bridge_limits.specs.Members.{IsOrdered};
ghost use Rattle.bridge_limits.specs.declared.TheConstants.{MAX_ARRIVALS};
ghost use Rattle.bridge_capture.specs.declared.record.TheConstants.{MAX_RECORDS};
ghost use Rattle.bridge_capture.specs.Grammar.{CapturedFrame};
ghost use Rattle.bridge_capture.specs.StandsFor.{StandsFor, IsReading, records_left};
ghost use Rattle.bridge_capture.specs.Devices.{HasFailed, AreUnfailing};
ghost use Rattle.bridge_capture.specs.CaptureReaders.{AreOneAhead, AreReaders, HaveRests, HaveTexts, BeginsReader, FailsToBegin, run_fault, IsReader, ReadsAhead, port_numbers, frames_left, total_frames_left};

use crate::byte_source::ByteSource;
use crate::capture::Capture;
use crate::capture_fault::CaptureFault;
use crate::fault::RunFault;
use crate::packet::Packet;
use std::alloc::Allocator;

/// Reader of a port's capture. It reads one frame ahead, so that a run can select the earliest frame of all ports.
#[derive(Drop)]
pub struct CaptureReader<A: Allocator + Copy> {
    /// Port of the capture.
    pub number: u8,
    /// Capture, which has been read up to the end of the frame ahead.
    pub capture: Capture,
    /// Next frame; `None` at the capture's end, and after a run has taken the frame.
    pub ahead: Option<Packet<A>>,
}

impl<A: Allocator + Copy> CaptureReader<A> {
    /// Reads the header and the first record of a capture, or returns the first fault. `begin_readers` and `wire` of `bridge_wire` call it.
    pub fn begin<R: ByteSource>(
        alloc: A,
        number: u8,
        source: &mut R,
    ) -> Result<CaptureReader<A>, CaptureFault>
        ensures begins { (text : List ℕ) → R.remaining source.old ≡ Some text
            → BeginsReader (R.remaining source.new) text result }
        ensures lane { IfOk result IsReader }
        ensures number { IfOk result (λ lane. lane.number ≡ number) }
        ensures room { IfOk result (λ lane. frames_left lane ≤ MAX_RECORDS) }
        ensures read { result ≡ Err CaptureFault.Read → R.has_failed source.new ≡ true }
        ensures sure { R.never_fails source.old ≡ true → result ≢ Err CaptureFault.Read }
        ensures lasts { R.never_fails source.old ≡ true → R.never_fails source.new ≡ true }
        ensures no_write { result ≢ Err CaptureFault.Write }
    {
        let mut capture = Capture::begin(source)?;
        let ahead = capture.next(alloc, source)?;
        Ok(CaptureReader {
            number,
            capture,
            ahead,
        })
    }

    /// Reads the next frame into `ahead`, with `spare` as the buffer of its octets. At the capture's end or at a fault, `ahead` becomes
    /// `None`.
    ///
    /// `read_next_ahead` of `bridge_core` calls it after the frame ahead was taken.
    #[inline(always)]
    pub fn read_ahead<R: ByteSource>(
        &mut self,
        spare: Vec<u8, A>,
        source: &mut R,
    ) -> Result<(), CaptureFault>
        requires reading { IsReading self.old.capture }
        ensures looks { (text : List ℕ) (taken : List CapturedFrame)
            → StandsFor self.old.capture (R.remaining source.old) text taken →
            ReadsAhead self.new (R.remaining source.new) text taken result }
        ensures lane { OnOk result (IsReader self.new) }
        ensures onward { OnOk result ((p : Packet A) → self.new.ahead ≡ Some p → self.old.capture.latest ≤ p.time) }
        ensures number { self.new.number ≡ self.old.number }
        ensures fewer { OnOk result (frames_left self.new ≤ records_left self.old.capture) }
        ensures read { result ≡ Err CaptureFault.Read → R.has_failed source.new ≡ true }
        ensures sure { R.never_fails source.old ≡ true → result ≢ Err CaptureFault.Read }
        ensures lasts { R.never_fails source.old ≡ true → R.never_fails source.new ≡ true }
        ensures no_write { result ≢ Err CaptureFault.Write }
    {
        // The record is read in place: moving its octets costs as much as reading a short frame.
        let packet = self.ahead.insert(Packet {
            time: 0,
            len: 0,
            octets: spare,
        });
        match self.capture.read_packet(&mut packet.octets, source) {
            Ok(Some(stamp)) => {
                packet.time = stamp.time;
                packet.len = stamp.len;
                Ok(())
            }
            Ok(None) => {
                self.ahead = None;
                Ok(())
            }
            Err(fault) => {
                self.ahead = None;
                Err(fault)
            }
        }
    }
}

/// Returns the run's fault for a capture fault of `port`. Lack of memory becomes `NoMemory` of the run. `begin_readers`, `process_frame` of
/// `bridge_core` and 2 more call it.
pub fn run_fault(port: u8, fault: CaptureFault) -> RunFault
    ensures { result ≡ run_fault port fault }
{
    match fault {
        CaptureFault::NoMemory => RunFault::NoMemory,
        _ => RunFault::Capture { port, fault },
    }
}

/// Reads the header and the first record of each capture; `ports[i]` is the port of `sources[i]`. Returns the readers in this order, or the
/// first fault. `simulate_with_agenda` of `bridge_core` calls it.
pub fn begin_readers<R: ByteSource, A: Allocator + Copy>(
    alloc: A,
    ports: &[u8],
    sources: &mut [R],
) -> Result<Vec<CaptureReader<A>, A>, RunFault>
    requires size { length sources.old ≡ length ports.now }
    requires few { length ports.now ≤ 16 }
    requires rises { IsOrdered (λ a b. a < b) ports.now }
    ensures numbers { IfOk result (λ lanes. port_numbers lanes.items ≡ ports.now) }
    ensures lanes { IfOk result (λ lanes. AreReaders lanes.items) }
    ensures room { IfOk result (λ lanes. total_frames_left lanes.items ≤ MAX_ARRIVALS) }
    ensures begins { (texts : ℕ → List ℕ) → HaveTexts R.remaining ports.now texts sources.old →
        IfOk result (λ lanes. AreOneAhead R.remaining texts (λ _. []) lanes.items sources.new) }
    ensures fails { (texts : ℕ → List ℕ) (rests : ℕ → Option (List ℕ))
        → HaveTexts R.remaining ports.now texts sources.old →
        HaveRests R.remaining ports.now rests sources.new → IfErr result (FailsToBegin texts rests ports.now) }
    ensures read { (port : ℕ) → result ≡ Err (RunFault.Capture port CaptureFault.Read)
        → HasFailed R.has_failed ports.now port sources.new }
    ensures sure { AreUnfailing R.never_fails sources.old → (port : ℕ)
        → result ≢ Err (RunFault.Capture port CaptureFault.Read) }
    ensures lasts { AreUnfailing R.never_fails sources.old → AreUnfailing R.never_fails sources.new }
    ensures no_write { (port : ℕ) → result ≢ Err (RunFault.Write port) }
    ensures own { (port : ℕ) (fault : _) → result ≡ Err (RunFault.Capture port fault) → (fault ≢ CaptureFault.NoMemory)
        × (fault ≢ CaptureFault.Write) }
{
    let mut lanes = match Vec::with_capacity(alloc, ports.len()) {
        Ok(lanes) => lanes,
        Err(_) => return Err(RunFault::NoMemory),
    };
    for place in 0..sources.len() {
        let number = ports[place];
        match CaptureReader::begin(alloc, number, &mut sources[place]) {
            Ok(lane) => match lanes.push(lane) {
                Ok(()) => {}
                Err(_) => unreachable!(),
            },
            Err(fault) => return Err(run_fault(number, fault)),
        }
    }
    Ok(lanes)
}
