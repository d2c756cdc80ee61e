//! Capture whose records are being read, one after another.
use crate::byte_source::ByteSource;
use crate::capture_fault::CaptureFault;
use crate::format::CaptureFormat;
use crate::header::{HEADER_LEN, parse_header};
use crate::packet::{Packet, PacketInfo};
use crate::progress::Progress;
use crate::record::{MAX_RECORDS, read_next_record};
use crate::transfer::fill_buffer;
use bridge_limits::{END_OF_TIME, MAX_CAPTURED_OCTETS};
use std::alloc::Allocator;
use std::marker::Model;

/// Capture that is being read. It stores no source: each call needs the source that `begin` read, and nothing else may read from it.
#[derive(Drop)]
pub struct Capture {
    /// Byte order and time unit.
    form: CaptureFormat,
    /// Number of records so far.
    records: u32,
    /// Time of the last record in ns; 0 before the first.
    latest: u64,
    /// Whether more records can follow.
    progress: Progress,
}

impl Model for Capture {
    ghost use Rattle.std.specs.Prelude.{◌≤◌, ◌≢◌};
    ghost use Rattle.bridge_capture.specs.declared.capture_fault.CaptureFault.TheVariants.{Write};
    ghost use Rattle.bridge_capture.specs.declared.progress.Progress.TheVariants.{Refused};
    ghost use Rattle.bridge_capture.specs.declared.record.TheConstants.{MAX_RECORDS};
    ghost use Rattle.bridge_capture.specs.StandsFor.{CaptureState};

    ghost Value = { CaptureState };

    ghost view = { λ c. record { form = c.form; records = c.records; latest = c.latest; progress = c.progress } };

    ghost invariant = { λ c. (c.records ≤ MAX_RECORDS) × (c.progress ≢ Refused Write) };
}

impl Capture {
    ghost use Rattle.std.specs.Prelude.{◌≡◌, ◌≢◌, ◌≤◌, ◌<◌, ◌+◌, ℕ, List, length, Ok, Err, Some, None, true, IfOk, IfErr};
    ghost use Rattle.bridge_capture.specs.Grammar.{CapturedFrame};
    ghost use Rattle.bridge_capture.specs.Reading.{IfPacket, packet_result};
    ghost use Rattle.bridge_capture.specs.StandsFor.{StandsFor, BeginsCapture, AnswersNext, IsReading, HasEnded, HasRefused, records_left, TakesRefusedNext};
    ghost use Rattle.bridge_capture.specs.TakenOctets.{TakesRefusedHeader};

    /// Reads the header of a capture. Allocates no memory. Fails if the header is refused or the source fails. `CaptureReader::begin` and
    /// `capture_fault` of `app_commands` call it.
    pub fn begin<R: ByteSource>(source: &mut R) -> Result<Capture, CaptureFault>
        ensures stands { (text : List ℕ) → R.remaining source.old ≡ Some text
            → BeginsCapture text (R.remaining source.new) result }
        ensures taken { IfErr result (TakesRefusedHeader (R.remaining source.old) (R.remaining source.new)) }

        // A new capture is being read, and has returned no records.
        ensures reading { IfOk result (λ capture. IsReading capture) }
        ensures none { IfOk result (λ capture. records_left capture ≡ MAX_RECORDS) }
        ensures zero { IfOk result (λ capture. capture.latest ≡ 0) }

        // After a read fault, the source has failed. If the source had failed before, the result is a read fault.
        ensures read { result ≡ Err CaptureFault.Read → R.has_failed source.new ≡ true }
        ensures sure { R.never_fails source.old ≡ true → result ≢ Err CaptureFault.Read }
        ensures lasts { R.never_fails source.old ≡ true → R.never_fails source.new ≡ true }
        ensures broken { R.has_failed source.old ≡ true → result ≡ Err CaptureFault.Read }
        ensures no_write { result ≢ Err CaptureFault.Write }
        ensures no_memory { result ≢ Err CaptureFault.NoMemory }
    {
        let mut octets = [0u8; HEADER_LEN];
        let count = match fill_buffer(source, &mut octets) {
            Ok(count) => count,
            Err(_) => return Err(CaptureFault::Read),
        };
        if count < HEADER_LEN {
            return Err(CaptureFault::HeaderCut);
        }
        match parse_header(&octets) {
            Ok(form) => Ok(Capture {
                form,
                records: 0,
                latest: 0,
                progress: Progress::Reading,
            }),
            Err(fault) => Err(fault),
        }
    }

    /// Reads the next packet; `None` at the end of the capture. Allocates memory at most once, for the packet's octets. Fails if the record
    /// is refused, the source fails or memory runs out.
    pub fn next<R: ByteSource, A: Allocator>(
        &mut self,
        alloc: A,
        source: &mut R,
    ) -> Result<Option<Packet<A>>, CaptureFault>
        ensures stands { (text : List ℕ) (given : List CapturedFrame)
            → StandsFor self.old (R.remaining source.old) text given →
            AnswersNext self.new (R.remaining source.new) text given result }
        ensures taken { IfErr result (λ fault. IsReading self.old
            → TakesRefusedNext self.old (R.remaining source.old) (R.remaining source.new) fault) }
        ensures untouched { ¬ IsReading self.old → source.new ≡ source.old }

        // Guarantees for a packet, for any source.
        ensures early { IfPacket result (λ packet. packet.time < END_OF_TIME) }
        ensures onward { IfPacket result (λ packet. self.old.latest ≤ packet.time) }
        ensures latest { IfPacket result (λ packet. self.new.latest ≡ packet.time) }
        ensures small { IfPacket result (λ packet. length packet.octets.items ≤ MAX_CAPTURED_OCTETS) }
        ensures within { IfPacket result (λ packet. length packet.octets.items ≤ packet.len) }
        ensures fewer { IfPacket result (λ _. records_left self.old ≡ records_left self.new + 1) }
        ensures reading { IfPacket result (λ _. IsReading self.new) }

        // The end and a fault are permanent.
        ensures ends { result ≡ Ok None → HasEnded self.new }
        ensures ended { HasEnded self.old → result ≡ Ok None }
        ensures refuses { IfErr result (λ fault. HasRefused self.new fault) }
        ensures again { (fault : _) → HasRefused self.old fault → result ≡ Err fault }

        // After a read fault, the source has failed. If the source had failed before, the result is a read fault.
        ensures read { result ≡ Err CaptureFault.Read → IsReading self.old → R.has_failed source.new ≡ true }
        ensures broken { R.has_failed source.old ≡ true → IsReading self.old → result ≡ Err CaptureFault.Read }
        ensures sure { R.never_fails source.old ≡ true → IsReading self.old → result ≢ Err CaptureFault.Read }
        ensures lasts { R.never_fails source.old ≡ true → R.never_fails source.new ≡ true }
        ensures no_write { result ≢ Err CaptureFault.Write }
    {
        let mut octets = Vec::new(alloc);
        match self.read_packet(&mut octets, source) {
            Ok(Some(PacketInfo { time, len })) => Ok(Some(Packet { time, len, octets })),
            Ok(None) => Ok(None),
            Err(refusal) => Err(refusal),
        }
    }

    /// Reads the next packet into the caller's vector. Allocates memory only if the octets exceed the vector's capacity. Without a packet,
    /// the vector's contents have no meaning.
    ///
    /// Fails if the record is refused, the source fails or memory runs out.
    #[inline(always)]
    pub fn read_packet<R: ByteSource, A: Allocator>(
        &mut self,
        octets: &mut Vec<u8, A>,
        source: &mut R,
    ) -> Result<Option<PacketInfo>, CaptureFault>
        ensures stands { (text : List ℕ) (given : List CapturedFrame)
            → StandsFor self.old (R.remaining source.old) text given →
            AnswersNext self.new (R.remaining source.new) text given (packet_result octets.new result) }
        ensures taken { IfErr result (λ fault. IsReading self.old
            → TakesRefusedNext self.old (R.remaining source.old) (R.remaining source.new) fault) }
        ensures untouched { ¬ IsReading self.old → source.new ≡ source.old }

        // Guarantees for a packet, for any source.
        ensures early { IfPacket (packet_result octets.new result) (λ packet. packet.time < END_OF_TIME) }
        ensures onward { IfPacket (packet_result octets.new result) (λ packet. self.old.latest ≤ packet.time) }
        ensures latest { IfPacket (packet_result octets.new result) (λ packet. self.new.latest ≡ packet.time) }
        ensures small { IfPacket (packet_result octets.new result) (λ packet. length packet.octets.items
            ≤ MAX_CAPTURED_OCTETS) }
        ensures within { IfPacket (packet_result octets.new result) (λ packet. length packet.octets.items
            ≤ packet.len) }
        ensures fewer { IfPacket (packet_result octets.new result) (λ _. records_left self.old
            ≡ records_left self.new + 1) }
        ensures reading { IfPacket (packet_result octets.new result) (λ _. IsReading self.new) }

        // The end and a fault are permanent.
        ensures ends { result ≡ Ok None → HasEnded self.new }
        ensures ended { HasEnded self.old → result ≡ Ok None }
        ensures refuses { IfErr result (λ fault. HasRefused self.new fault) }
        ensures again { (fault : _) → HasRefused self.old fault → result ≡ Err fault }

        // After a read fault, the source has failed. If the source had failed before, the result is a read fault.
        ensures read { result ≡ Err CaptureFault.Read → IsReading self.old → R.has_failed source.new ≡ true }
        ensures broken { R.has_failed source.old ≡ true → IsReading self.old → result ≡ Err CaptureFault.Read }
        ensures sure { R.never_fails source.old ≡ true → IsReading self.old → result ≢ Err CaptureFault.Read }
        ensures lasts { R.never_fails source.old ≡ true → R.never_fails source.new ≡ true }
        ensures no_write { result ≢ Err CaptureFault.Write }
    {
        match self.progress {
            Progress::Ended => Ok(None),
            Progress::Refused(fault) => Err(fault),
            Progress::Reading => {
                match read_next_record(self.form, self.records + 1, self.latest, octets, source) {
                    Ok(Some(stamp)) => {
                        self.records += 1;
                        self.latest = stamp.time;
                        Ok(Some(stamp))
                    }
                    Ok(None) => {
                        self.progress = Progress::Ended;
                        Ok(None)
                    }
                    Err(fault) => {
                        self.progress = Progress::Refused(fault);
                        Err(fault)
                    }
                }
            }
        }
    }
}
