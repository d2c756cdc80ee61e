//! Reads the records of a capture: header and captured octets of each frame.
ghost use Rattle.std.specs.Prelude.{◌≡◌, ◌≢◌, ◌≤◌, ◌<◌, ◌+◌, ◌*◌, Some, None, Err, true, length, take, IfSome, IfErr, MatchResult};
ghost use Rattle.bridge_capture.specs.Grammar.{record_time, captured_length, original_length, record_header_fault, front_item};
ghost use Rattle.bridge_capture.specs.Reading.{TakesFront, TakesOctets, AgreesWithSource, IfPacket, IsInBounds, IsRecordHeaderFault, packet_result};
ghost use Rattle.bridge_capture.specs.TakenOctets.{TakesRefusedRecord, HasSoundHeader};

use crate::byte_source::ByteSource;
use crate::capture_fault::CaptureFault;
use crate::format::{ByteOrder, CaptureFormat, FractionUnit};
use crate::header::read_word;
use crate::packet::PacketInfo;
use crate::transfer::fill_buffer;
use bridge_limits::{END_OF_TIME, MAX_CAPTURED_OCTETS};
use std::alloc::Allocator;

/// Snap length of written captures in octets.
pub const SNAP_LENGTH: u32 = 65_535;

/// Largest number of records of a capture.
pub const MAX_RECORDS: u32 = 1_000_000;

/// Fields of a record's header.
#[derive(Clone, Copy)]
struct RecordHeader {
    /// Time stamp of the record, in ns.
    time: u64,
    /// Number of captured octets.
    captured: u32,
    /// Length on the link in octets.
    original: u32,
}

/// Reads time and lengths from the sixteen octets of a record's header, in the capture's format. `parse_buffered_header` and
/// `read_unbuffered_record` call it.
#[inline(always)]
fn parse_record_header(form: CaptureFormat, octets: &[u8]) -> RecordHeader
    requires { length octets.now ≡ 16 }
    ensures time { result.time ≡ record_time form octets.now }
    ensures captured { result.captured ≡ captured_length form octets.now }
    ensures original { result.original ≡ original_length form octets.now }
{
    match form.order {
        ByteOrder::Little => parse_words(ByteOrder::Little, form.unit, octets),
        ByteOrder::Big => parse_big_words(form.unit, octets),
    }
}

/// Reads time and lengths from big-endian words. Not inlined: most captures are little-endian, and a test of the order for each word
/// costs more than reading it. `parse_record_header` calls it.
#[cold]
#[inline(never)]
fn parse_big_words(unit: FractionUnit, octets: &[u8]) -> RecordHeader
    requires { length octets.now ≡ 16 }
    ensures time { result.time ≡ record_time (record { order = ByteOrder.Big; unit = unit }) octets.now }
    ensures captured { result.captured ≡ captured_length (record { order = ByteOrder.Big; unit = unit }) octets.now }
    ensures original { result.original ≡ original_length (record { order = ByteOrder.Big; unit = unit }) octets.now }
{
    parse_words(ByteOrder::Big, unit, octets)
}

/// Reads time and lengths from the four words of a record's header. `parse_record_header` and `parse_big_words` call it.
#[inline(always)]
fn parse_words(order: ByteOrder, unit: FractionUnit, octets: &[u8]) -> RecordHeader
    requires { length octets.now ≡ 16 }
    ensures time { result.time ≡ record_time (record { order = order; unit = unit }) octets.now }
    ensures captured { result.captured ≡ captured_length (record { order = order; unit = unit }) octets.now }
    ensures original { result.original ≡ original_length (record { order = order; unit = unit }) octets.now }
{
    let seconds = read_word(order, &octets[..4]) as u64;
    let fraction = read_word(order, &octets[4..8]) as u64;
    let scale: u64 = match unit {
        FractionUnit::Micro => 1000,
        FractionUnit::Nano => 1,
    };
    RecordHeader {
        time: seconds * 1_000_000_000 + fraction * scale,
        captured: read_word(order, &octets[8..12]),
        original: read_word(order, &octets[12..16]),
    }
}

/// Checks the header of record `number` after a record at time `earliest`, and returns its first fault. `parse_buffered_header` and
/// `read_unbuffered_record` call it.
#[inline(always)]
fn check_record_header(number: u32, earliest: u64, head: RecordHeader) -> Result<(), CaptureFault>
    ensures judged { let fault = record_header_fault (record { number = number; earliest = earliest })
        head.time head.captured head.original in
        MatchResult result (λ _. fault ≡ None) (λ f. fault ≡ Some f) }
    ensures only { IfErr result IsRecordHeaderFault }
{
    if head.captured > MAX_CAPTURED_OCTETS {
        return Err(CaptureFault::RecordTooLarge(number));
    }
    if head.original < head.captured {
        return Err(CaptureFault::LengthsCross(number));
    }
    if head.time >= END_OF_TIME {
        return Err(CaptureFault::TimeTooLate(number));
    }
    if head.time < earliest {
        return Err(CaptureFault::TimeBack(number));
    }
    Ok(())
}

/// Reads the `captured` octets of record `number` into the vector `octets`, which loses its old contents. Fails if the record is refused,
/// the source fails or memory runs out. `read_unbuffered_record` calls it.
#[inline(always)]
fn read_octets<R: ByteSource, A: Allocator>(
    number: u32,
    captured: u32,
    octets: &mut Vec<u8, A>,
    source: &mut R,
) -> Result<(), CaptureFault>
    ensures octets { TakesOctets number captured (R.remaining source.old)
        (R.remaining source.new) octets.new.items result }
    ensures failed { result ≡ Err CaptureFault.Read → R.has_failed source.new ≡ true }
    ensures sure { R.never_fails source.old ≡ true → result ≢ Err CaptureFault.Read }
    ensures lasts { R.never_fails source.old ≡ true → R.never_fails source.new ≡ true }
{
    // The read overwrites old octets; only additional octets are set to 0 first.
    if octets.resize(captured as usize, 0u8).is_err() {
        return Err(CaptureFault::NoMemory);
    }
    let count = match fill_buffer(source, octets) {
        Ok(count) => count,
        Err(_) => return Err(CaptureFault::Read),
    };
    if count < octets.len() {
        return Err(CaptureFault::RecordCut(number));
    }
    Ok(())
}

/// Returns the header of record `number` if the whole record is in `lent`, the source's buffered octets, and has no fault. For `None`,
/// `read_unbuffered_record` reads the record.
///
/// `read_next_record` calls it.
#[inline(always)]
fn parse_buffered_header(
    form: CaptureFormat,
    number: u32,
    earliest: u64,
    lent: &[u8],
) -> Option<RecordHeader>
    ensures few { IfSome result (λ _. number ≤ MAX_RECORDS) }
    ensures whole { IfSome result (λ head. 16 + head.captured ≤ length lent.now) }
    ensures time { IfSome result (λ head. head.time ≡ record_time form (take 16 lent.now)) }
    ensures captured { IfSome result (λ head. head.captured ≡ captured_length form (take 16 lent.now)) }
    ensures original { IfSome result (λ head. head.original ≡ original_length form (take 16 lent.now)) }
    ensures sound { IfSome result (λ _. HasSoundHeader form (record
        { number = number; earliest = earliest }) (take 16 lent.now)) }
    ensures early { IfSome result (λ head. head.time < END_OF_TIME) }
    ensures onward { IfSome result (λ head. earliest ≤ head.time) }
    ensures small { IfSome result (λ head. head.captured ≤ MAX_CAPTURED_OCTETS) }
    ensures within { IfSome result (λ head. head.captured ≤ head.original) }
{
    if number > MAX_RECORDS || lent.len() < 16 {
        return None;
    }
    let head = parse_record_header(form, &lent[..16]);
    match check_record_header(number, earliest, head) {
        Ok(()) if lent.len() - 16 >= head.captured as usize => Some(head),
        _ => None,
    }
}

/// Reads record `number`; `None` if no octets remain. The previous record had the time `earliest`. The record's octets replace the vector's
/// contents. Fails if the record is refused, the source fails or memory runs out.
///
/// `read_packet` calls it.
#[inline(always)]
pub fn read_next_record<R: ByteSource, A: Allocator>(
    form: CaptureFormat,
    number: u32,
    earliest: u64,
    octets: &mut Vec<u8, A>,
    source: &mut R,
) -> Result<Option<PacketInfo>, CaptureFault>
    ensures record { IfSome (R.remaining source.old) (λ text.
        TakesFront (front_item form (record { number = number; earliest = earliest }) text) (R.remaining source.new)
        (packet_result octets.new result)) }
    ensures taken { IfErr result (TakesRefusedRecord form (record
        { number = number; earliest = earliest }) (R.remaining source.old) (R.remaining source.new)) }
    ensures bounds { IfPacket (packet_result octets.new result) (IsInBounds number earliest) }
    ensures told { AgreesWithSource R.has_failed R.never_fails source.old source.new result }
{
    let lent = source.buffered_octets();
    let Some(head) = parse_buffered_header(form, number, earliest, lent) else {
        // Rebuilding the result keeps it in registers if the record is in memory.
        return match read_unbuffered_record(form, number, earliest, octets, source) {
            Ok(Some(PacketInfo { time, len })) => Ok(Some(PacketInfo { time, len })),
            Ok(None) => Ok(None),
            Err(fault) => Err(fault),
        };
    };
    let end = 16 + head.captured as usize;
    octets.clear();
    if octets.extend_from_slice(&lent[16..end]).is_err() {
        source.consume(16);
        return Err(CaptureFault::NoMemory);
    }
    source.consume(end);
    Ok(Some(PacketInfo {
        time: head.time,
        len: head.original,
    }))
}

/// Reads record `number` if it isn't completely in memory, or if it has a fault, such as one record too many. `read_next_record` calls it,
/// with its own parameters.
#[cold]
#[inline(never)]
fn read_unbuffered_record<R: ByteSource, A: Allocator>(
    form: CaptureFormat,
    number: u32,
    earliest: u64,
    octets: &mut Vec<u8, A>,
    source: &mut R,
) -> Result<Option<PacketInfo>, CaptureFault>
    ensures record { IfSome (R.remaining source.old) (λ text.
        TakesFront (front_item form (record { number = number; earliest = earliest }) text) (R.remaining source.new)
        (packet_result octets.new result)) }
    ensures taken { IfErr result (TakesRefusedRecord form (record
        { number = number; earliest = earliest }) (R.remaining source.old) (R.remaining source.new)) }
    ensures bounds { IfPacket (packet_result octets.new result) (IsInBounds number earliest) }
    ensures told { AgreesWithSource R.has_failed R.never_fails source.old source.new result }
{
    if number > MAX_RECORDS {
        // One further octet already is too much, so the function reads at most one.
        let mut octet = [0u8; 1];
        return match fill_buffer(source, &mut octet) {
            Ok(count) if count > 0 => Err(CaptureFault::TooManyRecords),
            Ok(_) => Ok(None),
            Err(_) => Err(CaptureFault::Read),
        };
    }
    let mut words = [0u8; 16];
    let count = match fill_buffer(source, &mut words) {
        Ok(count) => count,
        Err(_) => return Err(CaptureFault::Read),
    };
    if count == 0 {
        return Ok(None);
    }
    if count < 16 {
        return Err(CaptureFault::RecordCut(number));
    }
    let head = parse_record_header(form, &words);
    if let Err(fault) = check_record_header(number, earliest, head) {
        return Err(fault);
    }
    match read_octets(number, head.captured, octets, source) {
        Ok(()) => Ok(Some(PacketInfo {
            time: head.time,
            len: head.original,
        })),
        Err(fault) => Err(fault),
    }
}
