//! Writes a capture: its header, then one record for each frame.
ghost use Rattle.std.specs.Prelude.{◌≡◌, ◌≤◌, ◌<◌, ◌*◌, ◌^◌, ◌++◌, length, true, Err, OnOk, OnErr};
ghost use Rattle.std.specs.Int.{w64, to_le_bytes};
ghost use Rattle.std.specs.Io.KnownBytes.{Appends};
ghost use Rattle.bridge_capture.specs.Sinks.{AppendsPrefix};
ghost use Rattle.bridge_capture.specs.WrittenCapture.{written_header, written_words, written_record};

use crate::byte_sink::ByteSink;
use crate::capture_fault::CaptureFault;
use crate::record::SNAP_LENGTH;
use crate::transfer::write_all;

/// Capture that is being written, little-endian with nanoseconds. It stores no sink: each call needs the sink to which `begin` wrote, and
/// nothing else may write to it.
#[derive(Drop)]
pub struct Writer {
    /// Private field, so that only `begin` makes a writer: the header is written first.
    begun: (),
}

impl Writer {
    /// Writes the header. Allocates no memory. If the sink fails, it has a prefix of the header. `begin_writers` of `bridge_core` and
    /// `wire` of `bridge_wire` call it.
    pub fn begin<W: ByteSink>(sink: &mut W) -> Result<Writer, CaptureFault>
        ensures ok { OnOk result (Appends (W.contents sink.old) (W.contents sink.new) written_header) }
        ensures err { OnErr result (AppendsPrefix (W.contents sink.old) (W.contents sink.new) written_header) }
        ensures only { OnErr result (result ≡ Err CaptureFault.Write) }
        ensures fails { OnErr result (W.has_failed sink.new ≡ true) }
        ensures sure { W.never_fails sink.old ≡ true → OnErr result (W.ran_out sink.new ≡ true) }
        ensures lasts { W.never_fails sink.old ≡ true → W.never_fails sink.new ≡ true }
        ensures again { W.has_failed sink.old ≡ true → result ≡ Err CaptureFault.Write }
    {
        let header = [
            0x4d, 0x3c, 0xb2, 0xa1, 2, 0, 4, 0, 0, 0, 0, 0, 0, 0, 0, 0, 0xff, 0xff, 0, 0, 1, 0, 0,
            0,
        ];
        match write_all(sink, &header) {
            Ok(()) => Ok(Writer { begun: () }),
            Err(_) => Err(CaptureFault::Write),
        }
    }

    /// Writes a record: the end of transmission `done` in ns, the length `len` on the link, and the octets. Allocates no memory. If the
    /// sink fails, it has a prefix of the record.
    ///
    /// `write_frame` of `bridge_core` and `write_record` of `bridge_wire` call it for each frame that leaves.
    #[inline(always)]
    pub fn put<W: ByteSink>(
        &mut self,
        sink: &mut W,
        done: u64,
        len: u32,
        octets: &[u8],
    ) -> Result<(), CaptureFault>
        requires seconds { done < 2 ^ 32 * 10 ^ 9 }
        requires captured { length octets.now ≤ SNAP_LENGTH }
        requires original { length octets.now ≤ len }
        ensures ok { OnOk result (Appends (W.contents sink.old) (W.contents sink.new)
            (written_record done len octets.now)) }
        ensures err { OnErr result (AppendsPrefix (W.contents sink.old) (W.contents sink.new)
            (written_record done len octets.now)) }
        ensures only { OnErr result (result ≡ Err CaptureFault.Write) }
        ensures fails { OnErr result (W.has_failed sink.new ≡ true) }
        ensures sure { W.never_fails sink.old ≡ true → OnErr result (W.ran_out sink.new ≡ true) }
        ensures lasts { W.never_fails sink.old ≡ true → W.never_fails sink.new ≡ true }
        ensures again { W.has_failed sink.old ≡ true → result ≡ Err CaptureFault.Write }
    {
        let captured = octets.len() as u32;
        let (first, second) = record_word_pairs(done, len, captured);
        if sink.write_words(first, second, octets) {
            return Ok(());
        }
        write_parts(sink, &record_words(done, len, captured), octets)
    }
}

/// Writes a record's header, then its octets, for a sink that can't accept both at once. Fails with `Write` if the sink fails.
/// `Writer::put` calls it.
#[cold]
#[inline(never)]
fn write_parts<W: ByteSink>(
    sink: &mut W,
    words: &[u8; 16],
    octets: &[u8],
) -> Result<(), CaptureFault>
    ensures ok { OnOk result (Appends (W.contents sink.old) (W.contents sink.new) (words.now ++ octets.now)) }
    ensures err { OnErr result (AppendsPrefix (W.contents sink.old) (W.contents sink.new) (words.now ++ octets.now)) }
    ensures only { OnErr result (result ≡ Err CaptureFault.Write) }
    ensures fails { OnErr result (W.has_failed sink.new ≡ true) }
    ensures sure { W.never_fails sink.old ≡ true → OnErr result (W.ran_out sink.new ≡ true) }
    ensures lasts { W.never_fails sink.old ≡ true → W.never_fails sink.new ≡ true }
    ensures again { W.has_failed sink.old ≡ true → result ≡ Err CaptureFault.Write }
{
    match write_all(sink, words) {
        Ok(()) => {}
        Err(_) => return Err(CaptureFault::Write),
    }
    match write_all(sink, octets) {
        Ok(()) => Ok(()),
        Err(_) => Err(CaptureFault::Write),
    }
}

/// Returns the four words of a record's header, two in each number: seconds and nanoseconds, captured length and original length.
/// `Writer::put` passes them to `ByteSink::write_words`.
#[inline(always)]
fn record_word_pairs(done: u64, len: u32, captured: u32) -> (u64, u64)
    requires { done < 2 ^ 32 * 10 ^ 9 }
    ensures { to_le_bytes w64 result.0 ++ to_le_bytes w64 result.1 ≡ written_words done captured len }
{
    let seconds = done / 1_000_000_000;
    let fraction = done % 1_000_000_000;
    (
        seconds + fraction * 0x1_0000_0000,
        captured as u64 + len as u64 * 0x1_0000_0000,
    )
}

/// Returns the four words of a record's header as octets. `Writer::put` writes them if `ByteSink::write_words` wrote nothing.
#[tactic(auto, unfolding(crate::specs::WrittenCapture::written_words))]
fn record_words(done: u64, len: u32, captured: u32) -> [u8; 16]
    requires { done < 2 ^ 32 * 10 ^ 9 }
    ensures { result ≡ written_words done captured len }
{
    let seconds = ((done / 1_000_000_000) as u32).to_le_bytes();
    let fraction = ((done % 1_000_000_000) as u32).to_le_bytes();
    let captured = captured.to_le_bytes();
    let original = len.to_le_bytes();
    [
        seconds[0],
        seconds[1],
        seconds[2],
        seconds[3],
        fraction[0],
        fraction[1],
        fraction[2],
        fraction[3],
        captured[0],
        captured[1],
        captured[2],
        captured[3],
        original[0],
        original[1],
        original[2],
        original[3],
    ]
}
