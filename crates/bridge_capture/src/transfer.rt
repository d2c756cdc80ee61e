//! Fills whole buffers and writes whole slices, by as many calls as needed.
ghost use Rattle.std.specs.Prelude.{◌≡◌, ◌≤◌, ◌<◌, length, take, true, false, IsErr, IsOk, IfOk, IfErr, OnOk, OnErr};
ghost use Rattle.std.specs.Io.KnownBytes.{Consumes, IsAtEnd, Appends};
ghost use Rattle.bridge_capture.specs.Sinks.{AppendsPrefix};
ghost use Rattle.bridge_capture.specs.TakenOctets.{TakesFewer};

use crate::byte_sink::ByteSink;
use crate::byte_source::{Broken, ByteSource};

/// Fills `buf` with octets of the source, and returns their number. The number is less than the buffer's length only at the end of the
/// source.
///
/// Fails if the source fails. `Capture::begin`, `read_octets` and `read_unbuffered_record` call it.
#[inline(always)]
pub fn fill_buffer<R: ByteSource>(source: &mut R, buf: &mut [u8]) -> Result<usize, Broken>
    ensures count { IfOk result (λ n. n ≤ length buf.new) }
    ensures bytes { IfOk result (λ n. Consumes (R.remaining source.old) (R.remaining source.new) (take n buf.new)) }
    ensures end { IfOk result (λ n. n < length buf.new → IsAtEnd (R.remaining source.new)) }
    ensures part { OnErr result (TakesFewer (length buf.old) (R.remaining source.old) (R.remaining source.new)) }
    ensures fails { OnErr result (R.has_failed source.new ≡ true) }
    ensures sure { R.never_fails source.old ≡ true → IsOk result × (R.never_fails source.new ≡ true) }
    ensures stays { R.has_failed source.old ≡ true → 0 < length buf.old → IsErr result }
{
    if buf.is_empty() {
        return Ok(0);
    }
    let first = match source.read(buf) {
        Ok(first) => first,
        Err(broken) => return Err(broken),
    };
    if first == 0 || first == buf.len() {
        return Ok(first);
    }
    match fill_by_many_reads(source, &mut buf[first..]) {
        Ok(more) => Ok(first + more),
        Err(broken) => Err(broken),
    }
}

/// Fills `buf` by as many reads as needed, and returns the number of octets. Fails if the source fails. `fill_buffer` calls it if the first
/// read gave too few octets.
#[cold]
#[inline(never)]
fn fill_by_many_reads<R: ByteSource>(source: &mut R, buf: &mut [u8]) -> Result<usize, Broken>
    ensures count { IfOk result (λ n. n ≤ length buf.new) }
    ensures bytes { IfOk result (λ n. Consumes (R.remaining source.old) (R.remaining source.new) (take n buf.new)) }
    ensures end { IfOk result (λ n. n < length buf.new → IsAtEnd (R.remaining source.new)) }
    ensures part { OnErr result (TakesFewer (length buf.old) (R.remaining source.old) (R.remaining source.new)) }
    ensures fails { OnErr result (R.has_failed source.new ≡ true) }
    ensures sure { R.never_fails source.old ≡ true → IsOk result × (R.never_fails source.new ≡ true) }
    ensures stays { R.has_failed source.old ≡ true → 0 < length buf.old → IsErr result }
{
    let mut at = 0;
    while at < buf.len() {
        let count = match source.read(&mut buf[at..]) {
            Ok(count) => count,
            Err(broken) => return Err(broken),
        };
        if count == 0 {
            return Ok(at);
        }
        at += count;
    }
    Ok(at)
}

/// Writes all octets by as many writes as needed. If the sink fails, it has accepted a prefix of `octets`. `Writer::begin` and
/// `write_parts` call it.
#[inline(always)]
pub fn write_all<W: ByteSink>(sink: &mut W, octets: &[u8]) -> Result<(), Broken>
    ensures all { OnOk result (Appends (W.contents sink.old) (W.contents sink.new) octets.now) }
    ensures front { OnErr result (AppendsPrefix (W.contents sink.old) (W.contents sink.new) octets.now) }
    ensures fails { OnErr result (W.has_failed sink.new ≡ true) }
    ensures sure { W.never_fails sink.old ≡ true → OnErr result (W.ran_out sink.new ≡ true) }
    ensures lasts { W.never_fails sink.old ≡ true → W.never_fails sink.new ≡ true }
    ensures stays { W.has_failed sink.old ≡ true → 0 < length octets.now → IsErr result }
{
    if octets.is_empty() {
        return Ok(());
    }
    let first = match sink.write(octets) {
        Ok(first) => first,
        Err(broken) => return Err(broken),
    };
    if first == octets.len() {
        return Ok(());
    }
    match write_by_many_writes(sink, &octets[first..]) {
        Ok(()) => Ok(()),
        Err(_) => Err(Broken),
    }
}

/// Writes all octets, by one write after the other until the sink has accepted all. If a write fails, returns how many octets the sink
/// accepted before.
///
/// `write_all` calls it after an incomplete first write, and `flush_octets` calls it for held octets.
#[cold]
#[inline(never)]
pub fn write_by_many_writes<W: ByteSink>(sink: &mut W, octets: &[u8]) -> Result<(), usize>
    ensures all { OnOk result (Appends (W.contents sink.old) (W.contents sink.new) octets.now) }
    ensures count { IfErr result (λ n. n ≤ length octets.now) }
    ensures part { IfErr result (λ n. Appends (W.contents sink.old) (W.contents sink.new) (take n octets.now)) }
    ensures fails { OnErr result (W.has_failed sink.new ≡ true) }
    ensures works { W.has_failed sink.old ≡ false → OnOk result (W.has_failed sink.new ≡ false) }
    ensures sure { W.never_fails sink.old ≡ true → OnErr result (W.ran_out sink.new ≡ true) }
    ensures lasts { W.never_fails sink.old ≡ true → W.never_fails sink.new ≡ true }
    ensures stays { W.has_failed sink.old ≡ true → 0 < length octets.now → IsErr result }
{
    let mut at = 0;
    while at < octets.len() {
        match sink.write(&octets[at..]) {
            Ok(count) => at += count,
            Err(_) => return Err(at),
        }
    }
    Ok(())
}
