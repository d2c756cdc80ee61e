//! A report sink that writes through a buffer: `ReportWriter`. `write_report` uses it.
ghost use Rattle.std.specs.Prelude.{◌≡◌, ◌++◌, ◌≤◌, [], OnOk, IfOk, None, decimal, length};
ghost use Rattle.std.specs.Io.KnownBytes.{Appends, Keeps, append_known};
ghost use Rattle.bridge_report.specs.Growth.{unless_failed};

use crate::line_block::LineBlock;
use crate::report_fault::ReportFault;
use crate::report_sink::ReportSink;
use itoa::write_digits;
use std::alloc::Allocator;
use std::io::Write;

/// Number of digits of the longest number with 64 bits.
const MAX_DIGITS: usize = 20;

/// Writer with a buffer in front of it, so that each line of a report needs no call of the writer.
#[derive(Drop)]
pub struct BufferedWriter<W: Write + Drop, A: Allocator> {
    /// Writer that gets the octets.
    pub writer: W,
    /// Buffered octets that the writer hasn't received.
    pub octets: Vec<u8, A>,
}

impl<W: Write + Drop, A: Allocator> BufferedWriter<W, A> {
    /// Writes the buffered octets to the writer, and empties the buffer. The fault is `Broken` if the writer fails. `finish` and
    /// `make_room` call it.
    #[cold]
    #[inline(never)]
    fn flush_octets(&mut self) -> Result<(), ReportFault>
        ensures text { OnOk result (Keeps (append_known (W.contents self.old.writer) self.old.octets.items)
            (append_known (W.contents self.new.writer) self.new.octets.items)) }
        ensures empty { OnOk result (self.new.octets.items ≡ []) }
    {
        if self.writer.write_all(&self.octets).is_err() {
            return Err(ReportFault::Broken);
        }
        self.octets.clear();
        Ok(())
    }

    /// Writes the buffer to the writer if the buffer has no capacity for `more` further octets. `put`, `put_number` and `put_block` call
    /// it.
    #[inline(always)]
    fn make_room(&mut self, more: usize) -> Result<(), ReportFault>
        ensures text { OnOk result (Keeps (append_known (W.contents self.old.writer) self.old.octets.items)
            (append_known (W.contents self.new.writer) self.new.octets.items)) }
    {
        if self.octets.capacity() - self.octets.len() < more {
            return self.flush_octets();
        }
        Ok(())
    }

    /// Writes the buffered octets, flushes the writer and returns it. `ReportWriter::finish` calls it at the report's end.
    fn finish(mut self) -> Result<W, ReportFault>
        ensures { IfOk result (λ writer. Keeps (append_known (W.contents self.writer) self.octets.items)
            (W.contents writer)) }
    {
        self.flush_octets()?;
        let BufferedWriter {
            mut writer,
            octets: _,
        } = self;
        match writer.flush() {
            Ok(()) => Ok(writer),
            Err(_) => Err(ReportFault::Broken),
        }
    }
}

/// Appends `more` to `octets`. The fault is `NoMemory` if memory runs out. `push_number`, `BufferedWriter::put` and 2 more call it.
#[inline(always)]
fn push_octets<A: Allocator>(octets: &mut Vec<u8, A>, more: &[u8]) -> Result<(), ReportFault>
    ensures { OnOk result (octets.new.items ≡ octets.old.items ++ more.now) }
{
    match octets.extend_from_slice(more) {
        Ok(()) => Ok(()),
        Err(_) => Err(ReportFault::NoMemory),
    }
}

/// Returns the number of decimal digits of `number`, at most 20. `push_number` calls it.
#[inline(always)]
#[tactic(auto, using(crate::proofs::Digits::counts))]
fn count_digits(number: u64) -> usize
    ensures count { result ≡ length (decimal number) }
    ensures most { result ≤ 20 }
{
    if number == 0 {
        return 1;
    }
    number.ilog10() as usize + 1
}

/// Appends the digits of `number` to `octets`. First extends `octets` by 20, a constant number, then cuts the unused end. `put_number`
/// calls it.
#[inline(always)]
fn push_number<A: Allocator>(octets: &mut Vec<u8, A>, number: u64) -> Result<(), ReportFault>
    ensures { OnOk result (octets.new.items ≡ octets.old.items ++ decimal number) }
{
    let end = octets.len() + count_digits(number);
    push_octets(octets, &[0; MAX_DIGITS])?;
    write_digits(number, octets.as_mut_slice(), end);
    octets.truncate(end);
    Ok(())
}

impl<W: Write + Drop, A: Allocator> BufferedWriter<W, A> {
    /// Appends `piece` to the buffer. If the buffer lacks capacity for it, its octets are written first. `ReportWriter::put` calls it.
    #[inline(always)]
    fn put(&mut self, piece: &str) -> Result<(), ReportFault>
        ensures { OnOk result (Appends (append_known (W.contents self.old.writer) self.old.octets.items)
            (append_known (W.contents self.new.writer) self.new.octets.items) piece.now) }
    {
        self.make_room(piece.len())?;
        push_octets(&mut self.octets, piece.as_bytes())
    }

    /// Appends `piece` and the digits of `number` to the buffer. If the buffer lacks capacity for them, its octets are written first.
    /// `ReportWriter::put_number` calls it.
    #[inline(always)]
    fn put_number(&mut self, piece: &str, number: u64) -> Result<(), ReportFault>
        ensures { OnOk result (Appends (append_known (W.contents self.old.writer) self.old.octets.items)
            (append_known (W.contents self.new.writer) self.new.octets.items) (piece.now ++ decimal number)) }
    {
        self.make_room(piece.len() + MAX_DIGITS)?;
        push_octets(&mut self.octets, piece.as_bytes())?;
        push_number(&mut self.octets, number)
    }

    /// Appends the lines of `block` to the buffer. If the buffer lacks capacity for them, its octets are written first.
    /// `ReportWriter::put_block` calls it.
    #[inline(always)]
    fn put_block(&mut self, block: &LineBlock) -> Result<(), ReportFault>
        ensures { OnOk result (Appends (append_known (W.contents self.old.writer) self.old.octets.items)
            (append_known (W.contents self.new.writer) self.new.octets.items) block.now) }
    {
        let octets = block.octets();
        self.make_room(octets.len())?;
        push_octets(&mut self.octets, octets)
    }
}

/// Report sink that writes through a buffer. After a fault it ignores all calls.
#[derive(Drop)]
pub struct ReportWriter<W: Write + Drop, A: Allocator> {
    /// Writer with its buffer.
    pub held: BufferedWriter<W, A>,
    /// First fault; `None` while every call succeeded.
    pub fault: Option<ReportFault>,
}

impl<W: Write + Drop, A: Allocator> ReportWriter<W, A> {
    /// Writes the buffered octets, and returns the flushed writer or the first fault. `write_report` calls it at the end.
    pub fn finish(self) -> Result<W, ReportFault>
        ensures whole { IfOk result (λ _. self.fault ≡ None) }
        ensures text { IfOk result (λ writer. Keeps (append_known (W.contents self.held.writer) self.held.octets.items)
            (W.contents writer)) }
    {
        let ReportWriter { held, fault } = self;
        match fault {
            None => held.finish(),
            Some(fault) => Err(fault),
        }
    }
}

impl<W: Write + Drop, A: Allocator> ReportSink for ReportWriter<W, A> {
    ghost contents = { λ s. unless_failed s.fault (append_known (W.contents s.held.writer) s.held.octets.items) };

    #[inline(always)]
    fn put(&mut self, piece: &str) {
        if self.fault.is_none()
            && let Err(fault) = self.held.put(piece)
        {
            self.fault = Some(fault);
        }
    }

    #[inline(always)]
    fn put_number(&mut self, piece: &str, number: u64) {
        if self.fault.is_none()
            && let Err(fault) = self.held.put_number(piece, number)
        {
            self.fault = Some(fault);
        }
    }

    #[inline(always)]
    fn put_block(&mut self, block: &LineBlock) {
        if self.fault.is_none()
            && let Err(fault) = self.held.put_block(block)
        {
            self.fault = Some(fault);
        }
    }
}
