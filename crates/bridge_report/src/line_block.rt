//! Blocks of lines that are built from their end to their start. Lists of a report are written by blocks, which saves time.
ghost use Rattle.std.specs.Prelude.{◌≡◌, ◌≤◌, ◌+◌, ◌++◌, [], decimal, length};
ghost use Rattle.std.specs.Str.{IsUtf8};

use itoa::write_digits;
use std::marker::Model;

/// Largest number of octets of a block: 15 lines of at most 128 octets.
const BLOCK_WIDTH: usize = 1920;

/// Block of lines, at most 1,920 octets, which grows from its end: each call writes its text in front. So numbers need no digit count, and
/// lines need no allocation.
#[derive(Drop)]
pub struct LineBlock {
    /// Buffer; the block's text is its end.
    octets: [u8; BLOCK_WIDTH],
    /// Index of the text's first octet in the buffer.
    start: usize,
}

impl Model for LineBlock {
    ghost use Rattle.std.specs.Prelude.{List, ℕ, ◌≤◌, drop};
    ghost use Rattle.std.specs.Str.{IsUtf8};

    ghost Value = { List ℕ };

    ghost view = { λ l. drop l.start l.octets };

    ghost invariant = { λ l. (l.start ≤ 1920) × IsUtf8 (drop l.start l.octets) };
}

impl LineBlock {
    /// Returns an empty block. `put_frames` and `put_copies` begin a list with it.
    pub fn new() -> LineBlock
        ensures { result ≡ [] }
    {
        LineBlock {
            octets: [0; BLOCK_WIDTH],
            start: BLOCK_WIDTH,
        }
    }

    /// Makes the block empty. `put_frames` and `put_copies` reuse one block for a whole list.
    pub fn clear(&mut self)
        ensures { self.new ≡ [] }
    {
        self.start = BLOCK_WIDTH;
    }

    /// Writes `piece` in front of the block's text. The block must have space for it. `prepend_number`, `prepend_verdict` and 2 more call
    /// it.
    #[inline(always)]
    pub fn prepend(&mut self, piece: &str)
        requires { length piece.now + length self.old ≤ 1920 }
        ensures text { self.new ≡ piece.now ++ self.old }
        ensures room { length self.new ≡ length piece.now + length self.old }
    {
        let start = self.start - piece.len();
        self.octets[start..self.start].copy_from_slice(piece.as_bytes());
        self.start = start;
    }

    /// Writes the decimal digits of `number` in front of the block's text. `prepend_number` calls it.
    #[inline(always)]
    fn prepend_digits(&mut self, number: u64)
        requires { 20 + length self.old ≤ 1920 }
        ensures digits { self.new ≡ decimal number ++ self.old }
        ensures room { length self.new ≤ 20 + length self.old }
    {
        self.start = write_digits(number, &mut self.octets, self.start);
    }

    /// Writes `piece` and the decimal digits of `number` in front of the block's text. `prepend_frame`, `prepend_drop` and
    /// `prepend_departure` call it.
    #[inline(always)]
    pub fn prepend_number(&mut self, piece: &str, number: u64)
        requires { length piece.now + 20 + length self.old ≤ 1920 }
        ensures text { self.new ≡ piece.now ++ (decimal number ++ self.old) }
        ensures room { length self.new ≤ length piece.now + 20 + length self.old }
    {
        self.prepend_digits(number);
        self.prepend(piece);
    }

    /// Returns the block's octets, for sinks that accept octets (`ReportWriter`). `text` and `BufferedWriter::put_block` call it.
    #[inline(always)]
    pub fn octets(&self) -> &[u8]
        ensures octets { result.now ≡ self.now }
        ensures text { IsUtf8 result.now }
    {
        &self.octets[self.start..]
    }

    /// Returns the block's text, for sinks that accept text (`TextBuilder`). `TextBuilder::put_block` calls it.
    pub fn text(&self) -> &str
        ensures { result.now ≡ self.now }
    {
        match str::from_utf8(self.octets()) {
            Ok(text) => text,
            Err(_) => unreachable!(),
        }
    }
}
