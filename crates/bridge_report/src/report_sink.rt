//! Outputs of a report, written piece by piece.
ghost use Rattle.std.specs.Prelude.{ℕ, ◌++◌, List, Option, Some, decimal, option_map};
ghost use Rattle.bridge_report.specs.Growth.{HasGrown};

use crate::line_block::LineBlock;
use bridge_text::TextBuilder;
use itoa::{Buffer, Integer};
use std::alloc::Allocator;

/// Output of a report. `TextBuilder` (a text in memory) and `ReportWriter` (a buffered writer) implement it. After a failure it ignores all
/// calls.
pub trait ReportSink {
    /// Octets of the text: `None` after a failure, `Some (None)` if they are unknown.
    ghost contents: { Self → Option (Option (List ℕ)) };

    /// Appends `piece` to the report. The lines of a report are written by it.
    fn put(&mut self, piece: &str)
        ensures { HasGrown contents self.old piece.now self.new };

    /// Appends `piece` and the decimal digits of `number` to the report, for lines with counts.
    fn put_number(&mut self, piece: &str, number: u64)
        ensures { HasGrown contents self.old (piece.now ++ decimal number) self.new };

    /// Appends the lines of `block` to the report. Lists of frames and copies are written in blocks of lines.
    fn put_block(&mut self, block: &LineBlock)
        ensures { HasGrown contents self.old block.now self.new };
}

/// Appends `piece` and the decimal digits of `number`, which may have more than 64 bits. Levels of buckets have up to 128 bits.
/// `put_buckets` calls it.
#[tactic(auto, using(crate::proofs::Puts::puts))]
pub fn put_wide_number<T: ReportSink, I: Integer>(text: &mut T, piece: &str, number: I)
    ensures { HasGrown T.contents text.old (piece.now ++ I.text number) text.new }
{
    let mut digits = Buffer::new();
    text.put(piece);
    text.put(digits.format(number));
}

impl<A: Allocator> ReportSink for TextBuilder<A> {
    ghost contents = { λ s. option_map Some s };

    fn put(&mut self, piece: &str) {
        self.put(piece);
    }

    fn put_number(&mut self, piece: &str, number: u64) {
        self.put(piece);
        self.put_number(number);
    }

    fn put_block(&mut self, block: &LineBlock) {
        self.put(block.text());
    }
}
