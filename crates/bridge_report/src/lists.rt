//! Writes the lists of a section (frames, dropped copies, departures), in blocks of lines.
ghost use Rattle.std.specs.Prelude.{◌≡◌, ◌<◌, ◌≤◌, ◌+◌, ◌^◌, flat_map, length};
ghost use Rattle.bridge_report.specs.Growth.{HasGrown};
ghost use Rattle.bridge_report.specs.Section.{drop_line, frame_lines, departure_line};

use crate::line_block::LineBlock;
use crate::listed_lines::{ListedCopy, prepend_frame};
use crate::report_sink::ReportSink;
use bridge_semantics::{StoredDeparture, StoredDrop, StoredVerdict};

/// Number of lines of a full block. A line has at most 128 octets.
const BLOCK_LINES: usize = 15;

/// Writes the lines of frames, numbered from `number`, into the empty `block`. Writes the last frame first, because a block grows from its
/// end. `put_frames` calls it.
#[inline(always)]
fn fill_frames(block: &mut LineBlock, number: usize, verdicts: &[StoredVerdict])
    requires empty { length block.old ≡ 0 }
    requires few { length verdicts.now ≤ 15 }
    requires number { number + length verdicts.now < 2 ^ 64 }
    ensures { block.new ≡ frame_lines number verdicts.now }
{
    let mut left = verdicts.len();
    while left > 0 {
        left -= 1;
        prepend_frame(block, number + left, verdicts[left].verdict());
    }
}

/// Writes the `frame` lines of a filter's frames, with their verdicts, numbered from 1, by blocks of at most 15 lines. `put_lists` calls
/// it.
pub fn put_frames<T: ReportSink>(text: &mut T, verdicts: &[StoredVerdict])
    ensures { HasGrown T.contents text.old (frame_lines 1 verdicts.now) text.new }
{
    let mut block = LineBlock::new();
    let mut from = 0;
    while from < verdicts.len() {
        let count = (verdicts.len() - from).min(BLOCK_LINES);
        block.clear();
        fill_frames(&mut block, from + 1, &verdicts[from..from + count]);
        text.put_block(&block);
        from += count;
    }
}

/// Writes the lines of copies into the empty `block`. Writes the last copy first, because a block grows from its end. `put_copies` calls
/// it.
#[inline(always)]
fn fill_copies<C: ListedCopy>(block: &mut LineBlock, copies: &[C])
    requires empty { length block.old ≡ 0 }
    requires few { length copies.now ≤ 15 }
    ensures { block.new ≡ flat_map C.line copies.now }
{
    let mut left = copies.len();
    while left > 0 {
        left -= 1;
        copies[left].prepend_line(block);
    }
}

/// Writes one line for each copy in `copies`, in list order, by blocks of at most 15 lines. `put_departures` and `put_drops` call it.
fn put_copies<T: ReportSink, C: ListedCopy>(text: &mut T, copies: &[C])
    ensures { HasGrown T.contents text.old (flat_map C.line copies.now) text.new }
{
    let mut block = LineBlock::new();
    let mut from = 0;
    while from < copies.len() {
        let count = (copies.len() - from).min(BLOCK_LINES);
        block.clear();
        fill_copies(&mut block, &copies[from..from + count]);
        text.put_block(&block);
        from += count;
    }
}

/// Writes one `drop` line for each dropped copy of the filter's frames. `put_lists` calls it.
pub fn put_drops<T: ReportSink>(text: &mut T, drops: &[StoredDrop])
    ensures { HasGrown T.contents text.old (flat_map drop_line drops.now) text.new }
{
    put_copies(text, drops);
}

/// Writes one `out` line for each copy of the filter's frames that left. `put_lists` calls it.
pub fn put_departures<T: ReportSink>(text: &mut T, departures: &[StoredDeparture])
    ensures { HasGrown T.contents text.old (flat_map departure_line departures.now) text.new }
{
    put_copies(text, departures);
}
