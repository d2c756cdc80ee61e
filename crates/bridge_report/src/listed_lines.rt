//! Writes the lines of a section's lists, each in front of a block's text. `lists.rt` fills the blocks.
ghost use Rattle.std.specs.Prelude.{◌≡◌, ◌≤◌, ◌+◌, ◌++◌, ℕ, List, codes, length};
ghost use Rattle.bridge_report.specs.Words.{refusal_word, verdict_word};
ghost use Rattle.bridge_report.specs.Section.{departure_line, drop_line, frame_line};

use crate::line_block::LineBlock;
use bridge_filter::Verdict;
use bridge_port::Refusal;
use bridge_semantics::{Departure, Dropped, StoredDeparture, StoredDrop};

/// Copy that has a line in a list of a section. Departures (`StoredDeparture`) and dropped copies (`StoredDrop`) implement it.
pub trait ListedCopy {
    /// Line of the copy.
    ghost line: { Self → List ℕ };

    /// Writes the copy's line, at most 128 octets, in front of `block`. `fill_copies` calls it for each copy.
    fn prepend_line(&self, block: &mut LineBlock)
        requires { 128 + length block.old ≤ 1920 }
        ensures text { block.new ≡ line self.now ++ block.old }
        ensures room { length block.new ≤ 128 + length block.old };
}

impl ListedCopy for StoredDrop {
    ghost line = { drop_line };

    #[inline(always)]
    fn prepend_line(&self, block: &mut LineBlock) {
        prepend_drop(block, &self.dropped_copy());
    }
}

impl ListedCopy for StoredDeparture {
    ghost line = { departure_line };

    #[inline(always)]
    fn prepend_line(&self, block: &mut LineBlock) {
        prepend_departure(block, &self.departure());
    }
}

/// Writes the end of a frame's line in front of `block`: a space, the word for its verdict and a line feed. `prepend_frame` calls it.
#[inline(always)]
fn prepend_verdict(block: &mut LineBlock, verdict: Verdict)
    requires { 17 + length block.old ≤ 1920 }
    ensures text { block.new ≡ codes " " ++ (verdict_word verdict ++ (codes "\n" ++ block.old)) }
    ensures room { length block.new ≤ 17 + length block.old }
{
    match verdict {
        Verdict::Blocked => block.prepend(" blocked\n"),
        Verdict::Oversize => block.prepend(" oversize\n"),
        Verdict::GateClosed => block.prepend(" gate-closed\n"),
        Verdict::ShutByRx => block.prepend(" shut-rx\n"),
        Verdict::ShutByOctets => block.prepend(" shut-octets\n"),
        Verdict::OctetsExceeded => block.prepend(" octets-exceeded\n"),
        Verdict::Red => block.prepend(" red\n"),
        Verdict::YellowDropped => block.prepend(" yellow-dropped\n"),
        Verdict::Pass { eligible: true, .. } => block.prepend(" pass-eligible\n"),
        Verdict::Pass {
            eligible: false,
            ..
        } => block.prepend(" pass\n"),
    }
}

/// Writes the `frame` line of a frame in front of `block`: number and verdict. `fill_frames` calls it for each frame.
#[inline(always)]
pub fn prepend_frame(block: &mut LineBlock, number: usize, verdict: Verdict)
    requires { 128 + length block.old ≤ 1920 }
    ensures text { block.new ≡ frame_line number verdict ++ block.old }
    ensures room { length block.new ≤ 128 + length block.old }
{
    prepend_verdict(block, verdict);
    block.prepend_number("frame ", number as u64);
}

/// Writes the end of a dropped copy's line in front of `block`: a space, the word for the reason and a line feed. `prepend_drop` calls it.
#[inline(always)]
fn prepend_refusal(block: &mut LineBlock, refusal: Refusal)
    requires { 7 + length block.old ≤ 1920 }
    ensures text { block.new ≡ codes " " ++ (refusal_word refusal ++ (codes "\n" ++ block.old)) }
    ensures room { length block.new ≤ 7 + length block.old }
{
    match refusal {
        Refusal::Full => block.prepend(" full\n"),
        Refusal::NeverFits => block.prepend(" never\n"),
    }
}

/// Writes the `drop` line of a dropped copy in front of `block`: the frame's number, the port and the reason. `prepend_line` calls it.
#[inline(always)]
fn prepend_drop(block: &mut LineBlock, dropped: &Dropped)
    requires { 128 + length block.old ≤ 1920 }
    ensures text { block.new ≡ drop_line dropped.now ++ block.old }
    ensures room { length block.new ≤ 128 + length block.old }
{
    let Dropped { own, port, refusal } = *dropped;
    prepend_refusal(block, refusal);
    block.prepend_number(" port ", u64::from(port));
    block.prepend_number("drop ", own);
}

/// Writes the `out` line of a copy that left in front of `block`: frame number, port, and start and end of its transmission in ns.
/// `prepend_line` calls it.
#[inline(always)]
fn prepend_departure(block: &mut LineBlock, departure: &Departure)
    requires { 128 + length block.old ≤ 1920 }
    ensures text { block.new ≡ departure_line departure.now ++ block.old }
    ensures room { length block.new ≤ 128 + length block.old }
{
    let Departure {
        own,
        port,
        start,
        done,
    } = *departure;
    block.prepend("\n");
    block.prepend_number(" done ", done);
    block.prepend_number(" start ", start);
    block.prepend_number(" port ", u64::from(port));
    block.prepend_number("out ", own);
}
