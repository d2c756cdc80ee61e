//! Conversion of a port's sent frames to the input of the port at the link's other end: each frame arrives one link delay later.
ghost use Rattle.std.specs.Prelude.{◌≡◌, ℕ, ◌≤◌, ◌<◌, ◌+◌, ◌*◌, ◌^◌, ◌++◌, All, List, Some, None, flat_map, length, map, option_map, IfOk, OnOk};
ghost use Rattle.std.specs.Int.{to_le_bytes};
ghost use Rattle.bridge_capture.specs.Grammar.{CapturedFrame};
ghost use Rattle.bridge_capture.specs.WrittenCapture.{written_frame, written_text};
ghost use Rattle.bridge_core.specs.CaptureWriters.{FitsRecord};
ghost use Rattle.net_run.specs.DelayedCapture.{AppendsDelayedRecord, IsRecordAppended, IsWord, delayed, delayed_records, delayed_text, delayed_time, time_words};

use bridge_limits::{END_OF_TIME, NoMemory};
use std::alloc::Allocator;

/// Length of a capture's header in octets.
const HEADER_LENGTH: usize = 24;

/// Length of a record's header in octets.
const RECORD_HEADER_LENGTH: usize = 16;

/// Returns the little-endian word of the four octets from index `at` on. `append_delayed_record` calls it.
fn read_word(octets: &[u8], at: usize) -> u64
    requires { at + 4 ≤ length octets.now }
    ensures word { IsWord octets.now at result }
    ensures small { result < 2 ^ 32 }
{
    u32::from_le_bytes([octets[at], octets[at + 1], octets[at + 2], octets[at + 3]]) as u64
}

/// Returns the time `moment` plus `delay`, in ns, but at most `END_OF_TIME`, because captures have no later times. `append_delayed_record`
/// calls it.
fn delayed_time(moment: u64, delay: u64) -> u64
    ensures { result ≡ delayed_time moment delay }
{
    moment.saturating_add(delay).min(END_OF_TIME)
}

/// Returns the eight octets of the time `moment` in a record: four octets of seconds, then four of nanoseconds within the second, both
/// little-endian. `append_delayed_record` calls it.
#[tactic(auto, unfolding(crate::specs::DelayedCapture::time_words))]
fn time_words(moment: u64) -> [u8; 8]
    requires { moment < 2 ^ 32 * 10 ^ 9 }
    ensures { result ≡ time_words moment }
{
    let seconds = ((moment / 1_000_000_000) as u32).to_le_bytes();
    let fraction = ((moment % 1_000_000_000) as u32).to_le_bytes();
    [
        seconds[0],
        seconds[1],
        seconds[2],
        seconds[3],
        fraction[0],
        fraction[1],
        fraction[2],
        fraction[3],
    ]
}

/// Appends to `text` the first record of `octets`, with its time delayed by `delay` ns. Returns the octets after this record, or `None` if
/// no whole record is left. `append_delayed_records` calls it.
fn append_delayed_record<'a, A: Allocator>(
    octets: &'a [u8],
    delay: u64,
    text: &mut Vec<u8, A>,
) -> Result<Option<&'a [u8]>, NoMemory>
    ensures adds { IfOk result (λ rest. AppendsDelayedRecord delay octets.entry.now text.old.items text.new.items
        (option_map (λ s. s.now) rest)) }
    ensures exact { IfOk result (λ rest. IsRecordAppended delay octets.entry.now text.old.items text.new.items
        (option_map (λ s. s.now) rest)) }
    ensures kept { IfOk result (λ rest. option_map (λ s. s.now) rest ≡ None → text.new ≡ text.old) }
    ensures fewer { IfOk result (λ rest. (more : List ℕ) → option_map (λ s. s.now) rest ≡ Some more
        → length more < length octets.entry.now) }
{
    if octets.len() < RECORD_HEADER_LENGTH {
        return Ok(None);
    }
    let end = RECORD_HEADER_LENGTH + read_word(octets, 8) as usize;
    if octets.len() < end {
        return Ok(None);
    }
    let moment = read_word(octets, 0) * 1_000_000_000 + read_word(octets, 4);
    text.extend_from_slice(&time_words(delayed_time(moment, delay)))?;
    text.extend_from_slice(&octets[8..end])?;
    Ok(Some(&octets[end..]))
}

/// Appends to `text` each record of `octets`, with its time delayed by `delay` ns. Stops at the first record that isn't whole.
/// `delay_capture` calls it.
fn append_delayed_records<A: Allocator>(
    octets: &[u8],
    delay: u64,
    text: &mut Vec<u8, A>,
) -> Result<(), NoMemory>
    ensures frames { (frames : List CapturedFrame) → octets.now ≡ flat_map written_frame frames
        → All FitsRecord frames →
        IfOk result (λ _. text.new.items ≡ text.old.items ++ flat_map written_frame (map (delayed delay) frames)) }
    ensures exact { OnOk result (text.new.items ≡ text.old.items
        ++ delayed_records (length octets.now) delay octets.now) }
{
    let mut left = octets;
    while let Some(rest) = append_delayed_record(left, delay, text)? {
        left = rest;
    }
    Ok(())
}

/// Returns the capture `text` with each frame delayed by `delay` ns, at most to the end of time. The result is empty if `text` lacks a
/// whole header. `copy_octets` calls it.
pub fn delay_capture<A: Allocator>(
    alloc: A,
    text: &[u8],
    delay: u64,
) -> Result<Vec<u8, A>, NoMemory>
    ensures frames { (frames : List CapturedFrame) → text.now ≡ written_text frames → All FitsRecord frames →
        IfOk result (λ later. later.items ≡ written_text (map (delayed delay) frames)) }
    ensures exact { IfOk result (λ later. later.items ≡ delayed_text delay text.now) }
{
    let mut later = Vec::with_capacity(alloc, text.len())?;
    if text.len() < HEADER_LENGTH {
        return Ok(later);
    }
    let (header, records) = text.split_at(HEADER_LENGTH);
    later.extend_from_slice(header)?;
    append_delayed_records(records, delay, &mut later)?;
    Ok(later)
}
