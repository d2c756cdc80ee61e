//! Makes bursts of conforming and babbling talkers of groups.
use crate::frames::{Addresses, Frame, sorted_capture, tagged_head};
use crate::groups::shape::{Member, Shape, StreamMeter};
use crate::numbers::Numbers;
use bridge_limits::NoMemory;
use std::alloc::Global;

/// Greatest number of frames of a talker in a run.
const MAX_FRAMES: u64 = 150;

/// Bits in an octet times ns in a second.
const BIT_TIMES: u64 = 8_000_000_000;

/// Lengths of a run's frames.
#[derive(Clone, Copy, PartialEq, Eq)]
pub enum Lengths {
    Shortest,
    Longest,
    Mixed,
}

/// How the talkers of a run send.
#[derive(Clone, Copy)]
pub struct Attack {
    /// Start of all bursts in ns.
    pub at: u64,
    /// End of the run's frames in ns.
    pub until: u64,
    pub lengths: Lengths,
    /// Index of a stream whose talker conforms to its meter. Each other talker may babble.
    pub conforming: u64,
    /// Whether all talkers conform.
    pub is_calm: bool,
}

/// Returns the next attack on a shape: mostly from the ns after the last start of a longest frame in a window.
pub fn next_attack(numbers: &mut Numbers, shape: &Shape) -> Attack {
    let windows = &shape.windows;
    let cycle = windows.cycle();
    let group = numbers.between(1, 2);
    let begin = numbers
        .between(2, 5)
        .saturating_mul(cycle)
        .saturating_add(windows.base);
    let last = windows
        .window_end(group)
        .saturating_sub(shape.longest_time(group))
        .saturating_add(1);
    let at = if numbers.is_drawn(4) {
        begin.saturating_add(numbers.below(cycle))
    } else {
        begin.saturating_add(last)
    };
    Attack {
        at,
        until: at.saturating_add(cycle.saturating_mul(3)),
        lengths: match numbers.below(4) {
            0 => Lengths::Longest,
            1 => Lengths::Mixed,
            _ => Lengths::Shortest,
        },
        conforming: numbers.below(shape.members.len() as u64),
        is_calm: numbers.is_drawn(2),
    }
}

/// Returns the captured length of a member's next frame.
fn next_length(numbers: &mut Numbers, member: &Member, lengths: Lengths) -> u64 {
    match lengths {
        Lengths::Shortest => 60,
        Lengths::Longest => member.longest,
        Lengths::Mixed => numbers.between_ends(60, member.longest),
    }
}

/// Returns the next frame of a member.
fn next_frame(numbers: &mut Numbers, member: &Member, lengths: Lengths, at: u64) -> Frame {
    let addresses = Addresses {
        to: member.address(),
        from: member.address(),
    };
    Frame {
        at,
        len: next_length(numbers, member, lengths),
        head: tagged_head(addresses, 10, numbers.below(8)),
    }
}

/// Committed bucket of a meter, as a conforming talker counts it: its level in octets times `BIT_TIMES`.
#[derive(Drop)]
struct Bucket {
    level: u128,
}

impl Bucket {
    /// Returns the ns until the bucket holds `octets`, and takes them out. Returns `None` if the bucket never holds them.
    fn wait(&mut self, meter: &StreamMeter, octets: u64) -> Option<u64> {
        let need = u128::from(octets).saturating_mul(u128::from(BIT_TIMES));
        let size = u128::from(meter.cbs).saturating_mul(u128::from(BIT_TIMES));
        let rate = u128::from(meter.cir);
        let missing = need.saturating_sub(self.level);
        if missing > 0 && (rate == 0 || need > size) {
            return None;
        }
        let ns = missing.saturating_add(rate).saturating_sub(1) / rate.max(1);
        let ns = if missing == 0 { 0 } else { ns };
        let filled = self.level.saturating_add(rate.saturating_mul(ns)).min(size);
        self.level = filled.saturating_sub(need);
        u64::try_from(ns).ok()
    }
}

/// Adds frames of a talker that conforms to CBS and CIR of its meter.
fn add_conforming(
    numbers: &mut Numbers,
    member: &Member,
    meter: &StreamMeter,
    attack: &Attack,
    frames: &mut Vec<Frame>,
) -> Result<(), NoMemory> {
    let mut bucket = Bucket {
        level: u128::from(meter.cbs).saturating_mul(u128::from(BIT_TIMES)),
    };
    let mut at = attack.at;
    for _ in 0..MAX_FRAMES {
        let frame = next_frame(numbers, member, attack.lengths, at);
        let octets = frame.len.max(60).saturating_add(4);
        let Some(wait) = bucket.wait(meter, octets) else {
            return Ok(());
        };
        at = at.saturating_add(wait);
        if at > attack.until {
            return Ok(());
        }
        frames.push(Frame { at, ..frame })?;
    }
    Ok(())
}

/// Adds frames of a babbling talker: a burst, then frames at random times.
fn add_babbling(
    numbers: &mut Numbers,
    member: &Member,
    attack: &Attack,
    frames: &mut Vec<Frame>,
) -> Result<(), NoMemory> {
    let span = attack.until.saturating_sub(attack.at);
    for _ in 0..numbers.below(MAX_FRAMES) {
        let frame = next_frame(numbers, member, attack.lengths, attack.at);
        frames.push(frame)?;
    }
    for _ in 0..numbers.below(MAX_FRAMES) {
        let at = attack.at.saturating_add(numbers.below(span));
        let frame = next_frame(numbers, member, attack.lengths, at);
        frames.push(frame)?;
    }
    Ok(())
}

/// Adds the frames of a member.
fn add_member(
    numbers: &mut Numbers,
    member: &Member,
    attack: &Attack,
    frames: &mut Vec<Frame>,
) -> Result<(), NoMemory> {
    match &member.meter {
        Some(meter) if attack.is_calm || member.place == attack.conforming => {
            add_conforming(numbers, member, meter, attack, frames)
        }
        _ => add_babbling(numbers, member, attack, frames),
    }
}

/// Returns the captures of all ports.
pub fn input_captures(
    alloc: Global,
    numbers: &mut Numbers,
    shape: &Shape,
    attack: &Attack,
) -> Result<Vec<Vec<u8>>, NoMemory> {
    let mut captures = Vec::new(alloc);
    for port in 1..5u64 {
        let mut frames = Vec::new(alloc);
        for member in &shape.members {
            if member.ingress == port {
                add_member(numbers, member, attack, &mut frames)?;
            }
        }
        captures.push(sorted_capture(alloc, &mut frames)?)?;
    }
    Ok(captures)
}
