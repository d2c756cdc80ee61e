//! Makes captures of frames of the stream and of other frames.
use crate::captures::Recording;
use crate::random_numbers::RandomNumbers;
use std::alloc::Global;

/// First octets of a frame of the stream.
const STREAM: [u8; 18] = [
    2, 0, 0, 0, 0, 0x0a, 2, 0, 0, 0, 0, 1, 0x81, 0, 0, 10, 0x88, 0xb5,
];

/// First octets of a frame in the stream's VLAN that the bridge floods.
const OTHER: [u8; 18] = [
    2, 0, 0, 0, 0, 0x0b, 2, 0, 0, 0, 0, 2, 0x81, 0, 0xe0, 10, 0x88, 0xb5,
];

/// Length in octets of the longest frame that the filter passes: 500 of service data unit, 16 of addresses and tag.
const LONGEST: u32 = 516;

/// Number of frames of a random capture.
const RANDOM_FRAMES: u32 = 40;

/// Longest frames of the stream, near the bound: a frame at `before`, which can occupy the link, then `count` frames at `at`. Times are in
/// ns.
#[derive(Clone, Copy)]
pub struct NearBound {
    pub before: Option<u32>,
    pub at: u32,
    pub count: u32,
}

/// Arrival times in ns of a talker's shortest and longest frame, and their lengths in octets.
#[derive(Clone, Copy)]
pub struct PhaseEnds {
    pub first: u64,
    pub last: u64,
    pub least: u32,
    pub longest: u32,
}

/// Returns the capture of frames near a bound.
pub fn near_capture(alloc: Global, near: NearBound) -> Recording {
    let mut capture = Recording::new(alloc);
    if let Some(before) = near.before {
        capture.put(before as u64, LONGEST, &STREAM);
    }
    for _ in 0..near.count {
        capture.put(near.at as u64, LONGEST, &STREAM);
    }
    capture
}

/// Returns the capture of a talker's shortest frame, and then of its longest frame. Frames begin with `head`.
pub fn ends_capture(alloc: Global, head: &[u8; 18], ends: PhaseEnds) -> Recording {
    let mut capture = Recording::new(alloc);
    capture.put(ends.first, ends.least, head);
    capture.put(ends.last, ends.longest, head);
    capture
}

/// Returns the time to the next frame in ns: none, short or long.
fn frame_gap(numbers: &mut RandomNumbers) -> u32 {
    match numbers.draw(4) {
        0 => 0,
        1 => numbers.draw(3_000),
        2 => numbers.draw(20_000),
        _ => numbers.draw(300_000),
    }
}

/// Returns a capture of 40 frames of 60 to 516 octets at rising times. Three frames in four belong to the stream.
pub fn random_capture(alloc: Global, numbers: &mut RandomNumbers) -> Recording {
    let mut capture = Recording::new(alloc);
    let mut at = 0u32;
    for _ in 0..RANDOM_FRAMES {
        at = at.saturating_add(frame_gap(numbers));
        let len = 60 + numbers.draw(LONGEST - 59);
        let octets = if numbers.draw(4) == 0 {
            &OTHER
        } else {
            &STREAM
        };
        capture.put(at as u64, len, octets);
    }
    capture
}
