//! Makes the frames that are sent to each bridge, and their captures.
ghost use Rattle.std.specs.Prelude.{◌<◌, ◌≤◌};

use crate::captures::Recording;
use bridge_capture::RunFault;
use std::alloc::Global;

/// Number of frames of a port. They have 33 tags, three destinations and three sources, each in both halves of a cycle. The tags are none,
/// and four VLANs with each priority.
const PORT_FRAMES: u32 = 594;

/// Number of frames of all three ports.
pub const FRAMES: usize = 1_782;

/// Time in ns from a frame to the next: one and a half cycles.
const GAP: u64 = 60_000;

/// Number of captured octets of each frame.
const CAPTURED: usize = 22;

/// Octets of a record: a header of four 32-bit numbers, and the captured octets.
const RECORD: usize = 38;

/// Octets of the capture's header.
const HEADER: usize = 24;

/// Returns the priority of tag `tag`.
fn tag_priority(tag: u32) -> u16
    ensures { result ≤ 7 }
{
    (tag % 8) as u16
}

/// Returns the VLAN identifier of tag `tag`.
fn tag_vid(tag: u32) -> u16
    ensures { result ≤ 20 }
{
    match tag / 8 {
        0 => 0,
        1 => 1,
        2 => 10,
        _ => 20,
    }
}

/// Returns the octets of tag `tag`.
fn tag_octets(tag: u32) -> [u8; 2] {
    (tag_priority(tag) * 8192 + tag_vid(tag)).to_be_bytes()
}

/// Returns the captured octets of frame `number`. The last four octets contain the number.
fn frame_octets(number: u32) -> [u8; CAPTURED] {
    let sort = number % PORT_FRAMES / 2;
    let source = (sort % 3 + 1) as u8;
    let address = (sort / 3 % 3 + 1) as u8;
    let [a, b, c, d] = number.to_le_bytes();
    match (sort / 9).checked_sub(1) {
        None => [
            0x91, 0xe0, 0xf0, 0, 0xfe, address, 2, 0, 0, 0, 0, source, 0x88, 0xb5, 0, 0, 0, 0, a,
            b, c, d,
        ],
        Some(tag) => {
            let [high, low] = tag_octets(tag);
            [
                0x91, 0xe0, 0xf0, 0, 0xfe, address, 2, 0, 0, 0, 0, source, 0x81, 0, high, low,
                0x88, 0xb5, a, b, c, d,
            ]
        }
    }
}

/// Returns the arrival time of frame `number` in ns.
fn frame_time(number: u32) -> u64
    ensures { result < 1_000_000_000_000_000 }
{
    (number as u64 + 1) * GAP
}

/// Returns the number of the frame that arrives at `moment`, in ns.
pub fn frame_number(moment: u64) -> u64 {
    (moment / GAP).saturating_sub(1)
}

/// Returns the capture of the frames of a port, by its index from 0 to 2.
pub fn sample_capture(alloc: Global, port: u32) -> Recording {
    let mut capture = Recording::new(alloc);
    for i in 0..PORT_FRAMES {
        let number = (port % 3) * PORT_FRAMES + i;
        capture.put(frame_time(number), 60, &frame_octets(number));
    }
    capture
}

/// A frame that left: end of its transmission in ns, and its number.
#[derive(Clone, Copy)]
pub struct SentFrame {
    pub done: u64,
    pub number: u32,
}

/// Returns the little-endian 32-bit number at octet `at` of a record, or 0 after its end.
fn read_word(record: &[u8], at: usize) -> u32 {
    match record.get(at..at.saturating_add(4)) {
        Some([a, b, c, d]) => u32::from_le_bytes([*a, *b, *c, *d]),
        _ => 0,
    }
}

/// Reads the frame of a record.
fn read_record(record: &[u8]) -> SentFrame {
    SentFrame {
        done: read_word(record, 0) as u64 * 1_000_000_000 + read_word(record, 4) as u64,
        number: read_word(record, RECORD - 4),
    }
}

/// Reads the frames of a capture, whose records all have `RECORD` octets.
pub fn read_frames(alloc: Global, text: &[u8]) -> Result<Vec<SentFrame>, RunFault> {
    let records = text.get(HEADER..).unwrap_or(&[]);
    let mut frames = Vec::new(alloc);
    for record in records.chunks(RECORD) {
        if frames.push(read_record(record)).is_err() {
            return Err(RunFault::NoMemory);
        }
    }
    Ok(frames)
}
