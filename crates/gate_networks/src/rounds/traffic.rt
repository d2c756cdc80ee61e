//! Draws captures.
ghost use Rattle.std.specs.Prelude.{◌≤◌};

use crate::captures::Recording;
use crate::random_numbers::RandomNumbers;
use bridge_limits::NoMemory;
use std::alloc::Global;

/// Source of frames at a port.
#[derive(Clone, Copy)]
pub struct FrameSource {
    /// Bridge and port.
    pub bridge: u16,
    pub port: u8,
    /// Whether the stream's talker is at this port.
    pub talker: bool,
    /// Greatest number of frames.
    pub most: u32,
}

/// A frame: first octets, number of captured octets, and length in octets.
#[derive(Drop)]
struct Frame {
    octets: [u8; 18],
    captured: usize,
    len: u32,
}

/// Returns the drop eligible bit of a tag, set in one frame of four.
fn eligible_part(numbers: &mut RandomNumbers) -> u16
    ensures { result ≤ 4096 }
{
    if numbers.draw_chance(4) { 4096 } else { 0 }
}

/// Returns the octets of a tag with VLAN `vid` and random priority.
fn random_tag(numbers: &mut RandomNumbers, vid: u16) -> [u8; 2] {
    let priority = numbers.draw(8) as u16;
    let eligible = eligible_part(numbers);
    (priority * 8192 + eligible + vid % 4096).to_be_bytes()
}

/// Returns the octets of a frame with a tag.
fn tagged_frame(
    numbers: &mut RandomNumbers,
    comer: FrameSource,
    address: u8,
    vid: u16,
) -> [u8; 18] {
    let [high, low] = random_tag(numbers, vid);
    let [_, bridge] = comer.bridge.to_be_bytes();
    [
        0x91, 0xe0, 0xf0, 0, 0xfe, address, 2, 0, 0, 0, bridge, comer.port, 0x81, 0, high, low,
        0x88, 0xb5,
    ]
}

/// Returns the octets of a frame without a tag.
fn untagged_frame(comer: FrameSource, address: u8) -> [u8; 18] {
    let [_, bridge] = comer.bridge.to_be_bytes();
    [
        0x91, 0xe0, 0xf0, 0, 0xfe, address, 2, 0, 0, 0, bridge, comer.port, 0x88, 0xb5, 0, 0, 0, 0,
    ]
}

/// Returns the octets of a frame: of the stream, to its address with another tag, or to other addresses.
fn random_frame_octets(numbers: &mut RandomNumbers, comer: FrameSource) -> [u8; 18] {
    if comer.talker && !numbers.draw_chance(3) {
        return tagged_frame(numbers, comer, 1, 10);
    }
    match numbers.draw(10) {
        0 => tagged_frame(numbers, comer, 1, 10),
        1 => untagged_frame(comer, 1),
        2 => tagged_frame(numbers, comer, 1, 0),
        3 => untagged_frame(comer, 2),
        4 => tagged_frame(numbers, comer, 2, 1),
        5 => tagged_frame(numbers, comer, 3, 1),
        6 => untagged_frame(comer, 3),
        7 => tagged_frame(numbers, comer, 4, 0),
        8 => tagged_frame(numbers, comer, 2, 30),
        _ => untagged_frame(comer, 5),
    }
}

/// Returns the next frame. One frame in twelve has fewer than 18 captured octets.
fn next_frame(numbers: &mut RandomNumbers, comer: FrameSource) -> Frame {
    let octets = random_frame_octets(numbers, comer);
    let captured = if numbers.draw_chance(12) {
        numbers.draw(18) as usize
    } else {
        18
    };
    let len = match numbers.draw(6) {
        0 => 60 + numbers.draw(200),
        1 => 18 + numbers.draw(1_000),
        _ => 60,
    };
    Frame {
        octets,
        captured,
        len,
    }
}

/// Returns the time to the next frame in ns: a multiple of a shortest frame's transmission time, 672 ns, or any time.
fn frame_gap(numbers: &mut RandomNumbers) -> u32 {
    match numbers.draw(6) {
        0 => 0,
        1 => 672,
        2 => 1_344,
        3 => numbers.draw(40) * 672,
        4 => numbers.draw(100) * 672,
        _ => numbers.draw(60_000),
    }
}

/// Returns the capture of a port.
pub fn random_port_capture(
    alloc: Global,
    numbers: &mut RandomNumbers,
    comer: FrameSource,
) -> Result<Vec<u8>, NoMemory> {
    let mut capture = Recording::new(alloc);
    let mut at = 0u32;
    let count = numbers.draw(comer.most.saturating_add(1).max(1));
    for _ in 0..count {
        at = at.saturating_add(frame_gap(numbers));
        let frame = next_frame(numbers, comer);
        let octets = frame.octets.get(..frame.captured).unwrap_or(&[]);
        capture.put(at as u64, frame.len.max(18), octets);
    }
    Ok(Vec::from_slice(alloc, capture.octets())?)
}

/// Damage to a capture.
#[derive(Clone, Copy)]
pub enum Damage {
    /// The header is cut.
    Header,
    /// The magic number is wrong.
    Magic,
    /// A last record is cut.
    Record,
}

/// Damages a capture, and returns whether memory sufficed.
pub fn spoil(text: &mut Vec<u8>, spoilt: Damage) -> bool {
    match spoilt {
        Damage::Header => text.truncate(10),
        Damage::Magic => {
            if let Some(octet) = text.get_mut(0) {
                *octet = 1;
            }
        }
        Damage::Record => return text.extend_from_slice(&[0xff, 0, 0, 0, 0]).is_ok(),
    }
    true
}
