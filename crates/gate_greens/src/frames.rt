//! Builds the frames that talkers send, and captures of them.
use bridge_capture::{VecSink, Writer};
use bridge_limits::NoMemory;
use std::alloc::Global;

/// Latest arrival time of a frame in ns.
const LATEST: u64 = 1_000_000_000_000;

/// A frame: arrival time in ns, original length in octets, and the captured octets.
#[derive(Clone, Copy, Drop)]
pub struct Frame {
    pub at: u64,
    pub len: u64,
    pub head: [u8; 18],
}

/// Addresses of a frame: last octet of the destination and last octet of the source.
#[derive(Clone, Copy)]
pub struct Addresses {
    pub to: u64,
    pub from: u64,
}

/// Returns the low octet of `number`.
fn octet(number: u64) -> u8 {
    (number % 256) as u8
}

/// Returns the first octets of a tagged frame. Takes `priority` modulo 8 and `vid` modulo 4096.
pub fn tagged_head(addresses: Addresses, vid: u64, priority: u64) -> [u8; 18] {
    let tag = (priority % 8)
        .saturating_mul(8192)
        .saturating_add(vid % 4096);
    [
        2,
        0,
        0,
        0,
        0,
        octet(addresses.to),
        2,
        0,
        0,
        0,
        1,
        octet(addresses.from),
        0x81,
        0,
        octet(tag / 256),
        octet(tag),
        0x88,
        0xb5,
    ]
}

/// Returns the first octets of a frame without a tag.
pub fn untagged_head(addresses: Addresses) -> [u8; 18] {
    [
        2,
        0,
        0,
        0,
        0,
        octet(addresses.to),
        2,
        0,
        0,
        0,
        1,
        octet(addresses.from),
        0x88,
        0xb5,
        0,
        0,
        0,
        0,
    ]
}

/// Writes a frame to a capture, with a length from 18 to 9,216 octets.
fn put_frame(
    sink: &mut VecSink<Global>,
    writer: &mut Writer,
    frame: &Frame,
) -> Result<(), NoMemory> {
    let at = frame.at.min(LATEST);
    let len = frame.len.clamp(18, 9_216) as u32;
    match writer.put(sink, at, len, &frame.head) {
        Ok(()) => Ok(()),
        Err(_) => Err(NoMemory),
    }
}

/// Sorts frames by arrival time, and returns their capture.
pub fn sorted_capture(alloc: Global, frames: &mut Vec<Frame>) -> Result<Vec<u8>, NoMemory> {
    frames.sort_by_key(|frame| frame.at)?;
    let mut sink = VecSink::new(alloc);
    let Ok(mut writer) = Writer::begin(&mut sink) else {
        return Err(NoMemory);
    };
    for frame in frames.iter() {
        put_frame(&mut sink, &mut writer, frame)?;
    }
    Ok(Vec::from_slice(alloc, sink.octets())?)
}
