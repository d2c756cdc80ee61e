//! Makes frames of conforming and hostile talkers at the ports of one bridge.
use crate::frames::{Addresses, Frame, sorted_capture, tagged_head, untagged_head};
use crate::numbers::Numbers;
use crate::plans::shape::{Shape, Stream, Tag};
use bridge_limits::NoMemory;
use std::alloc::Global;

/// Last octet of a destination for which no plan has a `static` entry.
const UNLISTED: u64 = 0x40;

/// Last octet of the destination of filter 50.
const FIFTY: u64 = 0x32;

/// Last octet of a hostile talker's source address, before its port number is added.
const HOSTILE: u64 = 0x80;

/// Returns the addresses of the frames that the stream's talker sends.
fn own_addresses(stream: &Stream) -> Addresses {
    let address = stream.place.saturating_add(10);
    Addresses {
        to: address,
        from: address,
    }
}

/// Returns the first octets of a frame that matches the stream's `stream` entry and filter.
fn own_head(numbers: &mut Numbers, stream: &Stream) -> [u8; 18] {
    let priority = if stream.way.by_priority {
        stream.class()
    } else {
        numbers.below(8)
    };
    let addresses = own_addresses(stream);
    match stream.way.tag {
        Tag::Tagged => tagged_head(addresses, 10, priority),
        Tag::Priority => untagged_or(numbers, addresses, priority),
        Tag::All => {
            if numbers.is_drawn(2) {
                tagged_head(addresses, 10, priority)
            } else {
                untagged_or(numbers, addresses, priority)
            }
        }
    }
}

/// Returns the first octets of a frame with no tag or with a priority tag.
fn untagged_or(numbers: &mut Numbers, addresses: Addresses, priority: u64) -> [u8; 18] {
    if numbers.is_drawn(2) {
        untagged_head(addresses)
    } else {
        tagged_head(addresses, 0, priority)
    }
}

/// Returns the next frame of a stream. Two frames in three have the least or the greatest length.
fn own_frame(numbers: &mut Numbers, stream: &Stream, at: u64) -> Frame {
    let lengths = &stream.lengths;
    Frame {
        at,
        len: numbers.between_ends(lengths.least, lengths.longest),
        head: own_head(numbers, stream),
    }
}

/// Adds frames of a periodic talker: at most one in each period.
fn add_periodic(
    numbers: &mut Numbers,
    stream: &Stream,
    until: u64,
    frames: &mut Vec<Frame>,
) -> Result<(), NoMemory> {
    let talker = &stream.talker;
    let count = until / talker.period.max(1);
    for index in 0..count {
        let phase = numbers.between_ends(talker.from, talker.to);
        let at = index.saturating_mul(talker.period).saturating_add(phase);
        if !numbers.is_drawn(6) {
            frames.push(own_frame(numbers, stream, at))?;
        }
    }
    Ok(())
}

/// Adds frames of a talker without a row, at random times.
fn add_restless(
    numbers: &mut Numbers,
    stream: &Stream,
    until: u64,
    frames: &mut Vec<Frame>,
) -> Result<(), NoMemory> {
    for _ in 0..numbers.below(30) {
        let at = numbers.below(until);
        frames.push(own_frame(numbers, stream, at))?;
    }
    Ok(())
}

/// Adds the frames of the streams that enter at `port`.
fn add_own(
    numbers: &mut Numbers,
    shape: &Shape,
    port: u64,
    until: u64,
    frames: &mut Vec<Frame>,
) -> Result<(), NoMemory> {
    for stream in &shape.streams {
        if stream.way.ingress == port {
            if stream.talker.has_row {
                add_periodic(numbers, stream, until, frames)?;
            } else {
                add_restless(numbers, stream, until, frames)?;
            }
        }
    }
    Ok(())
}

/// Returns the first octets of a hostile frame with the stream's destination. The stream's filter doesn't match it.
fn forged_head(numbers: &mut Numbers, stream: &Stream, port: u64) -> [u8; 18] {
    let addresses = Addresses {
        to: stream.place.saturating_add(10),
        from: HOSTILE.saturating_add(port),
    };
    let priority = numbers.below(8);
    if stream.way.ingress != port || stream.way.by_source {
        return match numbers.below(3) {
            0 => untagged_head(addresses),
            1 => tagged_head(addresses, 0, priority),
            _ => tagged_head(addresses, 10, priority),
        };
    }
    if stream.way.by_priority && numbers.is_drawn(2) {
        let other = stream
            .class()
            .saturating_add(1)
            .saturating_add(numbers.below(7));
        return tagged_head(addresses, 10, other);
    }
    match stream.way.tag {
        Tag::Tagged => untagged_or(numbers, addresses, priority),
        Tag::Priority => tagged_head(addresses, 10, priority),
        Tag::All => tagged_head(addresses, 30, priority),
    }
}

/// Returns the first octets of a hostile frame.
fn hostile_head(numbers: &mut Numbers, shape: &Shape, port: u64) -> [u8; 18] {
    let from = HOSTILE.saturating_add(port);
    let index = numbers.below(5);
    if let Some(stream) = shape.streams.get(index as usize) {
        return forged_head(numbers, stream, port);
    }
    let to = if numbers.is_drawn(2) { FIFTY } else { UNLISTED };
    let addresses = Addresses { to, from };
    let priority = numbers.below(8);
    if numbers.is_drawn(3) {
        untagged_head(addresses)
    } else {
        tagged_head(addresses, 10, priority)
    }
}

/// Returns the next length of a hostile frame in octets.
fn hostile_len(numbers: &mut Numbers) -> u64 {
    match numbers.below(4) {
        0 => 1_514,
        1 => numbers.between(18, 1_514),
        2 => numbers.between(60, 200),
        _ => 60,
    }
}

/// Adds hostile frames. Some arrive at random times, others in the phases of the streams.
fn add_hostile(
    numbers: &mut Numbers,
    shape: &Shape,
    port: u64,
    until: u64,
    frames: &mut Vec<Frame>,
) -> Result<(), NoMemory> {
    for _ in 0..numbers.below(30) {
        let index = numbers.below(6);
        let at = match shape.streams.get(index as usize) {
            Some(stream) => {
                let period = stream.talker.period;
                let later = numbers.below(until / period.max(1)).saturating_mul(period);
                numbers
                    .between(stream.talker.from, stream.talker.to)
                    .saturating_add(later)
            }
            None => numbers.below(until),
        };
        let head = hostile_head(numbers, shape, port);
        let len = hostile_len(numbers);
        frames.push(Frame { at, len, head })?;
    }
    Ok(())
}

/// Returns the captures of all ports, with frames of the streams' talkers and of hostile talkers.
pub fn input_captures(
    alloc: Global,
    numbers: &mut Numbers,
    shape: &Shape,
) -> Result<Vec<Vec<u8>>, NoMemory> {
    let until = shape.period.saturating_mul(numbers.between(6, 12));
    let mut captures = Vec::new(alloc);
    for port in 1..5u64 {
        if port <= shape.ports {
            let mut frames = Vec::new(alloc);
            add_own(numbers, shape, port, until, &mut frames)?;
            add_hostile(numbers, shape, port, until, &mut frames)?;
            captures.push(sorted_capture(alloc, &mut frames)?)?;
        }
    }
    Ok(captures)
}
