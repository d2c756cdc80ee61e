//! Draws random groups of one bridge: an egress port, its windows, and streams with meters.
use crate::numbers::Numbers;
use bridge_limits::NoMemory;
use std::alloc::Global;

/// Number of the egress port. Ports below it are ingress ports.
pub const EGRESS: u64 = 4;

/// Flow meter of a stream.
#[derive(Clone, Copy)]
pub struct StreamMeter {
    pub cir: u64,
    pub cbs: u64,
    pub eir: u64,
    pub ebs: u64,
    pub couples: bool,
    pub drops_yellow: bool,
}

/// A stream of a group.
#[derive(Clone, Copy)]
pub struct Member {
    /// Index among all streams, from 0. Addresses, handle, stream gate and filter follow from it.
    pub place: u64,
    /// Number of the group: 1 uses class 7, 2 uses class 6.
    pub group: u64,
    /// Ingress port.
    pub ingress: u64,
    /// Captured length of the longest frame that the filter allows, in octets.
    pub longest: u64,
    /// Flow meter. Seldom missing.
    pub meter: Option<StreamMeter>,
}

impl Member {
    /// Returns the filter's number.
    pub fn filter(&self) -> u64 {
        self.place.saturating_add(10)
    }

    /// Returns the class of the group's queue.
    pub fn class(&self) -> u64 {
        8u64.saturating_sub(self.group)
    }

    /// Returns the last octet of the stream's destination and source address.
    pub fn address(&self) -> u64 {
        self.place.saturating_add(16)
    }
}

/// Gate control list of the egress port. Times are in ns. Its windows follow each other: class 7, class 6, other classes.
#[derive(Clone, Copy)]
pub struct Windows {
    pub base: u64,
    /// Time of other classes before the first window.
    pub lead: u64,
    pub class_seven: u64,
    pub class_six: u64,
    /// Time of other classes after the last window.
    pub rest: u64,
}

impl Windows {
    /// Returns the cycle time in ns.
    pub fn cycle(&self) -> u64 {
        self.lead
            .saturating_add(self.class_seven)
            .saturating_add(self.class_six)
            .saturating_add(self.rest)
    }

    /// Returns the end of a group's window in ns from the start of a cycle.
    pub fn window_end(&self, group: u64) -> u64 {
        let first = self.lead.saturating_add(self.class_seven);
        if group == 1 {
            first
        } else {
            first.saturating_add(self.class_six)
        }
    }
}

/// A bridge with one or two groups.
#[derive(Drop)]
pub struct Shape {
    /// Speed of the egress port in Mb/s.
    pub mbps: u64,
    pub members: Vec<Member>,
    pub windows: Windows,
    /// Windows after a schedule change.
    pub next: Windows,
    /// Time of a schedule change in ns.
    pub change: Option<u64>,
}

impl Shape {
    /// Returns the time in ns that the longest frame of a group occupies the egress link.
    pub fn longest_time(&self, group: u64) -> u64 {
        let mut longest = 60;
        for member in &self.members {
            if member.group == group {
                longest = member.longest.max(longest);
            }
        }
        transmission(longest, self.mbps)
    }
}

/// Returns the time in ns that a frame of `len` captured octets occupies a link of `mbps` Mb/s.
pub fn transmission(len: u64, mbps: u64) -> u64 {
    len.max(60).saturating_add(24).saturating_mul(8_000) / mbps.max(1)
}

/// Returns the next meter of frames with at most `longest` captured octets.
fn next_meter(numbers: &mut Numbers, longest: u64, mbps: u64) -> StreamMeter {
    let octets = longest.saturating_add(4);
    let count = numbers.pick(&[1, 1, 2, 3]);
    let share = numbers.pick(&[0, 1, 5, 10, 30, 60]);
    let has_excess = numbers.is_drawn(4);
    let excess = if has_excess { octets } else { 0 };
    let rate = if has_excess {
        mbps.saturating_mul(10_000)
    } else {
        0
    };
    StreamMeter {
        cir: mbps.saturating_mul(1_000).saturating_mul(share),
        cbs: octets
            .saturating_mul(count)
            .saturating_add(numbers.below(64)),
        eir: rate,
        ebs: excess,
        couples: numbers.is_drawn(4),
        drops_yellow: numbers.is_drawn(2),
    }
}

/// Returns the next stream.
fn next_member(numbers: &mut Numbers, place: u64, groups: u64, mbps: u64) -> Member {
    let longest = match numbers.below(4) {
        0 => 60,
        1 => numbers.between(61, 200),
        2 => numbers.between(61, 1_000),
        _ => numbers.between(600, 1_518),
    };
    let meter = if numbers.is_drawn(60) {
        None
    } else {
        Some(next_meter(numbers, longest, mbps))
    };
    Member {
        place,
        group: numbers.between(1, groups),
        ingress: numbers.between(1, 3),
        longest,
        meter,
    }
}

/// Returns the next windows, for longest transmission times of 7's and 6's classes in ns.
fn next_windows(numbers: &mut Numbers, seven: u64, six: u64) -> Windows {
    let most = seven.max(six);
    let lead = if numbers.is_drawn(2) {
        numbers.below(most)
    } else {
        0
    };
    Windows {
        base: numbers.below(most),
        lead,
        class_seven: next_window(numbers, seven),
        class_six: next_window(numbers, six),
        rest: numbers.between(1, most.saturating_mul(20)),
    }
}

/// Returns the next length of a window in ns. Seldom it is too short for the longest frame.
fn next_window(numbers: &mut Numbers, longest: u64) -> u64 {
    match numbers.below(16) {
        0 => longest.saturating_sub(1),
        1 | 2 => longest,
        3 | 4 => longest.saturating_mul(2).saturating_sub(1),
        _ => longest.saturating_add(numbers.below(longest.saturating_mul(30))),
    }
}

/// Returns the next bridge.
pub fn next_shape(alloc: Global, numbers: &mut Numbers) -> Result<Shape, NoMemory> {
    let mbps = numbers.pick(&[10, 100, 100, 1_000, 1_000]);
    let groups = numbers.between(1, 2);
    let count = numbers.between(2, 8);
    let mut members = Vec::new(alloc);
    for place in 0..count {
        members.push(next_member(numbers, place, groups, mbps))?;
    }
    let none = Windows {
        base: 0,
        lead: 0,
        class_seven: 0,
        class_six: 0,
        rest: 0,
    };
    let mut shape = Shape {
        mbps,
        members,
        windows: none,
        next: none,
        change: None,
    };
    let (seven, six) = (shape.longest_time(1), shape.longest_time(2));
    shape.windows = next_windows(numbers, seven, six);
    shape.next = next_windows(numbers, seven, six);
    if numbers.is_drawn(8) {
        let cycle = shape.windows.cycle();
        shape.change = Some(numbers.between(cycle, cycle.saturating_mul(6)));
    }
    Ok(shape)
}
