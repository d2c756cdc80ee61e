//! Draws random streams of one bridge: ports, lengths, stream gates and periodic talkers.
use crate::numbers::Numbers;
use bridge_limits::NoMemory;
use std::alloc::Global;

/// Tags that a `stream` entry compares.
#[derive(Clone, Copy, PartialEq, Eq)]
pub enum Tag {
    Tagged,
    Priority,
    All,
}

/// Path of a stream through the bridge.
#[derive(Clone, Copy)]
pub struct Way {
    /// Ingress port.
    pub ingress: u64,
    /// Egress ports of the `static` entry. 0 stands for no port.
    pub egress: [u64; 2],
    /// Whether the bridge floods the frames, because there is no `static` entry.
    pub floods: bool,
    /// Whether the `stream` entry compares the source address.
    pub by_source: bool,
    /// Whether the filter compares the priority, and the stream gate sets none.
    pub by_priority: bool,
    pub tag: Tag,
}

/// Lengths in octets.
#[derive(Clone, Copy)]
pub struct Lengths {
    pub least: u64,
    pub longest: u64,
    pub max_sdu: u64,
}

/// When a stream gate is open.
#[derive(Clone, Copy, PartialEq, Eq)]
pub enum GateKind {
    /// Always.
    Open,
    /// Only in the second entry of its list.
    Window,
    /// In both entries of its list, which limit the octets.
    Limits,
}

/// A stream gate. In its list, an entry of `second` ns follows an entry of `first` ns.
#[derive(Clone, Copy)]
pub struct StreamGate {
    pub kind: GateKind,
    pub base: u64,
    pub cycle: u64,
    pub first: u64,
    pub second: u64,
    /// Limit of the octets, or 0 for none.
    pub octets: u64,
    /// Whether an invalid frame shuts the stream gate.
    pub shuts: bool,
}

/// A periodic talker. Times are in ns.
#[derive(Clone, Copy)]
pub struct Talker {
    pub period: u64,
    pub from: u64,
    pub to: u64,
    /// Whether the traffic file has a row for the talker.
    pub has_row: bool,
}

/// A stream with a protected filter. Its numbers follow from `place`, its index from 0 to 2.
#[derive(Clone, Copy)]
pub struct Stream {
    pub place: u64,
    pub way: Way,
    pub lengths: Lengths,
    pub gate: StreamGate,
    pub talker: Talker,
}

/// A bridge with its streams.
#[derive(Drop)]
pub struct Shape {
    /// Number of ports, from 2 to 4.
    pub ports: u64,
    /// Speed of each port in Mb/s.
    pub speeds: [u64; 4],
    /// Period in ns, a multiple of each cycle time.
    pub period: u64,
    pub streams: Vec<Stream>,
    /// Time of the schedule change in ns.
    pub change: Option<u64>,
}

impl Stream {
    /// Returns the number of the filter.
    pub fn filter(&self) -> u64 {
        self.place.saturating_add(10)
    }

    /// Returns the class of the stream's frames.
    pub fn class(&self) -> u64 {
        7u64.saturating_sub(self.place)
    }

    /// Whether frames of the filter can enter a queue of `port`.
    pub fn reaches(&self, port: u64) -> bool {
        let way = &self.way;
        let [one, other] = way.egress;
        way.by_source || (way.floods && port != way.ingress) || one == port || other == port
    }
}

impl Shape {
    /// Returns the speed of `port` in Mb/s.
    pub fn speed(&self, port: u64) -> u64 {
        let index = port.saturating_sub(1) as usize;
        self.speeds.get(index).copied().unwrap_or(1_000)
    }
}

/// Returns the transmission time in ns of a frame of `len` octets at `mbps` Mb/s.
pub fn transmission(len: u64, mbps: u64) -> u64 {
    let bits = len.max(60).saturating_add(24).saturating_mul(8_000);
    if mbps == 0 { bits } else { bits / mbps }
}

/// Returns a port other than `port`.
fn other_port(numbers: &mut Numbers, ports: u64, port: u64) -> u64 {
    let other = numbers.between(1, ports.saturating_sub(1));
    if other >= port {
        other.saturating_add(1)
    } else {
        other
    }
}

/// Returns the tag of a stream's frames, mostly a VLAN tag.
fn next_tag(numbers: &mut Numbers) -> Tag {
    match numbers.below(8) {
        0 => Tag::Priority,
        1 | 2 => Tag::All,
        _ => Tag::Tagged,
    }
}

/// Returns egress ports: mostly one, sometimes two, seldom none.
fn next_egress(numbers: &mut Numbers, ports: u64, ingress: u64) -> [u64; 2] {
    let one = other_port(numbers, ports, ingress);
    match numbers.below(16) {
        0 => [0, 0],
        1 => [ingress, 0],
        2 | 3 | 4 => [one, other_port(numbers, ports, ingress)],
        _ => [one, 0],
    }
}

/// Returns the next path of a stream through a bridge.
fn next_way(numbers: &mut Numbers, ports: u64) -> Way {
    let ingress = numbers.between(1, ports);
    let egress = next_egress(numbers, ports, ingress);
    let tag = next_tag(numbers);
    Way {
        ingress,
        egress,
        floods: numbers.is_drawn(16),
        by_source: numbers.is_drawn(24),
        by_priority: tag == Tag::Tagged && numbers.is_drawn(5),
        tag,
    }
}

/// Returns the octets of the service data unit of a frame that the `stream` entry can match.
pub fn service_data_octets(tag: Tag, len: u64) -> u64 {
    if tag == Tag::Tagged {
        len.saturating_sub(16)
    } else {
        len.saturating_sub(12)
    }
}

/// Returns the next lengths of a stream. `max_sdu` mostly equals the service data unit of the longest frame.
fn next_lengths(numbers: &mut Numbers, tag: Tag) -> Lengths {
    let longest = match numbers.below(4) {
        0 => 64,
        1 => numbers.between(60, 130),
        _ => numbers.between(60, 600),
    };
    let least = match numbers.below(4) {
        0 => longest,
        1 => numbers.between(20, longest),
        _ => longest.min(60),
    };
    let sdu = service_data_octets(tag, longest);
    let max_sdu = match numbers.below(12) {
        0 => sdu.saturating_sub(1),
        1 => sdu.saturating_sub(20),
        2 => sdu.saturating_add(4),
        3 => sdu.saturating_add(numbers.below(200)),
        _ => sdu,
    };
    Lengths {
        least,
        longest,
        max_sdu: max_sdu.max(10),
    }
}

/// Returns the octet limit of a stream gate, near the service data units of one or two longest frames.
fn next_octets(numbers: &mut Numbers, sdu: u64) -> u64 {
    let octets = match numbers.below(8) {
        0 => sdu.saturating_sub(1),
        1 => sdu.saturating_mul(2),
        2 => sdu.saturating_add(numbers.below(100)),
        _ => sdu,
    };
    octets.max(2)
}

/// Returns the next base time of a list in ns: often 0, sometimes in the fourth cycle.
pub fn next_base(numbers: &mut Numbers, cycle: u64) -> u64 {
    match numbers.below(4) {
        0 => numbers.below(cycle),
        1 => cycle.saturating_mul(3).saturating_add(numbers.below(cycle)),
        _ => 0,
    }
}

/// Returns the next kind of a stream gate.
fn next_kind(numbers: &mut Numbers) -> GateKind {
    match numbers.below(8) {
        0 | 1 | 2 => GateKind::Open,
        3 => GateKind::Limits,
        _ => GateKind::Window,
    }
}

/// Returns a cycle time that divides the period, a multiple of 12 ns.
pub fn next_cycle(numbers: &mut Numbers, period: u64) -> u64 {
    match numbers.below(6) {
        0 => period / 2,
        1 => period / 3,
        2 => period / 4,
        _ => period,
    }
}

/// Returns the next stream gate, for frames whose service data unit has at most `sdu` octets.
pub fn next_gate(numbers: &mut Numbers, period: u64, sdu: u64) -> StreamGate {
    let kind = next_kind(numbers);
    let cycle = next_cycle(numbers, period).max(12);
    let first = numbers.between(1, cycle / 2);
    let rest = cycle.saturating_sub(first);
    let second = numbers.between(1, rest.max(1));
    let is_limited = kind == GateKind::Limits || numbers.is_drawn(3);
    StreamGate {
        kind,
        base: next_base(numbers, cycle),
        cycle,
        first,
        second,
        octets: if is_limited {
            next_octets(numbers, sdu)
        } else {
            0
        },
        shuts: numbers.is_drawn(6),
    }
}

/// Returns the earliest and latest phase of a talker, both from `least` to `most`.
fn next_phases(numbers: &mut Numbers, least: u64, most: u64) -> (u64, u64) {
    let from = match numbers.below(3) {
        0 => least,
        _ => numbers.between(least, most),
    };
    let to = match numbers.below(4) {
        0 => from,
        1 => most,
        _ => numbers.between(from, most),
    };
    (from, to)
}

/// Returns the first and last phase of the gate's second entry, in a cycle of the period.
fn open_phases(numbers: &mut Numbers, gate: &StreamGate, period: u64) -> (u64, u64) {
    let cycle = gate.cycle.max(1);
    let later = numbers.below(period / cycle).saturating_mul(cycle);
    let start = gate.base.saturating_add(gate.first) % cycle;
    let least = start.saturating_add(later).min(period.saturating_sub(1));
    let end = least.saturating_add(gate.second).saturating_sub(1);
    (least, end.min(period.saturating_sub(1)).max(least))
}

/// Returns the range for a talker's phases. Mostly the stream gate is open in this range.
fn phase_range(numbers: &mut Numbers, gate: &StreamGate, period: u64) -> (u64, u64) {
    if gate.kind == GateKind::Open || numbers.is_drawn(8) {
        let last = period.saturating_sub(1);
        let share = numbers.pick(&[1, 2, 3, 10]).max(1);
        let least = numbers.below(last);
        return (least, least.saturating_add(period / share).min(last));
    }
    open_phases(numbers, gate, period)
}

/// Returns the next talker, for frames that `gate` judges.
pub fn next_talker(numbers: &mut Numbers, gate: &StreamGate, period: u64) -> Talker {
    let period = period.saturating_mul(numbers.pick(&[1, 1, 1, 2]));
    let (least, most) = phase_range(numbers, gate, period);
    let (from, to) = next_phases(numbers, least, most);
    Talker {
        period,
        from,
        to,
        has_row: !numbers.is_drawn(8),
    }
}

/// Values of a stream that are drawn before the period.
#[derive(Clone, Copy)]
struct Start {
    way: Way,
    lengths: Lengths,
}

/// Returns the next paths and lengths of `count` streams.
fn next_starts(
    alloc: Global,
    numbers: &mut Numbers,
    ports: u64,
    count: u64,
) -> Result<Vec<Start>, NoMemory> {
    let mut starts = Vec::new(alloc);
    for _ in 0..count {
        let way = next_way(numbers, ports);
        let lengths = next_lengths(numbers, way.tag);
        starts.push(Start { way, lengths })?;
    }
    Ok(starts)
}

/// Returns the next period: a multiple of 12 ns, about 4 to 40 times the longest transmission time at `mbps` Mb/s.
fn next_period(numbers: &mut Numbers, starts: &[Start], mbps: u64) -> u64 {
    let mut longest = 0;
    for start in starts {
        let len = start.lengths.max_sdu.saturating_add(16);
        longest = transmission(len, mbps).max(longest);
    }
    let times = numbers.pick(&[4, 6, 8, 12, 12, 20, 40]);
    (longest.saturating_mul(times) / 12)
        .saturating_add(1)
        .saturating_mul(12)
}

/// Returns the slowest speed of ports 1 to `ports`, in Mb/s.
fn slowest(speeds: &[u64; 4], ports: u64) -> u64 {
    let mut slowest = 1_000;
    let mut port = 0u64;
    for speed in speeds {
        if port < ports {
            slowest = slowest.min(*speed);
        }
        port = port.saturating_add(1);
    }
    slowest
}

/// Returns the next speed of a port in Mb/s.
fn next_speed(numbers: &mut Numbers) -> u64 {
    numbers.pick(&[10, 100, 100, 1_000, 1_000, 1_000])
}

/// Draws stream gates and talkers for streams with known paths and lengths.
fn draw_streams(
    alloc: Global,
    numbers: &mut Numbers,
    starts: &[Start],
    period: u64,
) -> Result<Vec<Stream>, NoMemory> {
    let mut streams = Vec::new(alloc);
    let mut place = 0u64;
    for start in starts {
        let sdu = service_data_octets(start.way.tag, start.lengths.longest);
        let gate = next_gate(numbers, period, sdu);
        let talker = next_talker(numbers, &gate, period);
        streams.push(Stream {
            place,
            way: start.way,
            lengths: start.lengths,
            gate,
            talker,
        })?;
        place = place.saturating_add(1);
    }
    Ok(streams)
}

/// Returns the next bridge.
pub fn next_shape(alloc: Global, numbers: &mut Numbers) -> Result<Shape, NoMemory> {
    let ports = numbers.between(2, 4);
    let speeds = [
        next_speed(numbers),
        next_speed(numbers),
        next_speed(numbers),
        next_speed(numbers),
    ];
    let count = numbers.between(2, 3);
    let starts = next_starts(alloc, numbers, ports, count)?;
    let period = next_period(numbers, &starts, slowest(&speeds, ports));
    let streams = draw_streams(alloc, numbers, &starts, period)?;
    let change = if numbers.is_drawn(6) {
        Some(numbers.below(period.saturating_mul(8)))
    } else {
        None
    };
    Ok(Shape {
        ports,
        speeds,
        period,
        streams,
        change,
    })
}
