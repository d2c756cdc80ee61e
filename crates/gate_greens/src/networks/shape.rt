//! Draws random networks: links between bridges, and routes of streams.
use crate::numbers::Numbers;
use bridge_limits::NoMemory;
use std::alloc::Global;

/// A bridge on a stream's route, with ingress port and egress ports. 0 stands for no port.
#[derive(Clone, Copy)]
pub struct Hop {
    pub bridge: u64,
    pub ingress: u64,
    pub egress: [u64; 2],
}

/// A link between two bridge ports, each given by bridge and port.
#[derive(Clone, Copy)]
pub struct Cable {
    pub one: (u64, u64),
    pub other: (u64, u64),
    /// Delay in ns.
    pub delay: u64,
}

/// A change that makes the hops of a network disagree, or its file incomplete.
#[derive(Clone, Copy, PartialEq, Eq)]
pub enum Twist {
    /// No change.
    None,
    /// The second hop's entry compares other tags.
    OtherTag,
    /// The second hop's entry compares another VLAN.
    OtherVlan,
    /// The second hop's `max_sdu` is smaller.
    SmallerSdu,
    /// At the second hop, port 3 also has an entry with the stream's handle.
    FurtherPort,
    /// At the first hop, port 3 also has an entry with the stream's handle.
    FurtherTalker,
    /// At the second hop, an earlier entry gives frames of the stream another handle.
    EarlierEntry,
    /// At the second hop, a filter with a lower number takes the frames of one priority.
    LowerFilter,
    /// The last hop has no egress port.
    Nowhere,
    /// The network file omits the last hop.
    Shortened,
    /// The second hop's stream gate is closed in a part of the period.
    Gated,
}

/// A stream: index, route, lengths in octets, and its talker's phases in ns.
#[derive(Drop)]
pub struct Route {
    pub place: u64,
    pub hops: Vec<Hop>,
    pub least: u64,
    pub longest: u64,
    pub from: u64,
    pub to: u64,
}

/// A network with its streams. The period is in ns.
#[derive(Drop)]
pub struct Net {
    pub bridges: u64,
    pub cables: Vec<Cable>,
    pub routes: Vec<Route>,
    /// Speed of linked ports and of open ports in Mb/s.
    pub speeds: [u64; 2],
    pub period: u64,
    pub twist: Twist,
    /// Whether the links form a ring. Then VLAN 1 omits the last link.
    pub is_ring: bool,
}

impl Route {
    /// Returns the number of the stream's filter at each bridge.
    pub fn filter(&self) -> u64 {
        self.place.saturating_add(10)
    }

    /// Returns the class of the stream at each bridge.
    pub fn class(&self) -> u64 {
        7u64.saturating_sub(self.place)
    }
}

/// Arrangement of bridges and links.
#[derive(Clone, Copy, PartialEq, Eq)]
enum Form {
    Pair,
    Row,
    Star,
    Ring,
}

/// Returns a hop with one egress port.
fn one_port_hop(bridge: u64, ingress: u64, egress: u64) -> Hop {
    Hop {
        bridge,
        ingress,
        egress: [egress, 0],
    }
}

/// Returns a route of two or three hops. If the third hop has bridge 9, the route has two hops.
fn next_hops(numbers: &mut Numbers, form: Form) -> [Hop; 3] {
    let choice = numbers.below(4);
    match form {
        Form::Pair => pair_hops(choice),
        Form::Row => row_hops(choice),
        Form::Star => star_hops(choice),
        Form::Ring => ring_hops(choice),
    }
}

/// A route over both bridges of a pair.
fn pair_hops(choice: u64) -> [Hop; 3] {
    let none = one_port_hop(9, 0, 0);
    if choice == 0 {
        [one_port_hop(1, 4, 1), one_port_hop(0, 2, 4), none]
    } else {
        [one_port_hop(0, 4, 2), one_port_hop(1, 1, 4), none]
    }
}

/// A route through a row of three bridges.
fn row_hops(choice: u64) -> [Hop; 3] {
    match choice {
        0 => [
            one_port_hop(2, 4, 1),
            one_port_hop(1, 2, 1),
            one_port_hop(0, 2, 4),
        ],
        1 => [
            one_port_hop(1, 4, 2),
            one_port_hop(2, 1, 4),
            one_port_hop(9, 0, 0),
        ],
        _ => [
            one_port_hop(0, 4, 2),
            one_port_hop(1, 1, 2),
            one_port_hop(2, 1, 4),
        ],
    }
}

/// A route through a star, whose center is bridge 0. The last one has two branches.
fn star_hops(choice: u64) -> [Hop; 3] {
    match choice {
        0 => [
            one_port_hop(1, 4, 1),
            one_port_hop(0, 2, 4),
            one_port_hop(9, 0, 0),
        ],
        1 => [
            one_port_hop(1, 4, 1),
            one_port_hop(0, 2, 3),
            one_port_hop(2, 1, 4),
        ],
        _ => [
            branching_hop([2, 3]),
            one_port_hop(1, 1, 4),
            one_port_hop(2, 1, 4),
        ],
    }
}

/// A route through a ring. The third one has two branches.
fn ring_hops(choice: u64) -> [Hop; 3] {
    match choice {
        0 => [
            one_port_hop(2, 4, 2),
            one_port_hop(0, 1, 4),
            one_port_hop(9, 0, 0),
        ],
        1 => [
            one_port_hop(1, 4, 2),
            one_port_hop(2, 1, 2),
            one_port_hop(0, 1, 4),
        ],
        2 => [
            branching_hop([1, 2]),
            one_port_hop(1, 1, 4),
            one_port_hop(2, 2, 4),
        ],
        _ => [
            one_port_hop(0, 4, 2),
            one_port_hop(1, 1, 2),
            one_port_hop(2, 1, 4),
        ],
    }
}

/// The hop at bridge 0 that sends by two ports what arrives at its port 4.
fn branching_hop(egress: [u64; 2]) -> Hop {
    Hop {
        bridge: 0,
        ingress: 4,
        egress,
    }
}

/// Returns the hops of a route, without a hop at bridge 9.
fn route_hops(alloc: Global, hops: [Hop; 3]) -> Result<Vec<Hop>, NoMemory> {
    let mut all = Vec::new(alloc);
    for hop in hops {
        if hop.bridge < 9 {
            all.push(hop)?;
        }
    }
    Ok(all)
}

/// Returns the next delay of a link in ns.
fn next_delay(numbers: &mut Numbers, period: u64) -> u64 {
    match numbers.below(6) {
        0 => 0,
        1 => 50,
        2 => numbers.below(period),
        3 => period.saturating_add(numbers.below(period)),
        _ => numbers.below(period / 8),
    }
}

/// Returns the links of an arrangement.
fn next_cables(
    alloc: Global,
    numbers: &mut Numbers,
    form: Form,
    period: u64,
) -> Result<Vec<Cable>, NoMemory> {
    let mut cables = Vec::new(alloc);
    let first = Cable {
        one: (0, 2),
        other: (1, 1),
        delay: next_delay(numbers, period),
    };
    cables.push(first)?;
    let one = if form == Form::Star { (0, 3) } else { (1, 2) };
    if form != Form::Pair {
        cables.push(Cable {
            one,
            other: (2, 1),
            delay: next_delay(numbers, period),
        })?;
    }
    if form == Form::Ring {
        cables.push(Cable {
            one: (2, 2),
            other: (0, 1),
            delay: next_delay(numbers, period),
        })?;
    }
    Ok(cables)
}

/// Returns the next twist, mostly `None`.
fn next_twist(numbers: &mut Numbers) -> Twist {
    match numbers.below(24) {
        0 => Twist::OtherTag,
        1 => Twist::OtherVlan,
        2 | 3 => Twist::SmallerSdu,
        4 => Twist::FurtherPort,
        5 => Twist::FurtherTalker,
        6 => Twist::Nowhere,
        7 => Twist::Shortened,
        8 | 9 | 10 => Twist::Gated,
        11 => Twist::EarlierEntry,
        12 => Twist::LowerFilter,
        _ => Twist::None,
    }
}

/// Returns the next arrangement of bridges and links.
fn next_form(numbers: &mut Numbers) -> Form {
    match numbers.below(4) {
        0 => Form::Pair,
        1 => Form::Row,
        2 => Form::Star,
        _ => Form::Ring,
    }
}

/// Returns the next stream. Its talker's phases lie in at most a quarter of the period.
fn next_route(
    alloc: Global,
    numbers: &mut Numbers,
    form: Form,
    place: u64,
    period: u64,
) -> Result<Route, NoMemory> {
    let hops = route_hops(alloc, next_hops(numbers, form))?;
    let longest = numbers.between(60, 300);
    let least = if numbers.is_drawn(2) {
        longest
    } else {
        numbers.between(60, longest)
    };
    let last = period.saturating_sub(1);
    let from = numbers.below(period);
    let width = match numbers.below(4) {
        0 => 0,
        1 => period / 4,
        _ => period / 12,
    };
    Ok(Route {
        place,
        hops,
        least,
        longest,
        from,
        to: from.saturating_add(width).min(last),
    })
}

/// Returns the next period: a multiple of 12 ns, at least eight transmission times of 300 octets at `mbps` Mb/s.
fn next_period(numbers: &mut Numbers, mbps: u64) -> u64 {
    let times = numbers.pick(&[8, 12, 20, 40]);
    let longest = 2_600_000 / mbps.max(1);
    (longest.saturating_mul(times) / 12)
        .saturating_add(1)
        .saturating_mul(12)
}

/// Returns the next network.
pub fn next_net(alloc: Global, numbers: &mut Numbers) -> Result<Net, NoMemory> {
    let form = next_form(numbers);
    let speeds = [numbers.pick(&[100, 1_000]), numbers.pick(&[100, 1_000])];
    let [one, other] = speeds;
    let period = next_period(numbers, one.min(other));
    let mut routes = Vec::new(alloc);
    routes.push(next_route(alloc, numbers, form, 0, period)?)?;
    if numbers.is_drawn(2) {
        routes.push(next_route(alloc, numbers, form, 1, period)?)?;
    }
    let cables = next_cables(alloc, numbers, form, period)?;
    Ok(Net {
        bridges: if form == Form::Pair { 2 } else { 3 },
        cables,
        routes,
        speeds,
        period,
        twist: next_twist(numbers),
        is_ring: form == Form::Ring,
    })
}
