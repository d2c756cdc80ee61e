//! Draws networks of two to five bridges in a row, a tree or a ring: their links, and the route of their stream.
use crate::random_numbers::RandomNumbers;
use net_model::{BridgePort, Link, StreamHop};

/// Greatest number of bridges in a network.
pub const MOST: usize = 5;

/// Links between bridges with ports 1 to 4. Port 1 leads to the preceding bridge, ports 2 and 3 lead to following bridges, and port 4 is
/// open.
#[derive(Clone, Copy)]
pub struct Shape {
    /// Number of bridges.
    pub bridges: u16,
    /// The preceding bridge of each bridge, and the port there that leads to this bridge.
    before: [u16; MOST],
    port: [u8; MOST],
    /// Whether port 2 of the last bridge leads to port 1 of the first bridge.
    pub ring: bool,
    /// Whether frames can loop in the ring.
    pub circling: bool,
    /// Kind of link delays. At 0, all are 0 ns.
    delays: u32,
}

/// Returns the bridge at index `place`, or 0 after the end.
fn bridge_or_zero(row: &[u16; MOST], place: u16) -> u16 {
    row.get(place as usize).copied().unwrap_or(0)
}

/// Returns the port at index `place`, or 2 after the end.
fn port_or_two(row: &[u8; MOST], place: u16) -> u8 {
    row.get(place as usize).copied().unwrap_or(2)
}

/// Returns the number of bridges below `upto` that directly follow `bridge`.
fn count_children(before: &[u16; MOST], bridge: u16, upto: u16) -> u8 {
    let mut count = 0u8;
    for other in 1..upto {
        if bridge_or_zero(before, other) == bridge {
            count = count.saturating_add(1);
        }
    }
    count
}

/// Links a bridge to a preceding bridge. In a tree, any bridge with a free port can precede it.
fn join(shape: &mut Shape, numbers: &mut RandomNumbers, bridge: u16, tree: bool) {
    let mut to = bridge.saturating_sub(1);
    if tree {
        let other = numbers.draw(bridge as u32 + 1) as u16;
        if other < bridge && count_children(&shape.before, other, bridge) < 2 {
            to = other;
        }
    }
    let port = 2u8.saturating_add(count_children(&shape.before, to, bridge));
    if let Some(place) = shape.before.get_mut(bridge as usize) {
        *place = to;
    }
    if let Some(place) = shape.port.get_mut(bridge as usize) {
        *place = port;
    }
}

/// Returns the next shape of a network.
pub fn next_shape(numbers: &mut RandomNumbers) -> Shape {
    let bridges = 2 + numbers.draw(4) as u16;
    let kind = numbers.draw(10);
    let mut shape = Shape {
        bridges,
        before: [0; MOST],
        port: [2; MOST],
        ring: kind >= 7,
        circling: kind == 9,
        delays: numbers.draw(4),
    };
    for bridge in 1..bridges {
        join(&mut shape, numbers, bridge, kind < 4);
    }
    shape
}

/// Returns the delay of a link in ns. If `kind` is 0, the delay is 0.
fn link_delay(numbers: &mut RandomNumbers, kind: u32) -> u64 {
    if kind == 0 {
        return 0;
    }
    match numbers.draw(7) {
        0 => 0,
        1 => 1,
        2 => 50,
        3 => 672,
        4 => 1_344,
        5 => numbers.draw(5_000) as u64,
        _ => 1_000_000,
    }
}

/// Adds a link between two ports, and returns whether memory sufficed.
fn add_link(
    links: &mut Vec<Link>,
    numbers: &mut RandomNumbers,
    kind: u32,
    one: BridgePort,
    to: u16,
) -> bool {
    let other = BridgePort {
        bridge: to,
        port: 1,
    };
    let delay = link_delay(numbers, kind);
    links.push(Link { one, other, delay }).is_ok()
}

/// Adds the links, and returns whether memory sufficed.
pub fn add_links(links: &mut Vec<Link>, numbers: &mut RandomNumbers, shape: &Shape) -> bool {
    let mut are_added = true;
    for to in 1..shape.bridges {
        let one = BridgePort {
            bridge: bridge_or_zero(&shape.before, to),
            port: port_or_two(&shape.port, to),
        };
        are_added = add_link(links, numbers, shape.delays, one, to) && are_added;
    }
    if shape.ring {
        let one = BridgePort {
            bridge: shape.bridges.saturating_sub(1),
            port: 2,
        };
        are_added = add_link(links, numbers, shape.delays, one, 0) && are_added;
    }
    are_added
}

/// Ports by which the stream enters and leaves a bridge.
#[derive(Clone, Copy)]
pub struct BridgeRoute {
    pub comes: u8,
    pub leaves: u8,
}

/// Returns the stream's ports at each bridge of its route, from port 4 of the first bridge to port 4 of the last.
pub fn stream_routes(shape: &Shape) -> [Option<BridgeRoute>; MOST] {
    let mut ways = [None; MOST];
    let mut bridge = shape.bridges.saturating_sub(1);
    let mut leaves = 4u8;
    for _ in 0..MOST {
        let comes = if bridge == 0 { 4 } else { 1 };
        if let Some(place) = ways.get_mut(bridge as usize) {
            if place.is_none() {
                *place = Some(BridgeRoute { comes, leaves });
            }
        }
        leaves = port_or_two(&shape.port, bridge);
        bridge = bridge_or_zero(&shape.before, bridge);
    }
    ways
}

/// Adds the hops of the stream: filter 10 of each bridge of its route. Returns whether memory sufficed.
pub fn add_hops(hops: &mut Vec<StreamHop>, shape: &Shape) -> bool {
    let mut are_added = true;
    let mut bridge = 0u16;
    for way in stream_routes(shape) {
        if way.is_some() {
            are_added = hops.push(StreamHop { bridge, filter: 10 }).is_ok() && are_added;
        }
        bridge = bridge.saturating_add(1);
    }
    are_added
}
