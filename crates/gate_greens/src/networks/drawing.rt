//! Writes plans and network files of random networks, as TOML.
use crate::networks::shape::{Cable, Hop, Net, Route, Twist};
use crate::numbers::Numbers;
use bridge_text::{NoMemory, TextBuilder};
use std::alloc::Global;

/// A stream at a hop of its route.
#[derive(Clone, Copy)]
struct Stop<'a> {
    route: &'a Route,
    hop: Hop,
    /// Index of the hop in the route, from 0.
    index: u64,
    is_last: bool,
    twist: Twist,
}

impl Stop<'_> {
    /// Whether the network has this twist, and the hop is the second hop of the first stream.
    fn is_twisted(&self, twist: Twist) -> bool {
        self.index == 1 && self.route.place == 0 && self.twist == twist
    }

    /// Whether port 3 also has an entry with the stream's handle.
    fn has_further(&self) -> bool {
        self.is_twisted(Twist::FurtherPort)
            || (self.index == 0 && self.route.place == 0 && self.twist == Twist::FurtherTalker)
    }

    /// Whether the twist `Nowhere` removes the egress ports of this hop.
    fn is_nowhere(&self) -> bool {
        self.is_last && self.route.place == 0 && self.twist == Twist::Nowhere
    }

    /// Whether the stream leaves by `port`.
    fn has_egress_port(&self, port: u64) -> bool {
        let [one, other] = self.hop.egress;
        one == port || other == port
    }
}

/// Returns the stream's hop at `bridge`, its index, and whether it is the last hop.
fn bridge_stop(net: &Net, route: &Route, bridge: u64) -> Option<(Hop, u64, bool)> {
    let mut index = 0u64;
    let count = route.hops.len() as u64;
    for hop in &route.hops {
        if hop.bridge == bridge && bridge < net.bridges {
            return Some((*hop, index, index.saturating_add(1) == count));
        }
        index = index.saturating_add(1);
    }
    None
}

/// Returns the streams with a hop at `bridge`.
fn bridge_stops<'a>(alloc: Global, net: &'a Net, bridge: u64) -> Result<Vec<Stop<'a>>, NoMemory> {
    let mut stops = Vec::new(alloc);
    for route in &net.routes {
        if let Some((hop, index, is_last)) = bridge_stop(net, route, bridge) {
            stops.push(Stop {
                route,
                hop,
                index,
                is_last,
                twist: net.twist,
            })?;
        }
    }
    Ok(stops)
}

/// Whether `port` has a link.
pub fn is_cabled(net: &Net, bridge: u64, port: u64) -> bool {
    let mut is_cabled = false;
    for cable in &net.cables {
        is_cabled = is_cabled || cable.one == (bridge, port) || cable.other == (bridge, port);
    }
    is_cabled
}

/// Adds an entry of a gate control list.
fn put_entry(text: &mut TextBuilder<Global>, classes: &'static str, ns: u64) {
    text.put_template(
        "{a} open = {b}, ns = {0} {c}, ",
        &[ns],
        &["{", classes, "}"],
    );
}

/// Adds the gate control list of a port, with a window for each stream that leaves by the port.
fn put_list(
    text: &mut TextBuilder<Global>,
    numbers: &mut Numbers,
    net: &Net,
    stops: &[Stop],
    port: u64,
) {
    let cycle = net.period / numbers.pick(&[1, 1, 2, 3]).max(1);
    let base = numbers
        .pick(&[0, 0, 1])
        .saturating_mul(numbers.below(cycle));
    text.put_template("base = {0}\ncycle = {1}\ngates = [", &[base, cycle], &[]);
    let mut left = cycle;
    let lead = numbers.below(cycle / 3);
    if lead > 0 {
        put_entry(text, "[0, 1, 2, 3]", lead);
        left = left.saturating_sub(lead);
    }
    for stop in stops {
        let share = numbers.between(1, 3);
        let window = left.saturating_mul(share) / 4;
        if stop.has_egress_port(port) && window > 0 {
            put_entry(text, class_word(stop.route), window);
            left = left.saturating_sub(window);
        }
    }
    if left > 0 {
        put_entry(text, "[0, 1, 2, 3]", left);
    }
    text.put("]\n");
}

/// Returns a list with only the stream's class.
fn class_word(route: &Route) -> &'static str {
    if route.place == 0 { "[7]" } else { "[6]" }
}

/// Adds the ports of a bridge.
fn put_ports(
    text: &mut TextBuilder<Global>,
    numbers: &mut Numbers,
    net: &Net,
    stops: &[Stop],
    bridge: u64,
) {
    let [linked, open] = net.speeds;
    for port in 1..5u64 {
        let mbps = if is_cabled(net, bridge, port) {
            linked
        } else {
            open
        };
        text.put_template(
            "[[port]]\nnumber = {0}\nmbps = {1}\nvid = 1\npriority = {2}\nrooms = [4, 4, 4, 4, 4, 4, {3}, {4}]\n",
            &[
                port,
                mbps,
                numbers.below(8),
                numbers.between(1, 3),
                numbers.between(1, 3),
            ],
            &[],
        );
        let mut is_reached = false;
        for stop in stops {
            is_reached = is_reached || stop.has_egress_port(port);
        }
        if is_reached {
            put_list(text, numbers, net, stops, port);
        }
    }
}

/// Returns the ports of VLAN 1 at a bridge. In a ring, the ports of the last link are missing.
fn members_word(net: &Net, bridge: u64) -> &'static str {
    if !net.is_ring {
        "[1, 2, 3, 4]"
    } else if bridge == 0 {
        "[2, 3, 4]"
    } else if bridge == 2 {
        "[1, 3, 4]"
    } else {
        "[1, 2, 3, 4]"
    }
}

/// Adds the VLAN of a stream and its `static` entry.
fn put_way(text: &mut TextBuilder<Global>, stop: &Stop) {
    let vid = stop.route.place.saturating_add(10);
    let [one, other] = stop.hop.egress;
    text.put_template(
        "[[vlan]]\nvid = {0}\nmembers = [{1}, ",
        &[vid, stop.hop.ingress],
        &[],
    );
    put_egress(text, one, other);
    if stop.has_further() {
        text.put("3, ");
    }
    text.put_template(
        "]\n[[static]]\nvid = {0}\naddress = \"02-00-00-00-00-0{a}\"\nports = [",
        &[vid],
        &[address_word(stop.route)],
    );
    if !stop.is_nowhere() {
        put_egress(text, one, other);
    }
    text.put("]\n");
}

/// Adds egress ports to a list.
fn put_egress(text: &mut TextBuilder<Global>, one: u64, other: u64) {
    text.put_number(one);
    text.put(", ");
    if other > 0 {
        text.put_number(other);
        text.put(", ");
    }
}

/// Returns the last digit of the stream's destination.
fn address_word(route: &Route) -> &'static str {
    if route.place == 0 { "A" } else { "B" }
}

/// Adds a `stream` entry that gives frames with the stream's destination a handle.
fn put_stream_entry(
    text: &mut TextBuilder<Global>,
    handle: u64,
    route: &Route,
    port: u64,
    vid: u64,
    tag: &'static str,
) {
    text.put_template(
        "[[stream]]\nhandle = {0}\nport = {1}\nkind = \"null\"\naddress = \"02-00-00-00-00-0{a}\"\nvid = {2}\ntag = \"{b}\"\n",
        &[handle, port, vid],
        &[address_word(route), tag],
    );
}

/// Returns the tag that the entry of a hop compares.
fn tag_word(numbers: &mut Numbers, stop: &Stop) -> &'static str {
    if !stop.is_twisted(Twist::OtherTag) {
        "tagged"
    } else if numbers.is_drawn(2) {
        "priority"
    } else {
        "all"
    }
}

/// Adds the `stream` entries of a hop. The twist `LowerFilter` also adds filter 5, with priority 3.
fn put_entries(text: &mut TextBuilder<Global>, numbers: &mut Numbers, stop: &Stop) {
    let route = stop.route;
    let handle = route.place.saturating_add(1);
    let vid = route.place.saturating_add(10);
    let ingress = stop.hop.ingress;
    let tag = tag_word(numbers, stop);
    if stop.is_twisted(Twist::EarlierEntry) {
        put_stream_entry(text, 77, route, ingress, vid, "all");
    }
    let own = if stop.is_twisted(Twist::OtherVlan) {
        20
    } else {
        vid
    };
    put_stream_entry(text, handle, route, ingress, own, tag);
    if stop.has_further() {
        put_stream_entry(text, handle, route, 3, vid, "tagged");
    }
    if stop.is_twisted(Twist::LowerFilter) {
        text.put(
            "[[gate]]\nnumber = 5\nstate = \"open\"\nipv = 0\n[[filter]]\nnumber = 5\npriority = 3\ngate = 5\n",
        );
    }
}

/// Adds the stream gate of a hop.
fn put_gate(text: &mut TextBuilder<Global>, numbers: &mut Numbers, net: &Net, stop: &Stop) {
    let number = stop.route.place.saturating_add(1);
    let class = stop.route.class();
    let is_gated = stop.is_twisted(Twist::Gated);
    if !is_gated && !numbers.is_drawn(8) {
        text.put_template(
            "[[gate]]\nnumber = {0}\nstate = \"open\"\nipv = {1}\n",
            &[number, class],
            &[],
        );
        return;
    }
    let shut = net.period / numbers.pick(&[2, 4, 8]).max(1);
    let open = net.period.saturating_sub(shut);
    text.put_template(
        "[[gate]]\nnumber = {0}\nbase = {1}\ncycle = {2}\nentries = [{a} open = true, ns = {3}, ipv = {4}, octets = 600 {b}, {a} open = false, ns = {5}, ipv = {4} {b}]\n",
        &[
            number,
            numbers.below(net.period),
            net.period,
            open,
            class,
            shut,
        ],
        &["{", "}"],
    );
}

/// Adds the filter of a hop.
fn put_filter(text: &mut TextBuilder<Global>, numbers: &mut Numbers, stop: &Stop) {
    let sdu = stop.route.longest.saturating_sub(16);
    let max_sdu = if stop.is_twisted(Twist::SmallerSdu) {
        sdu.saturating_sub(numbers.between(1, 20))
    } else {
        sdu
    };
    text.put_template(
        "[[filter]]\nnumber = {0}\nhandle = {1}\ngate = {1}\nmax_sdu = {2}\nprotected = true\n",
        &[
            stop.route.filter(),
            stop.route.place.saturating_add(1),
            max_sdu,
        ],
        &[],
    );
}

/// Returns the plan of a bridge.
pub fn bridge_text(
    alloc: Global,
    numbers: &mut Numbers,
    net: &Net,
    bridge: u64,
) -> Result<String, NoMemory> {
    let stops = bridge_stops(alloc, net, bridge)?;
    let mut text = TextBuilder::new(alloc);
    put_ports(&mut text, numbers, net, &stops, bridge);
    text.put_template(
        "[[vlan]]\nvid = 1\nmembers = {a}\n",
        &[],
        &[members_word(net, bridge)],
    );
    for stop in &stops {
        put_way(&mut text, stop);
        put_entries(&mut text, numbers, stop);
        put_gate(&mut text, numbers, net, stop);
        put_filter(&mut text, numbers, stop);
    }
    text.put(
        "[[gate]]\nnumber = 99\nstate = \"open\"\nipv = 0\n[[filter]]\nnumber = 99\ngate = 99\n",
    );
    text.finish()
}

/// Adds a link.
fn put_cable(text: &mut TextBuilder<Global>, cable: &Cable) {
    text.put_template(
        "[[link]]\none = \"b{0}.{1}\"\nother = \"b{2}.{3}\"\ndelay = {4}\n",
        &[
            cable.one.0,
            cable.one.1,
            cable.other.0,
            cable.other.1,
            cable.delay,
        ],
        &[],
    );
}

/// Adds a stream. A `deadline` of 0 ns adds no deadline.
fn put_route(text: &mut TextBuilder<Global>, net: &Net, route: &Route, deadline: u64) {
    text.put_template("[[stream]]\nname = \"s{0}\"\nhops = [", &[route.place], &[]);
    let is_short = net.twist == Twist::Shortened && route.place == 0;
    let last = (route.hops.len() as u64).saturating_sub(1);
    let mut index = 0u64;
    for hop in &route.hops {
        if !(is_short && index == last) {
            text.put_template("\"b{0}.{1}\", ", &[hop.bridge, route.filter()], &[]);
        }
        index = index.saturating_add(1);
    }
    text.put_template(
        "]\nperiod = {0}\nfrom = {1}\nto = {2}\nleast = {3}\nlongest = {4}\n",
        &[net.period, route.from, route.to, route.least, route.longest],
        &[],
    );
    if deadline > 0 {
        text.put_template("deadline = {0}\n", &[deadline], &[]);
    }
}

/// Returns the network file. `deadlines` has the deadline of each stream in ns; 0 or a missing item stands for none.
pub fn net_text(alloc: Global, net: &Net, deadlines: &[u64]) -> Result<String, NoMemory> {
    let mut text = TextBuilder::new(alloc);
    for bridge in 0..3u64 {
        if bridge < net.bridges {
            text.put_template(
                "[[bridge]]\nname = \"b{0}\"\nplan = \"b{0}.toml\"\n",
                &[bridge],
                &[],
            );
        }
    }
    for cable in &net.cables {
        put_cable(&mut text, cable);
    }
    let mut index = 0usize;
    for route in &net.routes {
        put_route(
            &mut text,
            net,
            route,
            deadlines.get(index).copied().unwrap_or(0),
        );
        index = index.saturating_add(1);
    }
    text.finish()
}
