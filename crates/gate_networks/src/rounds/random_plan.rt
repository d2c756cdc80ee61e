//! Draws plans of bridges, and commands.
use crate::random_numbers::RandomNumbers;
use crate::rounds::shape::{BridgeRoute, Shape};
use app_failure::accepted_plan;
use bridge_check::Accepted;
use bridge_text::{NoMemory, TextBuilder};
use std::alloc::Global;

/// VLAN, `static` entry and `stream` entry of the stream, which arrives at port `{0}` and leaves by port `{1}`.
const ROUTE: &str = "\
[[vlan]]
vid = 10
members = [{0}, {1}]
[[static]]
vid = 10
address = \"91-E0-F0-00-FE-01\"
ports = [{1}]
[[stream]]
handle = 10
port = {0}
kind = \"null\"
address = \"91-E0-F0-00-FE-01\"
vid = 10
tag = \"tagged\"
";

/// Other frames, which arrive at port `{0}`: `stream` entry, filter, gate with base time `{1}`, meter with colour mode `{a}` and yellow
/// drops `{b}`.
const OTHER: &str = "\
[[stream]]
handle = 20
port = {0}
kind = \"null\"
address = \"91-E0-F0-00-FE-02\"
vid = 1
tag = \"all\"
[[gate]]
number = 20
shut_on_rx = true
shut_on_octets = true
base = {1}
cycle = 134400
entries = [{c} open = true, ns = 100800, ipv = 2, octets = 400 {d}, {c} open = false, ns = 33600 {d}]
[[meter]]
number = 20
cir = 8000000
cbs = 200
eir = 4000000
ebs = 200
coupling = true
colour = \"{a}\"
drop_yellow = {b}
mark_all_red = true
[[filter]]
number = 20
handle = 20
gate = 20
meter = 20
max_sdu = 300
block_oversize = true
";

/// Adds a port. If `listed` is true, its list has a window for only class 7.
fn put_port(text: &mut TextBuilder<Global>, numbers: &mut RandomNumbers, port: u8, listed: bool) {
    let priority = numbers.draw(8);
    text.put_template(
        "[[port]]\nnumber = {0}\nmbps = 1000\nvid = 1\npriority = {1}\n",
        &[port as u64, priority as u64],
        &[],
    );
    if numbers.draw_chance(6) {
        text.put("rooms = [1, 2, 3, 4, 1, 2, 3, 2]\n");
    }
    if listed {
        let base = numbers.draw(100) * 672;
        text.put_template("base = {0}\ncycle = 67200\n", &[base as u64], &[]);
        text.put(
            "gates = [{ open = [7], ns = 20160 }, { open = [0, 1, 2, 3, 4, 5, 6], ns = 47040 }]\n",
        );
    }
}

/// Adds the ports. The port by which the stream leaves has a list.
fn put_ports(
    text: &mut TextBuilder<Global>,
    numbers: &mut RandomNumbers,
    way: Option<BridgeRoute>,
) {
    for port in 1..5u8 {
        let leaves = match way {
            Some(way) => way.leaves == port,
            None => false,
        };
        let listed = leaves || numbers.draw_chance(4);
        put_port(text, numbers, port, listed);
    }
}

/// Returns the members of VLAN 1. In a ring without loops, the ports of the closing link are missing.
fn members_word(shape: &Shape, bridge: u16) -> &'static str {
    if shape.circling || !shape.ring {
        "[1, 2, 3, 4]"
    } else if bridge == 0 {
        "[2, 3, 4]"
    } else if bridge == shape.bridges.saturating_sub(1) {
        "[1, 3, 4]"
    } else {
        "[1, 2, 3, 4]"
    }
}

/// Adds the VLANs and `static` entries.
fn put_vlans_and_statics(
    text: &mut TextBuilder<Global>,
    numbers: &mut RandomNumbers,
    members: &str,
    way: Option<BridgeRoute>,
) {
    text.put_template("[[vlan]]\nvid = 1\nmembers = {a}\n", &[], &[members]);
    if numbers.draw_chance(2) {
        let port = 1 + numbers.draw(4);
        text.put_template(
            "[[static]]\nvid = 1\naddress = \"91-E0-F0-00-FE-03\"\nports = [{0}]\n",
            &[port as u64],
            &[],
        );
    }
    if let Some(way) = way {
        text.put_template(ROUTE, &[way.comes as u64, way.leaves as u64], &[]);
    }
}

/// Adds entry, gate, meter and filter of other frames. These frames can shut the gate and block the filter.
fn put_other(text: &mut TextBuilder<Global>, numbers: &mut RandomNumbers) {
    let port = 1 + numbers.draw(4);
    let base = numbers.draw(100) * 672;
    let colour = if numbers.draw_chance(2) {
        "aware"
    } else {
        "blind"
    };
    let drops = if numbers.draw_chance(2) {
        "true"
    } else {
        "false"
    };
    text.put_template(
        OTHER,
        &[port as u64, base as u64],
        &[colour, drops, "{", "}"],
    );
}

/// Adds the stream gate and the filter of the stream.
fn put_stream(text: &mut TextBuilder<Global>, numbers: &mut RandomNumbers) {
    text.put(match numbers.draw(4) {
        0 =>
            "[[gate]]\nnumber = 10\nshut_on_octets = true\ncycle = 134400\nentries = [{ open = true, ns = 67200, ipv = 7, octets = 600 }, { open = true, ns = 67200, ipv = 7 }]\n",
        1 =>
            "[[gate]]\nnumber = 10\nshut_on_rx = true\ncycle = 134400\nentries = [{ open = true, ns = 100800, ipv = 7 }, { open = false, ns = 33600 }]\n",
        _ => "[[gate]]\nnumber = 10\nstate = \"open\"\nipv = 7\n",
    });
    text.put("[[filter]]\nnumber = 10\nhandle = 10\ngate = 10\nmax_sdu = 200\nprotected = true\n");
    if numbers.draw_chance(4) {
        text.put("block_oversize = true\n");
    }
}

/// Returns the text of a random plan.
fn bridge_plan_text(
    alloc: Global,
    numbers: &mut RandomNumbers,
    shape: &Shape,
    bridge: u16,
    way: Option<BridgeRoute>,
) -> Result<String, NoMemory> {
    let mut text = TextBuilder::new(alloc);
    put_ports(&mut text, numbers, way);
    put_vlans_and_statics(&mut text, numbers, members_word(shape, bridge), way);
    put_other(&mut text, numbers);
    if way.is_some() {
        put_stream(&mut text, numbers);
    }
    text.put(
        "[[gate]]\nnumber = 99\nstate = \"open\"\nipv = 0\n[[filter]]\nnumber = 99\ngate = 99\n",
    );
    text.finish()
}

/// Returns the next plan of a bridge, or `None` if the plan is refused.
pub fn next_plan(
    alloc: Global,
    numbers: &mut RandomNumbers,
    shape: &Shape,
    bridge: u16,
    way: Option<BridgeRoute>,
) -> Option<Accepted<Global>> {
    let Ok(text) = bridge_plan_text(alloc, numbers, shape, bridge, way) else {
        return None;
    };
    accepted_plan(alloc, alloc, text.as_bytes()).ok()
}

/// Returns the flag that a command clears.
fn clear_word(numbers: &mut RandomNumbers) -> &'static str {
    match numbers.draw(4) {
        0 => "blocked",
        1 => "rx",
        2 => "octets",
        _ => "red",
    }
}

/// Returns the text of at most 39 commands.
pub fn commands_text(alloc: Global, numbers: &mut RandomNumbers) -> Result<String, NoMemory> {
    let mut text = TextBuilder::new(alloc);
    let has_none = numbers.draw_chance(2);
    let count = if has_none { 0 } else { numbers.draw(40) };
    let mut at = 0u64;
    for _ in 0..count {
        at = at.saturating_add(numbers.draw(20) as u64 * 672);
        text.put_template(
            "[[command]]\nat = {0}\nclear = \"{a}\"\nnumber = 20\n",
            &[at],
            &[clear_word(numbers)],
        );
    }
    text.finish()
}
