//! Writes plans and traffic files of random streams, as TOML.
use crate::numbers::Numbers;
use crate::plans::shape::{
    GateKind, Shape, Stream, StreamGate, Tag, next_base, next_cycle, next_gate,
    service_data_octets, transmission,
};
use bridge_text::{NoMemory, TextBuilder};
use std::alloc::Global;

/// Classes that are open outside the windows of streams.
const OTHERS: &str = "[0, 1, 2, 3, 4]";

/// Keys of a list, without the braces of its entries.
#[derive(Clone, Copy)]
struct Keys {
    base: &'static str,
    cycle: &'static str,
    gates: &'static str,
    entries: &'static str,
}

/// Keys of the list before a schedule change.
const OLD: Keys = Keys {
    base: "base",
    cycle: "cycle",
    gates: "gates",
    entries: "entries",
};

/// Keys of the list after a schedule change.
const NEW: Keys = Keys {
    base: "next_base",
    cycle: "next_cycle",
    gates: "next_gates",
    entries: "next_entries",
};

/// Returns a list with only the stream's class.
fn class_word(stream: &Stream) -> &'static str {
    match stream.place {
        0 => "[7]",
        1 => "[6]",
        _ => "[5]",
    }
}

/// Adds an entry of a gate control list.
fn put_entry(text: &mut TextBuilder<Global>, is_first: bool, classes: &'static str, ns: u64) {
    let comma = if is_first { "" } else { ", " };
    text.put_template(
        "{a}{b} open = {c}, ns = {0} {d}",
        &[ns],
        &[comma, "{", classes, "}"],
    );
}

/// Returns the length of a stream's window in ns, at most `left`. It can be shorter than `longest`, the longest transmission time.
fn next_window(numbers: &mut Numbers, longest: u64, left: u64) -> u64 {
    let window = match numbers.below(24) {
        0 => longest.saturating_sub(1),
        1 | 2 | 3 => longest,
        4 | 5 | 6 | 7 => longest.saturating_mul(2),
        8 | 9 | 10 => longest.saturating_mul(3),
        11 | 12 | 13 => left / 2,
        14 | 15 => left / 3,
        _ => longest.saturating_add(numbers.below(longest.saturating_mul(3))),
    };
    window.min(left)
}

/// Adds the windows of the streams that reach `port`, and returns the rest of the cycle time in ns.
fn put_windows(
    text: &mut TextBuilder<Global>,
    numbers: &mut Numbers,
    shape: &Shape,
    port: u64,
    cycle: u64,
) -> u64 {
    let mut left = cycle;
    let lead = if numbers.is_drawn(2) {
        numbers.below(cycle / 3)
    } else {
        0
    };
    if lead > 0 {
        put_entry(text, true, OTHERS, lead);
        left = left.saturating_sub(lead);
    }
    for stream in &shape.streams {
        let len = stream.lengths.max_sdu.saturating_add(16);
        let window = next_window(numbers, transmission(len, shape.speed(port)), left);
        if stream.reaches(port) && window > 0 {
            put_entry(text, left == cycle, class_word(stream), window);
            left = left.saturating_sub(window);
        }
    }
    left
}

/// Adds the entry after the streams' windows, if the cycle has a rest. Seldom the entry opens classes 0 and 7, or no class.
fn put_rest(text: &mut TextBuilder<Global>, numbers: &mut Numbers, is_first: bool, left: u64) {
    let classes = if numbers.is_drawn(40) {
        "[0, 7]"
    } else if numbers.is_drawn(12) {
        "[]"
    } else {
        OTHERS
    };
    let ns = if numbers.is_drawn(6) { left / 2 } else { left };
    if ns > 0 {
        put_entry(text, is_first, classes, ns);
    }
}

/// Adds the gate control list of a port.
fn put_list(
    text: &mut TextBuilder<Global>,
    numbers: &mut Numbers,
    shape: &Shape,
    port: u64,
    keys: Keys,
) {
    let cycle = next_cycle(numbers, shape.period);
    text.put_template(
        "{a} = {0}\n{b} = {1}\n{c} = [",
        &[next_base(numbers, cycle), cycle],
        &[keys.base, keys.cycle, keys.gates],
    );
    let is_single = numbers.is_drawn(10);
    match shape.streams.first() {
        Some(stream) if is_single && stream.reaches(port) => {
            put_entry(text, true, class_word(stream), cycle);
        }
        _ => {
            let left = put_windows(text, numbers, shape, port, cycle);
            put_rest(text, numbers, left == cycle, left);
        }
    }
    text.put("]\n");
}

/// Whether a stream reaches `port`.
fn is_reached(shape: &Shape, port: u64) -> bool {
    let mut is_reached = false;
    for stream in &shape.streams {
        is_reached = stream.reaches(port) || is_reached;
    }
    is_reached
}

/// Adds a port. It mostly gets a list if a stream reaches it.
fn put_port(text: &mut TextBuilder<Global>, numbers: &mut Numbers, shape: &Shape, port: u64) {
    let priority = numbers.below(8);
    text.put_template(
        "[[port]]\nnumber = {0}\nmbps = {1}\nvid = 10\npriority = {2}\n",
        &[port, shape.speed(port), priority],
        &[],
    );
    let rooms = [
        numbers.between(1, 3),
        numbers.between(1, 3),
        numbers.between(1, 3),
        numbers.between(1, 3),
    ];
    text.put_template("rooms = [2, 2, 2, 2, {0}, {1}, {2}, {3}]\n", &rooms, &[]);
    let is_listed = numbers.is_drawn(4) || is_reached(shape, port);
    if is_listed && !numbers.is_drawn(60) {
        put_list(text, numbers, shape, port, OLD);
        if shape.change.is_some() && numbers.is_drawn(2) {
            put_list(text, numbers, shape, port, NEW);
        }
    }
}

/// Adds the `static` entry of a stream, unless the bridge floods its frames.
fn put_static(text: &mut TextBuilder<Global>, stream: &Stream) {
    if stream.way.floods {
        return;
    }
    let [one, other] = stream.way.egress;
    text.put_template(
        "[[static]]\nvid = 10\naddress = \"02-00-00-00-00-0{a}\"\nports = [",
        &[],
        &[stream.address()],
    );
    if one > 0 {
        text.put_number(one);
    }
    if other > 0 {
        text.put(", ");
        text.put_number(other);
    }
    text.put("]\n");
}

impl Stream {
    /// Returns the last digit of the stream's destination and source address.
    fn address(&self) -> &'static str {
        match self.place {
            0 => "A",
            1 => "B",
            _ => "C",
        }
    }
}

/// Adds the `stream` entry of a stream. Seldom a second entry for VLAN 11, which no frame has, gives its handle.
fn put_entries(text: &mut TextBuilder<Global>, numbers: &mut Numbers, stream: &Stream) {
    let handle = stream.place.saturating_add(1);
    let tag = match stream.way.tag {
        Tag::Tagged => "tagged",
        Tag::Priority => "priority",
        Tag::All => "all",
    };
    let (kind, middle) = if stream.way.by_source {
        ("source", "1")
    } else {
        ("null", "0")
    };
    text.put_template(
        "[[stream]]\nhandle = {0}\nport = {1}\nkind = \"{a}\"\naddress = \"02-00-00-00-0{b}-0{c}\"\nvid = 10\ntag = \"{d}\"\n",
        &[handle, stream.way.ingress],
        &[kind, middle, stream.address(), tag],
    );
    if numbers.is_drawn(12) {
        text.put_template(
            "[[stream]]\nhandle = {0}\nport = {1}\nkind = \"null\"\naddress = \"02-00-00-00-00-0{a}\"\nvid = 11\ntag = \"all\"\n",
            &[handle, stream.way.ingress],
            &[stream.address()],
        );
    }
}

/// Adds the list of a stream gate. `ipv` is empty or the key of the internal priority.
fn put_gate_list(text: &mut TextBuilder<Global>, gate: &StreamGate, ipv: &'static str, keys: Keys) {
    text.put_template(
        "{a} = {0}\n{b} = {1}\n{c} = [",
        &[gate.base, gate.cycle],
        &[keys.base, keys.cycle, keys.entries],
    );
    let open = if gate.kind == GateKind::Window {
        "false"
    } else {
        "true"
    };
    put_gate_entry(text, gate, open, ipv, gate.first);
    text.put(", ");
    put_gate_entry(text, gate, "true", ipv, gate.second);
    let rest = gate
        .cycle
        .saturating_sub(gate.first.saturating_add(gate.second));
    if rest > 0 && gate.kind == GateKind::Window {
        text.put(", ");
        put_gate_entry(text, gate, "false", ipv, rest);
    }
    text.put("]\n");
}

/// Adds an entry of a stream gate's list.
fn put_gate_entry(
    text: &mut TextBuilder<Global>,
    gate: &StreamGate,
    open: &'static str,
    ipv: &'static str,
    ns: u64,
) {
    text.put_template("{a} open = {b}, ns = {0}{c}", &[ns], &["{", open, ipv]);
    if gate.octets > 0 {
        text.put_template(", octets = {0}", &[gate.octets], &[]);
    }
    text.put(" }");
}

/// Returns the key of a gate entry's internal priority.
fn ipv_word(stream: &Stream) -> &'static str {
    if stream.way.by_priority {
        return "";
    }
    match stream.place {
        0 => ", ipv = 7",
        1 => ", ipv = 6",
        _ => ", ipv = 5",
    }
}

/// Adds the stream gate of a stream, and sometimes the list after a schedule change.
fn put_gate(text: &mut TextBuilder<Global>, numbers: &mut Numbers, shape: &Shape, stream: &Stream) {
    let gate = &stream.gate;
    text.put_template(
        "[[gate]]\nnumber = {0}\n",
        &[stream.place.saturating_add(1)],
        &[],
    );
    if gate.shuts {
        text.put("shut_on_rx = true\nshut_on_octets = true\n");
    }
    if gate.kind == GateKind::Open {
        text.put("state = \"open\"\n");
        if !stream.way.by_priority {
            text.put_template("ipv = {0}\n", &[stream.class()], &[]);
        }
        return;
    }
    let ipv = ipv_word(stream);
    put_gate_list(text, gate, ipv, OLD);
    if shape.change.is_some() && numbers.is_drawn(2) {
        let sdu = service_data_octets(stream.way.tag, stream.lengths.longest);
        let next = StreamGate {
            kind: gate.kind,
            ..next_gate(numbers, shape.period, sdu)
        };
        put_gate_list(text, &next, ipv, NEW);
    }
}

/// Adds a meter for a stream.
fn put_meter(text: &mut TextBuilder<Global>, numbers: &mut Numbers, stream: &Stream) {
    text.put_template(
        "[[meter]]\nnumber = {0}\ncir = {1}\ncbs = {2}\neir = 0\nebs = 0\n",
        &[
            stream.place.saturating_add(1),
            numbers.pick(&[0, 1_000_000, 100_000_000]),
            stream.lengths.longest.saturating_mul(2),
        ],
        &[],
    );
}

/// Adds the filter of a stream.
fn put_filter(text: &mut TextBuilder<Global>, numbers: &mut Numbers, stream: &Stream) {
    let number = stream.place.saturating_add(1);
    let has_meter = numbers.is_drawn(10);
    if has_meter {
        put_meter(text, numbers, stream);
    }
    text.put_template(
        "[[filter]]\nnumber = {0}\nhandle = {1}\ngate = {1}\nmax_sdu = {2}\nprotected = true\n",
        &[stream.filter(), number, stream.lengths.max_sdu],
        &[],
    );
    if has_meter {
        text.put_template("meter = {0}\n", &[number], &[]);
    }
    if stream.way.by_priority {
        text.put_template("priority = {0}\n", &[stream.class()], &[]);
    }
    if numbers.is_drawn(6) {
        text.put("block_oversize = true\n");
    }
}

/// Adds VLAN 10 with all ports. Seldom a port is missing.
fn put_vlan(text: &mut TextBuilder<Global>, numbers: &mut Numbers, shape: &Shape) {
    let missing = if numbers.is_drawn(24) {
        numbers.between(1, shape.ports)
    } else {
        0
    };
    text.put("[[vlan]]\nvid = 10\nmembers = [");
    for port in 1..5u64 {
        if port <= shape.ports && port != missing {
            text.put_number(port);
            text.put(", ");
        }
    }
    text.put("]\n");
}

/// Adds the catch-all filter 99. Sometimes adds unprotected filters: 50 of class 1, and 5 for priority 3.
fn put_others(text: &mut TextBuilder<Global>, numbers: &mut Numbers, shape: &Shape) {
    if numbers.is_drawn(3) {
        text.put_template(
            "[[stream]]\nhandle = 50\nport = {0}\nkind = \"null\"\naddress = \"02-00-00-00-00-32\"\nvid = 10\ntag = \"all\"\n",
            &[numbers.between(1, shape.ports)],
            &[],
        );
        text.put(
            "[[gate]]\nnumber = 50\nstate = \"open\"\nipv = 1\n[[filter]]\nnumber = 50\nhandle = 50\ngate = 50\n",
        );
    }
    if numbers.is_drawn(12) {
        text.put(
            "[[gate]]\nnumber = 5\nstate = \"open\"\nipv = 0\n[[filter]]\nnumber = 5\npriority = 3\ngate = 5\n",
        );
    }
    text.put(
        "[[gate]]\nnumber = 99\nstate = \"open\"\nipv = 0\n[[filter]]\nnumber = 99\ngate = 99\n",
    );
}

/// Adds the `static` entry, `stream` entries, stream gate and filter of each stream.
fn put_streams(text: &mut TextBuilder<Global>, numbers: &mut Numbers, shape: &Shape) {
    for stream in &shape.streams {
        put_static(text, stream);
        put_entries(text, numbers, stream);
        put_gate(text, numbers, shape, stream);
        put_filter(text, numbers, stream);
    }
}

/// Returns the plan of a bridge.
pub fn plan_text(alloc: Global, numbers: &mut Numbers, shape: &Shape) -> Result<String, NoMemory> {
    let mut text = TextBuilder::new(alloc);
    if let Some(at) = shape.change {
        text.put_template("[[change]]\nat = {0}\n", &[at], &[]);
    }
    for port in 1..5u64 {
        if port <= shape.ports {
            put_port(&mut text, numbers, shape, port);
        }
    }
    put_vlan(&mut text, numbers, shape);
    put_streams(&mut text, numbers, shape);
    put_others(&mut text, numbers, shape);
    text.finish()
}

/// Returns the traffic file: a row for each stream with `has_row`. `deadlines` follows the order of rows.
pub fn traffic_text(alloc: Global, shape: &Shape, deadlines: &[u64]) -> Result<String, NoMemory> {
    let mut text = TextBuilder::new(alloc);
    let mut row = 0usize;
    for stream in &shape.streams {
        if stream.talker.has_row {
            put_row(&mut text, stream, deadlines.get(row).copied().unwrap_or(0));
            row = row.saturating_add(1);
        }
    }
    text.finish()
}

/// Adds a row of the traffic file. A `deadline` of 0 ns adds no deadline.
fn put_row(text: &mut TextBuilder<Global>, stream: &Stream, deadline: u64) {
    let talker = &stream.talker;
    text.put_template(
        "[[traffic]]\nfilter = {0}\nperiod = {1}\nfrom = {2}\nto = {3}\nleast = {4}\nlongest = {5}\n",
        &[
            stream.filter(),
            talker.period,
            talker.from,
            talker.to,
            stream.lengths.least,
            stream.lengths.longest,
        ],
        &[],
    );
    if deadline > 0 {
        text.put_template("deadline = {0}\n", &[deadline], &[]);
    }
}
