//! Writes plans with groups, as TOML.
use crate::groups::shape::{Member, Shape, StreamMeter, Windows};
use bridge_limits::NoMemory;
use bridge_text::TextBuilder;
use std::alloc::Global;

/// Capacities in frames of classes 7 and 6 at the egress port.
#[derive(Clone, Copy)]
pub struct Rooms {
    pub seven: u64,
    pub six: u64,
}

/// Adds a gate control list. The keys begin with `prefix`.
fn put_windows(text: &mut TextBuilder<Global>, windows: &Windows, prefix: &'static str) {
    text.put_template(
        "{a}base = {0}\n{a}cycle = {1}\n{a}gates = [",
        &[windows.base, windows.cycle()],
        &[prefix],
    );
    if windows.lead > 0 {
        put_entry(text, "[0, 1, 2]", windows.lead);
    }
    put_entry(text, "[7]", windows.class_seven);
    put_entry(text, "[6]", windows.class_six);
    put_entry(text, "[0, 1, 2]", windows.rest);
    text.put("]\n");
}

/// Adds an entry that opens `classes`, with a comma after it.
fn put_entry(text: &mut TextBuilder<Global>, classes: &'static str, ns: u64) {
    text.put_template(
        "{a} open = {b}, ns = {0} {c}, ",
        &[ns],
        &["{", classes, "}"],
    );
}

/// Adds three ingress ports and the egress port.
fn put_ports(text: &mut TextBuilder<Global>, shape: &Shape, rooms: Rooms) {
    for port in 1..4u64 {
        text.put_template("[[port]]\nnumber = {0}\nmbps = 1000\n", &[port], &[]);
    }
    text.put_template(
        "[[port]]\nnumber = 4\nmbps = {0}\nrooms = [8, 8, 8, 8, 8, 8, {1}, {2}]\n",
        &[shape.mbps, rooms.six, rooms.seven],
        &[],
    );
    put_windows(text, &shape.windows, "");
    if shape.change.is_some() {
        put_windows(text, &shape.next, "next_");
    }
    text.put("[[vlan]]\nvid = 10\nmembers = [1, 2, 3, 4]\n");
}

/// Adds a meter.
fn put_meter(text: &mut TextBuilder<Global>, number: u64, meter: &StreamMeter) {
    text.put_template(
        "[[meter]]\nnumber = {0}\ncir = {1}\ncbs = {2}\neir = {3}\nebs = {4}\n",
        &[number, meter.cir, meter.cbs, meter.eir, meter.ebs],
        &[],
    );
    if meter.couples {
        text.put("coupling = true\n");
    }
    if meter.drops_yellow {
        text.put("drop_yellow = true\n");
    }
}

/// Adds the `static` entry, `stream` entry, stream gate and filter of a stream, and its meter.
fn put_member(text: &mut TextBuilder<Global>, member: &Member) {
    let number = member.place.saturating_add(1);
    text.put_template(
        "[[static]]\nvid = 10\naddress = \"02-00-00-00-00-{0}\"\nports = [4]\n",
        &[member.place.saturating_add(10)],
        &[],
    );
    text.put_template(
        "[[stream]]\nhandle = {0}\nport = {1}\nkind = \"null\"\naddress = \"02-00-00-00-00-{2}\"\nvid = 10\ntag = \"tagged\"\n",
        &[number, member.ingress, member.place.saturating_add(10)],
        &[],
    );
    text.put_template(
        "[[gate]]\nnumber = {0}\nstate = \"open\"\nipv = {1}\n",
        &[number, member.class()],
        &[],
    );
    if let Some(meter) = &member.meter {
        put_meter(text, number, meter);
    }
    text.put_template(
        "[[filter]]\nnumber = {0}\nhandle = {1}\ngate = {1}\nmax_sdu = {2}\ngroup = {3}\n",
        &[
            member.filter(),
            number,
            member.longest.saturating_sub(16),
            member.group,
        ],
        &[],
    );
    if member.meter.is_some() {
        text.put_template("meter = {0}\n", &[number], &[]);
    }
}

/// Returns the plan of a bridge with these capacities.
pub fn plan_text(alloc: Global, shape: &Shape, rooms: Rooms) -> Result<String, NoMemory> {
    let mut text = TextBuilder::new(alloc);
    if let Some(at) = shape.change {
        text.put_template("[[change]]\nat = {0}\n", &[at], &[]);
    }
    put_ports(&mut text, shape, rooms);
    for member in &shape.members {
        put_member(&mut text, member);
    }
    text.put(
        "[[gate]]\nnumber = 99\nstate = \"open\"\nipv = 0\n[[filter]]\nnumber = 99\ngate = 99\n",
    );
    text.finish()
}
