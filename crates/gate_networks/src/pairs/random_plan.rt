//! Draws plans with three ports.
use crate::random_numbers::RandomNumbers;
use app_failure::accepted_plan;
use bridge_check::Accepted;
use bridge_text::{NoMemory, TextBuilder};
use std::alloc::Global;

/// Beginning of a `stream` entry that compares the destination, up to the last digit of the address.
const BY_DESTINATION: &str = "kind = \"null\"\naddress = \"91-E0-F0-00-FE-0";

/// Beginning of a `stream` entry that compares the source, up to the last digit of the address.
const BY_SOURCE: &str = "kind = \"source\"\naddress = \"02-00-00-00-00-0";

/// Open stream gate `{0}` with internal priority `{1}`, and open stream gate `{0}` without internal priority.
const OPEN: &str = "[[gate]]\nnumber = {0}\nstate = \"open\"\nipv = {1}\n";

const BARE: &str = "[[gate]]\nnumber = {0}\nstate = \"open\"\n";

/// Closed stream gate `{0}`, and stream gate `{0}` that is open in half of its cycle time.
const CLOSED: &str = "[[gate]]\nnumber = {0}\nstate = \"closed\"\n";

const TIMED: &str =
    "[[gate]]\nnumber = {0}\ncycle = 40000\nentries = [{a} open = true, ns = 20000, ipv = {1} {b}, {a} open = false, ns = 20000 {b}]\n";

/// Greatest number of plans drawn until a plan is accepted.
const TRIES: u32 = 1_000;

/// Role of a bridge in its pair.
#[derive(Clone, Copy)]
pub struct Side {
    /// Port with a link.
    pub link: u32,
    /// Ports at which the stream arrives and by which it leaves.
    pub talker: u32,
    pub listener: u32,
    /// Whether filter 10 is a hop of the stream, and whether filter 11 is a hop too.
    pub hop: bool,
    pub second: bool,
    /// Whether a talker of the stream is at open port 3.
    pub fed: bool,
}

/// Returns the list of ports whose bits are set in `bits`: 1 for port 1, 2 for port 2, 4 for port 3.
fn ports_word(bits: u32) -> &'static str {
    match bits {
        1 => "[1]",
        2 => "[2]",
        3 => "[1, 2]",
        4 => "[3]",
        5 => "[1, 3]",
        6 => "[2, 3]",
        _ => "[1, 2, 3]",
    }
}

/// Returns a random kind of tags.
fn tag_word(numbers: &mut RandomNumbers) -> &'static str {
    match numbers.draw(6) {
        0 => "priority",
        1 | 2 => "tagged",
        _ => "all",
    }
}

/// Returns a random VLAN identifier, mostly the stream's.
fn random_vid(numbers: &mut RandomNumbers) -> u64 {
    match numbers.draw(4) {
        0 => 20,
        1 => 1,
        _ => 10,
    }
}

/// Returns a random priority of those that frames have.
fn random_priority(numbers: &mut RandomNumbers) -> u64 {
    match numbers.draw(4) {
        0 => 0,
        1 => 3,
        2 => 5,
        _ => 7,
    }
}

/// Adds the ports, with windows for classes 7 and 6.
fn put_ports(text: &mut TextBuilder<Global>, numbers: &mut RandomNumbers) {
    for port in 1..4u64 {
        let vid = random_vid(numbers);
        let priority = random_priority(numbers);
        let rest = if numbers.draw_chance(8) {
            "[0]"
        } else {
            "[0, 1, 2, 3, 4, 5]"
        };
        text.put_template(
            "[[port]]\nnumber = {0}\nmbps = 1000\nvid = {1}\npriority = {2}\ncycle = 40000\n",
            &[port, vid, priority],
            &[],
        );
        text.put_template(
            "gates = [{a} open = [7], ns = 10000 {b}, {a} open = [6], ns = 10000 {b}, {a} open = {c}, ns = 20000 {b}]\n",
            &[],
            &["{", "}", rest],
        );
    }
}

/// Adds a VLAN. Mostly the stream's ports are members.
fn put_vlan(text: &mut TextBuilder<Global>, numbers: &mut RandomNumbers, side: Side, vid: u64) {
    let bits = match numbers.draw(5) {
        0 => numbers.draw(7) + 1,
        1 => 7,
        _ => (1u32 << (side.talker % 8).saturating_sub(1))
            | (1u32 << (side.listener % 8).saturating_sub(1)),
    };
    let members = ports_word(bits);
    text.put_template("[[vlan]]\nvid = {0}\nmembers = {a}\n", &[vid], &[members]);
}

/// Adds a `static` entry with random ports.
fn put_static(text: &mut TextBuilder<Global>, numbers: &mut RandomNumbers, vid: u64, address: u64) {
    let ports = ports_word(numbers.draw(7) + 1);
    text.put_template(
        "[[static]]\nvid = {0}\naddress = \"91-E0-F0-00-FE-0{1}\"\nports = {a}\n",
        &[vid, address],
        &[ports],
    );
}

/// Adds the VLANs, and `static` entries of random addresses.
fn put_forwarding(text: &mut TextBuilder<Global>, numbers: &mut RandomNumbers, side: Side) {
    put_vlan(text, numbers, side, 10);
    put_vlan(text, numbers, side, 20);
    if numbers.draw_chance(2) {
        put_vlan(text, numbers, side, 1);
    }
    for (vid, address) in [(10, 1), (10, 2), (20, 1), (20, 2)] {
        if numbers.draw_chance(3) {
            put_static(text, numbers, vid, address);
        }
    }
}

/// Adds a `stream` entry. `places` has its handle, its port, the last digit of the address, and the VLAN.
fn put_entry_text(text: &mut TextBuilder<Global>, places: [u64; 4], by: &str, tag: &str) {
    text.put_template(
        "[[stream]]\nhandle = {0}\nport = {1}\n{a}{2}\"\nvid = {3}\ntag = \"{b}\"\n",
        &places,
        &[by, tag],
    );
}

/// Adds a random `stream` entry.
fn put_entry(text: &mut TextBuilder<Global>, numbers: &mut RandomNumbers, side: Side) {
    let handle = match numbers.draw(6) {
        0 => 10,
        1 | 2 => 11,
        _ => 90,
    };
    let port = if numbers.draw_chance(3) {
        side.talker
    } else {
        numbers.draw(3) + 1
    };
    let address = numbers.draw(3) + 1;
    let vid = random_vid(numbers);
    let tag = tag_word(numbers);
    let by = if numbers.draw_chance(4) {
        BY_SOURCE
    } else {
        BY_DESTINATION
    };
    put_entry_text(text, [handle, port as u64, address as u64, vid], by, tag);
}

/// Adds entries for frames to the stream's address that arrive at open ports other than the talker's.
fn put_strays(text: &mut TextBuilder<Global>, numbers: &mut RandomNumbers, side: Side) {
    let handle = if numbers.draw_chance(2) { 10 } else { 90 };
    for port in 1..4u32 {
        if port != side.talker && port != side.link {
            put_entry_text(text, [handle, port as u64, 1, 10], BY_DESTINATION, "all");
        }
    }
}

/// Adds the `stream` entries.
fn put_entries(text: &mut TextBuilder<Global>, numbers: &mut RandomNumbers, side: Side) {
    if side.fed {
        put_entry_text(text, [10, 3, 1, 10], BY_DESTINATION, "all");
    }
    if numbers.draw_chance(2) {
        put_strays(text, numbers, side);
    }
    for _ in 0..numbers.draw(2) {
        put_entry(text, numbers, side);
    }
    let tag = tag_word(numbers);
    put_entry_text(text, [10, side.talker as u64, 1, 10], BY_DESTINATION, tag);
    for _ in 0..numbers.draw(4) {
        put_entry(text, numbers, side);
    }
}

/// Returns the template of a random stream gate. Draws are below 8; those from 2 to below `bound` give `OPEN`.
fn random_gate(numbers: &mut RandomNumbers, bound: u32) -> &'static str {
    match numbers.draw(8) {
        0 => BARE,
        1 => TIMED,
        n if n < bound => OPEN,
        _ => CLOSED,
    }
}

/// Adds a stream gate with its internal priority.
fn put_gate(text: &mut TextBuilder<Global>, gate: &str, number: u64, ipv: u64) {
    text.put_template(gate, &[number, ipv], &["{", "}"]);
}

/// Adds the stream gates.
fn put_gates(text: &mut TextBuilder<Global>, numbers: &mut RandomNumbers) {
    match numbers.draw(16) {
        0 => put_gate(text, CLOSED, 10, 7),
        1 => put_gate(text, TIMED, 10, 7),
        2 => put_gate(text, TIMED, 10, 6),
        _ => put_gate(text, OPEN, 10, 7),
    }
    let second = if numbers.draw_chance(8) { CLOSED } else { OPEN };
    put_gate(text, second, 11, 6);
    put_gate(text, random_gate(numbers, 4), 5, 2);
    put_gate(text, random_gate(numbers, 4), 90, 1);
    put_gate(text, random_gate(numbers, 5), 99, 0);
}

/// Adds a filter. Filter 5 always compares a priority, filter 99 never, and another filter once in five draws.
fn put_filter(
    text: &mut TextBuilder<Global>,
    numbers: &mut RandomNumbers,
    number: u64,
    by_handle: bool,
    protected: bool,
) {
    text.put_template("[[filter]]\nnumber = {0}\ngate = {0}\n", &[number], &[]);
    if by_handle {
        text.put_template("handle = {0}\n", &[number], &[]);
    }
    if number != 99 && (number == 5 || numbers.draw_chance(5)) {
        text.put_template("priority = {0}\n", &[random_priority(numbers)], &[]);
    }
    if protected {
        text.put("max_sdu = 100\nprotected = true\n");
    }
}

/// Adds the filters.
fn put_filters(text: &mut TextBuilder<Global>, numbers: &mut RandomNumbers, side: Side) {
    if numbers.draw_chance(6) {
        put_filter(text, numbers, 5, false, false);
    }
    put_filter(text, numbers, 10, true, side.hop);
    if side.second || numbers.draw_chance(2) {
        put_filter(text, numbers, 11, true, side.second);
    }
    if !numbers.draw_chance(4) {
        put_filter(text, numbers, 90, true, false);
    }
    if side.hop || !numbers.draw_chance(4) {
        put_filter(text, numbers, 99, false, false);
        if numbers.draw_chance(4) {
            text.put(
                "meter = 1\n[[meter]]\nnumber = 1\ncir = 0\ncbs = 0\neir = 8000000\nebs = 4000000\n",
            );
        }
    }
}

/// Returns the text of a random plan.
fn random_plan_text(
    alloc: Global,
    numbers: &mut RandomNumbers,
    side: Side,
) -> Result<String, NoMemory> {
    let mut text = TextBuilder::new(alloc);
    put_ports(&mut text, numbers);
    put_forwarding(&mut text, numbers, side);
    put_entries(&mut text, numbers, side);
    put_gates(&mut text, numbers);
    put_filters(&mut text, numbers, side);
    text.finish()
}

/// Returns the next accepted plan, or `None` if memory ran out or `TRIES` plans were refused.
pub fn random_plan(
    alloc: Global,
    numbers: &mut RandomNumbers,
    side: Side,
) -> Option<Accepted<Global>> {
    for _ in 0..TRIES {
        let Ok(text) = random_plan_text(alloc, numbers, side) else {
            return None;
        };
        if let Ok(accepted) = accepted_plan(alloc, alloc, text.as_bytes()) {
            return Some(accepted);
        }
    }
    None
}
