//! Explains why frames of a filter can reach a port, for the explanations of refused plans.
use crate::sentence::LintText;
use bridge_config::Plan;
use bridge_filter::FilterPlan;
use bridge_forward::StaticEntry;
use bridge_ident::{Kind, StreamEntry};
use std::alloc::Allocator;

/// Why frames of a filter can reach a port: the filter matches any stream, or a `stream` entry of the file leads there.
#[derive(Clone, Copy)]
enum RouteCause {
    /// The filter names no stream.
    Any,
    /// The stream compares only source addresses, so its frames have any destination.
    Source,
    /// A `static` entry names the port.
    Entry,
    /// There is no `static` entry, and the port is a member of the VLAN.
    Flood,
}

const ANY: &str = "Filter {0} matches every stream, so its frames can reach any port.\n";

const SOURCE: &str =
    "`stream` {1} identifies filter {0} by source address, so its frames can reach any port.\n";

const ENTRY: &str = "`stream` {1} leads filter {0} to port {2} by a `static` entry.\n";

const FLOOD: &str =
    "`stream` {1} leads filter {0} to port {2}. VLAN {3} has no `static` entry for its address, so its frames go to all members.\n";

/// Returns whether VLAN `vid` has a static entry for an address. If there is no entry, frames to `address` flood the VLAN. `route_cause`
/// calls it.
fn has_entry(statics: &[StaticEntry], vid: u16, address: [u8; 6]) -> bool {
    statics
        .iter()
        .any(|entry| entry.vid == vid && entry.address == address)
}

/// Returns whether frames to the stream's address, from its port and VLAN, leave by port `port`. `route_cause` calls it.
fn is_forwarded_to_port<A: Allocator + Copy>(
    plan: &Plan<A>,
    stream: &StreamEntry,
    port: u8,
) -> bool {
    if stream.port < 1 || stream.port > 16 || port < 1 || port > 16 {
        return false;
    }
    plan.forward(stream.port, stream.vid, &stream.address)
        .has(port)
}

/// Returns how frames of a stream can reach a port, or `None` if they can't. `other_way` and `put_route` call it.
fn route_cause<A: Allocator + Copy>(
    plan: &Plan<A>,
    stream: &StreamEntry,
    port: u8,
) -> Option<RouteCause> {
    match stream.kind {
        Kind::Source => Some(RouteCause::Source),
        Kind::Null if !is_forwarded_to_port(plan, stream, port) => None,
        Kind::Null if has_entry(plan.statics(), stream.vid, stream.address) => Some(
            RouteCause::Entry,
        ),
        Kind::Null => Some(RouteCause::Flood),
    }
}

/// Writes why frames of filter `number` can reach port `port`: the first stream that leads there, or that any frame can.
/// `put_shared_queue`, `put_window` and `put_unfit_length` call it.
pub(crate) fn put_route<A: Allocator + Copy>(
    said: &mut LintText,
    plan: &Plan<A>,
    number: u32,
    filter: &FilterPlan,
    port: u8,
) {
    let Some(handle) = filter.handle else {
        return put_route_sentence(said, RouteCause::Any, number, 0, port, 0);
    };
    let mut place = 0u64;
    for stream in plan.streams() {
        place = place.saturating_add(1);
        if stream.handle == handle {
            if let Some(way) = route_cause(plan, stream, port) {
                return put_route_sentence(said, way, number, place, port, stream.vid);
            }
        }
    }
}

const NEED_ENTRY: &str =
    "Add a `static` entry for the address of `stream` {0} that names only its egress ports.\n";

const NEED_KIND: &str =
    "Identify `stream` {0} by its destination address (`kind = \"null\"`), and add a `static` entry for this address that names only its egress ports.\n";

/// Returns the number in the plan, from 1, and the cause of the first stream that leads frames of `handle` to `port`.
///
/// Returns `None` if no stream leads there, or one does by a `static` entry, as intended. `put_other_way` calls it.
fn other_way<A: Allocator + Copy>(
    plan: &Plan<A>,
    handle: u32,
    port: u8,
) -> Option<(u64, RouteCause)> {
    let mut place = 0u64;
    let mut first = None;
    for stream in plan.streams() {
        place = place.saturating_add(1);
        if stream.handle == handle {
            match route_cause(plan, stream, port) {
                Some(RouteCause::Entry) => return None,
                Some(way) => first = first.or(Some((place, way))),
                None => {}
            }
        }
    }
    first
}

/// Writes how to keep a filter's frames from a port, and returns true. Returns false without a remedy: a `static` entry leads there, or
/// there is no handle. `put_window` calls it.
pub(crate) fn put_other_way<A: Allocator + Copy>(
    said: &mut LintText,
    plan: &Plan<A>,
    filter: &FilterPlan,
    port: u8,
) -> bool {
    let Some(handle) = filter.handle else {
        return false;
    };
    let Some((place, way)) = other_way(plan, handle, port) else {
        return false;
    };
    let template = match way {
        RouteCause::Source => NEED_KIND,
        _ => NEED_ENTRY,
    };
    said.put_template(template, &[place], &[]);
    true
}

/// Writes the sentence of a cause about filter `number`, stream `place` of the plan (from 1; 0 for no stream), port `port` and VLAN `vid`.
/// `put_route` calls it.
fn put_route_sentence(
    said: &mut LintText,
    way: RouteCause,
    number: u32,
    place: u64,
    port: u8,
    vid: u16,
) {
    let template = match way {
        RouteCause::Any => ANY,
        RouteCause::Source => SOURCE,
        RouteCause::Entry => ENTRY,
        RouteCause::Flood => FLOOD,
    };
    let numbers = [u64::from(number), place, u64::from(port), u64::from(vid)];
    said.put_template(template, &numbers, &[]);
}
