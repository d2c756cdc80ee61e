//! Finds streams of protected filters that aren't forwarded, miss a port of their static entry, or flood their VLAN.
ghost use Rattle.std.specs.Prelude.{◌≡◌, ◌≤◌, ◌↔◌, IsTrue};
ghost use Rattle.bridge_forward.specs.Database.{static_ports};
ghost use Rattle.show_lint.specs.Streams.{IsNotForwarded};

use crate::lint::push_warning;
use crate::warning::{Flooded, NonMemberPort, NotForwarded, NotForwardedCause, Warning};
use bridge_config::{Plan, PortSet};
use bridge_filter::FilterPlan;
use bridge_forward::{StaticEntry, find_members};
use bridge_ident::{Kind, StreamEntry};
use std::alloc::{AllocError, Allocator};

/// First five octets of the addresses that no bridge forwards; the last octet is at most 15.
const RESERVED: [u8; 5] = [0x01, 0x80, 0xC2, 0x00, 0x00];

/// Returns whether frames to the stream's address, from its port and VLAN, have no egress port. `stream_cause` then looks for the reason.
pub fn is_not_forwarded<A: Allocator + Copy>(plan: &Plan<A>, stream: &StreamEntry) -> bool
    requires from { 1 ≤ stream.now.port }
    requires to { stream.now.port ≤ 16 }
    ensures { IsTrue result ↔ IsNotForwarded plan.now stream.now }
{
    plan.forward(stream.port, stream.vid, &stream.address)
        .is_empty()
}

/// Returns the ports of the static entry for VLAN `vid` and an address, or `None` if there is no entry. `not_forwarded_cause`,
/// `find_non_member_ports` and `find_flooded` call it.
fn static_ports(statics: &[StaticEntry], vid: u16, address: [u8; 6]) -> Option<PortSet>
    ensures { result ≡ static_ports statics.now vid address }
{
    for entry in statics {
        if entry.vid == vid && entry.address == address {
            return Some(entry.ports);
        }
    }
    None
}

/// Returns whether no bridge forwards frames to `address`: 01-80-C2-00-00-00 to 01-80-C2-00-00-0F. `not_forwarded_cause` calls it.
fn is_reserved(address: [u8; 6]) -> bool {
    let [a, b, c, d, e, last] = address;
    [a, b, c, d, e] == RESERVED && last <= 15
}

/// Returns the first port of `set` other than `own`. `None` if the set has no other port. `vlan_cause`, `static_entry_cause` and
/// `are_several` call it.
fn other_port(set: PortSet, own: u8) -> Option<u8> {
    for port in 1..17u8 {
        if port != own && set.has(port) {
            return Some(port);
        }
    }
    None
}

/// Returns why a stream with ingress port `port` isn't forwarded, if its VLAN is the cause. The VLAN, this port or a second member may be
/// missing. `not_forwarded_cause` and `stream_cause` call it.
fn vlan_cause(members: Option<PortSet>, port: u8) -> Option<NotForwardedCause>
    requires from { 1 ≤ port }
    requires to { port ≤ 16 }
{
    match members {
        None => Some(NotForwardedCause::NoVlan),
        Some(set) if !set.has(port) => Some(NotForwardedCause::Ingress),
        Some(set) => match other_port(set, port) {
            None => Some(NotForwardedCause::Alone),
            Some(_) => None,
        },
    }
}

/// Returns why a stream with ingress port `port` isn't forwarded, by the ports of its static entry, if its VLAN has other members.
/// `not_forwarded_cause` calls it.
fn static_entry_cause(entry: Option<PortSet>, port: u8) -> NotForwardedCause {
    match entry {
        None => NotForwardedCause::Alone,
        Some(ports) if ports.is_empty() => NotForwardedCause::NoPorts,
        Some(ports) => match other_port(ports, port) {
            None => NotForwardedCause::OwnPort,
            Some(port) => NotForwardedCause::Egress { port },
        },
    }
}

/// Returns why a stream isn't forwarded: reserved address, VLAN or static entry. The stream must have no egress port. `stream_cause` calls
/// it.
fn not_forwarded_cause<A: Allocator + Copy>(
    plan: &Plan<A>,
    stream: &StreamEntry,
) -> NotForwardedCause
    requires from { 1 ≤ stream.now.port }
    requires to { stream.now.port ≤ 16 }
{
    if is_reserved(stream.address) {
        return NotForwardedCause::Reserved;
    }
    match vlan_cause(find_members(plan.vlans(), stream.vid), stream.port) {
        Some(reason) => reason,
        None => {
            let entry = static_ports(plan.statics(), stream.vid, stream.address);
            static_entry_cause(entry, stream.port)
        }
    }
}

/// Returns why a stream isn't forwarded, or `None` if it is. For identification by source, only the VLAN counts, because the destination is
/// unknown. `find_stream_warnings` calls it.
fn stream_cause<A: Allocator + Copy>(
    plan: &Plan<A>,
    stream: &StreamEntry,
) -> Option<NotForwardedCause>
    requires from { 1 ≤ stream.now.port }
    requires to { stream.now.port ≤ 16 }
{
    match stream.kind {
        Kind::Source => vlan_cause(find_members(plan.vlans(), stream.vid), stream.port),
        Kind::Null => {
            if is_not_forwarded(plan, stream) {
                Some(not_forwarded_cause(plan, stream))
            } else {
                None
            }
        }
    }
}

/// Adds a warning about filter `filter` for each port of the stream's static entry that isn't a member of its VLAN. `place` is the stream's
/// number in the plan, from 1. `find_egress_warnings` calls it.
fn find_non_member_ports<A: Allocator + Copy>(
    found: &mut Vec<Warning>,
    plan: &Plan<A>,
    filter: u32,
    place: usize,
    stream: &StreamEntry,
) -> Result<(), AllocError> {
    let vid = stream.vid;
    let entry = static_ports(plan.statics(), vid, stream.address);
    let (Some(ports), Some(members)) = (entry, find_members(plan.vlans(), vid)) else {
        return Ok(());
    };
    for port in 1..17u8 {
        if ports.has(port) && !members.has(port) {
            let outside = NonMemberPort {
                filter,
                place,
                port,
                vid,
            };
            push_warning(found, Warning::NonMemberPort(outside))?;
        }
    }
    Ok(())
}

/// Returns whether a set has at least two ports. A stream that leaves by several ports without static entry floods its VLAN. `find_flooded`
/// calls it.
fn are_several(set: PortSet) -> bool {
    match other_port(set, 0) {
        Some(first) => other_port(set, first).is_some(),
        None => false,
    }
}

/// Adds a warning about filter `filter` if the stream's frames leave by several ports because no static entry has their address. `place` is
/// the stream's number in the plan, from 1. `find_egress_warnings` calls it.
fn find_flooded<A: Allocator + Copy>(
    found: &mut Vec<Warning>,
    plan: &Plan<A>,
    filter: u32,
    place: usize,
    stream: &StreamEntry,
) -> Result<(), AllocError>
    requires from { 1 ≤ stream.now.port }
    requires to { stream.now.port ≤ 16 }
{
    let vid = stream.vid;
    if static_ports(plan.statics(), vid, stream.address).is_some() {
        return Ok(());
    }
    if !are_several(plan.forward(stream.port, vid, &stream.address)) {
        return Ok(());
    }
    push_warning(found, Warning::Flooded(Flooded { filter, place, vid }))
}

/// Adds warnings about the egress ports of a forwarded stream: static-entry ports that aren't members of its VLAN, and flooding.
///
/// `find_stream_warnings` calls it for streams identified by destination; `place` is the stream's number in the plan, from 1.
fn find_egress_warnings<A: Allocator + Copy>(
    found: &mut Vec<Warning>,
    plan: &Plan<A>,
    filter: u32,
    place: usize,
    stream: &StreamEntry,
) -> Result<(), AllocError>
    requires from { 1 ≤ stream.now.port }
    requires to { stream.now.port ≤ 16 }
{
    find_non_member_ports(found, plan, filter, place, stream)?;
    find_flooded(found, plan, filter, place, stream)
}

/// Adds warnings about a stream of protected filter `filter`: it isn't forwarded, or has doubtful egress ports. `place` is the stream's
/// number in the plan, from 1. `find_not_forwarded` calls it.
fn find_stream_warnings<A: Allocator + Copy>(
    found: &mut Vec<Warning>,
    plan: &Plan<A>,
    filter: u32,
    place: usize,
    stream: &StreamEntry,
) -> Result<(), AllocError>
    requires from { 1 ≤ stream.now.port }
    requires to { stream.now.port ≤ 16 }
{
    match (stream_cause(plan, stream), stream.kind) {
        (Some(reason), _) => {
            let StreamEntry { port, vid, .. } = *stream;
            let stuck = NotForwarded {
                filter,
                place,
                port,
                vid,
                reason,
            };
            push_warning(found, Warning::NotForwarded(stuck))
        }
        (None, Kind::Null) => find_egress_warnings(found, plan, filter, place, stream),
        (None, Kind::Source) => Ok(()),
    }
}

/// Adds the warnings about each stream whose handle protected filter `number` names. Does nothing for a filter without handle.
/// `find_plan_warnings` calls it.
pub(crate) fn find_not_forwarded<A: Allocator + Copy>(
    found: &mut Vec<Warning>,
    plan: &Plan<A>,
    number: u32,
    filter: &FilterPlan,
) -> Result<(), AllocError> {
    let Some(handle) = filter.handle else {
        return Ok(());
    };
    let mut place = 0usize;
    for stream in plan.streams() {
        place = place.saturating_add(1);
        if stream.handle == handle {
            find_stream_warnings(found, plan, number, place, stream)?;
        }
    }
    Ok(())
}
