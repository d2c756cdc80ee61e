//! Two tests of a periodic talker's stream. Only frames from the talker's port get the handles of its hops, and each hop's frames get the
//! next hop's filter.
ghost use Rattle.std.specs.Prelude.{◌≡◌, ◌≤◌, All, length, slice_get, true};
ghost use Rattle.net_model.specs.Faults.{is_entry_port};
ghost use Rattle.bridge_bounds.specs.Traffic.{IsTraffic};
ghost use Rattle.net_latency.specs.StreamLatency.{IsQueue};
ghost use Rattle.net_latency.specs.Entering as spec;
ghost use Rattle.net_latency.specs.Entering.{IsStreamCourse};

use crate::latency::{StreamLatency, stream_latency};
use crate::next_hop::{far_end, hop_at_bridge};
use crate::tree::HopQueue;
use bridge_bounds::Traffic;
use bridge_check::Accepted;
use bridge_config::{Plan, PortPlan};
use net_model::{
    Link, StreamHop, find_plan, has_entry, is_received_by_next_hop, peer_port, protected_handle,
};
use std::alloc::Allocator;

/// Returns whether port `on` of bridge `bridge` is open and has a stream entry with handle `handle`. Then devices outside the network can
/// send frames that get the handle. `is_talker_port` and `is_other_entry_port` call it.
fn enters<A: Allocator + Copy>(
    links: &[Link],
    bridge: u16,
    plan: &Plan<A>,
    handle: u32,
    on: &PortPlan<A>,
) -> bool
    ensures { result ≡ is_entry_port links.now bridge plan.now handle on.now }
{
    if peer_port(links, bridge, on.number).is_some() {
        return false;
    }
    has_entry(plan, on.number, handle)
}

/// Returns whether port `port` of bridge `bridge` is the talker's port: the plan's first open port that has a stream entry with handle
/// `handle`. `is_other_entry_port` calls it.
fn is_talker_port<A: Allocator + Copy>(
    links: &[Link],
    bridge: u16,
    plan: &Plan<A>,
    handle: u32,
    port: u8,
) -> bool
    ensures { result ≡ spec.is_talker_port links.now bridge plan.now handle plan.now.ports port }
{
    for on in plan.ports() {
        if enters(links, bridge, plan, handle, on) {
            return on.number == port;
        }
    }
    false
}

/// Returns whether frames of other devices can get the handle at port `on` of bridge `bridge`: an open port with an entry. If `is_first` is
/// true, the talker's port doesn't count. `can_others_enter` calls it.
fn is_other_entry_port<A: Allocator + Copy>(
    links: &[Link],
    is_first: bool,
    bridge: u16,
    plan: &Plan<A>,
    handle: u32,
    on: &PortPlan<A>,
) -> bool
    ensures { result ≡ spec.also_enters links.now is_first bridge plan.now handle on.now }
{
    if !enters(links, bridge, plan, handle, on) {
        return false;
    }
    !is_first || !is_talker_port(links, bridge, plan, handle, on.number)
}

/// Returns whether frames of devices other than the talker can get the handle of hop `hop` at port `on` of its bridge. Returns false if the
/// hop's filter isn't protected.
///
/// `is_first` is true for the first hop.
///
/// `is_entry_exclusive`, and `port_of_others` and `push_entering` of `net_check` call it.
pub fn can_others_enter<A: Allocator + Copy>(
    links: &[Link],
    is_first: bool,
    hop: StreamHop,
    plan: &Plan<A>,
    on: &PortPlan<A>,
) -> bool
    ensures { result ≡ spec.may_come_in links.now is_first hop plan.now on.now }
{
    let filters = plan.filters();
    match protected_handle(filters, hop.filter) {
        None => false,
        Some(handle) => is_other_entry_port(links, is_first, hop.bridge, plan, handle, on),
    }
}

/// Returns whether no port of the hop's bridge lets frames of other devices get the hop's handle. `is_first` is true for the first hop.
/// `is_single_entry` calls it.
fn is_entry_exclusive<A: Allocator + Copy>(
    links: &[Link],
    is_first: bool,
    hop: StreamHop,
    plan: &Plan<A>,
) -> bool
    ensures { result ≡ spec.comes_in_at links.now is_first hop plan.now plan.now.ports }
{
    for on in plan.ports() {
        if can_others_enter(links, is_first, hop, plan, on) {
            return false;
        }
    }
    true
}

/// Returns whether only the talker's frames can get the handle of a hop from outside. Returns true if the hop's bridge is missing.
/// `is_first` is true for the first hop. `are_single_entries` calls it.
fn is_single_entry<A: Allocator + Copy>(
    plans: &[Accepted<A>],
    links: &[Link],
    is_first: bool,
    hop: StreamHop,
) -> bool
    ensures { result ≡ spec.comes_in_once links.now is_first hop (slice_get plans.now hop.bridge) }
{
    match find_plan(plans, hop.bridge) {
        None => true,
        Some(plan) => is_entry_exclusive(links, is_first, hop, plan),
    }
}

/// Returns whether only the talker's frames can get the handles of the stream's hops from outside the network. Otherwise
/// `checked_stream_latency` returns `None`.
fn are_single_entries<A: Allocator + Copy>(
    plans: &[Accepted<A>],
    links: &[Link],
    hops: &[StreamHop],
) -> bool
    ensures { result ≡ spec.come_in_once plans.now links.now true hops.now }
{
    let mut is_first = true;
    for hop in hops {
        if !is_single_entry(plans, links, is_first, *hop) {
            return false;
        }
        is_first = false;
    }
    true
}

/// Returns whether each frame that leaves queue `queue` gets the filter of the stream's next hop. Returns true if the queue's port leads to
/// no hop. `are_received_by_next_hops` calls it.
fn is_handed<A: Allocator + Copy>(
    plans: &[Accepted<A>],
    links: &[Link],
    hops: &[StreamHop],
    queue: &HopQueue,
) -> bool
    requires { IsQueue queue.now }
    ensures { result ≡ spec.is_handed plans.now links.now hops.now queue.now }
{
    let Some(far) = far_end(links, queue.hop.bridge, queue.port) else {
        return true;
    };
    match hop_at_bridge(hops, far.end.bridge) {
        None => true,
        Some(next) => is_received_by_next_hop(plans, queue.hop, queue.port, far.end, next.filter),
    }
}

/// Returns whether each frame that leaves a queue of the stream gets the filter of the next hop. A queue whose port leads to no hop counts
/// as true.
///
/// `checked_stream_latency` calls it; if false, the stream's line has the word `refusable`.
fn are_received_by_next_hops<A: Allocator + Copy>(
    plans: &[Accepted<A>],
    links: &[Link],
    hops: &[StreamHop],
    queues: &[HopQueue],
) -> bool
    requires { All IsQueue queues.now }
    ensures { result ≡ spec.are_received_by_next_hops plans.now links.now hops.now queues.now }
{
    for queue in queues {
        if !is_handed(plans, links, hops, queue) {
            return false;
        }
    }
    true
}

/// Returns the delays `course`. Clears their flag `passes` if frames of a hop may miss the next hop's filter (`handed` is false).
/// `tested_course` calls it.
fn handed_course(handed: bool, course: StreamLatency) -> StreamLatency
    ensures { result ≡ spec.handed_course handed course }
{
    StreamLatency {
        passes: course.passes & handed,
        worst: course.worst,
        best: course.best,
        phases: course.phases,
    }
}

/// Returns the delays of a periodic talker's frames, and whether each frame passes. Returns `None` if other devices' frames may get a hop's
/// handle, or the delays are unknown. `latency_through_hops` calls it.
pub fn checked_stream_latency<A: Allocator + Copy>(
    plans: &[Accepted<A>],
    links: &[Link],
    hops: &[StreamHop],
    queues: &[HopQueue],
    traffic: &Traffic,
) -> Option<StreamLatency>
    requires few { length hops.now ≤ 64 }
    requires queues { All IsQueue queues.now }
    requires traffic { IsTraffic traffic.now }
    ensures { IsStreamCourse plans.now links.now hops.now queues.now traffic.now result }
{
    let course = stream_latency(plans, links, hops, queues, traffic);
    let once = are_single_entries(plans, links, hops);
    let handed = are_received_by_next_hops(plans, links, hops, queues);
    tested_course(once, handed, course)
}

/// Returns the delays `course` after both tests: `passes` is cleared if `handed` is false. Returns `None` if they are unknown, or other
/// devices' frames can get a handle (`once` is false). `checked_stream_latency` calls it.
fn tested_course(once: bool, handed: bool, course: Option<StreamLatency>) -> Option<StreamLatency>
    ensures { result ≡ spec.tested_course once handed course }
{
    let course = course?;
    if !once {
        return None;
    }
    Some(handed_course(handed, course))
}
