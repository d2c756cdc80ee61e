//! Delay bounds of a plan's queues, by the openings and the octet limits of stream gates.
ghost use Rattle.std.specs.Prelude.{◌≡◌, ◌≤◌, ◌<◌, IfSome, None, Some, nat_eq, true};
ghost use Rattle.std.specs.Map.{lookup};
ghost use Rattle.bridge_frame.specs.Link.{transmission_time};
ghost use Rattle.bridge_port.specs.GateSchedule.{lists_can_fit, lists_open};
ghost use Rattle.bridge_groups.specs.GateIntervals.{gate_opens, last_opening, opening_work};
ghost use Rattle.bridge_groups.specs.IntervalWork.{IsIntervalBound};
ghost use Rattle.bridge_config.specs.Rules.{IsPlan};
ghost use Rattle.bridge_check.specs.Faults.{filter_fault};
ghost use Rattle.bridge_check.specs.Reach.{reaches_queue};
ghost use Rattle.bridge_check.specs.Windows.{longest_frame};
ghost use Rattle.bridge_groups.specs.GateBounds as spec;
ghost use Rattle.bridge_groups.specs.GateBounds.{IsGateWorkBound, IsScheduleBound};

use crate::gate_delay_bound;
use bridge_bounds::find_filter;
use bridge_check::{Accepted, can_wait, find_gate};
use bridge_config::{Plan, PortPlan};
use bridge_cycle::{CyclicList, Egress, LONGEST_CYCLE, Timeline};
use bridge_filter::FilterPlan;
use bridge_frame::occupation;
use bridge_gate::{GateEntry, Schedule};
use bridge_limits::LONGEST_FRAME;
use std::alloc::Allocator;

/// Fewest SDU octets of a frame whose captured octets are no more than its length: the two octets of an EtherType.
pub const CAPTURED_SDU: u64 = 2;

/// Fewest SDU octets of a frame of at least 60 octets, as on every Ethernet link: addresses and tag take 16 octets.
pub const PADDED_SDU: u64 = 44;

/// Octets of the shortest frame on an Ethernet link, without frame check sequence.
const SHORTEST_FRAME: u32 = 60;

/// Whether each open entry of a stream gate's list has an octet limit. Otherwise `schedule_bound` returns no bound.
pub(crate) fn are_limited(entries: &[(GateEntry, u64)]) -> bool
    ensures { result ≡ spec.are_limited entries.now }
{
    entries
        .iter()
        .all(|entry| !entry.0.lets || entry.0.octets.is_some())
}

/// Returns the delay bound in ns of a queue under gate control lists, by the list of a stream gate. Transmissions take `least` to `occ` ns;
/// SDUs have at least `fewest` octets.
///
/// Returns `None` for a schedule change, or if no bound is found. `port_gate_bound` calls it.
fn lists_gate_bound<A: Allocator + Copy>(
    lists: &Egress<A>,
    class: u8,
    occ: u64,
    least: u64,
    gate: &CyclicList<GateEntry, A>,
    fewest: u64,
) -> Option<u64>
    requires class { class < 8 }
    requires some { 1 ≤ occ }
    requires occ { occ ≤ LONGEST_CYCLE }
    requires least { least ≤ 200_000 }
    requires fewest { 1 ≤ fewest }
    requires ever { lists_can_fit (Some lists.now) class occ ≡ true }
    ensures { IfSome result (IsIntervalBound (lists_open (Some lists.now) class) (gate_opens gate.now) occ least
        (last_opening gate.now) (opening_work gate.now least fewest)) }
{
    match lists {
        Egress::Cyclic(list) => {
            let _ = (list.cycle(), gate.cycle());
            gate_delay_bound(list, class, occ, least, gate, fewest)
        }
        Egress::Joined(_) => None,
    }
}

/// Returns the delay bound in ns of a queue at `port`, by the list of a stream gate. SDUs have `fewest` to `sdu` octets.
///
/// Returns `None` if the port has no list or a schedule change, or if no bound is found. `schedule_bound` and `gate_figures` call it.
pub(crate) fn port_gate_bound<A: Allocator + Copy>(
    gate: &CyclicList<GateEntry, A>,
    port: &PortPlan<A>,
    class: u8,
    sdu: u32,
    fewest: u64,
) -> Option<u64>
    requires class { class < 8 }
    requires sdu { sdu ≤ 65535 }
    requires fewest { 1 ≤ fewest }
    requires ever { lists_can_fit port.now.list class (transmission_time (longest_frame sdu) port.now.speed) ≡ true }
    ensures { IfSome result (IsIntervalBound (lists_open port.now.list class) (gate_opens gate.now)
        (transmission_time (longest_frame sdu) port.now.speed) (transmission_time 60 port.now.speed)
        (last_opening gate.now) (opening_work gate.now (transmission_time 60 port.now.speed) fewest)) }
{
    let Some(lists) = &port.list else {
        return None;
    };
    let longest = occupation((sdu + 16).min(LONGEST_FRAME), port.speed);
    let shortest = occupation(SHORTEST_FRAME, port.speed);
    lists_gate_bound(lists, class, longest, shortest, gate, fewest)
}

/// Returns the delay bound in ns of a queue at `port`, by the stream gate's schedule. SDUs have `fewest` to `sdu` octets.
///
/// Returns `None` if an open entry has no octet limit, if gate or port doesn't have exactly one list, or if no bound is found.
/// `reached_gate_bound` calls it.
fn schedule_bound<A: Allocator + Copy>(
    schedule: &Schedule<A>,
    port: &PortPlan<A>,
    class: u8,
    sdu: u32,
    fewest: u64,
) -> Option<u64>
    requires class { class < 8 }
    requires sdu { sdu ≤ 65535 }
    requires fewest { 1 ≤ fewest }
    requires ever { lists_can_fit port.now.list class (transmission_time (longest_frame sdu) port.now.speed) ≡ true }
    ensures { IfSome result (IsScheduleBound schedule.now port.now class sdu fewest) }
{
    let Schedule::Cyclic(gate) = schedule else {
        return None;
    };
    if !are_limited(gate.entries()) {
        return None;
    }
    port_gate_bound(gate, port, class, sdu, fewest)
}

/// Returns the delay bound in ns of a queue that protected filter `number` can reach, by its stream gate. SDUs have at least `fewest`
/// octets. Returns `None` if no bound is found.
///
/// `gate_work_bound` calls it after its own tests.
fn reached_gate_bound<A: Allocator + Copy>(
    plan: &Plan<A>,
    number: u32,
    filter: &FilterPlan,
    port: u8,
    class: u8,
    fewest: u64,
) -> Option<u64>
    requires class { class < 8 }
    requires rules { IsPlan plan.now }
    requires found { lookup (nat_eq number) plan.now.filters ≡ Some filter.now }
    requires protected { filter.now.protected ≡ true }
    requires passes { filter_fault plan.now number filter.now ≡ None }
    requires reach { reaches_queue plan.now filter.now port class ≡ true }
    requires fewest { (1 ≤ fewest) × (fewest ≤ PADDED_SDU) }
    ensures { IfSome result (IsGateWorkBound plan.now number port class fewest) }
{
    let sdu = filter.max_sdu?;
    let out = plan.port(port)?;
    let gate = find_gate(plan.gates(), filter.gate)?;
    schedule_bound(&gate.schedule, out, class, sdu, fewest)
}

/// Returns the delay bound in ns of protected filter `number` in its reachable queue of `class` at `port`. It follows from the openings and
/// octet limits of the stream gate. Allocates no memory.
///
/// Every frame must have an SDU of at least `fewest` octets: `CAPTURED_SDU` for any capture, `PADDED_SDU` for padded frames.
///
/// Returns `None` for any other queue or filter, for a schedule change, or if an open entry has no octet limit. It also returns `None` if
/// the search finds no bound.
///
/// `least_bound` and `padded_bound` call it.
pub fn gate_work_bound<A: Allocator + Copy>(
    accepted: &Accepted<A>,
    number: u32,
    port: u8,
    class: u8,
    fewest: u64,
) -> Option<u64>
    requires from { 1 ≤ port }
    requires to { port ≤ 16 }
    requires class { class < 8 }
    requires fewest { (1 ≤ fewest) × (fewest ≤ PADDED_SDU) }
    ensures { IfSome result (IsGateWorkBound accepted.now number port class fewest) }
{
    let plan = accepted.plan();
    let filter = find_filter(plan.filters(), number)?;
    if !filter.protected {
        return None;
    }
    if !can_wait(plan, &filter, port, class) {
        return None;
    }
    reached_gate_bound(plan, number, &filter, port, class, fewest)
}
