//! Delay bounds of queues, for frames that arrive while their stream gate can put them into the queue.
//!
//! In this file, `occ` is the longest frame's transmission time in ns, and `room` the queue's capacity.
ghost use Rattle.std.specs.Prelude.{◌≡◌, ◌+◌, ◌-◌, ◌*◌, ◌≤◌, ◌<◌, ℕ, MatchOption, Some, true, false};
ghost use Rattle.bridge_cycle.specs.Cyclic.{IsLawful};
ghost use Rattle.bridge_frame.specs.Link.{transmission_time};
ghost use Rattle.bridge_port.specs.GateSchedule.{One, gate_schedule, list_can_fit, list_opens, lists_can_fit};
ghost use Rattle.bridge_check.specs.Reach as reached;
ghost use Rattle.bridge_check.specs.Windows.{longest_frame};
ghost use Rattle.bridge_bounds.specs.Bounds.{IsGateBound, IsGateListBound, IsListBound, IsOpeningsTime};
ghost use Rattle.bridge_bounds.specs.Openings.{IsCommonCycle, fills_at};
ghost use Rattle.bridge_bounds.specs.Openings as spec;

use crate::common_cycle::common_cycle;
use crate::interval_time::interval_longest_time;
use crate::queue_bounds::class_bound;
use bridge_config::PortPlan;
use bridge_cycle::{CyclicList, Egress, LONGEST_CYCLE, Timeline};
use bridge_frame::occupation;
use bridge_gate::{GateEntry, Schedule};
use bridge_limits::LONGEST_FRAME;
use std::alloc::Allocator;

/// Whether `entry` is open and can give priority `k` to a frame of a filter with the optional priority `priority`. If both the entry and
/// the filter lack a priority, `k` can be any.
///
/// `fills_class` calls it.
fn gives_priority(entry: &GateEntry, priority: Option<u8>, k: u8) -> bool
    ensures { result ≡ reached.gives_priority entry.now priority k }
{
    entry.lets && entry.ipv.or(priority).is_none_or(|own| own == k)
}

/// Whether `entry` is open and can put a frame of a filter with optional priority `priority` into class `class` of a port.
/// `openings_longest_time` calls it.
fn fills_class<A: Allocator + Copy>(
    entry: &GateEntry,
    port: &PortPlan<A>,
    priority: Option<u8>,
    class: u8,
) -> bool
    ensures { result ≡ spec.fills_class port.now priority class entry.now }
{
    let mut found = false;
    for k in 0..8u8 {
        found = found || (gives_priority(entry, priority, k) && port.classes[k as usize] == class);
    }
    found
}

/// Returns the longest time in ns in which the frames of a full queue leave. They wait from `occ` - 1 ns after a time at which the gate can
/// fill the class.
///
/// Returns `None` if the gate never puts a frame into the class. Examines `span` ns, a common cycle of both lists. `list_bound` calls it.
fn openings_longest_time<A: Allocator + Copy>(
    gate: &CyclicList<GateEntry, A>,
    list: &CyclicList<u8, A>,
    port: &PortPlan<A>,
    priority: Option<u8>,
    class: u8,
    occ: u64,
    room: u16,
    span: u64,
) -> Option<u64>
    requires class { class < 8 }
    requires some { 1 ≤ occ }
    requires occ { occ ≤ LONGEST_CYCLE }
    requires gate { IsLawful gate.now }
    requires list { IsLawful list.now }
    requires ever { list_can_fit list.now class occ ≡ true }
    requires span { IsCommonCycle gate.now list.now span }
    ensures longest { MatchOption result ((u : ℕ) → fills_at port.now priority class gate.now u ≡ false)
        (IsOpeningsTime (fills_at port.now priority class gate.now) (list_opens list.now class) occ room) }
    ensures bounded { MatchOption result (IsCommonCycle gate.now list.now span) (λ d. d ≤ room * (2 * LONGEST_CYCLE)) }
{
    let mut longest = 0;
    let mut found = false;
    let mut seen = 0;
    while seen < span {
        let turn = gate.turn(seen);
        if fills_class(&turn.state, port, priority, class) {
            let last = turn.end - 1;
            let time = interval_longest_time(
                list,
                class,
                occ,
                room,
                seen + (occ - 1),
                last + (occ - 1),
            );
            longest = time.max(longest);
            found = true;
        }
        seen = turn.end;
    }
    if !found {
        return None;
    }
    Some(longest)
}

/// Returns the delay bound in ns of a queue under one list of the stream gate and one list of the port. `gate_list_bound` calls it.
///
/// If both lists have no common cycle, or the gate never puts a frame into the class, the bound assumes arrivals at any time.
fn list_bound<A: Allocator + Copy>(
    gate: &CyclicList<GateEntry, A>,
    list: &CyclicList<u8, A>,
    port: &PortPlan<A>,
    priority: Option<u8>,
    class: u8,
    sdu: u32,
) -> u64
    requires class { class < 8 }
    requires sdu { sdu ≤ 65535 }
    requires list { gate_schedule port.now.list ≡ One list.now }
    requires ever { lists_can_fit port.now.list class (transmission_time (longest_frame sdu) port.now.speed) ≡ true }
    ensures { IsListBound gate.now list.now (fills_at port.now priority class gate.now) port.now class sdu result }
{
    let _ = (gate.cycle(), list.cycle());
    let Some(span) = common_cycle(gate, list) else {
        return class_bound(port, class, sdu);
    };
    let occ = occupation((sdu + 16).min(LONGEST_FRAME), port.speed);
    let room = port.rooms[class as usize];
    match openings_longest_time(gate, list, port, priority, class, occ, room, span) {
        None => class_bound(port, class, sdu),
        Some(longest) => occ - 1 + longest,
    }
}

/// Returns the delay bound in ns of a queue under one list of the stream gate. `gate_bound` calls it.
///
/// If the port has no list, or its list changes, the bound assumes arrivals at any time.
fn gate_list_bound<A: Allocator + Copy>(
    gate: &CyclicList<GateEntry, A>,
    port: &PortPlan<A>,
    priority: Option<u8>,
    class: u8,
    sdu: u32,
) -> u64
    requires class { class < 8 }
    requires sdu { sdu ≤ 65535 }
    requires ever { lists_can_fit port.now.list class (transmission_time (longest_frame sdu) port.now.speed) ≡ true }
    ensures { IsGateListBound gate.now port.now.list (fills_at port.now priority class gate.now) port.now class sdu
        result }
{
    match &port.list {
        None => class_bound(port, class, sdu),
        Some(Egress::Cyclic(list)) => list_bound(gate, list, port, priority, class, sdu),
        Some(Egress::Joined(_)) => class_bound(port, class, sdu),
    }
}

/// Returns the delay bound in ns of a queue by its capacity, for frames that the stream gate's schedule passes. `priority` and `sdu` are
/// the filter's priority and maximum SDU.
///
/// `reached_queue_bound` and `tight_reached_queue_bound` call it.
pub(crate) fn gate_bound<A: Allocator + Copy>(
    schedule: &Schedule<A>,
    port: &PortPlan<A>,
    priority: Option<u8>,
    class: u8,
    sdu: u32,
) -> u64
    requires class { class < 8 }
    requires sdu { sdu ≤ 65535 }
    requires ever { lists_can_fit port.now.list class (transmission_time (longest_frame sdu) port.now.speed) ≡ true }
    ensures { IsGateBound schedule.now priority port.now class sdu result }
{
    match schedule {
        Schedule::Fixed { lets: _, ipv: _ } => class_bound(port, class, sdu),
        Schedule::Cyclic(gate) => gate_list_bound(gate, port, priority, class, sdu),
        Schedule::Joined(_) => class_bound(port, class, sdu),
    }
}
