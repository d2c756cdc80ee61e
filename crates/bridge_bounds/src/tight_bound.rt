//! Delay bounds of a plan's queues, lowered by octet limits of stream gates.
ghost use Rattle.std.specs.Prelude.{◌≡◌, ◌+◌, ◌≤◌, ◌<◌, ℕ, MatchOption, nat_eq, None, Some, true};
ghost use Rattle.std.specs.Map.{lookup};
ghost use Rattle.bridge_cycle.specs.Cyclic.{IsLawful};
ghost use Rattle.bridge_frame.specs.Link.{transmission_time};
ghost use Rattle.bridge_port.specs.GateSchedule.{lists_can_fit};
ghost use Rattle.bridge_config.specs.Rules.{IsPlan};
ghost use Rattle.bridge_check.specs.Faults.{filter_fault};
ghost use Rattle.bridge_check.specs.Reach.{reaches_queue};
ghost use Rattle.bridge_check.specs.Windows.{longest_frame};
ghost use Rattle.bridge_bounds.specs.Bounds.{HasNoBound, IsLesserBound, IsTightBound, IsTightenedBound};

use crate::gate_frames::{are_apart, frames_below_room};
use crate::longest_time::port_longest_time;
use crate::openings::gate_bound;
use crate::queue_bounds::find_filter;
use bridge_check::{Accepted, can_wait, find_gate};
use bridge_config::{Plan, PortPlan};
use bridge_cycle::CyclicList;
use bridge_filter::FilterPlan;
use bridge_frame::occupation;
use bridge_gate::{GateEntry, Schedule};
use bridge_limits::LONGEST_FRAME;
use std::alloc::Allocator;

/// Returns the lesser of `bound` and the bound of `few` frames, in ns. If the frames of one interval may still wait when the next one
/// opens, returns `bound`. `tighten_bound` calls it.
fn lesser_bound<A: Allocator + Copy>(
    list: &CyclicList<GateEntry, A>,
    port: &PortPlan<A>,
    class: u8,
    sdu: u32,
    few: u16,
    bound: u64,
) -> u64
    requires class { class < 8 }
    requires sdu { sdu ≤ 65535 }
    requires lawful { IsLawful list.now }
    requires ever { lists_can_fit port.now.list class (transmission_time (longest_frame sdu) port.now.speed) ≡ true }
    ensures { IsLesserBound list.now port.now class sdu few bound result }
{
    let occupied = occupation((sdu + 16).min(LONGEST_FRAME), port.speed);
    let longest = port_longest_time(&port.list, class, occupied, few);
    if !are_apart(list, longest) {
        return bound;
    }
    bound.min(occupied - 1 + longest)
}

/// Returns `bound`, in ns, or a lesser bound if the stream gate's only list passes fewer frames per interval than the queue's capacity.
/// `tight_reached_queue_bound` calls it.
fn tighten_bound<A: Allocator + Copy>(
    schedule: &Schedule<A>,
    port: &PortPlan<A>,
    class: u8,
    sdu: u32,
    bound: u64,
) -> u64
    requires class { class < 8 }
    requires sdu { sdu ≤ 65535 }
    requires ever { lists_can_fit port.now.list class (transmission_time (longest_frame sdu) port.now.speed) ≡ true }
    ensures { IsTightenedBound schedule.now port.now class sdu bound result }
{
    match schedule {
        Schedule::Fixed { lets: _, ipv: _ } => bound,
        Schedule::Joined(_) => bound,
        Schedule::Cyclic(list) => match frames_below_room(
            list.entries(),
            port.rooms[class as usize],
        ) {
            None => bound,
            Some(few) => lesser_bound(list, port, class, sdu, few, bound),
        },
    }
}

/// Returns the tight bound in ns of a queue that a protected filter reaches. The result is never `None`, because the filter has a maximum
/// SDU. `tight_queue_bound` calls it.
fn tight_reached_queue_bound<A: Allocator + Copy>(
    plan: &Plan<A>,
    number: u32,
    filter: &FilterPlan,
    port: u8,
    class: u8,
) -> Option<u64>
    requires class { class < 8 }
    requires rules { IsPlan plan.now }
    requires found { lookup (nat_eq number) plan.now.filters ≡ Some filter.now }
    requires protected { filter.now.protected ≡ true }
    requires passes { filter_fault plan.now number filter.now ≡ None }
    requires reach { reaches_queue plan.now filter.now port class ≡ true }
    ensures { (b : ℕ) × (result ≡ Some b) × IsTightBound plan.now number port class b }
{
    let sdu = filter.max_sdu?;
    let out = plan.port(port)?;
    let gate = find_gate(plan.gates(), filter.gate)?;
    let bound = gate_bound(&gate.schedule, out, filter.priority, class, sdu);
    Some(tighten_bound(&gate.schedule, out, class, sdu, bound))
}

/// Returns the bound of `queue_bound`, or a lesser bound if octet limits of the stream gate allow it. Each frame's length must be at least
/// its number of captured octets.
///
/// Allocates no memory. `least_queue_bound` of `bridge_groups` and `put_tight_bound` of `net_latency` call it.
pub fn tight_queue_bound<A: Allocator + Copy>(
    accepted: &Accepted<A>,
    number: u32,
    port: u8,
    class: u8,
) -> Option<u64>
    requires from { 1 ≤ port }
    requires to { port ≤ 16 }
    requires class { class < 8 }
    ensures { MatchOption result (HasNoBound accepted.now number port class)
        (IsTightBound accepted.now number port class) }
{
    let plan = accepted.plan();
    let filter = find_filter(plan.filters(), number)?;
    if !filter.protected {
        return None;
    }
    if !can_wait(plan, &filter, port, class) {
        return None;
    }
    tight_reached_queue_bound(plan, number, &filter, port, class)
}
