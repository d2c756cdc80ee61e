//! Delay bounds of a plan's queues, by capacity.
ghost use Rattle.std.specs.Prelude.{◌≡◌, ◌+◌, ◌≤◌, ◌<◌, ℕ, MatchOption, nat_eq, None, Some, true};
ghost use Rattle.std.specs.Map.{lookup};
ghost use Rattle.bridge_frame.specs.Link.{transmission_time};
ghost use Rattle.bridge_port.specs.GateSchedule.{lists_can_fit};
ghost use Rattle.bridge_config.specs.Rules.{IsPlan};
ghost use Rattle.bridge_check.specs.Faults.{filter_fault};
ghost use Rattle.bridge_check.specs.Reach.{reaches_queue};
ghost use Rattle.bridge_check.specs.Windows.{longest_frame};
ghost use Rattle.bridge_bounds.specs.Bounds.{HasNoBound, IsQueueBound, IsRoomBound};

use crate::longest_time::port_longest_time;
use crate::openings::gate_bound;
use bridge_check::{Accepted, can_wait, find_gate};
use bridge_config::{Plan, PortPlan};
use bridge_filter::FilterPlan;
use bridge_frame::occupation;
use bridge_limits::LONGEST_FRAME;
use std::alloc::Allocator;

/// Returns the stream filter with number `number`; `None` if the list lacks it. `is_coarse`, `gate_work_bound` of `bridge_groups` and many
/// more call it.
pub fn find_filter(filters: &[(u32, FilterPlan)], number: u32) -> Option<FilterPlan>
    ensures { result ≡ lookup (nat_eq number) filters.now }
{
    for filter in filters {
        if filter.0 == number {
            return Some(filter.1);
        }
    }
    None
}

/// Returns the delay bound in ns of a queue by its capacity, for frames with a service data unit of at most `sdu` octets. Assumes arrivals
/// at any time.
///
/// `list_bound`, `shared_queue` of `bridge_groups` and 2 more call it.
pub fn class_bound<A: Allocator + Copy>(port: &PortPlan<A>, class: u8, sdu: u32) -> u64
    requires class { class < 8 }
    requires sdu { sdu ≤ 65535 }
    requires ever { lists_can_fit port.now.list class (transmission_time (longest_frame sdu) port.now.speed) ≡ true }
    ensures { IsRoomBound port.now class sdu result }
{
    let occupied = occupation((sdu + 16).min(LONGEST_FRAME), port.speed);
    let longest = port_longest_time(&port.list, class, occupied, port.rooms[class as usize]);
    occupied - 1 + longest
}

/// Returns the delay bound in ns, by capacity, of a queue that protected filter `number` can reach. The result is never `None`, because a
/// protected filter has a maximum SDU. `queue_bound` calls it.
fn reached_queue_bound<A: Allocator + Copy>(
    plan: &Plan<A>,
    number: u32,
    filter: &FilterPlan,
    port: u8,
    class: u8,
) -> Option<u64>
    requires class { class < 8 }
    requires rules { IsPlan plan.now }
    requires found { lookup (nat_eq number) plan.now.filters ≡ Some filter.now }
    requires protected { filter.now.protected ≡ true }
    requires passes { filter_fault plan.now number filter.now ≡ None }
    requires reach { reaches_queue plan.now filter.now port class ≡ true }
    ensures { (b : ℕ) × (result ≡ Some b) × IsQueueBound plan.now number port class b }
{
    let sdu = filter.max_sdu?;
    let out = plan.port(port)?;
    let gate = find_gate(plan.gates(), filter.gate)?;
    Some(gate_bound(&gate.schedule, out, filter.priority, class, sdu))
}

/// Returns the delay bound in ns of a protected filter's reachable queue; `None` for any other queue or filter. Without a schedule change
/// the bound is exact within one transmission time. Allocates no memory.
///
/// `queue_timing`, `bound_in_reach` of `net_latency`, and `put_classes` of `show_lint` call it.
pub fn queue_bound<A: Allocator + Copy>(
    accepted: &Accepted<A>,
    number: u32,
    port: u8,
    class: u8,
) -> Option<u64>
    requires from { 1 ≤ port }
    requires to { port ≤ 16 }
    requires class { class < 8 }
    ensures { MatchOption result (HasNoBound accepted.now number port class)
        (IsQueueBound accepted.now number port class) }
{
    let plan = accepted.plan();
    let filter = find_filter(plan.filters(), number)?;
    if !filter.protected {
        return None;
    }
    if !can_wait(plan, &filter, port, class) {
        return None;
    }
    reached_queue_bound(plan, number, &filter, port, class)
}
