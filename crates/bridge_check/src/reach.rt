//! Finds the ports and priorities that a filter's frames can have.
ghost use Rattle.std.specs.Prelude.{◌≡◌, ◌≤◌, ◌+◌, ◌||◌, false, map, Some, option_map, nat_eq, slice_index_or};
ghost use Rattle.std.specs.Map.{lookup};
ghost use Rattle.bridge_forward.specs.Ports.{has_port};
ghost use Rattle.bridge_config.specs.Rules.{find_port};
ghost use Rattle.bridge_check.specs.Reach as spec;
ghost use Rattle.bridge_check.specs.ReachTables as reached;

use bridge_config::{Plan, PortPlan};
use bridge_filter::FilterPlan;
use bridge_forward::PortSet;
use bridge_gate::{GateEntry, GatePlan, Schedule};
use bridge_ident::{Kind, StreamEntry};
use std::alloc::Allocator;

/// Whether stream entries of kind `kind` compare the destination address, which decides the egress ports of a frame. `are_null_kinds` calls
/// it.
fn is_null_kind(kind: Kind) -> bool
    ensures { result ≡ spec.is_null_kind kind }
{
    match kind {
        Kind::Null => true,
        Kind::Source => false,
    }
}

/// Whether all stream entries with handle `handle` compare the destination address. Only then are the frames' destinations, and so their
/// egress ports, known. `reached_ports` calls it.
fn are_null_kinds(handle: u32, streams: &[StreamEntry]) -> bool
    ensures { result ≡ spec.are_null_kinds handle streams.now }
{
    streams
        .iter()
        .all(|e| e.handle != handle || is_null_kind(e.kind))
}

/// Sets the flag of each port in `set`. `ports` has one flag for each port, from port 1. `destination_ports` calls it.
fn mark_ports(ports: &mut [bool; 16], set: PortSet)
    ensures { ports.new ≡ reached.test_results 16 (λ i. slice_index_or ports.old i false || has_port set (i + 1)) }
{
    for i in 0..16usize {
        ports[i] = ports[i] || set.has(i as u8 + 1);
    }
}

/// Returns a flag for each port, from port 1: whether frames that the stream entries with `handle` identify can leave by this port.
/// `reached_ports` calls it.
fn destination_ports<A: Allocator + Copy>(plan: &Plan<A>, handle: u32) -> [bool; 16]
    ensures { result ≡ reached.test_results 16 (λ i. spec.leads_through_port plan.now.database handle (i
        + 1) plan.now.streams) }
{
    let mut ports = [false; 16];
    for stream in plan.streams() {
        if stream.handle == handle {
            let set = plan.forward(stream.port, stream.vid, &stream.address);
            mark_ports(&mut ports, set);
        }
    }
    ports
}

/// Whether `entry` is open and can give a frame priority `k`: by its internal priority value or, if it has none, the filter's `priority`.
/// If both are missing, the entry can give each priority.
///
/// `entries_give_priority` and `lets` call it.
fn gives_priority(entry: &GateEntry, priority: Option<u8>, k: u8) -> bool
    ensures { result ≡ spec.gives_priority entry.now priority k }
{
    if !entry.lets {
        return false;
    }
    match (entry.ipv, priority) {
        (Some(ipv), _) => ipv == k,
        (None, Some(own)) => own == k,
        (None, None) => true,
    }
}

/// Whether some entry in `entries` is open and can give a frame priority `k`; `priority` is the filter's. `lets` calls it.
fn entries_give_priority(entries: &[(GateEntry, u64)], priority: Option<u8>, k: u8) -> bool
    ensures { result ≡ spec.lets (map (λ e. e.0) entries.now) priority k }
{
    for entry in entries {
        if gives_priority(&entry.0, priority, k) {
            return true;
        }
    }
    false
}

/// Whether some entry of `schedule` is open and can give a frame priority `k`; `priority` is the filter's. If a schedule change joins two
/// lists, either list counts.
///
/// `given_priorities` calls it.
#[tactic(auto, using(crate::proofs::Both::lets_both))]
fn lets<A: Allocator + Copy>(schedule: &Schedule<A>, priority: Option<u8>, k: u8) -> bool
    ensures { result ≡ spec.lets (spec.schedule_entries schedule.now) priority k }
{
    match schedule {
        Schedule::Fixed { lets, ipv } => {
            let entry = GateEntry {
                lets: *lets,
                ipv: *ipv,
                octets: None,
            };
            gives_priority(&entry, priority, k)
        }
        Schedule::Cyclic(list) => entries_give_priority(list.entries(), priority, k),
        Schedule::Joined(joined) => {
            let (old, new) = joined.lists();
            entries_give_priority(old.entries(), priority, k)
                || entries_give_priority(new.entries(), priority, k)
        }
    }
}

/// Returns a flag for each priority, from 0: whether some open entry of `schedule` can give it. `priority` is the filter's.
/// `reached_priorities` calls it.
fn given_priorities<A: Allocator + Copy>(schedule: &Schedule<A>, priority: Option<u8>) -> [bool; 8]
    ensures { result ≡ reached.test_results 8 (spec.lets (spec.schedule_entries schedule.now) priority) }
{
    let mut priorities = [false; 8];
    for k in 0..8usize {
        priorities[k] = lets(schedule, priority, k as u8);
    }
    priorities
}

/// Returns the stream gate with number `number`; `None` if the list lacks it. `reached_priorities`, `is_coarse` of `bridge_bounds` and many
/// more call it.
pub fn find_gate<A: Allocator + Copy>(
    gates: &[(u32, GatePlan<A>)],
    number: u32,
) -> Option<&GatePlan<A>>
    ensures { option_map (λ g. g.now) result ≡ lookup (nat_eq number) gates.now }
{
    for gate in gates {
        if gate.0 == number {
            return Some(&gate.1);
        }
    }
    None
}

/// Ports and priorities that a filter's frames can have. They determine the filter's reachable queues.
#[derive(Clone, Copy)]
pub struct Reach {
    /// Whether the filter's frames can leave by each port, from port 1.
    pub ports: [bool; 16],
    /// Whether the filter's frames can have each priority, from 0.
    pub priorities: [bool; 8],
}

/// Returns a flag for each port, from port 1: whether frames with `handle` can leave by this port. If their destination addresses are
/// unknown, all flags are true.
///
/// `filter_reach` calls it.
fn reached_ports<A: Allocator + Copy>(plan: &Plan<A>, handle: Option<u32>) -> [bool; 16]
    ensures { result ≡ reached.test_results 16 (λ i. spec.reaches_port plan.now handle (i + 1)) }
{
    match handle {
        Some(handle) if are_null_kinds(handle, plan.streams()) => destination_ports(plan, handle),
        _ => [true; 16],
    }
}

/// Returns a flag for each priority, from 0: whether the frames of `filter` can have it. `filter_reach` calls it.
fn reached_priorities<A: Allocator + Copy>(plan: &Plan<A>, filter: &FilterPlan) -> [bool; 8]
    ensures { result ≡ reached.test_results 8 (spec.reaches_priority plan.now filter.now) }
{
    match find_gate(plan.gates(), filter.gate) {
        Some(gate) => given_priorities(&gate.schedule, filter.priority),
        None => [false; 8],
    }
}

/// Returns the reach of `filter`, in one pass through the plan's streams. `test_filter`, `plan_reaches` of `bridge_groups` and 9 more call
/// it.
pub fn filter_reach<A: Allocator + Copy>(plan: &Plan<A>, filter: &FilterPlan) -> Reach
    ensures { result ≡ reached.filter_reach plan.now filter.now }
{
    Reach {
        ports: reached_ports(plan, filter.handle),
        priorities: reached_priorities(plan, filter),
    }
}

/// Whether the frames of `filter` can enter the queue of class `class` at port `port`, 1 to 16. `queue_bound` of `bridge_bounds`,
/// `gate_work_bound` of `bridge_groups` and 6 more call it.
#[tactic(auto, using(crate::proofs::Told::unreached, crate::proofs::Told::in_reach))]
pub fn can_wait<A: Allocator + Copy>(
    plan: &Plan<A>,
    filter: &FilterPlan,
    port: u8,
    class: u8,
) -> bool
    requires from { 1 ≤ port }
    requires to { port ≤ 16 }
    ensures { result ≡ spec.reaches_queue plan.now filter.now port class }
{
    match plan.port(port) {
        Some(found) => filter_reach(plan, filter).has_queue(port, &found.classes, class),
        None => false,
    }
}

/// Whether the frames of `filter` can enter the queue of class `class` at `port`, by its known `reach`. Callers that test many queues
/// compute the reach once.
///
/// `is_sharer` of `bridge_groups`, `is_reached` of `net_latency`, and `found_or_can_wait` of `net_model` call it.
#[tactic(auto, using(crate::proofs::Told::in_reach))]
pub fn can_wait_in_reach<A: Allocator + Copy>(
    plan: &Plan<A>,
    filter: &FilterPlan,
    reach: &Reach,
    port: &PortPlan<A>,
    class: u8,
) -> bool
    requires reach { reach.now ≡ reached.filter_reach plan.now filter.now }
    requires from { 1 ≤ port.now.number }
    requires to { port.now.number ≤ 16 }
    requires port { find_port plan.now.ports port.now.number ≡ Some port.now }
    ensures { result ≡ spec.reaches_queue plan.now filter.now port.now.number class }
{
    reach.has_queue(port.number, &port.classes, class)
}

impl Reach {
    /// Whether the filter's frames can enter the queue of class `class` at port `port`. `classes` gives the class of each priority.
    ///
    /// `can_wait`, `can_wait_in_reach`, `reaches_queue` and `least_outsider` call it.
    pub(crate) fn has_queue(&self, port: u8, classes: &[u8; 8], class: u8) -> bool
        requires from { 1 ≤ port }
        requires to { port ≤ 16 }
        ensures { result ≡ reached.has_queue self.now port classes.now class }
    {
        self.ports[port as usize - 1] && self.has_class(classes, class)
    }

    /// Whether some priority that the frames can have has class `class`. `has_queue` calls it.
    fn has_class(&self, classes: &[u8; 8], class: u8) -> bool
        ensures { result ≡ reached.has_class self.now.priorities classes.now class }
    {
        let mut found = false;
        for k in 0..8usize {
            found = found || (self.priorities[k] && classes[k] == class);
        }
        found
    }
}
