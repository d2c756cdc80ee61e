//! Phases and delays of a periodic talker's frames in a queue.
ghost use Rattle.std.specs.Prelude.{◌≡◌, ◌-◌, ◌<◌, ◌≤◌, MatchOption, None, Some, true};
ghost use Rattle.bridge_cycle.specs.declared.cyclic_list.TheConstants.{LONGEST_CYCLE};
ghost use Rattle.bridge_frame.specs.Link.{transmission_time};
ghost use Rattle.bridge_port.specs.GateSchedule.{HasLawfulLists, can_fit, lists_can_fit, gate_schedule};
ghost use Rattle.bridge_config.specs.Rules.{IsPlan};
ghost use Rattle.bridge_check.specs.Acceptable.{IsAcceptable};
ghost use Rattle.bridge_check.specs.Windows.{longest_frame};
ghost use Rattle.bridge_bounds.specs.Bounds.{HasNoBound, IsQueueBound};
ghost use Rattle.bridge_bounds.specs.Timings.{IsTimingWithPhases, IsTiming, IsPortTiming, IsTimingWithoutPhases};
ghost use Rattle.bridge_bounds.specs.Traffic.{IsTraffic};

use crate::queue_bounds::{find_filter, queue_bound};
use crate::traffic::Traffic;
use crate::waits::port_waits;
use bridge_check::Accepted;
use bridge_config::{Plan, PortPlan};
use bridge_cycle::Egress;
use bridge_frame::occupation;
use bridge_limits::LONGEST_FRAME;
use std::alloc::Allocator;

/// Earliest and latest end of a transmission, in ns from the start of a period; the latest may lie in the next period.
#[derive(Clone, Copy, Debug, PartialEq, Eq)]
pub struct Phases {
    /// Earliest end of transmission, in ns from the start of a period.
    pub from: u64,
    /// Latest end of transmission, in ns from the start of a period.
    pub to: u64,
}

/// Delays of a periodic talker's frames in one queue, in ns, from arrival to the end of transmission.
#[derive(Clone, Copy, Debug, PartialEq, Eq)]
pub struct Timing {
    /// Worst delay in ns, from arrival to the end of transmission.
    pub worst: u64,
    /// Best delay in ns, from arrival to the end of transmission.
    pub best: u64,
    /// Phases of the ends of transmission. `None` if the lists don't repeat with the period, or a frame may still wait when the next one
    /// arrives.
    pub phases: Option<Phases>,
}

/// Returns worst delay `bound` and best delay `short` in ns, without phases. `timing_by_lists` calls it if the lists don't repeat with the
/// period, or a frame may wait when the next one arrives.
fn timing_without_phases(bound: u64, short: u64) -> Timing
    requires { short ≤ bound }
    ensures { result ≡ record { worst = bound; best = short; phases = None } }
{
    Timing {
        worst: bound,
        best: short,
        phases: None,
    }
}

/// Returns the delays of frames with transmission times from `short` to `long` ns in a class of a port. The queue's delay bound limits the
/// worst delay. `port_timing` calls it.
fn timing_by_lists<A: Allocator + Copy>(
    lists: &Option<Egress<A>>,
    class: u8,
    short: u64,
    long: u64,
    bound: u64,
    traffic: &Traffic,
) -> Timing
    requires class { class < 8 }
    requires some { 1 ≤ short }
    requires lengths { short ≤ long }
    requires long { long ≤ LONGEST_CYCLE }
    requires bound { short ≤ bound }
    requires traffic { IsTraffic traffic.now }
    requires ever { can_fit (gate_schedule lists.now) class long ≡ true }
    ensures { MatchOption result.phases (IsTimingWithoutPhases (gate_schedule lists.now) class short long bound
        traffic.now result)
        (IsTimingWithPhases (gate_schedule lists.now) class short long bound traffic.now result) }
{
    let Some(waits) = port_waits(lists, class, short, long, traffic) else {
        return timing_without_phases(bound, short);
    };
    let done = Phases {
        from: waits.first + short,
        to: waits.last + long,
    };
    if done.to > traffic.from + traffic.period {
        return timing_without_phases(bound, short);
    }
    Timing {
        worst: bound.min((done.to - traffic.from).min(waits.longest + long)),
        best: waits.first.saturating_sub(traffic.to) + short,
        phases: Some(done),
    }
}

/// Returns the delays of traffic in a class of a port. `bound` is the queue's delay bound in ns; the filter's maximum SDU `sdu` limits the
/// transmission times. `filter_timing` calls it.
fn port_timing<A: Allocator + Copy>(
    port: &PortPlan<A>,
    class: u8,
    sdu: u32,
    bound: u64,
    traffic: &Traffic,
) -> Timing
    requires class { class < 8 }
    requires sdu { sdu ≤ 65535 }
    requires bound { transmission_time (longest_frame sdu) port.now.speed ≤ bound }
    requires made { HasLawfulLists (gate_schedule port.now.list) }
    requires traffic { IsTraffic traffic.now }
    requires ever { lists_can_fit port.now.list class (transmission_time (longest_frame sdu) port.now.speed) ≡ true }
    ensures { IsPortTiming port.now class sdu bound traffic.now result }
{
    let longest = (sdu + 16).min(LONGEST_FRAME);
    let short = occupation(traffic.least.min(longest), port.speed);
    let long = occupation(traffic.longest.min(longest), port.speed);
    timing_by_lists(&port.list, class, short, long, bound, traffic)
}

/// Returns the delays of traffic in a queue that filter `number` can reach. `bound` is the queue's delay bound in ns. Returns `None` if the
/// filter is missing or has no maximum SDU.
///
/// `queue_timing` calls it.
fn filter_timing<A: Allocator + Copy>(
    plan: &Plan<A>,
    number: u32,
    port: u8,
    class: u8,
    bound: u64,
    traffic: &Traffic,
) -> Option<Timing>
    requires class { class < 8 }
    requires rules { IsPlan plan.now }
    requires acceptable { IsAcceptable plan.now }
    requires bound { IsQueueBound plan.now number port class bound }
    requires traffic { IsTraffic traffic.now }
    ensures { (x : Timing) × (result ≡ Some x) × IsTiming plan.now number port class traffic.now x }
{
    let sdu = find_filter(plan.filters(), number)?.max_sdu?;
    let out = plan.port(port)?;
    Some(port_timing(out, class, sdu, bound, traffic))
}

/// Returns the delays of a protected filter's frames in one queue if they keep `traffic`. Ignores frames above the filter's maximum SDU.
/// Returns `None` if the queue isn't reachable. Allocates no memory.
///
/// `shifted_times` of `net_check`, and `queue_exit` and `push_queue_timing` of `net_latency` call it.
pub fn queue_timing<A: Allocator + Copy>(
    accepted: &Accepted<A>,
    number: u32,
    port: u8,
    class: u8,
    traffic: &Traffic,
) -> Option<Timing>
    requires from { 1 ≤ port }
    requires to { port ≤ 16 }
    requires class { class < 8 }
    requires traffic { IsTraffic traffic.now }
    ensures { MatchOption result (HasNoBound accepted.now number port class)
        (IsTiming accepted.now number port class traffic.now) }
{
    let bound = queue_bound(accepted, number, port, class)?;
    filter_timing(accepted.plan(), number, port, class, bound, traffic)
}
