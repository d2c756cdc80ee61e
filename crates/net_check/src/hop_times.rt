//! Times of a periodic talker's frames at each hop of a stream: arrival, waiting time and end of transmission. Explanations print them, and
//! use them to search for changes.
ghost use Rattle.std.specs.Prelude.{◌≡◌, ◌<◌, ◌≤◌, All, IfSome};
ghost use Rattle.bridge_limits.specs.declared.TheConstants.{END_OF_TIME};
ghost use Rattle.net_file.specs.Rules.{IsTalker};
ghost use Rattle.bridge_bounds.specs.Traffic.{IsTraffic};
ghost use Rattle.net_latency.specs.Bounds.{HasValidPort};

use crate::refusable_streams::{phases_after_link, traffic_with_phases};
use bridge_bounds::{Phases, Traffic, find_filter, passes, queue_timing};
use bridge_check::Accepted;
use bridge_config::Plan;
use bridge_frame::occupation;
use bridge_limits::{END_OF_TIME, LONGEST_FRAME};
use net_file::Talker;
use net_latency::{QueueBound, bounds_of_bridge};
use net_model::{Link, Network, StreamHop, is_bridge_port, peer_port};
use std::alloc::Global;

/// Shift of a port's gate control list, which an explanation proposes. `Changes` has at most one for each port.
#[derive(Clone, Copy)]
pub(crate) struct ListShift {
    /// Index of the bridge, from 0.
    pub bridge: u16,
    /// Port number, 1 to 16.
    pub port: u8,
    /// Time in ns by which the list begins earlier than in the plan. It is less than the cycle time.
    pub earlier: u64,
    /// Number of the search pass, from 0, in which a late stream last used the port, or `PASSES` if none did.
    pub pass: u32,
}

/// A stream with a periodic talker in an accepted network: everything that `hop_times` needs besides changes.
#[derive(Clone, Copy)]
pub(crate) struct StreamRoute<'a> {
    /// Accepted network of the stream.
    pub network: &'a Network<Global>,
    /// Delay bounds of each bridge's queues.
    pub bounds: &'a [Vec<QueueBound>],
    /// Hops of the stream, talker first.
    pub hops: &'a [StreamHop],
    /// The talker. Functions take the phases at the first hop as a parameter, because changes can replace the talker's own.
    pub talker: Talker,
}

/// Arrival of a talker's frames at a hop. `hop_times` collects arrivals, and computes each hop's times from its arrival.
#[derive(Clone, Copy)]
struct HopArrival {
    /// Hop at which the frames arrive.
    hop: StreamHop,
    /// Earliest and latest arrival in ns from the start of a period.
    phases: Phases,
    /// Time in ns from the start of the talker's period to the start of the period in which `phases` count.
    later: u128,
    /// Sum of the hops' worst delays and of link delays before this arrival, in ns.
    worst: u128,
    /// Sum of the longest frame's transmission times and of link delays up to this arrival, in ns.
    shortest: u128,
}

/// Times of a talker's frames in one queue of a hop. Phases are in ns from the start of the period in which the frame arrives at the hop.
#[derive(Clone, Copy)]
pub(crate) struct HopTimes {
    /// Hop to which the queue belongs.
    pub hop: StreamHop,
    /// Whether this is the stream's first hop, which receives the frames from the talker.
    pub is_first: bool,
    /// Port number, 1 to 16.
    pub port: u8,
    /// Class of the queue, 0 to 7.
    pub class: u8,
    /// Earliest and latest arrival.
    pub arrives: Phases,
    /// Earliest and latest end of transmission.
    pub leaves: Phases,
    /// Longest waiting time of a frame before its transmission, in ns.
    pub longest_wait: u64,
    /// Waiting time in ns of the longest frame before its transmission, if the frame arrives at the latest phase.
    pub last_wait: u64,
    /// Sum of the hops' worst delays and of link delays up to the end of this transmission, in ns.
    total: u128,
    /// Worst delay in ns from arrival at the first hop to the end of this transmission.
    pub worst: u128,
    /// Sum of the longest frame's transmission times and of link delays up to the end of this transmission, in ns.
    pub shortest: u128,
    /// Whether the hop's filter passes each frame of the talker.
    pub passes: bool,
}

/// Times of the frames in one queue, without the delays at earlier hops. `times_in_queue` adds these delays.
#[derive(Clone, Copy)]
struct QueueTimes {
    /// Earliest and latest end of transmission, in ns from the start of the period.
    leaves: Phases,
    /// Worst delay in ns from arrival to the end of transmission.
    worst: u64,
}

/// Returns the time in ns by which the list of port `port` of bridge `bridge` begins earlier, by its last item in `shifts`. Returns 0 if
/// `shifts` has no item for the port.
///
/// `relieve_list`, `keep_ports` and 2 more call it.
pub(crate) fn shift_of_port(shifts: &[ListShift], bridge: u16, port: u8) -> u64 {
    let mut earlier = 0;
    for shift in shifts {
        if shift.bridge == bridge && shift.port == port {
            earlier = shift.earlier;
        }
    }
    earlier
}

/// Returns the times of a stream's frames in each queue of each hop, first hop first. `sent` has the phases at the first hop. Returns
/// `None` if phases are unknown or memory runs out.
///
/// `can_meet`, `changed_times` and `put_times_of_stream` call it.
pub(crate) fn hop_times(
    alloc: Global,
    route: &StreamRoute<'_>,
    sent: Phases,
    shifts: &[ListShift],
) -> Option<Vec<HopTimes>>
    requires placed { All (λ v. All HasValidPort v.items) route.now.bounds.now }
    requires talker { IsTalker route.now.talker }
{
    let first = HopArrival {
        hop: *route.hops.first()?,
        phases: sent,
        later: 0,
        worst: 0,
        shortest: 0,
    };
    let mut arrivals = Vec::new(alloc);
    let mut times = Vec::new(alloc);
    arrivals.push(first).ok()?;
    for index in 0..route.hops.len() {
        if let Some(arrival) = arrivals.get(index).copied() {
            put_hop_times(route, arrival, sent.from, shifts, &mut arrivals, &mut times)?;
        }
    }
    Some(times)
}

/// Appends the times of the arrival's hop to `times`, and arrivals at the next hops to `arrivals`. `sent` is the talker's first phase in
/// ns. Returns `None` if phases are unknown or memory runs out.
///
/// `hop_times` calls it.
fn put_hop_times(
    route: &StreamRoute<'_>,
    arrival: HopArrival,
    sent: u64,
    shifts: &[ListShift],
    arrivals: &mut Vec<HopArrival>,
    times: &mut Vec<HopTimes>,
) -> Option<()>
    requires placed { All (λ v. All HasValidPort v.items) route.now.bounds.now }
    requires talker { IsTalker route.now.talker }
{
    let is_first = times.is_empty();
    let rows = bounds_of_bridge(route.bounds, arrival.hop.bridge);
    put_queues_of_hop(
        route, rows, arrival, sent, is_first, shifts, arrivals, times,
    )
}

/// Appends the times of the queues in `rows` that belong to the hop's filter to `times`, and arrivals at the next hops to `arrivals`.
///
/// `sent` is the talker's first phase in ns; `is_first` marks the first hop. Returns `None` if phases are unknown or memory runs out.
/// `put_hop_times` calls it.
fn put_queues_of_hop(
    route: &StreamRoute<'_>,
    rows: &[QueueBound],
    arrival: HopArrival,
    sent: u64,
    is_first: bool,
    shifts: &[ListShift],
    arrivals: &mut Vec<HopArrival>,
    times: &mut Vec<HopTimes>,
) -> Option<()>
    requires rows { All HasValidPort rows.now }
    requires talker { IsTalker route.now.talker }
{
    for row in rows {
        if row.filter == arrival.hop.filter {
            let found = times_in_queue(route, row, arrival, sent, is_first, shifts)?;
            put_next_arrival(route, &found, arrival, arrivals)?;
            times.push(found).ok()?;
        }
    }
    Some(())
}

/// Returns the times of the frames of `arrival` in the queue of `row`. `sent` is the talker's first phase in ns. `is_first` is true at the
/// stream's first hop.
///
/// Returns `None` if phases are unknown, the plan lacks the filter or the port, or the filter has no `max_sdu`.
///
/// `put_queues_of_hop` calls it.
fn times_in_queue(
    route: &StreamRoute<'_>,
    row: &QueueBound,
    arrival: HopArrival,
    sent: u64,
    is_first: bool,
    shifts: &[ListShift],
) -> Option<HopTimes>
    requires row { HasValidPort row.now }
    requires talker { IsTalker route.now.talker }
{
    let hop = arrival.hop;
    let accepted = route.network.plans().get(hop.bridge as usize)?;
    let traffic = traffic_with_phases(&route.talker, arrival.phases.from, arrival.phases.to)?;
    let earlier = shift_of_port(shifts, hop.bridge, row.port);
    let queue = shifted_times(accepted, row, &traffic, earlier)?;
    let longest = longest_transmission(accepted.plan(), row, &traffic)?;
    let end = arrival.later.saturating_add(u128::from(queue.leaves.to));
    let total = arrival.worst.saturating_add(u128::from(queue.worst));
    Some(HopTimes {
        hop,
        is_first,
        port: row.port,
        class: row.class,
        arrives: arrival.phases,
        leaves: queue.leaves,
        longest_wait: queue.worst.saturating_sub(longest),
        last_wait: queue
            .leaves
            .to
            .saturating_sub(arrival.phases.to)
            .saturating_sub(longest),
        total,
        worst: end.saturating_sub(u128::from(sent)).min(total),
        shortest: arrival.shortest.saturating_add(u128::from(longest)),
        passes: passes_hop(accepted.plan(), row.filter, &traffic),
    })
}

/// Returns whether the filter passes each frame of the traffic, and false if the plan lacks the filter. `times_in_queue` calls it.
fn passes_hop(plan: &Plan<Global>, filter: u32, traffic: &Traffic) -> bool
    requires { IsTraffic traffic.now }
{
    match find_filter(plan.filters(), filter) {
        None => false,
        Some(filter) => passes(plan, &filter, traffic),
    }
}

/// Returns the transmission time in ns of the longest frame that the filter passes. Returns `None` if the plan lacks filter or port, or the
/// filter has no `max_sdu`. `times_in_queue` calls it.
fn longest_transmission(plan: &Plan<Global>, row: &QueueBound, traffic: &Traffic) -> Option<u64> {
    let sdu = find_filter(plan.filters(), row.filter)?.max_sdu?;
    let longest = sdu.saturating_add(16).min(LONGEST_FRAME);
    let speed = plan.port(row.port)?.speed;
    Some(occupation(traffic.longest.min(longest), speed))
}

/// Returns the times of `traffic` in a queue whose list begins earlier by `shift` ns, computed with traffic delayed by `shift` instead.
///
/// Returns `None` if phases are unknown, or a transmission may end after the next period's earliest arrival. `times_in_queue` calls it.
fn shifted_times(
    accepted: &Accepted<Global>,
    row: &QueueBound,
    traffic: &Traffic,
    shift: u64,
) -> Option<QueueTimes>
    requires row { HasValidPort row.now }
    requires traffic { IsTraffic traffic.now }
{
    let shifted = shifted_traffic(traffic, shift)?;
    let timing = queue_timing(accepted, row.filter, row.port, row.class, &shifted)?;
    let done = timing.phases?;
    if done.to > shifted.from.saturating_add(traffic.period) {
        return None;
    }
    Some(QueueTimes {
        leaves: Phases {
            from: done.from.saturating_sub(shift),
            to: done.to.saturating_sub(shift),
        },
        worst: timing.worst,
    })
}

/// Returns `traffic` delayed by `shift` ns, with twice the period, so that the delayed phases lie in one period. If `shift` is 0, returns
/// `traffic` unchanged.
///
/// Returns `None` if `shift` isn't less than the old period, or the new period is too long. `shifted_times` calls it.
fn shifted_traffic(traffic: &Traffic, shift: u64) -> Option<Traffic>
    requires { IsTraffic traffic.now }
    ensures { IfSome result IsTraffic }
{
    if shift == 0 {
        return Some(*traffic);
    }
    if shift >= traffic.period || traffic.period > END_OF_TIME / 2 {
        return None;
    }
    Some(Traffic {
        period: traffic.period * 2,
        from: traffic.from + shift,
        to: traffic.to + shift,
        least: traffic.least,
        longest: traffic.longest,
    })
}

/// Appends to `arrivals` the arrival at the hop after the queue of `found`, if the queue's port leads to a hop. Returns `None` if memory
/// runs out. `put_queues_of_hop` calls it.
fn put_next_arrival(
    route: &StreamRoute<'_>,
    found: &HopTimes,
    arrival: HopArrival,
    arrivals: &mut Vec<HopArrival>,
) -> Option<()> {
    let links = route.network.links();
    let Some((hop, delay)) = hop_over_link(links, route.hops, found.hop.bridge, found.port) else {
        return Some(());
    };
    let (phases, whole) = phases_after_link(found.leaves, delay, route.talker.period);
    let next = HopArrival {
        hop,
        phases,
        later: arrival.later.saturating_add(whole),
        worst: found.total.saturating_add(u128::from(delay)),
        shortest: found.shortest.saturating_add(u128::from(delay)),
    };
    arrivals.push(next).ok()
}

/// Returns the stream's first hop at the other end of the link of a port of bridge `bridge`, and the link's delay in ns. Returns `None`
/// without link or hop. `put_next_arrival` calls it.
fn hop_over_link(
    links: &[Link],
    hops: &[StreamHop],
    bridge: u16,
    port: u8,
) -> Option<(StreamHop, u64)> {
    let end = peer_port(links, bridge, port)?;
    for hop in hops {
        if hop.bridge == end.bridge {
            return Some((*hop, delay_at_port(links, bridge, port)));
        }
    }
    None
}

/// Returns the delay in ns of the link at port `port` of bridge `bridge`; 0 for an open port. `hop_over_link` calls it.
fn delay_at_port(links: &[Link], bridge: u16, port: u8) -> u64 {
    for link in links {
        if is_bridge_port(link.one, bridge, port) || is_bridge_port(link.other, bridge, port) {
            return link.delay;
        }
    }
    0
}

/// Returns the worst delay of a stream in ns: the greatest worst delay up to any of its queues. Explanations compare it with the deadline.
/// `is_in_time` and `put_deadline` call it.
pub(crate) fn worst_delay(times: &[HopTimes]) -> u128 {
    let mut worst = 0;
    for hop in times {
        worst = hop.worst.max(worst);
    }
    worst
}

/// Returns the worst delay in ns that a stream would have if no frame waited: transmission times and link delays only. A stream can't meet
/// a shorter deadline. `can_meet` and `put_deadline` call it.
pub(crate) fn delay_without_waits(times: &[HopTimes]) -> u128 {
    let mut shortest = 0;
    for hop in times {
        shortest = hop.shortest.max(shortest);
    }
    shortest
}
