//! The step that follows a queue of a hop: the end of the route, or the arrival at the next hop. `hop_latency` follows routes step by step.
ghost use Rattle.std.specs.Prelude.{◌≡◌, ◌+◌, ◌↔◌, IfSome, option_map, slice_get, true, ℕ};
ghost use Rattle.bridge_bounds.specs.Traffic.{IsTraffic};
ghost use Rattle.net_latency.specs.StreamLatency as spec;
ghost use Rattle.net_latency.specs.StreamLatency.{HasHeadroom, HopPasses, IsQueue, IsQueueExit, KeepsHeadroom, stream_model};

use crate::latency::StreamLatency;
use crate::next_hop::{NextHop, next_hop};
use crate::tree::HopQueue;
use bridge_bounds::{Phases, Timing, Traffic, find_filter, passes, queue_timing};
use bridge_check::Accepted;
use net_model::{Link, StreamHop};
use std::alloc::Allocator;

/// Everything that the delays of one stream depend on: plans, links, hops, reachable queues (`queues`), and the talker's first phase in ns
/// (`from`).
#[derive(Clone, Copy)]
pub(crate) struct StreamContext<'a, A: Allocator + Copy> {
    pub plans: &'a [Accepted<A>],
    pub links: &'a [Link],
    pub hops: &'a [StreamHop],
    pub queues: &'a [HopQueue],
    pub from: u64,
}

/// Arrival of a talker's frames at a hop, with their delays up to this hop.
#[derive(Clone, Copy)]
pub struct HopArrival {
    /// Period and lengths of the talker's frames, with the phases of their arrival at the hop.
    pub traffic: Traffic,
    /// Time in ns from the start of the talker's period to the start of the period in which `traffic` counts its phases.
    pub later: u128,
    /// Worst delay up to this hop, in ns.
    pub worst: u128,
    /// Best delay up to this hop, in ns.
    pub best: u128,
    /// Whether each frame passed all earlier hops.
    pub passes: bool,
}

/// Next step of frames that have left a queue of a hop: the route ends there, or leads over a link to the next hop.
#[derive(Clone, Copy)]
pub(crate) enum QueueExit {
    /// Delays of the whole route. It ends here, because the queue's port leads to no hop of the stream.
    Last(StreamLatency),
    /// The next hop, and the arrival of the frames there.
    Next(StreamHop, HopArrival),
}

/// Returns the plan of the bridge with index `bridge`, or `None` if the bridge is missing. `hop_passes` and `queue_exit` call it.
fn accepted_plan<'a, A: Allocator + Copy>(
    plans: &'a [Accepted<A>],
    bridge: u16,
) -> Option<&'a Accepted<A>>
    ensures { option_map (λ p. p.now) result ≡ slice_get plans.now bridge }
{
    plans.get(bridge as usize)
}

/// Returns whether each frame of the traffic passes the filter of a hop. Returns false if the bridge or the filter is missing.
/// `hop_latency` calls it.
pub(crate) fn hop_passes<A: Allocator + Copy>(
    plans: &[Accepted<A>],
    hop: StreamHop,
    traffic: &Traffic,
) -> bool
    requires { IsTraffic traffic.now }
    ensures { (result ≡ true) ↔ HopPasses (slice_get plans.now hop.bridge) hop.filter traffic.now }
{
    let Some(accepted) = accepted_plan(plans, hop.bridge) else {
        return false;
    };
    let plan = accepted.plan();
    match find_filter(plan.filters(), hop.filter) {
        None => false,
        Some(filter) => passes(plan, &filter, traffic),
    }
}

/// Returns the delays of a route that ends at a queue with delays `x` and phases `done`.
///
/// The worst delay is the lesser of two: the sum of worst delays, and the time from phase `from` ns to the last of `done`.
///
/// `exit_over_link` calls it.
fn latency_at_last_queue(
    from: u64,
    came: &HopArrival,
    x: &Timing,
    done: Phases,
    passes: bool,
) -> StreamLatency
    requires { HasHeadroom 1 came.now }
    ensures { result ≡ spec.latency_at_last_queue from came.now x.now done passes }
{
    let end = (came.later + done.to as u128).saturating_sub(from as u128);
    StreamLatency {
        passes: came.passes && passes,
        worst: end.min(came.worst + x.worst as u128),
        best: came.best + x.best as u128,
        phases: done,
    }
}

/// Returns the arrival at the next hop over a link of `delay` ns. `x` and `done` are the queue's delays and phases. Returns `None` if
/// phases of arrival lie in two periods. `exit_over_link` calls it.
fn next_hop_arrival(
    came: &HopArrival,
    x: &Timing,
    done: Phases,
    delay: u64,
    passes: bool,
) -> Option<HopArrival>
    requires traffic { IsTraffic came.now.traffic }
    requires room { HasHeadroom 1 came.now }
    ensures coming { result ≡ spec.next_hop_arrival came.now x.now done delay passes }
    ensures traffic { IfSome result (λ a. IsTraffic a.traffic) }
    ensures room { (k : ℕ) → HasHeadroom (k + 1) came.now → IfSome result (HasHeadroom k) }
{
    let period = came.traffic.period as u128;
    let start = done.from as u128 + delay as u128;
    let end = done.to as u128 + delay as u128;
    let from = start % period;
    let whole = start - from;
    let to = end.saturating_sub(whole);
    if to < from || period <= to {
        return None;
    }
    Some(HopArrival {
        traffic: Traffic {
            period: came.traffic.period,
            from: from as u64,
            to: to as u64,
            least: came.traffic.least,
            longest: came.traffic.longest,
        },
        later: came.later + whole,
        worst: came.worst + x.worst as u128 + delay as u128,
        best: came.best + x.best as u128 + delay as u128,
        passes: came.passes && passes,
    })
}

/// Returns the next step of frames that leave a queue in the phases `done`. They go to hop `onward` or, for `None`, to the route's end.
/// `from` is a phase in ns.
///
/// Returns `None` if phases lie in two periods. `queue_exit` calls it.
fn exit_over_link(
    from: u64,
    came: &HopArrival,
    x: &Timing,
    done: Phases,
    passes: bool,
    onward: Option<NextHop>,
) -> Option<QueueExit>
    requires traffic { IsTraffic came.now.traffic }
    requires room { HasHeadroom 1 came.now }
    ensures goes { result ≡ spec.exit_over_link from came.now x.now done passes onward }
    ensures keeps { (k : ℕ) → HasHeadroom (k + 1) came.now → IfSome result (KeepsHeadroom k) }
{
    match onward {
        None => Some(QueueExit::Last(latency_at_last_queue(from, came, x, done, passes))),
        Some(onward) => {
            let next = next_hop_arrival(came, x, done, onward.delay, passes)?;
            Some(QueueExit::Next(onward.hop, next))
        }
    }
}

/// Returns the next step of frames that leave `queue`; `came` is their arrival at the queue's hop. Returns `None` if phases are unknown or
/// lie in two periods, or the bridge is missing.
///
/// `queue_latency` calls it.
pub(crate) fn queue_exit<A: Allocator + Copy>(
    case: &StreamContext<'_, A>,
    queue: &HopQueue,
    came: &HopArrival,
    passes: bool,
) -> Option<QueueExit>
    requires queue { IsQueue queue.now }
    requires traffic { IsTraffic came.now.traffic }
    requires room { HasHeadroom 1 came.now }
    ensures stop { IsQueueExit (stream_model case.now) queue.now came.now passes result }
    ensures keeps { (k : ℕ) → HasHeadroom (k + 1) came.now → IfSome result (KeepsHeadroom k) }
{
    let accepted = accepted_plan(case.plans, queue.hop.bridge)?;
    let x = queue_timing(
        accepted,
        queue.hop.filter,
        queue.port,
        queue.class,
        &came.traffic,
    )?;
    let done = x.phases?;
    let onward = next_hop(case.links, case.hops, queue.hop.bridge, queue.port);
    exit_over_link(case.from, came, &x, done, passes, onward)
}
