//! Delays of a periodic talker's frames over all routes through the hops of its stream.
ghost use Rattle.std.specs.Prelude.{◌≡◌, ◌+◌, ◌≤◌, All, length};
ghost use Rattle.bridge_bounds.specs.Traffic.{IsTraffic};
ghost use Rattle.net_latency.specs.StreamLatency as spec;
ghost use Rattle.net_latency.specs.StreamLatency.{AddsQueueLatency, HasHeadroom, IsStreamLatency, IsQueue, IsQueueLatency, IsHopLatency, stream_model};

use crate::queue_exit::{HopArrival, QueueExit, StreamContext, hop_passes, queue_exit};
use crate::tree::{HopQueue, is_tree};
use bridge_bounds::{Phases, Traffic};
use bridge_check::Accepted;
use net_model::{Link, StreamHop};
use std::alloc::Allocator;

/// Delays in ns of a periodic talker's frames, from arrival at the first hop to the end of transmission at a last hop.
#[derive(Clone, Copy)]
pub struct StreamLatency {
    /// Whether each frame passes the filters of all hops; if false, a frame may be refused.
    pub passes: bool,
    /// Worst delay in ns.
    pub worst: u128,
    /// Best delay in ns.
    pub best: u128,
    /// Phases of the ends of transmission at a last hop, in ns from the start of a period.
    pub phases: Phases,
}

/// Delays over the routes from one hop on. `hop_latency` adds the hop's queues to it, one after the other.
#[derive(Clone, Copy)]
pub(crate) enum CombinedLatency {
    /// No queue was added.
    NoQueue,
    /// Delays that hold for each added queue. `None` if the delays of a queue are unknown.
    Latency(Option<StreamLatency>),
}

/// Returns the least range of phases that includes both ranges. `combine` calls it for two routes.
fn both_phases(a: Phases, b: Phases) -> Phases
    ensures { result ≡ spec.both_phases a b }
{
    Phases {
        from: a.from.min(b.from),
        to: a.to.max(b.to),
    }
}

/// Returns delays that hold for two routes with delays `a` and `b`: the greater worst and the lesser best delay. `combine_if_both` calls
/// it.
fn combine(a: StreamLatency, b: StreamLatency) -> StreamLatency
    ensures { result ≡ spec.combine a b }
{
    StreamLatency {
        passes: a.passes && b.passes,
        worst: a.worst.max(b.worst),
        best: a.best.min(b.best),
        phases: both_phases(a.phases, b.phases),
    }
}

/// Returns delays that hold for two routes. Returns `None` if the delays of at least one route are unknown. `add_latency` calls it.
fn combine_if_both(a: Option<StreamLatency>, b: Option<StreamLatency>) -> Option<StreamLatency>
    ensures { result ≡ spec.combine_if_both a b }
{
    match (a, b) {
        (Some(a), Some(b)) => Some(combine(a, b)),
        _ => None,
    }
}

/// Returns `gathered` with the delays `more` of one more queue. Unknown delays (`None`) make the result unknown. `add_queue_latency` calls
/// it.
fn add_latency(gathered: CombinedLatency, more: Option<StreamLatency>) -> CombinedLatency
    ensures { result ≡ spec.add_latency gathered more }
{
    match gathered {
        CombinedLatency::NoQueue => CombinedLatency::Latency(more),
        CombinedLatency::Latency(figures) => CombinedLatency::Latency(combine_if_both(
            figures, more,
        )),
    }
}

/// Returns the delays of all added queues. Returns `None` if no queue was added or a queue's delays are unknown. `hop_latency` calls it.
fn known_latency(gathered: CombinedLatency) -> Option<StreamLatency>
    ensures { result ≡ spec.known_latency gathered }
{
    match gathered {
        CombinedLatency::NoQueue => None,
        CombinedLatency::Latency(figures) => figures,
    }
}

/// Returns whether a queue belongs to hop `hop`. Compares only bridges: the hops of a tree are at different bridges. `add_queue_latency`
/// calls it.
fn is_queue_of_hop(hop: StreamHop, queue: &HopQueue) -> bool
    ensures { result ≡ spec.is_queue_of_hop hop queue.now }
{
    queue.hop.bridge == hop.bridge
}

/// Returns the delays over all routes from `queue` through at most `depth` later hops, or `None` if they are unknown.
///
/// `came` is the arrival at the queue's hop; `passes` is true if the hop's filter passes each frame. `add_queue_latency` calls it.
#[cycle(hop_latency)]
fn queue_latency<A: Allocator + Copy>(
    case: &StreamContext<'_, A>,
    depth: usize,
    queue: &HopQueue,
    came: &HopArrival,
    passes: bool,
) -> Option<StreamLatency>
    requires queues { All IsQueue case.now.queues.now }
    requires queue { IsQueue queue.now }
    requires traffic { IsTraffic came.now.traffic }
    requires room { HasHeadroom (depth + 1) came.now }
    ensures { IsQueueLatency (IsHopLatency (stream_model case.now) depth) (stream_model case.now) came.now passes
        queue.now result }
{
    let stop = queue_exit(case, queue, came, passes)?;
    match stop {
        QueueExit::Last(course) => Some(course),
        QueueExit::Next(next, coming) => hop_latency(case, depth, next, &coming),
    }
}

/// Returns `gathered`, with the delays of `queue` added if it belongs to `hop`. `depth` is the number of hops that may follow.
/// `hop_latency` calls it for each queue.
#[cycle(hop_latency)]
fn add_queue_latency<A: Allocator + Copy>(
    case: &StreamContext<'_, A>,
    depth: usize,
    hop: StreamHop,
    came: &HopArrival,
    passes: bool,
    queue: &HopQueue,
    gathered: CombinedLatency,
) -> CombinedLatency
    requires queues { All IsQueue case.now.queues.now }
    requires queue { IsQueue queue.now }
    requires traffic { IsTraffic came.now.traffic }
    requires room { HasHeadroom (depth + 1) came.now }
    ensures { AddsQueueLatency (IsHopLatency (stream_model case.now) depth)
        (stream_model case.now) hop came.now passes queue.now gathered result }
{
    if !is_queue_of_hop(hop, queue) {
        return gathered;
    }
    let told = queue_latency(case, depth, queue, came, passes);
    add_latency(gathered, told)
}

/// Returns the delays over all routes that begin at `hop` and have at most `depth` hops. Frames arrive at `hop` as `came` describes.
/// Returns `None` if they are unknown. `queue_latency` and `stream_latency` call it.
#[cycle(hop_latency)]
fn hop_latency<A: Allocator + Copy>(
    case: &StreamContext<'_, A>,
    depth: usize,
    hop: StreamHop,
    came: &HopArrival,
) -> Option<StreamLatency>
    requires queues { All IsQueue case.now.queues.now }
    requires traffic { IsTraffic came.now.traffic }
    requires room { HasHeadroom depth came.now }
    ensures { IsHopLatency (stream_model case.now) depth hop came.now result }
{
    if depth == 0 {
        return None;
    }
    let passes = hop_passes(case.plans, hop, &came.traffic);
    let queues = case.queues;
    let mut gathered = CombinedLatency::NoQueue;
    for queue in queues {
        gathered = add_queue_latency(case, depth - 1, hop, came, passes, queue, gathered);
    }
    known_latency(gathered)
}

/// Returns the arrival of a talker's frames at the first hop: no delay yet, and all frames passed. `stream_latency` calls it.
fn first_hop_arrival(traffic: &Traffic) -> HopArrival
    ensures { result ≡ spec.first_hop_arrival traffic.now }
{
    HopArrival {
        traffic: *traffic,
        later: 0,
        worst: 0,
        best: 0,
        passes: true,
    }
}

/// Returns the delays of a periodic talker's frames over all routes. Returns `None` if the hops are no tree, a hop has no queue, or phases
/// are unknown. `checked_stream_latency` calls it.
pub fn stream_latency<A: Allocator + Copy>(
    plans: &[Accepted<A>],
    links: &[Link],
    hops: &[StreamHop],
    queues: &[HopQueue],
    traffic: &Traffic,
) -> Option<StreamLatency>
    requires few { length hops.now ≤ 64 }
    requires queues { All IsQueue queues.now }
    requires traffic { IsTraffic traffic.now }
    ensures { IsStreamLatency plans.now links.now hops.now queues.now traffic.now result }
{
    let first = *hops.first()?;
    if !is_tree(links, hops, queues, first) {
        return None;
    }
    let case = StreamContext {
        plans,
        links,
        hops,
        queues,
        from: traffic.from,
    };
    hop_latency(&case, hops.len(), first, &first_hop_arrival(traffic))
}
