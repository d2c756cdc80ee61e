//! Delays of a network's streams, from talker to listener, and the lines about them that `net check` prints.
ghost use Rattle.std.specs.Prelude.{All, ◌≡◌, ◌&&◌, ◌≤◌, ◌*◌, ◌^◌, length, map, slice_get, sum_by, IfOk, string_bytes};
ghost use Rattle.bridge_text.specs.Growth.{HasGrown};
ghost use Rattle.std.specs.Option.{ForSome};
ghost use Rattle.net_file.specs.Model.{Stream};
ghost use Rattle.net_file.specs.Rules.{IsTalker};
ghost use Rattle.net_latency.specs.Bounds.{HasValidPort};
ghost use Rattle.net_latency.specs.Streams as spec;
ghost use Rattle.net_latency.specs.Streams.{AreQueueBoundsOfPlans, filter_bound, greater_bound, greater_delay, hop_bound, hop_delay, has_hop_at_bridge, is_joining_link, link_delay, bounds_if_any, stream_bound};
ghost use Rattle.net_latency.specs.Talkers.{AreStreamLines};
ghost use Rattle.net_latency.specs.Traffic.{is_met};

use crate::bounds::QueueBound;
use crate::latency::StreamLatency;
use crate::talkers::talker_latency;
use crate::tight::least_queue_bounds;
use crate::timings;
use crate::timings::{put_deadline, put_delays};
use bridge_check::Accepted;
use bridge_limits::NoMemory;
use bridge_text::TextBuilder;
use net_file::{LinkRow, StreamRow, Talker};
use net_model::Network;
use std::alloc::Allocator;

/// Returns for each plan the least delay bounds of its reachable queues, in the order of `plans`. `net check` computes them once for all
/// streams.
///
/// `draw_with_bounds` of `app_networks`, `explain_network_streams` of `net_check` and 3 more call it.
pub fn all_queue_bounds<A: Allocator + Copy>(
    alloc: A,
    plans: &[Accepted<A>],
) -> Result<Vec<Vec<QueueBound, A>, A>, NoMemory>
    ensures bounds { IfOk result (λ bounds. AreQueueBoundsOfPlans plans.now bounds.items) }
    ensures placed { IfOk result (λ bounds. All (λ v. All HasValidPort v.items) bounds.items) }
{
    let mut bounds = Vec::new(alloc);
    for accepted in plans {
        let Ok(rows) = least_queue_bounds(alloc, accepted) else {
            return Err(NoMemory);
        };
        let Ok(()) = bounds.push(rows) else {
            return Err(NoMemory);
        };
    }
    Ok(bounds)
}

/// Returns the greater of `most` and the bound of `row` in ns if `row` has filter `filter`, otherwise `most`. `filter_bound` calls it for
/// each row.
fn greater_bound(filter: u32, most: u64, row: &QueueBound) -> u64
    ensures { result ≡ greater_bound filter most row.now }
{
    if row.filter == filter {
        most.max(row.bound)
    } else {
        most
    }
}

/// Returns the greatest delay bound in ns of a filter's queues in `rows`; 0 if it has none. `hop_bound` calls it.
fn filter_bound(filter: u32, rows: &[QueueBound]) -> u64
    ensures { result ≡ filter_bound filter rows.now }
{
    let mut greatest = 0u64;
    for row in rows {
        greatest = greater_bound(filter, greatest, row);
    }
    greatest
}

/// Returns the delay bounds of the bridge with index `bridge`. Returns an empty list if the bridge is missing. `hop_bound`, `put_hop_times`
/// of `net_check` and 3 more call it.
pub fn bounds_of_bridge<'a, A: Allocator + Copy>(
    bounds: &'a [Vec<QueueBound, A>],
    bridge: u16,
) -> &'a [QueueBound]
    ensures { result.now ≡ bounds_if_any (slice_get bounds.now bridge) }
{
    match bounds.get(bridge as usize) {
        Some(rows) => rows,
        None => &[],
    }
}

/// Returns the greatest delay bound of a hop's queues in ns: a frame can wait in any of them. `total_bound` calls it.
fn hop_bound<A: Allocator + Copy>(bounds: &[Vec<QueueBound, A>], hop: (u16, u32)) -> u64
    ensures { result ≡ hop_bound bounds.now hop }
{
    filter_bound(hop.1, bounds_of_bridge(bounds, hop.0))
}

/// Returns whether one of these hops is at the bridge. A hop is a pair: index of its bridge and number of its filter. `is_joining_link`
/// calls it.
fn has_hop_at_bridge(hops: &[(u16, u32)], bridge: u16) -> bool
    ensures { result ≡ has_hop_at_bridge hops.now bridge }
{
    hops.iter().any(|hop| hop.0 == bridge)
}

/// Returns whether a link joins the bridge to the bridge of one of these hops, in either direction. `greater_delay` calls it.
fn is_joining_link(hops: &[(u16, u32)], bridge: u16, link: &LinkRow) -> bool
    ensures { result ≡ is_joining_link hops.now bridge link.now }
{
    let to_one = link.one.0 == bridge && has_hop_at_bridge(hops, link.other.0);
    let to_other = link.other.0 == bridge && has_hop_at_bridge(hops, link.one.0);
    to_one || to_other
}

/// Returns the greater of `most` and the link's delay in ns if the link joins `bridge` to the bridge of a hop, otherwise `most`.
/// `link_delay` calls it for each link.
fn greater_delay(hops: &[(u16, u32)], bridge: u16, most: u64, link: &LinkRow) -> u64
    ensures { result ≡ greater_delay hops.now bridge most link.now }
{
    if is_joining_link(hops, bridge, link) {
        most.max(link.delay)
    } else {
        most
    }
}

/// Returns the greatest delay in ns of a link between `bridge` and the bridges of `hops`, because frames may arrive over any of these
/// links. Returns 0 without a link.
fn link_delay(links: &[LinkRow], hops: &[(u16, u32)], bridge: u16) -> u64
    ensures { result ≡ link_delay links.now hops.now bridge }
{
    let mut greatest = 0u64;
    for link in links {
        greatest = greater_delay(hops, bridge, greatest, link);
    }
    greatest
}

/// Returns the greatest delay in ns of a link between the bridge of `hop` and the bridges of `hops`; 0 without a link. `total_delay` calls
/// it.
fn hop_delay(links: &[LinkRow], hops: &[(u16, u32)], hop: (u16, u32)) -> u64
    ensures { result ≡ hop_delay links.now hops.now hop }
{
    link_delay(links, hops, hop.0)
}

/// Returns the sum over all hops of `hop_bound`, in ns. `stream_bound` calls it.
fn total_bound<A: Allocator + Copy>(bounds: &[Vec<QueueBound, A>], hops: &[(u16, u32)]) -> u128
    requires few { length hops.now ≤ 64 }
    ensures sum { result ≡ sum_by (hop_bound bounds.now) hops.now }
    ensures low { result ≤ 64 * 2 ^ 64 }
{
    let mut sum = 0u128;
    for hop in hops {
        sum += hop_bound(bounds, *hop) as u128;
    }
    sum
}

/// Returns the sum over the hops in `later` of `hop_delay`, in ns. `later` has the stream's hops without the first: a link leads to each
/// later hop.
fn total_delay(links: &[LinkRow], hops: &[(u16, u32)], later: &[(u16, u32)]) -> u128
    requires few { length later.now ≤ 64 }
    ensures sum { result ≡ sum_by (hop_delay links.now hops.now) later.now }
    ensures low { result ≤ 64 * 2 ^ 64 }
{
    let mut sum = 0u128;
    for hop in later {
        sum += hop_delay(links, hops, *hop) as u128;
    }
    sum
}

/// Returns the delay bound in ns of a stream whose frames cross each hop once. It sums each hop's greatest bound, and the greatest link
/// delay of each hop after the first.
///
/// `stream_bounds` and `put_stream`, and `figures_of_stream` of `app_networks` call it.
pub fn stream_bound<A: Allocator + Copy>(
    bounds: &[Vec<QueueBound, A>],
    links: &[LinkRow],
    hops: &[(u16, u32)],
) -> u128
    requires some { 1 ≤ length hops.now }
    requires few { length hops.now ≤ 64 }
    ensures { result ≡ stream_bound bounds.now links.now hops.now }
{
    let later = &hops[1..];
    total_bound(bounds, hops) + total_delay(links, hops, later)
}

/// Returns the delay bound of each stream in ns, in file order. `draw_with_bounds` of `app_networks` calls it.
pub fn stream_bounds<A: Allocator + Copy>(
    alloc: A,
    bounds: &[Vec<QueueBound, A>],
    links: &[LinkRow],
    streams: &[StreamRow<A>],
) -> Result<Vec<u128, A>, NoMemory>
    requires some { All (λ s. 1 ≤ length s.hops) streams.now }
    requires few { All (λ s. length s.hops ≤ 64) streams.now }
    ensures { IfOk result (λ rows. rows.items ≡ map
        (λ (s : Stream). stream_bound bounds.now links.now s.hops) streams.now) }
{
    let mut rows = Vec::new(alloc);
    for stream in streams {
        let Ok(()) = rows.push(stream_bound(bounds, links, stream.hops())) else {
            return Err(NoMemory);
        };
    }
    Ok(rows)
}

/// Returns the worst delay of a stream in ns, or its bound if the delay is unknown. A deadline is compared with this value. `is_in_time`
/// and `put_stream` call it.
fn worst_latency(course: Option<StreamLatency>, bound: u128) -> u128
    ensures { result ≡ spec.worst_latency course bound }
{
    match course {
        None => bound,
        Some(course) => course.worst,
    }
}

/// Writes the delays and phases of a stream. Writes nothing if they are unknown (`course` is `None`). `put_latency` calls it.
fn put_course<B: Allocator>(text: &mut TextBuilder<B>, course: Option<StreamLatency>)
    ensures { HasGrown text.old (spec.course_words course) text.new }
{
    let Some(course) = course else {
        return text.put("");
    };
    put_delays(text, course.worst, course.best, Some(course.phases));
}

/// Writes the delays of a stream if they are known, and its bound in ns. `put_stream` calls it.
fn put_latency<B: Allocator>(text: &mut TextBuilder<B>, course: Option<StreamLatency>, bound: u128)
    ensures { HasGrown text.old (spec.latency_words course bound) text.new }
{
    put_course(text, course);
    text.put(" bound ");
    text.put_integer(bound);
}

/// Returns ` arrives` for a stream whose frames all arrive within known delays, ` refusable` if frames may be refused, otherwise an empty
/// text. `put_stream` calls it.
fn arrival_word(passes: bool, course: Option<StreamLatency>) -> &'static str
    ensures { result.now ≡ spec.arrival_word passes course }
{
    match (passes, course) {
        (false, _) => " refusable",
        (true, None) => "",
        (true, Some(_)) => " arrives",
    }
}

/// Writes the time between a deadline and a worst delay in ns: the margin, or the missing time. Writes nothing without a deadline.
/// `put_stream` calls it.
fn put_margin<B: Allocator>(text: &mut TextBuilder<B>, deadline: Option<u64>, worst: u128)
    ensures { HasGrown text.old (spec.margin_words deadline worst) text.new }
{
    let Some(limit) = deadline else {
        return text.put("");
    };
    let limit = limit as u128;
    if worst <= limit {
        text.put(" margin ");
        text.put_integer(limit - worst);
    } else {
        text.put(" lacks ");
        text.put_integer(worst - limit);
    }
}

/// Returns whether each frame of a stream's periodic talker passes all hops. Returns true without a periodic talker, and false if its
/// delays are unknown. `put_stream` calls it.
fn is_passing(talker: Option<Talker>, course: Option<StreamLatency>) -> bool
    ensures { result ≡ spec.is_passing talker course }
{
    match (talker, course) {
        (None, _) => true,
        (Some(_), None) => false,
        (Some(_), Some(course)) => course.passes,
    }
}

/// Returns whether each frame of a stream passes and meets the deadline, in ns. If the delays are unknown, the bound is compared with the
/// deadline. `put_stream` calls it.
fn is_in_time(
    passes: bool,
    course: Option<StreamLatency>,
    deadline: Option<u64>,
    bound: u128,
) -> bool
    ensures { result ≡ (passes && is_met deadline (spec.worst_latency course bound)) }
{
    passes && timings::is_met(deadline, worst_latency(course, bound))
}

/// Lines of `net check` about the streams, and whether all streams pass and meet their deadlines.
#[derive(Drop)]
pub struct StreamLines<B: Allocator> {
    /// One `stream` line for each stream.
    pub text: String<B>,
    /// Whether each stream meets its deadline, and each frame of a periodic talker passes.
    pub kept: bool,
}

/// Writes the `stream` line of a stream, with delays and margin. Returns whether the stream passes and meets its deadline. `stream_lines`
/// calls it.
fn put_stream<A: Allocator + Copy, B: Allocator>(
    text: &mut TextBuilder<B>,
    bounds: &[Vec<QueueBound, A>],
    links: &[LinkRow],
    stream: &StreamRow<A>,
    course: Option<StreamLatency>,
) -> bool
    requires some { 1 ≤ length stream.now.hops }
    requires few { length stream.now.hops ≤ 64 }
    ensures text { HasGrown text.old (spec.stream_line bounds.now links.now (stream.now, course)) text.new }
    ensures kept { result ≡ spec.is_in_time bounds.now links.now (stream.now, course) }
{
    let bound = stream_bound(bounds, links, stream.hops());
    let deadline = stream.deadline();
    let passes = is_passing(stream.talker(), course);
    text.put("stream ");
    text.put(stream.name());
    text.put(arrival_word(passes, course));
    put_latency(text, course, bound);
    let worst = worst_latency(course, bound);
    put_deadline(text, deadline, worst);
    put_margin(text, deadline, worst);
    text.put("\n");
    is_in_time(passes, course, deadline, bound)
}

/// Returns whether both values are true. `stream_lines` combines the results of its streams by this function.
fn both(a: bool, b: bool) -> bool
    ensures { result ≡ (a && b) }
{
    a && b
}

/// Returns the `stream` lines of all streams of a network, and whether all of them pass and meet their deadlines. `bounds` has the delay
/// bounds of each bridge. `network_lines` of `net_check` calls it.
pub fn stream_lines<A: Allocator + Copy, B: Allocator + Copy>(
    alloc: A,
    heap: B,
    network: &Network<A>,
    bounds: &[Vec<QueueBound, A>],
    links: &[LinkRow],
    streams: &[StreamRow<A>],
) -> Result<StreamLines<B>, NoMemory>
    requires placed { All (λ v. All HasValidPort v.items) bounds.now }
    requires some { All (λ s. 1 ≤ length s.hops) streams.now }
    requires few { All (λ s. length s.hops ≤ 64) streams.now }
    requires talkers { All (λ s. ForSome s.talker IsTalker) streams.now }
    ensures { IfOk result (λ x. AreStreamLines network.now.plans network.now.links bounds.now links.now streams.now
        (string_bytes x.text) x.kept) }
{
    let mut text = TextBuilder::new(heap);
    let mut kept = true;
    for stream in streams {
        let Ok(course) = talker_latency(alloc, network.plans(), network.links(), bounds, stream)
        else {
            return Err(NoMemory);
        };
        let here = put_stream(&mut text, bounds, links, stream, course);
        kept = both(kept, here);
    }
    match text.finish() {
        Ok(text) => Ok(StreamLines { text, kept }),
        Err(fault) => Err(fault),
    }
}
