//! The test whether the hops of a stream are a tree. `stream_latency` computes delays only for trees.
ghost use Rattle.std.specs.Prelude.{◌≡◌, ◌&&◌};
ghost use Rattle.net_latency.specs.Trees as spec;

use crate::next_hop::{far_end, hop_at_bridge};
use net_model::{Link, StreamHop};

/// A reachable queue of a stream's hop. The hop's frames leave its bridge by such queues.
#[derive(Clone, Copy)]
pub struct HopQueue {
    /// Hop whose frames enter the queue.
    pub hop: StreamHop,
    /// Port number, 1 to 16.
    pub port: u8,
    /// Class of the queue, 0 to 7.
    pub class: u8,
}

/// Returns whether the port of a queue has a link to `bridge`, so that the queue's frames arrive there. `count_feeders` calls it.
fn is_feeder(links: &[Link], bridge: u16, queue: &HopQueue) -> bool
    ensures { result ≡ spec.is_feeder links.now bridge queue.now }
{
    match far_end(links, queue.hop.bridge, queue.port) {
        None => false,
        Some(far) => far.end.bridge == bridge,
    }
}

/// Returns the number of `queues` whose port has a link to `bridge`. In a tree, it is at most 1, and 0 for the bridge of the root.
/// `have_single_feeders` and `is_tree` call it.
fn count_feeders(links: &[Link], queues: &[HopQueue], bridge: u16) -> usize
    ensures { result ≡ spec.count_feeders links.now queues.now bridge }
{
    queues
        .iter()
        .filter(|x| is_feeder(links, bridge, x))
        .count()
}

/// Returns whether the first of `hops` at the bridge of `hop` has the filter of `hop`. Otherwise two hops are at this bridge, so the stream
/// may cross it twice. `have_distinct_bridges` calls it.
fn is_first_at_bridge(hops: &[StreamHop], hop: &StreamHop) -> bool
    ensures { result ≡ spec.is_first_at_bridge hops.now hop.now }
{
    match hop_at_bridge(hops, hop.bridge) {
        None => false,
        Some(first) => first.filter == hop.filter,
    }
}

/// Returns whether no two hops are at one bridge with different filters: each is the first of `hops` at its bridge. `is_tree` calls it.
fn have_distinct_bridges(hops: &[StreamHop]) -> bool
    ensures { result ≡ spec.have_distinct_bridges hops.now }
{
    hops.iter().all(|h| is_first_at_bridge(hops, h))
}

/// Returns whether at most one of `queues` leads to the bridge of each hop (`count_feeders`). `is_tree` calls it.
fn have_single_feeders(links: &[Link], hops: &[StreamHop], queues: &[HopQueue]) -> bool
    ensures { result ≡ spec.have_single_feeders links.now hops.now queues.now }
{
    hops.iter()
        .all(|h| count_feeders(links, queues, h.bridge) <= 1)
}

/// Returns whether `a`, `b` and `c` are true: the results of the three tests of `is_tree`.
fn all_three(a: bool, b: bool, c: bool) -> bool
    ensures { result ≡ (a && b && c) }
{
    a && b && c
}

/// Returns whether the hops are a tree with root `first`: different bridges, at most one queue leads to each hop, and none to the root.
/// `stream_latency` calls it.
pub(crate) fn is_tree(
    links: &[Link],
    hops: &[StreamHop],
    queues: &[HopQueue],
    first: StreamHop,
) -> bool
    ensures { result ≡ spec.is_tree links.now hops.now queues.now first }
{
    let own = have_distinct_bridges(hops);
    let once = have_single_feeders(links, hops, queues);
    let feeders = count_feeders(links, queues, first.bridge);
    all_three(own, once, feeders == 0)
}
