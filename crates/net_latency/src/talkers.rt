//! Streams with periodic talkers: whether the period suits the plans, and the delays of their frames.
ghost use Rattle.std.specs.Prelude.{◌≡◌, ◌++◌, ◌∷◌, ◌≤◌, All, IfOk, OnOk, [], length, map, nat_eq, option_map, slice_get, ℕ};
ghost use Rattle.std.specs.List.{list_all};
ghost use Rattle.std.specs.Map.{lookup};
ghost use Rattle.std.specs.Option.{ForSome};
ghost use Rattle.net_latency.specs.StreamLatency.{IsQueue};
ghost use Rattle.net_latency.specs.Entering.{IsStreamCourse};
ghost use Rattle.net_file.specs.Rules.{IsTalker};
ghost use Rattle.bridge_bounds.specs.Traffic.{IsTraffic};
ghost use Rattle.net_latency.specs.Streams.{stream_hop_value};
ghost use Rattle.net_latency.specs.Talkers as spec;
ghost use Rattle.net_latency.specs.Bounds.{HasValidPort};
ghost use Rattle.net_latency.specs.Talkers.{IsTalkerLatency};

use crate::bounds::QueueBound;
use crate::entering::checked_stream_latency;
use crate::hops::stream_hops;
use crate::latency::StreamLatency;
use crate::streams::bounds_of_bridge;
use crate::traffic::suits;
use crate::tree::HopQueue;
use bridge_bounds::{Traffic, find_filter};
use bridge_check::Accepted;
use bridge_config::Plan;
use bridge_limits::NoMemory;
use net_file::{NetFault, NetField, NetKeyLocation, NetSection, StreamRow, Talker};
use net_model::{Link, StreamHop};
use std::alloc::Allocator;

/// Returns whether the period, in ns, is a multiple of each cycle time on the route of filter `filter`'s frames. Returns true if the filter
/// is missing. `suits_hop` calls it.
fn suits_filter<A: Allocator + Copy>(plan: &Plan<A>, filter: u32, period: u64) -> bool
    ensures { result ≡ spec.suits_filter plan.now period (lookup (nat_eq filter) plan.now.filters) }
{
    match find_filter(plan.filters(), filter) {
        None => true,
        Some(filter) => suits(plan, &filter, period),
    }
}

/// Returns the plan of the bridge with index `bridge`, or `None` if the bridge is missing. `suits_hop` calls it.
fn accepted_plan<A: Allocator + Copy>(plans: &[Accepted<A>], bridge: u16) -> Option<&Accepted<A>>
    ensures { option_map (λ p. p.now) result ≡ slice_get plans.now bridge }
{
    plans.get(bridge as usize)
}

/// Returns whether the period, in ns, suits the filter of hop `hop`, a bridge index and a filter number (`suits_filter`). Returns true if
/// the bridge is missing. `suits_each` calls it.
fn suits_hop<A: Allocator + Copy>(plans: &[Accepted<A>], hop: (u16, u32), period: u64) -> bool
    ensures { result ≡ spec.suits_hop (slice_get plans.now hop.0) hop.1 period }
{
    match accepted_plan(plans, hop.0) {
        None => true,
        Some(accepted) => suits_filter(accepted.plan(), hop.1, period),
    }
}

/// Returns whether the period, in ns, suits all of these hops. `suits_hops` calls it.
fn suits_each<A: Allocator + Copy>(plans: &[Accepted<A>], hops: &[(u16, u32)], period: u64) -> bool
    ensures { result ≡ list_all (λ (h : ℕ × ℕ). spec.suits_hop (slice_get plans.now h.0) h.1 period) hops.now }
{
    hops.iter().all(|h| suits_hop(plans, *h, period))
}

/// Returns whether the talker's period suits all hops of its stream. Returns true without a periodic talker. `first_misfit` calls it.
fn suits_hops<A: Allocator + Copy>(
    plans: &[Accepted<A>],
    talker: Option<Talker>,
    hops: &[(u16, u32)],
) -> bool
    ensures { result ≡ spec.suits_hops plans.now talker hops.now }
{
    match talker {
        None => true,
        Some(talker) => suits_each(plans, hops, talker.period),
    }
}

/// Returns the fault of the first stream whose period isn't a multiple of each cycle time on its route. `None` if every period fits.
/// `check_periods` and `explain_plans` of `net_check` call it.
pub fn first_misfit<A: Allocator + Copy>(
    plans: &[Accepted<A>],
    streams: &[StreamRow<A>],
) -> Option<NetFault>
    requires { length streams.now ≤ 1024 }
    ensures { result ≡ spec.first_misfit plans.now 1 streams.now }
{
    let mut index: u32 = 1;
    for stream in streams {
        if !suits_hops(plans, stream.talker(), stream.hops()) {
            return Some(NetFault::OutOfRange(NetKeyLocation {
                section: NetSection::Stream,
                index,
                field: NetField::Period,
            }));
        }
        index += 1;
    }
    None
}

/// Returns a talker of a network file as traffic of `bridge_bounds`, which computes delays. `latency_through_hops` calls it.
fn talker_traffic(talker: &Talker) -> Traffic
    requires { IsTalker talker.now }
    ensures traffic { result ≡ spec.talker_traffic talker.now }
    ensures rules { IsTraffic result }
{
    Traffic {
        period: talker.period,
        from: talker.from,
        to: talker.to,
        least: talker.least,
        longest: talker.longest,
    }
}

/// Appends the queue of `row` to `queues` if it belongs to the hop's filter. `put_filter_queues` calls it.
#[tactic(auto, using(crate::proofs::Queued::one_more, crate::proofs::Queued::none_more))]
fn put_hop_queue<A: Allocator + Copy>(
    row: &QueueBound,
    hop: StreamHop,
    queues: &mut Vec<HopQueue, A>,
) -> Result<(), NoMemory>
    requires row { HasValidPort row.now }
    requires before { All IsQueue queues.old.items }
    ensures more { OnOk result (queues.new.items ≡ queues.old.items ++ spec.filter_queues (row.now ∷ []) hop) }
    ensures queues { OnOk result (All IsQueue queues.new.items) }
{
    if row.filter != hop.filter {
        return Ok(());
    }
    queues.push(HopQueue {
        hop,
        port: row.port,
        class: row.class,
    })?;
    Ok(())
}

/// Appends to `queues` the reachable queues of a hop's filter. `rows` has the delay bounds of all protected filters of the hop's bridge.
/// `put_queues` calls it.
fn put_filter_queues<A: Allocator + Copy>(
    rows: &[QueueBound],
    hop: StreamHop,
    queues: &mut Vec<HopQueue, A>,
) -> Result<(), NoMemory>
    requires rows { All HasValidPort rows.now }
    requires before { All IsQueue queues.old.items }
    ensures more { OnOk result (queues.new.items ≡ queues.old.items ++ spec.filter_queues rows.now hop) }
    ensures queues { OnOk result (All IsQueue queues.new.items) }
{
    for row in rows {
        let Ok(()) = put_hop_queue(row, hop, queues) else {
            return Err(NoMemory);
        };
    }
    Ok(())
}

/// Appends to `queues` the reachable queues of a hop. `bounds` has the delay bounds of all bridges, by bridge index. `hop_queues` calls it.
fn put_queues<A: Allocator + Copy>(
    bounds: &[Vec<QueueBound, A>],
    hop: StreamHop,
    queues: &mut Vec<HopQueue, A>,
) -> Result<(), NoMemory>
    requires rows { All (λ v. All HasValidPort v.items) bounds.now }
    requires before { All IsQueue queues.old.items }
    ensures more { OnOk result (queues.new.items ≡ queues.old.items ++ spec.queues_of_hop bounds.now hop) }
    ensures queues { OnOk result (All IsQueue queues.new.items) }
{
    put_filter_queues(bounds_of_bridge(bounds, hop.bridge), hop, queues)
}

/// Returns the reachable queues of all hops, hop by hop. `bounds` has an item for each reachable queue. `latency_through_hops` calls it.
fn hop_queues<A: Allocator + Copy>(
    alloc: A,
    bounds: &[Vec<QueueBound, A>],
    hops: &[StreamHop],
) -> Result<Vec<HopQueue, A>, NoMemory>
    requires rows { All (λ v. All HasValidPort v.items) bounds.now }
    ensures same { IfOk result (λ v. v.items ≡ spec.hop_queues bounds.now hops.now) }
    ensures queues { IfOk result (λ v. All IsQueue v.items) }
{
    let mut queues = Vec::new(alloc);
    for hop in hops {
        let Ok(()) = put_queues(bounds, *hop, &mut queues) else {
            return Err(NoMemory);
        };
    }
    Ok(queues)
}

/// Returns the delays of a talker's frames through these hops, or `None` if they are unknown. Explanations of `net check` pass a stream's
/// first hops. `talker_latency`, `is_searched` of `net_check` and 2 more call it.
pub fn latency_through_hops<A: Allocator + Copy>(
    alloc: A,
    plans: &[Accepted<A>],
    links: &[Link],
    bounds: &[Vec<QueueBound, A>],
    hops: &[StreamHop],
    talker: &Talker,
) -> Result<Option<StreamLatency>, NoMemory>
    requires rows { All (λ v. All HasValidPort v.items) bounds.now }
    requires few { length hops.now ≤ 64 }
    requires talker { IsTalker talker.now }
    ensures { IfOk result (IsStreamCourse plans.now links.now hops.now (spec.hop_queues bounds.now hops.now)
        (spec.talker_traffic talker.now)) }
{
    let Ok(queues) = hop_queues(alloc, bounds, hops) else {
        return Err(NoMemory);
    };
    let traffic = talker_traffic(talker);
    Ok(checked_stream_latency(plans, links, hops, &queues, &traffic))
}

/// Returns the delays of a stream's frames, for its line and its pictures. Returns `None` without a periodic talker, or if the delays are
/// unknown. `stream_lines` and `stream_figures` of `app_networks` call it.
pub fn talker_latency<A: Allocator + Copy>(
    alloc: A,
    plans: &[Accepted<A>],
    links: &[Link],
    bounds: &[Vec<QueueBound, A>],
    stream: &StreamRow<A>,
) -> Result<Option<StreamLatency>, NoMemory>
    requires rows { All (λ v. All HasValidPort v.items) bounds.now }
    requires few { length stream.now.hops ≤ 64 }
    requires talker { ForSome stream.now.talker IsTalker }
    ensures { IfOk result (IsTalkerLatency plans.now links.now bounds.now stream.now.talker
        (map stream_hop_value stream.now.hops)) }
{
    let Some(talker) = stream.talker() else {
        return Ok(None);
    };
    let Ok(hops) = stream_hops(alloc, stream.hops()) else {
        return Err(NoMemory);
    };
    latency_through_hops(alloc, plans, links, bounds, &hops, &talker)
}
