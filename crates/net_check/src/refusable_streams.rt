//! Explanations of `refusable` streams, whose frames may be refused: the first hop that may refuse them, and the condition that fails
//! there.
ghost use Rattle.std.specs.Prelude.{◌≤◌, All, IfSome, length};
ghost use Rattle.std.specs.Option.{ForSome};
ghost use Rattle.net_file.specs.Rules.{IsTalker};
ghost use Rattle.bridge_bounds.specs.Traffic.{IsTraffic};
ghost use Rattle.net_latency.specs.Bounds.{HasValidPort};

use crate::refusing::bridge_name;
use bridge_bounds::{Phases, Traffic, find_filter, passes};
use bridge_config::Plan;
use bridge_filter::FilterPlan;
use bridge_limits::{END_OF_TIME, LONGEST_FRAME};
use bridge_text::TextBuilder;
use net_file::{NetworkFile, StreamRow, Talker};
use net_latency::{
    QueueBound, StreamLatency, bounds_of_bridge, can_others_enter, latency_through_hops,
    put_reason, stream_hops,
};
use net_model::{Link, Network, StreamHop};
use std::alloc::Global;

/// Appends a sentence for each periodic talker's stream whose frames may be refused: the first hop that may refuse them, and the failing
/// condition. `explain_network_streams` calls it.
pub(crate) fn put_refusable_streams(
    alloc: Global,
    said: &mut TextBuilder<Global>,
    file: &NetworkFile<Global>,
    network: &Network<Global>,
    bounds: &[Vec<QueueBound>],
    streams: &[StreamRow<Global>],
)
    requires placed { All (λ v. All HasValidPort v.items) bounds.now }
    requires few { All (λ s. length s.hops ≤ 64) streams.now }
    requires talkers { All (λ s. ForSome s.talker IsTalker) streams.now }
{
    for stream in streams {
        if let Some(talker) = stream.talker() {
            if let Ok(hops) = stream_hops(alloc, stream.hops()) {
                put_refusable_stream(
                    alloc,
                    said,
                    file,
                    network,
                    bounds,
                    stream.name(),
                    &hops,
                    &talker,
                );
            }
        }
    }
}

/// Appends a sentence about a stream if its frames may be refused. Finds the hop by computing delays up to hop 1, up to hop 2, and so on.
/// `put_refusable_streams` calls it.
fn put_refusable_stream(
    alloc: Global,
    said: &mut TextBuilder<Global>,
    file: &NetworkFile<Global>,
    network: &Network<Global>,
    bounds: &[Vec<QueueBound>],
    name: &str,
    hops: &[StreamHop],
    talker: &Talker,
)
    requires placed { All (λ v. All HasValidPort v.items) bounds.now }
    requires few { length hops.now ≤ 64 }
    requires talker { IsTalker talker.now }
{
    let mut before = None;
    for place in 0..hops.len() {
        let Ok(course) = latency_through_hops(
            alloc,
            network.plans(),
            network.links(),
            bounds,
            &hops[..place + 1],
            talker,
        ) else {
            return;
        };
        match course {
            Some(course) if course.passes => before = Some(course),
            course => {
                put_stream_and_hop(said, file, name, hops, place);
                let traffic = hop_traffic(network.links(), hops, place, talker, before);
                return put_hop_reason(said, network, bounds, hops, place, traffic, course);
            }
        }
    }
}

/// Appends the beginning of a sentence: the stream, and its hop with index `place`, from 0. `put_refusable_stream` calls it.
fn put_stream_and_hop(
    said: &mut TextBuilder<Global>,
    file: &NetworkFile<Global>,
    name: &str,
    hops: &[StreamHop],
    place: usize,
) {
    let Some(hop) = hops.get(place) else {
        return;
    };
    said.put_template(
        "Stream {a} is refusable at hop {0} ({b}.{1}): ",
        &[(place as u64).saturating_add(1), u64::from(hop.filter)],
        &[name, bridge_name(file.bridges(), hop.bridge)],
    );
}

/// Returns a talker's traffic at hop `place`, from the delays `before` up to the hop before it. Returns `None` if phases are unknown or lie
/// in two periods, or no link joins the hops.
///
/// `put_refusable_stream` calls it.
fn hop_traffic(
    links: &[Link],
    hops: &[StreamHop],
    place: usize,
    talker: &Talker,
    before: Option<StreamLatency>,
) -> Option<Traffic>
    requires { IsTalker talker.now }
    ensures { IfSome result IsTraffic }
{
    if place == 0 {
        return traffic_with_phases(talker, talker.from, talker.to);
    }
    let done = before?.phases;
    let delay = link_delay(links, hops, place)?;
    let (phases, _) = phases_after_link(done, delay, talker.period);
    traffic_with_phases(talker, phases.from, phases.to)
}

/// Returns the phases of arrivals over a link of `delay` ns, if transmissions end in phases `done`. The second value is the start of the
/// arrivals' period, in ns. `hop_traffic` and `put_next_arrival` call it.
pub(crate) fn phases_after_link(done: Phases, delay: u64, period: u64) -> (Phases, u128) {
    let start = u128::from(done.from).saturating_add(u128::from(delay));
    let end = u128::from(done.to).saturating_add(u128::from(delay));
    let period = u128::from(period.max(1));
    let whole = start - start % period;
    let phases = Phases {
        from: (start % period) as u64,
        to: end.saturating_sub(whole).min(u128::from(u64::MAX)) as u64,
    };
    (phases, whole)
}

/// Returns the traffic of a talker if its frames arrive in the phases `from` to `to`, in ns. Returns `None` if the phases don't lie in one
/// period. `hop_traffic` and `times_in_queue` call it.
pub(crate) fn traffic_with_phases(talker: &Talker, from: u64, to: u64) -> Option<Traffic>
    requires { IsTalker talker.now }
    ensures { IfSome result IsTraffic }
{
    if from > to || to >= talker.period {
        return None;
    }
    Some(Traffic {
        period: talker.period,
        from,
        to,
        least: talker.least,
        longest: talker.longest,
    })
}

/// Returns the delay in ns of the first link between the bridges of hop `place` and of the hop before it. Returns `None` if no link joins
/// both bridges. `hop_traffic` and `is_chain` call it.
fn link_delay(links: &[Link], hops: &[StreamHop], place: usize) -> Option<u64> {
    let hop = hops.get(place)?.bridge;
    let before = hops.get(place.checked_sub(1)?)?.bridge;
    for link in links {
        let (one, other) = (link.one.bridge, link.other.bridge);
        if one == hop && other == before || one == before && other == hop {
            return Some(link.delay);
        }
    }
    None
}

/// Returns whether each hop up to index `place` has a link to the hop before it. Only then do delays determine the phases at the next hop.
/// `put_hop_reason` calls it.
fn is_chain(links: &[Link], hops: &[StreamHop], place: usize) -> bool {
    for next in 1..=place {
        if link_delay(links, hops, next).is_none() {
            return false;
        }
    }
    true
}

/// Returns whether a hop before index `place` is at bridge `bridge`. Delays are unknown if a stream crosses a bridge twice.
/// `put_hop_reason` calls it.
fn has_earlier_hop(hops: &[StreamHop], place: usize, bridge: u16) -> bool {
    for (k, hop) in hops.iter().enumerate() {
        if k < place && hop.bridge == bridge {
            return true;
        }
    }
    false
}

/// Appends why frames may be refused at hop `place`: the first reason that applies. Reasons of the route precede conditions of the hop's
/// filter. `put_refusable_stream` calls it.
fn put_hop_reason(
    said: &mut TextBuilder<Global>,
    network: &Network<Global>,
    bounds: &[Vec<QueueBound>],
    hops: &[StreamHop],
    place: usize,
    traffic: Option<Traffic>,
    course: Option<StreamLatency>,
)
    requires { IfSome traffic IsTraffic }
{
    let Some(hop) = hops.get(place) else {
        return;
    };
    let Some(accepted) = network.plans().get(hop.bridge as usize) else {
        return;
    };
    let plan = accepted.plan();
    if let Some(port) = port_of_others(network.links(), place == 0, *hop, plan) {
        return said.put_template(
            "frames of other devices may also come in on port {0}. Remove the `stream` entry of this port.\n",
            &[u64::from(port)],
            &[],
        );
    }
    if has_earlier_hop(hops, place, hop.bridge) {
        return said.put("another hop of the stream is at the same bridge.\n");
    }
    let Some(class) = first_queue_class(bounds, *hop) else {
        return said.put("its frames can enter no queue. Correct the `static` entry or the VLAN.\n");
    };
    if !is_chain(network.links(), hops, place) {
        return said.put("a filter, a gate or a queue there may refuse a frame.\n");
    }
    let Some(traffic) = traffic else {
        return said.put(
            "the earliest and the latest arrival lie in different periods of the talker.\n",
        );
    };
    if let Some(filter) = find_filter(plan.filters(), hop.filter) {
        put_condition(said, plan, &filter, &traffic, class, course.is_some());
    }
}

/// Appends the first condition of the hop's filter that `traffic` doesn't meet. `class` is the class of the hop's first queue.
///
/// If the filter passes `traffic` and delays are known (`has_figures`), appends that the filter may not match each frame of the hop before.
///
/// `put_hop_reason` calls it.
fn put_condition(
    said: &mut TextBuilder<Global>,
    plan: &Plan<Global>,
    filter: &FilterPlan,
    traffic: &Traffic,
    class: u8,
    has_figures: bool,
)
    requires traffic { IsTraffic traffic.now }
{
    if has_figures && passes(plan, filter, traffic) {
        return said.put(
            "it may not accept each frame that the hop before it sends. Compare VLAN, tag and address of the `stream` entries of both.\n",
        );
    }
    put_reason(said, plan, filter, traffic, class);
}

/// Returns the first port of a hop's bridge on which frames of other devices may get the hop's handle. `None` if they can get it on no
/// port.
///
/// `is_first` is true for the stream's first hop. `put_hop_reason` calls it.
fn port_of_others(
    links: &[Link],
    is_first: bool,
    hop: StreamHop,
    plan: &Plan<Global>,
) -> Option<u8> {
    for port in plan.ports() {
        if can_others_enter(links, is_first, hop, plan, port) {
            return Some(port.number);
        }
    }
    None
}

/// Returns the class of the first queue that the frames of a hop can enter, or `None` if they can enter none. `put_hop_reason` calls it.
fn first_queue_class(bounds: &[Vec<QueueBound>], hop: StreamHop) -> Option<u8> {
    for row in bounds_of_bridge(bounds, hop.bridge) {
        if row.filter == hop.filter {
            return Some(row.class);
        }
    }
    None
}
