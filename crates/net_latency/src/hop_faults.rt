//! Explanations of a refused hop of a stream, and sentences that list a plan's protected or grouped filters.

use crate::texts::{NetworkText, put_numbers};
use bridge_bounds::find_filter;
use bridge_check::Accepted;
use bridge_config::Plan;
use bridge_filter::FilterPlan;
use bridge_text::TextBuilder;
use net_file::{BridgeRow, NetField, NetSection};
use net_model::{Link, NetworkFault, RefusedNetwork, StreamHop};
use std::alloc::Global;

/// A refused hop, with its numbers in the fault line. `explain_hop_fault` looks it up.
#[derive(Clone, Copy)]
struct RefusedHop<'a> {
    /// Number of the hop's stream in the network file, from 1.
    stream: usize,
    /// Number of the hop in the stream, from 1.
    place: usize,
    /// Hop that is refused.
    hop: StreamHop,
    /// Bridge of the hop.
    bridge: &'a BridgeRow<Global>,
}

/// Explains the fault of `refused` at hop `place` of stream `stream`, both from 1. `explain_refusal` of `net_check` calls it. `None` if the
/// hop is missing or memory runs out.
pub fn explain_hop_fault(
    alloc: Global,
    asked: NetworkText<'_>,
    refused: &RefusedNetwork<Global>,
    stream: usize,
    place: usize,
) -> Option<String> {
    let hops = refused.streams.get(stream.checked_sub(1)?)?.as_slice();
    let hop = *hops.get(place.checked_sub(1)?)?;
    let found = RefusedHop {
        stream,
        place,
        hop,
        bridge: asked.bridge(hop.bridge)?,
    };
    let accepted = bridge_plan(refused, hop.bridge)?;
    let mut said = TextBuilder::new(alloc);
    put_hop(&mut said, asked, found);
    match refused.fault {
        NetworkFault::HopTwice { .. } => {
            put_twice(&mut said, asked, refused, found);
            put_free_filters(alloc, &mut said, accepted.plan(), refused, found);
        }
        NetworkFault::NotFed { hop: 1, .. } => put_no_entry(&mut said, accepted, found),
        NetworkFault::NotFed { .. } => {
            put_unfed(&mut said, refused.links.as_slice(), hops, found)
        }
        _ => put_filters(alloc, &mut said, accepted.plan(), found),
    }
    said.finish().ok()
}

/// Returns the plan of the bridge with index `bridge`, from 0, or `None` if the network lacks the bridge. `explain_hop_fault` calls it.
fn bridge_plan(refused: &RefusedNetwork<Global>, bridge: u16) -> Option<&Accepted<Global>> {
    refused.plans.get(bridge as usize)
}

/// Returns the name of stream `stream`, from 1, or an empty text if the file lacks the stream. `put_hop` and `put_twice` call it.
fn stream_name<'a>(asked: NetworkText<'a>, stream: usize) -> &'a str {
    match asked.file.streams().get(stream.wrapping_sub(1)) {
        Some(row) => row.name(),
        None => "",
    }
}

/// Appends the position of the stream's key `hops`, the refused hop's number, and the hop as the file writes it. All explanations of hops
/// begin like this. `explain_hop_fault` calls it.
fn put_hop(said: &mut TextBuilder<Global>, asked: NetworkText<'_>, found: RefusedHop<'_>) {
    let key = NetField::Hops.key();
    asked.put_place(said, NetSection::Stream, found.stream, Some(key));
    said.put_template(
        "hop {0} of stream \"{a}\" is \"{b}.{1}\", ",
        &[found.place as u64, u64::from(found.hop.filter)],
        &[stream_name(asked, found.stream), found.bridge.name()],
    );
}

/// Appends that the hop's filter is missing or unprotected in the plan of its bridge. Then appends the protected filters of this plan and a
/// remedy. `explain_hop_fault` calls it.
fn put_filters(
    alloc: Global,
    said: &mut TextBuilder<Global>,
    plan: &Plan<Global>,
    found: RefusedHop<'_>,
) {
    let (template, remedy) = match find_filter(plan.filters(), found.hop.filter) {
        Some(filter) if filter.handle.is_none() => (
            "but filter {0} in the plan of {a} ({b}) has no `handle`, so it can't be protected.\n",
            "Correct the hop, or add a protected filter with `handle` for the stream.\n",
        ),
        Some(_) => (
            "but the plan of {a} ({b}) doesn't protect filter {0}.\n",
            "Correct the hop, or set `protected = true` in this filter.\n",
        ),
        None => (
            "but the plan of {a} ({b}) has no filter {0}.\n",
            "Correct the hop, or add this filter with `protected = true`.\n",
        ),
    };
    said.put_template(
        template,
        &[u64::from(found.hop.filter)],
        &[found.bridge.name(), found.bridge.plan()],
    );
    put_protected(alloc, said, plan.filters());
    said.put(remedy);
}

/// Appends a sentence with the numbers of a plan's protected filters, from which the reader can choose. Discards the whole explanation if
/// memory runs out. `explain_unusable_filter` and `put_filters` call it.
pub(crate) fn put_protected(
    alloc: Global,
    said: &mut TextBuilder<Global>,
    filters: &[(u32, FilterPlan)],
) {
    let mut numbers = Vec::new(alloc);
    for (number, filter) in filters {
        if filter.protected && numbers.push(u64::from(*number)).is_err() {
            return said.discard();
        }
    }
    if numbers.is_empty() {
        return said.put("The plan has no protected filter.\n");
    }
    said.put("Its protected filters: ");
    put_numbers(said, &numbers);
    said.put(".\n");
}

/// Appends a sentence with the numbers of a plan's grouped filters, from which the reader can choose. Discards the whole explanation if
/// memory runs out. `explain_limited_row` calls it.
pub(crate) fn put_grouped(
    alloc: Global,
    said: &mut TextBuilder<Global>,
    filters: &[(u32, FilterPlan)],
) {
    let mut numbers = Vec::new(alloc);
    for (number, filter) in filters {
        if filter.group.is_some() && numbers.push(u64::from(*number)).is_err() {
            return said.discard();
        }
    }
    if numbers.is_empty() {
        return said.put("The plan has no grouped filter.\n");
    }
    said.put("Its grouped filters: ");
    put_numbers(said, &numbers);
    said.put(".\n");
}

/// Returns the number, from 1, of the first hop in `hops` with the bridge and filter of `hop`, or 0 if there is none. `put_twice` and
/// `is_in_stream` call it.
fn hop_index(hops: &[StreamHop], hop: StreamHop) -> u64 {
    let mut place = 0u64;
    for other in hops {
        place = place.saturating_add(1);
        if other.bridge == hop.bridge && other.filter == hop.filter {
            return place;
        }
    }
    0
}

/// Appends which earlier hop has the refused hop's bridge and filter: its number, its stream and its line. Then appends a remedy.
/// `explain_hop_fault` calls it.
fn put_twice(
    said: &mut TextBuilder<Global>,
    asked: NetworkText<'_>,
    refused: &RefusedNetwork<Global>,
    found: RefusedHop<'_>,
) {
    let mut stream = 0usize;
    for hops in &refused.streams {
        stream = stream.saturating_add(1);
        let place = hop_index(hops.as_slice(), found.hop);
        if place > 0 {
            said.put_template(
                "and so is hop {0} of stream \"{a}\"",
                &[place],
                &[stream_name(asked, stream)],
            );
            asked.put_line(said, NetSection::Stream, stream, NetField::Hops.key());
            break;
        }
    }
    said.put(".\nA filter is one hop of one stream: correct one of the two hops.\n");
}

/// Returns whether one of these streams has the bridge and filter of `hop`. `put_free_filters` calls it.
fn is_in_stream(streams: &[Vec<StreamHop>], hop: StreamHop) -> bool {
    for hops in streams {
        if hop_index(hops.as_slice(), hop) > 0 {
            return true;
        }
    }
    false
}

/// Appends a sentence with the protected filters of the refused hop's bridge that are in no stream. Discards the whole explanation if
/// memory runs out. `explain_hop_fault` calls it.
fn put_free_filters(
    alloc: Global,
    said: &mut TextBuilder<Global>,
    plan: &Plan<Global>,
    refused: &RefusedNetwork<Global>,
    found: RefusedHop<'_>,
) {
    let mut numbers = Vec::new(alloc);
    for (number, filter) in plan.filters() {
        let hop = StreamHop {
            bridge: found.hop.bridge,
            filter: *number,
        };
        let is_free = filter.protected && !is_in_stream(refused.streams.as_slice(), hop);
        if is_free && numbers.push(u64::from(*number)).is_err() {
            return said.discard();
        }
    }
    let words = [found.bridge.name(), found.bridge.plan()];
    if numbers.is_empty() {
        return said.put_template(
            "Each protected filter of {a} ({b}) is in a stream.\n",
            &[],
            &words,
        );
    }
    said.put_template(
        "Protected filters of {a} ({b}) that are in no stream: ",
        &[],
        &words,
    );
    put_numbers(said, &numbers);
    said.put(".\n");
}

/// Appends that no open port of the bridge has a stream entry with the first hop's handle, so no talker's frame can reach the hop.
/// `explain_hop_fault` calls it.
fn put_no_entry(
    said: &mut TextBuilder<Global>,
    accepted: &Accepted<Global>,
    found: RefusedHop<'_>,
) {
    let handle = match find_filter(accepted.plan().filters(), found.hop.filter) {
        Some(filter) => filter.handle,
        None => None,
    };
    said.put_template(
        "but no port of {a} without a link has a `stream` entry with the filter's `handle`, {0}.\nAdd this entry at the talker's port to the plan ({b}), or begin `hops` with the talker's bridge.\n",
        &[u64::from(handle.unwrap_or(0))],
        &[found.bridge.name(), found.bridge.plan()],
    );
}

/// Returns whether a link joins a bridge to the bridge of one of these hops. `put_unfed` calls it.
fn is_joined(links: &[Link], hops: &[StreamHop], bridge: u16) -> bool {
    for link in links {
        let (one, other) = (link.one.bridge, link.other.bridge);
        if one == bridge && hops.iter().any(|hop| hop.bridge == other)
            || other == bridge && hops.iter().any(|hop| hop.bridge == one)
        {
            return true;
        }
    }
    false
}

/// Appends why no frame of another hop in `hops` can reach the refused hop. Either no link joins the two bridges, or the filter accepts no
/// frame of another hop. `explain_hop_fault` calls it.
fn put_unfed(
    said: &mut TextBuilder<Global>,
    links: &[Link],
    hops: &[StreamHop],
    found: RefusedHop<'_>,
) {
    if !is_joined(links, hops, found.hop.bridge) {
        return said.put_template(
            "but no link joins {a} to the bridge of another hop of the stream.\nAdd the link, or correct `hops`.\n",
            &[],
            &[found.bridge.name()],
        );
    }
    said.put(
        "but this filter accepts no frame that another hop of the stream sends over a link.\nCompare VLAN, address, tag, `static` entries and stream gates of this hop and the hop before it.\n",
    );
}
