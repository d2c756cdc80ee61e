//! Explanations of the fault `NotClosed`: a hop accepts stray frames. They show an example of a stray frame, and remedies.

use crate::link_faults::bridge_plan;
use crate::refusing::bridge_name;
use crate::warning_lines::address_words;
use bridge_bounds::find_filter;
use bridge_check::{Accepted, filter_reach};
use bridge_config::Plan;
use bridge_filter::FilterPlan;
use bridge_frame::Tag;
use bridge_ident::Kind;
use bridge_text::TextBuilder;
use net_file::{BridgeRow, NetField, NetSection};
use net_latency::NetworkText;
use net_model::{
    BridgePort, Link, NetworkFault, RefusedNetwork, StrayFrame, StreamHop, find_stray, peer_port,
};
use std::alloc::{Allocator, Global};

/// The values of a fault `NotClosed`: the stream, its hop that accepts stray frames, and how the sending bridge passes them.
#[derive(Clone, Copy)]
struct OpenStream {
    /// Number of the stream in the network file, from 1.
    stream: usize,
    /// Number of the hop in the stream, from 1.
    hop: usize,
    /// Port of the hop's bridge on which the hop accepts stray frames.
    port: u8,
    /// Filter of the stray frames at the sending bridge, the bridge at the other end of the link, or `None` if no filter matches.
    filter: Option<u32>,
    /// Port of the sending bridge on which the stray frames arrive.
    from: u8,
}

/// Returns the values of the fault `NotClosed`, or `None` for other faults. `explain_open_stream` calls it.
fn open_stream(refused: &RefusedNetwork<Global>) -> Option<OpenStream> {
    match refused.fault {
        NetworkFault::NotClosed {
            stream,
            hop,
            port,
            filter,
            from,
            ..
        } => Some(OpenStream {
            stream,
            hop,
            port,
            filter,
            from,
        }),
        _ => None,
    }
}

/// Explains a stream that isn't closed: the hop, an example of a stray frame, and remedies. `explain_refusal` calls it. `None` for other
/// faults or without memory.
pub(crate) fn explain_open_stream(
    heap: Global,
    asked: NetworkText<'_>,
    refused: &RefusedNetwork<Global>,
) -> Option<String> {
    let open = open_stream(refused)?;
    let file = asked.file;
    let place = open.stream.checked_sub(1)?;
    let row = file.streams().get(place)?;
    let hops = refused.streams.get(place)?.as_slice();
    let hop = *hops.get(open.hop.checked_sub(1)?)?;
    let plans = refused.plans.as_slice();
    let links = refused.links.as_slice();
    let stray = find_stray(plans, links, hops, hop, open.port)?;
    let end = peer_port(links, hop.bridge, open.port)?;
    let sender = plans.get(end.bridge as usize)?.plan();
    let mut said = TextBuilder::new(heap);
    put_open_hop(&mut said, asked, row.name(), hop, open);
    put_stray_frame(heap, &mut said, file.bridges(), &stray, end, open);
    if is_left_out(refused, hops, end, open) {
        put_left_out(&mut said, asked, row.name(), end, open);
    } else {
        put_remedy_heading(&mut said, "Repair", asked, end);
    }
    put_remedies(&mut said, sender, hops, &stray, end, open);
    said.finish().ok()
}

/// Returns whether a filter of a bridge is a hop of one of these streams. `is_left_out` calls it.
fn is_hop<A: Allocator + Copy>(streams: &[Vec<StreamHop, A>], bridge: u16, filter: u32) -> bool {
    for hops in streams {
        for hop in hops {
            if hop.bridge == bridge && hop.filter == filter {
                return true;
            }
        }
    }
    false
}

/// Returns whether frames of one of these hops can arrive over the link of port `port` of bridge `bridge`. Then a hop at the link's other
/// end has a reachable queue there. `is_left_out` calls it.
fn is_fed<A: Allocator + Copy>(
    plans: &[Accepted<A>],
    links: &[Link],
    hops: &[StreamHop],
    bridge: u16,
    port: u8,
) -> bool {
    let Some(end) = peer_port(links, bridge, port) else {
        return false;
    };
    let Some(feeder) = plans.get(end.bridge as usize) else {
        return false;
    };
    for hop in hops {
        if hop.bridge == end.bridge {
            if let Some(filter) = find_filter(feeder.plan().filters(), hop.filter) {
                if can_leave_by_port(feeder.plan(), &filter, end.port) {
                    return true;
                }
            }
        }
    }
    false
}

/// Returns whether the filter of one of these hops has the handle `handle`; `None` stands for a filter without handle. `is_left_out` calls
/// it.
fn is_handle_of_hop<A: Allocator + Copy>(
    plans: &[Accepted<A>],
    hops: &[StreamHop],
    handle: Option<u32>,
) -> bool {
    for hop in hops {
        if let Some(bridge) = plans.get(hop.bridge as usize) {
            if let Some(filter) = find_filter(bridge.plan().filters(), hop.filter) {
                if filter.handle == handle {
                    return true;
                }
            }
        }
    }
    false
}

/// Returns whether a filter has a reachable queue at a port, so that its frames can leave by the port. `is_fed` calls it.
fn can_leave_by_port<A: Allocator + Copy>(plan: &Plan<A>, filter: &FilterPlan, port: u8) -> bool {
    let reach = filter_reach(plan, filter);
    match reach.ports.get(usize::from(port).saturating_sub(1)) {
        Some(reaches) => *reaches,
        None => false,
    }
}

/// Returns whether the stray frames' filter is likely a forgotten hop: it is protected and in no stream.
///
/// Also it has the handle of a hop, or frames of the stream can arrive at port `open.from`.
///
/// `explain_open_stream` calls it.
fn is_left_out(
    refused: &RefusedNetwork<Global>,
    hops: &[StreamHop],
    end: BridgePort,
    open: OpenStream,
) -> bool {
    let plans = refused.plans.as_slice();
    let (Some(number), Some(sender)) = (open.filter, plans.get(end.bridge as usize)) else {
        return false;
    };
    let Some(filter) = find_filter(sender.plan().filters(), number) else {
        return false;
    };
    if !filter.protected || is_hop(refused.streams.as_slice(), end.bridge, number) {
        return false;
    }
    is_handle_of_hop(plans, hops, filter.handle)
        || is_fed(plans, refused.links.as_slice(), hops, end.bridge, open.from)
}

/// Appends the remedy to add the stray frames' filter to the stream's `hops`, and the heading of the other remedies. `explain_open_stream`
/// calls it.
fn put_left_out(
    said: &mut TextBuilder<Global>,
    asked: NetworkText<'_>,
    stream: &str,
    end: BridgePort,
    open: OpenStream,
) {
    said.put_template(
        "Add \"{a}.{0}\" to the `hops` of stream \"{b}\": filter {0} of {a} is protected and belongs to no stream.\n",
        &[u64::from(open.filter.unwrap_or(0))],
        &[bridge_name(asked.file.bridges(), end.bridge), stream],
    );
    put_remedy_heading(said, "Otherwise repair", asked, end);
}

/// Appends the heading of the list of remedies, which names the sending bridge and its plan's file. `word` begins the sentence.
/// `explain_open_stream` and `put_left_out` call it.
fn put_remedy_heading(
    said: &mut TextBuilder<Global>,
    word: &str,
    asked: NetworkText<'_>,
    end: BridgePort,
) {
    let name = bridge_name(asked.file.bridges(), end.bridge);
    said.put_template(
        "{a} the plan of {b} ({c}) in one of these ways:\n",
        &[],
        &[word, name, bridge_plan(asked, end)],
    );
}

/// Appends the position of the stream's key `hops` in the file, and a sentence with the hop that accepts stray frames.
/// `explain_open_stream` calls it.
fn put_open_hop(
    said: &mut TextBuilder<Global>,
    asked: NetworkText<'_>,
    stream: &str,
    hop: StreamHop,
    open: OpenStream,
) {
    let key = NetField::Hops.key();
    asked.put_place(said, NetSection::Stream, open.stream, Some(key));
    said.put_template(
        "hop {0} of stream \"{a}\" (filter {1} of {b}) accepts frames from outside the stream on port {2}.\n",
        &[open.hop as u64, u64::from(hop.filter), u64::from(open.port)],
        &[stream, bridge_name(asked.file.bridges(), hop.bridge)],
    );
}

/// Appends the tag of the example frame in words; `None` stands for an untagged frame. `put_stray_frame` calls it.
fn put_tag(said: &mut TextBuilder<Global>, tag: Option<Tag>) {
    let Some(tag) = tag else {
        return said.put("no tag");
    };
    let template = if tag.vid == 0 {
        "a priority tag (VLAN 0) and priority {0}"
    } else {
        "VLAN {1} and priority {0}"
    };
    said.put_template(template, &[u64::from(tag.pcp), u64::from(tag.vid)], &[]);
}

/// Appends an example of a stray frame: its tag, its address, the port of arrival, and the filter that passes it. If memory runs out, the
/// whole text is discarded. `explain_open_stream` calls it.
fn put_stray_frame<A: Allocator + Copy>(
    heap: Global,
    said: &mut TextBuilder<Global>,
    bridges: &[BridgeRow<A>],
    stray: &StrayFrame,
    end: BridgePort,
    open: OpenStream,
) {
    let Ok(address) = address_words(heap, &stray.entry.address) else {
        return said.discard();
    };
    let looks = match stray.entry.kind {
        Kind::Null => "to",
        Kind::Source => "from",
    };
    said.put("Example: a frame with ");
    put_tag(said, stray.tag);
    said.put_template(
        ", {a} {b}, enters {c} on port {0}. ",
        &[u64::from(open.from)],
        &[looks, address.as_str(), bridge_name(bridges, end.bridge)],
    );
    let template = match open.filter {
        Some(_) => "Filter {0} passes it to port {1}.\n",
        None => "It has no filter, and leaves by port {1}.\n",
    };
    let filter = open.filter.unwrap_or(0);
    said.put_template(template, &[u64::from(filter), u64::from(end.port)], &[]);
}

/// Returns the VLAN in which the sending bridge classifies the example frame on port `from`. A remedy names this VLAN. Returns 0 if the
/// port is missing. `put_remedies` calls it.
fn sender_vlan<A: Allocator + Copy>(sender: &Plan<A>, from: u8, tag: Option<Tag>) -> u16 {
    match (tag, sender.port(from)) {
        (Some(tag), _) if tag.vid != 0 => tag.vid,
        (_, Some(on)) => on.vid,
        _ => 0,
    }
}

/// Returns the filter of the stream's first hop at the sending bridge. Returns `None` if the stream has no hop there or the plan lacks the
/// filter. `stream_handle` calls it.
fn first_hop_filter<A: Allocator + Copy>(
    sender: &Plan<A>,
    hops: &[StreamHop],
    bridge: u16,
) -> Option<FilterPlan> {
    for hop in hops {
        if hop.bridge == bridge {
            return find_filter(sender.filters(), hop.filter);
        }
    }
    None
}

/// Returns the handle of the stream's hop at the sending bridge, if its filter matches every priority. Only then can an entry with this
/// handle catch all stray frames. `put_remedies` calls it.
fn stream_handle<A: Allocator + Copy>(
    sender: &Plan<A>,
    hops: &[StreamHop],
    bridge: u16,
) -> Option<u32> {
    let filter = first_hop_filter(sender, hops, bridge)?;
    match filter.priority {
        None => filter.handle,
        Some(_) => None,
    }
}

/// Appends the remedies against stray frames. The remedy with the stream's handle is left out if `stream_handle` finds none.
/// `explain_open_stream` calls it.
fn put_remedies<A: Allocator + Copy>(
    said: &mut TextBuilder<Global>,
    sender: &Plan<A>,
    hops: &[StreamHop],
    stray: &StrayFrame,
    end: BridgePort,
    open: OpenStream,
) {
    let from = u64::from(open.from);
    let vid = u64::from(sender_vlan(sender, open.from, stray.tag));
    let filter = u64::from(open.filter.unwrap_or(0));
    let (first, last) = match open.filter {
        Some(_) => (
            "  close the gate of filter {0}, which then passes no frame;\n  remove port {1} from VLAN {2};\n",
            "  add a `stream` entry on port {1} with another handle, whose filter has a closed gate and a number below {0}.\n",
        ),
        None => (
            "  remove port {1} from VLAN {2};\n",
            "  add a `stream` entry on port {1} with another handle, whose filter has a closed gate.\n",
        ),
    };
    said.put_template(first, &[filter, from, vid], &[]);
    if let Some(handle) = stream_handle(sender, hops, end.bridge) {
        said.put_template(
            "  add a `stream` entry of handle {1} on port {0}, so that the stream's gate and meter police these frames too;\n",
            &[from, u64::from(handle)],
            &[],
        );
    }
    said.put_template(last, &[filter, from], &[]);
}
