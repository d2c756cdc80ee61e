//! Warnings that need no delays: frames that may loop, filters in no stream, and limits that fall along a stream.
ghost use Rattle.std.specs.Prelude.{◌≡◌, ◌<◌, ◌≤◌, ◌+◌, ◌++◌, All, IfOk, OnOk, flat_map, length, slice_get, string_bytes};
ghost use Rattle.net_file.specs.Model as file;
ghost use Rattle.net_check.specs.Telling as spec;
ghost use Rattle.net_check.specs.Telling.{AreNetworkWarnings, address_text, destination_text, sdu_fall_line, sdu_fall_text, sdu_falls, stream_sdu_falls, unlisted_filters, unlisted_of_plan, unlisted_text, unlisted_words, loop_line, loop_words, vlan_text};

use crate::refusing::bridge_name;
use bridge_check::Accepted;
use bridge_config::Plan;
use bridge_filter::FilterPlan;
use bridge_ident::StreamEntry;
use bridge_limits::NoMemory;
use net_file::{BridgeRow, LinkRow, NetworkFile, StreamRow};
use net_model::{ForwardingLoop, Network, find_forwarding_loops, find_plan};
use std::alloc::{AllocError, Allocator, Global};

/// Returns the number of a VLAN, or `none` for frames whose tag names no VLAN. `push_loop` calls it.
fn vlan_words(heap: Global, vlan: &Option<u16>) -> Result<String, AllocError>
    ensures { IfOk result (λ words. string_bytes words ≡ vlan_text vlan.now) }
{
    match vlan {
        None => String::from_str(heap, "none"),
        Some(vid) => format!(in heap; "{vid}"),
    }
}

/// Returns the text of an address: six octets, each as two hexadecimal digits, joined by hyphens. `destination_words` and `put_stray_frame`
/// call it.
#[tactic(auto, unfolding(crate::specs::Telling::address_text))]
pub(crate) fn address_words(heap: Global, address: &[u8; 6]) -> Result<String, AllocError>
    ensures { IfOk result (λ words. string_bytes words ≡ address_text address.now) }
{
    let [a, b, c, d, e, f] = *address;
    format!(in heap; "{a:02X}-{b:02X}-{c:02X}-{d:02X}-{e:02X}-{f:02X}")
}

/// Returns the words for a destination address, or for all destinations without a static entry (`None`). `push_loop` calls it.
fn destination_words(heap: Global, destination: &Option<[u8; 6]>) -> Result<String, AllocError>
    ensures { IfOk result (λ words. string_bytes words ≡ destination_text destination.now) }
{
    match destination {
        None => String::from_str(heap, "any other destination"),
        Some(address) => {
            let words = address_words(heap, address)?;
            format!(in heap; "destination {words}")
        }
    }
}

/// Appends the warning about frames that may loop, from the texts of its parts: VLAN, destination, bridge name and port. `push_loop` calls
/// it.
#[tactic(auto, unfolding(crate::specs::Telling::loop_words))]
fn push_loop_words(
    text: &mut String,
    vlan: &str,
    destination: &str,
    name: &str,
    port: u8,
) -> Result<(), AllocError>
    ensures { OnOk result (string_bytes text.new ≡ string_bytes text.old
        ++ loop_words vlan.now destination.now name.now port) }
{
    write!(
        text,
        "may go round: VLAN {vlan} {destination} at {name}.{port}\n"
    )
}

/// Appends the warning about one group of frames that may loop, with a port at which they can arrive again and again. `push_loops` calls
/// it.
fn push_loop<A: Allocator + Copy>(
    heap: Global,
    text: &mut String,
    bridges: &[BridgeRow<A>],
    row: &ForwardingLoop,
) -> Result<(), AllocError>
    ensures { OnOk result (string_bytes text.new ≡ string_bytes text.old ++ loop_line bridges.now row.now) }
{
    let vlan = vlan_words(heap, &row.group.vlan)?;
    let destination = destination_words(heap, &row.group.destination)?;
    let name = bridge_name(bridges, row.at.bridge);
    push_loop_words(text, vlan.as_str(), destination.as_str(), name, row.at.port)
}

/// Appends a warning for each group of frames that may loop. `network_warnings` and `loop_lines` call it.
pub(crate) fn push_loops<A: Allocator + Copy>(
    heap: Global,
    text: &mut String,
    bridges: &[BridgeRow<A>],
    rows: &[ForwardingLoop],
) -> Result<(), AllocError>
    ensures { OnOk result (string_bytes text.new ≡ string_bytes text.old
        ++ flat_map (loop_line bridges.now) rows.now) }
{
    for row in rows {
        let Ok(()) = push_loop(heap, text, bridges, row) else {
            return Err(AllocError);
        };
    }
    Ok(())
}

/// Returns whether one of these streams has filter `filter` of the bridge with index `bridge` as a hop. `is_unlisted` calls it.
fn has_hop<A: Allocator + Copy>(streams: &[StreamRow<A>], bridge: u16, filter: u32) -> bool
    ensures { result ≡ spec.has_hop streams.now bridge filter }
{
    for stream in streams {
        if is_hop(stream.hops(), bridge, filter) {
            return true;
        }
    }
    false
}

/// Returns whether one of these hops is filter `filter` of the bridge with index `bridge`. `has_hop` calls it.
fn is_hop(hops: &[(u16, u32)], bridge: u16, filter: u32) -> bool
    ensures { result ≡ spec.is_hop hops.now bridge filter }
{
    hops.iter().any(|hop| hop.0 == bridge && hop.1 == filter)
}

/// Returns whether a port of a bridge has a link in the network file. `has_linked_entry` calls it.
fn has_link(links: &[LinkRow], bridge: u16, port: u8) -> bool
    ensures { result ≡ spec.has_link links.now bridge port }
{
    links.iter().any(|link| {
        (link.one.0 == bridge && link.one.1 == port)
            || (link.other.0 == bridge && link.other.1 == port)
    })
}

/// Returns whether one of these entries of bridge `bridge` has handle `handle` and is on a linked port. `is_entered_by_link` calls it.
fn has_linked_entry(links: &[LinkRow], bridge: u16, entries: &[StreamEntry], handle: u32) -> bool
    ensures { result ≡ spec.has_linked_entry links.now bridge entries.now handle }
{
    entries.iter().any(|entry| entry.handle == handle && has_link(links, bridge, entry.port))
}

/// Returns whether frames can get handle `handle` over a link: a stream entry of bridge `bridge` with this handle is on a linked port.
/// Returns false for `None`. `is_unlisted` calls it.
fn is_entered_by_link<A: Allocator + Copy>(
    links: &[LinkRow],
    bridge: u16,
    plan: &Plan<A>,
    handle: Option<u32>,
) -> bool
    ensures { result ≡ spec.is_entered_by_link links.now bridge plan.now handle }
{
    match handle {
        None => false,
        Some(handle) => {
            let entries = plan.streams();
            has_linked_entry(links, bridge, entries, handle)
        }
    }
}

/// Returns whether a filter of bridge `bridge` is protected, its frames can arrive over a link, and it is a hop of no stream. The filter is
/// then likely a forgotten hop. `push_unlisted_filter` calls it.
fn is_unlisted<A: Allocator + Copy>(
    links: &[LinkRow],
    streams: &[StreamRow<A>],
    bridge: u16,
    plan: &Plan<A>,
    filter: &(u32, FilterPlan),
) -> bool
    ensures { result ≡ spec.is_unlisted links.now streams.now bridge plan.now filter.now }
{
    if !filter.1.protected {
        return false;
    }
    is_entered_by_link(links, bridge, plan, filter.1.handle) && !has_hop(streams, bridge, filter.0)
}

/// Appends the warning `in no stream` about filter `filter` of the bridge with name `name`. `push_unlisted_filter` calls it.
#[tactic(auto, unfolding(crate::specs::Telling::unlisted_words))]
fn push_unlisted_line(text: &mut String, name: &str, filter: u32) -> Result<(), AllocError>
    ensures { OnOk result (string_bytes text.new ≡ string_bytes text.old ++ unlisted_words name.now filter) }
{
    write!(text, "in no stream: {name}.{filter}\n")
}

/// Appends the warning `in no stream` about a filter of bridge `bridge`, if the filter is likely a forgotten hop (`is_unlisted`).
/// `push_unlisted_of_plan` calls it.
fn push_unlisted_filter<A: Allocator + Copy>(
    text: &mut String,
    file: &NetworkFile<A>,
    bridge: u16,
    plan: &Plan<A>,
    filter: &(u32, FilterPlan),
) -> Result<(), AllocError>
    ensures { OnOk result (string_bytes text.new ≡ string_bytes text.old
        ++ unlisted_text file.now bridge plan.now filter.now) }
{
    if !is_unlisted(file.links(), file.streams(), bridge, plan, filter) {
        return Ok(());
    }
    let name = bridge_name(file.bridges(), bridge);
    push_unlisted_line(text, name, filter.0)
}

/// Appends the warnings about the filters of bridge `bridge` that are likely forgotten hops. `push_unlisted_filters` calls it.
fn push_unlisted_of_plan<A: Allocator + Copy>(
    text: &mut String,
    file: &NetworkFile<A>,
    bridge: u16,
    plan: &Plan<A>,
) -> Result<(), AllocError>
    ensures { OnOk result (string_bytes text.new ≡ string_bytes text.old ++ unlisted_of_plan file.now bridge plan.now) }
{
    for filter in plan.filters() {
        let Ok(()) = push_unlisted_filter(text, file, bridge, plan, filter) else {
            return Err(AllocError);
        };
    }
    Ok(())
}

/// Appends the warnings about filters that are likely forgotten hops, plan by plan. `network_warnings` calls it.
fn push_unlisted_filters<A: Allocator + Copy>(
    text: &mut String,
    file: &NetworkFile<A>,
    plans: &[Accepted<A>],
) -> Result<(), AllocError>
    requires few { length plans.now ≤ 64 }
    ensures { OnOk result (string_bytes text.new ≡ string_bytes text.old ++ unlisted_filters file.now 0 plans.now) }
{
    for b in 0..plans.len() {
        let Ok(()) = push_unlisted_of_plan(text, file, b as u16, plans[b].plan()) else {
            return Err(AllocError);
        };
    }
    Ok(())
}

/// Returns the limit in octets (`max_sdu`) of the filter with number `number`. Returns `None` if the filter is missing or has no limit.
/// `hop_sdu` calls it.
fn filter_sdu<A: Allocator + Copy>(plan: &Plan<A>, number: u32) -> Option<u32>
    ensures { result ≡ spec.filter_sdu (Some plan.now) number }
{
    for filter in plan.filters() {
        if filter.0 == number {
            return filter.1.max_sdu;
        }
    }
    None
}

/// Returns the limit in octets (`max_sdu`) of a hop's filter. Returns `None` if the plan or the filter is missing, or the filter has no
/// limit. `is_sdu_falling` calls it.
fn hop_sdu<A: Allocator + Copy>(plans: &[Accepted<A>], hop: (u16, u32)) -> Option<u32>
    ensures { result ≡ spec.hop_sdu plans.now hop }
{
    match find_plan(plans, hop.0) {
        Some(plan) => filter_sdu(plan, hop.1),
        None => None,
    }
}

/// Returns whether limit `b` is less than limit `a`, both in octets. Returns false if one of them is `None`, which means no limit.
/// `is_sdu_falling` calls it.
fn is_smaller_limit(a: Option<u32>, b: Option<u32>) -> bool
    ensures { result ≡ spec.is_smaller_limit a b }
{
    match (a, b) {
        (Some(a), Some(b)) => b < a,
        _ => false,
    }
}

/// Appends the warning that `max_sdu` falls at hop `k` of stream `i`, both indexes from 0. `push_sdu_fall` calls it.
#[tactic(auto, unfolding(crate::specs::Telling::sdu_fall_line))]
fn push_sdu_fall_line(text: &mut String, i: usize, k: usize) -> Result<(), AllocError>
    requires stream { i < 1024 }
    requires hop { k ≤ 64 }
    ensures { OnOk result (string_bytes text.new ≡ string_bytes text.old ++ sdu_fall_line i k) }
{
    let stream = i + 1;
    let hop = k + 1;
    write!(text, "max_sdu falls: stream {stream} hop {hop}\n")
}

/// Returns whether hop `next` has a lower `max_sdu` than hop `before`. Then it refuses some frames that the earlier hop passes. Returns
/// false if a hop is missing. `is_sdu_falling_at_index` calls it.
fn is_sdu_falling<A: Allocator + Copy>(
    plans: &[Accepted<A>],
    before: Option<(u16, u32)>,
    next: Option<(u16, u32)>,
) -> bool
    ensures { result ≡ spec.is_sdu_falling plans.now before next }
{
    match before {
        Some(before) => match next {
            Some(next) => is_smaller_limit(hop_sdu(plans, before), hop_sdu(plans, next)),
            None => false,
        },
        None => false,
    }
}

/// Returns the hop with index `k`, or `None` after the last hop. `is_sdu_falling_at_index` calls it.
fn hop_at_index(hops: &[(u16, u32)], k: usize) -> Option<(u16, u32)>
    ensures { result ≡ slice_get hops.now k }
{
    if k < hops.len() { Some(hops[k]) } else { None }
}

/// Returns whether the hop after index `k` has a lower `max_sdu` than the hop with index `k`. `push_sdu_fall` calls it.
fn is_sdu_falling_at_index<A: Allocator + Copy>(
    plans: &[Accepted<A>],
    hops: &[(u16, u32)],
    k: usize,
) -> bool
    requires { k < length hops.now }
    ensures { result ≡ spec.is_sdu_falling plans.now (slice_get hops.now k) (slice_get hops.now (k + 1)) }
{
    let before = hop_at_index(hops, k);
    let next = hop_at_index(hops, k + 1);
    is_sdu_falling(plans, before, next)
}

/// Appends the warning about the hop after index `k` of stream `i`, if it has a lower `max_sdu` than the hop with index `k`.
/// `push_stream_sdu_falls` calls it.
fn push_sdu_fall<A: Allocator + Copy>(
    text: &mut String,
    plans: &[Accepted<A>],
    i: usize,
    hops: &[(u16, u32)],
    k: usize,
) -> Result<(), AllocError>
    requires stream { i < 1024 }
    requires hop { k < length hops.now }
    requires few { length hops.now ≤ 64 }
    ensures { OnOk result (string_bytes text.new ≡ string_bytes text.old ++ sdu_fall_text plans.now i hops.now k) }
{
    if is_sdu_falling_at_index(plans, hops, k) {
        return push_sdu_fall_line(text, i, k + 1);
    }
    Ok(())
}

/// Appends the warnings about the hops of stream `i`, from 0, that have a lower `max_sdu` than the hop before. `push_sdu_falls` calls it.
fn push_stream_sdu_falls<A: Allocator + Copy>(
    text: &mut String,
    plans: &[Accepted<A>],
    i: usize,
    hops: &[(u16, u32)],
) -> Result<(), AllocError>
    requires stream { i < 1024 }
    requires few { length hops.now ≤ 64 }
    ensures { OnOk result (string_bytes text.new ≡ string_bytes text.old ++ stream_sdu_falls plans.now i hops.now) }
{
    for k in 0..hops.len() {
        let Ok(()) = push_sdu_fall(text, plans, i, hops, k) else {
            return Err(AllocError);
        };
    }
    Ok(())
}

/// Appends the warnings of all streams' hops that have a lower `max_sdu` than the hop before. `push_file_sdu_falls` calls it.
fn push_sdu_falls<A: Allocator + Copy>(
    text: &mut String,
    plans: &[Accepted<A>],
    streams: &[StreamRow<A>],
) -> Result<(), AllocError>
    requires few { length streams.now ≤ 1024 }
    requires each { All (λ s. length s.hops ≤ 64) streams.now }
    ensures { OnOk result (string_bytes text.new ≡ string_bytes text.old ++ sdu_falls plans.now 0 streams.now) }
{
    for i in 0..streams.len() {
        let Ok(()) = push_stream_sdu_falls(text, plans, i, streams[i].hops()) else {
            return Err(AllocError);
        };
    }
    Ok(())
}

/// Appends the warnings about falling `max_sdu` for all streams of the network file. `network_warnings` calls it.
fn push_file_sdu_falls<A: Allocator + Copy>(
    text: &mut String,
    file: &NetworkFile<A>,
    plans: &[Accepted<A>],
) -> Result<(), AllocError>
    ensures { OnOk result (string_bytes text.new ≡ string_bytes text.old ++ sdu_falls plans.now 0 file.now.streams) }
{
    push_sdu_falls(text, plans, file.streams())
}

/// Returns the warnings that need no delays: frames that may loop, protected filters in no stream, hops with a lower limit than the hop
/// before. `all_warnings` calls it.
pub(crate) fn network_warnings<A: Allocator + Copy>(
    alloc: A,
    heap: Global,
    file: &NetworkFile<A>,
    network: &Network<A>,
) -> Result<String, NoMemory>
    requires few { length network.now.plans ≤ 64 }
    ensures { IfOk result (λ text. AreNetworkWarnings file.now network.now (string_bytes text)) }
{
    let Ok(rows) = find_forwarding_loops(alloc, network.plans(), network.links()) else {
        return Err(NoMemory);
    };
    let mut text = String::new(heap);
    let Ok(()) = push_loops(heap, &mut text, file.bridges(), &rows) else {
        return Err(NoMemory);
    };
    let Ok(()) = push_unlisted_filters(&mut text, file, network.plans()) else {
        return Err(NoMemory);
    };
    let Ok(()) = push_file_sdu_falls(&mut text, file, network.plans()) else {
        return Err(NoMemory);
    };
    Ok(text)
}
