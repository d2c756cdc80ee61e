//! Examples of stray frames: a hop accepts them over a link, but they belong to no hop of its stream. `--explain` shows one for the fault
//! `NotClosed`.
ghost use Rattle.std.specs.Prelude.{◌≡◌, ◌<◌, ◌&&◌, ℕ, true, IfSome, Some, is_some, slice_get};
ghost use Rattle.bridge_filter.specs.OwnEvents.{is_filter_number};
ghost use Rattle.net_model.specs.LinkFrames.{matching_filter, possible_tags};
ghost use Rattle.net_model.specs.FrameSearch.{find_first, first_taken_over_link, first_taken_of_sender};
ghost use Rattle.net_model.specs.declared.sending_port.FrameQuery.TheVariants.{Strays};
ghost use Rattle.net_model.specs.SearchState.{IsTakingFilter, first_taken_frame, first_frame_with_tag};
ghost use Rattle.net_model.specs.NetworkParts.{end_value, peer_port, stream_value};
ghost use Rattle.net_model.specs.StrayFrames.{IsSample, IsStray, IsStrayAtPortNumber, IsStrayAtPort, IsStrayOfSender};
ghost use Rattle.net_model.specs.StrayFrames.{has_stray_at, has_stray_in, has_stray_on};

use crate::links::{BridgePort, Link, StreamHop, peer_port};
use crate::network_tests::{find_plan, protected_handle};
use crate::sending_port::{FrameQuery, SendingPort};
use crate::taking_filter::TakingFilter;
use bridge_check::Accepted;
use bridge_config::{Plan, PortPlan};
use bridge_frame::Tag;
use bridge_ident::StreamEntry;
use std::alloc::Allocator;

/// Stray frames that a hop accepts over a link: all with the address of `entry` and tag `tag`. `explain_open_stream` prints them.
#[derive(Clone, Copy)]
pub struct StrayFrame {
    pub entry: StreamEntry,
    pub tag: Option<Tag>,
}

/// Number of tags to try: no tag, and eight priorities each with VLAN identifier 0 and with the entry's identifier.
const TAG_COUNT: u8 = 17;

/// Returns the tag with index `i`, 0 to 16, among the tags to try; `vid` is the entry's VLAN identifier. `sample_of_entry` calls it.
fn sample_tag(i: u8, vid: u16) -> Option<Tag>
    requires { i < 17 }
    ensures { slice_get (possible_tags vid) i ≡ Some result }
{
    let dei = false;
    match i {
        0 => None,
        1..=8 => Some(Tag {
            pcp: i - 1,
            dei,
            vid: 0,
        }),
        _ => Some(Tag {
            pcp: (i % 8 + 7) % 8,
            dei,
            vid,
        }),
    }
}

impl<'a, A: Allocator + Copy> TakingFilter<'a, A> {
    /// Returns frames with the address of `entry` and the first tag for which the search has an example. `None` if no tag has one.
    /// `entry_sample` calls it.
    fn sample_of_entry(&self, entry: &StreamEntry) -> Option<StrayFrame>
        requires { IsTakingFilter self.now }
        ensures asked { IfSome result (IsSample self.now) }
        ensures found { is_some result ≡ is_some (find_first (first_frame_with_tag self.now entry.now)
            (possible_tags entry.now.vid)) }
    {
        for i in 0..TAG_COUNT {
            let tag = sample_tag(i, entry.vid);
            if let Some(_found) = self.first_frame_with_tag(entry, tag) {
                return Some(StrayFrame { entry: *entry, tag });
            }
        }
        None
    }

    /// Returns an example of frames with the address of `entry`. `None` if the search finds no frames. Entries of another port, or with
    /// another handle than the hop's filter, have no example. `first_sample` calls it.
    fn entry_sample(&self, entry: &StreamEntry) -> Option<StrayFrame>
        requires { IsTakingFilter self.now }
        ensures asked { IfSome result (IsSample self.now) }
        ensures found { is_some result ≡ is_some (find_first (first_frame_with_tag self.now entry.now)
            (possible_tags entry.now.vid)) }
    {
        if entry.port != self.on.number {
            return None;
        }
        if entry.handle != self.handle {
            return None;
        }
        self.sample_of_entry(entry)
    }

    /// Returns the first example of frames that the filter accepts at its port. `None` if the search finds no frames. Tries the bridge's
    /// entries in order. `first_stray_of_sender` calls it.
    fn first_sample(&self) -> Option<StrayFrame>
        requires { IsTakingFilter self.now }
        ensures asked { IfSome result (IsSample self.now) }
        ensures found { is_some result ≡ is_some (first_taken_frame self.now) }
    {
        for entry in self.next.streams() {
            let found = self.entry_sample(entry);
            if found.is_some() {
                return found;
            }
        }
        None
    }
}

/// Returns example frames that the bridge with plan `plan` can send from `end`. The hop's filter, with handle `handle`, would accept them
/// although they belong to no hop. `None` if the search finds no frames.
///
/// `first_stray_from_peer` calls it.
fn first_stray_of_sender<A: Allocator + Copy>(
    stream: &[StreamHop],
    hop: StreamHop,
    next: &Plan<A>,
    on: &PortPlan<A>,
    handle: u32,
    end: BridgePort,
    plan: &Plan<A>,
) -> Option<StrayFrame>
    requires { (h k : ℕ) → is_filter_number hop.filter (matching_filter next.now (Some h) k) ≡ true → h ≡ handle }
    ensures stray { IfSome result (IsStrayOfSender stream.now (end_value end) next.now on.now hop.filter
        (Some plan.now)) }
    ensures found { is_some result
        ≡ is_some (first_taken_of_sender Strays (Some plan.now) (stream_value stream.now) (end_value end) next.now
        on.now hop.filter) }
{
    match plan.port(end.port) {
        Some(_) => {
            let sending = SendingPort {
                plan,
                end,
                stream,
                question: FrameQuery::Strays,
            };
            let taking = TakingFilter {
                sending,
                next,
                on,
                filter: hop.filter,
                handle,
            };
            taking.first_sample()
        }
        None => None,
    }
}

/// Returns example stray frames that the hop's filter, with handle `handle`, would accept over a link from `end`. `None` if the search
/// finds no frames. Looks up the plan of the sending bridge.
///
/// `first_stray_over_link` calls it.
fn first_stray_from_peer<A: Allocator + Copy>(
    plans: &[Accepted<A>],
    stream: &[StreamHop],
    hop: StreamHop,
    next: &Plan<A>,
    on: &PortPlan<A>,
    handle: u32,
    end: BridgePort,
) -> Option<StrayFrame>
    requires { (h k : ℕ) → is_filter_number hop.filter (matching_filter next.now (Some h) k) ≡ true → h ≡ handle }
    ensures stray { IfSome result (IsStrayOfSender stream.now (end_value end) next.now on.now hop.filter
        (slice_get plans.now end.bridge)) }
    ensures found { is_some result ≡ is_some (first_taken_of_sender Strays (slice_get plans.now end.bridge)
        (stream_value stream.now)
        (end_value end) next.now on.now hop.filter) }
{
    match find_plan(plans, end.bridge) {
        Some(plan) => first_stray_of_sender(stream, hop, next, on, handle, end, plan),
        None => None,
    }
}

/// Returns example stray frames that the hop's filter, with handle `handle`, would accept over the link of port `on`. `None` without frames
/// or link. `first_stray_on_port` calls it.
fn first_stray_over_link<A: Allocator + Copy>(
    plans: &[Accepted<A>],
    links: &[Link],
    stream: &[StreamHop],
    hop: StreamHop,
    next: &Plan<A>,
    on: &PortPlan<A>,
    handle: u32,
) -> Option<StrayFrame>
    requires { (h k : ℕ) → is_filter_number hop.filter (matching_filter next.now (Some h) k) ≡ true → h ≡ handle }
    ensures stray { IfSome result (IsStrayAtPort plans.now links.now stream.now hop next.now (Some on.now)) }
    ensures found { is_some result ≡ is_some (first_taken_over_link Strays plans.now (stream_value stream.now)
        (peer_port links.now hop.bridge on.now.number) next.now on.now hop.filter) }
{
    match peer_port(links, hop.bridge, on.number) {
        Some(end) => first_stray_from_peer(plans, stream, hop, next, on, handle, end),
        None => None,
    }
}

/// Returns example stray frames at port `on` of the hop's bridge. `None` if the search finds no frames, or if the hop's filter names no
/// handle. `first_stray_on_port_number` calls it.
fn first_stray_on_port<A: Allocator + Copy>(
    plans: &[Accepted<A>],
    links: &[Link],
    stream: &[StreamHop],
    hop: StreamHop,
    next: &Plan<A>,
    on: &PortPlan<A>,
) -> Option<StrayFrame>
    ensures stray { IfSome result (IsStrayAtPort plans.now links.now stream.now hop next.now (Some on.now)) }
    ensures found { is_some result ≡ has_stray_on plans.now links.now stream.now hop next.now (Some on.now) }
{
    let filters = next.filters();
    match protected_handle(filters, hop.filter) {
        Some(handle) => first_stray_over_link(plans, links, stream, hop, next, on, handle),
        None => None,
    }
}

/// Returns example stray frames at the port with number `port`. `None` if the search finds no frames, or if the hop's bridge lacks the
/// port. `find_stray` calls it.
fn first_stray_on_port_number<A: Allocator + Copy>(
    plans: &[Accepted<A>],
    links: &[Link],
    stream: &[StreamHop],
    hop: StreamHop,
    next: &Plan<A>,
    port: u8,
) -> Option<StrayFrame>
    ensures stray { IfSome result (IsStrayAtPortNumber plans.now links.now stream.now hop port (Some next.now)) }
    ensures found { is_some result ≡ has_stray_in plans.now links.now stream.now hop port (Some next.now) }
{
    match next.port(port) {
        Some(on) => first_stray_on_port(plans, links, stream, hop, next, on),
        None => None,
    }
}

/// Returns example frames that a hop accepts at a port over its link although they belong to no hop of the stream. Returns frames exactly
/// if the test `Closed` finds stray frames at port `port`.
///
/// `explain_open_stream` of `net_check` calls it.
pub fn find_stray<A: Allocator + Copy>(
    plans: &[Accepted<A>],
    links: &[Link],
    stream: &[StreamHop],
    hop: StreamHop,
    port: u8,
) -> Option<StrayFrame>
    ensures stray { IfSome result (IsStray plans.now links.now stream.now hop port) }
    ensures found { is_some result ≡ has_stray_at plans.now links.now stream.now hop port }
{
    match find_plan(plans, hop.bridge) {
        Some(next) => first_stray_on_port_number(plans, links, stream, hop, next, port),
        None => None,
    }
}
