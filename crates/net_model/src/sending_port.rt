//! Frames that a bridge can send over a link: the sender's side of the search for stray and own frames.
ghost use Rattle.std.specs.Prelude.{◌≡◌, ◌≤◌, ◌||◌, Some, false};
ghost use Rattle.bridge_ident.specs.Identification as ident;
ghost use Rattle.bridge_filter.specs.Verdicts.{filter_input, frame_filter};
ghost use Rattle.bridge_config.specs.Rules.{find_port};
ghost use Rattle.bridge_check.specs.Faults.{first_option};
ghost use Rattle.bridge_check.specs.Reach.{reaches_queue};
ghost use Rattle.bridge_check.specs.ReachTables.{filter_reach};
ghost use Rattle.bridge_check.specs.FrameInput as classified;
ghost use Rattle.net_model.specs.LinkFrames as feeding;
ghost use Rattle.net_model.specs.LinkFrames.{possible_handles, frame_pattern};
ghost use Rattle.net_model.specs.FrameSearch.{find_first, is_asked, is_own_filter, first_sent_frame, first_frame_on_ingress};
ghost use Rattle.net_model.specs.SearchState.{IsSendingPort, frames_from_port, frames_on_ingress_number, hops, lesser_optional_filter};

use crate::links::{BridgePort, StreamHop, has_hop};
use bridge_check::{Reach, can_wait_in_reach, filter_reach};
use bridge_config::{Plan, PortPlan};
use bridge_filter::{FilterPlan, is_handle_match, is_priority_match};
use bridge_frame::Tag;
use bridge_ident::{Kind, StreamEntry, TagKind, has_vlan_tag};
use std::alloc::Allocator;

/// Kind of frames that a search looks for. The test `Closed` looks for stray frames, the test `Fed` for own frames.
#[derive(Clone, Copy)]
pub(crate) enum FrameQuery {
    /// Stray frames: they belong to no hop of the stream.
    Strays,
    /// Own frames: they belong to a hop of the stream.
    Own,
}

/// Example of frames that a hop can accept. The fault `NotClosed` names them.
#[derive(Clone, Copy)]
pub(crate) struct FoundFrames {
    /// Filter of the frames at the sender, or `None` if no filter matches.
    pub filter: Option<u32>,
    /// Port of the sending bridge on which the frames arrive there.
    pub from: u8,
}

/// A port of a bridge that sends over a link, and the kind of frames for which the search looks.
#[derive(Drop)]
pub(crate) struct SendingPort<'a, A: Allocator + Copy> {
    /// Plan of the sending bridge.
    pub plan: &'a Plan<A>,
    /// The sending port: bridge index and port number.
    pub end: BridgePort,
    /// The stream of the search: own frames belong to one of its hops, stray frames to none.
    pub stream: &'a [StreamHop],
    /// Whether the search is for stray or own frames.
    pub question: FrameQuery,
}

/// Returns whether a stream entry of tag kind `kind` accepts a frame with tag `tag`, which is `None` for an untagged frame. `can_match` and
/// `maps_tag_to_filter` call it.
pub(crate) fn accepts_tag(kind: TagKind, tag: Option<Tag>) -> bool
    ensures { result ≡ ident.accepts_tag kind tag }
{
    match kind {
        TagKind::Tagged => has_vlan_tag(tag),
        TagKind::Priority => !has_vlan_tag(tag),
        TagKind::All => true,
    }
}

/// Returns the VLAN in which `port` classifies a frame with tag `tag`, which is `None` for an untagged frame. `is_forwarded`, `gives_all`
/// and 3 more call it.
pub(crate) fn classified_vid<A: Allocator + Copy>(port: &PortPlan<A>, tag: Option<Tag>) -> u16
    ensures { result ≡ classified.frame_vid port.now tag }
{
    match tag {
        None => port.vid,
        Some(tag) => { if tag.vid == 0 { port.vid } else { tag.vid } }
    }
}

/// Returns the priority that a frame with tag `tag` has on `port`; `tag` is `None` for an untagged frame. `is_given`, `maps_tag_to_filter`
/// and `first_frame_on_ingress` call it.
pub(crate) fn frame_priority<A: Allocator + Copy>(port: &PortPlan<A>, tag: Option<Tag>) -> u8
    ensures { result ≡ classified.frame_priority port.now tag }
{
    match tag {
        None => port.priority,
        Some(tag) => tag.pcp,
    }
}

/// Returns whether both entries compare the destination address, or both the source address. `gives_all`, `can_match` and `first_by_handle`
/// call it.
pub(crate) fn is_same_kind(a: Kind, b: Kind) -> bool
    ensures { result ≡ feeding.is_same_kind a b }
{
    match (a, b) {
        (Kind::Null, Kind::Null) => true,
        (Kind::Source, Kind::Source) => true,
        _ => false,
    }
}

/// Returns whether `entry` can match frames with this tag and the address of `named`, on port `port` in VLAN `vid`. If `entry` compares the
/// other kind of address, its address doesn't matter.
///
/// `gives_all` and `first_by_handle` call it.
pub(crate) fn can_match(
    entry: &StreamEntry,
    port: u8,
    vid: u16,
    named: &StreamEntry,
    tag: Option<Tag>,
) -> bool
    ensures { result ≡ feeding.can_match entry.now port vid (frame_pattern named.now tag) }
{
    if entry.port != port || entry.vid != vid || !accepts_tag(entry.tag, tag) {
        return false;
    }
    !is_same_kind(entry.kind, named.kind) || entry.address == named.address
}

/// Returns the filter with the lower number; at equal numbers `a`. `matching_filter` calls it for each matching filter.
fn lesser_filter(a: Option<(u32, FilterPlan)>, b: (u32, FilterPlan)) -> Option<(u32, FilterPlan)>
    ensures { result ≡ lesser_optional_filter a (Some b) }
{
    match a {
        None => Some(b),
        Some(a) => { if b.0 < a.0 { Some(b) } else { Some(a) } }
    }
}

/// Returns the filter of frames with this handle and priority, with its number, or `None` if no filter matches. Among several, the lowest
/// number decides. `is_given`, `maps_tag_to_filter` and `find_frames` call it.
#[tactic(auto, using(crate::proofs::Flows::lesser_none, crate::proofs::Flows::lesser_more))]
pub(crate) fn matching_filter(
    filters: &[(u32, FilterPlan)],
    handle: Option<u32>,
    priority: u8,
) -> Option<(u32, FilterPlan)>
    ensures { result ≡ frame_filter filters.now (filter_input 0 handle priority false 0 0) }
{
    let mut least = None;
    for filter in filters {
        if is_handle_match(filter.1.handle, handle)
            && is_priority_match(filter.1.priority, priority)
        {
            least = lesser_filter(least, *filter);
        }
    }
    least
}

/// Returns whether `before` is true, or the filter's frames can wait in `class` at `port`. It is one step of the loop in
/// `can_wait_at_port`.
fn found_or_can_wait<A: Allocator + Copy>(
    before: bool,
    plan: &Plan<A>,
    filter: &FilterPlan,
    reach: &Reach,
    port: &PortPlan<A>,
    class: u8,
) -> bool
    requires reach { reach.now ≡ filter_reach plan.now filter.now }
    requires from { 1 ≤ port.now.number }
    requires to { port.now.number ≤ 16 }
    requires at { find_port plan.now.ports port.now.number ≡ Some port.now }
    ensures { result ≡ (before || reaches_queue plan.now filter.now port.now.number class) }
{
    before || can_wait_in_reach(plan, filter, reach, port, class)
}

/// Returns whether frames of a filter can wait at `port`. Computes the filter's reach once for its eight classes. `can_wait_at_port_number`
/// calls it.
fn can_wait_at_port<A: Allocator + Copy>(
    plan: &Plan<A>,
    filter: &FilterPlan,
    port: &PortPlan<A>,
) -> bool
    requires from { 1 ≤ port.now.number }
    requires to { port.now.number ≤ 16 }
    requires at { find_port plan.now.ports port.now.number ≡ Some port.now }
    ensures { result ≡ feeding.can_wait_at_port_number plan.now filter.now port.now.number }
{
    let reach = filter_reach(plan, filter);
    let mut found = false;
    for class in 0..8u8 {
        found = found_or_can_wait(found, plan, filter, &reach, port, class);
    }
    found
}

/// Returns whether frames of a filter can wait at the port with number `port`, 1 to 16. Returns false if the port is missing.
/// `is_own_filter` and `is_safe_filter` call it.
#[tactic(auto, using(crate::proofs::Reaching::unreached))]
fn can_wait_at_port_number<A: Allocator + Copy>(
    plan: &Plan<A>,
    filter: &FilterPlan,
    port: u8,
) -> bool
    requires from { 1 ≤ port }
    requires to { port ≤ 16 }
    ensures { result ≡ feeding.can_wait_at_port_number plan.now filter.now port }
{
    match plan.port(port) {
        Some(found) => can_wait_at_port(plan, filter, found),
        None => false,
    }
}

/// Returns whether frames with this tag and the address of `named`, received on `on`, can leave by `port`. True for a source address: the
/// destination is unknown then. `first_frame_on_ingress` and `hands_tag` call it.
pub(crate) fn may_go<A: Allocator + Copy>(
    plan: &Plan<A>,
    on: &PortPlan<A>,
    named: &StreamEntry,
    tag: Option<Tag>,
    port: u8,
) -> bool
    requires from { 1 ≤ on.now.number }
    requires to { on.now.number ≤ 16 }
    requires leaves_from { 1 ≤ port }
    requires leaves_to { port ≤ 16 }
    ensures { result ≡ feeding.can_leave plan.now.database on.now.number (classified.frame_vid on.now tag)
        (frame_pattern named.now tag) port }
{
    match named.kind {
        Kind::Source => true,
        Kind::Null => {
            let set = plan.forward(on.number, classified_vid(on, tag), &named.address);
            set.has(port)
        }
    }
}

/// Returns whether `entry` matches frames with this tag on port `on`, and `filter` then judges them by the entry's handle and their
/// priority. `hands_tag` and `first_frame_with_tag` call it.
pub(crate) fn maps_tag_to_filter<A: Allocator + Copy>(
    plan: &Plan<A>,
    on: &PortPlan<A>,
    filter: u32,
    entry: &StreamEntry,
    tag: Option<Tag>,
) -> bool
    ensures { result ≡ feeding.is_feeding_entry plan.now on.now filter entry.now tag }
{
    if entry.port != on.number
        || entry.vid != classified_vid(on, tag)
        || !accepts_tag(entry.tag, tag)
    {
        return false;
    }
    match matching_filter(plan.filters(), Some(entry.handle), frame_priority(on, tag)) {
        Some((number, _)) => number == filter,
        None => false,
    }
}

impl<'a, A: Allocator + Copy> SendingPort<'a, A> {
    /// Returns whether frames of filter `flow` can't be stray: the filter is a hop of the stream, or has no queue at the sending port.
    /// False for unfiltered frames. `is_asked` calls it.
    fn is_safe_filter(&self, flow: Option<(u32, FilterPlan)>) -> bool
        requires { IsSendingPort self.now }
        ensures { result ≡ feeding.is_safe_filter self.now.plan.now (hops self.now) self.now.end.port flow }
    {
        match flow {
            None => false,
            Some((number, filter)) => {
                has_hop(self.stream, self.end.bridge, number)
                    || !can_wait_at_port_number(self.plan, &filter, self.end.port)
            }
        }
    }

    /// Returns whether filter `flow` is a hop of the stream and its frames can wait at the sending port. False for unfiltered frames
    /// (`None`). `is_asked` calls it.
    fn is_own_filter(&self, flow: Option<(u32, FilterPlan)>) -> bool
        requires { IsSendingPort self.now }
        ensures { result ≡ is_own_filter self.now.plan.now (hops self.now) self.now.end.port flow }
    {
        match flow {
            None => false,
            Some((number, filter)) => {
                has_hop(self.stream, self.end.bridge, number)
                    && can_wait_at_port_number(self.plan, &filter, self.end.port)
            }
        }
    }

    /// Returns whether the search looks for frames of filter `flow`, which is `None` for unfiltered frames. Unfiltered frames are stray.
    /// `find_frames` calls it.
    fn is_asked(&self, flow: Option<(u32, FilterPlan)>) -> bool
        requires { IsSendingPort self.now }
        ensures { result ≡ is_asked self.now.question self.now.plan.now (hops self.now) self.now.end.port flow }
    {
        match self.question {
            FrameQuery::Strays => !self.is_safe_filter(flow),
            FrameQuery::Own => self.is_own_filter(flow),
        }
    }

    /// Returns an example: the filter of frames with handle `handle` and priority `priority`, and their ingress port `from`. Returns `None`
    /// if the search doesn't look for frames of this filter. `first_by_handle` calls it.
    fn find_frames(&self, from: u8, priority: u8, handle: Option<u32>) -> Option<FoundFrames>
        requires { IsSendingPort self.now }
        ensures { result ≡ frames_from_port self.now from priority handle }
    {
        let flow = matching_filter(self.plan.filters(), handle, priority);
        if !self.is_asked(flow) {
            return None;
        }
        match flow {
            Some((number, _)) => Some(FoundFrames {
                filter: Some(number),
                from,
            }),
            None => Some(FoundFrames { filter: None, from }),
        }
    }

    /// Returns the first example among frames with tag `tag`, the address of `named`, VLAN `vid` and priority `priority` on port `port`.
    /// `None` if the search finds no frames.
    ///
    /// Tries the handles that these frames can get. `first_frame_on_ingress` calls it.
    fn first_by_handle(
        &self,
        named: &StreamEntry,
        tag: Option<Tag>,
        port: u8,
        vid: u16,
        priority: u8,
    ) -> Option<FoundFrames>
        requires { IsSendingPort self.now }
        ensures { result ≡ find_first (frames_from_port self.now port priority)
            (possible_handles self.now.plan.now.streams port vid (frame_pattern named.now tag)) }
    {
        for entry in self.plan.streams() {
            if can_match(entry, port, vid, named, tag) {
                let found = self.find_frames(port, priority, Some(entry.handle));
                if found.is_some() || is_same_kind(entry.kind, named.kind) {
                    return found;
                }
            }
        }
        self.find_frames(port, priority, None)
    }

    /// Returns the first example among frames with this tag and the address of `named` that arrive on `on`. The frames must be able to
    /// leave by the sending port.
    ///
    /// `None` if the search finds no frames.
    ///
    /// `first_frame_on_ingress_number` calls it.
    fn first_frame_on_ingress(
        &self,
        named: &StreamEntry,
        tag: Option<Tag>,
        on: &PortPlan<A>,
    ) -> Option<FoundFrames>
        requires sending { IsSendingPort self.now }
        requires from { 1 ≤ on.now.number }
        requires to { on.now.number ≤ 16 }
        ensures { result ≡ first_frame_on_ingress self.now.question self.now.plan.now (hops self.now) self.now.end.port
            (frame_pattern named.now tag) on.now }
    {
        if !may_go(self.plan, on, named, tag, self.end.port) {
            return None;
        }
        self.first_by_handle(
            named,
            tag,
            on.number,
            classified_vid(on, tag),
            frame_priority(on, tag),
        )
    }

    /// Returns the first example among frames with this tag and the address of `named` that arrive on port `port`. `None` without an
    /// example or without this port. `first_or_frame_on_ingress` calls it.
    fn first_frame_on_ingress_number(
        &self,
        named: &StreamEntry,
        tag: Option<Tag>,
        port: u8,
    ) -> Option<FoundFrames>
        requires { IsSendingPort self.now }
        ensures { result ≡ frames_on_ingress_number self.now (frame_pattern named.now tag) port }
    {
        match self.plan.port(port) {
            Some(on) => self.first_frame_on_ingress(named, tag, on),
            None => None,
        }
    }

    /// Returns `before` if it has frames, otherwise the first example from ingress port `port`. It is one step of the loop in
    /// `first_frame_by_ingress`.
    fn first_or_frame_on_ingress(
        &self,
        before: Option<FoundFrames>,
        named: &StreamEntry,
        tag: Option<Tag>,
        port: u8,
    ) -> Option<FoundFrames>
        requires { IsSendingPort self.now }
        ensures { result ≡ first_option before (frames_on_ingress_number self.now (frame_pattern named.now tag) port) }
    {
        if before.is_some() {
            return before;
        }
        self.first_frame_on_ingress_number(named, tag, port)
    }

    /// Returns the first example among frames with this tag and the address of `named`. `None` if the search finds no frames. Tries ingress
    /// ports in rising order. `first_frame_with_tag` calls it.
    #[tactic(auto, using(bridge_check::proofs::Told::first_none, bridge_check::proofs::Told::first_more))]
    pub(crate) fn first_frame_by_ingress(
        &self,
        named: &StreamEntry,
        tag: Option<Tag>,
    ) -> Option<FoundFrames>
        requires { IsSendingPort self.now }
        ensures { result ≡ first_sent_frame self.now.question self.now.plan.now (hops self.now) self.now.end.port
            (frame_pattern named.now tag) }
    {
        let mut first = None;
        for i in 0..16u8 {
            first = self.first_or_frame_on_ingress(first, named, tag, i + 1);
        }
        first
    }
}
