//! The test whether a hop's filter gets each frame that the previous hop sends over a link. If it doesn't, `net check` prints `refusable`
//! for a periodic talker's stream.
ghost use Rattle.std.specs.Prelude.{◌≡◌, ◌≤◌, Some};
ghost use Rattle.std.specs.List.{list_all};
ghost use Rattle.bridge_filter.specs.OwnEvents.{is_filter_number};
ghost use Rattle.bridge_config.specs.Rules.{find_port};
ghost use Rattle.bridge_check.specs.FrameInput as classified;
ghost use Rattle.net_model.specs.LinkFrames as feeding;
ghost use Rattle.net_model.specs.LinkFrames.{frame_pattern, possible_tags, tags_by_priority};
ghost use Rattle.net_model.specs.Handing as spec;
ghost use Rattle.net_model.specs.Handed.{IsHanding, hands_entry, hands_tag, is_other_handle};
ghost use Rattle.net_model.specs.NetworkParts.{end_value};

use crate::links::{BridgePort, StreamHop};
use crate::network_tests::{find_plan, protected_handle};
use crate::sending_port::{
    can_match, classified_vid, frame_priority, is_same_kind, maps_tag_to_filter, matching_filter,
    may_go,
};
use bridge_check::Accepted;
use bridge_config::{Plan, PortPlan};
use bridge_frame::Tag;
use bridge_ident::{Kind, StreamEntry};
use std::alloc::Allocator;

/// The receiving end of a link: the bridge's plan, the port, and the filter that must get each frame that the previous hop sends.
#[derive(Drop)]
struct Taker<'a, A: Allocator + Copy> {
    plan: &'a Plan<A>,
    on: &'a PortPlan<A>,
    filter: u32,
}

impl<'a, A: Allocator + Copy> Taker<'a, A> {
    /// Returns whether the receiving bridge forwards frames with this tag and the address of entry `named` to at least one port. True for a
    /// source address: the destination is unknown then.
    ///
    /// `takes_all` calls it.
    fn is_forwarded(&self, named: &StreamEntry, tag: Option<Tag>) -> bool
        requires from { 1 ≤ self.now.on.now.number }
        requires to { self.now.on.now.number ≤ 16 }
        ensures { result ≡ spec.goes_on self.now.plan.now self.now.on.now (frame_pattern named.now tag) }
    {
        match named.kind {
            Kind::Source => true,
            Kind::Null => {
                let on = self.on;
                let set = self
                    .plan
                    .forward(on.number, classified_vid(on, tag), &named.address);
                set.bits() != 0
            }
        }
    }

    /// Returns whether frames with this tag and this stream handle belong to the receiving filter. `tag` is `None` for an untagged frame,
    /// and `handle` is `None` for a frame without handle. `gives_all` calls it.
    fn is_given(&self, tag: Option<Tag>, handle: Option<u32>) -> bool
        ensures { result ≡ is_filter_number self.now.filter (feeding.matching_filter self.now.plan.now handle
            (classified.frame_priority self.now.on.now tag)) }
    {
        match matching_filter(self.plan.filters(), handle, frame_priority(self.on, tag)) {
            Some((number, _)) => number == self.filter,
            None => false,
        }
    }

    /// Returns whether each frame with this tag and the address of entry `named` belongs to the receiving filter, whichever stream handle
    /// it gets there. `takes_all` calls it.
    fn gives_all(&self, named: &StreamEntry, tag: Option<Tag>) -> bool
        ensures { result ≡ spec.gives_all self.now.plan.now self.now.on.now self.now.filter
            (frame_pattern named.now tag) }
    {
        let port = self.on.number;
        let vid = classified_vid(self.on, tag);
        for entry in self.plan.streams() {
            if can_match(entry, port, vid, named, tag) {
                let given = self.is_given(tag, Some(entry.handle));
                if !given || is_same_kind(entry.kind, named.kind) {
                    return given;
                }
            }
        }
        self.is_given(tag, None)
    }

    /// Returns whether the receiving bridge forwards each frame with this tag and the address of the sender's entry `named`, and the
    /// receiving filter judges it. `hands_tag` calls it.
    fn takes_all(&self, named: &StreamEntry, tag: Option<Tag>) -> bool
        requires from { 1 ≤ self.now.on.now.number }
        requires to { self.now.on.now.number ≤ 16 }
        ensures { result ≡ spec.takes_all self.now.plan.now self.now.on.now self.now.filter
            (frame_pattern named.now tag) }
    {
        let goes = self.is_forwarded(named, tag);
        let gives = self.gives_all(named, tag);
        goes & gives
    }
}

/// Returns whether the filter's handle `own` is present and isn't `handle`. Then entries of `handle` give the filter no frames.
/// `hands_entry` calls it.
fn is_other_handle(own: Option<u32>, handle: u32) -> bool
    ensures { result ≡ is_other_handle own handle }
{
    match own {
        None => false,
        Some(own) => own != handle,
    }
}

/// Link under test: plan, filter and egress port of the sending bridge, and the filter at the other end that must get the sender's frames.
#[derive(Drop)]
struct Handing<'a, A: Allocator + Copy> {
    plan: &'a Plan<A>,
    filter: u32,
    /// Stream handle of the sender's filter. `None` if the filter is missing, unprotected or names no handle.
    handle: Option<u32>,
    port: u8,
    taker: Taker<'a, A>,
}

impl<'a, A: Allocator + Copy> Handing<'a, A> {
    /// Returns whether the receiving filter gets each frame with this tag that `entry` identifies at ingress port `from`. True for another
    /// filter's frames, or frames that can't leave over the link.
    ///
    /// `hands_priority` and `is_fed_by_entry` call it.
    fn hands_tag(&self, entry: &StreamEntry, from: &PortPlan<A>, tag: Option<Tag>) -> bool
        requires handing { IsHanding self.now }
        requires from { 1 ≤ from.now.number }
        requires to { from.now.number ≤ 16 }
        ensures { result ≡ hands_tag self.now entry.now from.now tag }
    {
        if !maps_tag_to_filter(self.plan, from, self.filter, entry, tag) {
            return true;
        }
        if !may_go(self.plan, from, entry, tag, self.port) {
            return true;
        }
        self.taker.takes_all(entry, tag)
    }

    /// Returns whether the receiving filter gets each frame of the sender's entry `entry` with VLAN identifier `vid` and priority `pcp`.
    /// `hands_tagged` calls it.
    fn hands_priority(&self, entry: &StreamEntry, from: &PortPlan<A>, vid: u16, pcp: u8) -> bool
        requires handing { IsHanding self.now }
        requires from { 1 ≤ from.now.number }
        requires to { from.now.number ≤ 16 }
        ensures { result ≡ hands_tag self.now entry.now from.now (Some (feeding.tag_by_priority pcp vid)) }
    {
        let dei = false;
        self.hands_tag(entry, from, Some(Tag { pcp, dei, vid }))
    }

    /// Returns whether the receiving filter gets each frame of the sender's entry `entry` with VLAN identifier `vid`, for all eight
    /// priorities. `is_fed_by_entry` calls it.
    fn hands_tagged(&self, entry: &StreamEntry, from: &PortPlan<A>, vid: u16) -> bool
        requires handing { IsHanding self.now }
        requires from { 1 ≤ from.now.number }
        requires to { from.now.number ≤ 16 }
        ensures { result ≡ list_all (hands_tag self.now entry.now from.now) (tags_by_priority vid) }
    {
        let none = true;
        let seven = self.hands_priority(entry, from, vid, 7) & none;
        let six = self.hands_priority(entry, from, vid, 6) & seven;
        let five = self.hands_priority(entry, from, vid, 5) & six;
        let four = self.hands_priority(entry, from, vid, 4) & five;
        let three = self.hands_priority(entry, from, vid, 3) & four;
        let two = self.hands_priority(entry, from, vid, 2) & three;
        let one = self.hands_priority(entry, from, vid, 1) & two;
        self.hands_priority(entry, from, vid, 0) & one
    }

    /// Returns whether the receiving filter gets each frame that `entry` identifies at the sender's ingress port `from`, for all 17
    /// possible tags. `hands_entry` calls it.
    fn is_fed_by_entry(&self, entry: &StreamEntry, from: &PortPlan<A>) -> bool
        requires handing { IsHanding self.now }
        requires from { 1 ≤ from.now.number }
        requires to { from.now.number ≤ 16 }
        ensures { result ≡ list_all (hands_tag self.now entry.now from.now) (possible_tags entry.now.vid) }
    {
        let untagged = self.hands_tag(entry, from, None);
        let priority = self.hands_tagged(entry, from, 0);
        let tagged = self.hands_tagged(entry, from, entry.vid);
        untagged & (priority & tagged)
    }

    /// Returns whether the receiving filter gets each frame that the sender's entry identifies. True if the sender's filter has another
    /// handle, or the plan lacks the entry's port. `hands_all` calls it.
    fn hands_entry(&self, entry: &StreamEntry) -> bool
        requires handing { IsHanding self.now }
        ensures { result ≡ hands_entry self.now entry.now }
    {
        if is_other_handle(self.handle, entry.handle) {
            return true;
        }
        match self.plan.port(entry.port) {
            Some(from) => self.is_fed_by_entry(entry, from),
            None => true,
        }
    }

    /// Returns whether the receiving filter gets each frame of the sender's filter that leaves over the link, entry by entry.
    /// `receives_every_frame` calls it.
    fn hands_all(&self) -> bool
        requires handing { IsHanding self.now }
        ensures { result ≡ spec.hands_all self.now.plan.now self.now.filter self.now.port self.now.taker.plan.now
            self.now.taker.on.now self.now.taker.filter }
    {
        let entries = self.plan.streams();
        entries.iter().all(|entry| self.hands_entry(entry))
    }
}

/// Returns whether filter `taker` at port `at` of plan `next` gets each frame of filter `filter` that plan `plan` sends from `port`. False
/// if port `at` is missing. `is_received_by_next_hop` calls it.
fn receives_every_frame<A: Allocator + Copy>(
    plan: &Plan<A>,
    filter: u32,
    port: u8,
    next: &Plan<A>,
    at: u8,
    taker: u32,
) -> bool
    requires from { 1 ≤ port }
    requires to { port ≤ 16 }
    ensures { result ≡ spec.hands_to_port plan.now filter port next.now (find_port next.now.ports at) taker }
{
    let filters = plan.filters();
    let handle = protected_handle(filters, filter);
    match next.port(at) {
        None => false,
        Some(on) => {
            let taker = Taker {
                plan: next,
                on,
                filter: taker,
            };
            let handing = Handing {
                plan,
                filter,
                handle,
                port,
                taker,
            };
            handing.hands_all()
        }
    }
}

/// Returns whether filter `taker` at `end`, the link's other end, gets each frame of `hop` that leaves by `port`. False if a bridge or port
/// is missing. Delays of talkers need this.
///
/// `is_handed` of `net_latency` calls it.
pub fn is_received_by_next_hop<A: Allocator + Copy>(
    plans: &[Accepted<A>],
    hop: StreamHop,
    port: u8,
    end: BridgePort,
    taker: u32,
) -> bool
    requires from { 1 ≤ port }
    requires to { port ≤ 16 }
    ensures { result ≡ spec.hands_over plans.now hop.bridge hop.filter port (end_value end) taker }
{
    match (find_plan(plans, hop.bridge), find_plan(plans, end.bridge)) {
        (Some(plan), Some(next)) => receives_every_frame(
            plan, hop.filter, port, next, end.port, taker,
        ),
        _ => false,
    }
}
