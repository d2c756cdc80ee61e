//! Frames that a hop's filter accepts over a link: the receiver's side of the search for stray and own frames.
ghost use Rattle.std.specs.Prelude.{◌≡◌};
ghost use Rattle.bridge_check.specs.Faults.{first_option};
ghost use Rattle.net_model.specs.LinkFrames.{possible_tags, tags_by_priority};
ghost use Rattle.net_model.specs.FrameSearch.{find_first};
ghost use Rattle.net_model.specs.SearchState.{IsTakingFilter, first_taken_frame, first_frame_with_tag};

use crate::sending_port::{FoundFrames, SendingPort, maps_tag_to_filter};
use bridge_config::{Plan, PortPlan};
use bridge_frame::Tag;
use bridge_ident::StreamEntry;
use std::alloc::Allocator;

/// Filter of a hop, a linked port of its bridge, and the port at the other end of the link. Methods search for frames that the filter
/// accepts.
#[derive(Drop)]
pub(crate) struct TakingFilter<'a, A: Allocator + Copy> {
    /// Port at the other end of the link.
    pub sending: SendingPort<'a, A>,
    /// Plan of the hop's bridge.
    pub next: &'a Plan<A>,
    /// Port at which the frames arrive.
    pub on: &'a PortPlan<A>,
    /// Number of the filter.
    pub filter: u32,
    /// Stream handle of the filter.
    pub handle: u32,
}

impl<'a, A: Allocator + Copy> TakingFilter<'a, A> {
    /// Returns the first example among frames with this tag and the address of `entry`. Returns `None` if there is no example, or if the
    /// entry doesn't give these frames to the filter.
    ///
    /// `sample_of_entry`, `first_or_frame_with_tag` and `first_frame_of_matching_entry` call it.
    pub(crate) fn first_frame_with_tag(
        &self,
        entry: &StreamEntry,
        tag: Option<Tag>,
    ) -> Option<FoundFrames>
        requires { IsTakingFilter self.now }
        ensures { result ≡ first_frame_with_tag self.now entry.now tag }
    {
        if maps_tag_to_filter(self.next, self.on, self.filter, entry, tag) {
            self.sending.first_frame_by_ingress(entry, tag)
        } else {
            None
        }
    }

    /// Returns `before` if it has frames, otherwise the first example with this tag and the address of `entry`. It is one step of the loop
    /// in `first_frame_by_priority`.
    fn first_or_frame_with_tag(
        &self,
        before: Option<FoundFrames>,
        entry: &StreamEntry,
        tag: Option<Tag>,
    ) -> Option<FoundFrames>
        requires { IsTakingFilter self.now }
        ensures { result ≡ first_option before (first_frame_with_tag self.now entry.now tag) }
    {
        if before.is_some() {
            return before;
        }
        self.first_frame_with_tag(entry, tag)
    }

    /// Returns the first example among frames with the address of `entry` and VLAN identifier `vid`. `None` if the search finds no frames.
    /// Tries priorities 0 to 7. `first_or_frame_by_priority` calls it.
    #[tactic(auto, using(bridge_check::proofs::Told::first_none, bridge_check::proofs::Told::first_more))]
    fn first_frame_by_priority(&self, entry: &StreamEntry, vid: u16) -> Option<FoundFrames>
        requires { IsTakingFilter self.now }
        ensures { result ≡ find_first (first_frame_with_tag self.now entry.now) (tags_by_priority vid) }
    {
        let mut first = None;
        for pcp in 0..8u8 {
            let dei = false;
            first = self.first_or_frame_with_tag(first, entry, Some(Tag { pcp, dei, vid }));
        }
        first
    }

    /// Returns `before` if it has frames, otherwise the first example with the address of `entry` and VLAN identifier `vid`.
    /// `first_frame_of_matching_entry` calls it.
    fn first_or_frame_by_priority(
        &self,
        before: Option<FoundFrames>,
        entry: &StreamEntry,
        vid: u16,
    ) -> Option<FoundFrames>
        requires { IsTakingFilter self.now }
        ensures { result ≡ first_option before (find_first (first_frame_with_tag self.now entry.now)
            (tags_by_priority vid)) }
    {
        if before.is_some() {
            return before;
        }
        self.first_frame_by_priority(entry, vid)
    }

    /// Returns the first example among frames with the address of `entry`. `None` if the search finds no frames. Tries no tag, then VLAN
    /// identifier 0, then the entry's.
    ///
    /// `first_frame_of_entry` calls it after it has compared port and handle.
    fn first_frame_of_matching_entry(&self, entry: &StreamEntry) -> Option<FoundFrames>
        requires { IsTakingFilter self.now }
        ensures { result ≡ find_first (first_frame_with_tag self.now entry.now) (possible_tags entry.now.vid) }
    {
        let untagged = self.first_frame_with_tag(entry, None);
        let alone = self.first_or_frame_by_priority(untagged, entry, 0);
        self.first_or_frame_by_priority(alone, entry, entry.vid)
    }

    /// Returns the first example among frames with the address of `entry`. `None` if the search finds no frames. Entries of another port or
    /// with another handle have no example. `first_taken_frame` calls it.
    fn first_frame_of_entry(&self, entry: &StreamEntry) -> Option<FoundFrames>
        requires { IsTakingFilter self.now }
        ensures { result ≡ find_first (first_frame_with_tag self.now entry.now) (possible_tags entry.now.vid) }
    {
        if entry.port != self.on.number {
            return None;
        }
        if entry.handle != self.handle {
            return None;
        }
        self.first_frame_of_matching_entry(entry)
    }

    /// Returns the first example among frames that the filter accepts at its port. `None` if the search finds no frames. Tries the bridge's
    /// entries in order. `first_frame_of_sender` calls it.
    pub(crate) fn first_taken_frame(&self) -> Option<FoundFrames>
        requires { IsTakingFilter self.now }
        ensures { result ≡ first_taken_frame self.now }
    {
        for entry in self.next.streams() {
            let found = self.first_frame_of_entry(entry);
            if found.is_some() {
                return found;
            }
        }
        None
    }
}
