#![tactic(auto)]
//! Stream identification: the stream handle of a frame (IEEE 802.1CB-2017, 6.4 null and 6.5 source MAC and VLAN identification).

ghost use Rattle.std.specs.Prelude.{◌≡◌, ℕ, List, Some, IfOk};
ghost use Rattle.bridge_frame.specs.declared.Head.{Head};
ghost use Rattle.bridge_ident.specs.declared.StreamEntry.{StreamEntry};
ghost use Rattle.bridge_ident.specs.Identification.{first_handle, is_match, has_vlan_tag, HasEntry};

mod stream_index;

use bridge_frame::{Head, Tag};
pub use bridge_limits::NoMemory;
use std::alloc::Allocator;
use std::marker::Model;
use stream_index::StreamIndex;

/// Address that a stream entry compares: the destination (null) or the source.
#[derive(Clone, Copy, Debug, PartialEq, Eq)]
pub enum Kind {
    /// Destination address.
    Null,
    /// Source address.
    Source,
}

/// Kinds of frames that a stream entry matches: VLAN-tagged frames, untagged and priority-tagged frames, or all frames.
#[derive(Clone, Copy, Debug, PartialEq, Eq)]
pub enum TagKind {
    /// Tagged frames whose VLAN identifier isn't 0.
    Tagged,
    /// Untagged frames, and tagged frames whose VLAN identifier is 0.
    Priority,
    /// All frames.
    All,
}

/// Entry of the stream identity table (IEEE 802.1CB-2017, 9.1).
#[derive(Clone, Copy, Debug, PartialEq, Eq)]
pub struct StreamEntry {
    /// Stream handle of matching frames.
    pub handle: u32,
    /// Ingress port of matching frames.
    pub port: u8,
    /// Address that the entry compares: destination or source.
    pub kind: Kind,
    /// Address of matching frames.
    pub address: [u8; 6],
    /// VLAN identifier of matching frames.
    pub vid: u16,
    /// Which frames match by their tag: frames with a VLAN tag, other frames, or all.
    pub tag: TagKind,
}

impl StreamEntry {
    /// Whether the entry matches a frame with the header `head` that arrived on `port` in the VLAN `vid`. `first_handle` calls it for each
    /// entry.
    fn matches(&self, port: u8, head: &Head, vid: u16) -> bool
        ensures { result ≡ is_match self.now port head.now vid }
    {
        if self.port != port || self.vid != vid {
            return false;
        }
        let address = match self.kind {
            Kind::Null => head.da,
            Kind::Source => head.sa,
        };
        let takes_tag = match self.tag {
            TagKind::Tagged => has_vlan_tag(head.tag),
            TagKind::Priority => !has_vlan_tag(head.tag),
            TagKind::All => true,
        };
        self.address == address && takes_tag
    }
}

/// Whether a frame's tag names a VLAN: its VLAN identifier isn't 0. `StreamEntry::matches`, `StreamIndex::find_handle`, and `accepts_tag`
/// of `net_model` call it.
pub fn has_vlan_tag(tag: Option<Tag>) -> bool
    ensures { result ≡ has_vlan_tag tag }
{
    match tag {
        Some(tag) => tag.vid != 0,
        None => false,
    }
}

/// Returns the handle of the first matching entry; `None` if no entry matches. `Ident::handle_of` calls it if the table has no index.
#[inline(never)]
fn first_handle(entries: &[StreamEntry], port: u8, head: &Head, vid: u16) -> Option<u32>
    ensures { result ≡ first_handle entries.now port head.now vid }
{
    for entry in entries {
        if entry.matches(port, head, vid) {
            return Some(entry.handle);
        }
    }
    None
}

/// Stream identity table. In contracts, its value is the list of its entries.
#[derive(Drop)]
pub struct Ident<A: Allocator + Copy> {
    /// Entries in the given order.
    entries: Vec<StreamEntry, A>,
    /// Index that finds the first matching entry. Without an index, the table searches its entries in order.
    index: Option<StreamIndex<A>>,
}

impl<A: Allocator + Copy> Model for Ident<A> {
    ghost use Rattle.std.specs.Prelude.{List, IfSome, true, false};
    ghost use Rattle.bridge_ident.specs.declared.StreamEntry.{StreamEntry};
    ghost use Rattle.bridge_ident.specs.StreamIndex.{HasAddressEntries};

    ghost Value = { List StreamEntry };

    ghost view = { λ t. t.entries.items };

    ghost invariant = { λ t. IfSome t.index (λ i.
        (HasAddressEntries true t.entries.items i.tagged.destinations i.tagged.destination_marks i.tagged.sources
        i.tagged.source_marks)
        × (HasAddressEntries false t.entries.items i.others.destinations i.others.destination_marks i.others.sources
        i.others.source_marks)) };
}

impl<A: Allocator + Copy> Ident<A> {
    /// Makes a table without index. Allocates no memory. Only tests call it: `with_index` makes look-ups faster.
    pub fn new(entries: Vec<StreamEntry, A>) -> Ident<A>
        ensures { result ≡ entries.items }
    {
        Ident {
            entries,
            index: None,
        }
    }

    /// Makes a table with an index: finding a handle takes constant time. If memory runs out, the entries are dropped. `make_ident` of
    /// `bridge_relay` calls it.
    pub fn with_index(alloc: A, entries: Vec<StreamEntry, A>) -> Result<Ident<A>, NoMemory>
        ensures { IfOk result (λ t. t ≡ entries.items) }
    {
        let index = StreamIndex::new(alloc, &entries)?;
        Ok(Ident {
            entries,
            index: Some(index),
        })
    }

    /// Returns the entries in the given order. Only tests call it.
    pub fn entries(&self) -> &[StreamEntry]
        ensures { result.now ≡ self.now }
    {
        self.entries.as_slice()
    }

    /// Returns the stream handle of a frame that arrived on `port` in the VLAN `vid`: the handle of the first matching entry.
    /// `None` if no entry matches. `stream_handle` of `bridge_relay` calls it.
    #[inline(always)]
    pub fn handle_of(&self, port: u8, head: &Head, vid: u16) -> Option<u32>
        ensures { result ≡ first_handle self.now port head.now vid }
    {
        match &self.index {
            Some(index) => index.find_handle(port, head, vid),
            None => first_handle(&self.entries, port, head, vid),
        }
    }
}

/// The handle of a frame comes from an entry of the table that matches the frame. So a filter gets only frames that the plan names.
pub fn handle_is_of_an_entry()
    ensures { (entries : List StreamEntry) (port vid h : ℕ) (head : Head)
        → first_handle entries port head vid ≡ Some h
        → HasEntry entries port head vid h }
{}
