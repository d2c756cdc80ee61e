//! Index of a stream identity table: look-ups of the first matching entry.

ghost use Rattle.std.specs.Prelude.{◌≡◌, ℕ, Bool, ◌<◌, ◌%◌, List, [], ◌∷◌, IfOk, IfSome, OnOk, Some, None, true, false, nat_eq, if◌then◌else◌};
ghost use Rattle.std.specs.Option.{option_map, option_or};
ghost use Rattle.indexmap.specs.IndexMap.{get};
ghost use Rattle.bridge_frame.specs.Addresses.{IsKey};
ghost use Rattle.bridge_ident.specs.declared.Kind.TheVariants.{Null, Source};
ghost use Rattle.bridge_ident.specs.declared.StreamEntry.{StreamEntry};
ghost use Rattle.bridge_ident.specs.StreamIndex.{HasAddressEntries, HasFirstEntries, HasMarks, first_entry, is_of_kind, entry_key, earlier_entry};
ghost use Rattle.bridge_ident.specs.Identification.{first_handle, has_vlan_tag};

use crate::{Kind, StreamEntry, TagKind, has_vlan_tag};
use bridge_frame::{Head, address_key};
use indexmap::IndexMap;
use std::alloc::{AllocError, Allocator};
use std::hash::{BuildHasherDefault, FoldHasher};

/// First entry of a list with a given key. A look-up of this key finds it.
#[derive(Clone, Copy)]
pub(crate) struct FirstEntry {
    /// Index of the entry in the list.
    pub place: usize,
    /// Stream handle of the entry.
    pub handle: u32,
}

/// For each key of port, VLAN identifier and address, the first entry of one kind with this key.
type FirstEntries<A> = IndexMap<u128, FirstEntry, BuildHasherDefault<FoldHasher>, A>;

/// For each octet, whether an entry's address ends in this octet.
type OctetMarks = [bool; 256];

/// One part of a `StreamIndex`: first entries for frames with a VLAN tag, or for other frames, by destination and by source address.
#[derive(Drop)]
struct AddressIndex<A: Allocator + Copy> {
    /// First entries that compare destination addresses.
    destinations: FirstEntries<A>,
    /// Marks of the last octets of the addresses that these entries compare.
    destination_marks: OctetMarks,
    /// First entries that compare source addresses.
    sources: FirstEntries<A>,
    /// Marks of the last octets of the addresses that these entries compare.
    source_marks: OctetMarks,
    /// Hints: the index among `destinations` at which a key may stand. Look-ups test each hint.
    index_hints: Vec<u16, A>,
}

/// Index of a stream identity table: the first entry for each key. `Ident` finds the stream handle of a frame with this index.
#[derive(Drop)]
pub(crate) struct StreamIndex<A: Allocator + Copy> {
    /// Entries for frames with a tag whose VLAN identifier isn't 0.
    tagged: AddressIndex<A>,
    /// Entries for all other frames.
    others: AddressIndex<A>,
}

impl StreamEntry {
    /// Whether the entry compares addresses of this kind, and accepts frames with a VLAN tag (`tagged` is true) or other frames (`tagged`
    /// is false). `index_entry` and `count_entries` call it.
    fn is_of_kind(&self, kind: Kind, tagged: bool) -> bool
        ensures { result ≡ is_of_kind kind tagged self.now }
    {
        let same = match (self.kind, kind) {
            (Kind::Null, Kind::Null) | (Kind::Source, Kind::Source) => true,
            _ => false,
        };
        let takes = match self.tag {
            TagKind::Tagged => tagged,
            TagKind::Priority => !tagged,
            TagKind::All => true,
        };
        same && takes
    }
}

/// 2^64: a key has the port above 64 bits for VLAN identifier and address.
const TWO_POW_64: u128 = 1 << 64;

/// Returns the key of a port, a VLAN identifier and an address. `index_entry` calls it for entries, and `AddressIndex::find_handle` for the
/// addresses of a frame.
#[tactic(auto, unfolding(crate::specs::StreamIndex::entry_key))]
fn entry_key(port: u8, vid: u16, address: [u8; 6]) -> u128
    ensures number { result ≡ entry_key port vid address }
    ensures is_key { IsKey vid address }
{
    port as u128 * TWO_POW_64 + address_key(vid, address) as u128
}

/// Returns the last octet of the address in a key. `OctetMarks` has a mark for each octet, so that most look-ups need no hash.
#[inline(always)]
fn last_octet(key: u128) -> usize
    ensures octet { result ≡ key % 256 }
    ensures few { result < 256 }
{
    (key % 256) as usize
}

/// Adds an entry at `key` and marks the key's last octet, unless `key` has an entry. `index_entry` calls it.
fn insert_if_new<A: Allocator + Copy>(
    firsts: &mut FirstEntries<A>,
    marks: &mut OctetMarks,
    key: u128,
    first: FirstEntry,
) -> Result<(), AllocError>
    ensures found { OnOk result ((k : ℕ)
        → get nat_eq firsts.new k ≡ option_or (get nat_eq firsts.old k) (if nat_eq key k then Some first else None)) }
    ensures marked { OnOk result (HasMarks firsts.old marks.old → HasMarks firsts.new marks.new) }
{
    if firsts.get(&key).is_none() {
        let Ok(_) = firsts.insert(key, first) else {
            return Err(AllocError);
        };
        marks[last_octet(key)] = true;
    }
    Ok(())
}

/// Adds the entry, which has index `place` in the table, if `is_of_kind` is true for it and no earlier entry has its key. `first_entries`
/// calls it.
fn index_entry<A: Allocator + Copy>(
    firsts: &mut FirstEntries<A>,
    marks: &mut OctetMarks,
    entry: &StreamEntry,
    place: usize,
    kind: Kind,
    tagged: bool,
) -> Result<(), AllocError>
    ensures found { OnOk result ((port vid : ℕ) (address : List ℕ)
        → IsKey vid address
        → get nat_eq firsts.new (entry_key port vid address)
        ≡ option_or (get nat_eq firsts.old (entry_key port vid address))
        (first_entry kind tagged place (entry.now ∷ []) port vid address)) }
    ensures marked { OnOk result (HasMarks firsts.old marks.old → HasMarks firsts.new marks.new) }
{
    if entry.is_of_kind(kind, tagged) {
        let key = entry_key(entry.port, entry.vid, entry.address);
        let handle = entry.handle;
        insert_if_new(firsts, marks, key, FirstEntry { place, handle })?;
    }
    Ok(())
}

/// Returns the number of entries for which `is_of_kind` is true: the capacity to reserve for the first entries. `first_entries` calls it.
fn count_entries(entries: &[StreamEntry], kind: Kind, tagged: bool) -> usize {
    let mut count: usize = 0;
    for entry in entries {
        if entry.is_of_kind(kind, tagged) {
            count = count.saturating_add(1);
        }
    }
    count
}

/// Returns the first entry for each key among the entries for which `is_of_kind` is true, and the marks of their last octets.
/// `with_sources` and `make_address_index` call it.
fn first_entries<A: Allocator + Copy>(
    alloc: A,
    entries: &[StreamEntry],
    kind: Kind,
    tagged: bool,
) -> Result<(FirstEntries<A>, OctetMarks), AllocError>
    ensures found { IfOk result (λ r. HasFirstEntries kind tagged entries.now r.0) }
    ensures marked { IfOk result (λ r. HasMarks r.0 r.1) }
{
    let mut marks = [false; 256];
    let Ok(mut firsts) = IndexMap::with_capacity(alloc, count_entries(entries, kind, tagged)) else {
        return Err(AllocError);
    };
    for (place, entry) in entries.iter().enumerate() {
        let Ok(()) = index_entry(&mut firsts, &mut marks, entry, place, kind, tagged) else {
            return Err(AllocError);
        };
    }
    Ok((firsts, marks))
}

/// Number of hints for each destination.
const HINTS_PER_ENTRY: usize = 4;

/// Returns the index of the hint for `key` among `hints` hints, by mixing the bits of the key. The port enters the four bits above the VLAN
/// identifier, which are 0.
///
/// `hinted_index` and `make_hints` call it.
#[inline(always)]
fn hint_slot(key: u128, hints: usize) -> usize {
    let folded = ((key >> 64 << 60) ^ key) % TWO_POW_64;
    let mixed = (folded as u64).wrapping_mul(0x9E37_79B9_7F4A_7C15) >> 32;
    (mixed.wrapping_mul(hints as u64) >> 32) as usize
}

/// Returns the index at which `key` may be, or 0 without hints. `handle_by_keys` tests the key at this index.
#[inline(always)]
fn hinted_index(hints: &[u16], key: u128) -> usize {
    match hints.get(hint_slot(key, hints.len())) {
        Some(place) => *place as usize,
        None => 0,
    }
}

/// Makes hints of the entries' indexes. If several keys have one hint, it is the index of the last of them. `with_hints` calls it.
fn make_hints<A: Allocator + Copy>(
    alloc: A,
    firsts: &FirstEntries<A>,
) -> Result<Vec<u16, A>, AllocError> {
    let count = firsts.len().saturating_mul(HINTS_PER_ENTRY);
    let Ok(mut hints) = Vec::from_elem(alloc, 0, count) else {
        return Err(AllocError);
    };
    for place in 0..firsts.len() {
        if let Some((key, _)) = firsts.get_index(place)
            && let Some(hint) = hints.get_mut(hint_slot(*key, count))
        {
            *hint = (place % 65_536) as u16;
        }
    }
    Ok(hints)
}

/// First entries of one kind, with their marks.
type MarkedEntries<A> = (FirstEntries<A>, OctetMarks);

/// Joins the first entries of both kinds, and adds hints for the destinations. `with_sources` calls it.
fn with_hints<A: Allocator + Copy>(
    alloc: A,
    destinations: MarkedEntries<A>,
    sources: MarkedEntries<A>,
) -> Result<AddressIndex<A>, AllocError>
    ensures { IfOk result (λ found. (tagged : Bool) (entries : List StreamEntry)
        → HasFirstEntries Null tagged entries destinations.0 → HasMarks destinations.0 destinations.1
        → HasFirstEntries Source tagged entries sources.0 → HasMarks sources.0 sources.1
        → HasAddressEntries tagged entries found.destinations found.destination_marks found.sources
        found.source_marks) }
{
    match make_hints(alloc, &destinations.0) {
        Ok(hints) => Ok(AddressIndex {
            destinations: destinations.0,
            destination_marks: destinations.1,
            sources: sources.0,
            source_marks: sources.1,
            index_hints: hints,
        }),
        Err(fault) => Err(fault),
    }
}

/// Makes an address index: finds the first entries that compare source addresses, and joins them with `destinations`. `make_address_index`
/// calls it.
fn with_sources<A: Allocator + Copy>(
    alloc: A,
    entries: &[StreamEntry],
    tagged: bool,
    destinations: MarkedEntries<A>,
) -> Result<AddressIndex<A>, AllocError>
    requires found { HasFirstEntries Null tagged entries.now destinations.0 }
    requires marked { HasMarks destinations.0 destinations.1 }
    ensures { IfOk result (λ found. HasAddressEntries tagged entries.now found.destinations found.destination_marks
        found.sources found.source_marks) }
{
    match first_entries(alloc, entries, Kind::Source, tagged) {
        Ok(sources) => with_hints(alloc, destinations, sources),
        Err(fault) => Err(fault),
    }
}

/// Makes the index of the first entries, by destination or source address, for frames with a VLAN tag (`tagged` is true) or for other
/// frames. `StreamIndex::new` calls it.
fn make_address_index<A: Allocator + Copy>(
    alloc: A,
    entries: &[StreamEntry],
    tagged: bool,
) -> Result<AddressIndex<A>, AllocError>
    ensures { IfOk result (λ found. HasAddressEntries tagged entries.now found.destinations found.destination_marks
        found.sources found.source_marks) }
{
    match first_entries(alloc, entries, Kind::Null, tagged) {
        Ok(destinations) => with_sources(alloc, entries, tagged, destinations),
        Err(fault) => Err(fault),
    }
}

/// Returns the entry at index `place` of `firsts` if it has this key, otherwise `None`. `handle_by_keys` calls it to test a hint.
#[inline(always)]
fn entry_by_index<A: Allocator + Copy>(
    firsts: &FirstEntries<A>,
    place: usize,
    key: u128,
) -> Option<FirstEntry>
    ensures { IfSome result (λ first. get nat_eq firsts.now key ≡ Some first) }
{
    let _firsts = firsts.len();
    match firsts.get_index(place) {
        Some((own, first)) if *own == key => Some(*first),
        _ => None,
    }
}

/// Whether surely no entry has `key`, because no entry's address ends in the key's last octet; if false, an entry may have it.
/// `handle_by_keys` calls it, because the test needs no hash.
#[inline(always)]
fn is_absent<A: Allocator + Copy>(firsts: &FirstEntries<A>, marks: &OctetMarks, key: u128) -> bool
    ensures { result ≡ true → HasMarks firsts.now marks.now → get nat_eq firsts.now key ≡ None }
{
    let _firsts = firsts.len();
    !marks[last_octet(key)]
}

/// Returns the first entry for `key` by its hash; `None` if no entry has it. Looks only if an address ends in the key's last octet.
/// `handle_by_hash` calls it.
#[inline(always)]
fn entry_by_hash<A: Allocator + Copy>(
    firsts: &FirstEntries<A>,
    marks: &OctetMarks,
    key: u128,
) -> Option<FirstEntry>
    ensures { HasMarks firsts.now marks.now → result ≡ get nat_eq firsts.now key }
{
    if marks[last_octet(key)] {
        firsts.get(&key).copied()
    } else {
        None
    }
}

/// Returns the entry with the lower index, because the first matching entry counts; `None` if both are absent. `handle_by_hash` calls it.
#[inline(always)]
fn earlier_entry(destination: Option<FirstEntry>, source: Option<FirstEntry>) -> Option<FirstEntry>
    ensures { result ≡ earlier_entry destination source }
{
    match (destination, source) {
        (None, source) => source,
        (Some(destination), Some(source)) if source.place < destination.place => Some(source),
        (Some(destination), _) => Some(destination),
    }
}

/// Returns the handle of an entry, if there is one. `handle_by_hash` calls it for the earlier entry.
fn entry_handle(first: Option<FirstEntry>) -> Option<u32>
    ensures { result ≡ option_map (λ f. f.handle) first }
{
    first.map(|first| first.handle)
}

impl<A: Allocator + Copy> AddressIndex<A> {
    /// Returns the handle of the first entry for the keys `da` or `sa`, by their hashes; `None` if no entry has either key.
    /// `handle_by_keys` calls it if a mark and a hint don't suffice.
    #[inline(never)]
    fn handle_by_hash(&self, da: u128, sa: u128) -> Option<u32>
        ensures { HasMarks self.now.destinations self.now.destination_marks
            → HasMarks self.now.sources self.now.source_marks
            → result ≡ option_map (λ f. f.handle) (earlier_entry (get nat_eq self.now.destinations da)
            (get nat_eq self.now.sources sa)) }
    {
        let destination = entry_by_hash(&self.destinations, &self.destination_marks, da);
        let source = entry_by_hash(&self.sources, &self.source_marks, sa);
        entry_handle(earlier_entry(destination, source))
    }

    /// Returns the handle of the first entry for the keys `da` or `sa`; `None` if no entry has either key. Most frames need no hash, only a
    /// mark and a hint. `AddressIndex::find_handle` calls it.
    #[inline(always)]
    fn handle_by_keys(&self, da: u128, sa: u128) -> Option<u32>
        ensures { HasMarks self.now.destinations self.now.destination_marks
            → HasMarks self.now.sources self.now.source_marks
            → result ≡ option_map (λ f. f.handle) (earlier_entry (get nat_eq self.now.destinations da)
            (get nat_eq self.now.sources sa)) }
    {
        if !is_absent(&self.sources, &self.source_marks, sa) {
            return self.handle_by_hash(da, sa);
        }
        let place = hinted_index(&self.index_hints, da);
        match entry_by_index(&self.destinations, place, da) {
            Some(first) => Some(first.handle),
            None => {
                if is_absent(&self.destinations, &self.destination_marks, da) {
                    return None;
                }
                self.handle_by_hash(da, sa)
            }
        }
    }

    /// Returns the handle of the first entry for either address of a frame; `None` if no entry matches. `StreamIndex::find_handle` calls it
    /// for the part of the index for tagged or for other frames.
    #[inline(always)]
    fn find_handle(&self, port: u8, head: &Head, vid: u16) -> Option<u32>
        ensures { (entries : List StreamEntry)
            → HasAddressEntries (has_vlan_tag head.now.tag) entries self.now.destinations self.now.destination_marks
            self.now.sources self.now.source_marks
            → result ≡ first_handle entries port head.now vid }
    {
        let da = entry_key(port, vid, head.da);
        let sa = entry_key(port, vid, head.sa);
        self.handle_by_keys(da, sa)
    }
}

impl<A: Allocator + Copy> StreamIndex<A> {
    /// Makes the index of a list of entries: one part for frames with a VLAN tag, one for other frames. `with_index` calls it.
    pub(crate) fn new(alloc: A, entries: &[StreamEntry]) -> Result<StreamIndex<A>, AllocError>
        ensures tagged { IfOk result (λ index. HasAddressEntries true entries.now index.tagged.destinations
            index.tagged.destination_marks index.tagged.sources index.tagged.source_marks) }
        ensures others { IfOk result (λ index. HasAddressEntries false entries.now index.others.destinations
            index.others.destination_marks index.others.sources index.others.source_marks) }
    {
        let Ok(tagged) = make_address_index(alloc, entries, true) else {
            return Err(AllocError);
        };
        let Ok(others) = make_address_index(alloc, entries, false) else {
            drop(tagged);
            return Err(AllocError);
        };
        Ok(StreamIndex { tagged, others })
    }

    /// Returns the handle of the first matching entry; `None` if no entry matches. `Ident::handle_of` calls it if the table has an index.
    #[inline(always)]
    pub(crate) fn find_handle(&self, port: u8, head: &Head, vid: u16) -> Option<u32>
        ensures { (entries : List StreamEntry)
            → HasAddressEntries true entries self.now.tagged.destinations self.now.tagged.destination_marks
            self.now.tagged.sources self.now.tagged.source_marks
            → HasAddressEntries false entries self.now.others.destinations self.now.others.destination_marks
            self.now.others.sources self.now.others.source_marks
            → result ≡ first_handle entries port head.now vid }
    {
        if has_vlan_tag(head.tag) {
            self.tagged.find_handle(port, head, vid)
        } else {
            self.others.find_handle(port, head, vid)
        }
    }
}
