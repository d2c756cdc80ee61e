//! Tables in which the bridge looks up the ports of VLANs and static entries.

ghost use Rattle.std.specs.Prelude.{◌≡◌, ◌<◌, ℕ, List, [], ◌∷◌, All, IfOk, IfSome, OnOk, Some, None, nat_eq, length, if◌then◌else◌};
ghost use Rattle.std.specs.Option.{option_or};
ghost use Rattle.indexmap.specs.IndexMap.{get};
ghost use Rattle.bridge_frame.specs.Addresses.{IsKey, address_key};
ghost use Rattle.bridge_forward.specs.declared.Vlan.{Vlan};
ghost use Rattle.bridge_forward.specs.Database.{vlan_members, static_ports};
ghost use Rattle.bridge_forward.specs.LookupTables.{vlan_slot};

use crate::{PortSet, StaticEntry, Vlan};
use bridge_frame::address_key;
use indexmap::IndexMap;
use std::alloc::{AllocError, Allocator};
use std::hash::{BuildHasherDefault, FoldHasher};

/// Ports of static entries, by the key of VLAN identifier and address.
pub(crate) type StaticTable<A> = IndexMap<u64, PortSet, BuildHasherDefault<FoldHasher>, A>;

/// Returns the length of a table indexed by VLAN identifier: the greatest identifier plus 1, or 0 without VLANs. `make_member_table` calls
/// it.
fn vlan_table_len(vlans: &[Vlan]) -> usize
    ensures { All (λ (v : Vlan). v.vid < result) vlans.now }
{
    let mut places = 0;
    for vlan in vlans {
        places = places.max(vlan.vid as usize + 1);
    }
    places
}

/// Sets the members of `vid` unless they are set: the first VLAN with an identifier counts. `make_member_table` calls it.
fn insert_members(members: &mut [Option<PortSet>], vid: u16, ports: PortSet)
    requires { vid < length members.old }
    ensures places { length members.new ≡ length members.old }
    ensures first { (v : ℕ)
        → vlan_slot members.new v ≡ option_or (vlan_slot members.old v) (if nat_eq vid v then Some ports else None) }
{
    let place = vid as usize;
    if members[place].is_none() {
        members[place] = Some(ports);
    }
}

/// Makes the table of members, indexed by VLAN identifier, so that forwarding takes constant time. `Forwarding::new` calls it.
pub(crate) fn make_member_table<A: Allocator + Copy>(
    alloc: A,
    vlans: &[Vlan],
) -> Result<Vec<Option<PortSet>, A>, AllocError>
    ensures { IfOk result (λ m. (vid : ℕ) → vlan_slot m.items vid ≡ vlan_members vlans.now vid) }
{
    let Ok(mut members) = Vec::from_elem(alloc, None, vlan_table_len(vlans)) else {
        return Err(AllocError);
    };
    for vlan in vlans {
        insert_members(&mut members, vlan.vid, vlan.members);
    }
    Ok(members)
}

/// Sets the ports of `key` unless they are set: the first static entry with a key counts. `insert_static` calls it.
fn insert_if_new<A: Allocator + Copy>(
    entries: &mut StaticTable<A>,
    key: u64,
    ports: PortSet,
) -> Result<(), AllocError>
    ensures { OnOk result ((k : ℕ)
        → get nat_eq entries.new k ≡ option_or (get nat_eq entries.old k) (if nat_eq key k then Some ports else None)) }
{
    if entries.get(&key).is_none() {
        let Ok(_) = entries.insert(key, ports) else {
            return Err(AllocError);
        };
    }
    Ok(())
}

/// Adds a static entry unless its VLAN identifier and address have one. `make_static_table` calls it for each entry.
#[tactic(auto, using(bridge_frame::proofs::Addresses::same_key))]
fn insert_static<A: Allocator + Copy>(
    entries: &mut StaticTable<A>,
    entry: StaticEntry,
) -> Result<(), AllocError>
    ensures { OnOk result ((vid : ℕ) (address : List ℕ)
        → IsKey vid address
        → get nat_eq entries.new (address_key vid address)
        ≡ option_or (get nat_eq entries.old (address_key vid address)) (static_ports (entry ∷ []) vid address)) }
{
    insert_if_new(entries, address_key(entry.vid, entry.address), entry.ports)
}

/// Number of hints for each static entry.
const HINTS_PER_ENTRY: usize = 4;

/// Returns the index of the hint for `key` among `hints` hints, by mixing the bits of the key. `Forwarding::hinted_index` and `make_hints`
/// call it.
#[inline(always)]
pub(crate) fn hint_slot(key: u64, hints: usize) -> usize {
    let mixed = key.wrapping_mul(0x9E37_79B9_7F4A_7C15) >> 32;
    (mixed.wrapping_mul(hints as u64) >> 32) as usize
}

/// Makes hints of the entries' indexes. If several keys have one hint, it is the index of the last of them. `Forwarding::new` calls it.
pub(crate) fn make_hints<A: Allocator + Copy>(
    alloc: A,
    entries: &StaticTable<A>,
) -> Result<Vec<u16, A>, AllocError> {
    let count = entries.len().saturating_mul(HINTS_PER_ENTRY);
    let Ok(mut hints) = Vec::from_elem(alloc, 0, count) else {
        return Err(AllocError);
    };
    for place in 0..entries.len() {
        if let Some((key, _)) = entries.get_index(place)
            && let Some(hint) = hints.get_mut(hint_slot(*key, count))
        {
            *hint = (place % 65_536) as u16;
        }
    }
    Ok(hints)
}

/// Returns the ports at index `place` if they have this key, otherwise `None`. `static_ports` calls it to test a hint.
#[inline(always)]
pub(crate) fn ports_by_index<A: Allocator + Copy>(
    entries: &StaticTable<A>,
    place: usize,
    key: u64,
) -> Option<PortSet>
    ensures { IfSome result (λ ports. get nat_eq entries.now key ≡ Some ports) }
{
    let _entries = entries.len();
    match entries.get_index(place) {
        Some((own, ports)) if *own == key => Some(*ports),
        _ => None,
    }
}

/// Returns the ports of `key` by its hash; `None` if no static entry has this key. `static_ports` calls it after a wrong hint.
#[inline(never)]
pub(crate) fn ports_by_hash<A: Allocator + Copy>(
    entries: &StaticTable<A>,
    key: u64,
) -> Option<PortSet>
    ensures { result ≡ get nat_eq entries.now key }
{
    entries.get(&key).copied()
}

/// Makes the table of the ports of static entries, by VLAN identifier and address, so that forwarding takes constant time.
/// `Forwarding::new` calls it.
pub(crate) fn make_static_table<A: Allocator + Copy>(
    alloc: A,
    statics: &[StaticEntry],
) -> Result<StaticTable<A>, AllocError>
    ensures { IfOk result (λ m. (vid : ℕ) (address : List ℕ)
        → IsKey vid address
        → get nat_eq m (address_key vid address) ≡ static_ports statics.now vid address) }
{
    let Ok(mut entries) = IndexMap::with_capacity(alloc, statics.len()) else {
        return Err(AllocError);
    };
    for entry in statics {
        let Ok(()) = insert_static(&mut entries, *entry) else {
            return Err(AllocError);
        };
    }
    Ok(entries)
}
