//! Filtering database, and the egress ports of a frame.

ghost use Rattle.std.specs.Prelude.{◌≡◌, ◌≤◌, Option, IfOk, false};
ghost use Rattle.bridge_forward.specs.Ports.{has_port};
ghost use Rattle.bridge_forward.specs.Database.{vlan_members, static_ports};
ghost use Rattle.bridge_forward.specs.Forward.{is_reserved, output_ports, forward};

use crate::lookup_tables::{
    StaticTable, hint_slot, make_hints, make_member_table, make_static_table, ports_by_hash,
    ports_by_index,
};
use crate::{PortSet, StaticEntry, Vlan};
use bridge_frame::address_key;
use bridge_limits::NoMemory;
use std::alloc::Allocator;
use std::marker::Model;

/// Whether `da` is a reserved address (01-80-C2-00-00-00 to 01-80-C2-00-00-0F), so that its frames aren't forwarded. The first octet
/// already excludes most other addresses. `Forwarding::forward` calls it.
#[inline(always)]
#[tactic(auto, using(crate::proofs::Reserved::is_not_reserved))]
fn is_reserved(da: &[u8; 6]) -> bool
    ensures { result ≡ is_reserved da.now }
{
    if da[0] != 0x01 {
        return false;
    }
    da[..5] == [0x01, 0x80, 0xC2, 0x00, 0x00] && da[5] <= 0x0F
}

/// Returns the egress ports of a frame: members of the frame's VLAN that the frame's static entry allows, without ingress port `port`.
///
/// The set is empty if the VLAN is unknown (`members` is `None`) or lacks `port`.
///
/// `Forwarding::forward` calls it.
#[inline(always)]
fn output_ports(members: Option<PortSet>, entry: Option<PortSet>, port: u8) -> PortSet
    requires from { 1 ≤ port }
    requires to { port ≤ 16 }
    ensures { result ≡ output_ports members entry port }
{
    match members {
        Some(members) if members.has(port) => {
            let allowed = match entry {
                Some(ports) => ports.intersection(members),
                None => members,
            };
            allowed.without_port(port)
        }
        _ => PortSet::from_bits(0),
    }
}

/// Filtering database: VLANs and static filtering entries. Contracts mention only `vlans` and `statics`; the other fields speed up
/// look-ups.
#[derive(Drop)]
pub struct Forwarding<A: Allocator + Copy> {
    /// VLANs in the given order.
    vlans: Vec<Vlan, A>,
    /// Static entries in the given order.
    statics: Vec<StaticEntry, A>,
    /// Members of each VLAN, indexed by VLAN identifier.
    members: Vec<Option<PortSet>, A>,
    /// Ports of each static entry, by VLAN identifier and address.
    entries: StaticTable<A>,
    /// Hints: the index among `entries` at which a key may stand. Look-ups test each hint.
    index_hints: Vec<u16, A>,
}

impl<A: Allocator + Copy> Model for Forwarding<A> {
    ghost use Rattle.bridge_forward.specs.Database.{Database};
    ghost use Rattle.bridge_forward.specs.LookupTables.{HasTables};

    ghost Value = { Database };

    ghost view = { λ f. record { vlans = f.vlans.items; statics = f.statics.items } };

    ghost invariant = { λ f. HasTables f.vlans.items f.statics.items f.members.items f.entries };
}

impl<A: Allocator + Copy> Forwarding<A> {
    /// Makes a database. If several VLANs have one identifier, or several static entries one VLAN and address, the first applies. If memory
    /// runs out, both lists are dropped.
    ///
    /// `read_plan` of `bridge_config` calls it.
    pub fn new(
        alloc: A,
        vlans: Vec<Vlan, A>,
        statics: Vec<StaticEntry, A>,
    ) -> Result<Forwarding<A>, NoMemory>
        ensures { IfOk result (λ f. f ≡ record { vlans = vlans.items; statics = statics.items }) }
    {
        let members = make_member_table(alloc, &vlans)?;
        let entries = make_static_table(alloc, &statics)?;
        let Ok(hints) = make_hints(alloc, &entries) else {
            drop(vlans);
            drop(statics);
            drop(members);
            drop(entries);
            return Err(NoMemory);
        };
        Ok(Forwarding {
            vlans,
            statics,
            members,
            entries,
            index_hints: hints,
        })
    }

    /// Returns the VLANs in the given order. `Plan::vlans` returns them.
    pub fn vlans(&self) -> &[Vlan]
        ensures { result.now ≡ self.now.vlans }
    {
        self.vlans.as_slice()
    }

    /// Returns the static entries in the given order. `Plan::statics` returns them.
    pub fn statics(&self) -> &[StaticEntry]
        ensures { result.now ≡ self.now.statics }
    {
        self.statics.as_slice()
    }

    /// Returns the egress ports of a frame to address `da` in VLAN `vid` that arrived on `port` (IEEE 802.1Q-2018, 8.6.2 to 8.6.4). Takes
    /// constant time, and allocates no memory. `Plan::forward` calls it for each frame.
    #[inline(always)]
    pub fn forward(&self, port: u8, vid: u16, da: &[u8; 6]) -> PortSet
        requires from { 1 ≤ port }
        requires to { port ≤ 16 }
        ensures ports { result ≡ forward self.now port vid da.now }
        ensures not_back { has_port result port ≡ false }
    {
        if is_reserved(da) {
            return PortSet::from_bits(0);
        }
        output_ports(self.vlan_members(vid), self.static_ports(vid, da), port)
    }

    /// Returns the members of a VLAN; `None` if the database lacks it. `Forwarding::forward` calls it.
    #[inline(always)]
    fn vlan_members(&self, vid: u16) -> Option<PortSet>
        ensures { result ≡ vlan_members self.now.vlans vid }
    {
        self.members.get(vid as usize).copied().flatten()
    }

    /// Returns the index at which `key` may be, or 0 without hints. `static_ports` tests the key at this index.
    #[inline(always)]
    fn hinted_index(&self, key: u64) -> usize {
        match self.index_hints.get(hint_slot(key, self.index_hints.len())) {
            Some(place) => *place as usize,
            None => 0,
        }
    }

    /// Returns the ports of the static entry for a VLAN and an address; `None` if there is no entry. Tries the hinted index before the
    /// hash. `Forwarding::forward` calls it.
    #[inline(always)]
    fn static_ports(&self, vid: u16, da: &[u8; 6]) -> Option<PortSet>
        ensures { result ≡ static_ports self.now.statics vid da.now }
    {
        let key = address_key(vid, *da);
        match ports_by_index(&self.entries, self.hinted_index(key), key) {
            Some(ports) => Some(ports),
            None => ports_by_hash(&self.entries, key),
        }
    }
}
