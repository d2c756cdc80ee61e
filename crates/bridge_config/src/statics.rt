//! Reads the section `static` of a plan: static filtering entries.
ghost use Rattle.std.specs.Prelude.{◌≡◌, ◌≤◌, ◌+◌, ◌&&◌, ◌||◌, nat_eq, IfOk, drop, false, length};
ghost use Rattle.std.specs.Str.{bytes_eq};
ghost use Rattle.toml.specs.View.{table_view};
ghost use Rattle.bridge_schema.specs.Readers.{MatchesReading};
ghost use Rattle.bridge_config.specs.Sections as sections;
ghost use Rattle.bridge_config.specs.Rules as rules;

use crate::first_fault::FirstFault;
use crate::vlans::VlanNumbers;
use bridge_forward::{PortSet, StaticEntry, Vlan};
use bridge_schema::{
    Address, Field, InstanceTable, KnownNumber, KnownPorts, PlanFault, STATIC_KEYS, Section,
    SectionReader, TextValue, VID, has_allowed_keys,
};
use std::alloc::Allocator;
use toml::Table;

/// Whether a static entry has VLAN `vid` and address `address`. The last two octets are compared first because they differ most often.
///
/// `has_static_among` and `has_static_in_four` call it.
#[inline(always)]
fn has_vlan_and_address(entry: &StaticEntry, vid: u64, address: &[u8; 6]) -> bool
    ensures { result ≡ (nat_eq entry.now.vid vid && bytes_eq entry.now.address address.now) }
{
    if entry.address[5] != address[5] || entry.address[4] != address[4] {
        return false;
    }
    entry.vid as u64 == vid && entry.address == *address
}

/// Whether one of the entries has VLAN `vid` and address `address`. `has_static` calls it for the last entries, at most three.
fn has_static_among(statics: &[StaticEntry], vid: u64, address: &[u8; 6]) -> bool
    ensures { result ≡ rules.has_static statics.now vid address.now }
{
    statics
        .iter()
        .any(|s| has_vlan_and_address(s, vid, address))
}

/// Whether one of the four entries from index `place` on has VLAN `vid` and address `address`. `has_static` calls it.
#[inline(always)]
fn has_static_in_four(statics: &[StaticEntry], place: usize, vid: u64, address: &[u8; 6]) -> bool
    requires { place + 4 ≤ length statics.now }
    ensures { rules.has_static (drop place statics.now) vid address.now
        ≡ result || rules.has_static (drop (place + 4) statics.now) vid address.now }
{
    let one = has_vlan_and_address(&statics[place], vid, address);
    let two = has_vlan_and_address(&statics[place + 1], vid, address);
    let three = has_vlan_and_address(&statics[place + 2], vid, address);
    let four = has_vlan_and_address(&statics[place + 3], vid, address);
    one | two | three | four
}

/// Whether one of the entries has VLAN `vid` and address `address`. The plan's reader compares each entry with all before it, so the loop
/// compares four at a time. `read_static` calls it.
fn has_static(statics: &[StaticEntry], vid: u64, address: &[u8; 6]) -> bool
    ensures { result ≡ rules.has_static statics.now vid address.now }
{
    let mut place = 0;
    while statics.len() - place >= 4 {
        if has_static_in_four(statics, place, vid, address) {
            return true;
        }
        place += 4;
    }
    has_static_among(&statics[place..], vid, address)
}

/// Whether a `[[static]]` table has only keys of a static entry; otherwise its fault is `UnknownKey`. `read_static` calls it.
fn has_static_keys(table: &Table) -> bool
    ensures { result ≡ sections.has_static_keys (table_view table.now) }
{
    has_allowed_keys(table, &STATIC_KEYS, false)
}

/// Reads a static entry. No entry before it may have its VLAN and address. `all` is the set of the plan's ports. If the entry is refused,
/// returns its fault. `StaticSection::read` calls it.
fn read_static(
    all: u16,
    vlans: &[Vlan],
    statics: &[StaticEntry],
    index: u32,
    table: &Table,
) -> Result<StaticEntry, PlanFault>
    ensures reads { MatchesReading result (sections.read_static all vlans.now statics.now index
        (table_view table.now)) }
    ensures own { IfOk result (λ s. rules.has_static statics.now s.vid s.address ≡ false) }
    ensures entry { IfOk result (λ s. rules.IsStatic all vlans.now s) }
{
    let row = InstanceTable {
        table,
        section: Section::Static,
        index,
    };
    let unknown = PlanFault::UnknownKey(Section::Static, index);
    let mut first = FirstFault::begin(has_static_keys(table), unknown);
    let known_vlans = KnownNumber {
        among: VlanNumbers { vlans },
        range: VID,
    };
    let vid = first.read_required(row, Field::Vid, &known_vlans, 1);
    let addresses = TextValue { meaning: Address };
    let address = first.read_required(row, Field::Address, &addresses, [0; 6]);
    let ports = first.read_required(row, Field::Ports, &KnownPorts { all }, 0);
    first.expect(
        !has_static(statics, vid, &address),
        PlanFault::Duplicate(Section::Static, index),
    );
    first.finish(StaticEntry {
        vid: vid as u16,
        address,
        ports: PortSet::from_bits(ports),
    })
}

/// Reads the section of static entries. `all` is the set of the plan's ports.
#[derive(Clone, Copy)]
pub(crate) struct StaticSection<'a> {
    /// Set of the plan's ports: bit n - 1 is set if the plan has port n.
    pub all: u16,
    /// VLANs that were read before.
    pub vlans: &'a [Vlan],
}

impl<'a, A: Allocator + Copy> SectionReader<A> for StaticSection<'a> {
    type Fault = PlanFault;

    type Instance = StaticEntry;

    ghost reading = { λ s. sections.read_static s.all s.vlans.now };

    ghost Keeps = { λ s. rules.AreStatics s.all s.vlans.now };

    #[tactic(auto, using(crate::proofs::Own::statics_push))]
    fn read(
        &self,
        _alloc: A,
        earlier: &[StaticEntry],
        index: u32,
        table: &Table,
    ) -> Result<StaticEntry, PlanFault> {
        read_static(self.all, self.vlans, earlier, index, table)
    }
}
