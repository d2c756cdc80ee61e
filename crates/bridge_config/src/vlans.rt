//! Reads the section `vlan` of a plan: VLANs and their member ports.
ghost use Rattle.std.specs.Prelude.{◌≡◌, IfOk, false};
ghost use Rattle.toml.specs.View.{table_view};
ghost use Rattle.bridge_schema.specs.Readers.{MatchesReading};
ghost use Rattle.bridge_config.specs.Sections as sections;
ghost use Rattle.bridge_config.specs.Rules as rules;

use crate::first_fault::FirstFault;
use bridge_forward::{PortSet, Vlan};
use bridge_schema::{
    Field, InstanceTable, KnownPorts, NumberLookup, PlanFault, Section, SectionReader, VID,
    VLAN_KEYS, has_allowed_keys,
};
use std::alloc::Allocator;
use toml::Table;

/// Whether a VLAN has the identifier `vid`. Static entries may name only a VLAN of the plan, and later VLANs need another identifier.
/// `VlanNumbers::has` and `read_vlan` call it.
pub(crate) fn has_vlan(vlans: &[Vlan], vid: u64) -> bool
    ensures { result ≡ rules.has_vlan vlans.now vid }
{
    vlans.iter().any(|v| v.vid as u64 == vid)
}

/// Identifiers of a plan's VLANs. Readers of static entries look up their VLAN in it.
#[derive(Clone, Copy)]
pub(crate) struct VlanNumbers<'a> {
    /// The VLANs of the plan, in file order.
    pub vlans: &'a [Vlan],
}

impl<'a> NumberLookup for VlanNumbers<'a> {
    ghost among = { λ s. rules.has_vlan s.vlans.now };

    fn has(&self, number: u64) -> bool {
        has_vlan(self.vlans, number)
    }
}

/// Whether a `[[vlan]]` table has only keys of a VLAN; otherwise its fault is `UnknownKey`. `read_vlan` calls it.
fn has_vlan_keys(table: &Table) -> bool
    ensures { result ≡ sections.has_vlan_keys (table_view table.now) }
{
    has_allowed_keys(table, &VLAN_KEYS, false)
}

/// Reads a VLAN. None of `vlans`, the earlier VLANs, may have its identifier. `all` is the set of the plan's ports, which members must
/// belong to.
///
/// If the VLAN is refused, returns its fault. `VlanSection::read` calls it.
fn read_vlan(all: u16, vlans: &[Vlan], index: u32, table: &Table) -> Result<Vlan, PlanFault>
    ensures reads { MatchesReading result (sections.read_vlan all vlans.now index (table_view table.now)) }
    ensures own { IfOk result (λ v. rules.has_vlan vlans.now v.vid ≡ false) }
    ensures vlan { IfOk result (λ v. rules.IsVlan all v) }
{
    let row = InstanceTable {
        table,
        section: Section::Vlan,
        index,
    };
    let unknown = PlanFault::UnknownKey(Section::Vlan, index);
    let mut first = FirstFault::begin(has_vlan_keys(table), unknown);
    let vid = first.read_required(row, Field::Vid, &VID, 1);
    let members = first.read_required(row, Field::Members, &KnownPorts { all }, 0);
    first.expect(
        !has_vlan(vlans, vid),
        PlanFault::Duplicate(Section::Vlan, index),
    );
    first.finish(Vlan {
        vid: vid as u16,
        members: PortSet::from_bits(members),
    })
}

/// Reads the section of VLANs. `all` is the set of the plan's ports.
#[derive(Clone, Copy)]
pub(crate) struct VlanSection {
    /// Set of the plan's ports: bit n - 1 is set if the plan has port n.
    pub all: u16,
}

impl<A: Allocator + Copy> SectionReader<A> for VlanSection {
    type Fault = PlanFault;

    type Instance = Vlan;

    ghost reading = { λ s. sections.read_vlan s.all };

    ghost Keeps = { λ s. rules.AreVlans s.all };

    #[tactic(auto, using(crate::proofs::Own::vlans_push))]
    fn read(
        &self,
        _alloc: A,
        earlier: &[Vlan],
        index: u32,
        table: &Table,
    ) -> Result<Vlan, PlanFault> {
        read_vlan(self.all, earlier, index, table)
    }
}
