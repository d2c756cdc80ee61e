//! Bridges of a network file: the section `bridge`. `parse_network` reads it.
ghost use Rattle.std.specs.Prelude.{◌≡◌, IfOk, true, false};
ghost use Rattle.toml.specs.View.{table_view};
ghost use Rattle.net_file.specs.declared.fault.NetSection.TheVariants as the_section;
ghost use Rattle.net_file.specs.Names.{is_valid_name};
ghost use Rattle.net_file.specs.Keys.{Gives};
ghost use Rattle.net_file.specs.Rules as rules;
ghost use Rattle.net_file.specs.Sections as sections;

use crate::fault::{NetFault, NetField, NetKeyLocation, NetSection};
use crate::keys::BRIDGE_KEYS;
use crate::reading::{read_name, read_text};
use bridge_schema::{SectionReader, has_only};
use std::alloc::Allocator;
use std::marker::Model;
use toml::Table;

/// A bridge of a network file: its name and the path of its plan's file.
#[derive(Drop)]
pub struct BridgeRow<A: Allocator + Copy> {
    name: String<A>,
    plan: String<A>,
}

impl<A: Allocator + Copy> Model for BridgeRow<A> {
    ghost use Rattle.std.specs.Prelude.{string_bytes};
    ghost use Rattle.net_file.specs.Model.{Bridge};

    ghost Value = { Bridge };

    ghost view = { λ b. record { name = string_bytes b.name; plan = string_bytes b.plan } };
}

impl<A: Allocator + Copy> BridgeRow<A> {
    /// Returns the name: 1 to 32 letters, digits, `-` and `_`. Lines, links and hops use this name.
    pub fn name(&self) -> &str
        ensures { result.now ≡ self.now.name }
    {
        self.name.as_str()
    }

    /// Returns the path of the plan's file, as the network file writes it. Callers that read the plan join it to the network file's folder.
    pub fn plan(&self) -> &str
        ensures { result.now ≡ self.now.plan }
    {
        self.plan.as_str()
    }
}

/// Returns whether one of these bridges has the name `name`. `read_bridge` then refuses another bridge of this name as `Duplicate`.
fn has_bridge<A: Allocator + Copy>(bridges: &[BridgeRow<A>], name: &str) -> bool
    ensures { result ≡ rules.has_bridge bridges.now name.now }
{
    for bridge in bridges {
        if bridge.name() == name {
            return true;
        }
    }
    false
}

/// Returns the location of a key of bridge `index`, from 1, for a fault. `read_bridge` calls it.
fn bridge_key(index: u32, field: NetField) -> NetKeyLocation
    ensures { result ≡ record { section = the_section.Bridge; index = index; field = field } }
{
    NetKeyLocation {
        section: NetSection::Bridge,
        index,
        field,
    }
}

/// Reads bridge `index`, from 1, from its table, or returns the table's first fault. A bridge in `earlier` with the same name is the fault
/// `Duplicate`. `read` calls it.
#[tactic(auto, unfolding(crate::specs::Sections::read_bridge))]
fn read_bridge<A: Allocator + Copy>(
    alloc: A,
    earlier: &[BridgeRow<A>],
    index: u32,
    table: &Table,
) -> Result<BridgeRow<A>, NetFault>
    ensures reads { Gives result (sections.read_bridge earlier.now index (table_view table.now)) }
    ensures own { IfOk result (λ b. rules.has_bridge earlier.now b.name ≡ false) }
    ensures name { IfOk result (λ b. is_valid_name b.name ≡ true) }
{
    if !has_only(table, &BRIDGE_KEYS) {
        return Err(NetFault::UnknownKey(NetSection::Bridge, index));
    }
    let name = match read_name(table, bridge_key(index, NetField::Name)) {
        Ok(name) => name,
        Err(fault) => return Err(fault),
    };
    let plan = match read_text(table, bridge_key(index, NetField::Plan)) {
        Ok(plan) => plan,
        Err(fault) => return Err(fault),
    };
    if has_bridge(earlier, name) {
        return Err(NetFault::Duplicate(NetSection::Bridge, index));
    }
    let Ok(name) = String::from_str(alloc, name) else {
        return Err(NetFault::NoMemory);
    };
    let Ok(plan) = String::from_str(alloc, plan) else {
        return Err(NetFault::NoMemory);
    };
    Ok(BridgeRow { name, plan })
}

/// Reads the section `bridge` for `read_instances`, one table at a time. `read_sections` passes it.
#[derive(Clone, Copy)]
pub(crate) struct BridgeSection;

impl<A: Allocator + Copy> SectionReader<A> for BridgeSection {
    type Fault = NetFault;

    type Instance = BridgeRow<A>;

    ghost reading = { λ _. sections.read_bridge };

    ghost Keeps = { λ _. rules.AreBridges };

    #[tactic(auto, using(crate::proofs::Own::bridges_push))]
    fn read(
        &self,
        alloc: A,
        earlier: &[BridgeRow<A>],
        index: u32,
        table: &Table,
    ) -> Result<BridgeRow<A>, NetFault> {
        read_bridge(alloc, earlier, index, table)
    }
}
