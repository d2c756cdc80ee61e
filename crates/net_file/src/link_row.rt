//! Links of a network file: the section `link`. `parse_network` reads it.
ghost use Rattle.std.specs.Prelude.{◌≡◌, ◌<◌, ◌≤◌, All, IfErr, IfOk, length};
ghost use Rattle.toml.specs.View.{table_view};
ghost use Rattle.net_file.specs.declared.fault.NetFault.TheVariants.{NoMemory};
ghost use Rattle.net_file.specs.declared.fault.NetSection.TheVariants as the_section;
ghost use Rattle.net_file.specs.Keys.{Gives};
ghost use Rattle.net_file.specs.Rules as rules;
ghost use Rattle.net_file.specs.Sections as sections;

use crate::bridge_row::BridgeRow;
use crate::fault::{NetFault, NetField, NetKeyLocation, NetSection};
use crate::keys::{DELAY, FIRST_PORT, LAST_PORT, LINK_KEYS};
use crate::names::resolve_numbered_name;
use crate::reading::{read_or_default, read_required};
use bridge_schema::{Flaw, SectionReader, ValueKind, has_only};
use std::alloc::Allocator;
use toml::{Table, Value};

/// A link of a network file. Each end names its bridge by the bridge's index.
#[derive(Clone, Copy)]
pub struct LinkRow {
    /// Port at one end: the index of its bridge from 0, and its number.
    pub one: (u16, u8),
    /// Port at the other end: the index of its bridge from 0, and its number.
    pub other: (u16, u8),
    /// Delay in ns of a frame in either direction; 0 if the file has none.
    pub delay: u64,
}

/// Kind of value that names a port of one of `bridges`, such as `left.3`. The keys `one` and `other` of a link have it.
#[derive(Drop)]
struct PortName<'a, A: Allocator + Copy> {
    bridges: &'a [BridgeRow<A>],
    ghost few: { length bridges.now ≤ 64 },
}

impl<'a, A: Allocator + Copy> ValueKind for PortName<'a, A> {
    type Out = (u16, u8);

    ghost reading = { λ k. sections.port_text k.bridges.now };

    ghost Fits = { λ k. rules.IsBridgePort (length k.bridges.now) };

    #[tactic(auto, unfolding(crate::specs::Sections::port_text))]
    fn read(&self, value: &Value) -> Result<(u16, u8), Flaw> {
        match value {
            Value::String(text) => match resolve_numbered_name(
                self.bridges,
                FIRST_PORT,
                LAST_PORT,
                text.as_str(),
            ) {
                Ok((bridge, port)) => Ok((bridge, port as u8)),
                Err(flaw) => Err(flaw),
            },
            _ => Err(Flaw::WrongKind),
        }
    }
}

/// Returns the location of a key of link `index`, from 1, for a fault. `read_link` calls it.
fn link_key(index: u32, field: NetField) -> NetKeyLocation
    ensures { result ≡ record { section = the_section.Link; index = index; field = field } }
{
    NetKeyLocation {
        section: NetSection::Link,
        index,
        field,
    }
}

/// Reads link `index`, from 1, from its table, or returns the table's first fault. The ends must be ports of `bridges`; `delay` may be
/// absent. `read` calls it.
#[tactic(auto, unfolding(crate::specs::Sections::read_link))]
fn read_link<A: Allocator + Copy>(
    bridges: &[BridgeRow<A>],
    index: u32,
    table: &Table,
) -> Result<LinkRow, NetFault>
    requires { length bridges.now ≤ 64 }
    ensures reads { Gives result (sections.read_link bridges.now index (table_view table.now)) }
    ensures link { IfOk result (rules.IsLink (length bridges.now)) }
    ensures takes_no_memory { IfErr result (λ e. ¬ (e ≡ NoMemory)) }
{
    if !has_only(table, &LINK_KEYS) {
        return Err(NetFault::UnknownKey(NetSection::Link, index));
    }
    let ports = PortName { bridges };
    let one = match read_required(table, link_key(index, NetField::One), &ports) {
        Ok(one) => one,
        Err(fault) => return Err(fault),
    };
    let other = match read_required(table, link_key(index, NetField::Other), &ports) {
        Ok(other) => other,
        Err(fault) => return Err(fault),
    };
    let delay = match read_or_default(0, table, link_key(index, NetField::Delay), &DELAY) {
        Ok(delay) => delay,
        Err(fault) => return Err(fault),
    };
    Ok(LinkRow { one, other, delay })
}

/// Reads the section `link` for `read_instances`, one table at a time. The ends must be ports of `bridges`.
#[derive(Drop)]
pub(crate) struct LinkSection<'a, A: Allocator + Copy> {
    pub bridges: &'a [BridgeRow<A>],
    ghost few: { length bridges.now ≤ 64 },
}

impl<'a, A: Allocator + Copy> SectionReader<A> for LinkSection<'a, A> {
    type Fault = NetFault;

    type Instance = LinkRow;

    ghost reading = { λ s. sections.read_link_in_list s.bridges.now };

    ghost Keeps = { λ s. All (rules.IsLink (length s.bridges.now)) };

    #[tactic(auto, using(bridge_limits::proofs::Lists::each_push))]
    fn read(
        &self,
        _alloc: A,
        _earlier: &[LinkRow],
        index: u32,
        table: &Table,
    ) -> Result<LinkRow, NetFault> {
        read_link(self.bridges, index, table)
    }
}
