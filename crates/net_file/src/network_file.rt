//! Reading of network files: `parse_network`, and the type that it returns.
ghost use Rattle.std.specs.Prelude.{◌≡◌, IfErr, IfOk};
ghost use Rattle.toml.specs.View.{table_view};
ghost use Rattle.net_file.specs.declared.fault.NetFault.TheVariants.{NoMemory};
ghost use Rattle.net_file.specs.Arrays.{items_of_arrays, AreFew};
ghost use Rattle.net_file.specs.Document as doc;
ghost use Rattle.net_file.specs.Keys.{Gives, GivesAs};
ghost use Rattle.net_file.specs.Rules as rules;

use crate::bridge_row::{BridgeRow, BridgeSection};
use crate::fault::{NetFault, NetField, NetKeyLocation, NetSection};
use crate::link_row::{LinkRow, LinkSection};
use crate::stream_row::{StreamRow, StreamSection};
use bridge_schema::{has_only, is_empty, read_instances, section_items};
use std::alloc::{Allocator, Global};
use std::marker::Model;
use toml::{Table, Value};

/// Network file without fault: its bridges, links and streams. Only `parse_network` creates a value.
#[derive(Drop)]
pub struct NetworkFile<A: Allocator + Copy> {
    bridges: Vec<BridgeRow<A>, A>,
    links: Vec<LinkRow, A>,
    streams: Vec<StreamRow<A>, A>,
}

impl<A: Allocator + Copy> Model for NetworkFile<A> {
    ghost use Rattle.net_file.specs.Model.{Network};
    ghost use Rattle.net_file.specs.Rules.{IsNetwork};

    ghost Value = { Network };

    ghost view = { λ n. record { bridges = n.bridges.items; links = n.links.items; streams = n.streams.items } };

    ghost invariant = { λ n. IsNetwork (record {
      bridges = n.bridges.items;
      links = n.links.items;
      streams = n.streams.items;
    }) };
}

impl<A: Allocator + Copy> NetworkFile<A> {
    /// Returns the bridges, in file order. Links and hops name a bridge by its index in this list. Functions of `app_networks`, `net_check`
    /// and `net_latency` call it.
    pub fn bridges(&self) -> &[BridgeRow<A>]
        ensures bridges { result.now ≡ self.now.bridges }
        ensures rules { rules.IsNetwork self.now }
    {
        &self.bridges
    }

    /// Returns the links, in file order. Runs, checks and pictures of networks need them.
    pub fn links(&self) -> &[LinkRow]
        ensures links { result.now ≡ self.now.links }
        ensures rules { rules.IsNetwork self.now }
    {
        &self.links
    }

    /// Returns the streams, in file order. Runs, checks and pictures of networks need them.
    pub fn streams(&self) -> &[StreamRow<A>]
        ensures streams { result.now ≡ self.now.streams }
        ensures rules { rules.IsNetwork self.now }
    {
        &self.streams
    }
}

/// Arrays of the three sections of a network file. No instance has been read, because the keys at the top are tested first.
#[derive(Clone, Copy)]
struct SectionArrays<'a> {
    bridges: &'a [Value],
    links: &'a [Value],
    streams: &'a [Value],
}

/// Returns the arrays of the three sections of a network file, or the first fault at the top of the file. Allocates no memory.
/// `parse_network` calls it.
#[tactic(auto, unfolding(crate::specs::Document::read_arrays))]
fn read_arrays<'a>(table: &'a Table) -> Result<SectionArrays<'a>, NetFault>
    ensures reads { GivesAs items_of_arrays result (doc.read_arrays (table_view table.now)) }
    ensures few { IfOk result AreFew }
    ensures takes_no_memory { IfErr result (λ e. ¬ (e ≡ NoMemory)) }
{
    let sections = [NetSection::Bridge, NetSection::Link, NetSection::Stream];
    if !has_only(table, &sections) {
        return Err(NetFault::UnknownKey(NetSection::Top, 0));
    }
    let bridges = match section_items(NetSection::Bridge, table) {
        Ok(bridges) => bridges,
        Err(fault) => return Err(fault),
    };
    if is_empty(bridges) {
        return Err(NetFault::Missing(NetKeyLocation {
            section: NetSection::Top,
            index: 0,
            field: NetField::Bridge,
        }));
    }
    let links = match section_items(NetSection::Link, table) {
        Ok(links) => links,
        Err(fault) => return Err(fault),
    };
    let streams = match section_items(NetSection::Stream, table) {
        Ok(streams) => streams,
        Err(fault) => return Err(fault),
    };
    Ok(SectionArrays {
        bridges,
        links,
        streams,
    })
}

/// Reads the bridges, then links and streams, which name bridges. Returns the first fault if there is one. `parse_network` calls it.
#[tactic(auto, unfolding(crate::specs::Document::read_sections))]
fn read_sections<A: Allocator + Copy>(
    alloc: A,
    arrays: SectionArrays<'_>,
) -> Result<NetworkFile<A>, NetFault>
    requires { AreFew arrays }
    ensures { Gives result (doc.read_sections (items_of_arrays arrays.entry)) }
{
    let bridges = read_instances(alloc, &BridgeSection, arrays.bridges)?;
    let links = read_instances(alloc, &LinkSection { bridges: &bridges }, arrays.links)?;
    let streams = read_instances(alloc, &StreamSection { bridges: &bridges }, arrays.streams)?;
    Ok(NetworkFile {
        bridges,
        links,
        streams,
    })
}

/// Reads the TOML document of a network or traffic file. `heap` holds the document. The fault is `TooLong` for a text above 1,048,576
/// octets, and `Syntax` for a text that isn't TOML in UTF-8.
///
/// `parse_network`, `parse_traffic`, `explain_network` of `net_check` and `explain_traffic` of `net_latency` call it.
#[tactic(auto, unfolding(crate::specs::Document::read_document))]
pub fn read_document(heap: Global, text: &[u8]) -> Result<Table, NetFault>
    ensures { GivesAs table_view result (doc.read_document text.now) }
{
    bridge_schema::read_document(heap, text)
}

/// Reads a network from a TOML text, or returns its first fault: syntax first, then sections in the order bridge, link, stream. `heap`
/// holds the document, `alloc` the network. Commands for networks call it.
pub fn parse_network<A: Allocator + Copy>(
    alloc: A,
    heap: Global,
    text: &[u8],
) -> Result<NetworkFile<A>, NetFault>
    ensures reads { Gives result (doc.network_of_text text.now) }
    ensures rules { IfOk result rules.IsNetwork }
{
    let document = read_document(heap, text)?;
    let arrays = read_arrays(&document)?;
    read_sections(alloc, arrays)
}
