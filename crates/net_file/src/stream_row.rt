//! Streams of a network file: the section `stream`. `parse_network` reads it.
ghost use Rattle.std.specs.Prelude.{◌≡◌, ◌&&◌, [], ◌^◌, ◌<◌, ◌≤◌, All, IfErr, IfOk, length, nat_le, option_map, true, false};
ghost use Rattle.toml.specs.View.{view, table_view, items_view};
ghost use Rattle.net_file.specs.declared.fault.NetFault.TheVariants.{NoMemory};
ghost use Rattle.net_file.specs.declared.fault.NetSection.TheVariants as the_section;
ghost use Rattle.bridge_limits.specs.declared.TheConstants.{END_OF_TIME};
ghost use Rattle.bridge_schema.specs.Readers.{number_in_range, count_items};
ghost use Rattle.net_file.specs.declared.fault.NetField.TheVariants as the_field;
ghost use Rattle.net_file.specs.Keys.{Gives, GivesAs, value_or_fault};
ghost use Rattle.net_file.specs.Keys as reading;
ghost use Rattle.net_file.specs.Rules as rules;
ghost use Rattle.net_file.specs.Sections as sections;
ghost use Rattle.std.specs.Option.{ForSome};

use crate::bridge_row::BridgeRow;
use crate::fault::{NetFault, NetField, NetKeyLocation, NetSection};
use crate::keys::{DEADLINE, MAX_HOPS, STREAM_KEYS};
use crate::names::{is_numbered_name, resolve_numbered_name};
use crate::reading::{read_name, read_optional};
use crate::talker::{Talker, read_optional_talker};
use bridge_schema::{Flaw, ReaderFault, SectionReader, get_value, has_only};
use std::alloc::Allocator;
use std::marker::Model;
use toml::{Table, Value};

/// Largest filter number.
const MAX_FILTER_NUMBER: u32 = u32::MAX;

/// A stream of a network file: name, hops, optional talker and optional deadline.
#[derive(Drop)]
pub struct StreamRow<A: Allocator + Copy> {
    name: String<A>,
    hops: Vec<(u16, u32), A>,
    talker: Option<Talker>,
    deadline: Option<u64>,
}

impl<A: Allocator + Copy> Model for StreamRow<A> {
    ghost use Rattle.std.specs.Prelude.{string_bytes};
    ghost use Rattle.net_file.specs.Model.{Stream};

    ghost Value = { Stream };

    ghost view = { λ s. record {
      name = string_bytes s.name;
      hops = s.hops.items;
      talker = s.talker;
      deadline = s.deadline;
    } };
}

impl<A: Allocator + Copy> StreamRow<A> {
    /// Returns the name: 1 to 32 letters, digits, `-` and `_`. Lines and tables use this name.
    pub fn name(&self) -> &str
        ensures { result.now ≡ self.now.name }
    {
        self.name.as_str()
    }

    /// Returns the hops from talker to listener: each hop has a bridge index, from 0, and a filter number. Functions of `app_networks`,
    /// `net_check`, `net_latency` and other crates call it.
    pub fn hops(&self) -> &[(u16, u32)]
        ensures { result.now ≡ self.now.hops }
    {
        self.hops.as_slice()
    }

    /// Returns the stream's periodic talker, or `None` if the stream has none in the file. Functions of `net_check` and `net_latency` call
    /// it.
    pub fn talker(&self) -> Option<Talker>
        ensures { result ≡ self.now.talker }
    {
        self.talker
    }

    /// Returns the largest allowed delay in ns, from arrival at the first hop to the end of transmission at the last hop. `None` means no
    /// limit. Functions of `app_networks`, `net_check` and `net_latency` call it.
    pub fn deadline(&self) -> Option<u64>
        ensures { result ≡ self.now.deadline }
    {
        self.deadline
    }
}

/// Returns whether one of these streams has the name `name`. `read_stream` then refuses another stream of this name as `Duplicate`.
fn has_stream<A: Allocator + Copy>(streams: &[StreamRow<A>], name: &str) -> bool
    ensures { result ≡ rules.has_stream streams.now name.now }
{
    for stream in streams {
        if stream.name() == name {
            return true;
        }
    }
    false
}

/// Returns whether each item of an array is a text. If not, `hops_value`, which calls it, returns the fault `WrongKind` before it looks up
/// any bridge.
fn are_texts(items: &[Value]) -> bool
    ensures { result ≡ sections.are_texts (items_view items.now) }
{
    'items: for item in items {
        if !matches!(item, Value::String(_)) {
            return false;
        }
    }
    true
}

/// Returns whether each item is a text with a dot and a filter number after it. If not, `hops_value`, which calls it, returns the fault
/// `OutOfRange`.
fn are_numbered_names(items: &[Value]) -> bool
    ensures { result ≡ sections.are_numbered_names (items_view items.now) }
{
    'items: for item in items {
        match item {
            Value::String(text) => {
                if !is_numbered_name(text.as_str(), 0, MAX_FILTER_NUMBER) {
                    return false;
                }
            }
            _ => return false,
        }
    }
    true
}

/// Returns whether an array has 1 to 64 items, as many as a stream may have hops. If not, `hops_value`, which calls it, returns the fault
/// `OutOfRange`.
#[tactic(auto, using(bridge_schema::proofs::Counts::count_of_view))]
fn has_hop_count(items: &[Value]) -> bool
    ensures count { result ≡ (nat_le 1 (count_items (items_view items.now)) && nat_le
        (count_items (items_view items.now)) 64) }
    ensures some { result ≡ true → 1 ≤ length items.now }
    ensures few { result ≡ true → length items.now ≤ 64 }
{
    1 <= items.len() && items.len() <= MAX_HOPS
}

/// Returns the bridge's index, from 0, and the filter number that a value such as `left.7` names. If the value isn't a text, the flaw is
/// `WrongKind`. `resolve_hop` calls it.
fn resolve_filter<A: Allocator + Copy>(
    bridges: &[BridgeRow<A>],
    value: &Value,
) -> Result<(u16, u32), Flaw>
    requires { length bridges.now ≤ 64 }
    ensures filter { result ≡ sections.filter_text bridges.now (view value.now) }
    ensures there { IfOk result (λ h. h.0 < length bridges.now) }
    ensures number { IfOk result (λ h. h.1 < 2 ^ 32) }
{
    match value {
        Value::String(text) => resolve_numbered_name(bridges, 0, MAX_FILTER_NUMBER, text.as_str()),
        _ => Err(Flaw::WrongKind),
    }
}

/// Returns the bridge's index and the filter number that a value such as `left.7` names, or the fault of the key at `place`. Allocates no
/// memory. `resolve_hops` calls it.
fn resolve_hop<A: Allocator + Copy>(
    bridges: &[BridgeRow<A>],
    place: NetKeyLocation,
    value: &Value,
) -> Result<(u16, u32), NetFault>
    requires { length bridges.now ≤ 64 }
    ensures reads { Gives result (value_or_fault place (sections.filter_text bridges.now (view value.now))) }
    ensures there { IfOk result (λ h. h.0 < length bridges.now) }
    ensures number { IfOk result (λ h. h.1 < 2 ^ 32) }
    ensures takes_no_memory { IfErr result (λ e. ¬ (e ≡ NoMemory)) }
{
    match resolve_filter(bridges, value) {
        Ok(hop) => Ok(hop),
        Err(flaw) => Err(NetFault::flaw_fault(place, flaw)),
    }
}

/// Returns the bridge's index and the filter number that each item names, in order, or the fault of the first item that isn't allowed.
/// `hops_value` calls it.
fn resolve_hops<A: Allocator + Copy>(
    alloc: A,
    bridges: &[BridgeRow<A>],
    place: NetKeyLocation,
    items: &[Value],
) -> Result<Vec<(u16, u32), A>, NetFault>
    requires { length bridges.now ≤ 64 }
    ensures reads { GivesAs (λ v. v.items) result (sections.resolve_more_hops place bridges.now []
        (items_view items.now)) }
    ensures count { IfOk result (λ v. length v.items ≡ length items.now) }
    ensures there { IfOk result (λ v. All (λ h. h.0 < length bridges.now) v.items) }
    ensures numbers { IfOk result (λ v. All (λ h. h.1 < 2 ^ 32) v.items) }
{
    let mut hops = Vec::new(alloc);
    'items: for item in items {
        let hop = match resolve_hop(bridges, place, item) {
            Ok(hop) => hop,
            Err(fault) => return Err(fault),
        };
        let Ok(()) = hops.push(hop) else {
            return Err(NetFault::NoMemory);
        };
    }
    Ok(hops)
}

/// Returns the hops in `value`, the value of the key `hops`. Tests the kind, number and form of all items before it looks up any bridge. If
/// the hops are refused, returns their fault.
///
/// `read_stream` calls it.
fn hops_value<A: Allocator + Copy>(
    alloc: A,
    bridges: &[BridgeRow<A>],
    place: NetKeyLocation,
    value: Option<&Value>,
) -> Result<Vec<(u16, u32), A>, NetFault>
    requires { length bridges.now ≤ 64 }
    ensures reads { GivesAs (λ v. v.items) result
        (sections.hops_value place bridges.now (option_map (λ v. view v.now) value.entry)) }
    ensures some { IfOk result (λ v. 1 ≤ length v.items) }
    ensures few { IfOk result (λ v. length v.items ≤ 64) }
    ensures there { IfOk result (λ v. All (λ h. h.0 < length bridges.now) v.items) }
    ensures numbers { IfOk result (λ v. All (λ h. h.1 < 2 ^ 32) v.items) }
{
    match value {
        None => Err(NetFault::Missing(place)),
        Some(Value::Array(items)) => {
            if !are_texts(items) {
                return Err(NetFault::WrongKind(place));
            }
            if !has_hop_count(items) {
                return Err(NetFault::OutOfRange(place));
            }
            if !are_numbered_names(items) {
                return Err(NetFault::OutOfRange(place));
            }
            resolve_hops(alloc, bridges, place, items)
        }
        Some(_) => Err(NetFault::WrongKind(place)),
    }
}

/// Returns the location of a key of stream `index`, from 1, for a fault. `read_deadline` and `read_stream` call it.
fn stream_key(index: u32, field: NetField) -> NetKeyLocation
    ensures { result ≡ record { section = the_section.Stream; index = index; field = field } }
{
    NetKeyLocation {
        section: NetSection::Stream,
        index,
        field,
    }
}

/// Reads the key `deadline` of stream `index`: the largest allowed delay in ns. Returns `None` if the key is absent. If the deadline is
/// refused, returns its fault. `read_stream` calls it.
fn read_deadline(index: u32, table: &Table) -> Result<Option<u64>, NetFault>
    ensures reads { Gives result (reading.read_optional
        (record { section = the_section.Stream; index = index; field = the_field.Deadline })
        (number_in_range 0 END_OF_TIME) (table_view table.now)) }
    ensures soon { IfOk result (λ x. ForSome x (λ d. d ≤ END_OF_TIME)) }
{
    read_optional(table, stream_key(index, NetField::Deadline), &DEADLINE)
}

/// Reads stream `index`, from 1, from its table, or returns the table's first fault. Hops must be filters of `bridges`. If an earlier
/// stream has the same name, the fault is `Duplicate`. `read` calls it.
#[tactic(auto, unfolding(crate::specs::Sections::read_stream))]
fn read_stream<A: Allocator + Copy>(
    alloc: A,
    bridges: &[BridgeRow<A>],
    earlier: &[StreamRow<A>],
    index: u32,
    table: &Table,
) -> Result<StreamRow<A>, NetFault>
    requires { length bridges.now ≤ 64 }
    ensures reads { Gives result (sections.read_stream bridges.now earlier.now index (table_view table.now)) }
    ensures own { IfOk result (λ s. rules.has_stream earlier.now s.name ≡ false) }
    ensures stream { IfOk result (rules.IsStream (length bridges.now)) }
{
    if !has_only(table, &STREAM_KEYS) {
        return Err(NetFault::UnknownKey(NetSection::Stream, index));
    }
    let name = match read_name(table, stream_key(index, NetField::Name)) {
        Ok(name) => name,
        Err(fault) => return Err(fault),
    };
    let value = get_value(table, NetField::Hops.key());
    let hops = match hops_value(alloc, bridges, stream_key(index, NetField::Hops), value) {
        Ok(hops) => hops,
        Err(fault) => return Err(fault),
    };
    let talker = match read_optional_talker(index, table) {
        Ok(talker) => talker,
        Err(fault) => return Err(fault),
    };
    let deadline = match read_deadline(index, table) {
        Ok(deadline) => deadline,
        Err(fault) => return Err(fault),
    };
    if has_stream(earlier, name) {
        return Err(NetFault::Duplicate(NetSection::Stream, index));
    }
    let Ok(name) = String::from_str(alloc, name) else {
        return Err(NetFault::NoMemory);
    };
    Ok(StreamRow {
        name,
        hops,
        talker,
        deadline,
    })
}

/// Reads the section `stream` for `read_instances`, one table at a time. The hops must be filters of `bridges`.
#[derive(Drop)]
pub(crate) struct StreamSection<'a, A: Allocator + Copy> {
    pub bridges: &'a [BridgeRow<A>],
    ghost few: { length bridges.now ≤ 64 },
}

impl<'a, A: Allocator + Copy> SectionReader<A> for StreamSection<'a, A> {
    type Fault = NetFault;

    type Instance = StreamRow<A>;

    ghost reading = { λ s. sections.read_stream s.bridges.now };

    ghost Keeps = { λ s. rules.AreStreams (length s.bridges.now) };

    fn read(
        &self,
        alloc: A,
        earlier: &[StreamRow<A>],
        index: u32,
        table: &Table,
    ) -> Result<StreamRow<A>, NetFault> {
        read_stream(alloc, self.bridges, earlier, index, table)
    }
}
