//! Reads the section `port` of a plan: egress ports and their gate control lists.
ghost use Rattle.std.specs.Prelude.{◌≡◌, ◌<◌, IfOk, All, false};
ghost use Rattle.std.specs.Option.{ForSome};
ghost use Rattle.toml.specs.Data.{get_member};
ghost use Rattle.toml.specs.View.{table_view};
ghost use Rattle.bridge_schema.specs.Keys.{key_name};
ghost use Rattle.bridge_schema.specs.Readers.{MatchesReading, MatchesReadingView, has_known_keys, has_known_entry_keys};
ghost use Rattle.bridge_config.specs.Lists.{list_parts_view};
ghost use Rattle.bridge_config.specs.Sections as sections;
ghost use Rattle.bridge_config.specs.Rules as rules;
ghost use Rattle.bridge_config.specs.FirstFaults.{ReadsLists};

use crate::first_fault::FirstFault;
use crate::lists::{ListParts, optional_list, read_list_parts};
use bridge_cycle::{CyclicList, Egress, Joined};
use bridge_frame::Speed;
use bridge_limits::END_OF_TIME;
use bridge_schema::{
    Classes, Field, InstanceTable, KeyLocation, LENGTH, ListEntry, ListKeys, Mbps, NEXT_PORT_LIST,
    NumberLookup, NumberSet, PORT, PORT_ENTRY_KEYS, PORT_KEYS, PORT_LIST, PRIORITY, PlanFault,
    Rooms, Section, SectionReader, VID, get_value, has_allowed_entry_keys, has_allowed_keys,
    read_required,
};
use std::alloc::Allocator;
use toml::Table;

/// Settings of a port of a plan.
#[derive(Drop)]
pub struct PortPlan<A: Allocator + Copy> {
    /// Number, 1 to 16.
    pub number: u8,
    /// Speed of the link.
    pub speed: Speed,
    /// VLAN of untagged and priority-tagged frames, 1 to 4094 (IEEE 802.1Q-2018, 6.9).
    pub vid: u16,
    /// Priority of untagged frames, 0 to 7.
    pub priority: u8,
    /// Class of each priority, from priority 0 (IEEE 802.1Q-2018, 8.6.6).
    pub classes: [u8; 8],
    /// Queue capacity of each class in frames, from class 0; 1 to 4,096.
    pub rooms: [u16; 8],
    /// Gate control lists; bit c of a state opens class c. Without a list, all classes are always open (IEEE 802.1Q-2018, 8.6.8,
    /// 8.6.9.4).
    pub list: Option<Egress<A>>,
}

/// Reads an entry of a port's list: open classes as bits, and the length of its intervals in ns.
#[derive(Clone, Copy)]
struct PortEntryReader {
    /// Location of the list, which faults of the entry name.
    place: KeyLocation,
}

impl ListEntry for PortEntryReader {
    type Out = (u8, u64);

    ghost reading = { λ e. sections.read_port_entry e.place };

    ghost Fits = { λ _ x. x.0 < 256 };

    fn read(&self, table: &Table) -> Result<(u8, u64), PlanFault> {
        let classes = read_required(
            table,
            self.place,
            Field::Open,
            &NumberSet { low: 0, high: 7 },
        )?;
        let ns = read_required(table, self.place, Field::Ns, &LENGTH)?;
        Ok((classes as u8, ns))
    }
}

/// Whether a `[[port]]` table has only allowed keys. Some keys need a schedule change: `change` is its time in ns. `change` is `None` if
/// the plan has no schedule change. `has_port_keys` calls it.
fn has_only_port_keys(change: Option<u64>, table: &Table) -> bool
    ensures { result ≡ has_known_keys (sections.port_keys change (table_view table.now)) (table_view table.now) }
{
    has_allowed_keys(table, &PORT_KEYS, change.is_some())
}

/// Whether the entries of the list at `key` have only keys of a port's entry. True if there is no array at `key`. `has_port_keys` calls it
/// for both lists.
fn has_only_port_entry_keys(key: Field, table: &Table) -> bool
    ensures { result ≡ has_known_entry_keys sections.port_entry_keys (get_member (key_name key)
        (table_view table.now)) }
{
    has_allowed_entry_keys(get_value(table, key.key()), &PORT_ENTRY_KEYS)
}

/// Whether a `[[port]]` table and the entries of its lists have only allowed keys. Otherwise the table's fault is `UnknownKey`. `change` is
/// the time of the schedule change in ns, if the plan has one.
///
/// `read_port_by_lookup` calls it.
fn has_port_keys(change: Option<u64>, table: &Table) -> bool
    ensures { result ≡ sections.has_port_keys change (table_view table.now) }
{
    has_only_port_keys(change, table)
        && has_only_port_entry_keys(Field::Gates, table)
        && has_only_port_entry_keys(Field::NextGates, table)
}

/// Whether a port has number `number`. Streams may name only a port of the plan, and later ports need another number. `PortNumbers::has`
/// calls it.
pub(crate) fn has_port<A: Allocator + Copy>(ports: &[PortPlan<A>], number: u64) -> bool
    ensures { result ≡ rules.has_port ports.now number }
{
    ports.iter().any(|p| p.number as u64 == number)
}

/// Numbers of a plan's ports. Readers look up a number that must exist because a stream names it, or that must be new.
#[derive(Clone, Copy)]
pub(crate) struct PortNumbers<'a, A: Allocator + Copy> {
    /// The ports of the plan, in file order.
    pub ports: &'a [PortPlan<A>],
}

impl<'a, A: Allocator + Copy> NumberLookup for PortNumbers<'a, A> {
    ghost among = { λ s. rules.has_port s.ports.now };

    fn has(&self, number: u64) -> bool {
        has_port(self.ports, number)
    }
}

/// Reads the parts of one of a port's two lists. `keys` are the keys of the first list, or of the list after the schedule change. If a list
/// is refused, returns its fault.
///
/// `read_port_lists` calls it for each list.
fn read_port_parts<A: Allocator + Copy>(
    alloc: A,
    index: u32,
    keys: ListKeys,
    table: &Table,
) -> Result<ListParts<(u8, u64), A>, PlanFault>
    ensures reads { MatchesReadingView list_parts_view result
        (sections.read_port_parts index keys.base keys.cycle keys.entries
        (table_view table.now)) }
    ensures base { IfOk result (λ p. p.base < END_OF_TIME) }
    ensures classes { IfOk result (λ p. ForSome p.entries (λ v. All (λ e. e.0 < 256) v.items)) }
{
    let place = KeyLocation {
        section: Section::Port,
        index,
        field: keys.entries,
    };
    read_list_parts(
        alloc,
        Section::Port,
        index,
        keys,
        &PortEntryReader { place },
        table,
    )
}

/// Returns the gate control lists of a port: its first list and, from time `change` in ns on, the new list. Without a change or a new list,
/// the first list stays.
///
/// Returns `None` without a first list. `read_port_lists` calls it.
fn port_lists<A: Allocator + Copy>(
    old: Option<CyclicList<u8, A>>,
    change: Option<u64>,
    new: Option<CyclicList<u8, A>>,
) -> Option<Egress<A>>
    requires old { ForSome old rules.IsPortList }
    requires change { rules.IsChangeInTime change }
    requires new { ForSome new rules.IsPortList }
    ensures lists { result ≡ sections.port_lists old change new }
    ensures each { ForSome result (rules.HoldsOfLists rules.IsPortList) }
{
    let Some(old) = old else {
        return None;
    };
    let Some(moment) = change else {
        return Some(Egress::Cyclic(old));
    };
    match new {
        Some(new) => Some(Egress::Joined(Joined::new(old, new, moment))),
        None => Some(Egress::Cyclic(old)),
    }
}

/// Reads the gate control lists of a port; `None` if the port has no list. `change` is the time of the schedule change in ns. If a list is
/// refused, returns its fault.
///
/// `take_port_lists` calls it.
fn read_port_lists<A: Allocator + Copy>(
    alloc: A,
    change: Option<u64>,
    index: u32,
    table: &Table,
) -> Result<Option<Egress<A>>, PlanFault>
    requires { rules.IsChangeInTime change }
    ensures reads { MatchesReading result (sections.read_port_lists change index (table_view table.now)) }
    ensures list { IfOk result (λ l. ForSome l (rules.HoldsOfLists rules.IsPortList)) }
{
    let first = read_port_parts(alloc, index, PORT_LIST, table)?;
    let next = read_port_parts(alloc, index, NEXT_PORT_LIST, table)?;
    let old = optional_list(alloc, Section::Port, index, first)?;
    let new = optional_list(alloc, Section::Port, index, next)?;
    Ok(port_lists(old, change, new))
}

/// Reads the gate control lists of a port. `change` is the time of the schedule change in ns, if the plan has one.
///
/// Returns `None` if the port has no list, and after an earlier fault. If reading fails, stores the fault and returns `None`.
/// `read_port_by_lookup` calls it.
fn take_port_lists<A: Allocator + Copy>(
    first: &mut FirstFault,
    alloc: A,
    change: Option<u64>,
    index: u32,
    table: &Table,
) -> Option<Egress<A>>
    requires { rules.IsChangeInTime change }
    ensures reads { ReadsLists first.old (sections.read_port_lists change index
        (table_view table.now)) first.new result }
    ensures list { ForSome result (rules.HoldsOfLists rules.IsPortList) }
{
    if first.fault().is_some() {
        return None;
    }
    match read_port_lists(alloc, change, index, table) {
        Ok(list) => list,
        Err(fault) => {
            first.expect(false, fault);
            None
        }
    }
}

/// Reads a port, whose number must not be in `ports`. `read_port` passes the earlier ports. `change` is the time of the schedule change in
/// ns. If the port is refused, returns its fault.
fn read_port_by_lookup<A: Allocator + Copy, P: NumberLookup + Copy>(
    alloc: A,
    change: Option<u64>,
    ports: P,
    index: u32,
    table: &Table,
) -> Result<PortPlan<A>, PlanFault>
    requires { rules.IsChangeInTime change }
    ensures reads { MatchesReading result (sections.read_port_by_lookup change (P.among ports) index
        (table_view table.now)) }
    ensures own { IfOk result (λ p. P.among ports p.number ≡ false) }
    ensures port { IfOk result (λ p. rules.IsPort p) }
{
    let row = InstanceTable {
        table,
        section: Section::Port,
        index,
    };
    let unknown = PlanFault::UnknownKey(Section::Port, index);
    let mut first = FirstFault::begin(has_port_keys(change, table), unknown);
    let number = first.read_required(row, Field::Number, &PORT, 1);
    let speed = first.read_required(row, Field::Mbps, &Mbps, Speed::Mbps10);
    let vid = first.read_or_default(row, Field::Vid, &VID, 1);
    let priority = first.read_or_default(row, Field::Priority, &PRIORITY, 0);
    let in_order = [0, 1, 2, 3, 4, 5, 6, 7];
    let classes = first.read_or_default(row, Field::Classes, &Classes, in_order);
    let rooms = first.read_or_default(row, Field::Rooms, &Rooms, [64; 8]);
    let list = take_port_lists(&mut first, alloc, change, index, table);
    first.expect(
        !ports.has(number),
        PlanFault::Duplicate(Section::Port, index),
    );
    first.finish(PortPlan {
        number: number as u8,
        speed,
        vid: vid as u16,
        priority: priority as u8,
        classes,
        rooms,
        list,
    })
}

/// Reads a port, whose number none of the ports before it may have. `change` is the time of the schedule change in ns. If the port is
/// refused, returns its fault. `PortSection::read` calls it.
fn read_port<A: Allocator + Copy>(
    alloc: A,
    change: Option<u64>,
    ports: &[PortPlan<A>],
    index: u32,
    table: &Table,
) -> Result<PortPlan<A>, PlanFault>
    requires { rules.IsChangeInTime change }
    ensures reads { MatchesReading result (sections.read_port change ports.now index (table_view table.now)) }
    ensures own { IfOk result (λ p. rules.has_port ports.now p.number ≡ false) }
    ensures port { IfOk result (λ p. rules.IsPort p) }
{
    read_port_by_lookup(alloc, change, PortNumbers { ports }, index, table)
}

/// Reads the section of ports. `change` is the time of the schedule change in ns; `None` without a change.
#[derive(Clone, Copy)]
pub(crate) struct PortSection {
    /// Time of the plan's schedule change in ns; `None` without a change.
    pub change: Option<u64>,
}

impl<A: Allocator + Copy> SectionReader<A> for PortSection {
    type Fault = PlanFault;

    type Instance = PortPlan<A>;

    ghost reading = { λ s. sections.read_port s.change };

    ghost Keeps = { λ s ports. rules.IsChangeInTime s.change × rules.ArePorts ports };

    fn read(
        &self,
        alloc: A,
        earlier: &[PortPlan<A>],
        index: u32,
        table: &Table,
    ) -> Result<PortPlan<A>, PlanFault> {
        read_port(alloc, self.change, earlier, index, table)
    }
}
