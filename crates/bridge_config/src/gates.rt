//! Reads the section `gate` of a plan: stream gates and their lists.
ghost use Rattle.std.specs.Prelude.{◌≡◌, ◌<◌, IfOk, All, false, true};
ghost use Rattle.std.specs.Option.{ForSome};
ghost use Rattle.toml.specs.Data.{get_member};
ghost use Rattle.toml.specs.View.{table_view};
ghost use Rattle.bridge_gate.specs.Schedules as schedules;
ghost use Rattle.bridge_schema.specs.Keys.{key_name};
ghost use Rattle.bridge_schema.specs.declared.plan_fault.Field.TheVariants as the_field;
ghost use Rattle.bridge_schema.specs.Readers.{MatchesReading, MatchesReadingView, has_known_keys, has_known_entry_keys, read_if_absent, read_required, text_value};
ghost use Rattle.bridge_schema.specs.Texts.{parse_openness};
ghost use Rattle.bridge_config.specs.Lists.{list_parts_view};
ghost use Rattle.bridge_config.specs.Sections as sections;
ghost use Rattle.bridge_config.specs.Rules as rules;
ghost use Rattle.bridge_config.specs.FirstFaults.{ReadsLists, TakesRead, key_location};

use crate::first_fault::FirstFault;
use crate::lists::{ListParts, optional_list, read_list_parts};
use crate::numbers::{has_number, optional_u8, optional_u32};
use bridge_cycle::{CyclicList, Joined};
use bridge_gate::{GateEntry, GatePlan, Schedule};
use bridge_limits::END_OF_TIME;
use bridge_schema::{
    Field, GATE_ENTRY_KEYS, GATE_KEYS, GATE_LIST, InstanceTable, KeyLocation, LENGTH, ListEntry,
    ListKeys, NEXT_GATE_LIST, NUMBER, Openness, PRIORITY, PlanFault, Section, SectionReader,
    Switch, TextValue, get_value, has_allowed_entry_keys, has_allowed_keys, read_optional,
    read_required,
};
use std::alloc::Allocator;
use toml::Table;

/// Reads an entry of a stream gate's list: state, internal priority value, octet limit, and the length of its intervals in ns.
#[derive(Clone, Copy)]
struct GateEntryReader {
    /// Location of the list, which faults of the entry name.
    place: KeyLocation,
}

impl ListEntry for GateEntryReader {
    type Out = (GateEntry, u64);

    ghost reading = { λ e. sections.read_gate_entry e.place };

    ghost Fits = { λ _ x. schedules.is_valid_priority x.0.ipv ≡ true };

    fn read(&self, table: &Table) -> Result<(GateEntry, u64), PlanFault> {
        let lets = read_required(table, self.place, Field::Open, &Switch)?;
        let ns = read_required(table, self.place, Field::Ns, &LENGTH)?;
        let ipv = read_optional(table, self.place, Field::Ipv, &PRIORITY)?;
        let octets = read_optional(table, self.place, Field::Octets, &NUMBER)?;
        let state = GateEntry {
            lets,
            ipv: optional_u8(ipv),
            octets: optional_u32(octets),
        };
        Ok((state, ns))
    }
}

/// Whether a `[[gate]]` table has only allowed keys. Some keys need a schedule change: `change` is its time in ns. `change` is `None` if
/// the plan has no schedule change. `has_gate_keys` calls it.
fn has_only_gate_keys(change: Option<u64>, table: &Table) -> bool
    ensures { result ≡ has_known_keys (sections.gate_keys change (table_view table.now)) (table_view table.now) }
{
    has_allowed_keys(table, &GATE_KEYS, change.is_some())
}

/// Whether the entries of the list at `key` have only keys of a stream gate's entry. True if there is no array at `key`. `has_gate_keys`
/// calls it for both lists.
fn has_only_gate_entry_keys(key: Field, table: &Table) -> bool
    ensures { result ≡ has_known_entry_keys sections.gate_entry_keys (get_member (key_name key)
        (table_view table.now)) }
{
    has_allowed_entry_keys(get_value(table, key.key()), &GATE_ENTRY_KEYS)
}

/// Whether a `[[gate]]` table and the entries of its lists have only allowed keys. Otherwise the table's fault is `UnknownKey`. `change` is
/// the time of the schedule change in ns, if the plan has one.
///
/// `read_gate` calls it.
fn has_gate_keys(change: Option<u64>, table: &Table) -> bool
    ensures { result ≡ sections.has_gate_keys change (table_view table.now) }
{
    has_only_gate_keys(change, table)
        && has_only_gate_entry_keys(Field::Entries, table)
        && has_only_gate_entry_keys(Field::NextEntries, table)
}

/// Reads the parts of one of a stream gate's two lists. `keys` are the keys of the first list, or of the list after the schedule change. If
/// a list is refused, returns its fault.
///
/// `read_gate_lists` calls it for each list.
fn read_gate_parts<A: Allocator + Copy>(
    alloc: A,
    index: u32,
    keys: ListKeys,
    table: &Table,
) -> Result<ListParts<(GateEntry, u64), A>, PlanFault>
    ensures reads { MatchesReadingView list_parts_view result
        (sections.read_gate_parts index keys.base keys.cycle keys.entries
        (table_view table.now)) }
    ensures base { IfOk result (λ p. p.base < END_OF_TIME) }
    ensures priorities { IfOk result (λ p. ForSome p.entries (λ v. All (λ e. schedules.is_valid_priority e.0.ipv
        ≡ true) v.items)) }
{
    let place = KeyLocation {
        section: Section::Gate,
        index,
        field: keys.entries,
    };
    read_list_parts(
        alloc,
        Section::Gate,
        index,
        keys,
        &GateEntryReader { place },
        table,
    )
}

/// Returns the schedule of a stream gate: its first list and, from time `change` in ns on, the new list. Without a change or a new list,
/// the first list stays.
///
/// Returns `None` without a first list. `read_gate_lists` calls it.
fn gate_schedule<A: Allocator + Copy>(
    old: Option<CyclicList<GateEntry, A>>,
    change: Option<u64>,
    new: Option<CyclicList<GateEntry, A>>,
) -> Option<Schedule<A>>
    requires old { ForSome old rules.IsGateList }
    requires change { rules.IsChangeInTime change }
    requires new { ForSome new rules.IsGateList }
    ensures lists { result ≡ sections.gate_schedule old change new }
    ensures priorities { ForSome result (λ s. schedules.has_valid_priorities s ≡ true) }
    ensures lawful { ForSome result schedules.IsLawful }
{
    let Some(old) = old else {
        return None;
    };
    let Some(moment) = change else {
        return Some(Schedule::Cyclic(old));
    };
    match new {
        Some(new) => Some(Schedule::Joined(Joined::new(old, new, moment))),
        None => Some(Schedule::Cyclic(old)),
    }
}

/// Reads the lists of a stream gate; `None` if the gate has no list. `change` is the time of the schedule change in ns. If a list is
/// refused, returns its fault. `take_gate_lists` calls it.
fn read_gate_lists<A: Allocator + Copy>(
    alloc: A,
    change: Option<u64>,
    index: u32,
    table: &Table,
) -> Result<Option<Schedule<A>>, PlanFault>
    requires { rules.IsChangeInTime change }
    ensures reads { MatchesReading result (sections.read_gate_lists change index (table_view table.now)) }
    ensures priorities { IfOk result (λ s. ForSome s (λ x. schedules.has_valid_priorities x ≡ true)) }
    ensures lawful { IfOk result (λ s. ForSome s schedules.IsLawful) }
{
    let first = read_gate_parts(alloc, index, GATE_LIST, table)?;
    let next = read_gate_parts(alloc, index, NEXT_GATE_LIST, table)?;
    let old = optional_list(alloc, Section::Gate, index, first)?;
    let new = optional_list(alloc, Section::Gate, index, next)?;
    Ok(gate_schedule(old, change, new))
}

/// Reads the lists of a stream gate. `change` is the time of the schedule change in ns, if the plan has one. Returns `None` if the gate has
/// no list, and after an earlier fault.
///
/// If reading fails, stores the fault and returns `None`. `read_gate` calls it.
fn take_gate_lists<A: Allocator + Copy>(
    first: &mut FirstFault,
    alloc: A,
    change: Option<u64>,
    index: u32,
    table: &Table,
) -> Option<Schedule<A>>
    requires { rules.IsChangeInTime change }
    ensures reads { ReadsLists first.old (sections.read_gate_lists change index
        (table_view table.now)) first.new result }
    ensures priorities { ForSome result (λ s. schedules.has_valid_priorities s ≡ true) }
    ensures lawful { ForSome result schedules.IsLawful }
{
    if first.fault().is_some() {
        return None;
    }
    match read_gate_lists(alloc, change, index, table) {
        Ok(lists) => lists,
        Err(fault) => {
            first.expect(false, fault);
            None
        }
    }
}

/// Reads the state of a stream gate without a list: true if it is open. Returns false for a gate with a list. If reading fails, stores the
/// fault and returns false. `read_gate` calls it.
fn take_fixed_state(first: &mut FirstFault, row: InstanceTable<'_>) -> bool
    ensures { TakesRead first.old false (read_if_absent the_field.Entries false
        (read_required (key_location row.entry the_field.State)
        the_field.State (text_value parse_openness) (table_view row.entry.table.now)) (table_view row.entry.table.now))
        first.new result }
{
    let state = row.read_required_if_absent(
        Field::Entries,
        false,
        Field::State,
        &TextValue { meaning: Openness },
    );
    first.value_or(state, false)
}

/// Returns `lists`. For `None`, returns a fixed state: frames pass if `lets` is true, with the internal priority value `ipv`. `read_gate`
/// calls it.
fn schedule_or_fixed<A: Allocator + Copy>(
    lets: bool,
    ipv: Option<u8>,
    lists: Option<Schedule<A>>,
) -> Schedule<A>
    requires ipv { schedules.is_valid_priority ipv ≡ true }
    requires priorities { ForSome lists (λ s. schedules.has_valid_priorities s ≡ true) }
    requires lawful { ForSome lists schedules.IsLawful }
    ensures schedule { result ≡ sections.schedule_or_fixed lets ipv lists }
    ensures priorities { schedules.has_valid_priorities result ≡ true }
    ensures lawful { schedules.IsLawful result }
{
    match lists {
        Some(lists) => lists,
        None => Schedule::Fixed { lets, ipv },
    }
}

/// Reads a stream gate and its number, which none of the gates before it may have. `change` is the time of the schedule change in ns. If
/// the gate is refused, returns its fault.
///
/// `GateSection::read` calls it.
fn read_gate<A: Allocator + Copy>(
    alloc: A,
    change: Option<u64>,
    gates: &[(u32, GatePlan<A>)],
    index: u32,
    table: &Table,
) -> Result<(u32, GatePlan<A>), PlanFault>
    requires { rules.IsChangeInTime change }
    ensures reads { MatchesReading result (sections.read_gate change gates.now index (table_view table.now)) }
    ensures own { IfOk result (λ g. sections.has_number gates.now g.0 ≡ false) }
    ensures priorities { IfOk result (λ g. schedules.has_valid_priorities g.1.schedule ≡ true) }
    ensures lawful { IfOk result (λ g. schedules.IsLawful g.1.schedule) }
{
    let row = InstanceTable {
        table,
        section: Section::Gate,
        index,
    };
    let unknown = PlanFault::UnknownKey(Section::Gate, index);
    let mut first = FirstFault::begin(has_gate_keys(change, table), unknown);
    let number = first.read_required(row, Field::Number, &NUMBER, 0);
    let shut_on_rx = first.read_or_default(row, Field::ShutOnRx, &Switch, false);
    let shut_on_octets = first.read_or_default(row, Field::ShutOnOctets, &Switch, false);
    let lets = take_fixed_state(&mut first, row);
    let ipv = first.read_optional(row, Field::Ipv, &PRIORITY);
    let lists = take_gate_lists(&mut first, alloc, change, index, table);
    first.expect(
        !has_number(gates, number),
        PlanFault::Duplicate(Section::Gate, index),
    );
    let plan = GatePlan {
        shut_on_rx,
        shut_on_octets,
        schedule: schedule_or_fixed(lets, optional_u8(ipv), lists),
    };
    first.finish((number as u32, plan))
}

/// Reads the section of stream gates. `change` is the time of the schedule change in ns; `None` without a change.
#[derive(Clone, Copy)]
pub(crate) struct GateSection {
    /// Time of the plan's schedule change in ns; `None` without a change.
    pub change: Option<u64>,
}

impl<A: Allocator + Copy> SectionReader<A> for GateSection {
    type Fault = PlanFault;

    type Instance = (u32, GatePlan<A>);

    ghost reading = { λ s. sections.read_gate s.change };

    ghost Keeps = { λ s gates. rules.IsChangeInTime s.change × rules.AreGates gates };

    fn read(
        &self,
        alloc: A,
        earlier: &[(u32, GatePlan<A>)],
        index: u32,
        table: &Table,
    ) -> Result<(u32, GatePlan<A>), PlanFault> {
        read_gate(alloc, self.change, earlier, index, table)
    }
}
