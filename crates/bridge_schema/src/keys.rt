//! Keys of each section, the values that they allow, and their presence rules. Readers of plans and commands use them, and so do
//! explanations of faults.

use crate::plan_fault::{Field, Section};
use crate::ranges::{BURST, MAX_SDU, NUMBER, PORT, PRIORITY, RATE, ROOM, TIME, VID};
use crate::value_kinds::NumberRange;

/// Sections of a plan, in reading order.
pub const PLAN_SECTIONS: [Section; 8] = [
    Section::Change,
    Section::Port,
    Section::Vlan,
    Section::Static,
    Section::Stream,
    Section::Gate,
    Section::Meter,
    Section::Filter,
];

/// Sections of a file of commands.
pub const COMMAND_SECTIONS: [Section; 1] = [Section::Command];

/// Kind and range of the values that a key allows. Explanations of faults write them as a sentence.
#[derive(Clone, Copy)]
pub enum AllowedValue {
    /// Integer in a range.
    Between(NumberRange),
    /// Array of integers in a range.
    Set(NumberRange),
    /// Array of eight integers in a range.
    Eight(NumberRange),
    /// Length of a cycle or an entry in ns.
    Length,
    /// Speed in Mb/s.
    Mbps,
    /// Boolean.
    Switch,
    /// MAC address.
    Address,
    /// Kind of stream identification: the text `null` or `source`.
    Kind,
    /// Which frames a stream identification matches by their tag: the text `tagged`, `priority` or `all`.
    Tag,
    /// State of a stream gate: the text `open` or `closed`.
    State,
    /// Colour mode of a meter: the text `aware` or `blind`.
    Colour,
    /// Flag that a command clears: the text `blocked`, `rx`, `octets` or `red`.
    Clear,
    /// Number of an existing instance of a section.
    InstanceNumber(Section),
    /// Array of port numbers.
    Ports,
    /// Array of tables.
    Tables,
}

/// Presence rule: whether a key is required, and on which other keys it depends.
#[derive(Clone, Copy)]
pub enum Presence {
    /// Each table of the section must have the key.
    Required,
    /// A table may lack the key.
    Optional,
    /// Allowed only if the table has this list.
    WithList(Field),
    /// Allowed only if the table lacks this key.
    WithoutKey(Field),
    /// Allowed only if the table has the list and the plan has a schedule change.
    WithListInChange(Field),
    /// Allowed only if the table has the list and the next list, and the plan has a schedule change.
    WithNextList(Field, Field),
}

/// A key, the values that it allows, and its presence rule.
#[derive(Clone, Copy)]
pub struct KeyRule(pub Field, pub AllowedValue, pub Presence);

/// Keys under which a table has the parts of a gate control list. Ports and stream gates have different keys.
#[derive(Clone, Copy)]
pub struct ListKeys {
    /// Key of the base time.
    pub base: Field,
    /// Key of the cycle time.
    pub cycle: Field,
    /// Key of the entries; without it, the table has no list.
    pub entries: Field,
}

/// Keys of a port's first list.
pub const PORT_LIST: ListKeys = ListKeys {
    base: Field::Base,
    cycle: Field::Cycle,
    entries: Field::Gates,
};

/// Keys of a port's list after the schedule change.
pub const NEXT_PORT_LIST: ListKeys = ListKeys {
    base: Field::NextBase,
    cycle: Field::NextCycle,
    entries: Field::NextGates,
};

/// Keys of a stream gate's first list.
pub const GATE_LIST: ListKeys = ListKeys {
    base: Field::Base,
    cycle: Field::Cycle,
    entries: Field::Entries,
};

/// Keys of a stream gate's list after the schedule change.
pub const NEXT_GATE_LIST: ListKeys = ListKeys {
    base: Field::NextBase,
    cycle: Field::NextCycle,
    entries: Field::NextEntries,
};

/// Allowed numbers of instances, stream handles, groups and octet limits.
const NUMBER_VALUE: AllowedValue = AllowedValue::Between(NUMBER);

/// Allowed VLAN identifiers.
const VLAN_VALUE: AllowedValue = AllowedValue::Between(VID);

/// Allowed priorities and internal priority values.
const PRIORITY_VALUE: AllowedValue = AllowedValue::Between(PRIORITY);

/// Allowed base times, and times of commands and of the schedule change.
const TIME_VALUE: AllowedValue = AllowedValue::Between(TIME);

/// Allowed information rates.
const RATE_VALUE: AllowedValue = AllowedValue::Between(RATE);

/// Rule of a port's keys that need its list `gates`.
const WITH_GATES: Presence = Presence::WithList(Field::Gates);

/// Rule of a port's keys that need both of its lists and a schedule change.
const WITH_NEXT_GATES: Presence = Presence::WithNextList(Field::Gates, Field::NextGates);

/// Rule of a stream gate's keys that need its list `entries`.
const WITH_ENTRIES: Presence = Presence::WithList(Field::Entries);

/// Rule of a stream gate's keys that need both of its lists and a schedule change.
const WITH_NEXT_ENTRIES: Presence = Presence::WithNextList(Field::Entries, Field::NextEntries);

/// Rule of the keys that only a stream gate without a list has.
const WITHOUT_ENTRIES: Presence = Presence::WithoutKey(Field::Entries);

/// Rule of the key `group`: a filter is protected or grouped, not both.
const WITHOUT_PROTECTED: Presence = Presence::WithoutKey(Field::Protected);

/// Keys of a `[[change]]` table, the schedule change, with their rules.
pub const CHANGE_KEYS: [KeyRule; 1] = [KeyRule(Field::At, TIME_VALUE, Presence::Required)];

/// Keys of a `[[port]]` table with their rules, in the order in which explanations list them.
pub const PORT_KEYS: [KeyRule; 12] = [
    KeyRule(
        Field::Number,
        AllowedValue::Between(PORT),
        Presence::Required,
    ),
    KeyRule(Field::Mbps, AllowedValue::Mbps, Presence::Required),
    KeyRule(Field::Vid, VLAN_VALUE, Presence::Optional),
    KeyRule(Field::Priority, PRIORITY_VALUE, Presence::Optional),
    KeyRule(
        Field::Classes,
        AllowedValue::Eight(PRIORITY),
        Presence::Optional,
    ),
    KeyRule(Field::Rooms, AllowedValue::Eight(ROOM), Presence::Optional),
    KeyRule(Field::Base, TIME_VALUE, WITH_GATES),
    KeyRule(Field::Cycle, AllowedValue::Length, WITH_GATES),
    KeyRule(Field::Gates, AllowedValue::Tables, Presence::Optional),
    KeyRule(Field::NextBase, TIME_VALUE, WITH_NEXT_GATES),
    KeyRule(Field::NextCycle, AllowedValue::Length, WITH_NEXT_GATES),
    KeyRule(
        Field::NextGates,
        AllowedValue::Tables,
        Presence::WithListInChange(Field::Gates),
    ),
];

/// Keys of an entry of a port's list, with their rules.
pub const PORT_ENTRY_KEYS: [KeyRule; 2] = [
    KeyRule(Field::Open, AllowedValue::Set(PRIORITY), Presence::Required),
    KeyRule(Field::Ns, AllowedValue::Length, Presence::Required),
];

/// Keys of a `[[vlan]]` table, with their rules.
pub const VLAN_KEYS: [KeyRule; 2] = [
    KeyRule(Field::Vid, VLAN_VALUE, Presence::Required),
    KeyRule(Field::Members, AllowedValue::Ports, Presence::Required),
];

/// Keys of a `[[static]]` table, a static filtering entry, with their rules.
pub const STATIC_KEYS: [KeyRule; 3] = [
    KeyRule(
        Field::Vid,
        AllowedValue::InstanceNumber(Section::Vlan),
        Presence::Required,
    ),
    KeyRule(Field::Address, AllowedValue::Address, Presence::Required),
    KeyRule(Field::Ports, AllowedValue::Ports, Presence::Required),
];

/// Keys of a `[[stream]]` table, which gives a handle to frames of one port, VLAN and address; with their rules.
pub const STREAM_KEYS: [KeyRule; 6] = [
    KeyRule(Field::Handle, NUMBER_VALUE, Presence::Required),
    KeyRule(
        Field::Port,
        AllowedValue::InstanceNumber(Section::Port),
        Presence::Required,
    ),
    KeyRule(Field::Kind, AllowedValue::Kind, Presence::Required),
    KeyRule(Field::Address, AllowedValue::Address, Presence::Required),
    KeyRule(Field::Vid, VLAN_VALUE, Presence::Required),
    KeyRule(Field::Tag, AllowedValue::Tag, Presence::Required),
];

/// Keys of a `[[gate]]` table, a stream gate, with their rules.
pub const GATE_KEYS: [KeyRule; 11] = [
    KeyRule(Field::Number, NUMBER_VALUE, Presence::Required),
    KeyRule(Field::ShutOnRx, AllowedValue::Switch, Presence::Optional),
    KeyRule(
        Field::ShutOnOctets,
        AllowedValue::Switch,
        Presence::Optional,
    ),
    KeyRule(Field::State, AllowedValue::State, WITHOUT_ENTRIES),
    KeyRule(Field::Ipv, PRIORITY_VALUE, WITHOUT_ENTRIES),
    KeyRule(Field::Base, TIME_VALUE, WITH_ENTRIES),
    KeyRule(Field::Cycle, AllowedValue::Length, WITH_ENTRIES),
    KeyRule(Field::Entries, AllowedValue::Tables, Presence::Optional),
    KeyRule(Field::NextBase, TIME_VALUE, WITH_NEXT_ENTRIES),
    KeyRule(Field::NextCycle, AllowedValue::Length, WITH_NEXT_ENTRIES),
    KeyRule(
        Field::NextEntries,
        AllowedValue::Tables,
        Presence::WithListInChange(Field::Entries),
    ),
];

/// Keys of an entry of a stream gate's list, with their rules.
pub const GATE_ENTRY_KEYS: [KeyRule; 4] = [
    KeyRule(Field::Open, AllowedValue::Switch, Presence::Required),
    KeyRule(Field::Ns, AllowedValue::Length, Presence::Required),
    KeyRule(Field::Ipv, PRIORITY_VALUE, Presence::Optional),
    KeyRule(Field::Octets, NUMBER_VALUE, Presence::Optional),
];

/// Keys of a `[[meter]]` table, with their rules.
pub const METER_KEYS: [KeyRule; 9] = [
    KeyRule(Field::Number, NUMBER_VALUE, Presence::Required),
    KeyRule(Field::Cir, RATE_VALUE, Presence::Required),
    KeyRule(Field::Cbs, AllowedValue::Between(BURST), Presence::Required),
    KeyRule(Field::Eir, RATE_VALUE, Presence::Required),
    KeyRule(Field::Ebs, AllowedValue::Between(BURST), Presence::Required),
    KeyRule(Field::Coupling, AllowedValue::Switch, Presence::Optional),
    KeyRule(Field::Colour, AllowedValue::Colour, Presence::Optional),
    KeyRule(Field::DropYellow, AllowedValue::Switch, Presence::Optional),
    KeyRule(Field::MarkAllRed, AllowedValue::Switch, Presence::Optional),
];

/// Keys of a `[[filter]]` table, with their rules.
pub const FILTER_KEYS: [KeyRule; 9] = [
    KeyRule(Field::Number, NUMBER_VALUE, Presence::Required),
    KeyRule(Field::Handle, NUMBER_VALUE, Presence::Optional),
    KeyRule(Field::Priority, PRIORITY_VALUE, Presence::Optional),
    KeyRule(
        Field::Gate,
        AllowedValue::InstanceNumber(Section::Gate),
        Presence::Required,
    ),
    KeyRule(
        Field::MaxSdu,
        AllowedValue::Between(MAX_SDU),
        Presence::Optional,
    ),
    KeyRule(
        Field::Meter,
        AllowedValue::InstanceNumber(Section::Meter),
        Presence::Optional,
    ),
    KeyRule(
        Field::BlockOversize,
        AllowedValue::Switch,
        Presence::Optional,
    ),
    KeyRule(Field::Protected, AllowedValue::Switch, Presence::Optional),
    KeyRule(Field::Group, NUMBER_VALUE, WITHOUT_PROTECTED),
];

/// Keys of a `[[command]]` table, with their rules.
pub const COMMAND_KEYS: [KeyRule; 3] = [
    KeyRule(Field::At, TIME_VALUE, Presence::Required),
    KeyRule(Field::Clear, AllowedValue::Clear, Presence::Required),
    KeyRule(Field::Number, NUMBER_VALUE, Presence::Required),
];

/// Returns the keys of a section's tables with their rules, in the order in which explanations list them. `put_misplaced_key`,
/// `put_misplaced_table_key` and `put_key_fault` of `show_explain` call it.
pub fn section_keys(section: Section) -> &'static [KeyRule] {
    match section {
        Section::Top => &[],
        Section::Change => &CHANGE_KEYS,
        Section::Port => &PORT_KEYS,
        Section::Vlan => &VLAN_KEYS,
        Section::Static => &STATIC_KEYS,
        Section::Stream => &STREAM_KEYS,
        Section::Gate => &GATE_KEYS,
        Section::Meter => &METER_KEYS,
        Section::Filter => &FILTER_KEYS,
        Section::Command => &COMMAND_KEYS,
    }
}

/// Returns the keys of an entry of a section's list: a port's list, or for any other section a stream gate's list.
/// `put_misplaced_entry_key` and `put_key_fault` of `show_explain` call it.
pub fn entry_keys(section: Section) -> &'static [KeyRule] {
    match section {
        Section::Port => &PORT_ENTRY_KEYS,
        _ => &GATE_ENTRY_KEYS,
    }
}

/// Returns the keys of the lists that an instance can have: the first list, then the list after the schedule change. Only ports and stream
/// gates have lists. `put_refused_list` and `put_misplaced_entry_key` of `show_explain` call it.
pub fn section_lists(section: Section) -> &'static [ListKeys] {
    match section {
        Section::Port => &[PORT_LIST, NEXT_PORT_LIST],
        Section::Gate => &[GATE_LIST, NEXT_GATE_LIST],
        _ => &[],
    }
}

/// Returns the first key that identifies an instance, such as `number` of a port. Explanations name the instance by this key.
/// `put_instance_position` and `put_allowed` of `show_explain`, and 2 more call it.
pub fn identifying_key(section: Section) -> Field {
    match section {
        Section::Vlan | Section::Static => Field::Vid,
        Section::Stream => Field::Handle,
        Section::Command | Section::Change => Field::At,
        _ => Field::Number,
    }
}
