#![tactic(auto)]
//! Schema of plans: the keys of each table, the values that they allow, and the fault if a table breaks the rules.
//!
//! A plan is a TOML document of sections; each section is an array of tables. Functions such as `read_required` read a key with a
//! `ValueKind`. A `PlanFault` names the section, the instance and the key.

pub mod allowed_keys;
pub mod arrays;
pub mod document;
pub mod instance_table;
pub mod instances;
pub mod keys;
pub mod list_entries;
pub mod plan_fault;
pub mod presence;
pub mod ranges;
pub mod reader_fault;
pub mod text_values;
pub mod value_kinds;

pub use allowed_keys::{KeyConflict, find_conflict, has_allowed_entry_keys, has_allowed_keys};
pub use arrays::{Classes, KnownPorts, NumberSet, Rooms, are_tables, with_bit};
pub use document::{has_only, is_empty, read_document, section_items};
pub use instance_table::InstanceTable;
pub use instances::{SectionReader, read_instances};
pub use keys::{
    AllowedValue, CHANGE_KEYS, COMMAND_KEYS, COMMAND_SECTIONS, FILTER_KEYS, GATE_ENTRY_KEYS,
    GATE_KEYS, GATE_LIST, KeyRule, ListKeys, METER_KEYS, NEXT_GATE_LIST, NEXT_PORT_LIST,
    PLAN_SECTIONS, PORT_ENTRY_KEYS, PORT_KEYS, PORT_LIST, Presence, STATIC_KEYS, STREAM_KEYS,
    VLAN_KEYS, entry_keys, identifying_key, section_keys, section_lists,
};
pub use list_entries::{ListEntry, read_list};
pub use plan_fault::{Field, Flaw, KeyLocation, PlanFault, Section};
pub use presence::{
    get_value, optional_value, read_optional, read_or_default, read_required,
    read_required_if_absent, read_required_if_present, required_value, value_or_default,
};
pub use ranges::{
    BURST, LAST_TIME, LENGTH, MAX_SDU, MOST_OCTETS, NUMBER, PORT, PRIORITY, RATE, ROOM, TIME, VID,
    the_limit,
};
pub use reader_fault::{ReaderFault, Spell, TextSection, max_instances};
pub use text_values::{Address, Openness, TextMeaning, TextValue};
pub use value_kinds::{KnownNumber, Mbps, NumberLookup, NumberRange, Switch, ValueKind};
