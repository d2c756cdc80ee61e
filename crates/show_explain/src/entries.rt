//! Explains faults in the lists of ports and stream gates, entry by entry.

use crate::document::{SourceText, instance_table, key_value, put_instance_position};
use crate::plan_fault::put_allowed;
use bridge_cycle::{CyclicList, LONGEST_CYCLE, ListFault, MAX_ENTRIES};
use bridge_schema::{
    AllowedValue, Field, KeyRule, LENGTH, ListKeys, NumberRange, Presence, Section, Switch,
    ValueKind, entry_keys, section_lists,
};
use bridge_text::{
    Said, fill_with_word, first_items, put_value_sentence, unsigned_number, value_items,
};
use std::alloc::Global;
use toml::{Table, Value};

/// Returns whether all items are numbers in a range. `is_allowed` calls it.
fn are_in_range(items: &[Value], range: &NumberRange) -> bool {
    for item in items {
        if range.read(item).is_err() {
            return false;
        }
    }
    true
}

/// Returns whether a value is allowed for a key of a list's entry. Kinds of values that no entry has are never allowed. `first_flawed_key`
/// calls it.
fn is_allowed(allowed: AllowedValue, value: &Value) -> bool {
    match (allowed, value) {
        (AllowedValue::Between(range), _) => range.read(value).is_ok(),
        (AllowedValue::Length, _) => LENGTH.read(value).is_ok(),
        (AllowedValue::Set(range), Value::Array(items)) => are_in_range(items, &range),
        (AllowedValue::Switch, _) => Switch.read(value).is_ok(),
        _ => false,
    }
}

/// Returns the first of `keys` that an entry lacks although it is required, or whose value isn't allowed. Returns `None` if the entry is
/// sound. `put_entry_flaws` calls it.
fn first_flawed_key(keys: &'static [KeyRule], entry: &Table) -> Option<&'static KeyRule> {
    for key in keys {
        let KeyRule(field, allowed, presence) = *key;
        let is_sound = match entry.get(field.key()) {
            Some(value) => is_allowed(allowed, value),
            None => !matches!(presence, Presence::Required),
        };
        if !is_sound {
            return Some(key);
        }
    }
    None
}

/// Writes the first item of list `list` that isn't a table. If every item is a table, writes the first wrong key of an entry, its value and
/// the allowed values. `put_key_fault` calls it.
pub(crate) fn put_entry_flaws(
    said: &mut Said,
    keys: &'static [KeyRule],
    list: &str,
    items: &[Value],
) {
    let mut number = 0u64;
    let mut flawed = None;
    for item in items {
        number = number.saturating_add(1);
        let Value::Table(entry) = item else {
            put_value_sentence(said, "Item {0} of `{a}` is ", number, list, Some(item), "");
            return said.put("It must be a table.\n");
        };
        if flawed.is_none() {
            if let Some(key) = first_flawed_key(keys, entry) {
                flawed = Some((number, key, entry));
            }
        }
    }
    match flawed {
        Some((number, key, entry)) => put_flaw(said, number, list, *key, entry),
        None => fill_with_word(said, "All entries of `{a}` are valid.\n", 0, list),
    }
}

/// Writes the value of an entry's key and the allowed values. `number` is the entry's number, from 1; `list` is the key of its list.
/// `put_entry_flaws` calls it.
fn put_flaw(said: &mut Said, number: u64, list: &str, key: KeyRule, entry: &Table) {
    let KeyRule(field, allowed, _) = key;
    let value = entry.get(field.key());
    fill_with_word(said, "In entry {0} of `{a}`, ", number, list);
    put_value_sentence(said, "`{a}` is ", 0, field.key(), value, "missing");
    put_allowed(said, allowed);
}

/// Returns the interval (key `ns`) of a list's entry in ns; 0 if it has none. `is_list_refused` and `put_list_refusal` call it.
fn entry_interval(entry: &Value) -> u64 {
    unsigned_number(key_value(entry.as_table(), Field::Ns)).unwrap_or(0)
}

/// Returns whether the list with keys `keys` in an instance's table is refused for `fault`. An instance can have several lists, and the
/// fault doesn't name one. `put_refused_list` calls it.
fn is_list_refused(
    alloc: Global,
    said: &mut Said,
    table: Option<&Table>,
    keys: ListKeys,
    fault: ListFault,
) -> bool {
    let cycle = unsigned_number(key_value(table, keys.cycle)).unwrap_or(0);
    let mut entries = Vec::new(alloc);
    let items = value_items(key_value(table, keys.entries));
    for item in first_items(items, MAX_ENTRIES + 1) {
        let Ok(()) = entries.push(((), entry_interval(item))) else {
            said.discard();
            return true;
        };
    }
    match CyclicList::new(alloc, 0, cycle, entries) {
        Ok(_list) => false,
        Err(found) => found == fault,
    }
}

/// Writes why a list of instance `index` is refused. Finds the list with this fault; if no list has it, takes the section's first list.
/// `put_fault` calls it.
pub(crate) fn put_refused_list(
    alloc: Global,
    said: &mut Said,
    source: SourceText<'_>,
    section: Section,
    index: u32,
    fault: ListFault,
) {
    let table = instance_table(source.document, section, index);
    let mut found = section_lists(section).first();
    for keys in section_lists(section) {
        if is_list_refused(alloc, said, table, *keys, fault) {
            found = Some(keys);
            break;
        }
    }
    let Some(keys) = found else {
        return put_instance_position(said, source, section, index, None);
    };
    let key = match fault {
        ListFault::CycleOutOfRange => keys.cycle,
        _ => keys.entries,
    };
    put_instance_position(said, source, section, index, Some(key.key()));
    let cycle = unsigned_number(key_value(table, keys.cycle)).unwrap_or(0);
    let items = value_items(key_value(table, keys.entries));
    put_list_refusal(said, *keys, cycle, items, fault);
}

/// Returns the sentence for a refused list. Marks: keys `{a}` and `{b}`, entries `{0}`, at most `{1}`, cycle `{2}`, at most `{3}`, first
/// empty entry `{4}`, total `{5}`. `put_list_refusal` calls it.
fn refusal_sentence(fault: ListFault) -> &'static str {
    match fault {
        ListFault::Empty => "`{a}` has no entry.\nIt must have 1 to {1}.\n",
        ListFault::TooManyEntries => "`{a}` has {0} entries.\nIt must have 1 to {1}.\n",
        ListFault::CycleOutOfRange =>
            "`{b}` is {2}.\nIt must be a whole number from 1 to {3} (ns).\n",
        ListFault::ZeroInterval => "Entry {4} of `{a}` lasts 0 ns.\nEach must last 1 ns or more.\n",
        ListFault::OverCycle =>
            "The entries of `{a}` last {5} ns in total, but `{b}` is only {2} ns.\nShorten an entry, or raise `{b}`.\n",
        ListFault::NoMemory => "There is not enough memory for it.\n",
    }
}

/// Writes why a list with this cycle time in ns and these entries is refused. `put_refused_list` calls it.
fn put_list_refusal(
    said: &mut Said,
    keys: ListKeys,
    cycle: u64,
    items: &[Value],
    fault: ListFault,
) {
    let mut sum = 0u64;
    let mut place = 0u64;
    let mut zero = 0u64;
    for item in items {
        let interval = entry_interval(item);
        sum = sum.saturating_add(interval);
        place = place.saturating_add(1);
        if interval == 0 && zero == 0 {
            zero = place;
        }
    }
    let numbers = [place, MAX_ENTRIES as u64, cycle, LONGEST_CYCLE, zero, sum];
    said.put_template(
        refusal_sentence(fault),
        &numbers,
        &[keys.entries.key(), keys.cycle.key()],
    );
}
