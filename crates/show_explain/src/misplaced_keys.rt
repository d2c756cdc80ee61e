//! Explains keys that aren't allowed in their tables: unknown keys, and keys that conflict with others.

use crate::document::{SourceText, instance_table, put_instance_position, section_items};
use bridge_schema::{
    COMMAND_SECTIONS, Field, KeyConflict, KeyRule, PLAN_SECTIONS, Section, entry_keys,
    find_conflict, section_keys, section_lists,
};
use bridge_text::{
    KEYS, Said, fill_with_word, put_key, put_nearest, put_stray_section, value_items,
};
use std::alloc::Global;
use toml::{Table, Value};

/// Returns the rule in `keys` of the key with spelling `name`, or `None` if the table has no key with this spelling. `first_misplaced_key`,
/// `put_misplaced_table_key` and `put_key_fault` call it.
pub(crate) fn find_key(keys: &'static [KeyRule], name: &str) -> Option<&'static KeyRule> {
    for key in keys {
        if key.0.key() == name {
            return Some(key);
        }
    }
    None
}

/// Writes the key in `keys` that is nearest to `word`, or all keys if no key is near. `put_misplaced_entry_key` and
/// `put_misplaced_table_key` call it.
fn put_nearest_key(alloc: Global, said: &mut Said, word: &str, keys: &'static [KeyRule]) {
    let (mut names, mut is_refused) = (Vec::new(alloc), false);
    for key in keys {
        is_refused |= names.push(key.0.key()).is_err();
    }
    if is_refused {
        said.discard();
    }
    put_nearest(alloc, said, word, &names, KEYS);
}

/// Writes which key at the top of a plan or of commands is unknown, and the nearest section. `put_fault` calls it.
pub(crate) fn put_top_key(alloc: Global, said: &mut Said, source: SourceText<'_>) {
    let sections: &'static [Section] = if source.is_commands {
        &COMMAND_SECTIONS
    } else {
        &PLAN_SECTIONS
    };
    let (mut names, mut is_refused) = (Vec::new(alloc), false);
    for section in sections {
        is_refused |= names.push(section.name()).is_err();
    }
    if is_refused {
        said.discard();
    }
    put_stray_section(alloc, said, source.document(), &names);
}

/// Returns the first key of a table that is unknown or conflicts with another key. `has_change` is true if the plan has a schedule change.
/// `first_misplaced_entry_key` and `put_misplaced_key` call it.
fn first_misplaced_key<'a>(
    keys: &'static [KeyRule],
    table: &'a Table,
    has_change: bool,
) -> Option<&'a str> {
    for (key, _) in table.iter() {
        let is_sound = match find_key(keys, key.as_str()) {
            Some(known) => find_conflict(known.2, has_change, table).is_none(),
            None => false,
        };
        if !is_sound {
            return Some(key.as_str());
        }
    }
    None
}

/// Returns the number in the list, from 1, of the first entry with a key that isn't allowed there, and the key. Returns `None` if all keys
/// are allowed. `put_misplaced_entry_key` calls it.
fn first_misplaced_entry_key<'a>(
    keys: &'static [KeyRule],
    table: &'a Table,
    list: Field,
) -> Option<(u64, &'a str)> {
    let mut number = 0u64;
    for item in value_items(table.get(list.key())) {
        number = number.saturating_add(1);
        if let Value::Table(entry) = item {
            if let Some(key) = first_misplaced_key(keys, entry, false) {
                return Some((number, key));
            }
        }
    }
    None
}

/// Writes which key of instance `index` is unknown, with the nearest key, or why a known key isn't allowed there. Looks at the entries of
/// its lists last. `put_fault` calls it.
pub(crate) fn put_misplaced_key(
    alloc: Global,
    said: &mut Said,
    source: SourceText<'_>,
    section: Section,
    index: u32,
) {
    let has_change = !section_items(source.plan, Section::Change).is_empty();
    let Some(table) = instance_table(source.document, section, index) else {
        return put_instance_position(said, source, section, index, None);
    };
    if let Some(key) = first_misplaced_key(section_keys(section), table, has_change) {
        put_instance_position(said, source, section, index, Some(key));
        return put_misplaced_table_key(alloc, said, section, table, has_change, key);
    }
    put_misplaced_entry_key(alloc, said, source, section, index, table);
}

/// Writes which key of an entry of a list of instance `index`, from 1, is unknown, and the nearest key. `put_misplaced_key` calls it.
fn put_misplaced_entry_key(
    alloc: Global,
    said: &mut Said,
    source: SourceText<'_>,
    section: Section,
    index: u32,
    table: &Table,
) {
    let keys = entry_keys(section);
    for list in section_lists(section) {
        if let Some((number, key)) = first_misplaced_entry_key(keys, table, list.entries) {
            let list = list.entries.key();
            put_instance_position(said, source, section, index, Some(list));
            put_key(said, key);
            let template = ", in entry {0} of `{a}`, isn't a key of entries.\n";
            fill_with_word(said, template, number, list);
            return put_nearest_key(alloc, said, key, keys);
        }
    }
    put_instance_position(said, source, section, index, None);
}

/// Writes why key `key` is refused in this table. If the section knows the key, names the key that it lacks or excludes, or the missing
/// `[[change]]`. Otherwise writes that the section lacks the key, and the nearest key. `put_misplaced_key` calls it.
fn put_misplaced_table_key(
    alloc: Global,
    said: &mut Said,
    section: Section,
    table: &Table,
    has_change: bool,
    key: &str,
) {
    let keys = section_keys(section);
    let why = match find_key(keys, key) {
        Some(known) => find_conflict(known.2, has_change, table),
        None => None,
    };
    put_key(said, key);
    match why {
        Some(KeyConflict::Lacks(other)) => {
            fill_with_word(
                said,
                " needs the key `{a}` in the same table.\n",
                0,
                other.key(),
            );
        }
        Some(KeyConflict::Has(other)) => {
            fill_with_word(
                said,
                " can't be in the same table as `{a}`.\n",
                0,
                other.key(),
            );
        }
        Some(KeyConflict::NoChange) => said.put(" needs a `[[change]]` in the plan.\n"),
        None => {
            fill_with_word(said, " isn't a key of `{a}`.\n", 0, section.name());
            put_nearest_key(alloc, said, key, keys);
        }
    }
}
