//! TOML documents with their text, and the tables of their sections.

use crate::position::{Position, key_position, put_position, table_position, top_level_position};
use crate::value::{Said, fill_with_word, put_value, put_value_sentence};
use toml::{Table, Value};

/// A TOML file in two forms: its text gives positions, its parsed table gives values. Explanations of faults need both.
#[derive(Clone, Copy)]
pub struct Document<'a> {
    /// File contents.
    pub text: &'a str,
    /// Top-level table.
    pub table: &'a Table,
}

/// Returns the items of an array, or an empty slice for any other value. `section_instances`, `is_list_refused` of `show_explain` and 3
/// more call it.
pub fn value_items<'a>(value: Option<&'a Value>) -> &'a [Value] {
    match value {
        Some(Value::Array(items)) => items,
        _ => &[],
    }
}

/// Returns the items of the array `section`; no items if the section is absent or isn't an array. `instance_table`, `section_items` of
/// `show_explain` and 5 more call it.
pub fn section_instances<'a>(table: &'a Table, section: &str) -> &'a [Value] {
    value_items(table.get(section))
}

/// Returns table `index`, counted from 1, of the array `section`. `None` if there is no item with this index, or the item isn't a table.
///
/// `Instance::table`, and `instance_table` of `show_explain`, call it.
pub fn instance_table<'a>(table: &'a Table, section: &str, index: u32) -> Option<&'a Table> {
    match section_instances(table, section).get((index as usize).wrapping_sub(1)) {
        Some(Value::Table(table)) => Some(table),
        _ => None,
    }
}

/// Returns the value at `key`. `None` if there is no table, or the table lacks the key. `Instance::value`, `key_value` of `show_explain`
/// and 3 more call it.
pub fn table_value<'a>(table: Option<&'a Table>, key: &str) -> Option<&'a Value> {
    match table {
        Some(table) => table.get(key),
        None => None,
    }
}

/// Returns the value as a number if it is an integer of at least 0; otherwise `None`. Explanations of faults read the numbers in a file by
/// it.
///
/// `entry_interval` and `is_list_refused` of `show_explain`, and 5 more call it.
pub fn unsigned_number(value: Option<&Value>) -> Option<u64> {
    match value {
        Some(Value::Integer(number)) if *number >= 0 => Some(*number as u64),
        _ => None,
    }
}

/// Location of one table in an array of tables, such as the second `[[port]]`. Explanations of faults use it.
#[derive(Clone, Copy)]
pub struct Instance<'a> {
    /// Document that has the table.
    pub document: Document<'a>,
    /// Name of the section.
    pub section: &'a str,
    /// Index of the table in its section, from 1.
    pub index: u32,
}

impl<'a> Instance<'a> {
    /// Finds this instance's table in the document. `None` if the section has no table with this index. `Instance::value`, and
    /// `put_stray_key` and `put_duplicate` of `show_explain` call it.
    pub fn table(self) -> Option<&'a Table> {
        instance_table(self.document.table, self.section, self.index)
    }

    /// Returns the value at `key`. `None` if the document lacks the table, or the table lacks the key. `put_identifying_key`,
    /// `put_key_value` of `show_explain` and 3 more call it.
    pub fn value(self, key: &str) -> Option<&'a Value> {
        table_value(self.table(), key)
    }

    /// Returns the position of `key`, or of the table's header if the key isn't found. `None` if a table of the section has no header of
    /// its own.
    ///
    /// `Instance::put_place` and `put_too_many` call it.
    pub fn position(self, key: Option<&str>) -> Option<Position> {
        let (text, count) = (
            self.document.text,
            section_instances(self.document.table, self.section).len(),
        );
        let header = table_position(text, self.section, self.index, count)?;
        let Some(key) = key else {
            return Some(header);
        };
        match key_position(text, self.section, header.line, key) {
            Some(position) => Some(position),
            None => Some(header),
        }
    }

    /// Writes the position of `key`, or of the table if `key` is `None` or isn't found. The table's index in the file and the values of the
    /// keys `known` follow.
    ///
    /// Explanations of a document's faults begin with it.
    pub fn put_place(self, said: &mut Said, known: &[&str], key: Option<&str>) {
        put_position(said, self.position(key));
        fill_with_word(
            said,
            "in `{a}` {0} of the file",
            u64::from(self.index),
            self.section,
        );
        for name in known {
            self.put_identifying_key(said, *name);
        }
        said.put(":\n");
    }

    /// Writes `key` and its value if the table has the key. `put_place` calls it for keys by which planners recognise the table.
    fn put_identifying_key(self, said: &mut Said, key: &str) {
        if let Some(value) = self.value(key) {
            fill_with_word(said, ", {a} = ", 0, key);
            put_value(said, value);
        }
    }
}

/// Writes that the top-level key `name` isn't an array of tables: its position, its value, and how to write the section. `put_fault` and
/// `put_net_fault` of `show_explain` call it.
pub fn put_no_list(said: &mut Said, document: Document<'_>, name: &str) {
    put_position(said, top_level_position(document.text, name));
    let value = document.table.get(name);
    put_value_sentence(said, "`{a}` is ", 0, name, value, "absent");
    let advice = "It must be an array of tables: write `[[{a}]]` above the keys of each.\n";
    fill_with_word(said, advice, 0, name);
}

/// Writes the position of the first table over `limit` in `section`, and the number of tables. `put_fault` and `put_net_fault` of
/// `show_explain` call it.
pub fn put_too_many(said: &mut Said, document: Document<'_>, section: &str, limit: usize) {
    let most = u32::try_from(limit).unwrap_or(u32::MAX);
    let first = Instance {
        document,
        section,
        index: most.saturating_add(1),
    };
    put_position(said, first.position(None));
    let count = section_instances(document.table, section).len();
    said.put_template(
        "`{a}` has {0} tables.\nIt may have at most {1}.\n",
        &[count as u64, limit as u64],
        &[section],
    );
}

/// Whether both values are equal integers or equal texts; values of other kinds never match. Unless `is_exact`, texts may differ in the
/// case of ASCII letters. `is_twin` calls it.
fn is_same_value(one: Option<&Value>, other: Option<&Value>, is_exact: bool) -> bool {
    match (one, other) {
        (Some(Value::Integer(one)), Some(Value::Integer(other))) => *one == *other,
        (Some(Value::String(one)), Some(Value::String(other))) => {
            let (one, other) = (one.as_str(), other.as_str());
            one == other || !is_exact && one.eq_ignore_ascii_case(other)
        }
        _ => false,
    }
}

/// Whether two tables have equal values at each of `keys`. A missing key never matches. `is_same_value` explains `is_exact`.
/// `find_duplicate` compares tables by it.
fn is_twin(one: Option<&Table>, other: Option<&Table>, keys: &[&str], is_exact: bool) -> bool {
    for key in keys {
        if !is_same_value(table_value(one, *key), table_value(other, *key), is_exact) {
            return false;
        }
    }
    true
}

/// Returns the index, from 1, of the first table that equals `table` at each of `keys`; 0 if no table does. Unless `is_exact`, texts may
/// differ in the case of ASCII letters.
///
/// `put_duplicate` of `show_explain` calls it.
pub fn find_duplicate(
    items: &[Value],
    table: Option<&Table>,
    keys: &[&str],
    is_exact: bool,
) -> u64 {
    let mut place = 0u64;
    for item in items {
        place = place.saturating_add(1);
        if is_twin(item.as_table(), table, keys, is_exact) {
            return place;
        }
    }
    0
}
