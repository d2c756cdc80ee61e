//! Tests which keys are allowed in a table of a plan.
ghost use Rattle.std.specs.Prelude.{◌≡◌, ◌&&◌, is_none, nat_eq, option_map};
ghost use Rattle.std.specs.Cmp.Lexicographic.{pointwise};
ghost use Rattle.toml.specs.View.{view, table_view, items_view};
ghost use Rattle.bridge_schema.specs.Keys.{key_name};
ghost use Rattle.bridge_schema.specs.Readers.{has_known_keys, has_key, is_key_name};
ghost use Rattle.bridge_schema.specs.AllowedKeys as spec;

use crate::keys::{KeyRule, Presence};
use crate::plan_fault::Field;
use crate::presence::has_key;
use toml::{Table, Value};

/// Reason why a known key isn't allowed in a table.
#[derive(Clone, Copy)]
pub enum KeyConflict {
    /// The key needs another key.
    Lacks(Field),
    /// The key excludes another key.
    Has(Field),
    /// The key needs a plan with a schedule change.
    NoChange,
}

/// Returns `Lacks` if the table lacks `key`, otherwise `None`. `find_conflict` calls it for keys that need a list.
fn find_lack(table: &Table, key: Field) -> Option<KeyConflict>
    ensures { is_none result ≡ has_key key (table_view table.now) }
{
    if has_key(table, key) {
        None
    } else {
        Some(KeyConflict::Lacks(key))
    }
}

/// Returns why a key with this presence rule isn't allowed in the table; `None` if it is allowed. `has_change` is true if the plan has a
/// schedule change.
///
/// `is_allowed_key`, and `first_misplaced_key` and `put_misplaced_table_key` of `show_explain` call it.
pub fn find_conflict(presence: Presence, has_change: bool, table: &Table) -> Option<KeyConflict>
    ensures none { is_none result ≡ spec.is_allowed_presence has_change (table_view table.now) presence }
{
    match presence {
        Presence::Required | Presence::Optional => None,
        Presence::WithList(list) => find_lack(table, list),
        Presence::WithoutKey(other) => {
            if has_key(table, other) {
                Some(KeyConflict::Has(other))
            } else {
                None
            }
        }
        Presence::WithListInChange(list) => {
            if has_key(table, list) && !has_change {
                Some(KeyConflict::NoChange)
            } else {
                find_lack(table, list)
            }
        }
        Presence::WithNextList(list, next) => {
            if !has_key(table, list) {
                Some(KeyConflict::Lacks(list))
            } else if !has_change {
                Some(KeyConflict::NoChange)
            } else {
                find_lack(table, next)
            }
        }
    }
}

/// Whether `key` has name `name` and is allowed in the table. `has_change` is true if the plan has a schedule change. `is_allowed_name`
/// calls it for each rule.
fn is_allowed_key(key: &KeyRule, name: &str, has_change: bool, table: &Table) -> bool
    ensures { result ≡ (pointwise nat_eq (key_name key.now.0) name.now
        && spec.is_allowed_presence has_change (table_view table.now) key.now.2) }
{
    key.0.key() == name && find_conflict(key.2, has_change, table).is_none()
}

/// Whether one of `keys` has name `name` and is allowed in the table. `has_change` is true if the plan has a schedule change.
/// `has_allowed_keys` calls it for each key of the table.
fn is_allowed_name(keys: &[KeyRule], name: &str, has_change: bool, table: &Table) -> bool
    ensures { result ≡ is_key_name (spec.allowed_keys has_change (table_view table.now) keys.now) name.now }
{
    'keys: for key in keys {
        if is_allowed_key(key, name, has_change, table) {
            return true;
        }
    }
    false
}

/// Whether a table has only allowed keys. `has_change` is true if the plan has a schedule change. `have_allowed_keys`, `has_change_keys` of
/// `bridge_config` and 8 more call it.
pub fn has_allowed_keys(table: &Table, keys: &[KeyRule], has_change: bool) -> bool
    ensures known { result ≡ spec.has_allowed_keys has_change keys.now (table_view table.now) }
{
    'members: for (key, _) in table.iter() {
        if !is_allowed_name(keys, key.as_str(), has_change, table) {
            return false;
        }
    }
    true
}

/// Whether each table among the items has only allowed keys. No key of a list's entry depends on a schedule change.
/// `has_allowed_entry_keys` calls it.
fn have_allowed_keys(items: &[Value], keys: &[KeyRule]) -> bool
    ensures { result ≡ spec.have_allowed_keys keys.now (items_view items.now) }
{
    'items: for item in items {
        if let Value::Table(table) = item {
            if !has_allowed_keys(table, keys, false) {
                return false;
            }
        }
    }
    true
}

/// Whether each table of an array has only allowed keys. Ignores other values and items: their reader refuses them.
/// `has_only_gate_entry_keys` and `has_only_port_entry_keys` of `bridge_config` call it.
pub fn has_allowed_entry_keys(value: Option<&Value>, keys: &[KeyRule]) -> bool
    ensures known { result ≡ spec.has_allowed_entry_keys keys.now (option_map (λ v. view v.now) value.entry) }
{
    match value {
        Some(Value::Array(items)) => have_allowed_keys(items, keys),
        _ => true,
    }
}
