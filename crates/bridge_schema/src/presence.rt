//! Presence of keys: required keys, optional keys, and defaults.
ghost use Rattle.std.specs.Prelude.{◌≡◌, IfOk, IfErr, option_map};
ghost use Rattle.bridge_schema.specs.declared.plan_fault.PlanFault.TheVariants.{NoMemory};
ghost use Rattle.std.specs.Option.{ForSome};
ghost use Rattle.toml.specs.Data.{get_member};
ghost use Rattle.toml.specs.View.{view, table_view};
ghost use Rattle.bridge_schema.specs.Readers as spec;
ghost use Rattle.bridge_schema.specs.Reading as reading;
ghost use Rattle.bridge_schema.specs.Readers.{MatchesReading};

use crate::plan_fault::{Field, KeyLocation, PlanFault};
use crate::reader_fault::ReaderFault;
use crate::value_kinds::ValueKind;
use toml::{Table, Value};

/// Returns the value of `key`; `None` if the table lacks the key. Wraps `Table::get`, whose result has no contract.
pub fn get_value<'a>(table: &'a Table, key: &str) -> Option<&'a Value>
    ensures value { option_map (λ v. view v.now) result ≡ get_member key.now (table_view table.now) }
{
    table.get(key)
}

/// Whether a table has `key`. Readers call it for keys that depend on another key.
pub fn has_key(table: &Table, key: Field) -> bool
    ensures has { result ≡ spec.has_key key (table_view table.now) }
{
    get_value(table, key.key()).is_some()
}

/// Reads the value of a required key at `place`. If the table lacks the key, `value` is `None`, and the fault is `missing_key`. Allocates
/// no memory.
pub fn required_value<F: ReaderFault, K: ValueKind>(
    place: F::Place,
    kind: &K,
    value: Option<&Value>,
) -> Result<K::Out, F>
    ensures reads { reading.Gives F.is_memory result (reading.required_in F.missing F.flawed place (K.reading kind.now)
        (option_map (λ v. view v.now) value.entry)) }
    ensures fits { IfOk result (K.Fits kind.now) }
    ensures takes_no_memory { IfErr result (λ e. ¬ (e ≡ F.memory)) }
{
    match value {
        None => Err(F::missing_key(place)),
        Some(value) => match kind.read(value) {
            Ok(out) => Ok(out),
            Err(flaw) => Err(F::flaw_fault(place, flaw)),
        },
    }
}

/// Reads a required key of a plan. Returns `Missing` if the table lacks it, or the fault of a refused value. Allocates no memory.
#[tactic(auto, unfolding(crate::specs::Readers::read_required))]
pub fn read_required<K: ValueKind>(
    table: &Table,
    place: KeyLocation,
    key: Field,
    kind: &K,
) -> Result<K::Out, PlanFault>
    ensures reads { MatchesReading result (spec.read_required place key (K.reading kind.now) (table_view table.now)) }
    ensures fits { IfOk result (K.Fits kind.now) }
    ensures takes_no_memory { IfErr result (λ e. ¬ (e ≡ NoMemory)) }
{
    required_value(place, kind, get_value(table, key.key()))
}

/// Reads the value of an optional key at `place`. If the table lacks the key, `value` is `None`, and so is the result. Allocates no memory.
/// If the value is refused, returns its fault.
pub fn optional_value<F: ReaderFault, K: ValueKind>(
    place: F::Place,
    kind: &K,
    value: Option<&Value>,
) -> Result<Option<K::Out>, F>
    ensures reads { reading.Gives F.is_memory result (reading.optional_in F.flawed place (K.reading kind.now)
        (option_map (λ v. view v.now) value.entry)) }
    ensures fits { IfOk result (λ x. ForSome x (K.Fits kind.now)) }
    ensures takes_no_memory { IfErr result (λ e. ¬ (e ≡ F.memory)) }
{
    match value {
        None => Ok(None),
        Some(value) => match kind.read(value) {
            Ok(out) => Ok(Some(out)),
            Err(flaw) => Err(F::flaw_fault(place, flaw)),
        },
    }
}

/// Reads an optional key of a plan. Returns `None` if the table lacks it, or the fault of a refused value. Allocates no memory.
#[tactic(auto, unfolding(crate::specs::Readers::read_optional))]
pub fn read_optional<K: ValueKind>(
    table: &Table,
    place: KeyLocation,
    key: Field,
    kind: &K,
) -> Result<Option<K::Out>, PlanFault>
    ensures reads { MatchesReading result (spec.read_optional place key (K.reading kind.now) (table_view table.now)) }
    ensures fits { IfOk result (λ x. ForSome x (K.Fits kind.now)) }
    ensures takes_no_memory { IfErr result (λ e. ¬ (e ≡ NoMemory)) }
{
    optional_value(place, kind, get_value(table, key.key()))
}

/// Reads the value of an optional key at `place`. If the table lacks the key, `value` is `None`, and the result is `default`. Allocates no
/// memory. If the value is refused, returns its fault.
pub fn value_or_default<F: ReaderFault, K: ValueKind>(
    default: K::Out,
    place: F::Place,
    kind: &K,
    value: Option<&Value>,
) -> Result<K::Out, F>
where
    K::Out: Drop,
    requires fits { K.Fits kind.now default }
    ensures reads { reading.Gives F.is_memory result (reading.default_in F.flawed default place (K.reading kind.now)
        (option_map (λ v. view v.now) value.entry)) }
    ensures fits { IfOk result (K.Fits kind.now) }
    ensures takes_no_memory { IfErr result (λ e. ¬ (e ≡ F.memory)) }
{
    match value {
        None => Ok(default),
        Some(value) => match kind.read(value) {
            Ok(out) => Ok(out),
            Err(flaw) => Err(F::flaw_fault(place, flaw)),
        },
    }
}

/// Reads an optional key of a plan, or returns `default` if the table lacks it. A refused value is a fault. Allocates no memory.
#[tactic(auto, unfolding(crate::specs::Readers::read_or_default))]
pub fn read_or_default<K: ValueKind>(
    default: K::Out,
    table: &Table,
    place: KeyLocation,
    key: Field,
    kind: &K,
) -> Result<K::Out, PlanFault>
where
    K::Out: Drop,
    requires fits { K.Fits kind.now default }
    ensures reads { MatchesReading result (spec.read_or_default default place key (K.reading kind.now)
        (table_view table.now)) }
    ensures fits { IfOk result (K.Fits kind.now) }
    ensures takes_no_memory { IfErr result (λ e. ¬ (e ≡ NoMemory)) }
{
    value_or_default(default, place, kind, get_value(table, key.key()))
}

/// If the table has the key `other`, reads `key`, which is then required. Otherwise returns `absent`. Allocates no memory.
pub fn read_required_if_present<K: ValueKind>(
    other: Field,
    absent: K::Out,
    table: &Table,
    place: KeyLocation,
    key: Field,
    kind: &K,
) -> Result<K::Out, PlanFault>
where
    K::Out: Drop,
    requires fits { K.Fits kind.now absent }
    ensures reads { MatchesReading result (spec.read_if_present other absent
        (spec.read_required place key (K.reading kind.now) (table_view table.now)) (table_view table.now)) }
    ensures fits { IfOk result (K.Fits kind.now) }
    ensures takes_no_memory { IfErr result (λ e. ¬ (e ≡ NoMemory)) }
{
    if has_key(table, other) {
        read_required(table, place, key, kind)
    } else {
        Ok(absent)
    }
}

/// If the table lacks the key `other`, reads `key`, which is then required. Otherwise returns `absent`. Allocates no memory.
pub fn read_required_if_absent<K: ValueKind>(
    other: Field,
    absent: K::Out,
    table: &Table,
    place: KeyLocation,
    key: Field,
    kind: &K,
) -> Result<K::Out, PlanFault>
where
    K::Out: Drop,
    requires fits { K.Fits kind.now absent }
    ensures reads { MatchesReading result (spec.read_if_absent other absent
        (spec.read_required place key (K.reading kind.now) (table_view table.now)) (table_view table.now)) }
    ensures fits { IfOk result (K.Fits kind.now) }
    ensures takes_no_memory { IfErr result (λ e. ¬ (e ≡ NoMemory)) }
{
    if !has_key(table, other) {
        read_required(table, place, key, kind)
    } else {
        Ok(absent)
    }
}
