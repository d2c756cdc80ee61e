//! Reading of required and optional keys from the tables of network and traffic files.
ghost use Rattle.std.specs.Prelude.{◌≡◌, IfErr, IfOk, option_map, true};
ghost use Rattle.std.specs.Option.{ForSome};
ghost use Rattle.toml.specs.View.{view, table_view};
ghost use Rattle.net_file.specs.declared.fault.NetFault.TheVariants.{NoMemory};
ghost use Rattle.net_file.specs.Names.{is_valid_name};
ghost use Rattle.net_file.specs.Keys as spec;
ghost use Rattle.net_file.specs.Keys.{Gives, GivesAs};

use crate::fault::{NetFault, NetKeyLocation};
use crate::names::is_valid_name;
use bridge_schema::{ValueKind, get_value, optional_value, required_value, value_or_default};
use toml::{Table, Value};

/// Reads the value of the required key at `place` from its table. `kind` defines the allowed values. Returns the fault `Missing` if the key
/// is absent. Allocates no memory.
///
/// `read_rate`, `read_count` and 4 more call it.
#[tactic(auto, unfolding(crate::specs::Keys::read_required))]
pub fn read_required<K: ValueKind>(
    table: &Table,
    place: NetKeyLocation,
    kind: &K,
) -> Result<K::Out, NetFault>
    ensures reads { Gives result (spec.read_required place (K.reading kind.now) (table_view table.now)) }
    ensures fits { IfOk result (K.Fits kind.now) }
    ensures takes_no_memory { IfErr result (λ e. ¬ (e ≡ NoMemory)) }
{
    required_value(place, kind, get_value(table, place.field.key()))
}

/// Reads the value of the optional key at `place` from its table. `kind` defines the allowed values. Returns `None` if the key is absent.
/// Allocates no memory.
///
/// If the value is refused, returns its fault. `read_limited_row`, `read_deadline` and `read_row` call it.
#[tactic(auto, unfolding(crate::specs::Keys::read_optional))]
pub fn read_optional<K: ValueKind>(
    table: &Table,
    place: NetKeyLocation,
    kind: &K,
) -> Result<Option<K::Out>, NetFault>
    ensures reads { Gives result (spec.read_optional place (K.reading kind.now) (table_view table.now)) }
    ensures fits { IfOk result (λ x. ForSome x (K.Fits kind.now)) }
    ensures takes_no_memory { IfErr result (λ e. ¬ (e ≡ NoMemory)) }
{
    optional_value(place, kind, get_value(table, place.field.key()))
}

/// Reads the value of the optional key at `place` from its table. `kind` defines the allowed values. Returns `default` if the key is
/// absent. Allocates no memory. If the value is refused, returns its fault.
///
/// `read_link` calls it.
#[tactic(auto, unfolding(crate::specs::Keys::read_or_default))]
pub(crate) fn read_or_default<K: ValueKind>(
    default: K::Out,
    table: &Table,
    place: NetKeyLocation,
    kind: &K,
) -> Result<K::Out, NetFault>
where
    K::Out: Drop,
    requires fits { K.Fits kind.now default }
    ensures reads { Gives result (spec.read_or_default default place (K.reading kind.now) (table_view table.now)) }
    ensures fits { IfOk result (K.Fits kind.now) }
    ensures takes_no_memory { IfErr result (λ e. ¬ (e ≡ NoMemory)) }
{
    value_or_default(default, place, kind, get_value(table, place.field.key()))
}

#[tactic(auto, unfolding(crate::specs::Keys::any_text))]
/// Returns the text of `value`, the value of the required key at `place`. If `value` is `None`, the fault is `Missing`; if it isn't a text,
/// `WrongKind`. `read_text` calls it.
fn text_value<'a>(place: NetKeyLocation, value: Option<&'a Value>) -> Result<&'a str, NetFault>
    ensures reads { GivesAs (λ x. x.now) result (spec.required_value place spec.any_text
        (option_map (λ v. view v.now) value.entry)) }
    ensures takes_no_memory { IfErr result (λ e. ¬ (e ≡ NoMemory)) }
{
    match value {
        None => Err(NetFault::Missing(place)),
        Some(Value::String(text)) => Ok(text.as_str()),
        Some(_) => Err(NetFault::WrongKind(place)),
    }
}

/// Reads the text of the required key at `place` from its table. The result borrows from the table, so no memory is allocated. If the value
/// is missing or refused, returns its fault.
///
/// `read_bridge` calls it.
#[tactic(auto, unfolding(crate::specs::Keys::read_required))]
pub(crate) fn read_text<'a>(table: &'a Table, place: NetKeyLocation) -> Result<&'a str, NetFault>
    ensures reads { GivesAs (λ x. x.now) result (spec.read_required place spec.any_text (table_view table.now)) }
    ensures takes_no_memory { IfErr result (λ e. ¬ (e ≡ NoMemory)) }
{
    text_value(place, get_value(table, place.field.key()))
}

#[tactic(auto, unfolding(crate::specs::Keys::name_text))]
/// Returns the name in `value`, the value of the required key at `place`. If `value` is `None`, the fault is `Missing`; if it isn't a text,
/// `WrongKind`; if the text isn't a name, `OutOfRange`.
///
/// `read_name` calls it.
fn name_value<'a>(place: NetKeyLocation, value: Option<&'a Value>) -> Result<&'a str, NetFault>
    ensures reads { GivesAs (λ x. x.now) result (spec.required_value place spec.name_text
        (option_map (λ v. view v.now) value.entry)) }
    ensures name { IfOk result (λ x. is_valid_name x.now ≡ true) }
    ensures takes_no_memory { IfErr result (λ e. ¬ (e ≡ NoMemory)) }
{
    match value {
        None => Err(NetFault::Missing(place)),
        Some(Value::String(text)) => {
            let name = text.as_str();
            if is_valid_name(name) {
                Ok(name)
            } else {
                Err(NetFault::OutOfRange(place))
            }
        }
        Some(_) => Err(NetFault::WrongKind(place)),
    }
}

/// Reads the required key at `place`, whose value must be a name: 1 to 32 letters, digits, `-` and `_`. The result borrows from the table.
///
/// If the value is missing or refused, returns its fault. `read_bridge` and `read_stream` call it.
#[tactic(auto, unfolding(crate::specs::Keys::read_required))]
pub(crate) fn read_name<'a>(table: &'a Table, place: NetKeyLocation) -> Result<&'a str, NetFault>
    ensures reads { GivesAs (λ x. x.now) result (spec.read_required place spec.name_text (table_view table.now)) }
    ensures name { IfOk result (λ x. is_valid_name x.now ≡ true) }
    ensures takes_no_memory { IfErr result (λ e. ¬ (e ≡ NoMemory)) }
{
    name_value(place, get_value(table, place.field.key()))
}
