//! Reads the section `change` of a plan: the time of the schedule change.
ghost use Rattle.std.specs.Prelude.{◌≡◌, ◌<◌, IfErr, IfOk, option_map};
ghost use Rattle.toml.specs.View.{items_view, table_view, view};
ghost use Rattle.bridge_schema.specs.declared.plan_fault.PlanFault.TheVariants.{NoMemory};
ghost use Rattle.bridge_schema.specs.Readers.{MatchesReading};
ghost use Rattle.bridge_config.specs.Document as doc;
ghost use Rattle.bridge_config.specs.Rules as rules;
ghost use Rattle.bridge_config.specs.Sections as sections;

use bridge_limits::END_OF_TIME;
use bridge_schema::{
    CHANGE_KEYS, Field, InstanceTable, PlanFault, Section, TIME, has_allowed_keys,
};
use toml::{Table, Value};

/// Whether a `[[change]]` table has no key except `at`; otherwise its fault is `UnknownKey`. `read_change_time` calls it.
fn has_change_keys(table: &Table) -> bool
    ensures { result ≡ sections.has_change_keys (table_view table.now) }
{
    has_allowed_keys(table, &CHANGE_KEYS, false)
}

/// Reads the time of the schedule change from a table. A table with a key other than `at` is refused. `item_change` calls it.
#[tactic(auto, unfolding(crate::specs::Sections::read_change_time))]
fn read_change_time(index: u32, table: &Table) -> Result<u64, PlanFault>
    ensures reads { MatchesReading result (sections.read_change_time index (table_view table.now)) }
    ensures bounded { IfOk result (λ t. t < END_OF_TIME) }
    ensures takes_no_memory { IfErr result (λ e. ¬ (e ≡ NoMemory)) }
{
    if !has_change_keys(table) {
        return Err(PlanFault::UnknownKey(Section::Change, index));
    }
    let row = InstanceTable {
        table,
        section: Section::Change,
        index,
    };
    row.read_required(Field::At, &TIME)
}

/// Returns the first item of a section; `None` without items. A plan has at most one schedule change. `read_change` calls it.
fn first_item(items: &[Value]) -> Option<&Value>
    ensures { option_map (λ v. view v.now) result ≡ doc.first_item (items_view items.now) }
{
    match items.split_first() {
        Some((first, _)) => Some(first),
        None => None,
    }
}

/// Reads the time of the schedule change from an item. `None` if there is no item, or it isn't a table. If the change is refused, returns
/// its fault. `read_change` calls it.
fn item_change(value: Option<&Value>) -> Result<Option<u64>, PlanFault>
    ensures reads { MatchesReading result (doc.item_change (option_map (λ v. view v.now) value.entry)) }
    ensures bounded { IfOk result rules.IsChangeInTime }
    ensures takes_no_memory { IfErr result (λ e. ¬ (e ≡ NoMemory)) }
{
    match value {
        Some(Value::Table(table)) => match read_change_time(1, table) {
            Ok(moment) => Ok(Some(moment)),
            Err(fault) => Err(fault),
        },
        _ => Ok(None),
    }
}

/// Reads the time in ns of the plan's schedule change; `None` if the plan has no change. Allocates no memory. If the change is refused,
/// returns its fault. `read_plan` calls it.
#[tactic(auto, unfolding(crate::specs::Document::read_change))]
pub(crate) fn read_change(items: &[Value]) -> Result<Option<u64>, PlanFault>
    ensures reads { MatchesReading result (doc.read_change (items_view items.now)) }
    ensures bounded { IfOk result rules.IsChangeInTime }
    ensures takes_no_memory { IfErr result (λ e. ¬ (e ≡ NoMemory)) }
{
    item_change(first_item(items))
}
