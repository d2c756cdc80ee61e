//! Reads the entries of a list inside an instance, table by table.
ghost use Rattle.std.specs.Prelude.{◌≡◌, All, IfErr, IfOk, Result, option_map};
ghost use Rattle.std.specs.Option.{ForSome};
ghost use Rattle.toml.specs.Data.{Members};
ghost use Rattle.toml.specs.View.{view, table_view, items_view};
ghost use Rattle.bridge_schema.specs.declared.plan_fault.PlanFault.{PlanFault as Fault};
ghost use Rattle.bridge_schema.specs.declared.plan_fault.PlanFault.TheVariants.{NoMemory};
ghost use Rattle.bridge_schema.specs.Readers as spec;
ghost use Rattle.bridge_schema.specs.Readers.{MatchesReading, MatchesReadingView};

use crate::arrays::are_tables;
use crate::plan_fault::{KeyLocation, PlanFault};
use std::alloc::Allocator;
use toml::{Table, Value};

/// Reads one entry of a list inside an instance, such as an entry of a gate control list. `read_list` calls it.
pub trait ListEntry {
    /// Value that an entry's table describes.
    type Out;

    /// Value that a table describes, or the table's first fault.
    ghost reading: { Self → Members → Result Self.Out Fault };

    /// Property that each value has.
    ghost Fits: { Self → Self.Out → Type 0 };

    /// Reads the table of one entry, or returns its first fault. Allocates no memory. `read_entries` calls it for each entry of a list.
    fn read(&self, table: &Table) -> Result<Self::Out, PlanFault>
        ensures reads { MatchesReading result (reading self.now (table_view table.now)) }
        ensures fits { IfOk result (Fits self.now) }
        ensures takes_no_memory { IfErr result (λ e. ¬ (e ≡ NoMemory)) };
}

/// Reads the tables of an array in order, or returns the first fault. `read_list` has tested that all items are tables.
fn read_entries<A: Allocator + Copy, E: ListEntry>(
    alloc: A,
    entry: &E,
    items: &[Value],
) -> Result<Vec<E::Out, A>, PlanFault>
where
    E::Out: Drop,
    ensures reads { MatchesReadingView (λ v. v.items) result
        (spec.read_entries (E.reading entry.now) (items_view items.now)) }
    ensures fits { IfOk result (λ v. All (E.Fits entry.now) v.items) }
{
    let mut list = Vec::new(alloc);
    'items: for item in items {
        if let Some(table) = item.as_table() {
            let made = entry.read(table)?;
            list.push(made)?;
        }
    }
    Ok(list)
}

/// Reads the entries of the array of tables `value` in order, or returns the first fault. If the key is absent, `value` and the result are
/// `None`.
///
/// Faults of the array itself name its key, `place`. `read_list_parts` of `bridge_config` calls it.
#[tactic(auto, unfolding(crate::specs::Readers::read_list))]
pub fn read_list<A: Allocator + Copy, E: ListEntry>(
    alloc: A,
    place: KeyLocation,
    entry: &E,
    value: Option<&Value>,
) -> Result<Option<Vec<E::Out, A>>, PlanFault>
where
    E::Out: Drop,
    ensures reads { MatchesReadingView (λ x. option_map (λ v. v.items) x) result
        (spec.read_optional_list place (E.reading entry.now) (option_map (λ v. view v.now) value.entry)) }
    ensures fits { IfOk result (λ x. ForSome x (λ v. All (E.Fits entry.now) v.items)) }
{
    match value {
        None => Ok(None),
        Some(Value::Array(items)) => {
            if !are_tables(items) {
                return Err(PlanFault::WrongKind(place));
            }
            let list = read_entries(alloc, entry, items)?;
            Ok(Some(list))
        }
        Some(_) => Err(PlanFault::WrongKind(place)),
    }
}
