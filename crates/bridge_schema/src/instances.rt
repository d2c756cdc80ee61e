//! Reads the instances of a section, table by table.
ghost use Rattle.std.specs.Prelude.{◌<◌, ◌≤◌, ◌^◌, ℕ, List, [], ◌∷◌, ◌++◌, length, Result, IfOk};
ghost use Rattle.toml.specs.Data.{Members};
ghost use Rattle.toml.specs.View.{table_view, items_view};
ghost use Rattle.bridge_schema.specs.Reading as spec;

use crate::reader_fault::ReaderFault;
use std::alloc::Allocator;
use toml::{Table, Value};

/// Reads the tables of one section into instances, such as ports or filters. `read_instances` calls it for each table.
pub trait SectionReader<A: Allocator + Copy> {
    /// Faults of this kind of text, such as a plan.
    type Fault: ReaderFault;

    /// Instance that a table describes, such as a port.
    type Instance;

    /// Instance that a table describes, from the earlier instances, its index and its table; or the table's first fault.
    ghost reading: { Self → List Self.Instance → ℕ → Members → Result Self.Instance Self.Fault };

    /// Property of the list of instances read so far, such as different numbers. Each further instance keeps it.
    ghost Keeps: { Self → List Self.Instance → Type 0 };

    /// Reads the instance that `table` describes. `earlier` are the instances before it; `index` is its index in the section, from 1.
    fn read(
        &self,
        alloc: A,
        earlier: &[Self::Instance],
        index: u32,
        table: &Table,
    ) -> Result<Self::Instance, Self::Fault>
        requires keeps { Keeps self.now earlier.now }
        ensures reads { spec.Gives Self.Fault.is_memory result (reading self.now earlier.now index
            (table_view table.now)) }
        ensures keeps { IfOk result (λ x. Keeps self.now (earlier.now ++ x ∷ [])) };
}

/// Reads the instances of a section in order, one from each table, or returns the first fault. `Keeps` must hold for the empty list.
/// `commands_of` of `bridge_config`, `read_sections` of `net_file` and 4 more call it.
pub fn read_instances<A: Allocator + Copy, S: SectionReader<A>>(
    alloc: A,
    section: &S,
    items: &[Value],
) -> Result<Vec<S::Instance, A>, S::Fault>
where
    S::Instance: Drop,
    requires few { length items.now < 2 ^ 20 }
    requires keeps { S.Keeps section.now [] }
    ensures reads { spec.GivesAs S.Fault.is_memory (λ v. v.items) result
        (spec.instances (S.reading section.now) (items_view items.now)) }
    ensures keeps { IfOk result (λ v. S.Keeps section.now v.items) }
    ensures few { IfOk result (λ v. length v.items ≤ length items.now) }
{
    let mut made = Vec::new(alloc);
    let mut index: u32 = 1;
    'items: for item in items {
        if let Some(table) = item.as_table() {
            let instance = match section.read(alloc, &made, index, table) {
                Ok(instance) => instance,
                Err(fault) => return Err(fault),
            };
            let Ok(()) = made.push(instance) else {
                return Err(S::Fault::no_memory());
            };
        }
        index += 1;
    }
    Ok(made)
}
