//! Gate control lists of ports and stream gates, as read from the tables of a plan.
ghost use Rattle.std.specs.Prelude.{◌≡◌, ◌<◌, All, IfOk, option_map};
ghost use Rattle.std.specs.Option.{ForSome};
ghost use Rattle.toml.specs.View.{table_view};
ghost use Rattle.bridge_cycle.specs.Cyclic.{IsLawful};
ghost use Rattle.bridge_schema.specs.Readers.{MatchesReading, MatchesReadingView};
ghost use Rattle.bridge_config.specs.Lists.{list_parts_view};
ghost use Rattle.bridge_config.specs.Sections as sections;

use bridge_cycle::{CyclicList, ListFault};
use bridge_limits::END_OF_TIME;
use bridge_schema::{
    InstanceTable, LENGTH, ListEntry, ListKeys, PlanFault, Section, TIME, get_value, read_list,
};
use std::alloc::Allocator;
use toml::Table;

/// Parts of a gate control list as read from a table, before rules of lists are tested.
#[derive(Drop)]
pub(crate) struct ListParts<X, A: Allocator + Copy> {
    /// Base time in ns.
    pub base: u64,
    /// Cycle time in ns.
    pub cycle: u64,
    /// Entries; `None` if the table has no list.
    pub entries: Option<Vec<X, A>>,
}

/// Reads the parts of a list from three keys of a table. `entry` reads each entry, of a port's list or of a stream gate's list. If a part
/// is refused, returns its fault.
///
/// `read_gate_parts` and `read_port_parts` call it.
#[tactic(auto, unfolding(crate::specs::Sections::read_list_parts))]
pub(crate) fn read_list_parts<A: Allocator + Copy, E: ListEntry>(
    alloc: A,
    section: Section,
    index: u32,
    keys: ListKeys,
    entry: &E,
    table: &Table,
) -> Result<ListParts<E::Out, A>, PlanFault>
where
    E::Out: Drop,
    ensures reads { MatchesReadingView list_parts_view result
        (sections.read_list_parts section index keys.base keys.cycle keys.entries
        (E.reading entry.now) (table_view table.now)) }
    ensures base { IfOk result (λ p. p.base < END_OF_TIME) }
    ensures entries { IfOk result (λ p. ForSome p.entries (λ v. All (E.Fits entry.now) v.items)) }
{
    let row = InstanceTable {
        table,
        section,
        index,
    };
    let base = row.read_or_default(0, keys.base, &TIME)?;
    let cycle = row.read_required_if_present(keys.entries, 0, keys.cycle, &LENGTH)?;
    let entries = read_list(
        alloc,
        row.locate_key(keys.entries),
        entry,
        get_value(table, keys.entries.key()),
    )?;
    Ok(ListParts {
        base,
        cycle,
        entries,
    })
}

/// Makes a gate control list from its parts; `None` without entries. If the parts break a rule of lists, the fault is `BadList`.
/// `read_gate_lists` and `read_port_lists` call it.
pub(crate) fn optional_list<S: Copy, A: Allocator + Copy>(
    alloc: A,
    section: Section,
    index: u32,
    parts: ListParts<(S, u64), A>,
) -> Result<Option<CyclicList<S, A>>, PlanFault>
    requires { parts.base < END_OF_TIME }
    ensures reads { MatchesReading result (sections.optional_list section index (list_parts_view parts)) }
    ensures lawful { IfOk result (λ l. ForSome l IsLawful) }
    ensures entries { IfOk result (λ l. option_map (λ c. c.entries) l ≡ option_map (λ v. v.items) parts.entries) }
{
    let ListParts {
        base,
        cycle,
        entries,
    } = parts;
    match entries {
        None => Ok(None),
        Some(entries) => match CyclicList::new(alloc, base, cycle, entries) {
            Ok(list) => Ok(Some(list)),
            Err(ListFault::NoMemory) => Err(PlanFault::NoMemory),
            Err(fault) => Err(PlanFault::BadList(section, index, fault)),
        },
    }
}
