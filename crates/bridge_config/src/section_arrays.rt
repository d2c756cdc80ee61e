//! Sections of a document, as arrays of tables.
ghost use Rattle.std.specs.Prelude.{◌≡◌, ◌≤◌, IfOk, length, true};
ghost use Rattle.toml.specs.Data.{no_items};
ghost use Rattle.toml.specs.View.{table_view, items_view};
ghost use Rattle.bridge_schema.specs.Keys.{limit_of};
ghost use Rattle.bridge_schema.specs.Readers as spec;
ghost use Rattle.bridge_schema.specs.Readers.{MatchesReadingView};
ghost use Rattle.bridge_config.specs.Document as doc;
ghost use Rattle.bridge_config.specs.Arrays.{array_items, AreWithinLimits};
ghost use Rattle.bridge_config.specs.FirstFaults.{TakesRead};

use crate::first_fault::FirstFault;
use bridge_schema::{PLAN_SECTIONS, PlanFault, Section, has_only, is_empty, section_items};
use toml::{Table, Value};

/// Tables of each section of a plan, within the section's limit. An absent section has no tables.
#[derive(Clone, Copy)]
pub(crate) struct SectionArrays<'a> {
    /// Tables of the schedule change, at most one.
    pub changes: &'a [Value],
    /// Tables of the ports, 1 to 16.
    pub ports: &'a [Value],
    /// Tables of the VLANs.
    pub vlans: &'a [Value],
    /// Tables of the static filtering entries.
    pub statics: &'a [Value],
    /// Tables of the stream identifications.
    pub streams: &'a [Value],
    /// Tables of the stream gates.
    pub gates: &'a [Value],
    /// Tables of the flow meters.
    pub meters: &'a [Value],
    /// Tables of the stream filters.
    pub filters: &'a [Value],
}

/// Reads the items of a section. If that fails, stores the fault and returns no items. `read_arrays` calls it for each section.
fn take_section_items<'a>(first: &mut FirstFault, section: Section, table: &'a Table) -> &'a [Value]
    ensures takes { TakesRead first.old no_items (doc.section_items section (table_view table.now)) first.new
        (items_view result.now) }
    ensures few { length result.now ≤ limit_of section }
    ensures tables { spec.are_tables (items_view result.now) ≡ true }
{
    first.value_or(section_items(section, table), &[])
}

/// Reads the tables of all sections of a plan, or returns the first fault of a section. Allocates no memory. `plan_of` then reads the
/// instances from them.
pub(crate) fn read_arrays<'a>(table: &'a Table) -> Result<SectionArrays<'a>, PlanFault>
    ensures reads { MatchesReadingView array_items result (doc.read_arrays (table_view table.now)) }
    ensures few { IfOk result AreWithinLimits }
{
    let unknown = PlanFault::UnknownKey(Section::Top, 0);
    let mut first = FirstFault::begin(has_only(table, &PLAN_SECTIONS), unknown);
    let changes = take_section_items(&mut first, Section::Change, table);
    let ports = take_section_items(&mut first, Section::Port, table);
    first.expect(!is_empty(ports), PlanFault::NoPorts);
    let vlans = take_section_items(&mut first, Section::Vlan, table);
    let statics = take_section_items(&mut first, Section::Static, table);
    let streams = take_section_items(&mut first, Section::Stream, table);
    let gates = take_section_items(&mut first, Section::Gate, table);
    let meters = take_section_items(&mut first, Section::Meter, table);
    let filters = take_section_items(&mut first, Section::Filter, table);
    first.finish(SectionArrays {
        changes,
        ports,
        vlans,
        statics,
        streams,
        gates,
        meters,
        filters,
    })
}
