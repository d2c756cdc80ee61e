//! Reads the section `filter` of a plan: stream filters.
ghost use Rattle.std.specs.Prelude.{◌≡◌, ◌≤◌, IfOk, false, true, length};
ghost use Rattle.std.specs.Option.{ForSome};
ghost use Rattle.toml.specs.View.{table_view, items_view};
ghost use Rattle.bridge_filter.specs.Plans.{has_instances};
ghost use Rattle.bridge_schema.specs.Readers.{MatchesReading, MatchesReadingView, instances};
ghost use Rattle.bridge_config.specs.Sections as sections;
ghost use Rattle.bridge_config.specs.Rules as rules;

use crate::first_fault::FirstFault;
use crate::numbers::{InstanceNumbers, optional_u8, optional_u32};
use bridge_filter::FilterPlan;
use bridge_gate::GatePlan;
use bridge_meter::MeterPlan;
use bridge_schema::{
    FILTER_KEYS, Field, InstanceTable, KnownNumber, MAX_SDU, NUMBER, NumberLookup, PRIORITY,
    PlanFault, Section, SectionReader, Switch, has_allowed_keys, read_instances,
};
use std::alloc::Allocator;
use toml::{Table, Value};

/// Whether a `[[filter]]` table has only keys of a filter; otherwise its fault is `UnknownKey`. `read_filter_by_lookup` calls it.
fn has_filter_keys(table: &Table) -> bool
    ensures { result ≡ sections.has_filter_keys (table_view table.now) }
{
    has_allowed_keys(table, &FILTER_KEYS, false)
}

/// Reads a filter and its number, which must not be in `filters`. Its gate must be in `gates`, its optional meter in `meters`.
/// `read_filter` passes the plan's instances.
///
/// If the filter is refused, returns its fault.
fn read_filter_by_lookup<G: NumberLookup + Copy, M: NumberLookup + Copy, F: NumberLookup + Copy>(
    gates: G,
    meters: M,
    filters: F,
    index: u32,
    table: &Table,
) -> Result<(u32, FilterPlan), PlanFault>
    ensures reads { MatchesReading result (sections.read_filter_by_lookup (G.among gates) (M.among meters)
        (F.among filters) index
        (table_view table.now)) }
    ensures own { IfOk result (λ f. F.among filters f.0 ≡ false) }
    ensures filter { IfOk result (λ f. rules.IsFilter f) }
    ensures gate { IfOk result (λ f. G.among gates f.1.gate ≡ true) }
    ensures meter { IfOk result (λ f. ForSome f.1.meter (λ n. M.among meters n ≡ true)) }
{
    let row = InstanceTable {
        table,
        section: Section::Filter,
        index,
    };
    let unknown = PlanFault::UnknownKey(Section::Filter, index);
    let mut first = FirstFault::begin(has_filter_keys(table), unknown);
    let number = first.read_required(row, Field::Number, &NUMBER, 0);
    let handle = first.read_optional(row, Field::Handle, &NUMBER);
    let priority = first.read_optional(row, Field::Priority, &PRIORITY);
    let known_gates = KnownNumber {
        among: gates,
        range: NUMBER,
    };
    let gate = first.read_required(row, Field::Gate, &known_gates, 0);
    let max_sdu = first.read_optional(row, Field::MaxSdu, &MAX_SDU);
    let known_meters = KnownNumber {
        among: meters,
        range: NUMBER,
    };
    let meter = first.read_optional(row, Field::Meter, &known_meters);
    let block_oversize = first.read_or_default(row, Field::BlockOversize, &Switch, false);
    let protected = first.read_or_default(row, Field::Protected, &Switch, false);
    let group = first.read_optional(row, Field::Group, &NUMBER);
    first.expect(
        !filters.has(number),
        PlanFault::Duplicate(Section::Filter, index),
    );
    let plan = FilterPlan {
        handle: optional_u32(handle),
        priority: optional_u8(priority),
        gate: gate as u32,
        max_sdu: optional_u32(max_sdu),
        meter: optional_u32(meter),
        block_oversize,
        protected,
        group: optional_u32(group),
    };
    first.finish((number as u32, plan))
}

/// Reads a filter and its number. `gates` and `meters` are all stream gates and meters of the plan. `filters` are the earlier filters; none
/// may have this number.
///
/// If the filter is refused, returns its fault. `FilterSection::read` calls it.
fn read_filter<A: Allocator + Copy>(
    gates: &[(u32, GatePlan<A>)],
    meters: &[(u32, MeterPlan)],
    filters: &[(u32, FilterPlan)],
    index: u32,
    table: &Table,
) -> Result<(u32, FilterPlan), PlanFault>
    ensures reads { MatchesReading result (sections.read_filter gates.now meters.now filters.now index
        (table_view table.now)) }
    ensures own { IfOk result (λ f. sections.has_number filters.now f.0 ≡ false) }
    ensures filter { IfOk result (λ f. rules.IsFilter f) }
    ensures instances { IfOk result (λ f. has_instances gates.now meters.now f.1 ≡ true) }
{
    let gates = InstanceNumbers { instances: gates };
    let meters = InstanceNumbers { instances: meters };
    let filters = InstanceNumbers { instances: filters };
    read_filter_by_lookup(gates, meters, filters, index, table)
}

/// Reads the section of filters. A filter may name only these stream gates and meters.
#[derive(Clone, Copy)]
struct FilterSection<'a, A: Allocator + Copy> {
    /// Stream gates that were read before.
    gates: &'a [(u32, GatePlan<A>)],
    /// Meters that were read before.
    meters: &'a [(u32, MeterPlan)],
}

impl<'a, A: Allocator + Copy> SectionReader<A> for FilterSection<'a, A> {
    type Fault = PlanFault;

    type Instance = (u32, FilterPlan);

    ghost reading = { λ s. sections.read_filter s.gates.now s.meters.now };

    ghost Keeps = { λ s. rules.AreFilters s.gates.now s.meters.now };

    #[tactic(auto, using(crate::proofs::Own::filters_push))]
    fn read(
        &self,
        _alloc: A,
        earlier: &[(u32, FilterPlan)],
        index: u32,
        table: &Table,
    ) -> Result<(u32, FilterPlan), PlanFault> {
        read_filter(self.gates, self.meters, earlier, index, table)
    }
}

/// Reads the plan's filters, or returns the first fault. `gates` and `meters` were read before, because filters name them. `read_policing`
/// calls it.
pub(crate) fn read_filters<A: Allocator + Copy>(
    alloc: A,
    gates: &[(u32, GatePlan<A>)],
    meters: &[(u32, MeterPlan)],
    items: &[Value],
) -> Result<Vec<(u32, FilterPlan), A>, PlanFault>
    requires { length items.now ≤ 1024 }
    ensures reads { MatchesReadingView (λ v. v.items) result
        (instances (sections.read_filter gates.now meters.now) (items_view items.now)) }
    ensures keeps { IfOk result (λ v. rules.AreFilters gates.now meters.now v.items) }
    ensures few { IfOk result (λ v. length v.items ≤ 1024) }
{
    read_instances(alloc, &FilterSection { gates, meters }, items)
}
