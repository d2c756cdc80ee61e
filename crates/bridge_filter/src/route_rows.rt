//! Makes the rows by which a frame's filter is found.

ghost use Rattle.std.specs.Prelude.{◌≡◌, ℕ, ◌<◌, List, IfOk, OnOk, Some, is_none, length, slice_get, if◌then◌else◌};
ghost use Rattle.std.specs.Map.{keys_of};
ghost use Rattle.bridge_filter.specs.Routes as finding;
ghost use Rattle.bridge_filter.specs.Steps.{filter_plans, HaveGates, HaveMeters};

use crate::FilterPlan;
use crate::filter_state::FilterState;
use crate::gates_and_meters::ByNumber;
use crate::route::{HandleRows, PriorityRow, Route, find_row, is_priority_match, plan_and_route};
use bridge_gate::StreamGate;
use bridge_meter::Meter;
use indexmap::IndexMap;
use std::alloc::{AllocError, Allocator};

/// Makes the list of the routes of all filters, in their order. Rows refer to its routes by index. `Police::new` calls it before
/// `default_row`.
pub(crate) fn make_routes<A: Allocator + Copy>(
    alloc: A,
    filters: &ByNumber<FilterState, A>,
    gates: &ByNumber<StreamGate<A>, A>,
    meters: &ByNumber<Meter, A>,
) -> Result<Vec<Route, A>, AllocError>
    requires gates { HaveGates filters.now.entries gates.now.entries }
    requires meters { HaveMeters filters.now.entries meters.now.entries }
    ensures { IfOk result (λ r. finding.AreRoutes r.items (filter_plans filters.now.entries)
        (keys_of gates.now.entries) (keys_of meters.now.entries)) }
{
    let mut routes = Vec::with_capacity(alloc, filters.len())?;
    for place in 0..filters.len() {
        let (_, route) = plan_and_route(filters, gates, meters, place);
        routes.push(route)?;
    }
    Ok(routes)
}

/// Returns the plan of the filter at index `place`, and its route in the list of all routes. `default_row` and `handle_rows` call it for
/// each filter.
fn listed_route<A: Allocator + Copy>(
    filters: &ByNumber<FilterState, A>,
    routes: &[Route],
    place: usize,
) -> (FilterPlan, Route)
    requires within { place < length filters.now.entries }
    requires routes { length routes.now ≡ length filters.now.entries }
    ensures plan { (gates meters : List ℕ)
        → finding.AreRoutes routes.now (filter_plans filters.now.entries) gates meters
        → slice_get (filter_plans filters.now.entries) place ≡ Some (result.1.number, result.0) }
    ensures route { slice_get routes.now place ≡ Some result.1 }
{
    let Some((_, filter)) = filters.get_index(place) else {
        unreachable!()
    };
    let Some(route) = routes.get(place) else {
        unreachable!()
    };
    (filter.plan, *route)
}

/// Returns the index of the route with the lower filter number: `place`, where `route` is, or `slot`, which may have no route.
/// `add_to_slot` calls it.
fn lesser_index(routes: &[Route], slot: usize, route: Route, place: usize) -> usize
    requires { slice_get routes.now place ≡ Some route }
    ensures { slice_get routes.now result ≡ finding.lesser_route route (slice_get routes.now slot) }
{
    match routes.get(slot) {
        Some(other) if other.number < route.number => slot,
        _ => place,
    }
}

/// Returns the index of the lesser route of `slot` and `place` if the filter accepts `priority`, otherwise `slot`. `asked` is the filter's
/// priority; `None` accepts all. `route` is at `place`. `add_to_row` calls it.
fn add_to_slot(
    routes: &[Route],
    slot: usize,
    asked: Option<u8>,
    route: Route,
    place: usize,
    priority: u8,
) -> usize
    requires { slice_get routes.now place ≡ Some route }
    ensures { slice_get routes.now result
        ≡ finding.add_to_slot (slice_get routes.now slot) asked route priority }
{
    if is_priority_match(asked, priority) {
        lesser_index(routes, slot, route, place)
    } else {
        slot
    }
}

/// Enters the index `place` of a filter's route at each priority that the filter accepts, unless a filter with a lower number is there.
/// `asked` is the filter's priority; `None` accepts all.
///
/// `add_to_default_row` and `add_to_handle_row` call it.
fn add_to_row(
    row: &mut PriorityRow,
    routes: &[Route],
    asked: Option<u8>,
    route: Route,
    place: usize,
)
    requires { slice_get routes.now place ≡ Some route }
    ensures { (k : ℕ) → k < 8
        → finding.slot (finding.read_row routes.now row.new) k
        ≡ finding.add_to_slot (finding.slot (finding.read_row routes.now row.old) k) asked route k }
{
    for k in 0..8usize {
        row[k] = add_to_slot(routes, row[k], asked, route, place, k as u8);
    }
}

/// Enters the route of a filter without handle in the default row. Ignores a filter with a handle. `default_row` calls it for each filter.
fn add_to_default_row(
    any: &mut PriorityRow,
    routes: &[Route],
    plan: &FilterPlan,
    route: Route,
    place: usize,
)
    requires { slice_get routes.now place ≡ Some route }
    ensures { (k : ℕ) → k < 8
        → finding.slot (finding.read_row routes.now any.new) k
        ≡ (if is_none plan.now.handle
        then finding.add_to_slot (finding.slot (finding.read_row routes.now any.old) k) plan.now.priority route k
        else finding.slot (finding.read_row routes.now any.old) k) }
{
    if plan.handle.is_none() {
        add_to_row(any, routes, plan.priority, route, place);
    }
}

/// Makes the default row, for frames without a handle and for handles that no filter has. `Police::new` calls it before `handle_rows`.
pub(crate) fn default_row<A: Allocator + Copy>(
    filters: &ByNumber<FilterState, A>,
    routes: &[Route],
) -> PriorityRow
    requires { length routes.now ≡ length filters.now.entries }
    ensures numbers { (gates meters : List ℕ)
        → finding.AreRoutes routes.now (filter_plans filters.now.entries) gates meters
        → finding.IsDefaultRow (finding.read_row routes.now result) (filter_plans filters.now.entries) }
    ensures routes { (gates meters : List ℕ)
        → finding.AreRoutes routes.now (filter_plans filters.now.entries) gates meters
        → finding.HasRoutes (finding.read_row routes.now result) (filter_plans filters.now.entries) gates meters }
{
    let mut any = [routes.len(); 8];
    for place in 0..filters.len() {
        let (plan, route) = listed_route(filters, routes, place);
        add_to_default_row(&mut any, routes, &plan, route, place);
    }
    any
}

/// Enters the route of a filter with a handle in the row of this handle. A new row starts as a copy of the default row. Does nothing for a
/// filter without handle.
///
/// `handle_rows` calls it for each filter.
fn add_to_handle_row<A: Allocator + Copy>(
    rows: &mut HandleRows<A>,
    routes: &[Route],
    any: &PriorityRow,
    plan: &FilterPlan,
    route: Route,
    place: usize,
) -> Result<(), AllocError>
    requires { slice_get routes.now place ≡ Some route }
    ensures { OnOk result ((h k : ℕ) → k < 8
        → finding.slot (finding.read_row routes.now (finding.find_row rows.new.entries any.now (Some h))) k
        ≡ (if finding.is_named_handle h plan.now.handle then finding.add_to_slot
        (finding.slot (finding.read_row routes.now (finding.find_row rows.old.entries any.now (Some h))) k)
        plan.now.priority route k
        else finding.slot (finding.read_row routes.now (finding.find_row rows.old.entries any.now (Some h))) k)) }
{
    if let Some(handle) = plan.handle {
        let mut row = *find_row(rows, any, Some(handle));
        add_to_row(&mut row, routes, plan.priority, route, place);
        rows.insert(handle, row)?;
    }
    Ok(())
}

/// Makes one row for each handle that a filter names: by priority, the route of the matching filter with the lowest number. A row starts as
/// a copy of the default row `any`.
///
/// `Police::new` calls it.
pub(crate) fn handle_rows<A: Allocator + Copy>(
    alloc: A,
    filters: &ByNumber<FilterState, A>,
    routes: &[Route],
    any: &PriorityRow,
) -> Result<HandleRows<A>, AllocError>
    requires { length routes.now ≡ length filters.now.entries }
    ensures numbers { IfOk result (λ m. (gates meters : List ℕ)
        → finding.AreRoutes routes.now (filter_plans filters.now.entries) gates meters
        → finding.AreHandleRows (finding.read_rows routes.now m.entries) (finding.read_row routes.now any.now)
        (filter_plans filters.now.entries)) }
    ensures routes { IfOk result (λ m. (gates meters : List ℕ)
        → finding.AreRoutes routes.now (filter_plans filters.now.entries) gates meters
        → finding.HasRoutes (finding.read_row routes.now any.now) (filter_plans filters.now.entries) gates meters
        → finding.HaveRoutes (finding.read_rows routes.now m.entries) (finding.read_row routes.now any.now)
        (filter_plans filters.now.entries) gates meters) }
{
    let mut rows = IndexMap::with_capacity(alloc, filters.len())?;
    for place in 0..filters.len() {
        let (plan, route) = listed_route(filters, routes, place);
        add_to_handle_row(&mut rows, routes, any, &plan, route, place)?;
    }
    Ok(rows)
}
