//! Routes: the filter of a frame, found without reading the other filters.

ghost use Rattle.std.specs.Prelude.{◌≡◌, ℕ, ◌<◌, Bool, Some, IsSome, IfSome, ◌&&◌, nat_eq, length, slice_get, if◌then◌else◌};
ghost use Rattle.std.specs.Option.{option_map};
ghost use Rattle.bridge_filter.specs.Routes as finding;
ghost use Rattle.std.specs.Map.{keys_of, lookup};
ghost use Rattle.bridge_filter.specs.Steps.{filter_plans, HasMeter, HaveGates, HaveMeters};
ghost use Rattle.bridge_filter.specs.Verdicts as verdicts;

use crate::FilterPlan;
use crate::filter_state::FilterState;
use crate::gates_and_meters::ByNumber;
use bridge_gate::StreamGate;
use bridge_meter::Meter;
use std::alloc::Allocator;

/// Filter of a frame: its number, its index, and the indexes of its gate and meter.
#[derive(Clone, Copy)]
pub struct Route {
    /// Number of the filter.
    pub number: u32,
    /// Index of the filter in the order that `Police::new` got.
    pub filter: usize,
    /// Index of the filter's stream gate.
    pub(crate) gate: usize,
    /// Index of the filter's meter; `None` without a meter.
    pub(crate) meter: Option<usize>,
}

/// Indexes of routes in the list of all routes, by a frame's priority, from 0; past the list's end if no filter matches. Rows of 64
/// octets stay in the cache.
pub(crate) type PriorityRow = [usize; 8];

/// For each stream handle that a filter names, the row of its frames.
pub(crate) type HandleRows<A> = ByNumber<PriorityRow, A>;

/// Returns the route with the lower filter number, `route` if the numbers are equal. Of the filters that match a frame, the one with the
/// lowest number judges it. `lesser_match` calls it.
pub(crate) fn lesser_route(route: Route, other: Option<Route>) -> Option<Route>
    ensures { result ≡ finding.lesser_route route other }
{
    match other {
        Some(other) if other.number < route.number => Some(other),
        _ => Some(route),
    }
}

/// Whether a filter with the handle `asked`, or with `None` for any, accepts a frame with `handle`. `lesser_match` and `matching_filter` of
/// `net_model` call it.
pub fn is_handle_match(asked: Option<u32>, handle: Option<u32>) -> bool
    ensures { result ≡ verdicts.is_handle_match asked handle }
{
    match (asked, handle) {
        (None, _) => true,
        (Some(_), None) => false,
        (Some(asked), Some(handle)) => asked == handle,
    }
}

/// Whether a filter with the priority `asked`, or with `None` for any, accepts a frame with `priority`. `lesser_match` and `add_to_slot`,
/// and `matching_filter` of `net_model` call it.
pub fn is_priority_match(asked: Option<u8>, priority: u8) -> bool
    ensures { result ≡ verdicts.is_priority_match asked priority }
{
    match asked {
        None => true,
        Some(asked) => asked == priority,
    }
}

/// Returns the row of `handle` if it is at the guessed index, otherwise `None`. The guess saves a hash; it succeeds if handles of
/// consecutive filters are consecutive. `find_row` calls it.
#[inline(always)]
fn row_by_guess<'a, A: Allocator + Copy>(
    rows: &'a HandleRows<A>,
    handle: u32,
) -> Option<&'a PriorityRow>
    ensures { IfSome result (λ row. lookup (nat_eq handle) rows.now.entries ≡ Some row.now) }
{
    let _rows = rows.len();
    let (first, _) = rows.get_index(0)?;
    match rows.get_index(handle.saturating_sub(*first) as usize) {
        Some((own, row)) if *own == handle => Some(row),
        _ => None,
    }
}

/// Returns the row of `handle` by its hash; if the handle has no row, the default row `any`. `find_row` calls it after a wrong guess.
#[inline(never)]
fn row_by_hash<'a, A: Allocator + Copy>(
    rows: &'a HandleRows<A>,
    any: &'a PriorityRow,
    handle: u32,
) -> &'a PriorityRow
    ensures { result.now ≡ finding.find_row rows.now.entries any.now (Some handle) }
{
    match rows.get(&handle) {
        Some(row) => row,
        None => any,
    }
}

/// Returns the row of `handle`. Without a handle, or if the handle has no row, returns the default row `any`. `look_up_route` and
/// `add_to_handle_row` call it.
#[inline(always)]
pub(crate) fn find_row<'a, A: Allocator + Copy>(
    rows: &'a HandleRows<A>,
    any: &'a PriorityRow,
    handle: Option<u32>,
) -> &'a PriorityRow
    ensures { result.now ≡ finding.find_row rows.now.entries any.now handle }
{
    match handle {
        None => any,
        Some(handle) => match row_by_guess(rows, handle) {
            Some(row) => row,
            None => row_by_hash(rows, any, handle),
        },
    }
}

/// Returns the route of frames with this priority in their row; `None` if no filter matches. `look_up_route` calls it.
#[inline(always)]
fn route_in_row(routes: &[Route], row: &PriorityRow, priority: u8) -> Option<Route>
    requires { priority < 8 }
    ensures { result ≡ finding.slot (finding.read_row routes.now row.now) priority }
{
    match routes.get(row[priority as usize]) {
        Some(route) => Some(*route),
        None => None,
    }
}

/// Returns the index of the stream gate or meter `number`, which must exist. Routes store it, so that a frame needs no look-up.
/// `plan_and_route` and `optional_index` call it.
fn instance_index<T, A: Allocator + Copy>(instances: &ByNumber<T, A>, number: u32) -> usize
    requires { IsSome (lookup (nat_eq number) instances.now.entries) }
    ensures { slice_get (keys_of instances.now.entries) result ≡ Some number }
{
    match instances.get_index_of(&number) {
        Some(place) => place,
        None => unreachable!(),
    }
}

/// Returns the index of the meter `number`, which must exist; `None` without a number. `plan_and_route` calls it.
fn optional_index<T, A: Allocator + Copy>(
    instances: &ByNumber<T, A>,
    number: Option<u32>,
) -> Option<usize>
    requires { HasMeter number instances.now.entries }
    ensures { finding.IsOptionalIndex (keys_of instances.now.entries) number result }
{
    match number {
        Some(number) => Some(instance_index(instances, number)),
        None => None,
    }
}

/// Returns the plan of the filter at index `place`, and the route of its frames. `make_routes` and `search_route` call it for each filter.
pub(crate) fn plan_and_route<A: Allocator + Copy>(
    filters: &ByNumber<FilterState, A>,
    gates: &ByNumber<StreamGate<A>, A>,
    meters: &ByNumber<Meter, A>,
    place: usize,
) -> (FilterPlan, Route)
    requires within { place < length filters.now.entries }
    requires gates { HaveGates filters.now.entries gates.now.entries }
    requires meters { HaveMeters filters.now.entries meters.now.entries }
    ensures plan { slice_get (filter_plans filters.now.entries) place ≡ Some (result.1.number, result.0) }
    ensures place { result.1.filter ≡ place }
    ensures route { finding.IsRoute (filter_plans filters.now.entries) (keys_of gates.now.entries)
        (keys_of meters.now.entries) result.1 }
{
    let Some((number, filter)) = filters.get_index(place) else {
        unreachable!()
    };
    let plan = filter.plan;
    let route = Route {
        number: *number,
        filter: place,
        gate: instance_index(gates, plan.gate),
        meter: optional_index(meters, plan.meter),
    };
    (plan, route)
}

/// Returns the lesser of `least` and `route` if a filter with the settings `plan` matches the frame; otherwise `least`. `search_route`
/// calls it for each filter.
fn lesser_match(
    least: Option<Route>,
    plan: &FilterPlan,
    route: Route,
    handle: Option<u32>,
    priority: u8,
) -> Option<Route>
    ensures { result ≡ (if verdicts.is_handle_match plan.now.handle handle
        && verdicts.is_priority_match plan.now.priority
        priority then finding.lesser_route route least else least) }
{
    if is_handle_match(plan.handle, handle) && is_priority_match(plan.priority, priority) {
        lesser_route(route, least)
    } else {
        least
    }
}

/// Returns the route for handle `handle` and priority `priority` by a search through all filters; `None` if no filter matches.
/// `look_up_route` calls it for priorities above 7, for which rows have no route.
#[cold]
#[inline(never)]
fn search_route<A: Allocator + Copy>(
    filters: &ByNumber<FilterState, A>,
    gates: &ByNumber<StreamGate<A>, A>,
    meters: &ByNumber<Meter, A>,
    handle: Option<u32>,
    priority: u8,
) -> Option<Route>
    requires gates { HaveGates filters.now.entries gates.now.entries }
    requires meters { HaveMeters filters.now.entries meters.now.entries }
    ensures number { option_map (λ r. r.number) result
        ≡ finding.least_match handle priority (filter_plans filters.now.entries) }
    ensures route { IfSome result (finding.IsRoute (filter_plans filters.now.entries) (keys_of gates.now.entries)
        (keys_of meters.now.entries)) }
{
    let mut least = None;
    for place in 0..filters.len() {
        let (plan, route) = plan_and_route(filters, gates, meters, place);
        least = lesser_match(least, &plan, route, handle, priority);
    }
    least
}

/// Returns the route for this handle and priority: the matching filter with the least number. `None` if no filter matches. `find_route`
/// calls it.
#[inline(always)]
pub(crate) fn look_up_route<A: Allocator + Copy>(
    filters: &ByNumber<FilterState, A>,
    gates: &ByNumber<StreamGate<A>, A>,
    meters: &ByNumber<Meter, A>,
    routes: &[Route],
    rows: &HandleRows<A>,
    any: &PriorityRow,
    handle: Option<u32>,
    priority: u8,
) -> Option<Route>
    requires rows { finding.AreRouteRows (finding.read_rows routes.now rows.now.entries)
        (finding.read_row routes.now any.now) (filter_plans filters.now.entries) }
    requires routes { finding.HaveRoutes (finding.read_rows routes.now rows.now.entries)
        (finding.read_row routes.now any.now) (filter_plans filters.now.entries)
        (keys_of gates.now.entries) (keys_of meters.now.entries) }
    requires gates { HaveGates filters.now.entries gates.now.entries }
    requires meters { HaveMeters filters.now.entries meters.now.entries }
    ensures number { (at sdu octets : ℕ) (dei : Bool)
        → option_map (λ r. r.number) result ≡ option_map (λ f. f.0)
        (verdicts.frame_filter (filter_plans filters.now.entries)
        (verdicts.filter_input at handle priority dei sdu octets)) }
    ensures route { IfSome result (finding.IsRoute (filter_plans filters.now.entries) (keys_of gates.now.entries)
        (keys_of meters.now.entries)) }
{
    if priority < 8 {
        route_in_row(routes, find_row(rows, any, handle), priority)
    } else {
        // Copied, so that no pointer to the result stays, and the compiler can hold it in registers.
        match search_route(filters, gates, meters, handle, priority) {
            Some(route) => Some(route),
            None => None,
        }
    }
}
