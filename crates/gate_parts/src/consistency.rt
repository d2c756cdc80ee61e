//! Tests whether lists of filters, gates and meters fit together.

ghost use Rattle.std.specs.Prelude.{◌≡◌, ◌&&◌, true};
ghost use Rattle.std.specs.List.{list_all};
ghost use Rattle.bridge_filter.specs.Plans.{is_listed, are_numbers_distinct, is_listed_if_any, have_instances, all_have_priorities, all_within_limits};

use bridge_filter::FilterPlan;
use bridge_gate::GatePlan;
use bridge_meter::MeterPlan;
use std::alloc::Allocator;

/// Whether `number` is in a list.
pub fn is_listed<X>(list: &[(u32, X)], number: u32) -> bool
    ensures { result ≡ is_listed number list.now }
{
    for item in list {
        if number == item.0 {
            return true;
        }
    }
    false
}

/// Whether all numbers of a list differ.
fn are_all_distinct<X>(list: &[(u32, X)]) -> bool
    ensures { result ≡ are_numbers_distinct list.now }
{
    match list {
        [first, rest @ ..] => !is_listed(rest, first.0) & are_all_distinct(rest),
        [] => true,
    }
}

/// Whether `number` is in a list, or `None`.
fn is_listed_if_any<X>(list: &[(u32, X)], number: Option<u32>) -> bool
    ensures { result ≡ is_listed_if_any number list.now }
{
    match number {
        Some(number) => is_listed(list, number),
        None => true,
    }
}

/// Whether the gates and meters that filters name exist.
fn have_all_instances<G, M>(
    filters: &[(u32, FilterPlan)],
    gates: &[(u32, G)],
    meters: &[(u32, M)],
) -> bool
    ensures { result ≡ list_all (λ f. is_listed f.1.gate gates.now
        && is_listed_if_any f.1.meter meters.now) filters.now }
{
    match filters {
        [first, rest @ ..] => {
            is_listed(gates, first.1.gate)
                & is_listed_if_any(meters, first.1.meter)
                & have_all_instances(rest, gates, meters)
        }
        [] => true,
    }
}

/// Whether the internal priorities of gates are valid.
fn have_all_priorities<A: Allocator + Copy>(gates: &[(u32, GatePlan<A>)]) -> bool
    ensures { result ≡ all_have_priorities gates.now }
{
    match gates {
        [first, rest @ ..] => first.1.schedule.has_valid_priorities() & have_all_priorities(rest),
        [] => true,
    }
}

/// Whether all meters are within their limits.
fn are_all_within_limits(meters: &[(u32, MeterPlan)]) -> bool
    ensures { result ≡ all_within_limits meters.now }
{
    match meters {
        [first, rest @ ..] => first.1.is_within_limits() & are_all_within_limits(rest),
        [] => true,
    }
}

/// Whether filters, gates and meters fit together, as `Police::new` requires.
pub fn go_together<A: Allocator + Copy>(
    filters: &[(u32, FilterPlan)],
    gates: &[(u32, GatePlan<A>)],
    meters: &[(u32, MeterPlan)],
) -> bool
    ensures { result ≡ (are_numbers_distinct filters.now && are_numbers_distinct gates.now
        && are_numbers_distinct meters.now && have_instances
        filters.now gates.now meters.now && all_have_priorities gates.now && all_within_limits meters.now) }
{
    are_all_distinct(filters)
        & are_all_distinct(gates)
        & are_all_distinct(meters)
        & have_all_instances(filters, gates, meters)
        & have_all_priorities(gates)
        & are_all_within_limits(meters)
}
