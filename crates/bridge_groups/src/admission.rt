//! Tests whether a filter admits a conforming talker: then each frame of the talker passes.
ghost use Rattle.std.specs.Prelude.{◌≡◌, nat_eq};
ghost use Rattle.std.specs.Map.{lookup};
ghost use Rattle.bridge_semantics.specs.Events.{plan_police};
ghost use Rattle.bridge_groups.specs.Admission as spec;

use crate::meter_curves::find_meter;
use bridge_check::find_gate;
use bridge_config::Plan;
use bridge_cycle::Timeline;
use bridge_filter::FilterPlan;
use bridge_gate::{GateEntry, Schedule};
use std::alloc::Allocator;

/// Whether each entry of a stream gate's list is open and has no octet limit. `is_open_schedule` calls it.
fn are_open_entries(entries: &[(GateEntry, u64)]) -> bool
    ensures { result ≡ spec.are_open_entries entries.now }
{
    entries
        .iter()
        .all(|entry| entry.0.lets && !entry.0.octets.is_some())
}

/// Whether a stream gate's schedule has only open entries without octet limits, in each of its lists. `is_open_gate` calls it.
fn is_open_schedule<A: Allocator + Copy>(schedule: &Schedule<A>) -> bool
    ensures { result ≡ spec.is_open_schedule schedule.now }
{
    match schedule {
        Schedule::Fixed { lets, ipv: _ } => *lets,
        Schedule::Cyclic(list) => are_open_entries(list.entries()),
        Schedule::Joined(joined) => {
            let (old, new) = joined.lists();
            are_open_entries(old.entries()) && are_open_entries(new.entries())
        }
    }
}

/// Whether the stream gate `gate` is open at each time and has no octet limit. `admits_talker` and `put_limited_reason` of `net_latency`
/// call it.
pub fn is_open_gate<A: Allocator + Copy>(plan: &Plan<A>, gate: u32) -> bool
    ensures { result ≡ spec.is_open_gate (lookup (nat_eq gate) plan.now.gates) }
{
    match find_gate(plan.gates(), gate) {
        None => false,
        Some(gate) => is_open_schedule(&gate.schedule),
    }
}

/// Whether a filter has a limit of SDU octets, and the limit is at least `most`. `admits_talker` refuses a filter without limit.
fn allows_sdu(limit: Option<u32>, most: u32) -> bool
    ensures { result ≡ spec.allows_sdu limit most }
{
    match limit {
        None => false,
        Some(limit) => most <= limit,
    }
}

/// Returns the committed burst size in octets and the committed information rate in bit/s of an optional flow meter. Returns `None`
/// without a meter. `admits_talker` and `put_lacking_tokens` of `net_latency` call it.
pub fn committed_tokens<A: Allocator + Copy>(
    plan: &Plan<A>,
    meter: Option<u32>,
) -> Option<(u64, u64)>
    ensures { result ≡ spec.committed_tokens (plan_police plan.now).meters meter }
{
    match meter {
        None => None,
        Some(number) => {
            let own = find_meter(plan.meters(), number);
            Some((own.cbs, own.cir))
        }
    }
}

/// Whether a meter's committed burst size and rate are present, and at least `burst` octets and `rate` bit/s. `admits_talker` refuses a
/// filter without meter.
fn has_tokens(tokens: Option<(u64, u64)>, burst: u64, rate: u64) -> bool
    ensures { result ≡ spec.has_tokens tokens burst rate }
{
    match tokens {
        None => false,
        Some((cbs, cir)) => burst <= cbs && rate <= cir,
    }
}

/// Whether a filter's settings admit every talker that keeps three limits: SDUs of at most `most` octets, bursts of `burst` metered octets,
/// and `rate` bit/s. The stream gate must always be open without octet limits.
///
/// `admits_row` of `net_latency` calls it.
pub fn admits_talker<A: Allocator + Copy>(
    plan: &Plan<A>,
    filter: &FilterPlan,
    most: u32,
    burst: u64,
    rate: u64,
) -> bool
    ensures { result ≡ spec.admits_talker plan.now filter.now most burst rate }
{
    is_open_gate(plan, filter.gate)
        && allows_sdu(filter.max_sdu, most)
        && has_tokens(committed_tokens(plan, filter.meter), burst, rate)
}
