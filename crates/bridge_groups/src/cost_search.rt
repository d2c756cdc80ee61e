//! Delay bounds of a shared queue by costs. The search counts fits for a transmission time `fit` below the longest, so less time is lost at
//! the end of each window.
//!
//! A fit is a time at which a transmission fits. A frame that needs more than `fit` ns counts for more than its transmission time: this is
//! its cost.
ghost use Rattle.std.specs.Prelude.{◌≡◌, ◌⊎◌, ◌≤◌, ◌<◌, ℕ, IfSome, Some, length, false, true};
ghost use Rattle.bridge_cycle.specs.Cyclic.{IsLawful};
ghost use Rattle.bridge_frame.specs.Link.{transmission_time};
ghost use Rattle.bridge_port.specs.GateSchedule.{list_can_fit, list_opens, lists_can_fit, lists_open};
ghost use Rattle.bridge_groups.specs.CostCurves.{HasLongStarts};
ghost use Rattle.bridge_groups.specs.SharedQueues as spec;

use crate::delay_bound::find_closed;
use crate::fit_runs::next_fit_run;
use crate::frame_costs::{longest_octets, rounding_margin, sharers_cost_curve};
use crate::list_delay_bound;
use bridge_config::Plan;
use bridge_cycle::{CyclicList, Egress, LONGEST_CYCLE, Timeline};
use bridge_filter::FilterPlan;
use bridge_frame::{Speed, occupation};
use std::alloc::Allocator;

/// Largest number of values of `fit` that `list_cost_bound` tries.
const MOST_LENGTHS: u64 = 4;

/// Whether each run of fits of `fit` ns starts at a time at which a transmission of `long` ns fits. If the class is open at `start`, the
/// answer can be false by mistake.
///
/// `fit_bound` calls it.
fn has_long_starts<A: Allocator + Copy>(
    list: &CyclicList<u8, A>,
    class: u8,
    fit: u64,
    long: u64,
    start: u64,
) -> bool
    requires class { class < 8 }
    requires some { 1 ≤ fit }
    requires fit { fit ≤ LONGEST_CYCLE }
    requires lawful { IsLawful list.now }
    requires ever { list_can_fit list.now class fit ≡ true }
    requires closes { (u : ℕ) × (list_opens list.now class u ≡ false) }
    requires start { start < list.now.cycle }
    ensures { result ≡ true → HasLongStarts (list_opens list.now class) fit long }
{
    let end = start + list.cycle();
    let mut covered = start;
    while covered < end {
        let run = next_fit_run(list, class, fit, covered);
        if run.length + fit <= long {
            return false;
        }
        covered = run.first + run.length;
    }
    true
}

/// Returns the least `fit` in ns for which frames with SDUs of `sdu` octets cost no more per octet than shortest frames. With this `fit`,
/// the bound is mostly least. `list_cost_bound` calls it.
fn plain_fit(speed: Speed, sdu: u32) -> u64
    ensures least { transmission_time 60 speed ≤ result }
{
    let length = longest_octets(sdu);
    let least = occupation(60, speed);
    let plain = least * (u64::from(length.max(60)) + 4) / 64;
    (2 * occupation(length, speed) + rounding_margin(speed))
        .saturating_sub(plain)
        .max(least)
}

/// Returns the greatest `max_sdu` of the filters, in octets, that is at most `most`; 0 if there is none.
///
/// `list_cost_bound` calls it with half of the last frame size as `most`, and continues with the result.
fn next_search_sdu(filters: &[(u32, FilterPlan)], most: u32) -> u32
    ensures { result ≤ most }
{
    let mut longest = 0;
    for filter in filters {
        let sdu = filter.1.max_sdu.unwrap_or(0);
        if sdu <= most {
            longest = longest.max(sdu);
        }
    }
    longest
}

/// Returns the lesser of two delay bounds in ns. If only one is known, returns that one; if none is known, `None`. `list_cost_bound` calls
/// it.
fn lesser_known(one: Option<u64>, other: Option<u64>) -> Option<u64>
    ensures { (result ≡ one) ⊎ (result ≡ other) }
{
    match (one, other) {
        (Some(first), Some(second)) => if first < second { one } else { other },
        (Some(_), None) => one,
        (None, _) => other,
    }
}

/// Returns the delay bound in ns of a shared queue by costs, from fits of `fit` ns. The class is closed at time `start`.
///
/// Returns `None` if a run of fits starts at a time at which `long` ns don't fit, or if the costs give no bound. `list_cost_bound` calls
/// it.
fn fit_bound<A: Allocator + Copy>(
    plan: &Plan<A>,
    sharers: &[(u32, FilterPlan)],
    list: &CyclicList<u8, A>,
    class: u8,
    speed: Speed,
    long: u64,
    fit: u64,
    start: u64,
) -> Option<u64>
    requires few { length sharers.now ≤ 1024 }
    requires class { class < 8 }
    requires shortest { transmission_time 60 speed ≤ fit }
    requires fit { fit ≤ LONGEST_CYCLE }
    requires lawful { IsLawful list.now }
    requires ever { list_can_fit list.now class fit ≡ true }
    requires closes { (u : ℕ) × (list_opens list.now class u ≡ false) }
    requires start { start < list.now.cycle }
    ensures { IfSome result (spec.IsWindowCostBound plan.now sharers.now speed (list_opens list.now class) long) }
{
    if !has_long_starts(list, class, fit, long, start) {
        return None;
    }
    let curve = sharers_cost_curve(plan, sharers, fit, speed)?;
    list_delay_bound(list, class, fit, occupation(60, speed), &curve)
}

/// Returns the least delay bound in ns that the search finds by costs. Frames have SDUs of at most `sdu` octets, and need at most `long`
/// ns.
///
/// Returns `None` if the class is always open, or if the search finds no bound. `lists_cost_bound` calls it.
fn list_cost_bound<A: Allocator + Copy>(
    plan: &Plan<A>,
    sharers: &[(u32, FilterPlan)],
    list: &CyclicList<u8, A>,
    class: u8,
    speed: Speed,
    sdu: u32,
    long: u64,
) -> Option<u64>
    requires few { length sharers.now ≤ 1024 }
    requires class { class < 8 }
    requires shortest { transmission_time 60 speed ≤ long }
    requires long { long ≤ LONGEST_CYCLE }
    requires lawful { IsLawful list.now }
    requires ever { list_can_fit list.now class long ≡ true }
    ensures { IfSome result (spec.IsWindowCostBound plan.now sharers.now speed (list_opens list.now class) long) }
{
    let start = find_closed(list, class)?;
    let mut least = None;
    let mut size = sdu;
    for _length in 0..MOST_LENGTHS {
        if size == 0 {
            return least;
        }
        let fit = plain_fit(speed, size).min(long);
        least = lesser_known(
            least,
            fit_bound(plan, sharers, list, class, speed, long, fit, start),
        );
        size = next_search_sdu(sharers, size / 2);
    }
    least
}

/// Returns the least delay bound in ns that the search finds by costs, for a port with one gate control list. Frames have SDUs of at most
/// `sdu` octets, and need at most `long` ns.
///
/// Returns `None` for a schedule change, for a class that is always open, or if the search finds no bound. `curve_figures` calls it.
pub(crate) fn lists_cost_bound<A: Allocator + Copy>(
    plan: &Plan<A>,
    sharers: &[(u32, FilterPlan)],
    lists: &Egress<A>,
    class: u8,
    speed: Speed,
    sdu: u32,
    long: u64,
) -> Option<u64>
    requires few { length sharers.now ≤ 1024 }
    requires class { class < 8 }
    requires shortest { transmission_time 60 speed ≤ long }
    requires long { long ≤ LONGEST_CYCLE }
    requires ever { lists_can_fit (Some lists.now) class long ≡ true }
    ensures { IfSome result (spec.IsWindowCostBound plan.now sharers.now speed (lists_open (Some lists.now) class)
        long) }
{
    match lists {
        Egress::Cyclic(list) => {
            let _ = list.cycle();
            list_cost_bound(plan, sharers, list, class, speed, sdu, long)
        }
        Egress::Joined(_) => None,
    }
}
