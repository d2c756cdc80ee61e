//! Curves of the work and of the frames that the meters of several filters let pass.
ghost use Rattle.std.specs.Prelude.{All, ◌≡◌, ◌≤◌, ◌+◌, ◌*◌, ◌/◌, ◌^◌, ℕ, IfOk, IfSome, length, nat_eq};
ghost use Rattle.std.specs.Map.{lookup};
ghost use Rattle.bridge_meter.specs.Colours.{octet_units};
ghost use Rattle.bridge_filter.specs.Plans.{meter_or_empty};
ghost use Rattle.bridge_semantics.specs.Events.{plan_police};
ghost use Rattle.bridge_groups.specs.LinearCurves.{IsCountCurve, IsLinearCurve, count_at, curve_at};
ghost use Rattle.bridge_groups.specs.Curves as spec;
ghost use Rattle.bridge_groups.specs.Sharers.{IsFilterCountCurve, IsSharersCurve};

use crate::LinearCurve;
use bridge_config::Plan;
use bridge_filter::FilterPlan;
use bridge_frame::{Speed, occupation};
use bridge_limits::NoMemory;
use bridge_meter::{MeterPlan, UNITS_PER_OCTET};
use std::alloc::Allocator;

/// Meter units of a shortest frame, which has 64 metered octets. Counts of frames divide a meter's units by it.
const FRAME_UNITS: u128 = 64 * UNITS_PER_OCTET;

/// Returns the settings of meter `number`; settings with rates and bursts of 0 if the list lacks it. `committed_tokens` and
/// `burst_and_rate` call it.
pub(crate) fn find_meter(meters: &[(u32, MeterPlan)], number: u32) -> MeterPlan
    ensures { result ≡ meter_or_empty (lookup (nat_eq number) meters.now) }
{
    for meter in meters {
        if meter.0 == number {
            return meter.1;
        }
    }
    MeterPlan {
        cir: 0,
        cbs: 0,
        eir: 0,
        ebs: 0,
        coupling: false,
        aware: false,
        drop_yellow: false,
        mark_all_red: false,
    }
}

/// Returns the burst in octets and the rate in bit/s that an optional meter of the plan lets pass; 0 without a meter. Excess burst and rate
/// count unless the meter drops yellow frames.
///
/// `cost_sums`, `sums` and `filter_count_curve` call it.
pub(crate) fn burst_and_rate<A: Allocator + Copy>(
    plan: &Plan<A>,
    meter: Option<u32>,
) -> (u128, u128)
    ensures burst { result.0 ≡ spec.optional_burst (plan_police plan.now).meters meter }
    ensures rate { result.1 ≡ spec.optional_rate (plan_police plan.now).meters meter }
    ensures few { result.0 ≤ 8_589_934_590 }
    ensures slow { result.1 ≤ 200_000_000_000 }
{
    let Some(number) = meter else {
        return (0, 0);
    };
    let own = find_meter(plan.meters(), number);
    if own.drop_yellow {
        (own.cbs as u128, own.cir as u128)
    } else {
        (
            own.cbs as u128 + own.ebs as u128,
            own.cir as u128 + own.eir as u128,
        )
    }
}

/// Returns the sums of the filters' bursts in octets and of their rates in bit/s. `sharers_curve` calls it.
fn sums<A: Allocator + Copy>(plan: &Plan<A>, sharers: &[(u32, FilterPlan)]) -> (u128, u128)
    requires few { length sharers.now ≤ 1024 }
    ensures burst { result.0 ≡ spec.burst_sum (plan_police plan.now).meters sharers.now }
    ensures rate { result.1 ≡ spec.rate_sum (plan_police plan.now).meters sharers.now }
    ensures few { result.0 ≤ 1024 * 8_589_934_590 }
    ensures slow { result.1 ≤ 1024 * 200_000_000_000 }
{
    let mut burst = 0u128;
    let mut rate = 0u128;
    for at in 0..sharers.len() {
        let own = burst_and_rate(plan, sharers[at].1.meter);
        burst = burst + own.0;
        rate = rate + own.1;
    }
    (burst, rate)
}

/// Returns the arrival curve of the work that the meters of `sharers` let pass to a port of this speed. Returns `None` if more than 1 ns of
/// work may arrive in each ns.
///
/// `meter_figures` calls it.
pub fn sharers_curve<A: Allocator + Copy>(
    plan: &Plan<A>,
    sharers: &[(u32, FilterPlan)],
    speed: Speed,
) -> Option<LinearCurve>
    requires few { length sharers.now ≤ 1024 }
    ensures { IfSome result (IsSharersCurve plan.now sharers.now speed) }
{
    let (burst, rate) = sums(plan, sharers);
    let least = occupation(60, speed) as u128;
    if least * rate > FRAME_UNITS {
        return None;
    }
    Some(LinearCurve {
        burst: least * (burst * UNITS_PER_OCTET),
        rate: least * rate,
        unit: FRAME_UNITS,
    })
}

/// Returns the curve of the number of frames that an optional meter of the plan lets pass. `count_curves` calls it.
fn filter_count_curve<A: Allocator + Copy>(plan: &Plan<A>, meter: Option<u32>) -> LinearCurve
    ensures { IsFilterCountCurve plan.now meter result }
{
    let (burst, rate) = burst_and_rate(plan, meter);
    LinearCurve {
        burst: burst * UNITS_PER_OCTET,
        rate,
        unit: FRAME_UNITS,
    }
}

/// Returns for each filter of `sharers`, in list order, the curve of the number of frames that its meter lets pass. `meter_figures` calls
/// it.
pub fn count_curves<A: Allocator + Copy>(
    alloc: A,
    plan: &Plan<A>,
    sharers: &[(u32, FilterPlan)],
) -> Result<Vec<LinearCurve, A>, NoMemory>
    ensures counts { IfOk result (λ v. All IsCountCurve v.items) }
    ensures limit { IfOk result (λ v. (w : ℕ) → count_at v.items w ≡ spec.sharers_frame_limit plan.now sharers.now w) }
{
    let mut curves = Vec::new(alloc);
    for sharer in sharers {
        let Ok(()) = curves.push(filter_count_curve(plan, sharer.1.meter)) else {
            return Err(NoMemory);
        };
    }
    Ok(curves)
}
