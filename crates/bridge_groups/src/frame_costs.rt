//! Cost curves of the frames that the meters of several filters let pass. Bounds by costs count fits of `fit` ns: a frame that needs more
//! than `fit` ns costs more than its transmission time.
ghost use Rattle.std.specs.Prelude.{◌≡◌, ◌≤◌, ◌*◌, ℕ, IfSome, length};
ghost use Rattle.bridge_frame.specs.Link.{transmission_time};
ghost use Rattle.bridge_check.specs.Windows.{longest_frame};
ghost use Rattle.bridge_filter.specs.declared.FilterPlan.{FilterPlan};
ghost use Rattle.bridge_semantics.specs.Events.{plan_police};
ghost use Rattle.bridge_groups.specs.Curves.{optional_burst, optional_rate};
ghost use Rattle.bridge_groups.specs.CostCurves as spec;

use crate::LinearCurve;
use crate::meter_curves::burst_and_rate;
use bridge_config::Plan;
use bridge_filter::FilterPlan;
use bridge_frame::{Speed, occupation};
use bridge_limits::LONGEST_FRAME;
use bridge_meter::UNITS_PER_OCTET;
use std::alloc::Allocator;

/// Number of parts of a ns in which costs are given. A greater number gives sharper bounds, but the unit of a curve is at most 2^40.
const COST_PARTS: u64 = 128;

/// Returns the margin in ns that covers the rounding of two transmission times. `plain_fit` and `octet_cost` call it.
pub(crate) fn rounding_margin(speed: Speed) -> u64
    ensures value { result ≡ spec.rounding_margin speed }
    ensures few { result ≤ 2 }
{
    match speed {
        Speed::Mbps10 | Speed::Mbps100 | Speed::Mbps1000 => 0,
        Speed::Mbps2500 | Speed::Mbps10000 => 2,
    }
}

/// Returns the length in octets of the longest frame with an SDU of `sdu` octets, at most `LONGEST_FRAME`. `plain_fit` and `octet_cost`
/// call it.
pub(crate) fn longest_octets(sdu: u32) -> u32
    ensures { result ≡ longest_frame sdu }
{
    sdu.saturating_add(16).min(LONGEST_FRAME)
}

/// Returns the greatest cost of a metered octet in 128ths of a ns, in frames with SDUs of at most `sdu` octets. The bound counts fits of
/// `fit` ns. `cost_sums` calls it.
fn octet_cost(fit: u64, speed: Speed, sdu: u32) -> u64
    ensures exact { result ≡ spec.octet_cost fit speed sdu }
    ensures few { result ≤ 300_000 }
{
    let length = longest_octets(sdu);
    let twice = 2 * occupation(length, speed) + rounding_margin(speed);
    let metered = u64::from(length.max(60)) + 4;
    let long = (COST_PARTS * twice.saturating_sub(fit)).div_ceil(metered);
    long.max(2 * occupation(60, speed))
}

/// Returns the costs of the filters' bursts (in octets) and of their rates (in bit/s), each summed over the filters. A filter's octet costs
/// `octet_cost`, in 128ths of a ns. `sharers_cost_curve` calls it.
fn cost_sums<A: Allocator + Copy>(
    plan: &Plan<A>,
    sharers: &[(u32, FilterPlan)],
    fit: u64,
    speed: Speed,
) -> (u128, u128)
    requires few { length sharers.now ≤ 1024 }
    ensures burst { result.0 ≡ spec.cost_sum (λ (f : FilterPlan). optional_burst (plan_police plan.now).meters f.meter)
        fit speed sharers.now }
    ensures rate { result.1 ≡ spec.cost_sum (λ (f : FilterPlan). optional_rate (plan_police plan.now).meters f.meter)
        fit speed sharers.now }
    ensures few { result.0 ≤ 1024 * 3_000_000_000_000_000 }
    ensures slow { result.1 ≤ 1024 * 60_000_000_000_000_000 }
{
    let mut burst = 0u128;
    let mut rate = 0u128;
    for at in 0..sharers.len() {
        let filter = sharers[at].1;
        let own = burst_and_rate(plan, filter.meter);
        let cost = octet_cost(fit, speed, filter.max_sdu.unwrap_or(0)) as u128;
        burst = burst + cost * own.0;
        rate = rate + cost * own.1;
    }
    (burst, rate)
}

/// Returns a curve of the costs of all frames that the meters of `sharers` let pass. Returns `None` if more than 1 ns of costs may arrive in
/// each ns. `fit_bound` calls it.
pub(crate) fn sharers_cost_curve<A: Allocator + Copy>(
    plan: &Plan<A>,
    sharers: &[(u32, FilterPlan)],
    fit: u64,
    speed: Speed,
) -> Option<LinearCurve>
    requires few { length sharers.now ≤ 1024 }
    ensures { IfSome result (spec.IsCostCurve plan.now sharers.now fit speed) }
{
    let (burst, rate) = cost_sums(plan, sharers, fit, speed);
    let unit = COST_PARTS as u128 * UNITS_PER_OCTET;
    if rate > unit {
        return None;
    }
    Some(LinearCurve {
        burst: burst * UNITS_PER_OCTET,
        rate,
        unit,
    })
}
