//! Delay bounds of a shared queue by the stream gates of the filters that share it.
ghost use Rattle.std.specs.Prelude.{◌≡◌, ◌≤◌, ◌<◌, IfOk, IfSome, true};
ghost use Rattle.bridge_frame.specs.Link.{transmission_time};
ghost use Rattle.bridge_port.specs.GateSchedule.{lists_can_fit};
ghost use Rattle.bridge_check.specs.Windows.{longest_frame};
ghost use Rattle.bridge_groups.specs.ApartGates.{AreGatesApart};
ghost use Rattle.bridge_groups.specs.MergedGates.{IsGatesBound};
ghost use Rattle.bridge_groups.specs.SharedQueues as shared;
ghost use Rattle.bridge_groups.specs.Sharers as sharing;

use crate::apart_gates::are_lists_apart;
use crate::gate_bounds::{CAPTURED_SDU, PADDED_SDU, port_gate_bound};
use crate::merged_gates::{gate_lists, merged_list};
use bridge_config::{Plan, PortPlan};
use bridge_filter::FilterPlan;
use bridge_limits::NoMemory;
use std::alloc::Allocator;

/// Delay bounds of a shared queue by stream gates, in ns, and whether the gates are apart in time. A bound is `None` if the search finds
/// none.
#[derive(Clone, Copy)]
pub(crate) struct GateFigures {
    /// Bound for any capture: SDUs have at least `CAPTURED_SDU` octets.
    pub(crate) captured: Option<u64>,
    /// Bound for frames of at least 60 octets, as on every Ethernet link.
    pub(crate) padded: Option<u64>,
    /// Whether, after one gate was open, all others stay closed for the queue's bound for any capture.
    pub(crate) is_apart: bool,
}

/// Returns the lesser of a bound and an optional bound, in ns. `gate_figures` and `least_shared_bound` call it.
pub(crate) fn lesser_bound(bound: u64, other: Option<u64>) -> u64
    ensures { result ≡ shared.lesser_bound bound other }
{
    match other {
        Some(other) => bound.min(other),
        None => bound,
    }
}

/// Returns the delay bounds of a queue by the stream gates of `sharers`, whose largest SDU has `sdu` octets. `bound` is the queue's bound in
/// ns without stream gates. `shared_queue` calls it.
///
/// Both bounds are `None` if `gate_lists` finds no list for a gate, or `merged_list` can't merge the lists. The gates then count as not
/// apart.
pub(crate) fn gate_figures<A: Allocator + Copy>(
    alloc: A,
    plan: &Plan<A>,
    sharers: &[(u32, FilterPlan)],
    port: &PortPlan<A>,
    class: u8,
    sdu: u32,
    bound: u64,
) -> Result<GateFigures, NoMemory>
    requires class { class < 8 }
    requires sdu { sdu ≡ sharing.longest_sdu sharers.now }
    requires small { sdu ≤ 65535 }
    requires ever { lists_can_fit port.now.list class (transmission_time (longest_frame sdu) port.now.speed) ≡ true }
    ensures captured { IfOk result (λ g. IfSome g.captured (IsGatesBound plan.now port.now sharers.now class 2)) }
    ensures padded { IfOk result (λ g. IfSome g.padded (IsGatesBound plan.now port.now sharers.now class 44)) }
    ensures apart { IfOk result (λ g. g.is_apart ≡ true
        → AreGatesApart plan.now sharers.now (shared.lesser_bound bound g.captured)) }
{
    let none = GateFigures {
        captured: None,
        padded: None,
        is_apart: false,
    };
    let Ok(found) = gate_lists(alloc, plan, sharers) else {
        return Err(NoMemory);
    };
    let Some(lists) = found else {
        return Ok(none);
    };
    let Ok(list) = merged_list(alloc, &lists) else {
        return Err(NoMemory);
    };
    let Some(merged) = list else {
        return Ok(none);
    };
    let captured = port_gate_bound(&merged, port, class, sdu, CAPTURED_SDU);
    Ok(GateFigures {
        captured,
        padded: port_gate_bound(&merged, port, class, sdu, PADDED_SDU),
        is_apart: are_lists_apart(&lists, lesser_bound(bound, captured)),
    })
}
