//! Delay bound and capacity of a queue that a group shares.
ghost use Rattle.std.specs.Prelude.{All, ◌≡◌, ◌⊎◌, ◌≤◌, ◌<◌, ◌+◌, ◌^◌, ℕ, IfOk, IfSome, Some, length, true};
ghost use Rattle.bridge_frame.specs.Link.{transmission_time};
ghost use Rattle.bridge_port.specs.GateSchedule.{Changing, can_fit, lists_can_fit, lists_open};
ghost use Rattle.bridge_config.specs.Rules.{IsPlan, find_port};
ghost use Rattle.bridge_check.specs.Acceptable.{HasAcceptableGroups};
ghost use Rattle.bridge_check.specs.Windows.{longest_frame};
ghost use Rattle.bridge_semantics.specs.Groups.{IsGroupQueue};
ghost use Rattle.bridge_groups.specs.LinearCurves.{IsCountCurve, IsLinearCurve, count_at, curve_at};
ghost use Rattle.bridge_groups.specs.Work.{IsSufficientRoom};
ghost use Rattle.bridge_groups.specs.Curves.{sharers_frame_limit};
ghost use Rattle.bridge_groups.specs.Sharers as sharing;
ghost use Rattle.bridge_groups.specs.SharedQueues as spec;

use crate::cost_search::lists_cost_bound;
use crate::group_gates::gate_figures;
use crate::meter_curves::{count_curves, sharers_curve};
use crate::sharers::{are_metered, longest_sdu, queue_sharers};
use crate::{LinearCurve, list_delay_bound, sufficient_room};
use bridge_bounds::class_bound;
use bridge_check::{Accepted, Reach};
use bridge_config::{Plan, PortPlan};
use bridge_cycle::{Egress, Joined, LONGEST_CYCLE, Timeline};
use bridge_filter::FilterPlan;
use bridge_frame::occupation;
use bridge_limits::{LONGEST_FRAME, NoMemory};
use bridge_port::LARGEST_ROOM;
use std::alloc::Allocator;

/// Greatest delay bound in ns of one list that `change_bound` adds. If a list has a greater bound, the queue has none over the change.
const LARGEST_BOUND: u64 = 1_000_000_000_000_000_000;

/// Greatest burst of a shifted curve, in parts of a ns as `LinearCurve` counts them.
const LARGEST_CURVE: u128 = 1 << 100;

/// Queue that the filters of a group share.
#[derive(Clone, Copy)]
pub struct SharedQueue {
    /// Number of the group.
    pub group: u32,
    /// Port number, 1 to 16.
    pub port: u8,
    /// Class of the queue, 0 to 7.
    pub class: u8,
    /// Largest delay in ns of a sent copy, from arrival to the end of transmission, gap included.
    pub bound: u64,
    /// Whether the meters of the filters give a delay bound. If not, `bound` follows from the capacity only.
    pub is_metered: bool,
    /// Capacity in frames with which the queue drops no copy as full; `None` if no such capacity is known.
    pub room: Option<u16>,
    /// Capacity of the queue in frames.
    pub capacity: u16,
    /// Delay bound in ns by the stream gates of the filters, for any capture; `None` if none is known.
    pub by_gates: Option<u64>,
    /// Delay bound in ns by the stream gates, for frames of at least 60 octets; `None` if none is known.
    pub padded: Option<u64>,
    /// Whether the stream gates of the filters are apart in time: after one was open, all others stay closed for `least_shared_bound` ns.
    pub is_apart: bool,
}

/// Returns the curve that allows in any `w` ns the work that `curve` allows in `w` + `shift` ns. Returns `None` if its burst is above
/// `LARGEST_CURVE`. `change_bound` needs it for the new list.
fn shifted_curve(curve: &LinearCurve, shift: u64) -> Option<LinearCurve>
    requires curve { IsLinearCurve curve.now }
    ensures line { IfSome result IsLinearCurve }
    ensures value { IfSome result (λ c. (w : ℕ) → curve_at c w ≡ curve_at curve.now (w + shift)) }
{
    let burst = curve.burst + curve.rate * shift as u128;
    if burst > LARGEST_CURVE {
        return None;
    }
    Some(LinearCurve {
        burst,
        rate: curve.rate,
        unit: curve.unit,
    })
}

/// Returns the delay bound in ns of a queue over a schedule change, by the arrival curve of its frames. Frames need `least` to `occ` ns.
///
/// Returns `None` if a bound is unknown or too large. `lists_bound` calls it.
fn change_bound<A: Allocator + Copy>(
    joined: &Joined<u8, A>,
    class: u8,
    occ: u64,
    least: u64,
    curve: &LinearCurve,
) -> Option<u64>
    requires class { class < 8 }
    requires some { 1 ≤ occ }
    requires occ { occ ≤ LONGEST_CYCLE }
    requires ever { can_fit (Changing joined.now) class occ ≡ true }
    requires curve { IsLinearCurve curve.now }
    requires least { least ≤ 200_000 }
    ensures { IfSome result (spec.IsSumOfBounds joined.now class occ least (curve_at curve.now)) }
{
    let (old, new) = joined.lists();
    let before = list_delay_bound(old, class, occ, least, curve)?;
    if before > LARGEST_BOUND {
        return None;
    }
    let later = shifted_curve(curve, before + occ)?;
    let after = list_delay_bound(new, class, occ, least, &later)?;
    if after > LARGEST_BOUND {
        return None;
    }
    Some(before + occ + after)
}

/// Returns the delay bound in ns of a queue under gate control lists, by the arrival curve of its frames. Frames need `least` to `occ` ns.
///
/// Returns `None` if no bound is found: for example, work may arrive faster than it leaves. `curve_figures` calls it.
fn lists_bound<A: Allocator + Copy>(
    lists: &Egress<A>,
    class: u8,
    occ: u64,
    least: u64,
    curve: &LinearCurve,
) -> Option<u64>
    requires class { class < 8 }
    requires some { 1 ≤ occ }
    requires occ { occ ≤ LONGEST_CYCLE }
    requires ever { lists_can_fit (Some lists.now) class occ ≡ true }
    requires curve { IsLinearCurve curve.now }
    requires least { least ≤ 200_000 }
    ensures { IfSome result (spec.IsListsBound (Some lists.now) class occ least (curve_at curve.now)) }
{
    match lists {
        Egress::Cyclic(list) => {
            let _ = list.cycle();
            list_delay_bound(list, class, occ, least, curve)
        }
        Egress::Joined(joined) => change_bound(joined, class, occ, least, curve),
    }
}

/// Returns a capacity with which a queue under one gate control list never overflows. `curve` bounds the work of its frames, `counts` their
/// number. Frames need `least` to `occ` ns.
///
/// Returns `None` if no tried capacity suffices, or if the port has a schedule change. `curve_figures` calls it.
fn lists_room<A: Allocator + Copy>(
    lists: &Egress<A>,
    class: u8,
    occ: u64,
    least: u64,
    curve: &LinearCurve,
    counts: &[LinearCurve],
) -> Option<u16>
    requires class { class < 8 }
    requires some { 1 ≤ occ }
    requires occ { occ ≤ LONGEST_CYCLE }
    requires ever { lists_can_fit (Some lists.now) class occ ≡ true }
    requires curve { IsLinearCurve curve.now }
    requires counts { All IsCountCurve counts.now }
    requires least { least ≤ 200_000 }
    ensures { IfSome result (IsSufficientRoom (lists_open (Some lists.now) class) occ least (curve_at curve.now)
        (count_at counts.now)) }
{
    match lists {
        Egress::Cyclic(list) => {
            let _ = list.cycle();
            sufficient_room(list, class, occ, least, curve, counts, LARGEST_ROOM)
        }
        Egress::Joined(_) => None,
    }
}

/// Delay bound and capacity of a queue by the meters of the filters that share it.
#[derive(Clone, Copy)]
struct MeterFigures {
    /// Delay bound in ns that counts fits of the longest frame, if one is known.
    bound: Option<u64>,
    /// Delay bound in ns that counts fits of a shorter frame, if one is known.
    cost: Option<u64>,
    /// Capacity in frames that suffices, if one is known.
    room: Option<u16>,
}

/// Returns bounds and capacity of a queue by the curves of the meters of `sharers`, whose largest SDU has `sdu` octets. For a port without
/// gate control list, all are `None`. `meter_figures` calls it.
fn curve_figures<A: Allocator + Copy>(
    plan: &Plan<A>,
    sharers: &[(u32, FilterPlan)],
    port: &PortPlan<A>,
    class: u8,
    sdu: u32,
    curve: &LinearCurve,
    counts: &[LinearCurve],
) -> MeterFigures
    requires class { class < 8 }
    requires few { length sharers.now ≤ 1024 }
    requires sdu { sdu ≡ sharing.longest_sdu sharers.now }
    requires small { sdu ≤ 65535 }
    requires ever { lists_can_fit port.now.list class (transmission_time (longest_frame sdu) port.now.speed) ≡ true }
    requires metered { sharing.are_metered sharers.now ≡ true }
    requires curve { sharing.IsSharersCurve plan.now sharers.now port.now.speed curve.now }
    requires counts { All IsCountCurve counts.now }
    requires limit { (w : ℕ) → count_at counts.now w ≡ sharers_frame_limit plan.now sharers.now w }
    ensures bound { IfSome result.bound (spec.IsMeterBound plan.now port.now sharers.now class) }
    ensures cost { IfSome result.cost (spec.IsCostBound plan.now port.now sharers.now class) }
    ensures room { IfSome result.room (spec.IsSharedRoom plan.now port.now sharers.now class) }
{
    let Some(lists) = &port.list else {
        return MeterFigures {
            bound: None,
            cost: None,
            room: None,
        };
    };
    let occ = occupation((sdu + 16).min(LONGEST_FRAME), port.speed);
    let least = occupation(60, port.speed);
    MeterFigures {
        bound: lists_bound(lists, class, occ, least, curve),
        cost: lists_cost_bound(plan, sharers, lists, class, port.speed, sdu, occ),
        room: lists_room(lists, class, occ, least, curve, counts),
    }
}

/// Returns bounds and capacity of a queue by the meters of `sharers`, whose largest SDU has `sdu` octets. `shared_queue` calls it.
///
/// All are `None` if a sharer has no meter, or if work may arrive faster than it leaves.
fn meter_figures<A: Allocator + Copy>(
    alloc: A,
    plan: &Plan<A>,
    sharers: &[(u32, FilterPlan)],
    port: &PortPlan<A>,
    class: u8,
    sdu: u32,
) -> Result<MeterFigures, NoMemory>
    requires class { class < 8 }
    requires few { length sharers.now ≤ 1024 }
    requires sdu { sdu ≡ sharing.longest_sdu sharers.now }
    requires small { sdu ≤ 65535 }
    requires ever { lists_can_fit port.now.list class (transmission_time (longest_frame sdu) port.now.speed) ≡ true }
    ensures bound { IfOk result (λ m. IfSome m.bound (spec.IsMeterBound plan.now port.now sharers.now class)) }
    ensures cost { IfOk result (λ m. IfSome m.cost (spec.IsCostBound plan.now port.now sharers.now class)) }
    ensures room { IfOk result (λ m. IfSome m.room (spec.IsSharedRoom plan.now port.now sharers.now class)) }
{
    let none = MeterFigures {
        bound: None,
        cost: None,
        room: None,
    };
    if !are_metered(sharers) {
        return Ok(none);
    }
    let Some(curve) = sharers_curve(plan, sharers, port.speed) else {
        return Ok(none);
    };
    let Ok(counts) = count_curves(alloc, plan, sharers) else {
        return Err(NoMemory);
    };
    Ok(curve_figures(plan, sharers, port, class, sdu, &curve, &counts))
}

/// Returns the least of a queue's bounds in ns: `by_meters`, `by_costs` and `by_room` (by capacity). Without `by_meters`, returns
/// `by_room`, because `bounds` marks this queue as `unmetered`.
fn least_bound(by_meters: Option<u64>, by_costs: Option<u64>, by_room: u64) -> u64
    ensures { (by_meters ≡ Some result) ⊎ ((by_costs ≡ Some result) ⊎ (result ≡ by_room)) }
{
    match (by_meters, by_costs) {
        (Some(meters), Some(costs)) => meters.min(costs).min(by_room),
        (Some(meters), None) => meters.min(by_room),
        (None, _) => by_room,
    }
}

/// Returns the delay bound and the capacities of a queue that a group shares. `reaches` has the reachable queues of each filter of the plan,
/// by index. `put_row` calls it.
pub fn shared_queue<A: Allocator + Copy>(
    alloc: A,
    accepted: &Accepted<A>,
    reaches: &[Reach],
    group: u32,
    port: &PortPlan<A>,
    class: u8,
) -> Result<SharedQueue, NoMemory>
    requires from { 1 ≤ port.now.number }
    requires to { port.now.number ≤ 16 }
    requires class { class < 8 }
    requires port { find_port accepted.now.ports port.now.number ≡ Some port.now }
    requires reaches { reaches.now ≡ sharing.plan_reaches accepted.now accepted.now.filters }
    requires reached { IsGroupQueue accepted.now group port.now.number class }
    ensures { IfOk result (spec.IsRowOf accepted.now group port.now.number class) }
{
    let plan = accepted.plan();
    let Ok(sharers) = queue_sharers(alloc, plan, reaches, group, port, class) else {
        return Err(NoMemory);
    };
    let sdu = longest_sdu(&sharers);
    let by_room = class_bound(port, class, sdu);
    let Ok(figures) = meter_figures(alloc, plan, &sharers, port, class, sdu) else {
        return Err(NoMemory);
    };
    let bound = least_bound(figures.bound, figures.cost, by_room);
    let Ok(gates) = gate_figures(alloc, plan, &sharers, port, class, sdu, bound) else {
        return Err(NoMemory);
    };
    Ok(SharedQueue {
        group,
        port: port.number,
        class,
        bound,
        is_metered: figures.bound.is_some(),
        room: figures.room,
        capacity: port.rooms[class as usize],
        by_gates: gates.captured,
        padded: gates.padded,
        is_apart: gates.is_apart,
    })
}
