//! Capacities of a queue under one gate control list, from the arrival curves of its frames.
ghost use Rattle.std.specs.Prelude.{◌≡◌, ℕ, All, true, false, ◌<◌, ◌≤◌, ◌+◌, ◌*◌, IfSome, None, Ok, Some};
ghost use Rattle.bridge_cycle.specs.Cyclic.{IsLawful};
ghost use Rattle.bridge_port.specs.GateSchedule.{list_can_fit, list_opens};
ghost use Rattle.bridge_groups.specs.LinearCurves.{IsCountCurve, IsLinearCurve, count_at, curve_at};
ghost use Rattle.bridge_groups.specs.Rooms.{HasRoomFits, drains};
ghost use Rattle.bridge_groups.specs.Work.{HasFitsPerCycle, IsSufficientRoom};

use crate::count_curves::first_frames_time;
use crate::delay_bound::{all_spans_bound, find_closed};
use crate::linear_curve::{LARGEST_BURST, LinearCurve};
use crate::span_search::fits_per_cycle;
use bridge_cycle::{CyclicList, LONGEST_CYCLE, Timeline};
use bridge_port::LARGEST_ROOM;
use std::alloc::Allocator;

/// Greatest length in ns of the span with which a capacity's test starts. If the span is longer, `is_sufficient` returns false.
const LONGEST_START: u64 = 3_000_000_000_000_000_000;

/// Returns the length in ns of the shortest span in which `frames` frames with together `work` ns can arrive. Returns `None` if they never
/// can. All shorter spans have fewer frames or less work.
///
/// `is_sufficient` calls it.
fn shortest_span(curve: &LinearCurve, counts: &[LinearCurve], work: u64, frames: u64) -> Option<u64>
    requires curve { IsLinearCurve curve.now }
    requires counts { All IsCountCurve counts.now }
    requires work { work ≤ 1_000_000_000 }
    ensures shorter { (w : ℕ) → IfSome result (λ span. work ≤ curve_at curve.now w → frames ≤ count_at counts.now w
        → span ≤ w) }
    ensures never { (w : ℕ) → result ≡ None → curve_at curve.now w < work }
{
    let time = curve.first_time(work)?;
    Some(time.max(first_frames_time(counts, frames)))
}

/// Returns true only if a capacity of `room` frames suffices: then the queue drops no copy as full. Frames need `least` to `occ` ns.
///
/// Each cycle has `per_cycle` fits; `None` means that the class is always open. `sufficient_room` calls it.
fn is_sufficient<A: Allocator + Copy>(
    list: &CyclicList<u8, A>,
    class: u8,
    occ: u64,
    least: u64,
    curve: &LinearCurve,
    counts: &[LinearCurve],
    per_cycle: Option<u64>,
    room: u16,
) -> bool
    requires class { class < 8 }
    requires some { 1 ≤ occ }
    requires occ { occ ≤ LONGEST_CYCLE }
    requires lawful { IsLawful list.now }
    requires ever { list_can_fit list.now class occ ≡ true }
    requires curve { IsLinearCurve curve.now }
    requires counts { All IsCountCurve counts.now }
    requires least { least ≤ 200_000 }
    requires room { room ≤ LARGEST_ROOM }
    requires open { (u : ℕ) → per_cycle ≡ None → list_opens list.now class u ≡ true }
    requires windows { IfSome per_cycle (HasRoomFits (list_opens list.now class) occ list.now.cycle curve.now) }
    ensures { result ≡ true → drains (list_opens list.now class) occ least (curve_at curve.now) (count_at counts.now)
        room }
{
    let work = (room as u64 + 1) * least;
    let Some(span) = shortest_span(curve, counts, work, room as u64 + 1) else {
        return true;
    };
    if span > LONGEST_START || curve.work_at_once().is_none() {
        return false;
    }
    let upto = curve.at(span);
    if upto < work {
        return false;
    }
    let Some(per_cycle) = per_cycle else {
        return upto < work + span;
    };
    if upto > work + LARGEST_BURST {
        return false;
    }
    match all_spans_bound(list, class, occ, curve, per_cycle, work, span) {
        Some(bound) => bound < work,
        None => false,
    }
}

/// Returns the number of fits of `occ` ns in each cycle, for `is_sufficient`; `None` if the class is always open. Returns `Err` if more
/// work arrives in the long run than fits. `sufficient_room` calls it.
fn room_fits<A: Allocator + Copy>(
    list: &CyclicList<u8, A>,
    class: u8,
    occ: u64,
    curve: &LinearCurve,
) -> Result<Option<u64>, Unstable>
    requires class { class < 8 }
    requires some { 1 ≤ occ }
    requires occ { occ ≤ LONGEST_CYCLE }
    requires lawful { IsLawful list.now }
    requires ever { list_can_fit list.now class occ ≡ true }
    requires curve { IsLinearCurve curve.now }
    ensures open { (u : ℕ) → result ≡ Ok None → list_opens list.now class u ≡ true }
    ensures windows { (n : ℕ) → result ≡ Ok (Some n)
        → HasRoomFits (list_opens list.now class) occ list.now.cycle curve.now n }
{
    let Some(_) = find_closed(list, class) else {
        return Ok(None);
    };
    let per_cycle = fits_per_cycle(list, class, occ);
    if curve.is_stable(list.cycle(), per_cycle) {
        Ok(Some(per_cycle))
    } else {
        Err(Unstable)
    }
}

/// More work arrives in the long run than fits into the windows, so no capacity suffices.
#[derive(Clone, Copy)]
struct Unstable;

/// Returns a capacity of at most `most` frames that suffices for a queue, which has its link to itself while `class` is open. Searches by
/// halving; returns `None` if no tried capacity suffices.
///
/// The frames have transmission times from `least` to `occ` ns and the arrival curve `curve`; `counts` bounds their number. `lists_room`
/// calls it.
pub fn sufficient_room<A: Allocator + Copy>(
    list: &CyclicList<u8, A>,
    class: u8,
    occ: u64,
    least: u64,
    curve: &LinearCurve,
    counts: &[LinearCurve],
    most: u16,
) -> Option<u16>
    requires class { class < 8 }
    requires some { 1 ≤ occ }
    requires occ { occ ≤ LONGEST_CYCLE }
    requires lawful { IsLawful list.now }
    requires ever { list_can_fit list.now class occ ≡ true }
    requires curve { IsLinearCurve curve.now }
    requires counts { All IsCountCurve counts.now }
    requires least { least ≤ 200_000 }
    requires most { (1 ≤ most) × (most ≤ LARGEST_ROOM) }
    ensures sufficient { IfSome result (IsSufficientRoom (list_opens list.now class) occ least (curve_at curve.now)
        (count_at counts.now)) }
    ensures within { IfSome result (λ room. room ≤ most) }
{
    let Ok(per_cycle) = room_fits(list, class, occ, curve) else {
        return None;
    };
    if !is_sufficient(list, class, occ, least, curve, counts, per_cycle, most) {
        return None;
    }
    let mut low = 0;
    let mut high = most;
    while low + 1 < high {
        let middle = low + (high - low) / 2;
        if is_sufficient(list, class, occ, least, curve, counts, per_cycle, middle) {
            high = middle;
        } else {
            low = middle;
        }
    }
    Some(high)
}
