//! The test whether a filter passes each frame of a periodic talker. If yes, `bounds --traffic` prints `passes`.
ghost use Rattle.std.specs.Prelude.{◌≡◌, ◌↔◌, ◌≤◌, true};
ghost use Rattle.bridge_limits.specs.declared.TheConstants.{END_OF_TIME};
ghost use Rattle.bridge_cycle.specs.Cyclic.{IsLawful, turn_by_time};
ghost use Rattle.bridge_filter.specs.Verdicts.{is_above_max};
ghost use Rattle.bridge_bounds.specs.Passing as spec;
ghost use Rattle.bridge_bounds.specs.Passing.{CanPassTurns, CanPassSchedule, CanPassList, Passes};
ghost use Rattle.bridge_bounds.specs.Traffic.{IsTraffic};

use crate::traffic::Traffic;
use bridge_check::find_gate;
use bridge_config::Plan;
use bridge_cycle::{CyclicList, Timeline};
use bridge_filter::FilterPlan;
use bridge_gate::{GateEntry, Schedule};
use bridge_ident::{StreamEntry, TagKind};
use std::alloc::Allocator;

/// Whether a stream entry of this tag kind accepts only VLAN-tagged frames. A tag makes the SDU of a frame 4 octets shorter.
/// `are_all_tagged` calls it.
fn takes_only_tagged(tag: TagKind) -> bool
    ensures { result ≡ spec.takes_only_tagged tag }
{
    match tag {
        TagKind::Tagged => true,
        TagKind::Priority => false,
        TagKind::All => false,
    }
}

/// Whether all stream entries with handle `handle` accept only VLAN-tagged frames. Returns true if no entry has the handle. `longest_sdu`
/// calls it.
fn are_all_tagged(handle: u32, streams: &[StreamEntry]) -> bool
    ensures { result ≡ spec.are_all_tagged handle streams.now }
{
    streams
        .iter()
        .all(|e| e.handle != handle || takes_only_tagged(e.tag))
}

/// Returns the largest possible SDU in octets of a frame with stream handle `handle` and a length of `len` octets. Without a handle, the
/// frame may be untagged.
///
/// `passes`, `admits_row` of `net_latency` and 2 more call it.
pub fn longest_sdu<A: Allocator + Copy>(plan: &Plan<A>, handle: Option<u32>, len: u32) -> u32
    ensures { result ≡ spec.longest_sdu plan.now handle len }
{
    match handle {
        Some(handle) if are_all_tagged(handle, plan.streams()) => len.saturating_sub(16),
        _ => len.saturating_sub(12),
    }
}

/// Whether an SDU of `octets` is above the filter's maximum `most`. Returns false without a maximum. `passes` calls it.
fn is_above(most: Option<u32>, octets: u32) -> bool
    ensures { result ≡ is_above_max most octets }
{
    match most {
        None => false,
        Some(most) => most < octets,
    }
}

/// Whether the first frame of an interval passes, if this frame has `sdu` SDU octets: `entry` is open, and its octet limit suffices.
/// `can_pass_turns` calls it.
fn can_pass_entry(entry: &GateEntry, sdu: u32) -> bool
    ensures { result ≡ spec.can_pass_entry entry.now sdu }
{
    if !entry.lets {
        return false;
    }
    match entry.octets {
        None => true,
        Some(limit) => sdu <= limit,
    }
}

/// Whether an interval with an octet limit and the end `end` ns ends by time `until` in ns, when the next frame may arrive. Returns true
/// without a limit. `can_pass_list` calls it.
fn is_limit_reset_in_time(octets: Option<u32>, end: u64, until: u64) -> bool
    ensures { result ≡ spec.is_limit_reset_in_time octets end until }
{
    match octets {
        None => true,
        Some(_) => end <= until,
    }
}

/// Whether each interval that contains a time from `from` to `to` in ns passes one frame of `sdu` octets. Looks at no more than one cycle
/// of the list. `can_pass_list` calls it.
fn can_pass_turns<A: Allocator + Copy>(
    list: &CyclicList<GateEntry, A>,
    from: u64,
    to: u64,
    sdu: u32,
) -> bool
    requires phases { from ≤ to }
    requires to { to ≤ END_OF_TIME }
    requires lawful { IsLawful list.now }
    ensures { (result ≡ true) ↔ CanPassTurns (turn_by_time list.now) from to sdu }
{
    let end = to.min(from + list.cycle());
    let mut seen = from;
    while seen <= end {
        let turn = list.turn(seen);
        if !can_pass_entry(&turn.state, sdu) {
            return false;
        }
        seen = turn.end;
    }
    true
}

/// Whether a stream gate's list passes each frame of the traffic. The period must be a multiple of the cycle time. An interval with an
/// octet limit must end before the next frame can arrive.
///
/// `can_pass_schedule` calls it.
fn can_pass_list<A: Allocator + Copy>(
    list: &CyclicList<GateEntry, A>,
    traffic: &Traffic,
    sdu: u32,
) -> bool
    requires traffic { IsTraffic traffic.now }
    requires lawful { IsLawful list.now }
    ensures { (result ≡ true) ↔ CanPassList list.now traffic.now sdu }
{
    if traffic.period % list.cycle() != 0 {
        return false;
    }
    if !can_pass_turns(list, traffic.from, traffic.to, sdu) {
        return false;
    }
    let last = list.turn(traffic.to);
    is_limit_reset_in_time(last.state.octets, last.end, traffic.from + traffic.period)
}

/// Whether a stream gate's schedule passes each frame of the traffic. With a schedule change, the old list and the new list must both pass
/// each frame. `passes` calls it.
fn can_pass_schedule<A: Allocator + Copy>(
    schedule: &Schedule<A>,
    traffic: &Traffic,
    sdu: u32,
) -> bool
    requires { IsTraffic traffic.now }
    ensures { (result ≡ true) ↔ CanPassSchedule schedule.now traffic.now sdu }
{
    match schedule {
        Schedule::Fixed { lets, ipv: _ } => *lets,
        Schedule::Cyclic(list) => {
            let _ = list.cycle();
            can_pass_list(list, traffic, sdu)
        }
        Schedule::Joined(joined) => {
            let (old, new) = joined.lists();
            can_pass_list(old, traffic, sdu) && can_pass_list(new, traffic, sdu)
        }
    }
}

/// Whether `filter` passes each own frame if these frames keep `traffic`. Their size must be allowed, the filter must have no meter, and
/// its stream gate must pass each frame.
///
/// `passes_hop` of `net_check`, `hop_passes` of `net_latency` and 4 more call it.
pub fn passes<A: Allocator + Copy>(plan: &Plan<A>, filter: &FilterPlan, traffic: &Traffic) -> bool
    requires traffic { IsTraffic traffic.now }
    ensures { (result ≡ true) ↔ Passes plan.now filter.now traffic.now }
{
    let octets = longest_sdu(plan, filter.handle, traffic.longest);
    if is_above(filter.max_sdu, octets) || filter.meter.is_some() {
        return false;
    }
    match find_gate(plan.gates(), filter.gate) {
        None => false,
        Some(gate) => can_pass_schedule(&gate.schedule, traffic, octets),
    }
}
