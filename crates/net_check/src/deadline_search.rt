//! Search for changes by which streams of periodic talkers meet their deadlines: talkers that send later, and gate control lists that begin
//! earlier. Lists are shifted as a whole.
ghost use Rattle.std.specs.Prelude.{◌≤◌, All};
ghost use Rattle.std.specs.Option.{ForSome};
ghost use Rattle.net_file.specs.Rules.{IsTalker};
ghost use Rattle.net_latency.specs.Bounds.{HasValidPort};

use crate::changes::{Changes, changed_phases, put_phases, put_shift};
use crate::hop_times::{
    HopTimes, ListShift, StreamRoute, delay_without_waits, hop_times, shift_of_port, worst_delay,
};
use bridge_bounds::Phases;
use bridge_config::PortPlan;
use bridge_cycle::{CyclicList, Egress, Timeline};
use net_file::StreamRow;
use net_latency::{QueueBound, latency_through_hops, stream_hops};
use net_model::Network;
use std::alloc::Global;

/// Largest number of passes of `find_changes`. A pass changes each late stream once. Rings of five bridges needed up to four passes.
const PASSES: u32 = 8;

/// Largest number of changes that `relieve_stream` makes for one stream in one pass.
const CHANGES: u32 = 16;

/// Returns changes after which each stream that the search may change (`is_searched`) meets its deadline. A whole pass has tested them.
///
/// Returns `None` if some such stream was late in each of `PASSES` passes, or if memory runs out. No pass tests the changes of the last pass.
///
/// `explain_network_streams` calls it.
pub(crate) fn find_changes(
    alloc: Global,
    network: &Network<Global>,
    bounds: &[Vec<QueueBound>],
    streams: &[StreamRow<Global>],
) -> Option<Changes>
    requires placed { All (λ v. All HasValidPort v.items) bounds.now }
    requires talkers { All (λ s. ForSome s.talker IsTalker) streams.now }
{
    let searched = searched_streams(alloc, network, bounds, streams)?;
    let mut changes = Changes {
        shifts: Vec::new(alloc),
        sends: Vec::new(alloc),
    };
    for pass in 0..PASSES {
        if relieve_streams(
            alloc,
            network,
            bounds,
            streams,
            &searched,
            pass,
            &mut changes,
        )? {
            return Some(changes);
        }
    }
    None
}

/// Returns for each stream whether the search may change it (`is_searched`). `find_changes` computes this once for all passes. Returns
/// `None` if memory runs out.
fn searched_streams(
    alloc: Global,
    network: &Network<Global>,
    bounds: &[Vec<QueueBound>],
    streams: &[StreamRow<Global>],
) -> Option<Vec<bool>>
    requires placed { All (λ v. All HasValidPort v.items) bounds.now }
    requires talkers { All (λ s. ForSome s.talker IsTalker) streams.now }
{
    let mut searched = Vec::new(alloc);
    for stream in streams {
        let can_change = is_searched(alloc, network, bounds, stream);
        searched.push(can_change).ok()?;
    }
    Some(searched)
}

/// Returns whether the search may change a stream. This needs a periodic talker whose frames all pass, at most 64 hops, known delays, and a
/// deadline that the stream can meet.
///
/// Returns false if memory runs out.
///
/// `searched_streams` calls it.
fn is_searched(
    alloc: Global,
    network: &Network<Global>,
    bounds: &[Vec<QueueBound>],
    stream: &StreamRow<Global>,
) -> bool
    requires placed { All (λ v. All HasValidPort v.items) bounds.now }
    requires talkers { ForSome stream.now.talker IsTalker }
{
    let Some(talker) = stream.talker() else {
        return false;
    };
    let Ok(hops) = stream_hops(alloc, stream.hops()) else {
        return false;
    };
    if hops.len() > 64 {
        return false;
    }
    let (plans, links) = (network.plans(), network.links());
    let Ok(Some(course)) = latency_through_hops(alloc, plans, links, bounds, &hops, &talker) else {
        return false;
    };
    let route = StreamRoute {
        network,
        bounds,
        hops: &hops,
        talker,
    };
    course.passes && can_meet(alloc, &route, stream.deadline())
}

/// Returns whether a stream would meet its deadline, in ns, if no frame waited for its transmission. Returns true without a deadline, and
/// false if the times are unknown. `is_searched` calls it.
fn can_meet(alloc: Global, route: &StreamRoute<'_>, deadline: Option<u64>) -> bool
    requires placed { All (λ v. All HasValidPort v.items) route.now.bounds.now }
    requires talker { IsTalker route.now.talker }
{
    let Some(deadline) = deadline else {
        return true;
    };
    let sent = changed_phases(&[], 0, &route.talker);
    match hop_times(alloc, route, sent, &[]) {
        Some(times) => delay_without_waits(&times) <= u128::from(deadline),
        None => false,
    }
}

/// Changes lists and talkers for each late stream whose item in `searched` is true. `pass` is the number of the pass, from 0.
///
/// Returns whether no such stream was late, or `None` if memory runs out. `find_changes` calls it.
fn relieve_streams(
    alloc: Global,
    network: &Network<Global>,
    bounds: &[Vec<QueueBound>],
    streams: &[StreamRow<Global>],
    searched: &[bool],
    pass: u32,
    changes: &mut Changes,
) -> Option<bool>
    requires placed { All (λ v. All HasValidPort v.items) bounds.now }
    requires talkers { All (λ s. ForSome s.talker IsTalker) streams.now }
{
    let mut is_met = true;
    let mut index = 0usize;
    for stream in streams {
        let can_change = searched.get(index).copied().unwrap_or(false);
        if can_change {
            let was_met = relieve_listed_stream(
                alloc, network, bounds, stream, index, pass, changes,
            )?;
            is_met = is_met & was_met;
        }
        index = index.saturating_add(1);
    }
    Some(is_met)
}

/// Calls `relieve_stream` for the stream with index `index` of the file, in pass `pass`. Returns whether the stream needed no change;
/// without a periodic talker, it needs none. `relieve_streams` calls it.
fn relieve_listed_stream(
    alloc: Global,
    network: &Network<Global>,
    bounds: &[Vec<QueueBound>],
    stream: &StreamRow<Global>,
    index: usize,
    pass: u32,
    changes: &mut Changes,
) -> Option<bool>
    requires placed { All (λ v. All HasValidPort v.items) bounds.now }
    requires talkers { ForSome stream.now.talker IsTalker }
{
    let Some(talker) = stream.talker() else {
        return Some(true);
    };
    let hops = stream_hops(alloc, stream.hops()).ok()?;
    let route = StreamRoute {
        network,
        bounds,
        hops: &hops,
        talker,
    };
    let deadline = u128::from(stream.deadline().unwrap_or(u64::MAX));
    relieve_stream(alloc, &route, deadline, index, pass, changes)
}

/// Changes lists and the talker of the stream with index `index`, until the stream meets `deadline` (in ns) or no change helps. Makes at
/// most `CHANGES` changes.
///
/// Then marks the stream's ports as used in pass `pass`.
///
/// Returns whether the stream needed no change, or `None` if memory runs out.
///
/// `relieve_listed_stream` calls it.
fn relieve_stream(
    alloc: Global,
    route: &StreamRoute<'_>,
    deadline: u128,
    index: usize,
    pass: u32,
    changes: &mut Changes,
) -> Option<bool>
    requires placed { All (λ v. All HasValidPort v.items) route.now.bounds.now }
    requires talker { IsTalker route.now.talker }
{
    for count in 0..CHANGES {
        match changed_times(alloc, route, index, changes) {
            Some(times) if is_in_time(&times, deadline) => {
                if count == 0 {
                    return Some(true);
                }
                break;
            }
            Some(times) => {
                if !relieve_hop(alloc, route, &times, index, pass, changes)? {
                    break;
                }
            }
            None => return Some(false),
        }
    }
    let times = changed_times(alloc, route, index, changes)?;
    keep_ports(&times, pass, changes)?;
    Some(false)
}

/// Returns the times at each hop of the stream with index `index` after the changes. Returns `None` if phases are unknown or memory runs
/// out. `is_passing` and `relieve_stream` call it.
fn changed_times(
    alloc: Global,
    route: &StreamRoute<'_>,
    index: usize,
    changes: &Changes,
) -> Option<Vec<HopTimes>>
    requires placed { All (λ v. All HasValidPort v.items) route.now.bounds.now }
    requires talker { IsTalker route.now.talker }
{
    let sent = changed_phases(&changes.sends, index, &route.talker);
    hop_times(alloc, route, sent, &changes.shifts)
}

/// Returns whether each hop passes all frames of the stream, and the stream's worst delay is at most `deadline` ns. `is_passing` and
/// `relieve_stream` call it.
fn is_in_time(times: &[HopTimes], deadline: u128) -> bool {
    for hop in times {
        if !hop.passes {
            return false;
        }
    }
    worst_delay(times) <= deadline
}

/// Returns the hop at which a frame that arrives last waits longest. Hops at ports that a late stream used in pass `pass` don't count,
/// except the first hop.
///
/// Returns `None` if the frame waits at no hop that counts.
///
/// `relieve_hop` and `put_costliest_hop` call it.
pub(crate) fn costliest_hop(
    times: &[HopTimes],
    shifts: &[ListShift],
    pass: u32,
) -> Option<HopTimes> {
    let mut longest = 0;
    let mut found = None;
    for hop in times {
        if hop.last_wait > longest && (hop.is_first || !is_kept(shifts, hop, pass)) {
            longest = hop.last_wait;
            found = Some(*hop);
        }
    }
    found
}

/// Returns whether a late stream has used the hop's port in pass `pass`. Then other streams don't shift this port's list in this pass.
/// `costliest_hop` calls it.
fn is_kept(shifts: &[ListShift], hop: &HopTimes, pass: u32) -> bool {
    for shift in shifts {
        if shift.bridge == hop.hop.bridge && shift.port == hop.port && shift.pass == pass {
            return true;
        }
    }
    false
}

/// Removes the wait of the frame that arrives last at the costliest hop. At the first hop, the talker sends later; at other hops, the list
/// begins earlier.
///
/// `index` is the stream's index, and `pass` the number of the pass. Returns whether a change stays. `relieve_stream` calls it.
fn relieve_hop(
    alloc: Global,
    route: &StreamRoute<'_>,
    times: &[HopTimes],
    index: usize,
    pass: u32,
    changes: &mut Changes,
) -> Option<bool>
    requires placed { All (λ v. All HasValidPort v.items) route.now.bounds.now }
    requires talker { IsTalker route.now.talker }
{
    let Some(hop) = costliest_hop(times, &changes.shifts, pass) else {
        return Some(false);
    };
    if hop.is_first {
        relieve_talker(alloc, route, &hop, index, changes)
    } else {
        relieve_list(alloc, route, &hop, index, changes)
    }
}

/// Delays the talker's phases by `hop.last_wait`: the waiting time in ns at the first hop of a frame that arrives at the latest phase.
/// Undoes the delay if a frame may then be refused, or a time is unknown.
///
/// Returns whether the delay stays, or `None` if memory runs out.
///
/// `relieve_hop` calls it.
fn relieve_talker(
    alloc: Global,
    route: &StreamRoute<'_>,
    hop: &HopTimes,
    index: usize,
    changes: &mut Changes,
) -> Option<bool>
    requires placed { All (λ v. All HasValidPort v.items) route.now.bounds.now }
    requires talker { IsTalker route.now.talker }
{
    let before = changed_phases(&changes.sends, index, &route.talker);
    let later = later_phases(before, hop.last_wait, route.talker.period);
    put_phases(changes, index, later)?;
    if is_passing(alloc, route, index, changes) {
        return Some(true);
    }
    put_phases(changes, index, before)?;
    Some(false)
}

/// Lets the hop's list begin earlier by `hop.last_wait`: the waiting time in ns of a frame that arrives at the latest phase. Undoes the
/// shift if a frame may then be refused, or a time is unknown.
///
/// Returns whether the shift stays; false without a list that can shift (`cycle_of_port`).
///
/// `relieve_hop` calls it.
fn relieve_list(
    alloc: Global,
    route: &StreamRoute<'_>,
    hop: &HopTimes,
    index: usize,
    changes: &mut Changes,
) -> Option<bool>
    requires placed { All (λ v. All HasValidPort v.items) route.now.bounds.now }
    requires talker { IsTalker route.now.talker }
{
    let Some(cycle) = cycle_of_port(route.network, hop) else {
        return Some(false);
    };
    let before = shift_of_port(&changes.shifts, hop.hop.bridge, hop.port);
    let earlier = before.saturating_add(hop.last_wait) % cycle.max(1);
    put_shift(changes, hop, earlier, PASSES)?;
    if is_passing(alloc, route, index, changes) {
        return Some(true);
    }
    put_shift(changes, hop, before, PASSES)?;
    Some(false)
}

/// Returns whether, after the changes, the times of stream `index` are known and all its frames pass each hop. Otherwise the last change is
/// undone. `relieve_list` and `relieve_talker` call it.
fn is_passing(alloc: Global, route: &StreamRoute<'_>, index: usize, changes: &Changes) -> bool
    requires placed { All (λ v. All HasValidPort v.items) route.now.bounds.now }
    requires talker { IsTalker route.now.talker }
{
    match changed_times(alloc, route, index, changes) {
        Some(times) => is_in_time(&times, u128::MAX),
        None => false,
    }
}

/// Returns `phases` delayed by `wait` ns, counted within the period. If they would lie in two periods, they begin at the start of a period
/// instead. `relieve_talker` calls it.
fn later_phases(phases: Phases, wait: u64, period: u64) -> Phases {
    let width = phases.to.saturating_sub(phases.from);
    let from = phases.from.saturating_add(wait) % period.max(1);
    let to = from.saturating_add(width);
    if to >= period {
        return Phases { from: 0, to: width };
    }
    Phases { from, to }
}

/// Marks the ports of these hops as used in pass `pass`, without changing their lists' shifts. Later streams of the pass then leave them.
/// Returns `None` if memory runs out. `relieve_stream` calls it.
fn keep_ports(times: &[HopTimes], pass: u32, changes: &mut Changes) -> Option<()> {
    for hop in times {
        let earlier = shift_of_port(&changes.shifts, hop.hop.bridge, hop.port);
        put_shift(changes, hop, earlier, pass)?;
    }
    Some(())
}

/// Returns the cycle time in ns of the list at the hop's port, for `relieve_list`. Returns `None` if the port has no list or a schedule
/// change.
fn cycle_of_port(network: &Network<Global>, hop: &HopTimes) -> Option<u64> {
    let accepted = network.plans().get(hop.hop.bridge as usize)?;
    let list = port_list(accepted.plan().port(hop.port)?)?;
    Some(list.cycle())
}

/// Returns the gate control list of a port, which the search can shift. Returns `None` if the port has no list or a schedule change.
/// `cycle_of_port` and `put_lists_of_bridge` call it.
pub(crate) fn port_list(port: &PortPlan<Global>) -> Option<&CyclicList<u8, Global>> {
    match &port.list {
        Some(Egress::Cyclic(list)) => Some(list),
        _ => None,
    }
}
