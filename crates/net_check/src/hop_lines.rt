//! Lines with the times of a stream's frames at each hop, and the sentence about a missed deadline. `net check --explain` prints them.
ghost use Rattle.std.specs.Prelude.{◌≡◌, ◌<◌, ◌≤◌, All};
ghost use Rattle.std.specs.Option.{ForSome};
ghost use Rattle.bridge_cycle.specs.declared.fit_search.TheConstants.{END_OF_SEARCHES};
ghost use Rattle.net_file.specs.Rules.{IsTalker};
ghost use Rattle.net_latency.specs.Bounds.{HasValidPort};

use crate::deadline_search::costliest_hop;
use crate::hop_times::{HopTimes, StreamRoute, delay_without_waits, hop_times, worst_delay};
use crate::refusing::bridge_name;
use bridge_bounds::Phases;
use bridge_config::Plan;
use bridge_cycle::{CyclicList, END_OF_SEARCHES, Egress, Run, Timeline, is_open, longest_run};
use bridge_text::TextBuilder;
use net_file::{NetworkFile, StreamRow};
use net_latency::{QueueBound, latency_through_hops, stream_hops};
use net_model::Network;
use std::alloc::Global;

/// Largest number of a list's intervals that overlap one cycle: its largest number of entries, plus one because the cycle can begin within
/// an interval.
const MOST_TURNS: u32 = 257;

/// Window in which the class of a hop's queue is open without a break. Times are in ns from the start of a period.
#[derive(Clone, Copy)]
struct Window {
    /// Start of the window in ns, one cycle later, so that it isn't negative.
    later: u64,
    /// Cycle time of the list in ns.
    cycle: u64,
    /// End of the window in ns.
    to: u64,
}

/// Appends the times at each hop for each stream with a periodic talker and known delays. Returns whether a stream whose frames all pass
/// misses a deadline that it can meet. `explain_network_streams` calls it.
pub(crate) fn put_stream_times(
    alloc: Global,
    said: &mut TextBuilder<Global>,
    file: &NetworkFile<Global>,
    network: &Network<Global>,
    bounds: &[Vec<QueueBound>],
    streams: &[StreamRow<Global>],
) -> bool
    requires placed { All (λ v. All HasValidPort v.items) bounds.now }
    requires talkers { All (λ s. ForSome s.talker IsTalker) streams.now }
{
    let mut is_late = false;
    for stream in streams {
        if put_times_of_stream(alloc, said, file, network, bounds, stream) {
            is_late = true;
        }
    }
    is_late
}

/// If a stream has a periodic talker, at most 64 hops and known delays, appends its times at each hop. Returns whether all its frames pass
/// and it misses a deadline that it can meet.
///
/// Otherwise appends nothing and returns false. `put_stream_times` calls it.
fn put_times_of_stream(
    alloc: Global,
    said: &mut TextBuilder<Global>,
    file: &NetworkFile<Global>,
    network: &Network<Global>,
    bounds: &[Vec<QueueBound>],
    stream: &StreamRow<Global>,
) -> bool
    requires placed { All (λ v. All HasValidPort v.items) bounds.now }
    requires talkers { ForSome stream.now.talker IsTalker }
{
    let Some(talker) = stream.talker() else {
        return false;
    };
    let Ok(hops) = stream_hops(alloc, stream.hops()) else {
        return false;
    };
    if hops.len() > 64 {
        return false;
    }
    let (plans, links) = (network.plans(), network.links());
    let Ok(Some(course)) = latency_through_hops(alloc, plans, links, bounds, &hops, &talker) else {
        return false;
    };
    let route = StreamRoute {
        network,
        bounds,
        hops: &hops,
        talker,
    };
    let sent = Phases {
        from: talker.from,
        to: talker.to,
    };
    let Some(times) = hop_times(alloc, &route, sent, &[]) else {
        return false;
    };
    said.put_template(
        "Stream {a} at each hop, in ns from the start of a period:\n",
        &[],
        &[stream.name()],
    );
    put_hops(said, file, network, &times);
    put_deadline(said, file, stream.deadline(), &times) && course.passes
}

/// Appends the lines of a stream's hops: one line for each queue that the frames of a hop can enter. `put_times_of_stream` calls it.
fn put_hops(
    said: &mut TextBuilder<Global>,
    file: &NetworkFile<Global>,
    network: &Network<Global>,
    times: &[HopTimes],
) {
    for hop in times {
        put_queue_line(said, file, network, hop);
    }
}

/// Appends the line of one queue of a hop: arrivals, ends of transmission, longest wait, and the window if there is one. `put_hops` calls
/// it.
fn put_queue_line(
    said: &mut TextBuilder<Global>,
    file: &NetworkFile<Global>,
    network: &Network<Global>,
    hop: &HopTimes,
) {
    said.put_template(
        "{a}.{0} port {1} class {2}: arrives {3}..{4}, leaves {5}..{6} (waits {7})",
        &[
            u64::from(hop.hop.filter),
            u64::from(hop.port),
            u64::from(hop.class),
            hop.arrives.from,
            hop.arrives.to,
            hop.leaves.from,
            hop.leaves.to,
            hop.longest_wait,
        ],
        &[bridge_name(file.bridges(), hop.hop.bridge)],
    );
    if let Some(accepted) = network.plans().get(hop.hop.bridge as usize) {
        if let Some(window) = window_of_hop(accepted.plan(), hop) {
            put_window(said, window, hop.leaves.to);
        }
    }
    said.put("\n");
}

/// Appends the window, and its slack: the time in ns from `leaves`, the latest end of transmission, to the window's end. The window's start
/// can be negative. `put_queue_line` calls it.
fn put_window(said: &mut TextBuilder<Global>, window: Window, leaves: u64) {
    said.put(", window ");
    match window.later.checked_sub(window.cycle) {
        Some(from) => said.put_number(from),
        None => said.put_template("-{0}", &[window.cycle.saturating_sub(window.later)], &[]),
    }
    said.put_template(
        "..{0}, slack {1}",
        &[window.to, window.to.saturating_sub(leaves)],
        &[],
    );
}

/// Returns the window in which the last transmission of a hop's frames ends. Returns `None` without a cyclic list, if the class never
/// closes, or if the end is after `END_OF_SEARCHES`.
///
/// `put_queue_line` calls it.
fn window_of_hop(plan: &Plan<Global>, hop: &HopTimes) -> Option<Window> {
    let port = plan.port(hop.port)?;
    let time = hop.leaves.to.checked_sub(1)?;
    if hop.class >= 8 || time >= END_OF_SEARCHES {
        return None;
    }
    match &port.list {
        Some(Egress::Cyclic(list)) => window_around_time(list, hop.class, time),
        _ => None,
    }
}

/// Returns the window that contains `time`, in ns. Returns `None` if the class is never closed or never open. `window_of_hop` calls it.
fn window_around_time(list: &CyclicList<u8, Global>, class: u8, time: u64) -> Option<Window>
    requires class { class < 8 }
    requires time { time < END_OF_SEARCHES }
{
    let Run::For(_) = longest_run(list, class) else {
        return None;
    };
    Some(Window {
        later: window_start(list, class, time),
        cycle: list.cycle(),
        to: window_end(list, class, time),
    })
}

/// Returns the start in ns of the window of class `class` around the time one cycle after `time`. The window around `time` begins one cycle
/// earlier, so its start may be negative. `window_around_time` calls it.
fn window_start(list: &CyclicList<u8, Global>, class: u8, time: u64) -> u64
    requires class { class < 8 }
    requires time { time < END_OF_SEARCHES }
{
    let end = time + list.cycle();
    let mut start = time;
    let mut seen = time;
    for _turn in 0..MOST_TURNS {
        if seen >= end {
            return start;
        }
        let turn = list.turn(seen);
        if !is_open(turn.state, class) {
            start = turn.end;
        }
        seen = turn.end;
    }
    start
}

/// Returns the first time in ns, from `time` on, at which the class is closed, but at most one cycle after `time`. `window_around_time`
/// calls it.
fn window_end(list: &CyclicList<u8, Global>, class: u8, time: u64) -> u64
    requires class { class < 8 }
    requires time { time < END_OF_SEARCHES }
{
    let end = time + list.cycle();
    let mut seen = time;
    for _turn in 0..MOST_TURNS {
        if seen >= end {
            return end;
        }
        let turn = list.turn(seen);
        if !is_open(turn.state, class) {
            return seen;
        }
        seen = turn.end;
    }
    end
}

/// Appends by how many ns the stream misses its deadline, and why. Appends nothing if the stream meets its deadline or has none.
///
/// Returns whether the stream misses a deadline that it can meet. `put_times_of_stream` calls it.
fn put_deadline(
    said: &mut TextBuilder<Global>,
    file: &NetworkFile<Global>,
    deadline: Option<u64>,
    times: &[HopTimes],
) -> bool {
    let Some(deadline) = deadline else {
        return false;
    };
    let missing = worst_delay(times).saturating_sub(u128::from(deadline));
    if missing == 0 {
        return false;
    }
    said.put("It misses its deadline by ");
    said.put_integer(missing);
    let shortest = delay_without_waits(times);
    if shortest > u128::from(deadline) {
        said.put(" ns and can't meet it: its transmission times and link delays alone take ");
        said.put_integer(shortest);
        said.put(" ns.\n");
        return false;
    }
    put_costliest_hop(said, file, times);
    true
}

/// Appends the hop at which the latest frame of a late stream waits longest. If this frame waits nowhere, appends a remedy instead.
/// `put_deadline` calls it.
fn put_costliest_hop(
    said: &mut TextBuilder<Global>,
    file: &NetworkFile<Global>,
    times: &[HopTimes],
) {
    let Some(hop) = costliest_hop(times, &[], 0) else {
        return said.put(
            " ns, and only frames before the latest arrival wait. Begin the windows at the earliest arrivals, or raise the deadline.\n",
        );
    };
    said.put_template(
        " ns, and waits longest at {a}.{0}: there the window at port {1} begins {2} ns after the latest arrival.\n",
        &[
            u64::from(hop.hop.filter),
            u64::from(hop.port),
            hop.last_wait,
        ],
        &[bridge_name(file.bridges(), hop.hop.bridge)],
    );
}
