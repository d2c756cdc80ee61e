//! Describes the queues that the filters of a group share: windows, delay bound, meters and capacity.
ghost use Rattle.std.specs.Prelude.{◌<◌, ◌≤◌};

use crate::meters::find_meter;
use crate::plan_description::put_queue;
use crate::sentence::LintText;
use bridge_check::{Accepted, can_wait};
use bridge_config::{Plan, PortPlan};
use bridge_filter::FilterPlan;
use bridge_frame::occupation;
use bridge_groups::{
    SharedQueue, is_bounded_by_gates, least_shared_bound, padded_shared_bound, plan_shared_queues,
};
use bridge_limits::LONGEST_FRAME;
use std::alloc::{Allocator, Global};

/// Sentence on the delay bound of a shared queue.
const BOUND: &str =
    "Delay bound: {0} ns from arrival to the end of transmission, whatever the talkers of the {1} {a} send. Their longest frame has {2} octets and needs {3} ns.\n";

/// Sentence on the meters from which the bound follows.
const METERS: &str =
    "Together, the meters pass at most {0} metered octets at once, and {1} bit/s in the long run.\n";

/// Sentence on a bound by stream gates.
const GATES: &str =
    "The bound follows from the windows and the octet limits of the filters' stream gates.\n";

/// Sentence on the bound for frames of at least 60 octets.
const PADDED: &str =
    "For frames of at least 60 octets, as on every Ethernet link, the bound is {0} ns.\n";

/// Sentence on a queue that stream gates bound, without a sufficient capacity.
const NO_METER_ROOM: &str =
    "The queue may drop frames: no sufficient capacity is known, because filter {0} has no meter.\n";

/// Sentence on a bound by capacity, because a filter has no meter.
const NO_METER: &str =
    "The bound follows from the queue's capacity of {0} frames, because filter {1} has no meter. With a meter for each filter, the bound can be less.\n";

/// Sentence on a bound by capacity, because no bound by the meters is known.
const OVERLOAD: &str =
    "The bound follows from the queue's capacity of {0} frames, because no bound by the meters is known. The meters may pass more than the windows carry: lower their rates, or lengthen the windows.\n";

/// Sentence on a queue that drops no frame.
const ENOUGH_ROOM: &str =
    "With a capacity of {0} frames, the queue drops no frame that passed its filter. Its capacity is {1}.\n";

/// Sentence on a queue with too small a capacity.
const LITTLE_ROOM: &str =
    "The queue may drop frames: it needs a capacity of {0} frames, and its capacity is {1}. Raise the class's number in `rooms` to {0}.\n";

/// Sentence on a queue for which no sufficient capacity is known.
const NO_ROOM: &str =
    "The queue may drop frames: no sufficient capacity is known. A capacity is known for at most 4096 frames, and only without a schedule change.\n";

/// Sentences on stream gates that are apart in time. `{0}`: the queue's delay bound in ns.
const APART: &str =
    "The stream gates of the filters that share this queue are apart in time: after one was open, the others stay closed for at least {0} ns. So in this queue, no filter changes another filter's departures, drops or delays.\n";

/// What the filters that share a queue can send: the sums of their meters, and their longest frame.
#[derive(Clone, Copy)]
struct Sharers {
    /// Number of filters that share the queue.
    count: u64,
    /// Greatest `max_sdu` in octets.
    sdu: u32,
    /// Octets that the meters pass at once.
    burst: u64,
    /// Rate in bit/s that the meters pass in the long run.
    rate: u64,
    /// Number of the first filter without a meter; `None` if all have meters.
    unmetered: Option<u32>,
}

impl Sharers {
    /// Adds a filter's share: the octets and the rate that the filter's meter passes, and the filter's longest frame. `number` is the
    /// filter's number. `queue_sharers` calls it for each filter that shares the queue.
    fn add<A: Allocator + Copy>(&mut self, plan: &Plan<A>, number: u32, filter: &FilterPlan) {
        self.count = self.count.saturating_add(1);
        self.sdu = self.sdu.max(filter.max_sdu.unwrap_or(0));
        let meter = filter
            .meter
            .and_then(|meter| find_meter(plan.meters(), meter));
        match meter {
            None => self.unmetered = self.unmetered.or(Some(number)),
            Some(limits) => {
                self.burst = self.burst.saturating_add(limits.cbs);
                self.rate = self.rate.saturating_add(limits.cir);
                if !limits.drop_yellow {
                    self.burst = self.burst.saturating_add(limits.ebs);
                    self.rate = self.rate.saturating_add(limits.eir);
                }
            }
        }
    }
}

/// Returns the sums of the meters of all filters that share the queue of `row`, and their longest frame. `put_shared_queue` calls it.
fn queue_sharers<A: Allocator + Copy>(plan: &Plan<A>, row: &SharedQueue) -> Sharers
    requires from { 1 ≤ row.now.port }
    requires to { row.now.port ≤ 16 }
    requires class { row.now.class < 8 }
{
    let mut sharers = Sharers {
        count: 0,
        sdu: 0,
        burst: 0,
        rate: 0,
        unmetered: None,
    };
    for (number, filter) in plan.filters() {
        if is_in_group(filter, row.group) && can_wait(plan, filter, row.port, row.class) {
            sharers.add(plan, *number, filter);
        }
    }
    sharers
}

/// Returns whether a filter is in group `group`. `queue_sharers`, `first_of_group` and `put_group` call it.
fn is_in_group(filter: &FilterPlan, group: u32) -> bool {
    match filter.group {
        Some(own) => own == group,
        None => false,
    }
}

/// Returns the number of the first filter in the group; 0 if the group has no filter. `put_filters` calls it.
pub(crate) fn first_of_group(filters: &[(u32, FilterPlan)], group: u32) -> u32 {
    for (number, filter) in filters {
        if is_in_group(filter, group) {
            return *number;
        }
    }
    0
}

/// Writes the filters of group `group`, and its shared queues with windows, bound and capacity, for the description of an accepted plan.
///
/// `put_filters` calls it once for each group; `rows` has the shared queues of all groups.
pub(crate) fn put_group<A: Allocator + Copy>(
    said: &mut LintText,
    plan: &Plan<A>,
    rows: &[SharedQueue],
    group: u32,
) {
    let mut template = "Filters of group {0}: {1}";
    for (number, filter) in plan.filters() {
        if is_in_group(filter, group) {
            said.put_template(template, &[u64::from(group), u64::from(*number)], &[]);
            template = ", {1}";
        }
    }
    said.put(".\n");
    for row in rows {
        if row.group == group {
            put_shared_queue(said, plan, row);
        }
    }
}

/// Writes the windows, the bound, the meters and the capacity of a shared queue, and whether its stream gates are apart in time.
/// `put_group` calls it.
fn put_shared_queue<A: Allocator + Copy>(said: &mut LintText, plan: &Plan<A>, row: &SharedQueue) {
    if row.port < 1 || row.port > 16 || row.class > 7 {
        return;
    }
    let Some(port) = plan.port(row.port) else {
        return;
    };
    put_queue(said, row.port, port, row.class);
    let sharers = queue_sharers(plan, row);
    put_bound(said, port, row, &sharers);
    put_capacity(said, row);
    if row.is_apart && sharers.count > 1 {
        said.put_template(APART, &[least_shared_bound(row)], &[]);
    }
}

/// Writes the delay bound of a shared queue, and its filters' meters, or why the bound doesn't follow from meters. `put_shared_queue` calls
/// it.
fn put_bound<A: Allocator + Copy>(
    said: &mut LintText,
    port: &PortPlan<A>,
    row: &SharedQueue,
    sharers: &Sharers,
) {
    let length = sharers.sdu.saturating_add(16).min(LONGEST_FRAME);
    let occupied = occupation(length, port.speed);
    let word = if sharers.count == 1 {
        "filter"
    } else {
        "filters"
    };
    let bound = least_shared_bound(row);
    let numbers = [bound, sharers.count, u64::from(length), occupied];
    said.put_template(BOUND, &numbers, &[word]);
    if let Some(padded) = padded_shared_bound(row) {
        said.put_template(PADDED, &[padded], &[]);
    }
    put_cause(said, row, sharers);
}

/// Writes from what the delay bound of a shared queue follows: stream gates, meters or capacity. `put_bound` calls it.
fn put_cause(said: &mut LintText, row: &SharedQueue, sharers: &Sharers) {
    let capacity = u64::from(row.capacity);
    let by_gates = is_bounded_by_gates(row);
    if by_gates {
        said.put(GATES);
    }
    match (row.is_metered, sharers.unmetered) {
        (false, Some(filter)) if by_gates => {
            said.put_template(NO_METER_ROOM, &[u64::from(filter)], &[]);
        }
        (false, None) if by_gates => said.put(NO_ROOM),
        (true, _) => said.put_template(METERS, &[sharers.burst, sharers.rate], &[]),
        (false, Some(filter)) => {
            said.put_template(NO_METER, &[capacity, u64::from(filter)], &[]);
        }
        (false, None) => said.put_template(OVERLOAD, &[capacity], &[]),
    }
}

/// Writes whether the queue's capacity suffices to drop no frame. Writes nothing if the bound doesn't follow from the meters: then no
/// capacity is known to suffice. `put_shared_queue` calls it.
fn put_capacity(said: &mut LintText, row: &SharedQueue) {
    let capacity = u64::from(row.capacity);
    match row.room {
        Some(room) if room <= row.capacity => {
            said.put_template(ENOUGH_ROOM, &[u64::from(room), capacity], &[]);
        }
        Some(room) => said.put_template(LITTLE_ROOM, &[u64::from(room), capacity], &[]),
        None if row.is_metered => said.put(NO_ROOM),
        None => {}
    }
}

/// Returns the shared queues of a plan's groups. If memory runs out, discards the text, so the caller's `finish` fails. `describe_plan`
/// calls it.
pub(crate) fn shared_queues(
    alloc: Global,
    said: &mut LintText,
    accepted: &Accepted<Global>,
) -> Vec<SharedQueue> {
    match plan_shared_queues(alloc, accepted) {
        Ok(rows) => rows,
        Err(_) => {
            said.discard();
            Vec::new(alloc)
        }
    }
}
