//! Explanations of the word `refusable`: for each queue, the first condition that fails. If files can't be read again, there is no
//! explanation (`None`).
ghost use Rattle.std.specs.Prelude.{◌≤◌, All, length};
ghost use Rattle.bridge_bounds.specs.Traffic.{IsTraffic};
ghost use Rattle.net_file.specs.LimitedRows.{IsLimitedRow};
ghost use Rattle.net_file.specs.TrafficRows.{IsRow, IsTalkerRow};

use crate::limited_rows::{limit_burst, limit_rate};
use crate::reporting::read_rows;
use crate::timings::{QueueTiming, TrafficFigures, queue_timings};
use app_failure::read_accepted_plan;
use bridge_bounds::{Traffic, find_filter, longest_sdu, passes};
use bridge_check::{Accepted, find_gate};
use bridge_config::Plan;
use bridge_cycle::{CyclicList, Timeline};
use bridge_filter::FilterPlan;
use bridge_gate::{GateEntry, Schedule};
use bridge_groups::{SharedQueue, committed_tokens, is_open_gate, plan_shared_queues};
use bridge_meter::HIGHEST_RATE;
use bridge_text::TextBuilder;
use net_file::{LimitedRow, TalkerRow, TrafficRow};
use std::alloc::Global;
use std::fs;
use std::rt::Files;

/// Octets of a frame check sequence. The lengths in traffic rows don't include it.
const CHECK_OCTETS: u32 = 4;

/// Explains why frames of a traffic file may be refused, for each queue whose line has the word `refusable`. Reads both files again.
/// Returns `None` if this fails or memory runs out.
///
/// `traffic_reasons` of `app_networks` calls it.
pub fn explain_refusable<H: AllocGlobal + Files>(
    rt: &H,
    plan: &str,
    traffic: &str,
) -> Option<String> {
    let alloc = rt.alloc();
    let reader = fs::open(rt, plan).ok()?;
    let texts = fs::open(rt, traffic).ok()?;
    let accepted = match read_accepted_plan(alloc, alloc, plan, reader) {
        Ok(accepted) => accepted,
        Err(_) => return None,
    };
    let said = match read_rows(alloc, alloc, traffic, texts) {
        Ok(rows) => explain_refusable_rows(alloc, &accepted, &rows),
        Err(_) => None,
    };
    drop(accepted);
    said
}

/// Returns one sentence for each row and queue in which frames may be refused. Returns `None` if memory runs out. `explain_refusable` calls
/// it.
fn explain_refusable_rows(
    alloc: Global,
    accepted: &Accepted<Global>,
    rows: &[TalkerRow],
) -> Option<String>
    requires few { length rows.now ≤ 1024 }
    requires rows { All IsTalkerRow rows.now }
{
    let timings = queue_timings(alloc, accepted, rows).ok()?;
    let shared = plan_shared_queues(alloc, accepted).ok()?;
    let mut said = TextBuilder::new(alloc);
    let mut index: u32 = 0;
    for row in rows {
        index = index.saturating_add(1);
        put_refusable_row(&mut said, accepted.plan(), &shared, index, row, &timings);
    }
    said.finish().ok()
}

/// Appends a sentence for each queue in which frames of row `index` may be refused. `timings` has the results of all rows, `shared` the
/// shared queues. `explain_refusable_rows` calls it.
fn put_refusable_row(
    said: &mut TextBuilder<Global>,
    plan: &Plan<Global>,
    shared: &[SharedQueue],
    index: u32,
    row: &TalkerRow,
    timings: &[TrafficFigures],
)
    requires row { IsTalkerRow row.now }
{
    for figures in timings {
        if let TrafficFigures::Queue(queue) = figures {
            if queue.row == index && !queue.passes {
                put_queue(said, plan, shared, row, queue);
            }
        }
    }
}

/// Appends a sentence: the traffic row, its filter, the queue's port, and the first condition that fails there. `put_refusable_row` calls
/// it.
fn put_queue(
    said: &mut TextBuilder<Global>,
    plan: &Plan<Global>,
    shared: &[SharedQueue],
    row: &TalkerRow,
    queue: &QueueTiming,
)
    requires row { IsTalkerRow row.now }
{
    let Some(filter) = find_filter(plan.filters(), queue.filter) else {
        return;
    };
    said.put_template(
        "Traffic {0} (filter {1}) is refusable at port {2}: ",
        &[
            u64::from(queue.row),
            u64::from(queue.filter),
            u64::from(queue.port),
        ],
        &[],
    );
    match row {
        TalkerRow::Periodic(row) => put_reason(said, plan, &filter, &row.traffic, queue.class),
        TalkerRow::Limited(row) => put_limited_reason(said, plan, shared, &filter, row, queue),
    }
}

/// Appends the first condition that fails for a talker of a group. It concerns its filter's gate, SDU limit or meter, or the queue's
/// capacity. `put_queue` calls it.
fn put_limited_reason(
    said: &mut TextBuilder<Global>,
    plan: &Plan<Global>,
    shared: &[SharedQueue],
    filter: &FilterPlan,
    row: &LimitedRow,
    queue: &QueueTiming,
)
    requires row { IsLimitedRow row.now }
{
    if !is_open_gate(plan, filter.gate) {
        return said.put_template(
            "gate {0} is closed at some time, or has an entry with `octets`. A burst passes only if the gate is always open, without `octets`.\n",
            &[u64::from(filter.gate)],
            &[],
        );
    }
    let octets = longest_sdu(plan, filter.handle, row.longest);
    let most = filter.max_sdu.unwrap_or(0);
    if most < octets {
        put_long(said, octets, most);
        return put_hint(said, octets - most <= CHECK_OCTETS);
    }
    if !put_lacking_tokens(said, plan, filter, row) {
        put_lacking_room(said, shared, queue);
    }
}

/// Appends that the longest frame's SDU has `octets` octets, more than `most`, the filter's `max_sdu`. `put_limited_reason` and
/// `put_reason` call it.
fn put_long(said: &mut TextBuilder<Global>, octets: u32, most: u32) {
    said.put_template(
        "the SDU of its longest frame has {0} octets, and `max_sdu` is {1}.",
        &[u64::from(octets), u64::from(most)],
        &[],
    );
}

/// Appends why the filter's meter doesn't suffice for the talker: it is missing, or its burst size or rate is too small. Returns whether it
/// appended a sentence. `put_limited_reason` calls it.
fn put_lacking_tokens(
    said: &mut TextBuilder<Global>,
    plan: &Plan<Global>,
    filter: &FilterPlan,
    row: &LimitedRow,
) -> bool
    requires row { IsLimitedRow row.now }
{
    let (burst, rate) = (
        limit_burst(row.limit, row.longest),
        limit_rate(row.limit, row.longest),
    );
    let meter = u64::from(filter.meter.unwrap_or(0));
    let (template, have) = match committed_tokens(plan, filter.meter) {
        None => (
            "the filter has no meter. Give it a meter with `cbs = {0}` and `cir = {1}` or more.\n",
            0,
        ),
        Some((cbs, _)) if cbs < burst => (
            "its burst has {0} octets, and `cbs` of meter {2} is {3}. Raise `cbs` to {0}, or send smaller bursts.\n",
            cbs,
        ),
        Some(_) if HIGHEST_RATE < rate => (
            "its rate is {1} bit/s, more than any meter passes. Send less, or correct `period`.\n",
            0,
        ),
        Some((_, cir)) if cir < rate => (
            "its rate is {1} bit/s, and `cir` of meter {2} is {3}. Raise `cir` to {1}, or send less.\n",
            cir,
        ),
        Some(_) => return false,
    };
    said.put_template(template, &[burst, rate, meter, have], &[]);
    true
}

/// Appends that the shared queue's capacity doesn't suffice, or that no capacity is known to suffice, and a remedy. `put_limited_reason`
/// calls it.
fn put_lacking_room(said: &mut TextBuilder<Global>, shared: &[SharedQueue], queue: &QueueTiming) {
    for row in shared {
        if row.port == queue.port && row.class == queue.class {
            let capacity = u64::from(row.capacity);
            return match row.room {
                Some(room) => said.put_template(
                    "the queue of class {0} may be full, because it holds only {1} instead of {2} frames. Raise `rooms`, or lower the rates of the group's meters.\n",
                    &[u64::from(row.class), capacity, u64::from(room)],
                    &[],
                ),
                None if row.is_metered => said.put_template(
                    "the queue of class {0} may be full, because no capacity is known to suffice. Lower the rates of the group's meters, or remove the `[[change]]`.\n",
                    &[u64::from(row.class)],
                    &[],
                ),
                None => said.put_template(
                    "the queue of class {0} may be full, because no capacity is known to suffice. Give each filter of the group a meter, or lower the rates.\n",
                    &[u64::from(row.class)],
                    &[],
                ),
            };
        }
    }
}

/// Appends the first condition that fails for periodic traffic at a filter and its queue of class `class`. `put_queue`, and `put_condition`
/// of `net_check` for hops of streams, call it.
pub fn put_reason(
    said: &mut TextBuilder<Global>,
    plan: &Plan<Global>,
    filter: &FilterPlan,
    traffic: &Traffic,
    class: u8,
)
    requires traffic { IsTraffic traffic.now }
{
    let octets = longest_sdu(plan, filter.handle, traffic.longest);
    let most = filter.max_sdu.unwrap_or(octets);
    if most < octets {
        put_long(said, octets, most);
        return put_hint(said, octets - most <= CHECK_OCTETS);
    }
    if let Some(meter) = filter.meter {
        let (burst, rate) = committed_tokens(plan, filter.meter).unwrap_or((0, 0));
        return said.put_template(
            "meter {0} (`cir` {1} bit/s, `cbs` {2} octets) may refuse frames. For a periodic talker, no size is known to suffice. Remove the filter's `meter`.\n",
            &[u64::from(meter), rate, burst],
            &[],
        );
    }
    if passes(plan, filter, traffic) {
        return said.put_template(
            "a frame may still be queued when the next one arrives {1} ns later, and the queue may then be full. Its class {0} must be open early enough.\n",
            &[u64::from(class), traffic.period],
            &[],
        );
    }
    put_gate(said, plan, filter, traffic, octets);
}

/// Appends that the filter's stream gate may refuse a frame with `octets` SDU octets. Adds a hint if the lengths may include the frame
/// check sequence. `put_reason` calls it.
fn put_gate(
    said: &mut TextBuilder<Global>,
    plan: &Plan<Global>,
    filter: &FilterPlan,
    traffic: &Traffic,
    octets: u32,
)
    requires traffic { IsTraffic traffic.now }
{
    said.put_template(
        "for some arrival between {0} and {1} ns, gate {2} is closed, or its `octets` are fewer than the {3} of the SDU.",
        &[
            traffic.from,
            traffic.to,
            u64::from(filter.gate),
            u64::from(octets),
        ],
        &[],
    );
    if let Some(gate) = find_gate(plan.gates(), filter.gate) {
        put_open_entries(said, filter.gate, &gate.schedule);
    }
    put_hint(said, is_shorter_passing(plan, filter, traffic));
}

/// Number of open entries after which an explanation cuts a gate's list.
const MOST_ENTRIES: u32 = 8;

/// Appends when gate `number` is open, by the entries of its list. Appends nothing for a gate that is always open or has a schedule change.
/// `put_gate` calls it.
fn put_open_entries(said: &mut TextBuilder<Global>, number: u32, schedule: &Schedule<Global>) {
    match schedule {
        Schedule::Fixed { lets: false, .. } => {
            said.put_template(" Gate {0} is never open.", &[u64::from(number)], &[])
        }
        Schedule::Cyclic(list) => put_open_list(said, number, list),
        _ => {}
    }
}

/// Appends the open entries of gate `number`, in ns from the start of a cycle, with their `octets`. `put_open_entries` calls it.
fn put_open_list(
    said: &mut TextBuilder<Global>,
    number: u32,
    list: &CyclicList<GateEntry, Global>,
) {
    let mut start = 0u64;
    let mut count = 0u32;
    for (entry, length) in list.entries() {
        let end = start.saturating_add(*length);
        if entry.lets {
            put_open_entry(said, number, count, *entry, (start, end));
            count = count.saturating_add(1);
        }
        start = end;
    }
    if count == 0 {
        return said.put_template(" Gate {0} is never open.", &[u64::from(number)], &[]);
    }
    said.put_template(
        " of each cycle of {0} ns, counted from `base` {1}.",
        &[list.cycle(), list.base()],
        &[],
    );
}

/// Appends the times in ns of an open entry, the `count`th of its gate from 0, and its `octets`. Appends `..` for the first entry that is
/// left out. `put_open_list` calls it.
fn put_open_entry(
    said: &mut TextBuilder<Global>,
    number: u32,
    count: u32,
    entry: GateEntry,
    times: (u64, u64),
) {
    if count >= MOST_ENTRIES {
        if count == MOST_ENTRIES {
            said.put(", ..");
        }
        return;
    }
    let template = if count == 0 {
        " Gate {2} is open at {0}..{1} ns"
    } else {
        ", {0}..{1} ns"
    };
    said.put_template(template, &[times.0, times.1, u64::from(number)], &[]);
    if let Some(octets) = entry.octets {
        said.put_template(" (`octets` {0})", &[u64::from(octets)], &[]);
    }
}

/// Returns whether the filter would pass each frame if it were shorter by a frame check sequence of 4 octets. `put_gate` calls it.
fn is_shorter_passing(plan: &Plan<Global>, filter: &FilterPlan, traffic: &Traffic) -> bool
    requires traffic { IsTraffic traffic.now }
{
    if traffic.least <= CHECK_OCTETS {
        return false;
    }
    let shorter = Traffic {
        period: traffic.period,
        from: traffic.from,
        to: traffic.to,
        least: traffic.least - CHECK_OCTETS,
        longest: traffic.longest - CHECK_OCTETS,
    };
    passes(plan, filter, &shorter)
}

/// Appends a hint if frames would pass without 4 octets (`is_shorter_passing`): their lengths may include the frame check sequence. Ends
/// the line in any case. `put_limited_reason`, `put_reason` and `put_gate` call it.
fn put_hint(said: &mut TextBuilder<Global>, is_shorter_passing: bool) {
    if is_shorter_passing {
        said.put(
            " With 4 octets less it would pass: `least` and `longest` leave out the frame check sequence.",
        );
    }
    said.put("\n");
}
