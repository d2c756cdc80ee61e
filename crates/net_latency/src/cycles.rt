//! Explanations of refused traffic rows, and of periods that aren't multiples of the plans' cycle times. They list filters or cycle times,
//! and a remedy.

use crate::hop_faults::{put_grouped, put_protected};
use crate::texts::{NetworkText, reread_text};
use crate::traffic::{can_wait_at_port, talker_row_fault};
use app_failure::read_accepted_plan;
use bridge_bounds::find_filter;
use bridge_check::{Accepted, filter_reach, find_gate};
use bridge_config::Plan;
use bridge_cycle::{Egress, Timeline};
use bridge_filter::FilterPlan;
use bridge_gate::Schedule;
use bridge_text::{Document, Instance, TextBuilder, put_position};
use net_file::{
    NetFault, NetField, NetSection, TalkerRow, TrafficFault, TrafficRow, parse_traffic,
    read_document,
};
use std::alloc::Global;
use std::fs;
use std::rt::Files;
use toml::Table;

/// A traffic file that was read again for an explanation, and the path of its plan. Functions that explain the file take it as `asked`.
#[derive(Clone, Copy)]
struct TrafficText<'a> {
    /// Path of the traffic file.
    path: &'a str,
    /// Contents and document of the traffic file.
    document: Document<'a>,
    /// Path of the plan.
    plan: &'a str,
}

/// Explains why a row of the traffic file doesn't suit the plan, for `--explain`. Reads both files again. Returns `None` if this fails or
/// memory runs out. `explain_refused_traffic` of `app_networks` calls it.
pub fn explain_traffic<H: AllocGlobal + Files>(
    rt: &H,
    plan: &str,
    traffic: &str,
) -> Option<String> {
    let alloc = rt.alloc();
    let octets = reread_text(rt, traffic)?;
    let text = str::from_utf8(&octets).ok()?;
    let Ok(table) = read_document(alloc, &octets) else {
        return None;
    };
    let Ok(rows) = parse_traffic(alloc, alloc, &octets) else {
        return None;
    };
    let reader = fs::open(rt, plan).ok()?;
    let accepted = match read_accepted_plan(alloc, alloc, plan, reader) {
        Ok(accepted) => accepted,
        Err(_) => return None,
    };
    let asked = traffic_text(plan, traffic, text, &table);
    let said = explain_rows(alloc, asked, accepted.plan(), &rows);
    drop(accepted);
    said
}

/// Returns the traffic file (`path`, `text`, `table`) and the path of its plan in one value. `explain_traffic` calls it.
fn traffic_text<'a>(
    plan: &'a str,
    path: &'a str,
    text: &'a str,
    table: &'a Table,
) -> TrafficText<'a> {
    let document = Document { text, table };
    TrafficText {
        path,
        document,
        plan,
    }
}

/// Appends the path of the traffic file, and the position of the key `field` in row `index`, from 1. `explain_grouped_filter`,
/// `explain_limited_row` and 2 more call it.
fn put_row_position(
    said: &mut TextBuilder<Global>,
    asked: TrafficText<'_>,
    index: u32,
    field: NetField,
) {
    let row = Instance {
        document: asked.document,
        section: NetSection::Traffic.name(),
        index,
    };
    said.put(asked.path);
    put_position(said, row.position(Some(field.key())));
}

/// Explains the first row that doesn't suit the plan; only this row is in the fault line. Returns `None` if every row suits the plan, or if
/// memory runs out. `explain_traffic` calls it.
fn explain_rows(
    alloc: Global,
    asked: TrafficText<'_>,
    plan: &Plan<Global>,
    rows: &[TalkerRow],
) -> Option<String> {
    let mut index: u32 = 0;
    for row in rows {
        index = index.saturating_add(1);
        if let Some(fault) = talker_row_fault(plan, index, row) {
            return match row {
                TalkerRow::Periodic(row) => explain_periodic_row(
                    alloc, asked, plan, index, row, fault,
                ),
                TalkerRow::Limited(row) => explain_limited_row(
                    alloc, asked, plan, index, row.filter,
                ),
            };
        }
    }
    None
}

/// Explains the fault of periodic row `index`. Its period isn't a multiple of a cycle time, or its filter is missing, grouped or
/// unprotected. `explain_rows` calls it.
fn explain_periodic_row(
    alloc: Global,
    asked: TrafficText<'_>,
    plan: &Plan<Global>,
    index: u32,
    row: &TrafficRow,
    fault: TrafficFault,
) -> Option<String> {
    if let TrafficFault::Text(NetFault::OutOfRange(_)) = fault {
        return explain_row(alloc, asked, plan, index, row);
    }
    let filter = find_filter(plan.filters(), row.filter);
    match filter.and_then(|filter| filter.group) {
        Some(group) => explain_grouped_filter(alloc, asked, index, row, group),
        None => explain_unusable_filter(alloc, asked, plan, index, row.filter),
    }
}

/// Explains periodic row `index`, whose filter belongs to group `group`. Names the limit that the row can have instead: `frames` and
/// `period`. `explain_periodic_row` calls it.
fn explain_grouped_filter(
    alloc: Global,
    asked: TrafficText<'_>,
    index: u32,
    row: &TrafficRow,
    group: u32,
) -> Option<String> {
    let mut said = TextBuilder::new(alloc);
    put_row_position(&mut said, asked, index, NetField::Filter);
    let span = row.traffic.to.saturating_sub(row.traffic.from);
    said.put_template(
        "`filter` of `traffic` {0} is {1}, a filter of group {2} in the plan {a}. The bound of a shared queue needs no phases.\nIts talker sends at most one frame in any {3} ns: give `frames = 1` and `period = {3}` instead of `from` and `to`.\n",
        &[
            u64::from(index),
            u64::from(row.filter),
            u64::from(group),
            row.traffic.period.saturating_sub(span),
        ],
        &[asked.plan],
    );
    said.finish().ok()
}

/// Explains limited row `index`: its filter `number` is missing, protected, or in no group. Lists the grouped filters. `explain_rows` calls
/// it.
fn explain_limited_row(
    alloc: Global,
    asked: TrafficText<'_>,
    plan: &Plan<Global>,
    index: u32,
    number: u32,
) -> Option<String> {
    let (template, remedy) = match find_filter(plan.filters(), number) {
        None => (
            "`filter` of `traffic` {0} is {1}, but the plan {a} has no filter {1}.\n",
            "Correct the number, or add the filter to the plan.\n",
        ),
        Some(filter) if filter.protected => (
            "`filter` of `traffic` {0} is {1}, a protected filter of the plan {a}. No capacity of its queues is known to suffice for bursts.\n",
            "Give `period`, `from` and `to`, or put the filter into a `group` instead of `protected = true`.\n",
        ),
        Some(filter) if filter.handle.is_none() => (
            "`filter` of `traffic` {0} is {1}, but this filter of the plan {a} has no `handle`, so it can't be in a group.\n",
            "Correct the number, or add a filter with `handle` and `group` for this talker.\n",
        ),
        Some(_) => (
            "`filter` of `traffic` {0} is {1}, but the plan {a} puts this filter into no group, so it has no delay bound.\n",
            "Correct the number, or put the filter into a `group`.\n",
        ),
    };
    let mut said = TextBuilder::new(alloc);
    put_row_position(&mut said, asked, index, NetField::Filter);
    said.put_template(
        template,
        &[u64::from(index), u64::from(number)],
        &[asked.plan],
    );
    put_grouped(alloc, &mut said, plan.filters());
    said.put(remedy);
    said.finish().ok()
}

/// Explains periodic row `index`: its filter `number` is missing or unprotected. Lists the protected filters. `explain_periodic_row` calls
/// it.
fn explain_unusable_filter(
    alloc: Global,
    asked: TrafficText<'_>,
    plan: &Plan<Global>,
    index: u32,
    number: u32,
) -> Option<String> {
    let (template, remedy) = match find_filter(plan.filters(), number) {
        Some(filter) if filter.handle.is_none() => (
            "`filter` of `traffic` {0} is {1}, but this filter of the plan {a} has no `handle`, so it can't be protected and has no delay bound.\n",
            "Correct the number, or add a protected filter with `handle` for this talker.\n",
        ),
        Some(_) => (
            "`filter` of `traffic` {0} is {1}, but the plan {a} doesn't protect this filter, so it has no delay bound.\n",
            "Correct the number, or set `protected = true` in the filter.\n",
        ),
        None => (
            "`filter` of `traffic` {0} is {1}, but the plan {a} has no filter {1}.\n",
            "Correct the number, or add the filter to the plan.\n",
        ),
    };
    let mut said = TextBuilder::new(alloc);
    put_row_position(&mut said, asked, index, NetField::Filter);
    said.put_template(
        template,
        &[u64::from(index), u64::from(number)],
        &[asked.plan],
    );
    put_protected(alloc, &mut said, plan.filters());
    said.put(remedy);
    said.finish().ok()
}

/// Cycle times on a route that an explanation has listed so far, and the period that must be a multiple of each.
#[derive(Clone, Copy)]
struct Cycles<'a> {
    /// Period of the talker in ns.
    period: u64,
    /// Name of the bridge; empty for a plan without network.
    bridge: &'a str,
    /// A cycle time in ns that is a multiple of every cycle time so far; 1 before the first one. It is 0 once no cycle time was such a
    /// multiple.
    common: u64,
}

impl<'a> Cycles<'a> {
    /// Appends a sentence with the cycle time `cycle`, in ns, of gate or port `number`; `what` says which. Says whether the period is a
    /// multiple of this time. Updates `common`. `put_gate` and `put_port_cycles` call it.
    fn put_cycle(&mut self, said: &mut TextBuilder<Global>, what: &str, number: u32, cycle: u64) {
        let common = self.common;
        self.common = if common == 0 || cycle == 0 {
            0
        } else if common % cycle == 0 {
            common
        } else if cycle % common == 0 {
            cycle
        } else {
            0
        };
        let link = if self.bridge.is_empty() { "" } else { " of " };
        let template = if cycle > 0 && self.period % cycle == 0 {
            "{a} {0}{b}{c} has a cycle of {1} ns.\n"
        } else {
            "{a} {0}{b}{c} has a cycle of {1} ns, and the period isn't a multiple of it.\n"
        };
        said.put_template(
            template,
            &[u64::from(number), cycle],
            &[what, link, self.bridge],
        );
    }

    /// Appends the cycle times of stream gate `number`: none for a fixed or missing gate, two if a schedule change replaces its list.
    /// `put_route` calls it.
    fn put_gate(&mut self, said: &mut TextBuilder<Global>, plan: &Plan<Global>, number: u32) {
        let Some(gate) = find_gate(plan.gates(), number) else {
            return;
        };
        match &gate.schedule {
            Schedule::Fixed { lets: _, ipv: _ } => {}
            Schedule::Cyclic(list) => self.put_cycle(said, "Gate", number, list.cycle()),
            Schedule::Joined(joined) => {
                let (old, new) = joined.lists();
                self.put_cycle(said, "Gate", number, old.cycle());
                self.put_cycle(said, "After the schedule change, gate", number, new.cycle());
            }
        }
    }

    /// Appends the cycle times of port `number`: none without a list, two if a schedule change replaces its list. `put_ports` calls it.
    fn put_port_cycles(&mut self, said: &mut TextBuilder<Global>, plan: &Plan<Global>, number: u8) {
        let Some(port) = plan.port(number) else {
            return;
        };
        let number = number as u32;
        match &port.list {
            None => {}
            Some(Egress::Cyclic(list)) => self.put_cycle(said, "Port", number, list.cycle()),
            Some(Egress::Joined(joined)) => {
                let (old, new) = joined.lists();
                self.put_cycle(said, "Port", number, old.cycle());
                self.put_cycle(said, "After the schedule change, port", number, new.cycle());
            }
        }
    }

    /// Appends the cycle times of each port at which the filter has a reachable queue. `put_route` calls it.
    fn put_ports(
        &mut self,
        said: &mut TextBuilder<Global>,
        plan: &Plan<Global>,
        filter: &FilterPlan,
    ) {
        let reach = filter_reach(plan, filter);
        for place in 0..16u8 {
            if can_wait_at_port(plan, filter, &reach, place + 1) {
                self.put_port_cycles(said, plan, place + 1);
            }
        }
    }

    /// Appends to `said` the cycle times on the route of filter `number` (its stream gate, then its ports), and updates `common`. Appends
    /// nothing if the filter is missing. `explain_period` and `explain_row` call it.
    fn put_route(&mut self, said: &mut TextBuilder<Global>, plan: &Plan<Global>, number: u32) {
        if let Some(filter) = find_filter(plan.filters(), number) {
            self.put_gate(said, plan, filter.gate);
            self.put_ports(said, plan, &filter);
        }
    }

    /// Appends a sentence with suitable periods: multiples of `common` or, if `common` is 0, common multiples of the listed cycles.
    /// `explain_period` and `explain_row` call it.
    fn put_remedy(self, said: &mut TextBuilder<Global>) {
        if self.common == 0 {
            return said.put("Use a common multiple of these cycles.\n");
        }
        said.put_template("Use a multiple of {0} ns.\n", &[self.common], &[]);
    }
}

/// Explains row `index`, whose period isn't a multiple of each cycle time on its filter's route. Lists these cycle times and a remedy.
/// `explain_periodic_row` calls it.
fn explain_row(
    alloc: Global,
    asked: TrafficText<'_>,
    plan: &Plan<Global>,
    index: u32,
    row: &TrafficRow,
) -> Option<String> {
    let mut said = TextBuilder::new(alloc);
    put_row_position(&mut said, asked, index, NetField::Period);
    said.put_template(
        "`period` of `traffic` {0} is {1} ns. It must be a multiple of each cycle on the route of filter {2}:\n",
        &[u64::from(index), row.traffic.period, u64::from(row.filter)],
        &[],
    );
    let mut cycles = Cycles {
        period: row.traffic.period,
        bridge: "",
        common: 1,
    };
    cycles.put_route(&mut said, plan, row.filter);
    cycles.put_remedy(&mut said);
    said.finish().ok()
}

/// Explains why the period of stream `index`, from 1, isn't a multiple of each cycle time on its route. Returns `None` if the stream is
/// missing or has no talker, or if memory runs out.
///
/// `explain_plans` of `net_check` calls it.
pub fn explain_period(
    alloc: Global,
    asked: NetworkText<'_>,
    plans: &[Accepted<Global>],
    index: u32,
) -> Option<String> {
    let row = asked.file.streams().get((index as usize).wrapping_sub(1))?;
    let period = row.talker()?.period;
    let mut said = TextBuilder::new(alloc);
    let key = NetField::Period.key();
    asked.put_place(&mut said, NetSection::Stream, index as usize, Some(key));
    said.put_template(
        "`period` of stream \"{a}\" is {0} ns. It must be a multiple of each cycle on the stream's route:\n",
        &[period],
        &[row.name()],
    );
    let mut cycles = Cycles {
        period,
        bridge: "",
        common: 1,
    };
    for (place, filter) in row.hops() {
        if let (Some(bridge), Some(accepted)) = (asked.bridge(*place), plans.get(*place as usize)) {
            cycles.bridge = bridge.name();
            cycles.put_route(&mut said, accepted.plan(), *filter);
        }
    }
    cycles.put_remedy(&mut said);
    said.finish().ok()
}
