//! Compares delay bounds and phases with runs. Each queue has a run near its bound, and 200 runs over random captures. Runs of periodic
//! talkers reach both phases.

mod captures;
mod delays;
mod periods;

use crate::run_result;
use app_failure::{Failure, file_failure, read_accepted_plan};
use app_files::open_input;
use bridge_capture::RunFault;
use bridge_check::Accepted;
use bridge_text::TextBuilder;
use captures::NearBound;
use delays::{longest_random_delay, near_bound_delay};
use net_latency::{QueueBound, queue_bounds};
use periods::report_talkers;
use std::alloc::Global;
use std::rt::Files;

/// A plan, and the frames of a run near its bound.
struct Row {
    path: &'static str,
    near: NearBound,
    /// Greatest difference in ns between the bound and the run's delay. A longest frame has a transmission time of 4,320 ns.
    short: u64,
}

/// Plans of `data/`. Their queues have a capacity of four frames, the last plan's queue of one.
const ROWS: [Row; 7] = [
    Row {
        path: "base.toml",
        near: NearBound {
            before: None,
            at: 495_681,
            count: 4,
        },
        short: 4_319,
    },
    Row {
        path: "always.toml",
        near: NearBound {
            before: Some(0),
            at: 1,
            count: 4,
        },
        short: 4_319,
    },
    Row {
        path: "just_room.toml",
        near: NearBound {
            before: None,
            at: 12_961,
            count: 4,
        },
        short: 4_319,
    },
    Row {
        path: "one_less.toml",
        near: NearBound {
            before: None,
            at: 12_960,
            count: 4,
        },
        short: 4_319,
    },
    Row {
        path: "two_windows.toml",
        near: NearBound {
            before: None,
            at: 300_681,
            count: 4,
        },
        short: 4_319,
    },
    Row {
        path: "over_the_end.toml",
        near: NearBound {
            before: None,
            at: 1_681,
            count: 4,
        },
        short: 4_319,
    },
    Row {
        path: "change.toml",
        near: NearBound {
            before: Some(1_491_361),
            at: 1_491_362,
            count: 1,
        },
        short: 4_320,
    },
];

/// Reports all plans and talkers, and returns whether all delays and phases are right.
pub fn run(
    rt: &(impl AllocGlobal + Files),
    said: &mut TextBuilder<Global>,
) -> Result<bool, Failure> {
    let mut are_so = true;
    for row in &ROWS {
        are_so = report_plan(rt, said, row)? && are_so;
    }
    are_so = report_talkers(rt, said)? && are_so;
    Ok(are_so)
}

/// Reads and checks the plan of a file.
fn read_plan(rt: &(impl AllocGlobal + Files), file: &str) -> Result<Accepted<Global>, Failure> {
    match open_input(rt, file) {
        Ok(reader) => read_accepted_plan(rt.alloc(), rt.alloc(), file, reader),
        Err(fault) => Err(file_failure(fault)),
    }
}

/// Reports the bounds of a plan and the delays of its runs, and returns whether they agree.
fn report_plan(
    rt: &(impl AllocGlobal + Files),
    said: &mut TextBuilder<Global>,
    row: &Row,
) -> Result<bool, Failure> {
    let accepted = read_plan(rt, row.path)?;
    run_result(report_bounds(rt.alloc(), said, row, &accepted))
}

/// Reports each bound of an accepted plan, and returns whether the delays agree.
fn report_bounds(
    alloc: Global,
    said: &mut TextBuilder<Global>,
    row: &Row,
    accepted: &Accepted<Global>,
) -> Result<bool, RunFault> {
    let Ok(bounds) = queue_bounds(alloc, accepted) else {
        return Err(RunFault::NoMemory);
    };
    let mut are_so = !bounds.is_empty();
    for bound in &bounds {
        are_so = report_bound(alloc, said, row, accepted, bound)? && are_so;
    }
    Ok(are_so)
}

/// Reports a bound. Returns whether no delay exceeds the bound, and the run made for it is at most `row.short` ns below.
fn report_bound(
    alloc: Global,
    said: &mut TextBuilder<Global>,
    row: &Row,
    accepted: &Accepted<Global>,
    queue: &QueueBound,
) -> Result<bool, RunFault> {
    let QueueBound {
        filter,
        port,
        class,
        bound,
    } = *queue;
    let made = near_bound_delay(alloc, accepted, row.near, filter, port)?;
    let drawn = longest_random_delay(alloc, accepted, filter, port)?;
    said.put_template(
        "{a} filter {0} port {1} class {2} bound {3} made {4} drawn {5}\n",
        &[
            u64::from(filter),
            u64::from(port),
            u64::from(class),
            bound,
            made,
            drawn,
        ],
        &[row.path],
    );
    Ok(made <= bound && bound - made <= row.short && drawn <= bound)
}
