//! Compares the phases of a periodic talker with a run that reaches both. The shortest frame arrives at the first phase, the longest in the
//! next period at the last phase.
ghost use Rattle.std.specs.Prelude.{◌≤◌, All, IfOk, length};
ghost use Rattle.net_file.specs.TrafficRows.{IsTalkerRow};

use crate::bounds::captures::{PhaseEnds, ends_capture};
use crate::bounds::delays::{done_times, run_with_capture};
use crate::bounds::read_plan;
use crate::run_result;
use app_failure::{Failure, file_failure};
use app_files::{open_input, read_named};
use bridge_bounds::Phases;
use bridge_capture::RunFault;
use bridge_check::Accepted;
use bridge_text::TextBuilder;
use net_file::{TalkerRow, TrafficRow, parse_traffic};
use net_latency::{QueueTiming, TrafficFigures, queue_timings};
use std::alloc::Global;
use std::rt::Files;

/// A talker: paths of its plan and traffic file, the port at which its frames arrive, and their first octets.
struct Talker {
    plan: &'static str,
    traffic: &'static str,
    port: u8,
    head: [u8; 18],
}

/// Talkers of `data/`.
const TALKERS: [Talker; 4] = [
    Talker {
        plan: "base.toml",
        traffic: "periods/base_rows.toml",
        port: 1,
        head: [
            2, 0, 0, 0, 0, 0x0a, 2, 0, 0, 0, 0, 1, 0x81, 0, 0, 10, 0x88, 0xb5,
        ],
    },
    Talker {
        plan: "base.toml",
        traffic: "periods/over_the_end.toml",
        port: 1,
        head: [
            2, 0, 0, 0, 0, 0x0a, 2, 0, 0, 0, 0, 1, 0x81, 0, 0, 10, 0x88, 0xb5,
        ],
    },
    Talker {
        plan: "periods/cell.toml",
        traffic: "periods/cell_rows.toml",
        port: 1,
        head: [
            2, 0, 0, 0, 1, 2, 2, 0, 0, 0, 1, 1, 0x81, 0, 0, 100, 0x88, 0xb5,
        ],
    },
    Talker {
        plan: "periods/aircraft.toml",
        traffic: "periods/aircraft_rows.toml",
        port: 2,
        head: [
            3, 0, 0, 0, 0, 0x65, 2, 0, 0, 0, 0, 2, 0x81, 0, 0, 0, 0x88, 0xb5,
        ],
    },
];

/// Reports all talkers, and returns whether runs reach both phases of each queue.
pub fn report_talkers(
    rt: &(impl AllocGlobal + Files),
    said: &mut TextBuilder<Global>,
) -> Result<bool, Failure> {
    let mut are_so = true;
    for talker in &TALKERS {
        are_so = report_talker(rt, said, talker)? && are_so;
    }
    Ok(are_so)
}

/// Reads the rows of a traffic file.
fn read_rows(rt: &(impl AllocGlobal + Files), file: &str) -> Result<Vec<TalkerRow>, Failure>
    ensures rows { IfOk result (λ rows. All IsTalkerRow rows.items) }
    ensures few { IfOk result (λ rows. length rows.items ≤ 1024) }
{
    let reader = match open_input(rt, file) {
        Ok(reader) => reader,
        Err(fault) => return Err(file_failure(fault)),
    };
    let text = match read_named(rt.alloc(), rt.alloc(), file, reader) {
        Ok(text) => text,
        Err(fault) => return Err(file_failure(fault)),
    };
    match parse_traffic(rt.alloc(), rt.alloc(), &text) {
        Ok(rows) => Ok(rows),
        Err(_) => Err(Failure::Words),
    }
}

/// Reports a talker, and returns whether a run reaches both phases in each of its queues.
fn report_talker(
    rt: &(impl AllocGlobal + Files),
    said: &mut TextBuilder<Global>,
    talker: &Talker,
) -> Result<bool, Failure> {
    let accepted = read_plan(rt, talker.plan)?;
    report_traffic(rt, said, talker, &accepted)
}

/// Reads a talker's traffic file, and reports its rows.
fn report_traffic(
    rt: &(impl AllocGlobal + Files),
    said: &mut TextBuilder<Global>,
    talker: &Talker,
    accepted: &Accepted<Global>,
) -> Result<bool, Failure> {
    let rows = read_rows(rt, talker.traffic)?;
    run_result(report_rows(rt.alloc(), said, talker, accepted, &rows))
}

/// Reports rows of a traffic file.
fn report_rows(
    alloc: Global,
    said: &mut TextBuilder<Global>,
    talker: &Talker,
    accepted: &Accepted<Global>,
    rows: &[TalkerRow],
) -> Result<bool, RunFault>
    requires few { length rows.now ≤ 1024 }
    requires rows { All IsTalkerRow rows.now }
{
    match queue_timings(alloc, accepted, rows) {
        Ok(timings) => report_timings(alloc, said, talker, accepted, rows, &timings),
        Err(_) => Err(RunFault::NoMemory),
    }
}

/// Reports rows of a traffic file in their queues. Returns false if a row has no queue.
fn report_timings(
    alloc: Global,
    said: &mut TextBuilder<Global>,
    talker: &Talker,
    accepted: &Accepted<Global>,
    rows: &[TalkerRow],
    timings: &[TrafficFigures],
) -> Result<bool, RunFault> {
    let mut are_so = !timings.is_empty();
    for timing in timings {
        are_so = match timing {
            TrafficFigures::Queue(timing) => {
                tell_timing(alloc, said, talker, accepted, rows, timing)? && are_so
            }
            TrafficFigures::Nowhere { .. } => false,
        };
    }
    Ok(are_so)
}

/// Reports a row in a queue, and returns whether a run reaches both phases.
fn tell_timing(
    alloc: Global,
    said: &mut TextBuilder<Global>,
    talker: &Talker,
    accepted: &Accepted<Global>,
    rows: &[TalkerRow],
    timing: &QueueTiming,
) -> Result<bool, RunFault> {
    let place = timing.row.saturating_sub(1) as usize;
    let (Some(TalkerRow::Periodic(row)), Some(phases)) = (rows.get(place), timing.timing.phases)
    else {
        return Ok(false);
    };
    let reached = reached_phases(alloc, talker, accepted, row, timing.port)?;
    report_reached_phases(said, talker, timing, phases, reached);
    Ok(reached == phases)
}

/// Adds a line with the computed and the reached phases of a row in a queue.
fn report_reached_phases(
    said: &mut TextBuilder<Global>,
    talker: &Talker,
    timing: &QueueTiming,
    phases: Phases,
    reached: Phases,
) {
    said.put_template(
        "{a} traffic {0} filter {1} port {2} class {3} done from {4} to {5} reached {6} and {7}\n",
        &[
            u64::from(timing.row),
            u64::from(timing.filter),
            u64::from(timing.port),
            u64::from(timing.class),
            phases.from,
            phases.to,
            reached.from,
            reached.to,
        ],
        &[talker.plan],
    );
}

/// Returns the phases at which the two frames of a run have left `port`.
fn reached_phases(
    alloc: Global,
    talker: &Talker,
    accepted: &Accepted<Global>,
    row: &TrafficRow,
    port: u8,
) -> Result<Phases, RunFault> {
    let traffic = row.traffic;
    let second = traffic.period.saturating_mul(2);
    let ends = PhaseEnds {
        first: traffic.period.saturating_add(traffic.from),
        last: second.saturating_add(traffic.to),
        least: traffic.least,
        longest: traffic.longest,
    };
    let capture = ends_capture(alloc, &talker.head, ends);
    let ran = run_with_capture(alloc, accepted, talker.port, &capture)?;
    let (one, other) = done_times(&ran, row.filter, port);
    Ok(Phases {
        from: one.saturating_sub(traffic.period),
        to: other.saturating_sub(second),
    })
}
