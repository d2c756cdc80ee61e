//! Draws a random plan, and compares its figures with its runs.
ghost use Rattle.std.specs.Prelude.{◌≤◌, All, IfOk, length};
ghost use Rattle.net_file.specs.TrafficRows.{IsTalkerRow};

use crate::numbers::Numbers;
use crate::plans::drawing::{plan_text, traffic_text};
use crate::plans::frames::input_captures;
use crate::plans::judging::{Case, Shown, add_if, delay_range, is_met, is_missed, judge};
use crate::plans::shape::{Shape, next_shape};
use crate::runs::run_bridge;
use app_failure::accepted_plan;
use bridge_capture::RunFault;
use bridge_check::Accepted;
use bridge_core::Outcome;
use bridge_limits::NoMemory;
use net_file::{TalkerRow, parse_traffic};
use net_latency::{
    QueueTiming, TrafficFigures, are_in_time, queue_timings, tight_queue_bounds, traffic_fault,
};
use std::alloc::Global;

/// Number of runs of each accepted plan.
const RUNS: u64 = 2;

/// Counts over all plans.
#[derive(Clone, Copy, Default)]
pub struct Tally {
    pub drawn: u64,
    pub accepted: u64,
    /// Number of accepted plans whose traffic file is refused.
    pub unsuited: u64,
    /// Number of plans for which `bounds --traffic` ends with status 0.
    pub kept: u64,
    /// Numbers of lines of figures, by their words.
    pub passing: u64,
    pub refusable: u64,
    pub nowhere: u64,
    pub met: u64,
    pub missed: u64,
    /// Number of passing lines whose worst, and whose best, delay a run reached.
    pub worst_reached: u64,
    pub best_reached: u64,
    /// Number of plans with a lost frame in a row whose figures allow losses.
    pub lossy: u64,
    pub shown: Shown,
}

/// A tried plan: its text, its traffic file, and whether a figure is refuted or a frame is stray.
#[derive(Drop)]
pub struct Tried {
    pub plan: String,
    pub traffic: String,
    pub is_wrong: bool,
}

/// Reads the rows of a traffic file.
fn traffic_rows(alloc: Global, text: &str) -> Result<Vec<TalkerRow>, RunFault>
    ensures rows { IfOk result (λ rows. All IsTalkerRow rows.items) }
    ensures few { IfOk result (λ rows. length rows.items ≤ 1024) }
{
    match parse_traffic(alloc, alloc, text.as_bytes()) {
        Ok(rows) => Ok(rows),
        Err(_) => Err(RunFault::NoMemory),
    }
}

/// Returns the next deadline in ns, near `worst`, or 0 for none.
fn next_deadline(numbers: &mut Numbers, worst: u64) -> u64 {
    match numbers.below(6) {
        0 => 0,
        1 | 2 => worst,
        3 => worst.saturating_sub(1),
        4 => worst.saturating_add(1),
        _ => worst / 2,
    }
}

/// Returns the worst delay of a row in its first queue, or 1,000 ns if it has no queue.
fn worst_delay(figures: &[TrafficFigures], row: u32) -> u64 {
    for figures in figures {
        if let TrafficFigures::Queue(timing) = figures {
            if timing.row == row {
                return timing.timing.worst;
            }
        }
    }
    1_000
}

/// Returns deadlines of all rows, near their worst delays.
fn row_deadlines(
    alloc: Global,
    numbers: &mut Numbers,
    accepted: &Accepted<Global>,
    text: &str,
) -> Result<Vec<u64>, RunFault> {
    let rows = traffic_rows(alloc, text)?;
    let Ok(figures) = queue_timings(alloc, accepted, &rows) else {
        return Err(RunFault::NoMemory);
    };
    deadlines_near(alloc, numbers, rows.len() as u64, &figures)
}

/// Returns deadlines of `count` rows, near the worst delays in `figures`.
fn deadlines_near(
    alloc: Global,
    numbers: &mut Numbers,
    count: u64,
    figures: &[TrafficFigures],
) -> Result<Vec<u64>, RunFault> {
    let mut deadlines = Vec::new(alloc);
    let mut row = 1u32;
    for _ in 0..count {
        let deadline = next_deadline(numbers, worst_delay(figures, row));
        if deadlines.push(deadline).is_err() {
            return Err(RunFault::NoMemory);
        }
        row = row.saturating_add(1);
    }
    Ok(deadlines)
}

/// Tries the plan of `seed`.
pub fn try_plan(alloc: Global, seed: u64, tally: &mut Tally) -> Result<Tried, RunFault> {
    let mut numbers = Numbers::of_seed(seed);
    let Ok(shape) = next_shape(alloc, &mut numbers) else {
        return Err(RunFault::NoMemory);
    };
    let Ok(plan) = plan_text(alloc, &mut numbers, &shape) else {
        return Err(RunFault::NoMemory);
    };
    tally.drawn = tally.drawn.saturating_add(1);
    let mut tried = Tried {
        plan,
        traffic: String::new(alloc),
        is_wrong: false,
    };
    if let Ok(accepted) = accepted_plan(alloc, alloc, tried.plan.as_bytes()) {
        tally.accepted = tally.accepted.saturating_add(1);
        try_accepted(alloc, &mut numbers, &shape, &accepted, tally, &mut tried)?;
    }
    Ok(tried)
}

/// Tries an accepted plan with a traffic file.
fn try_accepted(
    alloc: Global,
    numbers: &mut Numbers,
    shape: &Shape,
    accepted: &Accepted<Global>,
    tally: &mut Tally,
    tried: &mut Tried,
) -> Result<(), RunFault> {
    let Ok(first) = traffic_text(alloc, shape, &[]) else {
        return Err(RunFault::NoMemory);
    };
    let deadlines = row_deadlines(alloc, numbers, accepted, first.as_str())?;
    let Ok(traffic) = traffic_text(alloc, shape, &deadlines) else {
        return Err(RunFault::NoMemory);
    };
    let rows = traffic_rows(alloc, traffic.as_str())?;
    tried.traffic = traffic;
    if traffic_fault(accepted.plan(), &rows).is_some() {
        tally.unsuited = tally.unsuited.saturating_add(1);
        return Ok(());
    }
    let Ok(figures) = queue_timings(alloc, accepted, &rows) else {
        return Err(RunFault::NoMemory);
    };
    let Ok(bounds) = tight_queue_bounds(alloc, accepted) else {
        return Err(RunFault::NoMemory);
    };
    let case = Case {
        bounds: &bounds,
        rows: &rows,
        figures: &figures,
    };
    run_case(alloc, numbers, shape, accepted, case, tally, tried)
}

/// Runs a plan `RUNS` times, and judges its figures.
fn run_case(
    alloc: Global,
    numbers: &mut Numbers,
    shape: &Shape,
    accepted: &Accepted<Global>,
    case: Case<'_>,
    tally: &mut Tally,
    tried: &mut Tried,
) -> Result<(), RunFault> {
    let mut shown = Shown::default();
    let mut outcomes = Vec::new(alloc);
    for _ in 0..RUNS {
        let Ok(captures) = input_captures(alloc, numbers, shape) else {
            return Err(RunFault::NoMemory);
        };
        let outcome = run_bridge(alloc, accepted, &captures)?;
        judge(case, &outcome, &mut shown);
        if outcomes.push(outcome).is_err() {
            return Err(RunFault::NoMemory);
        }
    }
    count_case(case, &outcomes, shown, tally);
    tried.is_wrong = shown.refuted > 0 || shown.stray > 0;
    Ok(())
}

/// Counts a plan.
fn count_case(case: Case<'_>, outcomes: &[Outcome<Global>], shown: Shown, tally: &mut Tally) {
    add_if(&mut tally.kept, are_in_time(case.figures));
    add_if(&mut tally.lossy, shown.lost > 0);
    for figures in case.figures {
        match figures {
            TrafficFigures::Queue(timing) => count_queue(timing, outcomes, tally),
            TrafficFigures::Nowhere { .. } => add_if(&mut tally.nowhere, true),
        }
    }
    tally.shown = Shown {
        frames: tally.shown.frames.saturating_add(shown.frames),
        stray: tally.shown.stray.saturating_add(shown.stray),
        refuted: tally.shown.refuted.saturating_add(shown.refuted),
        lost: tally.shown.lost.saturating_add(shown.lost),
    };
}

/// Counts a line of figures.
fn count_queue(timing: &QueueTiming, outcomes: &[Outcome<Global>], tally: &mut Tally) {
    add_if(&mut tally.met, is_met(timing));
    add_if(&mut tally.missed, is_missed(timing));
    if !timing.passes {
        tally.refusable = tally.refusable.saturating_add(1);
        return;
    }
    tally.passing = tally.passing.saturating_add(1);
    let mut reaches_best = false;
    let mut reaches_worst = false;
    for outcome in outcomes {
        if let Some((least, most)) = delay_range(outcome, timing.filter, timing.port) {
            reaches_best = reaches_best || least == timing.timing.best;
            reaches_worst = reaches_worst || most == timing.timing.worst;
        }
    }
    add_if(&mut tally.best_reached, reaches_best);
    add_if(&mut tally.worst_reached, reaches_worst);
}
