//! Draws a random plan with groups, and compares its bounds and capacities with its runs.
use crate::groups::drawing::{Rooms, plan_text};
use crate::groups::frames::{input_captures, next_attack};
use crate::groups::judging::{Shown, bound_share, has_room, judge};
use crate::groups::shape::{Shape, next_shape};
use crate::numbers::Numbers;
use crate::plans::add_if;
use crate::runs::run_bridge;
use app_failure::accepted_plan;
use bridge_capture::RunFault;
use bridge_check::Accepted;
use bridge_groups::{SharedQueue, plan_shared_queues};
use std::alloc::Global;

/// Number of runs of each accepted plan.
const RUNS: u64 = 4;

/// Greatest capacity of a queue, in frames.
const MAX_ROOM: u64 = 4_096;

/// Counts over all plans.
#[derive(Clone, Copy, Default)]
pub struct Tally {
    pub drawn: u64,
    pub accepted: u64,
    /// Number of shared queues with a bound by their meters.
    pub metered: u64,
    /// Number of shared queues with a bound by their capacity only.
    pub unmetered: u64,
    /// Number of shared queues whose capacity is below the one that suffices.
    pub lossy: u64,
    /// Number of metered queues with a delay of at least 94 % of their bound.
    pub near: u64,
    /// Greatest delay in thousandths of a bound.
    pub greatest: u64,
    pub shown: Shown,
}

/// A tried plan: its text, and whether a bound or a capacity is refuted.
#[derive(Drop)]
pub struct Tried {
    pub plan: String,
    pub is_wrong: bool,
}

/// Returns the next capacity of a queue: mostly exactly the one that suffices.
fn next_room(numbers: &mut Numbers, queues: &[SharedQueue], class: u8) -> u64 {
    for queue in queues {
        if queue.class == class {
            let room = u64::from(queue.room.unwrap_or(64));
            return match numbers.below(5) {
                0 => room.saturating_sub(1).max(1),
                1 => (room / 2).max(1),
                _ => room.max(1),
            };
        }
    }
    8
}

/// Returns the next capacities of the classes of groups.
fn next_rooms(numbers: &mut Numbers, queues: &[SharedQueue]) -> Rooms {
    Rooms {
        seven: next_room(numbers, queues, 7),
        six: next_room(numbers, queues, 6),
    }
}

/// Tries the plan of `seed`.
pub fn try_groups(alloc: Global, seed: u64, tally: &mut Tally) -> Result<Tried, RunFault> {
    let mut numbers = Numbers::of_seed(seed.saturating_add(1_000_000));
    let Ok(shape) = next_shape(alloc, &mut numbers) else {
        return Err(RunFault::NoMemory);
    };
    let most = Rooms {
        seven: MAX_ROOM,
        six: MAX_ROOM,
    };
    let Ok(plan) = plan_text(alloc, &shape, most) else {
        return Err(RunFault::NoMemory);
    };
    tally.drawn = tally.drawn.saturating_add(1);
    let Ok(accepted) = accepted_plan(alloc, alloc, plan.as_bytes()) else {
        return Ok(Tried {
            plan,
            is_wrong: false,
        });
    };
    let Ok(queues) = plan_shared_queues(alloc, &accepted) else {
        return Err(RunFault::NoMemory);
    };
    let rooms = next_rooms(&mut numbers, &queues);
    let Ok(plan) = plan_text(alloc, &shape, rooms) else {
        return Err(RunFault::NoMemory);
    };
    try_plan(alloc, &mut numbers, &shape, plan, tally)
}

/// Tries a plan of a shape.
fn try_plan(
    alloc: Global,
    numbers: &mut Numbers,
    shape: &Shape,
    plan: String,
    tally: &mut Tally,
) -> Result<Tried, RunFault> {
    let mut tried = Tried {
        plan,
        is_wrong: true,
    };
    if let Ok(accepted) = accepted_plan(alloc, alloc, tried.plan.as_bytes()) {
        tally.accepted = tally.accepted.saturating_add(1);
        let shown = run_accepted(alloc, numbers, shape, &accepted, tally)?;
        tried.is_wrong = shown.count_refuted() > 0;
    }
    Ok(tried)
}

/// Runs a plan `RUNS` times, and returns what the runs show.
fn run_accepted(
    alloc: Global,
    numbers: &mut Numbers,
    shape: &Shape,
    accepted: &Accepted<Global>,
    tally: &mut Tally,
) -> Result<Shown, RunFault> {
    let Ok(queues) = plan_shared_queues(alloc, accepted) else {
        return Err(RunFault::NoMemory);
    };
    let mut shown = Shown::default();
    let mut shares = [0u64, 0u64];
    for _ in 0..RUNS {
        let attack = next_attack(numbers, shape);
        let Ok(captures) = input_captures(alloc, numbers, shape, &attack) else {
            return Err(RunFault::NoMemory);
        };
        let outcome = run_bridge(alloc, accepted, &captures)?;
        judge(
            &queues,
            shape,
            &outcome,
            attack.conforming,
            attack.is_calm,
            &mut shown,
        );
        let mut index = 0usize;
        for queue in &queues {
            if let Some(share) = shares.get_mut(index) {
                *share = (*share).max(bound_share(queue, shape, &outcome));
            }
            index = index.saturating_add(1);
        }
    }
    count_plan(&queues, &shares, shown, tally);
    Ok(shown)
}

/// Counts a plan.
fn count_plan(queues: &[SharedQueue], shares: &[u64], shown: Shown, tally: &mut Tally) {
    let mut index = 0usize;
    for queue in queues {
        let share = shares.get(index).copied().unwrap_or(0);
        add_if(&mut tally.metered, queue.is_metered);
        add_if(&mut tally.unmetered, !queue.is_metered);
        add_if(&mut tally.lossy, queue.is_metered && !has_room(queue));
        add_if(&mut tally.near, queue.is_metered && share >= 940);
        tally.greatest = tally.greatest.max(share);
        index = index.saturating_add(1);
    }
    tally.shown = Shown {
        frames: tally.shown.frames.saturating_add(shown.frames),
        full: tally.shown.full.saturating_add(shown.full),
        late: tally.shown.late.saturating_add(shown.late),
        refused: tally.shown.refused.saturating_add(shown.refused),
        dropped: tally.shown.dropped.saturating_add(shown.dropped),
        missing: tally.shown.missing.saturating_add(shown.missing),
    };
}
