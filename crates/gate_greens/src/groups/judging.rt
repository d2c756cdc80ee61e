//! Judges whether a run refutes the bounds and capacities of its plan.
use crate::groups::shape::{EGRESS, Member, Shape};
use crate::plans::{add_if, is_pass};
use crate::runs::filter_view;
use bridge_core::{Outcome, View};
use bridge_groups::{SharedQueue, least_shared_bound};
use bridge_port::Refusal;
use std::alloc::Global;

/// Counts over the runs of a plan.
#[derive(Clone, Copy, Default)]
pub struct Shown {
    /// Number of frames of the groups.
    pub frames: u64,
    /// Number of copies that queues without a sufficient capacity dropped as full.
    pub full: u64,
    /// Number of streams with a delay above their queue's bound.
    pub late: u64,
    /// Number of conforming talkers with a refused frame.
    pub refused: u64,
    /// Number of copies that queues with a sufficient capacity dropped as full.
    pub dropped: u64,
    /// Number of streams without a shared queue or a record.
    pub missing: u64,
}

impl Shown {
    /// Returns the number of facts that contradict a bound, a capacity or a promise.
    pub fn count_refuted(&self) -> u64 {
        self.late
            .saturating_add(self.refused)
            .saturating_add(self.dropped)
            .saturating_add(self.missing)
    }
}

/// Whether the queue's capacity is sufficient, so that it drops no copy as full.
pub fn has_room(queue: &SharedQueue) -> bool {
    match queue.room {
        Some(room) => room <= queue.capacity,
        None => false,
    }
}

/// Returns the queue of a member's group at the egress port.
fn member_queue<'a>(queues: &'a [SharedQueue], member: &Member) -> Option<&'a SharedQueue> {
    for queue in queues {
        if u64::from(queue.group) == member.group && u64::from(queue.port) == EGRESS {
            return Some(queue);
        }
    }
    None
}

/// Returns the record of a member's filter.
fn member_view<'a>(outcome: &'a Outcome<Global>, member: &Member) -> Option<&'a View<Global>> {
    let number = u32::try_from(member.filter()).ok()?;
    filter_view(outcome, number)
}

/// Returns the greatest delay in ns of a filter's departures. They all leave by the egress port.
fn greatest_delay(view: &View<Global>) -> u64 {
    let mut greatest = 0u64;
    for stored in &view.departures {
        let departure = stored.departure();
        let index = departure.own.saturating_sub(1);
        if let Some(origin) = view.origins.get(index as usize) {
            let delay = departure.done.saturating_sub(origin.origin().at);
            greatest = greatest.max(delay);
        }
    }
    greatest
}

/// Returns the number of copies of a filter that a full queue dropped.
fn count_full(view: &View<Global>) -> u64 {
    let mut full = 0u64;
    for stored in &view.drops {
        add_if(&mut full, stored.dropped_copy().refusal == Refusal::Full);
    }
    full
}

/// Returns the number of frames that a filter refused.
fn count_refused(view: &View<Global>) -> u64 {
    let mut refused = 0u64;
    for verdict in &view.verdicts {
        add_if(&mut refused, !is_pass(verdict.verdict()));
    }
    refused
}

/// Adds the counts of a member in a run. `conforms` is true if its talker conforms to its meter.
fn judge_member(queue: &SharedQueue, view: &View<Global>, conforms: bool, shown: &mut Shown) {
    let full = count_full(view);
    let refused = count_refused(view);
    shown.frames = shown.frames.saturating_add(view.origins.len() as u64);
    add_if(
        &mut shown.late,
        least_shared_bound(queue) < greatest_delay(view),
    );
    add_if(&mut shown.refused, conforms && refused > 0);
    if has_room(queue) {
        shown.dropped = shown.dropped.saturating_add(full);
    } else {
        shown.full = shown.full.saturating_add(full);
    }
}

/// Adds the counts of a run. `conforming` is the index of a stream whose talker conforms; all talkers conform if `is_calm` is true.
pub fn judge(
    queues: &[SharedQueue],
    shape: &Shape,
    outcome: &Outcome<Global>,
    conforming: u64,
    is_calm: bool,
    shown: &mut Shown,
) {
    for member in &shape.members {
        let view = member_view(outcome, member);
        match (member_queue(queues, member), view) {
            (Some(queue), Some(view)) => {
                let conforms = member.meter.is_some() && (is_calm || member.place == conforming);
                judge_member(queue, view, conforms, shown);
            }
            _ => add_if(&mut shown.missing, true),
        }
    }
}

/// Returns the greatest delay of a queue's group in a run, in thousandths of the queue's bound.
pub fn bound_share(queue: &SharedQueue, shape: &Shape, outcome: &Outcome<Global>) -> u64 {
    let mut greatest = 0u64;
    for member in &shape.members {
        if member.group == u64::from(queue.group) {
            if let Some(view) = member_view(outcome, member) {
                greatest = greatest.max(greatest_delay(view));
            }
        }
    }
    greatest.saturating_mul(1_000) / least_shared_bound(queue).max(1)
}
