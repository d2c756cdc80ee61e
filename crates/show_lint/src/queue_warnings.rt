//! Finds queues of protected filters that drop frames, or in which frames wait needlessly.
ghost use Rattle.std.specs.Prelude.{◌<◌};

use crate::gate_openings::{GateOpening, total_count};
use crate::gate_waits::{GateWaits, gate_waits};
use crate::lint::push_warning;
use crate::warning::{LongWait, QueueId, QueueOverload, SmallQueue, Warning};
use bridge_cycle::{CyclicList, Timeline, is_open};
use std::alloc::{AllocError, Allocator};

/// A wait gives a warning only if it is at least the port's cycle divided by this number. Shorter waits are usual.
const PART_OF_CYCLE: u64 = 4;

/// Queue of a protected filter at one stage of the schedule, with the times of the stream gate and the list of the port.
#[derive(Drop)]
pub(crate) struct ScheduledQueue<'a, A: Allocator + Copy> {
    /// Queue, filter and stream gate that a warning names.
    pub spot: QueueId,
    /// Time in ns at which a cycle of the stream gate begins.
    pub base: u64,
    /// Cycle of the stream gate in ns.
    pub cycle: u64,
    /// List of the port.
    pub list: &'a CyclicList<u8, A>,
    /// Transmission time in ns of a longest frame.
    pub occupied: u64,
    /// Queue capacity in frames.
    pub room: u16,
}

/// Returns for how many ns a list opens a class in each cycle. The last entry lasts to the end of the cycle. `find_overload` calls it.
fn open_time<A: Allocator + Copy>(list: &CyclicList<u8, A>, class: u8) -> u64
    requires { class < 8 }
{
    let cycle = list.cycle();
    let mut open = 0u64;
    let mut end = 0u64;
    let mut is_last_open = false;
    for entry in list.entries() {
        is_last_open = is_open(entry.0, class);
        end = end.saturating_add(entry.1);
        if is_last_open {
            open = open.saturating_add(entry.1);
        }
    }
    if is_last_open {
        open = open.saturating_add(cycle.saturating_sub(end));
    }
    open
}

/// Returns whether frames that need `occupied` ns in each `cycle` ns exceed windows of `open` ns in each `round` ns. Then the queue grows
/// for ever. `find_overload` calls it.
fn is_overloaded(occupied: u64, cycle: u64, open: u64, round: u64) -> bool {
    let wanted = u128::from(occupied).saturating_mul(u128::from(round));
    let given = u128::from(open).saturating_mul(u128::from(cycle));
    wanted > given
}

/// Adds a warning if more frames can enter the queue in a cycle of the stream gate than its class has time for. `find_opening_warnings`
/// calls it.
pub(crate) fn find_overload<A: Allocator + Copy>(
    found: &mut Vec<Warning>,
    queue: &ScheduledQueue<'_, A>,
    openings: &[GateOpening],
) -> Result<(), AllocError>
    requires { queue.now.spot.class < 8 }
{
    let spot = queue.spot;
    let cycle = queue.cycle;
    let count = total_count(openings);
    let occupied = count.saturating_mul(queue.occupied);
    let open = open_time(queue.list, spot.class);
    let round = queue.list.cycle();
    if !is_overloaded(occupied, cycle, open, round) {
        return Ok(());
    }
    let flood = QueueOverload {
        spot,
        cycle,
        count,
        occupied,
        open,
        port_cycle: round,
    };
    push_warning(found, Warning::QueueOverload(flood))
}

/// Returns the waits of frames that arrive when entry `opening` of the stream gate begins. Returns `None` if the frames never fit.
/// `frames_left_waiting` and `opening_wait` call it.
fn opening_waits<A: Allocator + Copy>(
    queue: &ScheduledQueue<'_, A>,
    opening: &GateOpening,
) -> Option<GateWaits>
    requires { queue.now.spot.class < 8 }
{
    let first = queue.base.saturating_add(opening.phase);
    gate_waits(
        queue.list,
        queue.spot.class,
        queue.occupied,
        first,
        queue.cycle,
    )
}

/// Returns how many of an entry's frames still wait when the entry ends, if the first frame waits longest. Returns 0 if the waits are
/// unknown. `find_small_queue` calls it.
fn frames_left_waiting<A: Allocator + Copy>(
    queue: &ScheduledQueue<'_, A>,
    opening: &GateOpening,
) -> u64
    requires { queue.now.spot.class < 8 }
{
    if queue.occupied == 0 {
        return 0;
    }
    match opening_waits(queue, opening) {
        Some(waits) => {
            let sending = opening.lasting.saturating_sub(waits.most);
            opening
                .count
                .saturating_sub(sending.div_ceil(queue.occupied))
        }
        None => 0,
    }
}

/// Adds a warning for the first entry after which more frames wait than the queue's capacity, so that some are dropped.
/// `find_opening_warnings` calls it.
pub(crate) fn find_small_queue<A: Allocator + Copy>(
    found: &mut Vec<Warning>,
    queue: &ScheduledQueue<'_, A>,
    openings: &[GateOpening],
) -> Result<(), AllocError>
    requires { queue.now.spot.class < 8 }
{
    for opening in openings {
        let left = frames_left_waiting(queue, opening);
        if left > u64::from(queue.room) {
            let rooms = SmallQueue {
                spot: queue.spot,
                phase: opening.phase,
                count: opening.count,
                left,
                room: queue.room,
            };
            return push_warning(found, Warning::SmallQueue(rooms));
        }
    }
    Ok(())
}

/// Returns whether `wait` is longer than the entry, and at least a quarter of the port's cycle, which lasts `round` ns. `opening_wait`
/// calls it.
fn is_long_wait(wait: u64, opening: &GateOpening, round: u64) -> bool {
    wait > opening.lasting && wait >= round / PART_OF_CYCLE
}

/// Returns the least wait of a frame that arrives when an entry begins. Returns `None` unless all these waits were examined and each is
/// long. `find_long_wait` calls it.
fn opening_wait<A: Allocator + Copy>(
    queue: &ScheduledQueue<'_, A>,
    opening: &GateOpening,
) -> Option<u64>
    requires { queue.now.spot.class < 8 }
{
    match opening_waits(queue, opening) {
        Some(waits) if waits.are_all && is_long_wait(waits.least, opening, queue.list.cycle()) => {
            Some(waits.least)
        }
        _ => None,
    }
}

/// Adds a warning if frames have a long wait after the start of every entry. The warning names the first entry. `find_opening_warnings`
/// calls it.
pub(crate) fn find_long_wait<A: Allocator + Copy>(
    found: &mut Vec<Warning>,
    queue: &ScheduledQueue<'_, A>,
    openings: &[GateOpening],
) -> Result<(), AllocError>
    requires { queue.now.spot.class < 8 }
{
    let mut first = None;
    for opening in openings {
        match opening_wait(queue, opening) {
            None => return Ok(()),
            Some(wait) => first = first.or(Some((*opening, wait))),
        }
    }
    let Some((opening, wait)) = first else {
        return Ok(());
    };
    let pause = LongWait {
        spot: queue.spot,
        base: queue.base,
        port_base: queue.list.base(),
        phase: opening.phase,
        lasting: opening.lasting,
        wait,
    };
    push_warning(found, Warning::LongWait(pause))
}
