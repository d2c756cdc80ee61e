//! Delays of the frames of traffic rows in each queue that their filters can reach, and the lines of `bounds --traffic`.
ghost use Rattle.std.specs.Prelude.{◌≡◌, ◌↔◌, ◌++◌, ◌∷◌, ◌≤◌, All, IfOk, List, OnOk, Some, [], length, map, string_bytes, true};
ghost use Rattle.bridge_text.specs.Growth.{HasGrown};
ghost use Rattle.bridge_bounds.specs.Bounds.{IsQueueBound};
ghost use Rattle.bridge_groups.specs.GroupRows.{AreSharedQueues};
ghost use Rattle.net_file.specs.TrafficRows.{IsRow, IsTalkerRow};
ghost use Rattle.net_latency.specs.Bounds.{AreBounds};
ghost use Rattle.net_latency.specs.declared.timings.TrafficFigures.TheVariants.{Queue};
ghost use Rattle.net_latency.specs.Traffic as spec;
ghost use Rattle.net_latency.specs.Traffic.{AreRowTimings, RowPasses};
ghost use Rattle.net_latency.specs.TalkerRows.{AreTimings, AreTimingsOfRow};
ghost use Rattle.net_latency.specs.TrafficText as printing;

use crate::bounds::{QueueBound, queue_bounds};
use crate::limited_rows::limited_timings;
use bridge_bounds::{Phases, Timing, find_filter, passes, queue_timing};
use bridge_check::Accepted;
use bridge_groups::{SharedQueue, plan_shared_queues};
use bridge_limits::NoMemory;
use bridge_text::TextBuilder;
use net_file::{TalkerRow, TrafficRow};
use std::alloc::Allocator;

/// Delays of a traffic row's frames in a reachable queue: one line of `bounds --traffic`.
#[derive(Clone, Copy)]
pub struct QueueTiming {
    /// Number of the row in the file, from 1.
    pub row: u32,
    /// Number of the row's filter.
    pub filter: u32,
    /// Port number, 1 to 16.
    pub port: u8,
    /// Class of the queue, 0 to 7.
    pub class: u8,
    /// Whether the filter passes each frame of the row, and the queue accepts each frame.
    pub passes: bool,
    /// Delays of the row's frames in the queue, if they pass the filter.
    pub timing: Timing,
    /// Largest allowed delay in ns. `None` means no limit.
    pub deadline: Option<u64>,
}

/// Result of a traffic row: its delays in one queue of its filter, or that no queue is reachable.
#[derive(Clone, Copy)]
pub enum TrafficFigures {
    /// Delays in one queue.
    Queue(QueueTiming),
    /// The filter has no reachable queue, so the bridge forwards none of its frames.
    Nowhere {
        /// Number of the row in the file, from 1.
        row: u32,
        /// Number of the row's filter.
        filter: u32,
    },
}

/// Returns whether the filter of a periodic row passes each frame of the row. Returns false if the plan lacks the filter. `row_timings`
/// calls it.
fn row_passes<A: Allocator + Copy>(accepted: &Accepted<A>, row: &TrafficRow) -> bool
    requires row { IsRow row.now }
    ensures { (result ≡ true) ↔ RowPasses accepted.now row.now }
{
    let plan = accepted.plan();
    match find_filter(plan.filters(), row.filter) {
        None => false,
        Some(filter) => passes(plan, &filter, &row.traffic),
    }
}

/// Appends to `made` the delays of row `index` in the queue of `bound`, if the queue belongs to the row's filter. `passes` is true if the
/// filter passes each frame. `row_timings` calls it.
fn push_queue_timing<A: Allocator + Copy>(
    accepted: &Accepted<A>,
    bound: &QueueBound,
    index: u32,
    row: &TrafficRow,
    passes: bool,
    made: &mut Vec<QueueTiming, A>,
) -> Result<(), NoMemory>
    requires bound { IsQueueBound accepted.now bound.now.filter bound.now.port bound.now.class bound.now.bound }
    requires row { IsRow row.now }
    requires passes { (passes ≡ true) ↔ RowPasses accepted.now row.now }
    ensures one_more { OnOk result ((bounds : List QueueBound)
        → AreRowTimings accepted.now index row.now bounds made.old.items
        → AreRowTimings accepted.now index row.now (bounds ++ bound.now ∷ []) made.new.items) }
{
    let _ = accepted.plan();
    if bound.filter != row.filter {
        return Ok(());
    }
    if let Some(timing) = queue_timing(
        accepted,
        bound.filter,
        bound.port,
        bound.class,
        &row.traffic,
    ) {
        made.push(QueueTiming {
            row: index,
            filter: row.filter,
            port: bound.port,
            class: bound.class,
            passes: passes & timing.phases.is_some(),
            timing,
            deadline: row.deadline,
        })?;
    }
    Ok(())
}

/// Returns the delays of periodic row `index` in each queue of its filter in `bounds`, in this order. Empty if no queue is reachable.
/// `talker_row_timings` calls it.
fn row_timings<A: Allocator + Copy>(
    alloc: A,
    accepted: &Accepted<A>,
    bounds: &[QueueBound],
    index: u32,
    row: &TrafficRow,
) -> Result<Vec<QueueTiming, A>, NoMemory>
    requires bounds { AreBounds accepted.now bounds.now }
    requires row { IsRow row.now }
    ensures { IfOk result (λ v. AreRowTimings accepted.now index row.now bounds.now v.items) }
{
    let passes = row_passes(accepted, row);
    let mut made = Vec::new(alloc);
    for bound in bounds {
        let Ok(()) = push_queue_timing(accepted, bound, index, row, passes, &mut made) else {
            return Err(NoMemory);
        };
    }
    Ok(made)
}

/// Appends one `TrafficFigures::Queue` to `made` for each of these queue timings. `put_row` calls it.
fn put_queues<A: Allocator + Copy>(
    queues: &[QueueTiming],
    made: &mut Vec<TrafficFigures, A>,
) -> Result<(), NoMemory>
    ensures { OnOk result (made.new.items ≡ made.old.items ++ map Queue queues.now) }
{
    for queue in queues {
        let Ok(()) = made.push(TrafficFigures::Queue(*queue)) else {
            return Err(NoMemory);
        };
    }
    Ok(())
}

/// Appends the delays of row `row` of filter `filter` to `made`, one item for each queue. Appends one `Nowhere` if there is no queue.
/// `queue_timings` calls it.
fn put_row<A: Allocator + Copy>(
    row: u32,
    filter: u32,
    queues: &[QueueTiming],
    made: &mut Vec<TrafficFigures, A>,
) -> Result<(), NoMemory>
    ensures { OnOk result (made.new.items ≡ made.old.items ++ spec.row_figures row filter queues.now) }
{
    if !queues.is_empty() {
        return put_queues(queues, made);
    }
    let Ok(()) = made.push(TrafficFigures::Nowhere { row, filter }) else {
        return Err(NoMemory);
    };
    Ok(())
}

/// Returns the delays of row `index`: in the queues of the row's protected filter, or in the shared queues of the group. `queue_timings`
/// calls it.
fn talker_row_timings<A: Allocator + Copy>(
    alloc: A,
    accepted: &Accepted<A>,
    bounds: &[QueueBound],
    shared: &[SharedQueue],
    index: u32,
    row: &TalkerRow,
) -> Result<Vec<QueueTiming, A>, NoMemory>
    requires bounds { AreBounds accepted.now bounds.now }
    requires shared { AreSharedQueues accepted.now shared.now }
    requires row { IsTalkerRow row.now }
    ensures { IfOk result (λ v. AreTimingsOfRow accepted.now bounds.now shared.now index row.now v.items) }
{
    match row {
        TalkerRow::Periodic(row) => row_timings(alloc, accepted, bounds, index, row),
        TalkerRow::Limited(row) => limited_timings(alloc, accepted, shared, index, row),
    }
}

/// Returns the delays of all traffic rows, row by row, then by rising port and class of the filter's queues. `report_traffic` and
/// `explain_refusable_rows` call it.
pub fn queue_timings<A: Allocator + Copy>(
    alloc: A,
    accepted: &Accepted<A>,
    rows: &[TalkerRow],
) -> Result<Vec<TrafficFigures, A>, NoMemory>
    requires few { length rows.now ≤ 1024 }
    requires rows { All IsTalkerRow rows.now }
    ensures { IfOk result (λ v. AreTimings accepted.now rows.now v.items) }
{
    let Ok(bounds) = queue_bounds(alloc, accepted) else {
        return Err(NoMemory);
    };
    let Ok(shared) = plan_shared_queues(alloc, accepted) else {
        return Err(NoMemory);
    };
    let mut made = Vec::new(alloc);
    let mut index: u32 = 1;
    for row in rows {
        let Ok(more) = talker_row_timings(alloc, accepted, &bounds, &shared, index, row) else {
            return Err(NoMemory);
        };
        let Ok(()) = put_row(index, row.filter(), &more, &mut made) else {
            return Err(NoMemory);
        };
        index += 1;
    }
    Ok(made)
}

/// Returns whether the worst delay `worst` in ns meets the deadline. Returns true without a deadline. `is_in_time` and `is_kept` call it.
pub(crate) fn is_met(deadline: Option<u64>, worst: u128) -> bool
    ensures { result ≡ spec.is_met deadline worst }
{
    match deadline {
        None => true,
        Some(deadline) => worst <= deadline as u128,
    }
}

/// Returns whether each frame of a row passes and meets its deadline in a queue. Returns false for a row whose filter has no reachable
/// queue. `are_in_time` calls it.
fn is_kept(figures: &TrafficFigures) -> bool
    ensures { result ≡ spec.is_row_kept figures.now }
{
    match figures {
        TrafficFigures::Queue(x) => x.passes && is_met(x.deadline, x.timing.worst as u128),
        TrafficFigures::Nowhere { .. } => false,
    }
}

/// Returns whether each row has a queue, and each frame passes and meets its deadline in each queue. If not, `bounds --traffic` ends with
/// status 1. `report_traffic` calls it.
pub fn are_in_time(timings: &[TrafficFigures]) -> bool
    ensures { result ≡ spec.are_in_time timings.now }
{
    timings.iter().all(|x| is_kept(x))
}

/// Returns `met` or `missed` for a deadline of `limit` ns and a worst delay in ns. `put_deadline` calls it.
fn deadline_word(limit: u64, worst: u128) -> &'static str
    ensures { result.now ≡ printing.deadline_word (spec.is_met (Some limit) worst) }
{
    if worst <= limit as u128 {
        "met"
    } else {
        "missed"
    }
}

/// Writes a deadline in ns and whether the worst delay `worst` meets it. Writes nothing without a deadline. `put_stream` and
/// `put_timing_line` call it.
pub(crate) fn put_deadline<A: Allocator>(
    text: &mut TextBuilder<A>,
    deadline: Option<u64>,
    worst: u128,
)
    ensures { HasGrown text.old (printing.deadline_words deadline worst) text.new }
{
    if let Some(limit) = deadline {
        text.put(" deadline ");
        text.put_number(limit);
        text.put(" ");
        text.put(deadline_word(limit, worst));
    }
}

/// Writes the start of a timing line: row, filter, port and class of the queue. `put_timing_line` calls it.
fn put_queue<A: Allocator>(text: &mut TextBuilder<A>, x: &QueueTiming)
    ensures { HasGrown text.old (printing.queue_words x.now) text.new }
{
    text.put("traffic ");
    text.put_number(u64::from(x.row));
    text.put(" filter ");
    text.put_number(u64::from(x.filter));
    text.put(" port ");
    text.put_number(u64::from(x.port));
    text.put(" class ");
    text.put_number(u64::from(x.class));
}

/// Writes the phases of the ends of transmission, if they are known. `put_delays` calls it.
fn put_phases<A: Allocator>(text: &mut TextBuilder<A>, phases: Option<Phases>)
    ensures { HasGrown text.old (printing.phase_words phases) text.new }
{
    let Some(Phases { from, to }) = phases else {
        return text.put("");
    };
    text.put(" phases ");
    text.put_number(from);
    text.put("..");
    text.put_number(to);
}

/// Writes worst delay, best delay and jitter in ns, and the phases of the ends of transmission. `put_course` and `put_timing_words` call
/// it.
pub(crate) fn put_delays<A: Allocator>(
    text: &mut TextBuilder<A>,
    worst: u128,
    best: u128,
    phases: Option<Phases>,
)
    ensures { HasGrown text.old (printing.delay_words worst best phases) text.new }
{
    text.put(" worst ");
    text.put_integer(worst);
    text.put(" best ");
    text.put_integer(best);
    text.put(" jitter ");
    text.put_integer(worst.saturating_sub(best));
    put_phases(text, phases);
}

/// Writes worst delay, best delay and jitter in a queue, in ns, and the phases of the ends of transmission. `put_timing_line` calls it.
fn put_timing_words<A: Allocator>(text: &mut TextBuilder<A>, x: &QueueTiming)
    ensures { HasGrown text.old (printing.figure_words x.now) text.new }
{
    let Timing {
        worst,
        best,
        phases,
    } = x.timing;
    put_delays(text, worst as u128, best as u128, phases);
}

/// Writes the line of a row's frames in a queue: `passes` or `refusable`, the delays, and whether the deadline is met. `put_row_line` calls
/// it.
fn put_timing_line<A: Allocator>(text: &mut TextBuilder<A>, x: &QueueTiming)
    ensures { HasGrown text.old (printing.timing_line x.now) text.new }
{
    put_queue(text, x);
    text.put(" ");
    text.put(passing_word(x.passes));
    put_timing_words(text, x);
    put_deadline(text, x.deadline, x.timing.worst as u128);
    text.put("\n");
}

/// Returns `passes` if each frame passes, otherwise `refusable`. `put_timing_line` calls it.
fn passing_word(passes: bool) -> &'static str
    ensures { result.now ≡ printing.passing_word passes }
{
    if passes { "passes" } else { "refusable" }
}

/// Writes the line of row `row` of filter `filter` without reachable queue: it ends with `nowhere`. `put_row_line` calls it.
fn put_nowhere<A: Allocator>(text: &mut TextBuilder<A>, row: u32, filter: u32)
    ensures { HasGrown text.old (printing.nowhere_line row filter) text.new }
{
    text.put("traffic ");
    text.put_number(u64::from(row));
    text.put(" filter ");
    text.put_number(u64::from(filter));
    text.put(" nowhere\n");
}

/// Writes one line: the delays of a row in a queue, or `nowhere` for a row without reachable queue. `timings_text` calls it.
fn put_row_line<A: Allocator>(text: &mut TextBuilder<A>, figures: &TrafficFigures)
    ensures { HasGrown text.old (printing.figures_line figures.now) text.new }
{
    match figures {
        TrafficFigures::Queue(x) => put_timing_line(text, x),
        TrafficFigures::Nowhere { row, filter } => put_nowhere(text, *row, *filter),
    }
}

/// Returns the lines of `timings`: one for each queue, or one for a row without reachable queue. `bounds --traffic` prints them after the
/// lines of bounds. `report_traffic` calls it.
pub fn timings_text<A: Allocator + Copy>(
    alloc: A,
    timings: &[TrafficFigures],
) -> Result<String<A>, NoMemory>
    ensures { IfOk result (λ text. string_bytes text ≡ printing.timings_text timings.now) }
{
    let mut text = TextBuilder::new(alloc);
    for timing in timings {
        put_row_line(&mut text, timing);
    }
    text.finish()
}
