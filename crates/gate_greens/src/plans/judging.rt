//! Judges whether a run refutes the figures of its plan.
use crate::runs::filter_view;
use bridge_core::{Outcome, View};
use bridge_filter::Verdict;
use bridge_semantics::{Departure, StoredOrigin};
use net_file::{TalkerRow, TrafficRow};
use net_latency::{QueueTiming, TightBound, TrafficFigures};
use std::alloc::Global;

/// Bounds, rows and figures of a plan with a traffic file.
#[derive(Clone, Copy)]
pub struct Case<'a> {
    pub bounds: &'a [TightBound],
    pub rows: &'a [TalkerRow],
    pub figures: &'a [TrafficFigures],
}

/// Counts over the runs of a plan.
#[derive(Clone, Copy, Default)]
pub struct Shown {
    /// Number of frames of the rows' filters.
    pub frames: u64,
    /// Number of frames that break their rows. These frames are mistakes of the generator.
    pub stray: u64,
    /// Number of facts that contradict a figure.
    pub refuted: u64,
    /// Number of refused frames and dropped copies of rows whose figures allow losses.
    pub lost: u64,
}

/// Arrival time of a frame, and end of its transmission, in ns.
#[derive(Clone, Copy)]
struct Passage {
    at: u64,
    done: u64,
}

impl Passage {
    /// Returns the delay in ns.
    fn delay(&self) -> u64 {
        self.done.saturating_sub(self.at)
    }
}

/// Adds one to `count` if `holds` is true.
pub fn add_if(count: &mut u64, holds: bool) {
    if holds {
        *count = count.saturating_add(1);
    }
}

/// Returns arrival and end of transmission of a departure.
fn departure_passage(origins: &[StoredOrigin], departure: &Departure) -> Option<Passage> {
    let index = departure.own.checked_sub(1)?;
    let origin = origins.get(index as usize)?.origin();
    Some(Passage {
        at: origin.at,
        done: departure.done,
    })
}

/// Whether a passage agrees with the figures of a queue: delay, phases and, if it is met, the deadline.
fn agrees(timing: &QueueTiming, row: &TrafficRow, passage: Passage) -> bool {
    let delay = passage.delay();
    let period = row.traffic.period.max(1);
    let start = passage.at.saturating_sub(passage.at % period);
    let phase = passage.done.saturating_sub(start);
    let figures = &timing.timing;
    let is_timed = figures.best <= delay && delay <= figures.worst;
    let is_phased = match figures.phases {
        Some(phases) => phases.from <= phase && phase <= phases.to,
        None => true,
    };
    is_timed && is_phased && is_in_time(timing, delay)
}

/// Whether a delay is at most the deadline, if the figures promise to meet it.
fn is_in_time(timing: &QueueTiming, delay: u64) -> bool {
    match timing.deadline {
        Some(deadline) => !is_met(timing) || delay <= deadline,
        None => true,
    }
}

/// Whether the figures of a queue have a deadline, and the worst delay meets it.
pub fn is_met(timing: &QueueTiming) -> bool {
    match timing.deadline {
        Some(deadline) => timing.timing.worst <= deadline,
        None => false,
    }
}

/// Whether the figures of a queue have a deadline, and the worst delay misses it.
pub fn is_missed(timing: &QueueTiming) -> bool {
    timing.deadline.is_some() && !is_met(timing)
}

/// Returns the figures of a row for its first queue at `port`.
fn port_timing(figures: &[TrafficFigures], row: u32, port: u8) -> Option<&QueueTiming> {
    for figures in figures {
        if let TrafficFigures::Queue(timing) = figures {
            if timing.row == row && timing.port == port {
                return Some(timing);
            }
        }
    }
    None
}

/// Whether an arrival time lies between the phases of a row.
fn keeps(row: &TrafficRow, at: u64) -> bool {
    let phase = at % row.traffic.period.max(1);
    row.traffic.from <= phase && phase <= row.traffic.to
}

/// Returns the number of arrivals that break a row: by their phase, or as the second arrival in a period.
fn count_strays(row: &TrafficRow, view: &View<Global>) -> u64 {
    let mut strays = 0u64;
    let mut earlier = None;
    for stored in &view.origins {
        let origin = stored.origin();
        let period = Some(origin.at / row.traffic.period.max(1));
        add_if(&mut strays, !keeps(row, origin.at) || period == earlier);
        earlier = period;
    }
    strays
}

/// Whether the verdict lets the frame pass.
pub fn is_pass(verdict: Verdict) -> bool {
    matches!(verdict, Verdict::Pass { .. })
}

/// Returns the number of frames that the filter refused.
fn count_refused(view: &View<Global>) -> u64 {
    let mut refused = 0u64;
    for verdict in &view.verdicts {
        add_if(&mut refused, !is_pass(verdict.verdict()));
    }
    refused
}

/// Whether the row's figures for a queue promise that each frame passes.
fn passes(figures: &[TrafficFigures], row: u32) -> bool {
    let mut passes = false;
    for figures in figures {
        if let TrafficFigures::Queue(timing) = figures {
            passes = passes || (timing.row == row && timing.passes);
        }
    }
    passes
}

/// Whether a row has no queue.
fn is_nowhere(figures: &[TrafficFigures], index: u32) -> bool {
    for figures in figures {
        if let TrafficFigures::Nowhere { row, .. } = figures {
            if *row == index {
                return true;
            }
        }
    }
    false
}

/// Returns the number of dropped copies of a row, without ports at which its figures admit a loss.
fn drops_against(figures: &[TrafficFigures], row: u32, view: &View<Global>) -> u64 {
    let mut drops = 0u64;
    for stored in &view.drops {
        let dropped = stored.dropped_copy();
        let passes = match port_timing(figures, row, dropped.port) {
            Some(timing) => timing.passes,
            None => true,
        };
        add_if(&mut drops, passes);
    }
    drops
}

/// Returns the number of departures of a row that contradict its figures.
fn departures_against(
    figures: &[TrafficFigures],
    index: u32,
    row: &TrafficRow,
    view: &View<Global>,
) -> u64 {
    let mut count = 0u64;
    for stored in &view.departures {
        let departure = stored.departure();
        let timing = port_timing(figures, index, departure.port);
        let agrees = match (timing, departure_passage(&view.origins, &departure)) {
            (Some(timing), Some(passage)) => agrees(timing, row, passage),
            _ => false,
        };
        add_if(&mut count, !agrees);
    }
    count
}

/// Adds the counts of a row in a run.
fn judge_row(case: Case<'_>, index: u32, row: &TrafficRow, view: &View<Global>, shown: &mut Shown) {
    let refused = count_refused(view);
    let dropped = drops_against(case.figures, index, view);
    let against = departures_against(case.figures, index, row, view);
    shown.frames = shown.frames.saturating_add(view.origins.len() as u64);
    shown.stray = shown.stray.saturating_add(count_strays(row, view));
    shown.refuted = shown
        .refuted
        .saturating_add(against)
        .saturating_add(dropped);
    if passes(case.figures, index) {
        shown.refuted = shown.refuted.saturating_add(refused);
    } else {
        let lost = refused.saturating_add(view.drops.len() as u64);
        shown.lost = shown.lost.saturating_add(lost);
    }
    if is_nowhere(case.figures, index) {
        add_if(&mut shown.refuted, !view.departures.is_empty());
    }
}

/// Returns the greatest bound of a filter's queues at a port, in ns.
fn port_bound(bounds: &[TightBound], filter: u32, port: u8) -> Option<u64> {
    let mut greatest = None;
    for bound in bounds {
        if bound.filter == filter && bound.port == port {
            greatest = greatest.max(Some(bound.bound));
        }
    }
    greatest
}

/// Returns the number of departures of a protected filter that exceed their port's bound, or have no bound.
fn count_late(bounds: &[TightBound], filter: u32, view: &View<Global>) -> u64 {
    let mut late = 0u64;
    for stored in &view.departures {
        let departure = stored.departure();
        let bound = port_bound(bounds, filter, departure.port);
        let is_late = match (bound, departure_passage(&view.origins, &departure)) {
            (Some(bound), Some(passage)) => bound < passage.delay(),
            _ => true,
        };
        add_if(&mut late, is_late);
    }
    late
}

/// Adds the departures that exceed their bounds.
fn judge_bounds(case: Case<'_>, outcome: &Outcome<Global>, shown: &mut Shown) {
    for (filter, view) in &outcome.filters {
        if view.protected {
            let late = count_late(case.bounds, *filter, view);
            shown.refuted = shown.refuted.saturating_add(late);
        }
    }
}

/// Adds the counts of a run.
pub fn judge(case: Case<'_>, outcome: &Outcome<Global>, shown: &mut Shown) {
    judge_bounds(case, outcome, shown);
    let mut index = 1u32;
    for row in case.rows {
        match (row, filter_view(outcome, row.filter())) {
            (TalkerRow::Periodic(row), Some(view)) => judge_row(case, index, row, view, shown),
            _ => add_if(&mut shown.stray, true),
        }
        index = index.saturating_add(1);
    }
}

/// Returns the least and the greatest delay of a filter's departures at a port, in ns.
pub fn delay_range(outcome: &Outcome<Global>, filter: u32, port: u8) -> Option<(u64, u64)> {
    let view = filter_view(outcome, filter)?;
    let mut delays: Option<(u64, u64)> = None;
    for stored in &view.departures {
        let departure = stored.departure();
        if departure.port == port {
            let delay = departure_passage(&view.origins, &departure)?.delay();
            delays = match delays {
                None => Some((delay, delay)),
                Some((least, most)) => Some((least.min(delay), most.max(delay))),
            };
        }
    }
    delays
}
