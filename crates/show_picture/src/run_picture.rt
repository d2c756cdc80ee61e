//! Draws a run (`draw_run`): each port's windows, the frames that left, and marks of refused and dropped frames.
ghost use Rattle.std.specs.Prelude.{◌≤◌, IfOk, length, string_bytes};

use crate::frame_selection::{DrawnFrame, FrameSelection, select_frames};
use crate::legend::colour_style;
use crate::picture::Picture;
use crate::selection::Selection;
use bridge_bounds::find_filter;
use bridge_check::Accepted;
use bridge_config::Plan;
use bridge_groups::{SharedQueue, least_queue_bound, least_shared_bound, plan_shared_queues};
use bridge_limits::NoMemory;
use bridge_semantics::{Outcome, StoredDeparture, StoredOrigin};
use bridge_text::{AXIS_LEFT, AXIS_WIDTH, Bar, Element, Mark, Span};
use show_lint::Hypercycle;
use std::alloc::{Allocator, Global};

/// Note in the head about frames and marks that aren't drawn, because the picture has a limit.
const LEFT_OUT: &str =
    "not drawn (hatched): {0} of {1} frames, {2} of {3} marks. Choose a shorter time with --from and --to.";

/// Title of a frame that left.
const FRAME: &str = "filter {0} frame {1}, sent {2} to {3} ns, arrived at {4} ns";

/// Title of a refused or dropped frame.
const MARK: &str = "filter {0} frame {1}, arrived at {2} ns: {a}";

/// Returns the longest delay bound in ns of a filter's queues at `port`, for the latest ends that `put_frame` draws. `rows` has the shared
/// queues of all groups. Returns `None` without a bound.
///
/// `put_port_link` calls it.
fn longest_delay<A: Allocator + Copy>(
    accepted: &Accepted<A>,
    rows: &[SharedQueue],
    filter: u32,
    port: u8,
) -> Option<u64> {
    let mut longest = None;
    if (1..=16).contains(&port) {
        for class in 0..8u8 {
            longest = longest.max(least_queue_bound(accepted, filter, port, class));
        }
    }
    match find_filter(accepted.plan().filters(), filter) {
        Some(found) => longest.max(longest_group_delay(rows, found.group, port)),
        None => longest,
    }
}

/// Returns the longest delay bound in ns of a group's queues at `port`. Returns `None` without a group or a queue. `longest_delay` calls
/// it.
fn longest_group_delay(rows: &[SharedQueue], group: Option<u32>, port: u8) -> Option<u64> {
    let mut longest = None;
    for row in rows {
        if Some(row.group) == group && row.port == port {
            longest = longest.max(Some(least_shared_bound(row)));
        }
    }
    longest
}

/// Returns whether the span and ports of the picture show an arrival or a frame that left of a filter. Only then the legend has the filter.
/// `put_shown_filters` calls it.
fn is_drawn(
    span: Span,
    part: &Selection,
    origins: &[StoredOrigin],
    departures: &[StoredDeparture],
) -> bool {
    for stored in departures {
        let it = stored.departure();
        if part.has_port(it.port) && span.has_overlap(it.start, it.done) {
            return true;
        }
    }
    for stored in origins {
        let it = stored.origin();
        if part.has_port(it.port) && span.has_overlap(it.at, it.at.saturating_add(1)) {
            return true;
        }
    }
    false
}

impl Picture {
    /// Draws the arrival of a frame with a delay bound, the frame's wait, and the latest end `by` of the transmission in ns. `put_frame`
    /// calls it.
    fn put_wait(&mut self, frame: &DrawnFrame, by: u64) {
        let (came, colour) = (frame.arrival, frame.colour);
        let (x, due) = self.span.page_extent(came, by);
        let (_, waited) = self.span.page_extent(came, frame.start);
        self.page.put_bar("grey", x, 245, due, 10);
        let style = colour_style(colour, false);
        if self.span.has_overlap(came, came.saturating_add(1)) {
            self.page.put_bar(style, x, 165, 12, 90);
        }
        self.page.put_bar(style, x, 225, waited, 14);
    }

    /// Draws a frame that left, higher for a protected filter, wide enough to be visible. If the delay bound `longest` is known, draws the
    /// latest end too. `put_port_link` calls it.
    fn put_frame(&mut self, frame: &DrawnFrame, longest: Option<u64>) {
        let (filter, own, came) = (u64::from(frame.filter), frame.own, frame.arrival);
        let (colour, start, done) = (frame.colour, frame.start, frame.done);
        let by = came.saturating_add(longest.unwrap_or(0));
        if longest.is_some() {
            self.put_wait(frame, by);
        }
        let (x, width) = self.span.page_extent(start, done);
        let wide = width.saturating_sub(12);
        let width = if wide > 30 { wide } else { width.max(30) };
        let is_edged = frame.is_protected && width >= 70;
        let y = self
            .page
            .bottom_plus(if frame.is_protected { 15 } else { 55 });
        let high = if frame.is_protected { 190 } else { 130 };
        let bar = Element::Bar(Bar {
            x,
            y,
            width,
            height: high,
        });
        self.page.begin_titled(colour_style(colour, is_edged), bar);
        self.page
            .add_piece(FRAME, &[filter, own, start, done, came], "");
        if longest.is_some() {
            self.page.add_piece(", latest end {0} ns", &[by], "");
        }
        self.page.end_titled(bar);
    }

    /// Draws the mark of a refused or dropped frame, larger and with an edge for a protected filter. Its tip is up for a refused frame,
    /// down for a dropped one. `put_port_link` calls it.
    fn put_mark(&mut self, frame: &DrawnFrame) {
        let is_stopped = frame.is_stopped;
        let high = if frame.is_protected { 120 } else { 80 };
        let tip = if is_stopped { 10 } else { 130 };
        let base = if is_stopped { 10 + high } else { 130 - high };
        let (x, half) = (self.span.page_x(frame.arrival), high / 2);
        let mark = Element::Mark(Mark {
            left: x.saturating_sub(half),
            right: x.saturating_add(half),
            base: self.page.bottom_plus(base),
            middle: x,
            tip: self.page.bottom_plus(tip),
        });
        let numbers = [u64::from(frame.filter), frame.own, frame.arrival];
        let style = colour_style(frame.colour, frame.is_protected);
        self.page.begin_titled(style, mark);
        self.page.add_piece(MARK, &numbers, frame.cause);
        self.page.end_titled(mark);
    }

    /// Draws the link of a port with the frames that left, and below it the refused and dropped frames. Hatches time parts with omitted
    /// frames. `put_ports` calls it.
    pub(crate) fn put_port_link<A: Allocator + Copy>(
        &mut self,
        accepted: &Accepted<A>,
        rows: &[SharedQueue],
        choice: &FrameSelection,
        port: u8,
    ) {
        self.page.put_bar("lane", AXIS_LEFT, 0, AXIS_WIDTH, 280);
        self.page.put_text("b", 200, 160, "link", &[]);
        let (mut known, mut longest) = (None, None);
        for frame in &choice.left.frames {
            if frame.port == port {
                if known != Some(frame.filter) {
                    known = Some(frame.filter);
                    longest = longest_delay(accepted, rows, frame.filter, port);
                }
                self.put_frame(frame, longest);
            }
        }
        self.put_hatches(&choice.left, port, 55, 130);
        self.page.skip_height(300);
        self.page.put_text("s", 200, 110, "refused or dropped", &[]);
        for frame in &choice.marks.frames {
            if frame.port == port {
                self.put_mark(frame);
            }
        }
        self.put_hatches(&choice.marks, port, 10, 120);
        self.page.skip_height(170);
    }

    /// Writes how many frames and marks aren't drawn, if any, and a legend row for each filter with frames in the picture. `draw_run` calls
    /// it.
    fn put_shown_filters<A: Allocator + Copy, B: Allocator>(
        &mut self,
        plan: &Plan<A>,
        outcome: &Outcome<B>,
        part: &Selection,
        choice: &FrameSelection,
    ) {
        let (no_frames, frames) = choice.left.left_out();
        let (no_marks, marks) = choice.marks.left_out();
        if no_frames > 0 || no_marks > 0 {
            let numbers = [no_frames, frames, no_marks, marks];
            self.page.begin_text_line("b", 190);
            self.page.add_piece(LEFT_OUT, &numbers, "");
            self.page.end_text();
        }
        self.page.begin_legend();
        let mut colour: u64 = 0;
        for (filter, view) in &outcome.filters {
            if part.has_filter(*filter)
                && is_drawn(self.span, part, &view.origins, &view.departures)
            {
                let is_grouped = match find_filter(plan.filters(), *filter) {
                    Some(found) => found.group.is_some(),
                    None => false,
                };
                self.put_filter_legend(*filter, view.protected, is_grouped, colour);
            }
            colour = colour.saturating_add(1) % 8;
        }
    }
}

/// Returns a run's picture as SVG text of at most 2,000,000 octets: windows, stream gates, frames that left, and marks of refused and
/// dropped ones. Omits unfiltered frames, and hatches frames beyond a limit.
///
/// `draw_selected_run` of `app_commands` calls it.
pub fn draw_run<B: Allocator>(
    alloc: Global,
    accepted: &Accepted<Global>,
    outcome: &Outcome<B>,
    part: &Selection,
) -> Result<String, NoMemory>
    ensures { IfOk result (λ text. length (string_bytes text) ≤ 2000000) }
{
    let plan = accepted.plan();
    let rows = plan_shared_queues(alloc, accepted)?;
    let choice = select_frames(alloc, outcome, part);
    let mut picture = Picture::new(alloc, Hypercycle::from_plan(plan).change, choice.span);
    picture.is_refused = choice.left.is_refused | choice.marks.is_refused;
    picture.add_gates(plan, part);
    picture.begin_head("run");
    picture.page.put_span(choice.span);
    picture.page.end_text();
    picture.put_selection(plan, part);
    picture.put_shown_filters(plan, outcome, part, &choice);
    picture.put_ports(plan, part, Some(accepted), &rows, Some(&choice));
    picture.finish(alloc)
}
