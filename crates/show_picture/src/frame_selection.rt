//! Selects the frames of a run that its picture draws: frames that left, and refused or dropped frames. Each port and each part of the time
//! has a share of both.
use crate::picture::Picture;
use crate::selection::Selection;
use bridge_filter::Verdict;
use bridge_port::Refusal;
use bridge_semantics::{Outcome, StoredOrigin, View};
use bridge_text::{AXIS_LEFT, AXIS_WIDTH, Span};
use std::alloc::{Allocator, Global};

/// Number of parts into which a port's time axis is divided. Each part has a share of the frames.
const TIME_PARTS: usize = 100;

/// Width of one of the `TIME_PARTS` parts of a time axis on the page, in tenths of a pixel.
const PART_WIDTH: u64 = AXIS_WIDTH / TIME_PARTS as u64;

/// Frame of a filter at a port, for `put_frame` or `put_mark`: a frame that left, a refused frame, or a dropped copy.
#[derive(Clone, Copy)]
pub(crate) struct DrawnFrame {
    /// Number of the filter.
    pub filter: u32,
    /// Number of the frame among the filter's frames, from 1.
    pub own: u64,
    /// Whether the filter is protected; then the frame is drawn larger.
    pub is_protected: bool,
    /// Colour number of its filter.
    pub colour: u64,
    /// Port that the frame left or that dropped it; the ingress port, if its filter refused it.
    pub port: u8,
    /// Whether the filter refused the frame.
    pub is_stopped: bool,
    /// Arrival time in ns.
    pub arrival: u64,
    /// Start of transmission in ns; the arrival time of a refused or dropped frame.
    pub start: u64,
    /// End of transmission in ns; for a refused or dropped frame, 1 ns after its arrival.
    pub done: u64,
    /// Reason of a refusal or drop; empty for a frame that left.
    pub cause: &'static str,
}

/// Share of one part of a port's time axis: `left` counts its frames that aren't drawn, `room` how many more the picture may draw.
#[derive(Clone, Copy)]
struct Share {
    left: u64,
    room: u64,
}

/// Purpose of a pass over all frames: find the time span, count frames, or select frames of protected filters (`true`) or others (`false`).
#[derive(Clone, Copy)]
enum Pass {
    FindSpan,
    Count,
    Select(bool),
}

/// Selected frames of one kind: frames that left, or refused and dropped frames.
#[derive(Drop)]
pub(crate) struct DrawnGroup {
    /// Frames that the picture draws.
    pub frames: Vec<DrawnFrame>,
    /// Shares of the time parts of each port, from port 0.
    shares: Vec<Share>,
    /// Whether memory ran out.
    pub is_refused: bool,
}

/// Contents of a run's picture: its time span, the frames that left, and the marks of refused and dropped frames. `select_frames` makes it.
#[derive(Drop)]
pub(crate) struct FrameSelection {
    /// Purpose of the current pass over all frames.
    pass: Pass,
    /// Time span of the picture.
    pub span: Span,
    /// Frames that left and are drawn.
    pub left: DrawnGroup,
    /// Refused and dropped frames.
    pub marks: DrawnGroup,
}

/// Returns why a filter refused a frame; the empty text if the frame passed. `visit_filter` calls it.
fn refusal_cause(verdict: Verdict) -> &'static str {
    match verdict {
        Verdict::Pass { .. } => "",
        Verdict::Blocked => "blocked",
        Verdict::Oversize => "longer than `max_sdu`",
        Verdict::GateClosed => "gate closed",
        Verdict::ShutByRx => "gate shut: an earlier frame arrived while it was closed",
        Verdict::ShutByOctets => "gate shut: an earlier frame exceeded its octets",
        Verdict::OctetsExceeded => "octets of the gate entry exceeded",
        Verdict::Red => "red",
        Verdict::YellowDropped => "yellow: the meter drops yellow frames",
    }
}

impl DrawnGroup {
    /// Returns a group without frames. If memory runs out, `is_refused` is set, and `draw_run` fails. `select_frames` calls it.
    fn new(alloc: Global) -> DrawnGroup {
        let none = Share { left: 0, room: 0 };
        let (shares, is_refused) = match Vec::from_elem(alloc, none, 17 * TIME_PARTS) {
            Ok(shares) => (shares, false),
            Err(_) => (Vec::new(alloc), true),
        };
        DrawnGroup {
            frames: Vec::new(alloc),
            shares,
            is_refused,
        }
    }

    /// Counts a frame, or selects it if its time part may have more frames. `x` is its distance from the left edge, in tenths of a pixel.
    /// The current pass decides. `visit_frame` calls it.
    fn add_frame(&mut self, pass: Pass, frame: DrawnFrame, x: u64) {
        let part = (x.saturating_sub(AXIS_LEFT) / PART_WIDTH) as usize;
        let place = usize::from(frame.port) * TIME_PARTS + part.min(TIME_PARTS - 1);
        let Some(share) = self.shares.get_mut(place) else {
            return;
        };
        match pass {
            Pass::Count => share.left = share.left.saturating_add(1),
            Pass::Select(it) if it == frame.is_protected && share.room > 0 => {
                share.room = share.room.saturating_sub(1);
                share.left = share.left.saturating_sub(1);
                self.is_refused |= self.frames.push(frame).is_err();
            }
            _ => {}
        }
    }

    /// Returns how many frames are drawn if each time part may have `each` frames. `allot_shares` and `left_out` call it.
    fn drawn_count(&self, each: u64) -> u64 {
        let mut drawn: u64 = 0;
        for share in &self.shares {
            drawn = drawn.saturating_add(share.left.min(each));
        }
        drawn
    }

    /// Allots equal shares to all time parts, so that at most `most` frames are drawn. The share grows by a quarter in each step; 128 steps
    /// exceed any count. `select_frames` calls it.
    fn allot_shares(&mut self, most: u64) {
        let mut each: u64 = 1;
        for _ in 0..128 {
            let next = each.saturating_add((each / 4).max(1));
            if self.drawn_count(next) > most {
                break;
            }
            each = next;
        }
        for share in &mut self.shares {
            share.room = each;
        }
    }

    /// Returns two numbers for the note in the picture: the frames of the group that aren't drawn, and all frames of the group.
    /// `put_shown_filters` calls it.
    pub(crate) fn left_out(&self) -> (u64, u64) {
        let left_out = self.drawn_count(u64::MAX);
        let frames = self.frames.len() as u64;
        (left_out, left_out.saturating_add(frames))
    }
}

impl Picture {
    /// Hatches the parts of a port's time axis with omitted frames of `group`. Bars start `by` below the page's lower end and are `high`
    /// high, both in tenths of a pixel. `put_port_link` calls it.
    pub(crate) fn put_hatches(&mut self, group: &DrawnGroup, port: u8, by: u64, high: u64) {
        let (first, mut x) = (usize::from(port) * TIME_PARTS, AXIS_LEFT);
        for place in 0..TIME_PARTS {
            if let Some(share) = group.shares.get(first + place) {
                if share.left > 0 {
                    self.page.put_bar("hatch", x, by, PART_WIDTH, high);
                }
            }
            x = x.saturating_add(PART_WIDTH);
        }
    }
}

impl FrameSelection {
    /// Visits a frame: completes its arrival time, then extends the span, counts the frame or selects it, by the current pass. Ignores
    /// frames outside `part`. `visit_filter` calls it.
    fn visit_frame(&mut self, part: &Selection, origins: &[StoredOrigin], frame: DrawnFrame) {
        let Some(stored) = origins.get(frame.own.saturating_sub(1) as usize) else {
            return;
        };
        let origin = stored.origin();
        let mut seen = frame;
        seen.arrival = origin.at;
        if !frame.cause.is_empty() {
            (seen.start, seen.done) = (origin.at, origin.at.saturating_add(1));
        }
        if frame.is_stopped {
            seen.port = origin.port;
        }
        if !part.has_port(seen.port) {
            return;
        }
        let (start, done) = (seen.start, seen.done);
        if matches!(self.pass, Pass::FindSpan) {
            let came = if seen.is_protected {
                seen.arrival
            } else {
                start
            };
            self.span.from = self.span.from.min(start).min(came);
            self.span.to = self.span.to.max(done);
        } else if self.span.has_overlap(start, done) {
            let x = self.span.page_x(start);
            match frame.cause {
                "" => self.left.add_frame(self.pass, seen, x),
                _ => self.marks.add_frame(self.pass, seen, x),
            }
        }
    }

    /// Visits the frames of filter `filter`: frames that left, refused frames and dropped copies. `visit_frames` calls it for each selected
    /// filter.
    fn visit_filter<B: Allocator>(
        &mut self,
        part: &Selection,
        colour: u64,
        filter: u32,
        view: &View<B>,
    ) {
        let mut frame = DrawnFrame {
            filter,
            own: 0,
            is_protected: view.protected,
            colour,
            port: 0,
            is_stopped: false,
            arrival: 0,
            start: 0,
            done: 0,
            cause: "",
        };
        for stored in &view.departures {
            let it = stored.departure();
            (frame.own, frame.port) = (it.own, it.port);
            (frame.start, frame.done) = (it.start, it.done);
            self.visit_frame(part, &view.origins, frame);
        }
        (frame.own, frame.is_stopped) = (0, true);
        for verdict in &view.verdicts {
            frame.own = frame.own.saturating_add(1);
            frame.cause = refusal_cause(verdict.verdict());
            if !frame.cause.is_empty() {
                self.visit_frame(part, &view.origins, frame);
            }
        }
        frame.is_stopped = false;
        for stored in &view.drops {
            let it = stored.dropped_copy();
            (frame.own, frame.port) = (it.own, it.port);
            frame.cause = match it.refusal {
                Refusal::Full => "queue full",
                Refusal::NeverFits => "longer than any window",
            };
            self.visit_frame(part, &view.origins, frame);
        }
    }

    /// Visits all frames of the filters that `part` selects, for the purpose `pass`. Filters get colours 0 to 7 in turn. `select_frames`
    /// calls it.
    fn visit_frames<B: Allocator>(&mut self, part: &Selection, outcome: &Outcome<B>, pass: Pass) {
        let mut colour: u64 = 0;
        self.pass = pass;
        for (filter, view) in &outcome.filters {
            if part.has_filter(*filter) {
                self.visit_filter(part, colour, *filter, view);
            }
            colour = colour.saturating_add(1) % 8;
        }
    }
}

/// Selects the frames that a run's picture draws: those in the span that `part` requests, by default all. It draws at most 2,400 frames
/// that left, and 1,600 refused or dropped frames. `draw_run` calls it.
pub(crate) fn select_frames<B: Allocator>(
    alloc: Global,
    outcome: &Outcome<B>,
    part: &Selection,
) -> FrameSelection {
    let (from, to) = (u64::MAX, 0);
    let mut choice = FrameSelection {
        pass: Pass::FindSpan,
        span: Span { from, to },
        left: DrawnGroup::new(alloc),
        marks: DrawnGroup::new(alloc),
    };
    choice.visit_frames(part, outcome, Pass::FindSpan);
    if choice.span.from > choice.span.to {
        (choice.span.from, choice.span.to) = (0, 1_000_000);
    }
    choice.span = part.span(choice.span);
    choice.visit_frames(part, outcome, Pass::Count);
    choice.left.allot_shares(2_400);
    choice.marks.allot_shares(1_600);
    choice.visit_frames(part, outcome, Pass::Select(true));
    choice.visit_frames(part, outcome, Pass::Select(false));
    choice
}
