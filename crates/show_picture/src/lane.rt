//! Lanes of ports and stream gates: rows of bars for the times when a class or a stream gate is open.
ghost use Rattle.std.specs.Prelude.{◌<◌};

use crate::picture::Picture;
use crate::selection::Selection;
use bridge_check::{can_wait, find_gate};
use bridge_config::{Plan, PortPlan};
use bridge_cycle::{END_OF_TURNS, Egress, Timeline, is_open};
use bridge_filter::FilterPlan;
use bridge_gate::Schedule;
use bridge_ident::StreamEntry;
use bridge_text::{AXIS_LEFT, AXIS_WIDTH, choose_word};
use std::alloc::Allocator;

/// Largest number of stream gates in a picture. Each has a lane.
pub(crate) const MAX_GATES: usize = 128;

/// Height of the bars in a lane, in tenths of a pixel.
const BAR_HEIGHT: u64 = 130;

/// Subject of a lane: a class of a port, a port that is always open, or the stream gate with a given number.
#[derive(Clone, Copy)]
enum Lane {
    Class(u8, u8),
    Open(u8),
    Gate(u32),
}

/// Source of a lane's open times: a port's gate control lists, always open, or a stream gate's schedule.
#[derive(Drop)]
enum LaneTimes<'a, A: Allocator + Copy> {
    Lists(&'a Egress<A>),
    Always,
    Gate(&'a Schedule<A>),
}

/// Interval of a lane from `from` to `to` in ns. `open` is `None` if closed, otherwise whether the interval is at fault, and the priority
/// that the gate assigns.
#[derive(Clone, Copy)]
pub(crate) struct Window {
    from: u64,
    to: u64,
    open: Option<(bool, Option<u8>)>,
}

/// Returns the number of decimal digits of `number`: its width in letters, for the space at lanes and in the legend. `lane_name`,
/// `put_filter_numbers` and `put_filter_legend` call it.
pub(crate) fn digit_count(number: u32) -> usize {
    number.checked_ilog10().unwrap_or(0) as usize + 1
}

/// Returns the template of a lane's name, the number in it, and how many letters of filter numbers fit next to the name. `draw_lane` calls
/// it.
fn lane_name(lane: Lane) -> (&'static str, u64, usize) {
    match lane {
        Lane::Class(_, class) => ("class {0}", u64::from(class), 11),
        Lane::Open(_) => ("always open", 0, 7),
        Lane::Gate(gate) => {
            let room = 13usize.saturating_sub(digit_count(gate));
            ("gate {0}", u64::from(gate), room)
        }
    }
}

/// Returns whether only one list applies from time `from` in ns on. Then a state that lasts a whole cycle lasts for ever. `collect_windows`
/// calls it.
fn has_single_list<A: Allocator + Copy>(times: &LaneTimes<A>, from: u64) -> bool {
    match times {
        LaneTimes::Lists(Egress::Joined(joined)) => joined.change_time() <= from,
        LaneTimes::Gate(Schedule::Joined(joined)) => joined.change_time() <= from,
        _ => true,
    }
}

/// Returns whether frames with handle `handle` can enter at `port`. Without a handle (`None`), returns false: `add_gates` calls it for
/// filters that have one.
fn can_enter_port(streams: &[StreamEntry], handle: Option<u32>, port: u8) -> bool {
    for stream in streams {
        if stream.port == port && Some(stream.handle) == handle {
            return true;
        }
    }
    false
}

/// Returns whether a filter is protected or grouped. Pictures show the windows and stream gates of these filters. `add_gates` and
/// `is_filter_in_lane` call it.
fn is_shown(filter: &FilterPlan) -> bool {
    filter.protected || filter.group.is_some()
}

/// Returns whether the plan has a grouped filter. If so, `put_ports` writes the legend for groups.
pub(crate) fn has_groups<A: Allocator + Copy>(plan: &Plan<A>) -> bool {
    for (_, filter) in plan.filters() {
        if filter.group.is_some() {
            return true;
        }
    }
    false
}

/// Returns whether a lane names a filter. A stream gate's lane names its filters, other lanes the protected and grouped filters whose
/// frames can wait there. `put_lane` calls it.
fn is_filter_in_lane<A: Allocator + Copy>(plan: &Plan<A>, filter: &FilterPlan, lane: Lane) -> bool {
    let (port, first, last) = match lane {
        Lane::Gate(gate) => return filter.gate == gate,
        Lane::Open(port) => (port, 0, 7),
        Lane::Class(port, class) => (port, class, class),
    };
    for class in 0..8u8 {
        let is_asked = is_shown(filter) && first <= class && class <= last;
        if is_asked && (1..=16).contains(&port) && can_wait(plan, filter, port, class) {
            return true;
        }
    }
    false
}

impl Picture {
    /// Adds to `gates` the stream gates of selected protected and grouped filters whose streams enter at selected ports. `draw_run` calls
    /// it; plans show all gates.
    pub(crate) fn add_gates<A: Allocator + Copy>(&mut self, plan: &Plan<A>, part: &Selection) {
        for port in plan.ports() {
            for (number, it) in plan.filters() {
                let is_asked = is_shown(it) & part.has_port(port.number) & part.has_filter(*number);
                if is_asked && can_enter_port(plan.streams(), it.handle, port.number) {
                    self.is_refused |= self.gates.push((port.number, it.gate)).is_err();
                }
            }
        }
    }

    /// Shares 8,000 windows equally among the lanes, so that the picture has a limit. Each lane may have 24 to 250 windows; more can't be
    /// distinguished. `put_ports` calls it.
    pub(crate) fn share_windows<A: Allocator + Copy>(&mut self, plan: &Plan<A>, part: &Selection) {
        let mut lanes = self.gates.len().min(MAX_GATES);
        for port in plan.ports() {
            if part.has_port(port.number) {
                lanes = lanes.saturating_add(if port.list.is_some() { 8 } else { 1 });
            }
        }
        self.window_limit = (8_000 / lanes.max(1)).clamp(24, 250);
    }

    /// Returns the interval of a lane that begins at time `from` in ns, with its state: open or closed, at fault, assigned priority.
    /// `collect_windows` calls it.
    fn window_at_time<A: Allocator + Copy>(
        &self,
        lane: Lane,
        times: &LaneTimes<A>,
        from: u64,
    ) -> Window
        requires { from < END_OF_TURNS }
    {
        let (port, class, is_beside) = self.fault;
        let (to, is_open, is_at_fault, value) = match (lane, times) {
            (Lane::Class(at, it), LaneTimes::Lists(list)) => {
                let turn = list.turn(from);
                let is_right = is_beside && turn.state.count_ones() == 1;
                let is_at_fault = (port, class) == (at, it) && !is_right;
                (turn.end, is_open(turn.state, it % 8), is_at_fault, None)
            }
            (_, LaneTimes::Gate(schedule)) => {
                let turn = schedule.turn(from);
                (turn.end, turn.state.lets, false, turn.state.ipv)
            }
            (Lane::Open(at), _) => (END_OF_TURNS, true, port == at, None),
            _ => (END_OF_TURNS, true, false, None),
        };
        let open = is_open.then_some((is_at_fault, value));
        Window { from, to, open }
    }

    /// Adds an open interval to the current lane's windows, or extends the last window by this interval. Ignores a closed interval.
    /// `collect_windows` calls it.
    fn append_window(&mut self, turn: Window) {
        match self.windows.last_mut() {
            _ if turn.open.is_none() => {}
            Some(last) if last.to == turn.from && last.open == turn.open => last.to = turn.to,
            _ => self.is_refused |= self.windows.push(turn).is_err(),
        }
    }

    /// Collects the windows of a lane in the span, at most one more than its limit. Returns whether they are complete. Examines at most
    /// 20,000 intervals. `put_lane` calls it.
    fn collect_windows<A: Allocator + Copy>(&mut self, lane: Lane, times: &LaneTimes<A>) -> bool {
        let (from, end) = (self.span.from, self.span.to.min(END_OF_TURNS));
        let mut at = from;
        self.windows.clear();
        for _ in 0..20_000 {
            if at >= end || self.windows.len() > self.window_limit {
                break;
            }
            let turn = self.window_at_time(lane, times, at);
            at = turn.to;
            self.append_window(turn);
        }
        if has_single_list(times, from) {
            match self.windows.as_mut_slice() {
                [] => at = end,
                [only] if only.from == from && only.to == at => {
                    only.to = end;
                    at = end;
                }
                _ => {}
            }
        }
        at >= end && self.windows.len() <= self.window_limit
    }

    /// Draws a window of the current lane, in a colour of its own if it is at fault. If it is wide enough, writes the assigned priority.
    /// `put_windows` calls it.
    fn put_window(&mut self, style: &str, window: Window) {
        let (is_at_fault, value) = window.open.unwrap_or((false, None));
        let (x, width) = self.span.page_extent(window.from, window.to);
        let style = if is_at_fault { "b c1" } else { style };
        self.page.put_bar(style, x, 0, width, BAR_HEIGHT);
        if let Some(value) = value {
            if width >= 160 {
                let middle = x.saturating_add(width / 2);
                self.page
                    .put_text("m", middle, 105, "{0}", &[u64::from(value)]);
            }
        }
    }

    /// Draws the windows of the current lane. If `is_all` is false, there are too many windows, and a hatched band replaces them.
    /// `draw_lane` calls it.
    fn put_windows(&mut self, style: &str, is_all: bool) {
        if is_all {
            for place in 0..self.windows.len() {
                if let Some(window) = self.windows.get(place).copied() {
                    self.put_window(style, window);
                }
            }
        } else {
            self.hatched_lanes = self.hatched_lanes.saturating_add(1);
            self.page
                .put_bar(style, AXIS_LEFT, 0, AXIS_WIDTH, BAR_HEIGHT);
            self.page
                .put_bar("hatch", AXIS_LEFT, 0, AXIS_WIDTH, BAR_HEIGHT);
        }
        self.page.skip_height(BAR_HEIGHT + 20);
    }

    /// Writes the numbers of the current lane's filters that fit `room` letters, and how many more filters there are. `draw_lane` calls it.
    fn put_filter_numbers(&mut self, room: usize) {
        let (mut room, mut more, mut gap) = (room, 0u64, "");
        for number in &self.named {
            let wide = digit_count(*number).saturating_add(1);
            if more > 0 || wide > room {
                more = more.saturating_add(1);
            } else {
                self.page.add_piece("{a}{0}", &[u64::from(*number)], gap);
                (room, gap) = (room - wide, " ");
            }
        }
        if more > 0 {
            self.page.add_piece("{a}+{0}", &[more], gap);
        }
    }

    /// Draws a lane with its name, its filters and its windows, which `put_lane` has found. `is_all` is false if there are too many
    /// windows.
    fn draw_lane(&mut self, lane: Lane, is_all: bool) {
        let (name, number, room) = lane_name(lane);
        let has_names = !self.named.is_empty();
        let (is_open, is_gate) = (matches!(lane, Lane::Open(_)), matches!(lane, Lane::Gate(_)));
        let is_bold = has_names && !is_gate;
        self.page
            .put_text(choose_word(is_bold, "b", "t"), 200, 115, name, &[number]);
        if has_names {
            self.page
                .begin_text("s r", AXIS_LEFT - 50, self.page.bottom_plus(115));
            self.put_filter_numbers(room);
            self.page.end_text();
        }
        if !is_open {
            self.page
                .put_bar("lane", AXIS_LEFT, 0, AXIS_WIDTH, BAR_HEIGHT);
        }
        let open = choose_word(is_gate, "gate", "open");
        self.put_windows(choose_word(is_bold, "own", open), is_all);
    }

    /// Finds the filters and windows of a lane, then draws the lane. `put_gates` and `put_port` call it.
    fn put_lane<A: Allocator + Copy>(&mut self, plan: &Plan<A>, lane: Lane, times: &LaneTimes<A>) {
        self.named.clear();
        for (number, filter) in plan.filters() {
            if is_filter_in_lane(plan, filter, lane) {
                self.is_refused |= self.named.push(*number).is_err();
            }
        }
        let is_all = self.collect_windows(lane, times);
        self.draw_lane(lane, is_all);
    }

    /// Draws the heading and the lanes of a port, class 7 on top. A port without a list has one lane. `put_ports` calls it.
    pub(crate) fn put_port<A: Allocator + Copy>(&mut self, plan: &Plan<A>, port: &PortPlan<A>) {
        let (number, speed) = (port.number, port.speed.megabits());
        self.page.skip_height(250);
        self.page
            .put_text("h", 100, 0, "port {0}", &[u64::from(number)]);
        self.page.put_text("s", AXIS_LEFT, 0, "{0} Mb/s", &[speed]);
        self.page.skip_height(60);
        match &port.list {
            Some(list) => {
                for below in 0..8u8 {
                    self.put_lane(
                        plan,
                        Lane::Class(number, 7 - below),
                        &LaneTimes::Lists(list),
                    );
                }
            }
            None => self.put_lane(plan, Lane::Open(number), &LaneTimes::Always),
        }
    }

    /// Draws the first `most` stream gates of a port, and writes how many more there are. `put_ports` calls it.
    pub(crate) fn put_gates<A: Allocator + Copy>(&mut self, plan: &Plan<A>, port: u8, most: usize) {
        let (mut room, mut further) = (most, 0u64);
        for place in 0..self.gates.len() {
            let (at, number) = self.gates.get(place).copied().unwrap_or((0, 0));
            if at == port && room == 0 {
                further = further.saturating_add(1);
            } else if at == port {
                if let Some(gate) = find_gate(plan.gates(), number) {
                    room = room.saturating_sub(1);
                    self.put_lane(plan, Lane::Gate(number), &LaneTimes::Gate(&gate.schedule));
                }
            }
        }
        if further > 0 {
            let words = "not drawn: {0} more stream gates";
            self.page.put_text("b", AXIS_LEFT, 115, words, &[further]);
            self.page.skip_height(150);
        }
    }
}
