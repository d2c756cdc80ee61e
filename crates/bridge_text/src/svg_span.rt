//! Spans of time: positions of times on an axis, and the origin and unit of their labels.
ghost use Rattle.std.specs.Prelude.{◌≤◌};

/// Largest number of intervals between lines of an axis.
pub(crate) const MAX_INTERVALS: u64 = 12;

/// Span of time from `from` up to `to`, in ns.
#[derive(Clone, Copy)]
pub struct Span {
    pub from: u64,
    pub to: u64,
}

/// Origin of times in ns, name of their unit, and a thousandth of the unit in ns.
pub type TimeScale = (u64, &'static str, u64);

impl Span {
    /// Returns the span's duration in ns, at least 1: it is a divisor. `axis_distance`, `Span::origin` and 2 more call it.
    fn duration(self) -> u64
        ensures { 1 ≤ result }
    {
        self.to.saturating_sub(self.from).max(1)
    }

    /// Whether the span overlaps the time from `from` up to `to` in ns; both ends are excluded. `put_axis`, `visit_frame` of `show_picture`
    /// and 2 more call it.
    pub fn has_overlap(self, from: u64, to: u64) -> bool {
        self.from < to && from < self.to
    }

    /// Returns the distance of time `t`, in ns, along an axis of length `line`. Times outside the span are at the ends of the axis.
    /// `page_x` and `time_x` of `net_report` call it.
    pub fn axis_distance(self, t: u64, line: u64) -> u64
        ensures { result ≤ line }
    {
        let length = self.duration();
        let into = t.saturating_sub(self.from).min(length);
        let along = u128::from(into) * u128::from(line) / u128::from(length);
        along.min(u128::from(line)) as u64
    }

    /// Returns the origin of the span's times in ns. It is 0, or a round time shortly before the span if the span starts very late,
    /// compared with its duration. `time_scale` calls it.
    fn origin(self) -> u64 {
        let (from, length) = (self.from, self.duration());
        let digits = (length - 1).checked_ilog10().map_or(0, |it| it + 1);
        let power = 10u64.checked_pow(digits).unwrap_or(u64::MAX).max(1);
        let is_far = from / length >= 1_000;
        if is_far { from - from % power } else { 0 }
    }

    /// Returns origin and unit for the span's times: µs for a duration below 2 ms, ms below 2 s, otherwise s. `put_duration`, `put_title`
    /// of `show_picture` and 2 more call it.
    pub fn time_scale(self) -> TimeScale {
        match self.duration() {
            0..2_000_000 => (self.origin(), "µs", 1),
            2_000_000..2_000_000_000 => (self.origin(), "ms", 1_000),
            _ => (self.origin(), "s", 1_000_000),
        }
    }

    /// Returns the time between two lines of the axis in ns: one, two or five times a power of ten. The axis then has at most
    /// `MAX_INTERVALS` whole intervals. `put_axis` calls it.
    pub(crate) fn grid_step(self) -> u64
        ensures { 1 ≤ result }
    {
        let mut step: u64 = 1;
        for number in 0..57 {
            if self.duration() / step.max(1) > MAX_INTERVALS {
                step = step.saturating_mul(4 + u64::from(number % 3 == 1)) / 2;
            }
        }
        step.max(1)
    }
}
