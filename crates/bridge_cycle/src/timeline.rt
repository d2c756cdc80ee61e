//! Timelines: the interval at each time, for a list with or without a schedule change.
ghost use Rattle.std.specs.Prelude.{◌≡◌, ℕ, ◌+◌, ◌<◌, ◌≤◌, pos, ◌≤ℤ◌, ℤ, Option, Some};
ghost use Rattle.bridge_cycle.specs.declared.timeline.Turn.{Turn};

use crate::cyclic_list::LONGEST_CYCLE;

/// End of the times, in ns, at which callers may ask a timeline for its interval. A caller asks only for earlier times.
pub const END_OF_TURNS: u64 = 9_100_000_000_000_000_000;

/// Interval of a list, in which one state is in force.
#[derive(Clone, Copy)]
pub struct Turn<S> {
    /// State in force during the interval.
    pub state: S,
    /// Start in ns; negative if the interval started before time 0.
    pub start: i64,
    /// End in ns; the next interval starts at this time.
    pub end: u64,
}

/// States over time, in consecutive intervals.
pub trait Timeline {
    /// State in force during an interval.
    type State;

    /// Whether the timeline's lists are valid.
    ghost is_lawful: { Self → Type 0 };

    /// Interval that contains a time.
    ghost turn_at: { Self → ℕ → Option (Turn Self.State) };

    /// Cycle time in ns: an interval ends at most this time after each time within it.
    ghost cycle_of: { Self → ℕ };

    /// Returns the interval that contains time `t` in ns. Searches for fits and delay bounds call it to go from interval to interval.
    fn turn(&self, t: u64) -> Turn<Self::State>
        requires { t < END_OF_TURNS }
        ensures lawful { is_lawful self.now }
        ensures turn { turn_at self.now t ≡ Some result };

    /// Returns the cycle time in ns, of two lists the greater one. Each interval ends within a cycle time, so searches for fits stop after
    /// a few.
    fn cycle(&self) -> u64
        ensures lawful { is_lawful self.now }
        ensures cycle { result ≡ cycle_of self.now }
        ensures bounded { result ≤ LONGEST_CYCLE };

    /// A timeline has an interval at each time.
    ghost is_there: { (a : Self) (t : ℕ) → is_lawful a → (x : Turn Self.State) × (turn_at a t ≡ Some x) };

    /// The interval that contains a time starts at or before that time.
    ghost begins: { (a : Self) (t : ℕ) (x : Turn Self.State)
        → is_lawful a
        → turn_at a t ≡ Some x
        → x.start ≤ℤ pos t };

    /// The interval that contains a time ends after that time.
    ghost goes_on: { (a : Self) (t : ℕ) (x : Turn Self.State)
        → is_lawful a
        → turn_at a t ≡ Some x
        → t < x.end };

    /// At each time within an interval, the timeline has this interval.
    ghost same: { (a : Self) (t u : ℕ) (x : Turn Self.State)
        → is_lawful a
        → turn_at a t ≡ Some x
        → x.start ≤ℤ pos u
        → u < x.end
        → turn_at a u ≡ Some x };

    /// An interval ends within a cycle of each time within it.
    ghost soon: { (a : Self) (t : ℕ) (x : Turn Self.State)
        → is_lawful a
        → turn_at a t ≡ Some x
        → x.end ≤ t + cycle_of a };
}
