//! Longest time for which a class is open without a break, by a gate control list.
ghost use Rattle.std.specs.Prelude.{◌*◌, ◌<◌, ◌≡◌, ◌↔◌, true};
ghost use Rattle.bridge_cycle.specs.Cyclic.{turn_by_time};
ghost use Rattle.bridge_cycle.specs.Opens.{turn_opens};
ghost use Rattle.bridge_cycle.specs.Runs.{Allows, FitsSoon, IsLongestRun, IsLongestFit, IsShorterThanCycle};

use crate::cyclic_list::CyclicList;
use crate::fit_search::is_open;
use crate::timeline::Timeline;
use std::alloc::Allocator;

/// Longest time for which a class is open without a break.
#[derive(Clone, Copy, Debug, PartialEq, Eq)]
pub enum Run {
    /// The class is never open.
    Never,
    /// The class is open for this number of ns, and no longer.
    For(u64),
    /// The class is always open.
    Always,
}

impl Run {
    /// Whether a transmission of `occupied` ns fits within the run. `can_fit_in_list` of `bridge_check`, `can_fit` of `bridge_port` and 2
    /// more call it.
    pub fn allows(self, occupied: u64) -> bool
        ensures { (result ≡ true) ↔ Allows self occupied }
    {
        match self {
            Run::Never => occupied == 0,
            Run::For(longest) => occupied <= longest,
            Run::Always => true,
        }
    }
}

/// Returns the longest time for which `class` is open without a break, also across the end of a cycle. A transmission of this length fits
/// at most 1 s after any time.
///
/// `can_fit_in_list` of `bridge_check`, `longest_runs` of `bridge_port` and 4 more call it.
pub fn longest_run<A: Allocator + Copy>(list: &CyclicList<u8, A>, class: u8) -> Run
    requires { class < 8 }
    ensures longest { IsLongestRun (λ v. turn_opens (turn_by_time list.now v) class) result }
    ensures shorter { IsShorterThanCycle result list.now.cycle }
    ensures soon { FitsSoon (λ v. turn_opens (turn_by_time list.now v) class) result }
{
    let cycle = list.cycle();
    let longest = longest_open_time(list, class);
    if longest == 0 {
        Run::Never
    } else if longest < cycle {
        Run::For(longest)
    } else {
        Run::Always
    }
}

/// Returns the longest time in ns for which `class` is open without a break in the first two cycles. An interval that reaches beyond them
/// counts to its end. `longest_run` calls it.
fn longest_open_time<L: Timeline<State = u8>>(timeline: &L, class: u8) -> u64
    requires { class < 8 }
    ensures { IsLongestFit (λ v. turn_opens (L.turn_at timeline.now v) class) (2 * L.cycle_of timeline.now) result }
{
    let end = 2 * timeline.cycle();
    let mut longest = 0;
    let mut run = 0;
    let mut seen = 0;
    while seen < end {
        let turn = timeline.turn(seen);
        if is_open(turn.state, class) {
            run += turn.end - seen;
            longest = run.max(longest);
        } else {
            run = 0;
        }
        seen = turn.end;
    }
    longest
}
