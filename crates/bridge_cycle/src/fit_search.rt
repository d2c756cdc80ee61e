//! Search for the earliest time at which a transmission fits.
ghost use Rattle.std.specs.Prelude.{◌≡◌, ℕ, ◌+◌, ◌*◌, ◌<◌, ◌≤◌};
ghost use Rattle.bridge_cycle.specs.Fits.{Fits, IsFirstFit};
ghost use Rattle.bridge_cycle.specs.Fits as moments;
ghost use Rattle.bridge_cycle.specs.Opens.{turn_opens};

use crate::cyclic_list::LONGEST_CYCLE;
use crate::timeline::Timeline;

/// End of the times, in ns, at which a search for a fit may begin. So each search ends before `END_OF_TURNS`.
pub const END_OF_SEARCHES: u64 = 9_000_000_000_000_000_000;

/// Whether a gate state opens `class`: bit c of the state opens class c. `first_fit`, `last_fit` of `bridge_bounds` and many more call it.
pub fn is_open(state: u8, class: u8) -> bool
    requires { class < 8 }
    ensures { result ≡ moments.is_open state class }
{
    (state >> class) % 2 == 1
}

/// Returns the earliest time in ns, `from` or later, at which a transmission of `occ` ns fits, because `class` stays open (IEEE
/// 802.1Q-2018, 8.6.8.4). `list_first_fit` of `bridge_bounds`, `next_fit_run` of `bridge_groups` and 3 more call it.
pub fn first_fit<L: Timeline<State = u8>>(timeline: &L, class: u8, occ: u64, from: u64) -> u64
    requires class { class < 8 }
    requires occ { occ ≤ LONGEST_CYCLE }
    requires from { from < END_OF_SEARCHES }
    requires some { (u : ℕ) × (from ≤ u) × (u ≤ from + 3 * LONGEST_CYCLE)
        × Fits (λ v. turn_opens (L.turn_at timeline.now v) class) occ u }
    ensures { IsFirstFit (λ v. turn_opens (L.turn_at timeline.now v) class) occ from result }
{
    let mut start = from;
    let mut seen = from;
    while seen < start + occ {
        let turn = timeline.turn(seen);
        if !is_open(turn.state, class) {
            start = turn.end;
        }
        seen = turn.end;
    }
    start
}
