//! Laws of gate control lists, and of the times at which a transmission fits. Each law is the contract of a function without a body.
ghost use Rattle.std.specs.Prelude.{◌≡◌, ℕ, Bool, true, ◌+◌, ◌*◌, ◌^◌, ◌<◌, ◌≤◌, ◌↔◌, Some};
ghost use Rattle.bridge_limits.specs.Members.{IsMember};
ghost use Rattle.bridge_cycle.specs.declared.run.Run.{Run};
ghost use Rattle.bridge_cycle.specs.declared.timeline.Turn.{Turn};
ghost use Rattle.bridge_cycle.specs.Cyclic.{Cyclic, IsLawful, turn_by_time};
ghost use Rattle.bridge_cycle.specs.ChangingList as joined;
ghost use Rattle.bridge_cycle.specs.Fitting.{fits_somewhere};
ghost use Rattle.bridge_cycle.specs.Fits.{Fits, IsPeriodic};
ghost use Rattle.bridge_cycle.specs.Opens.{turn_opens};
ghost use Rattle.bridge_cycle.specs.Runs.{Allows, FitsSoon, IsLongestRun};

use crate::cyclic_list::{LONGEST_CYCLE, MAX_ENTRIES};
use crate::fit_search::END_OF_SEARCHES;
use crate::timeline::END_OF_TURNS;

/// If open times are periodic, a transmission fits at some time exactly if it fits at a time within the first cycle.
///
/// So a search of one cycle decides whether a frame ever fits.
pub fn some_fits_is_fits()
    ensures { (opens : ℕ → Bool) (cycle occ : ℕ)
        → 0 < cycle
        → IsPeriodic opens cycle
        → (fits_somewhere opens cycle occ ≡ true) ↔ ((t : ℕ) × Fits opens occ t) }
{}

/// If open times are periodic, a transmission that fits at some time fits within a cycle of any time. So searches for fits end within a
/// cycle.
pub fn fits_near()
    ensures { (opens : ℕ → Bool) (cycle occ t from : ℕ)
        → 0 < cycle
        → IsPeriodic opens cycle
        → Fits opens occ t
        → (u : ℕ) × (from ≤ u) × (u < from + cycle) × Fits opens occ u }
{}

/// The open times of a list repeat with its cycle time. So delay bounds need to examine one cycle only.
pub fn list_repeats()
    ensures { (l : Cyclic ℕ) (class : ℕ) → IsLawful l → IsPeriodic (λ v. turn_opens (turn_by_time l v) class) l.cycle }
{}

/// The longest run of a class allows a transmission of `occ` ns exactly if the transmission fits at some time. So the longest run decides
/// whether a port drops a frame as `NeverFits`.
pub fn allowed_is_fitting()
    ensures { (opens : ℕ → Bool) (run : Run)
        → IsLongestRun opens run
        → (occ : ℕ)
        → Allows run occ ↔ ((t : ℕ) × Fits opens occ t) }
{}

/// A transmission that the longest run of a list allows fits at most 1 s after any time. So searches for fits end.
pub fn allowed_fits_soon()
    ensures { (l : Cyclic ℕ) (class : ℕ) (run : Run)
        → IsLawful l
        → IsLongestRun (λ v. turn_opens (turn_by_time l v) class) run
        → FitsSoon (λ v. turn_opens (turn_by_time l v) class) run }
{}

/// Each interval of a list has the state of one of the list's entries. So tests of a plan need to examine entries only.
pub fn state_is_of_an_entry<S: Copy>()
    ensures { (l : Cyclic S) (t : ℕ) (x : Turn S)
        → turn_by_time l t ≡ Some x
        → (e : S × ℕ) × IsMember e l.entries × (e.0 ≡ x.state) }
{}

/// With a schedule change, a class is open as in the old list before the change, and as in the new list from then on.
///
/// So each list's laws apply on its side of the change.
pub fn changing_list_opens()
    ensures before { (j : joined.Joined ℕ) (class t : ℕ)
        → t < j.at
        → turn_opens (joined.turn_by_time j t) class ≡ turn_opens (turn_by_time j.old t) class }
    ensures after { (j : joined.Joined ℕ) (class t : ℕ)
        → j.at ≤ t
        → turn_opens (joined.turn_by_time j t) class ≡ turn_opens (turn_by_time j.new t) class }
{}

/// A transmission that the longest runs of both lists allow fits at most 2 s after any time, despite the schedule change. So searches for
/// fits end at a schedule change, too.
pub fn changing_list_fits_soon()
    ensures { (j : joined.Joined ℕ) (class : ℕ) (old new : Run)
        → joined.IsLawful j
        → IsLongestRun (λ v. turn_opens (turn_by_time j.old v) class) old
        → IsLongestRun (λ v. turn_opens (turn_by_time j.new v) class) new
        → (occ from : ℕ)
        → Allows old occ
        → Allows new occ
        → (u : ℕ) × (from ≤ u) × (u ≤ from + 2 * LONGEST_CYCLE)
        × Fits (λ v. turn_opens (joined.turn_by_time j v) class) occ u }
{}

/// Gives proofs the limits of lists and of searches as numbers.
pub fn the_limits()
    ensures entries { MAX_ENTRIES ≡ 256 }
    ensures cycle { LONGEST_CYCLE ≡ 10 ^ 9 }
    ensures turns { END_OF_TURNS ≡ 91 * 10 ^ 17 }
    ensures searches { END_OF_SEARCHES ≡ 9 * 10 ^ 18 }
{}
