//! Laws of periodic traffic. Each law is the contract of a function that does nothing, and that nobody calls: proofs and reviewers use it.
ghost use Rattle.std.specs.Prelude.{◌≡◌, ◌≤◌, ◌+◌, ℕ, List, Some, nat_eq, true};
ghost use Rattle.std.specs.List.{list_all};
ghost use Rattle.std.specs.Map.{lookup};
ghost use Rattle.bridge_limits.specs.Members.{IsMember};
ghost use Rattle.bridge_cycle.specs.Fits.{IsFirstFit};
ghost use Rattle.bridge_filter.specs.declared.FilterPlan.{FilterPlan};
ghost use Rattle.bridge_port.specs.Schedule.{Copy, PortRules, Started};
ghost use Rattle.bridge_config.specs.declared.ports.PortPlan.{PortPlan};
ghost use Rattle.bridge_config.specs.Model.{Plan};
ghost use Rattle.bridge_config.specs.Rules.{IsPlan, find_port};
ghost use Rattle.bridge_check.specs.Acceptable.{IsAcceptable};
ghost use Rattle.bridge_semantics.specs.Events.{Event, own_events};
ghost use Rattle.bridge_semantics.specs.Offers.{CarriedFrame};
ghost use Rattle.bridge_semantics.specs.Runs.{AreFinished, IsOutcome, IsRun};
ghost use Rattle.bridge_semantics.specs.declared.outcome.Outcome.{Outcome};
ghost use Rattle.bridge_semantics.specs.declared.outcome.View.{View};
ghost use Rattle.bridge_bounds.specs.declared.timing.Phases.{Phases};
ghost use Rattle.bridge_bounds.specs.declared.timing.Timing.{Timing};
ghost use Rattle.bridge_bounds.specs.declared.traffic.Traffic.{Traffic};
ghost use Rattle.bridge_bounds.specs.Passing.{Passes, passes};
ghost use Rattle.bridge_bounds.specs.Timings.{IsDoneIfAlone, IsDoneInPhases, IsTiming, IsDelayInBounds};
ghost use Rattle.bridge_bounds.specs.Traffic.{IsTraffic, KeepsTraffic};

use std::alloc::Allocator;

/// If a protected filter's own frames keep a traffic, and a queue has phases, each copy's transmission in this queue ends between the
/// phases. Each sent copy has a delay between best and worst.
///
/// Other traffic doesn't matter. docs/DELAYS.md cites it.
pub fn frames_keep_periods<A: Allocator + Copy>()
    ensures phases { (p : Plan A) (n : ℕ) (f : FilterPlan) (es : List Event) (moments : ℕ → ℕ)
        (lists : ℕ → List (Copy CarriedFrame))
        (q : ℕ) (out : PortPlan A) (y : Copy CarriedFrame) (t : Traffic) (x : Timing) (done : Phases)
        → IsPlan p
        → IsAcceptable p
        → IsMember (n, f) p.filters
        → f.protected ≡ true
        → IsRun p es moments lists
        → AreFinished lists
        → find_port p.ports q ≡ Some out
        → IsMember y (lists q)
        → y.item.flow ≡ Some n
        → IsTraffic t
        → KeepsTraffic t (own_events p n f es)
        → IsTiming p n q y.class t x
        → x.phases ≡ Some done
        → IsDoneInPhases out t done y }
    ensures times { (p : Plan A) (n : ℕ) (f : FilterPlan) (es : List Event) (moments : ℕ → ℕ)
        (lists : ℕ → List (Copy CarriedFrame))
        (q start : ℕ) (out : PortPlan A) (y : Copy CarriedFrame) (t : Traffic) (x : Timing)
        → IsPlan p
        → IsAcceptable p
        → IsMember (n, f) p.filters
        → f.protected ≡ true
        → IsRun p es moments lists
        → AreFinished lists
        → find_port p.ports q ≡ Some out
        → IsMember y (lists q)
        → y.item.flow ≡ Some n
        → y.fate ≡ Started start
        → IsTraffic t
        → KeepsTraffic t (own_events p n f es)
        → IsTiming p n q y.class t x
        → IsDelayInBounds out x y start }
{}

/// Both ends of the computed phases are reached, so no narrower phases hold. Frames arrive alone at an empty queue: a shortest frame at the
/// first phase, or a longest at the last.
///
/// Each starts at its first fit. docs/DELAYS.md cites it.
pub fn phases_are_reached<X: Drop>()
    ensures { (r : PortRules X) (c at start : ℕ) (item : X)
        → r.ever c (r.occ item) ≡ true
        → 1 ≤ r.room c
        → IsFirstFit (r.opens c) (r.occ item) at start
        → IsDoneIfAlone r c item at (start + r.occ item) }
{}

/// If a protected filter's own frames keep a traffic that `passes` accepts, each frame has the verdict `Pass`. This holds for every
/// complete run of an accepted plan. docs/DELAYS.md cites it.
pub fn each_frame_passes<A: Allocator + Copy>()
    ensures { (p : Plan A) (n : ℕ) (f : FilterPlan) (es : List Event) (lists : ℕ
        → List (Copy CarriedFrame)) (o : Outcome A)
        (v : View A) (t : Traffic)
        → IsPlan p
        → IsAcceptable p
        → IsMember (n, f) p.filters
        → f.protected ≡ true
        → IsOutcome p es lists o
        → lookup (nat_eq n) o.filters.items ≡ Some v
        → IsTraffic t
        → KeepsTraffic t (own_events p n f es)
        → Passes p f t
        → list_all passes v.verdicts.items ≡ true }
{}
