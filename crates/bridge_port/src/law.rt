//! Laws about the schedules of egress ports.
ghost use Rattle.std.specs.Prelude.{◌≡◌, ◌≢◌, ◌+◌, ◌*◌, ◌<◌, ◌≤◌, ◌↔◌, ◌∷◌, ℕ, List, Some, true};
ghost use Rattle.bridge_cycle.specs.Cyclic.{Cyclic};
ghost use Rattle.bridge_cycle.specs.ChangingList.{Joined};
ghost use Rattle.bridge_cycle.specs.Fits.{Fits};
ghost use Rattle.bridge_port.specs.GateSchedule.{Always, can_fit, Changing, HasLawfulLists, list_opens, One, GateSchedule, opens};
ghost use Rattle.bridge_limits.specs.Members.{IsMember};
ghost use Rattle.bridge_port.specs.Schedule.{StartsOldest, Copy, PortRules, IsAnswer, IsLawful, AreOffersInOrder, Started, queue_head, is_link_free};
ghost use Rattle.bridge_port.specs.Solo.{HasOwnWindow, IsSolo, IsFinished, HaveSameOffers, class_copies};

use crate::queues::LARGEST_ROOM;
use bridge_cycle::LONGEST_CYCLE;

/// A schedule stays lawful up to an earlier time, if this time is after the last start and not before the last offer. So laws about the
/// past follow from the present schedule.
pub fn lawful_up_to_a_lower_moment<X: Drop>()
    ensures { (r : PortRules X) (h k : ℕ) (xs : List (Copy X))
        → k ≤ h
        → AreOffersInOrder k xs
        → ((s : ℕ) (x : Copy X) → IsMember x xs → x.fate ≡ Started s → s < k)
        → IsLawful r h xs
        → IsLawful r k xs }
{}

/// If no head fits in between while the link is free, a schedule lawful up to `h` is lawful up to a later `k`.
///
/// So a port may skip times without a start.
pub fn lawful_up_to_a_later_moment<X: Drop>()
    ensures { (r : PortRules X) (h k : ℕ) (xs : List (Copy X))
        → h ≤ k
        → IsLawful r h xs
        → ((u : ℕ) → h ≤ u → u < k → is_link_free r u xs ≡ true → (c : ℕ) (p : ℕ × X) → queue_head c u xs ≡ Some p
        → ¬ Fits (r.opens c) (r.occ p.1) u)
        → IsLawful r k xs }
{}

/// An offer at time `h`, answered by the rule, keeps the schedule lawful. So a port's schedule stays lawful after each offer.
pub fn lawful_with_an_offer<X: Drop>()
    ensures { (r : PortRules X) (h : ℕ) (x : Copy X) (xs : List (Copy X))
        → x.at ≡ h
        → ((s : ℕ) → x.fate ≢ Started s)
        → IsAnswer r x xs x.fate
        → IsLawful r h xs
        → IsLawful r h (x ∷ xs) }
{}

/// A schedule that is lawful up to time `h`, with the start that strict priority demands at `h`, is lawful up to 1 ns later. So a port's
/// schedule stays lawful after each start.
pub fn lawful_with_a_start<X: Drop>()
    ensures { (r : PortRules X) (c h i : ℕ) (item : X) (xs ys : List (Copy X))
        → IsLawful r h xs
        → is_link_free r h xs ≡ true
        → StartsOldest c h i item xs ys
        → queue_head c h xs ≡ Some (i, item)
        → Fits (r.opens c) (r.occ item) h
        → ((d : ℕ) (p : ℕ × X) → queue_head d h xs ≡ Some p → Fits (r.opens d) (r.occ p.1) h → d ≤ c)
        → IsLawful r (h + 1) ys }
{}

/// A class whose window no other class shares is served as if it had the link alone. docs/ISOLATION.md cites it.
pub fn own_windows_isolate<X: Drop>()
    ensures { (r : PortRules X) (c h : ℕ) (xs : List (Copy X))
        → ((n : X) → 0 < r.occ n)
        → HasOwnWindow r c
        → IsLawful r h xs
        → IsFinished xs
        → IsSolo r (class_copies c xs) }
{}

/// `can_fit` is exact: it is true exactly if the class stays open for `n` ns at some time, under each list by itself. So a port drops as
/// `NeverFits` only frames that never fit.
pub fn can_fit_is_exact()
    ensures none { (c n : ℕ) → (can_fit Always c n ≡ true) ↔ ((t : ℕ) × Fits (opens Always c) n t) }
    ensures one { (l : Cyclic ℕ) (c n : ℕ)
        → HasLawfulLists (One l)
        → (can_fit (One l) c n ≡ true) ↔ ((t : ℕ) × Fits (opens (One l) c) n t) }
    ensures exchanged { (j : Joined ℕ) (c n : ℕ)
        → HasLawfulLists (Changing j)
        → (can_fit (Changing j) c n ≡ true)
        ↔ (((t : ℕ) × Fits (list_opens j.old c) n t) × ((t : ℕ) × Fits (list_opens j.new c) n t)) }
{}

/// If `can_fit` is true, a fit starts within 2 s of any time, despite a schedule change. So each queued frame starts.
pub fn can_fit_soon()
    ensures { (list : GateSchedule) (c n from : ℕ)
        → HasLawfulLists list
        → can_fit list c n ≡ true
        → (u : ℕ) × (from ≤ u) × (u ≤ from + 2 * LONGEST_CYCLE) × Fits (opens list c) n u }
{}

/// If a queue has the link alone, the offers to this queue determine the fate of each copy. docs/ISOLATION.md cites it.
pub fn solo_copies_follow<X: Drop>()
    ensures { (r : PortRules X) (xs ys : List (Copy X)) → HaveSameOffers xs ys → IsSolo r xs → IsSolo r ys → xs ≡ ys }
{}

/// Gives proofs the largest queue capacity, `LARGEST_ROOM`, as a number: 4,096 frames.
pub fn the_limit()
    ensures room { LARGEST_ROOM ≡ 4_096 }
{}
