//! Laws of delays in a queue. Each law is the contract of a function that does nothing.
ghost use Rattle.std.specs.Prelude.{◌≡◌, ◌≤◌, ◌+◌, ◌-◌, ◌*◌, ◌∷◌, ℕ, Bool, List, nat_eq, Some, true};
ghost use Rattle.std.specs.Map.{lookup};
ghost use Rattle.bridge_limits.specs.Members.{IsMember};
ghost use Rattle.bridge_frame.specs.Link.{transmission_time};
ghost use Rattle.bridge_filter.specs.declared.FilterPlan.{FilterPlan};
ghost use Rattle.bridge_gate.specs.Gates.{GateEvent, GateRules, gate_steps};
ghost use Rattle.bridge_port.specs.GateSchedule.{lists_open};
ghost use Rattle.bridge_port.specs.Schedule.{Copy, AreOffersInOrder, PortRules, Started};
ghost use Rattle.bridge_port.specs.Solo.{IsSolo};
ghost use Rattle.bridge_config.specs.declared.ports.PortPlan.{PortPlan};
ghost use Rattle.bridge_config.specs.Model.{Plan};
ghost use Rattle.bridge_config.specs.Rules.{IsPlan, find_port};
ghost use Rattle.bridge_check.specs.Acceptable.{IsAcceptable};
ghost use Rattle.bridge_check.specs.Reach.{reaches_queue};
ghost use Rattle.bridge_check.specs.Windows.{longest_frame};
ghost use Rattle.bridge_semantics.specs.Events.{Event, plan_police};
ghost use Rattle.bridge_semantics.specs.Offers.{CarriedFrame, egress_rules};
ghost use Rattle.bridge_semantics.specs.Runs.{AreFinished, IsOutcome, IsRun};
ghost use Rattle.bridge_semantics.specs.declared.outcome.Outcome.{Outcome};
ghost use Rattle.bridge_semantics.specs.declared.outcome.View.{View};
ghost use Rattle.bridge_bounds.specs.Bounds.{HaveShortFrames, FramesEnd, IsTimeAttained, IsQueueBound, IsLongestTime, IsLongestTimeFrom, IsTightBound, HasWorstCopy};
ghost use Rattle.bridge_bounds.specs.GateFrames.{AreSeldom, AreWithinLengths, HaveEtherTypes, LetsFew, offer_times, pass_times};

use std::alloc::Allocator;

/// If frames wait from a given time, their last transmission has only one end (`once`). This end is at most the longest time later
/// (`bounds`).
///
/// No longest time is less than a time that the frames need (`least`). Searches for longest times rest on it.
pub fn longest_bounds()
    ensures once { (opens : ℕ → Bool) (occ k u v w : ℕ)
        → FramesEnd opens occ k u v
        → FramesEnd opens occ k u w
        → v ≡ w }
    ensures bounds { (opens : ℕ → Bool) (occ k d u v : ℕ)
        → IsLongestTime opens occ k d
        → FramesEnd opens occ k u v
        → v ≤ u + d }
    ensures least { (opens : ℕ → Bool) (occ k d e : ℕ)
        → IsLongestTime opens occ k d
        → IsTimeAttained opens occ k e
        → e ≤ d }
{}

/// If a class is always open, `k` frames that wait leave one after another, and need exactly `k` transmission times. So the bound of an
/// open class is a number of transmission times.
pub fn one_after_another()
    ensures longest { (opens : ℕ → Bool) (occ k : ℕ) → ((u : ℕ) → opens u ≡ true)
        → IsLongestTime opens occ k (k * occ) }
    ensures attained { (opens : ℕ → Bool) (occ k : ℕ) → ((u : ℕ) → opens u ≡ true)
        → IsTimeAttained opens occ k (k * occ) }
{}

/// In a queue alone on its link, each sent copy leaves at most `occ - 1 + d` ns after the copy's offer.
///
/// Here `d` ns is a full queue's longest time; transmissions take at most `occ` ns. Delay bounds by capacity rest on it.
pub fn solo_in_time<X: Drop>()
    ensures { (r : PortRules X) (c occ d s : ℕ) (x : Copy X) (older : List (Copy X))
        → IsSolo r (x ∷ older)
        → AreOffersInOrder x.at older
        → HaveShortFrames r c occ (x ∷ older)
        → 1 ≤ occ
        → IsLongestTime (r.opens c) occ (r.room c) d
        → x.fate ≡ Started s
        → s + r.occ x.item ≤ x.at + (occ - 1) + d }
{}

/// If a queue has its link to itself, each sent copy leaves at most `occ - 1 + d` ns after the copy's offer. `lets` must be true at each
/// offer.
///
/// Here `d` ns is a full queue's longest time, from `occ` - 1 ns after a time at which `lets` is true. Transmissions take at most `occ` ns.
/// Delay bounds by capacity rest on it.
pub fn solo_from_openings<X: Drop>()
    ensures { (r : PortRules X) (lets : ℕ → Bool) (c occ d s h : ℕ) (x : Copy X) (xs : List (Copy X))
        → IsSolo r xs
        → AreOffersInOrder h xs
        → HaveShortFrames r c occ xs
        → 1 ≤ occ
        → ((y : Copy X) → IsMember y xs → lets y.at ≡ true)
        → IsLongestTimeFrom lets (r.opens c) occ (occ - 1) (r.room c) d
        → IsMember x xs
        → x.fate ≡ Started s
        → s + r.occ x.item ≤ x.at + (occ - 1) + d }
{}

/// If at most `n` sent copies are offered in any `d` ns, each leaves at most `occ - 1 + d` ns after its offer. Here `d` ns is the longest
/// time of `n` frames.
///
/// Transmissions take at most `occ` ns. Bounds by octet limits rest on it.
pub fn seldom_in_time<X: Drop>()
    ensures { (r : PortRules X) (c occ n d s : ℕ) (x : Copy X) (older : List (Copy X))
        → IsSolo r (x ∷ older)
        → AreOffersInOrder x.at older
        → HaveShortFrames r c occ (x ∷ older)
        → 1 ≤ occ
        → IsLongestTime (r.opens c) occ n d
        → AreSeldom d n (offer_times (x ∷ older))
        → x.fate ≡ Started s
        → s + r.occ x.item ≤ x.at + (occ - 1) + d }
{}

/// If a stream gate's open intervals are `w` ns apart and pass `k` frames each, at most `k` frames pass in any `w` ns. Each frame must have
/// an SDU of at least two octets.
///
/// Bounds by octet limits rest on it.
pub fn lets_seldom()
    ensures { (r : GateRules) (k w : ℕ) (es : List GateEvent)
        → LetsFew r.turn_at k w
        → HaveEtherTypes es
        → AreSeldom w k (pass_times (gate_steps r es)) }
{}

/// Let the frames of a full queue, of `occ` ns each, need `d` ns at worst. Then a burst that fills the empty queue has a copy delayed by
/// `d` ns.
///
/// So the bound `occ - 1 + d` exceeds a possible delay by at most `occ` - 1 ns.
pub fn nearly_attained<X: Drop>()
    ensures { (r : PortRules X) (c d : ℕ) (item : X)
        → r.ever c (r.occ item) ≡ true
        → 1 ≤ r.room c
        → IsTimeAttained (r.opens c) (r.occ item) (r.room c) d
        → HasWorstCopy r c (r.occ item) d }
{}

/// Each sent copy of a protected filter leaves within the longest time of a full queue (`longest`) and within the queue's bound (`bound`).
/// The recorded delay is at most the greatest bound (`delay`).
///
/// This is the theorem about delay bounds (docs/DELAYS.md).
pub fn in_time<A: Allocator + Copy>()
    ensures longest { (p : Plan A) (n m d : ℕ) (f : FilterPlan) (es : List Event) (moments : ℕ → ℕ)
        (lists : ℕ → List (Copy CarriedFrame)) (q s : ℕ) (out : PortPlan A) (x : Copy CarriedFrame)
        → IsPlan p
        → IsAcceptable p
        → IsMember (n, f) p.filters
        → f.protected ≡ true
        → f.max_sdu ≡ Some m
        → IsRun p es moments lists
        → AreFinished lists
        → find_port p.ports q ≡ Some out
        → IsMember x (lists q)
        → x.item.flow ≡ Some n
        → x.fate ≡ Started s
        → IsLongestTime (lists_open out.list x.class) (transmission_time (longest_frame m) out.speed)
        ((egress_rules out).room x.class) d
        → s + transmission_time x.item.len out.speed ≤ x.at + (transmission_time (longest_frame m) out.speed - 1) + d }
    ensures bound { (p : Plan A) (n b : ℕ) (es : List Event) (moments : ℕ → ℕ) (lists : ℕ → List (Copy CarriedFrame))
        (q s : ℕ)
        (out : PortPlan A) (x : Copy CarriedFrame)
        → IsPlan p
        → IsAcceptable p
        → IsRun p es moments lists
        → AreFinished lists
        → find_port p.ports q ≡ Some out
        → IsMember x (lists q)
        → x.item.flow ≡ Some n
        → x.fate ≡ Started s
        → IsQueueBound p n q x.class b
        → s + transmission_time x.item.len out.speed ≤ x.at + b }
    ensures delay { (p : Plan A) (n b k : ℕ) (f : FilterPlan) (es : List Event) (lists : ℕ → List (Copy CarriedFrame))
        (o : Outcome A) (v : View A)
        → IsPlan p
        → IsAcceptable p
        → IsMember (n, f) p.filters
        → f.protected ≡ true
        → IsOutcome p es lists o
        → lookup (nat_eq n) o.filters.items ≡ Some v
        → ((q c : ℕ) → reaches_queue p f q c ≡ true → (d : ℕ) × IsQueueBound p n q c d × (d ≤ b))
        → v.delay ≡ Some k
        → k ≤ b }
{}

/// If a protected filter's stream gate passes at most `k` frames per interval, each sent copy leaves within `occ - 1 + d` ns after its
/// offer.
///
/// Here `occ` ns is the longest transmission time, and `d` ns the longest time of `k` frames. Open intervals must be at least `d` ns apart.
///
/// Each frame's length must be at least its number of captured octets. Bounds by octet limits rest on it.
pub fn few_in_time<A: Allocator + Copy>()
    ensures { (p : Plan A) (n m k d : ℕ) (f : FilterPlan) (es : List Event) (moments : ℕ → ℕ)
        (lists : ℕ → List (Copy CarriedFrame)) (q s : ℕ) (out : PortPlan A) (x : Copy CarriedFrame)
        → IsPlan p
        → IsAcceptable p
        → IsMember (n, f) p.filters
        → f.protected ≡ true
        → f.max_sdu ≡ Some m
        → IsRun p es moments lists
        → AreFinished lists
        → AreWithinLengths es
        → find_port p.ports q ≡ Some out
        → IsMember x (lists q)
        → x.item.flow ≡ Some n
        → x.fate ≡ Started s
        → LetsFew ((plan_police p).gates f.gate).turn_at k d
        → IsLongestTime (lists_open out.list x.class) (transmission_time (longest_frame m) out.speed) k d
        → s + transmission_time x.item.len out.speed ≤ x.at + (transmission_time (longest_frame m) out.speed - 1) + d }
{}

/// Each sent copy of a protected filter has left within its queue's tight bound. Each frame's length must be at least its number of
/// captured octets. This is the theorem about tight bounds (docs/DELAYS.md).
pub fn in_time_by_octets<A: Allocator + Copy>()
    ensures { (p : Plan A) (n b : ℕ) (es : List Event) (moments : ℕ → ℕ) (lists : ℕ
        → List (Copy CarriedFrame)) (q s : ℕ)
        (out : PortPlan A) (x : Copy CarriedFrame)
        → IsPlan p
        → IsAcceptable p
        → IsRun p es moments lists
        → AreFinished lists
        → AreWithinLengths es
        → find_port p.ports q ≡ Some out
        → IsMember x (lists q)
        → x.item.flow ≡ Some n
        → x.fate ≡ Started s
        → IsTightBound p n q x.class b
        → s + transmission_time x.item.len out.speed ≤ x.at + b }
{}
