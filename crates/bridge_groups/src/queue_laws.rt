//! Laws of delay bounds and queue capacities for frames with an arrival curve. Each law is the contract of a function that does nothing.
ghost use Rattle.std.specs.Prelude.{◌≡◌, ◌≢◌, ◌≤◌, ◌+◌, ◌-◌, ◌*◌, ◌<◌, ◌∷◌, ℕ, Bool, true, List};
ghost use Rattle.bridge_limits.specs.Members.{IsMember};
ghost use Rattle.bridge_cycle.specs.Fits.{Fits, IsFirstFit, IsPeriodic};
ghost use Rattle.bridge_port.specs.Schedule.{AreOffersInOrder, Copy, Full, PortRules, Started};
ghost use Rattle.bridge_port.specs.Solo.{IsSolo};
ghost use Rattle.bridge_meter.specs.declared.MeterPlan.{MeterPlan};
ghost use Rattle.bridge_meter.specs.declared.Colour.TheVariants.{Green};
ghost use Rattle.bridge_meter.specs.Colours.{Arrived, MeterEvent, frame_colour, meter_history};
ghost use Rattle.bridge_meter.specs.StandsFor.{AreInOrder, newest_time};
ghost use Rattle.bridge_groups.specs.ApartParts.{AreApart, ArriveApart, HaveDelayBounds, part_copies};
ghost use Rattle.bridge_groups.specs.Hops.{HaveHopDelays, Passage, recent_arrived_octets, recent_departed_octets};
ghost use Rattle.bridge_groups.specs.IntervalWork.{AreIntervals, HasIntervalWork, IsIntervalBound};
ghost use Rattle.bridge_groups.specs.MeterAllowance.{AreConforming, AreFramesInOrder, meter_allowance, recent_passed_units};
ghost use Rattle.bridge_groups.specs.TalkerFrames.{HasFrameLimit, SentFrame, recent_sent_octets};
ghost use Rattle.bridge_groups.specs.Work.{HaveBoundedTimes, HaveSufficientCosts, HasCostCurve, HasFitsPerCycle, IsSufficientRoom, IsDelayBound, IsNthFit, IsSufficientCost, IsSpanBound, HasCountCurve, HasWorkCurve};

/// If a queue has its link to itself, each copy that starts leaves within the delay bound of the queue's work curve. docs/DELAYS.md cites
/// it.
pub fn copies_leave_in_time<X: Drop>()
    ensures { (r : PortRules X) (curve : ℕ → ℕ) (c occ least b s : ℕ) (x : Copy X) (older : List (Copy X))
        → IsSolo r (x ∷ older)
        → AreOffersInOrder x.at older
        → HaveBoundedTimes r c least occ (x ∷ older)
        → HasWorkCurve r curve (x ∷ older)
        → IsDelayBound (r.opens c) occ least curve b
        → x.fate ≡ Started s
        → s + r.occ x.item ≤ x.at + b }
{}

/// If the costs of the offers have a curve, each copy that starts leaves within this curve's delay bound. A long frame can miss fits of
/// short frames, so it costs more.
///
/// Bounds of shared queues by costs rest on it.
pub fn copies_leave_in_time_by_cost<X: Drop>()
    ensures { (r : PortRules X) (cost : X → ℕ) (curve : ℕ → ℕ) (c occ least b s : ℕ) (x : Copy X)
        (older : List (Copy X))
        → IsSolo r (x ∷ older)
        → AreOffersInOrder x.at older
        → HaveSufficientCosts r cost c least occ (x ∷ older)
        → HasCostCurve cost curve (x ∷ older)
        → IsDelayBound (r.opens c) occ least curve b
        → x.fate ≡ Started s
        → s + r.occ x.item ≤ x.at + b }
{}

/// If the offers have a work curve and a count curve, and the capacity is sufficient for both, the queue drops no copy as full.
/// docs/DELAYS.md cites it.
pub fn queue_is_never_full<X: Drop>()
    ensures { (r : PortRules X) (curve many : ℕ → ℕ) (c occ least : ℕ) (x : Copy X) (older : List (Copy X))
        → IsSolo r (x ∷ older)
        → AreOffersInOrder x.at older
        → HaveBoundedTimes r c least occ (x ∷ older)
        → HasWorkCurve r curve (x ∷ older)
        → HasCountCurve many (x ∷ older)
        → IsSufficientRoom (r.opens c) occ least curve many (r.room c)
        → x.fate ≢ Full }
{}

/// In any `w` ns a meter passes at most its burst and the octets that its rate gives. Coupling of the buckets doesn't change this. Curves
/// of meters rest on it.
pub fn meter_limits_frames()
    ensures { (p : MeterPlan) (u w : ℕ) (es : List MeterEvent)
        → AreInOrder (meter_history p es).judged
        → newest_time (meter_history p es).judged ≤ u + w
        → recent_passed_units p.drop_yellow u (meter_history p es).judged ≤ meter_allowance p w }
{}

/// If the frames conform to a burst and a rate within CBS and CIR, the newest one is green, in each mode of the meter. Delays of limited
/// talkers rest on it.
pub fn conforming_frame_is_green()
    ensures { (p : MeterPlan) (burst rate at octets : ℕ) (dei : Bool) (es : List MeterEvent)
        → burst ≤ p.cbs
        → rate ≤ p.cir
        → AreFramesInOrder (Arrived at octets dei ∷ es)
        → AreConforming burst rate (Arrived at octets dei ∷ es)
        → frame_colour p (meter_history p es) at octets dei ≡ Green }
{}

/// To prove a delay bound, few spans suffice; a span is the `w` ns from time `u`. They begin just after a run of fits (`fit`, `shut`).
/// Spans that last whole cycles more follow (`cycle`).
///
/// For each run of fits, one span gives the greatest delay (`run`). So searches for bounds need few steps.
pub fn few_spans_suffice()
    ensures fit { (opens : ℕ → Bool) (occ least : ℕ) (curve : ℕ → ℕ) (b u w : ℕ)
        → ((t : ℕ) → (v : ℕ) × IsFirstFit opens occ t v)
        → Fits opens occ u
        → IsSpanBound opens occ least curve b (u + 1) w
        → IsSpanBound opens occ least curve b u w }
    ensures shut { (opens : ℕ → Bool) (occ least : ℕ) (curve : ℕ → ℕ) (b u w : ℕ)
        → ((t : ℕ) → (v : ℕ) × IsFirstFit opens occ t v)
        → ¬ Fits opens occ u
        → IsSpanBound opens occ least curve b u w
        → IsSpanBound opens occ least curve b (u + 1) w }
    ensures cycle { (opens : ℕ → Bool) (occ least : ℕ) (curve : ℕ → ℕ) (b cycle n u w : ℕ)
        → ((t : ℕ) → (v : ℕ) × IsFirstFit opens occ t v)
        → HasFitsPerCycle opens occ cycle n
        → least ≤ curve w
        → curve (w + cycle) ≤ curve w + n
        → IsSpanBound opens occ least curve b u w
        → IsSpanBound opens occ least curve b u (w + cycle) }
    ensures run { (opens : ℕ → Bool) (occ least : ℕ) (curve : ℕ → ℕ) (b u from w n length first : ℕ)
        → ((t : ℕ) → (v : ℕ) × IsFirstFit opens occ t v)
        → IsNthFit opens occ n u first
        → ((i : ℕ) → i < length → Fits opens occ (first + i))
        → from ≤ w
        → least ≤ curve from
        → n ≤ curve from - least
        → curve w ≤ curve from + (w - from)
        → curve from ≤ curve w
        → curve w - least < n + length
        → first + (curve from - least - n) + least ≤ u + from + b
        → IsSpanBound opens occ least curve b u w }
{}

/// Spans that start in one cycle and are shorter than it prove a delay bound, if the cycle has fits for all arriving work (`bound`). All
/// cycles have equally many fits (`fits`).
///
/// So `list_delay_bound` searches one cycle only.
pub fn one_cycle_suffices()
    ensures bound { (opens : ℕ → Bool) (occ least b cycle n : ℕ) (curve : ℕ → ℕ)
        → IsPeriodic opens cycle
        → ((t : ℕ) → (v : ℕ) × IsFirstFit opens occ t v)
        → 1 ≤ cycle
        → HasFitsPerCycle opens occ cycle n
        → ((w : ℕ) → least ≤ curve w)
        → ((w : ℕ) → curve (w + cycle) ≤ curve w + n)
        → ((u w : ℕ) → u < cycle → w < cycle → IsSpanBound opens occ least curve b u w)
        → IsDelayBound opens occ least curve b }
    ensures fits { (opens : ℕ → Bool) (occ cycle n at : ℕ)
        → IsPeriodic opens cycle
        → ((t : ℕ) → (v : ℕ) × IsFirstFit opens occ t v)
        → 1 ≤ cycle
        → Fits opens occ at
        → IsNthFit opens occ n at (at + cycle)
        → HasFitsPerCycle opens occ cycle n }
{}

/// Frames that conform to a burst and a rate leave a hop with this rate. Their burst grows by the octets that the rate gives between the
/// best and the worst delay.
///
/// So the next hop's meters can be dimensioned.
pub fn next_hop_conforms()
    ensures { (best worst burst rate unit u w : ℕ) (x : Passage) (xs : List Passage)
        → HaveHopDelays best worst (x ∷ xs)
        → ((u w : ℕ) → x.arrival ≡ u + w → recent_arrived_octets u (x ∷ xs) * unit ≤ burst * unit + rate * w)
        → x.departure ≡ u + w
        → recent_departed_octets u (x ∷ xs) * unit ≤ burst * unit + rate * (w + (worst - best)) }
{}

/// A delay bound for a curve holds for each lesser curve (`lesser`). The burst is a bound if the class is always open and work arrives at
/// most at link speed (`always`).
///
/// Searches for bounds rest on it.
pub fn bounds_follow_curves()
    ensures lesser { (opens : ℕ → Bool) (occ least b : ℕ) (curve greater : ℕ → ℕ)
        → ((w : ℕ) → curve w ≤ greater w)
        → IsDelayBound opens occ least greater b
        → IsDelayBound opens occ least curve b }
    ensures always { (opens : ℕ → Bool) (occ least : ℕ) (curve : ℕ → ℕ)
        → ((u : ℕ) → opens u ≡ true)
        → ((w : ℕ) → curve w ≤ curve 0 + w)
        → least ≤ curve 0
        → IsDelayBound opens occ least curve (curve 0) }
{}

/// At most `n` frames of at most `m` octets in any period conform to a meter with burst `n * m`. The meter's rate must give this burst in a
/// period.
///
/// So talkers with a number of frames in any period fit a meter.
pub fn few_frames_conform()
    ensures { (n m period rate unit u w : ℕ) (x : SentFrame) (xs : List SentFrame)
        → 0 < period
        → HasFrameLimit n m period (x ∷ xs)
        → m * n * unit ≤ rate * period
        → x.at ≡ u + w
        → recent_sent_octets u (x ∷ xs) * unit ≤ m * n * unit + rate * w }
{}

/// In a bound that counts fits of `occ` ns, the cost `on + (on - occ)` suffices for a frame of `on` ns. Each run of fits must start with a
/// fit of `on` ns.
///
/// docs/DELAYS.md cites it.
pub fn long_frame_cost_suffices()
    ensures { (opens : ℕ → Bool) (occ least on : ℕ)
        → 1 ≤ occ
        → ((t : ℕ) → (v : ℕ) × IsFirstFit opens occ t v)
        → ((v : ℕ) → ¬ Fits opens occ v → Fits opens occ (v + 1) → Fits opens on (v + 1))
        → least ≤ on
        → occ ≤ on
        → IsSufficientCost opens occ least on (on + (on - occ)) }
{}

/// At a schedule change, the bound is `b1 + occ + b2` ns. It adds the old list's bound, a longest transmission time, and the new list's
/// bound for a shifted curve.
///
/// Bounds over a schedule change rest on it.
pub fn copies_leave_in_time_over_change<X: Drop>()
    ensures { (r : PortRules X) (curve : ℕ → ℕ) (c occ least b1 b2 at s : ℕ) (old new : ℕ → Bool) (x : Copy X)
        (older : List (Copy X))
        → ((u : ℕ) → u < at → r.opens c u ≡ old u)
        → ((u : ℕ) → at ≤ u → r.opens c u ≡ new u)
        → ((u : ℕ) → (v : ℕ) × IsFirstFit (r.opens c) occ u v)
        → IsDelayBound old occ least curve b1
        → IsDelayBound new occ least (λ w. curve (w + (b1 + occ))) b2
        → ((v w : ℕ) → v ≤ w → curve v ≤ curve w)
        → IsSolo r (x ∷ older)
        → AreOffersInOrder x.at older
        → HaveBoundedTimes r c least occ (x ∷ older)
        → HasWorkCurve r curve (x ∷ older)
        → x.fate ≡ Started s
        → s + r.occ x.item ≤ x.at + ((b1 + occ) + b2) }
{}

/// If copies are offered only while a gate is open, and each interval has limited work, each started copy leaves within the intervals'
/// delay bound. docs/DELAYS.md cites it.
pub fn interval_copies_leave_in_time<X: Drop>()
    ensures { (r : PortRules X) (lets : ℕ → Bool) (begin limit : ℕ → ℕ) (c occ least b s : ℕ) (x : Copy X)
        (older : List (Copy X))
        → AreIntervals begin
        → IsSolo r (x ∷ older)
        → AreOffersInOrder x.at older
        → HaveBoundedTimes r c least occ (x ∷ older)
        → HasIntervalWork r lets begin limit (x ∷ older)
        → IsIntervalBound (r.opens c) lets occ least begin limit b
        → x.fate ≡ Started s
        → s + r.occ x.item ≤ x.at + b }
{}

/// If two parts of a queue's copies are apart in time, each part is as if it were alone at the port. So each part has the bound of a queue
/// of its own.
pub fn parts_apart_are_alone<X: Drop>()
    ensures { (r : PortRules X) (own : X → Bool) (xs : List (Copy X))
        → IsSolo r xs
        → ((y : Copy X) → IsMember y xs → 0 < r.occ y.item)
        → AreApart r own xs
        → IsSolo r (part_copies own xs) }
{}

/// If each of two parts leaves in time by itself, and arrives only after the other part's delay bound, the parts are apart. So no copy
/// waits for a copy of the other part.
pub fn parts_arrive_apart<X: Drop>()
    ensures { (r : PortRules X) (own : X → Bool) (delay : Bool → ℕ) (xs : List (Copy X))
        → IsSolo r xs
        → ((y : Copy X) → IsMember y xs → 0 < r.occ y.item)
        → HaveDelayBounds r own delay xs
        → ArriveApart own delay xs
        → AreApart r own xs }
{}
