//! Laws of groups of filters that share queues. Each law is the contract of a function that does nothing.
ghost use Rattle.std.specs.Prelude.{◌≡◌, ◌≢◌, ◌≤◌, ◌+◌, ◌-◌, ◌*◌, ◌<◌, ◌/◌, ◌∷◌, ◌++◌, ℕ, List, None, Some, nat_eq, true};
ghost use Rattle.bridge_limits.specs.Members.{IsMember};
ghost use Rattle.bridge_forward.specs.Ports.{has_port};
ghost use Rattle.bridge_filter.specs.declared.FilterInput.{FilterInput};
ghost use Rattle.bridge_filter.specs.declared.FilterPlan.{FilterPlan};
ghost use Rattle.bridge_filter.specs.Verdicts.{frame_filter};
ghost use Rattle.bridge_frame.specs.Link.{transmission_time};
ghost use Rattle.bridge_cycle.specs.ChangingList.{Joined};
ghost use Rattle.bridge_port.specs.GateSchedule.{Changing, gate_schedule, list_opens, lists_open};
ghost use Rattle.bridge_port.specs.Schedule.{Copy, Full, Started};
ghost use Rattle.bridge_port.specs.Solo.{IsSolo, class_copies};
ghost use Rattle.bridge_groups.specs.ApartParts.{part_copies};
ghost use Rattle.bridge_config.specs.Model.{Plan};
ghost use Rattle.bridge_config.specs.declared.ports.PortPlan.{PortPlan};
ghost use Rattle.bridge_config.specs.Rules.{IsPlan, find_port};
ghost use Rattle.bridge_check.specs.Acceptable.{HasAcceptableGroups};
ghost use Rattle.bridge_check.specs.Reach.{reaches_queue};
ghost use Rattle.bridge_check.specs.Windows.{longest_frame};
ghost use Rattle.bridge_semantics.specs.declared.destination.Destination.TheVariants.{Forwarded};
ghost use Rattle.bridge_semantics.specs.Events.{Arrival, Arrived, Event, count_filter_frames, frame_destination, metered_octets, own_events, plan_police, police_steps};
ghost use Rattle.std.specs.List.{list_all};
ghost use Rattle.std.specs.Map.{lookup};
ghost use Rattle.bridge_semantics.specs.declared.outcome.Outcome.{Outcome};
ghost use Rattle.bridge_semantics.specs.declared.outcome.View.{View};
ghost use Rattle.bridge_groups.specs.ApartMembers.{IsApartMember};
ghost use Rattle.bridge_filter.specs.Counts.{filter_verdicts};
ghost use Rattle.bridge_bounds.specs.Passing.{passes};
ghost use Rattle.bridge_semantics.specs.Offers.{CarriedFrame, egress_rules};
ghost use Rattle.bridge_semantics.specs.Groups.{IsGroupMember, IsGroupQueue};
ghost use Rattle.bridge_semantics.specs.Runs.{AreFinished, AreSameViews, IsOutcome, IsRun, IsSoloView};
ghost use Rattle.bridge_bounds.specs.Bounds.{IsLongestTime};
ghost use Rattle.bridge_bounds.specs.GateFrames.{AreWithinLengths};
ghost use Rattle.bridge_groups.specs.Work.{IsDelayBound, HasCountCurve, HasWorkCurve};
ghost use Rattle.bridge_cycle.specs.Fits.{Fits, IsFirstFit};
ghost use Rattle.bridge_meter.specs.Colours.{octet_units};
ghost use Rattle.bridge_groups.specs.MeterAllowance.{meter_allowance};
ghost use Rattle.bridge_groups.specs.QueueBounds.{HasCurveRoom, IsCurveBound};
ghost use Rattle.bridge_groups.specs.Costs.{HasFilterCostCurve, frame_cost};
ghost use Rattle.bridge_capture.specs.Grammar.{CapturedFrame};
ghost use Rattle.bridge_config.specs.declared.command.Command.{Command};
ghost use Rattle.bridge_semantics.specs.Merge.{Input, IsMerged, commands_of, input_events, input_streams};
ghost use Rattle.bridge_groups.specs.Departures.{HaveConformingDepartures, filter_passages};
ghost use Rattle.bridge_groups.specs.Curves.{AreArrivalsInOrder, HaveMeters, HasNoRunts, has_filter_number, AreSharers, HasFilterCurve, curve_sum, optional_burst, sharers_curve, gate_curve, sharers_frame_limit, meter_curve, optional_rate};
ghost use Rattle.bridge_gate.specs.Gates.{GateEvent, GateRules, gate_steps, last_frame_time};
ghost use Rattle.bridge_groups.specs.GateLimits.{AreGateFramesInOrder, HasOctetLimits, octet_budget, recent_passed_octets};
ghost use Rattle.bridge_check.specs.Acceptable.{IsAcceptable};
ghost use Rattle.bridge_groups.specs.GateBounds.{HaveSdus, IsGateWorkBound};
ghost use Rattle.bridge_groups.specs.SharedQueues.{IsSharedQueue, least_shared_bound, padded_shared_bound};
ghost use Rattle.bridge_groups.specs.declared.shared_queues.SharedQueue.{SharedQueue};
ghost use Rattle.bridge_groups.specs.Admission.{HasSufficientQueue, admits_talker};
ghost use Rattle.bridge_groups.specs.Talkers.{IsDelivered, AdmitsTalker, IsConformingTalker};

use std::alloc::Allocator;

/// If frames arrive in order, a shared queue has the work curve and the count curve of its sharers' meters. Bounds of shared queues by
/// meters rest on it.
pub fn queue_has_meter_curves<A: Allocator + Copy>()
    ensures { (p : Plan A) (group : ℕ) (sharers : List (ℕ × FilterPlan)) (q c sdu : ℕ) (out : PortPlan A)
        (es : List Event) (moments : ℕ → ℕ) (lists : ℕ → List (Copy CarriedFrame))
        → IsPlan p
        → HasAcceptableGroups p
        → find_port p.ports q ≡ Some out
        → IsGroupQueue p group q c
        → AreSharers p group q c sdu sharers
        → HaveMeters sharers
        → IsRun p es moments lists
        → AreFinished lists
        → AreArrivalsInOrder es
        → HasWorkCurve (egress_rules out) (sharers_curve p sharers out.speed) (class_copies c (lists q))
        × HasCountCurve (sharers_frame_limit p sharers) (class_copies c (lists q)) }
{}

/// Each copy that starts leaves a queue of the group at most `b` ns after its arrival, whatever any talker sends. Here `b` is a delay bound
/// for the curve of the sharers' meters.
///
/// Bounds of shared queues by meters rest on it.
pub fn group_leaves_in_time<A: Allocator + Copy>()
    ensures { (p : Plan A) (group : ℕ) (sharers : List (ℕ × FilterPlan)) (q c sdu b s : ℕ) (out : PortPlan A)
        (es : List Event) (moments : ℕ → ℕ) (lists : ℕ → List (Copy CarriedFrame)) (x : Copy CarriedFrame)
        → IsPlan p
        → HasAcceptableGroups p
        → find_port p.ports q ≡ Some out
        → IsGroupQueue p group q c
        → AreSharers p group q c sdu sharers
        → HaveMeters sharers
        → IsRun p es moments lists
        → AreFinished lists
        → AreArrivalsInOrder es
        → IsCurveBound out c sdu (sharers_curve p sharers out.speed) b
        → IsMember x (lists q)
        → x.class ≡ c
        → x.fate ≡ Started s
        → s + transmission_time x.item.len out.speed ≤ x.at + b }
{}

/// If the capacity suffices for the meters' curves, the queue drops no copy of the group as full, whatever any talker sends. The capacities
/// of `shared_queue` rest on it.
pub fn group_queue_is_never_full<A: Allocator + Copy>()
    ensures { (p : Plan A) (group : ℕ) (sharers : List (ℕ × FilterPlan)) (q c sdu : ℕ) (out : PortPlan A)
        (es : List Event) (moments : ℕ → ℕ) (lists : ℕ → List (Copy CarriedFrame)) (x : Copy CarriedFrame)
        → IsPlan p
        → HasAcceptableGroups p
        → find_port p.ports q ≡ Some out
        → IsGroupQueue p group q c
        → AreSharers p group q c sdu sharers
        → HaveMeters sharers
        → IsRun p es moments lists
        → AreFinished lists
        → AreArrivalsInOrder es
        → HasCurveRoom out c sdu (sharers_curve p sharers out.speed) (sharers_frame_limit p sharers)
        → IsMember x (lists q)
        → x.class ≡ c
        → x.fate ≢ Full }
{}

/// If a filter admits a conforming talker, each frame of the talker leaves each of its egress ports within `b` ns. Other talkers may send
/// anything.
///
/// Each queue that the filter can reach must have the delay bound `b` and enough capacity. docs/DELAYS.md cites it.
pub fn conforming_frame_is_delivered<A: Allocator + Copy>()
    ensures { (p : Plan A) (group : ℕ) (n m most burst rate q set sdu b : ℕ) (f : FilterPlan)
        (sharers : ℕ → List (ℕ × FilterPlan)) (out : PortPlan A) (a : Arrival)
        (newer older : List Event) (c : FilterInput)
        (moments : ℕ → ℕ) (lists : ℕ → List (Copy CarriedFrame))
        → IsPlan p
        → HasAcceptableGroups p
        → IsGroupMember p group n f
        → AdmitsTalker p f m most burst rate
        → IsRun p (newer ++ Arrived a ∷ older) moments lists
        → AreFinished lists
        → AreArrivalsInOrder (newer ++ Arrived a ∷ older)
        → IsConformingTalker p n most burst rate (newer ++ Arrived a ∷ older)
        → frame_destination p a ≡ Forwarded set c
        → frame_filter p.filters c ≡ Some (n, f)
        → has_port set q ≡ true
        → find_port p.ports q ≡ Some out
        → ((k : ℕ) → reaches_queue p f q k ≡ true → AreSharers p group q k sdu (sharers k))
        → ((k : ℕ) → reaches_queue p f q k ≡ true → HaveMeters (sharers k))
        → ((k : ℕ) → reaches_queue p f q k ≡ true
        → IsCurveBound out k sdu (sharers_curve p (sharers k) out.speed) b)
        → ((k : ℕ) → reaches_queue p f q k ≡ true
        → HasCurveRoom out k sdu (sharers_curve p (sharers k) out.speed) (sharers_frame_limit p (sharers k)))
        → IsDelivered out (lists q) a n (count_filter_frames p n older + 1) b }
{}

/// If the settings of a filter pass the test `admits_talker`, the filter admits each conforming talker with this burst and rate. Delays of
/// limited talkers rest on it.
pub fn tested_filter_admits_talker<A: Allocator + Copy>()
    ensures { (p : Plan A) (f : FilterPlan) (most burst rate : ℕ)
        → IsPlan p
        → admits_talker p f most burst rate ≡ true
        → (m : ℕ) × AdmitsTalker p f m most burst rate }
{}

/// If a filter admits a conforming talker, each frame of the talker leaves each of its egress ports within the bound of a shared queue.
/// Other talkers may send anything.
///
/// Each shared queue that the filter can reach must have enough capacity. Delays of limited talkers rest on it.
pub fn conforming_frame_leaves_shared_queue<A: Allocator + Copy>()
    ensures { (p : Plan A) (group n m most burst rate q set : ℕ) (f : FilterPlan)
        (out : PortPlan A) (a : Arrival) (newer older : List Event) (c : FilterInput)
        (moments : ℕ → ℕ) (lists : ℕ → List (Copy CarriedFrame))
        (enough : (k : ℕ) → reaches_queue p f q k ≡ true → HasSufficientQueue p group q k)
        → IsPlan p
        → HasAcceptableGroups p
        → IsGroupMember p group n f
        → AdmitsTalker p f m most burst rate
        → IsRun p (newer ++ Arrived a ∷ older) moments lists
        → AreFinished lists
        → AreArrivalsInOrder (newer ++ Arrived a ∷ older)
        → IsConformingTalker p n most burst rate (newer ++ Arrived a ∷ older)
        → frame_destination p a ≡ Forwarded set c
        → frame_filter p.filters c ≡ Some (n, f)
        → has_port set q ≡ true
        → find_port p.ports q ≡ Some out
        → (k : ℕ) × (reach : reaches_queue p f q k ≡ true) × (d : IsDelivered out (lists q) a n
        (count_filter_frames p n older + 1) (enough k reach).row.bound) × (d.copy.class ≡ k) × (a.at ≤ d.start) }
{}

/// If a filter admits a conforming talker, each frame of the talker has the verdict `Pass`. Delays of limited talkers rest on it.
pub fn conforming_frames_pass<A: Allocator + Copy>()
    ensures { (p : Plan A) (group n m most burst rate : ℕ) (f : FilterPlan) (es : List Event)
        → IsPlan p
        → HasAcceptableGroups p
        → IsGroupMember p group n f
        → AdmitsTalker p f m most burst rate
        → AreArrivalsInOrder es
        → IsConformingTalker p n most burst rate es
        → list_all passes (filter_verdicts n (police_steps p es)) ≡ true }
{}

/// In any `w` ns, a stream gate with octet limits passes at most the sum of the limits of the intervals that overlap this time. Curves of
/// stream gates rest on it.
pub fn gate_limits_octets()
    ensures { (r : GateRules) (u w : ℕ) (es : List GateEvent)
        → HasOctetLimits r.turn_at
        → AreGateFramesInOrder es
        → last_frame_time es ≤ u + w
        → recent_passed_octets u (gate_steps r es) ≤ octet_budget r.turn_at u w }
{}

/// A filter's offers to a class have the arrival curve of its meter (`meter`). They have the curve of its stream gate if the gate has octet
/// limits (`gate`).
///
/// Bounds of shared queues add these curves.
pub fn filter_has_curve<A: Allocator + Copy>()
    ensures meter { (p : Plan A) (out : PortPlan A) (c n m : ℕ) (f : FilterPlan)
        → IsPlan p
        → IsMember (n, f) p.filters
        → f.meter ≡ Some m
        → HasFilterCurve p out c n (meter_curve ((plan_police p).meters m) out.speed) }
    ensures gate { (p : Plan A) (out : PortPlan A) (c n : ℕ) (f : FilterPlan) (octets : ℕ → ℕ)
        → IsPlan p
        → IsMember (n, f) p.filters
        → HasOctetLimits ((plan_police p).gates f.gate).turn_at
        → ((u w : ℕ) → octet_budget ((plan_police p).gates f.gate).turn_at u w ≤ octets w)
        → HasFilterCurve p out c n (gate_curve octets out.speed) }
{}

/// If each sharer has an arrival curve, each copy that starts leaves within the bound `b` of their sum (`done`). If the capacity suffices
/// for this sum, no copy is dropped as full (`room`).
///
/// All frames must have at least 60 octets. Bounds of shared queues rest on it.
pub fn group_leaves_in_time_by_curves<A: Allocator + Copy>()
    ensures done { (p : Plan A) (group : ℕ) (sharers : List (ℕ × FilterPlan)) (curves : ℕ → ℕ → ℕ) (q c sdu b s : ℕ)
        (out : PortPlan A) (es : List Event) (moments : ℕ → ℕ) (lists : ℕ → List (Copy CarriedFrame))
        (x : Copy CarriedFrame)
        → IsPlan p
        → HasAcceptableGroups p
        → find_port p.ports q ≡ Some out
        → IsGroupQueue p group q c
        → AreSharers p group q c sdu sharers
        → ((n : ℕ) (f : FilterPlan) → IsMember (n, f) sharers → HasFilterCurve p out c n (curves n))
        → IsRun p es moments lists
        → AreFinished lists
        → AreArrivalsInOrder es
        → HasNoRunts es
        → IsCurveBound out c sdu (curve_sum curves sharers) b
        → IsMember x (lists q)
        → x.class ≡ c
        → x.fate ≡ Started s
        → s + transmission_time x.item.len out.speed ≤ x.at + b }
    ensures room { (p : Plan A) (group : ℕ) (sharers : List (ℕ × FilterPlan)) (curves : ℕ → ℕ → ℕ) (q c sdu : ℕ)
        (out : PortPlan A) (es : List Event) (moments : ℕ → ℕ) (lists : ℕ → List (Copy CarriedFrame))
        (x : Copy CarriedFrame)
        → IsPlan p
        → HasAcceptableGroups p
        → find_port p.ports q ≡ Some out
        → IsGroupQueue p group q c
        → AreSharers p group q c sdu sharers
        → ((n : ℕ) (f : FilterPlan) → IsMember (n, f) sharers → HasFilterCurve p out c n (curves n))
        → IsRun p es moments lists
        → AreFinished lists
        → AreArrivalsInOrder es
        → HasNoRunts es
        → HasCurveRoom out c sdu (curve_sum curves sharers)
        (λ w. curve_sum curves sharers w / transmission_time 60 out.speed)
        → IsMember x (lists q)
        → x.class ≡ c
        → x.fate ≢ Full }
{}

/// Each copy that starts leaves a queue of the group within the bound by capacity, also without meters. So the lesser of this bound and the
/// bound by curves holds.
///
/// Bounds of shared queues rest on it.
pub fn group_leaves_in_time_by_room<A: Allocator + Copy>()
    ensures { (p : Plan A) (group : ℕ) (sharers : List (ℕ × FilterPlan)) (q c sdu d s : ℕ) (out : PortPlan A)
        (es : List Event) (moments : ℕ → ℕ) (lists : ℕ → List (Copy CarriedFrame)) (x : Copy CarriedFrame)
        → IsPlan p
        → HasAcceptableGroups p
        → find_port p.ports q ≡ Some out
        → IsGroupQueue p group q c
        → AreSharers p group q c sdu sharers
        → IsRun p es moments lists
        → AreFinished lists
        → IsLongestTime (lists_open out.list c) (transmission_time (longest_frame sdu) out.speed)
        ((egress_rules out).room c) d
        → IsMember x (lists q)
        → x.class ≡ c
        → x.fate ≡ Started s
        → s + transmission_time x.item.len out.speed
        ≤ x.at + (transmission_time (longest_frame sdu) out.speed - 1) + d }
{}

/// A filter with a meter has a cost curve by the greatest cost of an octet (`meter`). If each sharer has a cost curve, each copy that
/// starts leaves within `b` ns (`done`).
///
/// For `done`, the longest frame must fit at the start of each run of fits of `fit` ns. Bounds of shared queues rest on it.
pub fn group_leaves_in_time_by_cost<A: Allocator + Copy>()
    ensures meter { (p : Plan A) (out : PortPlan A) (c n m sdu num den : ℕ) (f : FilterPlan) (cost : ℕ → ℕ)
        → IsPlan p
        → IsMember (n, f) p.filters
        → f.meter ≡ Some m
        → f.max_sdu ≡ Some sdu
        → 0 < den
        → ((len : ℕ) → len ≤ longest_frame sdu → den * cost len ≤ num * metered_octets len)
        → HasFilterCostCurve p out c n cost
        (λ w. num * meter_allowance ((plan_police p).meters m) w / (den * octet_units)) }
    ensures done { (p : Plan A) (group : ℕ) (sharers : List (ℕ × FilterPlan)) (q c sdu fit b s : ℕ) (out : PortPlan A)
        (curves : ℕ → ℕ → ℕ) (es : List Event) (moments : ℕ → ℕ) (lists : ℕ → List (Copy CarriedFrame))
        (x : Copy CarriedFrame)
        → IsPlan p
        → HasAcceptableGroups p
        → find_port p.ports q ≡ Some out
        → IsGroupQueue p group q c
        → AreSharers p group q c sdu sharers
        → ((n : ℕ) (f : FilterPlan) → IsMember (n, f) sharers
        → HasFilterCostCurve p out c n (frame_cost fit out.speed) (curves n))
        → IsRun p es moments lists
        → AreFinished lists
        → AreArrivalsInOrder es
        → 1 ≤ fit
        → ((v : ℕ) → ¬ Fits (lists_open out.list c) fit v
        → Fits (lists_open out.list c) fit (v + 1)
        → Fits (lists_open out.list c) (transmission_time (longest_frame sdu) out.speed) (v + 1))
        → IsDelayBound (lists_open out.list c) fit (transmission_time 60 out.speed) (curve_sum curves sharers) b
        → IsMember x (lists q)
        → x.class ≡ c
        → x.fate ≡ Started s
        → s + transmission_time x.item.len out.speed ≤ x.at + b }
{}

/// If a port's lists change, each copy that starts leaves a shared queue within `b1`, a longest transmission time, and `b2` together. `b1`
/// is the old list's bound, `b2` the new list's bound.
///
/// `b2` allows for all work of the first two times arriving at once. Bounds of shared queues rest on it.
pub fn group_leaves_in_time_over_change<A: Allocator + Copy>()
    ensures { (p : Plan A) (group : ℕ) (sharers : List (ℕ × FilterPlan)) (q c sdu b1 b2 s : ℕ) (out : PortPlan A)
        (j : Joined ℕ) (es : List Event) (moments : ℕ → ℕ) (lists : ℕ → List (Copy CarriedFrame))
        (x : Copy CarriedFrame)
        → IsPlan p
        → HasAcceptableGroups p
        → find_port p.ports q ≡ Some out
        → IsGroupQueue p group q c
        → AreSharers p group q c sdu sharers
        → HaveMeters sharers
        → IsRun p es moments lists
        → AreFinished lists
        → AreArrivalsInOrder es
        → gate_schedule out.list ≡ Changing j
        → ((u : ℕ) → (v : ℕ) × IsFirstFit (lists_open out.list c) (transmission_time (longest_frame sdu) out.speed) u v)
        → IsDelayBound (list_opens j.old c) (transmission_time (longest_frame sdu) out.speed)
        (transmission_time 60 out.speed) (sharers_curve p sharers out.speed) b1
        → IsDelayBound (list_opens j.new c) (transmission_time (longest_frame sdu) out.speed)
        (transmission_time 60 out.speed)
        (λ w. sharers_curve p sharers out.speed (w + (b1 + transmission_time (longest_frame sdu) out.speed))) b2
        → IsMember x (lists q)
        → x.class ≡ c
        → x.fate ≡ Started s
        → s + transmission_time x.item.len out.speed
        ≤ x.at + ((b1 + transmission_time (longest_frame sdu) out.speed) + b2) }
{}

/// Departures of a filter from a shared queue keep the rate of its meter. The burst grows by the octets that the rate gives in the queue's
/// greatest difference of delays.
///
/// So a planner can dimension the meters of the next hop.
pub fn departures_conform<A: Allocator + Copy>()
    ensures { (p : Plan A) (group : ℕ) (sharers : List (ℕ × FilterPlan)) (q c sdu n m b : ℕ) (f : FilterPlan)
        (out : PortPlan A) (es : List Event) (moments : ℕ → ℕ) (lists : ℕ → List (Copy CarriedFrame))
        → IsPlan p
        → HasAcceptableGroups p
        → find_port p.ports q ≡ Some out
        → IsGroupQueue p group q c
        → AreSharers p group q c sdu sharers
        → HaveMeters sharers
        → IsMember (n, f) sharers
        → f.meter ≡ Some m
        → IsRun p es moments lists
        → AreFinished lists
        → AreArrivalsInOrder es
        → IsCurveBound out c sdu (sharers_curve p sharers out.speed) b
        → HaveConformingDepartures (optional_burst (plan_police p).meters f.meter)
        (optional_rate (plan_police p).meters f.meter)
        (b - transmission_time 60 out.speed) (filter_passages n out.speed (class_copies c (lists q))) }
{}

/// Merged captures and commands arrive in order, as the laws of bounds demand.
pub fn merged_arrivals_are_in_order()
    ensures { (cs : List Command) (frames : ℕ → List CapturedFrame) (xs : List Input)
        → IsMerged (input_streams (commands_of cs) frames) xs
        → AreArrivalsInOrder (input_events xs) }
{}

/// Each copy that starts leaves a shared queue within the bound that `shared_queue` returns, in every run, whatever any talker sends.
/// docs/DELAYS.md cites it.
pub fn shared_queue_leaves_in_time<A: Allocator + Copy>()
    ensures { (p : Plan A) (s : SharedQueue) (is : IsSharedQueue p s) (start : ℕ) (es : List Event) (moments : ℕ → ℕ)
        (lists : ℕ → List (Copy CarriedFrame)) (x : Copy CarriedFrame)
        → IsPlan p
        → HasAcceptableGroups p
        → IsRun p es moments lists
        → AreFinished lists
        → AreArrivalsInOrder es
        → IsMember x (lists s.port)
        → x.class ≡ s.class
        → x.fate ≡ Started start
        → start + transmission_time x.item.len is.out.speed ≤ x.at + s.bound }
{}

/// If the capacity of a shared queue is at least the one that `shared_queue` finds, the queue drops no copy as full in any run.
/// docs/DELAYS.md cites it.
pub fn shared_queue_is_never_full<A: Allocator + Copy>()
    ensures { (p : Plan A) (s : SharedQueue) (room : ℕ) (es : List Event) (moments : ℕ → ℕ)
        (lists : ℕ → List (Copy CarriedFrame)) (x : Copy CarriedFrame)
        → IsPlan p
        → HasAcceptableGroups p
        → IsSharedQueue p s
        → s.room ≡ Some room
        → room ≤ s.capacity
        → IsRun p es moments lists
        → AreFinished lists
        → AreArrivalsInOrder es
        → IsMember x (lists s.port)
        → x.class ≡ s.class
        → x.fate ≢ Full }
{}

/// Each copy that a protected filter's queue sent has left within the bound that `gate_work_bound` returns. The frames of the run must have
/// SDUs of at least `fewest` octets.
///
/// Bounds by the stream gate rest on it.
pub fn frames_leave_in_time_by_gate<A: Allocator + Copy>()
    ensures { (p : Plan A) (n q c fewest b start : ℕ) (is : IsGateWorkBound p n q c fewest b) (es : List Event)
        (moments : ℕ → ℕ) (lists : ℕ → List (Copy CarriedFrame)) (x : Copy CarriedFrame)
        → IsPlan p
        → IsAcceptable p
        → IsRun p es moments lists
        → AreFinished lists
        → AreArrivalsInOrder es
        → HaveSdus fewest es
        → IsMember x (lists q)
        → x.class ≡ c
        → x.fate ≡ Started start
        → start + transmission_time x.item.len is.out.speed ≤ x.at + b }
{}

/// SDUs have at least two octets if no frame has more captured octets than its length (`captured`). They have at least 44 octets if each
/// frame has at least 60 octets (`padded`).
///
/// Bounds by octet limits rest on it.
pub fn frames_have_sdus()
    ensures captured { (es : List Event) → AreWithinLengths es → HaveSdus 2 es }
    ensures padded { (es : List Event) → HasNoRunts es → HaveSdus 44 es }
{}

/// Each copy that starts leaves a shared queue within the bounds that `bounds` prints, which include the bounds by stream gates.
///
/// Clauses: SDUs of at least two octets (`captured`), frames of at least 60 octets (`padded`).
pub fn shared_queue_leaves_in_time_by_gates<A: Allocator + Copy>()
    ensures captured { (p : Plan A) (s : SharedQueue) (is : IsSharedQueue p s) (start : ℕ) (es : List Event)
        (moments : ℕ → ℕ) (lists : ℕ → List (Copy CarriedFrame)) (x : Copy CarriedFrame)
        → IsPlan p
        → HasAcceptableGroups p
        → IsRun p es moments lists
        → AreFinished lists
        → AreArrivalsInOrder es
        → HaveSdus 2 es
        → IsMember x (lists s.port)
        → x.class ≡ s.class
        → x.fate ≡ Started start
        → start + transmission_time x.item.len is.out.speed ≤ x.at + least_shared_bound s }
    ensures padded { (p : Plan A) (s : SharedQueue) (is : IsSharedQueue p s) (b start : ℕ) (es : List Event)
        (moments : ℕ → ℕ) (lists : ℕ → List (Copy CarriedFrame)) (x : Copy CarriedFrame)
        → padded_shared_bound s ≡ Some b
        → IsPlan p
        → HasAcceptableGroups p
        → IsRun p es moments lists
        → AreFinished lists
        → AreArrivalsInOrder es
        → HasNoRunts es
        → IsMember x (lists s.port)
        → x.class ≡ s.class
        → x.fate ≡ Started start
        → start + transmission_time x.item.len is.out.speed ≤ x.at + b }
{}

/// If the stream gates of a shared queue are apart in time, the copies of each filter fare as if the queue had only them. They are dropped,
/// start and leave at the same times. docs/ISOLATION.md cites it.
pub fn apart_queue_serves_alone<A: Allocator + Copy>()
    ensures { (p : Plan A) (s : SharedQueue) (is : IsSharedQueue p s) (n : ℕ) (es : List Event) (moments : ℕ → ℕ)
        (lists : ℕ → List (Copy CarriedFrame))
        → IsPlan p
        → HasAcceptableGroups p
        → s.is_apart ≡ true
        → IsRun p es moments lists
        → AreFinished lists
        → AreArrivalsInOrder es
        → HaveSdus 2 es
        → IsSolo (egress_rules is.out)
        (part_copies (λ x. has_filter_number x.flow n) (class_copies s.class (lists s.port))) }
{}

/// If the stream gates at all reachable queues of a filter are apart in time, only the filter's own events determine its record. The record
/// is that of an idle bridge whose queues have their ports to themselves.
///
/// Neither outsiders nor other members of its group change this record. This is the isolation theorem for scheduled streams of one class
/// (docs/ISOLATION.md).
pub fn apart_member_is_isolated<A: Allocator + Copy>()
    ensures { (p : Plan A) (group n : ℕ) (f : FilterPlan) (es : List Event) (lists : ℕ → List (Copy CarriedFrame))
        (o : Outcome A) (v : View A)
        → IsPlan p
        → HasAcceptableGroups p
        → IsApartMember p group n f
        → AreArrivalsInOrder es
        → HaveSdus 2 es
        → IsOutcome p es lists o
        → lookup (nat_eq n) o.filters.items ≡ Some v
        → IsSoloView p n f (own_events p n f es) v }
{}

/// If two runs have equal own events of such a filter (`IsApartMember`), the filter's two records are equal, whatever else arrives.
/// docs/ISOLATION.md cites it.
pub fn members_change_nothing<A: Allocator + Copy>()
    ensures { (p : Plan A) (group n : ℕ) (f : FilterPlan) (es others : List Event)
        (lists more : ℕ → List (Copy CarriedFrame)) (o q : Outcome A) (u v : View A)
        → IsPlan p
        → HasAcceptableGroups p
        → IsApartMember p group n f
        → own_events p n f es ≡ own_events p n f others
        → AreArrivalsInOrder es
        → AreArrivalsInOrder others
        → HaveSdus 2 es
        → HaveSdus 2 others
        → IsOutcome p es lists o
        → IsOutcome p others more q
        → lookup (nat_eq n) o.filters.items ≡ Some u
        → lookup (nat_eq n) q.filters.items ≡ Some v
        → AreSameViews u v }
{}
