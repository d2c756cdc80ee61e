//! Laws of a frame's route through a network: the promises that reviewers read. Each law is the contract of an empty function that no code
//! calls.
ghost use Rattle.std.specs.Prelude.{◌≡◌, ◌<◌, ◌≤◌, ◌+◌, ◌++◌, ◌∷◌, ℕ, List, Option, Some, nat_eq, slice_get, true};
ghost use Rattle.std.specs.List.{list_all};
ghost use Rattle.std.specs.Map.{lookup};
ghost use Rattle.bridge_limits.specs.Members.{IsMember};
ghost use Rattle.bridge_filter.specs.declared.FilterPlan.{FilterPlan};
ghost use Rattle.bridge_port.specs.Schedule.{Copy};
ghost use Rattle.bridge_config.specs.declared.ports.PortPlan.{PortPlan};
ghost use Rattle.bridge_config.specs.Model.{Plan};
ghost use Rattle.bridge_config.specs.Rules.{IsPlan, find_port};
ghost use Rattle.bridge_check.specs.Acceptable.{HasAcceptableGroups, IsAcceptable};
ghost use Rattle.bridge_filter.specs.declared.FilterInput.{FilterInput};
ghost use Rattle.bridge_filter.specs.Verdicts.{frame_filter};
ghost use Rattle.bridge_forward.specs.Ports.{has_port};
ghost use Rattle.bridge_semantics.specs.declared.destination.Destination.TheVariants.{Forwarded};
ghost use Rattle.bridge_semantics.specs.Events.{Arrival, Arrived, Event, count_filter_frames, frame_destination, own_events};
ghost use Rattle.bridge_semantics.specs.Groups.{IsGroupMember};
ghost use Rattle.bridge_groups.specs.Curves.{AreArrivalsInOrder};
ghost use Rattle.bridge_groups.specs.GroupRows.{AreSharedQueues};
ghost use Rattle.bridge_groups.specs.declared.shared_queues.SharedQueue.{SharedQueue};
ghost use Rattle.net_file.specs.declared.limited_row.LimitedRow.{LimitedRow};
ghost use Rattle.net_file.specs.LimitedRows.{IsLimitedRow};
ghost use Rattle.net_latency.specs.declared.timings.QueueTiming.{QueueTiming};
ghost use Rattle.net_latency.specs.LimitedTraffic.{AreLimitedTimings, IsLimitedTiming, IsSentFrame, KeepsRow, are_passing};
ghost use Rattle.bridge_semantics.specs.Offers.{CarriedFrame};
ghost use Rattle.bridge_port.specs.GateSchedule.{lists_open};
ghost use Rattle.bridge_semantics.specs.Runs.{AreFinished, IsOutcome, IsRun};
ghost use Rattle.bridge_semantics.specs.declared.outcome.View.{View};
ghost use Rattle.bridge_bounds.specs.declared.timing.Timing.{Timing};
ghost use Rattle.bridge_bounds.specs.Passing.{passes};
ghost use Rattle.bridge_bounds.specs.Timings.{IsTiming};
ghost use Rattle.net_file.specs.declared.traffic_row.TrafficRow.{TrafficRow};
ghost use Rattle.net_latency.specs.Traffic.{IsSentInTime, PassesAt};
ghost use Rattle.bridge_capture.specs.Grammar.{CapturedFrame};
ghost use Rattle.bridge_semantics.specs.Merge.{Input, inputs_by_rank};
ghost use Rattle.bridge_semantics.specs.declared.outcome.Outcome.{Outcome};
ghost use Rattle.net_model.specs.declared.links.Link.{Link};
ghost use Rattle.net_model.specs.declared.links.StreamHop.{StreamHop};
ghost use Rattle.net_model.specs.Alone.{ArrivesOverLink, IsAlone};
ghost use Rattle.net_model.specs.Networks.{Hop, IsHop, IsNetwork, IsNetworkRun, Network, Sender, sender};
ghost use Rattle.bridge_bounds.specs.Latency.{InputsInPeriods, IsDelayedCopy, StartInPeriods, link_time};
ghost use Rattle.bridge_bounds.specs.declared.timing.Phases.{Phases};
ghost use Rattle.bridge_bounds.specs.declared.traffic.Traffic.{Traffic};
ghost use Rattle.bridge_bounds.specs.Traffic.{IsTraffic, KeepsTraffic};
ghost use Rattle.net_latency.specs.declared.latency.StreamLatency.{StreamLatency};
ghost use Rattle.net_latency.specs.declared.tree.HopQueue.{HopQueue};
ghost use Rattle.net_latency.specs.StreamLatency.{IsStreamLatency, first_hop_arrival};
ghost use Rattle.net_latency.specs.Phased.{AreFedInTurn, IsRouteLatency, IsWithinRouteLatency, IsRouteOfStream, KeepsTrafficAtHop, KeepsStreamLatency, stream_hop};
ghost use Rattle.net_latency.specs.Ways.{IsRoute, RouteHop, route_bound, hop_end, last_hop};

use std::alloc::Allocator;

/// A frame's delay over its route is at most the sum of the bounds of its queues and the delays of its links. Talkers may send anything.
///
/// This is the theorem about delays over networks (docs/DELAYS.md).
pub fn route_in_time<A: Allocator + Copy>()
    ensures { (n : Network A) (commands : ℕ → List Input) (captures : ℕ → ℕ → List CapturedFrame) (o : ℕ → Outcome A)
        (run : IsNetworkRun n commands captures o) (leg : RouteHop A) (more : List (ℕ × RouteHop A))
        → IsNetwork n
        → IsRoute n run.lists leg more
        → hop_end (last_hop leg more) ≤ leg.copy.at + route_bound leg more }
{}

/// A frame of a periodic talker keeps the delays and phases of its route (`phases`) and of its stream (`course`). Each later hop must
/// receive only copies from the hop before it (`AreFedInTurn`).
///
/// Delays of periodic talkers over networks rest on it.
pub fn route_in_phases<A: Allocator + Copy>()
    ensures phases { (n : Network A) (commands : ℕ → List Input) (captures : ℕ → ℕ → List CapturedFrame) (o : ℕ
        → Outcome A)
        (run : IsNetworkRun n commands captures o) (leg : RouteHop A) (more : List (ℕ
        × RouteHop A)) (t : Traffic) (x : StreamLatency)
        (done : Phases)
        → IsNetwork n
        → IsRoute n run.lists leg more
        → AreFedInTurn n run.inputs run.lists leg more
        → IsTraffic t
        → KeepsTrafficAtHop run.inputs t leg
        → IsRouteLatency t.from (first_hop_arrival t) leg more x done
        → IsWithinRouteLatency t.period leg.copy.at (hop_end (last_hop leg more)) x done }
    ensures course { (n : Network A) (commands : ℕ → List Input) (captures : ℕ → ℕ → List CapturedFrame) (o : ℕ
        → Outcome A)
        (run : IsNetworkRun n commands captures o) (leg : RouteHop A) (more : List (ℕ × RouteHop A)) (t : Traffic)
        (links : List Link)
        (hops : List StreamHop) (queues : List HopQueue) (r : StreamLatency)
        → IsNetwork n
        → IsRoute n run.lists leg more
        → AreFedInTurn n run.inputs run.lists leg more
        → IsTraffic t
        → KeepsTrafficAtHop run.inputs t leg
        → slice_get hops 0 ≡ Some (stream_hop leg)
        → IsRouteOfStream links hops queues leg more
        → IsStreamLatency n.bridges links hops queues t (Some r)
        → KeepsStreamLatency t leg more r }
{}

/// If a periodic row prints `passes` and its talker keeps the row, the row's filter passes each frame (`filter`). Each copy leaves between
/// the row's phases and within its delays (`queue`).
///
/// Other talkers may send anything.
///
/// So the word `passes` of `bounds --traffic` is proved.
pub fn passing_row_is_sent<A: Allocator + Copy>()
    ensures filter { (p : Plan A) (f : FilterPlan) (es : List Event) (lists : ℕ
        → List (Copy CarriedFrame)) (o : Outcome A)
        (v : View A) (r : TrafficRow) (x : Timing)
        → IsPlan p
        → IsAcceptable p
        → IsMember (r.filter, f) p.filters
        → f.protected ≡ true
        → IsOutcome p es lists o
        → lookup (nat_eq r.filter) o.filters.items ≡ Some v
        → IsTraffic r.traffic
        → KeepsTraffic r.traffic (own_events p r.filter f es)
        → PassesAt p r x
        → list_all passes v.verdicts.items ≡ true }
    ensures queue { (p : Plan A) (f : FilterPlan) (es : List Event) (moments : ℕ → ℕ) (lists : ℕ
        → List (Copy CarriedFrame))
        (q : ℕ) (out : PortPlan A) (y : Copy CarriedFrame) (r : TrafficRow) (x : Timing)
        → IsPlan p
        → IsAcceptable p
        → IsMember (r.filter, f) p.filters
        → f.protected ≡ true
        → IsRun p es moments lists
        → AreFinished lists
        → find_port p.ports q ≡ Some out
        → IsMember y (lists q)
        → y.item.flow ≡ Some r.filter
        → IsTraffic r.traffic
        → KeepsTraffic r.traffic (own_events p r.filter f es)
        → IsTiming p r.filter q y.class r.traffic x
        → PassesAt p r x
        → IsSentInTime out r x y }
{}

/// If all lines of a grouped filter's row print `passes`, the filter passes each frame of a talker that keeps the row (`filter`).
///
/// Each egress port of the frame sends it within the delays of one of these lines (`frame`). So the word `passes` of `bounds --traffic` is
/// proved.
pub fn passing_limited_row_is_sent<A: Allocator + Copy>()
    ensures filter { (p : Plan A) (group index : ℕ) (f : FilterPlan) (r : LimitedRow) (s : SharedQueue)
        (x : QueueTiming) (es : List Event) (lists : ℕ → List (Copy CarriedFrame)) (o : Outcome A) (v : View A)
        → IsPlan p
        → HasAcceptableGroups p
        → IsGroupMember p group r.filter f
        → IsLimitedRow r
        → IsLimitedTiming p index r s x
        → x.passes ≡ true
        → IsOutcome p es lists o
        → lookup (nat_eq r.filter) o.filters.items ≡ Some v
        → AreArrivalsInOrder es
        → KeepsRow p r es
        → list_all passes v.verdicts.items ≡ true }
    ensures frame { (p : Plan A) (group index q set : ℕ) (f : FilterPlan) (r : LimitedRow) (shared : List SharedQueue)
        (xs : List QueueTiming) (out : PortPlan A) (a : Arrival) (newer older : List Event) (c : FilterInput)
        (moments : ℕ → ℕ) (lists : ℕ → List (Copy CarriedFrame))
        → IsPlan p
        → HasAcceptableGroups p
        → IsGroupMember p group r.filter f
        → IsLimitedRow r
        → AreSharedQueues p shared
        → AreLimitedTimings p index r shared xs
        → are_passing xs ≡ true
        → IsRun p (newer ++ Arrived a ∷ older) moments lists
        → AreFinished lists
        → AreArrivalsInOrder (newer ++ Arrived a ∷ older)
        → KeepsRow p r (newer ++ Arrived a ∷ older)
        → frame_destination p a ≡ Forwarded set c
        → frame_filter p.filters c ≡ Some (r.filter, f)
        → has_port set q ≡ true
        → find_port p.ports q ≡ Some out
        → (x : QueueTiming) × (y : Copy CarriedFrame) × IsMember x xs × IsMember y (lists q) × (x.port ≡ q)
        × IsSentFrame out a r.filter (count_filter_frames p r.filter older + 1) x y }
{}

/// If the copies in a hop's queue start once a period, the frames arrive at the next hop once a period. Applied hop by hop, this law bounds
/// the delay of a route.
pub fn next_hop_in_periods<A: Allocator + Copy>()
    ensures { (n : Network A) (stream : List (ℕ × ℕ)) (commands : ℕ → List Input) (captures : ℕ → ℕ
        → List CapturedFrame)
        (views : Hop A → Option (View A)) (g h : Hop A) (q base c period first last least most next : ℕ) (s : Sender)
        (out : PortPlan A)
        → (alone : IsAlone n commands captures stream views)
        → IsHop n stream h
        → sender n.links h.bridge q ≡ Some s
        → StartInPeriods base (lists_open out.list c) (link_time out) period first last next
        (alone.lists g s.from.port c)
        → ((y : Copy CarriedFrame) → IsMember y (alone.lists g s.from.port c) → least ≤ link_time out y.item)
        → ((y : Copy CarriedFrame) → IsMember y (alone.lists g s.from.port c) → link_time out y.item ≤ most)
        → last + most ≤ first + period
        → 0 < least
        → ((x : Input) → ArrivesOverLink n stream alone.lists h q s x
        → IsDelayedCopy (link_time out) s.delay (alone.lists g s.from.port c) x)
        → InputsInPeriods base period (first + least + s.delay) (last + most
        + s.delay) next (inputs_by_rank q (alone.own h)) }
{}
