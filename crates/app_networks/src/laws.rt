//! Laws of a stream's delays through a network: contracts of functions without a body. Reviewers read them; nobody calls these functions.
ghost use Rattle.std.specs.Prelude.{◌≡◌, ◌≤◌, ◌+◌, ◌-◌, ℕ, Bool, List, Vec, Option, Some, None, length, nat_eq, slice_get};
ghost use Rattle.std.specs.Map.{lookup};
ghost use Rattle.bridge_limits.specs.Members.{IsMember};
ghost use Rattle.bridge_capture.specs.Grammar.{CapturedFrame};
ghost use Rattle.bridge_frame.specs.Link.{transmission_time};
ghost use Rattle.bridge_port.specs.Schedule.{Copy, Started};
ghost use Rattle.bridge_config.specs.declared.command.Command.{Command};
ghost use Rattle.bridge_config.specs.declared.ports.PortPlan.{PortPlan};
ghost use Rattle.bridge_config.specs.Model.{Plan};
ghost use Rattle.bridge_config.specs.Rules.{IsPlan, find_port};
ghost use Rattle.bridge_check.specs.Acceptable.{HasAcceptableGroups, IsAcceptable};
ghost use Rattle.bridge_semantics.specs.Offers.{CarriedFrame};
ghost use Rattle.bridge_bounds.specs.Bounds.{IsTightBound};
ghost use Rattle.bridge_groups.specs.Curves.{HasNoRunts};
ghost use Rattle.bridge_core.specs.WholeRuns.{IsWholeRun};
ghost use Rattle.bridge_filter.specs.declared.FilterPlan.{FilterPlan};
ghost use Rattle.bridge_semantics.specs.Events.{own_events};
ghost use Rattle.bridge_semantics.specs.Merge.{Input, input_events};
ghost use Rattle.bridge_semantics.specs.Runs.{AreSameViews, IsSoloView};
ghost use Rattle.bridge_semantics.specs.declared.outcome.View.{View};
ghost use Rattle.bridge_groups.specs.ApartMembers.{IsApartMember};
ghost use Rattle.bridge_semantics.specs.declared.outcome.Departure.{Departure};
ghost use Rattle.bridge_semantics.specs.declared.outcome.Outcome.{Outcome};
ghost use Rattle.net_file.specs.Model.{Stream};
ghost use Rattle.net_file.specs.Model as file;
ghost use Rattle.net_model.specs.Networks.{IsNetwork, IsNetworkRun, Network};
ghost use Rattle.net_model.specs.Faults.{first_fault};
ghost use Rattle.net_model.specs.NetworkParts.{NetworkParts, network_value};
ghost use Rattle.net_model.specs.declared.links.Link.{Link};
ghost use Rattle.net_check.specs.Networks.{IsNetworkOfFile};
ghost use Rattle.bridge_groups.specs.GateBounds.{IsLeastBound, IsPaddedBound};
ghost use Rattle.net_latency.specs.Streams.{AreQueueBoundsOfPlans, stream_bound};
ghost use Rattle.net_latency.specs.declared.bounds.QueueBound.{QueueBound};
ghost use Rattle.net_run.specs.Rounds.{AreOutcomes, RunsNetwork};
ghost use Rattle.net_run.specs.declared.rounds.BridgeResult.{BridgeResult};
ghost use Rattle.net_run.specs.declared.bridge_run.BridgeInput.{BridgeInput};
ghost use Rattle.net_report.specs.declared.copy_counting.HopRun.{HopRun};
ghost use Rattle.net_report.specs.declared.sources.SourceFrame.{SourceFrame};
ghost use Rattle.net_report.specs.HopCounts.{departure_delays};
ghost use Rattle.net_report.specs.SourceFrames.{HaveSources, HasSource};
ghost use Rattle.app_networks.specs.InTime.{AreHopRuns, AreHopsBounded, ComeFromLowerRank, GoOnce, GoesOnce, HasSourceOverRoute, route_time};

use std::alloc::Allocator;

/// A frame has a source over `n` links exactly if it has this source over a route of `n` legs. A leg is an earlier hop and the delay of the
/// link after it.
///
/// Laws about the delays of routes rest on it.
pub fn legs_are_links<A: Allocator + Copy>()
    ensures there { (links : List Link) (hops : List (HopRun A)) (r : SourceFrame) (n i k : ℕ)
        → HasSource links hops r n i k
        → (legs : List (ℕ × ℕ)) × (length legs ≡ n) × HasSourceOverRoute links hops r legs i k }
    ensures back { (links : List Link) (hops : List (HopRun A)) (r : SourceFrame) (legs : List (ℕ × ℕ)) (i k : ℕ)
        → HasSourceOverRoute links hops r legs i k
        → HasSource links hops r (length legs) i k }
{}

/// In a complete run of an accepted network, each copy's delay since the first hop has a bound.
///
/// It is the sum of the bounds of its hops and the delays of its links. docs/NETWORK_PROOF.md cites it.
pub fn measured_in_time<A: Allocator + Copy>()
    ensures { (n : Network A) (commands : ℕ → List Input) (captures : ℕ → ℕ → List CapturedFrame) (o : ℕ → Outcome A)
        (stream : List (ℕ × ℕ)) (links : List Link) (hops : List (HopRun A)) (most : ℕ → ℕ) (r : SourceFrame)
        (legs : List (ℕ × ℕ)) (i : ℕ) (h : HopRun A) (d : Departure)
        → IsNetwork n
        → IsNetworkRun n commands captures o
        → AreHopRuns o stream hops
        → AreHopsBounded n stream most
        → slice_get hops i ≡ Some h
        → IsMember d h.view.now.departures.items
        → HasSourceOverRoute links hops r legs i (d.own - 1)
        → d.done ≤ r.came + route_time most i legs }
{}

/// In a complete run of an accepted network, a frame that passed no hop twice keeps its stream's bound (`copy`).
///
/// If this holds for a hop's frames, its delays are within the bound (`delays`). docs/NETWORK_PROOF.md cites it.
pub fn measured_within_bound<A: Allocator + Copy>()
    ensures copy { (f : file.Network) (plans : List (Plan A)) (n : NetworkParts A) (came : List (BridgeInput A))
        (settled : List (BridgeResult A)) (o : ℕ → Outcome A) (bounds : List (Vec QueueBound A)) (s : Stream)
        (hops : List (HopRun A)) (r : SourceFrame) (legs : List (ℕ × ℕ)) (i : ℕ) (h : HopRun A) (d : Departure)
        → IsNetworkOfFile f plans n
        → IsNetwork (network_value n)
        → first_fault n ≡ None
        → RunsNetwork n came settled
        → AreOutcomes settled o
        → AreQueueBoundsOfPlans n.plans bounds
        → IsMember s f.streams
        → AreHopRuns o s.hops hops
        → slice_get hops i ≡ Some h
        → IsMember d h.view.now.departures.items
        → HasSourceOverRoute n.links hops r legs i (d.own - 1)
        → GoesOnce i legs
        → d.done ≤ r.came + stream_bound bounds f.links s.hops }
    ensures delays { (f : file.Network) (plans : List (Plan A)) (n : NetworkParts A) (came : List (BridgeInput A))
        (settled : List (BridgeResult A)) (o : ℕ → Outcome A) (bounds : List (Vec QueueBound A)) (s : Stream)
        (hops : List (HopRun A)) (all : List (Vec (Option SourceFrame) A)) (i : ℕ) (h : HopRun A)
        (known : Vec (Option SourceFrame) A)
        (ways : List Bool) (delay : ℕ)
        → IsNetworkOfFile f plans n
        → IsNetwork (network_value n)
        → first_fault n ≡ None
        → RunsNetwork n came settled
        → AreOutcomes settled o
        → AreQueueBoundsOfPlans n.plans bounds
        → IsMember s f.streams
        → AreHopRuns o s.hops hops
        → HaveSources n.links hops all
        → slice_get hops i ≡ Some h
        → slice_get all i ≡ Some known
        → GoOnce n.links hops i known.items
        → IsMember delay (departure_delays ways known.items h.view.now.departures.items)
        → delay ≤ stream_bound bounds f.links s.hops }
{}

/// No frame passes a hop twice if hops have ranks, such as their numbers. Each frame that arrives at a hop over a link must come from a hop
/// of lower rank. docs/NETWORK_PROOF.md cites it.
pub fn ranked_route_goes_once<A: Allocator + Copy>()
    ensures { (links : List Link) (hops : List (HopRun A)) (rank : ℕ
        → ℕ) (r : SourceFrame) (legs : List (ℕ × ℕ)) (i k : ℕ)
        → ComeFromLowerRank links hops rank
        → HasSourceOverRoute links hops r legs i k
        → GoesOnce i legs }
{}

/// In a complete run of one bridge over captures, each frame whose filter has a tight bound for its queue leaves within this bound.
/// Captured octets never exceed a frame's length, so `in_time_by_octets` applies.
///
/// So bounds by octets hold for each run of `run`.
pub fn read_in_time_by_octets<A: Allocator + Copy, W>()
    ensures { (p : Plan A) (ports : List ℕ) (commands : List Command) (texts : ℕ → List ℕ) (contents : W
        → Option (List ℕ))
        (olds news : List W) (o : Outcome A) (n q s b : ℕ) (out : PortPlan A) (x : Copy CarriedFrame)
        → (ran : IsWholeRun p ports commands texts contents olds news o)
        → IsPlan p
        → IsAcceptable p
        → find_port p.ports q ≡ Some out
        → IsMember x (ran.ends.lists q)
        → x.item.flow ≡ Some n
        → x.fate ≡ Started s
        → IsTightBound p n q x.class b
        → s + transmission_time x.item.len out.speed ≤ x.at + b }
{}

/// In a complete run of one bridge over captures, each frame whose filter has a printed bound for its queue leaves within this bound
/// (`bound`).
///
/// If all frames have at least 60 octets, they leave within the bound after the word `padded` (`padded`). So bounds that `bounds` prints
/// hold for each run of `run`.
pub fn read_in_printed_time<A: Allocator + Copy, W>()
    ensures bound { (p : Plan A) (ports : List ℕ) (commands : List Command) (texts : ℕ → List ℕ) (contents : W
        → Option (List ℕ))
        (olds news : List W) (o : Outcome A) (n q s b : ℕ) (out : PortPlan A) (x : Copy CarriedFrame)
        → (ran : IsWholeRun p ports commands texts contents olds news o)
        → IsPlan p
        → IsAcceptable p
        → find_port p.ports q ≡ Some out
        → IsMember x (ran.ends.lists q)
        → x.item.flow ≡ Some n
        → x.fate ≡ Started s
        → IsLeastBound p n q x.class b
        → s + transmission_time x.item.len out.speed ≤ x.at + b }
    ensures padded { (p : Plan A) (ports : List ℕ) (commands : List Command) (texts : ℕ → List ℕ) (contents : W
        → Option (List ℕ))
        (olds news : List W) (o : Outcome A) (n q s a b : ℕ) (out : PortPlan A) (x : Copy CarriedFrame)
        → (ran : IsWholeRun p ports commands texts contents olds news o)
        → IsPlan p
        → IsAcceptable p
        → find_port p.ports q ≡ Some out
        → IsMember x (ran.ends.lists q)
        → x.fate ≡ Started s
        → HasNoRunts (input_events ran.inputs)
        → IsPaddedBound p n q x.class a b
        → s + transmission_time x.item.len out.speed ≤ x.at + b }
{}

/// If the stream gates at all reachable queues of a filter are apart in time, only the filter's own events determine its record in a run
/// over captures (`alone`). Two runs with equal own events give it equal records (`equal`).
///
/// So the promise of `apart` holds for each run of `run`, if `bounds` ends the lines of all queues of the filter with this word.
pub fn read_apart_is_isolated<A: Allocator + Copy, W>()
    ensures alone { (p : Plan A) (ports : List ℕ) (commands : List Command) (texts : ℕ → List ℕ) (contents : W
        → Option (List ℕ))
        (olds news : List W) (o : Outcome A) (group n : ℕ) (f : FilterPlan) (v : View A)
        → (ran : IsWholeRun p ports commands texts contents olds news o)
        → IsPlan p
        → HasAcceptableGroups p
        → IsApartMember p group n f
        → lookup (nat_eq n) o.filters.items ≡ Some v
        → IsSoloView p n f (own_events p n f (input_events ran.inputs)) v }
    ensures equal { (p : Plan A) (ports : List ℕ) (commands others : List Command) (texts more : ℕ → List ℕ)
        (contents : W → Option (List ℕ))
        (olds news starts ends : List W) (o q : Outcome A) (group n : ℕ) (f : FilterPlan) (u v : View A)
        → (a : IsWholeRun p ports commands texts contents olds news o)
        → (b : IsWholeRun p ports others more contents starts ends q)
        → IsPlan p
        → HasAcceptableGroups p
        → IsApartMember p group n f
        → own_events p n f (input_events a.inputs) ≡ own_events p n f (input_events b.inputs)
        → lookup (nat_eq n) o.filters.items ≡ Some u
        → lookup (nat_eq n) q.filters.items ≡ Some v
        → AreSameViews u v }
{}
