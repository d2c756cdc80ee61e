//! Laws of a stream with a periodic talker in complete runs of an accepted network. Each law is the contract of an empty function that no
//! code calls.
ghost use Rattle.std.specs.Prelude.{◌≡◌, ◌∷◌, ℕ, List, Some, Vec, slice_get, true};
ghost use Rattle.bridge_limits.specs.Members.{IsMember};
ghost use Rattle.bridge_config.specs.Model.{Plan};
ghost use Rattle.bridge_config.specs.declared.command.Command.{Command};
ghost use Rattle.bridge_capture.specs.Grammar.{CapturedFrame};
ghost use Rattle.bridge_semantics.specs.Events.{Arrival, Arrived, own_events};
ghost use Rattle.bridge_semantics.specs.Merge.{Input, capture_inputs, commands_of, input_events};
ghost use Rattle.bridge_semantics.specs.declared.outcome.Outcome.{Outcome};
ghost use Rattle.bridge_bounds.specs.declared.traffic.Traffic.{Traffic};
ghost use Rattle.bridge_bounds.specs.Traffic.{IsTraffic};
ghost use Rattle.net_file.specs.declared.talker.Talker.{Talker};
ghost use Rattle.net_file.specs.Rules.{IsTalker};
ghost use Rattle.net_model.specs.declared.links.StreamHop.{StreamHop};
ghost use Rattle.net_model.specs.NetworkParts.{NetworkParts, network_value};
ghost use Rattle.net_model.specs.Networks.{IsNetworkRun};
ghost use Rattle.net_latency.specs.declared.bounds.QueueBound.{QueueBound};
ghost use Rattle.net_latency.specs.declared.latency.StreamLatency.{StreamLatency};
ghost use Rattle.net_latency.specs.declared.tree.HopQueue.{HopQueue};
ghost use Rattle.net_latency.specs.Delivered.{AreCommands, CompareDestinations, HasPath, HasReachableQueues, IsAcceptedNetwork};
ghost use Rattle.net_latency.specs.Delivered.{IsDeliveredAlong, IsForwardedAlong, IsFrameOfHop, IsStreamOfNetwork, KeepsTalkerTraffic, KeepsTrafficOfHop};
ghost use Rattle.net_latency.specs.Entering.{IsStreamCourse, come_in_once};
ghost use Rattle.net_latency.specs.Phased.{AreFedInTurn, IsRouteOfStream, KeepsStreamLatency, KeepsTrafficAtHop, stream_hop};
ghost use Rattle.net_latency.specs.Streams.{AreQueueBoundsOfPlans, is_passing};
ghost use Rattle.net_latency.specs.Talkers.{IsTalkerLatency, hop_queues, talker_traffic};
ghost use Rattle.net_latency.specs.Trees.{is_tree};
ghost use Rattle.net_latency.specs.Ways.{IsRoute, RouteHop};

use std::alloc::Allocator;

/// The queues of a stream's hops, as `net check` collects them from the delay bounds, include each queue that the hops can reach. Delivery
/// (`stream_is_delivered`) rests on it.
pub fn stream_queues_are_reachable<A: Allocator + Copy>()
    ensures { (plans : List (Plan A)) (bounds : List (Vec QueueBound A)) (hops : List StreamHop)
        → AreQueueBoundsOfPlans plans bounds
        → HasReachableQueues plans hops (hop_queues bounds hops) }
{}

/// Inputs that are read from command files clear a flag: none is a frame. `AreCommands`, a condition of the other laws, holds for them.
pub fn read_commands_are_commands<A: Allocator + Copy>()
    ensures { (commands : ℕ → List Command) → AreCommands (λ (b : ℕ). commands_of (commands b)) }
{}

/// If the frames at the talker's port keep the traffic, all frames that the first hop's filter receives keep it, whatever arrives at other
/// ports. Delivery (`stream_is_delivered`) rests on it.
pub fn talker_port_keeps_traffic<A: Allocator + Copy>()
    ensures { (n : NetworkParts A) (hops : List StreamHop) (queues : List HopQueue) (first : StreamHop) (t : Traffic)
        (q : ℕ) (commands : ℕ → List Input) (captures : ℕ → ℕ → List CapturedFrame) (o : ℕ → Outcome A)
        (run : IsNetworkRun (network_value n) commands captures o)
        → IsAcceptedNetwork n
        → IsStreamOfNetwork n hops
        → HasReachableQueues n.plans hops queues
        → AreCommands commands
        → slice_get hops 0 ≡ Some first
        → come_in_once n.plans n.links true hops ≡ true
        → is_tree n.links hops queues first ≡ true
        → KeepsTalkerTraffic n captures t first q
        → KeepsTrafficOfHop n.plans run.inputs t first }
{}

/// On each route of a stream, each later hop's filter receives only copies from the hop before it. The hops must be a tree, and only the
/// talker's frames may get their handles.
///
/// Delivery (`stream_is_delivered`) rests on it.
pub fn stream_is_fed_in_turn<A: Allocator + Copy>()
    ensures { (n : NetworkParts A) (hops : List StreamHop) (queues : List HopQueue) (first : StreamHop)
        (commands : ℕ → List Input) (captures : ℕ → ℕ → List CapturedFrame) (o : ℕ → Outcome A)
        (run : IsNetworkRun (network_value n) commands captures o) (leg : RouteHop A) (more : List (ℕ × RouteHop A))
        → IsAcceptedNetwork n
        → IsStreamOfNetwork n hops
        → HasReachableQueues n.plans hops queues
        → AreCommands commands
        → slice_get hops 0 ≡ Some first
        → come_in_once n.plans n.links true hops ≡ true
        → is_tree n.links hops queues first ≡ true
        → IsRoute (network_value n) run.lists leg more
        → IsRouteOfStream n.links hops queues leg more
        → AreFedInTurn (network_value n) run.inputs run.lists leg more }
{}

/// Each frame of a stream's talker keeps the printed delays and phases on each route. Only this talker must keep its traffic; other devices
/// may send anything. docs/NETWORK_PROOF.md cites it.
pub fn stream_keeps_latency<A: Allocator + Copy>()
    ensures { (n : NetworkParts A) (hops : List StreamHop) (queues : List HopQueue) (t : Traffic) (r : StreamLatency)
        (commands : ℕ → List Input) (captures : ℕ → ℕ → List CapturedFrame) (o : ℕ → Outcome A)
        (run : IsNetworkRun (network_value n) commands captures o) (leg : RouteHop A) (more : List (ℕ × RouteHop A))
        → IsAcceptedNetwork n
        → IsStreamOfNetwork n hops
        → HasReachableQueues n.plans hops queues
        → AreCommands commands
        → IsTraffic t
        → IsStreamCourse n.plans n.links hops queues t (Some r)
        → slice_get hops 0 ≡ Some (stream_hop leg)
        → IsRoute (network_value n) run.lists leg more
        → IsRouteOfStream n.links hops queues leg more
        → KeepsTrafficAtHop run.inputs t leg
        → KeepsStreamLatency t leg more r }
{}

/// Let a stream's delays have the flag `passes`, and the frames of its first hop keep the talker's traffic. Then each frame is delivered
/// along each path of bridges that forward it.
///
/// Other devices may send anything. docs/NETWORK_PROOF.md cites it.
pub fn stream_is_delivered<A: Allocator + Copy>()
    ensures { (n : NetworkParts A) (hops : List StreamHop) (queues : List HopQueue) (t : Traffic) (r : StreamLatency)
        (first : StreamHop) (commands : ℕ → List Input) (captures : ℕ → ℕ → List CapturedFrame) (o : ℕ → Outcome A)
        (run : IsNetworkRun (network_value n) commands captures o) (a : Arrival) (q : ℕ) (ports : List ℕ)
        → IsAcceptedNetwork n
        → IsStreamOfNetwork n hops
        → HasReachableQueues n.plans hops queues
        → AreCommands commands
        → IsTraffic t
        → slice_get hops 0 ≡ Some first
        → KeepsTrafficOfHop n.plans run.inputs t first
        → IsStreamCourse n.plans n.links hops queues t (Some r)
        → r.passes ≡ true
        → IsFrameOfHop n.plans run.inputs first a
        → IsForwardedAlong n.plans n.links hops a.octets a.len first.bridge a.port q ports
        → IsDeliveredAlong n hops queues run.lists t r first a q ports }
{}

/// If all stream entries of a stream compare destination addresses, the bridges forward each frame of its talker along some path. By
/// `stream_is_delivered`, the frame is delivered along it. docs/NETWORK_PROOF.md cites it.
pub fn talker_frame_has_path<A: Allocator + Copy>()
    ensures { (n : NetworkParts A) (hops : List StreamHop) (queues : List HopQueue) (t : Traffic) (r : StreamLatency)
        (first : StreamHop) (commands : ℕ → List Input) (captures : ℕ → ℕ → List CapturedFrame) (o : ℕ → Outcome A)
        (run : IsNetworkRun (network_value n) commands captures o) (a : Arrival)
        → IsAcceptedNetwork n
        → IsStreamOfNetwork n hops
        → HasReachableQueues n.plans hops queues
        → AreCommands commands
        → IsTraffic t
        → slice_get hops 0 ≡ Some first
        → KeepsTrafficOfHop n.plans run.inputs t first
        → IsStreamCourse n.plans n.links hops queues t (Some r)
        → r.passes ≡ true
        → IsFrameOfHop n.plans run.inputs first a
        → CompareDestinations n.plans hops
        → HasPath n hops first a }
{}

/// If `net check` prints `arrives` and the talker keeps its traffic, each frame at the talker's port is delivered. Anything may arrive at
/// other ports. docs/NETWORK_PROOF.md cites it.
pub fn printed_stream_is_delivered<A: Allocator + Copy>()
    ensures { (n : NetworkParts A) (bounds : List (Vec QueueBound A)) (hops : List StreamHop) (talker : Talker)
        (r : StreamLatency) (first : StreamHop) (q : ℕ) (commands : ℕ → List Input)
        (captures : ℕ → ℕ → List CapturedFrame) (o : ℕ → Outcome A)
        (run : IsNetworkRun (network_value n) commands captures o) (a : Arrival) (out : ℕ) (ports : List ℕ)
        → IsAcceptedNetwork n
        → IsStreamOfNetwork n hops
        → AreQueueBoundsOfPlans n.plans bounds
        → IsTalker talker
        → IsTalkerLatency n.plans n.links bounds (Some talker) hops (Some r)
        → is_passing (Some talker) (Some r) ≡ true
        → AreCommands commands
        → slice_get hops 0 ≡ Some first
        → (sent : KeepsTalkerTraffic n captures (talker_traffic talker) first q)
        → IsMember (Arrived a) (own_events sent.plan first.filter sent.filter
        (input_events (capture_inputs q (captures first.bridge q))))
        → IsForwardedAlong n.plans n.links hops a.octets a.len first.bridge a.port out ports
        → IsDeliveredAlong n hops (hop_queues bounds hops) run.lists (talker_traffic talker) r first a out ports }
{}
