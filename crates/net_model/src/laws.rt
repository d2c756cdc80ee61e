//! Laws of complete runs of networks, which reviewers read. Each law is the contract of an empty function that nobody calls. A stream is
//! closed if over links its hops accept only the stream's frames.
ghost use Rattle.std.specs.Prelude.{◌≡◌, ◌↔◌, ℕ, Bool, List, Option, Some, None, nat_eq, true};
ghost use Rattle.std.specs.Map.{lookup};
ghost use Rattle.bridge_capture.specs.Grammar.{CapturedFrame};
ghost use Rattle.bridge_semantics.specs.declared.outcome.View.{View};
ghost use Rattle.bridge_semantics.specs.declared.outcome.Outcome.{Outcome};
ghost use Rattle.bridge_semantics.specs.Merge.{Input, AreTimed};
ghost use Rattle.bridge_semantics.specs.Runs.{AreSameViews};
ghost use Rattle.net_model.specs.Networks.{Hop, IsClosed, IsHop, IsNetwork, IsNetworkRun, Network};
ghost use Rattle.net_model.specs.ClosedTest.{stream_passes};
ghost use Rattle.net_model.specs.ConsistentRuns.{HasConsistentRuns};
ghost use Rattle.net_model.specs.Alone.{HaveSameExternalInputs, IsAlone};
ghost use Rattle.bridge_limits.specs.Members.{IsMember};
ghost use Rattle.bridge_config.specs.Model.{Plan};
ghost use Rattle.bridge_config.specs.declared.ports.PortPlan.{PortPlan};
ghost use Rattle.bridge_filter.specs.declared.FilterPlan.{FilterPlan};
ghost use Rattle.bridge_port.specs.Schedule.{Copy};
ghost use Rattle.bridge_check.specs.Acceptable.{IsAcceptable};
ghost use Rattle.bridge_config.specs.Rules.{IsPlan, find_port};
ghost use Rattle.bridge_filter.specs.OwnEvents.{is_filter_number};
ghost use Rattle.bridge_filter.specs.declared.FilterInput.{FilterInput};
ghost use Rattle.bridge_filter.specs.Verdicts.{frame_filter};
ghost use Rattle.bridge_semantics.specs.declared.destination.Destination.TheVariants.{Forwarded};
ghost use Rattle.bridge_semantics.specs.Events.{Event, arrival, arrival_filter, frame_destination};
ghost use Rattle.bridge_semantics.specs.Offers.{Offer, port_offers};
ghost use Rattle.net_model.specs.LinkFrames.{takes_only};
ghost use Rattle.net_model.specs.FrameSearch.{first_taken};
ghost use Rattle.net_model.specs.Handing.{hands_all};
ghost use Rattle.net_model.specs.declared.sending_port.FrameQuery.TheVariants.{Strays};

use std::alloc::Allocator;

/// In a complete run of an accepted network, each hop of a closed stream has the record that it has on an idle network. On an idle network,
/// only this stream sends frames.
///
/// docs/NETWORK_PROOF.md cites it.
pub fn stream_alone<A: Allocator + Copy>()
    ensures { (n : Network A) (stream : List (ℕ × ℕ)) (commands : ℕ → List Input) (captures : ℕ → ℕ
        → List CapturedFrame)
        (o : ℕ → Outcome A)
        → IsNetwork n
        → ((b : ℕ) → AreTimed (commands b))
        → IsClosed n stream
        → IsNetworkRun n commands captures o
        → IsAlone n commands captures stream (λ (h : Hop A). lookup (nat_eq h.number) (o h.bridge).filters.items) }
{}

/// If a stream is alone on an idle network, the stream's inputs from outside determine the records of its hops. Links may form a cycle.
/// docs/NETWORK_PROOF.md cites it.
pub fn stream_alone_has_one_result<A: Allocator + Copy>()
    ensures { (n : Network A) (stream : List (ℕ × ℕ)) (commands others : ℕ → List Input)
        (captures frames : ℕ → ℕ → List CapturedFrame) (tells says : Hop A → Option (View A)) (h : Hop A) (u v : View A)
        → IsAlone n commands captures stream tells
        → IsAlone n others frames stream says
        → HaveSameExternalInputs n stream commands captures others frames
        → IsHop n stream h
        → tells h ≡ Some u
        → says h ≡ Some v
        → AreSameViews u v }
{}

/// Other traffic can't change the records of a closed stream. If two complete runs have equal inputs of the stream from outside, each hop
/// of the stream has equal records in both. docs/NETWORK_PROOF.md cites it.
pub fn other_traffic_changes_nothing<A: Allocator + Copy>()
    ensures { (n : Network A) (stream : List (ℕ × ℕ)) (commands others : ℕ → List Input)
        (captures frames : ℕ → ℕ → List CapturedFrame) (o r : ℕ → Outcome A) (h : Hop A) (u v : View A)
        → IsNetwork n
        → ((b : ℕ) → AreTimed (commands b))
        → ((b : ℕ) → AreTimed (others b))
        → IsClosed n stream
        → IsNetworkRun n commands captures o
        → IsNetworkRun n others frames r
        → HaveSameExternalInputs n stream commands captures others frames
        → IsHop n stream h
        → lookup (nat_eq h.number) (o h.bridge).filters.items ≡ Some u
        → lookup (nat_eq h.number) (r h.bridge).filters.items ≡ Some v
        → AreSameViews u v }
{}

/// If `takes_only` holds, only frames of the stream's filters get from port `q` of plan `p` to protected filter `n` of plan `next`. The
/// sending bridge may receive anything.
///
/// docs/NETWORK_PROOF.md cites it.
pub fn only_stream_is_taken<A: Allocator + Copy>()
    ensures { (p next : Plan A) (is_of_stream : ℕ → Bool) (q r n t : ℕ) (f : FilterPlan) (out on : PortPlan A)
        (es : List Event) (o : Offer)
        → IsPlan p
        → IsPlan next
        → IsAcceptable next
        → IsMember (n, f) next.filters
        → f.protected ≡ true
        → find_port p.ports q ≡ Some out
        → find_port next.ports r ≡ Some on
        → takes_only p is_of_stream q next on n ≡ true
        → IsMember o (port_offers p out es)
        → is_filter_number n (arrival_filter next (arrival t r o.item.octets o.item.len)) ≡ true
        → (m : ℕ × FilterPlan) × IsMember m p.filters × (is_of_stream m.0 ≡ true) × (o.item.flow ≡ Some m.0) }
{}

/// A stream of an accepted network is closed if each of its hops passes the test `hop_passes`, which needs only the plans and links. The
/// isolation of streams rests on it.
pub fn tested_stream_is_closed<A: Allocator + Copy>()
    ensures { (n : Network A) (stream : List (ℕ × ℕ))
        → IsNetwork n
        → stream_passes n stream ≡ true
        → IsClosed n stream }
{}

/// Complete runs of single bridges are a run of the network if each linked port receives exactly the frames that its other end sent.
/// docs/NETWORK_PROOF.md cites it.
pub fn consistent_runs_are_network_run<A: Allocator + Copy>()
    ensures { (n : Network A) (commands : ℕ → List Input) (captures : ℕ → ℕ → List CapturedFrame) (o : ℕ → Outcome A)
        → HasConsistentRuns n commands captures o
        → IsNetworkRun n commands captures o }
{}

/// The search for stray frames (`first_taken`) finds none exactly if the test `takes_only` holds for the sending port and the hop's filter.
/// So each refusal of a stream has an example frame.
pub fn stray_exists_if_test_fails<A: Allocator + Copy>()
    ensures { (p next : Plan A) (is_of_stream : ℕ → Bool) (q n : ℕ) (on : PortPlan A)
        → IsPlan p
        → (first_taken Strays p is_of_stream q next on n ≡ None) ↔ (takes_only p is_of_stream q next on n ≡ true) }
{}

/// If `hands_all` holds for the plans at a link's ends, filter `n` at the receiving end misses no copy. It judges each copy of filter `m`
/// that arrives over the link and is forwarded there.
///
/// So no frame of a stream is lost between hops.
pub fn each_is_handed<A: Allocator + Copy>()
    ensures { (p next : Plan A) (q r m n t set : ℕ) (f : FilterPlan) (call : FilterInput) (out on : PortPlan A)
        (es : List Event) (o : Offer)
        → IsPlan p
        → IsAcceptable p
        → IsMember (m, f) p.filters
        → f.protected ≡ true
        → find_port p.ports q ≡ Some out
        → find_port next.ports r ≡ Some on
        → hands_all p m q next on n ≡ true
        → IsMember o (port_offers p out es)
        → o.item.flow ≡ Some m
        → frame_destination next (arrival t r o.item.octets o.item.len) ≡ Forwarded set call
        → is_filter_number n (frame_filter next.filters call) ≡ true }
{}
