//! Laws of waiting times of a protected filter's frames at one bridge. Nobody calls these functions: reviewers read them, and proofs use
//! their lemmas.
ghost use Rattle.std.specs.Prelude.{◌≡◌, ◌≤◌, ◌+◌, ℕ, List, Some, true};
ghost use Rattle.bridge_limits.specs.Members.{IsMember};
ghost use Rattle.bridge_cycle.specs.Fits.{IsFirstFit, IsPeriodic};
ghost use Rattle.bridge_frame.specs.Link.{transmission_time};
ghost use Rattle.bridge_filter.specs.declared.FilterPlan.{FilterPlan};
ghost use Rattle.bridge_port.specs.GateSchedule.{lists_can_fit, lists_open};
ghost use Rattle.bridge_port.specs.Schedule.{Copy};
ghost use Rattle.bridge_config.specs.Model.{Plan};
ghost use Rattle.bridge_config.specs.Rules.{find_port};
ghost use Rattle.bridge_config.specs.declared.ports.PortPlan.{PortPlan};
ghost use Rattle.bridge_semantics.specs.declared.outcome.View.{View};
ghost use Rattle.bridge_semantics.specs.Events.{Arrival, Arrived, Event};
ghost use Rattle.bridge_semantics.specs.Offers.{CarriedFrame, egress_rules, class_offers, Offer, port_offers};
ghost use Rattle.bridge_semantics.specs.Merge.{AreTimed, Input, input_events};
ghost use Rattle.bridge_semantics.specs.Runs.{IsSoloView};
ghost use Rattle.bridge_bounds.specs.Latency.{Conforms, FitsWithinWait, InputsInPeriods, OffersInPeriods};
ghost use Rattle.bridge_bounds.specs.Latency.{StartInPeriods, StartsWithinWait, offer_time, link_time};

use std::alloc::Allocator;

/// If a protected filter's frames keep a gap of the longest wait plus one frame, no frame waits for another. Each frame starts at its first
/// fit, at most the longest wait after its arrival.
///
/// Delays of periodic talkers rest on it.
pub fn starts_in_time<A: Allocator + Copy>()
    ensures { (p : Plan A) (n : ℕ) (f : FilterPlan) (es : List Event) (v : View A) (q c occ wait : ℕ) (out : PortPlan A)
        (x : Copy CarriedFrame)
        → (alone : IsSoloView p n f es v)
        → find_port p.ports q ≡ Some out
        → FitsWithinWait (lists_open out.list c) occ wait
        → 1 ≤ (egress_rules out).room c
        → Conforms p out c es occ (wait + occ)
        → IsMember x (alone.lists q c)
        → StartsWithinWait (lists_open out.list c) (link_time out x.item) wait x.at x.fate }
{}

/// If a protected filter's offers in a class arrive once a period, between two phases, its frames start once a period. Each frame must be
/// able to leave before the next offer.
///
/// The start's phases are the first fits of the shortest frame from the first phase, and of the longest frame from the last phase. Delays
/// of periodic talkers rest on it.
pub fn keeps_phase<A: Allocator + Copy>()
    ensures { (p : Plan A) (n : ℕ) (f : FilterPlan) (es : List Event) (v : View A) (q base c period : ℕ)
        (from upto least most first last next : ℕ) (out : PortPlan A)
        → (alone : IsSoloView p n f es v)
        → find_port p.ports q ≡ Some out
        → IsPeriodic (lists_open out.list c) base
        → IsFirstFit (lists_open out.list c) least from first
        → IsFirstFit (lists_open out.list c) most upto last
        → last + most ≤ from + period
        → 1 ≤ (egress_rules out).room c
        → ((o : Offer) → IsMember o (class_offers c (port_offers p out es))
        → lists_can_fit out.list c (offer_time out o) ≡ true)
        → OffersInPeriods base (offer_time out) period from upto least most next (class_offers c (port_offers p out es))
        → StartInPeriods base (lists_open out.list c) (link_time out) period first last next (alone.lists q c) }
{}

/// If inputs arrive once a period, their offers in a class of a port arrive once a period, between the same phases. Delays of periodic
/// talkers rest on it.
pub fn offers_in_periods<A: Allocator + Copy>()
    ensures { (p : Plan A) (out : PortPlan A) (base c period from upto least most next : ℕ) (xs : List Input)
        → AreTimed xs
        → ((x : Input) (a : Arrival) → IsMember x xs → x.event ≡ Arrived a
        → (least ≤ transmission_time a.len out.speed) × (transmission_time a.len out.speed ≤ most))
        → InputsInPeriods base period from upto next xs
        → OffersInPeriods base (offer_time out) period from upto least most next
        (class_offers c (port_offers p out (input_events xs))) }
{}
