//! Laws of accepted plans: contracts of functions without a body.
ghost use Rattle.std.specs.Prelude.{◌≡◌, [], ℕ, Bool, List, Ok, Option, None, Some, true};
ghost use Rattle.bridge_limits.specs.Members.{IsMember};
ghost use Rattle.bridge_frame.specs.declared.Head.{Head};
ghost use Rattle.bridge_frame.specs.Frames as frames;
ghost use Rattle.bridge_filter.specs.declared.FilterInput.{FilterInput};
ghost use Rattle.bridge_filter.specs.declared.FilterPlan.{FilterPlan};
ghost use Rattle.bridge_filter.specs.declared.Verdict.TheVariants as verdict;
ghost use Rattle.bridge_filter.specs.OwnEvents.{HasOwnInstances};
ghost use Rattle.bridge_filter.specs.Plans.{police_plans};
ghost use Rattle.bridge_filter.specs.Verdicts.{FilterStep, frame_filter, frame_verdict};
ghost use Rattle.bridge_forward.specs.Ports.{has_port};
ghost use Rattle.bridge_forward.specs.Forward.{forward};
ghost use Rattle.bridge_config.specs.declared.ports.PortPlan.{PortPlan};
ghost use Rattle.bridge_config.specs.Model.{Plan};
ghost use Rattle.bridge_config.specs.Rules.{IsPlan, find_port};
ghost use Rattle.bridge_check.specs.Reach.{reaches_queue};
ghost use Rattle.bridge_check.specs.FrameInput.{frame_vid, frame_priority, frame_input, frame_class};
ghost use Rattle.bridge_check.specs.Acceptable.{IsIsolated, IsIsolatedMember};
ghost use Rattle.bridge_check.specs.declared.check_fault.CheckFault.{CheckFault};
ghost use Rattle.bridge_check.specs.Faults.{all_faults, filter_fault, first_fault, member_fault};

use std::alloc::Allocator;

/// A filter that fails no test has its stream gate, meter, queues and windows for itself. Its longest frame fits, and every forwarded frame
/// matches some filter. The isolation theorem rests on it.
pub fn without_fault_is_isolated<A: Allocator + Copy>()
    ensures { (p : Plan A) (n : ℕ) (f : FilterPlan)
        → IsPlan p
        → IsMember (n, f) p.filters
        → filter_fault p n f ≡ None
        → IsIsolated p n f }
{}

/// A grouped filter that fails no test has its stream gate, meter and windows for itself, and shares its queues only with its group. Its
/// longest frame fits, and every forwarded frame matches some filter.
///
/// The isolation theorem for groups rests on it.
pub fn without_fault_is_isolated_member<A: Allocator + Copy>()
    ensures { (p : Plan A) (k n : ℕ) (f : FilterPlan)
        → IsPlan p
        → IsMember (n, f) p.filters
        → member_fault p k n f ≡ None
        → IsIsolatedMember p k n f }
{}

/// A copy of a frame that its filter passes goes only to a queue that `reaches_queue` finds, at any time and after any events. Therefore
/// `check` tests only these queues of a filter.
pub fn reach_is_sound<A: Allocator + Copy>()
    ensures { (p : Plan A) (port out : PortPlan A) (frame : List ℕ) (len : ℕ) (head : Head)
        (at octets n : ℕ) (f : FilterPlan) (ss : List FilterStep) (ipv : Option ℕ) (eligible : Bool)
        → IsPlan p
        → find_port p.ports port.number ≡ Some port
        → find_port p.ports out.number ≡ Some out
        → frames.parsed_head frame len ≡ Ok head
        → has_port (forward p.database port.number (frame_vid port head.tag) head.da) out.number ≡ true
        → frame_filter p.filters (frame_input p port at head octets) ≡ Some (n, f)
        → frame_verdict (police_plans p.filters p.gates p.meters) ss (frame_input p port at head octets) n f
        ≡ verdict.Pass ipv eligible
        → reaches_queue p f out.number (frame_class out ipv (frame_priority port head.tag)) ≡ true }
{}

/// If a filter passes all tests of a protected filter, every frame matches some filter of the plan. The isolation theorem rests on it.
pub fn every_frame_has_a_filter<A: Allocator + Copy>()
    ensures { (p : Plan A) (n : ℕ) (f : FilterPlan) (c : FilterInput)
        → IsPlan p
        → IsMember (n, f) p.filters
        → filter_fault p n f ≡ None
        → (g : ℕ × FilterPlan) × (frame_filter p.filters c ≡ Some g) }
{}

/// A filter that fails no test has one plan entry, and no other filter uses its stream gate or meter. Its own events alone determine its
/// verdicts. The isolation theorem rests on it.
pub fn without_fault_has_own_instances<A: Allocator + Copy>()
    ensures { (p : Plan A) (n : ℕ) (f : FilterPlan)
        → IsPlan p
        → IsMember (n, f) p.filters
        → filter_fault p n f ≡ None
        → HasOwnInstances (police_plans p.filters p.gates p.meters) n f }
{}

/// The fault that `check` reports is in the list of all faults. If `check` reports none, the list is empty. So explanations never
/// contradict the fault line.
pub fn the_first_fault_is_one_of_all<A: Allocator + Copy>()
    ensures one { (p : Plan A) (e : CheckFault) → first_fault p ≡ Some e → IsMember e (all_faults p) }
    ensures none { (p : Plan A) → first_fault p ≡ None → all_faults p ≡ [] }
{}
