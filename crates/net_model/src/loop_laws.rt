//! A law about the search for forwarding loops: the contract of a function that nobody calls. It shows that one group suffices for all
//! destinations without a static entry.
ghost use Rattle.std.specs.Prelude.{◌≡◌, ℕ, List, Option, None, Some, false};
ghost use Rattle.bridge_forward.specs.Forward.{is_reserved};
ghost use Rattle.bridge_config.specs.Model.{Plan};
ghost use Rattle.net_model.specs.declared.links.Link.{Link};
ghost use Rattle.net_model.specs.LoopSteps.{HasNoStaticEntry, group_by, group_steps};

use std::alloc::Allocator;

/// Frames to an address without a static entry have the same steps as the group without destination. So the search for loops examines only
/// this group for them. Bridges never relay reserved addresses.
#[tactic(auto, using(crate::proofs::Others::others_alike))]
pub fn unnamed_destinations_go_alike<A: Allocator + Copy>()
    ensures { (plans : List (Plan A)) (links : List Link) (vlan : Option ℕ) (address : List ℕ) (b : ℕ)
        → HasNoStaticEntry address plans
        → is_reserved address ≡ false
        → group_steps links (group_by vlan (Some address)) b plans ≡ group_steps links (group_by vlan None) b plans }
{}
