//! Search for groups of frames that may loop in a network, for a warning of `net check`.
ghost use Rattle.std.specs.Prelude.{◌≡◌, ◌≤◌, IfOk, IfSome, OnOk, None, Ok, length};
ghost use Rattle.bridge_limits.specs.Members.{IsOrdered};
ghost use Rattle.net_model.specs.Walks.{IsOnLoop};
ghost use Rattle.net_model.specs.declared.links.BridgePort.{BridgePort as Port};
ghost use Rattle.net_model.specs.FrameGroups.{Differ};
ghost use Rattle.net_model.specs.LoopSteps.{group_steps};
ghost use Rattle.net_model.specs.ForwardingLoops.{AreForwardingLoops, AreGroupLoops, AddsGroupLoop};

use crate::frame_groups::{FrameGroup, all_groups};
use crate::group_steps::group_steps;
use crate::loop_port::find_loop_port;
use crate::{BridgePort, Link};
use bridge_check::Accepted;
use bridge_limits::NoMemory;
use std::alloc::Allocator;

/// A group of frames that may loop, and a port at which they can arrive again and again. `net check` prints a warning for each.
#[derive(Clone, Copy)]
pub struct ForwardingLoop {
    pub group: FrameGroup,
    pub at: BridgePort,
}

/// Returns a port at which frames of the group can arrive again and again, or `None` if they can't loop. `add_group_loop` calls it.
fn group_loop_port<A: Allocator + Copy>(
    alloc: A,
    plans: &[Accepted<A>],
    links: &[Link],
    group: &FrameGroup,
) -> Result<Option<BridgePort>, NoMemory>
    requires few { length plans.now ≤ 65535 }
    ensures some { IfOk result (λ place. IfSome place (IsOnLoop (group_steps links.now group.now 0 plans.now))) }
    ensures none { result ≡ Ok None → (x : Port) → ¬ IsOnLoop (group_steps links.now group.now 0 plans.now) x }
{
    let steps = group_steps(alloc, plans, links, group)?;
    find_loop_port(alloc, &steps)
}

/// Appends the loop of group `group` to `rows` if the group's frames may loop. `group_loops` calls it.
fn add_group_loop<A: Allocator + Copy>(
    alloc: A,
    plans: &[Accepted<A>],
    links: &[Link],
    group: &FrameGroup,
    rows: &mut Vec<ForwardingLoop, A>,
) -> Result<(), NoMemory>
    requires few { length plans.now ≤ 65535 }
    ensures { OnOk result (AddsGroupLoop plans.now links.now group.now rows.old.items rows.new.items) }
{
    match group_loop_port(alloc, plans, links, group)? {
        Some(at) => {
            rows.push(ForwardingLoop { group: *group, at })?;
            Ok(())
        }
        None => Ok(()),
    }
}

/// Returns a loop for each group in `groups` whose frames may loop, in the order of `groups`. `find_forwarding_loops` calls it.
fn group_loops<A: Allocator + Copy>(
    alloc: A,
    plans: &[Accepted<A>],
    links: &[Link],
    groups: &[FrameGroup],
) -> Result<Vec<ForwardingLoop, A>, NoMemory>
    requires few { length plans.now ≤ 65535 }
    requires once { IsOrdered Differ groups.now }
    ensures { IfOk result (λ rows. AreGroupLoops plans.now links.now groups.now rows.items) }
{
    let mut rows = Vec::new(alloc);
    for group in groups {
        add_group_loop(alloc, plans, links, group, &mut rows)?;
    }
    Ok(rows)
}

/// Returns each group whose frames may loop, once, with a port on the loop; `NoMemory` if memory runs out. Gates and meters aren't
/// considered. Warnings and the limit of rounds of `net` need it.
pub fn find_forwarding_loops<A: Allocator + Copy>(
    alloc: A,
    plans: &[Accepted<A>],
    links: &[Link],
) -> Result<Vec<ForwardingLoop, A>, NoMemory>
    requires few { length plans.now ≤ 65535 }
    ensures { IfOk result (λ rows. AreForwardingLoops plans.now links.now rows.items) }
{
    let groups = all_groups(alloc, plans)?;
    group_loops(alloc, plans, links, &groups)
}
