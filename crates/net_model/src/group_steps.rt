//! Steps of a group's frames: from each port at which they can arrive, over one link, to the next port of arrival. The search for
//! forwarding loops follows them.
ghost use Rattle.std.specs.Prelude.{◌≡◌, ◌≤◌, ◌++◌, IfOk, OnOk, length};
ghost use Rattle.bridge_forward.specs.Forward.{output_ports};
ghost use Rattle.bridge_forward.specs.Ports as ports;
ghost use Rattle.bridge_config.specs.Rules.{find_port};
ghost use Rattle.net_model.specs.LoopSteps as spec;
ghost use Rattle.net_model.specs.LoopSteps.{steps_of_bridge, group_steps, steps_of_port, steps_over_links, steps_over_link};

use crate::frame_groups::FrameGroup;
use crate::step::Step;
use crate::{BridgePort, Link, peer_port};
use bridge_check::Accepted;
use bridge_config::{Plan, PortPlan};
use bridge_forward::{PortSet, find_members};
use bridge_limits::NoMemory;
use std::alloc::Allocator;

/// Returns the VLAN in which port `on` classifies frames of a group. It is the VLAN of their tag, or the port's own VLAN if the frames have
/// no tag. `egress_ports` calls it.
fn classified_vlan<A: Allocator + Copy>(group: &FrameGroup, on: &PortPlan<A>) -> u16
    ensures { result ≡ spec.classified_vlan group.now on.now }
{
    match group.vlan {
        Some(vid) => vid,
        None => on.vid,
    }
}

/// Returns the set `set` without port `port`, 1 to 16, because a bridge never sends a frame back to its ingress port. `flood_ports` calls
/// it.
fn without_port(set: PortSet, port: u8) -> PortSet
    requires from { 1 ≤ port }
    requires to { port ≤ 16 }
    ensures { result ≡ ports.without_port set port }
{
    PortSet::from_bits(set.bits() & !(1 << (port - 1)))
}

/// Returns the egress ports of frames without static entry: the VLAN's `members` except the ingress port `port`. Returns the empty set if
/// `port` isn't a member or the VLAN is missing (`None`). `egress_ports` calls it.
fn flood_ports(members: Option<PortSet>, port: u8) -> PortSet
    requires from { 1 ≤ port }
    requires to { port ≤ 16 }
    ensures { result ≡ output_ports members None port }
{
    match members {
        Some(members) if members.has(port) => without_port(members, port),
        _ => PortSet::from_bits(0),
    }
}

/// Returns the egress ports of a group's frames that arrive on `port`. `on` is this port's plan. `push_port_steps` calls it.
fn egress_ports<A: Allocator + Copy>(
    plan: &Plan<A>,
    group: &FrameGroup,
    on: &PortPlan<A>,
    port: u8,
) -> PortSet
    requires from { 1 ≤ port }
    requires to { port ≤ 16 }
    ensures { result ≡ spec.egress_ports plan.now.database group.now.destination (spec.classified_vlan group.now on.now)
        port }
{
    let vid = classified_vlan(group, on);
    match group.destination {
        Some(address) => plan.forward(port, vid, &address),
        None => flood_ports(find_members(plan.vlans(), vid), port),
    }
}

/// Appends to `steps` the step from ingress port `from` over the link of egress port `port`. Appends nothing if `outs` lacks the port or
/// the port is open. `push_steps_over_links` calls it.
fn push_step_over_link<A: Allocator + Copy>(
    steps: &mut Vec<Step, A>,
    links: &[Link],
    from: BridgePort,
    outs: PortSet,
    port: u8,
) -> Result<(), NoMemory>
    requires from { 1 ≤ port }
    requires to { port ≤ 16 }
    ensures { OnOk result (steps.new.items ≡ steps.old.items ++ steps_over_link links.now from outs port) }
{
    if !outs.has(port) {
        return Ok(());
    }
    if let Some(end) = peer_port(links, from.bridge, port) {
        steps.push(Step { from, to: end })?;
    }
    Ok(())
}

/// Appends to `steps` the steps from the ingress port `from` over the links of the egress ports in `outs`. `push_steps_if_any` calls it.
fn push_steps_over_links<A: Allocator + Copy>(
    steps: &mut Vec<Step, A>,
    links: &[Link],
    from: BridgePort,
    outs: PortSet,
) -> Result<(), NoMemory>
    ensures { OnOk result (steps.new.items ≡ steps.old.items ++ steps_over_links links.now from outs) }
{
    for i in 0..16u8 {
        push_step_over_link(steps, links, from, outs, i + 1)?;
    }
    Ok(())
}

/// Appends to `steps` the steps from ingress port `from` over the links of the egress ports in `outs`. Returns at once if the set is empty,
/// to save time. `push_port_steps` calls it.
fn push_steps_if_any<A: Allocator + Copy>(
    steps: &mut Vec<Step, A>,
    links: &[Link],
    from: BridgePort,
    outs: PortSet,
) -> Result<(), NoMemory>
    ensures { OnOk result (steps.new.items ≡ steps.old.items ++ steps_over_links links.now from outs) }
{
    if outs.bits() == 0 {
        return Ok(());
    }
    push_steps_over_links(steps, links, from, outs)
}

/// Appends to `steps` the steps of the group's frames that arrive on port `port` of bridge `bridge`; none if the port is missing.
/// `push_bridge_steps` calls it.
fn push_port_steps<A: Allocator + Copy>(
    steps: &mut Vec<Step, A>,
    links: &[Link],
    group: &FrameGroup,
    bridge: u16,
    plan: &Plan<A>,
    port: u8,
) -> Result<(), NoMemory>
    requires from { 1 ≤ port }
    requires to { port ≤ 16 }
    ensures { OnOk result (steps.new.items ≡ steps.old.items
        ++ steps_of_port links.now group.now bridge plan.now port (find_port plan.now.ports port)) }
{
    match plan.port(port) {
        Some(on) => {
            let outs = egress_ports(plan, group, on, port);
            push_steps_if_any(steps, links, BridgePort { bridge, port }, outs)
        }
        None => Ok(()),
    }
}

/// Appends to `steps` the steps of the group's frames that arrive at bridge `bridge`, on any port. `group_steps` calls it.
fn push_bridge_steps<A: Allocator + Copy>(
    steps: &mut Vec<Step, A>,
    links: &[Link],
    group: &FrameGroup,
    bridge: u16,
    plan: &Plan<A>,
) -> Result<(), NoMemory>
    ensures { OnOk result (steps.new.items ≡ steps.old.items ++ steps_of_bridge links.now group.now bridge plan.now) }
{
    for i in 0..16u8 {
        push_port_steps(steps, links, group, bridge, plan, i + 1)?;
    }
    Ok(())
}

/// Returns the steps of a group's frames: from each port of arrival to the next ports of arrival. `group_loop_port` calls it.
pub(crate) fn group_steps<A: Allocator + Copy>(
    alloc: A,
    plans: &[Accepted<A>],
    links: &[Link],
    group: &FrameGroup,
) -> Result<Vec<Step, A>, NoMemory>
    requires few { length plans.now ≤ 65535 }
    ensures { IfOk result (λ steps. steps.items ≡ group_steps links.now group.now 0 plans.now) }
{
    let mut steps = Vec::new(alloc);
    for place in 0..plans.len() {
        push_bridge_steps(&mut steps, links, group, place as u16, plans[place].plan())?;
    }
    Ok(steps)
}
