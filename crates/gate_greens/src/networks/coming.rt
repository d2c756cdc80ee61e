//! Makes the captures of frames that arrive at the open ports of a network.
ghost use Rattle.std.specs.Prelude.{IfOk};
ghost use Rattle.net_run.specs.BridgeRuns.{IsBridgeInput};
ghost use Rattle.net_run.specs.Rounds.{AreBridgeInputs};
ghost use Rattle.gate_greens.specs.Coming.{AllIncoming};

use crate::frames::{Addresses, Frame, sorted_capture, tagged_head, untagged_head};
use crate::networks::drawing::is_cabled;
use crate::networks::shape::{Net, Route, Twist};
use crate::numbers::Numbers;
use bridge_check::Accepted;
use bridge_limits::NoMemory;
use net_run::BridgeInput;
use std::alloc::Global;

/// Last octet of a destination for which no plan has a `static` entry.
const UNLISTED: u64 = 0x40;

/// Last octet of a hostile talker's source address, before its port number is added.
const HOSTILE: u64 = 0x80;

/// Returns the last octet of the stream's destination.
fn stream_address(route: &Route) -> u64 {
    route.place.saturating_add(10)
}

/// Whether `port` of `bridge` is the talker's port.
fn is_talker(route: &Route, bridge: u64, port: u64) -> bool {
    match route.hops.first() {
        Some(first) => first.bridge == bridge && first.ingress == port,
        None => false,
    }
}

/// Adds the frames of a stream's talker: at most one in each period.
fn add_periodic(
    numbers: &mut Numbers,
    net: &Net,
    route: &Route,
    frames: &mut Vec<Frame>,
) -> Result<(), NoMemory> {
    let address = stream_address(route);
    let addresses = Addresses {
        to: address,
        from: address,
    };
    for index in 0..numbers.between(6, 12) {
        let phase = numbers.between_ends(route.from, route.to);
        let at = index.saturating_mul(net.period).saturating_add(phase);
        let len = numbers.between_ends(route.least, route.longest);
        let priority = numbers.below(8);
        if !numbers.is_drawn(6) {
            let head = tagged_head(addresses, address, priority);
            frames.push(Frame { at, len, head })?;
        }
    }
    Ok(())
}

/// Whether `bridge` and `port` are the talker's port of a stream with destination `to`.
fn is_own(net: &Net, to: u64, bridge: u64, port: u64) -> bool {
    let mut is_own = false;
    for route in &net.routes {
        is_own = is_own || (stream_address(route) == to && is_talker(route, bridge, port));
    }
    is_own
}

/// Returns the first octets of a hostile frame.
fn hostile_head(numbers: &mut Numbers, net: &Net, bridge: u64, port: u64) -> [u8; 18] {
    let to = numbers.pick(&[10, 10, 11, UNLISTED]);
    let addresses = Addresses {
        to,
        from: HOSTILE.saturating_add(port),
    };
    let priority = numbers.below(8);
    match numbers.below(4) {
        0 => untagged_head(addresses),
        1 => tagged_head(addresses, numbers.pick(&[0, 1]), priority),
        _ => {
            if is_own(net, to, bridge, port) {
                tagged_head(addresses, 30, priority)
            } else {
                tagged_head(addresses, numbers.pick(&[10, 11, to]), priority)
            }
        }
    }
}

/// Adds at most 19 hostile frames at random times within ten periods.
fn add_hostile(
    numbers: &mut Numbers,
    net: &Net,
    bridge: u64,
    port: u64,
    frames: &mut Vec<Frame>,
) -> Result<(), NoMemory> {
    for _ in 0..numbers.below(20) {
        let at = numbers.below(net.period.saturating_mul(10));
        let head = hostile_head(numbers, net, bridge, port);
        let len = numbers.pick(&[60, 60, 124, 300, 1_514]);
        frames.push(Frame { at, len, head })?;
    }
    Ok(())
}

/// Returns the capture of an open port: frames of its talkers, and mostly hostile frames.
fn open_capture(
    alloc: Global,
    numbers: &mut Numbers,
    net: &Net,
    bridge: u64,
    port: u64,
) -> Result<Vec<u8>, NoMemory> {
    let mut frames = Vec::new(alloc);
    for route in &net.routes {
        if is_talker(route, bridge, port) {
            add_periodic(numbers, net, route, &mut frames)?;
        }
    }
    let has_further = net.twist == Twist::FurtherPort || net.twist == Twist::FurtherTalker;
    let is_loud = has_further || !numbers.is_drawn(4);
    if is_loud {
        add_hostile(numbers, net, bridge, port, &mut frames)?;
    }
    sorted_capture(alloc, &mut frames)
}

/// Returns the captures of ports 1 to 4. A linked port's capture stays empty, because no run reads it.
fn input_captures(
    alloc: Global,
    numbers: &mut Numbers,
    net: &Net,
    bridge: u64,
) -> Result<Vec<Vec<u8>>, NoMemory> {
    let mut captures = Vec::new(alloc);
    for port in 1..5u64 {
        let capture = if is_cabled(net, bridge, port) {
            Vec::new(alloc)
        } else {
            open_capture(alloc, numbers, net, bridge, port)?
        };
        captures.push(capture)?;
    }
    Ok(captures)
}

/// Returns the input of a bridge with four ports: captures, and no commands.
#[tactic(auto, using(crate::proofs::NoCommands::none))]
fn network_inputs(
    alloc: Global,
    numbers: &mut Numbers,
    net: &Net,
    accepted: &Accepted<Global>,
    bridge: u64,
) -> Result<BridgeInput<Global>, NoMemory>
    ensures { IfOk result (IsBridgeInput accepted.now) }
{
    let commands = Vec::new(alloc);
    let captures = input_captures(alloc, numbers, net, bridge)?;
    if captures.len() != accepted.plan().ports().len() {
        return Err(NoMemory);
    }
    Ok(BridgeInput { commands, captures })
}

/// Returns the input of each plan's bridge.
fn each_coming(
    alloc: Global,
    numbers: &mut Numbers,
    net: &Net,
    plans: &[Accepted<Global>],
) -> Result<Vec<BridgeInput<Global>>, NoMemory>
    ensures { IfOk result (λ all. AllIncoming plans.now all.items) }
{
    let mut all = Vec::new(alloc);
    let mut bridge = 0u64;
    for accepted in plans {
        let came = network_inputs(alloc, numbers, net, accepted, bridge)?;
        let Ok(()) = all.push(came) else {
            return Err(NoMemory);
        };
        bridge = bridge.saturating_add(1);
    }
    Ok(all)
}

/// Returns the inputs of all bridges, as a network run requires them.
pub fn all_coming(
    alloc: Global,
    numbers: &mut Numbers,
    net: &Net,
    plans: &[Accepted<Global>],
) -> Result<Vec<BridgeInput<Global>>, NoMemory>
    ensures { IfOk result (λ all. AreBridgeInputs plans.now all.items) }
{
    let all = each_coming(alloc, numbers, net, plans)?;
    Ok(all)
}
