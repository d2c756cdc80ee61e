//! Ports of a stream's bridges that lead to a next hop, in a network run. Copies that leave by other ports count as delivered.
ghost use Rattle.std.specs.Prelude.{◌≡◌, IfOk, Some, ◌+◌, ◌<◌};
ghost use Rattle.net_report.specs.Hops as spec;

use crate::copy_counting::HopRun;
use bridge_limits::NoMemory;
use net_model::{Link, find_sender};
use std::alloc::Allocator;

/// Returns whether one of these hops is at the bridge with index `bridge`. `has_next_hop` calls it.
fn has_hop_at_bridge<A: Allocator>(hops: &[HopRun<'_, A>], bridge: usize) -> bool
    ensures { result ≡ spec.has_hop_at_bridge hops.now bridge }
{
    hops.iter().any(|hop| hop.bridge == bridge)
}

/// Returns whether a port is linked to a bridge with a hop of the stream. If not, copies that leave by the port count as delivered.
/// `onward_ports` calls it.
pub fn has_next_hop<A: Allocator>(
    links: &[Link],
    hops: &[HopRun<'_, A>],
    bridge: usize,
    port: u8,
) -> bool
    ensures { result ≡ spec.has_next_hop links.now hops.now bridge port }
{
    match find_sender(links, bridge, port) {
        Some(sender) => has_hop_at_bridge(hops, sender.from.bridge as usize),
        None => false,
    }
}

/// Returns for each port of bridge `bridge`, from 1 to 16, whether it leads to a bridge with a hop of the stream. Counts and tables need it
/// for each hop.
pub fn onward_ports<A: Allocator + Copy>(
    alloc: A,
    links: &[Link],
    hops: &[HopRun<'_, A>],
    bridge: usize,
) -> Result<Vec<bool, A>, NoMemory>
    ensures { IfOk result (λ ways. spec.AreOnwardPorts links.now hops.now bridge ways.items) }
{
    let mut ways = Vec::with_capacity(alloc, 16)?;
    for port in 1..17u8 {
        ways.push(has_next_hop(links, hops, bridge, port))?;
    }
    Ok(ways)
}

/// Returns whether a port leads to a hop. `ways` has the results of `onward_ports` for ports 1 to 16. Returns false for other port numbers.
/// Copies that leave by other ports are delivered.
///
/// `departure_fate`, `put_departures` and 2 more call it.
pub(crate) fn is_onward(ways: &[bool], port: u8) -> bool
    ensures { result ≡ spec.is_onward ways.now port }
{
    if port == 0 {
        return false;
    }
    match ways.get(port as usize - 1) {
        Some(on) => *on,
        None => false,
    }
}
