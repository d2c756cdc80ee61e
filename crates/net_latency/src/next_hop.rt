//! Search for the other end of a port's link, and for the hop of a stream there. The computation of delays follows a stream's route in this
//! way.
ghost use Rattle.std.specs.Prelude.{◌≡◌, map, option_map};
ghost use Rattle.net_model.specs.Networks.{sender};
ghost use Rattle.net_model.specs.NetworkParts.{link_value};
ghost use Rattle.net_latency.specs.NextHop.{sender_of_far_end, hop_at_bridge, next_hop};

use net_model::{BridgePort, Link, StreamHop, is_bridge_port};

/// Bridge port at the other end of a port's link, and the link's delay.
#[derive(Clone, Copy)]
pub(crate) struct FarEnd {
    /// Bridge port at the other end.
    pub end: BridgePort,
    /// Delay of the link in ns.
    pub delay: u64,
}

/// Next hop on the route of a stream's frames, and the delay of the link that leads there.
#[derive(Clone, Copy)]
pub(crate) struct NextHop {
    /// Hop of the stream.
    pub hop: StreamHop,
    /// Delay of the link to the hop, in ns.
    pub delay: u64,
}

/// Returns the port at the other end of the link of a port, with the link's delay. `bridge` is the index of the port's bridge, from 0.
/// Returns `None` for an open port.
///
/// `is_handed`, `next_hop` and `is_feeder` call it.
pub(crate) fn far_end(links: &[Link], bridge: u16, port: u8) -> Option<FarEnd>
    ensures { option_map sender_of_far_end result ≡ sender (map link_value links.now) bridge port }
{
    for link in links {
        if is_bridge_port(link.one, bridge, port) {
            return Some(FarEnd {
                end: link.other,
                delay: link.delay,
            });
        }
        if is_bridge_port(link.other, bridge, port) {
            return Some(FarEnd {
                end: link.one,
                delay: link.delay,
            });
        }
    }
    None
}

/// Returns the first hop in `hops` at a bridge, or `None` if there is none. `is_handed`, `next_hop` and `is_first_at_bridge` call it.
pub(crate) fn hop_at_bridge(hops: &[StreamHop], bridge: u16) -> Option<StreamHop>
    ensures { result ≡ hop_at_bridge hops.now bridge }
{
    for hop in hops {
        if hop.bridge == bridge {
            return Some(*hop);
        }
    }
    None
}

/// Returns the hop at the other end of the link of port `port` of bridge `bridge`, and the link's delay. Returns `None` without link or
/// hop. `queue_exit` calls it.
pub(crate) fn next_hop(links: &[Link], hops: &[StreamHop], bridge: u16, port: u8) -> Option<NextHop>
    ensures { result ≡ next_hop links.now hops.now bridge port }
{
    let far = far_end(links, bridge, port)?;
    let hop = hop_at_bridge(hops, far.end.bridge)?;
    Some(NextHop {
        hop,
        delay: far.delay,
    })
}
