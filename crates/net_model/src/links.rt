//! Links of a network, and hops of its streams, in the form that `check_network` accepts.
ghost use Rattle.std.specs.Prelude.{◌≡◌, option_map};
ghost use Rattle.net_model.specs.Networks as networks;
ghost use Rattle.net_model.specs.ClosedTest as accepting;
ghost use Rattle.net_model.specs.NetworkParts.{end_value, peer_port, stream_value};

/// Bridge port: a port of one bridge of a network. The bridge is given by its index, from 0.
#[derive(Clone, Copy, Debug, PartialEq, Eq)]
pub struct BridgePort {
    /// Index of the bridge, from 0.
    pub bridge: u16,
    /// Port number, 1 to 16.
    pub port: u8,
}

/// Full-duplex link between two bridge ports, with its delay in ns.
#[derive(Clone, Copy)]
pub struct Link {
    /// Port at one end.
    pub one: BridgePort,
    /// Port at the other end.
    pub other: BridgePort,
    /// Delay of a frame in either direction, in ns.
    pub delay: u64,
}

/// Hop of a stream: a protected stream filter of one bridge, by the bridge's index, from 0, and the filter's number.
#[derive(Clone, Copy, Debug, PartialEq, Eq)]
pub struct StreamHop {
    pub bridge: u16,
    pub filter: u32,
}

/// Returns whether `end` is port `port` of the bridge with index `bridge`. `peer_port` and searches for a link's delay compare both ends by
/// it.
pub fn is_bridge_port(end: BridgePort, bridge: u16, port: u8) -> bool
    ensures { result ≡ networks.is_bridge_port (end_value end) bridge port }
{
    end.bridge == bridge && end.port == port
}

/// Returns the bridge port at the other end of the link of port `port`, or `None` for an open port. The first link of the port decides.
///
/// `push_step_over_link`, `hop_over_link` of `net_check` and 6 more call it.
pub fn peer_port(links: &[Link], bridge: u16, port: u8) -> Option<BridgePort>
    ensures { option_map end_value result ≡ peer_port links.now bridge port }
{
    for link in links {
        if is_bridge_port(link.one, bridge, port) {
            return Some(link.other);
        }
        if is_bridge_port(link.other, bridge, port) {
            return Some(link.one);
        }
    }
    None
}

/// Returns whether `stream` has a hop with filter `filter` at the bridge with index `bridge`. Tests of hops and warnings of `net check`
/// call it.
pub(crate) fn has_hop(stream: &[StreamHop], bridge: u16, filter: u32) -> bool
    ensures { result ≡ accepting.has_hop (stream_value stream.now) bridge filter }
{
    for hop in stream {
        if hop.bridge == bridge && hop.filter == filter {
            return true;
        }
    }
    false
}
