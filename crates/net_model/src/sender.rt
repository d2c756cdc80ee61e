//! Search for the bridge port that sends to a given port, for network runs and their reports.
ghost use Rattle.std.specs.Prelude.{◌≡◌, map, option_map};
ghost use Rattle.net_model.specs.Networks as networks;
ghost use Rattle.net_model.specs.NetworkParts.{end_value, link_value, sender_value};

use crate::links::{BridgePort, Link};

/// Bridge port at the other end of a port's link, and the delay of the link in ns. `find_sender` returns it.
#[derive(Clone, Copy)]
pub struct Sender {
    pub from: BridgePort,
    pub delay: u64,
}

/// Returns the other end of the port's first link, with the link's delay, or `None` for an open port. `bridge` is the bridge's index, from
/// 0. `has_next_hop` of `net_report`, `is_linked` of `net_run` and 3 more call it.
pub fn find_sender(links: &[Link], bridge: usize, port: u8) -> Option<Sender>
    ensures { option_map sender_value result ≡ networks.sender (map link_value links.now) bridge port }
{
    for link in links {
        if is_bridge_port(link.one, bridge, port) {
            return Some(Sender {
                from: link.other,
                delay: link.delay,
            });
        }
        if is_bridge_port(link.other, bridge, port) {
            return Some(Sender {
                from: link.one,
                delay: link.delay,
            });
        }
    }
    None
}

/// Returns whether `end` is port `port` of the bridge with index `bridge`. Callers of `find_sender` have `usize` indexes, so this function
/// compares `usize`.
fn is_bridge_port(end: BridgePort, bridge: usize, port: u8) -> bool
    ensures { result ≡ networks.is_bridge_port (end_value end) bridge port }
{
    end.bridge as usize == bridge && end.port == port
}
