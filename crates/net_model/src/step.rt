//! Steps of frames between bridge ports, which the search for forwarding loops follows.
ghost use Rattle.std.specs.Prelude.{◌≡◌};
ghost use Rattle.net_model.specs.Pruning as peeling;

use crate::BridgePort;

/// Step of a frame over one link: from its port of arrival at a bridge to its next port of arrival, at a neighbour.
#[derive(Clone, Copy)]
pub struct Step {
    pub from: BridgePort,
    pub to: BridgePort,
}

/// Returns whether two bridge ports are equal: in bridge index and port number. `is_reached`, `has_outgoing_step` and 2 more call it.
pub(crate) fn is_same_port(a: BridgePort, b: BridgePort) -> bool
    ensures { result ≡ peeling.is_same_port a b }
{
    a.bridge == b.bridge && a.port == b.port
}

/// Returns whether `places` contains port `x`. The search for loops calls it with the ports that it has reached.
pub(crate) fn has_port(places: &[BridgePort], x: BridgePort) -> bool
    ensures { result ≡ peeling.has_port places.now x }
{
    places.iter().any(|place| is_same_port(*place, x))
}
