//! The reason for which `net check` refuses a network, and its number.
ghost use Rattle.std.specs.Prelude.{◌≡◌};
ghost use Rattle.net_model.specs.FaultCodes.{fault_code};

use crate::links::BridgePort;
use thiserror::Error;

/// Reason for which `check_network` refuses a network. The variants follow the order of the tests. Links, streams and a stream's hops are
/// counted from 1.
#[derive(Clone, Copy, Debug, PartialEq, Eq, Error)]
pub enum NetworkFault {
    /// The link names a missing bridge or port.
    #[error("a link to an unknown bridge or port")]
    Unresolved {
        link: usize,
    },
    /// The port `end` of the link has an earlier link, or the link joins this port to itself.
    #[error("a port with two links")]
    LinkTwice {
        link: usize,
        end: BridgePort,
    },
    /// The ports at the link's ends have different speeds.
    #[error("a link of ports with two speeds")]
    SpeedsDiffer {
        link: usize,
    },
    /// The hop names a missing bridge or filter, or an unprotected filter.
    #[error("a hop that isn't a protected filter")]
    NotProtected {
        stream: usize,
        hop: usize,
    },
    /// An earlier hop, in an earlier stream or in the same stream, has the bridge and filter of this hop.
    #[error("a repeated hop")]
    HopTwice {
        stream: usize,
        hop: usize,
    },
    /// The hop accepts stray frames over the link of port `port` of `bridge`. They arrive on port `from` of the bridge at the link's other
    /// end. `filter` passes them there (`None`: unfiltered).
    #[error("a hop that accepts stray frames over a link")]
    NotClosed {
        stream: usize,
        hop: usize,
        bridge: u16,
        port: u8,
        filter: Option<u32>,
        from: u8,
    },
    /// No frame of the stream can reach the hop: from outside if the hop is the first one, otherwise over a link.
    #[error("a hop that no frame of its stream can reach")]
    NotFed {
        stream: usize,
        hop: usize,
    },
}

impl NetworkFault {
    /// Returns the fault's number among the faults of a network file: 9 if a bridge or port is missing, otherwise 13 to 18. Proofs and
    /// contracts use it.
    pub fn number(self) -> u8
        ensures { result ≡ fault_code self }
    {
        match self {
            NetworkFault::Unresolved { .. } => 9,
            NetworkFault::LinkTwice { .. } => 13,
            NetworkFault::SpeedsDiffer { .. } => 14,
            NetworkFault::NotProtected { .. } => 15,
            NetworkFault::HopTwice { .. } => 16,
            NetworkFault::NotClosed { .. } => 17,
            NetworkFault::NotFed { .. } => 18,
        }
    }
}
