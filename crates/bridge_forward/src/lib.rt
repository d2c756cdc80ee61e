#![tactic(auto)]
//! Egress ports of frames: the filtering database (static filtering entries of 8.8.1), with ingress filtering always on (IEEE
//! 802.1Q-2018, 8.6.2 to 8.6.4).

ghost use Rattle.std.specs.Prelude.{◌≡◌};
ghost use Rattle.bridge_forward.specs.Database.{vlan_members};

mod forwarding;
pub mod laws;
mod lookup_tables;
mod port_set;

pub use bridge_limits::NoMemory;
pub use forwarding::Forwarding;
pub use port_set::PortSet;

/// VLAN and its member ports (IEEE 802.1Q-2018, 8.8.2).
#[derive(Clone, Copy, Debug, PartialEq, Eq)]
pub struct Vlan {
    /// VLAN identifier.
    pub vid: u16,
    /// Member ports.
    pub members: PortSet,
}

/// Static filtering entry: the egress ports of frames to an address in a VLAN (IEEE 802.1Q-2018, 8.8.1).
#[derive(Clone, Copy, Debug, PartialEq, Eq)]
pub struct StaticEntry {
    /// VLAN identifier.
    pub vid: u16,
    /// Destination address in transmission order.
    pub address: [u8; 6],
    /// Egress ports. Ports outside the VLAN get no frames.
    pub ports: PortSet,
}

/// Returns the member ports of the first VLAN with the identifier `vid`; `None` if no VLAN has it. `egress_ports` of `net_model`,
/// `not_forwarded_cause` of `show_lint` and 2 more call it.
pub fn find_members(vlans: &[Vlan], vid: u16) -> Option<PortSet>
    ensures { result ≡ vlan_members vlans.now vid }
{
    for vlan in vlans {
        if vlan.vid == vid {
            return Some(vlan.members);
        }
    }
    None
}
