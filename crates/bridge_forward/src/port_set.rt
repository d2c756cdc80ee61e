//! Set of a bridge's ports, with one bit for each port.

ghost use Rattle.std.specs.Prelude.{◌≡◌, ◌≤◌, ◌↔◌, IsTrue, bit_and};
ghost use Rattle.bridge_forward.specs.Ports.{has_port, without_port, IsEmpty};

use std::marker::Model;

/// Set of the ports 1 to 16. In contracts, a set is a number whose bit n - 1 is 1 exactly if port n is in the set.
#[derive(Clone, Copy, Debug, PartialEq, Eq)]
pub struct PortSet {
    /// Bit n - 1 is 1 if port n is in the set.
    bits: u16,
}

impl Model for PortSet {
    ghost use Rattle.std.specs.Prelude.{ℕ};

    ghost Value = { ℕ };

    ghost view = { λ s. s.bits };

    ghost inverse = { λ n. record { bits = n } };
}

/// Whether the set of these bits contains none of the ports 1 to 16. `is_empty` calls it.
fn has_no_port(bits: u16) -> bool
    ensures { IsTrue result ↔ IsEmpty bits }
{
    bits == 0
}

impl PortSet {
    /// Makes a set of bits: bit n - 1 is 1 if port n is in the set. `output_ports`, `read_static` of `bridge_config` and 4 more call it.
    pub fn from_bits(bits: u16) -> PortSet
        ensures { result ≡ bits }
    {
        PortSet { bits }
    }

    /// Returns the bits of the set: bit n - 1 is 1 if port n is in the set. Functions of `bridge_relay` and `net_model` call it.
    pub fn bits(self) -> u16
        ensures { result ≡ self }
    {
        self.bits
    }

    /// Whether the set contains `port`. Bridges, checks of plans and warnings call it.
    pub fn has(self, port: u8) -> bool
        requires from { 1 ≤ port }
        requires to { port ≤ 16 }
        ensures { result ≡ has_port self port }
    {
        self.bits >> (port - 1) & 1 == 1
    }

    /// Whether the set contains none of the ports 1 to 16. A frame without egress ports isn't forwarded.
    pub fn is_empty(self) -> bool
        ensures { IsTrue result ↔ IsEmpty self }
    {
        has_no_port(self.bits)
    }

    /// Returns the ports in both sets: the VLAN's members that a static entry allows. `output_ports` calls it.
    pub(crate) fn intersection(self, other: PortSet) -> PortSet
        ensures { result ≡ bit_and self other }
    {
        PortSet {
            bits: self.bits & other.bits,
        }
    }

    /// Returns the set without `port`: a frame never returns to its ingress port. `output_ports` calls it.
    pub(crate) fn without_port(self, port: u8) -> PortSet
        requires from { 1 ≤ port }
        requires to { port ≤ 16 }
        ensures { result ≡ without_port self port }
    {
        PortSet {
            bits: self.bits & !(1 << (port - 1)),
        }
    }
}
