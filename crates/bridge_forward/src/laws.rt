//! Laws of forwarding. Each law is the contract of a function without a body.

ghost use Rattle.std.specs.Prelude.{◌≡◌, ◌≤◌, ◌<◌, ◌^◌, ℕ, List, None, true, false};
ghost use Rattle.bridge_forward.specs.Ports.{has_port};
ghost use Rattle.bridge_forward.specs.Database.{Database, vlan_members};
ghost use Rattle.bridge_forward.specs.Forward.{forward};
ghost use Rattle.bridge_forward.specs.PortRule.{is_output, is_member};

/// A frame leaves on port `q` exactly if `is_output`, the rule for single ports, is true. The rule compares reserved addresses, members of
/// the VLAN, the ingress port and the static entry.
///
/// Proofs then argue about one port.
pub fn forward_is_port_rule()
    ensures { (db : Database) (port vid : ℕ) (da : List ℕ) (q : ℕ)
        → 1 ≤ port
        → port ≤ 16
        → 1 ≤ q
        → q ≤ 16
        → has_port (forward db port vid da) q ≡ is_output db port vid da q }
{}

/// A frame goes only to members of its VLAN. So VLANs stay separate.
pub fn outputs_are_members()
    ensures { (db : Database) (port vid : ℕ) (da : List ℕ) (q : ℕ)
        → has_port (forward db port vid da) q ≡ true
        → is_member db vid q ≡ true }
{}

/// A frame never returns to its ingress port. So a sender doesn't get its frame back.
pub fn ingress_is_no_output()
    ensures { (db : Database) (port vid : ℕ) (da : List ℕ)
        → 1 ≤ port
        → port ≤ 16
        → has_port (forward db port vid da) port ≡ false }
{}

/// A frame in an unknown VLAN goes to no port. So a plan needs no entry against other VLANs.
pub fn no_vlan_no_outputs()
    ensures { (db : Database) (port vid : ℕ) (da : List ℕ)
        → vlan_members db.vlans vid ≡ None
        → forward db port vid da ≡ 0 }
{}

/// The egress ports are a set of the ports 1 to 16. So callers that visit ports 1 to 16 miss none.
pub fn outputs_fit()
    ensures { (db : Database) (port vid : ℕ) (da : List ℕ) → forward db port vid da < 2 ^ 16 }
{}
