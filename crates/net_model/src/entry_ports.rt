//! Ports of a bridge on which stream entries give a handle. The tests of a hop need a flag for each of 16 ports, so the flags are computed
//! once for the hop.
ghost use Rattle.std.specs.Prelude.{◌≡◌, ◌||◌, ◌+◌, false, nat_eq, slice_index_or};
ghost use Rattle.bridge_check.specs.ReachTables.{test_results};
ghost use Rattle.net_model.specs.Faults.{has_entry};

use bridge_config::Plan;
use std::alloc::Allocator;

/// Sets the flag of port `port`, 1 to 16. `ports` has one flag for each port: index 0 is port 1. `entry_ports` calls it for each entry of
/// the handle.
fn mark_port(ports: &mut [bool; 16], port: u8)
    ensures { ports.new ≡ test_results 16 (λ i. slice_index_or ports.old i false || nat_eq port (i + 1)) }
{
    for i in 0..16usize {
        ports[i] = ports[i] || port == i as u8 + 1;
    }
}

/// Returns a flag for each port, from port 1: whether a stream entry of the plan has this port and handle `handle`. The tests of a hop call
/// it once.
pub(crate) fn entry_ports<A: Allocator + Copy>(plan: &Plan<A>, handle: u32) -> [bool; 16]
    ensures { result ≡ test_results 16 (λ i. has_entry plan.now (i + 1) handle) }
{
    let mut ports = [false; 16];
    for entry in plan.streams() {
        if entry.handle == handle {
            mark_port(&mut ports, entry.port);
        }
    }
    ports
}
