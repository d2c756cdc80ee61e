//! Finds windows that classes share, and frames that fit no window.
ghost use Rattle.std.specs.Prelude.{◌≡◌, ◌<◌, ◌≤◌, Some, not, ◌&&◌, nat_eq};
ghost use Rattle.bridge_cycle.specs.Fits as moments;
ghost use Rattle.bridge_port.specs.GateSchedule.{list_can_fit};
ghost use Rattle.bridge_check.specs.Reach.{some_number_passes};
ghost use Rattle.bridge_check.specs.Windows as spec;

use bridge_config::PortPlan;
use bridge_cycle::{CyclicList, Egress, Timeline, is_open, longest_run};
use bridge_frame::occupation;
use bridge_limits::LONGEST_FRAME;
use std::alloc::Allocator;

/// Whether gate state `state` opens class `class` and another class. `shared_phase` calls it.
fn is_shared(state: u8, class: u8) -> bool
    requires { class < 8 }
    ensures { result ≡ spec.is_shared state class }
{
    is_open(state, class) && has_other_open_class(state, class)
}

/// Whether gate state `state` opens a class other than `class`. `is_shared` calls it.
fn has_other_open_class(state: u8, class: u8) -> bool
    ensures { result ≡ some_number_passes 8 (λ d. not (nat_eq d class) && moments.is_open state d) }
{
    let mut found = false;
    for other in 0..8u8 {
        found = found || (other != class && is_open(state, other));
    }
    found
}

/// Returns the offset in ns of the first entry that opens class `class` together with another class; `None` if no entry does.
/// `port_shared_phase` calls it.
fn shared_phase<A: Allocator + Copy>(list: &CyclicList<u8, A>, class: u8) -> Option<u64>
    requires { class < 8 }
    ensures { result ≡ spec.list_shared_phase list.now class }
{
    let mut start = 0;
    for entry in list.entries() {
        if is_shared(entry.0, class) {
            return Some(start);
        }
        start += entry.1;
    }
    None
}

/// Returns the offset in ns at which the port first opens class `class` together with another class; `None` if it opens the class by
/// itself. The old list precedes the new list.
///
/// A port without a list gives 0. `queue_test_fault` calls it.
pub(crate) fn port_shared_phase<A: Allocator + Copy>(port: &PortPlan<A>, class: u8) -> Option<u64>
    requires { class < 8 }
    ensures { result ≡ spec.port_shared_phase port.now.list class }
{
    match &port.list {
        None => Some(0),
        Some(Egress::Cyclic(list)) => shared_phase(list, class),
        Some(Egress::Joined(joined)) => {
            let (old, new) = joined.lists();
            shared_phase(old, class).or(shared_phase(new, class))
        }
    }
}

/// Whether the longest frame with `sdu` SDU octets fits a window of class `class` in every list of the port. A frame may wait under either
/// list. `queue_test_fault` calls it.
pub(crate) fn can_ever_fit<A: Allocator + Copy>(port: &PortPlan<A>, class: u8, sdu: u32) -> bool
    requires class { class < 8 }
    requires sdu { sdu ≤ 65535 }
    ensures { result ≡ spec.can_ever_fit port.now class sdu }
{
    let occupied = occupation((sdu + 16).min(LONGEST_FRAME), port.speed);
    match &port.list {
        None => true,
        Some(Egress::Cyclic(list)) => can_fit_in_list(list, class, occupied),
        Some(Egress::Joined(joined)) => {
            let (old, new) = joined.lists();
            can_fit_in_list(old, class, occupied) && can_fit_in_list(new, class, occupied)
        }
    }
}

/// Whether `list` has a window of class `class` of at least `occupied` ns. `can_ever_fit` calls it.
fn can_fit_in_list<A: Allocator + Copy>(list: &CyclicList<u8, A>, class: u8, occupied: u64) -> bool
    requires { class < 8 }
    ensures { result ≡ list_can_fit list.now class occupied }
{
    let _ = list.cycle();
    longest_run(list, class).allows(occupied)
}
