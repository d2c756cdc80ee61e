//! Computes the hypercycle: the time after which all cycles of a plan begin together again. Warnings and pictures use it.

use bridge_config::Plan;
use bridge_cycle::{Egress, Joined, Timeline};
use bridge_gate::Schedule;
use std::alloc::Allocator;

/// Returns the greatest common divisor of two times in ns. One of them is a cycle of at most 10^9 ns, so 64 steps suffice.
/// `cycles_until_aligned` and `include_cycle` call it.
fn greatest_common_divisor(one: u64, other: u64) -> u64 {
    let mut larger = one;
    let mut smaller = other;
    for _step in 0..64u8 {
        if smaller == 0 {
            return larger;
        }
        let rest = larger % smaller;
        larger = smaller;
        smaller = rest;
    }
    larger
}

/// Returns after how many cycles of `cycle` ns both cycles, of `cycle` and `port_cycle` ns, begin together again; 0 if both are 0.
/// `aligned_period` and `waits_by_cycle` call it.
pub(crate) fn cycles_until_aligned(port_cycle: u64, cycle: u64) -> u64 {
    let divisor = greatest_common_divisor(port_cycle, cycle);
    if divisor == 0 {
        0
    } else {
        port_cycle / divisor
    }
}

/// Returns the least common multiple of the cycle times `cycle` and `port_cycle` in ns, at most 2^64 - 1, for a warning about cycles.
///
/// `find_cycles` calls it, and adds no warning for `None`: one cycle time is a multiple of the other, or 0.
pub(crate) fn aligned_period(cycle: u64, port_cycle: u64) -> Option<u64> {
    if cycle == 0 || port_cycle == 0 || cycle % port_cycle == 0 || port_cycle % cycle == 0 {
        return None;
    }
    Some(cycles_until_aligned(port_cycle, cycle).saturating_mul(cycle))
}

/// Time `length` in ns after which all lists of a plan begin together again: 0 without lists, at most 2^64 - 1. `change` is the time of the
/// schedule change.
#[derive(Clone, Copy)]
pub struct Hypercycle {
    pub length: u64,
    pub change: Option<u64>,
}

impl Hypercycle {
    /// Computes the hypercycle of a plan's lists: pictures of plans show this time by default. `idle_change`, `put_late` of `app_commands`
    /// and 2 more call it.
    pub fn from_plan<A: Allocator + Copy>(plan: &Plan<A>) -> Hypercycle {
        let mut times = Hypercycle {
            length: 0,
            change: None,
        };
        for port in plan.ports() {
            match &port.list {
                None => {}
                Some(Egress::Cyclic(list)) => times.include_cycle(list.cycle()),
                Some(Egress::Joined(lists)) => times.include_changing(lists),
            }
        }
        for gate in plan.gates() {
            match &gate.1.schedule {
                Schedule::Fixed { .. } => {}
                Schedule::Cyclic(list) => times.include_cycle(list.cycle()),
                Schedule::Joined(lists) => times.include_changing(lists),
            }
        }
        times
    }

    /// Includes a list with cycle time `cycle` in ns: the length becomes the least common multiple, or stays at its greatest value.
    /// `from_plan` and `include_changing` call it.
    fn include_cycle(&mut self, cycle: u64) {
        self.length = match self.length {
            0 | u64::MAX => self.length.max(cycle),
            one => (one / greatest_common_divisor(one, cycle).max(1)).saturating_mul(cycle),
        };
    }

    /// Includes the old and the new list of a schedule change. `from_plan` calls it.
    fn include_changing<S: Copy, A: Allocator + Copy>(&mut self, lists: &Joined<S, A>) {
        let (old, new) = lists.lists();
        self.include_cycle(old.cycle());
        self.include_cycle(new.cycle());
        self.change = self.change.or(Some(lists.change_time()));
    }
}
