//! Waiting times of frames that arrive between two phases, by the transmission gates of their port. In this file, `occ` is a frame's
//! transmission time in ns.
ghost use Rattle.std.specs.Prelude.{◌≡◌, ◌+◌, ◌<◌, ◌≤◌, MatchOption, true, false};
ghost use Rattle.bridge_limits.specs.declared.TheConstants.{END_OF_TIME};
ghost use Rattle.bridge_cycle.specs.Cyclic.{IsLawful};
ghost use Rattle.bridge_cycle.specs.Fits.{IsFirstFit};
ghost use Rattle.bridge_port.specs.GateSchedule.{One, can_fit, list_can_fit, list_opens, gate_schedule};
ghost use Rattle.bridge_bounds.specs.Traffic.{IsTraffic};
ghost use Rattle.bridge_bounds.specs.Waits.{AreWaits, IsLongestWait, has_period};

use crate::traffic::Traffic;
use bridge_cycle::{CyclicList, Egress, LONGEST_CYCLE, Timeline, first_fit};
use std::alloc::Allocator;

/// First fits and longest wait of frames that arrive between two phases, in ns.
#[derive(Clone, Copy)]
pub(crate) struct Waits {
    /// First fit in ns of the shortest frame, from the traffic's first phase on.
    pub first: u64,
    /// First fit in ns of the longest frame, from the traffic's last phase on.
    pub last: u64,
    /// Longest wait in ns of a longest frame that arrives between the two phases.
    pub longest: u64,
}

/// Returns the first time in ns, from `from` on, at which a frame with transmission time `occ` ns fits. The list must have a window for it.
/// `longest_wait` and `list_waits` call it.
fn first_fit_time<A: Allocator + Copy>(
    list: &CyclicList<u8, A>,
    class: u8,
    occ: u64,
    from: u64,
) -> u64
    requires class { class < 8 }
    requires occ { occ ≤ LONGEST_CYCLE }
    requires from { from ≤ END_OF_TIME }
    requires lawful { IsLawful list.now }
    requires ever { list_can_fit list.now class occ ≡ true }
    ensures first { IsFirstFit (list_opens list.now class) occ from result }
    ensures soon { result ≤ from + LONGEST_CYCLE }
{
    first_fit(list, class, occ, from)
}

/// Returns the longest wait in ns of a frame that arrives from `from` to `to`. A wait is longest at `from`, or 1 ns after a window's last
/// fit. Examines at most one cycle.
///
/// `list_waits` calls it.
fn longest_wait<A: Allocator + Copy>(
    list: &CyclicList<u8, A>,
    class: u8,
    occ: u64,
    from: u64,
    to: u64,
) -> u64
    requires class { class < 8 }
    requires some { 1 ≤ occ }
    requires occ { occ ≤ LONGEST_CYCLE }
    requires phases { from ≤ to }
    requires to { to ≤ END_OF_TIME }
    requires lawful { IsLawful list.now }
    requires ever { list_can_fit list.now class occ ≡ true }
    ensures longest { IsLongestWait (list_opens list.now class) occ from to result }
    ensures bounded { result ≤ LONGEST_CYCLE }
{
    let end = to.min(from + list.cycle()) + (occ - 1);
    let mut longest = first_fit_time(list, class, occ, from) - from;
    let mut seen = from + (occ - 1);
    while seen < end {
        seen = list.turn(seen).end;
        let behind = (seen - (occ - 1)).min(to);
        longest = longest.max(first_fit_time(list, class, occ, behind) - behind);
    }
    longest
}

/// Returns first fits and longest wait under one gate control list, for transmission times from `short` to `long` ns. `port_waits` calls it
/// if the cycle time divides the talker's period.
fn list_waits<A: Allocator + Copy>(
    list: &CyclicList<u8, A>,
    class: u8,
    short: u64,
    long: u64,
    traffic: &Traffic,
) -> Waits
    requires class { class < 8 }
    requires some { 1 ≤ short }
    requires lengths { short ≤ long }
    requires long { long ≤ LONGEST_CYCLE }
    requires traffic { IsTraffic traffic.now }
    requires lawful { IsLawful list.now }
    requires ever { list_can_fit list.now class long ≡ true }
    ensures waits { AreWaits (One list.now) class short long traffic.now result }
    ensures last { result.last ≤ traffic.now.to + LONGEST_CYCLE }
    ensures longest { result.longest ≤ LONGEST_CYCLE }
{
    Waits {
        first: first_fit_time(list, class, short, traffic.from),
        last: first_fit_time(list, class, long, traffic.to),
        longest: longest_wait(list, class, long, traffic.from, traffic.to),
    }
}

/// Returns the fits and waits at a port for transmission times from `short` to `long` ns. Returns `None` if the lists don't repeat with the
/// period. `timing_by_lists` calls it.
pub(crate) fn port_waits<A: Allocator + Copy>(
    lists: &Option<Egress<A>>,
    class: u8,
    short: u64,
    long: u64,
    traffic: &Traffic,
) -> Option<Waits>
    requires class { class < 8 }
    requires some { 1 ≤ short }
    requires lengths { short ≤ long }
    requires long { long ≤ LONGEST_CYCLE }
    requires traffic { IsTraffic traffic.now }
    requires ever { can_fit (gate_schedule lists.now) class long ≡ true }
    ensures waits { MatchOption result (has_period traffic.now.period (gate_schedule lists.now)
        ≡ false) (AreWaits (gate_schedule lists.now) class short long traffic.now) }
    ensures repeats { MatchOption result (has_period traffic.now.period (gate_schedule lists.now)
        ≡ false) (λ _. has_period traffic.now.period (gate_schedule lists.now) ≡ true) }
    ensures last { MatchOption result (has_period traffic.now.period (gate_schedule lists.now) ≡ false) (λ w. w.last
        ≤ traffic.now.to + LONGEST_CYCLE) }
    ensures longest { MatchOption result (has_period traffic.now.period (gate_schedule lists.now)
        ≡ false) (λ w. w.longest ≤ LONGEST_CYCLE) }
{
    match lists {
        None => Some(Waits {
            first: traffic.from,
            last: traffic.to,
            longest: 0,
        }),
        Some(Egress::Cyclic(list)) if traffic.period % list.cycle() == 0 => {
            Some(list_waits(list, class, short, long, traffic))
        }
        _ => None,
    }
}
