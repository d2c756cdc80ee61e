//! Intervals in which a stream gate is open, for delay bounds of its filter.
ghost use Rattle.std.specs.Prelude.{◌≡◌, ◌+◌, ◌<◌, ◌≤◌, ◌*◌, IfSome, Some};
ghost use Rattle.bridge_cycle.specs.Cyclic.{IsLawful};
ghost use Rattle.bridge_groups.specs.GateIntervals as spec;
ghost use Rattle.bridge_groups.specs.GateIntervals.{IsNextOpening, IsTurnStart};

use bridge_cycle::{CyclicList, Timeline, Turn};
use bridge_gate::GateEntry;
use std::alloc::Allocator;

/// Interval in which a stream gate is open, as searches of delays visit it.
#[derive(Clone, Copy)]
pub(crate) struct Opening {
    /// Time in ns at which the interval starts.
    pub(crate) start: u64,
    /// Interval of the gate control list, with its state and its end.
    pub(crate) turn: Turn<GateEntry>,
}

impl Opening {
    /// Returns the last time in ns at which the gate is open.
    pub(crate) fn last(&self) -> u64
        requires { 1 ≤ self.now.turn.end }
        ensures { result + 1 ≡ self.now.turn.end }
    {
        self.turn.end - 1
    }
}

/// Returns the first open interval that starts at time `from` or later. An interval must start at `from`. Returns `None` if the gate stays
/// closed for a whole cycle. `visit_openings` and `gate_delay_bound` call it.
pub(crate) fn next_opening<A: Allocator + Copy>(
    list: &CyclicList<GateEntry, A>,
    from: u64,
) -> Option<Opening>
    requires from { from ≤ 7_000_000_000_000_000_000 }
    requires lawful { IsLawful list.now }
    requires starts { IsTurnStart list.now from }
    ensures next { IfSome result (IsNextOpening list.now from) }
    ensures soon { IfSome result (λ o. o.start < from + list.now.cycle) }
{
    let end = from + list.cycle();
    let mut seen = from;
    while seen < end {
        let turn = list.turn(seen);
        if turn.state.lets {
            return Some(Opening { start: seen, turn });
        }
        seen = turn.end;
    }
    None
}

/// Returns the most transmission time in ns of the frames that pass in an interval. Each `share` octets of their SDUs take at most `least`
/// ns. Returns 0 without an octet limit. `add_interval` calls it.
pub(crate) fn turn_work(turn: &Turn<GateEntry>, least: u64, share: u64) -> u64
    requires least { least ≤ 200_000 }
    requires share { 1 ≤ share }
    ensures work { result ≡ spec.turn_work least share (Some turn.now) }
    ensures few { result ≤ least * 4_294_967_295 }
{
    if !turn.state.lets {
        return 0;
    }
    match turn.state.octets {
        None => 0,
        Some(octets) => least * u64::from(octets) / share,
    }
}
