//! Computes how long frames wait for the transmission gate if they arrive when a stream gate opens, for the warnings `LongWait` and
//! `SmallQueue`.
ghost use Rattle.std.specs.Prelude.{◌≤◌, ◌<◌, ◌+◌};
ghost use Rattle.bridge_cycle.specs.Fits.{IsFirstFit};
ghost use Rattle.bridge_cycle.specs.Runs.{Allows, FitsSoon};
ghost use Rattle.bridge_port.specs.GateSchedule.{list_opens};

use crate::hypercycle::cycles_until_aligned;
use bridge_cycle::{CyclicList, LONGEST_CYCLE, Run, Timeline, first_fit, longest_run};
use std::alloc::Allocator;

/// Largest number of cycles of the stream gate that are examined. It limits the cost if the cycles align late.
const MAX_TURNS: u64 = 16;

/// Latest time in ns at which a wait may begin. Later waits aren't examined, so sums can't overflow.
const LAST_TIME: u64 = 8_000_000_000_000_000_000;

/// Waits in ns of frames that arrive when a stream gate opens. `gate_waits` computes them.
#[derive(Clone, Copy)]
pub(crate) struct GateWaits {
    /// Shortest of these waits.
    pub least: u64,
    /// Longest of these waits.
    pub most: u64,
    /// Whether all phases of the two cycles were examined. If false, other waits may be shorter or longer.
    pub are_all: bool,
}

/// Returns the wait in ns of a frame that arrives at time `from` and needs `occupied` ns on the link. The class's longest window `run` must
/// be long enough. `waits_by_cycle` calls it.
fn frame_wait<A: Allocator + Copy>(
    list: &CyclicList<u8, A>,
    class: u8,
    run: Run,
    occupied: u64,
    from: u64,
) -> u64
    requires class { class < 8 }
    requires soon { FitsSoon (list_opens list.now class) run }
    requires allowed { Allows run occupied }
    requires occupied { occupied ≤ LONGEST_CYCLE }
    requires from { from ≤ LAST_TIME }
    ensures { IsFirstFit (list_opens list.now class) occupied from (from + result) }
{
    first_fit(list, class, occupied, from) - from
}

/// Returns the waits of frames of `occupied` ns that arrive at `first` and then once in each `cycle` ns. `gate_waits` calls it if the
/// frames fit the class's longest window.
fn waits_by_cycle<A: Allocator + Copy>(
    list: &CyclicList<u8, A>,
    class: u8,
    run: Run,
    occupied: u64,
    first: u64,
    cycle: u64,
) -> GateWaits
    requires class { class < 8 }
    requires soon { FitsSoon (list_opens list.now class) run }
    requires allowed { Allows run occupied }
    requires occupied { occupied ≤ LONGEST_CYCLE }
{
    let turns = cycles_until_aligned(list.cycle(), cycle);
    let mut waits = GateWaits {
        least: u64::MAX,
        most: 0,
        are_all: turns <= MAX_TURNS,
    };
    let mut from = first;
    for _turn in 0..turns.min(MAX_TURNS) {
        let wait = frame_wait(list, class, run, occupied, from.min(LAST_TIME));
        waits.least = waits.least.min(wait);
        waits.most = waits.most.max(wait);
        from = from.saturating_add(cycle);
    }
    waits
}

/// Returns the waits of frames of class `class` that arrive when a stream gate opens: at `first` and then every `cycle` ns. Returns `None`
/// if frames of `occupied` ns never fit. `opening_waits` calls it.
pub(crate) fn gate_waits<A: Allocator + Copy>(
    list: &CyclicList<u8, A>,
    class: u8,
    occupied: u64,
    first: u64,
    cycle: u64,
) -> Option<GateWaits>
    requires { class < 8 }
{
    let run = longest_run(list, class);
    if occupied > LONGEST_CYCLE || !run.allows(occupied) {
        return None;
    }
    Some(waits_by_cycle(list, class, run, occupied, first, cycle))
}
