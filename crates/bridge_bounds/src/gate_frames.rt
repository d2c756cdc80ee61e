//! Number of frames that a stream gate passes in one interval, and the distance between its open intervals.
ghost use Rattle.std.specs.Prelude.{◌≡◌, ◌↔◌, ◌+◌, ◌-◌, ◌≤◌, true};
ghost use Rattle.bridge_limits.specs.declared.TheConstants.{END_OF_TIME};
ghost use Rattle.bridge_cycle.specs.Cyclic.{IsLawful, turn_by_time};
ghost use Rattle.bridge_bounds.specs.GateFrames as spec;
ghost use Rattle.bridge_bounds.specs.GateFrames.{AreTurnsApart, IsShut};

use bridge_cycle::{CyclicList, Timeline, Turn};
use bridge_gate::GateEntry;
use std::alloc::Allocator;

/// Returns how many frames with an SDU of at least two octets a stream gate entry passes in one interval. A closed entry passes 0. Returns
/// `None` for an open entry without octet limit.
///
/// `max_list_frames` calls it.
fn max_entry_frames(entry: &GateEntry) -> Option<u32>
    ensures { result ≡ spec.max_entry_frames entry.now }
{
    if !entry.lets {
        return Some(0);
    }
    Some(entry.octets? / 2)
}

/// Returns the largest number of frames that any entry of a stream gate's list passes in one interval; `None` if an open entry has no octet
/// limit. `frames_below_room` calls it.
fn max_list_frames(entries: &[(GateEntry, u64)]) -> Option<u32>
    ensures { result ≡ spec.max_list_frames entries.now }
{
    let mut most = 0;
    for entry in entries {
        most = max_entry_frames(&entry.0)?.max(most);
    }
    Some(most)
}

/// Returns the largest number of frames that an entry passes in one interval, if it is less than the queue capacity `room`. Otherwise, or
/// if an open entry has no octet limit, returns `None`.
///
/// Only a number below the capacity lowers the bound. `tighten_bound` calls it.
pub(crate) fn frames_below_room(entries: &[(GateEntry, u64)], room: u16) -> Option<u16>
    ensures { result ≡ spec.frames_below_room room (spec.max_list_frames entries.now) }
{
    let most = max_list_frames(entries)?;
    if most >= u32::from(room) {
        return None;
    }
    Some(most as u16)
}

/// Whether the stream gate is closed from time `from` up to, not including, time `until`, both in ns. `is_shut_after_turn` calls it.
fn is_shut<A: Allocator + Copy>(list: &CyclicList<GateEntry, A>, from: u64, until: u64) -> bool
    requires until { until ≤ END_OF_TIME }
    requires lawful { IsLawful list.now }
    ensures { (result ≡ true) ↔ IsShut (turn_by_time list.now) from until }
{
    let mut seen = from;
    while seen < until {
        let turn = list.turn(seen);
        if turn.state.lets {
            return false;
        }
        seen = turn.end;
    }
    true
}

/// Whether the stream gate is closed for `apart` - 1 ns after the interval `turn`. So a frame in a later interval arrives at least `apart`
/// ns after each frame of this interval.
///
/// Returns true for a closed interval, because no frame passes in it. `are_apart` calls it.
fn is_shut_after_turn<A: Allocator + Copy>(
    list: &CyclicList<GateEntry, A>,
    turn: &Turn<GateEntry>,
    apart: u64,
) -> bool
    requires end { turn.now.end ≤ 2_000_000_000 }
    requires apart { apart ≤ 1_000_000_000_000_000_000 }
    requires lawful { IsLawful list.now }
    ensures { (result ≡ true) ↔ (turn.now.state.lets ≡ true
        → IsShut (turn_by_time list.now) turn.now.end (turn.now.end + apart - 1)) }
{
    if !turn.state.lets {
        return true;
    }
    is_shut(list, turn.end, (turn.end + apart).saturating_sub(1))
}

/// Whether times in two different open intervals of the stream gate are at least `apart` ns apart. If so, all frames that pass in `apart`
/// ns are of one interval.
///
/// Examines one cycle, and the time after each open interval. `lesser_bound` calls it.
pub(crate) fn are_apart<A: Allocator + Copy>(list: &CyclicList<GateEntry, A>, apart: u64) -> bool
    requires apart { apart ≤ 1_000_000_000_000_000_000 }
    requires lawful { IsLawful list.now }
    ensures { (result ≡ true) ↔ AreTurnsApart (turn_by_time list.now) apart }
{
    let cycle = list.cycle();
    let mut seen = 0;
    while seen < cycle {
        let turn = list.turn(seen);
        if !is_shut_after_turn(list, &turn, apart) {
            return false;
        }
        seen = turn.end;
    }
    true
}
