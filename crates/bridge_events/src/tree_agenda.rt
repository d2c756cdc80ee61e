//! Agenda of the ports' next transmissions as a tree of two levels, which finds the least time in few steps.
ghost use Rattle.std.specs.Prelude.{◌≡◌, ◌<◌, ◌+◌, ◌-◌, ◌*◌, ◌^◌, length, min, slice_set};
ghost use Rattle.bridge_events.specs.Least.{IsLeast};
ghost use Rattle.bridge_events.specs.Tree.{tree_time, nth_time, least_of_four, least_rest, HaveLeastKeys};

use crate::agenda::{Agenda, earlier_entry, entry};
use std::marker::Model;

/// Key of a port without a time. It exceeds the key of any time.
const NO_KEY: u64 = u64::MAX;

/// Times in ns from this one on count as this time in keys, because a key has 64 bits.
const LATE: u64 = (1 << 60) - 2;

/// Least key of a time that is `LATE` or later.
const LATE_KEY: u64 = 16 * LATE;

/// Gives proofs the numbers of the constants. Keys of late times are below `NO_KEY`.
pub fn the_limits()
    ensures late { LATE ≡ 2 ^ 60 - 2 }
    ensures key { LATE_KEY ≡ 16 * LATE }
    ensures none { NO_KEY ≡ 2 ^ 64 - 1 }
{}

/// Tree of the ports 1 to 16, in four groups of four ports. A new time costs at most six comparisons.
///
/// A port's key orders by its time, then by its number: 16 times the time, plus the number less 1.
#[derive(Debug, Drop)]
pub struct TreeAgenda {
    /// Key of each port, from port 1.
    keys: [u64; 16],
    /// Time of each port in ns, if its key isn't `NO_KEY`.
    times: [u64; 16],
    /// Least key of each group.
    firsts: [u64; 4],
    /// Least key of the groups after the first. Most bridges have four ports or fewer, and their new times leave it as it is.
    rest: u64,
    /// Least key of all ports.
    first: u64,
}

impl Model for TreeAgenda {
    ghost use Rattle.std.specs.Prelude.{◌≡◌};
    ghost use Rattle.bridge_events.specs.Tree.{IsTree, TreeState, least_rest};

    ghost Value = { TreeState };

    ghost view = { λ a. record { keys = a.keys; times = a.times; firsts = a.firsts; first = a.first } };

    ghost invariant = { λ a. record {
      tree : IsTree (record { keys = a.keys; times = a.times; firsts = a.firsts; first = a.first });
      rest : a.rest ≡ least_rest a.firsts;
    } };
}

impl Agenda for TreeAgenda {
    ghost held = { λ a. tree_time a.keys a.times };

    fn empty() -> Self {
        TreeAgenda {
            keys: [NO_KEY; 16],
            times: [0; 16],
            firsts: [NO_KEY; 4],
            rest: NO_KEY,
            first: NO_KEY,
        }
    }

    #[inline(always)]
    fn set(&mut self, port: u8, t: u64) {
        let place = port as usize - 1;
        self.times[place] = t;
        let key = entry_key(place, t);
        self.first = put_key(&mut self.keys, &mut self.firsts, &mut self.rest, place, key);
    }

    #[inline(always)]
    fn clear(&mut self, port: u8) {
        let place = port as usize - 1;
        self.first = put_key(
            &mut self.keys,
            &mut self.firsts,
            &mut self.rest,
            place,
            NO_KEY,
        );
    }

    #[inline(always)]
    fn least(&self) -> Option<(u8, u64)> {
        let first = self.first;
        if first < LATE_KEY {
            Some(((first % 16) as u8 + 1, first / 16))
        } else if first == NO_KEY {
            None
        } else {
            least_late_entry(&self.keys, &self.times)
        }
    }
}

/// Returns the key of the port with index `place`, at time `t` in ns. `TreeAgenda::set` calls it.
#[inline(always)]
fn entry_key(place: usize, t: u64) -> u64
    requires { place < 16 }
    ensures key { result ≡ 16 * min t LATE + place }
    ensures some { result < NO_KEY }
{
    t.min(LATE) * 16 + place as u64
}

/// Returns the least of the four keys from index `from` on. `put_key` calls it for the group of a changed port.
#[inline(always)]
fn least_of_four(keys: &[u64], from: usize) -> u64
    requires { from + 3 < length keys.now }
    ensures { result ≡ least_of_four keys.now from }
{
    let front = keys[from].min(keys[from + 1]);
    let back = keys[from + 2].min(keys[from + 3]);
    front.min(back)
}

/// Sets the key of the port with index `place`, and returns the least key of all ports. The comparisons compile to no branches, because
/// their outcomes are unpredictable.
#[inline(always)]
fn put_key(
    keys: &mut [u64; 16],
    firsts: &mut [u64; 4],
    rest: &mut u64,
    place: usize,
    key: u64,
) -> u64
    requires place { place < 16 }
    requires won { HaveLeastKeys keys.old firsts.old }
    requires rest { rest.old ≡ least_rest firsts.old }
    ensures keys { keys.new ≡ slice_set keys.old place key }
    ensures sizes { (length keys.new ≡ 16) × (length firsts.new ≡ 4) }
    ensures won { HaveLeastKeys keys.new firsts.new }
    ensures rest { rest.new ≡ least_rest firsts.new }
    ensures root { result ≡ least_of_four firsts.new 0 }
{
    keys[place] = key;
    let group = place / 4;
    firsts[group] = least_of_four(keys, 4 * group);
    if group > 0 {
        *rest = firsts[1].min(firsts[2].min(firsts[3]));
    }
    firsts[0].min(*rest)
}

/// Returns the time of the port with index `place`; `None` if the port has no time. `least_late_entry` calls it for each port.
fn nth_time(keys: &[u64; 16], times: &[u64; 16], place: usize) -> Option<u64>
    requires { place < 16 }
    ensures { result ≡ nth_time keys.now times.now place }
{
    if keys[place] < NO_KEY {
        Some(times[place])
    } else {
        None
    }
}

/// Returns the port with the least time, and this time, by a search of all times; `None` if no port has a time. Keys can't order times from
/// `LATE` on.
///
/// `TreeAgenda::least` calls it.
#[cold]
#[inline(never)]
fn least_late_entry(keys: &[u64; 16], times: &[u64; 16]) -> Option<(u8, u64)>
    ensures { IsLeast (tree_time keys.now times.now) result }
{
    let mut best: Option<(u8, u64)> = None;
    for place in 0usize..16 {
        best = earlier_entry(best, entry(place as u8 + 1, nth_time(keys, times, place)));
    }
    best
}
