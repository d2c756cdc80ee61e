//! Old and new list of a schedule change, as one timeline. Its cycle time is the greater of both.
ghost use Rattle.std.specs.Prelude.{◌≡◌, ◌<◌, IfOk};
ghost use Rattle.bridge_limits.specs.declared.TheConstants.{END_OF_TIME};
ghost use Rattle.bridge_cycle.specs.ChangingList as joined;

use crate::cyclic_list::CyclicList;
use crate::timeline::{Timeline, Turn};
use bridge_limits::NoMemory;
use std::alloc::Allocator;
use std::marker::Model;

/// Old and new list with a schedule change: the old list applies before time `at`, the new list from `at` on.
///
/// Intervals of the old list end at `at` at the latest; intervals of the new list start at `at` or later (ConfigChangeTime, IEEE
/// 802.1Q-2018, 8.6.9.4).
#[derive(Drop)]
pub struct Joined<S, A: Allocator + Copy> {
    /// List that applies before `at`.
    old: CyclicList<S, A>,
    /// List that applies from `at` on.
    new: CyclicList<S, A>,
    /// Time of the schedule change in ns.
    at: u64,
    /// Greater of the two cycle times, in ns.
    cycle: u64,
}

impl<S, A: Allocator + Copy> Model for Joined<S, A> {
    ghost Value = { joined.Joined S };

    ghost view = { λ j. record { old = j.old; new = j.new; at = j.at } };

    ghost invariant = { λ j. joined.IsLawful (record { old = j.old; new = j.new; at = j.at }) × (j.at < END_OF_TIME)
        × (j.cycle ≡ joined.cycle_length (record { old = j.old; new = j.new; at = j.at })) };
}

impl<S: Copy, A: Allocator + Copy> Joined<S, A> {
    /// Joins `old`, which applies before time `at` in ns, and `new`, which applies from then on. Allocates no memory. `gate_schedule` and
    /// `port_lists` of `bridge_config` call it.
    pub fn new(old: CyclicList<S, A>, new: CyclicList<S, A>, at: u64) -> Self
        requires { at < END_OF_TIME }
        ensures { result ≡ record { old = old; new = new; at = at } }
    {
        let cycle = old.cycle().max(new.cycle());
        Joined {
            old,
            new,
            at,
            cycle,
        }
    }

    /// Returns equal lists in new memory, or `NoMemory`. `Egress::copy` and `Schedule::copy` of `bridge_gate` call it.
    pub fn copy(&self, alloc: A) -> Result<Self, NoMemory>
        ensures equal { IfOk result (λ j. j ≡ self.now) }
    {
        Ok(Joined {
            old: self.old.copy(alloc)?,
            new: self.new.copy(alloc)?,
            at: self.at,
            cycle: self.cycle,
        })
    }

    /// Returns the old and the new list, for searches that examine each list by itself. `egress_longest_time` of `bridge_bounds`, `lets` of
    /// `bridge_check` and many more call it.
    pub fn lists(&self) -> (&CyclicList<S, A>, &CyclicList<S, A>)
        ensures old { result.0.now ≡ self.now.old }
        ensures new { result.1.now ≡ self.now.new }
        ensures lawful { joined.IsLawful self.now }
    {
        (&self.old, &self.new)
    }

    /// Returns the time in ns of the schedule change. `fit_in_changing_list` of `bridge_port`, `active_list` of `net_report` and 4 more
    /// call it.
    pub fn change_time(&self) -> u64
        ensures at { result ≡ self.now.at }
        ensures bounded { result < END_OF_TIME }
    {
        self.at
    }
}

impl<S: Copy, A: Allocator + Copy> Timeline for Joined<S, A> {
    type State = S;

    ghost is_lawful = { joined.IsLawful };

    ghost turn_at = { joined.turn_by_time };

    ghost cycle_of = { joined.cycle_length };

    fn turn(&self, t: u64) -> Turn<S> {
        if t < self.at {
            let turn = self.old.turn(t);
            Turn {
                state: turn.state,
                start: turn.start,
                end: turn.end.min(self.at),
            }
        } else {
            let turn = self.new.turn(t);
            Turn {
                state: turn.state,
                start: turn.start.max(self.at as i64),
                end: turn.end,
            }
        }
    }

    fn cycle(&self) -> u64 {
        self.cycle
    }

    ghost use Rattle.bridge_cycle.specs.ChangingListLaws.{changing_turn_is_exact, changing_turn_exists};

    ghost is_there = { λ j t lawful. changing_turn_exists j t lawful };

    ghost begins = { λ j t x lawful h. (changing_turn_is_exact j t x lawful h).begins };

    ghost goes_on = { λ j t x lawful h. (changing_turn_is_exact j t x lawful h).ends };

    ghost same = { λ j t u x lawful h. (changing_turn_is_exact j t x lawful h).same u };

    ghost soon = { λ j t x lawful h. (changing_turn_is_exact j t x lawful h).soon };
}
