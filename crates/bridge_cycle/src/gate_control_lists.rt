ghost use Rattle.std.specs.Prelude.{◌≡◌, IfOk};
ghost use Rattle.bridge_cycle.specs.GateControlLists as egress;

use crate::changing_list::Joined;
use crate::cyclic_list::CyclicList;
use crate::timeline::{Timeline, Turn};
use bridge_limits::NoMemory;
use std::alloc::Allocator;

/// Gate control list of a port, or an old and a new list; bit c of a state opens class c (IEEE 802.1Q-2018, 8.6.8.4).
#[derive(Drop)]
pub enum Egress<A: Allocator + Copy> {
    /// One list at all times.
    Cyclic(CyclicList<u8, A>),
    /// Old and new list with a schedule change.
    Joined(Joined<u8, A>),
}

impl<A: Allocator + Copy> Egress<A> {
    /// Returns equal lists in new memory, or `NoMemory`. A relay copies the lists of its plan, so that the plan stays whole.
    pub fn copy(&self, alloc: A) -> Result<Self, NoMemory>
        ensures equal { IfOk result (λ e. e ≡ self.now) }
    {
        match self {
            Egress::Cyclic(list) => Ok(Egress::Cyclic(list.copy(alloc)?)),
            Egress::Joined(joined) => Ok(Egress::Joined(joined.copy(alloc)?)),
        }
    }
}

impl<A: Allocator + Copy> Timeline for Egress<A> {
    type State = u8;

    ghost is_lawful = { egress.IsLawful };

    ghost turn_at = { egress.turn_by_time };

    ghost cycle_of = { egress.cycle_length };

    fn turn(&self, t: u64) -> Turn<u8> {
        match self {
            Egress::Cyclic(list) => list.turn(t),
            Egress::Joined(joined) => joined.turn(t),
        }
    }

    fn cycle(&self) -> u64 {
        match self {
            Egress::Cyclic(list) => list.cycle(),
            Egress::Joined(joined) => joined.cycle(),
        }
    }

    ghost use Rattle.bridge_cycle.specs.GateControlListsLaws.{lists_turn_is_exact, lists_turn_exists};

    ghost is_there = { λ e t lawful. lists_turn_exists e t lawful };

    ghost begins = { λ e t x lawful h. (lists_turn_is_exact e t x lawful h).begins };

    ghost goes_on = { λ e t x lawful h. (lists_turn_is_exact e t x lawful h).ends };

    ghost same = { λ e t u x lawful h. (lists_turn_is_exact e t x lawful h).same u };

    ghost soon = { λ e t x lawful h. (lists_turn_is_exact e t x lawful h).soon };
}
