//! The ports of a bridge, and an agenda of their next transmissions.
ghost use Rattle.std.specs.Prelude.{◌≡◌, ℕ, false, ◌<◌, ◌≤◌, ◌+◌, ◌-◌, [], Some, None, Option, length, nat_eq, if◌then◌else◌, slice_set, slice_index, IfOk, vec_capacity};
ghost use Rattle.bridge_events.specs.Least.{IsLeast};
ghost use Rattle.bridge_config.specs.Rules.{find_port};
ghost use Rattle.bridge_relay.specs.declared.port_state.PortState.{PortState};
ghost use Rattle.bridge_relay.specs.PortStates.{count_ingress};
ghost use Rattle.bridge_relay.specs.Counting.{port_counts};
ghost use Rattle.bridge_relay.specs.Ports.{port_state, ingress_defaults, is_present, count_outputs, ArePortsSound, IsInitialPort, IsLastOutput, IsPresentSet, HasOffered, HasStarted, CanOffer, StartsNoEarlier, HasLaterStarts};

use crate::port_state::{Ingress, PortState, StartedFrame};
use bridge_config::Plan;
use bridge_cycle::NoMemory;
use bridge_events::Agenda;
use bridge_forward::PortSet;
use bridge_limits::{END_OF_TIME, LONGEST_FRAME, MAX_ARRIVALS};
use bridge_port::{Item, Refusal};
use bridge_semantics::{PortCount, QueuedFrame};
use std::alloc::Allocator;
use std::marker::Model;

/// Ports of a bridge, and the time of each port's next transmission.
#[derive(Drop)]
pub struct Ports<G: Agenda + Drop, A: Allocator + Copy> {
    /// Ports by number: port n is at index n - 1 of 16, or `None` if the plan lacks it.
    slots: Vec<Option<PortState<A>>, A>,
    /// Set of the ports that exist: bit n - 1 is set if the bridge has port n.
    present: u16,
    /// Time in ns of the next start of each port with queued copies.
    agenda: G,
}

impl<G: Agenda + Drop, A: Allocator + Copy> Model for Ports<G, A> {
    ghost use Rattle.bridge_relay.specs.PortStates.{count_ingress};
    ghost use Rattle.bridge_relay.specs.Ports.{PortsState, ArePortsSound, IsPresentSet};

    ghost Value = { PortsState G A };

    ghost view = { λ p. record { slots = p.slots.items; agenda = p.agenda } };

    ghost invariant = { λ p. record {
      sound : ArePortsSound G.held p.slots.items p.agenda;
      present : IsPresentSet p.slots.items p.present;
    } };
}

/// Sets the time of the next transmission of port `port` to `due` ns; clears it if `due` is `None`. `Ports::start` calls it after each
/// transmission, and `update_next_start` after offers.
#[inline(always)]
fn set_next_start<G: Agenda>(agenda: &mut G, port: u8, due: Option<u64>)
    requires from { 1 ≤ port }
    requires to { port ≤ 16 }
    ensures { (p : ℕ) → G.held agenda.new p ≡ (if nat_eq p port then due else G.held agenda.old p) }
{
    match due {
        Some(t) => agenda.set(port, t),
        None => agenda.clear(port),
    }
}

/// Changes the time of the next transmission of port `port` from `before` to `due`, both in ns. Does nothing if both are equal, as after
/// most offers. `Ports::offer` calls it.
#[inline(always)]
fn update_next_start<G: Agenda>(agenda: &mut G, port: u8, before: Option<u64>, due: Option<u64>)
    requires from { 1 ≤ port }
    requires to { port ≤ 16 }
    requires held { G.held agenda.old port ≡ before }
    ensures { (p : ℕ) → G.held agenda.new p ≡ (if nat_eq p port then due else G.held agenda.old p) }
{
    if before == due {
        return;
    }
    set_next_start(agenda, port, due);
}

/// Returns the set of the ports that exist: bit n - 1 is set if the bridge has port n. `Ports` stores the set, so that `count_outputs`
/// needn't look at the ports.
///
/// `new` calls it.
fn present_ports<A: Allocator + Copy>(slots: &[Option<PortState<A>>]) -> u16
    requires { length slots.now ≡ 16 }
    ensures { IsPresentSet slots.now result }
{
    let mut present = 0u16;
    for place in 0usize..16 {
        let own = if slots[15 - place].is_some() { 1 } else { 0 };
        present = present << 1 | own;
    }
    present
}

/// Returns the port with number `number`, before any event; `None` if the plan lacks it. `Ports::new` calls it for numbers 1 to 16.
fn make_port_state<A: Allocator + Copy>(
    alloc: A,
    plan: &Plan<A>,
    number: u8,
) -> Result<Option<PortState<A>>, NoMemory>
    ensures { IfOk result (λ o. IsInitialPort (find_port plan.now.ports number) o) }
{
    match plan.port(number) {
        Some(port) => match PortState::new(alloc, port) {
            Ok(slot) => Ok(Some(slot)),
            Err(_) => Err(NoMemory),
        },
        None => Ok(None),
    }
}

impl<G: Agenda + Drop, A: Allocator + Copy> Ports<G, A> {
    /// Returns the ports of a plan, before any event. `Relay::new` calls it.
    pub fn new(alloc: A, plan: &Plan<A>) -> Result<Ports<G, A>, NoMemory>
        ensures first { IfOk result (λ p. (q : ℕ) → 1 ≤ q
            → IsInitialPort (find_port plan.now.ports q) (port_state p q)) }
        ensures none_held { IfOk result (λ p. (q : ℕ) → G.held p.agenda q ≡ None) }
        ensures size { IfOk result (λ p. length p.slots ≡ 16) }
    {
        let _ports = plan.ports();
        let Ok(mut slots) = Vec::with_capacity(alloc, 16) else {
            return Err(NoMemory);
        };
        for place in 0u8..16 {
            let Ok(slot) = make_port_state(alloc, plan, place + 1) else {
                return Err(NoMemory);
            };
            slots.push_reserved(slot);
        }
        let present = present_ports(&slots);
        Ok(Ports {
            slots,
            present,
            agenda: G::empty(),
        })
    }

    /// Returns the port that starts a transmission next, and the start time in ns. At equal times, the lowest port is next. Returns `None`
    /// if no copy is queued. `Relay::due` calls it.
    pub fn due(&self) -> Option<(u8, u64)>
        ensures { IsLeast (G.held self.now.agenda) result }
    {
        self.agenda.least()
    }

    /// Offers the copy `item` with priority `priority`, 0 to 7, to port `number` at time `t` in ns. If the port drops the copy, `back`
    /// receives its octets. `offer_to_port` calls it.
    #[inline(always)]
    pub fn offer(
        &mut self,
        number: u8,
        t: u64,
        priority: u8,
        item: Item<QueuedFrame<A>>,
        back: &mut Option<Vec<u8, A>>,
    ) -> Result<(), Refusal>
        requires from { 1 ≤ number }
        requires there { (s : PortState A) × (port_state self.old number ≡ Some s) }
        requires early { CanOffer self.old number t }
        requires due { StartsNoEarlier (G.held self.old.agenda) t }
        requires range { t < END_OF_TIME }
        requires length { item.len ≤ LONGEST_FRAME }
        requires priority { priority ≤ 7 }
        ensures offered { (s : PortState A) → port_state self.old number ≡ Some s
            → HasOffered self.old self.new number s t (slice_index s.classes priority) item result }
        ensures due { StartsNoEarlier (G.held self.new.agenda) t }
    {
        match &mut self.slots[number as usize - 1] {
            Some(slot) => {
                let before = slot.port.next_start();
                let answer = slot.offer(t, priority, item, back);
                let due = slot.port.next_start();
                update_next_start(&mut self.agenda, number, before, due);
                answer
            }
            None => unreachable!(),
        }
    }

    /// Starts the transmission that is next among all ports. Returns its port, its time in ns and the copy. A copy must be queued.
    /// `Relay::advance` calls it.
    #[inline(always)]
    pub fn start(&mut self) -> (u8, u64, StartedFrame<A>)
        requires { (q k : ℕ) × (G.held self.old.agenda q ≡ Some k) }
        ensures which { IsLeast (G.held self.old.agenda) (Some (result.0, result.1)) }
        ensures started { (s : PortState A) × HasStarted self.old self.new result.0 s result.1 result.2 }
        ensures later { HasLaterStarts (G.held self.new.agenda) result.0 result.1 }
        ensures kept { ArePortsSound G.held self.old.slots self.old.agenda }
        ensures keeps { ArePortsSound G.held self.new.slots self.new.agenda }
    {
        match self.agenda.least() {
            Some((number, start)) => {
                match &mut self.slots[number as usize - 1] {
                    Some(slot) => {
                        let begun = slot.start(start);
                        let due = slot.port.next_start();
                        set_next_start(&mut self.agenda, number, due);
                        (number, start, begun)
                    }
                    None => unreachable!(),
                }
            }
            None => unreachable!(),
        }
    }

    /// Returns the number of transmissions that port `number` has started. `Relay::started` calls it.
    pub fn started(&self, number: u8) -> u64
        requires from { 1 ≤ number }
        requires there { (s : PortState A) × (port_state self.now number ≡ Some s) }
        ensures { (s : PortState A) → port_state self.now number ≡ Some s → result ≡ s.port.started }
    {
        match &self.slots[number as usize - 1] {
            Some(slot) => slot.port.started(),
            None => unreachable!(),
        }
    }

    /// Returns the VLAN and the priority that untagged frames get at port `number`; `None` if the port is missing. `find_destination` calls
    /// it.
    pub fn ingress_defaults(&self, number: u8) -> Option<(u16, u8)>
        requires from { 1 ≤ number }
        requires to { number ≤ 16 }
        ensures { result ≡ ingress_defaults (port_state self.now number) }
    {
        match &self.slots[number as usize - 1] {
            Some(slot) => Some((slot.vid, slot.priority)),
            None => None,
        }
    }

    /// Returns whether the bridge has port `number`. A set of egress ports may name ports that the bridge lacks. `offer_next_copy` asks it.
    pub fn has(&self, number: u8) -> bool
        requires from { 1 ≤ number }
        requires to { number ≤ 16 }
        ensures { result ≡ is_present (port_state self.now number) }
    {
        match &self.slots[number as usize - 1] {
            Some(_) => true,
            None => false,
        }
    }

    /// Returns the number of ports in `set` that exist, and the highest of them; 0 and 0 if no port of the set exists. A frame gets one
    /// copy for each port.
    ///
    /// `prepare_copies`, `offer_several_copies` and 2 more call it.
    #[inline(always)]
    pub fn count_outputs(&self, set: PortSet) -> (usize, u8)
        ensures count { result.0 ≡ count_outputs self.now.slots set 16 }
        ensures few { result.0 ≤ 16 }
        ensures last { IsLastOutput self.now.slots set result.1 }
    {
        let outputs = set.bits() & self.present;
        (
            outputs.count_ones() as usize,
            16 - outputs.leading_zeros() as u8,
        )
    }

    /// Counts a frame that arrived at port `number`, which must exist. `came` shows how the bridge handled it. `count_unforwarded` and
    /// `police_frame` call it.
    #[inline(always)]
    pub fn count_arrival(&mut self, number: u8, came: Ingress)
        requires from { 1 ≤ number }
        requires there { (s : PortState A) × (port_state self.old number ≡ Some s) × (s.count.frames < MAX_ARRIVALS) }
        ensures agenda { self.new.agenda ≡ self.old.agenda }
        ensures slots { (s : PortState A) → port_state self.old number ≡ Some s
            → self.new.slots ≡ slice_set self.old.slots (number - 1) (Some (record s
            { count = count_ingress s.count came })) }
    {
        match &mut self.slots[number as usize - 1] {
            Some(slot) => slot.count_frame(came),
            None => unreachable!(),
        }
    }

    /// Does nothing; its contract states that the agenda has exactly each port's next start. `Relay::assert_reached` needs this.
    pub fn assert_agenda(&self)
        ensures { ArePortsSound G.held self.now.slots self.now.agenda }
    {
        let _slots = &self.slots;
    }

    /// Returns the counts of each port, by rising number, in the empty list `counts`, which has the capacity. Allocates no memory.
    /// `Relay::finish` calls it.
    pub fn counts(&self, counts: Vec<(u8, PortCount), A>) -> Vec<(u8, PortCount), A>
        requires none { counts.items ≡ [] }
        requires room { 16 ≤ vec_capacity counts }
        ensures counts { result.items ≡ port_counts self.now.slots 16 }
        ensures kept { ArePortsSound G.held self.now.slots self.now.agenda }
    {
        let mut counts = counts;
        for place in 0u8..16 {
            if let Some(slot) = &self.slots[place as usize] {
                counts.push_reserved((place + 1, slot.count));
            }
        }
        counts
    }
}
