//! Egress port of a bridge: queues, transmission gates, and the next transmission.
ghost use Rattle.std.specs.Prelude.{◌≡◌, ◌<◌, ◌≤◌, ◌+◌, ◌-◌, ◌&&◌, ℕ, Bool, true, Option, Some, None, IfOk, IfSome, IfNone, List, [], ◌∷◌, length, max, replicate, is_none, MatchOption, if◌then◌else◌};

use crate::heads::{add_item_fit, refresh_after_start};
use crate::item::{Item, Refusal};
use crate::queues::{is_full, pop_item, push_item, with_rooms};
use crate::transmission_gates::TransmissionGates;
use bridge_cycle::{Egress, NoMemory};
use bridge_frame::{Speed, occupation};
use bridge_limits::{END_OF_SENDING, END_OF_TIME, LONGEST_FRAME, MAX_ARRIVALS};
use circular_buffer::HeapCircularBuffer;
use std::alloc::Allocator;
use std::marker::Model;

/// Egress port: eight queues with transmission gates, served in strict priority (IEEE 802.1Q-2018, 8.6.8). A frame starts only if
/// its class stays open for its transmission (8.6.8.4).
///
/// A transmission may span a schedule change if the old list opens its class before the change and the new list after it.
///
/// A port stands for the list of copies offered to it. It stores the earliest start of each head, and the best head: an offer or start
/// recomputes only the starts that change.
#[derive(Drop)]
pub struct Port<T: Drop, A: Allocator + Copy> {
    /// Speed of the link.
    speed: Speed,
    /// Transmission gates of the port's classes, with the hints of their searches.
    gates: TransmissionGates<A>,
    /// Queues of the classes.
    rings: Vec<HeapCircularBuffer<Item<T>, A>, A>,
    /// Time in ns from which the link is free.
    free: u64,
    /// Number of queued items.
    queued: u64,
    /// Earliest time in ns at which the next offer may be made.
    earliest: u64,
    /// Number of offers so far.
    offered: u64,
    /// Number of transmissions that the port has started.
    started: u64,
    /// Earliest start in ns of the head of each class; `None` for an empty queue.
    fits: [Option<u64>; 8],
    /// Time in ns and class of the next transmission; `None` if all queues are empty.
    best: Option<(u64, usize)>,
}

impl<T: Drop, A: Allocator + Copy> Model for Port<T, A> {
    ghost use Rattle.bridge_port.specs.Rings.{ring_queues, ring_rooms};
    ghost use Rattle.bridge_port.specs.StandsFor.{EgressState, egress_state};
    ghost use Rattle.bridge_port.specs.Heads.{KeepsHeads};

    ghost Value = { EgressState T };

    ghost view = { λ p. egress_state p.speed p.gates p.rings.items p.free p.earliest p.offered p.started };

    ghost invariant = { λ p. KeepsHeads (egress_state p.speed p.gates p.rings.items p.free p.earliest p.offered p.started)
        p.queued p.fits p.best };
}

impl<T: Drop, A: Allocator + Copy> Port<T, A> {
    ghost use Rattle.bridge_frame.specs.Link.{transmission_time};
    ghost use Rattle.bridge_port.specs.declared.item.Item.{Item};
    ghost use Rattle.bridge_port.specs.Schedule.{Copy, IsLawful};
    ghost use Rattle.bridge_port.specs.GateSchedule.{are_valid_rooms, gate_schedule};
    ghost use Rattle.bridge_port.specs.Heads.{StartsNext};
    ghost use Rattle.bridge_port.specs.Rings.{ring_queues, ring_rooms};
    ghost use Rattle.bridge_port.specs.Solo.{IsFinished};
    ghost use Rattle.bridge_port.specs.StandsFor.{offer_answer, offered_copy, count_queued, idle_state, HasStartedOldest, IsNextStartTime, IsIdle, IsStateSound, IsNextStart, time_limit, HasNoStartEarlier, offered_state, offer_refusal, state_rules, StandsFor, started_state};

    /// Makes an idle port with queue capacities for classes 0 to 7, in frames. Without a list, all classes are always open; otherwise bit c
    /// of an entry's state opens class c.
    ///
    /// With a schedule change (8.6.9.4), the old list applies before the change. Each item must fit under both lists. `PortState::new` of
    /// `bridge_relay` calls it.
    pub fn new(
        alloc: A,
        speed: Speed,
        list: Option<Egress<A>>,
        rooms: [u16; 8],
    ) -> Result<Port<T, A>, NoMemory>
        requires { are_valid_rooms rooms ≡ true }
        ensures new { IfOk result (λ p. p ≡ idle_state speed (gate_schedule list) rooms) }
        ensures stands { IfOk result (λ p. StandsFor p []) }
        ensures idle { IfOk result (λ p. IsNextStartTime p None) }
    {
        let Ok(rings) = with_rooms(alloc, &rooms) else {
            return Err(NoMemory);
        };
        let Ok(gates) = TransmissionGates::new(alloc, list) else {
            return Err(NoMemory);
        };
        Ok(Port::idle(speed, gates, rings))
    }

    /// Makes an idle port with these gates and empty rings. `Port::new` calls it.
    fn idle(
        speed: Speed,
        gates: TransmissionGates<A>,
        rings: Vec<HeapCircularBuffer<Item<T>, A>, A>,
    ) -> Port<T, A>
        requires queues { ring_queues rings.items ≡ replicate 8 [] }
        requires rooms { length (ring_rooms rings.items) ≡ 8 }
        ensures new { result ≡ idle_state speed gates (ring_rooms rings.items) }
        ensures stands { StandsFor result [] }
        ensures idle { IsNextStartTime result None }
    {
        Port {
            speed,
            gates,
            rings,
            free: 0,
            earliest: 0,
            offered: 0,
            started: 0,
            queued: 0,
            fits: [None; 8],
            best: None,
        }
    }

    /// Returns why the port would now drop an item with a transmission time of `occ` ns; `None` if the port would queue it. `Port::offer`
    /// calls it before it queues an item.
    #[inline(always)]
    fn refusal(&self, class: usize, occ: u64) -> Option<Refusal>
        requires { class < 8 }
        ensures { (x : Item T) → occ ≡ transmission_time x.len self.now.speed → result
            ≡ offer_refusal self.now class x }
    {
        if !self.gates.can_fit(class, occ) {
            Some(Refusal::NeverFits)
        } else if is_full(&self.rings, class) {
            Some(Refusal::Full)
        } else {
            None
        }
    }

    /// Offers an item to the queue of `class` at `t` ns. Returns a dropped item with the first reason that applies. `PortState::offer` of
    /// `bridge_relay` calls it for each copy of a frame.
    #[inline(always)]
    pub fn offer(&mut self, t: u64, class: u8, item: Item<T>) -> Result<(), (Item<T>, Refusal)>
        requires class { class < 8 }
        requires time { (self.old.earliest ≤ t) × (t < END_OF_TIME) }
        requires not_late { HasNoStartEarlier self.old t }
        requires length { item.len ≤ LONGEST_FRAME }
        requires few { self.old.offered < MAX_ARRIVALS }
        ensures answer { result ≡ offer_answer (offer_refusal self.old class item) item }
        ensures moved { self.new ≡ offered_state self.old t class item }
        ensures stands { (xs : List (Copy (Item T)))
            → StandsFor self.old xs
            → StandsFor self.new (offered_copy self.old t class item ∷ xs) }
        ensures counts { (f : Item T → Bool)
            → count_queued f self.new
            ≡ (if is_none (offer_refusal self.old class item) && f item then 1 else 0) + count_queued f self.old }
    {
        let class = class as usize;
        let occ = occupation(item.len, self.speed);
        let refusal = self.refusal(class, occ);
        self.earliest = t;
        self.offered += 1;
        match refusal {
            Some(refusal) => Err((item, refusal)),
            None => {
                let from = self.free.max(t);
                self.best = add_item_fit(
                    &mut self.fits,
                    self.best,
                    &mut self.gates,
                    class,
                    occ,
                    from,
                );
                push_item(&mut self.rings, class, item);
                self.queued += 1;
                Ok(())
            }
        }
    }

    /// Returns start time in ns and class of the next transmission if nothing more is offered; `None` if all queues are empty. `next_start`
    /// and `start` call it.
    fn next_head(&self) -> Option<(u64, usize)>
        ensures next { MatchOption result (IsIdle self.now) (λ b. StartsNext self.now b.0 b.1) }
        ensures kept { IsStateSound self.now }
    {
        self.best
    }

    /// Returns the time in ns at which the next transmission starts if nothing more is offered; `None` if all queues are empty. `Ports` of
    /// `bridge_relay` stores this time in its agenda.
    pub fn next_start(&self) -> Option<u64>
        ensures due { IsNextStartTime self.now result }
        ensures lawful { (xs : List (Copy (Item T)))
            → StandsFor self.now xs
            → IfSome result (λ k. (h : ℕ) → self.now.earliest ≤ h → h ≤ k → IsLawful (state_rules self.now) h xs) }
        ensures idle { (xs : List (Copy (Item T)))
            → StandsFor self.now xs
            → IfNone result ((h : ℕ) → self.now.earliest ≤ h → IsLawful (state_rules self.now) h xs) }
        ensures whole { (xs : List (Copy (Item T))) → StandsFor self.now xs → IfNone result (IsFinished xs) }
        ensures bounded { IfSome result (λ k. k < time_limit (self.now.started + 1)) }
        ensures early { IfSome result (λ k. k < END_OF_SENDING) }
    {
        let next = self.next_head();
        match next {
            Some((k, _)) => Some(k),
            None => None,
        }
    }

    /// Starts the next frame, and returns its item and class. Afterwards `earliest` is 1 ns after the start. `PortState::start` of
    /// `bridge_relay` calls it.
    #[inline(always)]
    pub fn start(&mut self) -> (Item<T>, u8)
        requires { (k : ℕ) × IsNextStartTime self.old (Some k) }
        ensures next { IsNextStart self.old (self.new.earliest - 1) result.1 result.0 }
        ensures moved { self.new ≡ started_state self.old (self.new.earliest - 1) result.1 result.0 }
        ensures which { (k c : ℕ) (x : Item T)
            → IsNextStart self.old k c x
            → (self.new.earliest ≡ k + 1) × (result.1 ≡ c) × (result.0 ≡ x) }
        ensures stands { (xs : List (Copy (Item T)))
            → StandsFor self.old xs
            → HasStartedOldest self.new result.1 (self.new.earliest - 1) result.0 xs }
        ensures counts { (f : Item T → Bool)
            → count_queued f self.old ≡ (if f result.0 then 1 else 0) + count_queued f self.new }
        ensures bounded { self.new.free < time_limit (self.old.started + 1) }
        ensures early { self.new.free < END_OF_SENDING }
        ensures length { result.0.len ≤ LONGEST_FRAME }
        ensures class { result.1 < 8 }
    {
        let next = self.next_head();
        match next {
            Some((k, class)) => {
                let taken = pop_item(&mut self.rings, class);
                match taken {
                    Some(item) => {
                        let occ = occupation(item.len, self.speed);
                        self.free = k + occ;
                        self.earliest = k + 1;
                        self.started += 1;
                        self.queued -= 1;
                        self.best = refresh_after_start(
                            &mut self.fits,
                            &mut self.gates,
                            self.speed,
                            &self.rings,
                            class,
                            self.queued,
                            self.free,
                        );
                        (item, class as u8)
                    }
                    None => unreachable!(),
                }
            }
            None => unreachable!(),
        }
    }

    /// Returns the number of offers so far, at most `MAX_ARRIVALS`. Tests call it, because `offer` requires that it is below
    /// `MAX_ARRIVALS`.
    pub fn offered(&self) -> u64
        ensures offered { result ≡ self.now.offered }
        ensures counted { self.now.started + count_queued (λ x. true) self.now ≤ result }
        ensures few { result ≤ MAX_ARRIVALS }
    {
        self.offered
    }

    /// Returns the number of transmissions that the port has started. `Ports::started` of `bridge_relay` calls it.
    pub fn started(&self) -> u64
        ensures { result ≡ self.now.started }
    {
        self.started
    }

    /// Returns the earliest time in ns at which the next offer may be made. Tests call it before `offer`, which requires this time or a
    /// later one.
    pub fn earliest(&self) -> u64
        ensures earliest { result ≡ self.now.earliest }
        ensures bounded { result ≤ time_limit self.now.started }
        ensures link { self.now.free ≤ time_limit self.now.started }
    {
        self.earliest
    }

    /// Returns the end of the last transmission in ns, gap included, or 0 before the first. The relay reads this time after a transmission
    /// has started, as the frame's end of transmission.
    ///
    /// `PortState::start` of `bridge_relay` calls it.
    pub fn free_time(&self) -> u64
        ensures free { result ≡ self.now.free }
        ensures bounded { result ≤ time_limit self.now.started }
    {
        self.free
    }
}
