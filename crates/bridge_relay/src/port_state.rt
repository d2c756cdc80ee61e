//! One port of a bridge during a run: its queues, and the counts of its frames and copies.
ghost use Rattle.std.specs.Prelude.{◌≡◌, Bool, true, IfOk, ◌<◌, ◌≤◌, ◌+◌, ◌-◌, ◌&&◌, List, ◌∷◌, Some, is_none, slice_index, if◌then◌else◌};
ghost use Rattle.bridge_frame.specs.Link.{transmission_time};
ghost use Rattle.bridge_port.specs.declared.item.Item.{Item};
ghost use Rattle.bridge_port.specs.Schedule.{Copy};
ghost use Rattle.bridge_port.specs.StandsFor.{offer_refusal, offered_copy, count_queued, IsNextStartTime, IsNextStart, HasStartedOldest, HasNoStartEarlier, StandsFor, time_limit};
ghost use Rattle.bridge_port.specs.GateSchedule.{are_valid_rooms};
ghost use Rattle.bridge_semantics.specs.declared.queued_frame.QueuedFrame.{QueuedFrame};

use bridge_config::PortPlan;
use bridge_cycle::NoMemory;
use bridge_frame::Speed;
use bridge_limits::{END_OF_SENDING, END_OF_TIME, LONGEST_FRAME, MAX_ARRIVALS};
use bridge_port::{Item, Port, Refusal};
use bridge_semantics::{PortCount, QueuedFrame};
use std::alloc::Allocator;

/// Port of a bridge during a run: its queues, and the counts of its frames and copies.
#[derive(Drop)]
pub struct PortState<A: Allocator + Copy> {
    /// Speed of the link.
    pub speed: Speed,
    /// VLAN of untagged and priority-tagged frames.
    pub vid: u16,
    /// Priority of untagged frames.
    pub priority: u8,
    /// Class of each priority.
    pub classes: [u8; 8],
    /// Queues and transmission gates.
    pub port: Port<QueuedFrame<A>, A>,
    /// Counts of frames and copies so far.
    pub count: PortCount,
}

/// Copy whose transmission has started. `PortState::start` returns it.
#[derive(Drop)]
pub struct StartedFrame<A: Allocator + Copy> {
    /// Class of its queue.
    pub class: u8,
    /// End of transmission in ns.
    pub done: u64,
    /// Contents of the copy.
    pub item: Item<QueuedFrame<A>>,
}

/// How a port counts an arriving frame: malformed, not forwarded, unfiltered, or judged by a filter.
#[derive(Clone, Copy)]
pub enum Ingress {
    /// The header can't be read.
    Malformed,
    /// The frame has no egress port.
    Nowhere,
    /// The frame is forwarded, and no filter matches it.
    Unfiltered,
    /// A filter judges the frame.
    Policed,
}

impl<A: Allocator + Copy> PortState<A> {
    ghost use Rattle.bridge_relay.specs.PortStates.{offered_port, started_port, offer_result, count_ingress};
    ghost use Rattle.bridge_relay.specs.Ports.{IsMadeByPlan, IsIdlePort};

    /// Returns a port of a plan, before any event. Its queue capacities must be 1 to 4,096 frames. `make_port_state` calls it.
    pub fn new(alloc: A, plan: &PortPlan<A>) -> Result<PortState<A>, NoMemory>
        requires { are_valid_rooms plan.now.rooms ≡ true }
        ensures made { IfOk result (λ s. IsMadeByPlan plan.now s) }
        ensures new { IfOk result (λ s. IsIdlePort s) }
    {
        let list = match &plan.list {
            Some(list) => match list.copy(alloc) {
                Ok(list) => Some(list),
                Err(_) => return Err(NoMemory),
            },
            None => None,
        };
        let Ok(port) = Port::new(alloc, plan.speed, list, plan.rooms) else {
            return Err(NoMemory);
        };
        Ok(PortState {
            speed: plan.speed,
            vid: plan.vid,
            priority: plan.priority,
            classes: plan.classes,
            port,
            count: PortCount {
                frames: 0,
                malformed: 0,
                nowhere: 0,
                unfiltered: 0,
                sent: 0,
                dropped: 0,
            },
        })
    }

    /// Counts a frame that arrived at this port. `came` shows how the bridge handled it. `Ports::count_arrival` calls it.
    #[inline(always)]
    pub fn count_frame(&mut self, came: Ingress)
        requires few { self.old.count.frames < MAX_ARRIVALS }
        requires counted { self.old.count.malformed + self.old.count.nowhere + self.old.count.unfiltered
            ≤ self.old.count.frames }
        ensures { self.new ≡ record self.old { count = count_ingress self.old.count came } }
    {
        self.count.frames += 1;
        match came {
            Ingress::Malformed => self.count.malformed += 1,
            Ingress::Nowhere => self.count.nowhere += 1,
            Ingress::Unfiltered => self.count.unfiltered += 1,
            Ingress::Policed => {}
        }
    }

    /// Offers the copy `item` with priority `priority`, 0 to 7, to the port at time `t` in ns. If the port drops the copy, `back` receives
    /// its octets. `Ports::offer` calls it.
    #[inline(always)]
    pub fn offer(
        &mut self,
        t: u64,
        priority: u8,
        item: Item<QueuedFrame<A>>,
        back: &mut Option<Vec<u8, A>>,
    ) -> Result<(), Refusal>
        requires time { (self.old.port.earliest ≤ t) × (t < END_OF_TIME) }
        requires not_late { HasNoStartEarlier self.old.port t }
        requires length { item.len ≤ LONGEST_FRAME }
        requires few { self.old.port.offered < MAX_ARRIVALS }
        requires counted { self.old.count.sent + self.old.count.dropped ≡ self.old.port.offered }
        requires priority { priority ≤ 7 }
        requires class { slice_index self.old.classes priority < 8 }
        ensures moved { self.new ≡ offered_port self.old t (slice_index self.old.classes priority) item }
        ensures answer { result ≡ offer_result self.old (slice_index self.old.classes priority) item }
        ensures stands { (xs : List (Copy (Item (QueuedFrame A)))) → StandsFor self.old.port xs
            → StandsFor self.new.port (offered_copy self.old.port t (slice_index self.old.classes priority) item ∷ xs) }
        ensures counts { (f : Item (QueuedFrame A) → Bool)
            → count_queued f self.new.port ≡ (if is_none (offer_refusal self.old.port
            (slice_index self.old.classes priority) item) && f item then 1 else 0) + count_queued f self.old.port }
    {
        let class = self.classes[priority as usize];
        match self.port.offer(t, class, item) {
            Ok(()) => {
                self.count.sent += 1;
                Ok(())
            }
            Err((item, refusal)) => {
                self.count.dropped += 1;
                return_octets(item, back);
                Err(refusal)
            }
        }
    }

    /// Starts the port's next transmission, which is due at time `start` in ns, and returns the copy that started. `Ports::start` calls it.
    #[inline(always)]
    pub fn start(&mut self, start: u64) -> StartedFrame<A>
        requires due { IsNextStartTime self.old.port (Some start) }
        requires speed { self.old.port.speed ≡ self.old.speed }
        ensures next { IsNextStart self.old.port start result.class result.item }
        ensures moved { self.new ≡ started_port self.old start result.class result.item }
        ensures stands { (xs : List (Copy (Item (QueuedFrame A)))) → StandsFor self.old.port xs
            → HasStartedOldest self.new.port result.class start result.item xs }
        ensures counts { (f : Item (QueuedFrame A) → Bool)
            → count_queued f self.old.port ≡ (if f result.item then 1 else 0) + count_queued f self.new.port }
        ensures done { result.done ≡ start + transmission_time result.item.len self.old.speed }
        ensures bounded { result.done < time_limit (self.old.port.started + 1) }
        ensures early { result.done < END_OF_SENDING }
        ensures length { result.item.len ≤ LONGEST_FRAME }
    {
        let (item, class) = self.port.start();
        let done = self.port.free_time();
        StartedFrame { class, done, item }
    }
}

/// Moves the octets of a dropped copy to `back`. The relay then returns them to the pool of spare buffers. `offer` calls it.
#[inline(always)]
fn return_octets<A: Allocator + Copy>(item: Item<QueuedFrame<A>>, back: &mut Option<Vec<u8, A>>) {
    let Item { load, .. } = item;
    let QueuedFrame { octets, .. } = load;
    *back = Some(octets);
}
