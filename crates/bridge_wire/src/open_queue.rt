//! One queue of a port whose gates are always open.
ghost use Rattle.std.specs.Prelude.{◌≡◌, ◌≢◌, ◌≤◌, ◌<◌, ◌+◌, ◌-◌, ℕ, List, Some, Err, true, [], is_none, max, length, take, slice_get, vec_len, nat_lt, if◌then◌else◌, All, Vec, IfOk, IfSome, OnOk};
ghost use Rattle.bridge_capture.specs.CaptureReaders.{IsReader, frames_left};
ghost use Rattle.bridge_capture.specs.Grammar.{CapturedFrame};
ghost use Rattle.bridge_capture.specs.StandsFor.{IsReading, records_left, StandsFor as StandsForFrames};
ghost use Rattle.bridge_limits.specs.declared.TheConstants.{LONGEST_FRAME, MAX_ARRIVALS};
ghost use Rattle.bridge_frame.specs.Link.{transmission_time};
ghost use Rattle.bridge_port.specs.StandsFor.{class_queue, offer_refusal, offered_state, started_state, time_limit, IsNextStartTime, StandsFor};
ghost use Rattle.bridge_wire.specs.Rings.{IsRing, one_queue_state, ring_items};

use bridge_capture::{ByteSource, Capture, CaptureFault, PacketInfo};
use bridge_frame::{Speed, occupation};
use bridge_limits::{END_OF_SENDING, END_OF_TIME, LONGEST_FRAME, MAX_ARRIVALS, NoMemory};
use bridge_port::{Item, LARGEST_ROOM};
use std::alloc::Allocator;

/// Queue of frames for a link, first in, first out. One more place has the frame ahead, the capture's next frame: offering and starting it
/// later moves no octets.
///
/// The queue obeys the rules of a `Port` whose gates are always open. The oldest frame starts as soon as the link is free, so no call
/// computes when a frame fits.
#[derive(Drop)]
pub struct OpenQueue<A: Allocator + Copy> {
    /// Speed of the link.
    speed: Speed,
    /// Places in a ring: queued frames, the frame ahead, then places whose contents have no meaning.
    places: Vec<Item<Vec<u8, A>>, A>,
    /// Index of the oldest queued frame.
    head: usize,
    /// Index of the frame ahead.
    tail: usize,
    /// Number of queued frames.
    queued: usize,
    /// Time in ns from which the link is free.
    free: u64,
    /// Earliest time in ns at which the next offer may be made.
    earliest: u64,
    /// Number of offers so far.
    offered: u64,
    /// Number of transmissions that the queue has started.
    started: u64,
    ghost ring: { IsRing (vec_len places) head tail queued },
    ghost short: { All (λ x. x.len ≤ LONGEST_FRAME) (take queued (ring_items head places.items)) },
    ghost freed: { free ≤ time_limit started },
    ghost met: { earliest ≤ time_limit started },
    ghost counted: { started + queued ≤ offered },
    ghost few: { offered ≤ MAX_ARRIVALS },
}

impl<A: Allocator + Copy> OpenQueue<A> {
    ghost use Rattle.bridge_port.specs.declared.item.Item.{Item};
    ghost use Rattle.bridge_wire.specs.OpenQueues.{ReadsPlace, place_ahead, queue_reader, queue_state};

    /// Makes an empty queue for `room` frames, with a frame ahead. Allocates memory once; reading later frames allocates memory for their
    /// octets. `wire` calls it.
    pub fn new(
        alloc: A,
        speed: Speed,
        room: u16,
        ahead: Item<Vec<u8, A>>,
    ) -> Result<OpenQueue<A>, NoMemory>
        requires room { (1 ≤ room) × (room ≤ LARGEST_ROOM) }
        ensures new { IfOk result (λ queue. queue_state queue ≡ one_queue_state speed room [] 0 0 0 0) }
        ensures stands { IfOk result (λ queue. StandsFor (queue_state queue) []) }
        ensures ahead { IfOk result (λ queue. place_ahead queue ≡ Some ahead) }
    {
        let Ok(mut places) = Vec::with_capacity(alloc, room as usize + 1) else {
            return Err(NoMemory);
        };
        let Ok(()) = places.push(ahead) else {
            return Err(NoMemory);
        };
        let Ok(()) = add_places(alloc, &mut places, room) else {
            return Err(NoMemory);
        };
        Ok(OpenQueue {
            speed,
            places,
            head: 0,
            tail: 0,
            queued: 0,
            free: 0,
            earliest: 0,
            offered: 0,
            started: 0,
        })
    }

    /// Returns the frame ahead: its length and its octets. `offer_frame` calls it.
    #[inline(always)]
    pub fn ahead(&self) -> &Item<Vec<u8, A>>
        ensures { place_ahead self.now ≡ Some result.now }
    {
        &self.places[self.tail]
    }

    /// Reads the next record of a capture into the place ahead, and returns its arrival time in ns; `None` at the end of the capture.
    ///
    /// Fails if the record is refused, the source fails or memory runs out. `process_frame` calls it after the frame ahead was offered.
    #[inline(always)]
    pub fn read_ahead<R: ByteSource>(
        &mut self,
        capture: &mut Capture,
        source: &mut R,
    ) -> Result<Option<u64>, CaptureFault>
        requires reading { IsReading capture.old }
        ensures looks { (text : List ℕ) (taken : List CapturedFrame)
            → StandsForFrames capture.old (R.remaining source.old) text taken →
            ReadsPlace capture.new self.new (R.remaining source.new) text taken result }
        ensures lane { IfOk result (λ time. IsReader (queue_reader capture.new time self.new)) }
        ensures onward { IfOk result (λ time. (t : ℕ) → time ≡ Some t → capture.old.latest ≤ t) }
        ensures fewer { IfOk result (λ time. frames_left (queue_reader capture.new time self.new)
            ≤ records_left capture.old) }
        ensures same { queue_state self.new ≡ queue_state self.old }
        ensures read { result ≡ Err CaptureFault.Read → R.has_failed source.new ≡ true }
        ensures sure { R.never_fails source.old ≡ true → result ≢ Err CaptureFault.Read }
        ensures lasts { R.never_fails source.old ≡ true → R.never_fails source.new ≡ true }
        ensures no_write { result ≢ Err CaptureFault.Write }
    {
        let place = &mut self.places[self.tail];
        match capture.read_packet(&mut place.load, source) {
            Ok(Some(PacketInfo { time, len })) => {
                place.len = len;
                Ok(Some(time))
            }
            Ok(None) => Ok(None),
            Err(fault) => Err(fault),
        }
    }

    /// Returns the oldest queued frame. `send_next` and `end_of_transmission` call it.
    #[inline(always)]
    pub fn oldest(&self) -> &Item<Vec<u8, A>>
        requires { 0 < self.now.queued }
        ensures { slice_get (class_queue (queue_state self.now) 0) 0 ≡ Some result.now }
    {
        &self.places[self.head]
    }

    /// Returns the time in ns at which the next transmission starts if nothing more is offered; `None` if no frame is queued.
    /// `send_due_frames` calls it.
    #[inline(always)]
    pub fn next_start(&self) -> Option<u64>
        ensures due { IsNextStartTime (queue_state self.now) result }
        ensures some { IfSome result (λ k. (k ≡ max self.now.free self.now.earliest) × (0 < self.now.queued)) }
        ensures early { IfSome result (λ k. k < END_OF_SENDING) }
    {
        if self.queued == 0 {
            return None;
        }
        Some(self.free.max(self.earliest))
    }

    /// Returns when the transmission of the oldest frame ends, in ns, if it starts at `start`. `send_next` calls it.
    #[inline(always)]
    pub fn end_of_transmission(&self, start: u64) -> u64
        requires due { start ≡ max self.now.free self.now.earliest }
        requires some { 0 < self.now.queued }
        ensures soon { result ≤ start + 7_392_000 }
        ensures early { result < END_OF_SENDING }
        ensures end { (x : Item (Vec ℕ A)) → slice_get (class_queue (queue_state self.now) 0) 0 ≡ Some x
            → result ≡ start + transmission_time x.len self.now.speed }
    {
        start + occupation(self.oldest().len, self.speed)
    }

    /// Starts the oldest frame at `start` ns. Its transmission ends at `end` ns. `send_next` calls it.
    #[inline(always)]
    pub fn start(&mut self, start: u64, end: u64)
        requires due { start ≡ max self.old.free self.old.earliest }
        requires some { 0 < self.old.queued }
        requires soon { end ≤ start + 7_392_000 }
        requires end { (x : Item (Vec ℕ A)) → slice_get (class_queue (queue_state self.old) 0) 0 ≡ Some x
            → end ≡ start + transmission_time x.len self.old.speed }
        ensures moved { (x : Item (Vec ℕ A)) → slice_get (class_queue (queue_state self.old) 0) 0 ≡ Some x
            → queue_state self.new ≡ started_state (queue_state self.old) start 0 x }
        ensures same { (self.new.speed ≡ self.old.speed) × ((queue_state self.new).rooms ≡ (queue_state self.old).rooms)
            × (self.new.offered ≡ self.old.offered) × (place_ahead self.new ≡ place_ahead self.old) }
        ensures fewer { self.new.queued < self.old.queued }
        ensures next { self.new.earliest ≡ start + 1 }
    {
        self.free = end;
        self.earliest = start + 1;
        self.started += 1;
        self.queued -= 1;
        self.head = next_index(self.head, self.places.len());
    }

    /// Offers the frame ahead at `t` ns, and returns whether it was queued. A full queue drops it. `offer_frame` calls it for each
    /// well-formed frame.
    #[inline(always)]
    pub fn offer(&mut self, t: u64) -> bool
        requires time { (self.old.earliest ≤ t) × (t < END_OF_TIME) }
        requires length { (x : Item (Vec ℕ A)) → place_ahead self.old ≡ Some x → x.len ≤ LONGEST_FRAME }
        requires few { self.old.offered < MAX_ARRIVALS }
        ensures answer { (x : Item (Vec ℕ A)) → place_ahead self.old ≡ Some x
            → result ≡ is_none (offer_refusal (queue_state self.old) 0 x) }
        ensures moved { (x : Item (Vec ℕ A)) → place_ahead self.old ≡ Some x
            → queue_state self.new ≡ offered_state (queue_state self.old) t 0 x }
        ensures same { (self.new.speed ≡ self.old.speed) × (self.new.earliest ≡ t)
            × (self.new.offered ≡ self.old.offered + 1) }
    {
        self.earliest = t;
        self.offered += 1;
        if self.queued + 1 >= self.places.len() {
            return false;
        }
        self.queued += 1;
        self.tail = next_index(self.tail, self.places.len());
        true
    }
}

/// Adds `room` places without a frame to the ring. `new` calls it.
fn add_places<A: Allocator + Copy>(
    alloc: A,
    places: &mut Vec<Item<Vec<u8, A>>, A>,
    room: u16,
) -> Result<(), NoMemory>
    requires one { vec_len places.old ≡ 1 }
    ensures count { OnOk result (vec_len places.new ≡ room + 1) }
    ensures first { OnOk result (slice_get places.new.items 0 ≡ slice_get places.old.items 0) }
{
    for _ in 0..room {
        let Ok(()) = places.push(Item {
            len: 0,
            load: Vec::new(alloc),
        }) else {
            return Err(NoMemory);
        };
    }
    Ok(())
}

/// Returns the index after `index` in a ring of `count` places. The index after the last one is 0. `start` and `offer` call it.
#[inline(always)]
fn next_index(index: usize, count: usize) -> usize
    requires { index < count }
    ensures within { result < count }
    ensures next { result ≡ (if nat_lt (index + 1) count then index + 1 else 0) }
{
    if index + 1 < count { index + 1 } else { 0 }
}
