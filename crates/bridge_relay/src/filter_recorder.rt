//! The record of one filter during a run: verdicts, origins, departures and dropped copies.
ghost use Rattle.std.specs.Prelude.{◌≡◌, true, false, ◌<◌, ◌≤◌, ◌+◌, ◌-◌, ◌^◌, ◌++◌, ◌∷◌, [], Option, None, OnErr, OnOk, length, vec_capacity, vec_len};
ghost use Rattle.bridge_filter.specs.Verdicts.{HasValidPriority};
ghost use Rattle.bridge_relay.specs.Recorders.{RecorderState, longer_delay};
ghost use Rattle.bridge_relay.specs.Records.{empty_recorder, HasRecorded};

use bridge_cycle::NoMemory;
use bridge_filter::Verdict;
use bridge_semantics::{Origin, StoredDeparture, StoredDrop, StoredOrigin, StoredVerdict};
use std::alloc::Allocator;
use std::marker::Model;
use std::mem;

/// Largest number of a filter's frames: frame numbers have 32 bits. A run has fewer frames.
const MAX_FRAMES: usize = 4_294_967_295;

/// Number of items from which a full list doubles. A shorter list grows by half.
const SHORT_LIST: usize = 1024;

/// Reserves capacity for `more` further items of `list`. Short lists grow by half, because a run with many filters has many short lists.
/// `reserve_room` calls it.
#[inline(always)]
fn reserve_items<T, A: Allocator>(list: &mut Vec<T, A>, more: usize) -> Result<(), NoMemory>
    ensures items { list.new.items ≡ list.old.items }
    ensures length { vec_len list.new ≡ vec_len list.old }
    ensures room { vec_capacity list.old ≤ vec_capacity list.new }
    ensures ok { OnOk result (vec_len list.new + more ≤ vec_capacity list.new) }
{
    if list.capacity() - list.len() < more {
        return grow_list(list, more);
    }
    Ok(())
}

/// Grows a list that has no capacity for `more` further items. `reserve_items` calls it; a separate function keeps the common case short.
#[cold]
#[inline(never)]
fn grow_list<T, A: Allocator>(list: &mut Vec<T, A>, more: usize) -> Result<(), NoMemory>
    ensures items { list.new.items ≡ list.old.items }
    ensures length { vec_len list.new ≡ vec_len list.old }
    ensures room { vec_capacity list.old ≤ vec_capacity list.new }
    ensures ok { OnOk result (vec_len list.new + more ≤ vec_capacity list.new) }
{
    let step = if list.len() < SHORT_LIST {
        list.len() / 2
    } else {
        list.len()
    };
    match list.reserve_exact(step.max(more).max(4)) {
        Ok(()) => Ok(()),
        Err(_) => Err(NoMemory),
    }
}

/// Record of a filter, moved out of its recorder when a run ends. `make_view` puts its lists into the result.
#[derive(Drop)]
pub struct FilterRecord<A: Allocator + Copy> {
    /// Verdict of each frame, in the order of arrival.
    pub verdicts: Vec<StoredVerdict, A>,
    /// Ingress port and arrival time of each frame.
    pub origins: Vec<StoredOrigin, A>,
    /// Copies of the filter's frames that left.
    pub departures: Vec<StoredDeparture, A>,
    /// Copies that ports dropped.
    pub drops: Vec<StoredDrop, A>,
    /// Longest delay in ns; `None` without departures.
    pub delay: Option<u64>,
}

/// Growing record of a filter. It has reserved capacity for all `owed` copies, which are queued or about to be offered. Each will leave or
/// be dropped.
#[derive(Drop)]
pub struct FilterRecorder<A: Allocator + Copy> {
    /// Number of copies that are queued or about to be offered.
    owed: usize,
    /// Whether capacity for a verdict is reserved.
    is_open: bool,
    /// Longest delay in ns so far.
    delay: Option<u64>,
    /// Verdict of each frame.
    verdicts: Vec<StoredVerdict, A>,
    /// Ingress port and arrival time of each frame.
    origins: Vec<StoredOrigin, A>,
    /// Copies of the filter's frames that left so far.
    departures: Vec<StoredDeparture, A>,
    /// Copies that ports dropped so far.
    drops: Vec<StoredDrop, A>,
}

impl<A: Allocator + Copy> Model for FilterRecorder<A> {
    ghost use Rattle.bridge_relay.specs.Recorders.{RecorderState, HasRoom};

    ghost Value = { RecorderState };

    ghost view = { λ t. record {
      verdicts = t.verdicts.items;
      origins = t.origins.items;
      departures = t.departures.items;
      drops = t.drops.items;
      delay = t.delay;
      owed = t.owed;
      is_open = t.is_open;
    } };

    ghost invariant = { λ t. HasRoom t.verdicts t.origins t.departures t.drops t.owed t.is_open };
}

impl<A: Allocator + Copy> FilterRecorder<A> {
    /// Returns a recorder as it is before the first frame. Allocates no memory. `take_record` and `make_recorders` call it.
    pub fn new(alloc: A) -> FilterRecorder<A>
        ensures { result ≡ record {
          verdicts = [];
          origins = [];
          departures = [];
          drops = [];
          delay = None;
          owed = 0;
          is_open = false;
        } }
    {
        FilterRecorder {
            owed: 0,
            is_open: false,
            delay: None,
            verdicts: Vec::new(alloc),
            origins: Vec::new(alloc),
            departures: Vec::new(alloc),
            drops: Vec::new(alloc),
        }
    }

    /// Reserves capacity for one verdict and for `copies` further copies, so that recording them can't fail. Fails if memory runs out, or
    /// the filter has 4,294,967,295 frames.
    ///
    /// `reserve_room` in `filter_recorders.rt` calls it.
    #[inline(always)]
    pub fn reserve_room(&mut self, copies: usize) -> Result<(), NoMemory>
        requires { self.old.owed + copies < 2 ^ 32 }
        ensures ok { OnOk result (self.new ≡ record self.old { owed = self.old.owed + copies; is_open = true }) }
        ensures err { OnErr result (self.new ≡ self.old) }
    {
        let owed = self.owed + copies;
        if self.verdicts.len() >= MAX_FRAMES {
            return Err(NoMemory);
        }
        let Ok(()) = reserve_items(&mut self.verdicts, 1) else {
            return Err(NoMemory);
        };
        let Ok(()) = reserve_items(&mut self.origins, 1) else {
            return Err(NoMemory);
        };
        let Ok(()) = reserve_items(&mut self.departures, owed) else {
            return Err(NoMemory);
        };
        let Ok(()) = reserve_items(&mut self.drops, owed) else {
            return Err(NoMemory);
        };
        self.owed = owed;
        self.is_open = true;
        Ok(())
    }

    /// Appends a verdict and its frame's origin. Returns the frame's number among the filter's frames, from 1. `record_verdict` in
    /// `filter_recorders.rt` calls it.
    #[inline(always)]
    pub fn record_verdict(&mut self, verdict: Verdict, origin: Origin) -> u32
        requires open { self.old.is_open ≡ true }
        requires priority { HasValidPriority verdict }
        ensures told { self.new ≡ record self.old {
          verdicts = self.old.verdicts ++ verdict ∷ [];
          origins = self.old.origins ++ origin ∷ [];
          is_open = false;
        } }
        ensures own { result ≡ length self.old.verdicts + 1 }
    {
        self.is_open = false;
        self.verdicts.push_reserved(StoredVerdict::new(verdict));
        self.origins.push_reserved(StoredOrigin::new(origin));
        self.verdicts.len() as u32
    }

    /// Releases the reservation of `copies` copies of a frame that the filter refused: they will be offered to no port. `release_room` in
    /// `filter_recorders.rt` calls it.
    pub fn release_room(&mut self, copies: usize)
        requires { copies ≤ self.old.owed }
        ensures { self.new ≡ record self.old { owed = self.old.owed - copies } }
    {
        self.owed -= copies;
    }

    /// Appends a dropped copy. Uses the capacity that `reserve_room` reserved, so it can't fail. `record_answer` calls it.
    pub fn record_drop(&mut self, dropped: StoredDrop)
        requires { 0 < self.old.owed }
        ensures { self.new ≡ record self.old { drops = self.old.drops ++ dropped ∷ []; owed = self.old.owed - 1 } }
    {
        self.owed -= 1;
        self.drops.push_reserved(dropped);
    }

    /// Appends a copy that left, `delay` ns after its frame's arrival, and updates the longest delay. Uses reserved capacity, so it can't
    /// fail.
    ///
    /// `record_departure` in `filter_recorders.rt` calls it.
    #[inline(always)]
    pub fn record_departure(&mut self, departure: StoredDeparture, delay: u64)
        requires { 0 < self.old.owed }
        ensures { self.new ≡ record self.old {
          departures = self.old.departures ++ departure ∷ [];
          delay = longer_delay self.old.delay delay;
          owed = self.old.owed - 1;
        } }
    {
        self.owed -= 1;
        self.departures.push_reserved(departure);
        self.delay = match self.delay {
            Some(longest) => Some(longest.max(delay)),
            None => Some(delay),
        };
    }

    /// Returns the record, and leaves an empty recorder. Allocates no memory. `take_filter_record` calls it when a run ends.
    pub fn take_record(&mut self, alloc: A) -> FilterRecord<A>
        ensures told { HasRecorded self.old result }
        ensures fresh { self.new ≡ empty_recorder }
    {
        let FilterRecorder {
            verdicts,
            origins,
            departures,
            drops,
            delay,
            ..
        } = mem::replace(self, FilterRecorder::new(alloc));
        FilterRecord {
            verdicts,
            origins,
            departures,
            drops,
            delay,
        }
    }
}
