//! The relay: ports, filters and records of one bridge, and the steps by which it handles a frame.
ghost use Rattle.std.specs.Option.{option_map};
ghost use Rattle.bridge_filter.specs.Verdicts.{frame_filter};
ghost use Rattle.bridge_config.specs.declared.ports.PortPlan.{PortPlan};
ghost use Rattle.bridge_relay.specs.declared.port_state.PortState.{PortState};
ghost use Rattle.bridge_filter.specs.Plans.{is_listed};
ghost use Rattle.bridge_filter.specs.Routes.{IsFoundRoute};
ghost use Rattle.bridge_semantics.specs.declared.destination.Destination.TheVariants.{Forwarded};
ghost use Rattle.bridge_semantics.specs.Events.{frame_destination};
ghost use Rattle.bridge_relay.specs.Recorders.{update_if_some, with_room};
ghost use Rattle.bridge_relay.specs.Ports.{count_outputs, port_state, is_output};
ghost use Rattle.bridge_filter.specs.Verdicts.{HasValidPriority};
ghost use Rattle.bridge_filter.specs.declared.Ruling.{Ruling};
ghost use Rattle.bridge_relay.specs.Recorders.{AwaitsVerdict};
ghost use Rattle.bridge_relay.specs.RelayedFrames.{classify, input_filter_number, relay_before_frame, relay_with_release, HasPoliced, HasUncountedFrame, HasSequence, AwaitsCopies, HasDestinationPriority, IsForwarded, HasOfferedCopy, IsPrepared, CanRelay, IsOfferingSet, HasCopies, HasCountedFrame, IsUnforwarded, leaving_frame};
ghost use Rattle.std.specs.Prelude.{true, false, IfSome, IsTrue, All, OnErr, max, slice_index, ◌≡◌, ℕ, ◌<◌, ◌≤◌, ◌+◌, ◌*◌, ◌^◌, List, [], ◌∷◌, Some, None, Option, length, OnOk, IfErr, IfOk};
ghost use Rattle.bridge_config.specs.Model as config;
ghost use Rattle.bridge_ident.specs.Identification.{first_handle};
ghost use Rattle.bridge_config.specs.Rules.{find_port};
ghost use Rattle.bridge_config.specs.Commands.{has_instance};
ghost use Rattle.bridge_capture.specs.Grammar.{CapturedFrame};
ghost use Rattle.bridge_events.specs.Least.{IsLeast};
ghost use Rattle.bridge_semantics.specs.Events.{Arrival, Event, Arrived, Cleared, arrival};
ghost use Rattle.bridge_semantics.specs.NextStarts.{ReachesStart, SendsHead};
ghost use Rattle.bridge_relay.specs.Ports.{StartsNoEarlier, HasLaterStarts};
ghost use Rattle.bridge_relay.specs.RelayState.{sent_record, with_sent_frame, RelayState, RelayStandsFor, IsSent, count_waiting_copies, AwaitsCopy, IsSound, is_filter_unknown};

use crate::copies::{make_copies, mark_if_eligible, return_copies};
use crate::filter_recorders::{
    FilterRecorders, record_answer, record_departure, record_verdict, release_room, reserve_room,
};
use crate::port_state::{Ingress, StartedFrame};
use crate::ports::Ports;
use bridge_capture::{BufferPool, Packet};
use bridge_config::Plan;
use bridge_cycle::NoMemory;
use bridge_events::Agenda;
use bridge_filter::{Clear, FilterInput, Police, Route, Ruling, Verdict};
use bridge_forward::PortSet;
use bridge_frame::{Head, Tag, parse};
use bridge_ident::Ident;
use bridge_limits::{END_OF_TIME, LONGEST_FRAME, MAX_ARRIVALS, MAX_CAPTURED_OCTETS};
use bridge_port::Item;
use bridge_semantics::{Destination, Origin, QueuedFrame, StoredDeparture};
use std::alloc::Allocator;
use std::marker::Model;
use std::mem;

/// Largest index of a recorder that a queued frame can store.
const MAX_RECORDERS: usize = 4_294_967_295;

/// Returns the stream handle of a frame with the header `head` in VLAN `vid`, which arrived on port `port`; `None` if no stream entry
/// matches. `find_destination` calls it.
#[inline(always)]
fn stream_handle<A: Allocator + Copy>(
    ident: &Ident<A>,
    port: u8,
    head: &Head,
    vid: u16,
) -> Option<u32>
    ensures { result ≡ first_handle ident.now port head.now vid }
{
    ident.handle_of(port, head, vid)
}

/// Relay of a bridge, over a borrowed plan: stream entries, filters, ports and recorders.
#[derive(Drop)]
pub struct Relay<'a, G: Agenda + Drop, A: Allocator + Copy> {
    /// Allocator of copies and records.
    pub(crate) alloc: A,
    /// Plan of the bridge, accepted by `check`.
    pub(crate) plan: &'a Plan<A>,
    /// Stream entries, for the look-up of a frame's stream handle.
    pub(crate) ident: Ident<A>,
    /// Stream filters with their gates and meters.
    pub(crate) police: Police<A>,
    /// Ports with their queues and next starts.
    pub(crate) ports: Ports<G, A>,
    /// Recorders of the filters.
    pub(crate) tables: FilterRecorders<A>,
    /// Number of frames that have arrived.
    pub(crate) arrived: u64,
    /// Earliest time in ns at which the next event may happen.
    pub(crate) earliest: u64,
    /// Empty list with the memory for a frame's copies, so that a frame with several egress ports allocates no list.
    pub(crate) copies: Vec<Vec<u8, A>, A>,
}

impl<'a, G: Agenda + Drop, A: Allocator + Copy> Model for Relay<'a, G, A> {
    ghost use Rattle.bridge_relay.specs.RelayState.{RelayState, IsSound};

    ghost Value = { RelayState G A };

    ghost view = { λ b. record {
      plan = b.plan.now;
      streams = b.ident;
      police = b.police;
      ports = b.ports;
      tables = b.tables.entries;
      arrived = b.arrived;
      earliest = b.earliest;
    } };

    ghost invariant = { λ b. IsSound G.held (record {
      plan = b.plan.now;
      streams = b.ident;
      police = b.police;
      ports = b.ports;
      tables = b.tables.entries;
      arrived = b.arrived;
      earliest = b.earliest;
    }) };
}

/// Frame whose transmission has started, with its start and end. `advance` returns it.
#[derive(Drop)]
pub struct Sent<A: Allocator + Copy> {
    /// Egress port by which the frame leaves.
    pub port: u8,
    /// Class of the queue in which the frame waited, 0 to 7.
    pub class: u8,
    /// Start of transmission in ns.
    pub start: u64,
    /// End of transmission in ns, gap included.
    pub done: u64,
    /// Length on the link in octets.
    pub len: u32,
    /// Octets of the frame, as they are sent.
    pub octets: Vec<u8, A>,
}

impl<'a, G: Agenda + Drop, A: Allocator + Copy> Relay<'a, G, A> {
    /// Returns the port that starts a transmission next, and the start time in ns. At equal times, the lowest port is next. Returns `None`
    /// if no copy is queued.
    ///
    /// `send_due_frames` and `Bridge::due` of `bridge_core` call it.
    pub fn due(&self) -> Option<(u8, u64)>
        ensures { IsLeast (G.held self.now.ports.agenda) result }
    {
        self.ports.due()
    }

    /// Returns the number of frames that have arrived so far. `Bridge::arrived` of `bridge_core` calls it.
    pub fn arrived(&self) -> u64
        ensures { result ≡ self.now.arrived }
    {
        self.arrived
    }

    /// Returns the number of transmissions that port `port` has started. `Bridge::started` of `bridge_core` calls it.
    pub fn started(&self, port: u8) -> u64
        requires known { (out : PortPlan A) × (find_port self.now.plan.ports port ≡ Some out) }
        ensures { (p : config.Plan A) (es : List Event) (left : ℕ → List CapturedFrame)
            → RelayStandsFor p self.now es left
            → result ≡ length (left port) }
    {
        let _plan = self.plan;
        self.ports.started(port)
    }

    /// Returns the earliest time in ns at which the next event may happen. `Bridge::earliest` of `bridge_core` calls it.
    pub fn earliest(&self) -> u64
        ensures { result ≡ self.now.earliest }
    {
        self.earliest
    }

    /// Starts the transmission that is next among all ports, records the departure, and returns the frame. A copy must be queued. Allocates
    /// no memory.
    ///
    /// `send_due_frames` and `Bridge::advance` of `bridge_core` call it.
    #[inline(always)]
    pub fn advance(&mut self) -> Sent<A>
        requires { (q k : ℕ) × (G.held self.old.ports.agenda q ≡ Some k) }
        ensures stands { (p : config.Plan A) (es : List Event) (left : ℕ → List CapturedFrame)
            → RelayStandsFor p self.old es left
            → RelayStandsFor p self.new es (with_sent_frame left result) }
        ensures sends { (p : config.Plan A) (es : List Event) (left : ℕ → List CapturedFrame)
            → RelayStandsFor p self.old es left
            → SendsHead p es left result.port result.class result.start (sent_record result) }
        ensures reaches { (p : config.Plan A) (es : List Event) (left : ℕ → List CapturedFrame)
            → RelayStandsFor p self.old es left
            → ReachesStart p es result.start result.port (with_sent_frame left result) }
        ensures which { IsLeast (G.held self.old.ports.agenda) (Some (result.port, result.start)) }
        ensures sent { IsSent self.old self.new result }
        ensures later { HasLaterStarts (G.held self.new.ports.agenda) result.port result.start }
        ensures fewer { count_waiting_copies self.new + 1 ≡ count_waiting_copies self.old }
        ensures same { (self.new.plan ≡ self.old.plan) × (self.new.arrived ≡ self.old.arrived) }
        ensures port { 1 ≤ result.port }
        ensures writable { (result.done < 2 ^ 32 * 10 ^ 9) × (length result.octets.items ≤ result.len)
            × (result.len ≤ LONGEST_FRAME) }
    {
        let (port, start, begun) = self.ports.start();
        let StartedFrame { class, done, item } = begun;
        let Item { len, load } = item;
        let QueuedFrame {
            at,
            flow,
            own,
            recorder,
            octets,
        } = load;
        let departure = StoredDeparture::new(own, port, start, done);
        record_departure(
            &mut self.tables,
            flow,
            recorder as usize,
            departure,
            done.saturating_sub(at),
        );
        self.earliest = self.earliest.max(start + 1);
        Sent {
            port,
            class,
            start,
            done,
            len,
            octets,
        }
    }

    /// Clears the flag `clear` of the filter, stream gate or meter with number `number`, at time `t` in ns. Allocates no memory.
    /// `process_command` and `Bridge::command` of `bridge_core` call it.
    pub fn clear(&mut self, t: u64, clear: Clear, number: u32)
        requires time { self.old.earliest ≤ t }
        requires instance { IsTrue (has_instance self.old.plan clear number) }
        ensures stands { (p : config.Plan A) (es : List Event) (left : ℕ → List CapturedFrame)
            → RelayStandsFor p self.old es left
            → RelayStandsFor p self.new (Cleared clear number ∷ es) left }
        ensures moved { (self.new.earliest ≡ t) × (self.new.arrived ≡ self.old.arrived)
            × (self.new.plan ≡ self.old.plan) × (self.new.ports ≡ self.old.ports) }
    {
        self.police.clear(clear, number);
        self.earliest = t;
    }

    /// Returns egress ports and filter input of the frame `octets`, which arrived on port `port` at time `at` in ns with length `len`. If
    /// the frame isn't forwarded, returns the reason. `arrive` calls it.
    #[inline(always)]
    fn find_destination(&self, at: u64, port: u8, octets: &[u8], len: u32) -> Destination
        requires from { 1 ≤ port }
        requires to { port ≤ 16 }
        requires captured { (length octets.now ≤ MAX_CAPTURED_OCTETS) × (length octets.now ≤ len) }
        ensures way { result ≡ frame_destination self.now.plan (arrival at port octets.now len) }
        ensures priority { HasDestinationPriority result }
        ensures length { IsForwarded result → len ≤ LONGEST_FRAME }
    {
        let Some((vid, priority)) = self.ports.ingress_defaults(port) else {
            return Destination::Nowhere;
        };
        let Ok(head) = parse(octets, len) else {
            return Destination::Malformed;
        };
        let (vid, priority, dei) = classify(head.tag, vid, priority);
        let set = self.plan.forward(port, vid, &head.da);
        if set.bits() == 0 {
            return Destination::Nowhere;
        }
        let call = FilterInput {
            at,
            handle: stream_handle(&self.ident, port, &head, vid),
            priority,
            dei,
            sdu: head.sdu,
            octets: len.max(60) + 4,
        };
        Destination::Forwarded { set, call }
    }

    /// Copies `octets` for every existing port of `set` except the last, which gets the frame's own buffer. Reserves capacity in the
    /// recorder of filter `filter` (index `hint`), and counts the arrival.
    ///
    /// If memory runs out, the relay is unchanged. `arrive` calls it.
    #[inline(always)]
    fn prepare_copies(
        &mut self,
        set: PortSet,
        filter: Option<u32>,
        hint: usize,
        octets: &[u8],
        spares: &mut BufferPool<A>,
    ) -> Result<Vec<Vec<u8, A>, A>, NoMemory>
        requires there { IfSome filter (λ n. IsTrue (is_listed n self.old.plan.filters)) }
        requires few { self.old.arrived < MAX_ARRIVALS }
        ensures copies { IfOk result (λ copies. (length copies.items + 1
            ≡ max 1 (count_outputs self.old.ports.slots set 16))
            × All (λ v. v.items ≡ octets.now) copies.items) }
        ensures ok { OnOk result (self.new ≡ record self.old {
          arrived = self.old.arrived + 1;
          tables = update_if_some filter
              (λ t. with_room t (count_outputs self.old.ports.slots set 16)) self.old.tables;
        }) }
        ensures err { OnErr result (self.new ≡ self.old) }
        ensures sound { OnOk result (IsSound G.held self.new) }
    {
        let (count, _) = self.ports.count_outputs(set);
        let Ok(copies) = make_copies(
            self.alloc,
            &mut self.copies,
            octets,
            count.saturating_sub(1),
            spares,
        ) else {
            return Err(NoMemory);
        };
        let Ok(()) = reserve_room(&mut self.tables, filter, hint, count) else {
            return Err(NoMemory);
        };
        self.arrived += 1;
        Ok(copies)
    }

    /// Offers the copy `load`, of `len` octets with priority `priority`, to port `number`. If the port drops it, the recorder records the
    /// drop, and its buffer returns to the pool. `offer_copy` calls it.
    #[inline(always)]
    fn offer_to_port(
        &mut self,
        number: u8,
        priority: u8,
        len: u32,
        load: QueuedFrame<A>,
        spares: &mut BufferPool<A>,
    )
        requires from { 1 ≤ number }
        requires there { (s : PortState A) × (port_state self.old.ports number ≡ Some s) }
        requires time { (self.old.earliest ≤ load.at) × (load.at < END_OF_TIME) }
        requires due { StartsNoEarlier (G.held self.old.ports.agenda) load.at }
        requires awaited { IfSome load.flow (λ n. AwaitsCopy self.old n load.own number) }
        requires right { is_filter_unknown self.old.plan.filters load.flow ≡ false }
        requires fresh { (s : PortState A) → port_state self.old.ports number ≡ Some s → s.port.offered
            < self.old.arrived }
        requires length { (len ≤ LONGEST_FRAME) × (length load.octets.items ≤ len) }
        requires priority { priority ≤ 7 }
        requires few { self.old.arrived ≤ MAX_ARRIVALS }
        ensures offered { (s : PortState A) → port_state self.old.ports number ≡ Some s
            → HasOfferedCopy self.old self.new number s (slice_index s.classes priority) (record
            { len = len; load = load }) }
        ensures due { StartsNoEarlier (G.held self.new.ports.agenda) load.at }
        ensures sound { IsSound G.held self.new }
    {
        let t = load.at;
        let flow = load.flow;
        let own = load.own;
        let hint = load.recorder as usize;
        let mut back = None;
        let answer = self
            .ports
            .offer(number, t, priority, Item { len, load }, &mut back);
        return_octets(back, spares);
        record_answer(&mut self.tables, flow, hint, own, number, answer);
        self.earliest = t;
    }

    /// Offers a copy of `len` octets with priority `priority` to port `number` of `set`, after the lower ports of `set`. If `eligible` is
    /// true, first marks its tag drop eligible. `offer_listed_copy` and `offer_only_copy` call it.
    #[inline(always)]
    fn offer_copy(
        &mut self,
        set: PortSet,
        number: u8,
        priority: u8,
        len: u32,
        eligible: bool,
        load: QueuedFrame<A>,
        spares: &mut BufferPool<A>,
    )
        requires from { 1 ≤ number }
        requires to { number ≤ 16 }
        requires priority { priority ≤ 7 }
        requires along { (b : RelayState G A) × CanRelay b (leaving_frame load len eligible)
            × IsOfferingSet G.held b self.old set priority (leaving_frame load len eligible) number }
        requires goes { is_output self.old.ports.slots set number ≡ true }
        ensures next { (b : RelayState G A)
            → IsOfferingSet G.held b self.old set priority (leaving_frame load len eligible) number
            → IsOfferingSet G.held b self.new set priority (leaving_frame load len eligible) (number + 1) }
    {
        let QueuedFrame {
            at,
            flow,
            own,
            recorder,
            octets,
        } = load;
        let octets = mark_if_eligible(octets, eligible);
        self.offer_to_port(
            number,
            priority,
            len,
            QueuedFrame {
                at,
                flow,
                own,
                recorder,
                octets,
            },
            spares,
        );
    }

    /// Offers a copy as `offer_copy` does, with equal arguments. `offer_next_copy` and `offer_several_copies` call it, for a frame with
    /// several egress ports.
    #[inline(always)]
    fn offer_listed_copy(
        &mut self,
        set: PortSet,
        number: u8,
        priority: u8,
        len: u32,
        eligible: bool,
        load: QueuedFrame<A>,
        spares: &mut BufferPool<A>,
    )
        requires from { 1 ≤ number }
        requires to { number ≤ 16 }
        requires priority { priority ≤ 7 }
        requires along { (b : RelayState G A) × CanRelay b (leaving_frame load len eligible)
            × IsOfferingSet G.held b self.old set priority (leaving_frame load len eligible) number }
        requires goes { is_output self.old.ports.slots set number ≡ true }
        ensures next { (b : RelayState G A)
            → IsOfferingSet G.held b self.old set priority (leaving_frame load len eligible) number
            → IsOfferingSet G.held b self.new set priority (leaving_frame load len eligible) (number + 1) }
    {
        self.offer_copy(set, number, priority, len, eligible, load, spares);
    }

    /// Offers the last of `copies`, with the data of `first`, to port `number`. Does nothing unless both `set` and the bridge have this
    /// port. `offer_copy` explains the other parameters.
    ///
    /// `offer_several_copies` calls it for each port before the last.
    #[inline(always)]
    fn offer_next_copy(
        &mut self,
        set: PortSet,
        number: u8,
        priority: u8,
        len: u32,
        eligible: bool,
        first: &QueuedFrame<A>,
        copies: &mut Vec<Vec<u8, A>, A>,
        spares: &mut BufferPool<A>,
    )
        requires from { 1 ≤ number }
        requires to { number ≤ 16 }
        requires priority { priority ≤ 7 }
        requires along { (b : RelayState G A) × CanRelay b (leaving_frame first.now len eligible)
            × IsOfferingSet G.held b self.old set priority (leaving_frame first.now len eligible) number
            × HasCopies b.ports.slots set number first.now.octets.items copies.old.items
            × (count_outputs b.ports.slots set number < count_outputs b.ports.slots set 16) }
        ensures next { (b : RelayState G A)
            → IsOfferingSet G.held b self.old set priority (leaving_frame first.now len eligible) number
            → HasCopies b.ports.slots set number first.now.octets.items copies.old.items
            → IsOfferingSet G.held b self.new set priority (leaving_frame first.now len eligible) (number + 1)
            × HasCopies b.ports.slots set (number + 1) first.now.octets.items copies.new.items }
    {
        if !set.has(number) || !self.ports.has(number) {
            return;
        }
        match copies.pop() {
            Some(octets) => {
                let load = QueuedFrame {
                    at: first.at,
                    flow: first.flow,
                    own: first.own,
                    recorder: first.recorder,
                    octets,
                };
                self.offer_listed_copy(set, number, priority, len, eligible, load, spares);
            }
            None => unreachable!(),
        }
    }

    /// Offers copies of a frame of `len` octets with priority `priority` to the ports of `set`, by rising number. If `eligible` is true,
    /// their tags are marked drop eligible.
    ///
    /// Isn't inlined: most frames have one egress port, and `offer_only_copy` handles them. `offer_copies` calls it.
    #[inline(never)]
    fn offer_several_copies(
        &mut self,
        set: PortSet,
        priority: u8,
        len: u32,
        eligible: bool,
        first: QueuedFrame<A>,
        copies: &mut Vec<Vec<u8, A>, A>,
        spares: &mut BufferPool<A>,
    )
        requires priority { priority ≤ 7 }
        requires along { CanRelay self.old (leaving_frame first len eligible)
            × IsOfferingSet G.held self.old self.old set priority (leaving_frame first len eligible) 1 }
        requires copies { HasCopies self.old.ports.slots set 1 first.octets.items copies.old.items }
        ensures offered { IsOfferingSet G.held self.old self.new set priority (leaving_frame first len eligible) 17 }
    {
        let (_, last) = self.ports.count_outputs(set);
        let from = first_port_with_copy(copies.len(), last);
        for number in from..last {
            self.offer_next_copy(set, number, priority, len, eligible, &first, copies, spares);
        }
        if last > 0 {
            self.offer_listed_copy(set, last, priority, len, eligible, first, spares);
        }
    }

    /// Offers the frame `load`, of `len` octets with priority `priority`, to the port of `set` that the bridge has, if any. If `eligible`
    /// is true, first marks the frame's tag drop eligible. `offer_copies` calls it.
    #[inline(always)]
    fn offer_only_copy(
        &mut self,
        set: PortSet,
        priority: u8,
        len: u32,
        eligible: bool,
        load: QueuedFrame<A>,
        spares: &mut BufferPool<A>,
    )
        requires priority { priority ≤ 7 }
        requires along { CanRelay self.old (leaving_frame load len eligible)
            × IsOfferingSet G.held self.old self.old set priority (leaving_frame load len eligible) 1 }
        requires copies { HasCopies self.old.ports.slots set 1 load.octets.items [] }
        ensures offered { IsOfferingSet G.held self.old self.new set priority (leaving_frame load len eligible) 17 }
    {
        let (_, last) = self.ports.count_outputs(set);
        if last > 0 {
            self.offer_copy(set, last, priority, len, eligible, load, spares);
        }
    }

    /// Offers copies of a frame of `len` octets with priority `priority` to the ports of `set`, by rising number. If `eligible` is true,
    /// marks their tags drop eligible.
    ///
    /// If `copies` is empty, it has no memory: forgetting it is faster than dropping it. `relay_frame` calls it.
    #[inline(always)]
    fn offer_copies(
        &mut self,
        set: PortSet,
        priority: u8,
        len: u32,
        eligible: bool,
        first: QueuedFrame<A>,
        copies: Vec<Vec<u8, A>, A>,
        spares: &mut BufferPool<A>,
    )
        requires priority { priority ≤ 7 }
        requires along { CanRelay self.old (leaving_frame first len eligible)
            × IsOfferingSet G.held self.old self.old set priority (leaving_frame first len eligible) 1 }
        requires copies { HasCopies self.old.ports.slots set 1 first.octets.items copies.items }
        ensures offered { IsOfferingSet G.held self.old self.new set priority (leaving_frame first len eligible) 17 }
    {
        if copies.is_empty() {
            mem::forget(copies);
            self.offer_only_copy(set, priority, len, eligible, first, spares);
        } else {
            let mut list = copies;
            self.offer_several_copies(set, priority, len, eligible, first, &mut list, spares);
            self.copies = list;
        }
    }

    /// Counts a malformed frame, or a frame without egress ports, at ingress port `port`. The next event may then happen at the arrival
    /// time `t` in ns or later. `arrive` calls it.
    fn count_unforwarded(&mut self, port: u8, t: u64, came: Ingress)
        requires known { (s : PortState A) × (port_state self.old.ports port ≡ Some s) }
        requires from { 1 ≤ port }
        requires time { self.old.earliest ≤ t }
        requires few { self.old.arrived < MAX_ARRIVALS }
        ensures passed { (s : PortState A) × (port_state self.old.ports port ≡ Some s)
            × HasCountedFrame self.old self.new port s t came }
        ensures stands { (p : config.Plan A) (es : List Event) (a : Arrival) (left : ℕ → List CapturedFrame) → a.port
            ≡ port
            → IsUnforwarded came (frame_destination p a) → RelayStandsFor p self.old es left
            → RelayStandsFor p self.new (Arrived a ∷ es) left }
    {
        self.ports.count_arrival(port, came);
        self.arrived += 1;
        self.earliest = t;
    }

    /// Judges a frame by its filter `found`, counts it at its ingress port `port`, and records verdict and origin. Returns the ruling and
    /// the frame's number within the filter; `None` for an unfiltered frame.
    ///
    /// `relay_frame` calls it.
    #[inline(always)]
    fn police_frame(
        &mut self,
        port: u8,
        call: FilterInput,
        found: Option<Route>,
    ) -> Option<(Ruling, u32)>
        requires known { (s : PortState A) × (port_state self.old.ports port ≡ Some s) }
        requires from { 1 ≤ port }
        requires time { (self.old.earliest ≤ call.at) × (call.at < END_OF_TIME) }
        requires fresh { HasUncountedFrame self.old }
        requires open { IfSome (input_filter_number self.old.plan call) (AwaitsVerdict self.old.tables) }
        requires found { IsFoundRoute self.old.police call.handle call.priority found }
        ensures ruled { (s : PortState A) × (port_state self.old.ports port ≡ Some s)
            × ((r : Option Ruling) × HasPoliced self.old self.new port s call r
            × HasSequence self.old.tables r result) }
        ensures priority { IfSome result (λ j. HasValidPriority j.0.verdict) }
        ensures sound { IsSound G.held self.new }
    {
        let ruling = self.police.pass_routed(call, found);
        self.earliest = call.at;
        match ruling {
            None => {
                self.ports.count_arrival(port, Ingress::Unfiltered);
                None
            }
            Some(ruling) => {
                self.ports.count_arrival(port, Ingress::Policed);
                let origin = Origin { port, at: call.at };
                let own = record_verdict(
                    &mut self.tables,
                    ruling.filter,
                    route_index(found),
                    ruling.verdict,
                    origin,
                );
                Some((ruling, own))
            }
        }
    }

    /// Releases the capacity that was reserved for a frame that filter `filter` refused: one copy for each port of `set`. Tries the
    /// recorder's index `hint` first. `relay_frame` calls it.
    #[inline(always)]
    fn release_room(&mut self, filter: u32, hint: usize, set: PortSet)
        requires { (own : ℕ) × AwaitsCopies self.old (count_outputs self.old.ports.slots set 16) own 1 filter }
        ensures state { self.new ≡ relay_with_release self.old filter (count_outputs self.old.ports.slots set 16) }
        ensures sound { IsSound G.held self.new }
    {
        let (count, _) = self.ports.count_outputs(set);
        release_room(&mut self.tables, filter, hint, count);
    }

    /// Returns the copies of a refused frame to the pool, and keeps their list for the next frame with several egress ports. `relay_frame`
    /// calls it.
    #[inline(always)]
    fn keep_copies(&mut self, copies: Vec<Vec<u8, A>, A>, spares: &mut BufferPool<A>)
        ensures same { self.new ≡ self.old }
    {
        if copies.is_empty() {
            mem::forget(copies);
        } else {
            self.copies = return_copies(copies, spares);
        }
    }

    /// Judges a frame with the egress ports `set`, and offers it to them if it passes. `prepare_copies` has made `copies` and reserved
    /// capacity. Octets that no queue accepts return to the pool. `arrive` calls it.
    #[inline(always)]
    fn relay_frame(
        &mut self,
        port: u8,
        packet: Packet<A>,
        set: PortSet,
        call: FilterInput,
        found: Option<Route>,
        copies: Vec<Vec<u8, A>, A>,
        spares: &mut BufferPool<A>,
    )
        requires { IsPrepared G.held self.old port packet set call found copies.items }
        ensures stands { (p : config.Plan A) (es : List Event) (left : ℕ → List CapturedFrame)
            → frame_destination p (arrival packet.time port packet.octets.items packet.len) ≡ Forwarded set call
            → RelayStandsFor p (relay_before_frame self.old) es left
            → RelayStandsFor p self.new (Arrived (arrival packet.time port packet.octets.items packet.len) ∷ es) left }
        ensures due { StartsNoEarlier (G.held self.new.ports.agenda) packet.time }
        ensures moved { (self.new.arrived ≡ self.old.arrived) × (self.new.plan ≡ self.old.plan)
            × (self.new.earliest ≡ packet.time) }
        ensures sound { IsSound G.held self.new }
    {
        let Packet { time, len, octets } = packet;
        match self.police_frame(port, call, found) {
            None => {
                let load = QueuedFrame {
                    at: time,
                    flow: None,
                    own: 0,
                    recorder: 0,
                    octets,
                };
                self.offer_copies(set, call.priority, len, false, load, copies, spares);
            }
            Some((Ruling { filter, verdict }, own)) => match verdict {
                Verdict::Pass { ipv, eligible } => {
                    let load = QueuedFrame {
                        at: time,
                        flow: Some(filter),
                        own,
                        recorder: route_index(found).min(MAX_RECORDERS) as u32,
                        octets,
                    };
                    self.offer_copies(
                        set,
                        ipv.unwrap_or(call.priority),
                        len,
                        eligible,
                        load,
                        copies,
                        spares,
                    );
                }
                _ => {
                    spares.put(octets);
                    self.release_room(filter, route_index(found), set);
                    self.keep_copies(copies, spares);
                }
            },
        }
    }

    /// Handles a frame that arrived on port `port`. Octets that no queue accepts return to the pool. If memory runs out, returns the frame
    /// and leaves the relay unchanged.
    ///
    /// `handle_arrival`, and `Bridge::arrive` of `bridge_core` call it.
    #[inline(always)]
    pub fn arrive(
        &mut self,
        port: u8,
        packet: Packet<A>,
        spares: &mut BufferPool<A>,
    ) -> Result<(), (Packet<A>, NoMemory)>
        requires known { (out : PortPlan A) × (find_port self.old.plan.ports port ≡ Some out) }
        requires time { (self.old.earliest ≤ packet.time) × (packet.time < END_OF_TIME) }
        requires due { StartsNoEarlier (G.held self.old.ports.agenda) packet.time }
        requires octets { (length packet.octets.items ≤ MAX_CAPTURED_OCTETS) × (length packet.octets.items
            ≤ packet.len) }
        requires few { self.old.arrived < MAX_ARRIVALS }
        ensures stands { OnOk result ((p : config.Plan A) (es : List Event) (left : ℕ → List CapturedFrame)
            → RelayStandsFor p self.old es left
            → RelayStandsFor p self.new (Arrived (arrival packet.time port packet.octets.items packet.len) ∷ es) left) }
        ensures moved { OnOk result ((self.new.arrived ≡ self.old.arrived + 1) × (self.new.earliest ≡ packet.time)
            × (self.new.plan ≡ self.old.plan)) }
        ensures waits { OnOk result (StartsNoEarlier (G.held self.new.ports.agenda) packet.time) }
        ensures err { IfErr result (λ e. (self.new ≡ self.old) × (e.0 ≡ packet)) }
    {
        let _plan = self.plan;
        match self.find_destination(packet.time, port, &packet.octets, packet.len) {
            Destination::Malformed => {
                self.count_unforwarded(port, packet.time, Ingress::Malformed);
                spares.put(packet.octets);
            }
            Destination::Nowhere => {
                self.count_unforwarded(port, packet.time, Ingress::Nowhere);
                spares.put(packet.octets);
            }
            Destination::Forwarded { set, call } => {
                let found = self.police.find_route(call.handle, call.priority);
                let filter = route_number(found);
                match self.prepare_copies(set, filter, route_index(found), &packet.octets, spares) {
                    Ok(copies) => {
                        self.relay_frame(port, packet, set, call, found, copies, spares);
                    }
                    Err(refused) => return Err((packet, refused)),
                }
            }
        }
        Ok(())
    }

    /// Handles a frame as `arrive` does. If memory runs out, drops the frame and leaves the relay unchanged. Isn't inlined and returns no
    /// frame, so that `process_frame` copies few values for each frame.
    #[inline(never)]
    pub fn handle_arrival(
        &mut self,
        port: u8,
        packet: Packet<A>,
        spares: &mut BufferPool<A>,
    ) -> Result<(), NoMemory>
        requires known { (out : PortPlan A) × (find_port self.old.plan.ports port ≡ Some out) }
        requires time { (self.old.earliest ≤ packet.time) × (packet.time < END_OF_TIME) }
        requires due { StartsNoEarlier (G.held self.old.ports.agenda) packet.time }
        requires octets { (length packet.octets.items ≤ MAX_CAPTURED_OCTETS) × (length packet.octets.items
            ≤ packet.len) }
        requires few { self.old.arrived < MAX_ARRIVALS }
        ensures stands { OnOk result ((p : config.Plan A) (es : List Event) (left : ℕ → List CapturedFrame)
            → RelayStandsFor p self.old es left
            → RelayStandsFor p self.new (Arrived (arrival packet.time port packet.octets.items packet.len) ∷ es) left) }
        ensures moved { OnOk result ((self.new.arrived ≡ self.old.arrived + 1) × (self.new.earliest ≡ packet.time)
            × (self.new.plan ≡ self.old.plan)) }
        ensures waits { OnOk result (StartsNoEarlier (G.held self.new.ports.agenda) packet.time) }
        ensures err { OnErr result (self.new ≡ self.old) }
    {
        match self.arrive(port, packet, spares) {
            Ok(()) => Ok(()),
            Err(_) => Err(NoMemory),
        }
    }
}

/// Returns the number of the filter on the route `found`; `None` for an unfiltered frame. `arrive` reserves capacity for this filter.
#[inline(always)]
fn route_number(found: Option<Route>) -> Option<u32>
    ensures { result ≡ option_map (λ r. r.number) found }
{
    match found {
        Some(route) => Some(route.number),
        None => None,
    }
}

/// Returns the index of the filter on the route `found`, or 0 for an unfiltered frame. The search for the filter's recorder begins at this
/// index. `police_frame`, `relay_frame` and `arrive` call it.
#[inline(always)]
fn route_index(found: Option<Route>) -> usize {
    match found {
        Some(route) => route.filter,
        None => 0,
    }
}

/// Returns the octets `back` of a copy to the pool, if a port dropped the copy. `offer_to_port` calls it after each offer.
#[inline(always)]
fn return_octets<A: Allocator + Copy>(back: Option<Vec<u8, A>>, spares: &mut BufferPool<A>) {
    if let Some(octets) = back {
        spares.put(octets);
    }
}

/// Returns the first port that `offer_several_copies` tries: 1 if there are copies. Without copies, only port `last` remains, which gets
/// the frame's own octets.
fn first_port_with_copy(copies: usize, last: u8) -> u8
    ensures from { 1 ≤ result }
    ensures to { result ≤ max 1 last }
    ensures all { 0 < copies → result ≡ 1 }
{
    if copies == 0 { last.max(1) } else { 1 }
}

/// Returns VLAN, priority and drop eligible indication of a received frame: from its tag, or from the port's `vid` and `priority`. A
/// priority-tagged frame gets `vid`. `find_destination` calls it.
#[inline(always)]
fn classify(tag: Option<Tag>, vid: u16, priority: u8) -> (u16, u8, bool)
    ensures { result ≡ classify tag vid priority }
{
    match tag {
        Some(tag) => (if tag.vid == 0 { vid } else { tag.vid }, tag.pcp, tag.dei),
        None => (vid, priority, false),
    }
}
