//! A bridge that receives frames and commands one by one, for programs that decide the events themselves. Whole runs use `simulate`
//! instead.
ghost use Rattle.std.specs.Prelude.{◌≡◌, ℕ, true, ◌<◌, ◌≤◌, ◌+◌, ◌*◌, ◌^◌, List, [], ◌∷◌, Some, None, Option, length, max, nat_eq, IfOk, IfErr, OnOk, IsTrue};
ghost use Rattle.std.specs.Map.{lookup};
ghost use Rattle.bridge_limits.specs.Members.{IsMember};
ghost use Rattle.bridge_capture.specs.Grammar.{CapturedFrame};
ghost use Rattle.bridge_config.specs.Model as config;
ghost use Rattle.bridge_config.specs.declared.ports.PortPlan.{PortPlan};
ghost use Rattle.bridge_config.specs.Rules.{find_port};
ghost use Rattle.bridge_config.specs.Commands.{has_instance};
ghost use Rattle.bridge_events.specs.Least.{IsLeast};
ghost use Rattle.bridge_filter.specs.declared.FilterPlan.{FilterPlan};
ghost use Rattle.bridge_port.specs.Schedule.{Copy};
ghost use Rattle.bridge_port.specs.StandsFor.{time_limit};
ghost use Rattle.bridge_semantics.specs.Events.{Arrived, arrival, Cleared, Event, own_events};
ghost use Rattle.bridge_semantics.specs.Offers.{CarriedFrame};
ghost use Rattle.bridge_semantics.specs.NextStarts.{AreNextStarts, IsNextBridgeStart, ReachesStart, SendsHead};
ghost use Rattle.bridge_semantics.specs.Outputs.{EndsRun, HasRun, ReachesTime};
ghost use Rattle.bridge_semantics.specs.Runs.{IsOutcome, IsSoloView, AreSameViews};
ghost use Rattle.bridge_relay.specs.Ports.{StartsNoEarlier, HasLaterStarts};
ghost use Rattle.bridge_relay.specs.RelayState.{sent_record, with_sent_frame};
ghost use Rattle.bridge_core.specs.Bridges.{bridge_arrivals, bridge_earliest, IsReady, next_start, bridge_plan, bridge_queued, BridgeStandsFor};

use bridge_capture::{BufferPool, Packet};
use bridge_check::Accepted;
use bridge_config::Command;
use bridge_events::Agenda;
use bridge_filter::FilterPlan;
use bridge_limits::{END_OF_TIME, LONGEST_FRAME, MAX_ARRIVALS, MAX_CAPTURED_OCTETS};
use bridge_relay::{NoMemory, Relay, Sent};
use bridge_semantics::{Outcome, PortCount, View};
use std::alloc::Allocator;
use std::marker::Model;

/// Bridge of an accepted plan, which it borrows. It receives frames and commands, and sends frames. It stands for an unfinished run: a list
/// of events, and the frames that have left.
#[derive(Drop)]
pub struct Bridge<'a, G: Agenda + Drop, A: Allocator + Copy> {
    /// Relay of the bridge: its ports, filters and records.
    relay: Relay<'a, G, A>,
    /// Pool without capacity: it drops the buffers of frames that have left.
    spares: BufferPool<A>,
    /// Filters by rising number, for the result.
    order: Vec<(u32, FilterPlan), A>,
    /// Empty list with capacity for all records of filters.
    views: Vec<(u32, View<A>), A>,
    /// Empty list with capacity for the counts of all ports.
    counts: Vec<(u8, PortCount), A>,
    /// Earliest time in ns at which the next command may be carried out.
    command: u64,
}

impl<'a, G: Agenda + Drop, A: Allocator + Copy> Model for Bridge<'a, G, A> {
    ghost use Rattle.bridge_core.specs.Bridges.{BridgeState, IsReady};

    ghost Value = { BridgeState G A };

    ghost view = { λ b. record { relay = b.relay; command = b.command } };

    ghost invariant = { λ b. IsReady b.relay b.command b.order.items b.views b.counts };
}

impl<'a, G: Agenda + Drop, A: Allocator + Copy> Bridge<'a, G, A> {
    /// Makes the bridge of an accepted plan, before any event. Callers that hand in single events begin with this call.
    pub fn new(alloc: A, accepted: &'a Accepted<A>) -> Result<Bridge<'a, G, A>, NoMemory>
        ensures stands { IfOk result (λ b. BridgeStandsFor accepted.now b [] (λ _. [])) }
        ensures start { IfOk result (λ b. (bridge_plan b ≡ accepted.now) × (bridge_arrivals b ≡ 0)
            × (bridge_earliest b ≡ 0)
            × (b.command ≡ 0)) }
        ensures none_due { IfOk result (λ b. (q : ℕ) → next_start G.held b q ≡ None) }
    {
        let Ok(order) = accepted.plan().filters_in_order(alloc) else {
            return Err(NoMemory);
        };
        let Ok(views) = Vec::with_capacity(alloc, order.len()) else {
            return Err(NoMemory);
        };
        let Ok(counts) = Vec::with_capacity(alloc, 16) else {
            return Err(NoMemory);
        };
        let Ok(relay) = Relay::<G, A>::new(alloc, accepted) else {
            return Err(NoMemory);
        };
        Ok(Bridge {
            relay,
            spares: BufferPool::without_capacity(alloc),
            order,
            views,
            counts,
            command: 0,
        })
    }

    /// Handles a frame that arrives on port `port`. The frame must arrive after the last transmission start, not before the last event, and
    /// not after the next transmission start.
    ///
    /// If memory runs out, returns the frame, and leaves the bridge unchanged. Callers hand in each frame by this method.
    pub fn arrive(&mut self, port: u8, packet: Packet<A>) -> Result<(), (Packet<A>, NoMemory)>
        requires known { (out : PortPlan A) × (find_port (bridge_plan self.old).ports port ≡ Some out) }
        requires time { (bridge_earliest self.old ≤ packet.time) × (packet.time < END_OF_TIME) }
        requires due { StartsNoEarlier (next_start G.held self.old) packet.time }
        requires octets { (length packet.octets.items ≤ MAX_CAPTURED_OCTETS) × (length packet.octets.items
            ≤ packet.len) }
        requires few { bridge_arrivals self.old < MAX_ARRIVALS }
        ensures stands { OnOk result ((p : config.Plan A) (es : List Event) (left : ℕ → List CapturedFrame)
            → BridgeStandsFor p self.old es left
            → BridgeStandsFor p self.new (Arrived (arrival packet.time port packet.octets.items packet.len)
            ∷ es) left) }
        ensures moved { OnOk result ((bridge_arrivals self.new ≡ bridge_arrivals self.old + 1)
            × (bridge_earliest self.new ≡ packet.time) × (self.new.command ≡ packet.time + 1)
            × (bridge_plan self.new ≡ bridge_plan self.old)) }
        ensures waits { OnOk result (StartsNoEarlier (next_start G.held self.new) packet.time) }
        ensures err { IfErr result (λ e. (self.new ≡ self.old) × (e.0 ≡ packet)) }
    {
        let after = packet.time + 1;
        match self.relay.arrive(port, packet, &mut self.spares) {
            Ok(()) => {
                self.command = after;
                Ok(())
            }
            Err(refused) => Err(refused),
        }
    }

    /// Carries out a command, which must be after the last frame and the last transmission start, and not before the last command.
    /// Allocates no memory. Callers hand in each command by this method.
    pub fn command(&mut self, command: &Command)
        requires time { self.old.command ≤ command.now.at }
        requires instance { IsTrue (has_instance (bridge_plan self.old) command.now.clear command.now.number) }
        ensures stands { (p : config.Plan A) (es : List Event) (left : ℕ → List CapturedFrame)
            → BridgeStandsFor p self.old es left
            → BridgeStandsFor p self.new (Cleared command.now.clear command.now.number ∷ es) left }
        ensures moved { (bridge_arrivals self.new ≡ bridge_arrivals self.old)
            × (bridge_earliest self.new ≡ command.now.at)
            × (self.new.command ≡ command.now.at) × (bridge_plan self.new ≡ bridge_plan self.old) }
        ensures same { (q : ℕ) → next_start G.held self.new q ≡ next_start G.held self.old q }
    {
        self.relay.clear(command.at, command.clear, command.number);
        self.command = command.at;
    }

    /// Returns the port that starts a transmission next, and the start time in ns; `None` if no copy is queued. At equal times, the lowest
    /// port is next.
    ///
    /// No port has missed an earlier start (`next`). Allocates no memory. Callers start this transmission before they hand in a later
    /// event.
    pub fn due(&self) -> Option<(u8, u64)>
        ensures next { (p : config.Plan A) (es : List Event) (left : ℕ → List CapturedFrame)
            → BridgeStandsFor p self.now es left
            → IsNextBridgeStart p es left result }
        ensures least { IsLeast (next_start G.held self.now) result }
    {
        self.relay.assert_reached();
        self.relay.due()
    }

    /// Starts the next transmission and returns the frame: the head of the highest class whose head fits (`sends`). All transmissions up to
    /// this one have then started, by time and port (`reaches`). Allocates no memory.
    ///
    /// Callers repeat it while a transmission is due.
    pub fn advance(&mut self) -> Sent<A>
        requires { (q k : ℕ) × (next_start G.held self.old q ≡ Some k) }
        ensures sends { (p : config.Plan A) (es : List Event) (left : ℕ → List CapturedFrame)
            → BridgeStandsFor p self.old es left
            → SendsHead p es left result.port result.class result.start (sent_record result) }
        ensures reaches { (p : config.Plan A) (es : List Event) (left : ℕ → List CapturedFrame)
            → BridgeStandsFor p self.old es left
            → ReachesStart p es result.start result.port (with_sent_frame left result) }
        ensures stands { (p : config.Plan A) (es : List Event) (left : ℕ → List CapturedFrame)
            → BridgeStandsFor p self.old es left → BridgeStandsFor p self.new es (with_sent_frame left result) }
        ensures which { IsLeast (next_start G.held self.old) (Some (result.port, result.start)) }
        ensures later { HasLaterStarts (next_start G.held self.new) result.port result.start }
        ensures bounded { (p : config.Plan A) (es : List Event) (left : ℕ → List CapturedFrame)
            → BridgeStandsFor p self.old es left → result.done < time_limit (length (left result.port) + 1) }
        ensures fewer { bridge_queued self.new + 1 ≡ bridge_queued self.old }
        ensures moved { (bridge_arrivals self.new ≡ bridge_arrivals self.old)
            × (bridge_earliest self.new ≡ max (bridge_earliest self.old) (result.start + 1))
            × (self.new.command ≡ max self.old.command (result.start + 1))
            × (bridge_plan self.new ≡ bridge_plan self.old) }
        ensures writable { (result.done < 2 ^ 32 * 10 ^ 9) × (length result.octets.items ≤ result.len)
            × (result.len ≤ LONGEST_FRAME) }
    {
        let sent = self.relay.advance();
        self.command = self.command.max(sent.start + 1);
        sent
    }

    /// Returns the number of frames that have arrived. `arrive` requires that it is below `MAX_ARRIVALS`.
    pub fn arrived(&self) -> u64
        ensures { result ≡ bridge_arrivals self.now }
    {
        self.relay.arrived()
    }

    /// Returns the number of transmissions that port `port` has started. Callers compare it with the number of frames that `advance`
    /// returned.
    pub fn started(&self, port: u8) -> u64
        requires { (out : PortPlan A) × (find_port (bridge_plan self.now).ports port ≡ Some out) }
        ensures { (p : config.Plan A) (es : List Event) (left : ℕ → List CapturedFrame)
            → BridgeStandsFor p self.now es left
            → result ≡ length (left port) }
    {
        self.relay.started(port)
    }

    /// Returns the earliest time in ns at which the next frame may arrive. It is the time of the last event, but at least 1 ns after the
    /// last transmission start.
    ///
    /// Callers of `arrive` need it.
    pub fn earliest(&self) -> u64
        ensures { result ≡ bridge_earliest self.now }
    {
        self.relay.earliest()
    }

    /// Returns the earliest time in ns of the next command: at least 1 ns after the last frame and the last transmission start. It is never
    /// before the last command. Callers of `command` need it.
    pub fn earliest_command(&self) -> u64
        ensures { result ≡ self.now.command }
    {
        self.command
    }

    /// Does nothing; its contract states that the events form a run up to any time that isn't after the next transmission start
    /// (`reaches`).
    ///
    /// Each port's due start is the next start of the port's schedule (`next`).
    pub fn assert_reached(&self)
        ensures reaches { (p : config.Plan A) (es : List Event) (left : ℕ → List CapturedFrame) (h : ℕ)
            → BridgeStandsFor p self.now es left → bridge_earliest self.now ≤ h
            → StartsNoEarlier (next_start G.held self.now) h
            → ReachesTime p es h left }
        ensures ran { (p : config.Plan A) (es : List Event) (left : ℕ → List CapturedFrame) (until : Option ℕ)
            → BridgeStandsFor p self.now es left → ((t : ℕ) → until ≡ Some t → bridge_earliest self.now ≤ t)
            → HasRun p es until left }
        ensures next { (p : config.Plan A) (es : List Event) (left : ℕ → List CapturedFrame)
            → BridgeStandsFor p self.now es left
            → AreNextStarts p es left (next_start G.held self.now) }
    {
        self.relay.assert_reached();
    }

    /// Ends a run in which no transmission is due. Returns the counts of ports and the records of filters. A protected filter's record
    /// depends on its own events only. Allocates no memory.
    ///
    /// Callers call it after the last transmission has started.
    pub fn finish(self) -> Outcome<A>
        requires idle { (q : ℕ) → next_start G.held self q ≡ None }
        ensures ends { (p : config.Plan A) (es : List Event) (left : ℕ → List CapturedFrame)
            → BridgeStandsFor p self.entry es left → EndsRun p es left result }
        ensures isolated { (p : config.Plan A) (es : List Event) (left : ℕ
            → List CapturedFrame) (n : ℕ) (f : FilterPlan)
            (v : View A) → BridgeStandsFor p self.entry es left → IsMember (n, f) p.filters → f.protected ≡ true
            → lookup (nat_eq n) result.filters.items ≡ Some v → IsSoloView p n f (own_events p n f es) v }
        ensures others_change_nothing { (p : config.Plan A) (es others : List Event) (left : ℕ
            → List CapturedFrame) (n : ℕ)
            (f : FilterPlan) (lists : ℕ → List (Copy CarriedFrame)) (o : Outcome A) (u v : View A)
            → BridgeStandsFor p self.entry es left → IsMember (n, f) p.filters → f.protected ≡ true
            → own_events p n f es ≡ own_events p n f others → IsOutcome p others lists o
            → lookup (nat_eq n) result.filters.items ≡ Some u → lookup (nat_eq n) o.filters.items ≡ Some v
            → AreSameViews u v }
    {
        let Bridge {
            relay,
            spares: _,
            order,
            views,
            counts,
            command: _,
        } = self;
        relay.finish(&order, views, counts)
    }
}
