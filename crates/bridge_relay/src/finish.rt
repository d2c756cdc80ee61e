//! Ends a run: `Relay::finish` returns its result.
ghost use Rattle.std.specs.Prelude.{◌≡◌, ℕ, true, ◌<◌, ◌≤◌, List, [], Option, Some, None, length, nat_eq, vec_capacity};
ghost use Rattle.std.specs.Map.{lookup};
ghost use Rattle.bridge_limits.specs.Members.{IsMember, IsOrdered};
ghost use Rattle.bridge_capture.specs.Grammar.{CapturedFrame};
ghost use Rattle.bridge_config.specs.Model as config;
ghost use Rattle.bridge_events.specs.Least.{IsLeast};
ghost use Rattle.bridge_filter.specs.declared.FilterPlan.{FilterPlan};
ghost use Rattle.bridge_filter.specs.Plans.{is_listed};
ghost use Rattle.bridge_port.specs.Schedule.{Copy};
ghost use Rattle.bridge_semantics.specs.Events.{Event, own_events};
ghost use Rattle.bridge_semantics.specs.Offers.{CarriedFrame};
ghost use Rattle.bridge_semantics.specs.NextStarts.{AreNextStarts, IsNextBridgeStart};
ghost use Rattle.bridge_semantics.specs.Outputs.{ReachesTime, HasRun, EndsRun};
ghost use Rattle.bridge_semantics.specs.Runs.{IsOutcome, IsSoloView, AreSameViews};
ghost use Rattle.bridge_relay.specs.Ports.{StartsNoEarlier};
ghost use Rattle.bridge_relay.specs.Recorders.{update_number};
ghost use Rattle.bridge_relay.specs.Records.{empty_recorder};
ghost use Rattle.bridge_relay.specs.Finish.{IsFilterShown, AreFiltersShown};
ghost use Rattle.bridge_relay.specs.RelayState.{RelayStandsFor};

use crate::filter_recorder::FilterRecord;
use crate::filter_recorders::{FilterRecorders, take_filter_record};
use crate::relay::Relay;
use bridge_events::Agenda;
use bridge_filter::{FilterPlan, Police};
use bridge_semantics::{Outcome, PortCount, View};
use std::alloc::Allocator;

/// Returns the record of filter `number`, with its flag `protected`. Lists are from its recorder, and counters, flags and buckets from
/// `police`. Leaves the recorder empty. `make_views` calls it.
fn make_view<A: Allocator + Copy>(
    alloc: A,
    police: &Police<A>,
    tables: &mut FilterRecorders<A>,
    number: u32,
    protected: bool,
) -> View<A>
    requires filter { is_listed number police.now.filters ≡ true }
    requires table { is_listed number tables.old.entries ≡ true }
    ensures shown { (f : FilterPlan) → f.protected ≡ protected
        → IsFilterShown police.now tables.old.entries number f result }
    ensures fresh { tables.new.entries ≡ update_number number (λ _. empty_recorder) tables.old.entries }
{
    let FilterRecord {
        verdicts,
        origins,
        departures,
        drops,
        delay,
    } = take_filter_record(tables, alloc, number);
    View {
        protected,
        verdicts,
        origins,
        counters: police.counters(number),
        flags: police.flags(number),
        buckets: police.buckets(number),
        departures,
        drops,
        delay,
    }
}

/// Returns the records of the filters in `order`, in the empty list `views`. `views` has the capacity, so the end of a run allocates no
/// memory. `finish` calls it.
fn make_views<A: Allocator + Copy>(
    alloc: A,
    police: &Police<A>,
    tables: FilterRecorders<A>,
    order: &[(u32, FilterPlan)],
    views: Vec<(u32, View<A>), A>,
) -> Vec<(u32, View<A>), A>
    requires rises { IsOrdered (λ x y. x.0 < y.0) order.now }
    requires filters { (n : ℕ) → is_listed n order.now ≡ true → is_listed n police.now.filters ≡ true }
    requires tables { (n : ℕ) → is_listed n order.now ≡ true → is_listed n tables.entries ≡ true }
    requires none { views.items ≡ [] }
    requires room { length order.now ≤ vec_capacity views }
    ensures { AreFiltersShown police.now tables.entries order.now result.items }
{
    let mut tables = tables;
    let mut views = views;
    for entry in order {
        let (number, plan) = *entry;
        let view = make_view(alloc, police, &mut tables, number, plan.protected);
        views.push_reserved((number, view));
    }
    views
}

impl<'a, G: Agenda + Drop, A: Allocator + Copy> Relay<'a, G, A> {
    /// Does nothing; its contract states the run so far. All transmissions before the next due one have started, and the agenda has the
    /// time of each port's next transmission.
    pub fn assert_reached(&self)
        ensures reaches { (p : config.Plan A) (es : List Event) (left : ℕ → List CapturedFrame) (h : ℕ)
            → RelayStandsFor p self.now es left → self.now.earliest ≤ h
            → StartsNoEarlier (G.held self.now.ports.agenda) h
            → ReachesTime p es h left }
        ensures ran { (p : config.Plan A) (es : List Event) (left : ℕ → List CapturedFrame) (until : Option ℕ)
            → RelayStandsFor p self.now es left → ((t : ℕ) → until ≡ Some t → self.now.earliest ≤ t)
            → HasRun p es until left }
        ensures each_next { (p : config.Plan A) (es : List Event) (left : ℕ → List CapturedFrame)
            → RelayStandsFor p self.now es left
            → AreNextStarts p es left (G.held self.now.ports.agenda) }
        ensures next { (p : config.Plan A) (es : List Event) (left : ℕ → List CapturedFrame) (o : Option (ℕ × ℕ))
            → RelayStandsFor p self.now es left
            → IsLeast (G.held self.now.ports.agenda) o
            → IsNextBridgeStart p es left o }
    {
        self.ports.assert_agenda();
    }

    /// Ends a run in which no transmission is due. Returns records of the filters in `order` and counts of the ports, in the empty lists
    /// `filters` and `ports`.
    ///
    /// A protected filter's record depends on its own events only.
    pub fn finish(
        self,
        order: &[(u32, FilterPlan)],
        filters: Vec<(u32, View<A>), A>,
        ports: Vec<(u8, PortCount), A>,
    ) -> Outcome<A>
        requires idle { (q : ℕ) → G.held self.ports.agenda q ≡ None }
        requires rises { IsOrdered (λ x y. x.0 < y.0) order.now }
        requires same { (n : ℕ) → lookup (nat_eq n) order.now ≡ lookup (nat_eq n) self.plan.filters }
        requires no_filters { filters.items ≡ [] }
        requires no_ports { ports.items ≡ [] }
        requires filter_room { length order.now ≤ vec_capacity filters }
        requires port_room { 16 ≤ vec_capacity ports }
        ensures ends { (p : config.Plan A) (es : List Event) (left : ℕ → List CapturedFrame)
            → RelayStandsFor p self.entry es left
            → EndsRun p es left result }
        ensures isolated { (p : config.Plan A) (es : List Event) (left : ℕ
            → List CapturedFrame) (n : ℕ) (f : FilterPlan)
            (v : View A) → RelayStandsFor p self.entry es left → IsMember (n, f) p.filters → f.protected ≡ true
            → lookup (nat_eq n) result.filters.items ≡ Some v → IsSoloView p n f (own_events p n f es) v }
        ensures others_change_nothing { (p : config.Plan A) (es others : List Event) (left : ℕ
            → List CapturedFrame) (n : ℕ)
            (f : FilterPlan) (lists : ℕ → List (Copy CarriedFrame)) (o : Outcome A) (u v : View A)
            → RelayStandsFor p self.entry es left → IsMember (n, f) p.filters → f.protected ≡ true → own_events p n f es
            ≡ own_events p n f others
            → IsOutcome p others lists o → lookup (nat_eq n) result.filters.items ≡ Some u
            → lookup (nat_eq n) o.filters.items ≡ Some v → AreSameViews u v }
    {
        let Relay {
            alloc,
            plan: _,
            ident,
            police,
            ports: bridge_ports,
            tables,
            arrived: _,
            earliest: _,
            copies: _,
        } = self;
        let ports = bridge_ports.counts(ports);
        drop(ident);
        let filters = make_views(alloc, &police, tables, order, filters);
        drop(police);
        Outcome { filters, ports }
    }
}
