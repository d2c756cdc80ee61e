//! Police: all stream filters of a bridge with their gates and meters.

ghost use Rattle.std.specs.Prelude.{◌≡◌, ℕ, Bool, List, [], ◌∷◌, ◌+◌, ◌<◌, ◌≤◌, ◌^◌, nat_eq, Option, Some, IsSome, IfSome, IfOk, true};
ghost use Rattle.std.specs.Option.{option_map};
ghost use Rattle.std.specs.Map.{lookup};
ghost use Rattle.bridge_filter.specs.declared.FilterPlan.{FilterPlan};
ghost use Rattle.bridge_filter.specs.declared.Ruling.{Ruling};
ghost use Rattle.bridge_filter.specs.Verdicts.{PolicePlans, FilterEvent, Arrived, Cleared, filter_input, frame_filter, input_step, filter_steps, step_ruling, HasValidPriority};
ghost use Rattle.bridge_filter.specs.Counts.{filter_verdicts, verdict_counters, filter_flags, filter_buckets, count_arrivals, last_frame_time};
ghost use Rattle.bridge_filter.specs.Plans.{KeepsNumbers, is_listed, are_numbers_distinct, have_instances, all_have_priorities, all_within_limits, police_plans};
ghost use Rattle.bridge_filter.specs.StandsFor.{StandsFor, has_instance, state_counters, state_filter_flags, state_buckets};
ghost use Rattle.bridge_filter.specs.Steps.{HasMeter};
ghost use Rattle.bridge_filter.specs.Routes.{IsFoundRoute};

use crate::clear_flags::{clear_blocked, clear_octets, clear_red, clear_rx};
use crate::filter_state::FilterState;
use crate::frame_verdict::judge_frame;
use crate::gates_and_meters::{ByNumber, gate_flags, meter_buckets};
use crate::make_instances::{make_filters, make_gates, make_meters};
use crate::route::{HandleRows, PriorityRow, Route, look_up_route};
use crate::route_rows::{default_row, handle_rows, make_routes};
use crate::{Clear, Counters, FilterInput, FilterPlan, Flags, Ruling};
use bridge_gate::{GatePlan, StreamGate};
use bridge_limits::{END_OF_TIME, NoMemory};
use bridge_meter::{Buckets, Meter, MeterPlan};
use std::alloc::Allocator;
use std::marker::Model;

/// Stream filters of a bridge, with their gates and meters, by number.
#[derive(Drop)]
pub struct Police<A: Allocator + Copy> {
    /// Filters with their counters and blocked flags.
    filters: ByNumber<FilterState, A>,
    /// Routes of all filters, in the order of the filters.
    routes: Vec<Route, A>,
    /// Rows of frames whose handle a filter names: for each named handle, the index of a route for each priority.
    rows: HandleRows<A>,
    /// Row of all other frames.
    any: PriorityRow,
    /// Stream gates.
    gates: ByNumber<StreamGate<A>, A>,
    /// Meters.
    meters: ByNumber<Meter, A>,
    /// Number of frames so far; it bounds every counter.
    calls: u64,
    /// Arrival time of the last frame in ns; 0 before the first.
    earliest: u64,
}

impl<A: Allocator + Copy> Model for Police<A> {
    ghost use Rattle.bridge_filter.specs.StandsFor.{PoliceState};
    ghost use Rattle.bridge_filter.specs.Routes.{read_row, read_rows};
    ghost use Rattle.bridge_filter.specs.Steps.{IsSound, filter_plans};

    ghost Value = { PoliceState A };

    ghost view = { λ p. record {
      filters = filter_plans p.filters.entries;
      kept = p.filters.entries;
      gates = p.gates.entries;
      meters = p.meters.entries;
      calls = p.calls;
      earliest = p.earliest;
    } };

    ghost invariant = { λ p. IsSound p.filters.entries (read_rows p.routes.items p.rows.entries)
        (read_row p.routes.items p.any) p.gates.entries p.meters.entries p.calls p.earliest };
}

impl<A: Allocator + Copy> Police<A> {
    /// Makes the police of numbered filters, gates and meters, in any order. If memory runs out, the three lists are dropped.
    ///
    /// Finding the filter of a frame later takes one look-up of its handle. `make_police` of `bridge_relay` calls it.
    pub fn new(
        alloc: A,
        filters: Vec<(u32, FilterPlan), A>,
        gates: Vec<(u32, GatePlan<A>), A>,
        meters: Vec<(u32, MeterPlan), A>,
    ) -> Result<Police<A>, NoMemory>
        requires filters { are_numbers_distinct filters.items ≡ true }
        requires gates { are_numbers_distinct gates.items ≡ true }
        requires meters { are_numbers_distinct meters.items ≡ true }
        requires instances { have_instances filters.items gates.items meters.items ≡ true }
        requires priorities { all_have_priorities gates.items ≡ true }
        requires limits { all_within_limits meters.items ≡ true }
        ensures stands { IfOk result (λ p. StandsFor (police_plans filters.items gates.items meters.items) p []) }
        ensures filters { IfOk result (λ p. p.filters ≡ filters.items) }
        ensures gates { IfOk result (λ p. KeepsNumbers gates.items p.gates) }
        ensures meters { IfOk result (λ p. KeepsNumbers meters.items p.meters) }
    {
        let filters = make_filters(alloc, &filters)?;
        let Ok(gates) = make_gates(alloc, gates) else {
            drop(filters);
            drop(meters);
            return Err(NoMemory);
        };
        let Ok(meters) = make_meters(alloc, &meters) else {
            drop(filters);
            drop(gates);
            return Err(NoMemory);
        };
        let Ok(routes) = make_routes(alloc, &filters, &gates, &meters) else {
            drop(filters);
            drop(gates);
            drop(meters);
            return Err(NoMemory);
        };
        let any = default_row(&filters, &routes);
        let Ok(rows) = handle_rows(alloc, &filters, &routes, &any) else {
            drop(filters);
            drop(gates);
            drop(meters);
            drop(routes);
            return Err(NoMemory);
        };
        Ok(Police {
            filters,
            routes,
            rows,
            any,
            gates,
            meters,
            calls: 0,
            earliest: 0,
        })
    }

    /// Judges a frame that arrives at `t` ns, with `sdu` octets of SDU and `octets` metered octets. Returns its filter and verdict, or
    /// `None` if no filter matches. Allocates no memory.
    ///
    /// Only tests call it; the relay calls `find_route` and `pass_routed`.
    pub fn pass(
        &mut self,
        t: u64,
        handle: Option<u32>,
        priority: u8,
        dei: bool,
        sdu: u32,
        octets: u32,
    ) -> Option<Ruling>
        requires time { self.old.earliest ≤ t }
        requires range { t < END_OF_TIME }
        requires few { self.old.calls < 2 ^ 63 }
        ensures stands { (p : PolicePlans) (es : List FilterEvent) → StandsFor p self.old es
            → StandsFor p self.new (Arrived (filter_input t handle priority dei sdu octets) ∷ es) }
        ensures answer { (p : PolicePlans) (es : List FilterEvent) → StandsFor p self.old es
            → result ≡ step_ruling (input_step p (filter_steps p es) (filter_input t handle priority dei sdu octets)
            (frame_filter p.filters (filter_input t handle priority dei sdu octets))) }
        ensures filter { option_map (λ r. r.filter) result
            ≡ option_map (λ f. f.0) (frame_filter self.old.filters (filter_input t handle priority dei sdu octets)) }
        ensures priority { IfSome result (λ r. HasValidPriority r.verdict) }
        ensures filters { self.new.filters ≡ self.old.filters }
        ensures gates { KeepsNumbers self.old.gates self.new.gates }
        ensures meters { KeepsNumbers self.old.meters self.new.meters }
        ensures calls { self.new.calls ≡ self.old.calls + 1 }
        ensures earliest { self.new.earliest ≡ t }
    {
        let found = self.find_route(handle, priority);
        let call = FilterInput {
            at: t,
            handle,
            priority,
            dei,
            sdu,
            octets,
        };
        self.pass_routed(call, found)
    }

    /// Returns the route of frames with handle `handle` and priority `priority`, for `pass_routed`. `None` if no filter matches. `pass` and
    /// `filter_number`, and `arrive` of `bridge_relay` call it.
    #[inline(always)]
    pub fn find_route(&self, handle: Option<u32>, priority: u8) -> Option<Route>
        ensures found { IsFoundRoute self.now handle priority result }
        ensures there { IfSome result (λ r. is_listed r.number self.now.filters ≡ true) }
    {
        look_up_route(
            &self.filters,
            &self.gates,
            &self.meters,
            &self.routes,
            &self.rows,
            &self.any,
            handle,
            priority,
        )
    }

    /// Judges a frame by the route that `find_route` returned. Frames and commands since then don't change the route. Allocates no memory.
    /// `Police::pass` and `Relay::police_frame` of `bridge_relay` call it.
    #[inline(always)]
    pub fn pass_routed(&mut self, call: FilterInput, found: Option<Route>) -> Option<Ruling>
        requires found { IsFoundRoute self.old call.handle call.priority found }
        requires time { self.old.earliest ≤ call.at }
        requires range { call.at < END_OF_TIME }
        requires few { self.old.calls < 2 ^ 63 }
        ensures stands { (p : PolicePlans) (es : List FilterEvent) → StandsFor p self.old es
            → StandsFor p self.new (Arrived call ∷ es) }
        ensures answer { (p : PolicePlans) (es : List FilterEvent) → StandsFor p self.old es
            → result ≡ step_ruling (input_step p (filter_steps p es) call (frame_filter p.filters call)) }
        ensures filter { option_map (λ r. r.filter) result
            ≡ option_map (λ f. f.0) (frame_filter self.old.filters call) }
        ensures priority { IfSome result (λ r. HasValidPriority r.verdict) }
        ensures filters { self.new.filters ≡ self.old.filters }
        ensures gates { KeepsNumbers self.old.gates self.new.gates }
        ensures meters { KeepsNumbers self.old.meters self.new.meters }
        ensures calls { self.new.calls ≡ self.old.calls + 1 }
        ensures earliest { self.new.earliest ≡ call.at }
    {
        self.calls += 1;
        self.earliest = call.at;
        let route = found?;
        let verdict = judge_frame(
            &mut self.filters,
            &mut self.gates,
            &mut self.meters,
            route,
            call,
        );
        Some(Ruling {
            filter: route.number,
            verdict,
        })
    }

    /// Returns the number of the filter that judges frames with handle `handle` and priority `priority`. `None` if no filter matches. Only
    /// tests call it, before `pass`.
    pub fn filter_number(&self, handle: Option<u32>, priority: u8) -> Option<u32>
        ensures filter { (at sdu octets : ℕ) (dei : Bool)
            → result ≡ option_map (λ f. f.0) (frame_filter self.now.filters
            (filter_input at handle priority dei sdu octets)) }
        ensures there { IfSome result (λ n. is_listed n self.now.filters ≡ true) }
    {
        match self.find_route(handle, priority) {
            Some(route) => Some(route.number),
            None => None,
        }
    }

    /// Clears a flag of the filter, stream gate or meter `number`, which must exist. Counters, counted octets and bucket levels stay. The
    /// relay calls it for a command of a run.
    pub fn clear(&mut self, clear: Clear, number: u32)
        requires { has_instance clear number self.old ≡ true }
        ensures stands { (p : PolicePlans) (es : List FilterEvent) → StandsFor p self.old es
            → StandsFor p self.new (Cleared clear number ∷ es) }
        ensures filters { self.new.filters ≡ self.old.filters }
        ensures gates { KeepsNumbers self.old.gates self.new.gates }
        ensures meters { KeepsNumbers self.old.meters self.new.meters }
        ensures calls { self.new.calls ≡ self.old.calls }
        ensures earliest { self.new.earliest ≡ self.old.earliest }
    {
        match clear {
            Clear::Blocked => clear_blocked(&mut self.filters, number),
            Clear::Rx => clear_rx(&mut self.gates, number),
            Clear::Octets => clear_octets(&mut self.gates, number),
            Clear::Red => clear_red(&mut self.meters, number),
        }
    }

    /// Returns the number of frames so far, matching a filter or not. No counter exceeds it.
    pub fn calls(&self) -> u64
        ensures calls { result ≡ self.now.calls }
        ensures frames { (p : PolicePlans) (es : List FilterEvent) → StandsFor p self.now es → result
            ≡ count_arrivals es }
    {
        self.calls
    }

    /// Returns the arrival time in ns of the last frame; 0 before the first. Later frames arrive at this time or later.
    pub fn earliest(&self) -> u64
        ensures earliest { result ≡ self.now.earliest }
        ensures last { (p : PolicePlans) (es : List FilterEvent) → StandsFor p self.now es → result
            ≡ last_frame_time es }
    {
        self.earliest
    }

    /// Returns the counters of `filter`, which must exist. `make_view` of `bridge_relay` calls it, because the result of a run contains
    /// them.
    pub fn counters(&self, filter: u32) -> Counters
        requires { is_listed filter self.now.filters ≡ true }
        ensures shown { state_counters filter self.now ≡ Some result }
        ensures counters { (p : PolicePlans) (es : List FilterEvent) → StandsFor p self.now es
            → result ≡ verdict_counters (filter_verdicts filter (filter_steps p es)) }
    {
        self.filter_state(filter).counters
    }

    /// Returns the flags of `filter`, which must exist, its stream gate and its meter. The results of a run contain them.
    pub fn flags(&self, filter: u32) -> Flags
        requires { is_listed filter self.now.filters ≡ true }
        ensures shown { state_filter_flags filter self.now ≡ Some result }
        ensures flags { (p : PolicePlans) (es : List FilterEvent) (f : FilterPlan) → StandsFor p self.now es
            → lookup (nat_eq filter) p.filters ≡ Some f → result ≡ filter_flags p filter f (filter_steps p es) }
    {
        let kept = self.filter_state(filter);
        let (rx, octets) = gate_flags(&self.gates, kept.plan.gate);
        let red = match kept.plan.meter {
            Some(meter) => meter_buckets(&self.meters, meter).all_red,
            None => false,
        };
        Flags {
            blocked: kept.blocked,
            rx,
            octets,
            red,
        }
    }

    /// Returns the bucket levels of the meter of `filter`, which must exist; `None` if the filter has no meter. `make_view` of
    /// `bridge_relay` calls it.
    pub fn buckets(&self, filter: u32) -> Option<Buckets>
        requires { is_listed filter self.now.filters ≡ true }
        ensures shown { result ≡ state_buckets filter self.now }
        ensures buckets { (p : PolicePlans) (es : List FilterEvent) (f : FilterPlan) → StandsFor p self.now es
            → lookup (nat_eq filter) p.filters ≡ Some f → result ≡ filter_buckets p f.meter (filter_steps p es) }
    {
        match self.filter_state(filter).plan.meter {
            Some(meter) => Some(meter_buckets(&self.meters, meter)),
            None => None,
        }
    }

    /// Returns the state of `filter`, which must exist. The methods that report counters, flags and buckets call it.
    fn filter_state(&self, filter: u32) -> FilterState
        requires { is_listed filter self.now.filters ≡ true }
        ensures kept { lookup (nat_eq filter) self.now.kept ≡ Some result }
        ensures plan { lookup (nat_eq filter) self.now.filters ≡ Some result.plan }
        ensures gate { IsSome (lookup (nat_eq result.plan.gate) self.now.gates) }
        ensures meter { HasMeter result.plan.meter self.now.meters }
    {
        match self.filters.get(&filter) {
            Some(kept) => *kept,
            None => unreachable!(),
        }
    }
}
