//! Verdicts of frames, and the filter's count of them.

ghost use Rattle.std.specs.Prelude.{◌≡◌, ℕ, ◌<◌, ◌+◌, nat_eq, Some, List, ◌∷◌};
ghost use Rattle.std.specs.Map.{keys_of, lookup};
ghost use Rattle.bridge_filter.specs.Routes.{IsRoute, HasInstanceIndices};
ghost use Rattle.bridge_filter.specs.declared.FilterPlan.{FilterPlan};
ghost use Rattle.bridge_filter.specs.Verdicts.{PolicePlans, FilterStep, Judged, frame_verdict, HasValidPriority};
ghost use Rattle.bridge_filter.specs.StandsFor.{HaveVerdictStates, HasVerdictState};
ghost use Rattle.bridge_filter.specs.Steps.{NoGateAskedLater, NoMeterUsedLater, StandForShares, HaveInstances, filter_plans};

use crate::filter_state::FilterState;
use crate::gates_and_meters::{ByNumber, police_frame};
use crate::route::Route;
use crate::{FilterInput, Verdict};
use bridge_gate::StreamGate;
use bridge_limits::END_OF_TIME;
use bridge_meter::Meter;
use std::alloc::Allocator;

/// Returns the verdict on a frame of `filter`. Tests the blocked flag and the maximum SDU first; then the stream gate and the meter judge
/// the frame, and change their states.
///
/// `judge_frame` calls it, and then counts the verdict.
fn frame_verdict<A: Allocator + Copy>(
    filter: &FilterState,
    route: Route,
    gates: &mut ByNumber<StreamGate<A>, A>,
    meters: &mut ByNumber<Meter, A>,
    call: FilterInput,
) -> Verdict
    requires served { HasInstanceIndices filter.now.plan (keys_of gates.old.entries)
        (keys_of meters.old.entries) route }
    requires asked { NoGateAskedLater gates.old.entries call.at }
    requires judged { NoMeterUsedLater meters.old.entries call.at }
    requires range { call.at < END_OF_TIME }
    ensures verdict { (p : PolicePlans) (ss : List FilterStep) (n : ℕ)
        → StandForShares p gates.old.entries meters.old.entries ss → HasVerdictState n filter.now ss
        → result ≡ frame_verdict p ss call n filter.now.plan }
    ensures policed { (p : PolicePlans) (ss : List FilterStep) (n : ℕ)
        → StandForShares p gates.old.entries meters.old.entries ss
        → StandForShares p gates.new.entries meters.new.entries (Judged call n filter.now.plan result ∷ ss) }
    ensures priority { HasValidPriority result }
    ensures asked { NoGateAskedLater gates.new.entries call.at }
    ensures judged { NoMeterUsedLater meters.new.entries call.at }
    ensures same_gates { keys_of gates.new.entries ≡ keys_of gates.old.entries }
    ensures same_meters { keys_of meters.new.entries ≡ keys_of meters.old.entries }
{
    match filter.refusal(call.sdu) {
        Some(refusal) => refusal,
        None => police_frame(route, gates, meters, call),
    }
}

/// Judges a frame of the filter in `route`, and counts the verdict. Changes the states of the filter, its stream gate and its meter.
/// `Police::pass_routed` calls it.
pub(crate) fn judge_frame<A: Allocator + Copy>(
    filters: &mut ByNumber<FilterState, A>,
    gates: &mut ByNumber<StreamGate<A>, A>,
    meters: &mut ByNumber<Meter, A>,
    route: Route,
    call: FilterInput,
) -> Verdict
    requires route { IsRoute (filter_plans filters.old.entries) (keys_of gates.old.entries)
        (keys_of meters.old.entries) route }
    requires instances { HaveInstances filters.old.entries gates.old.entries meters.old.entries 9223372036854775807 }
    requires asked { NoGateAskedLater gates.old.entries call.at }
    requires judged { NoMeterUsedLater meters.old.entries call.at }
    requires range { call.at < END_OF_TIME }
    ensures verdict { (p : PolicePlans) (ss : List FilterStep) (f : FilterPlan)
        → lookup (nat_eq route.number) (filter_plans filters.old.entries) ≡ Some f
        → HaveVerdictStates filters.old.entries ss
        → StandForShares p gates.old.entries meters.old.entries ss
        → result ≡ frame_verdict p ss call route.number f }
    ensures kept { (ss : List FilterStep) (f : FilterPlan)
        → lookup (nat_eq route.number) (filter_plans filters.old.entries) ≡ Some f
        → HaveVerdictStates filters.old.entries ss
        → HaveVerdictStates filters.new.entries (Judged call route.number f result ∷ ss) }
    ensures policed { (p : PolicePlans) (ss : List FilterStep) (f : FilterPlan)
        → lookup (nat_eq route.number) (filter_plans filters.old.entries) ≡ Some f
        → StandForShares p gates.old.entries meters.old.entries ss
        → StandForShares p gates.new.entries meters.new.entries (Judged call route.number f result ∷ ss) }
    ensures priority { HasValidPriority result }
    ensures plans { filter_plans filters.new.entries ≡ filter_plans filters.old.entries }
    ensures instances { (calls : ℕ) → HaveInstances filters.old.entries gates.old.entries meters.old.entries calls
        → HaveInstances filters.new.entries gates.new.entries meters.new.entries (calls + 1) }
    ensures asked { NoGateAskedLater gates.new.entries call.at }
    ensures judged { NoMeterUsedLater meters.new.entries call.at }
    ensures same_gates { keys_of gates.new.entries ≡ keys_of gates.old.entries }
    ensures same_meters { keys_of meters.new.entries ≡ keys_of meters.old.entries }
{
    let (_, filter) = filters.pair_mut(route.filter);
    let verdict = frame_verdict(filter, route, gates, meters, call);
    filter.count_verdict(verdict);
    verdict
}
