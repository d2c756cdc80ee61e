//! Gates and meters by number, and their answers to frames.

ghost use Rattle.std.specs.Prelude.{◌≡◌, ℕ, ◌<◌, ◌≤◌, ◌&&◌, nat_eq, IsSome, IfSome, Some, true, List, ◌∷◌, length, slice_get, if◌then◌else◌};
ghost use Rattle.std.specs.Option.{option_map};
ghost use Rattle.std.specs.Map.{keys_of, lookup};
ghost use Rattle.bridge_meter.specs.declared.MeterPlan.{MeterPlan};
ghost use Rattle.bridge_meter.specs.Colours as colours;
ghost use Rattle.bridge_gate.specs.declared.stream_gate.GateAnswer.TheVariants as gate;
ghost use Rattle.bridge_gate.specs.Gates.{GateRules, GateEvent, Asked, answer, gate_steps, is_shut_by_rx, is_shut_by_octets};
ghost use Rattle.bridge_filter.specs.declared.FilterPlan.{FilterPlan};
ghost use Rattle.bridge_filter.specs.Routes.{IsOptionalIndex, HasInstanceIndices};
ghost use Rattle.bridge_filter.specs.Verdicts.{PolicePlans, FilterStep, Judged, answer_verdict, colour_verdict, gate_answer, meter_share, has_passed_gate, has_reached_gate, HasValidPriority};
ghost use Rattle.bridge_filter.specs.StandsFor.{GatesStand, MetersStand, rx_flag, octets_flag};
ghost use Rattle.bridge_filter.specs.Steps.{NoGateAskedLater, NoMeterUsedLater, StandForShares};

use crate::route::Route;
use crate::{FilterInput, Verdict};
use bridge_gate::{GateAnswer, StreamGate};
use bridge_limits::END_OF_TIME;
use bridge_meter::{Buckets, Colour, Meter};
use indexmap::IndexMap;
use std::alloc::Allocator;
use std::hash::{BuildHasherDefault, FoldHasher};

/// Map from numbers to filters, stream gates, meters or rows of routes. Routes refer to its entries by index, so no entry is removed.
pub(crate) type ByNumber<T, A> = IndexMap<u32, T, BuildHasherDefault<FoldHasher>, A>;

/// Asks the stream gate at index `place` whether a frame of `sdu` octets passes at `at` ns. The frame may shut the gate. `police_frame`
/// calls it.
fn ask_gate<A: Allocator + Copy>(
    gates: &mut ByNumber<StreamGate<A>, A>,
    place: usize,
    at: u64,
    sdu: u32,
) -> GateAnswer
    requires within { place < length gates.old.entries }
    requires before { NoGateAskedLater gates.old.entries at }
    requires range { at < END_OF_TIME }
    ensures stand { (number : ℕ) (rules : ℕ → GateRules) (share : ℕ → List GateEvent)
        → slice_get (keys_of gates.old.entries) place ≡ Some number → GatesStand rules gates.old.entries share
        → GatesStand rules gates.new.entries (λ n. if nat_eq number n then Asked at sdu ∷ share n else share n) }
    ensures answer { (number : ℕ) (rules : ℕ → GateRules) (share : ℕ → List GateEvent)
        → slice_get (keys_of gates.old.entries) place ≡ Some number → GatesStand rules gates.old.entries share
        → result ≡ answer (rules number) (gate_steps (rules number) (share number)) at sdu }
    ensures priority { (ipv : ℕ) → result ≡ gate.Through (Some ipv) → ipv ≤ 7 }
    ensures before { NoGateAskedLater gates.new.entries at }
    ensures same { keys_of gates.new.entries ≡ keys_of gates.old.entries }
{
    let (_, gate) = gates.pair_mut(place);
    gate.ask(at, sdu)
}

/// Returns the verdict of the meter at index `place` on a frame that passed its stream gate, and updates the meter. `answer_verdict` calls
/// it.
fn meter_verdict<A: Allocator + Copy>(
    meters: &mut ByNumber<Meter, A>,
    place: usize,
    call: FilterInput,
    ipv: Option<u8>,
) -> Verdict
    requires within { place < length meters.old.entries }
    requires before { NoMeterUsedLater meters.old.entries call.at }
    ensures stand { (number : ℕ) (plans : ℕ → MeterPlan) (share : ℕ → List colours.MeterEvent)
        → slice_get (keys_of meters.old.entries) place ≡ Some number → MetersStand plans meters.old.entries share
        → MetersStand plans meters.new.entries (λ n. if nat_eq number n
        then colours.Arrived call.at call.octets call.dei ∷ share n else share n) }
    ensures verdict { (number : ℕ) (plans : ℕ → MeterPlan) (share : ℕ → List colours.MeterEvent)
        → slice_get (keys_of meters.old.entries) place ≡ Some number → MetersStand plans meters.old.entries share
        → result ≡ colour_verdict (plans number) ipv (colours.frame_colour (plans number)
        (colours.meter_history (plans number) (share number)) call.at call.octets call.dei) }
    ensures passed { has_passed_gate result ≡ true }
    ensures priority { ((i : ℕ) → ipv ≡ Some i → i ≤ 7) → HasValidPriority result }
    ensures before { NoMeterUsedLater meters.new.entries call.at }
    ensures same { keys_of meters.new.entries ≡ keys_of meters.old.entries }
{
    let (_, meter) = meters.pair_mut(place);
    let drop_yellow = meter.plan().drop_yellow;
    let colour = meter.colour(call.at, call.octets, call.dei);
    colour_verdict(colour, drop_yellow, ipv)
}

/// Returns the verdict for the meter's colour. A yellow frame passes as drop eligible, or is refused if `drop_yellow`. `ipv` is the gate's
/// internal priority value. `meter_verdict` calls it.
fn colour_verdict(colour: Colour, drop_yellow: bool, ipv: Option<u8>) -> Verdict
    ensures verdict { (plan : MeterPlan) → plan.drop_yellow ≡ drop_yellow → result ≡ colour_verdict plan ipv colour }
    ensures passed { has_passed_gate result ≡ true }
    ensures priority { ((i : ℕ) → ipv ≡ Some i → i ≤ 7) → HasValidPriority result }
{
    match colour {
        Colour::Green => Verdict::Pass {
            ipv,
            eligible: false,
        },
        Colour::Yellow if drop_yellow => Verdict::YellowDropped,
        Colour::Yellow => Verdict::Pass {
            ipv,
            eligible: true,
        },
        Colour::Red => Verdict::Red,
    }
}

/// Returns the verdict for the stream gate's answer. If the gate passed the frame, the meter at index `place` decides; without a meter, the
/// frame passes. `police_frame` calls it.
fn answer_verdict<A: Allocator + Copy>(
    answer: GateAnswer,
    place: Option<usize>,
    meters: &mut ByNumber<Meter, A>,
    call: FilterInput,
) -> Verdict
    requires within { IfSome place (λ i. i < length meters.old.entries) }
    requires before { NoMeterUsedLater meters.old.entries call.at }
    requires priority { (ipv : ℕ) → answer ≡ gate.Through (Some ipv) → ipv ≤ 7 }
    ensures verdict { (p : PolicePlans) (ss : List FilterStep) (f : FilterPlan)
        → IsOptionalIndex (keys_of meters.old.entries) f.meter place
        → MetersStand p.meters meters.old.entries (λ n. meter_share n ss) → result ≡ answer_verdict p ss call f answer }
    ensures stand { (plans : ℕ → MeterPlan) (ss : List FilterStep) (k : ℕ) (f : FilterPlan)
        → IsOptionalIndex (keys_of meters.old.entries) f.meter place
        → MetersStand plans meters.old.entries (λ n. meter_share n ss)
        → MetersStand plans meters.new.entries (λ n. meter_share n (Judged call k f result ∷ ss)) }
    ensures reached { has_reached_gate result ≡ true }
    ensures priority { HasValidPriority result }
    ensures before { NoMeterUsedLater meters.new.entries call.at }
    ensures same { keys_of meters.new.entries ≡ keys_of meters.old.entries }
{
    match answer {
        GateAnswer::Through(ipv) => match place {
            Some(place) => meter_verdict(meters, place, call, ipv),
            None => Verdict::Pass {
                ipv,
                eligible: false,
            },
        },
        GateAnswer::Closed => Verdict::GateClosed,
        GateAnswer::ShutByRx => Verdict::ShutByRx,
        GateAnswer::ShutByOctets => Verdict::ShutByOctets,
        GateAnswer::OctetsExceeded => Verdict::OctetsExceeded,
    }
}

/// Returns the verdict of the stream gate and the meter in `route`, on a frame that the filter itself didn't refuse. Updates the gate and,
/// if the gate passes the frame, the meter.
///
/// `frame_verdict` calls it.
pub(crate) fn police_frame<A: Allocator + Copy>(
    route: Route,
    gates: &mut ByNumber<StreamGate<A>, A>,
    meters: &mut ByNumber<Meter, A>,
    call: FilterInput,
) -> Verdict
    requires gate { route.gate < length gates.old.entries }
    requires meter { IfSome route.meter (λ i. i < length meters.old.entries) }
    requires asked { NoGateAskedLater gates.old.entries call.at }
    requires judged { NoMeterUsedLater meters.old.entries call.at }
    requires range { call.at < END_OF_TIME }
    ensures verdict { (p : PolicePlans) (ss : List FilterStep) (f : FilterPlan)
        → HasInstanceIndices f (keys_of gates.old.entries) (keys_of meters.old.entries) route
        → StandForShares p gates.old.entries meters.old.entries ss
        → result ≡ answer_verdict p ss call f (gate_answer p ss call f.gate) }
    ensures reached { has_reached_gate result ≡ true }
    ensures gates { (p : PolicePlans) (ss : List FilterStep) (n : ℕ) (f : FilterPlan)
        → HasInstanceIndices f (keys_of gates.old.entries) (keys_of meters.old.entries) route
        → StandForShares p gates.old.entries meters.old.entries ss
        → StandForShares p gates.new.entries meters.new.entries (Judged call n f result ∷ ss) }
    ensures priority { HasValidPriority result }
    ensures asked { NoGateAskedLater gates.new.entries call.at }
    ensures judged { NoMeterUsedLater meters.new.entries call.at }
    ensures same_gates { keys_of gates.new.entries ≡ keys_of gates.old.entries }
    ensures same_meters { keys_of meters.new.entries ≡ keys_of meters.old.entries }
{
    let answer = ask_gate(gates, route.gate, call.at, call.sdu);
    answer_verdict(answer, route.meter, meters, call)
}

/// Returns the receive flag and the octets flag of the stream gate `number`, which must exist. `Police::flags` reports them.
pub(crate) fn gate_flags<A: Allocator + Copy>(
    gates: &ByNumber<StreamGate<A>, A>,
    number: u32,
) -> (bool, bool)
    requires { IsSome (lookup (nat_eq number) gates.now.entries) }
    ensures shown_rx { result.0 ≡ rx_flag (lookup (nat_eq number) gates.now.entries) }
    ensures shown_octets { result.1 ≡ octets_flag (lookup (nat_eq number) gates.now.entries) }
    ensures rx { (rules : ℕ → GateRules) (share : ℕ → List GateEvent) → GatesStand rules gates.now.entries share
        → result.0 ≡ (rules number).shut_on_rx && is_shut_by_rx (gate_steps (rules number) (share number)) }
    ensures octets { (rules : ℕ → GateRules) (share : ℕ → List GateEvent) → GatesStand rules gates.now.entries share
        → result.1 ≡ (rules number).shut_on_octets && is_shut_by_octets (gate_steps (rules number) (share number)) }
{
    match gates.get(&number) {
        Some(gate) => gate.flags(),
        None => unreachable!(),
    }
}

/// Returns the bucket levels and the red flag of the meter `number`, which must exist. `Police::buckets` and `Police::flags` report them.
pub(crate) fn meter_buckets<A: Allocator + Copy>(
    meters: &ByNumber<Meter, A>,
    number: u32,
) -> Buckets
    requires { IsSome (lookup (nat_eq number) meters.now.entries) }
    ensures shown { Some result ≡ option_map (λ m. m.buckets) (lookup (nat_eq number) meters.now.entries) }
    ensures after { (plans : ℕ → MeterPlan) (share : ℕ → List colours.MeterEvent)
        → MetersStand plans meters.now.entries share
        → result ≡ colours.history_buckets (plans number) (colours.meter_history (plans number) (share number)) }
{
    match meters.get(&number) {
        Some(meter) => meter.state(),
        None => unreachable!(),
    }
}
