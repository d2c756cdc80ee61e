//! Carries out the commands of a run, which clear flags of filters, gates and meters.

ghost use Rattle.std.specs.Prelude.{◌≡◌, ℕ, ◌<◌, nat_eq, IsSome, false, List, ◌∷◌, if◌then◌else◌};
ghost use Rattle.std.specs.Map.{keys_of, lookup};
ghost use Rattle.bridge_meter.specs.declared.MeterPlan.{MeterPlan};
ghost use Rattle.bridge_meter.specs.Colours as colours;
ghost use Rattle.bridge_gate.specs.Gates.{GateRules, GateEvent, ClearedRx, ClearedOctets};
ghost use Rattle.bridge_filter.specs.Verdicts.{FilterStep, Commanded};
ghost use Rattle.bridge_filter.specs.StandsFor.{GatesStand, MetersStand, HaveVerdictStates};
ghost use Rattle.bridge_filter.specs.Steps.{NoGateAskedLater, NoMeterUsedLater, InstancesUnchanged, filter_plans};

use crate::Clear;
use crate::filter_state::FilterState;
use crate::gates_and_meters::ByNumber;
use bridge_gate::StreamGate;
use bridge_meter::Meter;
use std::alloc::Allocator;

/// Clears the blocked flag of the filter `number`, which must exist. Carries out a command for `Police::clear`.
pub(crate) fn clear_blocked<A: Allocator + Copy>(
    filters: &mut ByNumber<FilterState, A>,
    number: u32,
)
    requires { IsSome (lookup (nat_eq number) filters.old.entries) }
    ensures kept { (ss : List FilterStep) → HaveVerdictStates filters.old.entries ss
        → HaveVerdictStates filters.new.entries (Commanded Clear.Blocked number ∷ ss) }
    ensures plans { filter_plans filters.new.entries ≡ filter_plans filters.old.entries }
    ensures instances { InstancesUnchanged filters.old.entries filters.new.entries }
{
    match filters.get_mut(&number) {
        Some(filter) => filter.blocked = false,
        None => unreachable!(),
    }
}

/// Clears the receive flag of the stream gate `number`, which must exist. Carries out a command for `Police::clear`.
pub(crate) fn clear_rx<A: Allocator + Copy>(gates: &mut ByNumber<StreamGate<A>, A>, number: u32)
    requires { IsSome (lookup (nat_eq number) gates.old.entries) }
    ensures stand { (rules : ℕ → GateRules) (share : ℕ → List GateEvent) → GatesStand rules gates.old.entries share
        → GatesStand rules gates.new.entries (λ n. if nat_eq number n then ClearedRx ∷ share n else share n) }
    ensures before { (t : ℕ) → NoGateAskedLater gates.old.entries t → NoGateAskedLater gates.new.entries t }
    ensures same { keys_of gates.new.entries ≡ keys_of gates.old.entries }
{
    match gates.get_mut(&number) {
        Some(gate) => gate.clear_rx(),
        None => unreachable!(),
    }
}

/// Clears the octets flag of the stream gate `number`, which must exist. Carries out a command for `Police::clear`.
pub(crate) fn clear_octets<A: Allocator + Copy>(gates: &mut ByNumber<StreamGate<A>, A>, number: u32)
    requires { IsSome (lookup (nat_eq number) gates.old.entries) }
    ensures stand { (rules : ℕ → GateRules) (share : ℕ → List GateEvent) → GatesStand rules gates.old.entries share
        → GatesStand rules gates.new.entries (λ n. if nat_eq number n then ClearedOctets ∷ share n else share n) }
    ensures before { (t : ℕ) → NoGateAskedLater gates.old.entries t → NoGateAskedLater gates.new.entries t }
    ensures same { keys_of gates.new.entries ≡ keys_of gates.old.entries }
{
    match gates.get_mut(&number) {
        Some(gate) => gate.clear_octets(),
        None => unreachable!(),
    }
}

/// Clears the red flag of the meter `number`, which must exist. Carries out a command for `Police::clear`.
pub(crate) fn clear_red<A: Allocator + Copy>(meters: &mut ByNumber<Meter, A>, number: u32)
    requires { IsSome (lookup (nat_eq number) meters.old.entries) }
    ensures stand { (plans : ℕ → MeterPlan) (share : ℕ → List colours.MeterEvent)
        → MetersStand plans meters.old.entries share
        → MetersStand plans meters.new.entries (λ n. if nat_eq number n then colours.Cleared ∷ share n else share n) }
    ensures before { (t : ℕ) → NoMeterUsedLater meters.old.entries t → NoMeterUsedLater meters.new.entries t }
    ensures same { keys_of meters.new.entries ≡ keys_of meters.old.entries }
{
    match meters.get_mut(&number) {
        Some(meter) => meter.clear_red(),
        None => unreachable!(),
    }
}
