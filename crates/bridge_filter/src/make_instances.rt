//! Makes filters, gates and meters from their plans.

ghost use Rattle.std.specs.Prelude.{◌≡◌, IfOk, OnOk, ℕ, [], ◌∷◌, ◌++◌, nat_eq, Some, None, true, if◌then◌else◌};
ghost use Rattle.std.specs.Map.{lookup};
ghost use Rattle.bridge_filter.specs.Plans.{are_numbers_distinct, all_have_priorities, all_within_limits};
ghost use Rattle.bridge_filter.specs.Steps.{AreMade, IsNewGate, IsNewMeter, new_filters};

use crate::FilterPlan;
use crate::filter_state::FilterState;
use crate::gates_and_meters::ByNumber;
use bridge_gate::{GatePlan, StreamGate};
use bridge_meter::{Meter, MeterPlan};
use indexmap::IndexMap;
use std::alloc::{AllocError, Allocator};

/// Inserts the instance `thing` (filter, gate or meter) with the number `number`. Fails only if memory runs out. `make_filters`,
/// `make_gates` and `make_meters` call it.
fn insert_instance<T: Drop, A: Allocator + Copy>(
    made: &mut ByNumber<T, A>,
    number: u32,
    thing: T,
) -> Result<(), AllocError>
    ensures updates { OnOk result ((q : ℕ)
        → lookup (nat_eq q) made.new.entries
        ≡ (if nat_eq number q then Some thing else lookup (nat_eq q) made.old.entries)) }
    ensures entries { OnOk result (lookup (nat_eq number) made.old.entries ≡ None
        → made.new.entries ≡ made.old.entries ++ (number, thing) ∷ []) }
{
    match made.insert(number, thing) {
        Ok(_) => Ok(()),
        Err(_) => Err(AllocError),
    }
}

/// Makes the states of filters before their first frames. Fails only if memory runs out. `Police::new` calls it.
pub(crate) fn make_filters<A: Allocator + Copy>(
    alloc: A,
    plans: &[(u32, FilterPlan)],
) -> Result<ByNumber<FilterState, A>, AllocError>
    requires { are_numbers_distinct plans.now ≡ true }
    ensures { IfOk result (λ m. m.entries ≡ new_filters plans.now) }
{
    let mut made = IndexMap::with_capacity(alloc, plans.len())?;
    for (number, plan) in plans {
        insert_instance(&mut made, *number, FilterState::new(*plan))?;
    }
    Ok(made)
}

/// Makes the stream gates before their first events. Fails only if memory runs out. `Police::new` calls it.
pub(crate) fn make_gates<A: Allocator + Copy>(
    alloc: A,
    plans: Vec<(u32, GatePlan<A>), A>,
) -> Result<ByNumber<StreamGate<A>, A>, AllocError>
    requires distinct { are_numbers_distinct plans.items ≡ true }
    requires priorities { all_have_priorities plans.items ≡ true }
    ensures { IfOk result (λ m. AreMade IsNewGate plans.items m.entries) }
{
    let mut made = IndexMap::with_capacity(alloc, plans.len())?;
    for (number, plan) in plans {
        insert_instance(&mut made, number, StreamGate::new(plan))?;
    }
    Ok(made)
}

/// Makes the meters before their first events. Fails only if memory runs out. `Police::new` calls it.
pub(crate) fn make_meters<A: Allocator + Copy>(
    alloc: A,
    plans: &[(u32, MeterPlan)],
) -> Result<ByNumber<Meter, A>, AllocError>
    requires distinct { are_numbers_distinct plans.now ≡ true }
    requires limits { all_within_limits plans.now ≡ true }
    ensures { IfOk result (λ m. AreMade IsNewMeter plans.now m.entries) }
{
    let mut made = IndexMap::with_capacity(alloc, plans.len())?;
    for (number, plan) in plans {
        insert_instance(&mut made, *number, Meter::new(*plan))?;
    }
    Ok(made)
}
