//! Accepts a plan, or refuses it with its first fault.
ghost use Rattle.std.specs.Prelude.{◌≡◌, ◌≤◌, ◌⊎◌, Some, None, IfOk, IfErr};
ghost use Rattle.std.specs.Option.{ForSome};
ghost use Rattle.bridge_config.specs.Rules.{IsPlan};
ghost use Rattle.bridge_check.specs.declared.check_fault.CheckFault.TheVariants as the_fault;
ghost use Rattle.bridge_check.specs.Faults as faults;
ghost use Rattle.bridge_check.specs.Faults.{first_fault};
ghost use Rattle.bridge_check.specs.ReachTables.{all_reaches};
ghost use Rattle.bridge_check.specs.Acceptable.{HasAcceptableGroups, IsAcceptable};

use crate::check_fault::CheckFault;
use crate::filter_tests::{first_test_fault, has_catch_all, is_tested, test_filter};
use crate::reaches::{FilterReach, all_reaches};
use bridge_config::Plan;
use bridge_filter::FilterPlan;
use std::alloc::{AllocError, Allocator};
use std::marker::Model;

/// Plan that isolates each of its protected filters and groups. Only `check` creates a value of this type.
#[derive(Drop)]
pub struct Accepted<A: Allocator + Copy> {
    /// Plan that passed `check`.
    plan: Plan<A>,
}

impl<A: Allocator + Copy> Model for Accepted<A> {
    ghost use Rattle.bridge_config.specs.Model.{Plan};
    ghost use Rattle.bridge_config.specs.Rules.{IsPlan};
    ghost use Rattle.bridge_check.specs.Acceptable.{HasAcceptableGroups, IsAcceptable};

    ghost Value = { Plan A };

    ghost view = { λ a. a.plan };

    ghost invariant = { λ a. IsPlan a.plan × IsAcceptable a.plan × HasAcceptableGroups a.plan };
}

impl<A: Allocator + Copy> Accepted<A> {
    /// Returns the accepted plan. Runs, bounds and networks call it, because they may use only accepted plans.
    pub fn plan(&self) -> &Plan<A>
        ensures plan { result.now ≡ self.now }
        ensures acceptable { IsAcceptable self.now }
        ensures grouped { HasAcceptableGroups self.now }
        ensures rules { IsPlan self.now }
    {
        &self.plan
    }
}

/// Refused plan, with its first fault. Callers get the plan back, to explain the fault.
#[derive(Drop)]
pub struct Refused<A: Allocator + Copy> {
    /// The refused plan, unchanged.
    pub plan: Plan<A>,
    /// Its first fault: by filter number, then by test, port and class.
    pub fault: CheckFault,
}

/// Returns the fault with the lower filter number, or `a` if the numbers are equal; `None` if both are absent. `least_fault` calls it.
fn lesser_fault(
    a: Option<(u32, CheckFault)>,
    b: Option<(u32, CheckFault)>,
) -> Option<(u32, CheckFault)>
    ensures { result ≡ faults.lesser_fault a b }
{
    match (a, b) {
        (None, b) => b,
        (Some(a), None) => Some(a),
        (Some(a), Some(b)) => { if b.0 < a.0 { Some(b) } else { Some(a) } }
    }
}

/// Returns the number and the first fault of `filter`; `None` if the filter is neither protected nor grouped, or passes every test.
/// `least_fault` calls it.
fn numbered_fault<A: Allocator + Copy>(
    plan: &Plan<A>,
    reaches: &[FilterReach],
    catches: bool,
    number: u32,
    filter: FilterPlan,
) -> Option<(u32, CheckFault)>
    requires reaches { reaches.now ≡ all_reaches plan.now plan.now.filters }
    requires catches { catches ≡ faults.has_catch_all plan.now.filters }
    requires sdu { ForSome filter.max_sdu (λ n. n ≤ 65535) }
    ensures { result ≡ faults.numbered_fault plan.now (number, filter) }
{
    if !is_tested(&filter) {
        return None;
    }
    match first_test_fault(&test_filter(plan, reaches, catches, number, filter)) {
        Some(fault) => Some((number, fault)),
        None => None,
    }
}

/// Returns the first fault of the lowest-numbered faulty filter, protected or grouped, with the filter's number; `None` if no protected or
/// grouped filter is faulty. `first_fault` calls it.
fn least_fault<A: Allocator + Copy>(
    plan: &Plan<A>,
    reaches: &[FilterReach],
) -> Option<(u32, CheckFault)>
    requires { reaches.now ≡ all_reaches plan.now plan.now.filters }
    ensures { result ≡ faults.least_fault plan.now plan.now.filters }
{
    let catches = has_catch_all(plan.filters());
    let mut least = None;
    for (number, filter) in plan.filters() {
        let fault = numbered_fault(plan, reaches, catches, *number, *filter);
        least = lesser_fault(least, fault);
    }
    least
}

/// Returns the fault that `check` reports; `None` if the plan isolates its protected filters and groups. Fails only if memory runs out.
fn first_fault<A: Allocator + Copy>(
    alloc: A,
    plan: &Plan<A>,
) -> Result<Option<CheckFault>, AllocError>
    ensures { IfOk result (λ f. f ≡ first_fault plan.now) }
{
    let Ok(reaches) = all_reaches(alloc, plan) else {
        return Err(AllocError);
    };
    match least_fault(plan, &reaches) {
        Some((_, fault)) => Ok(Some(fault)),
        None => Ok(None),
    }
}

/// Accepts a plan that isolates each of its protected filters and groups. Otherwise refuses it with the first fault, by rising filter
/// number, then in test order, then by rising port and class.
///
/// `plan_picture` of `app_commands` and `check_isolation` of `app_failure` call it.
pub fn check<A: Allocator + Copy>(alloc: A, plan: Plan<A>) -> Result<Accepted<A>, Refused<A>>
    ensures accepted { IfOk result (λ a. (a ≡ plan) × (first_fault plan ≡ None)) }
    ensures acceptable { IfOk result IsAcceptable }
    ensures grouped { IfOk result HasAcceptableGroups }
    ensures refused { IfErr result (λ r. (r.plan ≡ plan)
        × ((r.fault ≡ the_fault.NoMemory) ⊎ (first_fault plan ≡ Some r.fault))) }
{
    let _ = plan.ports();
    match first_fault(alloc, &plan) {
        Ok(None) => Ok(Accepted { plan }),
        Ok(Some(fault)) => Err(Refused { plan, fault }),
        Err(_) => Err(Refused {
            plan,
            fault: CheckFault::NoMemory,
        }),
    }
}
