//! Lists every test of `check` that a plan fails, for explanations.
ghost use Rattle.std.specs.Prelude.{◌≡◌, ◌≤◌, ◌++◌, IfOk, OnOk};
ghost use Rattle.std.specs.Option.{ForSome};
ghost use Rattle.bridge_check.specs.Faults.{all_faults, failed_tests, filter_failures, has_catch_all};
ghost use Rattle.bridge_check.specs.ReachTables.{all_reaches};

use crate::check_fault::CheckFault;
use crate::filter_tests::{has_catch_all, is_tested, test_filter};
use crate::reaches::{FilterReach, all_reaches};
use bridge_config::Plan;
use bridge_filter::FilterPlan;
use bridge_limits::NoMemory;
use std::alloc::{AllocError, Allocator};

/// Appends the fault of each failed test in `tests` to `faults`; `None` is a passed test. Fails only if memory runs out.
/// `push_filter_faults` calls it.
fn push_failing<A: Allocator>(
    faults: &mut Vec<CheckFault, A>,
    tests: &[Option<CheckFault>],
) -> Result<(), AllocError>
    ensures { OnOk result (faults.new.items ≡ faults.old.items ++ failed_tests tests.now) }
{
    for told in tests {
        if let Some(fault) = told {
            let Ok(()) = faults.push(*fault) else {
                return Err(AllocError);
            };
        }
    }
    Ok(())
}

/// Appends the faults of filter `number` to `faults`, if the filter is protected or grouped. `reaches` has every filter's reach; `catches`
/// is true if the plan has a catch-all filter. `all_faults` calls it.
fn push_filter_faults<A: Allocator + Copy>(
    faults: &mut Vec<CheckFault, A>,
    plan: &Plan<A>,
    reaches: &[FilterReach],
    catches: bool,
    number: u32,
    filter: FilterPlan,
) -> Result<(), AllocError>
    requires reaches { reaches.now ≡ all_reaches plan.now plan.now.filters }
    requires catches { catches ≡ has_catch_all plan.now.filters }
    requires sdu { ForSome filter.max_sdu (λ n. n ≤ 65535) }
    ensures { OnOk result (faults.new.items ≡ faults.old.items ++ filter_failures plan.now (number, filter)) }
{
    if !is_tested(&filter) {
        return Ok(());
    }
    push_failing(faults, &test_filter(plan, reaches, catches, number, filter))
}

/// Returns every fault of `plan`: in the plan's order of filters, then by test. A test of queues reports only the first queue that fails.
/// If `check` accepts the plan, the list is empty.
///
/// `explain_check` of `show_lint` calls it.
pub fn all_faults<A: Allocator + Copy>(
    alloc: A,
    plan: &Plan<A>,
) -> Result<Vec<CheckFault, A>, NoMemory>
    ensures { IfOk result (λ faults. faults.items ≡ all_faults plan.now) }
{
    let Ok(reaches) = all_reaches(alloc, plan) else {
        return Err(NoMemory);
    };
    let catches = has_catch_all(plan.filters());
    let mut faults = Vec::new(alloc);
    for (number, filter) in plan.filters() {
        let Ok(()) = push_filter_faults(&mut faults, plan, &reaches, catches, *number, *filter)
        else {
            return Err(NoMemory);
        };
    }
    Ok(faults)
}
