//! Finds classes that never open although frames of unprotected filters can enter their queues, for the warning `NeverOpen`.
ghost use Rattle.std.specs.Prelude.{◌<◌, ◌≤◌};

use crate::gate_openings::{change_stages, has_port_change, port_list};
use crate::lint::push_warning;
use crate::warning::{NeverOpen, Warning};
use bridge_check::can_wait;
use bridge_config::{Plan, PortPlan};
use bridge_cycle::{Run, longest_run};
use std::alloc::{AllocError, Allocator};

/// Returns the number of the first unprotected filter whose frames can enter the queue of class `class` at port `port`. `None` if no frames
/// of an unprotected filter can. `find_class` calls it.
fn first_waiting_filter<A: Allocator + Copy>(plan: &Plan<A>, port: u8, class: u8) -> Option<u32>
    requires from { 1 ≤ port }
    requires to { port ≤ 16 }
{
    for (number, filter) in plan.filters() {
        if !filter.protected && can_wait(plan, filter, port, class) {
            return Some(*number);
        }
    }
    None
}

/// Adds a warning for each list of port `number` that never opens class `class`, if frames of an unprotected filter can enter this queue.
/// `find_closed_classes` calls it.
fn find_class<A: Allocator + Copy>(
    found: &mut Vec<Warning>,
    plan: &Plan<A>,
    number: u8,
    port: &PortPlan<A>,
    class: u8,
) -> Result<(), AllocError>
    requires from { 1 ≤ number }
    requires to { number ≤ 16 }
    requires class { class < 8 }
{
    for stage in change_stages(has_port_change(port)) {
        let Some(list) = port_list(port, *stage) else {
            return Ok(());
        };
        if matches!(longest_run(list, class), Run::Never) {
            if let Some(filter) = first_waiting_filter(plan, number, class) {
                let never = NeverOpen {
                    stage: *stage,
                    filter,
                    port: number,
                    class,
                };
                push_warning(found, Warning::NeverOpen(never))?;
            }
        }
    }
    Ok(())
}

/// Adds a warning for each class that never opens, if frames of an unprotected filter can enter its queue. For protected filters, `check`
/// refuses a plan with a closed class. `find_plan_warnings` calls it.
pub(crate) fn find_closed_classes<A: Allocator + Copy>(
    found: &mut Vec<Warning>,
    plan: &Plan<A>,
) -> Result<(), AllocError> {
    for number in 1..17u8 {
        if let Some(port) = plan.port(number) {
            for class in 0..8u8 {
                find_class(found, plan, number, port, class)?;
            }
        }
    }
    Ok(())
}
