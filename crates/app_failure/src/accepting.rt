//! Accepted plans, and the line that counts their protected and grouped filters.
ghost use Rattle.std.specs.Prelude.{◌≡◌, ◌+◌, IfOk, IfErr, None, string_bytes};
ghost use Rattle.app_failure.specs.Accepting.{accepted_line, count_grouped, count_protected, counts_line};
ghost use Rattle.bridge_check.specs.Faults.{first_fault};
ghost use Rattle.app_failure.specs.Jobs.{Accepts, RefusesCheck, RefusesPlan};

use crate::fault::Failure;
use bridge_check::{Accepted, check};
use bridge_config::{Plan, plan_of};
use bridge_filter::FilterPlan;
use bridge_limits::NoMemory;
use std::alloc::{Allocator, Global};

/// Returns the plan of a text, if it isolates each of its protected filters and groups.
///
/// Fails with `Plan` and the text's first fault, or with `Check` and the plan's first fault. `text_warnings` and `explain_bridge_plan` of
/// `app_networks`, and `check_bridge_plan` of `net_check` call it.
pub fn accepted_plan<A: Allocator + Copy>(
    alloc: A,
    heap: Global,
    text: &[u8],
) -> Result<Accepted<A>, Failure>
    ensures ok { IfOk result (λ accepted. Accepts text.now accepted) }
    ensures err { IfErr result (RefusesPlan A text.now) }
{
    let plan = match plan_of(alloc, heap, text) {
        Ok(plan) => plan,
        Err(fault) => return Err(Failure::Plan(fault)),
    };
    check_isolation(alloc, plan)
}

/// Accepts a plan that isolates each of its protected filters and groups. Otherwise fails with `Check` and the plan's first fault.
/// `accepted_plan`, `read_commands_and_check` and `read_accepted_plan` call it.
pub fn check_isolation<A: Allocator + Copy>(alloc: A, plan: Plan<A>) -> Result<Accepted<A>, Failure>
    ensures ok { IfOk result (λ accepted. (accepted ≡ plan) × (first_fault plan ≡ None)) }
    ensures err { IfErr result (RefusesCheck plan) }
{
    match check(alloc, plan) {
        Ok(accepted) => Ok(accepted),
        Err(refused) => Err(Failure::Check(refused.fault)),
    }
}

/// Returns the number of protected filters, for the line of an accepted plan. `check_line` calls it.
fn count_protected(filters: &[(u32, FilterPlan)]) -> usize
    ensures { result ≡ count_protected filters.now }
{
    filters.iter().filter(|f| f.1.protected).count()
}

/// Returns the number of filters that have a group, for the line of an accepted plan. `check_line` calls it.
fn count_grouped(filters: &[(u32, FilterPlan)]) -> usize
    ensures { result ≡ count_grouped filters.now }
{
    filters.iter().filter(|f| f.1.group.is_some()).count()
}

/// Returns the line of an accepted plan with these numbers of filters. Without grouped filters, the line doesn't count them. `check_line`
/// calls it.
fn counts_line<A: Allocator + Copy>(
    alloc: A,
    protected: usize,
    grouped: usize,
    all: usize,
) -> Result<String<A>, NoMemory>
    ensures { IfOk result (λ line. string_bytes line ≡ counts_line protected grouped all) }
{
    if grouped == 0 {
        return Ok(format!(in alloc; "accepted: {protected} protected of {all} filters\n")?);
    }
    Ok(format!(in alloc;
        "accepted: {protected} protected and {grouped} grouped of {all} filters\n"
    )?)
}

/// Returns the line for an accepted plan, with its line feed. It has the numbers of protected filters, of grouped filters if there are any,
/// and of all filters.
///
/// `check_of_accepted` of `app_commands` calls it.
pub fn check_line<A: Allocator + Copy>(
    alloc: A,
    accepted: &Accepted<A>,
) -> Result<String<A>, NoMemory>
    ensures { IfOk result (λ line. string_bytes line ≡ accepted_line accepted.now.filters) }
{
    let filters = accepted.plan().filters();
    let protected = count_protected(filters);
    counts_line(alloc, protected, count_grouped(filters), filters.len())
}
