//! Removal of steps that lie on no loop, before the costlier search for a loop.
ghost use Rattle.std.specs.Prelude.{◌≡◌, IfOk};
ghost use Rattle.std.specs.List.{filter};
ghost use Rattle.net_model.specs.Pruning as peeling;
ghost use Rattle.net_model.specs.Pruning.{IsPruned};

use crate::BridgePort;
use crate::step::{Step, is_same_port};
use bridge_limits::NoMemory;
use std::alloc::Allocator;

/// Returns whether a step begins at port `x`. `is_inner_step` calls it.
fn has_outgoing_step(steps: &[Step], x: BridgePort) -> bool
    ensures { result ≡ peeling.has_outgoing_step steps.now x }
{
    steps.iter().any(|step| is_same_port(step.from, x))
}

/// Returns whether a step ends at port `x`. `is_inner_step` calls it.
fn has_incoming_step(steps: &[Step], x: BridgePort) -> bool
    ensures { result ≡ peeling.has_incoming_step steps.now x }
{
    steps.iter().any(|step| is_same_port(step.to, x))
}

/// Returns whether a step begins where `step` ends, and a step ends where `step` begins. Each step of a loop is such an inner step.
/// `inner_steps` calls it.
fn is_inner_step(steps: &[Step], step: &Step) -> bool
    ensures { result ≡ peeling.is_inner_step steps.now step.now }
{
    has_outgoing_step(steps, step.to) && has_incoming_step(steps, step.from)
}

/// Returns the inner steps of `steps` (`is_inner_step`). `prune_dead_ends` repeats this until it removes no step.
#[tactic(auto, using(std::proofs::lemmas::List::Elements::filter_more))]
fn inner_steps<A: Allocator + Copy>(alloc: A, steps: &[Step]) -> Result<Vec<Step, A>, NoMemory>
    ensures { IfOk result (λ kept. kept.items ≡ filter (peeling.is_inner_step steps.now) steps.now) }
{
    let mut kept = Vec::new(alloc);
    for step in steps {
        if is_inner_step(steps, step) {
            kept.push(*step)?;
        }
    }
    Ok(kept)
}

/// Removes steps until each remaining step is an inner step. Keeps all steps of loops; without loops, no step remains. `find_loop_port`
/// calls it before its search.
pub(crate) fn prune_dead_ends<A: Allocator + Copy>(
    alloc: A,
    steps: &[Step],
) -> Result<Vec<Step, A>, NoMemory>
    ensures { IfOk result (λ kept. IsPruned steps.now kept.items) }
{
    let mut kept = inner_steps(alloc, steps)?;
    for _ in 0..steps.len() {
        let next = inner_steps(alloc, &kept)?;
        if next.len() == kept.len() {
            return Ok(next);
        }
        kept = next;
    }
    Ok(kept)
}
