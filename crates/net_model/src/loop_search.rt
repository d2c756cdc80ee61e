//! Test whether steps lead from a port back to this port.
ghost use Rattle.std.specs.Prelude.{◌≡◌, ◌++◌, ◌↔◌, IfOk, IsTrue};
ghost use Rattle.std.specs.List.{filter};
ghost use Rattle.net_model.specs.Walks.{IsOnLoop};
ghost use Rattle.net_model.specs.Searching as searching;
ghost use Rattle.net_model.specs.Searching.{reached_targets};

use crate::BridgePort;
use crate::step::{Step, has_port, is_same_port};
use bridge_limits::NoMemory;
use std::alloc::Allocator;

/// Returns whether `x` is the start of the search or a reached port. `add_reached_ports` and `unexplored_steps` call it.
fn is_reached(start: BridgePort, reached: &[BridgePort], x: BridgePort) -> bool
    ensures { result ≡ searching.is_reached start reached.now x }
{
    is_same_port(start, x) || has_port(reached, x)
}

/// Returns the steps in `steps` that begin neither at `start` nor at a reached port. Later iterations of the search explore them.
/// `is_on_loop` calls it.
#[tactic(auto, using(std::proofs::lemmas::List::Elements::filter_more))]
fn unexplored_steps<A: Allocator + Copy>(
    alloc: A,
    start: BridgePort,
    reached: &[BridgePort],
    steps: &[Step],
) -> Result<Vec<Step, A>, NoMemory>
    ensures { IfOk result (λ left. left.items ≡ filter (searching.is_unexplored start reached.now) steps.now) }
{
    let mut left = Vec::new(alloc);
    for step in steps {
        if !is_reached(start, reached, step.from) {
            left.push(*step)?;
        }
    }
    Ok(left)
}

/// Returns the reached ports, and the ports that one of `steps` reaches from them or from `start`. `is_on_loop` calls it.
#[tactic(auto, using(crate::proofs::Searched::targets_more))]
fn add_reached_ports<A: Allocator + Copy>(
    alloc: A,
    start: BridgePort,
    reached: &[BridgePort],
    steps: &[Step],
) -> Result<Vec<BridgePort, A>, NoMemory>
    ensures { IfOk result (λ places. places.items ≡ reached.now ++ reached_targets start reached.now steps.now) }
{
    let mut places = reached.to_vec(alloc)?;
    for step in steps {
        if is_reached(start, reached, step.from) {
            places.push(step.to)?;
        }
    }
    Ok(places)
}

/// Returns whether steps lead from `start` back to `start`. In each iteration, the search adds the ports that one more step reaches.
/// `first_loop_port` calls it for each step's start.
pub(crate) fn is_on_loop<A: Allocator + Copy>(
    alloc: A,
    steps: &[Step],
    start: BridgePort,
) -> Result<bool, NoMemory>
    ensures { IfOk result (λ back. IsTrue back ↔ IsOnLoop steps.now start) }
{
    let mut reached = Vec::new(alloc);
    let mut pending = steps.to_vec(alloc)?;
    loop {
        let left = unexplored_steps(alloc, start, &reached, &pending)?;
        if left.len() == pending.len() {
            return Ok(has_port(&reached, start));
        }
        reached = add_reached_ports(alloc, start, &reached, &pending)?;
        pending = left;
    }
}
