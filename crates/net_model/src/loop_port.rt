//! Search among steps for a port on a loop, for one group of frames.
ghost use Rattle.std.specs.Prelude.{◌≡◌, Ok, None, IfOk, IfSome};
ghost use Rattle.net_model.specs.Walks.{IsOnLoop};
ghost use Rattle.net_model.specs.declared.links.BridgePort.{BridgePort as Port};

use crate::BridgePort;
use crate::loop_search::is_on_loop;
use crate::pruning::prune_dead_ends;
use crate::step::Step;
use bridge_limits::NoMemory;
use std::alloc::Allocator;

/// Returns a port from which steps lead back to itself. `None` if no port has a loop. The search begins at each step's start, so
/// `find_loop_port` first removes steps on no loop.
fn first_loop_port<A: Allocator + Copy>(
    alloc: A,
    steps: &[Step],
) -> Result<Option<BridgePort>, NoMemory>
    ensures some { IfOk result (λ place. IfSome place (IsOnLoop steps.now)) }
    ensures none { result ≡ Ok None → (x : Port) → ¬ IsOnLoop steps.now x }
{
    for step in steps {
        if is_on_loop(alloc, steps, step.from)? {
            return Ok(Some(step.from));
        }
    }
    Ok(None)
}

/// Returns a port from which steps lead back to itself. Returns `None` if and only if no walk returns to its start. `group_loop_port` calls
/// it for each group.
pub fn find_loop_port<A: Allocator + Copy>(
    alloc: A,
    steps: &[Step],
) -> Result<Option<BridgePort>, NoMemory>
    ensures some { IfOk result (λ place. IfSome place (IsOnLoop steps.now)) }
    ensures none { result ≡ Ok None → (x : Port) → ¬ IsOnLoop steps.now x }
{
    let kept = prune_dead_ends(alloc, steps)?;
    first_loop_port(alloc, &kept)
}
