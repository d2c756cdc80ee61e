//! Writes the fault line of commands that are refused.
ghost use Rattle.std.specs.Prelude.{◌≡◌, IfOk, string_bytes};
ghost use Rattle.bridge_text.specs.Growth.{HasGrown};
ghost use Rattle.app_failure.specs.PlanLines.{plan_fault_line};
ghost use Rattle.app_failure.specs.RefusedCommands.{commands_fault_line};

use crate::plan_line::put_plan_fault;
use bridge_limits::NoMemory;
use bridge_schema::PlanFault;
use bridge_text::TextBuilder;
use std::alloc::Allocator;

/// Returns the fault line that a refused plan would have with this fault: the fault line of commands differs only in its start.
/// `put_commands_fault` calls it.
fn plan_fault_line<A: Allocator + Copy>(alloc: A, fault: &PlanFault) -> Result<String<A>, NoMemory>
    ensures { IfOk result (λ line. string_bytes line ≡ plan_fault_line fault.now) }
{
    let mut text = TextBuilder::new(alloc);
    put_plan_fault(&mut text, fault);
    text.finish()
}

/// Writes the fault line of refused commands: `commands refused: `, followed by the words of a plan's fault line. `put_fault` calls it.
pub fn put_commands_fault<A: Allocator + Copy>(
    alloc: A,
    text: &mut TextBuilder<A>,
    fault: &PlanFault,
)
    ensures { HasGrown text.old (commands_fault_line fault.now) text.new }
{
    let Ok(line) = plan_fault_line(alloc, fault) else {
        text.discard();
        return;
    };
    match line.as_str().strip_prefix("plan refused: ") {
        Some(words) => {
            text.put("commands refused: ");
            text.put(words);
        }
        None => text.put(line.as_str()),
    }
}
