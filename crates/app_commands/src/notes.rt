//! Lines on standard error about an accepted plan.
ghost use Rattle.std.specs.Prelude.{IfOk, string_bytes};
ghost use Rattle.app_commands.specs.Notes.{AreNotes};

use crate::context::Flags;
use app_failure::NoMemory;
use bridge_check::Accepted;
use show_lint::{describe_plan, idle_change, write_warnings};
use std::alloc::Global;

/// Returns the text for standard error about an accepted plan, and whether the plan has a warning. The text is the explanation if
/// requested, otherwise the warnings if warnings are errors.
///
/// `check_of_accepted` and `send_strictly` call it.
pub(crate) fn plan_notes(
    alloc: Global,
    accepted: &Accepted<Global>,
    idle: Option<usize>,
    flags: Flags,
) -> Result<(String, bool), NoMemory>
    ensures { IfOk result (λ notes. AreNotes flags.is_strict flags.is_explained (string_bytes notes.0) notes.1) }
{
    if !flags.is_strict && !flags.is_explained {
        return Ok((String::new(alloc), false));
    }
    let warnings = write_warnings(alloc, accepted, idle)?;
    let is_warned = !warnings.as_str().is_empty();
    if !flags.is_explained {
        return Ok((warnings, is_warned));
    }
    let notes = describe_plan(alloc, accepted, idle)?;
    Ok((notes, is_warned))
}

/// Returns the line of a schedule change without effect. `None` if every change has an effect, or if neither errors from warnings nor an
/// explanation is requested. `check_of_accepted` and `run_job` call it.
pub(crate) fn idle_line(text: &[u8], accepted: &Accepted<Global>, flags: Flags) -> Option<usize> {
    if flags.is_strict || flags.is_explained {
        idle_change(text, accepted.plan())
    } else {
        None
    }
}
