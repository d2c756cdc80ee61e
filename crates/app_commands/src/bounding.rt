//! Finds the warning of a plan without delay bounds.
ghost use Rattle.std.specs.Prelude.{IfOk};
ghost use Rattle.app_commands.specs.Notes.{WarnsOfNone};

use app_failure::NoMemory;
use bridge_check::Accepted;
use bridge_text::TextBuilder;
use show_lint::{Warning, put_warning};
use std::alloc::Global;

/// Returns the warning of an accepted plan without a protected or grouped filter, which has no delay bound. Returns `None` for other plans.
/// `plan_warnings` of `app_networks` calls it.
pub fn unprotected_warning(
    alloc: Global,
    accepted: &Accepted<Global>,
) -> Result<Option<String>, NoMemory>
    ensures { IfOk result (WarnsOfNone accepted.now.filters) }
{
    let filters = accepted.plan().filters();
    let protected = filters.iter().filter(|f| f.1.protected).count();
    let grouped = filters.iter().filter(|f| f.1.group.is_some()).count();
    if protected > 0 || grouped > 0 {
        return Ok(None);
    }
    let mut said = TextBuilder::new(alloc);
    put_warning(&mut said, &Warning::NoneProtected);
    let warning = said.finish()?;
    Ok(Some(warning))
}
