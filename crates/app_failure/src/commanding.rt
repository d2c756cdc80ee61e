//! Reads the commands of a run for an accepted plan.
ghost use Rattle.std.specs.Prelude.{◌≡◌, ℕ, List, Option, None, Some, Ok, IfOk, IfErr, option_map, string_bytes};
ghost use Rattle.bridge_check.specs.Faults.{first_fault};
ghost use Rattle.bridge_config.specs.Commands.{AreCommands};
ghost use Rattle.bridge_config.specs.Document.{text_commands};
ghost use Rattle.app_failure.specs.Commanding.{EndsCommanded, EndsCommands, TellsText, commands_for};

use crate::accepting::check_isolation;
use crate::fault::{Failure, file_failure};
use app_files::read_named;
use bridge_check::Accepted;
use bridge_config::{Command, Plan, commands_of};
use std::alloc::{Allocator, Global};
use std::io::Read;

/// Accepts a plan and reads its commands from a reader; without a reader there are none. Failures name the path in `file`.
///
/// Reads the commands before the check: fails with `Commands` or `Check`. `read_commands` of `app_commands` calls it.
pub fn read_commands_and_check<R: Read + Drop, A: Allocator + Copy>(
    alloc: A,
    heap: Global,
    plan: Plan<A>,
    file: Option<(String, R)>,
) -> Result<(Accepted<A>, Vec<Command, A>), Failure>
    ensures plan { IfOk result (λ done. (done.0 ≡ plan) × (first_fault plan ≡ None)) }
    ensures commands { IfOk result (λ done. AreCommands done.0 done.1.items) }
    ensures ok { (text : Option (List ℕ)) → TellsText R.remaining file text
        → IfOk result (λ done. commands_for plan text ≡ Ok done.1.items) }
    ensures err { (text : Option (List ℕ)) → TellsText R.remaining file text
        → IfErr result (EndsCommanded plan (option_map (λ f. string_bytes f.0) file) text) }
    ensures only { IfErr result (λ fault. (text : Option (List ℕ))
        × EndsCommanded plan (option_map (λ f. string_bytes f.0) file) text fault) }
{
    let commands = match read_optional_commands(alloc, heap, &plan, file) {
        Ok(commands) => commands,
        Err(fault) => {
            drop(plan);
            return Err(fault);
        }
    };
    match check_isolation(alloc, plan) {
        Ok(accepted) => Ok((accepted, commands)),
        Err(fault) => Err(fault),
    }
}

/// Reads the commands of a plan from an optional reader. Without a reader, the list of commands is empty. Fails if the reader fails or the
/// commands are refused. `read_commands_and_check` calls it.
fn read_optional_commands<R: Read + Drop, A: Allocator + Copy>(
    alloc: A,
    heap: Global,
    plan: &Plan<A>,
    file: Option<(String, R)>,
) -> Result<Vec<Command, A>, Failure>
    ensures commands { IfOk result (λ v. AreCommands plan.now v.items) }
    ensures some { IfOk result (λ v. (text : Option (List ℕ)) × (commands_for plan.now text ≡ Ok v.items)) }
    ensures ok { (text : Option (List ℕ)) → TellsText R.remaining file text
        → IfOk result (λ v. commands_for plan.now text ≡ Ok v.items) }
    ensures err { (text : Option (List ℕ)) → TellsText R.remaining file text
        → IfErr result (EndsCommanded plan.now (option_map (λ f. string_bytes f.0) file) text) }
    ensures only { IfErr result (λ fault. (text : Option (List ℕ))
        × EndsCommanded plan.now (option_map (λ f. string_bytes f.0) file) text fault) }
{
    match file {
        None => Ok(Vec::new(alloc)),
        Some((path, reader)) => read_commands(alloc, heap, plan, path.as_str(), reader),
    }
}

/// Reads the commands of a plan from a reader. If the reader fails, the failure names `path`. `read_optional_commands` calls it.
fn read_commands<R: Read + Drop, A: Allocator + Copy>(
    alloc: A,
    heap: Global,
    plan: &Plan<A>,
    path: &str,
    reader: R,
) -> Result<Vec<Command, A>, Failure>
    ensures commands { IfOk result (λ v. AreCommands plan.now v.items) }
    ensures some { IfOk result (λ v. (input : List ℕ) × (text_commands plan.now input ≡ Ok v.items)) }
    ensures ok { (input : List ℕ) → R.remaining reader ≡ Some input
        → IfOk result (λ v. text_commands plan.now input ≡ Ok v.items) }
    ensures err { (input : List ℕ) → R.remaining reader ≡ Some input
        → IfErr result (EndsCommands plan.now path.now input) }
    ensures only { IfErr result (λ fault. (input : List ℕ) × EndsCommands plan.now path.now input fault) }
{
    match read_named(alloc, heap, path, reader) {
        Ok(text) => match commands_of(alloc, heap, &text, plan) {
            Ok(commands) => Ok(commands),
            Err(fault) => Err(Failure::Commands(fault)),
        },
        Err(fault) => Err(file_failure(fault)),
    }
}
