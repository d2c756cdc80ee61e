//! The command `check`: whether a plan isolates its protected filters.
ghost use Rattle.std.specs.Prelude.{◌≡◌, ℕ, IfErr, IfOk, List, string_bytes};
ghost use Rattle.std.specs.declared.alloc.Global.{Global};
ghost use Rattle.app_failure.specs.Accepting.{accepted_line};
ghost use Rattle.app_failure.specs.Jobs.{EndsCheck, PrintsAccepted};
ghost use Rattle.app_commands.specs.Checked.{EndsChecked};
ghost use Rattle.app_commands.specs.ReadTexts.{HasTextAt};
ghost use Rattle.app_commands.specs.Notes.{AreNotes};
ghost use Rattle.app_commands.specs.Outputs.{status_if};
ghost use Rattle.app_commands.specs.CommandOutputs.{IsCheckOutput};

use crate::context::{Flags, Texts};
use crate::notes::{idle_line, plan_notes};
use crate::output::Output;
use crate::plan::{read_file_text, read_standard_text};
use app_failure::{Failure, NoMemory, check_line, read_accepted_plan};
use app_files::{CommandFiles, MOST_TEXT, ReadFiles, is_standard};
use bridge_check::Accepted;
use std::alloc::Global;
use std::rt::Files;

/// Result of an accepted plan's check, from which the output of `check` is made.
#[derive(Drop)]
pub struct CheckedPlan {
    /// The line that counts the protected filters.
    pub line: String,
    /// Text for standard error: the explanation if requested, otherwise the warnings if warnings are errors.
    pub notes: String,
    /// Whether the plan has a warning; false if warnings aren't errors and no explanation is requested.
    pub is_warned: bool,
}

/// Checks the plan at path `plan`, or on standard input for `-`. The status is 1 if warnings are errors and the plan has one.
///
/// Reads the plan once, so it may be a pipe. Keeps its text in `texts`. Fails if the plan can't be read, is refused or doesn't isolate a
/// protected filter. `run_request` of `app_networks` calls it.
pub fn check_plan<H: Input + AllocGlobal + Files>(
    files: &mut CommandFiles<'_, H>,
    plan: &str,
    flags: Flags,
    texts: &mut Texts,
) -> Result<Output, Failure>
    ensures ok { IfOk result (IsCheckOutput flags.is_strict flags.is_explained) }
    ensures fails { IfErr result (EndsChecked Global plan.now) }
{
    match check_input(files, plan, flags, texts) {
        Ok(
            CheckedPlan {
                line,
                notes,
                is_warned,
            },
        ) => Ok(Output {
            stdout: line,
            stderr: notes,
            status: status_if(!(is_warned && flags.is_strict)),
        }),
        Err(fault) => Err(fault),
    }
}

/// Checks the plan at path `plan`, or on standard input for `-`, and returns its line and notes. Stores its text in `texts`.
///
/// Fails if the plan can't be read, is refused or doesn't isolate a protected filter. `check_plan` calls it.
fn check_input<H: Input + AllocGlobal + Files>(
    files: &mut CommandFiles<'_, H>,
    plan: &str,
    flags: Flags,
    texts: &mut Texts,
) -> Result<CheckedPlan, Failure>
    ensures ok { IfOk result (λ checked. (text : List ℕ) × PrintsAccepted Global text (string_bytes checked.line)) }
    ensures notes { IfOk result (λ checked. AreNotes flags.is_strict flags.is_explained (string_bytes checked.notes)
        checked.is_warned) }
    ensures fails { IfErr result (EndsChecked Global plan.now) }
{
    let alloc = files.alloc();
    if !is_standard(plan) {
        return match check_file(alloc, files, plan, flags, texts) {
            Ok(checked) => Ok(checked),
            Err(fault) => Err(fault),
        };
    }
    let text = match read_standard_text(alloc, files.rt.reader(), MOST_TEXT) {
        Ok(text) => text,
        Err(fault) => return Err(fault),
    };
    let checked = check_text(alloc, plan, &text, flags);
    texts.plan = text;
    match checked {
        Ok(checked) => Ok(checked),
        Err(fault) => Err(fault),
    }
}

/// Checks the plan of the file at `path`, and returns its line and notes. Stores its text in `texts`. Fails if the plan can't be read, is
/// refused or doesn't isolate a protected filter.
///
/// `check_input` calls it.
fn check_file<F: ReadFiles>(
    alloc: Global,
    files: &mut F,
    path: &str,
    flags: Flags,
    texts: &mut Texts,
) -> Result<CheckedPlan, Failure>
    ensures ok { IfOk result (λ checked. HasTextAt (F.octets_at files.old) path.now
        (λ text. PrintsAccepted Global text (string_bytes checked.line))) }
    ensures notes { IfOk result (λ checked. AreNotes flags.is_strict flags.is_explained (string_bytes checked.notes)
        checked.is_warned) }
    ensures err { IfErr result (λ f. HasTextAt (F.octets_at files.old) path.now
        (λ text. EndsCheck Global path.now text f)) }
{
    let text = match read_file_text(files, path) {
        Ok(text) => text,
        Err(fault) => return Err(fault),
    };
    let checked = check_text(alloc, path, &text, flags);
    texts.plan = text;
    match checked {
        Ok(checked) => Ok(checked),
        Err(fault) => Err(fault),
    }
}

/// Checks the plan in `text`, and returns its line and notes. Returns a failure if the plan is refused or memory runs out. `check_input`
/// and `check_file` call it.
fn check_text(alloc: Global, path: &str, text: &[u8], flags: Flags) -> Result<CheckedPlan, Failure>
    ensures ok { IfOk result (λ checked. PrintsAccepted Global text.now (string_bytes checked.line)) }
    ensures notes { IfOk result (λ checked. AreNotes flags.is_strict flags.is_explained (string_bytes checked.notes)
        checked.is_warned) }
    ensures err { IfErr result (EndsCheck Global path.now text.now) }
{
    let accepted = match read_accepted_plan(alloc, alloc, path, text) {
        Ok(accepted) => accepted,
        Err(fault) => return Err(fault),
    };
    let checked = check_of_accepted(alloc, &accepted, text, flags);
    drop(accepted);
    match checked {
        Ok(checked) => Ok(checked),
        Err(NoMemory) => Err(Failure::NoMemory),
    }
}

/// Returns the line and the notes of an accepted plan. `text` is the plan's text, in which positions for warnings are found. `check_text`
/// calls it.
fn check_of_accepted(
    alloc: Global,
    accepted: &Accepted<Global>,
    text: &[u8],
    flags: Flags,
) -> Result<CheckedPlan, NoMemory>
    ensures line { IfOk result (λ checked. string_bytes checked.line ≡ accepted_line accepted.now.filters) }
    ensures notes { IfOk result (λ checked. AreNotes flags.is_strict flags.is_explained (string_bytes checked.notes)
        checked.is_warned) }
{
    let line = check_line(alloc, accepted)?;
    let idle = idle_line(text, accepted, flags);
    let (notes, is_warned) = plan_notes(alloc, accepted, idle, flags)?;
    Ok(CheckedPlan {
        line,
        notes,
        is_warned,
    })
}

/// Returns the exit status of a command that has done its work. It is 0 if `is_well` is true, and 1 if a warning or a loss is an error.
///
/// `check_plan`, and `bounds_output` and `output_of_check` of `app_networks` call it.
pub fn status_if(is_well: bool) -> u8
    ensures { result ≡ status_if is_well }
{
    if is_well { 0 } else { 1 }
}
