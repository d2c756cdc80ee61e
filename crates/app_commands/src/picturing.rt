//! Draws pictures of plans and runs, and writes them to files.
ghost use Rattle.std.specs.Prelude.{ℕ, IfErr, IfOk, List, codes, string_bytes};
ghost use Rattle.std.specs.declared.alloc.Global.{Global};
ghost use Rattle.app_commands.specs.ReadTexts.{EndsPictureAt, HasPlanAt};
ghost use Rattle.app_commands.specs.ShownFiles.{IsOfPicture, IsWritten};

use crate::context::Texts;
use crate::plan::read_file_text;
use app_cli::{PictureRequest, parse_number_list};
use app_failure::{Failure, file_failure, read_plan};
use app_files::{CommandFiles, Output, ReadFiles, write_file};
use bridge_check::{Accepted, CheckFault, Refused, check};
use bridge_semantics::Outcome;
use show_picture::{NoMemory, Selection, draw_plan, draw_run};
use std::alloc::Global;
use std::io::Write;
use std::rt::Files;

/// Returns the picture of a plan, or of a requested part, whether or not the plan isolates its protected filters. Adds the plan to the
/// files in use.
///
/// Fails if the plan can't be read or is refused.
pub(crate) fn plan_picture<F: ReadFiles>(
    alloc: Global,
    files: &mut F,
    plan: &str,
    part: Option<&PictureRequest>,
    texts: &mut Texts,
) -> Result<String, Failure>
    ensures ok { IfOk result (λ _. HasPlanAt Global (F.octets_at files.old) plan.now) }
    ensures err { (file : List ℕ) → IfErr result (EndsPictureAt Global (F.octets_at files.old) plan.now file) }
{
    let text = match read_file_text(files, plan) {
        Ok(text) => text,
        Err(fault) => return Err(fault),
    };
    texts.plan = text;
    let read = match read_plan(alloc, alloc, plan, texts.plan.as_slice()) {
        Ok(read) => read,
        Err(fault) => return Err(fault),
    };
    let checked = check(alloc, read);
    let drawn = draw_checked(alloc, &checked, part);
    drop(checked);
    match drawn {
        Some(text) => Ok(text),
        None => Err(Failure::NoMemory),
    }
}

/// Returns the picture of a checked plan, or of a requested part. Draws refused plans too. Returns `None` if memory runs out, also in the
/// check. `plan_picture` calls it.
fn draw_checked(
    alloc: Global,
    checked: &Result<Accepted<Global>, Refused<Global>>,
    part: Option<&PictureRequest>,
) -> Option<String> {
    if let Err(refused) = checked {
        if matches!(refused.fault, CheckFault::NoMemory) {
            return None;
        }
    }
    let drawn = match part {
        Some(part) => draw_selected_plan(alloc, checked, part),
        None => draw_plan(alloc, checked, &WHOLE),
    };
    match drawn {
        Ok(text) => Some(text),
        Err(_) => None,
    }
}

/// Selection of a whole plan: no requested time, ports or filters.
const WHOLE: Selection<'static> = Selection {
    from: None,
    to: None,
    ports: &[],
    filters: &[],
};

/// Returns the picture of a requested part of a plan: a time, and ports. `draw_checked` calls it.
fn draw_selected_plan(
    alloc: Global,
    checked: &Result<Accepted<Global>, Refused<Global>>,
    request: &PictureRequest,
) -> Result<String, NoMemory> {
    let ports = parse_numbers(alloc, &request.ports)?;
    let part = Selection {
        from: request.from,
        to: request.to,
        ports: &ports,
        filters: &[],
    };
    draw_plan(alloc, checked, &part)
}

/// Returns the picture of a requested part of a run: a time, ports and filters. `put_run_picture` calls it.
fn draw_selected_run(
    alloc: Global,
    accepted: &Accepted<Global>,
    outcome: &Outcome<Global>,
    request: &PictureRequest,
) -> Result<String, NoMemory> {
    let ports = parse_numbers(alloc, &request.ports)?;
    let filters = parse_numbers(alloc, &request.filters)?;
    let part = Selection {
        from: request.from,
        to: request.to,
        ports: &ports,
        filters: &filters,
    };
    draw_run(alloc, accepted, outcome, &part)
}

/// Returns the numbers of an optional list of ports or filters. An absent list gives the empty list, which stands for all.
/// `draw_selected_plan` and `draw_selected_run` call it.
fn parse_numbers(alloc: Global, list: &Option<String>) -> Result<Vec<u32>, NoMemory> {
    match list {
        Some(list) => parse_number_list(alloc, list.as_str()),
        None => Ok(Vec::new(alloc)),
    }
}

/// Returns a picture's text unchanged, to be printed. Fails for the file `-` if standard output goes to a file in use. `draw_plan` and
/// `draw_network` of `app_networks` call it.
pub fn picture_apart<H: AllocGlobal + Files>(
    files: &CommandFiles<'_, H>,
    text: String,
) -> Result<String, Failure>
    ensures { IfErr result (IsOfPicture (codes "-")) }
{
    match files.spare_standard_output() {
        Ok(()) => Ok(text),
        Err(fault) => Err(file_failure(fault)),
    }
}

/// Draws a run into the requested file, which must not be in use. A failure names the file's path. `write_run_picture` calls it.
pub(crate) fn put_run_picture<H: AllocGlobal + Files>(
    files: &CommandFiles<'_, H>,
    accepted: &Accepted<Global>,
    outcome: &Outcome<Global>,
    request: &PictureRequest,
) -> Result<(), Failure>
    ensures { IfErr result (IsOfPicture (string_bytes request.now.file)) }
{
    let Ok(text) = draw_selected_run(files.alloc(), accepted, outcome, request) else {
        return Err(Failure::NoMemory);
    };
    match write_picture_file(files, request.file.as_str(), text.as_str()) {
        Ok(_) => Ok(()),
        Err(fault) => Err(fault),
    }
}

/// Writes a picture to the file at `path`, which must not be in use, and returns the file. Fails if the file is in use or can't be written.
///
/// `draw_plan` and `put_run_picture`, and `draw_network` of `app_networks` call it.
pub fn write_picture_file<H: AllocGlobal + Files>(
    files: &CommandFiles<'_, H>,
    path: &str,
    text: &str,
) -> Result<Output<H::File>, Failure>
    ensures written { IfOk result (IsWritten ⟦<Output<H::File> as Write>⟧.contents text.now) }
    ensures fails { IfErr result (IsOfPicture path.now) }
{
    let output = match files.create(path) {
        Ok(output) => output,
        Err(fault) => return Err(file_failure(fault)),
    };
    match write_file(files.alloc(), path, output, text.as_bytes()) {
        Ok(output) => Ok(output),
        Err(fault) => Err(file_failure(fault)),
    }
}
