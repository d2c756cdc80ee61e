//! Refuses tables and pictures that would overwrite a run's own files, before the run.
ghost use Rattle.std.specs.Prelude.{◌⊎◌, IfErr, Some, option_map, string_bytes};
ghost use Rattle.app_commands.specs.ShownFiles.{IsOfShowing, IsOfTable, IsOfTables};

use crate::context::RunRequest;
use app_cli::PictureRequest;
use app_failure::{Failure, NoMemory, file_failure};
use app_files::{CommandFiles, capture_path, report_path};
use bridge_check::Accepted;
use std::alloc::Global;
use std::rt::Files;

/// Adds a folder's existing captures at the plan's ports to the files in use. Missing files and pipes are ignored. `files_of_run` calls it.
fn note_captures<H: AllocGlobal + Files>(
    files: &mut CommandFiles<'_, H>,
    accepted: &Accepted<Global>,
    folder: &str,
) -> Result<(), NoMemory> {
    for port in accepted.plan().ports() {
        let path = capture_path(files.alloc(), folder, port.number)?;
        files.note_regular(path.as_str())?;
    }
    Ok(())
}

/// Returns the files in use together with the run's existing captures and report. The run opens these later, so they aren't in use yet.
/// `check_run_outputs_unused` calls it.
fn files_of_run<'a, H: AllocGlobal + Files>(
    files: &CommandFiles<'a, H>,
    accepted: &Accepted<Global>,
    job: &RunRequest<'_>,
) -> Result<CommandFiles<'a, H>, NoMemory> {
    let mut all = files.copy()?;
    note_captures(&mut all, accepted, job.input)?;
    note_captures(&mut all, accepted, job.output)?;
    let report = report_path(files.alloc(), job.output)?;
    all.note_regular(report.as_str())?;
    Ok(all)
}

/// Refuses an output path that leads to a regular file in use. The failure names the path. `check_table_unused` and `check_picture_unused`
/// call it.
fn check_path_unused<H: AllocGlobal + Files>(
    files: &CommandFiles<'_, H>,
    path: &str,
) -> Result<(), Failure>
    ensures { IfErr result (IsOfTable (Some path.now)) }
{
    match files.spare(path) {
        Ok(()) => Ok(()),
        Err(fault) => Err(file_failure(fault)),
    }
}

/// Refuses a requested table that is a file in use. Accepts a table that isn't requested (`None`). `check_outputs_unused` calls it.
fn check_table_unused<H: AllocGlobal + Files>(
    files: &CommandFiles<'_, H>,
    path: &Option<String>,
) -> Result<(), Failure>
    ensures { IfErr result (IsOfTable (option_map string_bytes path.now)) }
{
    match path {
        Some(path) => check_path_unused(files, path.as_str()),
        None => Ok(()),
    }
}

/// Refuses a requested picture that is a file in use. Accepts a picture that isn't requested (`None`). `check_outputs_unused` calls it.
fn check_picture_unused<H: AllocGlobal + Files>(
    files: &CommandFiles<'_, H>,
    picture: &Option<PictureRequest>,
) -> Result<(), Failure>
    ensures { IfErr result (IsOfShowing (option_map (λ s. string_bytes s.file) picture.now)) }
{
    match picture {
        Some(picture) => check_path_unused(files, picture.file.as_str()),
        None => Ok(()),
    }
}

/// Refuses the first requested table, or otherwise the picture, that is a file in use. `check_run_outputs_unused` calls it.
fn check_outputs_unused<H: AllocGlobal + Files>(
    files: &CommandFiles<'_, H>,
    job: &RunRequest<'_>,
) -> Result<(), Failure>
    ensures { IfErr result (λ f. IsOfShowing (option_map (λ s. string_bytes s.file) job.now.picture.now) f
        ⊎ IsOfTables (option_map string_bytes job.now.tables.now.delays)
        (option_map string_bytes job.now.tables.now.frames) f) }
{
    if let Err(fault) = check_table_unused(files, &job.tables.delays) {
        return Err(fault);
    }
    if let Err(fault) = check_table_unused(files, &job.tables.frames) {
        return Err(fault);
    }
    check_picture_unused(files, job.picture)
}

/// Refuses the first requested table, or otherwise the picture, that is a file in use or an existing file of the run. `run_with_outputs`
/// calls it.
pub(crate) fn check_run_outputs_unused<H: AllocGlobal + Files>(
    files: &CommandFiles<'_, H>,
    accepted: &Accepted<Global>,
    job: &RunRequest<'_>,
) -> Result<(), Failure>
    ensures { IfErr result (λ f. IsOfShowing (option_map (λ s. string_bytes s.file) job.now.picture.now) f
        ⊎ IsOfTables (option_map string_bytes job.now.tables.now.delays)
        (option_map string_bytes job.now.tables.now.frames) f) }
{
    if job.tables.delays.is_none() && job.tables.frames.is_none() && job.picture.is_none() {
        return Ok(());
    }
    let Ok(files) = files_of_run(files, accepted, job) else {
        return Err(Failure::NoMemory);
    };
    check_outputs_unused(&files, job)
}
