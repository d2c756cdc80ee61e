//! Writes the tables that `run` makes of delays and frames to their files.
ghost use Rattle.std.specs.Prelude.{IfErr, IfOk, Some, option_map, string_bytes};
ghost use Rattle.show_tables.specs.DelayTable.{IsDelayTable};
ghost use Rattle.app_commands.specs.ShownFiles.{IsFrameTable, IsOfTable, IsOfTables, IsTableWritten, IsWritten};

use app_cli::TableRequest;
use app_failure::{Failure, file_failure};
use app_files::{CommandFiles, Output, write_file};
use bridge_check::Accepted;
use bridge_semantics::Outcome;
use show_tables::{delay_table, frame_table};
use std::alloc::Global;
use std::fs::OpenFile;
use std::io::Write;
use std::rt::Files;

/// Files of the tables of a run, completely written. `None` for a table that isn't requested.
#[derive(Drop)]
pub(crate) struct TableFiles<F: Write + OpenFile + Drop> {
    /// File of the table of delays.
    pub delays: Option<Output<F>>,
    /// File of the table of frames.
    pub frames: Option<Output<F>>,
}

/// Writes the requested tables of a run: delays, then frames, and returns their files. Each file must not be in use, and is in use
/// afterwards.
///
/// Fails if a file is in use or can't be written. `write_outputs` calls it.
pub(crate) fn write_tables<H: AllocGlobal + Files>(
    files: &mut CommandFiles<'_, H>,
    accepted: &Accepted<Global>,
    outcome: &Outcome<Global>,
    tables: &TableRequest,
) -> Result<TableFiles<H::File>, Failure>
    ensures delays { IfOk result (λ done. IsTableWritten ⟦<Output<H::File> as Write>⟧.contents
        (IsDelayTable accepted.now outcome.now.filters.items) tables.now.delays done.delays) }
    ensures frames { IfOk result (λ done. IsTableWritten ⟦<Output<H::File> as Write>⟧.contents
        (IsFrameTable outcome.now) tables.now.frames done.frames) }
    ensures fails { IfErr result (IsOfTables (option_map string_bytes tables.now.delays)
        (option_map string_bytes tables.now.frames)) }
{
    let delays = match write_delay_table(files, accepted, outcome, &tables.delays) {
        Ok(delays) => delays,
        Err(fault) => return Err(fault),
    };
    match write_frame_table(files, outcome, &tables.frames) {
        Ok(frames) => Ok(TableFiles { delays, frames }),
        Err(fault) => {
            drop(delays);
            Err(fault)
        }
    }
}

/// Writes the table of delays to the file at `path`, and returns the file. Does nothing if the table isn't requested (`None`). Fails if a
/// file is in use or can't be written.
///
/// `write_tables` calls it.
fn write_delay_table<H: AllocGlobal + Files>(
    files: &mut CommandFiles<'_, H>,
    accepted: &Accepted<Global>,
    outcome: &Outcome<Global>,
    path: &Option<String>,
) -> Result<Option<Output<H::File>>, Failure>
    ensures written { IfOk result (IsTableWritten ⟦<Output<H::File> as Write>⟧.contents
        (IsDelayTable accepted.now outcome.now.filters.items) path.now) }
    ensures fails { IfErr result (IsOfTable (option_map string_bytes path.now)) }
{
    let Some(path) = path else {
        return Ok(None);
    };
    let Ok(text) = delay_table(files.alloc(), accepted, outcome) else {
        return Err(Failure::NoMemory);
    };
    match write_table(files, path.as_str(), text.as_str()) {
        Ok(output) => Ok(Some(output)),
        Err(fault) => Err(fault),
    }
}

/// Writes the table of frames to the file at `path`, and returns the file. Does nothing if the table isn't requested (`None`). Fails if a
/// file is in use or can't be written.
///
/// `write_tables` calls it.
fn write_frame_table<H: AllocGlobal + Files>(
    files: &mut CommandFiles<'_, H>,
    outcome: &Outcome<Global>,
    path: &Option<String>,
) -> Result<Option<Output<H::File>>, Failure>
    ensures written { IfOk result (IsTableWritten ⟦<Output<H::File> as Write>⟧.contents
        (IsFrameTable outcome.now) path.now) }
    ensures fails { IfErr result (IsOfTable (option_map string_bytes path.now)) }
{
    let Some(path) = path else {
        return Ok(None);
    };
    let Ok(text) = frame_table(files.alloc(), outcome) else {
        return Err(Failure::NoMemory);
    };
    match write_table(files, path.as_str(), text.as_str()) {
        Ok(output) => Ok(Some(output)),
        Err(fault) => Err(fault),
    }
}

/// Writes `text` to the file at `path` instead of any earlier contents, and returns the file. Fails if the file is in use; afterwards it is
/// in use. `write_delay_table` and `write_frame_table` call it.
pub(crate) fn write_table<H: AllocGlobal + Files>(
    files: &mut CommandFiles<'_, H>,
    path: &str,
    text: &str,
) -> Result<Output<H::File>, Failure>
    ensures written { IfOk result (IsWritten ⟦<Output<H::File> as Write>⟧.contents text.now) }
    ensures fails { IfErr result (IsOfTable (Some path.now)) }
{
    let output = match files.create_new(path) {
        Ok(output) => output,
        Err(fault) => return Err(file_failure(fault)),
    };
    match write_file(files.alloc(), path, output, text.as_bytes()) {
        Ok(output) => Ok(output),
        Err(fault) => Err(file_failure(fault)),
    }
}
