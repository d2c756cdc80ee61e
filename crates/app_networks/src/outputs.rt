//! The output files of a network run. All are opened before the run, so that a wrong path costs no run.
ghost use Rattle.std.specs.Prelude.{◌≡◌, IfErr, IfOk, string_bytes};
ghost use Rattle.app_failure.specs.Reading.{FailsCaptures, IsFileFault};
ghost use Rattle.app_networks.specs.OutputFiles.{folder_path};
ghost use Rattle.app_networks.specs.RunFiles.{IsBridgeOutputFile, IsOutputFile, NamesFile, table_path};
ghost use Rattle.app_files.specs.declared.failed_file.Access.TheVariants.{Writing};

use crate::refusing::bridge_name;
use app_failure::{Failure, NoMemory, file_failure};
use app_files::{CommandFiles, FileId, Output, make_folder, path_file_id, report_path};
use bridge_check::Accepted;
use net_file::BridgeRow;
use std::alloc::Global;
use std::fs::OpenFile;
use std::io::Write;
use std::rt::Files;

/// Returns the path of a bridge's folder: the folder `name` in the input or output folder `folder`. `read_inputs_of_plans`, `input_folders`
/// and 2 more call it.
pub(crate) fn bridge_folder(alloc: Global, folder: &str, name: &str) -> Result<String, NoMemory>
    ensures { IfOk result (λ path. string_bytes path ≡ folder_path folder.now name.now) }
{
    Ok(format!(in alloc; "{folder}/{name}")?)
}

/// Open output files of a bridge: the captures of its ports by rising number, and its report.
#[derive(Drop)]
pub(crate) struct BridgeOutputs<F: Write + OpenFile + Drop> {
    pub(crate) taps: Vec<Output<F>>,
    pub(crate) report: Output<F>,
}

/// Open output files of a network run: the files of each bridge, and the tables of streams and frames.
#[derive(Drop)]
pub(crate) struct Outputs<F: Write + OpenFile + Drop> {
    pub(crate) bridges: Vec<BridgeOutputs<F>>,
    pub(crate) streams: Output<F>,
    pub(crate) frames: Output<F>,
}

/// Returns the identities of the input folder and of the bridges' folders in it, if they exist. `make_folder` refuses them as output
/// folders. `open_bridges` calls it.
fn input_folders<H: AllocGlobal + Files>(
    rt: &H,
    bridges: &[BridgeRow<Global>],
    input: &str,
) -> Result<Vec<FileId>, NoMemory> {
    let mut folders = Vec::new(rt.alloc());
    if let Some(folder) = path_file_id(rt, input) {
        folders.push(folder)?;
    }
    for row in bridges {
        let path = bridge_folder(rt.alloc(), input, row.name())?;
        if let Some(folder) = path_file_id(rt, path.as_str()) {
            folders.push(folder)?;
        }
    }
    Ok(folders)
}

/// Creates a missing folder and its parents. Refuses one of the input folders `read`. `open_bridges` calls it.
fn make_output_folder<H: AllocGlobal + Files>(
    rt: &H,
    path: &str,
    read: &[FileId],
) -> Result<(), Failure>
    ensures { IfErr result (IsFileFault Writing path.now) }
{
    match make_folder(rt, path, read) {
        Ok(()) => Ok(()),
        Err(fault) => Err(file_failure(fault)),
    }
}

/// Opens the file at `path` for writing. A file in use is refused; the opened file is in use afterwards. `open_table`, `open_bridge` and
/// `open_picture` call it.
pub(crate) fn open_output<H: AllocGlobal + Files>(
    files: &mut CommandFiles<'_, H>,
    path: &str,
) -> Result<Output<H::File>, Failure>
    ensures { IfErr result (IsFileFault Writing path.now) }
{
    match files.create_new(path) {
        Ok(output) => Ok(output),
        Err(fault) => Err(file_failure(fault)),
    }
}

/// Returns the path of the table `name` in a folder. `open_table`, `end_table` and `give_up_table` call it.
pub(crate) fn table_path(alloc: Global, folder: &str, name: &str) -> Result<String, NoMemory>
    ensures { IfOk result (λ path. string_bytes path ≡ table_path folder.now name.now) }
{
    Ok(format!(in alloc; "{folder}/{name}.csv")?)
}

/// Opens the table `name` in a folder for writing. Fails if the table's file can't be opened. `open_outputs` calls it.
fn open_table<H: AllocGlobal + Files>(
    files: &mut CommandFiles<'_, H>,
    folder: &str,
    name: &str,
) -> Result<Output<H::File>, Failure>
    ensures { IfErr result (IsFileFault Writing (table_path folder.now name.now)) }
{
    match table_path(files.alloc(), folder, name) {
        Ok(path) => open_output(files, path.as_str()),
        Err(_) => Err(Failure::NoMemory),
    }
}

/// Opens the captures of `ports` in a bridge's folder for writing, by rising port. Refuses two captures that are one file. `open_bridge`
/// calls it.
fn open_captures<H: AllocGlobal + Files>(
    files: &mut CommandFiles<'_, H>,
    folder: &str,
    ports: &[u8],
) -> Result<Vec<Output<H::File>>, Failure>
    ensures { IfErr result (FailsCaptures Writing folder.now ports.now) }
{
    let outputs = match files.create_captures(folder, ports) {
        Ok(outputs) => outputs,
        Err(fault) => return Err(file_failure(fault)),
    };
    match files.note_captures(folder, ports) {
        Ok(()) => Ok(outputs),
        Err(fault) => {
            drop(outputs);
            Err(file_failure(fault))
        }
    }
}

/// Opens the captures and the report of a bridge for writing. Refuses two outputs that are one file. `open_bridges` calls it.
fn open_bridge<H: AllocGlobal + Files>(
    files: &mut CommandFiles<'_, H>,
    accepted: &Accepted<Global>,
    folder: &str,
) -> Result<BridgeOutputs<H::File>, Failure>
    ensures { IfErr result (NamesFile Writing (IsBridgeOutputFile accepted.now folder.now)) }
{
    let Ok(ports) = accepted.plan().port_numbers(files.alloc()) else {
        return Err(Failure::NoMemory);
    };
    let taps = open_captures(files, folder, &ports)?;
    let Ok(path) = report_path(files.alloc(), folder) else {
        drop(taps);
        return Err(Failure::NoMemory);
    };
    match open_output(files, path.as_str()) {
        Ok(report) => Ok(BridgeOutputs { taps, report }),
        Err(fault) => {
            drop(taps);
            Err(fault)
        }
    }
}

/// Creates the folder of each bridge in `output`, and opens the bridge's outputs there. Fails if a folder can't be made or an output can't
/// be opened. `open_outputs` calls it.
fn open_bridges<H: AllocGlobal + Files>(
    files: &mut CommandFiles<'_, H>,
    plans: &[Accepted<Global>],
    bridges: &[BridgeRow<Global>],
    input: &str,
    output: &str,
) -> Result<Vec<BridgeOutputs<H::File>>, Failure>
    ensures { IfErr result (NamesFile Writing (IsOutputFile plans.now bridges.now output.now)) }
{
    let Ok(read) = input_folders(files.rt, bridges, input) else {
        return Err(Failure::NoMemory);
    };
    make_output_folder(files.rt, output, &read)?;
    let mut all = Vec::new(files.alloc());
    for accepted in plans {
        let name = bridge_name(bridges, all.len());
        let Ok(folder) = bridge_folder(files.alloc(), output, name) else {
            return Err(Failure::NoMemory);
        };
        make_output_folder(files.rt, folder.as_str(), &read)?;
        let outputs = open_bridge(files, accepted, folder.as_str())?;
        if all.push(outputs).is_err() {
            return Err(Failure::NoMemory);
        }
    }
    Ok(all)
}

/// Opens all outputs of a network run, in a folder for each bridge, and creates missing folders. Outputs keep their contents until they are
/// written.
///
/// Returns the first failure by bridge: folder, captures by rising port, report; then the failures of the tables. `open_run` calls it.
pub(crate) fn open_outputs<H: AllocGlobal + Files>(
    files: &mut CommandFiles<'_, H>,
    plans: &[Accepted<Global>],
    bridges: &[BridgeRow<Global>],
    input: &str,
    output: &str,
) -> Result<Outputs<H::File>, Failure>
    ensures { IfErr result (NamesFile Writing (IsOutputFile plans.now bridges.now output.now)) }
{
    let opened = open_bridges(files, plans, bridges, input, output)?;
    let streams = match open_table(files, output, "streams") {
        Ok(streams) => streams,
        Err(fault) => {
            drop(opened);
            return Err(fault);
        }
    };
    match open_table(files, output, "frames") {
        Ok(frames) => Ok(Outputs {
            bridges: opened,
            streams,
            frames,
        }),
        Err(fault) => {
            drop(opened);
            drop(streams);
            Err(fault)
        }
    }
}
