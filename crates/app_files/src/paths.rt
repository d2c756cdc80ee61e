//! Paths of the files of a run: captures, report and folders.
ghost use Rattle.std.specs.Prelude.{◌≡◌, IfOk, string_bytes, IfErr, OnOk, option_map};
ghost use Rattle.app_files.specs.Paths.{capture_path, folder_of, report_path};
ghost use Rattle.app_files.specs.Folders.{HavePaths, LackPath};

use crate::cause::Cause;
use crate::failed_file::{FileFault, input_fault, output_fault};
use bridge_limits::NoMemory;
use std::alloc::{Allocator, Global};

/// Returns the path of a port's capture: the folder, `/`, the port number in decimal, `.pcap`. `CommandFiles::note_captures`,
/// `explain_stopped_run` of `app_commands` and 6 more call it.
pub fn capture_path<A: Allocator + Copy>(
    alloc: A,
    folder: &str,
    port: u8,
) -> Result<String<A>, NoMemory>
    ensures { IfOk result (λ path. string_bytes path ≡ capture_path folder.now port) }
{
    Ok(format!(in alloc; "{folder}/{port}.pcap")?)
}

/// Returns the path of the report in a folder: `/report.txt` after the folder. `check_report_is_unused` of `app_commands`, `open_bridge` of
/// `app_networks` and 3 more call it.
pub fn report_path<A: Allocator + Copy>(alloc: A, folder: &str) -> Result<String<A>, NoMemory>
    ensures { IfOk result (λ path. string_bytes path ≡ report_path folder.now) }
{
    Ok(format!(in alloc; "{folder}/report.txt")?)
}

/// Refuses an empty path of the input folder or the output folder. The file fault names the empty path.
///
/// Each command with an input and an output folder calls this first. Otherwise the files of a folder with an empty path would lie at the
/// root of the file system: `/1.pcap`.
pub fn test_folders(alloc: Global, input: &str, output: &str) -> Result<(), FileFault>
    ensures named { OnOk result (HavePaths input.now output.now) }
    ensures unnamed { IfErr result (LackPath input.now output.now) }
{
    if input.is_empty() {
        return Err(input_fault(alloc, "", Cause::NotFound));
    }
    if output.is_empty() {
        return Err(output_fault(alloc, "", Cause::NotFound));
    }
    Ok(())
}

/// Returns the folder of a file: the path before its last `/`. Returns `None` for a path without `/`. `has_folder` and `sibling_path` of
/// `net_check` call it.
pub fn parent_folder(path: &str) -> Option<&str>
    ensures { option_map (λ folder. folder.now) result ≡ folder_of path.now }
{
    match path.rsplit_once('/') {
        Some((folder, _)) => Some(folder),
        None => None,
    }
}
