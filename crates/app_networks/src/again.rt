//! Tests whether files can be read a second time, for explanations.

use app_files::CommandFiles;
use net_check::{network_paths, read_network};
use std::fs;
use std::rt::Files;

/// Returns whether a file can be read a second time. A pipe or device can't: its contents are gone, and opening a pipe may wait forever. A
/// missing file can.
///
/// `can_read_all_again`, `can_read_network_again` and `can_read_traffic_again` call it.
fn can_read_again(rt: &impl Files, path: &str) -> bool {
    match fs::metadata(rt, path) {
        Ok(data) => data.is_file() || data.is_dir(),
        Err(_) => true,
    }
}

/// Returns whether all files at `paths` can be read a second time. Even one pipe among them could make an explanation wait forever.
/// `can_read_network_again` calls it.
fn can_read_all_again(rt: &impl Files, paths: &[String]) -> bool {
    for path in paths {
        if !can_read_again(rt, path.as_str()) {
            return false;
        }
    }
    true
}

/// Returns whether the network file at `path` and the plans that it names can be read a second time. Returns true if the network file can't
/// be read now, and false if memory runs out.
///
/// `explain_network_fault`, `explain_network_file` and `stream_explanations` call it.
pub fn can_read_network_again<H: AllocGlobal + Files>(rt: &H, path: &str) -> bool {
    if !can_read_again(rt, path) {
        return false;
    }
    let mut files = CommandFiles::new(rt);
    match read_network(rt.alloc(), &mut files, path) {
        Ok(file) => match network_paths(rt.alloc(), path, file.bridges()) {
            Ok(paths) => can_read_all_again(rt, &paths),
            Err(_) => false,
        },
        Err(_) => true,
    }
}

/// Returns whether a plan and its traffic can be read a second time, for an explanation. `traffic_reasons` and `explain_traffic_fault` call
/// it.
pub fn can_read_traffic_again(rt: &impl Files, plan: &str, traffic: &str) -> bool {
    can_read_again(rt, plan) && can_read_again(rt, traffic)
}
