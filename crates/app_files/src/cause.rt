//! Finds why a file can't be opened, created, read or written, from the error of the failed call.
//!
//! Asks the file system for at most two more facts: whether a missing file's folder exists, and which files lie next to a missing capture.

use crate::paths::parent_folder;
use std::fs;
use std::io::{Error, ErrorKind};
use std::rt::Files;

/// Why a file can't be opened, created, read or written.
#[derive(Clone, Copy, Debug)]
pub enum Cause {
    /// The file doesn't exist.
    NotFound,
    /// The capture that a port of a plan needs doesn't exist.
    NoCapture,
    /// The file doesn't exist, but a pcapng file with its name and the ending `ng` does.
    Pcapng,
    /// The file doesn't exist, but a file with its name and the ending `.gz` does.
    Gzip,
    /// The file's folder doesn't exist.
    NoFolder,
    /// The path leads to a folder.
    Folder,
    /// A part of the path that should be a folder is a file.
    NoFolderButFile,
    /// The user may not read the file.
    NotReadable,
    /// The user may not create or write the file.
    NotWritable,
    /// The output folder is the folder of the input captures.
    SameFolder,
    /// The command reads this file, or writes it as another output.
    InUse,
    /// Standard input or output failed.
    Standard,
    /// The cause is unknown.
    Unknown,
}

/// Returns whether the folder of a path exists. If it doesn't, the missing folder is the cause. Returns true for a path without folder.
/// `read_cause` and `write_cause` call it.
fn has_folder(rt: &impl Files, path: &str) -> bool {
    match parent_folder(path) {
        None | Some("") => true,
        Some(folder) => match fs::metadata(rt, folder) {
            Ok(data) => data.is_dir(),
            Err(_) => false,
        },
    }
}

/// Returns the cause that an error's kind shows by itself, for reading and for writing; `Unknown` for other kinds. `read_cause` and
/// `write_cause` call it for the kinds that they don't handle themselves.
fn kind_cause(kind: ErrorKind) -> Cause {
    match kind {
        ErrorKind::IsADirectory => Cause::Folder,
        ErrorKind::NotADirectory => Cause::NoFolderButFile,
        _ => Cause::Unknown,
    }
}

/// Returns why the file at `path` can't be opened or read, after the error `error`. For a missing file, examines whether its folder exists.
/// `Unknown` for other errors.
///
/// `capture_cause`, `unreadable_cause` of `app_networks` and 2 more call it.
pub fn read_cause(rt: &impl Files, path: &str, error: &Error) -> Cause {
    match error.kind() {
        ErrorKind::NotFound => {
            if has_folder(rt, path) {
                Cause::NotFound
            } else {
                Cause::NoFolder
            }
        }
        ErrorKind::PermissionDenied => Cause::NotReadable,
        kind => kind_cause(kind),
    }
}

/// Returns why the file at `path` can't be opened or created for writing, after the error `error`. For a missing file, examines whether its
/// folder exists. `Unknown` for other errors.
///
/// `create_output` and `make_folder` call it.
pub fn write_cause(rt: &impl Files, path: &str, error: &Error) -> Cause {
    match error.kind() {
        ErrorKind::NotFound => {
            if has_folder(rt, path) {
                Cause::NotWritable
            } else {
                Cause::NoFolder
            }
        }
        ErrorKind::PermissionDenied
        | ErrorKind::ReadOnlyFilesystem
        | ErrorKind::StorageFull
        | ErrorKind::QuotaExceeded => Cause::NotWritable,
        kind => kind_cause(kind),
    }
}

/// Returns why a capture can't be opened. If it doesn't exist, a pcapng or gzip file next to it may explain why; otherwise the cause is
/// `missing`. `open_capture` calls it.
pub fn capture_cause(
    rt: &(impl AllocGlobal + Files),
    path: &str,
    error: &Error,
    missing: Cause,
) -> Cause {
    match read_cause(rt, path, error) {
        Cause::NotFound => {
            if has_file_with_suffix(rt, path, "ng") {
                Cause::Pcapng
            } else if has_file_with_suffix(rt, path, ".gz") {
                Cause::Gzip
            } else {
                missing
            }
        }
        cause => cause,
    }
}

/// Returns whether a file exists whose path is `path` followed by `ending`. Returns false if memory runs out. `capture_cause` calls it.
fn has_file_with_suffix(rt: &(impl AllocGlobal + Files), path: &str, ending: &str) -> bool {
    match format!(in rt.alloc(); "{path}{ending}") {
        Ok(other) => is_file(rt, other.as_str()),
        Err(_) => false,
    }
}

/// Returns whether `path` leads to a regular file; false for pipes, folders, and paths whose metadata can't be read.
///
/// Callers ask before they read a file that will be read again (`is_network`), or name a file in a warning or a cause.
pub fn is_file(rt: &impl Files, path: &str) -> bool {
    match fs::metadata(rt, path) {
        Ok(data) => data.is_file(),
        Err(_) => false,
    }
}
