//! File faults: the path of a file, whether it was read or written, and the cause.
//!
//! Only this crate makes file faults, in the function whose call failed.
ghost use Rattle.std.specs.Prelude.{◌≡◌, string_bytes};
ghost use Rattle.app_files.specs.FailedFiles.{HasCause, IsOfPath};
ghost use Rattle.app_files.specs.declared.failed_file.FileFault.TheVariants.{NoMemory as no_memory};
ghost use Rattle.app_files.specs.declared.failed_file.Access.TheVariants.{Reading, Writing};

use crate::cause::Cause;
use bridge_limits::NoMemory;
use std::alloc::{AllocError, Global};

/// How a command used a file that failed.
#[derive(Clone, Copy, Debug)]
pub enum Access {
    /// The command opened or read an input.
    Reading,
    /// The command opened, created or wrote an output, or refused it.
    Writing,
}

/// File that failed, with the cause. Standard input and output have the path `-`. Other crates can read the parts, but can't make the
/// value.
#[derive(Debug, Drop)]
pub struct FileError {
    path: String,
    access: Access,
    cause: Cause,
}

impl FileError {
    /// Returns the path of the file, as given.
    pub fn path(&self) -> &str
        ensures { result.now ≡ string_bytes self.now.path }
    {
        self.path.as_str()
    }

    /// Returns whether the command read or wrote the file.
    pub fn access(&self) -> Access
        ensures { result ≡ self.now.access }
    {
        self.access
    }

    /// Returns why the file failed. `explain_file_fault` of `app_commands` and `explain_unread` of `app_networks` call it.
    pub fn cause(&self) -> Cause
        ensures { result ≡ self.now.cause }
    {
        self.cause
    }
}

/// Why the files of a command failed.
#[derive(Drop)]
pub enum FileFault {
    /// A file failed.
    File(FileError),
    /// Memory ran out.
    NoMemory,
}

impl From<NoMemory> for FileFault {
    ghost from_gives = { λ _ fault. fault ≡ no_memory };

    fn from(_: NoMemory) -> FileFault {
        FileFault::NoMemory
    }
}

impl From<AllocError> for FileFault {
    ghost from_gives = { λ _ fault. fault ≡ no_memory };

    fn from(_: AllocError) -> FileFault {
        FileFault::NoMemory
    }
}

/// Returns the file fault of the file at `path`. If memory for the path runs out, returns `NoMemory` instead. `input_fault` and
/// `output_fault` call it.
pub(crate) fn file_fault(alloc: Global, access: Access, path: &str, cause: Cause) -> FileFault
    ensures path { IsOfPath access path.now result }
    ensures cause { HasCause cause result }
{
    match String::from_str(alloc, path) {
        Ok(path) => FileFault::File(FileError {
            path,
            access,
            cause,
        }),
        Err(_) => FileFault::NoMemory,
    }
}

/// Returns the file fault of the input at `path`.
pub(crate) fn input_fault(alloc: Global, path: &str, cause: Cause) -> FileFault
    ensures path { IsOfPath Reading path.now result }
    ensures cause { HasCause cause result }
{
    file_fault(alloc, Access::Reading, path, cause)
}

/// Returns the file fault of the output at `path`.
pub(crate) fn output_fault(alloc: Global, path: &str, cause: Cause) -> FileFault
    ensures path { IsOfPath Writing path.now result }
    ensures cause { HasCause cause result }
{
    file_fault(alloc, Access::Writing, path, cause)
}
