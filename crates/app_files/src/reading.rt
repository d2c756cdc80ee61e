//! Reads files and standard input whole.
ghost use Rattle.std.specs.Prelude.{◌≡◌, List, ℕ, Some, IfErr, IfOk, codes, take};
ghost use Rattle.std.specs.IoError.{error_kind};
ghost use Rattle.app_files.specs.FailedFiles.{IsOfPath};
ghost use Rattle.app_files.specs.Reading.{read_fault};
ghost use Rattle.app_files.specs.declared.failed_file.Access.TheVariants.{Reading};

use crate::cause::Cause;
use crate::failed_file::{FileFault, input_fault};
use std::alloc::{Allocator, Global};
use std::io::{Error, ErrorKind, Read};

/// Largest number of octets read from a plan, commands, traffic or a network. It exceeds each size limit by one, so that a longer text is
/// refused and not cut.
pub const MOST_TEXT: u64 = 1_048_577;

/// Why a reader's octets can't be read.
#[derive(Clone, Copy)]
pub enum ReadFault {
    /// The reader failed.
    Broken,
    /// Memory ran out.
    NoMemory,
}

/// Reads at most `most` octets of a reader. Repeats an interrupted read. Fails with `Broken` if the reader fails, or with `NoMemory`.
/// `read_text` and `read_standard`, and `explain_capture` of `app_commands` call it.
pub fn read_at_most<R: Read + Drop, A: Allocator>(
    alloc: A,
    reader: R,
    most: u64,
) -> Result<Vec<u8, A>, ReadFault>
    ensures { (octets : List ℕ) → R.remaining reader ≡ Some octets
        → IfOk result (λ text. text.items ≡ take most octets) }
{
    let mut text = Vec::new(alloc);
    match reader.take(most).read_to_end(&mut text) {
        Ok(_) => Ok(text),
        Err(error) => Err(read_fault(&error)),
    }
}

/// Reads at most `MOST_TEXT` octets of a reader: a plan, commands, traffic or a network. Fails with `Broken` if the reader fails, or with
/// `NoMemory`. `read_named`, `is_network` of `app_commands` and 1 more call it.
pub fn read_text<R: Read + Drop, A: Allocator>(alloc: A, reader: R) -> Result<Vec<u8, A>, ReadFault>
    ensures { (octets : List ℕ) → R.remaining reader ≡ Some octets
        → IfOk result (λ text. text.items ≡ take MOST_TEXT octets) }
{
    read_at_most(alloc, reader, MOST_TEXT)
}

/// Reads at most `MOST_TEXT` octets of a reader. A file fault names `path`, the reader's file. `read_commands` and `read_plan` of
/// `app_failure`, and `read_rows` of `net_latency` call it.
pub fn read_named<R: Read + Drop, A: Allocator>(
    alloc: A,
    heap: Global,
    path: &str,
    reader: R,
) -> Result<Vec<u8, A>, FileFault>
    ensures octets { (octets : List ℕ) → R.remaining reader ≡ Some octets
        → IfOk result (λ text. text.items ≡ take MOST_TEXT octets) }
    ensures fails { IfErr result (IsOfPath Reading path.now) }
{
    match read_text(alloc, reader) {
        Ok(text) => Ok(text),
        Err(ReadFault::Broken) => Err(input_fault(heap, path, Cause::Unknown)),
        Err(ReadFault::NoMemory) => Err(FileFault::NoMemory),
    }
}

/// Reads at most `most` octets of standard input. A file fault names the path `-`. `read_standard_text` of `app_commands` calls it.
pub fn read_standard<R: Read + Drop>(
    alloc: Global,
    reader: R,
    most: u64,
) -> Result<Vec<u8>, FileFault>
    ensures octets { (octets : List ℕ) → R.remaining reader ≡ Some octets
        → IfOk result (λ text. text.items ≡ take most octets) }
    ensures fails { IfErr result (IsOfPath Reading (codes "-")) }
{
    match read_at_most(alloc, reader, most) {
        Ok(text) => Ok(text),
        Err(ReadFault::Broken) => Err(input_fault(alloc, "-", Cause::Standard)),
        Err(ReadFault::NoMemory) => Err(FileFault::NoMemory),
    }
}

/// Returns the fault for a reader's error: `NoMemory` if memory ran out, otherwise `Broken`. `read_at_most` calls it.
fn read_fault(error: &Error) -> ReadFault
    ensures { result ≡ read_fault (error_kind error.now) }
{
    match error.kind() {
        ErrorKind::OutOfMemory => ReadFault::NoMemory,
        _ => ReadFault::Broken,
    }
}
