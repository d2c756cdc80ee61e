//! Reads the text of a plan from a file, and standard input.
ghost use Rattle.std.specs.Prelude.{◌≡◌, ℕ, IfErr, IfOk, List, Some, take};
ghost use Rattle.app_commands.specs.ReadTexts.{IsTextAt};
ghost use Rattle.app_failure.specs.Reading.{IsFileFault, IsStandardStreamFault};
ghost use Rattle.app_files.specs.declared.failed_file.Access.TheVariants.{Reading};

use app_failure::{Failure, file_failure};
use app_files::{MOST_TEXT, ReadFiles, is_file, read_standard, read_text};
use bridge_text::is_network_text;
use std::alloc::Global;
use std::fs;
use std::io::Read;
use std::rt::Files;

/// Reads at most 1,048,577 octets of the file at `path`. Fails if the file can't be read.
pub fn read_file_text<F: ReadFiles>(files: &mut F, path: &str) -> Result<Vec<u8>, Failure>
    ensures text { IfOk result (λ text. IsTextAt (F.octets_at files.old) path.now text.items) }
    ensures fails { IfErr result (IsFileFault Reading path.now) }
    ensures same { (p : List ℕ) → F.octets_at files.new p ≡ F.octets_at files.old p }
{
    match files.read(path, MOST_TEXT) {
        Ok(text) => Ok(text),
        Err(fault) => Err(file_failure(fault)),
    }
}

/// Reads at most `most` octets of standard input. Fails if standard input can't be read. `check_input` and `text_job` call it.
pub(crate) fn read_standard_text<R: Read + Drop>(
    alloc: Global,
    reader: R,
    most: u64,
) -> Result<Vec<u8>, Failure>
    ensures octets { (octets : List ℕ) → R.remaining reader ≡ Some octets
        → IfOk result (λ text. text.items ≡ take most octets) }
    ensures fails { IfErr result (IsStandardStreamFault Reading) }
{
    match read_standard(alloc, reader, most) {
        Ok(text) => Ok(text),
        Err(fault) => Err(file_failure(fault)),
    }
}

/// Returns whether the file at `path` is a network: a line begins with `[[bridge]]`. The command `picture` draws plans and networks.
/// Returns false for a pipe, which can't be read twice.
///
/// `explain_picture_fault` and `draw` of `app_networks` call it.
pub fn is_network<H: AllocGlobal + Files>(rt: &H, path: &str) -> bool {
    if !is_file(rt, path) {
        return false;
    }
    let Ok(reader) = fs::open(rt, path) else {
        return false;
    };
    let Ok(text) = read_text(rt.alloc(), reader) else {
        return false;
    };
    is_network_text(text.as_slice())
}
