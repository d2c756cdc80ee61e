//! Writes files whole, and standard output.
ghost use Rattle.std.specs.Prelude.{◌≡◌, ℕ, IfErr, IfOk, List, codes};
ghost use Rattle.std.specs.Io.KnownBytes.{Appends, Keeps};
ghost use Rattle.app_files.specs.FailedFiles.{HasCause, IsOfPath};
ghost use Rattle.app_files.specs.declared.failed_file.Access.TheVariants.{Writing};

use crate::cause::Cause;
use crate::failed_file::{FileFault, output_fault};
use crate::output::Output;
use std::alloc::Global;
use std::fs::OpenFile;
use std::io;
use std::io::Write;

/// Writes `octets` as the whole contents of an output file, and returns the file. Callers get the file only after a successful write. A
/// file fault names `path`.
pub fn write_file<F: Write + OpenFile + Drop>(
    alloc: Global,
    path: &str,
    output: Output<F>,
    octets: &[u8],
) -> Result<Output<F>, FileFault>
    ensures written { IfOk result (λ done. Appends (⟦<Output<F> as Write>⟧.contents output)
        (⟦<Output<F> as Write>⟧.contents done) octets.now) }
    ensures fails { IfErr result (IsOfPath Writing path.now) }
{
    match write_all(output, octets) {
        Ok(output) => Ok(output),
        Err(_) => Err(output_fault(alloc, path, Cause::NotWritable)),
    }
}

/// Writes `octets` to an output file, flushes and completes it, and returns the file. `write_file` calls it.
fn write_all<F: Write + OpenFile + Drop>(output: Output<F>, octets: &[u8]) -> io::Result<Output<F>>
    ensures { IfOk result (λ done. Appends (⟦<Output<F> as Write>⟧.contents output)
        (⟦<Output<F> as Write>⟧.contents done) octets.now) }
{
    let mut output = output;
    output.write_all(octets)?;
    output.flush()?;
    output.finish()
}

/// Completes the output file at `path`, and returns it. If nothing was written, the file is empty afterwards. Fails with the path and cause
/// if the file can't be written. `write_content` calls it.
fn finish_file<F: Write + OpenFile + Drop>(
    alloc: Global,
    path: &str,
    output: Output<F>,
) -> Result<Output<F>, FileFault>
    ensures kept { IfOk result (λ done. ⟦<Output<F> as Write>⟧.contents done
        ≡ ⟦<Output<F> as Write>⟧.contents output) }
    ensures fails { IfErr result (IsOfPath Writing path.now) }
{
    match output.finish() {
        Ok(output) => Ok(output),
        Err(_) => Err(output_fault(alloc, path, Cause::NotWritable)),
    }
}

/// Flushes and completes the output file at `path`, and returns it. If nothing was written, the file is empty afterwards. Fails with the
/// path and cause if the file can't be written.
///
/// `end_table` of `app_networks` calls it.
pub fn flush_file<F: Write + OpenFile + Drop>(
    alloc: Global,
    path: &str,
    output: Output<F>,
) -> Result<Output<F>, FileFault>
    ensures kept { IfOk result (λ done. Keeps (⟦<Output<F> as Write>⟧.contents output)
        (⟦<Output<F> as Write>⟧.contents done)) }
    ensures fails { IfErr result (IsOfPath Writing path.now) }
{
    match finish_flushed(output) {
        Ok(output) => Ok(output),
        Err(_) => Err(output_fault(alloc, path, Cause::NotWritable)),
    }
}

/// Flushes and completes an output file, and returns it. `flush_file` calls it.
fn finish_flushed<F: Write + OpenFile + Drop>(output: Output<F>) -> io::Result<Output<F>>
    ensures { IfOk result (λ done. Keeps (⟦<Output<F> as Write>⟧.contents output)
        (⟦<Output<F> as Write>⟧.contents done)) }
{
    let mut output = output;
    output.flush()?;
    output.finish()
}

/// Drops an output file after a failed write, and returns a file fault that names `path`.
///
/// Two tables are written together, and only their writer knows which one failed. `give_up_table` of `app_networks` calls it.
pub fn give_up_file<F: Write + OpenFile + Drop>(
    alloc: Global,
    path: &str,
    output: Output<F>,
) -> FileFault
    ensures path { IsOfPath Writing path.now result }
    ensures cause { HasCause Cause.NotWritable result }
{
    drop(output);
    output_fault(alloc, path, Cause::NotWritable)
}

/// Why contents can't be written.
#[derive(Clone, Copy)]
pub enum WriteFault {
    /// The writer failed.
    Broken,
    /// Memory ran out.
    NoMemory,
}

/// Contents of an output file that a crate writes piece by piece.
pub trait Content {
    /// Octets of the contents.
    ghost octets: { Self → List ℕ };

    /// Appends the octets to `writer`, and returns it flushed. Fails with `Broken` if the writer fails, or with `NoMemory`.
    fn write_to<W: Write + Drop>(&self, alloc: Global, writer: W) -> Result<W, WriteFault>
        ensures { IfOk result (λ done. Appends (W.contents writer) (W.contents done) (octets self.now)) };
}

/// Writes `content` as the whole contents of an output file, and returns the file. A file fault names `path`.
pub fn write_content<F: Write + OpenFile + Drop, C: Content>(
    alloc: Global,
    path: &str,
    output: Output<F>,
    content: &C,
) -> Result<Output<F>, FileFault>
    ensures written { IfOk result (λ done. Appends (⟦<Output<F> as Write>⟧.contents output)
        (⟦<Output<F> as Write>⟧.contents done) (C.octets content.now)) }
    ensures fails { IfErr result (IsOfPath Writing path.now) }
{
    match content.write_to(alloc, output) {
        Ok(output) => match finish_file(alloc, path, output) {
            Ok(output) => Ok(output),
            Err(fault) => Err(fault),
        },
        Err(WriteFault::Broken) => Err(output_fault(alloc, path, Cause::NotWritable)),
        Err(WriteFault::NoMemory) => Err(FileFault::NoMemory),
    }
}

/// Writes `text` to the writer of standard output, and returns the flushed writer. A file fault names the path `-`. `write_stdout_text` of
/// `app_commands` calls it.
pub fn write_standard<W: Write + Drop>(alloc: Global, writer: W, text: &str) -> Result<W, FileFault>
    ensures written { IfOk result (λ done. Appends (W.contents writer) (W.contents done) text.now) }
    ensures fails { IfErr result (IsOfPath Writing (codes "-")) }
{
    match write_text(writer, text) {
        Ok(writer) => Ok(writer),
        Err(_) => Err(standard_output_fault(alloc)),
    }
}

/// Writes a text to a writer, and returns the flushed writer. `write_standard` calls it.
fn write_text<W: Write + Drop>(writer: W, text: &str) -> io::Result<W>
    ensures { IfOk result (λ done. Appends (W.contents writer) (W.contents done) text.now) }
{
    let mut writer = writer;
    writer.write_all(text.as_bytes())?;
    writer.flush()?;
    Ok(writer)
}

/// Prints `text` to standard output. A file fault names the path `-`.
pub fn print_text(rt: &(impl AllocGlobal + Print), text: &str) -> Result<(), FileFault>
    ensures { IfErr result (IsOfPath Writing (codes "-")) }
{
    match rt.print(text) {
        Ok(()) => Ok(()),
        Err(_) => Err(standard_output_fault(rt.alloc())),
    }
}

/// Returns the file fault of standard output, the file `-`, after a failed write.
///
/// A run through one queue writes to standard output as its only port, so the run's own fault has no path. `write_standard` and
/// `print_text`, and `output_fault` of `app_commands` call it.
pub fn standard_output_fault(alloc: Global) -> FileFault
    ensures path { IsOfPath Writing (codes "-") result }
    ensures cause { HasCause Cause.Standard result }
{
    output_fault(alloc, "-", Cause::Standard)
}
