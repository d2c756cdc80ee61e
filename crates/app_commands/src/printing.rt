//! Prints outputs, fault lines and explanations to standard output and standard error.
ghost use Rattle.std.specs.Prelude.{◌≡◌, ◌⊎◌, IfOk, map, string_bytes, IfErr};
ghost use Rattle.app_cli.specs.Helping.{explains};
ghost use Rattle.app_commands.specs.CommandOutputs.{IsPut, IsStandardFailure};
ghost use Rattle.app_commands.specs.Outputs.{Reports, of_words_fault};
ghost use Rattle.std.specs.Process.{exit_status};

use crate::explaining::explain_words_fault;
use crate::output::{Output, report_fault};
use app_cli::{ArgumentsFault, wants_explanation};
use app_failure::{Failure, NoMemory, file_failure};
use app_files::write_standard;
use std::alloc::Global;
use std::io;
use std::io::Write;
use std::process::ExitCode;

/// Prints the text for standard output, and returns `output`. If printing fails, returns an output that reports this failure on standard
/// error. `run` of `tsnbridge` calls it.
pub fn put_stdout(
    rt: &(impl AllocGlobal + Print),
    words: &[String],
    output: Output,
) -> Result<Output, NoMemory>
    ensures { IfOk result (λ o. (o ≡ output) ⊎ IsStandardFailure (explains (map string_bytes words.now)) o) }
{
    match write_stdout_text(rt.alloc(), io::writer(rt), words, output) {
        Ok((output, _)) => Ok(output),
        Err(NoMemory) => Err(NoMemory),
    }
}

/// Writes the text for standard output to a writer. If the writer fails, returns the output of that failure and `None`. `put_stdout` calls
/// it.
fn write_stdout_text<W: Write + Drop>(
    alloc: Global,
    writer: W,
    words: &[String],
    output: Output,
) -> Result<(Output, Option<W>), NoMemory>
    ensures { IfOk result (λ done. IsPut W.contents writer (explains
        (map string_bytes words.now)) output done.0 done.1) }
{
    match write_standard(alloc, writer, output.stdout.as_str()) {
        Ok(writer) => Ok((output, Some(writer))),
        Err(fault) => {
            let report = report_words(alloc, words, &file_failure(fault))?;
            Ok((report, None))
        }
    }
}

/// Returns the output for refused arguments, or for a standard output that failed. The arguments say whether an explanation is requested.
/// `write_stdout_text`, and `perform` and `perform_request` of `app_networks` call it.
pub fn report_words(alloc: Global, words: &[String], fault: &Failure) -> Result<Output, NoMemory>
    ensures { IfOk result (Reports (explains (map string_bytes words.now)) fault.now) }
{
    let explanation = if wants_explanation(words) {
        explain_words_fault(alloc, words, fault)
    } else {
        None
    };
    report_fault(alloc, fault, explanation)
}

/// Prints the text for standard error, and returns the exit status. If memory for the output ran out, prints `no memory` and returns 3.
/// `main` of `tsnbridge` calls it.
pub fn tell(rt: &impl Eprint, output: Result<Output, NoMemory>) -> ExitCode
    ensures status { IfOk output (λ o. exit_status result ≡ o.status) }
    ensures memory { IfErr output (λ _. exit_status result ≡ 3) }
{
    match output {
        Ok(output) => {
            let _ = rt.eprint(output.stderr.as_str());
            ExitCode::from(output.status)
        }
        Err(NoMemory) => {
            let _ = eprintln!(rt; "no memory");
            ExitCode::from(3)
        }
    }
}

/// Returns the command's failure for refused arguments, or for memory that ran out while they were read. `perform` and `perform_request` of
/// `app_networks`, and `main` of `tsnbridge` call it.
pub fn words_failure(fault: ArgumentsFault) -> Failure
    ensures { result ≡ of_words_fault fault }
{
    match fault {
        ArgumentsFault::Words => Failure::Words,
        ArgumentsFault::NoMemory => Failure::NoMemory,
    }
}
