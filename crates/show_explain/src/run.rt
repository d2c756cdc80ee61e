//! Explains why a run stopped, or why the text of standard input wasn't run, for `--explain`.
ghost use Rattle.std.specs.Prelude.{IfOk, codes, string_bytes};
ghost use Rattle.bridge_text.specs.PathPrefix.{StartsWithName};

use crate::capture::explain_capture;
use app_failure::TextFault;
use bridge_capture::{CaptureFault, RunFault};
use bridge_limits::NoMemory;
use bridge_text::text_with_path;
use std::alloc::Global;

/// Explains why a run stopped at the capture with path `path` and first octets `octets`. The explanation begins with `path`. `app_commands`
/// calls it for `--explain`.
pub fn explain_run(
    alloc: Global,
    path: &str,
    octets: &[u8],
    fault: &RunFault,
) -> Result<String, NoMemory>
    ensures { IfOk result (λ said. StartsWithName path.now (string_bytes said)) }
{
    match fault {
        RunFault::Capture { fault, .. } => explain_capture(alloc, path, octets, fault),
        RunFault::Write { .. } => explain_capture(alloc, path, octets, &CaptureFault::Write),
        RunFault::NoMemory => text_with_path(
            alloc,
            path,
            ": there is not enough memory for the run.\n",
        ),
    }
}

/// Explains why the octets of standard input weren't run. The explanation begins with `-`, which stands for standard input.
/// `explain_words_fault` of `app_commands` calls it.
pub fn explain_text(alloc: Global, fault: &TextFault) -> Result<String, NoMemory>
    ensures { IfOk result (λ said. StartsWithName (codes "-") (string_bytes said)) }
{
    let body = match fault {
        TextFault::NotHex =>
            ": standard input must contain pairs of hexadecimal digits, with blanks only between pairs. The commands check, run and wire read files.\n",
        TextFault::TooLong =>
            ": standard input can have at most 4194304 characters and 1048576 pairs of digits. Use a capture file: tsnbridge wire MBPS ROOM IN OUT\n",
        TextFault::Run(fault) => return explain_run(alloc, "-", &[], fault),
    };
    text_with_path(alloc, "-", body)
}
