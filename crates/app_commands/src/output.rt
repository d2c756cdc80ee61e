//! The output of the program: two texts and an exit status.
ghost use Rattle.std.specs.Prelude.{[], ◌≡◌, IfOk, string_bytes};
ghost use Rattle.app_failure.specs.Lines.{fault_line};
ghost use Rattle.app_commands.specs.Outputs.{HasLine, ReportsFault};

use app_failure::{Failure, NoMemory, fault_line};
use std::alloc::Global;

/// Texts that the program prints, and its exit status.
#[derive(Drop)]
pub struct Output {
    /// Text for standard output.
    pub stdout: String,
    /// Text for standard error, printed after the text for standard output.
    pub stderr: String,
    /// Exit status of the program.
    pub status: u8,
}

/// Returns the output of a failure: the fault line and the explanation for standard error, and the exit status.
///
/// If memory for the explanation runs out, the output has none. `report_words` and `report_failure` of `app_networks` call it.
pub fn report_fault(
    alloc: Global,
    fault: &Failure,
    explanation: Option<String>,
) -> Result<Output, NoMemory>
    ensures { IfOk result (ReportsFault fault.now explanation) }
{
    let (line, status) = fault_line(alloc, fault)?;
    let stderr = with_explanation(line, explanation)?;
    let stdout = String::new(alloc);
    Ok(Output {
        stdout,
        stderr,
        status,
    })
}

/// Returns a line with its line feed, followed by the explanation if there is one. If memory for the explanation runs out, it is left out.
/// `report_fault` calls it.
fn with_explanation(line: String, explanation: Option<String>) -> Result<String, NoMemory>
    ensures { IfOk result (λ text. HasLine (string_bytes line) explanation (string_bytes text)) }
{
    let mut text = line;
    let Ok(()) = text.push('\n') else {
        return Err(NoMemory);
    };
    if let Some(explanation) = explanation {
        let _ = text.push_str(explanation.as_str());
    }
    Ok(text)
}

/// Returns an output with this text for standard output and nothing for standard error. `send_text`, `draw_network` of `app_networks` and 2
/// more call it.
pub fn print_text(alloc: Global, text: String, status: u8) -> Output
    ensures text { result.stdout ≡ text }
    ensures none { string_bytes result.stderr ≡ [] }
    ensures status { result.status ≡ status }
{
    Output {
        stdout: text,
        stderr: String::new(alloc),
        status,
    }
}
