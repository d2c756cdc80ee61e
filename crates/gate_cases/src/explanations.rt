//! Prints explanations of faults of each kind, and descriptions of accepted plans.
use crate::command_lines::{put_command_lines, put_short_lines};
use crate::explained_faults::{put_causes, put_faults};
use crate::explanation_cases::put_cases;
use crate::fault_lines::put_lines_of_faults;
use crate::judge::print_text;
use crate::reading::read_text;
use crate::text_pieces::add;
use app_cli::help_text;
use app_failure::Failure;
use bridge_text::TextBuilder;
use std::alloc::Global;
use std::rt::Files;

/// Prints the help, command lines, cases of files, faults without a text, and fault lines. `words` has the paths of command lines, plan and
/// cases.
pub fn print_all(rt: &(impl AllocGlobal + Print + Files), words: &[String]) -> Result<(), Failure> {
    let [lines, plan, files @ ..] = words else {
        return Err(Failure::Words);
    };
    let mut said = TextBuilder::new(rt.alloc());
    add(&mut said, help_text(rt.alloc()));
    put_explanations(rt, &mut said, lines.as_str(), plan.as_str(), files)?;
    put_faults(rt.alloc(), &mut said);
    put_causes(rt.alloc(), &mut said);
    put_lines_of_faults(rt, &mut said);
    put_short_lines(rt.alloc(), &mut said);
    print_text(rt, said)
}

/// Adds the requests of a file of command lines, and the results of the cases of files.
fn put_explanations(
    rt: &(impl AllocGlobal + Files),
    said: &mut TextBuilder<Global>,
    lines: &str,
    plan: &str,
    files: &[String],
) -> Result<(), Failure> {
    let lines = read_text(rt, lines)?;
    put_command_lines(rt.alloc(), said, lines.as_str());
    let plan = read_text(rt, plan)?;
    for file in files {
        let text = read_text(rt, file.as_str())?;
        put_cases(rt.alloc(), said, plan.as_str(), text.as_str());
    }
    Ok(())
}
