//! The help of the program and all its commands as one text. A test prints it, and `tools/commands` makes the page Commands from that.
ghost use Rattle.std.specs.Prelude.{◌≡◌, IfErr, IfOk, map, string_bytes};

use crate::command::all_descriptions;
use crate::helping::requested_help;
use crate::words_fault::ArgumentsFault;
use std::alloc::{AllocError, Global};

/// Returns the help of the program and of each command, each after the line that requests it. Tests and the page Commands are made from it.
/// Fails only if memory runs out.
pub fn help_text(alloc: Global) -> Result<String, ArgumentsFault>
    ensures { IfErr result (λ fault. fault ≡ ArgumentsFault.NoMemory) }
{
    let mut manual = String::new(alloc);
    push_help(alloc, &mut manual, &["--help"])?;
    push_command_help(alloc, &mut manual)?;
    Ok(manual)
}

/// Appends the help of each command to `manual`, each after an empty line. Fails only if memory runs out. `help_text` calls it.
fn push_command_help(alloc: Global, manual: &mut String) -> Result<(), ArgumentsFault>
    ensures { IfErr result (λ fault. fault ≡ ArgumentsFault.NoMemory) }
{
    for command in &all_descriptions() {
        manual.push_str("\n")?;
        push_help(alloc, manual, &[command.name, "--help"])?;
    }
    Ok(())
}

/// Appends the line of a call, such as `$ tsnbridge check --help`, and the help that it requests. Fails only if memory runs out.
fn push_help(alloc: Global, manual: &mut String, line: &[&str]) -> Result<(), ArgumentsFault>
    ensures { IfErr result (λ fault. fault ≡ ArgumentsFault.NoMemory) }
{
    let words = copy_words(alloc, line)?;
    push_line(manual, &words)?;
    if let Some(text) = requested_help(alloc, &words)? {
        manual.push_str(text.as_str())?;
    }
    Ok(())
}

/// Appends the line of a call with these arguments, as a user types it.
fn push_line(manual: &mut String, words: &[String]) -> Result<(), AllocError> {
    manual.push_str("$ tsnbridge")?;
    for word in words {
        write!(manual, " {word}")?;
    }
    manual.push_str("\n")
}

/// Returns owned copies of these arguments: `requested_help` takes arguments as the program gets them. `push_help` calls it.
fn copy_words(alloc: Global, line: &[&str]) -> Result<Vec<String>, AllocError>
    ensures { IfOk result (λ words. map string_bytes words.items ≡ map (λ word. word.now) line.now) }
{
    let mut words = Vec::new(alloc);
    for word in line {
        words.push(String::from_str(alloc, word)?)?;
    }
    Ok(words)
}
