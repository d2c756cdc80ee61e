//! Finds out whether the arguments request help or the version.
ghost use Rattle.std.specs.Prelude.{◌≡◌, Ok, Err, None, IfOk, IfErr, IfSome, map, string_bytes, false, true};
ghost use Rattle.std.specs.List.{list_any};
ghost use Rattle.clap.specs.Words.{fault_of, kind_of};
ghost use Rattle.app_cli.specs.declared.job.Command.{Command};
ghost use Rattle.app_cli.specs.CommandLine.{AsksFor, commands};
ghost use Rattle.app_cli.specs.Helping.{AsksForHelp, IsHelp, is_help_kind, is_help_word};

use crate::command::parse_arguments;
use crate::words_fault::ArgumentsFault;
use clap::Error;
use clap::error::ErrorKind;
use std::alloc::Global;

/// Returns the requested text: help of the program (`--help`, `-h`, `help`), help of a command, or version (`--version`, `-V`). Returns
/// `None` if the arguments request none.
///
/// Arguments that request a text request no command. Fails only if memory runs out. `push_help` and `perform` of `app_networks` call it.
#[tactic(auto, using(crate::proofs::Asked::no_job))]
pub fn requested_help(alloc: Global, words: &[String]) -> Result<Option<String>, ArgumentsFault>
    ensures asked { IfOk result (λ text. IfSome text (λ _. IsHelp (fault_of commands (map string_bytes words.now)))) }
    ensures missed { result ≡ Ok None → list_any is_help_word (map string_bytes words.now) ≡ true
        → ¬ AsksForHelp (fault_of commands (map string_bytes words.now)) }
    ensures job { IfOk result (λ text. IfSome text (λ _. (job : Command)
        → ¬ AsksFor (map string_bytes words.now) job)) }
    ensures plain { list_any is_help_word (map string_bytes words.now) ≡ false → result ≡ Ok None }
    ensures only { IfErr result (λ fault. fault ≡ ArgumentsFault.NoMemory) }
{
    if !has_help_word(words) {
        return Ok(None);
    }
    match parse_arguments(alloc, words) {
        Ok(_) => Ok(None),
        Err(error) => error_help_text(alloc, &error),
    }
}

/// Returns whether one of the arguments may request help or the version. Otherwise `clap` needn't parse the arguments for help.
/// `requested_help` calls it.
fn has_help_word(words: &[String]) -> bool
    ensures { result ≡ list_any is_help_word (map string_bytes words.now) }
{
    for word in words {
        if is_help_word(word.as_str()) {
            return true;
        }
    }
    false
}

/// Returns whether this argument may request help or the version. `has_help_word` calls it.
fn is_help_word(word: &str) -> bool
    ensures { result ≡ is_help_word word.now }
{
    word == "help" || word == "--help" || word == "-h" || word == "--version" || word == "-V"
}

/// Returns the text of an error of `clap`, if it is help or the version. Returns `None` for arguments that `clap` refuses. `requested_help`
/// calls it.
fn error_help_text(alloc: Global, error: &Error) -> Result<Option<String>, ArgumentsFault>
    ensures asked { IfOk result (λ text. IfSome text (λ _. is_help_kind (kind_of error.now) ≡ true)) }
    ensures missed { result ≡ Ok None → is_help_kind (kind_of error.now) ≡ false }
    ensures memory { result ≡ Ok None → ¬ (kind_of error.now ≡ ErrorKind.OutOfMemory) }
    ensures only { IfErr result (λ fault. fault ≡ ArgumentsFault.NoMemory) }
{
    match error.kind() {
        ErrorKind::DisplayHelp | ErrorKind::DisplayVersion => {
            let text = format!(in alloc; "{error}")?;
            Ok(Some(text))
        }
        ErrorKind::OutOfMemory => Err(ArgumentsFault::NoMemory),
        _ => Ok(None),
    }
}
