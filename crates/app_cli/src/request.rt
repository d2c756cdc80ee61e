//! Parses the arguments once, into everything that they request.
ghost use Rattle.std.specs.Prelude.{◌≡◌, ◌≢◌, [], Err, IfOk, IfErr, List, Some, codes, map, string_bytes};
ghost use Rattle.clap.specs.Words.{Row, fault_of, subcommand_of, subcommand_rows_of};
ghost use Rattle.app_cli.specs.declared.job.Command.{Command};
ghost use Rattle.app_cli.specs.CommandLine.{AsksFor, HasRoom, commands};
ghost use Rattle.app_cli.specs.Helping.{explains, is_strict, has_flag};
ghost use Rattle.app_cli.specs.Sketching.{AsksForPart, AsksForSketch, NamesPart};
ghost use Rattle.app_cli.specs.Tabling.{AsksForTables};

use crate::command::parse_arguments;
use crate::job::{Command, argument_fault, job_by_matches};
use crate::picture_request::{PictureRequest, picture_by_matches};
use crate::table_request::{TableRequest, tables_by_matches};
use crate::words_fault::ArgumentsFault;
use clap::ArgMatches;
use std::alloc::Global;
use std::env;
use std::io::ErrorKind;
use std::rt::Env;

/// Everything that the arguments request.
#[derive(Drop)]
pub struct Request {
    /// Command that the arguments request.
    pub job: Command,
    /// Requested picture of a run, or of part of a plan; otherwise `None`.
    pub picture: Option<PictureRequest>,
    /// Requested tables of a run.
    pub tables: TableRequest,
    /// Whether explanations are requested: `--explain`.
    pub is_explained: bool,
    /// Whether warnings are errors: `--strict`.
    pub is_strict: bool,
}

/// Parses the arguments after the program's name once: the requested command, picture, tables and flags. Fails with `Words` if one of them
/// is invalid. `perform_request` of `app_networks` calls it.
#[tactic(auto, using(crate::proofs::Parsed::none_named))]
pub fn parse_request(alloc: Global, words: &[String]) -> Result<Request, ArgumentsFault>
    ensures job { IfOk result (λ r. AsksFor (map string_bytes words.now) r.job) }
    ensures room { IfOk result (λ r. HasRoom r.job) }
    ensures sketch { IfOk result (λ r. (values : List Row)
        → subcommand_of commands (map string_bytes words.now) ≡ Some (codes "run", values)
        → AsksForSketch values r.picture) }
    ensures part { IfOk result (λ r. (values : List Row)
        → subcommand_of commands (map string_bytes words.now) ≡ Some (codes "picture", values)
        → AsksForPart values r.picture) }
    ensures tables { IfOk result (λ r. (values : List Row)
        → subcommand_of commands (map string_bytes words.now) ≡ Some (codes "run", values)
        → AsksForTables values r.tables) }
    ensures explained { IfOk result (λ r. r.is_explained ≡ explains (map string_bytes words.now)) }
    ensures strict { IfOk result (λ r. r.is_strict ≡ is_strict (map string_bytes words.now)) }
    ensures words { result ≡ Err ArgumentsFault.Words → (job : Command) → AsksFor (map string_bytes words.now) job
        → NamesPart (map string_bytes words.now) }
{
    if words.is_empty() {
        return Ok(Request {
            job: Command::Text,
            picture: None,
            tables: TableRequest {
                delays: None,
                frames: None,
            },
            is_explained: false,
            is_strict: false,
        });
    }
    match parse_arguments(alloc, words) {
        Ok(matches) => request_by_matches(alloc, words, &matches),
        Err(error) => Err(argument_fault(&error)),
    }
}

/// Returns the request with everything that `clap` found. At least one argument is required. `parse_request` calls it.
fn request_by_matches(
    alloc: Global,
    words: &[String],
    matches: &ArgMatches,
) -> Result<Request, ArgumentsFault>
    requires some { words.now ≢ [] }
    requires taken { fault_of commands (map string_bytes words.now) ≡ [] }
    requires values { subcommand_rows_of matches.now ≡ subcommand_of commands (map string_bytes words.now) }
    ensures job { IfOk result (λ r. AsksFor (map string_bytes words.now) r.job) }
    ensures room { IfOk result (λ r. HasRoom r.job) }
    ensures sketch { IfOk result (λ r. (values : List Row)
        → subcommand_of commands (map string_bytes words.now) ≡ Some (codes "run", values)
        → AsksForSketch values r.picture) }
    ensures part { IfOk result (λ r. (values : List Row)
        → subcommand_of commands (map string_bytes words.now) ≡ Some (codes "picture", values)
        → AsksForPart values r.picture) }
    ensures tables { IfOk result (λ r. (values : List Row)
        → subcommand_of commands (map string_bytes words.now) ≡ Some (codes "run", values)
        → AsksForTables values r.tables) }
    ensures explained { IfOk result (λ r. r.is_explained ≡ explains (map string_bytes words.now)) }
    ensures strict { IfOk result (λ r. r.is_strict ≡ is_strict (map string_bytes words.now)) }
    ensures words { result ≡ Err ArgumentsFault.Words → (job : Command) → AsksFor (map string_bytes words.now) job
        → NamesPart (map string_bytes words.now) }
{
    let job = match job_by_matches(alloc, words, matches) {
        Ok(job) => job,
        Err(fault) => return Err(fault),
    };
    let picture = match picture_by_matches(alloc, words, matches) {
        Ok(picture) => picture,
        Err(fault) => {
            drop(job);
            return Err(fault);
        }
    };
    match tables_by_matches(alloc, words, matches) {
        Ok(tables) => Ok(Request {
            job,
            picture,
            tables,
            is_explained: wants_explanation(words),
            is_strict: wants_strictness(words),
        }),
        Err(fault) => {
            drop(job);
            drop(picture);
            Err(fault)
        }
    }
}

/// Returns whether `--explain` is among the arguments before the first `--`. After `--`, `clap` accepts no options. `request_by_matches`
/// and `report_words` of `app_commands` call it.
pub fn wants_explanation(words: &[String]) -> bool
    ensures { result ≡ explains (map string_bytes words.now) }
{
    has_flag(words, "--explain")
}

/// Returns whether `--strict` is among the arguments before the first `--`. It makes warnings about accepted plans and networks errors.
/// `request_by_matches` calls it.
fn wants_strictness(words: &[String]) -> bool
    ensures { result ≡ is_strict (map string_bytes words.now) }
{
    has_flag(words, "--strict")
}

/// Returns whether `flag` is among the arguments before the first `--`. It also finds flags in arguments that `clap` refuses.
/// `wants_explanation` and `wants_strictness` call it.
fn has_flag(words: &[String], flag: &str) -> bool
    ensures { result ≡ has_flag flag.now (map string_bytes words.now) }
{
    for word in words {
        if word.as_str() == "--" {
            return false;
        }
        if word.as_str() == flag {
            return true;
        }
    }
    false
}

/// Returns the arguments after the program's name. Refuses an argument that isn't UTF-8 with `Words`, because no command has it. `main` of
/// `tsnbridge` calls it.
pub fn read_arguments(rt: &(impl AllocGlobal + Env)) -> Result<Vec<String>, ArgumentsFault> {
    let words = match env::args(rt) {
        Ok(words) => words,
        Err(error) if error.kind() == ErrorKind::OutOfMemory => return Err(
            ArgumentsFault::NoMemory,
        ),
        Err(_) => return Err(ArgumentsFault::Words),
    };
    let mut after = Vec::new(rt.alloc());
    for word in words.skip(1) {
        let Ok(()) = after.push(word) else {
            return Err(ArgumentsFault::NoMemory);
        };
    }
    Ok(after)
}
