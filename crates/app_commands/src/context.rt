//! What the commands receive: arguments of `run`, options, and the texts that they read.
ghost use Rattle.std.specs.Prelude.{◌≡◌, []};

use app_cli::{PictureRequest, TableRequest};
use std::alloc::Global;

/// Requested run: the paths, tables and picture that the arguments give.
#[derive(Clone, Copy)]
pub struct RunRequest<'a> {
    /// Path of the plan.
    pub plan: &'a str,
    /// Folder of the input captures.
    pub input: &'a str,
    /// Folder of the output captures and the report.
    pub output: &'a str,
    /// Path of the commands; `None` for a run without commands.
    pub commands: &'a Option<String>,
    /// Tables that the arguments request.
    pub tables: &'a TableRequest,
    /// Requested picture. `None` if the arguments request none.
    pub picture: &'a Option<PictureRequest>,
}

/// Options of every command, as the command's function needs them.
#[derive(Clone, Copy)]
pub struct Flags {
    /// Whether a warning, a loss and a missed deadline are errors: `--strict`.
    pub is_strict: bool,
    /// Whether an explanation is requested: `--explain`.
    pub is_explained: bool,
    /// Whether a long run shows its progress on standard error. True if standard error is a terminal.
    pub is_watched: bool,
}

/// Texts that a command has read, kept for the explanation of a failure, because a pipe can't be read again.
#[derive(Drop)]
pub struct Texts {
    /// Text of the plan; empty before it is read.
    pub plan: Vec<u8>,
    /// Text of the commands; empty before it is read.
    pub commands: Vec<u8>,
}

impl Texts {
    /// Returns the texts of a command that hasn't read any. `request_output` of `app_networks` calls it.
    pub fn new(alloc: Global) -> Texts
        ensures plan { result.plan.items ≡ [] }
        ensures commands { result.commands.items ≡ [] }
    {
        Texts {
            plan: Vec::new(alloc),
            commands: Vec::new(alloc),
        }
    }
}
