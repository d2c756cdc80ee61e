//! Finds the tables of a run that the arguments request.
ghost use Rattle.std.specs.Prelude.{◌≡◌, Some, IfOk, IfErr, List, codes, map, option_map, string_bytes};
ghost use Rattle.clap.specs.Words.{Row, first_of, found_of, rows_of, subcommand_of, subcommand_rows_of};
ghost use Rattle.app_cli.specs.CommandLine.{commands};
ghost use Rattle.app_cli.specs.Tabling.{AsksForTables};

use crate::job::optional_text;
use crate::words_fault::ArgumentsFault;
use clap::ArgMatches;
use std::alloc::Global;

/// Requested tables of a run.
#[derive(Debug, Drop)]
pub struct TableRequest {
    /// Path of the table of delays, or `None` if it isn't requested.
    pub delays: Option<String>,
    /// Path of the table of frames, or `None` if it isn't requested.
    pub frames: Option<String>,
}

/// Returns the requested tables of a run, by the values that `clap` found. Other commands have no tables. Fails only if memory runs out.
/// `request_by_matches` calls it.
pub(crate) fn tables_by_matches(
    alloc: Global,
    words: &[String],
    matches: &ArgMatches,
) -> Result<TableRequest, ArgumentsFault>
    requires values { subcommand_rows_of matches.now ≡ subcommand_of commands (map string_bytes words.now) }
    ensures ok { IfOk result (λ tables. (values : List Row)
        → subcommand_of commands (map string_bytes words.now) ≡ Some (codes "run", values)
        → AsksForTables values tables) }
    ensures memory { IfErr result (λ fault. fault ≡ ArgumentsFault.NoMemory) }
{
    match matches.subcommand_matches("run") {
        Some(values) => read_table_options(alloc, values),
        None => Ok(TableRequest {
            delays: None,
            frames: None,
        }),
    }
}

/// Returns the tables that the options `--delays` and `--frames` request. Fails only if memory runs out. `tables_by_matches` calls it.
fn read_table_options(alloc: Global, values: &ArgMatches) -> Result<TableRequest, ArgumentsFault>
    ensures ok { IfOk result (AsksForTables (rows_of (found_of values.now))) }
    ensures memory { IfErr result (λ fault. fault ≡ ArgumentsFault.NoMemory) }
{
    let delays = match optional_text(alloc, values, "delays") {
        Ok(delays) => delays,
        Err(fault) => return Err(fault),
    };
    let frames = match optional_text(alloc, values, "frames") {
        Ok(frames) => frames,
        Err(fault) => return Err(fault),
    };
    Ok(TableRequest { delays, frames })
}
