//! Finds the picture of a run, or of part of a plan, that the arguments request.
ghost use Rattle.std.specs.Prelude.{◌≡◌, ◌≢◌, ◌↔◌, Err, None, Some, IfOk, IfErr, IsTrue, List, codes, false, map, option_map, string_bytes};
ghost use Rattle.clap.specs.Words.{Row, first_of, found_of, rows_of, subcommand_of, subcommand_rows_of};
ghost use Rattle.app_cli.specs.CommandLine.{commands};
ghost use Rattle.app_cli.specs.Sketching.{AreInOrder, AsksForPart, AsksForSketch, HasNoPart, IsBound, IsSketch, NamesPart};

use crate::job::{argument_value, optional_text};
use crate::number::{is_number_list, parse_time};
use crate::words_fault::ArgumentsFault;
use clap::ArgMatches;
use std::alloc::Global;

/// Requested picture of a run, or of part of a plan.
#[derive(Debug, Drop)]
pub struct PictureRequest {
    /// Path of the picture's file.
    pub file: String,
    /// Start of the picture in ns. `None` means the default: the first event of a run, or the start of a plan's hypercycle.
    pub from: Option<u64>,
    /// End of the picture in ns. `None` means the default: the last event of a run, or the end of a plan's hypercycle.
    pub to: Option<u64>,
    /// Numbers of the ports in the picture, separated by commas (`parse_number_list`); by default all ports.
    pub ports: Option<String>,
    /// Numbers of the filters whose frames the picture shows, separated by commas; by default all filters.
    pub filters: Option<String>,
}

/// Returns the requested picture, by the values that `clap` found. Returns `None` for commands without picture options. Fails with `Words`
/// if an option has a wrong value, or with `NoMemory`. `request_by_matches` calls it.
pub(crate) fn picture_by_matches(
    alloc: Global,
    words: &[String],
    matches: &ArgMatches,
) -> Result<Option<PictureRequest>, ArgumentsFault>
    requires values { subcommand_rows_of matches.now ≡ subcommand_of commands (map string_bytes words.now) }
    ensures ok { IfOk result (λ sketch. (values : List Row)
        → subcommand_of commands (map string_bytes words.now) ≡ Some (codes "run", values)
        → AsksForSketch values sketch) }
    ensures part { IfOk result (λ sketch. (values : List Row)
        → subcommand_of commands (map string_bytes words.now) ≡ Some (codes "picture", values)
        → AsksForPart values sketch) }
    ensures words { result ≡ Err ArgumentsFault.Words → NamesPart (map string_bytes words.now) }
{
    if let Some(values) = matches.subcommand_matches("run") {
        return run_picture(alloc, values);
    }
    if let Some(values) = matches.subcommand_matches("picture") {
        return plan_picture(alloc, values);
    }
    Ok(None)
}

/// Returns whether the values name no part of a run or plan: no time, port or filter. `run_picture` and `plan_picture` call it.
fn has_no_selection(values: &ArgMatches) -> bool
    ensures { IsTrue result ↔ HasNoPart (rows_of (found_of values.now)) }
{
    let from = argument_value(values, "from");
    let to = argument_value(values, "to");
    let ports = argument_value(values, "ports");
    let filters = argument_value(values, "filters");
    match (from, to, ports, filters) {
        (None, None, None, None) => true,
        _ => false,
    }
}

/// Returns the requested picture of a run, or `None` without `--picture`. Fails with `Words` if a part but no picture is requested.
/// `picture_by_matches` calls it.
fn run_picture(alloc: Global, values: &ArgMatches) -> Result<Option<PictureRequest>, ArgumentsFault>
    ensures ok { IfOk result (AsksForSketch (rows_of (found_of values.now))) }
    ensures words { result ≡ Err ArgumentsFault.Words → ¬ HasNoPart (rows_of (found_of values.now)) }
{
    let Some(path) = argument_value(values, "picture") else {
        if has_no_selection(values) {
            return Ok(None);
        }
        return Err(ArgumentsFault::Words);
    };
    match read_picture_options(alloc, values, "picture", path) {
        Ok(sketch) => Ok(Some(sketch)),
        Err(fault) => Err(fault),
    }
}

/// Returns the requested part of a plan's picture, or `None` for the whole plan. Fails with `Words` if an option has a wrong value, or with
/// `NoMemory`. `picture_by_matches` calls it.
fn plan_picture(
    alloc: Global,
    values: &ArgMatches,
) -> Result<Option<PictureRequest>, ArgumentsFault>
    ensures ok { IfOk result (AsksForPart (rows_of (found_of values.now))) }
    ensures words { result ≡ Err ArgumentsFault.Words → ¬ HasNoPart (rows_of (found_of values.now)) }
{
    if has_no_selection(values) {
        return Ok(None);
    }
    let Some(path) = argument_value(values, "file") else {
        return Err(ArgumentsFault::Words);
    };
    match read_picture_options(alloc, values, "file", path) {
        Ok(sketch) => Ok(Some(sketch)),
        Err(fault) => Err(fault),
    }
}

/// Returns the picture with the options that `clap` found. `path` is the value of argument `name`, the picture's file. Fails with `Words`
/// if an option has a wrong value, or with `NoMemory`.
///
/// `run_picture` and `plan_picture` call it.
fn read_picture_options(
    alloc: Global,
    values: &ArgMatches,
    name: &str,
    path: &str,
) -> Result<PictureRequest, ArgumentsFault>
    requires { first_of name.now (rows_of (found_of values.now)) ≡ Some path.now }
    ensures ok { IfOk result (IsSketch name.now (rows_of (found_of values.now))) }
    ensures words { result ≡ Err ArgumentsFault.Words → ¬ HasNoPart (rows_of (found_of values.now)) }
{
    let Some(from) = optional_time(values, "from") else {
        return Err(ArgumentsFault::Words);
    };
    let Some(to) = optional_time(values, "to") else {
        return Err(ArgumentsFault::Words);
    };
    if !are_in_order(from, to) {
        return Err(ArgumentsFault::Words);
    }
    if !has_valid_list(values, "ports") || !has_valid_list(values, "filters") {
        return Err(ArgumentsFault::Words);
    }
    let ports = match optional_text(alloc, values, "ports") {
        Ok(ports) => ports,
        Err(fault) => return Err(fault),
    };
    let filters = match optional_text(alloc, values, "filters") {
        Ok(filters) => filters,
        Err(fault) => return Err(fault),
    };
    let Ok(file) = String::from_str(alloc, path) else {
        return Err(ArgumentsFault::NoMemory);
    };
    Ok(PictureRequest {
        file,
        from,
        to,
        ports,
        filters,
    })
}

/// Returns whether option `name` is absent or a list of numbers. `read_picture_options` calls it.
fn has_valid_list(values: &ArgMatches, name: &str) -> bool
    ensures { result ≡ false → first_of name.now (rows_of (found_of values.now)) ≢ None }
{
    match argument_value(values, name) {
        None => true,
        Some(word) => is_number_list(word),
    }
}

/// Returns the time of option `name`: `Some(None)` if the option is absent, `None` if its value is no time. `read_picture_options` calls
/// it.
fn optional_time(values: &ArgMatches, name: &str) -> Option<Option<u64>>
    ensures bound { (bound : _) → result ≡ Some bound
        → IsBound (first_of name.now (rows_of (found_of values.now))) bound }
    ensures none { result ≡ None → first_of name.now (rows_of (found_of values.now)) ≢ None }
{
    match argument_value(values, name) {
        None => Some(None),
        Some(word) => match parse_time(word) {
            Some(moment) => Some(Some(moment)),
            None => None,
        },
    }
}

/// Returns whether the time `from` is before `to`, both in ns. Returns true if one of them is absent. `read_picture_options` calls it.
fn are_in_order(from: Option<u64>, to: Option<u64>) -> bool
    ensures order { IsTrue result → AreInOrder from to }
    ensures given { result ≡ false → from ≢ None }
{
    match (from, to) {
        (Some(from), Some(to)) => from < to,
        _ => true,
    }
}
