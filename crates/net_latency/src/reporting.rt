//! The command `bounds --traffic`: delay bounds of a plan, and the delays of its talkers.
ghost use Rattle.std.specs.Prelude.{◌≡◌, ◌⊎◌, ◌≤◌, All, IfErr, IfOk, List, Ok, Some, length, string_bytes, take, ℕ, None};
ghost use Rattle.app_failure.specs.Reading.{IsFileFault};
ghost use Rattle.app_files.specs.declared.failed_file.Access.TheVariants.{Reading};
ghost use Rattle.net_file.specs.TrafficRows.{IsTalkerRow};
ghost use Rattle.net_latency.specs.TalkerRows.{first_row_fault};
ghost use Rattle.net_file.specs.TrafficDocument.{rows_of_text};
ghost use Rattle.net_latency.specs.TrafficText.{AreLinesOfTraffic, EndsTexts, EndsTraffic, IsTrafficFailure, PrintsRows, PrintsTraffic, ReadsRows, RefusesRows, RefusesTimings, RefusesWords};

use crate::printing::bound_lines;
use crate::timings::{are_in_time, queue_timings, timings_text};
use crate::traffic::traffic_fault;
use app_failure::{Failure, file_failure, read_accepted_plan};
use app_files::read_named;
use bridge_check::Accepted;
use bridge_limits::NoMemory;
use net_file::{
    NetFault, TalkerRow, TrafficFault, parse_traffic, traffic_fault_line as fault_line,
};
use std::alloc::{Allocator, Global};
use std::io::Read;

/// Result of `bounds --traffic` for a plan and its traffic, from which the command's output is made.
#[derive(Drop)]
pub struct TrafficReport<A: Allocator + Copy> {
    /// Lines of the bounds, then lines of the traffic.
    pub text: String<A>,
    /// Whether each frame passes and meets its deadline. If false, the exit status reports it.
    pub kept: bool,
}

/// Returns the command's failure for refused traffic, with the fault line of `fault`. Returns `NoMemory` if memory runs out for the line.
/// `check_and_report` and `parse_rows` call it.
fn traffic_refusal(heap: Global, fault: &TrafficFault) -> Failure
    ensures { IsTrafficFailure fault.now result }
{
    match fault_line(heap, fault) {
        Ok(line) => Failure::Network(line),
        Err(_) => Failure::NoMemory,
    }
}

/// Returns the rows of a traffic file with the contents `text`. For refused contents, returns the command's failure with the fault line, or
/// `NoMemory`. `read_rows` calls it.
fn parse_rows<A: Allocator + Copy>(
    alloc: A,
    heap: Global,
    text: &[u8],
) -> Result<Vec<TalkerRow, A>, Failure>
    ensures ok { (words : List ℕ) → text.now ≡ take 1048577 words → IfOk result (λ rows. ReadsRows words rows.items) }
    ensures rows { IfOk result (λ rows. All IsTalkerRow rows.items) }
    ensures few { IfOk result (λ rows. length rows.items ≤ 1024) }
    ensures err { (words : List ℕ) → text.now ≡ take 1048577 words → IfErr result (RefusesRows words) }
    ensures read { IfOk result (λ rows. rows_of_text text.now ≡ Ok rows.items) }
    ensures refused { IfErr result (RefusesWords text.now) }
{
    match parse_traffic(alloc, heap, text) {
        Ok(rows) => Ok(rows),
        Err(NetFault::NoMemory) => Err(Failure::NoMemory),
        Err(fault) => Err(traffic_refusal(heap, &TrafficFault::Text(fault))),
    }
}

/// Reads the rows of a traffic file from a reader. `path` names the file in failures. Fails if the reader fails or the traffic is refused.
/// `explain_refusable` and `traffic_job` call it.
pub(crate) fn read_rows<R: Read + Drop, A: Allocator + Copy>(
    alloc: A,
    heap: Global,
    path: &str,
    reader: R,
) -> Result<Vec<TalkerRow, A>, Failure>
    ensures ok { (words : List ℕ) → R.remaining reader ≡ Some words → IfOk result (λ rows. ReadsRows words rows.items) }
    ensures rows { IfOk result (λ rows. All IsTalkerRow rows.items) }
    ensures few { IfOk result (λ rows. length rows.items ≤ 1024) }
    ensures err { (words : List ℕ) → R.remaining reader ≡ Some words
        → IfErr result (λ f. IsFileFault Reading path.now f ⊎ RefusesRows words f) }
    ensures read { IfOk result (λ rows. (words : List ℕ) × (rows_of_text words ≡ Ok rows.items)) }
    ensures refused { IfErr result (λ f. IsFileFault Reading path.now f ⊎ ((words : List ℕ) × RefusesWords words f)) }
{
    match read_named(heap, heap, path, reader) {
        Ok(text) => parse_rows(alloc, heap, &text),
        Err(fault) => Err(file_failure(fault)),
    }
}

/// Returns the output for an accepted plan and rows without a fault (`traffic_fault`): lines of bounds, then lines of traffic.
/// `check_and_report` calls it.
fn report_traffic<A: Allocator + Copy>(
    alloc: A,
    accepted: &Accepted<A>,
    rows: &[TalkerRow],
) -> Result<TrafficReport<A>, NoMemory>
    requires few { length rows.now ≤ 1024 }
    requires rows { All IsTalkerRow rows.now }
    requires suit { first_row_fault accepted.now 1 rows.now ≡ None }
    ensures { IfOk result (λ r. AreLinesOfTraffic accepted.now rows.now (string_bytes r.text) r.kept) }
{
    let Ok(bounds) = bound_lines(alloc, accepted) else {
        return Err(NoMemory);
    };
    let Ok(timings) = queue_timings(alloc, accepted, rows) else {
        return Err(NoMemory);
    };
    let kept = are_in_time(&timings);
    let Ok(lines) = timings_text(alloc, &timings) else {
        return Err(NoMemory);
    };
    let text = format!(in alloc; "{bounds}{lines}")?;
    Ok(TrafficReport { text, kept })
}

/// Returns the output for an accepted plan and traffic rows: lines of bounds, then lines of traffic. Returns the command's failure if a row
/// doesn't suit the plan. `traffic_job` calls it.
fn check_and_report<A: Allocator + Copy>(
    alloc: A,
    heap: Global,
    accepted: &Accepted<A>,
    rows: &[TalkerRow],
) -> Result<TrafficReport<A>, Failure>
    requires few { length rows.now ≤ 1024 }
    requires rows { All IsTalkerRow rows.now }
    ensures ok { IfOk result (λ r. AreLinesOfTraffic accepted.now rows.now (string_bytes r.text) r.kept) }
    ensures err { IfErr result (RefusesTimings accepted.now rows.now) }
{
    if let Some(fault) = traffic_fault(accepted.plan(), rows) {
        return Err(traffic_refusal(heap, &fault));
    }
    match report_traffic(alloc, accepted, rows) {
        Ok(report) => Ok(report),
        Err(_) => Err(Failure::NoMemory),
    }
}

/// Returns the output of `bounds --traffic`: lines of bounds, then a line for each queue of each row.
///
/// Returns the first failure of the plan, then of the traffic file, then of the rows compared with the plan. `bound_rows` of `app_networks`
/// calls it.
pub fn traffic_job<R: Read + Drop, S: Read + Drop, A: Allocator + Copy>(
    alloc: A,
    heap: Global,
    path: &str,
    reader: R,
    file: &str,
    traffic: S,
) -> Result<TrafficReport<A>, Failure>
    ensures ok { (input words : List ℕ) → R.remaining reader ≡ Some input → S.remaining traffic ≡ Some words
        → IfOk result (λ r. PrintsTraffic A input words (string_bytes r.text) r.kept) }
    ensures err { (input words : List ℕ) → R.remaining reader ≡ Some input → S.remaining traffic ≡ Some words
        → IfErr result (EndsTraffic A path.now input file.now words) }
    ensures read { (input : List ℕ) → R.remaining reader ≡ Some input
        → IfOk result (λ r. (words : List ℕ) × PrintsRows A input words (string_bytes r.text) r.kept) }
    ensures refused { (input : List ℕ) → R.remaining reader ≡ Some input
        → IfErr result (λ f. (words : List ℕ) × EndsTexts A path.now input file.now words f) }
{
    let accepted = match read_accepted_plan(alloc, heap, path, reader) {
        Ok(accepted) => accepted,
        Err(fault) => {
            drop(traffic);
            return Err(fault);
        }
    };
    let rows = match read_rows(alloc, heap, file, traffic) {
        Ok(rows) => rows,
        Err(fault) => {
            drop(accepted);
            return Err(fault);
        }
    };
    let told = check_and_report(alloc, heap, &accepted, &rows);
    drop(accepted);
    told
}
