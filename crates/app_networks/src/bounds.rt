//! The command `bounds`, with traffic or without: delay bounds of a plan's queues, delays of its talkers' frames, and warnings.
ghost use Rattle.std.specs.Prelude.{[], ◌≡◌, ◌&&◌, ◌++◌, ℕ, IfErr, IfOk, List, OnOk, false, not, string_bytes};
ghost use Rattle.std.specs.declared.alloc.Global.{Global};
ghost use Rattle.app_failure.specs.Jobs.{EndsCheck};
ghost use Rattle.app_commands.specs.ReadTexts.{HasTextAt, IsTextOf};
ghost use Rattle.net_latency.specs.TrafficText.{EndsTexts};
ghost use Rattle.app_commands.specs.Outputs.{Prints};
ghost use Rattle.app_networks.specs.Bounds.{FailsTrafficAt, IsBoundsOutputOf, IsTrafficOutputOf, WarnsBy, WarnsOfPlan, WarnsOfText, is_warned, status_by, warnings_text};

use crate::again::can_read_traffic_again;
use app_commands::{Flags, Output, Texts, read_file_text, status_if, unprotected_warning};
use app_failure::{Failure, NoMemory, accepted_plan, file_failure};
use app_files::{MOST_TEXT, ReadFiles, read_open};
use bridge_check::Accepted;
use net_latency::{TrafficReport, bounds_job, explain_refusable, shared_warnings, traffic_job};
use std::alloc::{AllocError, Global};
use std::io::Read;
use std::rt::Files;

/// Warnings of an accepted plan, which `bounds` prints to standard error.
#[derive(Drop)]
struct BoundsWarnings {
    /// Warning of a plan without a protected or grouped filter; otherwise `None`.
    unprotected: Option<String>,
    /// Warnings about shared queues with the mark `unmetered` or `lossy`; empty if there are none.
    shared: String,
}

/// Returns the output of `bounds` for a plan without traffic. The status is 1 if warnings are errors and the plan has one. Stores the
/// plan's text in `texts` for an explanation.
///
/// Fails if the plan can't be read, is refused or doesn't isolate a protected filter. `bound` calls it.
pub(crate) fn bound_plan<F: ReadFiles>(
    alloc: Global,
    files: &mut F,
    plan: &str,
    flags: Flags,
    texts: &mut Texts,
) -> Result<Output, Failure>
    ensures ok { IfOk result (λ output. HasTextAt (F.octets_at files.old) plan.now
        (λ text. IsBoundsOutputOf text flags.is_strict flags.is_explained output)) }
    ensures fails { IfErr result (λ f. HasTextAt (F.octets_at files.old) plan.now
        (λ text. EndsCheck Global plan.now text f)) }
{
    let text = match read_file_text(files, plan) {
        Ok(text) => text,
        Err(fault) => return Err(fault),
    };
    let bounded = bound_text(alloc, plan, &text, flags);
    texts.plan = text;
    match bounded {
        Ok(output) => Ok(output),
        Err(fault) => Err(fault),
    }
}

/// Returns the output of `bounds` for the plan in `text`. A failure names the path `plan`. `bound_plan` calls it.
fn bound_text(alloc: Global, plan: &str, text: &[u8], flags: Flags) -> Result<Output, Failure>
    ensures ok { IfOk result (IsBoundsOutputOf text.now flags.is_strict flags.is_explained) }
    ensures fails { IfErr result (EndsCheck Global plan.now text.now) }
{
    let lines = match bounds_job(alloc, alloc, plan, text) {
        Ok(lines) => lines,
        Err(fault) => return Err(fault),
    };
    let Ok(warnings) = warnings_if(alloc, text, flags) else {
        return Err(Failure::NoMemory);
    };
    match bounds_output(lines, true, String::new(alloc), warnings, flags) {
        Ok(output) => Ok(output),
        Err(_) => Err(Failure::NoMemory),
    }
}

/// Returns the warnings of the accepted plan in `text`, if warnings are errors or an explanation is requested. Otherwise returns none,
/// because `bounds` then prints no warnings.
fn warnings_if(alloc: Global, text: &[u8], flags: Flags) -> Result<BoundsWarnings, NoMemory>
    ensures { IfOk result (λ w. WarnsBy flags.is_strict flags.is_explained text.now w.unprotected
        (string_bytes w.shared)) }
{
    if flags.is_strict || flags.is_explained {
        return text_warnings(alloc, text);
    }
    Ok(BoundsWarnings {
        unprotected: None,
        shared: String::new(alloc),
    })
}

/// Returns the warnings of a text that was accepted as a plan before. It checks the text again, so a failure can only mean that memory ran
/// out. `warnings_if` calls it.
fn text_warnings(alloc: Global, text: &[u8]) -> Result<BoundsWarnings, NoMemory>
    ensures { IfOk result (λ w. WarnsOfText text.now w.unprotected (string_bytes w.shared)) }
{
    match accepted_plan(alloc, alloc, text) {
        Ok(accepted) => {
            let warnings = plan_warnings(alloc, &accepted);
            drop(accepted);
            warnings
        }
        Err(_) => Err(NoMemory),
    }
}

/// Returns the warnings of an accepted plan: that no filter is protected or grouped, and warnings about its shared queues. `text_warnings`
/// calls it.
fn plan_warnings(alloc: Global, accepted: &Accepted<Global>) -> Result<BoundsWarnings, NoMemory>
    ensures { IfOk result (λ w. WarnsOfPlan accepted.now w.unprotected (string_bytes w.shared)) }
{
    let unprotected = unprotected_warning(alloc, accepted)?;
    let shared = shared_warnings(alloc, accepted)?;
    Ok(BoundsWarnings {
        unprotected,
        shared,
    })
}

/// Returns whether `warnings` has at least one warning. `bounds_output` calls it.
fn is_warned(warnings: &BoundsWarnings) -> bool
    ensures { result ≡ is_warned warnings.now.unprotected (string_bytes warnings.now.shared) }
{
    warnings.unprotected.is_some() || !warnings.shared.as_str().is_empty()
}

/// Appends all warnings to `text`: the plan's own, then those about shared queues. `bounds_output` calls it.
fn push_warnings(text: &mut String, warnings: &BoundsWarnings) -> Result<(), AllocError>
    ensures { OnOk result (string_bytes text.new ≡ string_bytes text.old
        ++ warnings_text warnings.now.unprotected (string_bytes warnings.now.shared)) }
{
    if let Some(warning) = &warnings.unprotected {
        text.push_str(warning.as_str())?;
    }
    text.push_str(warnings.shared.as_str())
}

/// Returns the output of `bounds`: `lines` on standard output, `notes` about the traffic and warnings on standard error. The status is 1 if
/// `is_kept` is false, or a warning is an error.
///
/// `bound_text` and `bound_rows` call it.
fn bounds_output(
    lines: String,
    is_kept: bool,
    notes: String,
    warnings: BoundsWarnings,
    flags: Flags,
) -> Result<Output, NoMemory>
    ensures { IfOk result (Prints (string_bytes lines)
        (string_bytes notes ++ warnings_text warnings.unprotected (string_bytes warnings.shared))
        (status_by is_kept flags.is_strict (is_warned warnings.unprotected (string_bytes warnings.shared)))) }
{
    let is_well = is_kept && !(flags.is_strict && is_warned(&warnings));
    let mut stderr = notes;
    let Ok(()) = push_warnings(&mut stderr, &warnings) else {
        return Err(NoMemory);
    };
    Ok(Output {
        stdout: lines,
        stderr,
        status: status_if(is_well),
    })
}

/// Returns the output of `bounds --traffic`. The status is 1 if a frame may be refused or late, or a warning is an error. Opens both files
/// before it reads one. `bound` calls it.
pub(crate) fn bound_traffic<H: AllocGlobal + Files, F: ReadFiles>(
    rt: &H,
    files: &mut F,
    plan: &str,
    file: &str,
    flags: Flags,
    texts: &mut Texts,
) -> Result<Output, Failure>
    ensures ok { IfOk result (λ output. HasTextAt (F.octets_at files.old) plan.now (λ input.
        HasTextAt (F.octets_at files.old) file.now (λ words.
        IsTrafficOutputOf input words flags.is_strict flags.is_explained output))) }
    ensures fails { IfErr result (FailsTrafficAt (F.octets_at files.old) plan.now file.now) }
{
    let reader = match files.open_file(plan) {
        Ok(reader) => reader,
        Err(fault) => return Err(file_failure(fault)),
    };
    let rows = match files.open_file(file) {
        Ok(rows) => rows,
        Err(fault) => {
            drop(reader);
            return Err(file_failure(fault));
        }
    };
    let text = match read_open(rt, plan, reader, MOST_TEXT) {
        Ok(text) => text,
        Err(fault) => {
            drop(rows);
            return Err(file_failure(fault));
        }
    };
    let bounded = bound_rows(rt, plan, &text, file, rows, flags);
    texts.plan = text;
    match bounded {
        Ok(output) => Ok(output),
        Err(fault) => Err(fault),
    }
}

/// Returns the output of `bounds --traffic` for the plan in `text` and the traffic of reader `rows`. Failures name the paths `plan` and
/// `file`.
///
/// Fails if the plan or the traffic is refused, or if the reader fails. `bound_traffic` calls it.
fn bound_rows<R: Read + Drop, H: AllocGlobal + Files>(
    rt: &H,
    plan: &str,
    text: &[u8],
    file: &str,
    rows: R,
    flags: Flags,
) -> Result<Output, Failure>
    ensures ok { IfOk result (λ output. (words : List ℕ) × IsTextOf (R.remaining rows) words
        × IsTrafficOutputOf text.now words flags.is_strict flags.is_explained output) }
    ensures fails { IfErr result (λ f. (words : List ℕ) × IsTextOf (R.remaining rows) words
        × EndsTexts Global plan.now text.now file.now words f) }
{
    let alloc = rt.alloc();
    let TrafficReport { text: lines, kept } = match traffic_job(
        alloc, alloc, plan, text, file, rows,
    ) {
        Ok(report) => report,
        Err(fault) => return Err(fault),
    };
    let Ok(warnings) = warnings_if(alloc, text, flags) else {
        return Err(Failure::NoMemory);
    };
    let notes = traffic_reasons(rt, plan, file, flags.is_explained, kept);
    match bounds_output(lines, kept, notes, warnings, flags) {
        Ok(output) => Ok(output),
        Err(_) => Err(Failure::NoMemory),
    }
}

/// Returns why frames of traffic may be refused. The text is empty without `--explain`, if no frame may be refused or late (`is_kept`), if
/// memory runs out or a file is a pipe.
///
/// `bound_rows` calls it.
fn traffic_reasons(
    rt: &(impl AllocGlobal + Files),
    plan: &str,
    traffic: &str,
    is_explained: bool,
    is_kept: bool,
) -> String
    ensures { is_explained && not is_kept ≡ false → string_bytes result ≡ [] }
{
    if !is_explained || is_kept || !can_read_traffic_again(rt, plan, traffic) {
        return String::new(rt.alloc());
    }
    match explain_refusable(rt, plan, traffic) {
        Some(reasons) => reasons,
        None => String::new(rt.alloc()),
    }
}
