//! Lines of delay bounds: the output of `bounds`.
ghost use Rattle.std.specs.Prelude.{◌≡◌, ◌++◌, ℕ, List, Some, IfOk, IfErr, OnOk, string_bytes};
ghost use Rattle.app_failure.specs.Jobs.{EndsCheck};
ghost use Rattle.net_latency.specs.Printing.{AreBoundLines, PrintsBounds, bound_line, bounds_text, coarse_mark, padded_figure};

use crate::shared_lines::push_shared_text;
use crate::tight::{TightBound, tight_queue_bounds};
use app_failure::{Failure, read_accepted_plan};
use bridge_check::Accepted;
use bridge_groups::plan_shared_queues;
use bridge_limits::NoMemory;
use std::alloc::{AllocError, Allocator, Global};
use std::io::Read;

/// Returns ` coarse` for a coarse bound (`TightBound::coarse`), otherwise an empty text. `push_bound_line` calls it.
fn coarse_mark(coarse: bool) -> &'static str
    ensures { result.now ≡ coarse_mark coarse }
{
    if coarse { " coarse" } else { "" }
}

/// Appends the bound `padded`, for frames of at least 60 octets, if there is one. `push_bound_line` calls it.
fn push_padded_figure<A: Allocator + Copy>(
    text: &mut String<A>,
    padded: Option<u64>,
) -> Result<(), AllocError>
    ensures { OnOk result (string_bytes text.new ≡ string_bytes text.old ++ padded_figure padded) }
{
    match padded {
        None => Ok(()),
        Some(bound) => write!(text, " padded {bound}"),
    }
}

/// Appends the line of a queue's delay bound, such as `filter 1 port 2 class 7 bound 12336`. `bounds_text` calls it.
#[tactic(auto, unfolding(crate::specs::Printing::bound_line))]
fn push_bound_line<A: Allocator + Copy>(
    text: &mut String<A>,
    row: &TightBound,
) -> Result<(), AllocError>
    ensures { OnOk result (string_bytes text.new ≡ string_bytes text.old ++ bound_line row.now) }
{
    let TightBound {
        filter,
        port,
        class,
        coarse,
        bound,
        padded,
    } = *row;
    let mark = coarse_mark(coarse);
    write!(
        text,
        "filter {filter} port {port} class {class}{mark} bound {bound}"
    )?;
    push_padded_figure(text, padded)?;
    text.push_str("\n")
}

/// Returns one line for each delay bound, in the order of `rows`. `bound_lines` calls it.
pub fn bounds_text<A: Allocator + Copy>(
    alloc: A,
    rows: &[TightBound],
) -> Result<String<A>, NoMemory>
    ensures { IfOk result (λ text. string_bytes text ≡ bounds_text rows.now) }
{
    let mut text = String::new(alloc);
    for row in rows {
        let Ok(()) = push_bound_line(&mut text, row) else {
            return Err(NoMemory);
        };
    }
    Ok(text)
}

/// Returns the lines of all tight bounds of an accepted plan, then the lines of its shared queues. `bounds_job` and `report_traffic` call
/// it.
pub(crate) fn bound_lines<A: Allocator + Copy>(
    alloc: A,
    accepted: &Accepted<A>,
) -> Result<String<A>, NoMemory>
    ensures { IfOk result (λ lines. AreBoundLines accepted.now (string_bytes lines)) }
{
    let Ok(rows) = tight_queue_bounds(alloc, accepted) else {
        return Err(NoMemory);
    };
    let Ok(shared) = plan_shared_queues(alloc, accepted) else {
        return Err(NoMemory);
    };
    let Ok(mut text) = bounds_text(alloc, &rows) else {
        return Err(NoMemory);
    };
    let Ok(()) = push_shared_text(&mut text, &shared) else {
        return Err(NoMemory);
    };
    Ok(text)
}

/// Returns the output of `bounds`: a line for each reachable queue of protected filters, and for each shared queue. Its failures are the
/// failures of `check`. `bound_text` of `app_networks` calls it.
pub fn bounds_job<R: Read + Drop, A: Allocator + Copy>(
    alloc: A,
    heap: Global,
    path: &str,
    reader: R,
) -> Result<String<A>, Failure>
    ensures ok { (input : List ℕ) → R.remaining reader ≡ Some input
        → IfOk result (λ lines. PrintsBounds A input (string_bytes lines)) }
    ensures err { (input : List ℕ) → R.remaining reader ≡ Some input
        → IfErr result (EndsCheck A path.now input) }
{
    let accepted = match read_accepted_plan(alloc, heap, path, reader) {
        Ok(accepted) => accepted,
        Err(fault) => return Err(fault),
    };
    let told = bound_lines(alloc, &accepted);
    drop(accepted);
    match told {
        Ok(lines) => Ok(lines),
        Err(_) => Err(Failure::NoMemory),
    }
}
