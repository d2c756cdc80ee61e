//! Refuses the allocations of runs and reports, one by one.

use crate::case::Case;
use crate::failures::{are_prefixes, whole_outputs};
use crate::line_output::{LineOutput, add};
use crate::run_forms::{
    Form, Moves, port_sinks, run_into_sinks, run_with_growing_writers, sink_octets,
};
use app_failure::accepted_plan;
use bridge_check::Accepted;
use bridge_core::{Outcome, RunFault};
use bridge_report::{ReportFault, has_section, report, section, summary, write_report};
use fixture_bridge::{Ending, RefusesOne};
use std::alloc::{Allocator, Global};

/// Returns how a report into a writer ends.
fn written_ending<A: Allocator + Copy>(gate: A, heap: Global, outcome: &Outcome<A>) -> Ending {
    match write_report(gate, outcome, Vec::new(heap)) {
        Ok(_) => Ending::Whole,
        Err(fault) => Ending::from_flags(false, fault == ReportFault::NoMemory),
    }
}

/// Returns how an output of a run ends: section of filter 10, report, line of counts, or report into a writer. Any other `what` ends
/// `Whole`.
fn output_ending<A: Allocator + Copy>(
    gate: A,
    heap: Global,
    outcome: &Outcome<A>,
    what: &str,
) -> Ending {
    match what {
        "section" => {
            Ending::from_flags(
                has_section(outcome, 10) && section(gate, outcome, 10).is_ok(),
                true,
            )
        }
        "report" => Ending::from_flags(report(gate, outcome).is_ok(), true),
        "line" => Ending::from_flags(summary(gate, outcome).is_ok(), true),
        "written" => written_ending(gate, heap, outcome),
        _ => Ending::Whole,
    }
}

/// Returns how a run with an output ends. Its sinks must contain the whole run's octets, or a prefix after refused memory.
fn run_ending<A: Allocator + Copy>(
    gate: A,
    said: &mut LineOutput,
    accepted: &Accepted<A>,
    case: &Case,
    what: &str,
    whole: [&[u8]; 3],
) -> Ending {
    let (heap, moves) = (said.alloc, Moves::AtOnce);
    let mut sinks = port_sinks(heap, moves);
    match run_into_sinks(gate, said, accepted, case, Form::Plain, moves, &mut sinks) {
        Ok(outcome) => {
            let ending = output_ending(gate, heap, &outcome, what);
            drop(outcome);
            if sink_octets(&sinks) == whole {
                ending
            } else {
                Ending::Wrong
            }
        }
        Err(fault) => {
            let is_front = are_prefixes(sink_octets(&sinks), whole);
            Ending::from_flags(false, is_front && fault == RunFault::NoMemory)
        }
    }
}

/// Returns how a run from readers to writers ends. Its writers allocate too.
fn readers_ending<A: Allocator + Copy>(
    gate: A,
    said: &mut LineOutput,
    accepted: &Accepted<A>,
    case: &Case,
) -> Ending {
    match run_with_growing_writers(gate, said, accepted, case) {
        Ok(_) => Ending::Whole,
        Err(halted) => match halted.fault {
            RunFault::NoMemory | RunFault::Write { .. } => Ending::NoMemory,
            RunFault::Capture { .. } => Ending::Wrong,
        },
    }
}

/// Returns how a run or an output under an accepted plan ends.
fn accepted_ending<A: Allocator + Copy>(
    gate: A,
    said: &mut LineOutput,
    accepted: &Accepted<A>,
    case: &Case,
    what: &str,
    whole: [&[u8]; 3],
) -> Ending {
    match what {
        "plan" => Ending::Whole,
        "over" => readers_ending(gate, said, accepted, case),
        _ => run_ending(gate, said, accepted, case, what, whole),
    }
}

/// Returns how a plan, and a run or an output under it, ends.
fn plan_ending<A: Allocator + Copy>(
    gate: A,
    said: &mut LineOutput,
    case: &Case,
    what: &str,
    whole: [&[u8]; 3],
) -> Ending {
    match accepted_plan(gate, said.alloc, case.plan.as_bytes()) {
        Ok(accepted) => accepted_ending(gate, said, &accepted, case, what, whole),
        Err(_) => Ending::NoMemory,
    }
}

/// Adds the number of allocations of a plan and its output, each refused once. A refusal must end in `NoMemory`.
fn refuse_each(said: &mut LineOutput, case: &Case, what: &str, whole: [&[u8]; 3]) {
    let alloc = said.alloc;
    for n in 1..100_000u64 {
        let gate = RefusesOne::new(alloc, n);
        match (
            plan_ending(&gate, said, case, what, whole),
            gate.has_refused(),
        ) {
            (Ending::NoMemory, true) => {}
            (Ending::Whole, false) => {
                let form = "{0} growths, each refused: no memory\n";
                return said.text.put_template(form, &[n - 1], &[]);
            }
            (ending, _) => {
                add(
                    &mut said.text,
                    format!(in alloc; "growth {n}: {ending:?}\n"),
                );
                return said.stop("a growth that is answered otherwise");
            }
        }
    }
    said.stop("some growth was always refused")
}

/// Adds the number of allocations: `plan`, `run`, `over`, `section`, `report`, `line` or `written`.
pub fn refuse(said: &mut LineOutput, accepted: &Accepted<Global>, case: &Case, what: &str) {
    let sinks = whole_outputs(said, accepted, case);
    refuse_each(said, case, what, sink_octets(&sinks));
}
