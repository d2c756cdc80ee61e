//! Carries out the lines of a script.

use crate::case::Case;
use crate::failures::{put_failures, put_rooms};
use crate::growths::refuse;
use crate::line_output::{LineOutput, add};
use crate::random_capture::RandomNumbers;
use crate::reading::{parse_number, split_first_word};
use crate::reports::reports;
use crate::run_results::compared_result;
use app_failure::accepted_plan;
use bridge_check::{Accepted, check};
use bridge_config::plan_of;
use bridge_core::{Agenda, RowAgenda, TreeAgenda};
use std::alloc::Global;
use std::test::Fail;

/// Carries out a line.
pub fn step(said: &mut LineOutput, names: &str, case: &mut Case, line: &str) -> Result<(), Fail> {
    let (word, rest) = split_first_word(line);
    match word {
        "" | "#" => {}
        "new" => case.reset(said),
        "plan" => case.change_plan(said, names, rest),
        "command" => case.set_command(said, rest),
        "come" => case.set_frames(said, names, rest),
        "octets" => case.set_octets(said, rest),
        "cut" => case.cut_capture(said, rest),
        "draw" => case.set_random_frames(said, &mut RandomNumbers::from_seed(1), rest),
        "check" => judge(said, case.plan.as_str()),
        "agenda" => {
            put_agenda::<RowAgenda>(said, rest);
            put_agenda::<TreeAgenda>(said, rest);
        }
        _ => return look(said, case, word, rest),
    }
    Ok(())
}

/// Prints results of a case under its plan.
fn look(said: &mut LineOutput, case: &mut Case, word: &str, rest: &str) -> Result<(), Fail> {
    match accepted_plan(said.alloc, said.alloc, case.plan.as_bytes()) {
        Ok(accepted) => look_at_case(said, &accepted, case, word, rest),
        Err(_) => {
            said.stop("a plan that is refused");
            Ok(())
        }
    }
}

/// Prints results of a case under an accepted plan.
fn look_at_case(
    said: &mut LineOutput,
    accepted: &Accepted<Global>,
    case: &mut Case,
    word: &str,
    rest: &str,
) -> Result<(), Fail> {
    match word {
        "run" | "section" => return show(said, accepted, case, word),
        "beside" => return put_isolation(said, accepted, case, rest),
        "fails" => put_failures(said, accepted, case, rest),
        "rooms" => put_rooms(said, accepted, case, rest),
        "report" => reports(said, accepted, case, rest),
        "refuse" => refuse(said, accepted, case, rest),
        _ => said.stop("no line of a script"),
    }
    Ok(())
}

/// Adds the fault of a plan, or that it is accepted.
fn judge(said: &mut LineOutput, text: &str) {
    let alloc = said.alloc;
    let Ok(plan) = plan_of(alloc, alloc, text.as_bytes()) else {
        return said.stop("no plan");
    };
    match check(alloc, plan) {
        Ok(_) => said.text.put("accepted\n"),
        Err(refused) => {
            let fault = refused.fault;
            drop(refused);
            add(&mut said.text, format!(in alloc; "refused: {fault:?}\n"));
        }
    }
}

/// Adds the earliest time of an empty agenda, and again after each step, which sets or clears a port's time: `PORT MOMENT, PORT, ..`.
fn put_agenda<G: Agenda + Drop>(said: &mut LineOutput, steps: &str) {
    let mut agenda = G::empty();
    put_least(said, &agenda);
    for step in steps.split(", ") {
        change_agenda(said, &mut agenda, step);
        put_least(said, &agenda);
    }
}

fn put_least<G: Agenda>(said: &mut LineOutput, agenda: &G) {
    let (alloc, least) = (said.alloc, agenda.least());
    add(&mut said.text, format!(in alloc; "{least:?}\n"));
}

/// Sets the time of a port in an agenda, or clears it.
fn change_agenda<G: Agenda>(said: &mut LineOutput, agenda: &mut G, step: &str) {
    let (port, moment) = split_first_word(step);
    let port = parse_number(said, port).clamp(1, 16) as u8;
    if moment.is_empty() {
        agenda.clear(port);
    } else {
        agenda.set(port, parse_number(said, moment));
    }
}

/// Returns the first section of a result, without its last line.
fn first_section(text: &str) -> &str {
    text.split_once("\nend\n").unwrap_or(("", "")).0
}

/// Adds the section of filter 10 of a result.
fn put_section(said: &mut LineOutput, text: &str) {
    said.text
        .put_template("{a}\nend\n", &[], &[first_section(text)]);
}

/// Adds the result of a run, or its section of filter 10.
fn show(
    said: &mut LineOutput,
    accepted: &Accepted<Global>,
    case: &Case,
    word: &str,
) -> Result<(), Fail> {
    let text = compared_result(said, accepted, case)?;
    if word == "run" {
        said.text.put(text.as_str());
    } else {
        put_section(said, text.as_str());
    }
    Ok(())
}

/// Adds the section of filter 10, and how often it is equal in runs with random frames at ports 2 and 3: `COUNT MOMENT`.
fn put_isolation(
    said: &mut LineOutput,
    accepted: &Accepted<Global>,
    case: &mut Case,
    rest: &str,
) -> Result<(), Fail> {
    let alone = compared_result(said, accepted, case)?;
    put_section(said, alone.as_str());
    compare_isolation(said, accepted, case, first_section(alone.as_str()), rest)
}

/// Adds how often the section of filter 10 equals the section `alone`.
fn compare_isolation(
    said: &mut LineOutput,
    accepted: &Accepted<Global>,
    case: &mut Case,
    alone: &str,
    rest: &str,
) -> Result<(), Fail> {
    let (count, from) = split_first_word(rest);
    let count = parse_number(said, count);
    let mut numbers = RandomNumbers::from_seed(1);
    let mut same = 0u64;
    for _ in 0..count {
        case.set_random_frames(said, &mut numbers, from);
        let text = compared_result(said, accepted, case)?;
        if first_section(text.as_str()) == alone {
            same = same.saturating_add(1);
        }
    }
    let form = "the same beside {0} of {1}\n";
    said.text.put_template(form, &[same, count], &[]);
    Ok(())
}
