//! Explains the faults that the cases of a file cause.

use crate::captures::put_capture_case;
use crate::command_lines::split_words;
use crate::job_cases::put_job_case;
use crate::parts::put_parts_case;
use crate::text_pieces::add;
use app_cli::parse_request;
use app_commands::{wire_text, words_failure};
use app_failure::{Failure, NoMemory, TextFault, fault_line};
use bridge_capture::parse_octets;
use bridge_check::check;
use bridge_config::{Plan, commands_of, plan_of};
use bridge_text::TextBuilder;
use show_explain::{explain_arguments, explain_commands, explain_plan, explain_run, explain_text};
use show_lint::{describe_plan, explain_check, idle_change};
use std::alloc::Global;

/// Adds the heading of each case of a file, and the result of the case.
pub fn put_cases(alloc: Global, said: &mut TextBuilder<Global>, plan: &str, text: &str) {
    for part in text.split("\n== ").skip(1) {
        let (heading, lines) = part.split_once('\n').unwrap_or((part, ""));
        said.put_template("== {a}\n", &[], &[heading]);
        put_case(alloc, said, plan, heading, lines);
    }
}

/// Adds the result of a case. The first word of its heading gives the kind of its lines.
fn put_case(alloc: Global, said: &mut TextBuilder<Global>, plan: &str, heading: &str, lines: &str) {
    if heading.starts_with("plan") {
        put_plan_case(alloc, said, lines);
    } else if heading.starts_with("commands") {
        put_commands_case(alloc, said, lines, plan);
    } else if heading.starts_with("capture") {
        put_hex_capture_case(alloc, said, lines);
    } else if heading.starts_with("words") {
        put_words_case(alloc, said, lines);
    } else if is_job(heading) {
        put_job_case(alloc, said, heading, lines);
    } else if heading.starts_with("parts") {
        put_parts_case(alloc, said, lines);
    } else {
        put_capture_case(alloc, said, heading, lines);
    }
}

/// Whether a case runs a command over files.
fn is_job(heading: &str) -> bool {
    heading.starts_with("check") || heading.starts_with("run") || heading.starts_with("text")
}

/// Adds the fault line and the explanation of a fault.
pub fn put_line(
    alloc: Global,
    said: &mut TextBuilder<Global>,
    fault: &Failure,
    told: Result<String, NoMemory>,
) {
    match fault_line(alloc, fault) {
        Ok((line, _)) => said.put_template("{a}\n", &[], &[line.as_str()]),
        Err(_) => said.discard(),
    }
    add(said, told);
}

/// Adds the explanation of a plan's text.
fn put_plan_case(alloc: Global, said: &mut TextBuilder<Global>, text: &str) {
    match plan_of(alloc, alloc, text.as_bytes()) {
        Ok(plan) => put_check_case(alloc, said, text, plan),
        Err(fault) => {
            let told = explain_plan(alloc, "plan.toml", text.as_bytes(), &fault);
            put_line(alloc, said, &Failure::Plan(fault), told);
        }
    }
}

/// Adds the description of an accepted plan, or the explanation of a refused plan.
fn put_check_case(alloc: Global, said: &mut TextBuilder<Global>, text: &str, plan: Plan<Global>) {
    match check(alloc, plan) {
        Ok(accepted) => {
            said.put("accepted\n");
            let idle = idle_change(text.as_bytes(), accepted.plan());
            add(said, describe_plan(alloc, &accepted, idle));
        }
        Err(refused) => {
            let octets = text.as_bytes();
            let told = explain_check(alloc, "plan.toml", octets, &refused.plan, &refused.fault);
            put_line(alloc, said, &Failure::Check(refused.fault), told);
        }
    }
}

/// Adds the explanation of commands for the bridge of `plan`.
fn put_commands_case(alloc: Global, said: &mut TextBuilder<Global>, text: &str, plan: &str) {
    let Ok(bridge) = plan_of(alloc, alloc, plan.as_bytes()) else {
        return said.put("no plan\n");
    };
    match commands_of(alloc, alloc, text.as_bytes(), &bridge).err() {
        None => said.put("accepted\n"),
        Some(fault) => {
            let (text, plan) = (text.as_bytes(), plan.as_bytes());
            let told = explain_commands(alloc, "commands.toml", text, plan, &fault);
            put_line(alloc, said, &Failure::Commands(fault), told);
        }
    }
}

/// Adds the explanation of a capture's hexadecimal text.
fn put_hex_capture_case(alloc: Global, said: &mut TextBuilder<Global>, text: &str) {
    match wire_text(alloc, text.as_bytes()).err() {
        None => said.put("accepted\n"),
        Some(fault) => {
            let told = text_explanation(alloc, text.as_bytes(), &fault);
            put_line(alloc, said, &Failure::Text(fault), told);
        }
    }
}

/// Returns the explanation of a fault of a capture's hexadecimal text.
fn text_explanation(alloc: Global, text: &[u8], fault: &TextFault) -> Result<String, NoMemory> {
    match (fault, parse_octets(alloc, text)) {
        (TextFault::Run(fault), Ok(octets)) => explain_run(alloc, "in/1.pcap", &octets, fault),
        _ => explain_text(alloc, fault),
    }
}

/// Adds the explanation of arguments, which blanks separate.
fn put_words_case(alloc: Global, said: &mut TextBuilder<Global>, text: &str) {
    match split_words(alloc, text) {
        Ok(words) => match parse_request(alloc, &words).err() {
            None => said.put("accepted\n"),
            Some(fault) => put_line(
                alloc,
                said,
                &words_failure(fault),
                explain_arguments(alloc, &words),
            ),
        },
        Err(_) => said.discard(),
    }
}
