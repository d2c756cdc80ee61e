//! Explanations of failed commands. Some functions read files again. If this fails, there is no explanation (`None`).

use crate::again::{can_read_network_again, can_read_traffic_again};
use crate::explaining::{explain_refused_network, explain_refused_traffic, explain_stopped_run};
use crate::program::requested_run;
use app_cli::{Command, Request};
use app_commands::{
    Texts, explain_file_cause, explain_file_fault, explain_plan_fault, explain_run_fault,
    explain_wire_fault, explain_words_fault, is_network,
};
use app_failure::Failure;
use app_files::{Cause, FileError, read_cause};
use net_check::explain_network;
use show_explain::explain_part;
use std::fs;
use std::rt::Files;

/// Explains why the command of `request` failed with `fault`, with the help of the `texts` that the command read. Returns `None` without an
/// explanation or if memory runs out. `report_failure` calls it.
pub(crate) fn explain_failure<H: AllocGlobal + Files>(
    rt: &H,
    words: &[String],
    request: &Request,
    texts: &Texts,
    fault: &Failure,
) -> Option<String> {
    let alloc = rt.alloc();
    match &request.job {
        Command::Text => explain_words_fault(alloc, words, fault),
        Command::Wire { input, output, .. } => {
            explain_wire_fault(rt, input.as_str(), output.as_str(), fault)
        }
        Command::Check { plan } => explain_plan_fault(alloc, plan.as_str(), &texts.plan, fault),
        Command::Run {
            plan,
            input,
            output,
            commands,
        } => {
            let run = requested_run(request, plan, input, output, commands);
            explain_run_fault(rt, &run, texts, fault)
        },
        Command::Picture { plan, .. } => explain_picture_fault(rt, plan.as_str(), texts, fault),
        Command::Bounds { plan, traffic } => match traffic {
            Some(file) => explain_traffic_fault(rt, plan.as_str(), file.as_str(), texts, fault),
            None => explain_plan_fault(alloc, plan.as_str(), &texts.plan, fault),
        },
        Command::Network { network } => explain_network_fault(rt, network.as_str(), "", fault),
        Command::RunNetwork { network, input, .. } => {
            explain_network_fault(rt, network.as_str(), input.as_str(), fault)
        }
    }
}

/// Explains why the command `picture` failed, for a plan or a network. `explain_failure` calls it.
fn explain_picture_fault<H: AllocGlobal + Files>(
    rt: &H,
    path: &str,
    texts: &Texts,
    fault: &Failure,
) -> Option<String> {
    match fault {
        Failure::Words => explain_part(rt.alloc(), path).ok(),
        fault if is_network(rt, path) => explain_network_fault(rt, path, "", fault),
        fault => explain_plan_fault(rt.alloc(), path, &texts.plan, fault),
    }
}

/// Explains why `bounds --traffic` failed. Returns `None` for traffic that can't be read again, for example from a pipe. `explain_failure`
/// calls it.
fn explain_traffic_fault<H: AllocGlobal + Files>(
    rt: &H,
    plan: &str,
    traffic: &str,
    texts: &Texts,
    fault: &Failure,
) -> Option<String> {
    match fault {
        Failure::Network(_) if !can_read_traffic_again(rt, plan, traffic) => None,
        Failure::Network(_) => explain_refused_traffic(rt, plan, traffic),
        Failure::File(error) => explain_unread(rt, error),
        fault => explain_plan_fault(rt.alloc(), plan, &texts.plan, fault),
    }
}

/// Explains why a file couldn't be read. If the cause is unknown, examines the file to find one. `explain_traffic_fault` calls it.
fn explain_unread<H: AllocGlobal + Files>(rt: &H, error: &FileError) -> Option<String> {
    let cause = match error.cause() {
        Cause::Unknown => unreadable_cause(rt, error.path()),
        cause => cause,
    };
    explain_file_cause(rt.alloc(), error.path(), cause)
}

/// Finds why the file at `path` can't be read, by examining it. `explain_unread` calls it.
fn unreadable_cause(rt: &impl Files, path: &str) -> Cause {
    match fs::metadata(rt, path) {
        Ok(data) => {
            if data.is_dir() {
                Cause::Folder
            } else {
                Cause::NotReadable
            }
        }
        Err(error) => read_cause(rt, path, &error),
    }
}

/// Explains why a command for a network failed. Returns `None` for a network that can't be read again, for example from a pipe.
/// `explain_failure` and `explain_picture_fault` call it.
fn explain_network_fault<H: AllocGlobal + Files>(
    rt: &H,
    path: &str,
    input: &str,
    fault: &Failure,
) -> Option<String> {
    match fault {
        Failure::Rounds(_) | Failure::Network(_) if !can_read_network_again(rt, path) => None,
        Failure::Rounds(line) => explain_stopped_run(rt, path, input, line.as_str()),
        Failure::Network(line) => explain_refused_network(rt, path, input, line.as_str()),
        fault => explain_network_file(rt, path, fault),
    }
}

/// Explains why a file of the network at `path` couldn't be read or written. For a plan, it begins with the position of the plan's path in
/// the network file. `explain_network_fault` calls it.
fn explain_network_file<H: AllocGlobal + Files>(
    rt: &H,
    path: &str,
    fault: &Failure,
) -> Option<String> {
    let explanation = explain_file_fault(rt.alloc(), fault)?;
    if !can_read_network_again(rt, path) {
        return Some(explanation);
    }
    match explain_network(rt, path) {
        Some(named) => format!(in rt.alloc(); "{named}{explanation}").ok(),
        None => Some(explanation),
    }
}
