//! Explanations of refused networks, refused traffic and stopped network runs. The functions read the files again. If this fails, there is
//! no explanation (`None`).

use crate::refusing::explain_stopped;
use app_commands::{explain_capture_file, explain_plan_fault};
use app_failure::accepted_plan;
use app_files::CommandFiles;
use bridge_config::{commands_of, plan_of};
use net_check::{explain_loops, explain_network, read_network, sibling_path};
use net_file::{parse_network, parse_traffic};
use net_latency::{explain_traffic, reread_text};
use show_explain::{explain_commands, explain_network_text, explain_traffic_text};
use std::rt::Files;

/// Start of the fault line of a network whose plan for one bridge is refused. The bridge's name follows.
const OF_PLAN: &str = "network refused: Plan ";

/// Start of the fault line of a network whose commands for one bridge are refused. The bridge's name follows.
const OF_COMMANDS: &str = "network refused: Commands ";

/// Explains why traffic is refused: its text has a fault, or a row doesn't suit the plan. Returns `None` if a file can't be read again or
/// memory runs out. `explain_traffic_fault` calls it.
pub(crate) fn explain_refused_traffic(
    rt: &(impl AllocGlobal + Files),
    plan: &str,
    traffic: &str,
) -> Option<String> {
    let alloc = rt.alloc();
    let octets = reread_text(rt, traffic)?;
    match parse_traffic(alloc, alloc, &octets) {
        Ok(_rows) => explain_traffic(rt, plan, traffic),
        Err(fault) => explain_traffic_text(alloc, traffic, &octets, &fault).ok(),
    }
}

/// Returns the rest of a fault line's first line after `front`: a bridge's name. Returns `None` if the text doesn't begin with `front`, or
/// has only one line. `explain_refused_network` calls it.
fn name_after_prefix<'a>(text: &'a str, front: &str) -> Option<&'a str> {
    let (name, _) = text.strip_prefix(front)?.split_once('\n')?;
    Some(name)
}

/// Explains why the network at `path` is refused. Its fault line `line` shows the cause: a plan, commands in folder `input`, the network's
/// text, or a test.
///
/// Returns `None` if a file can't be read again. `explain_network_fault` calls it.
pub(crate) fn explain_refused_network(
    rt: &(impl AllocGlobal + Files),
    path: &str,
    input: &str,
    line: &str,
) -> Option<String> {
    if let Some(name) = name_after_prefix(line, OF_PLAN) {
        return explain_bridge_plan(rt, path, name);
    }
    if let Some(name) = name_after_prefix(line, OF_COMMANDS) {
        return explain_bridge_commands(rt, path, input, name);
    }
    let alloc = rt.alloc();
    let octets = reread_text(rt, path)?;
    match parse_network(alloc, alloc, &octets) {
        Ok(_file) => explain_network(rt, path),
        Err(fault) => explain_network_text(alloc, path, &octets, &fault).ok(),
    }
}

/// Returns the path of the plan of bridge `name` in the network file at `path`. Returns `None` if the file can't be read or has no such
/// bridge. `explain_bridge_plan` and `explain_bridge_commands` call it.
fn plan_path(rt: &(impl AllocGlobal + Files), path: &str, name: &str) -> Option<String> {
    let alloc = rt.alloc();
    let mut files = CommandFiles::new(rt);
    let Ok(file) = read_network(alloc, &mut files, path) else {
        return None;
    };
    for bridge in file.bridges() {
        if bridge.name() == name {
            return sibling_path(alloc, path, bridge.plan()).ok();
        }
    }
    None
}

/// Explains why the plan of bridge `name` is refused: reads its file again and checks it. Returns `None` if the plan can't be read again or
/// is accepted now. `explain_refused_network` calls it.
fn explain_bridge_plan(rt: &(impl AllocGlobal + Files), path: &str, name: &str) -> Option<String> {
    let alloc = rt.alloc();
    let place = plan_path(rt, path, name)?;
    let text = reread_text(rt, place.as_str())?;
    match accepted_plan(alloc, alloc, &text) {
        Ok(accepted) => {
            drop(accepted);
            None
        }
        Err(fault) => explain_plan_fault(alloc, place.as_str(), &text, &fault),
    }
}

/// Explains why the commands of bridge `name` in folder `input` are refused; reads the commands and the bridge's plan again. Returns `None`
/// if this fails or they are accepted now. `explain_refused_network` calls it.
fn explain_bridge_commands(
    rt: &(impl AllocGlobal + Files),
    path: &str,
    input: &str,
    name: &str,
) -> Option<String> {
    let alloc = rt.alloc();
    let place = plan_path(rt, path, name)?;
    let text = reread_text(rt, place.as_str())?;
    let file = format!(in alloc; "{input}/{name}/commands.toml").ok()?;
    let words = reread_text(rt, file.as_str())?;
    let Ok(plan) = plan_of(alloc, alloc, &text) else {
        return None;
    };
    let read = commands_of(alloc, alloc, &words, &plan);
    drop(plan);
    match read {
        Ok(_commands) => None,
        Err(fault) => explain_commands(alloc, file.as_str(), &words, &text, &fault).ok(),
    }
}

/// Explains a stopped network run. Its fault line `line` shows the cause: a capture is refused, or loops let inputs change forever. Returns
/// `None` if a file can't be read again. `explain_network_fault` calls it.
pub(crate) fn explain_stopped_run(
    rt: &(impl AllocGlobal + Files),
    path: &str,
    input: &str,
    line: &str,
) -> Option<String> {
    if let Some(rest) = line.strip_prefix("capture ") {
        return explain_refused_capture(rt, input, rest);
    }
    let said = explain_stopped(rt.alloc(), line)?;
    match explain_loops(rt, path) {
        Some(loops) => format!(in rt.alloc();
            "{said}{loops}Remove one link of each loop from the loop's VLAN.\n"
        ).ok(),
        None => Some(said),
    }
}

/// Explains why a bridge's capture is refused. The line begins with `BRIDGE.PORT refused: ..`, which gives the capture's path in folder
/// `input`. `explain_stopped_run` calls it.
fn explain_refused_capture(
    rt: &(impl AllocGlobal + Files),
    input: &str,
    line: &str,
) -> Option<String> {
    let (end, _) = line.split_once(' ')?;
    let (name, port) = end.rsplit_once('.')?;
    let path = format!(in rt.alloc(); "{input}/{name}/{port}.pcap").ok()?;
    explain_capture_file(rt, path.as_str())
}
