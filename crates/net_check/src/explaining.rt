//! Explanations of a refused network, each with a remedy, and of frames that may loop. If files can't be read again, there is no
//! explanation (`None`).
ghost use Rattle.std.specs.Prelude.{◌≤◌, length};

use crate::link_faults::explain_link_fault;
use crate::network::{
    check_network_file, network_links, network_streams, read_network, read_plans, sibling_path,
};
use crate::open_streams::explain_open_stream;
use crate::warning_lines::push_loops;
use app_failure::Failure;
use app_files::CommandFiles;
use bridge_check::Accepted;
use bridge_text::{Document, TextBuilder, put_text};
use net_file::{NetFault, NetField, NetSection, NetworkFile, parse_network, read_document};
use net_latency::{NetworkText, explain_hop_fault, explain_period, first_misfit, reread_text};
use net_model::{Network, NetworkFault, RefusedNetwork, check_network, find_forwarding_loops};
use std::alloc::Global;
use std::rt::Files;
use toml::Table;

/// Explains why a network is refused although its text is accepted: a plan can't be read or is refused, or the network has a fault. Reads
/// all files again.
///
/// Returns `None` if this fails or the network is accepted. `explain_network_file` and `explain_refused_network` of `app_networks` call it.
pub fn explain_network<H: AllocGlobal + Files>(rt: &H, path: &str) -> Option<String> {
    let alloc = rt.alloc();
    let octets = reread_text(rt, path)?;
    let text = str::from_utf8(&octets).ok()?;
    let Ok(table) = read_document(alloc, &octets) else {
        return None;
    };
    let Ok(file) = parse_network(alloc, alloc, &octets) else {
        return None;
    };
    let asked = network_text(path, text, &table, &file);
    let mut files = CommandFiles::new(rt);
    match read_plans(alloc, &mut files, path, file.bridges()) {
        Ok(plans) => explain_plans(alloc, asked, plans),
        Err(Failure::File(error)) => explain_plan_path(alloc, asked, error.path()),
        Err(_) => None,
    }
}

/// Returns the start of an explanation of the plan file at path `plan`, which can't be read. It gives the path's position in the network
/// file, and the bridge.
///
/// Returns `None` if no bridge names this path or memory runs out.
///
/// `explain_network` calls it.
fn explain_plan_path(alloc: Global, asked: NetworkText<'_>, plan: &str) -> Option<String> {
    let mut index = 0usize;
    for bridge in asked.file.bridges() {
        index = index.saturating_add(1);
        let place = sibling_path(alloc, asked.path, bridge.plan()).ok()?;
        if place.as_str() == plan {
            let key = NetField::Plan.key();
            let mut said = TextBuilder::new(alloc);
            asked.put_place(&mut said, NetSection::Bridge, index, Some(key));
            said.put_template("`plan` of bridge {a} is ", &[], &[bridge.name()]);
            put_text(&mut said, bridge.plan());
            said.put(":\n");
            return said.finish().ok();
        }
    }
    None
}

/// Returns a network file's path, text, document and network in one value, which the functions that explain take as `asked`.
/// `explain_network` calls it.
fn network_text<'a>(
    path: &'a str,
    text: &'a str,
    table: &'a Table,
    file: &'a NetworkFile<Global>,
) -> NetworkText<'a> {
    let document = Document { text, table };
    NetworkText {
        path,
        document,
        file,
    }
}

/// Returns a line for each group of frames that may loop, to explain why a network run didn't end. Reads the network's files again; returns
/// `None` if this fails. `explain_stopped_run` of `app_networks` calls it.
pub fn explain_loops<H: AllocGlobal + Files>(rt: &H, path: &str) -> Option<String> {
    let alloc = rt.alloc();
    let mut files = CommandFiles::new(rt);
    let Ok(file) = read_network(alloc, &mut files, path) else {
        return None;
    };
    let Ok(plans) = read_plans(alloc, &mut files, path, file.bridges()) else {
        return None;
    };
    let Ok(network) = check_network_file(alloc, alloc, &file, plans) else {
        return None;
    };
    let said = loop_lines(alloc, &file, &network);
    drop(network);
    said
}

/// Returns a line for each group of frames that may loop in the network. Returns `None` if memory runs out. `explain_loops` calls it.
fn loop_lines(
    alloc: Global,
    file: &NetworkFile<Global>,
    network: &Network<Global>,
) -> Option<String>
    requires few { length network.now.plans ≤ 64 }
{
    let rows = find_forwarding_loops(alloc, network.plans(), network.links()).ok()?;
    let mut text = String::new(alloc);
    match push_loops(alloc, &mut text, file.bridges(), &rows) {
        Ok(()) => Some(text),
        Err(_) => None,
    }
}

/// Explains why the network of these plans is refused: its first fault, or the first period of a talker that the plans don't suit.
///
/// Returns `None` if the network is accepted or memory runs out. `explain_network` calls it.
fn explain_plans(
    alloc: Global,
    asked: NetworkText<'_>,
    plans: Vec<Accepted<Global>>,
) -> Option<String> {
    let Ok(links) = network_links(alloc, asked.file.links()) else {
        drop(plans);
        return None;
    };
    let Ok(streams) = network_streams(alloc, asked.file.streams()) else {
        drop(plans);
        drop(links);
        return None;
    };
    match check_network(plans, links, streams) {
        Ok(network) => match first_misfit(network.plans(), asked.file.streams()) {
            Some(NetFault::OutOfRange(place)) => {
                explain_period(alloc, asked, network.plans(), place.index)
            }
            _ => None,
        },
        Err(refused) => explain_refusal(alloc, asked, &refused),
    }
}

/// Explains the fault of a refused network by the function for its kind: open stream, link, or hop. `explain_plans` calls it.
fn explain_refusal(
    alloc: Global,
    asked: NetworkText<'_>,
    refused: &RefusedNetwork<Global>,
) -> Option<String> {
    match refused.fault {
        NetworkFault::NotClosed { .. } => explain_open_stream(alloc, asked, refused),
        NetworkFault::Unresolved { link }
        | NetworkFault::LinkTwice { link, .. }
        | NetworkFault::SpeedsDiffer { link } => explain_link_fault(alloc, asked, refused, link),
        NetworkFault::NotProtected { stream, hop }
        | NetworkFault::HopTwice { stream, hop }
        | NetworkFault::NotFed { stream, hop } => explain_hop_fault(
            alloc, asked, refused, stream, hop,
        ),
    }
}
