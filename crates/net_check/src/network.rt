//! The command `net check`: reads a network file and its plans, checks the network, and returns the lines to print. Other commands for
//! networks read networks by the same functions.
ghost use Rattle.std.specs.Prelude.{◌≡◌, ◌≤◌, ℕ, All, List, None, Ok, Vec, length, map, IfOk, IfErr, OnOk, string_bytes};
ghost use Rattle.bridge_config.specs.Model.{Plan};
ghost use Rattle.net_file.specs.Document.{network_of_text};
ghost use Rattle.net_file.specs.Model.{Stream};
ghost use Rattle.net_model.specs.declared.links.StreamHop.{StreamHop as Hop};
ghost use Rattle.net_model.specs.Faults.{first_fault};
ghost use Rattle.net_latency.specs.declared.bounds.QueueBound.{QueueBound as Bound};
ghost use Rattle.net_latency.specs.Bounds.{HasValidPort};
ghost use Rattle.net_latency.specs.DeliveredStreams.{DeliversStreams};
ghost use Rattle.net_check.specs.Warnings.{AreWarnings};
ghost use Rattle.app_failure.specs.Jobs.{Accepts};
ghost use Rattle.net_check.specs.Networks.{AddsPlanAt, AreLinesOfNetwork, ArePlansAt, EndsNetwork, EndsPlanOf, EndsPlans, EndsText, IsNetworkOfFile, IsNetworkAt, IsPlanAt, PrintsNetwork, RefusesNetwork, RefusesPeriods, RefusesPlanBy, RefusesTextBy, SaysPlan, SaysText, accepted_line, beside, count_hops, is_absolute, link_row_value, paths_of};
ghost use Rattle.net_latency.specs.Streams.{AreQueueBoundsOfPlans, stream_hop_value};
ghost use Rattle.net_latency.specs.Talkers.{first_misfit};

use crate::refusing::network_fault_line;
use crate::warnings::all_warnings;
use app_failure::{Failure, accepted_plan, fault_line as plan_line, file_failure};
use app_files::{MOST_TEXT, ReadFiles, parent_folder};
use bridge_check::Accepted;
use bridge_limits::NoMemory;
use net_file::{BridgeRow, LinkRow, NetFault, NetworkFile, StreamRow, fault_line, parse_network};
use net_latency::{
    QueueBound, StreamLines, all_queue_bounds, first_misfit as misfit_in, stream_hops, stream_lines,
};
use net_model::{BridgePort, Link, Network, StreamHop, check_network};
use std::alloc::{Allocator, Global};

/// Exit status of a refused plan. By it, `plan_failure` distinguishes a refused plan from memory that ran out.
const REFUSED: u8 = 1;

/// Returns the links of a network file as links of `net_model`, for `check_network`. `explain_plans` and `check_network_file` call it.
pub(crate) fn network_links<A: Allocator + Copy>(
    alloc: A,
    rows: &[LinkRow],
) -> Result<Vec<Link, A>, NoMemory>
    ensures { IfOk result (λ links. links.items ≡ map link_row_value rows.now) }
{
    let mut links = Vec::new(alloc);
    for row in rows {
        let one = BridgePort {
            bridge: row.one.0,
            port: row.one.1,
        };
        let other = BridgePort {
            bridge: row.other.0,
            port: row.other.1,
        };
        let delay = row.delay;
        let Ok(()) = links.push(Link { one, other, delay }) else {
            return Err(NoMemory);
        };
    }
    Ok(links)
}

/// Returns the streams of a network file as lists of hops of `net_model`, for `check_network`. `explain_plans` and `check_network_file`
/// call it.
pub(crate) fn network_streams<A: Allocator + Copy>(
    alloc: A,
    rows: &[StreamRow<A>],
) -> Result<Vec<Vec<StreamHop, A>, A>, NoMemory>
    ensures { IfOk result (λ streams. map (λ (v : Vec Hop A). v.items) streams.items
        ≡ map (λ (s : Stream). map stream_hop_value s.hops) rows.now) }
{
    let mut streams = Vec::new(alloc);
    for row in rows {
        let Ok(hops) = stream_hops(alloc, row.hops()) else {
            return Err(NoMemory);
        };
        let Ok(()) = streams.push(hops) else {
            return Err(NoMemory);
        };
    }
    Ok(streams)
}

/// Returns the network if each talker's period is a multiple of the cycle times on its route. Otherwise returns the fault of the first
/// stream whose period isn't. `check_network_file` calls it.
fn check_periods<A: Allocator + Copy>(
    heap: Global,
    file: &NetworkFile<A>,
    network: Network<A>,
) -> Result<Network<A>, Failure>
    ensures same { IfOk result (λ n. n ≡ network) }
    ensures suit { IfOk result (λ n. first_misfit n.plans 1 file.now.streams ≡ None) }
    ensures refused { IfErr result (RefusesPeriods file.now network.plans) }
{
    let Some(fault) = misfit_in(network.plans(), file.streams()) else {
        return Ok(network);
    };
    drop(network);
    match fault_line(heap, &fault) {
        Ok(line) => Err(Failure::Network(line)),
        Err(_) => Err(Failure::NoMemory),
    }
}

/// Checks a network file with its plans: tests of links and streams, then periods of talkers. Returns the accepted network, the failure
/// `Network` with a fault line, or `NoMemory`. All commands for networks call it.
pub fn check_network_file<A: Allocator + Copy>(
    alloc: A,
    heap: Global,
    file: &NetworkFile<A>,
    plans: Vec<Accepted<A>, A>,
) -> Result<Network<A>, Failure>
    requires plans { length plans.items ≡ length file.now.bridges }
    ensures accepted { IfOk result (λ n. IsNetworkOfFile file.now plans.items n × (first_fault n ≡ None)) }
    ensures suit { IfOk result (λ n. first_misfit n.plans 1 file.now.streams ≡ None) }
    ensures refused { IfErr result (RefusesNetwork file.now plans.items) }
{
    let Ok(links) = network_links(alloc, file.links()) else {
        drop(plans);
        return Err(Failure::NoMemory);
    };
    let Ok(streams) = network_streams(alloc, file.streams()) else {
        drop(plans);
        drop(links);
        return Err(Failure::NoMemory);
    };
    match check_network(plans, links, streams) {
        Ok(network) => check_periods(heap, file, network),
        Err(refused) => {
            let said = network_fault_line(heap, file.bridges(), &refused.fault);
            drop(refused);
            match said {
                Ok(line) => Err(Failure::Network(line)),
                Err(_) => Err(Failure::NoMemory),
            }
        }
    }
}

/// Returns the number of hops of all streams, for the line of an accepted network. `accepted_line` calls it.
fn count_hops<A: Allocator + Copy>(streams: &[StreamRow<A>]) -> u64
    requires few { length streams.now ≤ 1024 }
    requires each { All (λ s. length s.hops ≤ 64) streams.now }
    ensures { result ≡ count_hops streams.now }
{
    let mut count = 0u64;
    for stream in streams {
        count += stream.hops().len() as u64;
    }
    count
}

/// Returns the line of an accepted network, with the numbers of its bridges, links, streams and hops. `network_lines` calls it.
#[tactic(auto, unfolding(crate::specs::Networks::accepted_line))]
fn accepted_line<A: Allocator + Copy>(
    heap: Global,
    file: &NetworkFile<A>,
) -> Result<String, NoMemory>
    ensures { IfOk result (λ line. string_bytes line ≡ accepted_line file.now) }
{
    let bridges = file.bridges().len();
    let links = file.links().len();
    let streams = file.streams().len();
    let hops = count_hops(file.streams());
    Ok(format!(in heap;
        "accepted: {bridges} bridges {links} links {streams} streams {hops} hops\n"
    )?)
}

/// Returns the lines of an accepted network: the numbers of its bridges, links, streams and hops, then a line with delays for each stream.
/// `describe_network` calls it.
fn network_lines<A: Allocator + Copy>(
    alloc: A,
    heap: Global,
    file: &NetworkFile<A>,
    network: &Network<A>,
    bounds: &[Vec<QueueBound, A>],
) -> Result<StreamLines<Global>, NoMemory>
    requires bounds { AreQueueBoundsOfPlans network.now.plans bounds.now }
    requires placed { All (λ v. All HasValidPort v.items) bounds.now }
    ensures { IfOk result (λ x. AreLinesOfNetwork file.now network.now (string_bytes x.text) x.kept) }
{
    let Ok(line) = accepted_line(heap, file) else {
        return Err(NoMemory);
    };
    let Ok(lines) = stream_lines(alloc, heap, network, bounds, file.links(), file.streams()) else {
        return Err(NoMemory);
    };
    let StreamLines { text, kept } = lines;
    let Ok(text) = format!(in heap; "{line}{text}") else {
        return Err(NoMemory);
    };
    Ok(StreamLines { text, kept })
}

/// Reads the network of the file at `path`. Returns the failure `File` if the file can't be read, `Network` with the line of the text's
/// first fault, or `NoMemory`. Commands for networks call it.
pub fn read_network<F: ReadFiles>(
    alloc: Global,
    files: &mut F,
    path: &str,
) -> Result<NetworkFile<Global>, Failure>
    ensures file { IfOk result (IsNetworkAt (F.octets_at files.old) path.now) }
    ensures ends { IfErr result (EndsText path.now) }
    ensures same { (p : List ℕ) → F.octets_at files.new p ≡ F.octets_at files.old p }
{
    match files.read(path, MOST_TEXT) {
        Ok(text) => parse_network_text(alloc, &text),
        Err(fault) => Err(file_failure(fault)),
    }
}

/// Returns the network that the text describes. For a refused text, returns the command's failure with the line of the text's first fault.
/// `read_network` calls it.
fn parse_network_text(alloc: Global, text: &[u8]) -> Result<NetworkFile<Global>, Failure>
    ensures file { IfOk result (λ file. network_of_text text.now ≡ Ok file) }
    ensures refused { IfErr result (RefusesTextBy (network_of_text text.now)) }
{
    match parse_network(alloc, alloc, text) {
        Ok(file) => Ok(file),
        Err(fault) => Err(refused_text_fault(alloc, &fault)),
    }
}

/// Returns the command's failure for a network file with fault `fault`: the fault line, or `NoMemory` if memory ran out, now or before.
/// `parse_network_text` calls it.
fn refused_text_fault(alloc: Global, fault: &NetFault) -> Failure
    ensures { SaysText fault.now result }
{
    if let NetFault::NoMemory = fault {
        return Failure::NoMemory;
    }
    match fault_line(alloc, fault) {
        Ok(line) => Failure::Network(line),
        Err(_) => Failure::NoMemory,
    }
}

/// Returns whether a path is absolute: it begins with `/`. `sibling_path` calls it.
fn is_absolute(path: &str) -> bool
    ensures { result ≡ is_absolute path.now }
{
    path.starts_with('/')
}

/// Returns the path of the plan file `file`, which a network file at `path` names. A relative path counts from the network file's folder,
/// so both can be moved together.
///
/// `explain_plan_path`, `plan_path` of `app_networks` and 2 more call it.
pub fn sibling_path(alloc: Global, path: &str, file: &str) -> Result<String, NoMemory>
    ensures { IfOk result (λ place. string_bytes place ≡ beside path.now file.now) }
{
    if is_absolute(file) {
        return Ok(String::from_str(alloc, file)?);
    }
    match parent_folder(path) {
        Some(folder) => Ok(format!(in alloc; "{folder}/{file}")?),
        None => Ok(String::from_str(alloc, file)?),
    }
}

/// Returns the failure of a command whose plan of bridge `name` has the failure `fault`: a line with the name, then the plan's fault line.
///
/// Returns `NoMemory` if `fault` doesn't refuse the plan, or memory runs out.
///
/// `check_bridge_plan` calls it.
#[tactic(auto, unfolding(crate::specs::Networks::plan_lines))]
fn plan_failure(alloc: Global, name: &str, fault: &Failure) -> Failure
    ensures { SaysPlan name.now fault.now result }
{
    let Ok((line, status)) = plan_line(alloc, fault) else {
        return Failure::NoMemory;
    };
    if status != REFUSED {
        return Failure::NoMemory;
    }
    match format!(in alloc; "network refused: Plan {name}\n{line}") {
        Ok(line) => Failure::Network(line),
        Err(_) => Failure::NoMemory,
    }
}

/// Returns the accepted plan of a text. For a refused plan, returns the command's failure with the name of the bridge, `name`. `read_plan`
/// calls it.
fn check_bridge_plan(alloc: Global, name: &str, text: &[u8]) -> Result<Accepted<Global>, Failure>
    ensures accepts { IfOk result (Accepts text.now) }
    ensures refused { IfErr result (RefusesPlanBy Global name.now text.now) }
{
    match accepted_plan(alloc, alloc, text) {
        Ok(accepted) => Ok(accepted),
        Err(fault) => {
            let said = plan_failure(alloc, name, &fault);
            drop(fault);
            Err(said)
        }
    }
}

/// Reads the plan of a bridge of the network file at `path`. The plan's path is absolute, or relative to the folder of the network file.
///
/// Fails if the plan can't be read or is refused. `push_plan` calls it.
pub(crate) fn read_plan<F: ReadFiles>(
    alloc: Global,
    files: &mut F,
    path: &str,
    bridge: &BridgeRow<Global>,
) -> Result<Accepted<Global>, Failure>
    ensures plan { IfOk result (IsPlanAt (F.octets_at files.old) (beside path.now bridge.now.plan)) }
    ensures ends { IfErr result (EndsPlanOf Global path.now bridge.now) }
    ensures same { (p : List ℕ) → F.octets_at files.new p ≡ F.octets_at files.old p }
{
    let Ok(place) = sibling_path(alloc, path, bridge.plan()) else {
        return Err(Failure::NoMemory);
    };
    match files.read(place.as_str(), MOST_TEXT) {
        Ok(text) => check_bridge_plan(alloc, bridge.name(), &text),
        Err(fault) => Err(file_failure(fault)),
    }
}

/// Reads the plan of a bridge, and appends it to `plans`. Returns a failure if the plan can't be read or is refused, or memory runs out.
/// `read_plans` calls it.
fn push_plan<F: ReadFiles>(
    alloc: Global,
    files: &mut F,
    path: &str,
    bridge: &BridgeRow<Global>,
    plans: &mut Vec<Accepted<Global>>,
) -> Result<(), Failure>
    ensures more { OnOk result (AddsPlanAt (F.octets_at files.old) (beside path.now bridge.now.plan) plans.old.items
        plans.new.items) }
    ensures ends { IfErr result (EndsPlanOf Global path.now bridge.now) }
    ensures same { (p : List ℕ) → F.octets_at files.new p ≡ F.octets_at files.old p }
{
    match read_plan(alloc, files, path, bridge) {
        Ok(accepted) => match plans.push(accepted) {
            Ok(()) => Ok(()),
            Err(_) => Err(Failure::NoMemory),
        },
        Err(fault) => Err(fault),
    }
}

/// Reads the plans of the bridges, in order. Returns the failure `File` for a plan that can't be read, `Network` with a refused plan's
/// lines, or `NoMemory`. Commands for networks call it.
pub fn read_plans<F: ReadFiles>(
    alloc: Global,
    files: &mut F,
    path: &str,
    bridges: &[BridgeRow<Global>],
) -> Result<Vec<Accepted<Global>>, Failure>
    ensures each { IfOk result (λ plans. length plans.items ≡ length bridges.now) }
    ensures plans { IfOk result (λ plans. ArePlansAt (F.octets_at files.old) path.now bridges.now plans.items) }
    ensures ends { IfErr result (EndsPlans Global path.now bridges.now) }
    ensures same { (p : List ℕ) → F.octets_at files.new p ≡ F.octets_at files.old p }
{
    let mut plans = Vec::new(alloc);
    for bridge in bridges {
        if let Err(fault) = push_plan(alloc, files, path, bridge, &mut plans) {
            return Err(fault);
        }
    }
    Ok(plans)
}

/// Returns the paths of a network's files: the network file and the bridges' plans. `can_read_network_again` tests whether each file can be
/// read a second time.
pub fn network_paths(
    alloc: Global,
    path: &str,
    bridges: &[BridgeRow<Global>],
) -> Result<Vec<String>, NoMemory>
    ensures { IfOk result (λ paths. map string_bytes paths.items ≡ paths_of path.now bridges.now) }
{
    let mut paths = Vec::new(alloc);
    paths.push(String::from_str(alloc, path)?)?;
    for bridge in bridges {
        paths.push(sibling_path(alloc, path, bridge.plan())?)?;
    }
    Ok(paths)
}

/// Result of `network_job` for an accepted network. `app_networks` makes the output of `net check` from it.
#[derive(Drop)]
pub struct NetworkOutput {
    /// Lines for standard output: numbers of bridges, links, streams and hops, and the delays of each stream.
    pub lines: String,
    /// Warnings, one a line; empty without a warning.
    pub told: String,
    /// Whether each stream meets its deadline, and each frame of a periodic talker passes. If false, the exit status reports it.
    pub kept: bool,
}

/// Returns the output of `net check` for an accepted network: lines and warnings. `network_job` calls it.
fn describe_network<A: Allocator + Copy>(
    alloc: A,
    heap: Global,
    file: &NetworkFile<A>,
    network: &Network<A>,
) -> Result<NetworkOutput, NoMemory>
    requires few { length network.now.plans ≤ 64 }
    ensures lines { IfOk result (λ said. AreLinesOfNetwork file.now network.now (string_bytes said.lines) said.kept) }
    ensures told { IfOk result (λ said. AreWarnings file.now network.now (string_bytes said.told)) }
    ensures delivered { (plans : List (Plan A)) (bounds : List (Vec Bound A))
        → IsNetworkOfFile file.now plans network.now
        → first_fault network.now ≡ None
        → AreQueueBoundsOfPlans network.now.plans bounds
        → DeliversStreams network.now bounds file.now.streams }
{
    let _rows = file.streams();
    let _hops = network.streams();
    let Ok(bounds) = all_queue_bounds(alloc, network.plans()) else {
        return Err(NoMemory);
    };
    let Ok(lines) = network_lines(alloc, heap, file, network, &bounds) else {
        return Err(NoMemory);
    };
    let StreamLines { text, kept } = lines;
    let Ok(told) = all_warnings(alloc, heap, file, network, &bounds) else {
        return Err(NoMemory);
    };
    Ok(NetworkOutput {
        lines: text,
        told,
        kept,
    })
}

/// Checks the network of the file at `path`, with its plans, for `net check`.
///
/// Returns lines and warnings, or the first failure of network file, plans by bridge, tests of the network, or periods of talkers.
///
/// `check_network` of `app_networks` calls it.
pub fn network_job<F: ReadFiles>(
    alloc: Global,
    files: &mut F,
    path: &str,
) -> Result<NetworkOutput, Failure>
    ensures ok { IfOk result (λ said. PrintsNetwork Global (string_bytes said.lines)
        (string_bytes said.told) said.kept) }
    ensures err { IfErr result (EndsNetwork Global path.now) }
{
    let file = read_network(alloc, files, path)?;
    let plans = read_plans(alloc, files, path, file.bridges())?;
    match check_network_file(alloc, alloc, &file, plans) {
        Ok(network) => {
            let said = describe_network(alloc, alloc, &file, &network);
            drop(network);
            match said {
                Ok(said) => Ok(said),
                Err(_) => Err(Failure::NoMemory),
            }
        }
        Err(fault) => Err(fault),
    }
}
