//! Draws a random network, and compares its lines with its run.
use crate::networks::coming::all_coming;
use crate::networks::drawing::{bridge_text, net_text};
use crate::networks::judging::{Seen, judge};
use crate::networks::line::{Line, parse_line};
use crate::networks::shape::{Net, next_net};
use crate::numbers::Numbers;
use crate::plans::add_if;
use app_failure::accepted_plan;
use bridge_capture::RunFault;
use bridge_check::Accepted;
use bridge_limits::NoMemory;
use net_check::check_network_file;
use net_file::{NetworkFile, parse_network};
use net_latency::{StreamLines, all_queue_bounds, stream_lines};
use net_model::Network;
use net_run::{BridgeResult, NoObserver, RoundsFault, run_network};
use std::alloc::Global;

/// Greatest number of rounds in a network run.
const ROUNDS: u32 = 64;

/// Counts over all networks.
#[derive(Clone, Copy, Default)]
pub struct Tally {
    pub drawn: u64,
    pub accepted: u64,
    /// Number of networks for which `net check` ends with status 0.
    pub kept: u64,
    pub settled: u64,
    /// Numbers of lines by their words, then of lines whose worst or best delay a run reached.
    pub passing: u64,
    pub refusable: u64,
    pub bound_only: u64,
    pub met: u64,
    pub missed: u64,
    pub worst_reached: u64,
    pub best_reached: u64,
    /// Number of refusable lines whose stream lost a frame.
    pub lossy: u64,
    pub frames: u64,
    pub delivered: u64,
    pub stray: u64,
    pub refuted: u64,
}

/// A tried network: plans, network file, lines, and whether a line is refuted or a frame is stray.
#[derive(Drop)]
pub struct Tried {
    pub plans: Vec<String>,
    pub file: String,
    pub lines: String,
    pub is_wrong: bool,
}

/// Returns the plans of all bridges, as text.
fn plan_texts(alloc: Global, numbers: &mut Numbers, net: &Net) -> Result<Vec<String>, NoMemory> {
    let mut texts = Vec::new(alloc);
    for bridge in 0..3u64 {
        if bridge < net.bridges {
            texts.push(bridge_text(alloc, numbers, net, bridge)?)?;
        }
    }
    Ok(texts)
}

/// Returns the accepted plans, or `None` if a plan is refused.
fn accepted_plans(alloc: Global, texts: &[String]) -> Option<Vec<Accepted<Global>>> {
    let mut plans = Vec::new(alloc);
    for text in texts {
        let accepted = accepted_plan(alloc, alloc, text.as_bytes()).ok()?;
        plans.push(accepted).ok()?;
    }
    Some(plans)
}

/// An accepted network with its file.
#[derive(Drop)]
struct Made {
    file: NetworkFile<Global>,
    network: Network<Global>,
}

/// Returns the accepted network of a file and its plans.
fn accepted_network(alloc: Global, text: &str, texts: &[String]) -> Option<Made> {
    let plans = accepted_plans(alloc, texts)?;
    let file = parse_network(alloc, alloc, text.as_bytes()).ok()?;
    if plans.len() != file.bridges().len() {
        return None;
    }
    let network = check_network_file(alloc, alloc, &file, plans).ok()?;
    Some(Made { file, network })
}

/// Returns the lines of all streams of a network.
fn network_lines(
    alloc: Global,
    file: &NetworkFile<Global>,
    network: &Network<Global>,
) -> Result<StreamLines<Global>, NoMemory> {
    let Ok(bounds) = all_queue_bounds(alloc, network.plans()) else {
        return Err(NoMemory);
    };
    stream_lines(alloc, alloc, network, &bounds, file.links(), file.streams())
}

/// Returns a deadline in ns near the greatest delay of a line, or 0 for none.
fn next_deadline(numbers: &mut Numbers, line: &Line) -> u64 {
    let greatest = line.greatest().unwrap_or(0);
    match numbers.below(6) {
        0 => 0,
        1 => greatest.saturating_sub(1),
        2 => greatest.saturating_add(1),
        3 => greatest / 2,
        _ => greatest,
    }
}

/// Returns the deadlines of all streams, drawn near the delays of their lines.
fn stream_deadlines(
    alloc: Global,
    numbers: &mut Numbers,
    text: &str,
) -> Result<Vec<u64>, NoMemory> {
    let mut deadlines = Vec::new(alloc);
    for line in text.lines() {
        deadlines.push(next_deadline(numbers, &parse_line(line)))?;
    }
    Ok(deadlines)
}

/// Returns the network file with deadlines near the delays of its lines, or `None` if the network is refused.
fn timed_text(
    alloc: Global,
    numbers: &mut Numbers,
    net: &Net,
    texts: &[String],
) -> Result<Option<String>, NoMemory> {
    let first = net_text(alloc, net, &[])?;
    let Some(made) = accepted_network(alloc, first.as_str(), texts) else {
        return Ok(None);
    };
    let lines = network_lines(alloc, &made.file, &made.network)?;
    let deadlines = stream_deadlines(alloc, numbers, lines.text.as_str())?;
    Ok(Some(net_text(alloc, net, &deadlines)?))
}

/// Tries the network of `seed`. Returns `None` if the network isn't accepted.
pub fn try_network(alloc: Global, seed: u64, tally: &mut Tally) -> Result<Option<Tried>, RunFault> {
    match try_drawn(alloc, seed, tally) {
        Ok(tried) => Ok(tried),
        Err(_) => Err(RunFault::NoMemory),
    }
}

/// Draws and tries the network of `seed`. Returns `None` if the network isn't accepted.
fn try_drawn(alloc: Global, seed: u64, tally: &mut Tally) -> Result<Option<Tried>, NoMemory> {
    let mut numbers = Numbers::of_seed(seed.wrapping_add(1_000_000));
    let net = next_net(alloc, &mut numbers)?;
    let plans = plan_texts(alloc, &mut numbers, &net)?;
    add_if(&mut tally.drawn, true);
    let Some(file) = timed_text(alloc, &mut numbers, &net, &plans)? else {
        return Ok(None);
    };
    let Some(made) = accepted_network(alloc, file.as_str(), &plans) else {
        return Ok(None);
    };
    add_if(&mut tally.accepted, true);
    let lines = network_lines(alloc, &made.file, &made.network)?;
    add_if(&mut tally.kept, lines.kept);
    let before = tally.refuted.saturating_add(tally.stray);
    let coming = all_coming(alloc, &mut numbers, &net, made.network.plans())?;
    match run_network(alloc, &made.network, coming, ROUNDS, &mut NoObserver) {
        Ok(settled) => count_run(&net, &settled.bridges, lines.text.as_str(), tally),
        Err(RoundsFault::NotSettled { .. }) => {}
        Err(_) => return Err(NoMemory),
    }
    Ok(Some(Tried {
        plans,
        file,
        lines: lines.text,
        is_wrong: tally.refuted.saturating_add(tally.stray) != before,
    }))
}

/// Counts a settled run.
fn count_run(net: &Net, settled: &[BridgeResult<Global>], lines: &str, tally: &mut Tally) {
    add_if(&mut tally.settled, true);
    let mut index = 0usize;
    for text in lines.lines() {
        if let Some(route) = net.routes.get(index) {
            let line = parse_line(text);
            let seen = judge(net, route, settled, line);
            count_line(&line, &seen, tally);
        }
        index = index.saturating_add(1);
    }
}

/// Counts a line.
fn count_line(line: &Line, seen: &Seen, tally: &mut Tally) {
    add_if(&mut tally.passing, line.passes());
    add_if(
        &mut tally.refusable,
        line.worst.is_some() && line.is_refusable,
    );
    add_if(&mut tally.bound_only, line.worst.is_none());
    add_if(&mut tally.met, line.is_met);
    add_if(&mut tally.missed, line.deadline.is_some() && !line.is_met);
    add_if(
        &mut tally.worst_reached,
        line.passes() && seen.reaches_worst,
    );
    add_if(&mut tally.best_reached, line.passes() && seen.reaches_best);
    add_if(&mut tally.lossy, line.is_refusable && seen.lost > 0);
    tally.frames = tally.frames.saturating_add(seen.frames);
    tally.delivered = tally.delivered.saturating_add(seen.delivered);
    tally.stray = tally.stray.saturating_add(seen.stray);
    tally.refuted = tally.refuted.saturating_add(seen.refuted);
    add_if(&mut tally.refuted, !line.is_consistent());
}
