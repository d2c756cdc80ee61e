//! Tests a pair of bridges, and observes which foreign frames its hops take.
use crate::captures::Recording;
use crate::pairs::own_frames::{OwnFrames, count_foreign_taken, is_foreign, own_frames};
use crate::pairs::random_plan::{Side, random_plan};
use crate::pairs::sample_frames::{SentFrame, read_frames, sample_capture};
use crate::random_numbers::RandomNumbers;
use crate::runs::{run_without_commands, sent_capture};
use bridge_capture::RunFault;
use bridge_check::Accepted;
use net_model::{BridgePort, Link, NetworkFault, StreamHop, check_network, find_stray};
use net_run::BridgeResult;
use std::alloc::Global;

/// Captures of all kinds of frames at each port, and a capture without frames.
#[derive(Drop)]
pub struct SampleCaptures {
    one: Recording,
    two: Recording,
    three: Recording,
    none: Recording,
}

/// Makes the captures that are sent to each bridge.
pub fn sample_captures(alloc: Global) -> SampleCaptures {
    SampleCaptures {
        one: sample_capture(alloc, 0),
        two: sample_capture(alloc, 1),
        three: sample_capture(alloc, 2),
        none: Recording::new(alloc),
    }
}

/// Link of each pair: from port 3 of the first bridge to port 1 of the second.
const LINK: Link = Link {
    one: BridgePort { bridge: 0, port: 3 },
    other: BridgePort { bridge: 1, port: 1 },
    delay: 0,
};

/// Two linked bridges, and the hops of their stream. `streams` has this stream as the only stream of a network.
#[derive(Drop)]
struct Pair {
    plans: Vec<Accepted<Global>>,
    hops: Vec<StreamHop>,
    links: Vec<Link>,
    streams: Vec<Vec<StreamHop>>,
}

/// Result of the test of a network.
#[derive(Clone, Copy, PartialEq, Eq)]
pub enum TestResult {
    /// The network is accepted.
    Accepted,
    /// A hop takes frames over the link that belong to no hop.
    NotClosed,
    /// A hop gets no frames of the stream.
    NotFed,
    /// The network is refused for another reason.
    Other,
}

/// Observations of a pair.
#[derive(Clone, Copy)]
pub struct PairObservation {
    pub said: TestResult,
    /// Number of hops for which `find_stray` finds a stray frame.
    pub strays: u64,
    /// Number of frames of no hop that were sent over the link, in both directions.
    pub foreign: u64,
    /// Numbers of foreign frames that hops took, and that hops took for which `find_stray` finds no stray frame.
    pub taken: u64,
    pub wrong: u64,
}

/// Returns the role of the first bridge: a hop of the stream or not, with a second filter or not.
fn first_side(numbers: &mut RandomNumbers) -> Side {
    let hop = !numbers.draw_chance(4);
    Side {
        link: 3,
        talker: 1,
        listener: 3,
        hop,
        second: hop && numbers.draw_chance(10),
        fed: false,
    }
}

/// Returns the role of the second bridge. If the first bridge is no hop, the second has a talker.
fn second_side(numbers: &mut RandomNumbers, first: Side) -> Side {
    Side {
        link: 1,
        talker: 1,
        listener: 2,
        hop: true,
        second: numbers.draw_chance(10),
        fed: !first.hop || numbers.draw_chance(4),
    }
}

/// Adds the hops of a bridge, and returns whether memory sufficed.
fn add_hops(hops: &mut Vec<StreamHop>, bridge: u16, side: Side) -> bool {
    let mut are_added = true;
    for (is_hop, filter) in [(side.hop, 10u32), (side.second, 11u32)] {
        if is_hop {
            are_added = hops.push(StreamHop { bridge, filter }).is_ok() && are_added;
        }
    }
    are_added
}

/// Adds the next plan of a bridge, and returns whether a plan was added.
fn add_plan(
    alloc: Global,
    numbers: &mut RandomNumbers,
    side: Side,
    plans: &mut Vec<Accepted<Global>>,
) -> bool {
    match random_plan(alloc, numbers, side) {
        Some(accepted) => plans.push(accepted).is_ok(),
        None => false,
    }
}

/// Adds a stream with these hops, and returns whether memory sufficed.
fn add_stream(alloc: Global, hops: &[StreamHop], streams: &mut Vec<Vec<StreamHop>>) -> bool {
    match Vec::from_slice(alloc, hops) {
        Ok(hops) => streams.push(hops).is_ok(),
        Err(_) => false,
    }
}

/// Returns the pair of `seed`.
fn random_pair(alloc: Global, seed: u64) -> Option<Pair> {
    let mut numbers = RandomNumbers::from_seed(seed);
    let first = first_side(&mut numbers);
    let second = second_side(&mut numbers, first);
    let mut pair = Pair {
        plans: Vec::new(alloc),
        hops: Vec::new(alloc),
        links: Vec::new(alloc),
        streams: Vec::new(alloc),
    };
    let is_made = add_plan(alloc, &mut numbers, first, &mut pair.plans)
        && add_plan(alloc, &mut numbers, second, &mut pair.plans)
        && add_hops(&mut pair.hops, 0, first)
        && add_hops(&mut pair.hops, 1, second)
        && pair.links.push(LINK).is_ok()
        && add_stream(alloc, &pair.hops, &mut pair.streams);
    if is_made { Some(pair) } else { None }
}

/// Returns the port with the link of bridge 0 or 1.
fn link_port(bridge: u16) -> u8 {
    if bridge == 0 {
        LINK.one.port
    } else {
        LINK.other.port
    }
}

/// Runs a bridge with all kinds of frames at each port.
fn run_with_samples(
    alloc: Global,
    sorts: &SampleCaptures,
    plans: &[Accepted<Global>],
    bridge: u16,
) -> Result<BridgeResult<Global>, RunFault> {
    let Some(accepted) = plans.get(bridge as usize) else {
        return Err(RunFault::NoMemory);
    };
    let captures = [sorts.one.octets(), sorts.two.octets(), sorts.three.octets()];
    run_without_commands(alloc, accepted, &captures)
}

/// Runs a bridge with a capture at the port of its link, and no frame at the other ports.
fn run_with_link_capture(
    alloc: Global,
    sorts: &SampleCaptures,
    plans: &[Accepted<Global>],
    bridge: u16,
    tap: &[u8],
) -> Result<BridgeResult<Global>, RunFault> {
    let Some(accepted) = plans.get(bridge as usize) else {
        return Err(RunFault::NoMemory);
    };
    let none = sorts.none.octets();
    let captures = if bridge == 0 {
        [none, none, tap]
    } else {
        [tap, none, none]
    };
    run_without_commands(alloc, accepted, &captures)
}

/// Adds the foreign frames that the hops of bridge `to`, 0 or 1, took over the link.
fn observe_hops(
    pair: &Pair,
    hop_run: &BridgeResult<Global>,
    to: u16,
    sent: &[SentFrame],
    own: &OwnFrames,
    seen: &mut PairObservation,
) {
    let port = link_port(to);
    for hop in &pair.hops {
        if hop.bridge == to {
            let stray = find_stray(&pair.plans, &pair.links, &pair.hops, *hop, port);
            let count = count_foreign_taken(hop_run, port, hop.filter, sent, own);
            seen.taken = seen.taken.saturating_add(count);
            if stray.is_some() {
                seen.strays = seen.strays.saturating_add(1);
            } else {
                seen.wrong = seen.wrong.saturating_add(count);
            }
        }
    }
}

/// Returns the number of frames that belong to no hop.
fn count_foreign(sent: &[SentFrame], own: &OwnFrames) -> u64 {
    let mut count = 0u64;
    for left in sent {
        if is_foreign(own, left.number) {
            count = count.saturating_add(1);
        }
    }
    count
}

/// Adds the observations of the frames that the other bridge sent over the link to bridge `to`, 0 or 1.
fn observe_sent(
    alloc: Global,
    sorts: &SampleCaptures,
    pair: &Pair,
    sender: &BridgeResult<Global>,
    to: u16,
    seen: &mut PairObservation,
) -> Result<(), RunFault> {
    let from = 1u16.saturating_sub(to);
    let tap = sent_capture(sender, link_port(from));
    let sent = read_frames(alloc, tap)?;
    let own = own_frames(sender, from, &pair.hops);
    seen.foreign = seen.foreign.saturating_add(count_foreign(&sent, &own));
    let hop_run = run_with_link_capture(alloc, sorts, &pair.plans, to, tap)?;
    observe_hops(pair, &hop_run, to, &sent, &own, seen);
    Ok(())
}

/// Adds the observations of the link in the direction to bridge `to`, 0 or 1.
fn observe_direction(
    alloc: Global,
    sorts: &SampleCaptures,
    pair: &Pair,
    to: u16,
    seen: &mut PairObservation,
) -> Result<(), RunFault> {
    let sender = run_with_samples(alloc, sorts, &pair.plans, 1u16.saturating_sub(to))?;
    let done = observe_sent(alloc, sorts, pair, &sender, to, seen);
    drop(sender);
    done
}

/// Tests the pair as a network.
fn test_pair(pair: Pair) -> TestResult {
    let Pair {
        plans,
        hops: _,
        links,
        streams,
    } = pair;
    match check_network(plans, links, streams) {
        Ok(network) => {
            drop(network);
            TestResult::Accepted
        }
        Err(refused) => {
            let fault = refused.fault;
            drop(refused);
            fault_result(fault)
        }
    }
}

/// Returns the result for a network's fault.
fn fault_result(fault: NetworkFault) -> TestResult {
    match fault {
        NetworkFault::NotClosed { .. } => TestResult::NotClosed,
        NetworkFault::NotFed { .. } => TestResult::NotFed,
        _ => TestResult::Other,
    }
}

/// Observes the link of a pair in both directions.
fn observe_pair(
    alloc: Global,
    sorts: &SampleCaptures,
    pair: &Pair,
) -> Result<PairObservation, RunFault> {
    let mut seen = PairObservation {
        said: TestResult::Other,
        strays: 0,
        foreign: 0,
        taken: 0,
        wrong: 0,
    };
    observe_direction(alloc, sorts, pair, 1, &mut seen)?;
    observe_direction(alloc, sorts, pair, 0, &mut seen)?;
    Ok(seen)
}

/// Draws and observes the pair of `seed`.
pub fn try_pair(
    alloc: Global,
    sorts: &SampleCaptures,
    seed: u64,
) -> Result<PairObservation, RunFault> {
    let Some(pair) = random_pair(alloc, seed) else {
        return Err(RunFault::NoMemory);
    };
    match observe_pair(alloc, sorts, &pair) {
        Ok(seen) => Ok(PairObservation {
            said: test_pair(pair),
            ..seen
        }),
        Err(fault) => {
            drop(pair);
            Err(fault)
        }
    }
}
