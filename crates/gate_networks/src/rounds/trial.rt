//! Draws a network, runs it, and judges the result.
use crate::random_numbers::RandomNumbers;
use crate::rounds::comparison::{count_differing, count_frames, network_meetings};
use crate::rounds::inputs::{NetworkCase, network_inputs};
use crate::rounds::meetings::Meetings;
use crate::rounds::random_plan::next_plan;
use crate::rounds::shape::{BridgeRoute, Shape, add_hops, add_links, next_shape, stream_routes};
use crate::rounds::traffic::Damage;
use bridge_capture::{CaptureFault, RunFault};
use bridge_check::Accepted;
use bridge_limits::NoMemory;
use bridge_report::{has_section, section};
use net_model::{Network, StreamHop, check_network};
use net_run::{BridgeResult, NoObserver, RoundsFault, run_network};
use std::alloc::Global;

/// Greatest number of rounds of a network run.
const ROUNDS: u32 = 64;

/// Observations of a network.
#[derive(Clone, Copy, Default)]
pub struct NetworkObservation {
    /// Flags: accepted network, settled run, run that stopped at the damaged capture.
    pub accepted: bool,
    pub settled: bool,
    pub stopped: bool,
    /// Whether the run didn't settle, and whether no frame can loop.
    pub unsettled: bool,
    pub calm: bool,
    /// Whether the links form a ring.
    pub ring: bool,
    /// Number of frames that arrived at all ports, and the events at the times of arrivals over links.
    pub frames: u64,
    pub meetings: Meetings,
    /// Number of hops whose sections were compared with a run with more traffic.
    pub compared: u64,
    /// Numbers of bridges whose result alone differs, and of hops whose section differs with more traffic.
    pub differing: u64,
    pub disturbed: u64,
    /// Whether the run ended in an unexpected way.
    pub wrong: bool,
}

/// Adds the next plan of a bridge, and returns whether a plan was added.
fn add_plan(
    alloc: Global,
    numbers: &mut RandomNumbers,
    shape: &Shape,
    bridge: u16,
    way: Option<BridgeRoute>,
    plans: &mut Vec<Accepted<Global>>,
) -> bool {
    match next_plan(alloc, numbers, shape, bridge, way) {
        Some(accepted) => plans.push(accepted).is_ok(),
        None => false,
    }
}

/// Adds the plans of all bridges, and returns whether each was added.
fn add_plans(
    alloc: Global,
    numbers: &mut RandomNumbers,
    shape: &Shape,
    plans: &mut Vec<Accepted<Global>>,
) -> bool {
    let mut bridge = 0u16;
    let mut are_added = true;
    for way in stream_routes(shape) {
        if bridge < shape.bridges {
            are_added = add_plan(alloc, numbers, shape, bridge, way, plans) && are_added;
        }
        bridge = bridge.saturating_add(1);
    }
    are_added
}

/// Adds the stream of a shape, and returns whether memory sufficed.
fn add_stream(alloc: Global, shape: &Shape, streams: &mut Vec<Vec<StreamHop>>) -> bool {
    let mut hops = Vec::new(alloc);
    add_hops(&mut hops, shape) && streams.push(hops).is_ok()
}

/// Returns the network of a shape, or `None` if it is refused.
fn random_network(
    alloc: Global,
    numbers: &mut RandomNumbers,
    shape: &Shape,
) -> Option<Network<Global>> {
    let mut plans = Vec::new(alloc);
    let mut links = Vec::new(alloc);
    let mut streams = Vec::new(alloc);
    let are_made = add_links(&mut links, numbers, shape)
        && add_stream(alloc, shape, &mut streams)
        && add_plans(alloc, numbers, shape, &mut plans);
    if are_made {
        check_network(plans, links, streams).ok()
    } else {
        None
    }
}

/// Returns the damage of a capture, for one network in twelve.
fn random_damage(numbers: &mut RandomNumbers, shape: &Shape) -> Option<(u16, Damage)> {
    if !numbers.draw_chance(12) {
        return None;
    }
    let bridge = (numbers.draw(8) as u16) % shape.bridges.max(1);
    match numbers.draw(3) {
        0 => Some((bridge, Damage::Header)),
        1 => Some((bridge, Damage::Magic)),
        _ => Some((bridge, Damage::Record)),
    }
}

/// Whether a run stopped at the damaged capture with its fault.
fn is_expected_stop(case: &NetworkCase, bridge: usize, fault: RunFault) -> bool {
    let (Some((there, spoilt)), RunFault::Capture { port, fault }) = (case.spoilt, fault) else {
        return false;
    };
    if there as usize != bridge || port != 4 {
        return false;
    }
    match spoilt {
        Damage::Header => fault == CaptureFault::HeaderCut,
        Damage::Magic => fault == CaptureFault::BadMagic,
        Damage::Record => matches!(fault, CaptureFault::RecordCut { .. }),
    }
}

/// Draws and observes the network of `seed`.
pub fn try_network(alloc: Global, seed: u64) -> Result<NetworkObservation, RunFault> {
    let mut numbers = RandomNumbers::from_mixed_seed(seed);
    let shape = next_shape(&mut numbers);
    let case = NetworkCase {
        talker: seed,
        others: seed.wrapping_add(1_000_000),
        most: 20,
        spoilt: random_damage(&mut numbers, &shape),
    };
    match random_network(alloc, &mut numbers, &shape) {
        Some(network) => { observe_network(alloc, &network, &shape, &case) }
        None => Ok(NetworkObservation::default()),
    }
}

/// Runs and observes a network.
fn observe_network(
    alloc: Global,
    network: &Network<Global>,
    shape: &Shape,
    case: &NetworkCase,
) -> Result<NetworkObservation, RunFault> {
    let mut seen = NetworkObservation {
        accepted: true,
        ring: shape.ring,
        calm: !shape.circling,
        ..NetworkObservation::default()
    };
    let Ok(came) = network_inputs(alloc, network.plans(), network.links(), case) else {
        return Err(RunFault::NoMemory);
    };
    match run_network(alloc, network, came, ROUNDS, &mut NoObserver) {
        Ok(settled) => {
            observe_run(alloc, network, case, &settled.bridges, &mut seen)?;
        }
        Err(RoundsFault::NotSettled { .. }) => {
            seen.unsettled = true;
            seen.wrong = case.spoilt.is_some();
        }
        Err(RoundsFault::Bridge { bridge, fault }) => {
            seen.stopped = is_expected_stop(case, bridge, fault);
            seen.wrong = !seen.stopped;
        }
        Err(RoundsFault::NoMemory) => return Err(RunFault::NoMemory),
    }
    Ok(seen)
}

/// Adds the observations of a settled run.
fn observe_run(
    alloc: Global,
    network: &Network<Global>,
    case: &NetworkCase,
    settled: &[BridgeResult<Global>],
    seen: &mut NetworkObservation,
) -> Result<(), RunFault> {
    seen.settled = true;
    seen.wrong = case.spoilt.is_some();
    seen.frames = count_frames(settled);
    seen.meetings = network_meetings(alloc, network, settled, case)?;
    seen.differing = count_differing(alloc, network, settled, case)?;
    compare_streams(alloc, network, case, settled, seen)
}

/// Repeats the run with more traffic, and adds the comparison of its hops. Adds nothing if that run fails.
fn compare_streams(
    alloc: Global,
    network: &Network<Global>,
    case: &NetworkCase,
    settled: &[BridgeResult<Global>],
    seen: &mut NetworkObservation,
) -> Result<(), RunFault> {
    let loud = NetworkCase {
        talker: case.talker,
        others: case.others.wrapping_add(2_000_000),
        most: 80,
        spoilt: None,
    };
    let Ok(came) = network_inputs(alloc, network.plans(), network.links(), &loud) else {
        return Err(RunFault::NoMemory);
    };
    let Ok(other) = run_network(alloc, network, came, ROUNDS, &mut NoObserver) else {
        return Ok(());
    };
    let done = compare_hops(alloc, network, settled, &other.bridges, seen);
    drop(other);
    done
}

/// Adds the number of compared hops, and of hops whose sections differ.
fn compare_hops(
    alloc: Global,
    network: &Network<Global>,
    one: &[BridgeResult<Global>],
    other: &[BridgeResult<Global>],
    seen: &mut NetworkObservation,
) -> Result<(), RunFault> {
    for stream in network.streams() {
        for hop in stream {
            let Ok(same) = have_same_section(alloc, one, other, *hop) else {
                return Err(RunFault::NoMemory);
            };
            seen.compared = seen.compared.saturating_add(1);
            if !same {
                seen.disturbed = seen.disturbed.saturating_add(1);
            }
        }
    }
    Ok(())
}

/// Returns the report section of a hop.
fn hop_section(
    alloc: Global,
    settled: &[BridgeResult<Global>],
    hop: StreamHop,
) -> Result<String, NoMemory> {
    let StreamHop { bridge, filter } = hop;
    let Some(told) = settled.get(bridge as usize) else {
        return Err(NoMemory);
    };
    if !has_section(&told.outcome, filter) {
        return Err(NoMemory);
    }
    section(alloc, &told.outcome, filter)
}

/// Whether two runs have equal sections of a hop.
fn have_same_section(
    alloc: Global,
    one: &[BridgeResult<Global>],
    other: &[BridgeResult<Global>],
    hop: StreamHop,
) -> Result<bool, NoMemory> {
    let one = hop_section(alloc, one, hop)?;
    let other = hop_section(alloc, other, hop)?;
    Ok(one.as_str() == other.as_str())
}
