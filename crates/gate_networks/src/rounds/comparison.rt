//! Compares the run of a network with the run of each of its bridges alone.
use crate::rounds::inputs::{NetworkCase, bridge_commands, port_capture};
use crate::rounds::meetings::{Meetings, bridge_meetings};
use crate::runs::{find_view, run_captures, sent_capture};
use bridge_capture::RunFault;
use bridge_check::Accepted;
use bridge_core::{Outcome, View};
use bridge_limits::NoMemory;
use bridge_report::report;
use net_model::{BridgePort, Link, Network};
use net_run::{BridgeResult, delay_capture};
use std::alloc::Global;

/// Returns the port at the other end of a port's link, and the link's delay in ns.
fn peer_and_delay(links: &[Link], end: BridgePort) -> Option<(BridgePort, u64)> {
    for link in links {
        if link.one == end {
            return Some((link.other, link.delay));
        }
        if link.other == end {
            return Some((link.one, link.delay));
        }
    }
    None
}

/// Returns the capture of the frames that arrived at a port, over its link or from outside.
fn port_input(
    alloc: Global,
    links: &[Link],
    settled: &[BridgeResult<Global>],
    case: &NetworkCase,
    end: BridgePort,
) -> Result<Vec<u8>, NoMemory> {
    let Some((from, delay)) = peer_and_delay(links, end) else {
        return port_capture(alloc, links, case, end.bridge, end.port);
    };
    match settled.get(from.bridge as usize) {
        Some(told) => delay_capture(alloc, sent_capture(told, from.port), delay),
        None => Err(NoMemory),
    }
}

/// Returns the captures of the frames that arrived at ports 1 to 4 of a bridge.
fn port_inputs(
    alloc: Global,
    links: &[Link],
    settled: &[BridgeResult<Global>],
    case: &NetworkCase,
    bridge: u16,
) -> Result<Vec<Vec<u8>>, NoMemory> {
    let mut captures = Vec::new(alloc);
    for port in 1..5u8 {
        let end = BridgePort { bridge, port };
        captures.push(port_input(alloc, links, settled, case, end)?)?;
    }
    Ok(captures)
}

/// Whether two runs have equal reports, port counts, arrivals and sent frames.
fn is_same_result(
    alloc: Global,
    told: &BridgeResult<Global>,
    ran: &BridgeResult<Global>,
) -> Result<bool, RunFault> {
    let (Ok(one), Ok(other)) = (report(alloc, &told.outcome), report(alloc, &ran.outcome)) else {
        return Err(RunFault::NoMemory);
    };
    Ok(
        one.as_str() == other.as_str()
            && have_same_counts(&told.outcome, &ran.outcome)
            && have_same_origins(told, ran)
            && have_same_captures(told, ran),
    )
}

/// Whether the frames of a filter arrived at equal times and ports in another run.
fn has_same_arrivals(ran: &BridgeResult<Global>, filter: u32, one: &View<Global>) -> bool {
    match find_view(ran, filter) {
        Some(other) => {
            one.origins.len() == other.origins.len()
                && one
                    .origins
                    .iter()
                    .zip(&other.origins)
                    .all(|(a, b)| a.origin() == b.origin())
        }
        None => false,
    }
}

/// Whether the frames of each filter arrived at equal times and ports. No report contains these arrivals.
fn have_same_origins(told: &BridgeResult<Global>, ran: &BridgeResult<Global>) -> bool {
    let mut are_same = told.outcome.filters.len() == ran.outcome.filters.len();
    for (filter, view) in &told.outcome.filters {
        are_same = has_same_arrivals(ran, *filter, view) && are_same;
    }
    are_same
}

/// Whether two runs have equal counts at each port.
fn have_same_counts(one: &Outcome<Global>, other: &Outcome<Global>) -> bool {
    one.ports.as_slice() == other.ports.as_slice()
}

/// Whether equal frames left ports 1 to 4.
fn have_same_captures(told: &BridgeResult<Global>, ran: &BridgeResult<Global>) -> bool {
    let mut are_same = told.taps.len() == ran.taps.len();
    for port in 1..5u8 {
        are_same = sent_capture(told, port) == sent_capture(ran, port) && are_same;
    }
    are_same
}

/// Runs a bridge alone over captures of ports 1 to 4.
fn run_alone(
    alloc: Global,
    accepted: &Accepted<Global>,
    case: &NetworkCase,
    bridge: u16,
    captures: &[Vec<u8>],
) -> Result<BridgeResult<Global>, RunFault> {
    let [first, second, third, fourth] = captures else {
        return Err(RunFault::NoMemory);
    };
    let captures = [
        first.as_slice(),
        second.as_slice(),
        third.as_slice(),
        fourth.as_slice(),
    ];
    let Ok(commands) = bridge_commands(alloc, accepted, case, bridge) else {
        return Err(RunFault::NoMemory);
    };
    run_captures(alloc, accepted, &commands, &captures)
}

/// Whether a bridge alone, over the frames that arrived in the network, has the result of the network's run.
fn is_same_alone(
    alloc: Global,
    links: &[Link],
    accepted: &Accepted<Global>,
    settled: &[BridgeResult<Global>],
    case: &NetworkCase,
    bridge: u16,
) -> Result<bool, RunFault> {
    let Some(told) = settled.get(bridge as usize) else {
        return Ok(false);
    };
    let Ok(captures) = port_inputs(alloc, links, settled, case, bridge) else {
        return Err(RunFault::NoMemory);
    };
    match run_alone(alloc, accepted, case, bridge, &captures) {
        Ok(ran) => is_same_result(alloc, told, &ran),
        Err(fault) => Err(fault),
    }
}

/// Returns the number of bridges whose result alone differs from the result in the network.
pub fn count_differing(
    alloc: Global,
    network: &Network<Global>,
    settled: &[BridgeResult<Global>],
    case: &NetworkCase,
) -> Result<u64, RunFault> {
    let mut count = 0u64;
    let mut bridge = 0u16;
    for accepted in network.plans() {
        if !is_same_alone(alloc, network.links(), accepted, settled, case, bridge)? {
            count = count.saturating_add(1);
        }
        bridge = bridge.saturating_add(1);
    }
    Ok(count)
}

/// Returns which other events happened when frames arrived over links of the network.
pub fn network_meetings(
    alloc: Global,
    network: &Network<Global>,
    settled: &[BridgeResult<Global>],
    case: &NetworkCase,
) -> Result<Meetings, RunFault> {
    let mut meetings = Meetings::default();
    let mut bridge = 0u16;
    for told in settled {
        let Some(accepted) = network.plans().get(bridge as usize) else {
            return Ok(meetings);
        };
        let Ok(commands) = bridge_commands(alloc, accepted, case, bridge) else {
            return Err(RunFault::NoMemory);
        };
        meetings = bridge_meetings(&told.outcome, &commands, network.links(), bridge, meetings);
        bridge = bridge.saturating_add(1);
    }
    Ok(meetings)
}

/// Returns the number of frames that arrived at the ports of all bridges.
pub fn count_frames(settled: &[BridgeResult<Global>]) -> u64 {
    let mut count = 0u64;
    for told in settled {
        for (_, port) in &told.outcome.ports {
            count = count.saturating_add(port.frames);
        }
    }
    count
}
