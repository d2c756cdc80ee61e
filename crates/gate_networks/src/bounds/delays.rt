//! Measures the delays of a filter's frames in runs.
use crate::bounds::captures::{NearBound, near_capture, random_capture};
use crate::captures::Recording;
use crate::random_numbers::RandomNumbers;
use crate::runs::{find_view, run_without_commands};
use bridge_capture::RunFault;
use bridge_check::Accepted;
use bridge_core::Departure;
use bridge_limits::NoMemory;
use bridge_semantics::StoredOrigin;
use net_run::BridgeResult;
use std::alloc::Global;

/// Number of runs over random captures.
const RUNS: u64 = 200;

/// Returns the delay in ns of a copy that left by `port`, or 0 if it left by another port.
fn departure_delay(origins: &[StoredOrigin], departure: &Departure, port: u8) -> u64 {
    if departure.port != port {
        return 0;
    }
    match origins.get(departure.own.saturating_sub(1) as usize) {
        Some(origin) => departure.done.saturating_sub(origin.origin().at),
        None => 0,
    }
}

/// Returns the longest delay in ns of a filter's copies that left by `port`, or 0 without copies.
fn longest_delay(ran: &BridgeResult<Global>, filter: u32, port: u8) -> u64 {
    let Some(view) = find_view(ran, filter) else {
        return 0;
    };
    let mut longest = 0;
    for departure in &view.departures {
        longest = longest.max(departure_delay(&view.origins, &departure.departure(), port));
    }
    longest
}

/// Runs a bridge with captures at ports 1 and 2, and no frame at port 3. Returns the longest delay of the filter's copies at `port`, in ns.
fn longest_delay_of_captures(
    alloc: Global,
    accepted: &Accepted<Global>,
    captures: [&Recording; 2],
    filter: u32,
    port: u8,
) -> Result<u64, RunFault> {
    let none = Recording::new(alloc);
    let [first, second] = captures;
    let captures = [first.octets(), second.octets(), none.octets()];
    match run_without_commands(alloc, accepted, &captures) {
        Ok(ran) => Ok(longest_delay(&ran, filter, port)),
        Err(fault) => Err(fault),
    }
}

/// Runs a bridge over only the frames near the queue's bound, and returns the longest delay in ns.
pub fn near_bound_delay(
    alloc: Global,
    accepted: &Accepted<Global>,
    frames: NearBound,
    filter: u32,
    port: u8,
) -> Result<u64, RunFault> {
    let made = near_capture(alloc, frames);
    let none = Recording::new(alloc);
    longest_delay_of_captures(alloc, accepted, [&made, &none], filter, port)
}

/// Runs a bridge over two random captures, at ports 1 and 2, and returns the longest delay in ns.
fn random_delay(
    alloc: Global,
    accepted: &Accepted<Global>,
    seed: u64,
    filter: u32,
    port: u8,
) -> Result<u64, RunFault> {
    let mut numbers = RandomNumbers::from_state(seed);
    let first = random_capture(alloc, &mut numbers);
    let second = random_capture(alloc, &mut numbers);
    longest_delay_of_captures(alloc, accepted, [&first, &second], filter, port)
}

/// Returns the longest delay in ns over 200 runs with random captures, each with its own seed.
pub fn longest_random_delay(
    alloc: Global,
    accepted: &Accepted<Global>,
    filter: u32,
    port: u8,
) -> Result<u64, RunFault> {
    let mut longest = 0;
    for seed in 0..RUNS {
        longest = longest.max(random_delay(alloc, accepted, seed, filter, port)?);
    }
    Ok(longest)
}

/// Returns a capture for each port: `capture` at `port`, and `none` at the others.
fn captures_by_port<'a>(
    alloc: Global,
    ports: &[u8],
    port: u8,
    capture: &'a [u8],
    none: &'a [u8],
) -> Result<Vec<&'a [u8]>, NoMemory> {
    let mut captures = Vec::new(alloc);
    for other in ports {
        let is_refused = if *other == port {
            captures.push(capture).is_err()
        } else {
            captures.push(none).is_err()
        };
        if is_refused {
            return Err(NoMemory);
        }
    }
    Ok(captures)
}

/// Runs a bridge with a capture at `port`, and no frame at the other ports.
pub fn run_with_capture(
    alloc: Global,
    accepted: &Accepted<Global>,
    port: u8,
    capture: &Recording,
) -> Result<BridgeResult<Global>, RunFault> {
    let none = Recording::new(alloc);
    let Ok(ports) = accepted.plan().port_numbers(alloc) else {
        return Err(RunFault::NoMemory);
    };
    let Ok(captures) = captures_by_port(alloc, &ports, port, capture.octets(), none.octets()) else {
        return Err(RunFault::NoMemory);
    };
    run_without_commands(alloc, accepted, &captures)
}

/// Returns when the first and the last copy of a filter had left `port`, in ns; 0 without copies.
pub fn done_times(ran: &BridgeResult<Global>, filter: u32, port: u8) -> (u64, u64) {
    let mut first = None;
    let mut last = 0;
    if let Some(view) = find_view(ran, filter) {
        for stored in &view.departures {
            let departure = stored.departure();
            if departure.port == port {
                first = first.or(Some(departure.done));
                last = departure.done;
            }
        }
    }
    (first.unwrap_or(0), last)
}
