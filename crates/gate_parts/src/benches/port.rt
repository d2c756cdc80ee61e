//! Measures starts and offers of a port with a list of 256 entries.

use super::nanos;
use crate::words::{Fault, Output};
use bridge_cycle::{CyclicList, Egress};
use bridge_frame::Speed;
use bridge_port::{Item, Port};
use std::alloc::{AllocError, Global};
use std::io;
use std::rt::Clock;
use std::time::{Duration, Instant};

/// Queue capacity in frames.
const ROOM: u16 = 64;

/// Interval of an entry in ns, and cycle time of 256 entries.
const TURN: u64 = 3_906;

const CYCLE: u64 = 1_000_000;

/// States that open each class once, from 0 to 7.
const EACH_CLASS: [u8; 8] = [1, 2, 4, 8, 16, 32, 64, 128];

/// States that open no class, and states that open all classes in the last entry.
const SHUT: [u8; 8] = [0; 8];

const LAST_OPEN: [u8; 8] = [0, 0, 0, 0, 0, 0, 0, 255];

/// Number of calls, and their time in ns.
#[derive(Clone, Copy)]
struct Tally {
    count: u64,
    nanos: u64,
}

/// Makes starts and offers, few or enough to measure, and adds their rates.
pub fn measure(clock: &impl Clock, said: &mut Output, measures: bool) -> io::Result<()> {
    let (rounds, long_rounds, fills) = if measures {
        (1_000_000, 20_000, 2_000)
    } else {
        (600, 20, 1)
    };
    let name = "starts, each class open in turn";
    measure_starts(clock, said, name, EACH_CLASS, EACH_CLASS, rounds)?;
    let name = "starts, all classes open in the last entry";
    measure_starts(clock, said, name, SHUT, LAST_OPEN, long_rounds)?;
    measure_offers(clock, said, fills)
}

/// Measures starts of a port with eight full queues. Each start is followed by an offer to its queue.
fn measure_starts(
    clock: &impl Clock,
    said: &mut Output,
    name: &str,
    first: [u8; 8],
    last: [u8; 8],
    rounds: u64,
) -> io::Result<()> {
    let Ok(mut port) = make_port(said.alloc, first, last) else {
        return Err(io::Error::from(io::ErrorKind::OutOfMemory));
    };
    fill(&mut port);
    let timed = time_starts(clock, &mut port, rounds);
    drop(port);
    match timed {
        Ok(tally) => report(said, name, tally, rounds),
        Err(fault) => Err(fault),
    }
}

/// Measures `rounds` starts of a full port, each followed by an offer to its queue.
fn time_starts(clock: &impl Clock, port: &mut Port<u32, Global>, rounds: u64) -> io::Result<Tally> {
    let begin = Instant::now(clock)?;
    let count = count_starts(port, rounds);
    make_tally(count, begin.elapsed(clock))
}

fn count_starts(port: &mut Port<u32, Global>, rounds: u64) -> u64 {
    let mut count = 0;
    for round in 0..rounds {
        let Some(class) = start_one(port) else {
            break;
        };
        offer_one(port, class);
        count = round + 1;
    }
    count
}

/// Returns a tally of `count` calls in a measured time.
fn make_tally(count: u64, time: io::Result<Duration>) -> io::Result<Tally> {
    match time {
        Ok(time) => Ok(Tally {
            count,
            nanos: nanos(time),
        }),
        Err(fault) => Err(fault),
    }
}

/// Measures the offers that fill the queues of `fills` new ports, and makes their starts after the measurement.
fn measure_offers(clock: &impl Clock, said: &mut Output, fills: u64) -> io::Result<()> {
    let mut count = 0u64;
    let mut nanos = 0u64;
    for _ in 0..fills {
        let tally = count_offers(clock, said.alloc)?;
        count = count.saturating_add(tally.count);
        nanos = nanos.saturating_add(tally.nanos);
    }
    let tally = Tally { count, nanos };
    report(said, "offers", tally, fills.saturating_mul(512))
}

fn count_offers(clock: &impl Clock, alloc: Global) -> io::Result<Tally> {
    let Ok(mut port) = make_port(alloc, EACH_CLASS, EACH_CLASS) else {
        return Err(io::Error::from(io::ErrorKind::OutOfMemory));
    };
    let tally = time_offers(clock, &mut port);
    drop(port);
    tally
}

/// Measures the offers that fill the queues of a new port, then makes their starts. Returns the tally of offers.
fn time_offers(clock: &impl Clock, port: &mut Port<u32, Global>) -> io::Result<Tally> {
    let begin = Instant::now(clock)?;
    let taken = fill(port);
    let time = begin.elapsed(clock);
    make_tally(start_all(port, taken), time)
}

/// Makes `taken` starts, and returns how many give an item as offered.
fn start_all(port: &mut Port<u32, Global>, taken: u64) -> u64 {
    let mut count = 0u64;
    for _ in 0..taken {
        if start_one(port).is_some() {
            count = count.saturating_add(1);
        }
    }
    count
}

/// Adds the rate of calls. Fails if their number isn't `wanted`.
fn report(said: &mut Output, name: &str, tally: Tally, wanted: u64) -> io::Result<()> {
    let count = tally.count;
    let nanos = tally.nanos.max(1);
    let each = nanos / count.max(1);
    let rate = count.saturating_mul(1_000_000_000) / nanos;
    said.text.put_template(
        "{a}: {0} in {1} ns, {2} ns each, {3} a second\n",
        &[count, nanos, each, rate],
        &[name],
    );
    if count == wanted {
        Ok(())
    } else {
        Err(io::Error::other("a start was missed or an offer refused"))
    }
}

/// Returns a port with a list of 256 entries: 31 times the states `first`, then the states `last`.
fn make_port(alloc: Global, first: [u8; 8], last: [u8; 8]) -> Result<Port<u32, Global>, Fault> {
    let list = make_list(alloc, first, last)?;
    Ok(Port::new(
        alloc,
        Speed::Mbps1000,
        Some(Egress::Cyclic(list)),
        [ROOM; 8],
    )?)
}

fn make_list(
    alloc: Global,
    first: [u8; 8],
    last: [u8; 8],
) -> Result<CyclicList<u8, Global>, Fault> {
    let mut entries = Vec::new(alloc);
    match push_all(&mut entries, first, last) {
        Ok(()) => Ok(CyclicList::new(alloc, 0, CYCLE, entries)?),
        Err(_) => Err(Fault::NoMemory),
    }
}

fn push_all(entries: &mut Vec<(u8, u64)>, first: [u8; 8], last: [u8; 8]) -> Result<(), AllocError> {
    for _ in 0..31 {
        push_states(entries, first)?;
    }
    push_states(entries, last)
}

fn push_states(entries: &mut Vec<(u8, u64)>, states: [u8; 8]) -> Result<(), AllocError> {
    for state in states {
        entries.push((state, TURN))?;
    }
    Ok(())
}

/// Offers a frame of 60 to 67 octets at the earliest possible time, and returns whether the frame was queued.
fn offer_one(port: &mut Port<u32, Global>, class: u8) -> bool {
    let t = port.earliest();
    if class >= 8 || t >= 4_000_000_000_000_000_000 || port.offered() >= 16_000_000 {
        return false;
    }
    let len = 60 + u32::from(class);
    port.offer(t, class, Item { len, load: len }).is_ok()
}

/// Makes the next start, and returns its class if the item is as offered.
fn start_one(port: &mut Port<u32, Global>) -> Option<u8> {
    match port.next_start() {
        Some(_) => {
            let (item, class) = port.start();
            if item.len == item.load {
                Some(class)
            } else {
                None
            }
        }
        None => None,
    }
}

/// Fills the eight queues, and returns the number of queued frames.
fn fill(port: &mut Port<u32, Global>) -> u64 {
    let mut count = 0u64;
    for _ in 0..ROOM {
        for class in 0..8 {
            if offer_one(port, class) {
                count = count.saturating_add(1);
            }
        }
    }
    count
}
