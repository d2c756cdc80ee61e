//! Compares runs of 200 networks with runs of each bridge alone, and with runs with more traffic. Then refuses the allocations of a run,
//! one by one.

mod comparison;
mod inputs;
mod meetings;
mod random_plan;
mod refusals;
mod shape;
mod traffic;
mod trial;

use bridge_capture::RunFault;
use bridge_text::TextBuilder;
use refusals::refuse_growths;
use std::alloc::Global;
use trial::{NetworkObservation, try_network};

/// Number of accepted networks.
const NETWORKS: u64 = 200;

/// Least number of networks that settle.
const SETTLED: u64 = 120;

/// Greatest number of seeds tried.
const SEEDS: u64 = 400;

/// Least number of refused allocations.
const GROWTHS: u64 = 51;

/// Counts over all networks.
#[derive(Clone, Copy, Default)]
struct Counts {
    accepted: u64,
    rings: u64,
    settled: u64,
    /// Numbers of networks that didn't settle, and that didn't settle although no frame can loop.
    unsettled: u64,
    restless: u64,
    /// Number of networks in which a bridge stopped at a damaged capture.
    failed: u64,
    frames: u64,
    /// Numbers of networks in which a frame arrived over a link at the time of a start, a command, or another arrival.
    starts: u64,
    commands: u64,
    arrivals: u64,
    /// Numbers of networks and hops that were compared with a run with more traffic.
    pairs: u64,
    compared: u64,
    wrong: u64,
}

/// Whether no result differs.
fn is_right(seen: &NetworkObservation) -> bool {
    seen.differing == 0 && seen.disturbed == 0 && !seen.wrong
}

/// Returns `count`, plus one if `more` is true.
fn one_more(count: u64, more: bool) -> u64 {
    if more { count.saturating_add(1) } else { count }
}

/// Returns the counts with a network added.
fn add_network(counts: Counts, seen: &NetworkObservation) -> Counts {
    Counts {
        accepted: one_more(counts.accepted, seen.accepted),
        rings: one_more(counts.rings, seen.ring),
        settled: one_more(counts.settled, seen.settled),
        unsettled: one_more(counts.unsettled, seen.unsettled),
        restless: one_more(counts.restless, seen.unsettled && seen.calm),
        failed: one_more(counts.failed, seen.stopped),
        frames: counts.frames.saturating_add(seen.frames),
        starts: one_more(counts.starts, seen.meetings.start),
        commands: one_more(counts.commands, seen.meetings.command),
        arrivals: one_more(counts.arrivals, seen.meetings.arrival),
        pairs: one_more(counts.pairs, seen.compared > 0),
        compared: counts.compared.saturating_add(seen.compared),
        wrong: one_more(counts.wrong, !is_right(seen)),
    }
}

/// Whether frames arrived over links at times of starts, of commands and of other arrivals.
fn has_each_meeting(counts: &Counts) -> bool {
    counts.starts > 0 && counts.commands > 0 && counts.arrivals > 0
}

/// Whether no result differs, and each kind of network occurred often enough.
fn are_right(counts: &Counts) -> bool {
    counts.wrong == 0
        && counts.accepted == NETWORKS
        && counts.settled >= SETTLED
        && counts.rings > 0
        && counts.failed > 0
        && has_each_meeting(counts)
}

/// Reports the wrong networks and the counts, and returns whether all is right.
pub fn run(alloc: Global, said: &mut TextBuilder<Global>) -> Result<bool, RunFault> {
    let mut counts = Counts::default();
    for seed in 1..=SEEDS {
        if counts.accepted < NETWORKS {
            let seen = try_network(alloc, seed)?;
            counts = add_network(counts, &seen);
            if !is_right(&seen) {
                report_wrong_network(said, seed, &seen);
            }
        }
    }
    report_counts(said, &counts);
    let growths = refuse_growths(alloc, said);
    Ok(are_right(&counts) && growths >= GROWTHS)
}

/// Reports a network in which a result differs, or which ended in an unexpected way.
fn report_wrong_network(said: &mut TextBuilder<Global>, seed: u64, seen: &NetworkObservation) {
    let word = if seen.wrong { ", ended otherwise" } else { "" };
    said.put_template(
        "WRONG seed {0} differing {1} disturbed {2} of {3}{a}\n",
        &[seed, seen.differing, seen.disturbed, seen.compared],
        &[word],
    );
}

/// Reports the counts.
fn report_counts(said: &mut TextBuilder<Global>, counts: &Counts) {
    said.put_template(
        "networks {0} rings {1}\nsettled {2} not settled {3} failed {4}\nnot settled where nothing goes round {5}\n",
        &[
            counts.accepted,
            counts.rings,
            counts.settled,
            counts.unsettled,
            counts.failed,
            counts.restless,
        ],
        &[],
    );
    said.put_template(
        "frames {0}\nover a link at the moment of a start {1} of a command {2} of another frame {3}\n",
        &[
            counts.frames,
            counts.starts,
            counts.commands,
            counts.arrivals,
        ],
        &[],
    );
    said.put_template(
        "compared beside other traffic: networks {0} hops {1}\nwrong {2}\n",
        &[counts.pairs, counts.compared, counts.wrong],
        &[],
    );
}
