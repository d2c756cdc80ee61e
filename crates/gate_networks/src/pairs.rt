//! Compares the test for stray frames with runs over many kinds of frames.
//!
//! A generator draws 500 pairs of linked bridges from fixed seeds.

mod own_frames;
mod random_plan;
mod sample_frames;
mod trial;

use bridge_capture::RunFault;
use bridge_text::TextBuilder;
use std::alloc::Global;
use trial::{PairObservation, TestResult, sample_captures, try_pair};

/// Number of pairs.
const PAIRS: u64 = 500;

/// Least number of accepted pairs, and of pairs that aren't closed.
const FIFTH: u64 = 100;

/// Counts over all pairs.
#[derive(Clone, Copy, Default)]
struct Counts {
    accepted: u64,
    not_closed: u64,
    not_fed: u64,
    other: u64,
    foreign: u64,
    taken: u64,
    /// Number of pairs that are refused as not closed although no hop took a foreign frame.
    only_said: u64,
    wrong: u64,
}

/// Whether the tests of the hops and of the network agree, and no hop took a frame that its test excludes.
fn is_right(seen: &PairObservation) -> bool {
    seen.wrong == 0
        && seen.said != TestResult::Other
        && (seen.strays > 0) == (seen.said == TestResult::NotClosed)
}

/// Returns `count`, plus one if `more` is true.
fn one_more(count: u64, more: bool) -> u64 {
    if more { count.saturating_add(1) } else { count }
}

/// Returns the counts with a pair added.
fn add_pair(counts: Counts, seen: &PairObservation) -> Counts {
    Counts {
        accepted: one_more(counts.accepted, seen.said == TestResult::Accepted),
        not_closed: one_more(counts.not_closed, seen.said == TestResult::NotClosed),
        not_fed: one_more(counts.not_fed, seen.said == TestResult::NotFed),
        other: one_more(counts.other, seen.said == TestResult::Other),
        foreign: counts.foreign.saturating_add(seen.foreign),
        taken: counts.taken.saturating_add(seen.taken),
        only_said: one_more(
            counts.only_said,
            seen.said == TestResult::NotClosed && seen.taken == 0,
        ),
        wrong: one_more(counts.wrong, !is_right(seen)),
    }
}

/// Whether no pair is wrong, and at least `FIFTH` pairs are accepted and `FIFTH` aren't closed.
fn are_right(counts: &Counts) -> bool {
    counts.wrong == 0 && counts.accepted >= FIFTH && counts.not_closed >= FIFTH
}

/// Reports the wrong pairs and the counts, and returns whether all is right.
pub fn run(alloc: Global, said: &mut TextBuilder<Global>) -> Result<bool, RunFault> {
    let sorts = sample_captures(alloc);
    let mut counts = Counts::default();
    for seed in 1..=PAIRS {
        let seen = try_pair(alloc, &sorts, seed)?;
        counts = add_pair(counts, &seen);
        if !is_right(&seen) {
            report_wrong_pair(said, seed, &seen);
        }
    }
    report_counts(said, &counts);
    Ok(are_right(&counts))
}

/// Reports a wrong pair.
fn report_wrong_pair(said: &mut TextBuilder<Global>, seed: u64, seen: &PairObservation) {
    let word = match seen.said {
        TestResult::Accepted => "accepted",
        TestResult::NotClosed => "not closed",
        TestResult::NotFed => "not fed",
        TestResult::Other => "other",
    };
    said.put_template(
        "WRONG seed {0} {a} strays {1} foreign {2} taken {3} wrong {4}\n",
        &[seed, seen.strays, seen.foreign, seen.taken, seen.wrong],
        &[word],
    );
}

/// Reports the results of the tests, and the frames that arrived over the links.
fn report_counts(said: &mut TextBuilder<Global>, counts: &Counts) {
    said.put_template(
        "pairs {0} accepted {1} not closed {2} not fed {3} other {4}\n",
        &[
            PAIRS,
            counts.accepted,
            counts.not_closed,
            counts.not_fed,
            counts.other,
        ],
        &[],
    );
    said.put_template(
        "frames of no hop over the links {0} taken by a hop {1}\nnot closed though none was taken {2}\nwrong {3}\n",
        &[counts.foreign, counts.taken, counts.only_said, counts.wrong],
        &[],
    );
}
