//! Compares the bounds and capacities of 500 random groups with runs.

mod drawing;
mod frames;
mod judging;
mod shape;
mod trying;

use bridge_capture::RunFault;
use bridge_text::TextBuilder;
use std::alloc::Global;
use trying::{Tally, Tried, try_groups};

/// Number of random plans with groups.
const PLANS: u64 = 500;

/// Tries all plans, and returns whether no bound and no capacity is refuted.
pub fn run(alloc: Global, said: &mut TextBuilder<Global>) -> Result<bool, RunFault> {
    let mut tally = Tally::default();
    for seed in 1..=PLANS {
        let tried = try_groups(alloc, seed, &mut tally)?;
        if tried.is_wrong {
            put_tried(said, seed, &tried);
        }
    }
    put_tally(said, &tally);
    Ok(is_right(&tally))
}

/// Whether nothing is refuted, and each kind occurred often enough.
fn is_right(tally: &Tally) -> bool {
    tally.shown.count_refuted() == 0
        && tally.accepted >= PLANS / 2
        && tally.metered >= PLANS / 4
        && tally.unmetered >= PLANS / 50
        && tally.lossy >= PLANS / 50
        && tally.near >= PLANS / 10
}

/// Adds a plan whose bounds or capacities are refuted.
fn put_tried(said: &mut TextBuilder<Global>, seed: u64, tried: &Tried) {
    said.put_template(
        "WRONG groups of seed {0}\n{a}\n",
        &[seed],
        &[tried.plan.as_str()],
    );
}

/// Adds the counts.
fn put_tally(said: &mut TextBuilder<Global>, tally: &Tally) {
    said.put_template(
        "groups {0} accepted {1}\nshared queues metered {2} unmetered {3} lossy {4}\n",
        &[
            tally.drawn,
            tally.accepted,
            tally.metered,
            tally.unmetered,
            tally.lossy,
        ],
        &[],
    );
    said.put_template(
        "metered queues with a delay of at least 94 % of the bound {0}, greatest share of a bound {1} permille\n",
        &[tally.near, tally.greatest],
        &[],
    );
    said.put_template(
        "frames {0} full {1}\nlate {2} refused {3} dropped {4} missing {5}\n",
        &[
            tally.shown.frames,
            tally.shown.full,
            tally.shown.late,
            tally.shown.refused,
            tally.shown.dropped,
            tally.shown.missing,
        ],
        &[],
    );
}
