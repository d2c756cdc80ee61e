//! Compares the figures of 2,000 random plans with runs.

mod drawing;
mod frames;
mod judging;
mod shape;
mod trying;

use bridge_capture::RunFault;
use bridge_text::TextBuilder;
pub use judging::{add_if, is_pass};
use std::alloc::Global;
use trying::{Tally, Tried, try_plan};

/// Number of random plans.
const PLANS: u64 = 2_000;

/// Tries all plans, and returns whether no figure is refuted.
pub fn run(alloc: Global, said: &mut TextBuilder<Global>) -> Result<bool, RunFault> {
    let mut tally = Tally::default();
    for seed in 1..=PLANS {
        let tried = try_plan(alloc, seed, &mut tally)?;
        if tried.is_wrong {
            put_tried(said, seed, &tried);
        }
    }
    put_tally(said, &tally);
    Ok(is_right(&tally))
}

/// Whether no figure is refuted, no frame is stray, no traffic file is refused, and each kind occurred often enough.
fn is_right(tally: &Tally) -> bool {
    tally.shown.refuted == 0
        && tally.shown.stray == 0
        && tally.unsuited == 0
        && tally.accepted >= PLANS / 3
        && tally.passing >= PLANS / 10
        && tally.refusable >= PLANS / 10
        && tally.nowhere > 0
}

/// Adds a plan whose figures are refuted or whose frames are stray, and its traffic file.
fn put_tried(said: &mut TextBuilder<Global>, seed: u64, tried: &Tried) {
    said.put_template(
        "WRONG plan of seed {0}\n{a}\n# traffic\n{b}\n",
        &[seed],
        &[tried.plan.as_str(), tried.traffic.as_str()],
    );
}

/// Adds the counts.
fn put_tally(said: &mut TextBuilder<Global>, tally: &Tally) {
    said.put_template(
        "plans {0} accepted {1} unsuited {2} kept {3}\n",
        &[tally.drawn, tally.accepted, tally.unsuited, tally.kept],
        &[],
    );
    said.put_template(
        "lines passes {0} refusable {1} nowhere {2} met {3} missed {4}\n",
        &[
            tally.passing,
            tally.refusable,
            tally.nowhere,
            tally.met,
            tally.missed,
        ],
        &[],
    );
    said.put_template(
        "passing lines whose worst is reached {0}, whose best is reached {1}\n",
        &[tally.worst_reached, tally.best_reached],
        &[],
    );
    said.put_template(
        "refusable plans with a loss {4}\nframes {0} stray {1} lost {2}\nrefuted {3}\n",
        &[
            tally.shown.frames,
            tally.shown.stray,
            tally.shown.lost,
            tally.shown.refuted,
            tally.lossy,
        ],
        &[],
    );
}
