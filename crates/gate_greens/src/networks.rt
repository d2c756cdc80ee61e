//! Compares the lines of 500 random networks with runs.

mod coming;
mod drawing;
mod judging;
mod line;
mod shape;
mod trying;

use bridge_capture::RunFault;
use bridge_text::TextBuilder;
use std::alloc::Global;
use trying::{Tally, Tried, try_network};

/// Number of random networks.
const NETWORKS: u64 = 500;

/// Tries all networks, and returns whether no line is refuted.
pub fn run(alloc: Global, said: &mut TextBuilder<Global>) -> Result<bool, RunFault> {
    let mut tally = Tally::default();
    for seed in 1..=NETWORKS {
        if let Some(tried) = try_network(alloc, seed, &mut tally)? {
            if tried.is_wrong {
                put_tried(said, seed, &tried);
            }
        }
    }
    put_tally(said, &tally);
    Ok(is_right(&tally))
}

/// Whether no line is refuted, no frame is stray, every accepted network settled, and each kind occurred often enough.
fn is_right(tally: &Tally) -> bool {
    tally.refuted == 0
        && tally.stray == 0
        && tally.settled == tally.accepted
        && tally.accepted >= NETWORKS / 3
        && tally.passing >= NETWORKS / 10
        && tally.refusable >= NETWORKS / 50
        && tally.bound_only >= NETWORKS / 50
}

/// Adds a network whose line is refuted or whose frames are stray: its file, lines and plans.
fn put_tried(said: &mut TextBuilder<Global>, seed: u64, tried: &Tried) {
    said.put_template(
        "WRONG network of seed {0}\n{a}\n# lines\n{b}\n",
        &[seed],
        &[tried.file.as_str(), tried.lines.as_str()],
    );
    for plan in &tried.plans {
        said.put_template("# plan\n{a}\n", &[], &[plan.as_str()]);
    }
}

/// Adds the counts.
fn put_tally(said: &mut TextBuilder<Global>, tally: &Tally) {
    said.put_template(
        "networks {0} accepted {1} kept {2} settled {3}\n",
        &[tally.drawn, tally.accepted, tally.kept, tally.settled],
        &[],
    );
    said.put_template(
        "lines passing {0} refusable {1} with a bound alone {2} met {3} missed {4}\n",
        &[
            tally.passing,
            tally.refusable,
            tally.bound_only,
            tally.met,
            tally.missed,
        ],
        &[],
    );
    said.put_template(
        "passing lines whose worst is reached {0}, whose best is reached {1}, refusable lines with a loss {2}\n",
        &[tally.worst_reached, tally.best_reached, tally.lossy],
        &[],
    );
    said.put_template(
        "frames {0} delivered {1} stray {2}\nrefuted {3}\n",
        &[tally.frames, tally.delivered, tally.stray, tally.refuted],
        &[],
    );
}
