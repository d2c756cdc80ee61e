//! Holds the base plan in pieces, and the plan that commands address.
ghost use Rattle.std.specs.Prelude.{◌++◌, codes};
ghost use Rattle.bridge_text.specs.Growth.{HasGrown};

use crate::case::split_heading;
use app_failure::Failure;
use bridge_config::{Plan, plan_of};
use bridge_text::TextBuilder;
use std::alloc::Global;

/// Place after all pieces of the base plan, as a heading spells it.
const END: &str = " end";

/// Plans that the cases change.
#[derive(Drop)]
pub struct Bases {
    pieces: String,
    /// Plan that commands address.
    pub plan: Plan<Global>,
}

/// Returns the base plan in pieces, and the plan that commands address: the base plan and the lines `more`.
pub fn make_bases(alloc: Global, pieces: String, more: &str) -> Result<Bases, Failure> {
    let mut text = TextBuilder::new(alloc);
    put_changed(&mut text, pieces.as_str(), END, more);
    let Ok(text) = text.finish() else {
        return Err(Failure::NoMemory);
    };
    match plan_of(alloc, alloc, text.as_bytes()) {
        Ok(plan) => Ok(Bases { pieces, plan }),
        Err(fault) => Err(Failure::Plan(fault)),
    }
}

impl Bases {
    /// Adds the base plan with `lines` in place of a piece, or after all pieces at `end`. Returns whether `place` exists.
    pub fn put_changed_plan(
        &self,
        text: &mut TextBuilder<Global>,
        place: &str,
        lines: &str,
    ) -> bool {
        put_changed(text, self.pieces.as_str(), place, lines)
    }
}

/// Adds the pieces with `lines` in place of a piece, or after all pieces at `end`. Returns whether `place` exists.
fn put_changed(text: &mut TextBuilder<Global>, pieces: &str, place: &str, lines: &str) -> bool {
    let mut is_there = place == END;
    for part in pieces.trim_end().split("\n==").skip(1) {
        let (name, piece) = split_heading(part);
        let is_here = name == place;
        is_there |= is_here;
        put(text, if is_here { lines } else { piece });
    }
    if place == END {
        put(text, lines);
    }
    is_there
}

/// Adds lines, and a line feed.
fn put(text: &mut TextBuilder<Global>, lines: &str)
    ensures { HasGrown text.old (lines.now ++ codes "\n") text.new }
{
    text.put(lines);
    text.put("\n");
}
