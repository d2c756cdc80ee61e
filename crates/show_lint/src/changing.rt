//! Finds schedule changes that change nothing, for the warning `IdleChange`.

use crate::hypercycle::Hypercycle;
use bridge_config::Plan;
use bridge_text::top_level_position;
use std::alloc::Allocator;

/// Returns the line, from 1, of the plan's `[[change]]` if no port or stream gate has a new list. Returns `None` if a list changes, or
/// `text` has no `[[change]]`. `idle_line` of `app_commands` calls it.
pub fn idle_change<A: Allocator + Copy>(text: &[u8], plan: &Plan<A>) -> Option<usize> {
    if Hypercycle::from_plan(plan).change.is_some() {
        return None;
    }
    let text = str::from_utf8(text).ok()?;
    let position = top_level_position(text, "change")?;
    Some(position.line)
}
