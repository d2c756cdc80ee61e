//! The part of a plan or run that a picture shows: its time span, ports and filters.

use bridge_text::Span;
use show_lint::Hypercycle;

/// Longest time in ns that a plan's picture shows before or after a schedule change. A longer hypercycle is cut.
pub const LONGEST_HYPERCYCLE: u64 = 1_000_000_000;

/// Requested part of a plan or run: start and end in ns, ports and filters. `None` stands for the default, an empty list for all.
#[derive(Clone, Copy)]
pub struct Selection<'a> {
    pub from: Option<u64>,
    pub to: Option<u64>,
    pub ports: &'a [u32],
    pub filters: &'a [u32],
}

impl Selection<'_> {
    /// Returns whether the picture shows port `port`: the arguments name it, or they name no port. Drawing functions leave out other ports,
    /// because they ask this first.
    pub(crate) fn has_port(&self, port: u8) -> bool {
        self.ports.is_empty() || self.ports.contains(&u32::from(port))
    }

    /// Returns whether the picture shows filter `filter`: the arguments name it, or they name no filter. Drawing functions leave out other
    /// filters, because they ask this first.
    pub(crate) fn has_filter(&self, filter: u32) -> bool {
        self.filters.is_empty() || self.filters.contains(&filter)
    }

    /// Returns the requested span, at least 1 ns long. A start or end that isn't given is taken from `whole`. `draw_plan` and
    /// `select_frames` call it.
    pub(crate) fn span(&self, whole: Span) -> Span {
        let from = self.from.unwrap_or(whole.from);
        let to = self.to.unwrap_or(whole.to).max(from.saturating_add(1));
        Span { from, to }
    }
}

/// Returns how much of a hypercycle a picture shows before or after a schedule change, in ns; 1 ms without a list. `plan_span` and
/// `put_hypercycle` call it.
pub(crate) fn shown_length(times: Hypercycle) -> u64 {
    match times.length {
        0 => 1_000_000,
        length => length.min(LONGEST_HYPERCYCLE),
    }
}

/// Returns the default span of a plan's picture: one hypercycle from 0, or one before and one after the schedule change. Each lasts at most
/// 1 s. `draw_plan` calls it.
pub(crate) fn plan_span(times: Hypercycle) -> Span {
    let (at, shown) = (times.change.unwrap_or(0), shown_length(times));
    let (from, to) = (at.saturating_sub(shown), at.saturating_add(shown));
    Span { from, to }
}
