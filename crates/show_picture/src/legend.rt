//! Legend of a picture of a plan or run: meanings of lanes, colours and marks.
use crate::lane::digit_count;
use crate::picture::Picture;
use bridge_text::{LegendRow, Sample};

/// Styles of the filters' colours, by colour number.
const COLOURS: [&str; 8] = ["c0", "c1", "c2", "c3", "c4", "c5", "c6", "c7"];

/// Styles of the filters' colours with an edge, for protected filters, by colour number.
const EDGED: [&str; 8] = [
    "c0 e", "c1 e", "c2 e", "c3 e", "c4 e", "c5 e", "c6 e", "c7 e",
];

/// Returns the style of a filter's colour. `is_edged` is true for protected filters. `put_filter_legend`, `put_wait` and 2 more call it.
pub(crate) fn colour_style(colour: u64, is_edged: bool) -> &'static str {
    let place = (colour % 8) as usize;
    if is_edged {
        EDGED[place]
    } else {
        COLOURS[place]
    }
}

/// Legend rows of lanes and their windows, in pictures of plans without groups.
const LANES: &[LegendRow] = &[
    (Sample::Bar, "own", "window of a protected filter"),
    (Sample::Bar, "open", "window of other classes"),
    (Sample::Bar, "hatch", "too much to draw"),
    (
        Sample::Nothing,
        "",
        "number at a lane: its protected filter",
    ),
];

/// Legend rows of lanes and their windows, in pictures of plans with groups.
const GROUP_LANES: &[LegendRow] = &[
    (
        Sample::Bar,
        "own",
        "window of a protected filter or a group",
    ),
    (Sample::Bar, "open", "window of other classes"),
    (Sample::Bar, "hatch", "too much to draw"),
    (
        Sample::Nothing,
        "",
        "numbers at a lane: its protected or grouped filters",
    ),
];

/// Legend rows of stream gates in a plan's picture.
pub(crate) const GATES: &[LegendRow] = &[
    (
        Sample::Bar,
        "gate",
        "open stream gate, with the priority that it assigns",
    ),
    (Sample::Nothing, "", "number at a gate: its filter"),
];

/// Legend rows of a run's picture: frames, marks and stream gates.
pub(crate) const RUN: &[LegendRow] = &[
    (Sample::Waits, "grey", "arrival and wait"),
    (Sample::Due, "grey", "latest end by the bound"),
    (Sample::TipBelow, "grey", "dropped by a queue"),
    (Sample::TipAbove, "grey", "refused by its filter"),
    (
        Sample::Bar,
        "gate",
        "open stream gate of a protected filter, by its list",
    ),
];

/// Legend rows of the picture of a run under a plan with groups: frames, marks and stream gates.
pub(crate) const GROUP_RUN: &[LegendRow] = &[
    (Sample::Waits, "grey", "arrival and wait"),
    (Sample::Due, "grey", "latest end by the bound"),
    (Sample::TipBelow, "grey", "dropped by a queue"),
    (Sample::TipAbove, "grey", "refused by its filter"),
    (
        Sample::Bar,
        "gate",
        "open stream gate of a protected or grouped filter, by its list",
    ),
];

impl Picture {
    /// Draws the legend row of a filter: a sample of its colour, its number, and whether it is protected (`is_protected`) or grouped
    /// (`is_grouped`). `put_shown_filters` calls it.
    pub(crate) fn put_filter_legend(
        &mut self,
        filter: u32,
        is_protected: bool,
        is_grouped: bool,
        colour: u64,
    ) {
        let style = colour_style(colour, is_protected);
        let (words, letters) = match (is_protected, is_grouped) {
            (true, _) => ("{0} protected", 10),
            (false, true) => ("{0} grouped", 8),
            (false, false) => ("{0} unprotected", 12),
        };
        let letters = digit_count(filter).saturating_add(letters);
        self.page
            .put_legend_row((Sample::Bar, style, words), letters, u64::from(filter));
    }

    /// Writes the legend: lanes, `rows`, and if present the schedule change and the fault. `has_groups` is true if the plan has a grouped
    /// filter. `put_ports` calls it.
    pub(crate) fn put_legend(&mut self, rows: &[LegendRow], has_groups: bool) {
        self.page.begin_legend();
        let lanes = if has_groups { GROUP_LANES } else { LANES };
        for row in lanes.iter().chain(rows) {
            self.page.put_legend_row(*row, row.2.len(), 0);
        }
        if self.change.is_some() {
            self.page
                .put_legend_row((Sample::Line, "change", "schedule change"), 15, 0);
        }
        if self.fault.0 > 0 {
            self.page
                .put_legend_row((Sample::Bar, "b c1", "cause of the fault"), 18, 0);
        }
    }
}
