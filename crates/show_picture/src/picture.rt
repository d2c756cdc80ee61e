//! A picture of part of a plan or run, on a page. All lengths are tenths of a pixel.
ghost use Rattle.std.specs.Prelude.{◌≤◌, IfOk, length, string_bytes};

use crate::lane::Window;
use bridge_limits::NoMemory;
use bridge_text::{Page, Span};
use std::alloc::Global;

/// Styles of all shapes.
const STYLES: &str = ":root{color-scheme:light dark}\
text{font:110px system-ui,sans-serif;fill:#222}.h{font-weight:700;font-size:150px}.b{font-weight:700}.s{font-size:90px;fill:#666}.r{text-anchor:end}.m{text-anchor:middle}\
.page{fill:#fff}.lane{fill:#f3f4f6}.open{fill:#c3cbd6}.own{fill:#7fb069}.gate{fill:#9db8d9}.hatch{fill:url(#h)}.h0{stroke:#111;stroke-width:22;opacity:.6}\
.grid{stroke:#8a94a3;stroke-width:6;opacity:.35}.change{stroke:#c0392b;stroke-width:14;stroke-dasharray:60 40}.grey{fill:#8a8f98}.e{stroke:#111;stroke-width:10}\
.c0{fill:#2a7de1}.c1{fill:#e4572e}.c2{fill:#29a37a}.c3{fill:#a14fc4}.c4{fill:#d9a400}.c5{fill:#16a3b8}.c6{fill:#c2447a}.c7{fill:#7a7f3c}\
@media(prefers-color-scheme:dark){text{fill:#e6e6e6}.s{fill:#a0a0a0}.page{fill:#16181c}.lane{fill:#22262c}.open{fill:#4a525e}.own{fill:#5c8a49}.gate{fill:#4b6a91}.h0{stroke:#fff}.e{stroke:#fff}}";

/// Picture of a plan or run under construction. The files of this crate add shapes to its page.
#[derive(Drop)]
pub(crate) struct Picture {
    /// Time of the schedule change in ns, if any.
    pub change: Option<u64>,
    /// Time span that the picture shows.
    pub span: Span,
    /// Page with all shapes drawn up to now.
    pub page: Page,
    /// Stream gates that have a lane, each with its port; port 0 in the picture of a whole plan.
    pub gates: Vec<(u8, u32)>,
    /// Largest number of windows that a lane draws; a lane with more is hatched.
    pub window_limit: usize,
    /// Number of hatched lanes.
    pub hatched_lanes: u64,
    /// Port (0 for none) and class at fault, and whether only shared windows are at fault.
    pub fault: (u8, u8, bool),
    /// Numbers of the filters that the current lane names.
    pub named: Vec<u32>,
    /// Open intervals of the current lane.
    pub windows: Vec<Window>,
    /// Whether memory ran out.
    pub is_refused: bool,
}

impl Picture {
    /// Returns an empty picture for this time span. `change` is the time of the schedule change in ns, if the plan has one. `draw_plan` and
    /// `draw_run` call it first.
    pub(crate) fn new(alloc: Global, change: Option<u64>, span: Span) -> Picture {
        Picture {
            change,
            span,
            page: Page::new(alloc),
            gates: Vec::new(alloc),
            window_limit: 0,
            hatched_lanes: 0,
            fault: (0, 0, false),
            named: Vec::new(alloc),
            windows: Vec::new(alloc),
            is_refused: false,
        }
    }

    /// Returns the picture as SVG text of at most 2,000,000 octets. Returns `NoMemory` if memory ran out at any step. `draw_plan` and
    /// `draw_run` call it.
    pub(crate) fn finish(self, alloc: Global) -> Result<String, NoMemory>
        ensures { IfOk result (λ text. length (string_bytes text) ≤ 2000000) }
    {
        if self.is_refused {
            return Err(NoMemory);
        }
        self.page.finish(alloc, STYLES)
    }
}
