//! The picture of a network run that `net --picture` draws: one row for each hop of each stream, with its frames over time.
ghost use Rattle.std.specs.Prelude.{◌≤◌, IfOk, length, string_bytes};

use crate::copy_counting::HopRun;
use crate::lanes::{put_window, put_windows};
use crate::rows::put_hop_row;
use bridge_cycle::Egress;
use bridge_limits::NoMemory;
use bridge_semantics::View;
use bridge_text::{Bar, Element, Shapes, Size, Span, TextBuilder, picture_head, text_line};
use net_model::Link;
use std::alloc::{Allocator, Global};

/// Left edge of the time axis, in pixels.
pub(crate) const LEFT_MARGIN: u64 = 220;

/// Width of the time axis in pixels.
pub(crate) const TIME_WIDTH: u64 = 1000;

/// Height of a row in pixels.
const ROW_HEIGHT: u64 = 26;

/// Position of the first row, in pixels from the top.
const TOP_MARGIN: u64 = 60;

/// Side of a hatch square for omitted windows, in pixels.
const HATCHES: u64 = 7;

/// Styles of all shapes, in CSS.
const STYLES: &str = ":root{color-scheme:light dark}\
text{font:13px system-ui,sans-serif;fill:#222}.s{font-size:11px;fill:#666}.page{fill:#fff}\
.row{stroke:#d5dae1}.open{fill:#cdeccf}.wait{fill:#f0b429}.out{fill:#2a7de1}.lost{fill:#d64545}.link{stroke:#8a94a3}\
.hatch{fill:url(#h)}.h0{stroke:#111;stroke-width:2;opacity:.6}\
@media(prefers-color-scheme:dark){text{fill:#e6e6e6}.s{fill:#a0a0a0}.page{fill:#16181c}.row{stroke:#3a4048}.open{fill:#254d2b}.h0{stroke:#fff}}";

/// Legend of the shapes, with the first and the last time of the axis.
const LEGEND: &str = "{0} to {1} ns; yellow: waiting, blue: on the link, green: queue open, \
red triangle: refused by the filter (tip up) or dropped by a queue (tip down)";

/// Note in the legend about windows that aren't drawn.
const WINDOWS_LEFT_OUT: &str = "; windows drawn: {0} of {1} (hatched: not drawn)";

/// Note in the legend about shapes that don't fit into the picture.
const LEFT_OUT: &str = "; not drawn: {0} shapes";

/// Picture of a network run under construction: time span, number of rows drawn, numbers of all and of drawn windows, and shapes.
#[derive(Drop)]
pub struct RunPicture {
    pub(crate) span: Span,
    pub(crate) rows: u64,
    pub(crate) windows: u64,
    pub(crate) drawn: u64,
    pub(crate) shapes: Shapes,
}

/// Returns the span widened to all times of these hops. The time axis then shows each of their frames. `include_stream` calls it.
fn widen_span<A: Allocator>(hops: &[HopRun<'_, A>], span: Span) -> Span {
    let mut span = span;
    for hop in hops {
        span = widen_span_by_record(hop.view, span);
    }
    span
}

/// Returns the span widened to all times of a hop's record. `widen_span` calls it.
fn widen_span_by_record<A: Allocator>(view: &View<A>, span: Span) -> Span {
    let Span { mut from, mut to } = span;
    for stored in &view.origins {
        let origin = stored.origin();
        from = from.min(origin.at);
        to = to.max(origin.at);
    }
    for stored in &view.departures {
        to = to.max(stored.departure().done);
    }
    Span { from, to }
}

/// Returns the point of time `moment` (ns) on the time axis, in pixels from the left edge of the picture. `put_link`, `time_mark` and
/// `bar_x_and_width` call it.
pub(crate) fn time_x(picture: &RunPicture, moment: u64) -> u64 {
    LEFT_MARGIN + picture.span.axis_distance(moment, TIME_WIDTH)
}

/// Draws an element with a title, which browsers show when the pointer rests on it. The title is `words` with `numbers` and `word` at its
/// marks.
///
/// `put_window`, `put_hatch` and 3 more call it.
pub(crate) fn put_titled(
    picture: &mut RunPicture,
    style: &str,
    element: Element,
    words: &str,
    numbers: &[u64],
    word: &str,
) {
    let shapes = &mut picture.shapes;
    shapes.begin_titled(style, element);
    shapes.add_piece(words, numbers, &[word]);
    shapes.end_titled(element);
    shapes.end_shape();
}

/// Returns the distance of the row with index `row`, from 0, from the top of the picture, in pixels. `put_link`, `put_open_windows` and 2
/// more call it.
pub(crate) fn row_y(row: u64) -> u64 {
    row.saturating_mul(ROW_HEIGHT).saturating_add(TOP_MARGIN)
}

/// Returns a bar from time `from` to time `to`, in ns, `y` pixels from the top and `height` pixels high. `put_window`, `put_hatch` and
/// `put_departure` call it.
pub(crate) fn bar_x_and_width(
    picture: &RunPicture,
    from: u64,
    to: u64,
    y: u64,
    height: u64,
) -> Element {
    let x = time_x(picture, from);
    Element::Bar(Bar {
        x,
        y,
        width: time_x(picture, to).saturating_sub(x).max(1),
        height,
    })
}

impl RunPicture {
    /// Returns an empty picture, whose span is empty until `include_stream` widens it. `draw_run` of `app_networks` calls it.
    pub fn new(alloc: Global) -> RunPicture {
        RunPicture {
            span: Span {
                from: u64::MAX,
                to: 0,
            },
            rows: 0,
            windows: 0,
            drawn: 0,
            shapes: Shapes::new(alloc),
        }
    }

    /// Widens the time axis to the times of a stream's hops. `include_streams` of `app_networks` calls it for all streams before the first
    /// one is drawn.
    pub fn include_stream<A: Allocator>(&mut self, hops: &[HopRun<'_, A>]) {
        self.span = widen_span(hops, self.span);
    }

    /// Draws the windows of class `class` at port `port` in the row of hop `place`, from 0, of the next stream. A port without list is
    /// always open.
    ///
    /// `put_stream` draws over the windows. `app_networks` calls it.
    pub fn put_open_windows<A: Allocator + Copy>(
        &mut self,
        place: usize,
        port: u8,
        class: u8,
        list: &Option<Egress<A>>,
    ) {
        let y = row_y(self.rows.saturating_add(place as u64));
        if class >= 8 {
            return;
        }
        let Span { from, to } = self.span;
        match list {
            Some(list) => put_windows(self, y, (port, class), list),
            None => {
                self.windows = self.windows.saturating_add(1);
                put_window(self, y, (port, class), from, to);
            }
        }
    }

    /// Draws the rows of a stream, one for each hop, below the rows drawn before. `names` has the hops' names. `app_networks` calls it for
    /// each stream.
    pub fn put_stream<A: Allocator>(
        &mut self,
        links: &[Link],
        hops: &[HopRun<'_, A>],
        names: &[String],
    ) {
        for place in 0..hops.len() {
            if place >= names.len() {
                return;
            }
            let y = row_y(self.rows.saturating_add(place as u64));
            put_hop_row(self, links, hops, &hops[place], y, names[place].as_str());
        }
        self.rows = self.rows.saturating_add(hops.len() as u64);
    }

    /// Returns the text above the rows: the time span and the meaning of colours, with notes on windows and shapes that aren't drawn.
    /// `finish` calls it.
    fn legend(&self, alloc: Global) -> Result<String, NoMemory> {
        let mut legend = TextBuilder::new(alloc);
        let Span { from, to } = self.span;
        legend.put_template(LEGEND, &[from.min(to), to], &[]);
        if self.drawn < self.windows {
            legend.put_template(WINDOWS_LEFT_OUT, &[self.drawn, self.windows], &[]);
        }
        match self.shapes.omitted_shapes() {
            0 => {}
            count => legend.put_template(LEFT_OUT, &[count], &[]),
        }
        legend.finish()
    }

    /// Returns the picture as SVG of at most 2,000,000 octets. Bars show waiting (yellow), transmission (blue) and windows (green); red
    /// triangles show refused frames and dropped copies.
    ///
    /// `draw_run` of `app_networks` calls it after the last stream.
    pub fn finish(self, alloc: Global) -> Result<String, NoMemory>
        ensures { IfOk result (λ text. length (string_bytes text) ≤ 2000000) }
    {
        let legend = self.legend(alloc)?;
        let height = row_y(self.rows).saturating_add(30);
        let size = Size::Wide(LEFT_MARGIN + TIME_WIDTH + 30, height);
        let mut head = picture_head(alloc, size, STYLES, Some(HATCHES))?;
        let note = text_line(alloc, (12, 24), legend.as_str())?;
        head.push_str(note.as_str())?;
        let RunPicture { shapes, .. } = self;
        shapes.finish(alloc, head.as_str(), "")
    }
}
