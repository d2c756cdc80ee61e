//! A page that grows downwards: texts, bars, legends, times and the time axis. All lengths are tenths of a pixel.
ghost use Rattle.std.specs.Prelude.{◌≤◌, ◌+◌, IfOk, length, string_bytes};

use crate::svg_elements::{Bar, Element, Mark, Size, picture_head, text_line};
use crate::svg_shapes::{Shapes, fill_form};
use crate::svg_span::{MAX_INTERVALS, Span, TimeScale};
use bridge_limits::NoMemory;
use std::alloc::Global;

/// Width of a page, in tenths of a pixel.
pub const PAGE_WIDTH: u64 = 12_000;

/// Left end of the time axis, in tenths of a pixel from the left.
pub const AXIS_LEFT: u64 = 1_500;

/// Width of the time axis, in tenths of a pixel.
pub const AXIS_WIDTH: u64 = 10_000;

/// Side of the hatching's squares, in tenths of a pixel.
const HATCHES: u64 = 70;

/// Note at the end of a picture with omitted shapes.
const OMITTED_NOTE: &str = "not drawn: {0} shapes (limit of 2000000 octets)";

/// Sample of a legend row, shown before its words.
#[derive(Clone, Copy, PartialEq, Eq)]
pub enum Sample {
    /// No sample: only words.
    Nothing,
    /// Bar.
    Bar,
    /// Line with a tick at its start.
    Waits,
    /// Thin line.
    Due,
    /// Triangle with its tip below.
    TipBelow,
    /// Triangle with its tip above.
    TipAbove,
    /// Vertical line.
    Line,
}

/// Legend row: a sample, the style of its shapes, and the words after it.
pub type LegendRow = (Sample, &'static str, &'static str);

/// Page under construction: its shapes, its lower end and the right end of its current legend line, in tenths of a pixel.
#[derive(Drop)]
pub struct Page {
    shapes: Shapes,
    bottom: u64,
    legend_right: u64,
}

impl Page {
    /// Returns an empty page of height 0. `Picture::new` of `show_picture` calls it.
    pub fn new(alloc: Global) -> Page {
        Page {
            shapes: Shapes::new(alloc),
            bottom: 0,
            legend_right: AXIS_LEFT,
        }
    }

    /// Returns the distance from the top to the page's lower end, in tenths of a pixel. `put_ports` of `show_picture` calls it.
    pub fn bottom(&self) -> u64 {
        self.bottom
    }

    /// Returns the distance from the top to the point `by` below the page's lower end. Both are tenths of a pixel. Callers place shapes by
    /// it.
    pub fn bottom_plus(&self, by: u64) -> u64 {
        self.bottom.saturating_add(by)
    }

    /// Moves the page's lower end down by `by` (tenths of a pixel), so that later shapes lie below.
    pub fn skip_height(&mut self, by: u64) {
        self.bottom = self.bottom_plus(by);
    }

    /// Writes a piece of the current shape: the text of `form` with its numbers and its word. `Page::put_text`, `put_time`, `put_span` and
    /// functions of `show_picture` call it.
    pub fn add_piece(&mut self, form: &str, numbers: &[u64], word: &str) {
        self.shapes.add_piece(form, numbers, &[word]);
    }

    /// Writes words of the program itself as a piece of the current shape. The words aren't escaped, so they must not come from users.
    /// `put_span`, `put_hypercycle` of `show_picture` and 2 more call it.
    pub fn add_words(&mut self, words: &str) {
        self.shapes.add_piece(words, &[], &[]);
    }

    /// Begins a text at the point `x`, `y`, in tenths of a pixel. `end_text` ends it. Methods of `Page` and functions of `show_picture`
    /// call it.
    pub fn begin_text(&mut self, style: &str, x: u64, y: u64) {
        self.shapes.begin_text(style, (x, y));
    }

    /// Moves down by `by` (tenths of a pixel), and begins a line of text at the left end of the time axis. `begin_head` and `put_selection`
    /// of `show_picture`, and 2 more call it.
    pub fn begin_text_line(&mut self, style: &str, by: u64) {
        self.skip_height(by);
        self.begin_text(style, AXIS_LEFT, self.bottom);
    }

    /// Ends a text and its shape. `Page::put_text`, `put_axis_label` and functions of `show_picture` call it.
    pub fn end_text(&mut self) {
        self.shapes.end_text();
        self.shapes.end_shape();
    }

    /// Draws the text of `form`, with its numbers, at the distance `x` from the left and `by` below the page's lower end. Lengths are
    /// tenths of a pixel.
    ///
    /// `put_legend_row` and functions of `show_picture` call it.
    pub fn put_text(&mut self, style: &str, x: u64, by: u64, form: &str, numbers: &[u64]) {
        self.begin_text(style, x, self.bottom_plus(by));
        self.add_piece(form, numbers, "");
        self.end_text();
    }

    /// Draws an element as a shape of its own. If the picture is full, the shape is only counted. `put_bar`, `put_sample` and `put_axis`
    /// call it.
    pub fn draw(&mut self, style: &str, element: Element) {
        self.shapes.draw(style, element);
        self.shapes.end_shape();
    }

    /// Begins an element with a title, which viewers show when the pointer rests on it. `end_titled` ends it. Pictures of runs call it.
    pub fn begin_titled(&mut self, style: &str, element: Element) {
        self.shapes.begin_titled(style, element);
    }

    /// Ends an element with a title, and its shape. `element` is the element that was begun. Pictures of runs call it.
    pub fn end_titled(&mut self, element: Element) {
        self.shapes.end_titled(element);
        self.shapes.end_shape();
    }

    /// Draws a bar at the distance `x` from the left and `by` below the page's lower end. All lengths are tenths of a pixel. `put_axis`,
    /// `put_hatches` of `show_picture` and 5 more call it.
    pub fn put_bar(&mut self, style: &str, x: u64, by: u64, width: u64, height: u64) {
        self.draw(style, bar(x, self.bottom_plus(by), width, height));
    }

    /// Begins a legend on a new line, at the left end of the time axis. `put_legend` and `put_shown_filters` of `show_picture` call it.
    pub fn begin_legend(&mut self) {
        self.skip_height(190);
        self.legend_right = AXIS_LEFT;
    }

    /// Draws the sample of a legend row, at most 160 wide and 110 high, in tenths of a pixel. Its upper left corner is at `x`, `y`.
    /// `put_legend_row` calls it.
    fn put_sample(&mut self, sample: Sample, style: &str, x: u64, y: u64) {
        match sample {
            Sample::Nothing => {}
            Sample::Bar => self.draw(style, bar(x, y, 160, 100)),
            Sample::Waits => {
                self.draw(style, bar(x, y, 12, 90));
                self.draw(style, bar(x, y.saturating_add(60), 160, 14));
            }
            Sample::Due => self.draw(style, bar(x, y.saturating_add(60), 160, 10)),
            Sample::TipBelow => self.draw(style, sample_mark(x, y, y.saturating_add(100))),
            Sample::TipAbove => self.draw(style, sample_mark(x, y.saturating_add(100), y)),
            Sample::Line => {
                let from = (x.saturating_add(80), y);
                self.draw(style, Element::Down(from, y.saturating_add(110)));
            }
        }
    }

    /// Draws a legend row. `letters` is the number of its letters, from which its width is estimated; after a sample, `number` replaces
    /// `{0}`. Begins a new line if the page is too narrow.
    ///
    /// `put_filter_legend` and `put_legend` of `show_picture` call it.
    pub fn put_legend_row(&mut self, row: LegendRow, letters: usize, number: u64) {
        let (sample, style, words) = row;
        let width = (letters as u64).saturating_mul(62).saturating_add(360);
        if self.legend_right.saturating_add(width) > PAGE_WIDTH && self.legend_right > AXIS_LEFT {
            self.skip_height(170);
            self.legend_right = AXIS_LEFT;
        }
        let x = self.legend_right.min(PAGE_WIDTH);
        self.legend_right = x.saturating_add(width);
        if sample == Sample::Nothing {
            return self.put_text("t", x, 0, words, &[]);
        }
        self.put_sample(sample, style, x, self.bottom.saturating_sub(90));
        self.put_text("t", x + 210, 0, words, &[number]);
    }

    /// Writes time `at` (ns) with its unit and at most three decimals. `clock` gives origin and unit.
    pub fn put_time(&mut self, clock: TimeScale, at: u64) {
        let (origin, name, thousandth) = clock;
        let thousandths = at.saturating_sub(origin) / thousandth.max(1);
        let mut rest = thousandths % 1_000;
        self.add_piece(
            "{0}{a}",
            &[thousandths / 1_000],
            choose_word(rest > 0, ".", ""),
        );
        for _ in 0..3 {
            if rest > 0 {
                self.add_piece("{0}", &[rest / 100], "");
                rest = rest % 100 * 10;
            }
        }
        self.add_piece(" {a}", &[], name);
    }

    /// Writes a duration of `to` ns, in the unit that suits it. `put_hypercycle` of `show_picture` calls it.
    pub fn put_duration(&mut self, to: u64) {
        self.put_time(Span { from: 0, to }.time_scale(), to);
    }

    /// Writes a span of time: its start, its end, and the time from which both are counted unless it is 0. `put_title` and `draw_run` of
    /// `show_picture` call it.
    pub fn put_span(&mut self, span: Span) {
        let clock = span.time_scale();
        self.add_words("from ");
        self.put_time(clock, span.from);
        self.add_words(" to ");
        self.put_time(clock, span.to);
        if clock.0 > 0 {
            self.add_piece(", counted from {0} ns", &[clock.0], "");
        }
    }

    /// Writes the label of time `at`, in ns, on the axis. The text is at the point `x`, `y`. `put_axis` calls it for each grid line.
    fn put_axis_label(&mut self, span: Span, x: u64, y: u64, at: u64) {
        self.begin_text("m", x, y);
        self.put_time(span.time_scale(), at);
        self.end_text();
    }

    /// Draws the time axis below the page's contents, with grid lines and their times. The lines begin at the distance `top` from the
    /// page's upper end, in tenths of a pixel.
    ///
    /// A tall picture has times above too. Draws the schedule change at `change` ns, if it is present. `finish_ports` of `show_picture`
    /// calls it.
    pub fn put_axis(&mut self, span: Span, top: u64, change: Option<u64>) {
        let step = span.grid_step();
        let first = (span.from / step).saturating_add(u64::from(span.from % step > 0));
        for number in 0..=MAX_INTERVALS {
            let at = first.saturating_add(number).saturating_mul(step);
            if at <= span.to {
                let x = span.page_x(at);
                let end = self.bottom_plus(60);
                self.draw("grid", Element::Down((x, top), end));
                if self.bottom.saturating_sub(top) > 7_000 {
                    self.put_axis_label(span, x, top.saturating_sub(40), at);
                }
                self.put_axis_label(span, x, self.bottom_plus(180), at);
            }
        }
        if let Some(at) = change {
            if span.has_overlap(at, at.saturating_add(1)) {
                let line = Element::Down((span.page_x(at), top), self.bottom);
                self.draw("change", line);
            }
        }
        self.put_bar("grid", AXIS_LEFT, 0, AXIS_WIDTH, 6);
        self.skip_height(250);
    }

    /// Returns the picture as SVG text of at most 2,000,000 octets. If shapes are omitted, a note gives their number. Pictures of plans and
    /// runs call it after their last shape.
    pub fn finish(self, alloc: Global, styles: &str) -> Result<String, NoMemory>
        ensures { IfOk result (λ text. length (string_bytes text) ≤ 2000000) }
    {
        let high = self.bottom_plus(150);
        let size = Size::Fixed(PAGE_WIDTH / 10, high / 10, PAGE_WIDTH, high);
        let head = picture_head(alloc, size, styles, Some(HATCHES))?;
        let foot = match self.shapes.omitted_shapes() {
            0 => String::new(alloc),
            left_out => {
                let words = fill_form(alloc, OMITTED_NOTE, &[left_out], &[])?;
                text_line(alloc, (100, high.saturating_sub(30)), words.as_str())?
            }
        };
        let Page { shapes, .. } = self;
        shapes.finish(alloc, head.as_str(), foot.as_str())
    }
}

impl Span {
    /// Returns the distance of time `t` (ns) from the left of the page, in tenths of a pixel. Times outside the span are at the ends of the
    /// axis.
    ///
    /// `put_axis`, `visit_frame` of `show_picture` and 2 more call it.
    pub fn page_x(self, t: u64) -> u64
        ensures from { AXIS_LEFT ≤ result }
        ensures to { result ≤ AXIS_LEFT + AXIS_WIDTH }
    {
        AXIS_LEFT + self.axis_distance(t, AXIS_WIDTH)
    }

    /// Returns the left end and the width of the span `from` to `to` (ns) on the page, in tenths of a pixel. The width is at least 8, which
    /// keeps the span visible.
    ///
    /// `put_window`, `put_wait` and `put_frame` of `show_picture` call it.
    pub fn page_extent(self, from: u64, to: u64) -> (u64, u64) {
        let x = self.page_x(from);
        (x, self.page_x(to).saturating_sub(x).max(8))
    }
}

/// Returns a bar as an element: its left edge `x`, its upper edge `y`, its width and its height, in tenths of a pixel. `put_bar` and
/// `put_sample` call it.
fn bar(x: u64, y: u64, width: u64, height: u64) -> Element {
    Element::Bar(Bar {
        x,
        y,
        width,
        height,
    })
}

/// Returns the triangle of a legend's sample with the left end `x`; `base` and `tip` are distances from the top, in tenths of a pixel.
/// `put_sample` calls it.
fn sample_mark(x: u64, base: u64, tip: u64) -> Element {
    Element::Mark(Mark {
        left: x.saturating_add(30),
        right: x.saturating_add(130),
        base,
        middle: x.saturating_add(80),
        tip,
    })
}

/// Returns `yes` if `is` is true, otherwise `no`. `put_time`, `draw_lane` of `show_picture` and 3 more call it.
pub fn choose_word(is: bool, yes: &'static str, no: &'static str) -> &'static str {
    if is { yes } else { no }
}
