//! Elements of SVG. Only this file contains their markup; callers give positions, styles and words.

use crate::TextBuilder;
use crate::svg_shapes::{Shapes, fill_form, put_form};
use bridge_limits::NoMemory;
use std::alloc::Global;

/// Head of a picture with a fixed size.
const SIZED: &str =
    r#"<svg xmlns="http://www.w3.org/2000/svg" width="{0}" height="{1}" viewBox="0 0 {2} {3}">
<style>{a}</style>
"#;

/// Head of a picture that is as wide as the page that shows it.
const WIDE: &str = r#"<svg xmlns="http://www.w3.org/2000/svg" viewBox="0 0 {0} {1}">
<style>{a}</style>
"#;

/// Pattern of the hatching that marks omitted items.
const HATCH: &str =
    r#"<pattern id="h" width="{0}" height="{0}" patternUnits="userSpaceOnUse" patternTransform="rotate(45)"><path class="h0" d="M0 0V{0}"/></pattern>
"#;

/// Background of a picture with a fixed size.
const GROUND: &str = r#"<rect class="page" width="{0}" height="{1}"/>
"#;

/// Background of a picture that is as wide as the page that shows it.
const WHOLE_GROUND: &str = r#"<rect class="page" width="100%" height="100%"/>
"#;

/// Line of text in a picture's head or foot.
const NOTE: &str = r#"<text class="s" x="{0}" y="{1}">{a}</text>
"#;

/// Starts of elements, without their ends: rectangle, rounded rectangle, triangle, line, horizontal line, vertical line, arc and circle.
const BAR_FORM: &str = r#"<rect class="{a}" x="{0}" y="{1}" width="{2}" height="{3}""#;

const BOX: &str = r#"<rect class="{a}" x="{0}" y="{1}" width="{2}" height="{3}" rx="4""#;

const MARK: &str = r#"<path class="{a}" d="M{0} {1}H{2}L{3} {4}Z""#;

const LINE_FORM: &str = r#"<path class="{a}" d="M{0} {1}L{2} {3}""#;

const LEVEL: &str = r#"<path class="{a}" d="M{0} {1}H{2}""#;

const DOWN: &str = r#"<path class="{a}" d="M{0} {1}V{2}""#;

const ARC: &str = r#"<path class="{a}" d="M{0} {1}Q{2} {3} {4} {1}""#;

const CIRCLE: &str = r#"<circle class="{a}" cx="{0}" cy="{1}" r="{2}""#;

/// Start of a text with a style.
const TEXT_FORM: &str = r#"<text class="{a}" x="{0}" y="{1}">"#;

const PLAIN_TEXT: &str = r#"<text x="{0}" y="{1}">"#;

/// Rectangle by left edge, upper edge, width and height. Units are the caller's.
#[derive(Clone, Copy)]
pub struct Bar {
    pub x: u64,
    pub y: u64,
    pub width: u64,
    pub height: u64,
}

/// Triangle with a horizontal base: left and right end of the base, its distance from the top, and the tip. Units are the caller's.
#[derive(Clone, Copy)]
pub struct Mark {
    pub left: u64,
    pub right: u64,
    pub base: u64,
    pub middle: u64,
    pub tip: u64,
}

/// Point: distances from the left and from the top, in the caller's units.
pub type Point = (u64, u64);

/// Element with its positions. `Shapes` and `Page` draw it.
#[derive(Clone, Copy)]
pub enum Element {
    /// Rectangle.
    Bar(Bar),
    /// Rectangle with round corners.
    Box(Bar),
    /// Triangle with a horizontal base.
    Mark(Mark),
    /// Line from a point to a point.
    Line(Point, Point),
    /// Line from a point to the right, up to a distance from the left.
    Level(Point, u64),
    /// Line from a point downwards, to a distance from the top.
    Down(Point, u64),
    /// Arc from a first point, towards a second, to a distance from the left at the first point's height.
    Arc(Point, Point, u64),
    /// Circle with a radius.
    Circle(Point, u64),
}

impl Shapes {
    /// Writes the start of an element with its style and positions, without its end: a title may follow. `draw` and `begin_titled` call it.
    fn add_element(&mut self, style: &str, element: Element) {
        let (form, numbers) = match element {
            Element::Bar(bar) => (BAR_FORM, [bar.x, bar.y, bar.width, bar.height, 0]),
            Element::Box(bar) => (BOX, [bar.x, bar.y, bar.width, bar.height, 0]),
            Element::Mark(mark) => (
                MARK,
                [mark.left, mark.base, mark.right, mark.middle, mark.tip],
            ),
            Element::Line(from, to) => (LINE_FORM, [from.0, from.1, to.0, to.1, 0]),
            Element::Level(from, to) => (LEVEL, [from.0, from.1, to, 0, 0]),
            Element::Down(from, to) => (DOWN, [from.0, from.1, to, 0, 0]),
            Element::Arc(from, by, to) => (ARC, [from.0, from.1, by.0, by.1, to]),
            Element::Circle(at, radius) => (CIRCLE, [at.0, at.1, radius, 0, 0]),
        };
        self.add_piece(form, &numbers, &[style]);
    }

    /// Writes an element without title as a piece of the current shape. Callers end the shape by `end_shape`.
    pub fn draw(&mut self, style: &str, element: Element) {
        self.add_element(style, element);
        self.add_piece("/>", &[], &[]);
    }

    /// Writes the start of an element with a title, which viewers show when the pointer rests on it. The caller writes the title next.
    pub fn begin_titled(&mut self, style: &str, element: Element) {
        self.add_element(style, element);
        self.add_piece("><title>", &[], &[]);
    }

    /// Writes the end of an element whose title the caller has written. `element` is the element that was begun.
    pub fn end_titled(&mut self, element: Element) {
        self.add_piece("</title></{a}>", &[], &[element_name(element)]);
    }

    /// Writes the start of a text at a point. The style may be empty. The caller writes the words next.
    pub fn begin_text(&mut self, style: &str, at: Point) {
        match style {
            "" => self.add_piece(PLAIN_TEXT, &[at.0, at.1], &[]),
            _ => self.add_piece(TEXT_FORM, &[at.0, at.1], &[style]),
        }
    }

    /// Writes the end of a text that `begin_text` began. `Page::end_text` and pictures of networks call it.
    pub fn end_text(&mut self) {
        self.add_piece("</text>", &[], &[]);
    }
}

/// Returns the name of an element in SVG, for its end tag. `end_titled` calls it.
fn element_name(element: Element) -> &'static str {
    match element {
        Element::Bar(_) | Element::Box(_) => "rect",
        Element::Circle(..) => "circle",
        _ => "path",
    }
}

/// Size of a picture: fixed, or as wide as the page that shows it.
#[derive(Clone, Copy)]
pub enum Size {
    /// Width and height as shown, then width and height in the picture's own units.
    Fixed(u64, u64, u64, u64),
    /// As wide as the page that shows the picture: only width and height in its own units.
    Wide(u64, u64),
}

/// Returns the head of a picture: its size, the styles of its shapes, its hatching and its background. Squares of the hatching have the
/// side `hatch`; `None` means no hatching.
///
/// `Page::finish`, and `draw_network` and `RunPicture::finish` of `net_report` call it.
pub fn picture_head(
    alloc: Global,
    size: Size,
    styles: &str,
    hatch: Option<u64>,
) -> Result<String, NoMemory> {
    let mut head = TextBuilder::new(alloc);
    match size {
        Size::Fixed(shown, high, width, height) => {
            put_form(&mut head, SIZED, &[shown, high, width, height], &[styles])
        }
        Size::Wide(width, height) => put_form(&mut head, WIDE, &[width, height], &[styles]),
    }
    if let Some(side) = hatch {
        put_form(&mut head, HATCH, &[side], &[]);
    }
    match size {
        Size::Fixed(_, _, width, height) => put_form(&mut head, GROUND, &[width, height], &[]),
        Size::Wide(..) => head.put(WHOLE_GROUND),
    }
    head.finish()
}

/// Returns a line of text at a point, for the head or the foot of a picture. `Page::finish`, and `draw_network` and `RunPicture::finish` of
/// `net_report` call it.
pub fn text_line(alloc: Global, at: Point, words: &str) -> Result<String, NoMemory> {
    fill_form(alloc, NOTE, &[at.0, at.1], &[words])
}
