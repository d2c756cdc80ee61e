//! The picture of a network that the command `picture` draws, as SVG.
ghost use Rattle.std.specs.Prelude.{◌≤◌, IfOk, length, string_bytes};

use bridge_limits::NoMemory;
use bridge_text::{Bar, Element, Point, Shapes, Size, fill_form, picture_head, text_line};
use net_file::{BridgeRow, LinkRow, StreamRow};
use std::alloc::{Allocator, Global};

/// Left edge of the first bridge's column, in pixels.
const LEFT_MARGIN: u64 = 170;

/// Width of a column in pixels.
const COLUMN_WIDTH: u64 = 110;

/// Height of a stream's row in pixels.
const ROW_HEIGHT: u64 = 26;

/// Height of a bridge's box in pixels.
const BOX_HEIGHT: u64 = 30;

/// Styles of all shapes, in CSS.
const STYLES: &str = ":root{color-scheme:light dark}\
text{font:13px system-ui,sans-serif;fill:#222}.m{text-anchor:middle;font-weight:700}.s{font-size:11px;fill:#666}\
.page{fill:#fff}.box{fill:#e3e8ef;stroke:#8a94a3}.link{fill:none;stroke:#8a94a3;stroke-width:2}.way{fill:none;stroke:#2a7de1;stroke-width:3}.hop{fill:#2a7de1}\
@media(prefers-color-scheme:dark){text{fill:#e6e6e6}.s{fill:#a0a0a0}.page{fill:#16181c}.box{fill:#22262c}}";

/// Note at the end of a picture that counts omitted shapes.
const LEFT_OUT: &str = "not drawn: {0} shapes (no space)";

/// Title of a link, which browsers show as a hint: the ports at both ends and the delay.
const LINK: &str = "{a}.{0} to {b}.{1}, {2} ns";

/// Title of a hop: the bridge's name and the filter's number.
const HOP: &str = "{a}.{0}";

/// Text with a stream's delay bound, at the right end of the stream's row.
const STREAM_BOUND: &str = "bound {a} ns";

/// Draws a text at a point: `form` with `word` for its mark `{a}`. `style` names a class of `STYLES`; an empty text stands for none.
/// `put_bridge` and `put_stream_row` call it.
fn put_text(shapes: &mut Shapes, style: &str, at: Point, form: &str, word: &str) {
    shapes.begin_text(style, at);
    shapes.add_piece(form, &[], &[word]);
    shapes.end_text();
}

/// Returns the middle of the column of the bridge with index `place`, in pixels. Links, boxes and hops are drawn there. `put_link`,
/// `put_bridge` and 2 more call it.
fn column_middle(place: u16) -> u64 {
    LEFT_MARGIN + COLUMN_WIDTH * u64::from(place) + COLUMN_WIDTH / 2
}

/// Returns the distance of bridges `one` and `other` in columns, but at most 10. So arcs of distant bridges don't get too high.
/// `arc_height` calls it.
fn column_distance(one: u16, other: u16) -> u64 {
    let most = u64::from(one.max(other));
    let least = u64::from(one.min(other));
    most.saturating_sub(least).min(10)
}

/// Returns the height of a link's arc above the boxes, in pixels. It depends on the distance of the bridges and on the port modulo 4, so
/// that arcs rarely coincide.
///
/// `tallest_arc` and `put_link` call it.
fn arc_height(link: &LinkRow) -> u64 {
    let lane = u64::from(link.one.1 % 4);
    let columns = column_distance(link.one.0, link.other.0);
    columns.saturating_mul(16).saturating_add(26 + 7 * lane)
}

/// Returns the height in pixels of the tallest arc, at least 26. The bridges' boxes begin below this space. `draw_network` calls it.
fn tallest_arc(links: &[LinkRow]) -> u64 {
    let mut most = 26u64;
    for link in links {
        most = most.max(arc_height(link));
    }
    most
}

/// Returns the name of the bridge with index `place`, or an empty text if it is missing. `put_hop_dot` and `put_link` call it.
fn bridge_name<'a, A: Allocator + Copy>(bridges: &'a [BridgeRow<A>], place: u16) -> &'a str {
    match bridges.get(place as usize) {
        Some(bridge) => bridge.name(),
        None => "",
    }
}

/// Draws the arc of a link, with a title that shows its ports and its delay. `top` is the upper edge of the boxes, in pixels from the top.
/// `put_network` calls it.
fn put_link<A: Allocator + Copy>(
    shapes: &mut Shapes,
    bridges: &[BridgeRow<A>],
    link: &LinkRow,
    top: u64,
) {
    let (from, to) = (column_middle(link.one.0), column_middle(link.other.0));
    let between = from.saturating_add(to) / 2;
    let above = top.saturating_sub(arc_height(link).saturating_mul(2));
    let (one, other) = (u64::from(link.one.1), u64::from(link.other.1));
    let arc = Element::Arc((from, top), (between, above), to);
    let names = [
        bridge_name(bridges, link.one.0),
        bridge_name(bridges, link.other.0),
    ];
    shapes.begin_titled("link", arc);
    shapes.add_piece(LINK, &[one, other, link.delay], &names);
    shapes.end_titled(arc);
    shapes.end_shape();
}

/// Draws the box of the bridge with index `place`, with its name. `top` is the upper edge of the boxes, in pixels from the top.
/// `put_network` calls it.
fn put_bridge<A: Allocator + Copy>(
    shapes: &mut Shapes,
    bridge: &BridgeRow<A>,
    place: u16,
    top: u64,
) {
    let x = column_middle(place);
    let bar = Bar {
        x: x.saturating_sub(46),
        y: top,
        width: 92,
        height: BOX_HEIGHT,
    };
    shapes.draw("box", Element::Box(bar));
    put_text(
        shapes,
        "m",
        (x, top.saturating_add(20)),
        "{a}",
        bridge.name(),
    );
    shapes.end_shape();
}

/// Draws the dot of a hop, `y` pixels from the top, with its filter as title, and the line from the hop before.
///
/// `before` is that hop's distance from the left in pixels; `None` stands for the first hop. `put_stream_row` calls it.
fn put_hop_dot<A: Allocator + Copy>(
    shapes: &mut Shapes,
    bridges: &[BridgeRow<A>],
    before: Option<u64>,
    hop: (u16, u32),
    y: u64,
) {
    let x = column_middle(hop.0);
    if let Some(from) = before {
        shapes.draw("way", Element::Level((from, y), x));
    }
    let dot = Element::Circle((x, y), 6);
    shapes.begin_titled("hop", dot);
    shapes.add_piece(HOP, &[u64::from(hop.1)], &[bridge_name(bridges, hop.0)]);
    shapes.end_titled(dot);
    shapes.end_shape();
}

/// Draws the row of a stream, `y` pixels from the top: its name, its hops and, if known, its delay bound in ns. `put_network` calls it.
fn put_stream_row<A: Allocator + Copy>(
    alloc: Global,
    shapes: &mut Shapes,
    bridges: &[BridgeRow<A>],
    stream: &StreamRow<A>,
    bound: Option<u128>,
    y: u64,
) -> Result<(), NoMemory> {
    let line = y.saturating_add(4);
    put_text(shapes, "", (10, line), "{a}", stream.name());
    let mut before = None;
    for hop in stream.hops() {
        put_hop_dot(shapes, bridges, before, *hop, y);
        before = Some(column_middle(hop.0));
    }
    if let Some(bound) = bound {
        let x = picture_width(bridges.len()).saturating_sub(150);
        let bound = format!(in alloc; "{bound}")?;
        put_text(shapes, "s", (x, line), STREAM_BOUND, bound.as_str());
        shapes.end_shape();
    }
    Ok(())
}

/// Returns the width in pixels of the picture of a network with `bridges` bridges. `draw_network` and `put_stream_row` call it.
fn picture_width(bridges: usize) -> u64 {
    let columns = (bridges as u64).min(65_536);
    LEFT_MARGIN + COLUMN_WIDTH * columns + 170
}

/// Returns the distance of the row of stream `place` (index from 0) from the top of the picture, in pixels. Rows are below the bridges'
/// boxes. `draw_network` and `put_network` call it.
fn stream_y(top: u64, place: usize) -> u64 {
    top.saturating_add(BOX_HEIGHT + 30)
        .saturating_add(ROW_HEIGHT.saturating_mul(place as u64))
}

/// Draws all links, bridges and streams, with the streams' delay bounds. `top` is the upper edge of the boxes, in pixels from the top.
/// `draw_network` calls it.
fn put_network<A: Allocator + Copy>(
    alloc: Global,
    shapes: &mut Shapes,
    bridges: &[BridgeRow<A>],
    links: &[LinkRow],
    streams: &[StreamRow<A>],
    bounds: &[u128],
    top: u64,
) -> Result<(), NoMemory> {
    for link in links {
        put_link(shapes, bridges, link, top);
    }
    let mut place = 0u16;
    for bridge in bridges {
        put_bridge(shapes, bridge, place, top);
        place = place.saturating_add(1);
    }
    for i in 0..streams.len() {
        let bound = bounds.get(i).copied();
        put_stream_row(alloc, shapes, bridges, &streams[i], bound, stream_y(top, i))?;
    }
    Ok(())
}

/// Returns a network's picture as SVG of at most 2,000,000 octets, for `picture NET`. `bounds` has the streams' delay bounds in ns. A note
/// counts omitted shapes. `draw_with_bounds` of `app_networks` calls it.
pub fn draw_network<A: Allocator + Copy>(
    alloc: Global,
    bridges: &[BridgeRow<A>],
    links: &[LinkRow],
    streams: &[StreamRow<A>],
    bounds: &[u128],
) -> Result<String, NoMemory>
    ensures { IfOk result (λ text. length (string_bytes text) ≤ 2000000) }
{
    let top = tallest_arc(links).saturating_add(20);
    let mut shapes = Shapes::new(alloc);
    put_network(alloc, &mut shapes, bridges, links, streams, bounds, top)?;
    let height = stream_y(top, streams.len()).saturating_add(30);
    let width = picture_width(bridges.len());
    let head = picture_head(
        alloc,
        Size::Fixed(width, height, width, height),
        STYLES,
        None,
    )?;
    let foot = match shapes.omitted_shapes() {
        0 => String::new(alloc),
        count => {
            let words = fill_form(alloc, LEFT_OUT, &[count], &[])?;
            text_line(alloc, (10, height.saturating_sub(12)), words.as_str())?
        }
    };
    shapes.finish(alloc, head.as_str(), foot.as_str())
}
