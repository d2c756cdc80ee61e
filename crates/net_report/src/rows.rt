//! Rows of the picture of a run: copies that left a hop, copies that it dropped, and frames that it refused. `run_picture` arranges them.
use crate::copy_counting::HopRun;
use crate::hop_counting::is_pass;
use crate::run_picture::{
    LEFT_MARGIN, RunPicture, TIME_WIDTH, bar_x_and_width, put_titled, row_y, time_x,
};
use bridge_report::{refusal_word, verdict_word};
use bridge_semantics::{Departure, StoredOrigin, View};
use bridge_text::{Element, Mark, Point};
use net_model::{Link, find_sender};
use std::alloc::Allocator;

/// Half of the width and height of a triangle for a refused frame or a dropped copy, in pixels.
const HALF: u64 = 6;

/// Title of a copy that left, which browsers show as a hint.
const LEFT_WORDS: &str = "frame {0} arrived {1}, started {2}, ended {3} ns, port {4}";

/// Title of a refused frame, which browsers show as a hint.
const REFUSED_WORDS: &str = "frame {0}, arrived at {1} ns: refused ({a})";

/// Title of a dropped copy, which browsers show as a hint.
const DROPPED_WORDS: &str = "frame {0}, arrived at {1} ns: dropped at port {2} ({a})";

/// Returns the arrival time in ns of a hop's frame with number `own`, from 1, or `other` if the frame is missing. `put_departure`,
/// `put_refused` and `put_dropped` call it.
fn arrival_time_or(origins: &[StoredOrigin], own: u64, other: u64) -> u64 {
    if own == 0 {
        return other;
    }
    match origins.get((own - 1) as usize) {
        Some(origin) => origin.origin().at,
        None => other,
    }
}

/// Draws the line of a copy that crosses a link, from the end of transmission to the arrival at the next hop. `put_link` calls it.
fn put_crossing(picture: &mut RunPicture, from: Point, to: Point) {
    picture.shapes.draw("link", Element::Line(from, to));
    picture.shapes.end_shape();
}

/// Returns whether a frame of a hop's record arrived on `port` at time `at` in ns. Binary search: the frames are in order of arrival.
/// `hop_reached` calls it.
fn has_come<A: Allocator>(view: &View<A>, port: u8, at: u64) -> bool {
    let first = view
        .origins
        .partition_point(|origin| origin.origin().at < at);
    for stored in view.origins.get(first..).unwrap_or(&[]) {
        let origin = stored.origin();
        if origin.at != at {
            return false;
        }
        if origin.port == port {
            return true;
        }
    }
    false
}

/// Returns the index of the first hop at `bridge` whose record has a frame that arrived on `port` at time `at` in ns. Returns `None` if no
/// hop has one. `put_link` calls it.
fn hop_reached<A: Allocator>(
    hops: &[HopRun<'_, A>],
    bridge: usize,
    port: u8,
    at: u64,
) -> Option<usize> {
    for place in 0..hops.len() {
        if hops[place].bridge == bridge && has_come(hops[place].view, port, at) {
            return Some(place);
        }
    }
    None
}

/// Draws the line of a copy from bridge `bridge` over its link, from the row `y` pixels from the top to the accepting hop's row. Draws it
/// only if a hop accepted the copy.
///
/// `put_hop_row` calls it.
fn put_link<A: Allocator>(
    picture: &mut RunPicture,
    links: &[Link],
    hops: &[HopRun<'_, A>],
    bridge: usize,
    y: u64,
    departure: &Departure,
) {
    let Some(other) = find_sender(links, bridge, departure.port) else {
        return;
    };
    let at = departure.done.saturating_add(other.delay);
    let Some(place) = hop_reached(hops, other.from.bridge as usize, other.from.port, at) else {
        return;
    };
    let from = (time_x(picture, departure.done), y);
    let below = row_y(picture.rows.saturating_add(place as u64));
    let to = (time_x(picture, at), below);
    put_crossing(picture, from, to);
}

/// Draws a copy that left a hop, in the row `y` pixels from the top. One bar shows its waiting time, one its transmission time.
/// `put_hop_row` calls it.
fn put_departure(
    picture: &mut RunPicture,
    origins: &[StoredOrigin],
    y: u64,
    departure: &Departure,
) {
    let Departure {
        own,
        port,
        start,
        done,
    } = *departure;
    let at = arrival_time_or(origins, own, start);
    let top = y.saturating_sub(6);
    let numbers = [own, at, start, done, u64::from(port)];
    let waits = bar_x_and_width(picture, at, start, top, 12);
    put_titled(picture, "wait", waits, LEFT_WORDS, &numbers, "");
    let sends = bar_x_and_width(picture, start, done, top, 12);
    put_titled(picture, "out", sends, LEFT_WORDS, &numbers, "");
}

/// Returns a triangle at time `at` (ns) in the row `y` pixels from the top. The tip is up for a refused frame (`is_refused`), and down for
/// a dropped copy. `put_dropped` and `put_refused` call it.
fn time_mark(picture: &RunPicture, at: u64, y: u64, is_refused: bool) -> Element {
    let x = time_x(picture, at);
    let (above, below) = (y.saturating_sub(HALF), y.saturating_add(HALF));
    let (base, tip) = if is_refused {
        (below, above)
    } else {
        (above, below)
    };
    Element::Mark(Mark {
        left: x.saturating_sub(HALF),
        right: x.saturating_add(HALF),
        base,
        middle: x,
        tip,
    })
}

/// Draws a triangle at the arrival time of each frame that the filter of a hop refused, in the row `y` pixels from the top. `put_hop_row`
/// calls it.
fn put_refused<A: Allocator>(picture: &mut RunPicture, view: &View<A>, y: u64) {
    let mut own = 0u64;
    for stored in &view.verdicts {
        own = own.saturating_add(1);
        let verdict = stored.verdict();
        if !is_pass(verdict) {
            let at = arrival_time_or(&view.origins, own, 0);
            let mark = time_mark(picture, at, y, true);
            let word = verdict_word(verdict);
            put_titled(picture, "lost", mark, REFUSED_WORDS, &[own, at], word);
        }
    }
}

/// Draws a triangle for each copy that a port of a hop dropped, in the row `y` pixels from the top. The triangle is at the frame's arrival
/// time. `put_hop_row` calls it.
fn put_dropped<A: Allocator>(picture: &mut RunPicture, view: &View<A>, y: u64) {
    for stored in &view.drops {
        let dropped = stored.dropped_copy();
        let at = arrival_time_or(&view.origins, dropped.own, 0);
        let mark = time_mark(picture, at, y, false);
        let numbers = [dropped.own, at, u64::from(dropped.port)];
        let word = refusal_word(dropped.refusal);
        put_titled(picture, "lost", mark, DROPPED_WORDS, &numbers, word);
    }
}

/// Draws the row of a hop, `y` pixels from the top. It shows its name, copies that left with lines to the next hops, dropped copies and
/// refused frames. `RunPicture::put_stream` calls it.
pub(crate) fn put_hop_row<A: Allocator>(
    picture: &mut RunPicture,
    links: &[Link],
    hops: &[HopRun<'_, A>],
    hop: &HopRun<'_, A>,
    y: u64,
    name: &str,
) {
    picture.shapes.begin_text("", (12, y.saturating_add(4)));
    picture.shapes.add_piece("{a}", &[], &[name]);
    picture.shapes.end_text();
    let row = Element::Level((LEFT_MARGIN, y), LEFT_MARGIN + TIME_WIDTH);
    picture.shapes.draw("row", row);
    picture.shapes.end_shape();
    for stored in &hop.view.departures {
        let departure = stored.departure();
        put_departure(picture, &hop.view.origins, y, &departure);
        put_link(picture, links, hops, hop.bridge, y, &departure);
    }
    put_refused(picture, hop.view, y);
    put_dropped(picture, hop.view, y);
}
