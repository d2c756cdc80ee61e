//! Windows of queues in the picture of a run: the times at which a queue's class is open.
ghost use Rattle.std.specs.Prelude.{◌<◌};

use crate::run_picture::{RunPicture, bar_x_and_width, put_titled};
use crate::windows::{count_windows, is_class_open, next_gate_change};
use bridge_cycle::{END_OF_TURNS, Egress};
use std::alloc::Allocator;

/// Largest number of windows that are drawn for a queue, so that the windows of one queue don't fill the picture.
const MAX_WINDOWS: u64 = 500;

/// Title of a drawn window, which browsers show as a hint: {0} is its port, {1} its class.
const WINDOW_WORDS: &str = "port {0} opens class {1}";

/// Title of the hatched part of a row, in which windows aren't drawn.
const HATCH_WORDS: &str =
    "port {0}, class {1}: windows drawn: {2} of {3}, none of those after {4} ns";

/// Draws a window of a queue (port and class), from time `from` to time `to` in ns, in the row `y` pixels from the top. Counts it as drawn
/// unless the picture is full.
///
/// `put_windows` and `RunPicture::put_open_windows` call it.
pub(crate) fn put_window(picture: &mut RunPicture, y: u64, queue: (u8, u8), from: u64, to: u64) {
    let (port, class) = (u64::from(queue.0), u64::from(queue.1));
    let bar = bar_x_and_width(picture, from, to, y.saturating_sub(10), 20);
    let left_out = picture.shapes.omitted_shapes();
    put_titled(picture, "open", bar, WINDOW_WORDS, &[port, class], "");
    if picture.shapes.omitted_shapes() == left_out {
        picture.drawn = picture.drawn.saturating_add(1);
    }
}

/// Hatches the row `y` pixels from the top from time `from` (ns) on: later windows aren't drawn. The title has the queue and `all`, the
/// number of its windows. `put_windows` calls it.
fn put_hatch(picture: &mut RunPicture, y: u64, queue: (u8, u8), from: u64, all: u64) {
    let (port, class) = (u64::from(queue.0), u64::from(queue.1));
    let to = picture.span.to;
    let bar = bar_x_and_width(picture, from, to, y.saturating_sub(10), 20);
    let numbers = [port, class, MAX_WINDOWS, all, from];
    put_titled(picture, "hatch", bar, HATCH_WORDS, &numbers, "");
}

/// Draws the first 500 windows of a queue (port and class) in the picture's time span, in the row `y` pixels from the top. If there are
/// more, hatches the rest. `put_open_windows` calls it.
pub(crate) fn put_windows<A: Allocator + Copy>(
    picture: &mut RunPicture,
    y: u64,
    queue: (u8, u8),
    list: &Egress<A>,
)
    requires { queue.1 < 8 }
{
    let end = picture.span.to.min(END_OF_TURNS);
    let all = count_windows(list, queue.1, picture.span);
    picture.windows = picture.windows.saturating_add(all);
    let mut at = picture.span.from;
    for _ in 0..all.min(MAX_WINDOWS) {
        if at < end && !is_class_open(list, queue.1, at) {
            at = next_gate_change(list, queue.1, at, end);
        }
        let to = next_gate_change(list, queue.1, at, end);
        put_window(picture, y, queue, at, to);
        at = to;
    }
    if all > MAX_WINDOWS {
        put_hatch(picture, y, queue, at, all);
    }
}
