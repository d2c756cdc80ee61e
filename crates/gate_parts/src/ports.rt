//! Asks ports for refusals and starts.
ghost use Rattle.std.specs.Prelude.{◌≡◌, true};
ghost use Rattle.bridge_port.specs.StandsFor.{HasNoStartEarlier};

use crate::lists::parse_lists;
use crate::parts::{Part, ask_made};
use crate::words::{
    Fault, Output, answer, first_word, has_word, number_by_name, number_or_max, show,
    split_first_line, tell, u32_or_max,
};
use bridge_frame::{Speed, occupation};
use bridge_limits::{END_OF_TIME, LONGEST_FRAME, MAX_ARRIVALS};
use bridge_port::{
    Item, Port, Refusal, are_valid_rooms, can_fit_is_exact, can_fit_soon, own_windows_isolate,
    solo_copies_follow,
};
use std::alloc::{Allocator, Global};

/// A start: class, length in octets, start and end of transmission in ns.
type Start = (u8, u32, u64, u64);

/// Reads the queue capacities of a line: 64 frames for each class, and for class 7 the number after `last`.
fn parse_rooms(line: &str) -> [u16; 8] {
    let last = number_by_name(line, "last").unwrap_or(64);
    [64, 64, 64, 64, 64, 64, 64, last]
}

fn parse_speed(line: &str) -> Option<Speed> {
    match number_by_name(line, "mbps") {
        Some(mbps) => Speed::of(mbps),
        None => None,
    }
}

/// Makes the port of a line `port mbps NUMBER`. With the word `cycle`, the port has gate control lists.
pub fn parse_port<A: Allocator + Copy>(alloc: A, line: &str) -> Result<Port<u32, A>, Fault> {
    let rooms = parse_rooms(line);
    let Some(speed) = parse_speed(line) else {
        return Err(Fault::NotAllowed);
    };
    if !are_valid_rooms(&rooms) {
        return Err(Fault::NotAllowed);
    }
    let lists = if has_word(line, "cycle") {
        Some(parse_lists(alloc, line)?)
    } else {
        None
    };
    Ok(Port::new(alloc, speed, lists, rooms)?)
}

/// A port and the speed of its link.
#[derive(Drop)]
struct SendingPort {
    port: Port<u32, Global>,
    speed: Speed,
}

/// Makes a port, and asks it line by line.
pub fn port(said: &mut Output, text: &str) {
    let (head, lines) = split_first_line(text);
    ask_made(said, parse_sending_port(said.alloc, head), head, lines)
}

fn parse_sending_port(alloc: Global, line: &str) -> Result<SendingPort, Fault> {
    let Some(speed) = parse_speed(line) else {
        return Err(Fault::NotAllowed);
    };
    let port = parse_port(alloc, line)?;
    Ok(SendingPort { port, speed })
}

impl Part for SendingPort {
    fn ask(&mut self, said: &mut Output, line: &str) {
        match first_word(line) {
            "offer" => offer(said, &mut self.port, line, self.speed),
            "starts" => make_all_starts(said, &mut self.port, line, self.speed),
            "next" => tell(said, line, &self.port.next_start()),
            "counts" => tell(said, line, &counts(&self.port)),
            "laws" => name_laws(said, line),
            _ => show(said, line),
        }
    }
}

/// Returns the numbers of offers and starts, and the earliest time of the next offer.
fn counts(port: &Port<u32, Global>) -> (u64, u64, u64) {
    (port.offered(), port.started(), port.earliest())
}

/// Makes the starts that are due before an offer, and adds the offer's result: `offer MOMENT CLASS LENGTH`.
fn offer(said: &mut Output, port: &mut Port<u32, Global>, line: &str, speed: Speed) {
    let t = number_or_max(line, 1);
    make_due_starts(said, port, speed, t);
    answer(
        said,
        line,
        offer_frame(port, t, number_or_max(line, 2), u32_or_max(line, 3)),
    )
}

/// Offers a frame, if the port may be offered it, and returns the port's refusal, if any.
fn offer_frame(
    port: &mut Port<u32, Global>,
    t: u64,
    class: u64,
    len: u32,
) -> Result<Result<(), Refusal>, Fault> {
    let is_allowed = class < 8 && len <= LONGEST_FRAME && port.offered() < MAX_ARRIVALS;
    if !is_allowed || t < port.earliest() || t >= END_OF_TIME || !has_no_due_start(port, t) {
        return Err(Fault::NotAllowed);
    }
    match port.offer(t, class as u8, Item { len, load: len }) {
        Ok(()) => Ok(Ok(())),
        Err((_, refusal)) => Ok(Err(refusal)),
    }
}

/// Whether no start is due before time `t`.
fn has_no_due_start(port: &Port<u32, Global>, t: u64) -> bool
    ensures { result ≡ true → HasNoStartEarlier port.now t }
{
    match port.next_start() {
        Some(next) => t <= next,
        None => true,
    }
}

/// Makes all remaining starts, and adds each.
fn make_all_starts(said: &mut Output, port: &mut Port<u32, Global>, line: &str, speed: Speed) {
    show(said, line);
    make_due_starts(said, port, speed, u64::MAX)
}

/// Makes the starts that are due before time `t`, and adds each.
fn make_due_starts(said: &mut Output, port: &mut Port<u32, Global>, speed: Speed, t: u64) {
    for _ in 0..1_000 {
        match make_due_start(port, speed, t) {
            Some(start) => tell(said, "start", &start),
            None => break,
        }
    }
}

/// Makes the next start, if it is due before time `t`.
fn make_due_start(port: &mut Port<u32, Global>, speed: Speed, t: u64) -> Option<Start> {
    match port.next_start() {
        Some(next) if next < t => {
            let (item, class) = port.start();
            let start = port.earliest().saturating_sub(1);
            let done = start.saturating_add(occupation(item.len, speed));
            Some((class, item.load, start, done))
        }
        _ => None,
    }
}

/// Names the laws of ports, to show that other crates can use them.
fn name_laws(said: &mut Output, line: &str) {
    can_fit_is_exact();
    can_fit_soon();
    solo_copies_follow::<u32>();
    own_windows_isolate::<u32>();
    said.text.put_template("{a} -> named\n", &[], &[line]);
}
