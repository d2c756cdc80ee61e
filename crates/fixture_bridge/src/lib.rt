#![tactic(auto)]
//! Helpers of tests: a bridge whose state is tested after each call, and an allocator that refuses a single allocation.

pub mod base;
pub mod ending;
pub mod refuses_one;

ghost use Rattle.std.specs.Prelude.{◌≡◌, true, Option};
ghost use Rattle.bridge_filter.specs.Plans.{is_listed};
ghost use Rattle.bridge_config.specs.Commands.{has_instance};
ghost use Rattle.bridge_relay.specs.Ports.{StartsNoEarlier};
ghost use Rattle.bridge_core.specs.Bridges.{next_start, bridge_plan};

use bridge_capture::{Capture, Packet, SliceSource};
use bridge_check::Accepted;
use bridge_config::Command;
use bridge_core::{Agenda, Bridge, Outcome, Sent};
use bridge_filter::Clear;
use bridge_limits::{END_OF_TIME, MAX_ARRIVALS, MAX_CAPTURED_OCTETS};
pub use ending::{Ending, refuse_each};
pub use refuses_one::RefusesOne;
use std::alloc::{Allocator, Global};
use std::fmt::Debug;
use std::test::Fail;

/// A frame: arrival time in ns, length in octets, and captured octets.
pub type Frame = (u64, u32, &'static [u8]);

/// Tests that two values are equal. The failure names `what`.
pub fn test_same<X: PartialEq + Debug>(got: &X, wanted: &X, what: &str) -> Result<(), Fail> {
    if got == wanted {
        return Ok(());
    }
    Err(Fail::new(format_args!("{what}: {got:?}, not {wanted:?}")))
}

/// Whether no start is due before time `t`.
fn has_no_due_start<G: Agenda + Drop, A: Allocator + Copy>(
    bridge: &Bridge<'_, G, A>,
    t: u64,
) -> bool
    ensures { result ≡ true → StartsNoEarlier (next_start G.held bridge.now) t }
{
    match bridge.due() {
        Some((_, start)) => t <= start,
        None => true,
    }
}

/// Makes all starts before time `until`, and keeps the sent frames.
fn depart<G: Agenda + Drop>(
    bridge: &mut Bridge<'_, G, Global>,
    until: u64,
    gone: &mut Vec<Sent<Global>>,
) -> Result<(), Fail>
    ensures plan { bridge_plan bridge.new ≡ bridge_plan bridge.old }
{
    while let Some((port, start)) = bridge.due() {
        if start >= until {
            return Ok(());
        }
        let wanted = (port as u64, start, bridge.earliest_command().max(start + 1));
        let sent = bridge.advance();
        let told = (sent.port as u64, sent.start, bridge.earliest_command());
        keep_sent(gone, sent, told, wanted)?;
    }
    Ok(())
}

/// Keeps a sent frame, if port and start are the due ones.
fn keep_sent(
    gone: &mut Vec<Sent<Global>>,
    sent: Sent<Global>,
    told: (u64, u64, u64),
    wanted: (u64, u64, u64),
) -> Result<(), Fail> {
    let what = "the start that was due, and a command after it";
    match test_same(&told, &wanted, what) {
        Ok(()) => require_memory(gone.push(sent)),
        Err(fail) => {
            drop(sent);
            Err(fail)
        }
    }
}

/// Returns a failure if memory ran out.
fn require_memory<E: Drop>(pushed: Result<(), E>) -> Result<(), Fail> {
    match pushed {
        Ok(()) => Ok(()),
        Err(_) => Err(Fail::from("no memory")),
    }
}

/// Tests the number of arrived frames, and the earliest times of the next frame and command.
fn test_counts<G: Agenda + Drop, A: Allocator + Copy>(
    bridge: &Bridge<'_, G, A>,
    wanted: (u64, u64, u64),
    what: &str,
) -> Result<(), Fail> {
    let told = (
        bridge.arrived(),
        bridge.earliest(),
        bridge.earliest_command(),
    );
    test_same(&told, &wanted, what)
}

/// Hands a frame to a bridge at `port`, and returns the frame if memory ran out. Returns an error if the frame isn't allowed.
pub fn hand<G: Agenda + Drop, A: Allocator + Copy>(
    accepted: &Accepted<A>,
    bridge: &mut Bridge<'_, G, A>,
    port: u8,
    packet: Packet<A>,
) -> Result<Result<(), Packet<A>>, &'static str>
    requires plan { bridge_plan bridge.old ≡ accepted.now }
    ensures plan { bridge_plan bridge.new ≡ bridge_plan bridge.old }
{
    let Some(_) = accepted.plan().port(port) else {
        return Err("a frame on a port that is not there");
    };
    let time = packet.time;
    if time < bridge.earliest()
        || time >= END_OF_TIME
        || !has_no_due_start(bridge, time)
        || packet.octets.len() as u64 > MAX_CAPTURED_OCTETS as u64
        || packet.octets.len() as u64 > packet.len as u64
        || bridge.arrived() >= MAX_ARRIVALS
    {
        return Err("a frame at a wrong moment, or too long, or too many");
    }
    match bridge.arrive(port, packet) {
        Ok(()) => Ok(Ok(())),
        Err((packet, _)) => Ok(Err(packet)),
    }
}

/// Makes a frame and hands it to a bridge at `port`. Returns an error if memory ran out or the frame isn't allowed.
pub fn bring_frame<G: Agenda + Drop, A: Allocator + Copy>(
    alloc: A,
    accepted: &Accepted<A>,
    bridge: &mut Bridge<'_, G, A>,
    port: u8,
    frame: (u64, u32, &[u8]),
) -> Result<(), &'static str>
    requires plan { bridge_plan bridge.old ≡ accepted.now }
    ensures plan { bridge_plan bridge.new ≡ bridge_plan bridge.old }
{
    let (time, len, captured) = frame;
    let Ok(octets) = Vec::from_slice(alloc, captured) else {
        return Err("no memory");
    };
    match hand(accepted, bridge, port, Packet { time, len, octets })? {
        Ok(()) => Ok(()),
        Err(_) => Err("no memory"),
    }
}

/// Hands a frame to a bridge at `port`, and tests the bridge's counts afterwards.
pub fn bring_or_fail<G: Agenda + Drop, A: Allocator + Copy>(
    alloc: A,
    accepted: &Accepted<A>,
    bridge: &mut Bridge<'_, G, A>,
    port: u8,
    frame: (u64, u32, &[u8]),
) -> Result<(), Fail>
    requires plan { bridge_plan bridge.old ≡ accepted.now }
    ensures plan { bridge_plan bridge.new ≡ bridge_plan bridge.old }
{
    let arrived = bridge.arrived();
    match bring_frame(alloc, accepted, bridge, port, frame) {
        Ok(()) => test_counts(
            bridge,
            (
                arrived.saturating_add(1),
                frame.0,
                frame.0.saturating_add(1),
            ),
            "the frames that came, and the moments of the next frame and command",
        ),
        Err(why) => Err(Fail::from(why)),
    }
}

/// Whether `number` is in a list.
fn is_listed<X>(list: &[(u32, X)], number: u32) -> bool
    ensures { result ≡ is_listed number list.now }
{
    for item in list {
        if number == item.0 {
            return true;
        }
    }
    false
}

/// Whether a plan has the filter, gate or meter that a command names.
pub fn has_instance<A: Allocator + Copy>(accepted: &Accepted<A>, clear: Clear, number: u32) -> bool
    ensures { result ≡ has_instance accepted.now clear number }
{
    let plan = accepted.plan();
    match clear {
        Clear::Blocked => is_listed(plan.filters(), number),
        Clear::Rx | Clear::Octets => is_listed(plan.gates(), number),
        Clear::Red => is_listed(plan.meters(), number),
    }
}

/// Carries out a command, and tests the result. Fails if a start before the command is due.
pub fn run_command<G: Agenda + Drop, A: Allocator + Copy>(
    accepted: &Accepted<A>,
    bridge: &mut Bridge<'_, G, A>,
    command: &Command,
) -> Result<(), Fail>
    requires plan { bridge_plan bridge.old ≡ accepted.now }
    ensures plan { bridge_plan bridge.new ≡ bridge_plan bridge.old }
{
    if command.at < bridge.earliest_command() || !has_no_due_start(bridge, command.at) {
        return Err(Fail::from("a command at a wrong moment"));
    }
    if !has_instance(accepted, command.clear, command.number) {
        return Err(Fail::from("a command of what is not there"));
    }
    let arrived = bridge.arrived();
    let due = bridge.due();
    bridge.command(command);
    test_command_result(bridge, arrived, due, command.at)
}

/// Tests a bridge after a command: due start, arrived frames, and the earliest times of the next frame and command.
fn test_command_result<G: Agenda + Drop, A: Allocator + Copy>(
    bridge: &Bridge<'_, G, A>,
    arrived: u64,
    due: Option<(u8, u64)>,
    at: u64,
) -> Result<(), Fail> {
    test_same(&bridge.due(), &due, "the start that is due after a command")?;
    test_counts(
        bridge,
        (arrived, at, at),
        "the frames that came before a command, and the moments of what may come behind it",
    )
}

/// Reads the frames of a capture.
fn read_frames(alloc: Global, text: &[u8]) -> Result<Vec<Packet<Global>>, Fail> {
    let mut source = SliceSource::new(text);
    let Ok(mut capture) = Capture::begin(&mut source) else {
        return Err(Fail::from("a capture that is refused"));
    };
    let mut frames = Vec::new(alloc);
    for _ in 0..1_000_001 {
        match capture.next(alloc, &mut source) {
            Ok(Some(packet)) => frames.push(packet)?,
            Ok(None) => return Ok(frames),
            Err(_) => return Err(Fail::from("a record that is refused")),
        }
    }
    Err(Fail::from("a capture without an end"))
}

/// Frames of the captures of ports 1, 2 and 3.
#[derive(Drop)]
struct Frames {
    first: Vec<Packet<Global>>,
    second: Vec<Packet<Global>>,
    third: Vec<Packet<Global>>,
}

impl Frames {
    /// Returns the frame at index `place` of a port.
    fn frame_at_index(&self, port: u8, place: usize) -> Option<&Packet<Global>> {
        match port {
            1 => self.first.get(place),
            2 => self.second.get(place),
            _ => self.third.get(place),
        }
    }
}

/// Reads the frames of three captures.
fn all_frames(alloc: Global, texts: [&[u8]; 3]) -> Result<Frames, Fail> {
    let [first, second, third] = texts;
    let first = read_frames(alloc, first)?;
    let second = read_frames(alloc, second)?;
    let third = read_frames(alloc, third)?;
    Ok(Frames {
        first,
        second,
        third,
    })
}

/// Adds the frames of a port to the order of arrivals.
fn put_frames(
    order: &mut Vec<(u64, u8, usize)>,
    port: u8,
    frames: &[Packet<Global>],
) -> Result<(), Fail> {
    for (place, frame) in frames.iter().enumerate() {
        order.push((frame.time, port, place))?;
    }
    Ok(())
}

/// Returns the order of arrivals: by time, port and index. The command has port 0, so it precedes the frames of its time.
fn arrival_order(
    alloc: Global,
    command: Option<Command>,
    frames: &Frames,
) -> Result<Vec<(u64, u8, usize)>, Fail> {
    let mut order = Vec::new(alloc);
    if let Some(command) = command {
        order.push((command.at, 0, 0))?;
    }
    put_frames(&mut order, 1, &frames.first)?;
    put_frames(&mut order, 2, &frames.second)?;
    put_frames(&mut order, 3, &frames.third)?;
    order.sort()?;
    Ok(order)
}

/// Carries out the command, whose port is 0, or hands over a frame of a port.
fn take_arrival<G: Agenda + Drop>(
    alloc: Global,
    accepted: &Accepted<Global>,
    bridge: &mut Bridge<'_, G, Global>,
    command: Option<Command>,
    frames: &Frames,
    port: u8,
    place: usize,
) -> Result<(), Fail>
    requires plan { bridge_plan bridge.old ≡ accepted.now }
    ensures plan { bridge_plan bridge.new ≡ bridge_plan bridge.old }
{
    if port == 0 {
        return match command {
            Some(command) => run_command(accepted, bridge, &command),
            None => Err(Fail::from("no command")),
        };
    }
    match frames.frame_at_index(port, place) {
        Some(frame) => bring_or_fail(
            alloc,
            accepted,
            bridge,
            port,
            (frame.time, frame.len, &frame.octets),
        ),
        None => Err(Fail::from("no frame")),
    }
}

/// Hands over the command and all frames, each after the starts before its time, and keeps the sent frames.
fn take_arrivals<G: Agenda + Drop>(
    alloc: Global,
    accepted: &Accepted<Global>,
    bridge: &mut Bridge<'_, G, Global>,
    command: Option<Command>,
    frames: &Frames,
    gone: &mut Vec<Sent<Global>>,
) -> Result<(), Fail>
    requires plan { bridge_plan bridge.old ≡ accepted.now }
    ensures plan { bridge_plan bridge.new ≡ bridge_plan bridge.old }
{
    let order = arrival_order(alloc, command, frames)?;
    for (moment, port, place) in &order {
        depart(bridge, *moment, gone)?;
        take_arrival(alloc, accepted, bridge, command, frames, *port, *place)?;
    }
    Ok(())
}

/// Tests that the number of a port's starts equals the number of frames sent by it.
fn has_started<G: Agenda + Drop>(
    accepted: &Accepted<Global>,
    bridge: &Bridge<'_, G, Global>,
    port: u8,
    gone: &[Sent<Global>],
) -> Result<(), Fail>
    requires plan { bridge_plan bridge.now ≡ accepted.now }
{
    let Some(_) = accepted.plan().port(port) else {
        return Err(Fail::from("a port that is not there"));
    };
    let left = gone.iter().filter(|sent| sent.port == port).count();
    test_same(
        &bridge.started(port),
        &(left as u64),
        "the starts of a port",
    )
}

/// Ends a bridge, which must have no due start.
fn finish_bridge<G: Agenda + Drop>(bridge: Bridge<'_, G, Global>) -> Result<Outcome<Global>, Fail> {
    match bridge.due() {
        Some(_) => {
            drop(bridge);
            Err(Fail::from("a start that is still due"))
        }
        None => Ok(bridge.finish()),
    }
}

/// Drives a new bridge until its queues are empty, and returns the sent frames in order.
fn drive<G: Agenda + Drop>(
    alloc: Global,
    accepted: &Accepted<Global>,
    bridge: &mut Bridge<'_, G, Global>,
    command: Option<Command>,
    frames: &Frames,
) -> Result<Vec<Sent<Global>>, Fail>
    requires plan { bridge_plan bridge.old ≡ accepted.now }
{
    let mut gone = Vec::new(alloc);
    match drive_and_keep(alloc, accepted, bridge, command, frames, &mut gone) {
        Ok(()) => Ok(gone),
        Err(fail) => {
            drop(gone);
            Err(fail)
        }
    }
}

/// Drives a new bridge until its queues are empty, and keeps the sent frames.
fn drive_and_keep<G: Agenda + Drop>(
    alloc: Global,
    accepted: &Accepted<Global>,
    bridge: &mut Bridge<'_, G, Global>,
    command: Option<Command>,
    frames: &Frames,
    gone: &mut Vec<Sent<Global>>,
) -> Result<(), Fail>
    requires plan { bridge_plan bridge.old ≡ accepted.now }
{
    let what = "no frame, and the first moments of a frame and of a command";
    test_counts(bridge, (0, 0, 0), what)?;
    take_arrivals(alloc, accepted, bridge, command, frames, gone)?;
    depart(bridge, u64::MAX, gone)?;
    have_started(accepted, bridge, gone)
}

/// Tests the number of starts of each port.
fn have_started<G: Agenda + Drop>(
    accepted: &Accepted<Global>,
    bridge: &Bridge<'_, G, Global>,
    gone: &[Sent<Global>],
) -> Result<(), Fail>
    requires plan { bridge_plan bridge.now ≡ accepted.now }
{
    has_started(accepted, bridge, 1, gone)?;
    has_started(accepted, bridge, 2, gone)?;
    has_started(accepted, bridge, 3, gone)
}

/// Ends a bridge, which must have no due start, and returns its result and the sent frames.
fn finish_with_frames<G: Agenda + Drop>(
    bridge: Bridge<'_, G, Global>,
    gone: Vec<Sent<Global>>,
) -> Result<(Outcome<Global>, Vec<Sent<Global>>), Fail> {
    match finish_bridge(bridge) {
        Ok(outcome) => Ok((outcome, gone)),
        Err(fail) => Err(fail),
    }
}

/// Drives a bridge of an accepted plan by single calls.
fn drive_accepted<G: Agenda + Drop>(
    alloc: Global,
    accepted: &Accepted<Global>,
    command: Option<Command>,
    frames: &Frames,
) -> Result<(Outcome<Global>, Vec<Sent<Global>>), Fail> {
    let Ok(mut bridge) = Bridge::<G, Global>::new(alloc, accepted) else {
        return Err(Fail::from("no memory"));
    };
    match drive(alloc, accepted, &mut bridge, command, frames) {
        Ok(gone) => finish_with_frames(bridge, gone),
        Err(fail) => {
            drop(bridge);
            Err(fail)
        }
    }
}

/// Drives a bridge by single calls over three captures and a command. Returns its result and the sent frames in order. A wrong answer of a
/// call is a failure.
pub fn drive_bridge<G: Agenda + Drop>(
    alloc: Global,
    accepted: &Accepted<Global>,
    command: Option<Command>,
    texts: [&[u8]; 3],
) -> Result<(Outcome<Global>, Vec<Sent<Global>>), Fail> {
    let frames = all_frames(alloc, texts)?;
    drive_accepted::<G>(alloc, accepted, command, &frames)
}
