//! Tests the memory that the calls of a bridge allocate and free.
ghost use Rattle.std.specs.Prelude.{◌≡◌};
ghost use Rattle.bridge_core.specs.Bridges.{bridge_plan};

use crate::account::{HasAccount, NEVER, is_untouched};
use crate::parts;
use bridge_capture::Packet;
use bridge_check::{Accepted, check};
use bridge_config::Command;
use bridge_core::{Agenda, Bridge, Outcome, RowAgenda, TreeAgenda};
use bridge_filter::Clear;
use fixture_bridge::{Frame, bring_frame, bring_or_fail, hand, run_command, test_same};
use std::alloc::{Allocator, Global};
use std::process::Abort;
use std::test::Fail;

/// A frame of VLAN 10 from port 1, which leaves by port 3.
const TO_ONE: Frame = (
    100_000,
    60,
    &[
        2, 0, 0, 0, 0, 0x0a, 2, 0, 0, 0, 0, 1, 0x81, 0, 0, 0x0a, 0x88, 0xb5,
    ],
);

/// A frame like `TO_ONE`, one millisecond later.
const LATER: Frame = (
    1_100_000,
    60,
    &[
        2, 0, 0, 0, 0, 0x0a, 2, 0, 0, 0, 0, 1, 0x81, 0, 0, 0x0a, 0x88, 0xb5,
    ],
);

/// A frame of VLAN 10 from port 1, which leaves by ports 2 and 3.
const TO_TWO: Frame = (
    100_000,
    60,
    &[
        2, 0, 0, 0, 0, 0x0b, 2, 0, 0, 0, 0, 1, 0x81, 0, 0, 0x0a, 0x88, 0xb5,
    ],
);

/// Returns the accepted plan of these tests, or `None` if memory ran out.
fn accepted_plan<A: Allocator + Copy>(heap: A, document: Global) -> Option<Accepted<A>> {
    match parts::make_plan(heap, document) {
        Ok(plan) => check(heap, plan).ok(),
        Err(_) => None,
    }
}

/// Makes the due starts, and returns their number.
fn send<G: Agenda + Drop, A: Allocator + Copy>(bridge: &mut Bridge<'_, G, A>) -> u64
    ensures plan { bridge_plan bridge.new ≡ bridge_plan bridge.old }
{
    let mut starts: u64 = 0;
    while bridge.due().is_some() {
        let _sent = bridge.advance();
        starts = starts.saturating_add(1);
    }
    starts
}

/// Tests that a sent frame frees its octets, without an allocation.
fn leave_first<G: Agenda + Drop, H: Allocator + Copy + HasAccount>(
    rt: &impl Abort,
    heap: H,
    bridge: &mut Bridge<'_, G, H>,
)
    ensures plan { bridge_plan bridge.new ≡ bridge_plan bridge.old }
{
    let came = heap.account();
    let is_due = bridge.due() == Some((3, 100_000));
    let starts = send(bridge);
    let sent = heap.account();
    assert!(rt; is_due & (starts == 1) & (sent.left == came.left) & (sent.used < came.used));
}

/// Tests that a frame to one port makes five allocations, for its octets and the lists of its filter, and frees its octets when sent.
fn come_first<G: Agenda + Drop, H: Allocator + Copy + HasAccount>(
    rt: &impl Abort,
    heap: H,
    accepted: &Accepted<H>,
    bridge: &mut Bridge<'_, G, H>,
) -> Result<(), Fail>
    requires plan { bridge_plan bridge.old ≡ accepted.now }
    ensures plan { bridge_plan bridge.new ≡ bridge_plan bridge.old }
{
    let made = heap.account();
    bring_or_fail(heap, accepted, bridge, 1, TO_ONE)?;
    assert!(rt; made.left.saturating_sub(heap.account().left) == 5);
    leave_first(rt, heap, bridge);
    Ok(())
}

/// Tests that a command allocates nothing, and that a second frame only allocates its octets.
fn come_second<G: Agenda + Drop, H: Allocator + Copy + HasAccount>(
    rt: &impl Abort,
    heap: H,
    accepted: &Accepted<H>,
    bridge: &mut Bridge<'_, G, H>,
) -> Result<(), Fail>
    requires plan { bridge_plan bridge.old ≡ accepted.now }
{
    let sent = heap.account();
    run_command(accepted, bridge, &UNBLOCK)?;
    let obeyed = heap.account();
    bring_or_fail(heap, accepted, bridge, 1, LATER)?;
    let came = heap.account();
    let starts = send(bridge);
    let is_so = (obeyed == sent)
        & (sent.left.saturating_sub(came.left) == 1)
        & (starts == 1)
        & (heap.account().used == sent.used);
    assert!(rt; is_so);
    Ok(())
}

const UNBLOCK: Command = Command {
    at: 200_000,
    clear: Clear::Blocked,
    number: 10,
};

/// Tests that no frame has arrived, and that asking a bridge allocates nothing.
fn is_idle<G: Agenda + Drop, H: Allocator + Copy + HasAccount>(
    rt: &impl Abort,
    heap: H,
    bridge: &Bridge<'_, G, H>,
) {
    let made = heap.account();
    let is_so = (bridge.due() == None)
        & (bridge.arrived() == 0)
        & (bridge.earliest() == 0)
        & (bridge.earliest_command() == 0);
    assert!(rt; is_so);
    is_untouched(rt, heap, made);
}

/// Drives a bridge, and tests its allocations.
fn use_bridge<G: Agenda + Drop, H: Allocator + Copy + HasAccount>(
    rt: &impl Abort,
    heap: H,
    accepted: &Accepted<H>,
    bridge: &mut Bridge<'_, G, H>,
) -> Result<(), Fail>
    requires plan { bridge_plan bridge.old ≡ accepted.now }
{
    is_idle(rt, heap, bridge);
    come_first(rt, heap, accepted, bridge)?;
    come_second(rt, heap, accepted, bridge)
}

/// Ends a bridge without allocation.
fn end<G: Agenda + Drop, H: Allocator + Copy + HasAccount>(
    rt: &impl Abort,
    heap: H,
    bridge: Bridge<'_, G, H>,
) -> Result<(), Fail> {
    let before = heap.account();
    match bridge.due() {
        Some(_) => {
            drop(bridge);
            Err(Fail::from("a start that is still due"))
        }
        None => {
            has_ended(rt, heap, before.left, bridge.finish());
            Ok(())
        }
    }
}

/// Tests the result of a bridge, which must have made no allocation.
fn has_ended<H: Allocator + Copy + HasAccount>(
    rt: &impl Abort,
    heap: H,
    left: u64,
    outcome: Outcome<H>,
) {
    let is_so = (heap.account().left == left) & (outcome.filters.len() == 2);
    drop(outcome);
    assert!(rt; is_so);
}

/// Drives and ends a bridge with the agenda `G`, and tests its allocations.
fn takes_no_memory<G: Agenda + Drop, H: Allocator + Copy + HasAccount>(
    rt: &impl Abort,
    heap: H,
    accepted: &Accepted<H>,
) -> Result<(), Fail> {
    let Ok(mut bridge) = Bridge::<G, H>::new(heap, accepted) else {
        return Err(Fail::from("no memory"));
    };
    match use_bridge(rt, heap, accepted, &mut bridge) {
        Ok(()) => end(rt, heap, bridge),
        Err(fail) => {
            drop(bridge);
            Err(fail)
        }
    }
}

/// Drives a bridge of an accepted plan with each agenda, and tests that it frees all its memory.
fn give_all_back<H: Allocator + Copy + HasAccount>(
    rt: &impl Abort,
    heap: H,
    accepted: &Accepted<H>,
) -> Result<(), Fail> {
    let made = heap.account();
    assert!(rt; made.left < NEVER && made.used > 0);
    takes_no_memory::<RowAgenda, H>(rt, heap, accepted)?;
    assert!(rt; heap.account().used == made.used, "all is given back");
    takes_no_memory::<TreeAgenda, H>(rt, heap, accepted)?;
    assert!(rt; heap.account().used == made.used, "all is given back");
    Ok(())
}

/// Drives a bridge with each agenda, and tests that it frees all its memory.
pub(crate) fn gives_all_back<H: Allocator + Copy + HasAccount>(
    rt: &impl Abort,
    heap: H,
    document: Global,
) -> Result<(), Fail> {
    let Some(accepted) = accepted_plan(heap, document) else {
        return Err(Fail::from("the plan was refused"));
    };
    let given = give_all_back(rt, heap, &accepted);
    drop(accepted);
    given
}

/// Whether a bridge of an accepted plan can be made.
fn can_make_bridge<G: Agenda + Drop, A: Allocator + Copy>(heap: A, accepted: &Accepted<A>) -> bool {
    match Bridge::<G, A>::new(heap, accepted) {
        Ok(bridge) => {
            drop(bridge);
            true
        }
        Err(_) => false,
    }
}

/// Whether a plan and a bridge with the agenda `G` can be made.
pub(crate) fn is_bridge_made<G: Agenda + Drop, A: Allocator + Copy>(
    heap: A,
    document: Global,
) -> bool {
    match accepted_plan(heap, document) {
        Some(accepted) => {
            let is_made = can_make_bridge::<G, A>(heap, &accepted);
            drop(accepted);
            is_made
        }
        None => false,
    }
}

/// Whether a bridge accepts a frame that leaves by two ports.
fn is_frame_taken<G: Agenda + Drop, A: Allocator + Copy>(
    heap: A,
    accepted: &Accepted<A>,
    bridge: &mut Bridge<'_, G, A>,
) -> bool
    requires plan { bridge_plan bridge.old ≡ accepted.now }
{
    bring_frame(heap, accepted, bridge, 1, TO_TWO).is_ok()
}

/// Whether a bridge can be made and accepts a frame that leaves by two ports.
fn is_relayed_by_bridge<G: Agenda + Drop, A: Allocator + Copy>(
    heap: A,
    accepted: &Accepted<A>,
) -> bool {
    match Bridge::<G, A>::new(heap, accepted) {
        Ok(mut bridge) => {
            let is_taken = is_frame_taken(heap, accepted, &mut bridge);
            drop(bridge);
            is_taken
        }
        Err(_) => false,
    }
}

/// Whether a plan and its bridge can be made, and the bridge accepts a frame that leaves by two ports.
pub(crate) fn is_frame_relayed<G: Agenda + Drop, A: Allocator + Copy>(
    heap: A,
    document: Global,
) -> bool {
    match accepted_plan(heap, document) {
        Some(accepted) => {
            let is_relayed = is_relayed_by_bridge::<G, A>(heap, &accepted);
            drop(accepted);
            is_relayed
        }
        None => false,
    }
}

/// Returns the frame that leaves by two ports, or `None` if memory ran out.
fn packet_to_two<A: Allocator + Copy>(heap: A) -> Option<Packet<A>> {
    let (time, len, captured) = TO_TWO;
    match Vec::from_slice(heap, captured) {
        Ok(octets) => Some(Packet { time, len, octets }),
        Err(_) => None,
    }
}

/// Tests that a returned frame is unchanged, and that the bridge has no arrival and no due start.
fn is_unchanged<G: Agenda + Drop, A: Allocator + Copy>(
    bridge: &Bridge<'_, G, A>,
    back: &Packet<A>,
) -> Result<(), Fail> {
    let (time, len, captured) = TO_TWO;
    test_same(
        &(back.time, back.len),
        &(time, len),
        "the frame that came back",
    )?;
    test_same(&back.octets.as_slice(), &captured, "its octets")?;
    test_same(
        &(bridge.due(), bridge.arrived(), bridge.earliest()),
        &(None, 0, 0),
        "the start that is due, the frames that came, and the moment of the next frame",
    )
}

/// Hands a frame to a bridge, and once more if the frame is returned and `again` is true. Returns whether it was returned.
fn hand_frame<G: Agenda + Drop, A: Allocator + Copy>(
    accepted: &Accepted<A>,
    bridge: &mut Bridge<'_, G, A>,
    packet: Packet<A>,
    again: bool,
) -> Result<bool, Fail>
    requires plan { bridge_plan bridge.old ≡ accepted.now }
{
    let back = match hand(accepted, bridge, 1, packet) {
        Ok(Ok(())) => return Ok(false),
        Ok(Err(back)) => back,
        Err(why) => return Err(Fail::from(why)),
    };
    match is_unchanged(bridge, &back) {
        Ok(()) => hand_frame_again(accepted, bridge, back, again),
        Err(fail) => {
            drop(back);
            Err(fail)
        }
    }
}

/// Hands a returned frame to a bridge once more, if `again` is true.
fn hand_frame_again<G: Agenda + Drop, A: Allocator + Copy>(
    accepted: &Accepted<A>,
    bridge: &mut Bridge<'_, G, A>,
    back: Packet<A>,
    again: bool,
) -> Result<bool, Fail>
    requires plan { bridge_plan bridge.old ≡ accepted.now }
{
    if !again {
        drop(back);
        return Ok(true);
    }
    match hand(accepted, bridge, 1, back) {
        Ok(Ok(())) => Ok(true),
        Ok(Err(back)) => {
            drop(back);
            Err(Fail::from("a second growth that is refused"))
        }
        Err(why) => Err(Fail::from(why)),
    }
}

/// Tests the result of a run over `frames` frames to two ports, 0 or 1.
fn test_outcome<A: Allocator + Copy>(outcome: &Outcome<A>, frames: u64) -> Result<(), Fail> {
    let [own, others] = outcome.filters.as_slice() else {
        return Err(Fail::from("other filters"));
    };
    let copies = frames.saturating_mul(2);
    let told = (
        own.1.counters.matching,
        others.1.counters.matching,
        others.1.verdicts.len() as u64,
        others.1.departures.len() as u64,
    );
    test_same(
        &told,
        &(0, frames, frames, copies),
        "frames of filter 10, frames, verdicts and departures of filter 99",
    )?;
    let mut sums = [0u64; 3];
    for (_, count) in &outcome.ports {
        let [came, sent, other] = sums;
        sums = [
            came.saturating_add(count.frames),
            sent.saturating_add(count.sent),
            other.saturating_add(count.dropped),
        ];
    }
    test_same(&sums, &[frames, copies, 0], "counts of the ports")
}

/// Makes all starts of a bridge, ends it, and tests its result for `frames` frames.
fn test_ending<G: Agenda + Drop, A: Allocator + Copy>(
    mut bridge: Bridge<'_, G, A>,
    frames: u64,
) -> Result<(), Fail> {
    let starts = send(&mut bridge);
    match bridge.due() {
        Some(_) => {
            drop(bridge);
            Err(Fail::from("a start that is still due"))
        }
        None => test_starts_and_outcome(bridge.finish(), starts, frames),
    }
}

/// Tests the number of starts and the result of a run over `frames` frames.
fn test_starts_and_outcome<A: Allocator + Copy>(
    outcome: Outcome<A>,
    starts: u64,
    frames: u64,
) -> Result<(), Fail> {
    let told = match test_same(&starts, &frames.saturating_mul(2), "starts") {
        Ok(()) => test_outcome(&outcome, frames),
        Err(fail) => Err(fail),
    };
    drop(outcome);
    told
}

/// Makes a frame and a bridge, hands the frame over, and tests the bridge. Returns whether the frame was returned.
fn test_returned_frame<G: Agenda + Drop, A: Allocator + Copy>(
    heap: A,
    accepted: &Accepted<A>,
    again: bool,
) -> Result<bool, Fail> {
    let Some(packet) = packet_to_two(heap) else {
        return Ok(false);
    };
    match Bridge::<G, A>::new(heap, accepted) {
        Ok(bridge) => test_returned_packet(accepted, bridge, packet, again),
        Err(_) => {
            drop(packet);
            Ok(false)
        }
    }
}

/// Hands a frame to a new bridge, and tests the bridge until its end. Returns whether the frame was returned.
fn test_returned_packet<G: Agenda + Drop, A: Allocator + Copy>(
    accepted: &Accepted<A>,
    mut bridge: Bridge<'_, G, A>,
    packet: Packet<A>,
    again: bool,
) -> Result<bool, Fail>
    requires plan { bridge_plan bridge ≡ accepted.now }
{
    match hand_frame(accepted, &mut bridge, packet, again) {
        Ok(back) => match test_ending(bridge, if back && !again { 0 } else { 1 }) {
            Ok(()) => Ok(back),
            Err(fail) => Err(fail),
        },
        Err(fail) => {
            drop(bridge);
            Err(fail)
        }
    }
}

/// Tests a returned frame with the agenda that `over_tree` selects. Returns whether the frame was returned.
pub(crate) fn is_frame_back<A: Allocator + Copy>(
    heap: A,
    document: Global,
    again: bool,
    over_tree: bool,
) -> Result<bool, Fail> {
    let Some(accepted) = accepted_plan(heap, document) else {
        return Ok(false);
    };
    let back = if over_tree {
        test_returned_frame::<TreeAgenda, A>(heap, &accepted, again)
    } else {
        test_returned_frame::<RowAgenda, A>(heap, &accepted, again)
    };
    drop(accepted);
    back
}
