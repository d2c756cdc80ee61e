//! Tests calls that neither allocate nor free memory.
ghost use Rattle.std.specs.Prelude.{◌<◌, ◌≤◌};

use crate::account::{Account, HasAccount, NEVER, is_untouched};
use crate::parts::{
    LISTENER, METER, TALKER, make_database, make_ident, make_list, make_plan, make_port,
    make_window_gate,
};
use bridge_check::{Accepted, check};
use bridge_config::Plan;
use bridge_cycle::{CyclicList, Joined, ListFault, Run, Timeline, first_fit, longest_run};
use bridge_filter::NoMemory;
use bridge_forward::Forwarding;
use bridge_frame::{Head, Tag};
use bridge_gate::GateAnswer::{Closed, ShutByRx, Through};
use bridge_gate::StreamGate;
use bridge_ident::Ident;
use bridge_meter::Colour::{Red, Yellow};
use bridge_meter::{Colour, Meter};
use bridge_port::{Item, Port};
use std::alloc::{AllocError, Allocator, Global};
use std::process::Abort;
use std::test::Fail;

/// Tests that making a part allocated memory.
fn has_memory_in_use(rt: &impl Abort, made: Account) {
    assert!(rt; made.left < NEVER && made.used > 0);
}

/// Tests intervals and fits of a list.
fn ask_list<A: Allocator + Copy>(rt: &impl Abort, list: &CyclicList<u8, A>) {
    let is_so = (list.turn(600_000).end == 1_000_000)
        & (list.base() == 0)
        & (list.cycle() == 1_000_000)
        & (list.entries().len() == 2)
        & (first_fit_time(rt, list, 7, 672, 499_329) == 1_000_000);
    assert!(rt; is_so);
}

/// Returns the first time at which `class` is open for `occ` ns. The class must not always be open.
fn first_fit_time<A: Allocator + Copy>(
    rt: &impl Abort,
    list: &CyclicList<u8, A>,
    class: u8,
    occ: u64,
    from: u64,
) -> u64
    requires class { class < 8 }
    requires occ { occ ≤ 1_000_000_000 }
    requires from { from < 9_000_000_000_000_000_000 }
{
    let Run::For(most) = longest_run(list, class) else {
        panic!(rt; "the class is open at some moments, and not at all");
    };
    assert!(rt; occ <= most);
    first_fit(list, class, occ, from)
}

/// Makes a list, and tests that asking it allocates nothing.
pub(crate) fn use_list<H: Allocator + Copy + HasAccount>(
    rt: &impl Abort,
    heap: H,
) -> Result<(), ListFault> {
    let list = make_list(heap)?;
    let made = heap.account();
    has_memory_in_use(rt, made);
    ask_list(rt, &list);
    is_untouched(rt, heap, made);
    drop(list);
    Ok(())
}

/// Tests intervals and fits of lists with a schedule change at 2,000,000 ns.
fn ask_joined<A: Allocator + Copy>(rt: &impl Abort, joined: &Joined<u8, A>) {
    let is_so = (joined.turn(1_700_000).end == 2_000_000)
        & (joined.change_time() == 2_000_000)
        & (joined.cycle() == 1_000_000)
        & (first_joint_fit(rt, joined, 7, 672, 1_499_329) == 2_000_000);
    assert!(rt; is_so);
}

/// Returns the first time at which `class` is open for `occ` ns. Both lists must open it long enough.
fn first_joint_fit<A: Allocator + Copy>(
    rt: &impl Abort,
    joined: &Joined<u8, A>,
    class: u8,
    occ: u64,
    from: u64,
) -> u64
    requires class { class < 8 }
    requires occ { occ ≤ 1_000_000_000 }
    requires from { from < 9_000_000_000_000_000_000 }
{
    let (old, new) = joined.lists();
    let before = longest_run(old, class);
    let after = longest_run(new, class);
    assert!(rt; before.allows(occ));
    assert!(rt; after.allows(occ));
    first_fit(joined, class, occ, from)
}

/// Makes two lists with a schedule change, and tests that asking them allocates nothing.
pub(crate) fn use_joined<H: Allocator + Copy + HasAccount>(
    rt: &impl Abort,
    heap: H,
) -> Result<(), ListFault> {
    let old = make_list(heap)?;
    let new = make_list(heap)?;
    let made = heap.account();
    has_memory_in_use(rt, made);
    let joined = Joined::new(old, new, 2_000_000);
    ask_joined(rt, &joined);
    is_untouched(rt, heap, made);
    drop(joined);
    Ok(())
}

/// Tests frames at an open and at a closed gate, and clears its flags.
fn ask_gate<A: Allocator + Copy>(rt: &impl Abort, gate: &mut StreamGate<A>) {
    assert!(rt; gate.earliest() == 0);
    let is_so = (gate.ask(299_999, 64) == Through(Some(7)))
        & (gate.ask(300_000, 64) == Closed)
        & (gate.ask(1_000_000, 64) == ShutByRx)
        & (gate.flags() == (true, false));
    assert!(rt; is_so);
    gate.clear_rx();
    gate.clear_octets();
    let is_so = (gate.ask(1_000_000, 64) == Through(Some(7))) & (gate.earliest() == 1_000_000);
    assert!(rt; is_so);
}

/// Makes a stream gate, and tests that asking it allocates nothing.
pub(crate) fn use_gate<H: Allocator + Copy + HasAccount>(
    rt: &impl Abort,
    heap: H,
) -> Result<(), NoMemory> {
    let plan = make_window_gate(heap)?;
    let made = heap.account();
    has_memory_in_use(rt, made);
    assert!(rt; plan.schedule.has_valid_priorities());
    assert!(rt; plan.schedule.turn(0).end == 300_000);
    let mut gate = StreamGate::new(plan);
    ask_gate(rt, &mut gate);
    is_untouched(rt, heap, made);
    drop(gate);
    Ok(())
}

/// Tests the colour of a frame.
fn is_coloured(rt: &impl Abort, meter: &mut Meter, wanted: Colour) {
    assert!(rt; meter.state().at == 0);
    assert!(rt; meter.colour(0, 64, false) == wanted);
}

/// Tests the colours of a meter. A meter has no allocator; the tests of stream filters show that it allocates nothing.
#[test]
fn a_meter_colours(rt: HostRuntime) {
    assert!(rt; METER.is_within_limits());
    let mut meter = Meter::new(METER);
    is_coloured(&rt, &mut meter, Yellow);
    is_coloured(&rt, &mut meter, Red);
    meter.clear_red();
}

/// Returns the head of a tagged frame to the listener.
fn head() -> Head {
    Head {
        da: LISTENER,
        sa: TALKER,
        tag: Some(Tag {
            pcp: 0,
            dei: false,
            vid: 10,
        }),
        sdu: 44,
    }
}

fn ask_ident<A: Allocator + Copy>(rt: &impl Abort, table: &Ident<A>) {
    let is_so = (table.entries().len() == 1)
        & (table.handle_of(1, &head(), 10) == Some(1))
        & (table.handle_of(2, &head(), 10) == None);
    assert!(rt; is_so);
}

/// Makes a table of streams, and tests that asking it allocates nothing.
pub(crate) fn use_ident<H: Allocator + Copy + HasAccount>(
    rt: &impl Abort,
    heap: H,
) -> Result<(), AllocError> {
    let table = make_ident(heap)?;
    let made = heap.account();
    has_memory_in_use(rt, made);
    ask_ident(rt, &table);
    is_untouched(rt, heap, made);
    drop(table);
    Ok(())
}

fn ask_database<A: Allocator + Copy>(rt: &impl Abort, database: &Forwarding<A>) {
    let is_so = (database.vlans().len() == 1)
        & (database.statics().len() == 1)
        & (database.forward(1, 10, &LISTENER).bits() == 0b100)
        & (database.forward(1, 10, &TALKER).bits() == 0b110)
        & (database.forward(1, 20, &TALKER).bits() == 0);
    assert!(rt; is_so);
}

/// Makes the filtering database, and tests that asking it allocates nothing.
pub(crate) fn use_database<H: Allocator + Copy + HasAccount>(
    rt: &impl Abort,
    heap: H,
) -> Result<(), bridge_forward::NoMemory> {
    let database = make_database(heap)?;
    let made = heap.account();
    has_memory_in_use(rt, made);
    ask_database(rt, &database);
    is_untouched(rt, heap, made);
    drop(database);
    Ok(())
}

/// Offers a frame of class 7 at the earliest possible time, and returns whether it is queued.
fn offer<A: Allocator + Copy>(rt: &impl Abort, port: &mut Port<u32, A>) -> bool {
    let t = port.earliest();
    assert!(rt; t < 4_000_000_000_000_000_000);
    assert!(rt; port.offered() < 16_000_000);
    port.offer(t, 7, Item { len: 60, load: 1 }).is_ok()
}

/// Makes the next start, and returns its time, or `None` if no frame waits.
fn start<A: Allocator + Copy>(port: &mut Port<u32, A>) -> Option<u64> {
    match port.next_start() {
        Some(moment) => {
            let (_item, _class) = port.start();
            Some(moment)
        }
        None => None,
    }
}

fn use_port<A: Allocator + Copy>(rt: &impl Abort, port: &mut Port<u32, A>) {
    // The queue is full, so it drops the frame of the second offer.
    let is_so = (start(port) == None)
        & offer(rt, port)
        & !offer(rt, port)
        & (start(port) == Some(0))
        & offer(rt, port)
        & (start(port) == Some(672))
        & (port.offered() == 3)
        & (port.started() == 2);
    assert!(rt; is_so);
}

/// Makes a port, and tests that using it allocates nothing.
pub(crate) fn have_port<H: Allocator + Copy + HasAccount>(
    rt: &impl Abort,
    heap: H,
) -> Result<(), NoMemory> {
    let mut port = make_port(heap)?;
    let made = heap.account();
    has_memory_in_use(rt, made);
    use_port(rt, &mut port);
    is_untouched(rt, heap, made);
    drop(port);
    Ok(())
}

/// Tests the lengths of a plan's gates, meters and filters.
fn read_sections<A: Allocator + Copy>(rt: &impl Abort, plan: &Plan<A>) {
    let are_so = (plan.gates().len() == 2)
        & (plan.meters().len() == 1)
        & (plan.filters().len() == 2);
    assert!(rt; are_so);
}

/// Tests each reader of a plan.
fn read_plan<A: Allocator + Copy>(rt: &impl Abort, plan: &Plan<A>) {
    let are_so = (plan.ports().len() == 3)
        & plan.port(3).is_some()
        & (plan.vlans().len() == 1)
        & (plan.statics().len() == 1)
        & (plan.streams().len() == 1)
        & (plan.forward(1, 10, &LISTENER).bits() == 0b100)
        & (plan.forward(1, 10, &TALKER).bits() == 0b110);
    assert!(rt; are_so);
    read_sections(rt, plan);
}

/// Tests that reading an accepted plan allocates nothing, and that the check freed its memory.
fn use_accepted<H: Allocator + Copy + HasAccount>(
    rt: &impl Abort,
    heap: H,
    accepted: &Accepted<H>,
    made: Account,
) {
    let checked = heap.account();
    assert!(rt;
        checked.used == made.used,
        "what a check took is given back"
    );
    read_plan(rt, accepted.plan());
    is_untouched(rt, heap, checked);
}

/// Tests that reading a plan allocates nothing, and that its check frees its memory.
pub(crate) fn use_plan<H: Allocator + Copy + HasAccount>(
    rt: &impl Abort,
    heap: H,
    document: Global,
) -> Result<(), Fail> {
    let plan = make_plan(heap, document)?;
    let made = heap.account();
    has_memory_in_use(rt, made);
    read_plan(rt, &plan);
    is_untouched(rt, heap, made);
    match check(heap, plan) {
        Ok(accepted) => {
            use_accepted(rt, heap, &accepted, made);
            drop(accepted);
            Ok(())
        }
        Err(refused) => {
            drop(refused);
            Err(Fail::from("the plan was refused"))
        }
    }
}
