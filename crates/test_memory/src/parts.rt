//! Makes each part with a given allocator.
ghost use Rattle.std.specs.Prelude.{◌≡◌, true, IfOk, IsTrue, ◌∷◌, []};
ghost use Rattle.bridge_gate.specs.Schedules.{has_valid_priorities};
ghost use Rattle.bridge_filter.specs.Plans.{is_listed, are_numbers_distinct, all_have_priorities};

use bridge_config::{Plan, PlanFault, plan_of};
use bridge_cycle::{CyclicList, Egress, ListFault};
use bridge_filter::{FilterPlan, NoMemory, Police};
use bridge_forward::{Forwarding, PortSet, StaticEntry, Vlan};
use bridge_frame::Speed;
use bridge_gate::{GateEntry, GatePlan, Schedule};
use bridge_ident::{Ident, Kind, StreamEntry, TagKind};
use bridge_meter::MeterPlan;
use bridge_port::Port;
use fixture_bridge::base::base_with_lines;
use std::alloc::{AllocError, Allocator, Global};

pub(crate) const TALKER: [u8; 6] = [2, 0, 0, 0, 0, 1];

pub(crate) const LISTENER: [u8; 6] = [2, 0, 0, 0, 0, 10];

/// Lines added to the base plan: a meter.
const MORE: &str = "
[[meter]]
number = 6
cir = 1
cbs = 2
eir = 3
ebs = 4
";

/// Entries: class 7 in the first half of each millisecond, the other classes in the second half.
pub(crate) const HALVES: [(u8, u64); 2] = [(0b1000_0000, 500_000), (0b0111_1111, 500_000)];

/// Filter of a single stream, with gate 1, meter 5 and at most 500 octets.
const FILTER: FilterPlan = FilterPlan {
    handle: Some(1),
    priority: None,
    gate: 1,
    max_sdu: Some(500),
    meter: Some(5),
    block_oversize: true,
    protected: true,
    group: None,
};

/// Meter with an excess bucket of 64 octets, and no rate.
pub(crate) const METER: MeterPlan = MeterPlan {
    cir: 0,
    cbs: 0,
    eir: 0,
    ebs: 64,
    coupling: false,
    aware: false,
    drop_yellow: false,
    mark_all_red: true,
};

/// Makes a list with base time 0 and a cycle time of one millisecond.
pub(crate) fn make_list<A: Allocator + Copy>(alloc: A) -> Result<CyclicList<u8, A>, ListFault> {
    CyclicList::new(alloc, 0, 1_000_000, Vec::from_slice(alloc, &HALVES)?)
}

/// Makes a list with an interval of 0 ns, which is refused.
pub(crate) fn wrong_list<A: Allocator + Copy>(alloc: A) -> Result<CyclicList<u8, A>, ListFault> {
    CyclicList::new(alloc, 0, 1_000_000, Vec::from_slice(alloc, &[(1u8, 0u64)])?)
}

/// Makes a gate that is open for 300,000 ns with priority 7 and 600 octets, then closed for 700,000 ns. Both flags can shut it.
pub(crate) fn make_window_gate<A: Allocator + Copy>(alloc: A) -> Result<GatePlan<A>, NoMemory>
    ensures { IfOk result (λ g. has_valid_priorities g.schedule ≡ true) }
{
    let open = GateEntry {
        lets: true,
        ipv: Some(7),
        octets: Some(600),
    };
    let closed = GateEntry {
        lets: false,
        ipv: None,
        octets: None,
    };
    let entries = Vec::from_slice(alloc, &[(open, 300_000), (closed, 700_000)])?;
    match CyclicList::new(alloc, 0, 1_000_000, entries) {
        Ok(list) => Ok(GatePlan {
            shut_on_rx: true,
            shut_on_octets: true,
            schedule: Schedule::Cyclic(list),
        }),
        Err(_) => Err(NoMemory),
    }
}

/// Makes a table of a single stream.
pub(crate) fn make_ident<A: Allocator + Copy>(alloc: A) -> Result<Ident<A>, AllocError> {
    let entry = StreamEntry {
        handle: 1,
        port: 1,
        kind: Kind::Null,
        address: LISTENER,
        vid: 10,
        tag: TagKind::All,
    };
    Ok(Ident::new(Vec::from_slice(alloc, &[entry])?))
}

/// Makes the database of VLAN 10 with ports 1, 2 and 3, and a `static` entry that sends the listener's frames to port 3.
pub(crate) fn make_database<A: Allocator + Copy>(
    alloc: A,
) -> Result<Forwarding<A>, bridge_forward::NoMemory> {
    let vlan = Vlan {
        vid: 10,
        members: PortSet::from_bits(0b111),
    };
    let entry = StaticEntry {
        vid: 10,
        address: LISTENER,
        ports: PortSet::from_bits(0b100),
    };
    let vlans = Vec::from_slice(alloc, &[vlan])?;
    let statics = Vec::from_slice(alloc, &[entry])?;
    Forwarding::new(alloc, vlans, statics)
}

/// Returns a list with a single item.
fn vec_of_one<T: Drop, A: Allocator + Copy>(alloc: A, item: T) -> Result<Vec<T, A>, AllocError>
    ensures { IfOk result (λ v. v.items ≡ item ∷ []) }
{
    let mut items = Vec::with_capacity(alloc, 1)?;
    items.push(item)?;
    Ok(items)
}

/// Returns a list with gate 1.
fn make_gates<A: Allocator + Copy>(alloc: A) -> Result<Vec<(u32, GatePlan<A>), A>, NoMemory>
    ensures distinct { IfOk result (λ v. are_numbers_distinct v.items ≡ true) }
    ensures priorities { IfOk result (λ v. all_have_priorities v.items ≡ true) }
    ensures there { IfOk result (λ v. is_listed 1 v.items ≡ true) }
{
    Ok(vec_of_one(alloc, (1, make_window_gate(alloc)?))?)
}

/// Makes the stream filter 10, with gate 1 and meter 5.
pub(crate) fn make_police<A: Allocator + Copy>(alloc: A) -> Result<Police<A>, NoMemory>
    ensures filter { IfOk result (λ p. IsTrue (is_listed 10 p.filters)) }
    ensures gate { IfOk result (λ p. IsTrue (is_listed 1 p.gates)) }
    ensures meter { IfOk result (λ p. IsTrue (is_listed 5 p.meters)) }
{
    let filters = Vec::from_slice(alloc, &[(10, FILTER)])?;
    let gates = make_gates(alloc)?;
    let meters = Vec::from_slice(alloc, &[(5, METER)])?;
    Police::new(alloc, filters, gates, meters)
}

/// Makes a port with a gate control list. Each queue has a capacity of one frame.
pub(crate) fn make_port<A: Allocator + Copy>(alloc: A) -> Result<Port<u32, A>, NoMemory> {
    let Ok(list) = make_list(alloc) else {
        return Err(NoMemory);
    };
    Port::new(alloc, Speed::Mbps1000, Some(Egress::Cyclic(list)), [1; 8])
}

/// Makes the base plan with the meter of `MORE`. The text and the parsed document lie in `heap`.
pub(crate) fn make_plan<A: Allocator + Copy>(alloc: A, heap: Global) -> Result<Plan<A>, PlanFault> {
    match base_with_lines(heap, MORE) {
        Ok(text) => plan_of(alloc, heap, text.as_bytes()),
        Err(_) => Err(PlanFault::NoMemory),
    }
}
