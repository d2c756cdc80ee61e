//! Runs a network of two bridges repeatedly, each time with another allocation refused.
ghost use Rattle.std.specs.Prelude.{IfOk};
ghost use Rattle.bridge_config.specs.Commands.{AreCommands};
ghost use Rattle.net_run.specs.BridgeRuns.{IsBridgeInput};
ghost use Rattle.net_run.specs.Rounds.{AreBridgeInputs};
ghost use Rattle.gate_networks.specs.Coming.{AllIncoming};

use crate::captures::Recording;
use app_failure::accepted_plan;
use bridge_check::Accepted;
use bridge_config::{Command, commands_of};
use bridge_limits::NoMemory;
use bridge_text::TextBuilder;
use fixture_bridge::{Ending, RefusesOne};
use net_model::{BridgePort, Link, Network, StreamHop, check_network};
use net_run::{BridgeInput, BridgeResult, NoObserver, RoundsFault, run_network};
use std::alloc::{Allocator, Global};

/// Plan of each bridge. The stream arrives at port 1 and leaves by port 2.
const PLAN: &str = "
[[port]]
number = 1
mbps = 1000
vid = 1
priority = 0
[[port]]
number = 2
mbps = 1000
vid = 1
priority = 0
cycle = 67200
gates = [{ open = [7], ns = 20160 }, { open = [0, 1, 2, 3, 4, 5, 6], ns = 47040 }]
[[port]]
number = 3
mbps = 1000
vid = 1
priority = 0
[[vlan]]
vid = 1
members = [1, 2, 3]
[[vlan]]
vid = 10
members = [1, 2]
[[static]]
vid = 10
address = \"91-E0-F0-00-FE-01\"
ports = [2]
[[stream]]
handle = 10
port = 1
kind = \"null\"
address = \"91-E0-F0-00-FE-01\"
vid = 10
tag = \"tagged\"
[[gate]]
number = 10
state = \"open\"
ipv = 7
[[gate]]
number = 99
state = \"open\"
ipv = 0
[[filter]]
number = 10
handle = 10
gate = 10
max_sdu = 200
block_oversize = true
protected = true
[[filter]]
number = 99
gate = 99
";

/// Commands of each bridge: one for the first, none for the second.
const COMMANDS: [&str; 2] = [
    "[[command]]\nat = 2000\nclear = \"blocked\"\nnumber = 10\n",
    "",
];

/// Number of captured octets of a frame.
const CAPTURED: usize = 18;

/// Arrival time of a frame in ns, and its captured octets.
type Frame = (u64, [u8; CAPTURED]);

/// A frame of the stream.
const STREAM_FRAME: [u8; CAPTURED] = [
    0x91, 0xe0, 0xf0, 0, 0xfe, 1, 2, 0, 0, 0, 0, 1, 0x81, 0, 0xe0, 10, 0x88, 0xb5,
];

/// A frame of no stream, which the bridge floods.
const OTHER_FRAME: [u8; CAPTURED] = [
    0x91, 0xe0, 0xf0, 0, 0xfe, 5, 2, 0, 0, 0, 0, 1, 0x81, 0, 0, 1, 0x88, 0xb5,
];

/// Frames that arrive at port 1 of the first bridge.
const ARRIVALS: [Frame; 3] = [
    (1_000, STREAM_FRAME),
    (3_000, OTHER_FRAME),
    (5_000, STREAM_FRAME),
];

/// Octets of a capture of three frames.
const OCTETS: usize = 24 + 3 * (16 + CAPTURED);

/// Greatest number of rounds of the run.
const ROUNDS: u32 = 8;

/// Greatest number of allocations tried. A run has fewer.
const NEVER: u64 = 100_000;

/// Link between both bridges.
const LINK: Link = Link {
    one: BridgePort { bridge: 0, port: 2 },
    other: BridgePort { bridge: 1, port: 1 },
    delay: 50,
};

/// Adds the plan of a bridge and its hop of the stream, and returns whether memory sufficed.
fn add_bridge<A: Allocator + Copy>(
    alloc: A,
    heap: Global,
    bridge: u16,
    plans: &mut Vec<Accepted<A>, A>,
    hops: &mut Vec<StreamHop, A>,
) -> bool {
    match accepted_plan(alloc, heap, PLAN.as_bytes()) {
        Ok(accepted) => {
            plans.push(accepted).is_ok() && hops.push(StreamHop { bridge, filter: 10 }).is_ok()
        }
        Err(_) => false,
    }
}

/// Returns the network, or `None` if it is refused or memory ran out.
fn small_network<A: Allocator + Copy>(alloc: A, heap: Global) -> Option<Network<A>> {
    let mut plans = Vec::new(alloc);
    let mut links = Vec::new(alloc);
    let mut hops = Vec::new(alloc);
    let mut streams = Vec::new(alloc);
    let are_made = add_bridge(alloc, heap, 0, &mut plans, &mut hops)
        && add_bridge(alloc, heap, 1, &mut plans, &mut hops)
        && links.push(LINK).is_ok()
        && streams.push(hops).is_ok();
    if are_made {
        check_network(plans, links, streams).ok()
    } else {
        None
    }
}

/// Returns the capture of `frames`.
fn frames_capture<A: Allocator + Copy>(
    alloc: A,
    heap: Global,
    frames: &[Frame],
) -> Result<Vec<u8, A>, NoMemory> {
    let mut capture = Recording::new(heap);
    for (at, octets) in frames {
        capture.put(*at, 60, octets);
    }
    Ok(Vec::from_slice(alloc, capture.octets())?)
}

/// Returns the captures of a bridge's ports. Only port 1 of the first bridge gets frames.
fn port_captures<A: Allocator + Copy>(
    alloc: A,
    heap: Global,
    bridge: usize,
) -> Result<Vec<Vec<u8, A>, A>, NoMemory> {
    let mut captures = Vec::new(alloc);
    for port in 1..4u8 {
        let frames: &[Frame] = if bridge == 0 && port == 1 {
            &ARRIVALS
        } else {
            &[]
        };
        captures.push(frames_capture(alloc, heap, frames)?)?;
    }
    Ok(captures)
}

/// Returns the commands of a bridge.
fn bridge_commands<A: Allocator + Copy>(
    alloc: A,
    heap: Global,
    accepted: &Accepted<A>,
    bridge: usize,
) -> Result<Vec<Command, A>, NoMemory>
    ensures { IfOk result (λ v. AreCommands accepted.now v.items) }
{
    let text = COMMANDS.get(bridge).copied().unwrap_or("");
    match commands_of(alloc, heap, text.as_bytes(), accepted.plan()) {
        Ok(commands) => Ok(commands),
        Err(_) => Err(NoMemory),
    }
}

/// Returns the input of a bridge from outside.
fn bridge_input<A: Allocator + Copy>(
    alloc: A,
    heap: Global,
    accepted: &Accepted<A>,
    bridge: usize,
) -> Result<BridgeInput<A>, NoMemory>
    ensures { IfOk result (IsBridgeInput accepted.now) }
{
    let commands = bridge_commands(alloc, heap, accepted, bridge)?;
    let captures = port_captures(alloc, heap, bridge)?;
    if captures.len() != accepted.plan().ports().len() {
        return Err(NoMemory);
    }
    Ok(BridgeInput { commands, captures })
}

/// Returns the input of each plan's bridge.
fn inputs_by_bridge<A: Allocator + Copy>(
    alloc: A,
    heap: Global,
    plans: &[Accepted<A>],
) -> Result<Vec<BridgeInput<A>, A>, NoMemory>
    ensures { IfOk result (λ all. AllIncoming plans.now all.items) }
{
    let mut all = Vec::new(alloc);
    for accepted in plans {
        let bridge = all.len();
        let came = bridge_input(alloc, heap, accepted, bridge)?;
        let Ok(()) = all.push(came) else {
            return Err(NoMemory);
        };
    }
    Ok(all)
}

/// Returns the inputs of all bridges, as a network run requires them.
fn network_inputs<A: Allocator + Copy>(
    alloc: A,
    heap: Global,
    plans: &[Accepted<A>],
) -> Result<Vec<BridgeInput<A>, A>, NoMemory>
    ensures { IfOk result (λ all. AreBridgeInputs plans.now all.items) }
{
    let all = inputs_by_bridge(alloc, heap, plans)?;
    Ok(all)
}

/// Whether all frames have left port 2 of the second bridge.
fn have_all_left<A: Allocator + Copy>(settled: &[BridgeResult<A>]) -> bool {
    let Some(second) = settled.get(1) else {
        return false;
    };
    match second.taps.get(1) {
        Some(tap) => settled.len() == 2 && tap.octets().len() == OCTETS,
        None => false,
    }
}

/// Runs the network, and returns how the run ends.
fn run_ending<A: Allocator + Copy>(
    alloc: A,
    network: &Network<A>,
    came: Vec<BridgeInput<A>, A>,
) -> Ending
    requires { AreBridgeInputs network.now.plans came.items }
{
    match run_network(alloc, network, came, ROUNDS, &mut NoObserver) {
        Ok(settled) => Ending::from_flags(have_all_left(&settled.bridges), false),
        Err(fault) => Ending::from_flags(false, fault == RoundsFault::NoMemory),
    }
}

/// Makes the inputs and runs the network. Returns `None` if an input failed or an allocation before the run was refused.
fn network_ending<'a>(
    gate: &'a RefusesOne<Global>,
    heap: Global,
    network: &Network<&'a RefusesOne<Global>>,
) -> Option<Ending> {
    let Ok(came) = network_inputs(gate, heap, network.plans()) else {
        return None;
    };
    if gate.has_refused() {
        return None;
    }
    Some(run_ending(gate, network, came))
}

/// Makes and runs the network. Returns `None` if the network or an input failed, or an allocation before the run was refused.
fn whole_ending(gate: &RefusesOne<Global>, heap: Global) -> Option<Ending> {
    match small_network(gate, heap) {
        Some(network) => network_ending(gate, heap, &network),
        None => None,
    }
}

/// Repeats the run, each time with the next allocation refused. A refusal within the run must give `NoMemory`. Returns the number of the
/// run's allocations, or 0 after a wrong ending.
pub fn refuse_growths(heap: Global, said: &mut TextBuilder<Global>) -> u64 {
    let mut growths = 0u64;
    for growth in 1..=NEVER {
        let gate = RefusesOne::new(heap, growth);
        let ending = whole_ending(&gate, heap);
        match (ending, gate.has_refused()) {
            (None, true) if growths == 0 => {}
            (Some(Ending::NoMemory), true) => growths = growths.saturating_add(1),
            (Some(Ending::Whole), false) => {
                said.put_template(
                    "growths of settle {0}, each refused: no memory\n",
                    &[growths],
                    &[],
                );
                return growths;
            }
            (_, refused) => {
                said.put_template(
                    "WRONG growth {0} refused {1}\n",
                    &[growth, u64::from(refused)],
                    &[],
                );
                return 0;
            }
        }
    }
    said.put("WRONG some growth is always refused\n");
    0
}
