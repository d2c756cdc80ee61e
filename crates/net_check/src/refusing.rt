//! Fault lines of refused networks. `check_network_file` returns them, and commands for networks print them.
ghost use Rattle.std.specs.Prelude.{◌≡◌, IfOk, string_bytes};
ghost use Rattle.bridge_text.specs.Growth.{HasGrown};
ghost use Rattle.net_check.specs.Networks.{network_fault_line, hop_fault_text, link_fault_text, port_text, sender_text};
ghost use Rattle.net_check.specs.Naming.{bridge_name};

use bridge_limits::NoMemory;
use bridge_text::TextBuilder;
use net_file::BridgeRow;
use net_model::NetworkFault;
use std::alloc::Allocator;

/// Returns the fault line of a network without line feed, for example `network refused: NotFed stream 1 hop 2`. `check_network_file` calls
/// it.
pub fn network_fault_line<A: Allocator + Copy, B: Allocator + Copy>(
    alloc: A,
    bridges: &[BridgeRow<B>],
    fault: &NetworkFault,
) -> Result<String<A>, NoMemory>
    ensures { IfOk result (λ line. string_bytes line ≡ network_fault_line bridges.now fault.now) }
{
    let mut text = TextBuilder::new(alloc);
    put_network_fault(&mut text, bridges, fault);
    text.finish()
}

/// Writes the fault line of a network: the fault's name, the link or the stream and hop, and the details of the fault. `network_fault_line`
/// calls it.
fn put_network_fault<A: Allocator, B: Allocator + Copy>(
    text: &mut TextBuilder<A>,
    bridges: &[BridgeRow<B>],
    fault: &NetworkFault,
)
    ensures { HasGrown text.old (network_fault_line bridges.now fault.now) text.new }
{
    match fault {
        NetworkFault::Unresolved { link } => put_link_fault(text, "Unresolved", *link),
        NetworkFault::LinkTwice { link, end } => {
            put_link_fault(text, "LinkTwice", *link);
            text.put(" ");
            put_port(text, bridges, end.bridge, end.port);
        }
        NetworkFault::SpeedsDiffer { link } => put_link_fault(text, "SpeedsDiffer", *link),
        NetworkFault::NotProtected { stream, hop } => put_hop_fault(
            text,
            "NotProtected",
            *stream,
            *hop,
        ),
        NetworkFault::HopTwice { stream, hop } => put_hop_fault(text, "HopTwice", *stream, *hop),
        NetworkFault::NotClosed {
            stream,
            hop,
            bridge,
            port,
            filter,
            from,
        } => {
            put_hop_fault(text, "NotClosed", *stream, *hop);
            text.put(" ");
            put_port(text, bridges, *bridge, *port);
            put_sender(text, filter, *from);
        }
        NetworkFault::NotFed { stream, hop } => put_hop_fault(text, "NotFed", *stream, *hop),
    }
}

/// Writes the start of the fault line for a link: fault name and link number. `put_network_fault` calls it.
fn put_link_fault<A: Allocator>(text: &mut TextBuilder<A>, name: &str, link: usize)
    ensures { HasGrown text.old (link_fault_text name.now link) text.new }
{
    text.put("network refused: ");
    text.put(name);
    text.put(" link ");
    text.put_number(link as u64);
}

/// Writes the start of the fault line for a hop: fault name, stream number and hop number. `put_network_fault` calls it.
fn put_hop_fault<A: Allocator>(text: &mut TextBuilder<A>, name: &str, stream: usize, hop: usize)
    ensures { HasGrown text.old (hop_fault_text name.now stream hop) text.new }
{
    text.put("network refused: ");
    text.put(name);
    text.put(" stream ");
    text.put_number(stream as u64);
    text.put(" hop ");
    text.put_number(hop as u64);
}

/// Writes a port as network files write it: the name of its bridge, a dot, and its number. `put_network_fault` calls it.
fn put_port<A: Allocator, B: Allocator + Copy>(
    text: &mut TextBuilder<A>,
    bridges: &[BridgeRow<B>],
    bridge: u16,
    port: u8,
)
    ensures { HasGrown text.old (port_text bridges.now bridge port) text.new }
{
    text.put(bridge_name(bridges, bridge));
    text.put(".");
    text.put_number(u64::from(port));
}

/// Writes the number of the filter that sends stray frames, or `none`, and `from`, the sending bridge's port on which the frames arrive.
/// `put_network_fault` calls it.
fn put_sender<A: Allocator>(text: &mut TextBuilder<A>, filter: &Option<u32>, from: u8)
    ensures { HasGrown text.old (sender_text filter.now from) text.new }
{
    text.put(" sends ");
    match filter {
        Some(number) => text.put_number(u64::from(*number)),
        None => text.put("none"),
    }
    text.put(" from ");
    text.put_number(u64::from(from));
}

/// Returns the name of the bridge with index `bridge`, from 0, or an empty text if the bridge is missing. `put_queue_line`,
/// `put_costliest_hop` and 9 more call it.
pub(crate) fn bridge_name<'a, A: Allocator + Copy>(
    bridges: &'a [BridgeRow<A>],
    bridge: u16,
) -> &'a str
    ensures { result.now ≡ bridge_name bridges.now bridge }
{
    let place = bridge as usize;
    if place < bridges.len() {
        bridges[place].name()
    } else {
        ""
    }
}
