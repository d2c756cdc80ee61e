//! Returns the results of texts of networks and of traffic.
ghost use Rattle.std.specs.Prelude.{◌≡◌, IfOk, string_bytes};
ghost use Rattle.gate_cases.specs.Outcomes.{IsNetworkLine, IsTrafficLine, counts_words};

use crate::text_pieces::add;
use bridge_text::TextBuilder;
use net_file::{fault_line, parse_network, parse_traffic, refusal_line};
use std::alloc::{AllocError, Global};

/// Two bridges that share a plan.
const TWO: &str =
    "[[bridge]]\nname = 'a'\nplan = 'first.toml'\n[[bridge]]\nname = 'b'\nplan = 'first.toml'\n";

/// A stream, and the beginning of a second stream.
const STREAMS: &str =
    "[[stream]]\nname = 's'\nhops = ['a.1']\n[[stream]]\nname = 't'\nhops = ['b.1']\n";

/// A row of traffic, and the beginning of a second row.
const ROWS: &str =
    "[[traffic]]\nfilter = 10\nperiod = 1000000\nfrom = 1\nto = 2\nleast = 60\nlongest = 516\n[[traffic]]\n";

/// Adds the line of a network or traffic with `lines` at `place`. Returns whether the place exists.
pub fn put_network_outcome(
    alloc: Global,
    line: &mut TextBuilder<Global>,
    place: &str,
    lines: &str,
) -> bool {
    let (form, is_traffic) = match place {
        " network" => ("{a}", false),
        " links" => ("{a}\n{b}", false),
        " talker" => ("{b}{c}{a}", false),
        " traffic" => ("{a}", true),
        " row" => ("{d}{a}", true),
        _ => return false,
    };
    let mut text = TextBuilder::new(alloc);
    text.put_template(form, &[], &[lines, TWO, STREAMS, ROWS]);
    match text.finish() {
        Ok(text) if is_traffic => add(line, traffic_outcome(alloc, text.as_str())),
        Ok(text) => add(line, network_outcome(alloc, text.as_str())),
        Err(_) => line.discard(),
    }
    true
}

/// Returns the numbers of bridges, links and streams as text.
#[tactic(auto, unfolding(crate::specs::Outcomes::counts_words))]
fn counts_text(
    alloc: Global,
    bridges: usize,
    links: usize,
    streams: usize,
) -> Result<String, AllocError>
    ensures { IfOk result (λ text. string_bytes text ≡ counts_words bridges links streams) }
{
    let mut text = String::new(alloc);
    write!(text, "{bridges} bridges {links} links {streams} streams")?;
    Ok(text)
}

/// Returns the numbers of a network's bridges, links and streams, or its fault line.
fn network_outcome(alloc: Global, text: &str) -> Result<String, AllocError>
    ensures { IfOk result (λ line. IsNetworkLine text.now (string_bytes line)) }
{
    match parse_network(alloc, alloc, text.as_bytes()) {
        Ok(network) => {
            let bridges = network.bridges().len();
            let links = network.links().len();
            let streams = network.streams().len();
            counts_text(alloc, bridges, links, streams)
        }
        Err(fault) => match fault_line(alloc, &fault) {
            Ok(line) => Ok(line),
            Err(_) => Err(AllocError),
        },
    }
}

/// Returns the number of a traffic file's rows, or its fault line.
fn traffic_outcome(alloc: Global, text: &str) -> Result<String, AllocError>
    ensures { IfOk result (λ line. IsTrafficLine text.now (string_bytes line)) }
{
    match parse_traffic(alloc, alloc, text.as_bytes()) {
        Ok(rows) => format!(in alloc; "{} rows", rows.len()),
        Err(fault) => match refusal_line(alloc, "traffic", &fault) {
            Ok(line) => Ok(line),
            Err(_) => Err(AllocError),
        },
    }
}
