//! The line of counts over all ports, which `run` prints.
ghost use Rattle.std.specs.Prelude.{◌≡◌, ◌-◌, ◌++◌, string_bytes, IfOk, OnOk};
ghost use Rattle.bridge_report.specs.Summary.{arrivals_text, copies_text, sum_over_ports, summary_text};

use bridge_limits::NoMemory;
use bridge_semantics::{Outcome, PortCount};
use std::alloc::{AllocError, Allocator};

/// Returns the number of frames that arrived at all ports. `summary` calls it.
fn total_frames(ports: &[(u8, PortCount)]) -> u128
    ensures { result ≡ sum_over_ports (λ c. c.frames) ports.now }
{
    ports.iter().map(|p| u128::from(p.1.frames)).sum()
}

/// Returns the number of malformed frames at all ports. `summary` calls it.
fn total_malformed(ports: &[(u8, PortCount)]) -> u128
    ensures { result ≡ sum_over_ports (λ c. c.malformed) ports.now }
{
    ports.iter().map(|p| u128::from(p.1.malformed)).sum()
}

/// Returns the number of frames without an egress port, over all ports. `summary` calls it.
fn total_nowhere(ports: &[(u8, PortCount)]) -> u128
    ensures { result ≡ sum_over_ports (λ c. c.nowhere) ports.now }
{
    ports.iter().map(|p| u128::from(p.1.nowhere)).sum()
}

/// Returns the number of frames that no filter matched, over all ports. `summary` calls it.
fn total_unfiltered(ports: &[(u8, PortCount)]) -> u128
    ensures { result ≡ sum_over_ports (λ c. c.unfiltered) ports.now }
{
    ports.iter().map(|p| u128::from(p.1.unfiltered)).sum()
}

/// Returns the number of queued copies, over all ports. When a run has ended, all of them have left. `summary` calls it.
fn total_sent(ports: &[(u8, PortCount)]) -> u128
    ensures { result ≡ sum_over_ports (λ c. c.sent) ports.now }
{
    ports.iter().map(|p| u128::from(p.1.sent)).sum()
}

/// Returns the number of dropped copies at all ports. `summary` calls it.
fn total_dropped(ports: &[(u8, PortCount)]) -> u128
    ensures { result ≡ sum_over_ports (λ c. c.dropped) ports.now }
{
    ports.iter().map(|p| u128::from(p.1.dropped)).sum()
}

/// Appends the numbers of frames that arrived, were malformed, weren't forwarded (`nowhere`), and were policed. A filter judges each
/// policed frame. `summary` calls it.
fn push_arrivals<A: Allocator>(
    text: &mut String<A>,
    frames: u128,
    malformed: u128,
    nowhere: u128,
    policed: u128,
) -> Result<(), AllocError>
    ensures { OnOk result (string_bytes text.new ≡ string_bytes text.old
        ++ arrivals_text frames malformed nowhere policed) }
{
    write!(
        text,
        "frames {frames} malformed {malformed} nowhere {nowhere} policed {policed}"
    )
}

/// Appends the number of unfiltered frames, and the numbers of queued (`sent`) and dropped copies. `summary` calls it.
fn push_copies<A: Allocator>(
    text: &mut String<A>,
    unfiltered: u128,
    sent: u128,
    dropped: u128,
) -> Result<(), AllocError>
    ensures { OnOk result (string_bytes text.new ≡ string_bytes text.old ++ copies_text unfiltered sent dropped) }
{
    write!(
        text,
        " unfiltered {unfiltered} sent {sent} dropped {dropped}\n"
    )
}

/// Returns the line of counts over all ports: arrived, malformed, unforwarded, policed and unfiltered frames, then queued and dropped
/// copies. `run` prints it.
pub fn summary<A: Allocator + Copy>(alloc: A, outcome: &Outcome<A>) -> Result<String<A>, NoMemory>
    ensures { IfOk result (λ line. string_bytes line ≡ summary_text outcome.now.ports.items) }
{
    let ports = &outcome.ports;
    let frames = total_frames(ports);
    let malformed = total_malformed(ports);
    let nowhere = total_nowhere(ports);
    let unfiltered = total_unfiltered(ports);
    let sent = total_sent(ports);
    let dropped = total_dropped(ports);
    // Policed frames are all frames except the malformed, unforwarded and unfiltered ones.
    let policed = frames
        .saturating_sub(malformed)
        .saturating_sub(nowhere)
        .saturating_sub(unfiltered);
    let mut line = String::new(alloc);
    push_arrivals(&mut line, frames, malformed, nowhere, policed)?;
    push_copies(&mut line, unfiltered, sent, dropped)?;
    Ok(line)
}
