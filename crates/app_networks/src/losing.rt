//! Lines about streams with lost frames or missed deadlines in a network run, for `net --strict`.
ghost use Rattle.std.specs.Prelude.{◌≡◌, IfOk, OnOk, length, string_bytes};
ghost use Rattle.app_networks.specs.InTime.{HaveViews, HaveViewsOf};
ghost use Rattle.app_networks.specs.Losing.{AreFaultLines, AreLosses, IsLossOf, PutsLines, place_words};

use crate::refusing::bridge_name;
use crate::tables::hop_runs;
use bridge_limits::NoMemory;
use bridge_text::TextBuilder;
use net_file::{BridgeRow, NetworkFile, StreamRow};
use net_model::Link;
use net_report::{
    HopLosses, HopRun, count_copies, hop_counts, put_faults, stream_delays, trace_source_frames,
};
use net_run::BridgeResult;
use std::alloc::Global;

/// Returns the name of a hop as in the network's file, followed by a space, for the `lost:` line of a stream. `hop_loss` calls it.
fn hop_prefix(
    alloc: Global,
    bridges: &[BridgeRow<Global>],
    hop: (u16, u32),
) -> Result<String, NoMemory>
    ensures { IfOk result (λ place. string_bytes place ≡ place_words bridges.now hop) }
{
    let (bridge, filter) = hop;
    let name = bridge_name(bridges, bridge as usize);
    Ok(format!(in alloc; "{name}.{filter} ")?)
}

/// Returns the losses of a stream's hop: the hop's name and counts. `runs` has the records of all hops of the stream, `run` the record of
/// this hop. `stream_losses` calls it.
fn hop_loss(
    alloc: Global,
    bridges: &[BridgeRow<Global>],
    links: &[Link],
    runs: &[HopRun<'_, Global>],
    hop: (u16, u32),
    run: &HopRun<'_, Global>,
) -> Result<HopLosses<Global>, NoMemory>
    ensures { IfOk result (IsLossOf links.now runs.now bridges.now hop run.now) }
{
    let place = hop_prefix(alloc, bridges, hop)?;
    let counts = hop_counts(alloc, links, runs, run)?;
    Ok(HopLosses { place, counts })
}

/// Returns the losses of each hop of a stream, in the order of `hops`. `runs` has the records of these hops. `put_stream_lines` calls it.
fn stream_losses(
    alloc: Global,
    bridges: &[BridgeRow<Global>],
    links: &[Link],
    hops: &[(u16, u32)],
    runs: &[HopRun<'_, Global>],
) -> Result<Vec<HopLosses<Global>>, NoMemory>
    ensures { IfOk result (λ losses. length runs.now ≡ length hops.now
        → AreLosses links.now runs.now bridges.now hops.now runs.now losses.items) }
{
    let mut all = Vec::with_capacity(alloc, hops.len())?;
    for place in 0..hops.len() {
        if place >= runs.len() {
            return Ok(all);
        }
        let loss = hop_loss(alloc, bridges, links, runs, hops[place], &runs[place])?;
        all.push(loss)?;
    }
    Ok(all)
}

/// Writes the `lost:` line and the `late:` line of a stream, if the stream lost frames or missed its deadline. Traces the stream's frames
/// to find the losses and delays. `fault_lines` calls it.
fn put_stream_lines(
    alloc: Global,
    text: &mut TextBuilder<Global>,
    bridges: &[BridgeRow<Global>],
    links: &[Link],
    settled: &[BridgeResult<Global>],
    stream: &StreamRow<Global>,
) -> Result<(), NoMemory>
    requires { HaveViewsOf settled.now stream.now.hops }
    ensures { OnOk result (PutsLines links.now settled.now bridges.now stream.now text.old text.new) }
{
    let hops = stream.hops();
    let runs = hop_runs(alloc, settled, hops)?;
    let all = trace_source_frames(alloc, links, &runs)?;
    let tallies = count_copies(alloc, links, &runs, &all)?;
    let losses = stream_losses(alloc, bridges, links, hops, &runs)?;
    let delays = stream_delays(alloc, links, &runs, &all)?;
    put_faults(
        text,
        stream.name(),
        &tallies,
        &losses,
        &delays,
        stream.deadline(),
    );
    Ok(())
}

/// Returns the `lost:` and `late:` lines of all streams, in file order. Traces all frames again, so `lost_if` calls it only with
/// `--strict`.
pub(crate) fn fault_lines(
    alloc: Global,
    file: &NetworkFile<Global>,
    links: &[Link],
    settled: &[BridgeResult<Global>],
) -> Result<String, NoMemory>
    requires { HaveViews settled.now file.now.streams }
    ensures { IfOk result (λ lines. AreFaultLines links.now settled.now file.now.bridges file.now.streams
        (string_bytes lines)) }
{
    let mut text = TextBuilder::new(alloc);
    for stream in file.streams() {
        put_stream_lines(alloc, &mut text, file.bridges(), links, settled, stream)?;
    }
    text.finish()
}
