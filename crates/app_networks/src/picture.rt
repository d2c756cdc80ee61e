//! Draws a network run, for the option `--picture` of `net`.
ghost use Rattle.std.specs.Prelude.{IfErr, option_map, string_bytes};
ghost use Rattle.app_networks.specs.InTime.{HaveViews};
ghost use Rattle.app_networks.specs.RunFiles.{IsPictureFile, NamesFile};
ghost use Rattle.app_files.specs.declared.failed_file.Access.TheVariants.{Writing};

use crate::outputs::open_output;
use crate::tables::{hop_name, hop_runs};
use app_failure::{Failure, file_failure};
use app_files::{CommandFiles, Output, write_file};
use bridge_limits::NoMemory;
use net_file::{BridgeRow, NetworkFile, StreamRow};
use net_latency::QueueBound;
use net_model::Network;
use net_report::RunPicture;
use net_run::BridgeResult;
use std::alloc::Global;
use std::fs::OpenFile;
use std::io::Write;
use std::rt::Files;

/// Opens the file of the requested picture for writing. Returns `None` if no picture is requested. Fails if the picture's file can't be
/// opened. `open_run` calls it.
pub(crate) fn open_picture<H: AllocGlobal + Files>(
    files: &mut CommandFiles<'_, H>,
    path: &Option<String>,
) -> Result<Option<Output<H::File>>, Failure>
    ensures { IfErr result (NamesFile Writing (IsPictureFile (option_map string_bytes path.now))) }
{
    let Some(path) = path else {
        return Ok(None);
    };
    match open_output(files, path.as_str()) {
        Ok(output) => Ok(Some(output)),
        Err(fault) => Err(fault),
    }
}

/// Returns the name of each row of a stream in the picture: the stream's name and the hop's name, hop by hop. `put_all_streams` calls it.
fn row_names(
    alloc: Global,
    bridges: &[BridgeRow<Global>],
    stream: &StreamRow<Global>,
) -> Result<Vec<String>, NoMemory> {
    let mut names = Vec::new(alloc);
    for hop in stream.hops() {
        let name = hop_name(alloc, bridges, *hop)?;
        let stream = stream.name();
        names.push(format!(in alloc; "{stream} {name}")?)?;
    }
    Ok(names)
}

/// Extends the picture's time span by the times of all streams. `draw_run` calls it.
fn include_streams(
    alloc: Global,
    picture: &mut RunPicture,
    settled: &[BridgeResult<Global>],
    streams: &[StreamRow<Global>],
) -> Result<(), NoMemory>
    requires { HaveViews settled.now streams.now }
{
    for stream in streams {
        let runs = hop_runs(alloc, settled, stream.hops())?;
        picture.include_stream(&runs);
    }
    Ok(())
}

/// Draws the windows of a queue in the row of the hop with index `place`. Draws nothing if the bridge or port is missing. `put_hop_windows`
/// calls it.
fn put_queue_windows(
    picture: &mut RunPicture,
    network: &Network<Global>,
    bridge: usize,
    place: usize,
    queue: &QueueBound,
) {
    if let Some(accepted) = network.plans().get(bridge) {
        if let Some(port) = accepted.plan().port(queue.port) {
            picture.put_open_windows(place, queue.port, queue.class, &port.list);
        }
    }
}

/// Draws the windows of a hop's reachable queues in its row, which has index `place` in the stream. `queues` has the bounds of each
/// bridge's queues. `put_stream_windows` calls it.
fn put_hop_windows(
    picture: &mut RunPicture,
    network: &Network<Global>,
    queues: &[Vec<QueueBound>],
    place: usize,
    hop: (u16, u32),
) {
    let (bridge, filter) = hop;
    let Some(rows) = queues.get(bridge as usize) else {
        return;
    };
    for row in rows {
        if row.filter == filter {
            put_queue_windows(picture, network, bridge as usize, place, row);
        }
    }
}

/// Draws the windows of the reachable queues of each hop of a stream in the hop's row. `put_all_streams` calls it.
fn put_stream_windows(
    picture: &mut RunPicture,
    network: &Network<Global>,
    queues: &[Vec<QueueBound>],
    hops: &[(u16, u32)],
) {
    for place in 0..hops.len() {
        put_hop_windows(picture, network, queues, place, hops[place]);
    }
}

/// Draws the rows of all streams. `draw_run` calls it.
fn put_all_streams(
    alloc: Global,
    picture: &mut RunPicture,
    network: &Network<Global>,
    queues: &[Vec<QueueBound>],
    bridges: &[BridgeRow<Global>],
    settled: &[BridgeResult<Global>],
    streams: &[StreamRow<Global>],
) -> Result<(), NoMemory>
    requires { HaveViews settled.now streams.now }
{
    for stream in streams {
        let runs = hop_runs(alloc, settled, stream.hops())?;
        let names = row_names(alloc, bridges, stream)?;
        put_stream_windows(picture, network, queues, stream.hops());
        picture.put_stream(network.links(), &runs, &names);
    }
    Ok(())
}

/// Returns the picture of a network run as SVG text. `write_picture` calls it.
fn draw_run(
    alloc: Global,
    file: &NetworkFile<Global>,
    network: &Network<Global>,
    queues: &[Vec<QueueBound>],
    settled: &[BridgeResult<Global>],
) -> Result<String, NoMemory>
    requires { HaveViews settled.now file.now.streams }
{
    let mut picture = RunPicture::new(alloc);
    include_streams(alloc, &mut picture, settled, file.streams())?;
    put_all_streams(
        alloc,
        &mut picture,
        network,
        queues,
        file.bridges(),
        settled,
        file.streams(),
    )?;
    picture.finish(alloc)
}

/// Writes the requested picture of a run to `output`, the file at `path`. Does nothing if no picture is requested. A failure names the
/// path. `write_results_and_picture` calls it.
pub(crate) fn write_picture<F: Write + OpenFile + Drop>(
    alloc: Global,
    file: &NetworkFile<Global>,
    network: &Network<Global>,
    queues: &[Vec<QueueBound>],
    settled: &[BridgeResult<Global>],
    path: &Option<String>,
    output: Option<Output<F>>,
) -> Result<(), Failure>
    requires { HaveViews settled.now file.now.streams }
    ensures { IfErr result (NamesFile Writing (IsPictureFile (option_map string_bytes path.now))) }
{
    let Some(output) = output else {
        return Ok(());
    };
    let Some(path) = path else {
        drop(output);
        return Ok(());
    };
    let text = match draw_run(alloc, file, network, queues, settled) {
        Ok(text) => text,
        Err(_) => {
            drop(output);
            return Err(Failure::NoMemory);
        }
    };
    match write_file(alloc, path.as_str(), output, text.as_bytes()) {
        Ok(_) => Ok(()),
        Err(fault) => Err(file_failure(fault)),
    }
}
