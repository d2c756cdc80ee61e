//! Writing of the tables `streams.csv` and `frames.csv` of a network run.
ghost use Rattle.std.specs.Prelude.{◌≡◌, ℕ, IfErr, IfOk, OnOk, length, map, string_bytes};
ghost use Rattle.std.specs.Io.KnownBytes.{Keeps};
ghost use Rattle.bridge_semantics.specs.declared.outcome.Outcome.{Outcome};
ghost use Rattle.net_run.specs.Rounds.{AreOutcomes};
ghost use Rattle.app_networks.specs.Counted.{AreTotals};
ghost use Rattle.app_networks.specs.InTime.{AreHopRuns, HasView, HaveViews, HaveViewsOf, IsHopRun};
ghost use Rattle.app_failure.specs.Reading.{IsFileFault};
ghost use Rattle.app_networks.specs.RunFiles.{IsTableFile, NamesFile, table_path};
ghost use Rattle.app_networks.specs.Tables.{TablesStream, WriteStreams, WriteTables, hop_text};
ghost use Rattle.app_files.specs.declared.failed_file.Access.TheVariants.{Writing};

use crate::figures::StreamFigures;
use crate::outputs::table_path;
use crate::refusing::bridge_name;
use app_failure::{Failure, file_failure};
use app_files::{Output, flush_file, give_up_file};
use bridge_limits::NoMemory;
use bridge_report::find_view;
use net_file::{BridgeRow, NetworkFile, StreamRow};
use net_model::Link;
use net_report::{
    FRAMES_HEADER, Heading, HopRun, STREAMS_HEADER, Table, TableFault, count_copies,
    delivered_frames, put_table, trace_source_frames, write_stream,
};
use net_run::BridgeResult;
use std::alloc::Global;
use std::fs::OpenFile;
use std::io::Write;

/// Numbers for the line of a run, summed over all streams: frames that arrived at first hops, and frames that were delivered.
#[derive(Clone, Copy)]
pub(crate) struct Totals {
    pub(crate) frames: u64,
    pub(crate) delivered: u64,
}

/// Returns the record of a hop in a run, with the index of its bridge. A run of an accepted network has a record for each hop. `hop_runs`
/// calls it.
fn hop_run<'a>(settled: &'a [BridgeResult<Global>], hop: (u16, u32)) -> HopRun<'a, Global>
    requires { HasView settled.now hop }
    ensures { (o : ℕ → Outcome Global) → AreOutcomes settled.now o → IsHopRun o hop result }
{
    let (bridge, filter) = hop;
    let told = &settled[bridge as usize];
    match find_view(&told.outcome, filter) {
        Some(view) => HopRun {
            bridge: bridge as usize,
            view,
        },
        None => unreachable!(),
    }
}

/// Returns the records of a stream's hops, in file order. `put_stream_lines`, `put_stream_rows`, `include_streams` and `put_all_streams`
/// call it.
pub(crate) fn hop_runs<'a>(
    alloc: Global,
    settled: &'a [BridgeResult<Global>],
    hops: &[(u16, u32)],
) -> Result<Vec<HopRun<'a, Global>>, NoMemory>
    requires { HaveViewsOf settled.now hops.now }
    ensures many { IfOk result (λ runs. length runs.items ≡ length hops.now) }
    ensures told { IfOk result (λ runs. (o : ℕ → Outcome Global) → AreOutcomes settled.now o
        → AreHopRuns o hops.now runs.items) }
{
    let mut runs = Vec::with_capacity(alloc, hops.len())?;
    for hop in hops {
        runs.push(hop_run(settled, *hop))?;
    }
    Ok(runs)
}

/// Returns the name of a hop, as in the network's file. `row_names` and `hop_names` call it.
pub(crate) fn hop_name(
    alloc: Global,
    bridges: &[BridgeRow<Global>],
    hop: (u16, u32),
) -> Result<String, NoMemory>
    ensures { IfOk result (λ name. string_bytes name ≡ hop_text bridges.now hop) }
{
    let (bridge, filter) = hop;
    let name = bridge_name(bridges, bridge as usize);
    Ok(format!(in alloc; "{name}.{filter}")?)
}

/// Returns the names of these hops as in the network's file, for the tables. `put_stream_rows` calls it.
fn hop_names(
    alloc: Global,
    bridges: &[BridgeRow<Global>],
    hops: &[(u16, u32)],
) -> Result<Vec<String>, NoMemory>
    ensures { IfOk result (λ names. map string_bytes names.items ≡ map (hop_text bridges.now) hops.now) }
{
    let mut names = Vec::with_capacity(alloc, hops.len())?;
    for hop in hops {
        names.push(hop_name(alloc, bridges, *hop)?)?;
    }
    Ok(names)
}

/// Writes the stream's rows to `streams.csv` and `frames.csv`. Returns the numbers of its frames and of its delivered frames, which
/// `write_both_tables` adds up. Fails with `Broken` and the table if a table can't be written, or with `NoMemory`.
///
/// `write_both_tables` calls it.
fn put_stream_rows<V: Write, W: Write>(
    alloc: Global,
    file: &NetworkFile<Global>,
    links: &[Link],
    settled: &[BridgeResult<Global>],
    stream: &StreamRow<Global>,
    figures: StreamFigures,
    streams: &mut V,
    frames: &mut W,
) -> Result<Totals, TableFault>
    requires { HaveViewsOf settled.now stream.now.hops }
    ensures { IfOk result (λ more. TablesStream links.now settled.now file.now.bridges stream.now figures more.frames
        more.delivered
        (V.contents streams.old) (V.contents streams.new) (W.contents frames.old) (W.contents frames.new)) }
{
    let hops = stream.hops();
    let runs = hop_runs(alloc, settled, hops)?;
    let known = trace_source_frames(alloc, links, &runs)?;
    let tallies = count_copies(alloc, links, &runs, &known)?;
    let names = hop_names(alloc, file.bridges(), hops)?;
    let heading = Heading {
        name: stream.name(),
        hops: &names,
        bound: figures.bound,
        worst: figures.worst,
        deadline: stream.deadline(),
    };
    write_stream(
        alloc, links, &runs, &known, &tallies, heading, streams, frames,
    )?;
    Ok(Totals {
        frames: tallies.len() as u64,
        delivered: delivered_frames(&tallies) as u64,
    })
}

/// Writes the rows of all streams to both tables, and returns the numbers of their frames. Fails with `Broken` and the table if a table
/// can't be written, or with `NoMemory`. `write_tables` calls it.
fn write_both_tables<V: Write, W: Write>(
    alloc: Global,
    file: &NetworkFile<Global>,
    links: &[Link],
    settled: &[BridgeResult<Global>],
    figures: &[StreamFigures],
    streams: &mut V,
    frames: &mut W,
) -> Result<Totals, TableFault>
    requires figures { length figures.now ≡ length file.now.streams }
    requires views { HaveViews settled.now file.now.streams }
    ensures counts { IfOk result (λ all. AreTotals links.now settled.now file.now.streams 0 0 all.frames
        all.delivered) }
    ensures tables { OnOk result (WriteStreams links.now settled.now file.now.bridges file.now.streams figures.now
        (V.contents streams.old) (V.contents streams.new) (W.contents frames.old) (W.contents frames.new)) }
{
    let mut totals = Totals {
        frames: 0,
        delivered: 0,
    };
    for (place, stream) in file.streams().iter().enumerate() {
        let more = put_stream_rows(
            alloc,
            file,
            links,
            settled,
            stream,
            figures[place],
            streams,
            frames,
        )?;
        totals = Totals {
            frames: totals.frames.saturating_add(more.frames),
            delivered: totals.delivered.saturating_add(more.delivered),
        };
    }
    Ok(totals)
}

/// Writes both tables: each begins with its header, followed by the rows of all streams in file order. Fails with `Broken` and the table if
/// a table can't be written, or with `NoMemory`.
///
/// `put_tables` calls it.
pub(crate) fn write_tables<V: Write, W: Write>(
    alloc: Global,
    file: &NetworkFile<Global>,
    links: &[Link],
    settled: &[BridgeResult<Global>],
    figures: &[StreamFigures],
    streams: &mut V,
    frames: &mut W,
) -> Result<Totals, TableFault>
    requires figures { length figures.now ≡ length file.now.streams }
    requires views { HaveViews settled.now file.now.streams }
    ensures counts { IfOk result (λ all. AreTotals links.now settled.now file.now.streams 0 0 all.frames
        all.delivered) }
    ensures tables { OnOk result (WriteTables links.now settled.now file.now figures.now
        (V.contents streams.old) (V.contents streams.new) (W.contents frames.old) (W.contents frames.new)) }
{
    put_table(streams, STREAMS_HEADER, Table::Streams)?;
    put_table(frames, FRAMES_HEADER, Table::Frames)?;
    write_both_tables(alloc, file, links, settled, figures, streams, frames)
}

/// Completes the table `name` in `folder`, and returns its file. Fails if a table's file can't be written. `end_tables` calls it.
fn end_table<F: Write + OpenFile + Drop>(
    alloc: Global,
    folder: &str,
    name: &str,
    output: Output<F>,
) -> Result<Output<F>, Failure>
    ensures kept { IfOk result (λ done. Keeps (⟦<Output<F> as Write>⟧.contents output)
        (⟦<Output<F> as Write>⟧.contents done)) }
    ensures fails { IfErr result (IsFileFault Writing (table_path folder.now name.now)) }
{
    let Ok(path) = table_path(alloc, folder, name) else {
        drop(output);
        return Err(Failure::NoMemory);
    };
    match flush_file(alloc, path.as_str(), output) {
        Ok(output) => Ok(output),
        Err(fault) => Err(file_failure(fault)),
    }
}

/// Files of the tables of a network run, completely written, and the numbers of all streams' frames.
#[derive(Drop)]
pub(crate) struct WrittenTables<F: Write + OpenFile + Drop> {
    /// Numbers of all streams' frames.
    pub totals: Totals,
    /// File of the table of streams.
    pub streams: Output<F>,
    /// File of the table of frames.
    pub frames: Output<F>,
}

/// Drops the table `name` in `folder` after a failed write, and returns the command's failure. `give_up_tables` calls it.
fn give_up_table<F: Write + OpenFile + Drop>(
    alloc: Global,
    folder: &str,
    name: &str,
    output: Output<F>,
) -> Failure
    ensures { IsFileFault Writing (table_path folder.now name.now) result }
{
    match table_path(alloc, folder, name) {
        Ok(path) => file_failure(give_up_file(alloc, path.as_str(), output)),
        Err(_) => {
            drop(output);
            Failure::NoMemory
        }
    }
}

/// Drops both tables in `folder` after a failed write, and returns the command's failure. It names the table in `fault`. `put_tables` calls
/// it.
fn give_up_tables<F: Write + OpenFile + Drop>(
    alloc: Global,
    folder: &str,
    fault: TableFault,
    streams: Output<F>,
    frames: Output<F>,
) -> Failure
    ensures { NamesFile Writing (IsTableFile folder.now) result }
{
    match fault {
        TableFault::Broken(Table::Streams) => {
            drop(frames);
            give_up_table(alloc, folder, "streams", streams)
        }
        TableFault::Broken(Table::Frames) => {
            drop(streams);
            give_up_table(alloc, folder, "frames", frames)
        }
        TableFault::NoMemory => {
            drop(streams);
            drop(frames);
            Failure::NoMemory
        }
    }
}

/// Completes both tables in `folder`, and returns their files with the numbers of all streams' frames. Fails if a table's file can't be
/// written. `put_tables` calls it.
fn end_tables<F: Write + OpenFile + Drop>(
    alloc: Global,
    folder: &str,
    totals: Totals,
    streams: Output<F>,
    frames: Output<F>,
) -> Result<WrittenTables<F>, Failure>
    ensures totals { IfOk result (λ all. all.totals ≡ totals) }
    ensures streams { IfOk result (λ all. Keeps (⟦<Output<F> as Write>⟧.contents streams)
        (⟦<Output<F> as Write>⟧.contents all.streams)) }
    ensures frames { IfOk result (λ all. Keeps (⟦<Output<F> as Write>⟧.contents frames)
        (⟦<Output<F> as Write>⟧.contents all.frames)) }
    ensures fails { IfErr result (NamesFile Writing (IsTableFile folder.now)) }
{
    let streams = match end_table(alloc, folder, "streams", streams) {
        Ok(streams) => streams,
        Err(fault) => {
            drop(frames);
            return Err(fault);
        }
    };
    match end_table(alloc, folder, "frames", frames) {
        Ok(frames) => Ok(WrittenTables {
            totals,
            streams,
            frames,
        }),
        Err(fault) => {
            drop(streams);
            Err(fault)
        }
    }
}

/// Writes the tables of streams and frames of a network run, and returns their files. A failure names the path of its table in `folder`.
/// `write_results` calls it.
pub(crate) fn put_tables<F: Write + OpenFile + Drop>(
    alloc: Global,
    file: &NetworkFile<Global>,
    links: &[Link],
    settled: &[BridgeResult<Global>],
    figures: &[StreamFigures],
    folder: &str,
    streams: Output<F>,
    frames: Output<F>,
) -> Result<WrittenTables<F>, Failure>
    requires figures { length figures.now ≡ length file.now.streams }
    requires views { HaveViews settled.now file.now.streams }
    ensures ok { IfOk result (λ all. AreTotals links.now settled.now file.now.streams 0 0 all.totals.frames
        all.totals.delivered) }
    ensures written { IfOk result (λ all. WriteTables links.now settled.now file.now figures.now
        (⟦<Output<F> as Write>⟧.contents streams) (⟦<Output<F> as Write>⟧.contents all.streams)
        (⟦<Output<F> as Write>⟧.contents frames) (⟦<Output<F> as Write>⟧.contents all.frames)) }
    ensures err { IfErr result (NamesFile Writing (IsTableFile folder.now)) }
{
    let mut streams = streams;
    let mut frames = frames;
    match write_tables(
        alloc,
        file,
        links,
        settled,
        figures,
        &mut streams,
        &mut frames,
    ) {
        Ok(totals) => match end_tables(alloc, folder, totals, streams, frames) {
            Ok(written) => Ok(written),
            Err(fault) => Err(fault),
        },
        Err(fault) => Err(give_up_tables(alloc, folder, fault, streams, frames)),
    }
}
