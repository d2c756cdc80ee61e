//! Writing of a stream's rows to the two tables of `net`: `streams.csv` and `frames.csv`.
ghost use Rattle.std.specs.Prelude.{◌≡◌, ◌++◌, IfOk, OnOk, Ok, length, map, string_bytes};
ghost use Rattle.std.specs.Io.KnownBytes.{Appends};
ghost use Rattle.net_report.specs.Tables.{AddDelays, AreDelays, AreRowsOfHop, WriteHops, WriteStream, WritesHop, heading_of};

use crate::copy_counting::{CopyCounts, HopRun};
use crate::frame_table::put_hop_lines;
use crate::hop_counting::{counts_by_ports, delays_at_hop, departure_delays};
use crate::hops::onward_ports;
use crate::sources::SourceFrame;
use crate::statistics::delay_statistics;
use crate::stream_table::{hop_line, stream_line};
use bridge_limits::NoMemory;
use bridge_text::TextBuilder;
use net_model::Link;
use std::alloc::Allocator;
use std::io::Write;

/// Table that is written: the table of streams or of frames. A fault names the table that couldn't be written.
#[derive(Clone, Copy, Debug, PartialEq, Eq)]
pub enum Table {
    /// The table of streams.
    Streams,
    /// The table of frames.
    Frames,
}

/// Why the rows of a stream couldn't be written to the two tables. `write_stream` returns it.
#[derive(Clone, Copy, Debug, PartialEq, Eq)]
pub enum TableFault {
    /// The writer of a table failed.
    Broken(Table),
    /// Memory ran out.
    NoMemory,
}

impl From<NoMemory> for TableFault {
    fn from(_: NoMemory) -> TableFault {
        TableFault::NoMemory
    }
}

/// Names of a stream and its hops in the tables, with its bound, its worst delay and its deadline. `write_stream` writes them.
#[derive(Clone, Copy)]
pub struct Heading<'a, A: Allocator> {
    /// Name of the stream.
    pub name: &'a str,
    /// Names of the hops, in order.
    pub hops: &'a [String<A>],
    /// Delay bound that `net check` prints, in ns.
    pub bound: u128,
    /// Worst delay of the talker's frames in ns. `None` without a periodic talker, or if the delays are unknown.
    pub worst: Option<u128>,
    /// Deadline in ns, if the stream has one.
    pub deadline: Option<u64>,
}

/// Rows of a hop in both tables, made before either table is written. `rows_of_hop` makes them.
#[derive(Drop)]
struct HopRows<A: Allocator> {
    /// Row in the table of streams.
    row: String<A>,
    /// Rows in the table of frames.
    lines: String<A>,
}

/// Writes a text to the writer of a table, also the tables' first lines. If this fails, returns the fault `Broken` with the table.
/// `write_hop` and `write_stream`, and `write_tables` of `app_networks` call it.
pub fn put_table<W: Write>(writer: &mut W, text: &str, table: Table) -> Result<(), TableFault>
    ensures { OnOk result (Appends (W.contents writer.old) (W.contents writer.new) text.now) }
{
    match writer.write_all(text.as_bytes()) {
        Ok(()) => Ok(()),
        Err(_) => Err(TableFault::Broken(table)),
    }
}

/// Returns the rows of hop `hop` of stream `stream` in both tables. `name` is the hop's name, `roots` has the source of each of its frames.
/// `write_hop` calls it.
fn rows_of_hop<A: Allocator + Copy>(
    alloc: A,
    links: &[Link],
    hops: &[HopRun<'_, A>],
    stream: &str,
    name: &str,
    hop: &HopRun<'_, A>,
    roots: &[Option<SourceFrame>],
) -> Result<HopRows<A>, NoMemory>
    ensures { IfOk result (λ r. AreRowsOfHop links.now hops.now stream.now name.now hop.now roots.now
        (string_bytes r.row) (string_bytes r.lines)) }
{
    let ways = onward_ports(alloc, links, hops, hop.bridge)?;
    let counts = counts_by_ports(&ways, hop.view);
    let delays = departure_delays(alloc, &ways, roots, &hop.view.departures)?;
    let here = delays_at_hop(alloc, &hop.view.origins, &hop.view.departures)?;
    let row = hop_line(
        alloc,
        stream,
        name,
        &counts,
        delay_statistics(&delays),
        delay_statistics(&here),
    )?;
    let mut text = TextBuilder::new(alloc);
    put_hop_lines(&mut text, stream, name, roots, &ways, hop.view);
    let lines = text.finish()?;
    Ok(HopRows { row, lines })
}

/// Writes the rows of hop `hop` to both tables: first to `streams`, then to `frames`. Fails with `Broken` and the table if a table can't be
/// written, or with `NoMemory`. `write_hops` calls it.
fn write_hop<A: Allocator + Copy, V: Write, W: Write>(
    alloc: A,
    links: &[Link],
    hops: &[HopRun<'_, A>],
    stream: &str,
    name: &str,
    hop: &HopRun<'_, A>,
    roots: &[Option<SourceFrame>],
    streams: &mut V,
    frames: &mut W,
) -> Result<(), TableFault>
    ensures { OnOk result (WritesHop links.now hops.now stream.now name.now hop.now roots.now
        (V.contents streams.old) (V.contents streams.new) (W.contents frames.old) (W.contents frames.new)) }
{
    let HopRows { row, lines } = rows_of_hop(alloc, links, hops, stream, name, hop, roots)?;
    put_table(streams, row.as_str(), Table::Streams)?;
    put_table(frames, lines.as_str(), Table::Frames)
}

/// Writes the rows of a stream's hops to both tables (`streams` and `frames`), hop by hop. Fails with `Broken` and the table if a table
/// can't be written, or with `NoMemory`. `write_stream` calls it.
fn write_hops<A: Allocator + Copy, V: Write, W: Write>(
    alloc: A,
    links: &[Link],
    hops: &[HopRun<'_, A>],
    known: &[Vec<Option<SourceFrame>, A>],
    stream: &str,
    names: &[String<A>],
    streams: &mut V,
    frames: &mut W,
) -> Result<(), TableFault>
    requires names { length names.now ≡ length hops.now }
    requires known { length known.now ≡ length hops.now }
    ensures { OnOk result (WriteHops links.now hops.now stream.now (map string_bytes names.now) hops.now known.now
        (V.contents streams.old) (V.contents streams.new) (W.contents frames.old) (W.contents frames.new)) }
{
    for place in 0..hops.len() {
        write_hop(
            alloc,
            links,
            hops,
            stream,
            names[place].as_str(),
            &hops[place],
            &known[place],
            streams,
            frames,
        )?;
    }
    Ok(())
}

/// Appends to `delays` the delays in ns of the copies that hop `hop` delivered. `roots` has the source of each of its frames.
/// `stream_delays` calls it.
fn push_delays<A: Allocator + Copy>(
    alloc: A,
    links: &[Link],
    hops: &[HopRun<'_, A>],
    hop: &HopRun<'_, A>,
    roots: &[Option<SourceFrame>],
    delays: &mut Vec<u64, A>,
) -> Result<(), NoMemory>
    ensures { OnOk result (AddDelays links.now hops.now hop.now roots.now delays.old.items delays.new.items) }
{
    let ways = onward_ports(alloc, links, hops, hop.bridge)?;
    let more = departure_delays(alloc, &ways, roots, &hop.view.departures)?;
    delays.extend_from_slice(&more)?;
    Ok(())
}

/// Returns the delays in ns of a stream's delivered copies, from arrival at the first hop, in the order of hops. Rows of streams and late
/// lines use them.
///
/// `write_stream` and `put_stream_lines` of `app_networks` call it.
pub fn stream_delays<A: Allocator + Copy>(
    alloc: A,
    links: &[Link],
    hops: &[HopRun<'_, A>],
    known: &[Vec<Option<SourceFrame>, A>],
) -> Result<Vec<u64, A>, NoMemory>
    requires { length known.now ≡ length hops.now }
    ensures { IfOk result (λ delays. AreDelays links.now hops.now hops.now known.now delays.items) }
{
    let mut delays = Vec::new(alloc);
    for place in 0..hops.len() {
        push_delays(alloc, links, hops, &hops[place], &known[place], &mut delays)?;
    }
    Ok(delays)
}

/// Writes the rows of a stream: the stream and each hop to `streams`, each frame at each hop to `frames`. `known` has the frames' sources.
///
/// Fails with `Broken` and the table if a table can't be written, or with `NoMemory`. `app_networks` calls it for each stream.
pub fn write_stream<A: Allocator + Copy, V: Write, W: Write>(
    alloc: A,
    links: &[Link],
    hops: &[HopRun<'_, A>],
    known: &[Vec<Option<SourceFrame>, A>],
    tallies: &[CopyCounts],
    heading: Heading<'_, A>,
    streams: &mut V,
    frames: &mut W,
) -> Result<(), TableFault>
    requires names { length heading.hops.now ≡ length hops.now }
    requires known { length known.now ≡ length hops.now }
    ensures { OnOk result (WriteStream links.now hops.now known.now tallies.now (heading_of {A = A} heading.entry)
        (V.contents streams.old) (V.contents streams.new) (W.contents frames.old) (W.contents frames.new)) }
{
    let delays = stream_delays(alloc, links, hops, known)?;
    let line = stream_line(
        alloc,
        heading.name,
        tallies,
        delay_statistics(&delays),
        heading.bound,
        heading.deadline,
        heading.worst,
    )?;
    put_table(streams, line.as_str(), Table::Streams)?;
    write_hops(
        alloc,
        links,
        hops,
        known,
        heading.name,
        heading.hops,
        streams,
        frames,
    )
}
