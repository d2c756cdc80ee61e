//! Counts of copies, summed over all hops, for each frame of a stream's first hop. The rows of `streams.csv` and the lines about lost
//! frames use them.
ghost use Rattle.std.specs.Prelude.{◌≡◌, Bool, true, List, IfOk, OnOk};
ghost use Rattle.net_report.specs.Counting as spec;
ghost use Rattle.net_report.specs.Hops.{AreOnwardPorts};

use crate::hop_counting::is_pass;
use crate::hops::{is_onward, onward_ports};
use crate::sources::{SourceFrame, source_frame};
use bridge_filter::Verdict;
use bridge_limits::NoMemory;
use bridge_semantics::{Departure, StoredDeparture, StoredDrop, StoredVerdict, View};
use net_model::Link;
use std::alloc::Allocator;

/// Fate of a frame's copy, or of a frame at a hop. `count_frame` counts it for the first-hop frame from which the copy stems.
#[derive(Clone, Copy)]
pub enum CopyFate {
    /// The copy left by a port without next hop: an open port, or a link to a bridge without a hop of the stream.
    Delivered,
    /// A filter refused the frame, or a port dropped the copy.
    Refused,
    /// The copy left by a port whose link leads to a bridge with a hop of the stream.
    Forwarded,
    /// The frame arrived at a later hop than the first.
    Arrived,
}

/// Returns `count` plus one, or `count` if it is the largest 64-bit number, so that counting can't overflow. `add_fate` calls it.
fn saturating_increment(count: u64) -> u64
    ensures { result ≡ spec.saturating_increment count }
{
    if count < u64::MAX { count + 1 } else { count }
}

/// Returns the counts `tally` of a first-hop frame, with one added to the count of fate `fate`. `count_at_index` calls it.
fn add_fate(tally: CopyCounts, fate: CopyFate) -> CopyCounts
    ensures { result ≡ spec.add_fate tally fate }
{
    let CopyCounts {
        delivered,
        refused,
        sent_on,
        taken,
    } = tally;
    match fate {
        CopyFate::Delivered => CopyCounts {
            delivered: saturating_increment(delivered),
            refused,
            sent_on,
            taken,
        },
        CopyFate::Refused => CopyCounts {
            delivered,
            refused: saturating_increment(refused),
            sent_on,
            taken,
        },
        CopyFate::Forwarded => CopyCounts {
            delivered,
            refused,
            sent_on: saturating_increment(sent_on),
            taken,
        },
        CopyFate::Arrived => CopyCounts {
            delivered,
            refused,
            sent_on,
            taken: saturating_increment(taken),
        },
    }
}

/// Counts one copy or frame with fate `fate` for the first-hop frame with index `place`. Does nothing if `tallies` lacks this index.
/// `count_frame` calls it.
fn count_at_index(tallies: &mut [CopyCounts], place: usize, fate: CopyFate)
    ensures { tallies.new ≡ spec.count_at_index tallies.old place fate }
{
    if place < tallies.len() {
        tallies[place] = add_fate(tallies[place], fate);
    }
}

/// Counts one copy or frame with fate `fate` for its source, the first-hop frame `root`. Does nothing if the source is unknown (`None`) or
/// has number 0. `count_departures`, `count_drops` and 2 more call it.
fn count_frame(tallies: &mut [CopyCounts], root: Option<SourceFrame>, fate: CopyFate)
    ensures { tallies.new ≡ spec.count_frame fate tallies.old root }
{
    let Some(root) = root else {
        return;
    };
    if root.number == 0 {
        return;
    }
    count_at_index(tallies, (root.number - 1) as usize, fate);
}

/// Returns the fate of a copy that left: `Forwarded` if its port leads to a hop by `ways`, otherwise `Delivered`. `count_departures` calls
/// it.
fn departure_fate(ways: &[bool], departure: &Departure) -> CopyFate
    ensures { result ≡ spec.departure_fate ways.now departure.now }
{
    if is_onward(ways, departure.port) {
        CopyFate::Forwarded
    } else {
        CopyFate::Delivered
    }
}

/// Counts the copies that left a hop, each for its first-hop frame. `roots` has the source of each frame of the hop, `ways` whether ports 1
/// to 16 lead to a hop. `count_hop_record` calls it.
fn count_departures(
    tallies: &mut [CopyCounts],
    roots: &[Option<SourceFrame>],
    ways: &[bool],
    departures: &[StoredDeparture],
)
    ensures { tallies.new ≡ spec.with_departures ways.now roots.now tallies.old departures.now }
{
    for departure in departures {
        count_frame(
            tallies,
            source_frame(roots, departure.departure().own),
            departure_fate(ways, &departure.departure()),
        );
    }
}

/// Counts the copies that a hop's ports dropped as `Refused`, each for its first-hop frame. `roots` has the source of each frame of the
/// hop. `count_hop_record` calls it.
fn count_drops(tallies: &mut [CopyCounts], roots: &[Option<SourceFrame>], drops: &[StoredDrop])
    ensures { tallies.new ≡ spec.with_drops roots.now tallies.old drops.now }
{
    for dropped in drops {
        count_frame(
            tallies,
            source_frame(roots, dropped.dropped_copy().own),
            CopyFate::Refused,
        );
    }
}

/// Counts a frame as `Refused` for its first-hop frame `root`, unless the verdict is `Pass`. `count_verdicts` calls it.
fn count_verdict(tallies: &mut [CopyCounts], root: Option<SourceFrame>, verdict: Verdict)
    ensures { tallies.new ≡ spec.with_verdict tallies.old root verdict }
{
    if !is_pass(verdict) {
        count_frame(tallies, root, CopyFate::Refused);
    }
}

/// Counts the frames that a hop's filter refused, each for its first-hop frame. Verdicts and `roots` are in the order of the hop's frames,
/// numbered from 1. `count_hop_record` calls it.
fn count_verdicts(
    tallies: &mut [CopyCounts],
    roots: &[Option<SourceFrame>],
    verdicts: &[StoredVerdict],
)
    ensures { tallies.new ≡ spec.with_verdicts roots.now 1 tallies.old verdicts.now }
{
    let mut left = verdicts;
    let mut own = 1u64;
    while let Some((first, rest)) = left.split_first() {
        count_verdict(tallies, source_frame(roots, own), first.verdict());
        own += 1;
        left = rest;
    }
}

/// Counts the frames that arrived at a later hop than the first as `Arrived`. `roots` has the source of each of these frames. `count_hop`
/// calls it.
fn count_arrivals(tallies: &mut [CopyCounts], roots: &[Option<SourceFrame>])
    ensures { tallies.new ≡ spec.with_arrivals tallies.old roots.now }
{
    for root in roots {
        count_frame(tallies, *root, CopyFate::Arrived);
    }
}

/// Counts everything that a hop's record reports: copies that left (by `ways`), dropped copies and refused frames, each for its first-hop
/// frame. `count_hop` calls it.
fn count_hop_record<A: Allocator>(
    tallies: &mut [CopyCounts],
    roots: &[Option<SourceFrame>],
    ways: &[bool],
    view: &View<A>,
)
    ensures { tallies.new ≡ spec.with_view ways.now roots.now tallies.old view.now }
{
    count_departures(tallies, roots, ways, &view.departures);
    count_drops(tallies, roots, &view.drops);
    count_verdicts(tallies, roots, &view.verdicts);
}

/// Returns the number of frames that arrived at the first hop, or 0 for a stream without hops. `count_copies` makes one item for each of
/// these frames.
fn frame_count<A: Allocator>(hops: &[HopRun<'_, A>]) -> usize
    ensures { result ≡ spec.frame_count hops.now }
{
    match hops.first() {
        Some(hop) => {
            let view = hop.view;
            view.origins.len()
        }
        None => 0,
    }
}

/// Returns counts of zero, one item for each of `count` first-hop frames. `count_copies` calls it.
fn zero_counts<A: Allocator + Copy>(alloc: A, count: usize) -> Result<Vec<CopyCounts, A>, NoMemory>
    ensures { IfOk result (λ tallies. tallies.items ≡ spec.zero_counts count) }
{
    let none = CopyCounts {
        delivered: 0,
        refused: 0,
        sent_on: 0,
        taken: 0,
    };
    Ok(Vec::from_elem(alloc, none, count)?)
}

/// Counts the copies and frames of hop `hop`, each for its first-hop frame. `roots` has their sources. Arrivals count only if `is_first` is
/// false. `count_hops` calls it.
fn count_hop<A: Allocator + Copy>(
    alloc: A,
    links: &[Link],
    hops: &[HopRun<'_, A>],
    hop: &HopRun<'_, A>,
    is_first: bool,
    roots: &[Option<SourceFrame>],
    tallies: &mut [CopyCounts],
) -> Result<(), NoMemory>
    ensures { OnOk result ((ways : List Bool) × AreOnwardPorts links.now hops.now hop.now.bridge ways
        × (tallies.new ≡ spec.with_hop is_first ways roots.now tallies.old hop.now.view.now)) }
{
    let ways = onward_ports(alloc, links, hops, hop.bridge)?;
    let view = hop.view;
    count_hop_record(tallies, roots, &ways, view);
    if !is_first {
        count_arrivals(tallies, roots);
    }
    Ok(())
}

/// Counts the copies and frames of all hops. `all` has the source of each frame of each hop. Hops without item in `all` don't count.
/// `count_copies` calls it.
fn count_hops<A: Allocator + Copy>(
    alloc: A,
    links: &[Link],
    hops: &[HopRun<'_, A>],
    all: &[Vec<Option<SourceFrame>, A>],
    tallies: &mut [CopyCounts],
) -> Result<(), NoMemory>
    ensures { OnOk result (spec.AreCounted links.now hops.now true hops.now all.now tallies.old tallies.new) }
{
    for place in 0..hops.len() {
        if place >= all.len() {
            return Ok(());
        }
        count_hop(
            alloc,
            links,
            hops,
            &hops[place],
            place == 0,
            &all[place],
            tallies,
        )?;
    }
    Ok(())
}

/// Returns the counts of each first-hop frame's copies over all hops. `all` has the source of each frame of each hop. The tables and the
/// lines about lost frames use the counts.
///
/// `put_stream_lines` and `put_stream_rows` of `app_networks` call it.
pub fn count_copies<A: Allocator + Copy>(
    alloc: A,
    links: &[Link],
    hops: &[HopRun<'_, A>],
    all: &[Vec<Option<SourceFrame>, A>],
) -> Result<Vec<CopyCounts, A>, NoMemory>
    ensures { IfOk result (λ tallies. spec.AreCopyCounts links.now hops.now all.now tallies.items) }
{
    let frames = frame_count(hops);
    let mut tallies = zero_counts(alloc, frames)?;
    count_hops(alloc, links, hops, all, &mut tallies)?;
    Ok(tallies)
}

/// A hop of a stream after a network run: the index of its bridge, from 0, and the record of its filter.
#[derive(Drop)]
pub struct HopRun<'a, A: Allocator> {
    pub bridge: usize,
    pub view: &'a View<A>,
}

/// Counts for one first-hop frame over all hops. `refused` counts refused frames and dropped copies, `sent_on` copies sent to a bridge with
/// a hop, `taken` frames at later hops.
#[derive(Clone, Copy)]
pub struct CopyCounts {
    pub delivered: u64,
    pub refused: u64,
    pub sent_on: u64,
    pub taken: u64,
}

impl CopyCounts {
    ghost use Rattle.std.specs.Prelude.{◌≡◌};
    ghost use Rattle.net_report.specs.CopyCounts as fates;

    /// Returns the number of astray copies: copies that were sent to a bridge with a hop, but that no hop there accepted. `total_astray`
    /// sums these numbers.
    pub fn astray(&self) -> u64
        ensures { result ≡ fates.astray self.now }
    {
        self.sent_on.saturating_sub(self.taken)
    }

    /// Returns whether a copy of the frame was delivered, and none was refused, dropped or astray. `delivered_frames` counts such frames.
    pub fn is_delivered(&self) -> bool
        ensures { result ≡ fates.is_delivered self.now }
    {
        0 < self.delivered && self.refused == 0 && self.sent_on <= self.taken
    }
}
