//! Source frames: for each frame of each hop, the frame of the first hop from which it stems. Tables and lines about losses count by source
//! frames.
ghost use Rattle.std.specs.Prelude.{◌≡◌, ◌<◌, ◌≤◌, ℕ, List, false, length, IfOk, OnOk};
ghost use Rattle.net_model.specs.declared.links.Link.{Link};
ghost use Rattle.net_model.specs.NetworkParts.{sender_value};
ghost use Rattle.net_report.specs.Passes as passes;
ghost use Rattle.net_report.specs.SourceFrames as spec;

use crate::copy_counting::HopRun;
use bridge_limits::NoMemory;
use bridge_semantics::{Departure, Origin, StoredDeparture, StoredOrigin};
use net_model::{Link, Sender, find_sender};
use std::alloc::Allocator;

/// A frame of a stream's first hop: its number there, from 1, and its arrival time in ns. `trace_source_frames` finds it for frames of
/// later hops.
#[derive(Clone, Copy)]
pub struct SourceFrame {
    pub number: u64,
    pub came: u64,
}

/// Returns the sources of the first hop's frames: each frame is its own source. `initial_sources_of_hop` calls it.
fn first_hop_sources<A: Allocator + Copy>(
    alloc: A,
    origins: &[StoredOrigin],
) -> Result<Vec<Option<SourceFrame>, A>, NoMemory>
    ensures { IfOk result (λ roots. spec.AreFirstHopSources origins.now roots.items) }
{
    let mut roots = Vec::with_capacity(alloc, origins.len())?;
    for origin in origins {
        let number = roots.len() as u64 + 1;
        roots.push(Some(SourceFrame {
            number,
            came: origin.origin().at,
        }))?;
    }
    Ok(roots)
}

/// Returns one unknown source (`None`) for each of a hop's frames. `trace_source_frames` replaces the sources that it finds.
/// `initial_sources_of_hop` calls it.
fn unknown_sources<A: Allocator + Copy>(
    alloc: A,
    origins: &[StoredOrigin],
) -> Result<Vec<Option<SourceFrame>, A>, NoMemory>
    ensures { IfOk result (λ roots. spec.AreOpen origins.now roots.items) }
{
    let mut roots = Vec::with_capacity(alloc, origins.len())?;
    for origin in origins {
        let _origin = origin;
        roots.push(None)?;
    }
    Ok(roots)
}

/// Returns the initial sources of a hop's frames. Frames of the first hop (`is_first`) are their own sources; for other hops all are
/// `None`, unknown. `initial_sources` calls it.
fn initial_sources_of_hop<A: Allocator + Copy>(
    alloc: A,
    is_first: bool,
    origins: &[StoredOrigin],
) -> Result<Vec<Option<SourceFrame>, A>, NoMemory>
    ensures { IfOk result (λ roots. spec.AreInitialSourcesOfHop is_first origins.now roots.items) }
{
    if is_first {
        first_hop_sources(alloc, origins)
    } else {
        unknown_sources(alloc, origins)
    }
}

/// Returns the initial sources of all hops' frames: only frames of the first hop have one. Tracing finds the others. `trace_source_frames`
/// calls it.
fn initial_sources<A: Allocator + Copy>(
    alloc: A,
    hops: &[HopRun<'_, A>],
) -> Result<Vec<Vec<Option<SourceFrame>, A>, A>, NoMemory>
    ensures many { IfOk result (λ all. length all.items ≡ length hops.now) }
    ensures begun { IfOk result (λ all. spec.AreInitialSources hops.now all.items) }
    ensures first { IfOk result (λ all. spec.AreFirstHopFramesKnown hops.now all.items) }
    ensures each { IfOk result (λ all. spec.HaveEach hops.now all.items) }
{
    let mut all = Vec::with_capacity(alloc, hops.len())?;
    for place in 0..hops.len() {
        let view = hops[place].view;
        let roots = initial_sources_of_hop(alloc, place == 0, &view.origins)?;
        all.push(roots)?;
    }
    Ok(all)
}

/// Returns whether a copy left by `port` and arrives over the port's link at time `at` or later. It arrives `delay` ns after its end of
/// transmission. `due_departures` calls it.
fn is_due(departure: &Departure, port: u8, delay: u64, at: u64) -> bool
    ensures { result ≡ spec.is_due port delay at departure.now }
{
    departure.port == port && at as u128 <= departure.done as u128 + delay as u128
}

/// Returns the rest of `departures` from the first copy on that left by `port` and arrives at time `at` or later. The link's delay is
/// `delay` ns. `resume_due_departures` calls it.
fn due_departures(
    departures: &[StoredDeparture],
    port: u8,
    delay: u64,
    at: u64,
) -> &[StoredDeparture]
    ensures { result.now ≡ spec.due_departures port delay at departures.entry.now }
{
    let mut left = departures;
    while let Some((first, rest)) = left.split_first() {
        if is_due(&first.departure(), port, delay, at) {
            return left;
        }
        left = rest;
    }
    left
}

/// Returns the source of a hop's frame with number `own`, from 1. Returns `None` if the frame is missing or its source unknown.
/// `count_departures`, `count_drops` and 6 more call it.
pub fn source_frame(roots: &[Option<SourceFrame>], own: u64) -> Option<SourceFrame>
    ensures { result ≡ spec.source_frame roots.now own }
{
    if own == 0 {
        return None;
    }
    match roots.get((own - 1) as usize) {
        Some(root) => *root,
        None => None,
    }
}

/// Returns the source of the first copy in `departures` if the copy arrives over the link of `delay` ns exactly at time `at`, otherwise
/// `None`. `trace_frame` calls it.
fn source_over_link(
    roots: &[Option<SourceFrame>],
    departures: &[StoredDeparture],
    delay: u64,
    at: u64,
) -> Option<SourceFrame>
    ensures { result ≡ spec.source_over_link roots.now delay at departures.now }
{
    match departures.first() {
        None => None,
        Some(first) => {
            let first = first.departure();
            if first.done as u128 + delay as u128 == at as u128 {
                source_frame(roots, first.own)
            } else {
                None
            }
        }
    }
}

/// Returns the sender's copies from the first one on that arrives at time `at`, in ns, or later. From time `since` on, `left` is searched
/// instead of all copies `sent`. `trace_frame` calls it.
fn resume_due_departures<'a>(
    sender: Sender,
    sent: &'a [StoredDeparture],
    left: &'a [StoredDeparture],
    since: u64,
    at: u64,
) -> &'a [StoredDeparture]
    requires { spec.IsRestEnough (sender_value sender) sent.now left.now since }
    ensures { result.now ≡ spec.due_departures sender.from.port sender.delay at sent.entry.now }
{
    if at < since {
        return due_departures(sent, sender.from.port, sender.delay, at);
    }
    due_departures(left, sender.from.port, sender.delay, at)
}

/// Returns a frame's source, the rest of the sender's copies to search for later frames, and the time in ns from which the rest suffices.
/// `trace_from_sender` calls it.
fn trace_frame<'a>(
    sender: Sender,
    sent: &'a [StoredDeparture],
    left: &'a [StoredDeparture],
    since: u64,
    sent_roots: &[Option<SourceFrame>],
    port: u8,
    origin: &Origin,
    root: Option<SourceFrame>,
) -> (Option<SourceFrame>, &'a [StoredDeparture], u64)
    requires { spec.IsRestEnough (sender_value sender) sent.now left.now since }
    ensures root { result.0 ≡ spec.source_after_tracing (sender_value sender) sent.entry.now sent_roots.now port
        origin.now root }
    ensures left { spec.IsRestEnough (sender_value sender) sent.entry.now result.1.now result.2 }
{
    if origin.port != port {
        return (root, left, since);
    }
    let due = resume_due_departures(sender, sent, left, since, origin.at);
    if root.is_some() {
        return (root, due, origin.at);
    }
    (
        source_over_link(sent_roots, due, sender.delay, origin.at),
        due,
        origin.at,
    )
}

/// Returns the sources of a hop's frames after tracing those that arrived on `port` to the copies `sent` of another hop. `sent_roots` has
/// the sources of that hop's frames. `trace_pair` calls it.
fn trace_from_sender<A: Allocator + Copy>(
    alloc: A,
    sender: Sender,
    sent: &[StoredDeparture],
    sent_roots: &[Option<SourceFrame>],
    port: u8,
    origins: &[StoredOrigin],
    roots: &[Option<SourceFrame>],
) -> Result<Vec<Option<SourceFrame>, A>, NoMemory>
    ensures { IfOk result (λ made. spec.AreTraced
        (sender_value sender) sent.now sent_roots.now port origins.now roots.now made.items) }
{
    let mut made = Vec::with_capacity(alloc, roots.len())?;
    let mut left = sent;
    let mut since = 0u64;
    for place in 0..roots.len() {
        if place >= origins.len() {
            return Ok(made);
        }
        let (root, due, at) = trace_frame(
            sender,
            sent,
            left,
            since,
            sent_roots,
            port,
            &origins[place].origin(),
            roots[place],
        );
        left = due;
        since = at;
        made.push(root)?;
    }
    Ok(made)
}

/// Returns whether, at some index, a source is known in `new` and unknown in `old`. `trace_pair` calls it.
fn has_new_source(old: &[Option<SourceFrame>], new: &[Option<SourceFrame>]) -> bool
    ensures { result ≡ false → spec.AddsNoSource old.now new.now }
{
    for place in 0..new.len() {
        if place < old.len() && old[place].is_none() && new[place].is_some() {
            return true;
        }
    }
    false
}

/// Traces the frames that arrived at port `port` of hop `place` to copies of hop `other`, and updates `all`. Returns whether it found a
/// source. `trace_sender` calls it.
fn trace_pair<A: Allocator + Copy>(
    alloc: A,
    hops: &[HopRun<'_, A>],
    all: &mut Vec<Vec<Option<SourceFrame>, A>, A>,
    place: usize,
    other: usize,
    port: u8,
    sender: Sender,
) -> Result<bool, NoMemory>
    requires place { place < length hops.now }
    requires other { other < length hops.now }
    requires many { length all.old.items ≡ length hops.now }
    ensures many { OnOk result (length all.new.items ≡ length hops.now) }
    ensures sound { OnOk result ((links : List Link)
        → spec.IsSenderOfPort links hops.now place port (sender_value sender)
        → spec.AreSound links hops.now all.old.items → spec.AreSound links hops.now all.new.items) }
    ensures same { IfOk result (λ more. more ≡ false → all.new ≡ all.old) }
    ensures exhausted { IfOk result (λ more. more ≡ false
        → spec.IsPairExhausted hops.now all.old.items (sender_value sender) place port other) }
    ensures traced { OnOk result ((links : List Link)
        → spec.IsSenderOfPort links hops.now place port (sender_value sender)
        → spec.AreSound links hops.now all.old.items → passes.contents all.new.items
        ≡ passes.pair_step (passes.traces hops.now) (sender_value sender) place port other
        (passes.contents all.old.items)) }
{
    if hops[other].bridge != sender.from.bridge as usize {
        return Ok(false);
    }
    let sent = hops[other].view;
    let came = hops[place].view;
    let made = trace_from_sender(
        alloc,
        sender,
        &sent.departures,
        &all[other],
        port,
        &came.origins,
        &all[place],
    )?;
    if !has_new_source(&all[place], &made) {
        return Ok(false);
    }
    all[place] = made;
    Ok(true)
}

/// Returns whether `one` or `other` is true. Loops over hops and ports call it to combine whether they found more sources. Their proofs
/// need the contract, which `
///
/// ` lacks. `trace_sender`, `trace_hop` and `trace_all` call it.
fn either(one: bool, other: bool) -> bool
    ensures one { result ≡ false → one ≡ false }
    ensures other { result ≡ false → other ≡ false }
{
    one || other
}

/// Traces the frames that arrived at port `port` of hop `place` to copies of all hops at the sending bridge. Returns whether it found a
/// source. `trace_port` calls it.
fn trace_sender<A: Allocator + Copy>(
    alloc: A,
    hops: &[HopRun<'_, A>],
    all: &mut Vec<Vec<Option<SourceFrame>, A>, A>,
    place: usize,
    port: u8,
    sender: Sender,
) -> Result<bool, NoMemory>
    requires place { place < length hops.now }
    requires many { length all.old.items ≡ length hops.now }
    ensures many { OnOk result (length all.new.items ≡ length hops.now) }
    ensures sound { OnOk result ((links : List Link)
        → spec.IsSenderOfPort links hops.now place port (sender_value sender)
        → spec.AreSound links hops.now all.old.items → spec.AreSound links hops.now all.new.items) }
    ensures same { IfOk result (λ more. more ≡ false → all.new ≡ all.old) }
    ensures exhausted { IfOk result (λ more. more ≡ false → (j : ℕ) → j < length hops.now
        → spec.IsPairExhausted hops.now all.old.items (sender_value sender) place port j) }
    ensures traced { OnOk result ((links : List Link)
        → spec.IsSenderOfPort links hops.now place port (sender_value sender)
        → spec.AreSound links hops.now all.old.items → passes.contents all.new.items
        ≡ passes.sender_step (passes.traces hops.now) (sender_value sender) place port
        (passes.contents all.old.items)) }
{
    let mut more = false;
    for other in 0..hops.len() {
        let found = trace_pair(alloc, hops, all, place, other, port, sender)?;
        more = either(more, found);
    }
    Ok(more)
}

/// Traces the frames that arrived at port `port` of hop `place` over its link. Returns whether it found a source. `trace_hop` calls it.
fn trace_port<A: Allocator + Copy>(
    alloc: A,
    links: &[Link],
    hops: &[HopRun<'_, A>],
    all: &mut Vec<Vec<Option<SourceFrame>, A>, A>,
    place: usize,
    port: u8,
) -> Result<bool, NoMemory>
    requires place { place < length hops.now }
    requires many { length all.old.items ≡ length hops.now }
    ensures many { OnOk result (length all.new.items ≡ length hops.now) }
    ensures sound { OnOk result (spec.AreSound links.now hops.now all.old.items
        → spec.AreSound links.now hops.now all.new.items) }
    ensures same { IfOk result (λ more. more ≡ false → all.new ≡ all.old) }
    ensures exhausted { IfOk result (λ more. more ≡ false
        → spec.IsPortExhausted links.now hops.now all.old.items place port) }
    ensures traced { OnOk result (spec.AreSound links.now hops.now all.old.items → passes.contents all.new.items
        ≡ passes.port_step links.now (passes.traces hops.now) place port (passes.contents all.old.items)) }
{
    match find_sender(links, hops[place].bridge, port) {
        Some(sender) => {
            let more = trace_sender(alloc, hops, all, place, port, sender)?;
            Ok(more)
        }
        None => Ok(false),
    }
}

/// Traces the frames that arrived at hop `place` over links, port by port. Returns whether it found a source. `trace_all` calls it.
fn trace_hop<A: Allocator + Copy>(
    alloc: A,
    links: &[Link],
    hops: &[HopRun<'_, A>],
    all: &mut Vec<Vec<Option<SourceFrame>, A>, A>,
    place: usize,
) -> Result<bool, NoMemory>
    requires place { place < length hops.now }
    requires many { length all.old.items ≡ length hops.now }
    ensures many { OnOk result (length all.new.items ≡ length hops.now) }
    ensures sound { OnOk result (spec.AreSound links.now hops.now all.old.items
        → spec.AreSound links.now hops.now all.new.items) }
    ensures same { IfOk result (λ more. more ≡ false → all.new ≡ all.old) }
    ensures exhausted { IfOk result (λ more. more ≡ false → (q : ℕ) → 1 ≤ q → q < 17
        → spec.IsPortExhausted links.now hops.now all.old.items place q) }
    ensures traced { OnOk result (spec.AreSound links.now hops.now all.old.items → passes.contents all.new.items
        ≡ passes.hop_step links.now (passes.traces hops.now) place (passes.contents all.old.items)) }
{
    let mut more = false;
    for port in 1..17u8 {
        let found = trace_port(alloc, links, hops, all, place, port)?;
        more = either(more, found);
    }
    Ok(more)
}

/// Traces once, for each hop, the frames that arrived over links. Returns whether it found a source. `trace_source_frames` repeats it until
/// it finds no more.
fn trace_all<A: Allocator + Copy>(
    alloc: A,
    links: &[Link],
    hops: &[HopRun<'_, A>],
    all: &mut Vec<Vec<Option<SourceFrame>, A>, A>,
) -> Result<bool, NoMemory>
    requires many { length all.old.items ≡ length hops.now }
    ensures many { OnOk result (length all.new.items ≡ length hops.now) }
    ensures sound { OnOk result (spec.AreSound links.now hops.now all.old.items
        → spec.AreSound links.now hops.now all.new.items) }
    ensures same { IfOk result (λ more. more ≡ false → all.new ≡ all.old) }
    ensures exhausted { IfOk result (λ more. more ≡ false → spec.AreExhausted links.now hops.now all.old.items) }
    ensures traced { OnOk result (spec.AreSound links.now hops.now all.old.items → passes.contents all.new.items
        ≡ passes.pass links.now (passes.traces hops.now) (passes.contents all.old.items)) }
{
    let mut more = false;
    for place in 0..hops.len() {
        let found = trace_hop(alloc, links, hops, all, place)?;
        more = either(more, found);
    }
    Ok(more)
}

/// Returns the source of each frame of each hop, or `None` for a frame without source. A frame from a link has the source of the copy that
/// ended one delay before.
///
/// `put_stream_lines` and `put_stream_rows` of `app_networks` call it.
pub fn trace_source_frames<A: Allocator + Copy>(
    alloc: A,
    links: &[Link],
    hops: &[HopRun<'_, A>],
) -> Result<Vec<Vec<Option<SourceFrame>, A>, A>, NoMemory>
    ensures many { IfOk result (λ all. length all.items ≡ length hops.now) }
    ensures from { IfOk result (λ all. spec.HaveSources links.now hops.now all.items) }
    ensures first { IfOk result (λ all. spec.AreFirstHopFramesKnown hops.now all.items) }
    ensures each { IfOk result (λ all. spec.HaveEach hops.now all.items) }
    ensures exhausted { IfOk result (λ all. spec.AreExhausted links.now hops.now all.items) }
    ensures traced { IfOk result (λ all. passes.IsTraced links.now (passes.traces hops.now)
        (passes.contents all.items)) }
{
    let mut all = initial_sources(alloc, hops)?;
    for _ in 0..u64::MAX {
        if !trace_all(alloc, links, hops, &mut all)? {
            return Ok(all);
        }
    }
    Err(NoMemory)
}
