//! Counts of frames and copies at one hop of a stream, and delays of its copies, for `streams.csv` and the lines about lost frames.
ghost use Rattle.std.specs.Prelude.{◌≡◌, ◌++◌, Bool, List, count_by, IfOk, OnOk};
ghost use Rattle.net_report.specs.Hops.{AreOnwardPorts};
ghost use Rattle.net_report.specs.HopCounts as spec;

use crate::copy_counting::HopRun;
use crate::hops::{is_onward, onward_ports};
use crate::sources::{SourceFrame, source_frame};
use bridge_filter::Verdict;
use bridge_limits::NoMemory;
use bridge_port::Refusal;
use bridge_report::arrival_time;
use bridge_semantics::{
    Departure, Dropped, StoredDeparture, StoredDrop, StoredOrigin, StoredVerdict, View,
};
use net_model::Link;
use std::alloc::Allocator;

/// Returns whether a verdict is `Pass`: the filter passed the frame. Counts, tables and pictures find refused frames in this way.
/// `count_verdict`, `put_verdict` and `put_refused` call it.
pub(crate) fn is_pass(verdict: Verdict) -> bool
    ensures { result ≡ spec.is_pass verdict }
{
    matches!(verdict, Verdict::Pass { .. })
}

/// Counts of a hop: frames, delivered copies, and lost frames and copies by cause. The row of the hop in `streams.csv` has them.
#[derive(Clone, Copy)]
pub struct HopCounts {
    pub frames: u64,
    pub delivered: u64,
    pub blocked: u64,
    pub oversize: u64,
    pub gate_closed: u64,
    pub shut_rx: u64,
    pub shut_octets: u64,
    pub octets_exceeded: u64,
    pub red: u64,
    pub yellow_dropped: u64,
    pub full: u64,
    pub never: u64,
}

/// Returns whether a frame was refused as `Blocked`: an earlier oversize frame had blocked the filter. `count_blocked` calls it.
fn is_blocked(verdict: &Verdict) -> bool
    ensures { result ≡ spec.is_blocked verdict.now }
{
    matches!(*verdict, Verdict::Blocked)
}

/// Returns whether a frame was refused as `Oversize`: its SDU was above the filter's maximum. `count_oversize` calls it.
fn is_oversize(verdict: &Verdict) -> bool
    ensures { result ≡ spec.is_oversize verdict.now }
{
    matches!(*verdict, Verdict::Oversize)
}

/// Returns whether a frame was refused as `GateClosed`: the stream gate was closed when it arrived. `count_gate_closed` calls it.
fn is_gate_closed(verdict: &Verdict) -> bool
    ensures { result ≡ spec.is_gate_closed verdict.now }
{
    matches!(*verdict, Verdict::GateClosed)
}

/// Returns whether a frame was refused as `ShutByRx`: an earlier frame, which arrived while the stream gate was closed, had shut the gate.
/// `count_shut_rx` calls it.
fn is_shut_rx(verdict: &Verdict) -> bool
    ensures { result ≡ spec.is_shut_rx verdict.now }
{
    matches!(*verdict, Verdict::ShutByRx)
}

/// Returns whether a frame was refused as `ShutByOctets`: an earlier frame with too many octets had shut the stream gate.
/// `count_shut_octets` calls it.
fn is_shut_octets(verdict: &Verdict) -> bool
    ensures { result ≡ spec.is_shut_octets verdict.now }
{
    matches!(*verdict, Verdict::ShutByOctets)
}

/// Returns whether a frame was refused as `OctetsExceeded`: it had more octets than were left in the stream gate's interval.
/// `count_octets_exceeded` calls it.
fn is_octets_exceeded(verdict: &Verdict) -> bool
    ensures { result ≡ spec.is_octets_exceeded verdict.now }
{
    matches!(*verdict, Verdict::OctetsExceeded)
}

/// Returns whether a frame was refused as `Red`: the meter coloured it red. `count_red` calls it.
fn is_red(verdict: &Verdict) -> bool
    ensures { result ≡ spec.is_red verdict.now }
{
    matches!(*verdict, Verdict::Red)
}

/// Returns whether a frame was refused as `YellowDropped`: the meter coloured it yellow, and drops yellow frames. `count_yellow_dropped`
/// calls it.
fn is_yellow_dropped(verdict: &Verdict) -> bool
    ensures { result ≡ spec.is_yellow_dropped verdict.now }
{
    matches!(*verdict, Verdict::YellowDropped)
}

/// Returns whether a copy was dropped because its queue was full. `count_full` and `never_fits` call it.
fn is_full(dropped: &Dropped) -> bool
    ensures { result ≡ spec.is_full dropped.now }
{
    matches!(dropped.refusal, Refusal::Full)
}

/// Returns whether a copy was dropped because it fits at no time (`NeverFits`). `count_never_fits` calls it.
fn never_fits(dropped: &Dropped) -> bool
    ensures { result ≡ spec.never_fits dropped.now }
{
    !is_full(dropped)
}

/// Returns the number of frames refused as `Blocked`: an earlier oversize frame had blocked the filter. `counts_by_ports` calls it.
fn count_blocked(verdicts: &[StoredVerdict]) -> usize
    ensures { result ≡ count_by spec.is_blocked verdicts.now }
{
    verdicts.iter().filter(|v| is_blocked(&v.verdict())).count()
}

/// Returns the number of frames refused as `Oversize`: their SDU was above the filter's maximum. `counts_by_ports` calls it.
fn count_oversize(verdicts: &[StoredVerdict]) -> usize
    ensures { result ≡ count_by spec.is_oversize verdicts.now }
{
    verdicts
        .iter()
        .filter(|v| is_oversize(&v.verdict()))
        .count()
}

/// Returns the number of frames refused as `GateClosed`: the stream gate was closed when they arrived. `counts_by_ports` calls it.
fn count_gate_closed(verdicts: &[StoredVerdict]) -> usize
    ensures { result ≡ count_by spec.is_gate_closed verdicts.now }
{
    verdicts
        .iter()
        .filter(|v| is_gate_closed(&v.verdict()))
        .count()
}

/// Returns the number of frames refused as `ShutByRx`: an earlier frame, which arrived while the stream gate was closed, had shut the gate.
/// `counts_by_ports` calls it.
fn count_shut_rx(verdicts: &[StoredVerdict]) -> usize
    ensures { result ≡ count_by spec.is_shut_rx verdicts.now }
{
    verdicts.iter().filter(|v| is_shut_rx(&v.verdict())).count()
}

/// Returns the number of frames refused as `ShutByOctets`: an earlier frame with too many octets had shut the stream gate.
/// `counts_by_ports` calls it.
fn count_shut_octets(verdicts: &[StoredVerdict]) -> usize
    ensures { result ≡ count_by spec.is_shut_octets verdicts.now }
{
    verdicts
        .iter()
        .filter(|v| is_shut_octets(&v.verdict()))
        .count()
}

/// Returns the number of frames refused as `OctetsExceeded`: they had more octets than were left in the stream gate's interval.
/// `counts_by_ports` calls it.
fn count_octets_exceeded(verdicts: &[StoredVerdict]) -> usize
    ensures { result ≡ count_by spec.is_octets_exceeded verdicts.now }
{
    verdicts
        .iter()
        .filter(|v| is_octets_exceeded(&v.verdict()))
        .count()
}

/// Returns the number of frames refused as `Red`: the meter coloured them red. `counts_by_ports` calls it.
fn count_red(verdicts: &[StoredVerdict]) -> usize
    ensures { result ≡ count_by spec.is_red verdicts.now }
{
    verdicts.iter().filter(|v| is_red(&v.verdict())).count()
}

/// Returns the number of frames refused as `YellowDropped`: the meter coloured them yellow, and drops yellow frames. `counts_by_ports`
/// calls it.
fn count_yellow_dropped(verdicts: &[StoredVerdict]) -> usize
    ensures { result ≡ count_by spec.is_yellow_dropped verdicts.now }
{
    verdicts
        .iter()
        .filter(|v| is_yellow_dropped(&v.verdict()))
        .count()
}

/// Returns the number of copies that a hop dropped because their queue was full. `counts_by_ports` calls it.
fn count_full(drops: &[StoredDrop]) -> usize
    ensures { result ≡ count_by spec.is_full drops.now }
{
    drops.iter().filter(|d| is_full(&d.dropped_copy())).count()
}

/// Returns the number of copies that a hop dropped because they fit at no time (`NeverFits`). `counts_by_ports` calls it.
fn count_never_fits(drops: &[StoredDrop]) -> usize
    ensures { result ≡ count_by spec.never_fits drops.now }
{
    drops
        .iter()
        .filter(|d| never_fits(&d.dropped_copy()))
        .count()
}

/// Returns the number of delivered copies of a hop: they left by ports without next hop. `ways` has for ports 1 to 16 whether the port
/// leads to a hop. `counts_by_ports` calls it.
fn count_delivered(ways: &[bool], departures: &[StoredDeparture]) -> usize
    ensures { result ≡ count_by (spec.is_delivery ways.now) departures.now }
{
    departures
        .iter()
        .filter(|d| !is_onward(ways, d.departure().port))
        .count()
}

/// Returns the counts of a hop from its record `view`. `ways` has for ports 1 to 16 whether the port leads to a hop. `rows_of_hop` and
/// `hop_counts` call it.
pub(crate) fn counts_by_ports<A: Allocator>(ways: &[bool], view: &View<A>) -> HopCounts
    ensures { result ≡ spec.counts_by_ports ways.now view.now }
{
    let verdicts = &view.verdicts;
    let drops = &view.drops;
    let departures = &view.departures;
    HopCounts {
        frames: view.origins.len() as u64,
        delivered: count_delivered(ways, departures) as u64,
        blocked: count_blocked(verdicts) as u64,
        oversize: count_oversize(verdicts) as u64,
        gate_closed: count_gate_closed(verdicts) as u64,
        shut_rx: count_shut_rx(verdicts) as u64,
        shut_octets: count_shut_octets(verdicts) as u64,
        octets_exceeded: count_octets_exceeded(verdicts) as u64,
        red: count_red(verdicts) as u64,
        yellow_dropped: count_yellow_dropped(verdicts) as u64,
        full: count_full(drops) as u64,
        never: count_never_fits(drops) as u64,
    }
}

/// Returns the counts of hop `hop` of the stream with hops `hops`, for the lines about lost frames. The links decide which ports lead to a
/// hop. `hop_loss` of `app_networks` calls it.
pub fn hop_counts<A: Allocator + Copy>(
    alloc: A,
    links: &[Link],
    hops: &[HopRun<'_, A>],
    hop: &HopRun<'_, A>,
) -> Result<HopCounts, NoMemory>
    ensures { IfOk result (λ counts. (ways : List Bool) × AreOnwardPorts links.now hops.now hop.now.bridge ways
        × (counts ≡ spec.counts_by_ports ways hop.now.view.now)) }
{
    let ways = onward_ports(alloc, links, hops, hop.bridge)?;
    Ok(counts_by_ports(&ways, hop.view))
}

/// Appends the delay of a copy to `delays` if it was delivered (by `ways`) and its source frame is known. `departure_delays` calls it.
fn push_delay<A: Allocator>(
    delays: &mut Vec<u64, A>,
    ways: &[bool],
    roots: &[Option<SourceFrame>],
    departure: &Departure,
) -> Result<(), NoMemory>
    ensures { OnOk result (delays.new.items ≡ delays.old.items ++ spec.delay_of ways.now roots.now departure.now) }
{
    if is_onward(ways, departure.port) {
        return Ok(());
    }
    if let Some(root) = source_frame(roots, departure.own) {
        delays.push(departure.done.saturating_sub(root.came))?;
    }
    Ok(())
}

/// Returns the delays in ns of the copies that a hop delivered (by `ways`), from arrival at the first hop, in the order of leaving. Leaves
/// out copies with unknown source.
///
/// `rows_of_hop` and `push_delays` call it.
pub(crate) fn departure_delays<A: Allocator + Copy>(
    alloc: A,
    ways: &[bool],
    roots: &[Option<SourceFrame>],
    departures: &[StoredDeparture],
) -> Result<Vec<u64, A>, NoMemory>
    ensures { IfOk result (λ delays. delays.items ≡ spec.departure_delays ways.now roots.now departures.now) }
{
    let mut delays = Vec::new(alloc);
    for departure in departures {
        push_delay(&mut delays, ways, roots, &departure.departure())?;
    }
    Ok(delays)
}

/// Returns the delay of a copy at its hop in ns: from the frame's arrival there to the end of the copy's transmission. `delays_at_hop`
/// calls it.
fn delay_at_hop(origins: &[StoredOrigin], departure: &Departure) -> u64
    ensures { result ≡ spec.delay_at_hop origins.now departure.now }
{
    departure
        .done
        .saturating_sub(arrival_time(origins, departure.own))
}

/// Returns the delays in ns of all copies that left a hop, from arrival at this hop, in the order of leaving. `rows_of_hop` uses their
/// least and greatest.
pub(crate) fn delays_at_hop<A: Allocator + Copy>(
    alloc: A,
    origins: &[StoredOrigin],
    departures: &[StoredDeparture],
) -> Result<Vec<u64, A>, NoMemory>
    ensures { IfOk result (λ delays. delays.items ≡ spec.delays_at_hop origins.now departures.now) }
{
    let mut delays = Vec::new(alloc);
    for departure in departures {
        delays.push(delay_at_hop(origins, &departure.departure()))?;
    }
    Ok(delays)
}
