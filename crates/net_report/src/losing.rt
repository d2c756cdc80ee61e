//! Lines about streams that lost frames or missed their deadlines, for `net --strict`.
ghost use Rattle.std.specs.Prelude.{◌≡◌, count_by, flat_map};
ghost use Rattle.net_report.specs.Losing as spec;
ghost use Rattle.bridge_text.specs.Growth.{HasGrown};

use crate::copy_counting::CopyCounts;
use crate::hop_counting::HopCounts;
use crate::stream_table::{delivered_frames, total_astray};
use bridge_report::{Losses, greatest_delay, put_losses, put_reason};
use bridge_text::TextBuilder;
use std::alloc::Allocator;

/// A hop of a stream with its losses. `put_faults` writes them in the stream's `lost:` line.
#[derive(Drop)]
pub struct HopLosses<A: Allocator> {
    /// Name of the hop, with a space at its end.
    pub place: String<A>,
    /// Counts of the hop.
    pub counts: HopCounts,
}

/// Returns the numbers of refused frames and dropped copies of a hop, in the form in which `bridge_report` writes losses. `put_hop_losses`
/// calls it.
fn hop_losses(counts: &HopCounts) -> Losses
    ensures { result ≡ spec.losses_at counts.now }
{
    Losses {
        blocked: counts.blocked,
        oversize: counts.oversize,
        gate_closed: counts.gate_closed,
        shut_rx: counts.shut_rx,
        shut_octets: counts.shut_octets,
        octets_exceeded: counts.octets_exceeded,
        red: counts.red,
        yellow_dropped: counts.yellow_dropped,
        full: counts.full,
        never: counts.never,
    }
}

/// Writes the words for the causes of losses at a hop, with the hop's name. `put_losses` leaves out causes without loss. `put_hops` calls
/// it.
fn put_hop_losses<A: Allocator>(text: &mut TextBuilder<A>, hop: &HopLosses<A>)
    ensures { HasGrown text.old (spec.hop_words hop.now) text.new }
{
    put_losses(text, hop.place.as_str(), &hop_losses(&hop.counts));
}

/// Writes the words for the causes of losses at all hops. `put_loss_causes` calls it.
fn put_hops<A: Allocator>(text: &mut TextBuilder<A>, hops: &[HopLosses<A>])
    ensures { HasGrown text.old (flat_map spec.hop_words hops.now) text.new }
{
    for hop in hops {
        put_hop_losses(text, hop);
    }
}

/// Returns whether no copy of a first-hop frame was delivered, refused, dropped or astray. Then the last hop that accepted the frame
/// forwarded it to no port. `count_not_forwarded` calls it.
fn is_nowhere(tally: &CopyCounts) -> bool
    ensures { result ≡ spec.is_nowhere tally.now }
{
    tally.delivered == 0 && tally.refused == 0 && tally.sent_on <= tally.taken
}

/// Returns the number of first-hop frames that were forwarded to no port (`is_nowhere`). `put_loss_causes` calls it.
fn count_not_forwarded(tallies: &[CopyCounts]) -> usize
    ensures { result ≡ count_by spec.is_nowhere tallies.now }
{
    tallies.iter().filter(|tally| is_nowhere(*tally)).count()
}

/// Writes why a stream lost frames: causes at its hops, number of astray copies, and number of frames that were forwarded to no port.
/// `put_lost` calls it.
fn put_loss_causes<A: Allocator>(
    text: &mut TextBuilder<A>,
    tallies: &[CopyCounts],
    hops: &[HopLosses<A>],
)
    ensures { HasGrown text.old (spec.why_words tallies.now hops.now) text.new }
{
    put_hops(text, hops);
    put_reason(text, "", "astray", total_astray(tallies));
    put_reason(text, "", "nowhere", count_not_forwarded(tallies) as u128);
}

/// Writes the `lost:` line of a stream that lost frames. `put_lost_if` calls it.
fn put_lost<A: Allocator>(
    text: &mut TextBuilder<A>,
    stream: &str,
    tallies: &[CopyCounts],
    hops: &[HopLosses<A>],
)
    ensures { HasGrown text.old (spec.lost_words stream.now tallies.now hops.now) text.new }
{
    let frames = tallies.len();
    let delivered = delivered_frames(tallies);
    text.put("lost: stream ");
    text.put(stream);
    text.put(", ");
    text.put_number(frames.saturating_sub(delivered) as u64);
    text.put(" of ");
    text.put_number(frames as u64);
    text.put(" frames");
    put_loss_causes(text, tallies, hops);
    text.put("\n");
}

/// Writes the `lost:` line of a stream if not all its first-hop frames were delivered. `put_faults` calls it.
fn put_lost_if<A: Allocator>(
    text: &mut TextBuilder<A>,
    stream: &str,
    tallies: &[CopyCounts],
    hops: &[HopLosses<A>],
)
    ensures { HasGrown text.old (spec.lost_line stream.now tallies.now hops.now) text.new }
{
    if delivered_frames(tallies) != tallies.len() {
        put_lost(text, stream, tallies, hops);
    }
}

/// Returns the number of delays in ns above `deadline`: the delivered copies that missed the deadline. `put_late` and `put_late_if` call
/// it.
fn count_late(deadline: u64, delays: &[u64]) -> usize
    ensures { result ≡ spec.late_in deadline delays.now }
{
    delays.iter().filter(|delay| deadline < **delay).count()
}

/// Writes the `late:` line of a stream whose deadline, in ns, a copy missed. `put_late_if` calls it.
fn put_late<A: Allocator>(text: &mut TextBuilder<A>, stream: &str, delays: &[u64], deadline: u64)
    ensures { HasGrown text.old (spec.late_words stream.now delays.now deadline) text.new }
{
    text.put("late: stream ");
    text.put(stream);
    text.put(", ");
    text.put_number(count_late(deadline, delays) as u64);
    text.put(" of ");
    text.put_number(delays.len() as u64);
    text.put(" delivered copies, worst delay ");
    text.put_number(greatest_delay(delays));
    text.put(" ns, deadline ");
    text.put_number(deadline);
    text.put(" ns\n");
}

/// Writes the `late:` line of a stream if it has a deadline, in ns, and a copy missed the deadline. `put_faults` calls it.
fn put_late_if<A: Allocator>(
    text: &mut TextBuilder<A>,
    stream: &str,
    delays: &[u64],
    deadline: Option<u64>,
)
    ensures { HasGrown text.old (spec.late_line stream.now delays.now deadline) text.new }
{
    if let Some(deadline) = deadline {
        if count_late(deadline, delays) != 0 {
            put_late(text, stream, delays, deadline);
        }
    }
}

/// Writes a line if the stream lost frames, and a line if a delivered copy missed the deadline. `delays` has the delivered copies' delays
/// in ns. `net --strict` prints the lines.
///
/// `put_stream_lines` of `app_networks` calls it.
pub fn put_faults<A: Allocator>(
    text: &mut TextBuilder<A>,
    stream: &str,
    tallies: &[CopyCounts],
    hops: &[HopLosses<A>],
    delays: &[u64],
    deadline: Option<u64>,
)
    ensures { HasGrown text.old (spec.fault_lines stream.now tallies.now hops.now delays.now deadline) text.new }
{
    put_lost_if(text, stream, tallies, hops);
    put_late_if(text, stream, delays, deadline);
}
