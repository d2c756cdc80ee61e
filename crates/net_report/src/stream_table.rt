//! The table `streams.csv` of a network run: counts and delays of each stream and each of its hops. `write_stream` writes its rows.
ghost use Rattle.std.specs.Prelude.{◌≡◌, IfOk, string_bytes, sum_by, ◌++◌, decimal};
ghost use Rattle.bridge_text.specs.Growth.{HasGrown};
ghost use Rattle.net_report.specs.StreamTable as spec;
ghost use Rattle.net_report.specs.CopyCounts.{astray};

use crate::copy_counting::CopyCounts;
use crate::hop_counting::HopCounts;
use crate::statistics::DelayStatistics;
use bridge_limits::NoMemory;
use bridge_text::TextBuilder;
use std::alloc::Allocator;

/// First line of the table `streams.csv`. A row belongs to a stream (hop `all`) or to a hop. Delays, bounds, deadlines and margins are in
/// ns. The column `met` is `none` if no frame arrived.
pub const STREAMS_HEADER: &str =
    "stream,hop,frames,delivered,lost,blocked,oversize,gate-closed,shut-rx,shut-octets,octets-exceeded,red,yellow-dropped,full,never,astray,least,mean,greatest,jitter,bound,deadline,met,worst,margin,hop-least,hop-greatest\n";

/// Writes least, mean and greatest delay and jitter in ns, or empty fields without a delay. `hop_line` and `stream_line` call it.
fn put_statistics<A: Allocator>(text: &mut TextBuilder<A>, figures: Option<DelayStatistics>)
    ensures { HasGrown text.old (spec.statistics_words figures) text.new }
{
    match figures {
        Some(
            DelayStatistics {
                least,
                mean,
                greatest,
                jitter,
            },
        ) => {
            put_number_with_suffix(text, least, ",");
            put_wide_with_suffix(text, mean, ",");
            put_number_with_suffix(text, greatest, ",");
            put_number_with_suffix(text, jitter, ",");
        }
        None => text.put(",,,,"),
    }
}

/// Returns the number of frames and copies that a hop lost. `put_hop_start` calls it.
fn lost_copies(counts: &HopCounts) -> u128
    ensures { result ≡ spec.lost_copies counts.now }
{
    let refused = counts.blocked as u128 + counts.oversize as u128 + counts.gate_closed as u128;
    let shut = counts.shut_rx as u128 + counts.shut_octets as u128;
    let metered = counts.octets_exceeded as u128 + counts.red as u128;
    let dropped = counts.yellow_dropped as u128 + counts.full as u128 + counts.never as u128;
    refused + shut + metered + dropped
}

/// Writes the numbers of losses at a hop, one field for each cause. `hop_line` calls it.
fn put_loss_causes<A: Allocator>(text: &mut TextBuilder<A>, counts: &HopCounts)
    ensures { HasGrown text.old (spec.reason_words counts.now) text.new }
{
    put_number_with_suffix(text, counts.blocked, ",");
    put_number_with_suffix(text, counts.oversize, ",");
    put_number_with_suffix(text, counts.gate_closed, ",");
    put_number_with_suffix(text, counts.shut_rx, ",");
    put_number_with_suffix(text, counts.shut_octets, ",");
    put_number_with_suffix(text, counts.octets_exceeded, ",");
    put_number_with_suffix(text, counts.red, ",");
    put_number_with_suffix(text, counts.yellow_dropped, ",");
    put_number_with_suffix(text, counts.full, ",");
    put_number_with_suffix(text, counts.never, ",");
}

/// Writes the beginning of a hop's row, up to the number of its losses. `hop_line` calls it.
fn put_hop_start<A: Allocator>(
    text: &mut TextBuilder<A>,
    stream: &str,
    hop: &str,
    counts: &HopCounts,
)
    ensures { HasGrown text.old (spec.hop_start stream.now hop.now counts.now) text.new }
{
    text.put(stream);
    text.put(",");
    text.put(hop);
    text.put(",");
    put_number_with_suffix(text, counts.frames, ",");
    put_number_with_suffix(text, counts.delivered, ",");
    put_wide_with_suffix(text, lost_copies(counts), ",");
}

/// Writes the last two fields of a hop's row: least and greatest delay at the hop in ns, or empty fields if no copy left. `hop_line` calls
/// it.
fn put_hop_delays<A: Allocator>(text: &mut TextBuilder<A>, figures: Option<DelayStatistics>)
    ensures { HasGrown text.old (spec.hop_delay_words figures) text.new }
{
    match figures {
        Some(
            DelayStatistics {
                least,
                greatest,
                ..
            },
        ) => {
            put_number_with_suffix(text, least, ",");
            put_number_with_suffix(text, greatest, "\n");
        }
        None => text.put(",\n"),
    }
}

/// Returns the row of a hop in `streams.csv`. `figures` has delivered copies' delays from the first hop, `here` delays at this hop. Each is
/// `None` without copies. `rows_of_hop` calls it.
pub fn hop_line<A: Allocator + Copy>(
    alloc: A,
    stream: &str,
    hop: &str,
    counts: &HopCounts,
    figures: Option<DelayStatistics>,
    here: Option<DelayStatistics>,
) -> Result<String<A>, NoMemory>
    ensures { IfOk result (λ text. string_bytes text ≡ spec.hop_line stream.now hop.now counts.now figures here) }
{
    let mut text = TextBuilder::new(alloc);
    put_hop_start(&mut text, stream, hop, counts);
    put_loss_causes(&mut text, counts);
    text.put(",");
    put_statistics(&mut text, figures);
    text.put(",,,,,");
    put_hop_delays(&mut text, here);
    text.finish()
}

/// Returns the number of delivered first-hop frames: a copy was delivered, and no copy was refused, dropped or astray. `put_lost`,
/// `put_stream_rows` of `app_networks` and 3 more call it.
pub fn delivered_frames(tallies: &[CopyCounts]) -> usize
    ensures { result ≡ spec.delivered_frames tallies.now }
{
    tallies.iter().filter(|tally| tally.is_delivered()).count()
}

/// Returns the number of astray copies of all frames of a stream. `put_stream_start` and `put_loss_causes` call it.
pub(crate) fn total_astray(tallies: &[CopyCounts]) -> u128
    ensures { result ≡ sum_by astray tallies.now }
{
    tallies.iter().map(|tally| u128::from(tally.astray())).sum()
}

/// Writes the beginning of a stream's row, up to the astray copies. The fields of loss causes are empty, because only rows of hops have
/// them. `stream_line` calls it.
fn put_stream_start<A: Allocator>(text: &mut TextBuilder<A>, stream: &str, tallies: &[CopyCounts])
    ensures { HasGrown text.old (spec.stream_start stream.now tallies.now) text.new }
{
    let frames = tallies.len();
    let delivered = delivered_frames(tallies);
    text.put(stream);
    text.put(",all,");
    put_number_with_suffix(text, frames as u64, ",");
    put_number_with_suffix(text, delivered as u64, ",");
    put_number_with_suffix(text, frames.saturating_sub(delivered) as u64, ",,,,,,,,,,,");
    put_wide_with_suffix(text, total_astray(tallies), ",");
}

/// Returns whether no copy's delay exceeds a deadline in ns. Returns true if no copy was delivered. `is_deadline_met` calls it.
fn is_below_deadline(figures: Option<DelayStatistics>, deadline: u64) -> bool
    ensures { result ≡ spec.is_below_deadline figures deadline }
{
    match figures {
        Some(figures) => figures.greatest <= deadline,
        None => true,
    }
}

/// Returns whether all frames of a stream were delivered, and no copy's delay exceeds a deadline in ns. `put_deadline` calls it.
fn is_deadline_met(tallies: &[CopyCounts], figures: Option<DelayStatistics>, deadline: u64) -> bool
    ensures { result ≡ spec.is_deadline_met tallies.now figures deadline }
{
    delivered_frames(tallies) == tallies.len() && is_below_deadline(figures, deadline)
}

/// Returns a comma and a word: `none` for a stream without frames (`is_silent`), otherwise `met` or `missed` for its deadline.
/// `put_deadline` calls it.
fn met_word(is_silent: bool, met: bool) -> &'static str
    ensures { result.now ≡ spec.met_word is_silent met }
{
    if is_silent {
        ",none"
    } else if met {
        ",met"
    } else {
        ",missed"
    }
}

/// Writes a deadline in ns and whether it was met, or two empty fields without a deadline. `stream_line` calls it.
fn put_deadline<A: Allocator>(
    text: &mut TextBuilder<A>,
    tallies: &[CopyCounts],
    figures: Option<DelayStatistics>,
    deadline: Option<u64>,
)
    ensures { HasGrown text.old (spec.deadline_words tallies.now figures deadline) text.new }
{
    match deadline {
        Some(deadline) => {
            let met = is_deadline_met(tallies, figures, deadline);
            put_number_with_suffix(text, deadline, met_word(tallies.len() == 0, met))
        }
        None => text.put(","),
    }
}

/// Writes the worst delay in ns and a comma, or an empty field. `stream_line` calls it.
fn put_worst<A: Allocator>(text: &mut TextBuilder<A>, worst: Option<u128>)
    ensures { HasGrown text.old (spec.worst_words worst) text.new }
{
    match worst {
        Some(worst) => put_wide_with_suffix(text, worst, ","),
        None => text.put(","),
    }
}

/// Writes a deadline less a worst delay, in ns. The number is negative if the delay exceeds the deadline. `put_margin` calls it.
fn put_difference<A: Allocator>(text: &mut TextBuilder<A>, deadline: u128, worst: u128)
    ensures { HasGrown text.old (spec.difference_words deadline worst) text.new }
{
    if worst <= deadline {
        text.put_integer(deadline - worst);
    } else {
        text.put("-");
        text.put_integer(worst - deadline);
    }
}

/// Writes the margin: deadline less worst delay, in ns. Writes nothing if either is missing. `stream_line` calls it.
fn put_margin<A: Allocator>(text: &mut TextBuilder<A>, deadline: Option<u64>, worst: Option<u128>)
    ensures { HasGrown text.old (spec.margin_words deadline worst) text.new }
{
    match (deadline, worst) {
        (Some(deadline), Some(worst)) => put_difference(text, deadline as u128, worst),
        _ => text.put(""),
    }
}

/// Returns the `streams.csv` row of a stream; its hops have rows of their own. All times are in ns.
///
/// `figures` is `None` if no copy was delivered, `deadline` if the stream has none, `worst` if the talker's worst delay is unknown.
/// `write_stream` calls it.
pub fn stream_line<A: Allocator + Copy>(
    alloc: A,
    stream: &str,
    tallies: &[CopyCounts],
    figures: Option<DelayStatistics>,
    bound: u128,
    deadline: Option<u64>,
    worst: Option<u128>,
) -> Result<String<A>, NoMemory>
    ensures { IfOk result (λ text. string_bytes text
        ≡ spec.stream_line stream.now tallies.now figures bound deadline worst) }
{
    let mut text = TextBuilder::new(alloc);
    put_stream_start(&mut text, stream, tallies);
    put_statistics(&mut text, figures);
    put_wide_with_suffix(&mut text, bound, ",");
    put_deadline(&mut text, tallies, figures, deadline);
    text.put(",");
    put_worst(&mut text, worst);
    put_margin(&mut text, deadline, worst);
    text.put(",,\n");
    text.finish()
}

/// Writes a number and a suffix, such as the comma after a field. `put_source_frame`, `put_line_start` and 9 more call it.
pub(crate) fn put_number_with_suffix<A: Allocator>(
    text: &mut TextBuilder<A>,
    number: u64,
    end: &str,
)
    ensures { HasGrown text.old (decimal number ++ end.now) text.new }
{
    text.put_number(number);
    text.put(end);
}

/// Writes a number of 128 bits and a suffix, such as the comma after a field. `put_statistics`, `put_hop_start` and 3 more call it.
pub(crate) fn put_wide_with_suffix<A: Allocator>(text: &mut TextBuilder<A>, number: u128, end: &str)
    ensures { HasGrown text.old (decimal number ++ end.now) text.new }
{
    text.put_integer(number);
    text.put(end);
}
