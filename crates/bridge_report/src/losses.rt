//! Counts lost frames by reason: frames that a filter refused and copies that ports dropped. Writes the lines about them for `run
//! --strict`.
ghost use Rattle.std.specs.Prelude.{◌≡◌, IfOk, string_bytes};
ghost use Rattle.bridge_report.specs.Losses as spec;
ghost use Rattle.bridge_report.specs.Section.{count_full, count_never_fits};
ghost use Rattle.bridge_text.specs.Growth.{HasGrown};

use bridge_limits::NoMemory;
use bridge_port::Refusal;
use bridge_semantics::{Outcome, StoredDrop, StoredVerdict, VerdictKind, View};
use bridge_text::TextBuilder;
use std::alloc::Allocator;

/// Why a filter refuses a frame: each verdict except `Pass` is a reason.
#[derive(Clone, Copy)]
pub enum Reason {
    /// An earlier oversize frame blocked the filter.
    Blocked,
    /// The SDU exceeds the filter's maximum.
    Oversize,
    /// The stream gate is closed.
    GateClosed,
    /// An earlier frame at the closed stream gate shut the gate.
    ShutByRx,
    /// An earlier frame over the octet limit shut the stream gate.
    ShutByOctets,
    /// The frame exceeds the octet limit of the stream gate's interval.
    OctetsExceeded,
    /// The meter made the frame red.
    Red,
    /// The meter made the frame yellow, and drops yellow frames.
    YellowDropped,
}

/// Numbers of a filter's refused frames and dropped copies, one field for each reason.
#[derive(Clone, Copy)]
pub struct Losses {
    /// Frames of a blocked filter.
    pub blocked: u64,
    /// Frames with an SDU above the filter's maximum.
    pub oversize: u64,
    /// Frames at a closed stream gate.
    pub gate_closed: u64,
    /// Frames at a stream gate that an earlier frame shut while it was closed.
    pub shut_rx: u64,
    /// Frames at a stream gate that an earlier frame over the octet limit shut.
    pub shut_octets: u64,
    /// Frames over the octet limit of an interval.
    pub octets_exceeded: u64,
    /// Frames that the meter made red.
    pub red: u64,
    /// Yellow frames that the meter drops.
    pub yellow_dropped: u64,
    /// Copies that a full queue dropped.
    pub full: u64,
    /// Copies that ports dropped as `NeverFits`: they fit no window of their class.
    pub never: u64,
}

/// Returns whether a filter refused a frame, by its verdict `verdict`, for reason `reason`. `count_refused` calls it.
fn has_reason(reason: Reason, verdict: &StoredVerdict) -> bool
    ensures { result ≡ spec.is_for reason verdict.now }
{
    match reason {
        Reason::Blocked => matches!(verdict.kind(), VerdictKind::Blocked),
        Reason::Oversize => matches!(verdict.kind(), VerdictKind::Oversize),
        Reason::GateClosed => matches!(verdict.kind(), VerdictKind::GateClosed),
        Reason::ShutByRx => matches!(verdict.kind(), VerdictKind::ShutByRx),
        Reason::ShutByOctets => matches!(verdict.kind(), VerdictKind::ShutByOctets),
        Reason::OctetsExceeded => matches!(verdict.kind(), VerdictKind::OctetsExceeded),
        Reason::Red => matches!(verdict.kind(), VerdictKind::Red),
        Reason::YellowDropped => matches!(verdict.kind(), VerdictKind::YellowDropped),
    }
}

/// Returns the number of frames that the filter refused for reason `reason`, by their verdicts. `count_losses` and `put_refused_count` of
/// `show_tables` call it.
pub fn count_refused(reason: Reason, verdicts: &[StoredVerdict]) -> u64
    ensures { result ≡ spec.refused_for reason verdicts.now }
{
    verdicts.iter().filter(|v| has_reason(reason, *v)).count() as u64
}

/// Returns the number of copies that ports dropped because their queue was full. `put_queued` and `count_losses` call it.
pub fn count_full(drops: &[StoredDrop]) -> usize
    ensures { result ≡ count_full drops.now }
{
    drops
        .iter()
        .filter(|d| matches!(d.dropped_copy().refusal, Refusal::Full))
        .count()
}

/// Returns the number of copies that ports dropped because they fit no window of their class. `put_queued` and `count_losses`, and
/// `put_unsent_row` of `show_tables` call it.
pub fn count_never_fitting(drops: &[StoredDrop]) -> usize
    ensures { result ≡ count_never_fits drops.now }
{
    drops
        .iter()
        .filter(|d| matches!(d.dropped_copy().refusal, Refusal::NeverFits))
        .count()
}

/// Returns the numbers of refused frames and dropped copies of a filter, by reason. `put_lost` calls it.
fn count_losses(verdicts: &[StoredVerdict], drops: &[StoredDrop]) -> Losses
    ensures { result ≡ spec.losses_of verdicts.now drops.now }
{
    Losses {
        blocked: count_refused(Reason::Blocked, verdicts),
        oversize: count_refused(Reason::Oversize, verdicts),
        gate_closed: count_refused(Reason::GateClosed, verdicts),
        shut_rx: count_refused(Reason::ShutByRx, verdicts),
        shut_octets: count_refused(Reason::ShutByOctets, verdicts),
        octets_exceeded: count_refused(Reason::OctetsExceeded, verdicts),
        red: count_refused(Reason::Red, verdicts),
        yellow_dropped: count_refused(Reason::YellowDropped, verdicts),
        full: count_full(drops) as u64,
        never: count_never_fitting(drops) as u64,
    }
}

/// Returns the number of refused frames and dropped copies, for all reasons together. `put_if` and `put_line` call it.
fn total(losses: &Losses) -> u128
    ensures { result ≡ spec.total losses.now }
{
    let refused = losses.blocked as u128 + losses.oversize as u128 + losses.gate_closed as u128;
    let shut = losses.shut_rx as u128 + losses.shut_octets as u128;
    let metered = losses.octets_exceeded as u128 + losses.red as u128;
    let dropped = losses.yellow_dropped as u128 + losses.full as u128 + losses.never as u128;
    refused + shut + metered + dropped
}

/// Writes a comma, `place`, the reason `word` and its number `count`. `place` is the hop at which frames were lost; it is empty for one
/// bridge. `put_reason` calls it.
fn put_counted<A: Allocator>(text: &mut TextBuilder<A>, place: &str, word: &str, count: u128)
    ensures { HasGrown text.old (spec.counted_words place.now word.now count) text.new }
{
    text.put(", ");
    text.put(place);
    text.put(word);
    text.put(" ");
    text.put_integer(count);
}

/// Writes a comma, `place`, the reason `word` and its number `count`. Writes nothing if the number is 0. `put_losses` and `put_loss_causes`
/// of `net_report` call it.
pub fn put_reason<A: Allocator>(text: &mut TextBuilder<A>, place: &str, word: &str, count: u128)
    ensures { HasGrown text.old (spec.reason_words place.now word.now count) text.new }
{
    if count != 0 {
        put_counted(text, place, word, count);
    }
}

/// Writes the reasons of all losses with their numbers; leaves out reasons without loss. The text `place` before each reason is the hop at
/// which frames were lost; it is empty for one bridge.
///
/// `put_line` and `put_hop_losses` of `net_report` call it.
pub fn put_losses<A: Allocator>(text: &mut TextBuilder<A>, place: &str, losses: &Losses)
    ensures { HasGrown text.old (spec.loss_words place.now losses.now) text.new }
{
    put_reason(text, place, "blocked", losses.blocked as u128);
    put_reason(text, place, "oversize", losses.oversize as u128);
    put_reason(text, place, "gate-closed", losses.gate_closed as u128);
    put_reason(text, place, "shut-rx", losses.shut_rx as u128);
    put_reason(text, place, "shut-octets", losses.shut_octets as u128);
    put_reason(
        text,
        place,
        "octets-exceeded",
        losses.octets_exceeded as u128,
    );
    put_reason(text, place, "red", losses.red as u128);
    put_reason(text, place, "yellow-dropped", losses.yellow_dropped as u128);
    put_reason(text, place, "full", losses.full as u128);
    put_reason(text, place, "never", losses.never as u128);
}

/// Writes the line of filter `filter`, which lost frames or copies, of `frames` frames in all. `run --strict` prints it. `put_if` calls it.
fn put_line<A: Allocator>(text: &mut TextBuilder<A>, filter: u32, frames: u64, losses: &Losses)
    ensures { HasGrown text.old (spec.lost_line filter frames losses.now) text.new }
{
    text.put("lost: filter ");
    text.put_integer(filter);
    text.put(", ");
    text.put_integer(total(losses));
    text.put(" frames or copies of ");
    text.put_number(frames);
    text.put(" frames");
    put_losses(text, "", losses);
    text.put("\n");
}

/// Writes the `lost:` line of a filter, with `frames` frames in all, if the filter is protected and lost a frame or a copy. Otherwise
/// writes nothing. `put_lost` calls it.
fn put_if<A: Allocator>(
    text: &mut TextBuilder<A>,
    protected: bool,
    filter: u32,
    frames: u64,
    losses: &Losses,
)
    ensures { HasGrown text.old (spec.line_if protected filter frames losses.now) text.new }
{
    if protected && total(losses) != 0 {
        put_line(text, filter, frames, losses);
    }
}

/// Counts the losses in a filter's record, and writes the filter's line if it is protected and has losses. `lost_lines` calls it.
fn put_lost<A: Allocator>(text: &mut TextBuilder<A>, filter: u32, view: &View<A>)
    ensures { HasGrown text.old (spec.lost_lines_of filter view.now) text.new }
{
    let losses = count_losses(&view.verdicts, &view.drops);
    put_if(
        text,
        view.protected,
        filter,
        view.verdicts.len() as u64,
        &losses,
    );
}

/// Returns one `lost:` line for each protected filter that lost a frame or a copy, in filter order: the numbers of losses, frames and
/// reasons. The text is empty if no protected filter lost anything.
///
/// `lost_if` of `app_commands` calls it.
pub fn lost_lines<A: Allocator + Copy>(
    alloc: A,
    outcome: &Outcome<A>,
) -> Result<String<A>, NoMemory>
    ensures { IfOk result (λ text. string_bytes text ≡ spec.lost_lines outcome.now.filters.items) }
{
    let mut text = TextBuilder::new(alloc);
    for filter in &outcome.filters {
        put_lost(&mut text, filter.0, &filter.1);
    }
    text.finish()
}
