//! Counts a filter's refused frames and dropped copies, and writes their fields in the table of delays.
ghost use Rattle.std.specs.Prelude.{◌≡◌};
ghost use Rattle.bridge_text.specs.Growth.{HasGrown};
ghost use Rattle.bridge_report.specs.Losses.{refused_for};
ghost use Rattle.show_tables.specs.FrameTable.{field};
ghost use Rattle.show_tables.specs.Losses as spec;

use crate::frame_rows::{put_field, put_last_field};
use bridge_port::Refusal;
use bridge_report::{Reason, count_refused};
use bridge_semantics::{StoredDrop, StoredVerdict};
use bridge_text::TextBuilder;
use std::alloc::Allocator;

/// Returns the number of copies that `port` dropped because their queues were full. `put_port_row` calls it.
pub(crate) fn count_full_on_port(port: u8, drops: &[StoredDrop]) -> usize
    ensures { result ≡ spec.count_full_on_port port drops.now }
{
    drops
        .iter()
        .filter(|d| d.dropped_copy().port == port
            && matches!(d.dropped_copy().refusal, Refusal::Full))
        .count()
}

/// Returns the number of copies that `port` dropped because they fit no window. `put_port_row` calls it.
pub(crate) fn count_never_on_port(port: u8, drops: &[StoredDrop]) -> usize
    ensures { result ≡ spec.count_never_on_port port drops.now }
{
    drops
        .iter()
        .filter(|d| d.dropped_copy().port == port
            && matches!(d.dropped_copy().refusal, Refusal::NeverFits))
        .count()
}

/// Writes the field with the number of frames refused for `reason`. `put_filter_losses`, `put_gate_losses` and `put_meter_losses` call it.
fn put_refused_count<A: Allocator>(
    text: &mut TextBuilder<A>,
    reason: Reason,
    verdicts: &[StoredVerdict],
)
    ensures { HasGrown text.old (field (refused_for reason verdicts.now)) text.new }
{
    put_field(text, count_refused(reason, verdicts));
}

/// Writes the fields of frames that the filter itself refused: blocked, and oversize. `put_losses` calls it.
fn put_filter_losses<A: Allocator>(text: &mut TextBuilder<A>, verdicts: &[StoredVerdict])
    ensures { HasGrown text.old (spec.filter_fields verdicts.now) text.new }
{
    put_refused_count(text, Reason::Blocked, verdicts);
    put_refused_count(text, Reason::Oversize, verdicts);
}

/// Writes the fields of frames that the stream gate refused, one field for each of four reasons. `put_losses` calls it.
fn put_gate_losses<A: Allocator>(text: &mut TextBuilder<A>, verdicts: &[StoredVerdict])
    ensures { HasGrown text.old (spec.gate_fields verdicts.now) text.new }
{
    put_refused_count(text, Reason::GateClosed, verdicts);
    put_refused_count(text, Reason::ShutByRx, verdicts);
    put_refused_count(text, Reason::ShutByOctets, verdicts);
    put_refused_count(text, Reason::OctetsExceeded, verdicts);
}

/// Writes the fields of frames that the meter refused: red, and yellow if it drops yellow frames. `put_losses` calls it.
fn put_meter_losses<A: Allocator>(text: &mut TextBuilder<A>, verdicts: &[StoredVerdict])
    ensures { HasGrown text.old (spec.meter_fields verdicts.now) text.new }
{
    put_refused_count(text, Reason::Red, verdicts);
    put_refused_count(text, Reason::YellowDropped, verdicts);
}

/// Writes the end of a row: numbers of refused frames by reason. The last fields are `full` and `never`: copies dropped by full queues, and
/// copies that fit no window. `put_port_row` and `put_unsent_row` call it.
pub(crate) fn put_losses<A: Allocator>(
    text: &mut TextBuilder<A>,
    verdicts: &[StoredVerdict],
    full: usize,
    never: usize,
)
    ensures { HasGrown text.old (spec.loss_fields verdicts.now full never) text.new }
{
    put_filter_losses(text, verdicts);
    put_gate_losses(text, verdicts);
    put_meter_losses(text, verdicts);
    put_field(text, full as u64);
    put_last_field(text, never as u64);
}
