//! Delays of copies that left a port, and their figures (least, mean, greatest, jitter), for the table of delays.
ghost use Rattle.std.specs.Prelude.{◌≡◌, ◌++◌, IfOk, OnOk};
ghost use Rattle.bridge_text.specs.Growth.{HasGrown};
ghost use Rattle.show_tables.specs.DelayTable as spec;

use crate::frame_rows::put_field;
use bridge_limits::NoMemory;
use bridge_report::{arrival_time, greatest_delay, least_delay, total_delay};
use bridge_semantics::{Departure, StoredDeparture, StoredOrigin};
use bridge_text::TextBuilder;
use std::alloc::Allocator;

/// Appends the delay of a copy in ns, from the frame's arrival, to `delays`, if the copy left by `port`. `port_delays` calls it.
fn push_delay<A: Allocator>(
    delays: &mut Vec<u64, A>,
    origins: &[StoredOrigin],
    port: u8,
    departure: &Departure,
) -> Result<(), NoMemory>
    ensures { OnOk result (delays.new.items ≡ delays.old.items ++ spec.copy_delay origins.now port departure.now) }
{
    if departure.port == port {
        let came = arrival_time(origins, departure.own);
        delays.push(departure.done.saturating_sub(came))?;
    }
    Ok(())
}

/// Returns the delays in ns, from arrival to end of transmission, of a filter's copies that left by `port`. The filter's row for this port
/// needs them. `put_row_of_port` calls it.
pub(crate) fn port_delays<A: Allocator>(
    alloc: A,
    origins: &[StoredOrigin],
    port: u8,
    departures: &[StoredDeparture],
) -> Result<Vec<u64, A>, NoMemory>
    ensures { IfOk result (λ delays. delays.items ≡ spec.port_delays origins.now port departures.now) }
{
    let mut delays = Vec::new(alloc);
    for departure in departures {
        push_delay(&mut delays, origins, port, &departure.departure())?;
    }
    Ok(delays)
}

/// Writes the fields of the least, mean (rounded down) and greatest delay in ns, and of the jitter; empty fields if `delays` is empty.
/// `put_port_row` calls it.
pub(crate) fn put_figures<A: Allocator>(text: &mut TextBuilder<A>, delays: &[u64])
    ensures { HasGrown text.old (spec.figure_fields delays.now) text.new }
{
    if delays.is_empty() {
        text.put(",,,,");
        return;
    }
    let least = least_delay(delays);
    let greatest = greatest_delay(delays);
    put_field(text, least);
    text.put_integer(total_delay(delays) / delays.len() as u128);
    text.put(",");
    put_field(text, greatest);
    put_field(text, greatest.saturating_sub(least));
}
