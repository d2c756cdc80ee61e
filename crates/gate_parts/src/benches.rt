//! Measures calls of a port, a meter and filters.

mod filter;
mod meter;
mod port;

use crate::words::Output;
use std::io;
use std::rt::Clock;
use std::time::Duration;

/// Calls a port, a meter and filters, and adds the times. If `measures` is false, makes only a few calls.
pub fn measure(clock: &impl Clock, said: &mut Output, measures: bool) -> io::Result<()> {
    let (judged, passed) = if measures {
        (10_000_000, 4_000_000)
    } else {
        (100, 100)
    };
    port::measure(clock, said, measures)?;
    meter::measure(clock, said, judged)?;
    filter::measure(clock, said, passed, 1)?;
    filter::measure(clock, said, passed, 1024)
}

/// Returns the next number of a sequence without a pattern that a processor could learn.
fn next(seed: u64) -> u64 {
    seed.wrapping_mul(6_364_136_223_846_793_005)
        .wrapping_add(1_442_695_040_888_963_407)
}

/// Returns a duration in ns.
fn nanos(time: Duration) -> u64 {
    u64::try_from(time.as_nanos()).unwrap_or(u64::MAX)
}
