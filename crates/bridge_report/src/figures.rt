//! Arrival times of frames, and the least, greatest and total delay of a list. Tables of runs and of networks use them.
ghost use Rattle.std.specs.Prelude.{◌≡◌, sum};
ghost use Rattle.bridge_report.specs.Figures as spec;

use bridge_semantics::StoredOrigin;

/// Returns the arrival time in ns of the frame with number `own`, from 1, among a filter's frames; 0 if no frame has this number. Tables
/// compute delays from it.
///
/// `put_verdicts` of `net_report`, `push_delay` of `show_tables` and 3 more call it.
pub fn arrival_time(origins: &[StoredOrigin], own: u64) -> u64
    ensures { result ≡ spec.at_of origins.now own }
{
    if own == 0 {
        return 0;
    }
    match origins.get((own - 1) as usize) {
        Some(origin) => origin.origin().at,
        None => 0,
    }
}

/// Returns the least of `delays` in ns; 2^64 - 1 if the list is empty. `delay_statistics` of `net_report` and `put_figures` of
/// `show_tables` call it.
pub fn least_delay(delays: &[u64]) -> u64
    ensures { result ≡ spec.least_of delays.now }
{
    let mut least = u64::MAX;
    for delay in delays {
        least = least.min(*delay);
    }
    least
}

/// Returns the greatest of `delays` in ns; 0 if the list is empty. Tables, and lines about late streams, show it. `put_late` and
/// `delay_statistics` of `net_report`, and `put_figures` of `show_tables` call it.
pub fn greatest_delay(delays: &[u64]) -> u64
    ensures { result ≡ spec.greatest_of delays.now }
{
    let mut greatest = 0u64;
    for delay in delays {
        greatest = greatest.max(*delay);
    }
    greatest
}

/// Returns the sum of `delays` in ns. `delay_statistics` and `put_figures` divide it to get the mean.
pub fn total_delay(delays: &[u64]) -> u128
    ensures { result ≡ sum delays.now }
{
    let mut sum = 0u128;
    for delay in delays {
        sum += *delay as u128;
    }
    sum
}
