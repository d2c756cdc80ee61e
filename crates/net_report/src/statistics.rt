//! Statistics of delays, for the rows of `streams.csv`.
ghost use Rattle.std.specs.Prelude.{◌≡◌};
ghost use Rattle.net_report.specs.Statistics as spec;

use bridge_report::{greatest_delay, least_delay, total_delay};

/// Statistics of delays in ns: least, mean (rounded down), greatest, and jitter. Rows of `streams.csv` show them.
#[derive(Clone, Copy)]
pub struct DelayStatistics {
    pub least: u64,
    pub mean: u128,
    pub greatest: u64,
    pub jitter: u64,
}

/// Returns the statistics of these delays, or `None` without a delay. Rows of `streams.csv` need them.
pub fn delay_statistics(delays: &[u64]) -> Option<DelayStatistics>
    ensures { result ≡ spec.delay_statistics delays.now }
{
    if delays.is_empty() {
        return None;
    }
    let least = least_delay(delays);
    let greatest = greatest_delay(delays);
    let mean = total_delay(delays) / delays.len() as u128;
    Some(DelayStatistics {
        least,
        mean,
        greatest,
        jitter: greatest.saturating_sub(least),
    })
}
