//! Command of a run: it clears a flag of the bridge at a given time.
use bridge_filter::Clear;

/// Command at a time in ns: it clears a flag of a filter, stream gate or meter (IEEE 802.1Q-2018, 8.6.5.1.1 to
/// 8.6.5.1.3).
#[derive(Clone, Copy, Debug, PartialEq, Eq)]
pub struct Command {
    /// Time in ns at which the command clears the flag.
    pub at: u64,
    /// Flag that the command clears.
    pub clear: Clear,
    /// Number of the filter, stream gate or meter.
    pub number: u32,
}
