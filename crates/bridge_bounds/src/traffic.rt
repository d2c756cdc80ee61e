//! Periodic traffic of a filter: the input of the computations for periodic talkers.

/// Periodic traffic: at most one frame in each period, between two phases and between two lengths. Periods begin at multiples of the
/// period.
#[derive(Clone, Copy, Debug, PartialEq, Eq)]
pub struct Traffic {
    /// Period in ns.
    pub period: u64,
    /// First phase at which a frame may arrive, in ns from the start of its period.
    pub from: u64,
    /// Last phase at which a frame may arrive, in ns from the start of its period.
    pub to: u64,
    /// Length of the shortest frame in octets, without check sequence.
    pub least: u32,
    /// Length of the longest frame in octets, without check sequence.
    pub longest: u32,
}
