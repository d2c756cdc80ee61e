//! Frames that were read from a capture, with their arrival times.
use std::alloc::Allocator;

/// Frame of a capture.
#[derive(Debug, Drop)]
pub struct Packet<A: Allocator> {
    /// Arrival time in ns, when the last octet is received.
    pub time: u64,
    /// Original length on the link in octets, without check sequence.
    pub len: u32,
    /// Captured octets from the first on, at most `len`.
    pub octets: Vec<u8, A>,
}

/// Time and length in a record, without its octets.
#[derive(Clone, Copy, Debug, PartialEq, Eq)]
pub struct PacketInfo {
    /// Arrival time in ns, when the last octet is received.
    pub time: u64,
    /// Original length on the link in octets, without check sequence.
    pub len: u32,
}
