//! Frame in a queue of a port, without its length.
use std::alloc::Allocator;

/// Contents of a queued frame. The queue stores the length.
#[derive(Debug, Drop)]
pub struct QueuedFrame<A: Allocator> {
    /// Arrival time in ns.
    pub at: u64,
    /// Number of the stream filter; `None` for an unfiltered frame.
    pub flow: Option<u32>,
    /// Number of the frame among its filter's frames, from 1; 0 without a filter.
    pub own: u32,
    /// Index in the list of the filters' recorders, at which the search for the filter's recorder begins.
    pub recorder: u32,
    /// Octets to send.
    pub octets: Vec<u8, A>,
}
