//! Counts of frames in a run of `wire` through one queue.

/// Numbers of frames of a capture that was sent through one queue.
#[derive(Clone, Copy, Debug, Default, PartialEq, Eq)]
pub struct WireCount {
    /// All frames of the capture.
    pub frames: u64,
    /// Frames without a readable header; they aren't offered.
    pub malformed: u64,
    /// Frames that the queue accepted; all have left.
    pub sent: u64,
    /// Frames that the full queue dropped.
    pub full: u64,
}
