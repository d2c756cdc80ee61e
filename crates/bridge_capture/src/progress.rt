//! State of a capture that is being read: more records can follow, it has ended, or it was refused.
use crate::capture_fault::CaptureFault;

/// Whether more records of a capture can follow.
#[derive(Clone, Copy)]
pub enum Progress {
    /// More records can follow.
    Reading,
    /// The capture has ended.
    Ended,
    /// The capture was refused. The fault is permanent.
    Refused(CaptureFault),
}
