//! Byte order and time unit of a capture, which its magic number shows.

/// Byte order of the numbers in a capture: little-endian or big-endian.
#[derive(Clone, Copy, Debug, PartialEq, Eq)]
pub enum ByteOrder {
    /// Least significant octet first.
    Little,
    /// Most significant octet first.
    Big,
}

/// Unit of the fraction of a second in a record's time.
#[derive(Clone, Copy, Debug, PartialEq, Eq)]
pub enum FractionUnit {
    /// Microseconds.
    Micro,
    /// Nanoseconds.
    Nano,
}

/// Byte order and time unit that the magic number of a capture shows.
#[derive(Clone, Copy, Debug, PartialEq, Eq)]
pub struct CaptureFormat {
    /// Byte order of all numbers.
    pub order: ByteOrder,
    /// Unit of the fraction of a second.
    pub unit: FractionUnit,
}
