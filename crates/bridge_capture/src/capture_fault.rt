//! Reasons why a capture is refused.
use thiserror::Error;

/// Reason why the program can't read or write a capture. The number in a variant is the number of the record, from 1.
#[derive(Clone, Copy, Debug, PartialEq, Eq, Error)]
pub enum CaptureFault {
    /// The first four octets are none of the four magic numbers.
    #[error("the magic number isn't one of a classic capture")]
    BadMagic,
    /// The version isn't 2.4.
    #[error("the version is not 2.4")]
    BadVersion,
    /// The link type isn't 1 (Ethernet).
    #[error("the link type is not 1")]
    BadLinkType,
    /// The file has fewer octets than a header, 24.
    #[error("the header is cut")]
    HeaderCut,
    /// The file ends within this record.
    #[error("record {0} is cut")]
    RecordCut(u32),
    /// The captured length exceeds the original length.
    #[error("the captured length of record {0} exceeds its original length")]
    LengthsCross(u32),
    /// The captured length exceeds `MAX_CAPTURED_OCTETS`.
    #[error("record {0} is too large")]
    RecordTooLarge(u32),
    /// The time is before the previous record's time.
    #[error("record {0} is earlier than the one before")]
    TimeBack(u32),
    /// The time is at `END_OF_TIME` or later.
    #[error("the time of record {0} is too late")]
    TimeTooLate(u32),
    /// Octets follow record `MAX_RECORDS`.
    #[error("there are too many records")]
    TooManyRecords,
    /// The source failed.
    #[error("the source failed")]
    Read,
    /// The sink failed.
    #[error("the sink failed")]
    Write,
    /// Memory ran out.
    #[error("no memory")]
    NoMemory,
}

impl CaptureFault {
    ghost use Rattle.std.specs.Prelude.{◌≡◌};
    ghost use Rattle.bridge_capture.specs.FaultCodes.{fault_code};

    /// Returns the number of the fault, 1 to 13. Contracts compare faults by this number.
    pub fn number(self) -> u8
        ensures { result ≡ fault_code self }
    {
        match self {
            CaptureFault::BadMagic => 1,
            CaptureFault::BadVersion => 2,
            CaptureFault::BadLinkType => 3,
            CaptureFault::HeaderCut => 4,
            CaptureFault::RecordCut(_) => 5,
            CaptureFault::LengthsCross(_) => 6,
            CaptureFault::RecordTooLarge(_) => 7,
            CaptureFault::TimeBack(_) => 8,
            CaptureFault::TimeTooLate(_) => 9,
            CaptureFault::TooManyRecords => 10,
            CaptureFault::Read => 11,
            CaptureFault::Write => 12,
            CaptureFault::NoMemory => 13,
        }
    }
}
