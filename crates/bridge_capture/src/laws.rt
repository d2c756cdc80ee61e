//! Laws of the definitions of the capture format.
ghost use Rattle.std.specs.Prelude.{◌≡◌, ℕ, List};
ghost use Rattle.bridge_capture.specs.declared.record.TheConstants.{MAX_RECORDS, SNAP_LENGTH};
ghost use Rattle.bridge_capture.specs.Laws.{WrittenIsRead, ReadsOneWay};

/// If frames are written to a capture, reading the capture gives the same frames. There must be at most 1,000,000, and their times must
/// never fall, and must be below `END_OF_TIME`.
///
/// The captured octets of a frame must be at most 65,535 and at most its length. So a run can read captures that another run wrote.
pub fn written_is_read()
    ensures { WrittenIsRead }
{}

/// File contents are a capture in exactly one way: one list of frames and one ending. So contracts may speak of the frames of a capture.
pub fn each_text_reads_one_way()
    ensures { (text : List ℕ) → ReadsOneWay text }
{}

/// Gives proofs the limits of captures as numbers: 1,000,000 records, and 65,535 captured octets of a frame.
pub fn the_limits()
    ensures records { MAX_RECORDS ≡ 1_000_000 }
    ensures octets { SNAP_LENGTH ≡ 65_535 }
{}
