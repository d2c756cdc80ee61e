//! Reads the header of a capture: its magic number, version and link type.
ghost use Rattle.std.specs.Prelude.{◌≡◌, length, take, IfErr};
ghost use Rattle.std.specs.Int.{w32, from_le_bytes};
ghost use Rattle.bridge_capture.specs.Grammar.{format_by_magic, format_after_magic, word16, word32};
ghost use Rattle.bridge_capture.specs.Reading.{IsHeaderFault};

use crate::capture_fault::CaptureFault;
use crate::format::{ByteOrder, CaptureFormat, FractionUnit};

/// Length of a header in octets.
pub const HEADER_LEN: usize = 24;

/// Reads a 32-bit number from four octets in the byte order `order`. `parse_header` and `parse_words` call it.
pub fn read_word(order: ByteOrder, octets: &[u8]) -> u32
    requires { length octets.now ≡ 4 }
    ensures { result ≡ word32 order octets.now }
{
    let four = [octets[0], octets[1], octets[2], octets[3]];
    match order {
        ByteOrder::Little => u32::from_le_bytes(four),
        ByteOrder::Big => u32::from_be_bytes(four),
    }
}

/// Reads a 16-bit number from two octets in the byte order `order`. `parse_header` calls it for the version.
fn read_short_word(order: ByteOrder, octets: &[u8]) -> u16
    requires { length octets.now ≡ 2 }
    ensures { result ≡ word16 order octets.now }
{
    let two = [octets[0], octets[1]];
    match order {
        ByteOrder::Little => u16::from_le_bytes(two),
        ByteOrder::Big => u16::from_be_bytes(two),
    }
}

/// Returns the format for a magic number that was read as little-endian; `None` for an unknown number. `parse_header` calls it first,
/// because the format gives the order of all other numbers.
fn format_by_magic(magic: u32) -> Option<CaptureFormat>
    ensures { result ≡ format_by_magic magic }
{
    let (order, unit) = match magic {
        0xA1B2_3C4D => (ByteOrder::Little, FractionUnit::Nano),
        0xA1B2_C3D4 => (ByteOrder::Little, FractionUnit::Micro),
        0x4D3C_B2A1 => (ByteOrder::Big, FractionUnit::Nano),
        0xD4C3_B2A1 => (ByteOrder::Big, FractionUnit::Micro),
        _ => return None,
    };
    Some(CaptureFormat { order, unit })
}

/// Returns the format of a complete header, or its first fault. `Capture::begin` calls it.
pub fn parse_header(octets: &[u8]) -> Result<CaptureFormat, CaptureFault>
    requires { length octets.now ≡ 24 }
    ensures judged { result ≡ format_after_magic (format_by_magic (from_le_bytes w32 (take 4 octets.now))) octets.now }
    ensures only { IfErr result IsHeaderFault }
{
    let form = match format_by_magic(read_word(ByteOrder::Little, &octets[..4])) {
        Some(form) => form,
        None => return Err(CaptureFault::BadMagic),
    };
    if read_short_word(form.order, &octets[4..6]) != 2
        || read_short_word(form.order, &octets[6..8]) != 4
    {
        return Err(CaptureFault::BadVersion);
    }
    if read_word(form.order, &octets[20..24]) != 1 {
        return Err(CaptureFault::BadLinkType);
    }
    Ok(form)
}
