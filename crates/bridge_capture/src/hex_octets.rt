//! Parses hexadecimal text into octets, for the program without arguments.
ghost use Rattle.std.specs.Prelude.{◌≡◌, Ok, Err, IfOk};
ghost use Rattle.bridge_capture.specs.Hex.{is_blank, digits_octet, spelled_octets};

use crate::hex_fault::HexFault;
use std::alloc::Allocator;

/// Largest number of octets that `parse_octets` returns.
pub const MAX_OCTETS: usize = 1_048_576;

/// Largest number of bytes in a text that `parse_octets` accepts.
pub const MAX_TEXT_BYTES: usize = 4_194_304;

/// Whether a character may separate pairs of digits: a space, tab, carriage return or line feed. `parse_octets` calls it.
fn is_blank(c: u8) -> bool
    ensures { result ≡ is_blank c }
{
    matches!(c, b' ' | b'\t' | b'\r' | b'\n')
}

/// Returns the octet of two hexadecimal digits of either case; `None` if a character isn't a digit. `parse_octets` calls it for each pair.
fn parse_octet(high: u8, low: u8) -> Option<u8>
    ensures { result ≡ digits_octet high low }
{
    let high = char::from(high).to_digit(16)?;
    let low = char::from(low).to_digit(16)?;
    Some((16 * high + low) as u8)
}

/// Parses pairs of hexadecimal digits of either case. Blanks may stand anywhere except inside a pair. Allocates memory at most once.
/// `wire_text` of `app_commands` calls it.
///
/// A text over `MAX_TEXT_BYTES` is too long. For any other text, returns the first fault from the left.
pub fn parse_octets<A: Allocator>(alloc: A, text: &[u8]) -> Result<Vec<u8, A>, HexFault>
    ensures ok { IfOk result (λ octets. spelled_octets text.now ≡ Ok octets.items) }
    ensures not_hex { result ≡ Err HexFault.NotHex → spelled_octets text.now ≡ Err HexFault.NotHex }
    ensures too_long { result ≡ Err HexFault.TooLong → spelled_octets text.now ≡ Err HexFault.TooLong }
{
    if text.len() > MAX_TEXT_BYTES {
        return Err(HexFault::TooLong);
    }
    let mut octets = Vec::with_capacity(alloc, (text.len() / 2).min(MAX_OCTETS))?;
    let mut rest = text;
    while let Some((first, behind)) = rest.split_first() {
        if is_blank(*first) {
            rest = behind;
            continue;
        }
        let Some((second, after)) = behind.split_first() else {
            return Err(HexFault::NotHex);
        };
        let Some(octet) = parse_octet(*first, *second) else {
            return Err(HexFault::NotHex);
        };
        if octets.len() >= MAX_OCTETS {
            return Err(HexFault::TooLong);
        }
        octets.push(octet)?;
        rest = after;
    }
    Ok(octets)
}
