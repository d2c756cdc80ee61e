//! Names of bridges, and names of a bridge's port or filter, such as `left.3`.
ghost use Rattle.std.specs.Prelude.{◌≡◌, ◌<◌, ◌≤◌, IfOk, length, option_map};
ghost use Rattle.std.specs.List.{list_all};
ghost use Rattle.net_file.specs.Names as spec;

use crate::bridge_row::BridgeRow;
use crate::keys::LONGEST_NAME;
use bridge_schema::Flaw;
use std::alloc::Allocator;

/// Returns whether a name may contain the character: a letter, a digit, a hyphen or an underscore. `are_name_characters` calls it.
fn is_name_character(c: u8) -> bool
    ensures { result ≡ spec.is_name_character c }
{
    c.is_ascii_alphanumeric() || c == b'-' || c == b'_'
}

/// Returns whether a name may contain each of these octets. `is_valid_name` calls it.
fn are_name_characters(octets: &[u8]) -> bool
    ensures { result ≡ list_all spec.is_name_character octets.now }
{
    octets.iter().all(|c| is_name_character(*c))
}

/// Returns whether a text is a name of a bridge or stream: 1 to 32 letters, digits, `-` and `_`. `name_value` refuses other texts.
pub(crate) fn is_valid_name(text: &str) -> bool
    ensures { result ≡ spec.is_valid_name text.now }
{
    let octets = text.as_bytes();
    1 <= octets.len() && octets.len() <= LONGEST_NAME && are_name_characters(octets)
}

/// Returns the number from `low` to `high` that a text of decimal digits stands for. Returns `None` for other texts and other numbers.
/// `split_numbered_name` calls it.
#[tactic(auto, using(crate::proofs::Numerals::numeral_from, crate::proofs::Numerals::numeral_to))]
fn parse_number(text: &str, low: u32, high: u32) -> Option<u32>
    ensures { result ≡ spec.parse_number low high text.now }
{
    if text.as_bytes().first() == Some(&b'+') {
        return None;
    }
    match text.parse::<u32>() {
        Ok(number) if low <= number && number <= high => Some(number),
        _ => None,
    }
}

/// Returns the text before the first dot and the number after this dot. Returns `None` if the text has no dot, or no number from `low` to
/// `high` after it. `is_numbered_name` and `resolve_numbered_name` call it.
fn split_numbered_name(text: &str, low: u32, high: u32) -> Option<(&str, u32)>
    ensures { option_map (λ x. record { name = x.0.now; number = x.1 }) result
        ≡ spec.split_numbered_name low high text.now }
{
    let (name, digits) = text.split_once('.')?;
    let number = parse_number(digits, low, high)?;
    Some((name, number))
}

/// Returns whether a text has the form of a bridge's port or filter: a text, a dot, and a number from `low` to `high`. The bridge may be
/// missing.
///
/// `are_numbered_names`, and `is_hop` of `show_explain` call it.
pub fn is_numbered_name(text: &str, low: u32, high: u32) -> bool
    ensures { result ≡ spec.is_numbered_name low high text.now }
{
    split_numbered_name(text, low, high).is_some()
}

/// Returns the index of the bridge with name `name`, from 0. Returns `None` if no bridge has it. `resolve_numbered_name` calls it.
fn bridge_index<A: Allocator + Copy>(bridges: &[BridgeRow<A>], name: &str) -> Option<u16>
    requires { length bridges.now ≤ 64 }
    ensures place { result ≡ spec.bridge_index bridges.now name.now }
    ensures there { spec.IsBridgeIndex bridges.now result }
{
    'bridges: for (i, bridge) in bridges.iter().enumerate() {
        if bridge.name() == name {
            return Some(i as u16);
        }
    }
    None
}

/// Returns the bridge's index, from 0, and the number that a text such as `left.3` names. `low` and `high` are the range of the number.
///
/// A text of another form is `OutOfRange`, and a missing bridge `Unresolved`. `read` and `resolve_filter` call it.
pub(crate) fn resolve_numbered_name<A: Allocator + Copy>(
    bridges: &[BridgeRow<A>],
    low: u32,
    high: u32,
    text: &str,
) -> Result<(u16, u32), Flaw>
    requires { length bridges.now ≤ 64 }
    ensures end { result ≡ spec.resolve_numbered_name bridges.now low high text.now }
    ensures there { IfOk result (λ e. e.0 < length bridges.now) }
    ensures least { IfOk result (λ e. low ≤ e.1) }
    ensures most { IfOk result (λ e. e.1 ≤ high) }
{
    let Some((name, number)) = split_numbered_name(text, low, high) else {
        return Err(Flaw::OutOfRange);
    };
    match bridge_index(bridges, name) {
        Some(place) => Ok((place, number)),
        None => Err(Flaw::Unresolved),
    }
}
