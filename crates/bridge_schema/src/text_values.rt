//! Reads texts of a fixed set, such as `open`, and MAC addresses.
ghost use Rattle.std.specs.Prelude.{◌≡◌, ◌+◌, ◌<◌, ℕ, List, Option, ⊤, length};
ghost use Rattle.bridge_schema.specs.Readers as spec;
ghost use Rattle.bridge_schema.specs.Texts as texts;

use crate::plan_fault::Flaw;
use crate::value_kinds::ValueKind;
use toml::Value;

/// Maps the texts that a key allows to their meanings, such as `open` to true.
pub trait TextMeaning {
    /// Meaning of a text.
    type Out;

    /// Meaning of a text; `None` if the text isn't allowed.
    ghost meaning: { Self → List ℕ → Option Self.Out };

    /// Returns the meaning of a text; `None` if the text isn't allowed. Allocates no memory. `TextValue::read` calls it.
    fn parse_text(&self, text: &str) -> Option<Self::Out>
        ensures means { result ≡ meaning self.now text.now };
}

/// Kind of value: a text with a meaning, such as `open`. Any other text is `OutOfRange`.
#[derive(Clone, Copy)]
pub struct TextValue<M> {
    /// Meanings of the texts.
    pub meaning: M,
}

impl<M: TextMeaning> ValueKind for TextValue<M> {
    type Out = M::Out;

    ghost reading = { λ k. spec.text_value (M.meaning k.meaning) };

    ghost Fits = { λ _ _. ⊤ };

    #[tactic(auto, unfolding(crate::specs::Readers::text_value))]
    fn read(&self, value: &Value) -> Result<M::Out, Flaw> {
        match value {
            Value::String(text) => match self.meaning.parse_text(text.as_str()) {
                Some(out) => Ok(out),
                None => Err(Flaw::OutOfRange),
            },
            _ => Err(Flaw::WrongKind),
        }
    }
}

/// State of a stream gate: `open` means true, `closed` means false.
#[derive(Clone, Copy)]
pub struct Openness;

impl TextMeaning for Openness {
    type Out = bool;

    ghost meaning = { λ _. texts.parse_openness };

    fn parse_text(&self, text: &str) -> Option<bool> {
        if text == "open" {
            Some(true)
        } else if text == "closed" {
            Some(false)
        } else {
            None
        }
    }
}

/// Returns the value of a hexadecimal digit by its ASCII code; `None` for any other octet. `hex_pair` calls it for each digit.
fn hex_value(c: u8) -> Option<u8>
    ensures { result ≡ texts.hex_value c }
{
    match c {
        48..=57 => Some(c - 48),
        65..=70 => Some(c - 55),
        97..=102 => Some(c - 87),
        _ => None,
    }
}

/// Returns the octet that the two hexadecimal digits at index `i` spell; `None` if one isn't a digit. `parse_address` calls it for each
/// pair.
fn hex_pair(text: &[u8], i: usize) -> Option<u8>
    requires { i + 1 < length text.now }
    ensures { result ≡ texts.hex_pair text.now i }
{
    let high = hex_value(text[i])?;
    let low = hex_value(text[i + 1])?;
    Some(16 * high + low)
}

/// Whether hyphens separate the six pairs of an address text of 17 octets. `parse_address` refuses any other text.
fn has_hyphens(text: &[u8]) -> bool
    requires { length text.now ≡ 17 }
    ensures { result ≡ texts.has_hyphens text.now }
{
    text[2] == 45 && text[5] == 45 && text[8] == 45 && text[11] == 45 && text[14] == 45
}

/// Parses a MAC address such as `01-80-C2-00-00-0E`; `None` for any other text. `Address::parse_text` calls it.
#[tactic(auto, unfolding(crate::specs::Texts::parse_address))]
fn parse_address(text: &[u8]) -> Option<[u8; 6]>
    ensures { result ≡ texts.parse_address text.now }
{
    if text.len() != 17 {
        return None;
    }
    if !has_hyphens(text) {
        return None;
    }
    let a = hex_pair(text, 0)?;
    let b = hex_pair(text, 3)?;
    let c = hex_pair(text, 6)?;
    let d = hex_pair(text, 9)?;
    let e = hex_pair(text, 12)?;
    let f = hex_pair(text, 15)?;
    Some([a, b, c, d, e, f])
}

/// MAC address: six pairs of hexadecimal digits of either case, separated by hyphens.
#[derive(Clone, Copy)]
pub struct Address;

impl TextMeaning for Address {
    type Out = [u8; 6];

    ghost meaning = { λ _. texts.parse_address };

    fn parse_text(&self, text: &str) -> Option<[u8; 6]> {
        parse_address(text.as_bytes())
    }
}
