//! Builds texts such as explanations and reports, piece by piece.
ghost use Rattle.std.specs.Prelude.{◌≡◌, ◌<◌, [], ◌∷◌, IfErr, IfOk, IfSome, None, Some, decimal, encode_utf8, length, string_bytes};
ghost use Rattle.std.specs.Char.{digit_char};
ghost use Rattle.bridge_text.specs.Escaped.{control_escape, escaped, escaped_letter, hexadecimal};
ghost use Rattle.bridge_text.specs.Growth.{HasGrown, IsLonger};

use bridge_limits::NoMemory;
use itoa::{Buffer, Integer};
use std::alloc::Allocator;
use std::marker::Model;

/// Text that grows at its end. After memory runs out, it accepts no more pieces and finishes with an error.
#[derive(Drop)]
pub struct TextBuilder<A: Allocator> {
    /// The text; `None` after memory ran out.
    held: Option<String<A>>,
}

impl<A: Allocator> Model for TextBuilder<A> {
    ghost use Rattle.std.specs.Prelude.{ℕ, List, Option, option_map, string_bytes};

    ghost Value = { Option (List ℕ) };

    ghost view = { λ t. option_map string_bytes t.held };
}

impl<A: Allocator> TextBuilder<A> {
    /// Returns an empty text. Callers then add pieces.
    pub fn new(alloc: A) -> TextBuilder<A>
        ensures { result ≡ Some [] }
    {
        TextBuilder {
            held: Some(String::new(alloc)),
        }
    }

    /// Returns the number of octets, or 0 after memory ran out. Callers compare lengths to find out whether a text was added.
    pub fn len(&self) -> usize
        ensures { IfSome self.now (λ octets. result ≡ length octets) }
    {
        match &self.held {
            Some(held) => held.len(),
            None => 0,
        }
    }

    /// Adds a piece at the end. If memory runs out, drops the text; `finish` then returns `NoMemory`.
    pub fn put(&mut self, piece: &str)
        ensures { HasGrown self.old piece.now self.new }
    {
        let is_refused = match &mut self.held {
            Some(held) => held.push_str(piece).is_err(),
            None => false,
        };
        if is_refused {
            self.held = None;
        }
    }

    /// Adds a number in decimal digits. `put_placeholder`, `put_filter_fault` of `app_failure` and many more call it.
    pub fn put_number(&mut self, number: u64)
        ensures { HasGrown self.old (decimal number) self.new }
    {
        let mut digits = Buffer::new();
        self.put(digits.format(number));
    }

    /// Adds an integer of any width in decimal digits, with a minus sign if it is negative. `put_item`, `put_counted` of `bridge_report`
    /// and 8 more call it.
    pub fn put_integer<I: Integer>(&mut self, number: I)
        ensures { HasGrown self.old (I.text number) self.new }
    {
        let mut digits = Buffer::new();
        self.put(digits.format(number));
    }

    /// Adds a comma unless the next item is the first. `put_items`, `put_numbers` of `net_latency`, and `put_open_classes` of `show_lint`
    /// call it.
    pub fn put_comma(&mut self, is_first: bool) {
        if !is_first {
            self.put(", ");
        }
    }

    /// Adds a piece in quotes, escaped as in Rust. `put_text` calls it.
    pub fn put_quoted(&mut self, piece: &str) {
        let is_refused = match &mut self.held {
            Some(held) => write!(held, "{piece:?}").is_err(),
            None => false,
        };
        if is_refused {
            self.held = None;
        }
    }

    /// Adds a character as it is; `put_letter` has tested that it needs no escape.
    fn put_char(&mut self, letter: char)
        ensures { HasGrown self.old (encode_utf8 letter) self.new }
    {
        let is_refused = match &mut self.held {
            Some(held) => held.push(letter).is_err(),
            None => false,
        };
        if is_refused {
            self.held = None;
        }
    }

    /// Adds a lower-case hexadecimal digit for a number below 16. `put_hexadecimal` calls it for each digit.
    fn put_digit(&mut self, digit: u8)
        requires { digit < 16 }
        ensures { HasGrown self.old (digit_char digit ∷ []) self.new }
    {
        self.put_char(digit_letter(digit) as char);
    }

    /// Adds a code below 256 in hexadecimal, without a leading zero, for the escape of a control character. `put_control` calls it.
    fn put_hexadecimal(&mut self, code: u8)
        ensures { HasGrown self.old (hexadecimal code) self.new }
    {
        if code < 16 {
            return self.put_digit(code);
        }
        self.put_digit(code / 16);
        self.put_digit(code % 16);
    }

    /// Adds the escape of a control character, as Rust writes it: for example `\t` or `\u{1b}`. `put_letter` calls it.
    fn put_control(&mut self, code: u8)
        ensures { HasGrown self.old (control_escape code) self.new }
    {
        match code {
            b'\t' => self.put("\\t"),
            b'\n' => self.put("\\n"),
            b'\r' => self.put("\\r"),
            _ => {
                self.put("\\u{");
                self.put_hexadecimal(code);
                self.put("}");
            }
        }
    }

    /// Adds a character; a control character is escaped. `put_escaped` calls it for each character.
    fn put_letter(&mut self, letter: char)
        ensures { HasGrown self.old (escaped_letter letter) self.new }
    {
        let code = letter as u32;
        if code < 32 {
            return self.put_control(code as u8);
        }
        if code >= 127 && code < 160 {
            return self.put_control(code as u8);
        }
        self.put_char(letter);
    }

    /// Adds a piece on one line: control characters are escaped as in Rust, for example `\n` or `\u{1b}`. Paths in lines and
    /// explanations are written this way.
    pub fn put_escaped(&mut self, piece: &str)
        ensures { HasGrown self.old (escaped piece.now) self.new }
    {
        for letter in piece.chars() {
            self.put_letter(letter);
        }
    }

    /// Adds a template with its values: numbers replace `{0}` to `{9}`, and words replace `{a}` to `{z}`, by index. A placeholder without a
    /// value adds nothing.
    ///
    /// `put_too_many`, `put_late` of `app_commands` and many more call it.
    #[tactic(auto, using(crate::proofs::Longer::longer))]
    pub fn put_template(&mut self, template: &str, numbers: &[u64], words: &[&str])
        ensures { IsLonger self.old self.new }
    {
        for piece in template.split('{') {
            self.put_template_piece(piece, numbers, words);
        }
    }

    /// Adds a piece of a template: the value of the placeholder up to `}`, then the rest of the piece. `put_template` splits the template
    /// at each `{`.
    #[tactic(auto, using(crate::proofs::Longer::longer))]
    fn put_template_piece(&mut self, piece: &str, numbers: &[u64], words: &[&str])
        ensures { IsLonger self.old self.new }
    {
        match piece.split_once('}') {
            Some((place, behind)) => {
                self.put_placeholder(place.as_bytes(), numbers, words);
                self.put(behind);
            }
            None => self.put(piece),
        }
    }

    /// Adds the value of a placeholder: `place` is the digit or letter between its braces. Adds nothing for an unknown placeholder.
    /// `put_template_piece` calls it.
    #[tactic(auto, using(crate::proofs::Longer::longer))]
    fn put_placeholder(&mut self, place: &[u8], numbers: &[u64], words: &[&str])
        ensures { IsLonger self.old self.new }
    {
        match place {
            [digit @ b'0'..=b'9'] => {
                if let Some(number) = numbers.get((*digit - b'0') as usize) {
                    self.put_number(*number);
                }
            }
            [letter @ b'a'..=b'z'] => {
                if let Some(word) = words.get((*letter - b'a') as usize) {
                    self.put(*word);
                }
            }
            _ => {}
        }
    }

    /// Drops the text. Callers use it if memory ran out for a part of the text.
    pub fn discard(&mut self)
        ensures { self.new ≡ None }
    {
        self.held = None;
    }

    /// Returns the text, or `NoMemory` if memory ran out. Callers call it once, after the last piece.
    pub fn finish(self) -> Result<String<A>, NoMemory>
        ensures text { IfOk result (λ text. self ≡ Some (string_bytes text)) }
        ensures refused { IfErr result (λ fault. self ≡ None) }
    {
        match self.held {
            Some(text) => Ok(text),
            None => Err(NoMemory),
        }
    }
}

/// Returns the ASCII code of a lower-case hexadecimal digit for a number below 16. `put_digit` calls it.
fn digit_letter(digit: u8) -> u8
    requires { digit < 16 }
    ensures letter { result ≡ digit_char digit }
    ensures ascii { result < 128 }
{
    if digit < 10 {
        b'0' + digit
    } else {
        b'a' + (digit - 10)
    }
}
