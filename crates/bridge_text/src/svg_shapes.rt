//! Writes the shapes of a picture as lines of SVG, up to a limit.
ghost use Rattle.std.specs.Prelude.{◌≤◌, IfOk, length, string_bytes};

use crate::TextBuilder;
use bridge_limits::NoMemory;
use std::alloc::Global;

/// Largest size of a picture in octets.
const MAX_PICTURE_OCTETS: usize = 2_000_000;

/// Octets reserved for the last shape, head and foot: no shape begins after the first 1,980,000 octets.
const RESERVED_OCTETS: usize = 20_000;

/// Picture in place of a picture that exceeds the size limit, because its last shape needs more than the reserved octets.
const TOO_LARGE_PICTURE: &str =
    r#"<svg xmlns="http://www.w3.org/2000/svg" width="400" height="40"><text x="10" y="25">too much to draw</text></svg>
"#;

/// Shapes of a picture, one for each line, up to the size limit. Further shapes are only counted.
#[derive(Drop)]
pub struct Shapes {
    /// Markup of the shapes that fit, and of the current shape.
    text: TextBuilder<Global>,
    /// Number of shapes that don't fit.
    omitted: u64,
    /// Whether the size limit leaves no space for the next shape.
    is_full: bool,
}

impl Shapes {
    /// Returns an empty list of shapes. `Page::new`, and `draw_network` and `RunPicture::new` of `net_report` call it.
    pub fn new(alloc: Global) -> Shapes {
        Shapes {
            text: TextBuilder::new(alloc),
            omitted: 0,
            is_full: false,
        }
    }

    /// Returns the number of omitted shapes, for a note in the picture. `Page::finish`, `put_window` of `net_report` and 2 more call it.
    pub fn omitted_shapes(&self) -> u64 {
        self.omitted
    }

    /// Counts a shape that doesn't fit. `end_shape` calls it if the picture is full.
    fn omit_shape(&mut self) {
        self.omitted = self.omitted.saturating_add(1);
    }

    /// Writes a piece of the current shape by a form: numbers replace `{0}` to `{9}`, and words replace `{a}` to `{z}`. Writes nothing if
    /// the picture is full.
    ///
    /// Methods of `Shapes` and `Page`, and functions of `net_report` call it.
    pub fn add_piece(&mut self, form: &str, numbers: &[u64], words: &[&str]) {
        if !self.is_full {
            put_form(&mut self.text, form, numbers, words);
        }
    }

    /// Ends the current shape: a new line, or one more omitted shape if the picture is full. `put_shape`, methods of `Page` and functions
    /// of `net_report` call it.
    pub fn end_shape(&mut self) {
        if self.is_full {
            return self.omit_shape();
        }
        self.text.put("\n");
        self.is_full = self.text.len() > MAX_PICTURE_OCTETS - RESERVED_OCTETS;
    }

    /// Draws a shape of one piece, which callers don't have to end by `end_shape`.
    pub fn put_shape(&mut self, form: &str, numbers: &[u64], words: &[&str]) {
        self.add_piece(form, numbers, words);
        self.end_shape();
    }

    /// Returns the picture as SVG text of at most 2,000,000 octets: `head`, the shapes, `foot`. Pictures call it after their last shape.
    pub fn finish(self, alloc: Global, head: &str, foot: &str) -> Result<String, NoMemory>
        ensures { IfOk result (λ text. length (string_bytes text) ≤ 2000000) }
    {
        let shapes = self.text.finish()?;
        let mut svg = TextBuilder::new(alloc);
        svg.put(head);
        svg.put(shapes.as_str());
        svg.put(foot);
        svg.put("</svg>\n");
        let svg = svg.finish()?;
        if svg.len() <= MAX_PICTURE_OCTETS {
            return Ok(svg);
        }
        Ok(String::from_str(alloc, TOO_LARGE_PICTURE)?)
    }
}

/// Returns the text of a form: numbers replace `{0}` to `{9}`, and escaped words replace `{a}` to `{z}`. `text_line` and `Page::finish`,
/// and `draw_network` of `net_report` call it.
pub fn fill_form(
    alloc: Global,
    form: &str,
    numbers: &[u64],
    words: &[&str],
) -> Result<String, NoMemory> {
    let mut text = TextBuilder::new(alloc);
    put_form(&mut text, form, numbers, words);
    text.finish()
}

/// Writes the text of a form: numbers replace `{0}` to `{9}`, and escaped words replace `{a}` to `{z}`. `picture_head`, `Shapes::add_piece`
/// and `fill_form` call it.
pub(crate) fn put_form(
    text: &mut TextBuilder<Global>,
    form: &str,
    numbers: &[u64],
    words: &[&str],
) {
    for piece in form.split('{') {
        match piece.split_once('}') {
            Some((place, behind)) => {
                put_placeholder(text, place.as_bytes(), numbers, words);
                text.put(behind);
            }
            None => text.put(piece),
        }
    }
}

/// Writes the number or word of the placeholder `place`. Writes nothing if `numbers` or `words` lacks it. `put_form` calls it.
fn put_placeholder(text: &mut TextBuilder<Global>, place: &[u8], numbers: &[u64], words: &[&str]) {
    match place {
        [digit @ b'0'..=b'9'] => {
            if let Some(number) = numbers.get((*digit - b'0') as usize) {
                text.put_number(*number);
            }
        }
        [letter @ b'a'..=b'z'] => {
            if let Some(word) = words.get((*letter - b'a') as usize) {
                put_escaped(text, *word);
            }
        }
        _ => {}
    }
}

/// Writes a word, with SVG's special characters escaped, because names of users may contain them.
fn put_escaped(text: &mut TextBuilder<Global>, word: &str) {
    for letter in word.chars() {
        match letter {
            '&' => text.put("&amp;"),
            '<' => text.put("&lt;"),
            '>' => text.put("&gt;"),
            '"' => text.put("&quot;"),
            _ => text.put(letter.encode_utf8(&mut [0; 4])),
        }
    }
}
