//! Holds the output of a script's line.

use bridge_text::TextBuilder;
use std::alloc::Global;
use std::mem::replace;

/// Cause of a failed line: memory ran out.
pub const NO_MEMORY: &str = "no memory";

/// Output of a script's line, and the cause if the line fails.
#[derive(Drop)]
pub struct LineOutput {
    pub alloc: Global,
    pub text: TextBuilder<Global>,
    why: Option<&'static str>,
}

impl LineOutput {
    /// Returns an empty output.
    pub fn new(alloc: Global) -> LineOutput {
        LineOutput {
            alloc,
            text: TextBuilder::new(alloc),
            why: None,
        }
    }

    /// Notes the cause of a failed line. The first cause stays.
    pub fn stop(&mut self, why: &'static str) {
        if self.why.is_none() {
            self.why = Some(why);
        }
    }

    /// Adds the way by which a result differs, unless `is_same` is true.
    pub fn compare(&mut self, is_same: bool, way: &str, moves: &str) {
        if !is_same {
            self.text
                .put_template("differs: {a}{b}\n", &[], &[way, moves]);
        }
    }

    /// Returns a piece, or an empty text if memory ran out. Then the line fails.
    pub fn piece_or_stop<E: Drop>(&mut self, piece: Result<String, E>) -> String {
        match piece {
            Ok(piece) => piece,
            Err(_) => {
                self.stop(NO_MEMORY);
                String::new(self.alloc)
            }
        }
    }

    /// Prints and empties the output. Returns the cause if the line fails.
    pub fn print(&mut self, rt: &impl Print) -> Option<&'static str> {
        let text = replace(&mut self.text, TextBuilder::new(self.alloc));
        let text = self.piece_or_stop(text.finish());
        if rt.print(text.as_str()).is_err() {
            self.stop("a line that is not printed");
        }
        self.why
    }
}

/// Adds a piece to a text. If memory ran out for the piece, discards the text.
pub fn add<E: Drop>(text: &mut TextBuilder<Global>, piece: Result<String, E>) {
    match piece {
        Ok(piece) => text.put(piece.as_str()),
        Err(_) => text.discard(),
    }
}
