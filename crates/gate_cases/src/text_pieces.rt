//! Adds pieces to a text, and discards the text if memory runs out.

use bridge_text::TextBuilder;
use std::alloc::Global;
use std::fmt::Debug;

/// Adds a piece, or discards the text if memory ran out for the piece.
pub fn add<E: Drop>(said: &mut TextBuilder<Global>, piece: Result<String, E>) {
    match piece {
        Ok(piece) => said.put(piece.as_str()),
        Err(_) => said.discard(),
    }
}

/// Adds a value as its `Debug` writes it.
pub fn add_debug<T: Debug>(alloc: Global, said: &mut TextBuilder<Global>, value: &T) {
    add(said, format!(in alloc; "{value:?}"));
}
