//! Reads the TOML document of a file, or explains why it has none.

use bridge_text::{Said, fill_with_word, position_at_offset, put_position};
use std::alloc::Global;
use toml::Table;
use toml::de::Error;

/// Returns the text and the document in these octets. If they aren't UTF-8 or TOML, writes the position and the reason, and returns `None`.
/// Explanations of all files that aren't TOML begin with this position.
///
/// `file_explanation` and `put_document_fault` call it.
pub(crate) fn read_document<'a>(
    alloc: Global,
    said: &mut Said,
    octets: &'a [u8],
) -> Option<(&'a str, Table)> {
    let text = match str::from_utf8(octets) {
        Ok(text) => text,
        Err(error) => {
            put_position(said, Some(position_at_offset(octets, error.valid_up_to())));
            said.put("from here on the file isn't UTF-8 text.\n");
            return None;
        }
    };
    match toml::table_from_str(alloc, text) {
        Ok(document) => Some((text, document)),
        Err(error) => {
            put_syntax_error(said, text, &error);
            None
        }
    }
}

/// Writes the position at which a text isn't a TOML document, and the reason. Adds a hint if a word stands where a value is expected, or a
/// key is repeated. `read_document` calls it.
fn put_syntax_error(said: &mut Said, text: &str, error: &Error) {
    let message = error.message();
    let Some(span) = error.span() else {
        return fill_with_word(said, ": invalid TOML: {a}.\n", 0, message);
    };
    put_position(said, Some(position_at_offset(text.as_bytes(), span.start)));
    fill_with_word(said, "invalid TOML: {a}.\n", 0, message);
    let (before, word) = word_with_context(text, span.start);
    let template = if message == "duplicate key" && !word.is_empty() {
        "The key `{a}` is repeated in its table. Remove one of the two.\n"
    } else if matches!(before, Some(b'=' | b'[' | b',')) {
        quoting_hint(word)
    } else {
        ""
    };
    fill_with_word(said, template, 0, word);
}

/// Returns the word at offset `place` in the text, and the last octet before it that isn't blank. This octet is `None` at the start of the
/// text. `put_syntax_error` calls it.
fn word_with_context(text: &str, place: usize) -> (Option<u8>, &str) {
    let mut start = 0usize;
    let mut end = 0usize;
    for octet in text.as_bytes() {
        if !octet.is_ascii_alphanumeric() && *octet != b'-' && *octet != b'_' && *octet != b':' {
            if end >= place {
                break;
            }
            start = end.saturating_add(1);
        }
        end = end.saturating_add(1);
    }
    let front = text.get(..start).unwrap_or("").trim_end();
    let before = front.as_bytes().last().copied();
    (before, text.get(start..end).unwrap_or(""))
}

/// Returns a hint for a word that stands where a value is expected: how to write true, false or a text. Returns an empty text for other
/// words. `put_syntax_error` calls it.
fn quoting_hint(word: &str) -> &'static str {
    let first = word.as_bytes().first().copied().unwrap_or(b'-');
    if word.eq_ignore_ascii_case("true") || word.eq_ignore_ascii_case("yes") {
        "`{a}` isn't a value. Write true, in lower case and without quotes.\n"
    } else if word.eq_ignore_ascii_case("false") || word.eq_ignore_ascii_case("no") {
        "`{a}` isn't a value. Write false, in lower case and without quotes.\n"
    } else if first.is_ascii_alphabetic()
        || first != b'-' && (word.contains('-') || word.contains(':'))
    {
        "`{a}` isn't a value. Write text in quotes: \"{a}\".\n"
    } else {
        ""
    }
}
