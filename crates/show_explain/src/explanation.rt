//! Fills templates with two words: numbers and words replace marks in braces.
use bridge_text::Said;

/// Writes a template: numbers replace `{0}`, `{1}` and so on, `one` replaces `{a}`, and `other` replaces `{b}`. `put_wrong` and
/// `explain_capture` call it.
pub(crate) fn fill_with_two_words<'a>(
    said: &mut Said,
    template: &str,
    numbers: &[u64],
    one: &'a str,
    other: &'a str,
) {
    said.put_template(template, numbers, &[one, other]);
}
