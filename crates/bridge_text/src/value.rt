//! Writes values of a TOML document in words that planners know.

use crate::text_builder::TextBuilder;
use std::alloc::Global;
use toml::Value;

/// Text under construction in the global allocator, such as an explanation or a warning.
pub type Said = TextBuilder<Global>;

/// Largest number of characters shown of a text.
const MAX_CHARACTERS: usize = 60;

/// Largest number of items shown of an array.
const MAX_ITEMS: usize = 16;

/// Writes `template` with `number` in place of `{0}` and `word` in place of `{a}`. The template may use only one of them. `put_place`,
/// `put_unknown_option` of `show_explain` and many more call it.
pub fn fill_with_word(said: &mut Said, template: &str, number: u64, word: &str) {
    said.put_template(template, &[number], &[word]);
}

/// Returns at most the first 60 characters of a text. `put_text` writes only these.
fn shown_prefix(text: &str) -> &str {
    match text.char_indices().nth(MAX_CHARACTERS) {
        Some((end, _)) => text.get(..end).unwrap_or(text),
        None => text,
    }
}

/// Writes a text in quotes, cut after 60 characters. `put_key`, `explain_plan_path` of `net_check` and 4 more call it.
pub fn put_text(said: &mut Said, text: &str) {
    let front = shown_prefix(text);
    said.put_quoted(front);
    if front.len() < text.len() {
        said.put("..");
    }
}

/// Writes a key in backquotes. A key that is long or needs quotes in TOML is written as a quoted text, cut after 60 characters.
/// `put_stray_section`, `put_misplaced_entry_key` of `show_explain` and 3 more call it.
pub fn put_key(said: &mut Said, key: &str) {
    let mut is_plain = true;
    for octet in key.as_bytes() {
        is_plain &= octet.is_ascii_alphanumeric() | (*octet == b'_') | (*octet == b'-');
    }
    if is_plain && key.len() <= MAX_CHARACTERS {
        fill_with_word(said, "`{a}`", 0, key);
    } else {
        put_text(said, key);
    }
}

/// Writes an item of an array. An inner array or table shows only its brackets. `put_items` calls it for each shown item, and `put_value`
/// for a single value.
fn put_item(said: &mut Said, item: &Value) {
    match item {
        Value::String(text) => put_text(said, text.as_str()),
        Value::Integer(number) => said.put_integer(*number),
        Value::Boolean(true) => said.put("true"),
        Value::Boolean(false) => said.put("false"),
        Value::Float(_) => said.put("a float"),
        Value::Datetime(_) => said.put("a date or a time"),
        Value::Array(_) => said.put("[..]"),
        Value::Table(_) => said.put("{..}"),
    }
}

/// Returns at most the first `most` items, because explanations show only the start of a long array. `put_items`, and `is_list_refused` and
/// `put_instance_numbers` of `show_explain` call it.
pub fn first_items(items: &[Value], most: usize) -> &[Value] {
    if items.len() > most {
        &items[..most]
    } else {
        items
    }
}

/// Writes the items of an array, at most the first 16. `put_value` calls it between the brackets.
fn put_items(said: &mut Said, items: &[Value]) {
    let mut is_first = true;
    for item in first_items(items, MAX_ITEMS) {
        said.put_comma(is_first);
        put_item(said, item);
        is_first = false;
    }
    if items.len() > MAX_ITEMS {
        said.put(", ..");
    }
}

/// Writes a value for an explanation. An array shows at most 16 items; a table, a float or a date shows only its kind.
/// `put_identifying_key` and `put_value_sentence` call it.
pub fn put_value(said: &mut Said, value: &Value) {
    match value {
        Value::Array(items) => {
            said.put("[");
            put_items(said, items);
            said.put("]");
        }
        Value::Table(_) => said.put("a table"),
        _ => put_item(said, value),
    }
}

/// Writes a sentence: `template` with `number` and `name`, then the value, or `word` if the value is missing. `put_no_list`,
/// `put_entry_flaws` of `show_explain` and 4 more call it.
pub fn put_value_sentence(
    said: &mut Said,
    template: &str,
    number: u64,
    name: &str,
    value: Option<&Value>,
    word: &str,
) {
    fill_with_word(said, template, number, name);
    match value {
        Some(value) => put_value(said, value),
        None => said.put(word),
    }
    said.put(".\n");
}
