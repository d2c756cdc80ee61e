//! Splits files into cases, and expands repeated text in their lines.
use bridge_text::TextBuilder;
use std::alloc::Global;

/// Splits a part into its heading and the lines below.
pub fn split_heading(part: &str) -> (&str, &str) {
    part.split_once('\n').unwrap_or((part, ""))
}

/// Expands `<80 [>` to 80 times `[`, and `<3..5 n#>` to `n3n4n5`. Returns `None` if a form is incomplete or memory ran out.
pub fn expand_forms(alloc: Global, said: &mut TextBuilder<Global>, lines: &str) -> Option<String> {
    let mut text = TextBuilder::new(alloc);
    text.put(lines.split_once('<').unwrap_or((lines, "")).0);
    let mut is_whole = true;
    for piece in lines.split('<').skip(1) {
        is_whole &= put_piece(&mut text, piece);
    }
    let text = text.finish();
    if text.is_err() {
        said.discard();
    }
    if is_whole { text.ok() } else { None }
}

/// Adds an expanded form and the text after it. Returns whether the form is complete.
fn put_piece(text: &mut TextBuilder<Global>, piece: &str) -> bool {
    let (form, rest) = piece.split_once('>').unwrap_or(("", ""));
    let (times, repeated) = form.split_once(' ').unwrap_or((form, ""));
    let is_whole = put_form(text, times, repeated);
    text.put(rest);
    is_whole
}

/// Adds `repeated` a number of times, or once for each number of a range. Returns whether `times` is a number or a range.
fn put_form(text: &mut TextBuilder<Global>, times: &str, repeated: &str) -> bool {
    match times.split_once("..") {
        Some((first, last)) => put_range(text, first, last, repeated),
        None => put_times(text, times, repeated),
    }
}

/// Adds `repeated` a number of times. Returns whether `times` is a number.
fn put_times(text: &mut TextBuilder<Global>, times: &str, repeated: &str) -> bool {
    let Ok(times) = times.parse::<usize>() else {
        return false;
    };
    for _ in 0..times {
        text.put(repeated);
    }
    true
}

/// Adds `repeated` once for each number of a range, with the number in place of `#`. Returns whether the form is complete.
fn put_range(text: &mut TextBuilder<Global>, first: &str, last: &str, repeated: &str) -> bool {
    let (first, last) = (first.parse::<u32>().ok(), last.parse::<u32>().ok());
    let (front, back) = repeated.split_once('#').unwrap_or((repeated, ""));
    for number in first.unwrap_or(1)..last.unwrap_or(0).saturating_add(1) {
        text.put(front);
        text.put_number(u64::from(number));
        text.put(back);
    }
    first.is_some() && last.is_some() && repeated.contains('#')
}
