//! Asks parts line by line, and makes lists from lines.

use crate::words::{Fault, Output, tell};
use std::alloc::{AllocError, Allocator};

/// A part of a bridge that scripts can ask.
pub trait Part {
    /// Carries out a line, and adds the line and the answer.
    fn ask(&mut self, said: &mut Output, line: &str);
}

/// Asks a part line by line.
pub fn ask_each<P: Part>(said: &mut Output, part: &mut P, lines: &str) {
    for line in lines.lines() {
        part.ask(said, line);
    }
}

/// Asks a part that was made from the line `head`, or adds the fault.
pub fn ask_made<P: Part + Drop>(
    said: &mut Output,
    made: Result<P, Fault>,
    head: &str,
    lines: &str,
) {
    ask_formatted(said, made, "{a} -> made\n", head, lines)
}

/// Asks a part that was made from the line `head`, written in `form`, or adds the fault.
pub fn ask_formatted<P: Part + Drop>(
    said: &mut Output,
    made: Result<P, Fault>,
    form: &str,
    head: &str,
    lines: &str,
) {
    match made {
        Ok(mut part) => {
            said.text.put_template(form, &[], &[head]);
            ask_each(said, &mut part, lines);
        }
        Err(fault) => tell(said, head, &fault),
    }
}

/// Returns the values that `of` makes of the parts of a text, between separators.
pub fn collect_parts<T: Drop, A: Allocator, F: Fn(&str) -> Option<T> + Copy>(
    alloc: A,
    text: &str,
    separator: char,
    of: F,
) -> Result<Vec<T, A>, AllocError>
    requires { F.IsAlwaysCallable of }
{
    let mut all = Vec::with_capacity(alloc, text.split(separator).count())?;
    push_each(&mut all, text, separator, of)?;
    Ok(all)
}

/// Adds the values that `of` makes of the parts of a text, between separators.
pub fn push_each<T: Drop, A: Allocator, F: Fn(&str) -> Option<T> + Copy>(
    all: &mut Vec<T, A>,
    text: &str,
    separator: char,
    of: F,
) -> Result<(), AllocError>
    requires { F.IsAlwaysCallable of }
{
    for part in text.split(separator) {
        if let Some(value) = of(part) {
            all.push(value)?;
        }
    }
    Ok(())
}
