//! Texts that begin with the path of a file, and texts escaped to one line.
ghost use Rattle.std.specs.Prelude.{◌≡◌, IfOk, string_bytes};
ghost use Rattle.bridge_text.specs.Escaped.{escaped};
ghost use Rattle.bridge_text.specs.PathPrefix.{StartsWithName};

use crate::text_builder::TextBuilder;
use bridge_limits::NoMemory;
use std::alloc::{Allocator, Global};

/// Joins `path` and `body` in a new text, or returns `NoMemory`. Explanations begin with the path of their file. `finish_with_path`, and
/// `explain_run` and `explain_text` of `show_explain` call it.
pub fn text_with_path(alloc: Global, path: &str, body: &str) -> Result<String, NoMemory>
    ensures { IfOk result (λ said. StartsWithName path.now (string_bytes said)) }
{
    Ok(format!(in alloc; "{path}{body}")?)
}

/// Returns `path` followed by the finished text of `body`. `NoMemory` if memory ran out for the body or for the new text.
/// `explain_arguments` of `show_explain`, `explain_check` of `show_lint` and 7 more call it.
pub fn finish_with_path(
    alloc: Global,
    path: &str,
    body: TextBuilder<Global>,
) -> Result<String, NoMemory>
    ensures { IfOk result (λ said. StartsWithName path.now (string_bytes said)) }
{
    let body = body.finish()?;
    text_with_path(alloc, path, body.as_str())
}

/// Returns a text that stays on one line: control characters are escaped as by `TextBuilder::put_escaped`. `explain_file_cause` of
/// `app_commands` calls it.
pub fn escape_text<A: Allocator>(alloc: A, text: &str) -> Result<String<A>, NoMemory>
    ensures { IfOk result (λ line. string_bytes line ≡ escaped text.now) }
{
    let mut line = TextBuilder::new(alloc);
    line.put_escaped(text);
    line.finish()
}
