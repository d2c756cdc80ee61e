//! Explains unknown sections of a plan or network file.

use crate::document::Document;
use crate::nearest::{SECTIONS, put_nearest};
use crate::position::{put_position, top_level_position};
use crate::value::{Said, put_key};
use std::alloc::Global;

/// Whether `name` is in `names`, the sections that a file may have. `put_stray_section` tests each top-level key by it.
fn is_listed(names: &[&str], name: &str) -> bool {
    for other in names {
        if *other == name {
            return true;
        }
    }
    false
}

/// Writes the first top-level key that is none of `sections`, and the nearest section. The two functions `put_top_key` of `show_explain`
/// call it.
pub fn put_stray_section(
    alloc: Global,
    said: &mut Said,
    document: Document<'_>,
    sections: &[&str],
) {
    for (key, _) in document.table.iter() {
        let key = key.as_str();
        if !is_listed(sections, key) {
            put_position(said, top_level_position(document.text, key));
            put_key(said, key);
            said.put(" isn't a section.\n");
            return put_nearest(alloc, said, key, sections, SECTIONS);
        }
    }
    said.put(": all top-level keys are known.\n");
}
