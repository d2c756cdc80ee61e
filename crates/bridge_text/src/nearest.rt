//! Finds the known name nearest to an unknown name.
ghost use Rattle.std.specs.Prelude.{Contains};
ghost use Rattle.std.specs.Option.{ForSome};

use crate::value::{Said, fill_with_word};
use std::alloc::Global;
use strsim::osa_distance;

/// Largest number of octets of an unknown word and the text `front` before it, such as `--`. A longer word has no nearest name.
const LONGEST_WORD: usize = 40;

/// Largest number of edits between a word and a near name.
const MAX_EDITS: usize = 3;

/// Largest number of names in the list that `put_name_list` writes.
const MOST_NAMES: usize = 16;

/// Returns the first name with the fewest edits from `word`. The limit is 3 edits, or a quarter, rounded up, of the octets of
/// `front` and `word` if that is less.
///
/// Swapping two neighbouring characters is one edit. Returns `None` if no name is near, or, with the text discarded, if memory runs out.
/// `put_nearest`, and `put_unknown_option` and `put_usages` of `show_explain` call it.
pub fn nearest_name<'a>(
    alloc: Global,
    said: &mut Said,
    front: &str,
    word: &str,
    names: &[&'a str],
) -> Option<&'a str>
    ensures known { ForSome result (Contains names.now) }
{
    let octets = front.len().saturating_add(word.len());
    if octets > LONGEST_WORD {
        return None;
    }
    let mut found = None;
    let mut least = octets.div_ceil(4).min(MAX_EDITS) + 1;
    for name in names {
        let Ok(edits) = osa_distance(alloc, word, *name) else {
            said.discard();
            return None;
        };
        if edits < least {
            least = edits;
            found = Some(*name);
        }
    }
    found
}

/// Templates that name the nearest name or all names. The name replaces `{a}`.
#[derive(Clone, Copy)]
pub struct Listing {
    /// Sentence with the nearest name.
    pub nearest: &'static str,
    /// Sentence with the only name.
    pub only: &'static str,
    /// Start of the list of all names, with the first name.
    pub first: &'static str,
    /// A further name of the list.
    pub next: &'static str,
}

/// Templates for keys of a table.
pub const KEYS: Listing = Listing {
    nearest: "The nearest key is `{a}`.\n",
    only: "The only key is `{a}`.\n",
    first: "The keys are `{a}`",
    next: ", `{a}`",
};

/// Templates for sections of a file.
pub const SECTIONS: Listing = Listing {
    nearest: "The nearest section is `{a}`.\n",
    only: "The only section is `{a}`.\n",
    first: "The sections are `{a}`",
    next: ", `{a}`",
};

/// Templates for bridges of a network.
pub const BRIDGES: Listing = Listing {
    nearest: "The nearest bridge is \"{a}\".\n",
    only: "The only bridge is \"{a}\".\n",
    first: "The bridges are \"{a}\"",
    next: ", \"{a}\"",
};

/// Writes the name nearest to `word`, or the list of known names if no name is near. `put_stray_section`, and `put_nearest_key` and
/// `put_unknown` of `show_explain` call it.
pub fn put_nearest(alloc: Global, said: &mut Said, word: &str, names: &[&str], listing: Listing) {
    match nearest_name(alloc, said, "", word, names) {
        Some(name) => fill_with_word(said, listing.nearest, 0, name),
        None => put_name_list(said, names, listing),
    }
}

/// Writes the list of the known names. After 16 names, `..` replaces the others; a single name gets a sentence of its own. `put_nearest`
/// calls it if no name is near.
fn put_name_list(said: &mut Said, names: &[&str], listing: Listing) {
    if let [name] = names {
        return fill_with_word(said, listing.only, 0, *name);
    }
    let mut is_first = true;
    for name in names.iter().take(MOST_NAMES) {
        if is_first {
            fill_with_word(said, listing.first, 0, *name);
        } else {
            fill_with_word(said, listing.next, 0, *name);
        }
        is_first = false;
    }
    if names.len() > MOST_NAMES {
        said.put(", ..");
    }
    said.put(".\n");
}
