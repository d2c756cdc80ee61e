//! Parses a text as a TOML document, and returns its sections as arrays of tables.
ghost use Rattle.std.specs.Prelude.{◌≡◌, ◌<◌, ◌≤◌, IfErr, IfOk, length, nat_le, option_map, true, false};
ghost use Rattle.toml.specs.View.{view, table_view, items_view};
ghost use Rattle.bridge_schema.specs.Readers.{is_empty};
ghost use Rattle.bridge_schema.specs.Reading as spec;

use crate::arrays::are_tables;
use crate::presence::get_value;
use crate::ranges::MOST_OCTETS;
use crate::reader_fault::{ReaderFault, Spell, TextSection};
use std::alloc::Global;
use toml::{Table, Value};

/// Parses a text as a TOML document. Returns `too_long` above 1,048,576 octets, and `syntax` if the text isn't TOML in UTF-8. Readers of
/// plans, commands, networks and traffic call it first.
#[tactic(auto, using(bridge_limits::proofs::Octets::utf8_whole))]
pub fn read_document<F: ReaderFault>(heap: Global, text: &[u8]) -> Result<Table, F>
    ensures { spec.GivesAs F.is_memory table_view result (spec.document_of F.too_long F.syntax text.now) }
{
    if text.len() > MOST_OCTETS {
        return Err(F::too_long());
    }
    let Ok(text) = str::from_utf8(text) else {
        return Err(F::syntax());
    };
    match toml::table_from_str(heap, text) {
        Ok(table) => Ok(table),
        Err(error) if error.is_memory() => Err(F::no_memory()),
        Err(_) => Err(F::syntax()),
    }
}

/// Whether a text is the spelling of one of `words`: keys or sections. `has_only` calls it for each key of a table.
fn is_spelled<W: Spell>(words: &[W], text: &str) -> bool
    ensures { result ≡ spec.is_among W.spelling words.now text.now }
{
    words.iter().any(|word| word.spell() == text)
}

/// Whether each key of a table is one of `words`: keys of an instance, or sections of a document. `command_items` of `bridge_config`,
/// `read_bridge` of `net_file` and 7 more call it.
pub fn has_only<W: Spell>(table: &Table, words: &[W]) -> bool
    ensures known { result ≡ spec.are_known W.spelling words.now (table_view table.now) }
{
    'members: for (key, _) in table.iter() {
        if !is_spelled(words, key.as_str()) {
            return false;
        }
    }
    true
}

/// Whether a section has no tables. The reader of plans refuses a plan without ports. `read_arrays` of `bridge_config` and `read_arrays` of
/// `net_file` call it.
#[tactic(auto, using(crate::proofs::Counts::is_empty_view))]
pub fn is_empty(items: &[Value]) -> bool
    ensures empty { result ≡ is_empty (items_view items.now) }
    ensures some { result ≡ false → 0 < length items.now }
{
    items.len() == 0
}

/// Whether the number of items is at most the limit of `section`. `array_items` refuses longer arrays.
#[tactic(auto, using(crate::proofs::Counts::count_of_view))]
fn are_few<S: TextSection>(items: &[Value], section: &S) -> bool
    ensures count { result ≡ nat_le (spec.count_items (items_view items.now)) (S.limit section.now) }
    ensures few { result ≡ true → length items.now ≤ S.limit section.now }
{
    items.len() <= section.limit()
}

/// Returns the tables of `value`, the array of a section; none if `value` is `None`. Refuses any other value and too many tables.
/// `section_items` calls it. Allocates no memory.
fn array_items<'a, F: ReaderFault>(
    section: F::Section,
    value: Option<&'a Value>,
) -> Result<&'a [Value], F>
    ensures reads { spec.GivesAs F.is_memory (λ x. items_view x.now) result (spec.items_in F.not_a_list F.too_many
        F.Section.limit section (option_map (λ v. view v.now) value.entry)) }
    ensures few { IfOk result (λ x. length x.now ≤ F.Section.limit section) }
    ensures tables { IfOk result (λ x. spec.are_tables (items_view x.now) ≡ true) }
    ensures takes_no_memory { IfErr result (λ e. ¬ (e ≡ F.memory)) }
{
    match value {
        None => Ok(&[]),
        Some(Value::Array(items)) => {
            if !are_tables(items) {
                return Err(F::not_a_list(section));
            }
            if !are_few(items, &section) {
                return Err(F::too_many(section));
            }
            Ok(items)
        }
        Some(_) => Err(F::not_a_list(section)),
    }
}

/// Returns the tables of a section in the document `table`; none if the section is absent. Refuses a section that isn't an array of tables
/// or exceeds its limit. Allocates no memory.
///
/// `command_items` of `bridge_config`, `read_arrays` of `net_file` and 2 more call it.
pub fn section_items<'a, F: ReaderFault>(
    section: F::Section,
    table: &'a Table,
) -> Result<&'a [Value], F>
    ensures reads { spec.GivesAs F.is_memory (λ x. items_view x.now) result (spec.items_of F.not_a_list F.too_many
        F.Section.limit F.Section.spelling section (table_view table.now)) }
    ensures few { IfOk result (λ x. length x.now ≤ F.Section.limit section) }
    ensures tables { IfOk result (λ x. spec.are_tables (items_view x.now) ≡ true) }
    ensures takes_no_memory { IfErr result (λ e. ¬ (e ≡ F.memory)) }
{
    let name = section.spell();
    array_items(section, get_value(table, name))
}
