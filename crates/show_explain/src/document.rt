//! The text of a plan or of commands, and the instances of its sections. Explanations of plan faults look up positions and values here.

use bridge_schema::{Field, Section, identifying_key};
use bridge_text::{Document, Instance, Said};
use toml::{Table, Value};

/// Text of a plan or of commands, with its document and the document of the plan.
#[derive(Clone, Copy)]
pub(crate) struct SourceText<'a> {
    /// Text of the file.
    pub text: &'a str,
    /// Document of the text.
    pub document: &'a Table,
    /// Document of the plan: `document` itself, or for commands the document of their plan.
    pub plan: &'a Table,
    /// Whether the text has commands.
    pub is_commands: bool,
}

impl<'a> SourceText<'a> {
    /// Returns the text with its document, which `bridge_text` needs for positions.
    pub(crate) fn document(self) -> Document<'a> {
        Document {
            text: self.text,
            table: self.document,
        }
    }

    /// Returns instance `index`, from 1, of a section, in the form in which `bridge_text` finds its position.
    pub(crate) fn instance(self, section: Section, index: u32) -> Instance<'a> {
        Instance {
            document: self.document(),
            section: section.name(),
            index,
        }
    }
}

/// Returns the instances of a section of a document; an empty list if the section is missing. Explanations of plan faults call it.
pub(crate) fn section_items<'a>(document: &'a Table, section: Section) -> &'a [Value] {
    bridge_text::section_instances(document, section.name())
}

/// Returns the table of instance `index`, from 1, of a section. Returns `None` if it is missing or isn't a table. Explanations of plan
/// faults call it.
pub(crate) fn instance_table<'a>(
    document: &'a Table,
    section: Section,
    index: u32,
) -> Option<&'a Table> {
    bridge_text::instance_table(document, section.name(), index)
}

/// Returns the value of a key of an instance, or `None` if the key or the table is missing. Explanations of plan faults call it.
pub(crate) fn key_value<'a>(table: Option<&'a Table>, key: Field) -> Option<&'a Value> {
    bridge_text::table_value(table, key.key())
}

/// Writes the position of instance `index`, from 1, of a section, or of its key `key`, and the instance's number or address. Explanations
/// of plan faults begin with this position.
///
/// `put_refused_list`, `put_misplaced_key` and 3 more call it.
pub(crate) fn put_instance_position(
    said: &mut Said,
    source: SourceText<'_>,
    section: Section,
    index: u32,
    key: Option<&str>,
) {
    let instance = source.instance(section, index);
    let own = identifying_key(section).key();
    match section {
        Section::Static => instance.put_place(said, &[own, Field::Address.key()], key),
        _ => instance.put_place(said, &[own], key),
    }
}
