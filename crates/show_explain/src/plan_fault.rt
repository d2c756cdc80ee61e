//! Writes the explanation of each fault of a plan or of commands, by position, value and allowed values.

use crate::document::{
    SourceText, instance_table, key_value, put_instance_position, section_items,
};
use crate::entries::{put_entry_flaws, put_refused_list};
use crate::misplaced_keys::{find_key, put_misplaced_key, put_top_key};
use bridge_config::max_instances;
use bridge_cycle::LONGEST_CYCLE;
use bridge_schema::{
    AllowedValue, Field, KeyLocation, KeyRule, NumberRange, PlanFault, Section, entry_keys,
    identifying_key, section_keys,
};
use bridge_text::{
    Said, fill_with_word, find_duplicate, first_items, put_no_list, put_too_many,
    put_value_sentence, unsigned_number,
};
use std::alloc::Global;
use toml::{Table, Value};

/// Largest number of instance numbers in an explanation.
const MAX_NUMBERS: usize = 16;

/// Writes the explanation of a fault of a plan or of commands, to follow the path. Calls the function for its kind. `put_document_fault`
/// calls it.
pub(crate) fn put_fault(alloc: Global, said: &mut Said, source: SourceText<'_>, fault: &PlanFault) {
    match *fault {
        PlanFault::UnknownKey(Section::Top, _) => put_top_key(alloc, said, source),
        PlanFault::UnknownKey(section, index) => put_misplaced_key(
            alloc, said, source, section, index,
        ),
        PlanFault::NotAList(section) => put_no_list(said, source.document(), section.name()),
        PlanFault::Missing(place)
        | PlanFault::WrongKind(place)
        | PlanFault::OutOfRange(place)
        | PlanFault::Unresolved(place) => put_key_fault(said, source, place),
        PlanFault::Duplicate(section, index) => put_duplicate(said, source, section, index),
        PlanFault::TooMany(section) => put_too_many(
            said,
            source.document(),
            section.name(),
            max_instances(section),
        ),
        PlanFault::BadList(section, index, fault) => put_refused_list(
            alloc, said, source, section, index, fault,
        ),
        PlanFault::NoPorts => said.put(
            ": the plan has no port. Add a `[[port]]` with its `number` and `mbps`.\n",
        ),
        PlanFault::Syntax | PlanFault::TooLong | PlanFault::NoMemory => said.put(
            ": the text can't be read.\n",
        ),
    }
}

/// Writes the position and value of an instance's key with the allowed values. For a list of tables, writes its first wrong entry.
/// `put_fault` calls it.
fn put_key_fault(said: &mut Said, source: SourceText<'_>, place: KeyLocation) {
    let key = place.field.key();
    put_instance_position(said, source, place.section, place.index, Some(key));
    let table = instance_table(source.document, place.section, place.index);
    let value = key_value(table, place.field);
    let allowed = match (find_key(section_keys(place.section), key), value) {
        (Some(KeyRule(_, AllowedValue::Tables, _)), Some(Value::Array(items))) => {
            return put_entry_flaws(said, entry_keys(place.section), key, items);
        }
        (Some(KeyRule(_, AllowedValue::Tables, _)), None) | (None, _) => None,
        (Some(row), _) => Some(allowed_value(source, place, table, row.1)),
    };
    put_value_sentence(said, "`{a}` is ", 0, key, value, "missing");
    if let Some(allowed) = allowed {
        put_allowed_instances(said, source, allowed);
    }
    if let (Section::Command, Field::At) = (place.section, place.field) {
        put_falling_times(said, source, place.index, unsigned_number(value));
    }
}

/// Returns the section whose instance a command names, by the flag `value` that it clears. Returns `None` for any other value.
/// `allowed_value` calls it.
fn cleared_section(value: Option<&Value>) -> Option<Section> {
    let Some(Value::String(flag)) = value else {
        return None;
    };
    match flag.as_str() {
        "blocked" => Some(Section::Filter),
        "rx" | "octets" => Some(Section::Gate),
        "red" => Some(Section::Meter),
        _ => None,
    }
}

/// Returns the time in ns of the command before command `index`, from 1, or 0 if this command or its time is missing. `allowed_value` and
/// `put_falling_times` call it.
fn previous_command_time(source: SourceText<'_>, index: u32) -> u64 {
    let before = instance_table(source.document, Section::Command, index.saturating_sub(1));
    unsigned_number(key_value(before, Field::At)).unwrap_or(0)
}

/// Returns the allowed values of a key. A command's time isn't before the previous one, and its number depends on its flag. `put_key_fault`
/// calls it.
fn allowed_value(
    source: SourceText<'_>,
    place: KeyLocation,
    table: Option<&Table>,
    allowed: AllowedValue,
) -> AllowedValue {
    match (place.section, place.field, allowed) {
        (Section::Command, Field::At, AllowedValue::Between(range)) => AllowedValue::Between(
            NumberRange {
                low: previous_command_time(source, place.index),
                high: range.high,
            },
        ),
        (Section::Command, Field::Number, _) => match cleared_section(key_value(
            table,
            Field::Clear,
        )) {
            Some(section) => AllowedValue::InstanceNumber(section),
            None => allowed,
        },
        _ => allowed,
    }
}

/// Writes the times in ns of command `index` and of the command before it, if they aren't in order. Writes nothing without a time `at`.
/// `put_key_fault` calls it.
fn put_falling_times(said: &mut Said, source: SourceText<'_>, index: u32, at: Option<u64>) {
    let before = previous_command_time(source, index);
    let Some(at) = at else {
        return;
    };
    if at < before {
        let index = u64::from(index);
        said.put_template(
            "Commands must be in order of time, but `command` {0} is at {1} ns and `command` {2} at {3} ns.\n",
            &[index.saturating_sub(1), before, index, at],
            &[],
        );
    }
}

/// Returns the sentence for allowed values. Marks: numbers from `{0}` to `{1}`, lengths up to `{2}`, the key `{a}` of a `{b}`.
/// `put_allowed` calls it.
fn allowed_sentence(allowed: AllowedValue) -> &'static str {
    match allowed {
        AllowedValue::Between(_) => "It must be a whole number from {0} to {1}.\n",
        AllowedValue::Set(_) => "It must be an array of whole numbers from {0} to {1}.\n",
        AllowedValue::Eight(_) => "It must be an array of eight whole numbers from {0} to {1}.\n",
        AllowedValue::InstanceNumber(_) => "It must be the `{a}` of a `{b}` of the plan.\n",
        AllowedValue::Ports => "It must be an array of port numbers of the plan.\n",
        AllowedValue::Tables => "It must be an array of tables.\n",
        AllowedValue::Length => "It must be a whole number from 1 to {2} (ns).\n",
        AllowedValue::Mbps => "It must be 10, 100, 1000, 2500 or 10000 (Mb/s).\n",
        AllowedValue::Switch => "It must be true or false.\n",
        AllowedValue::Address =>
            "It must be six pairs of hexadecimal digits joined by hyphens, for example \"91-E0-F0-00-FE-10\".\n",
        AllowedValue::Kind => "It must be \"null\" or \"source\".\n",
        AllowedValue::Tag => "It must be \"tagged\", \"priority\" or \"all\".\n",
        AllowedValue::State => "It must be \"open\" or \"closed\".\n",
        AllowedValue::Colour => "It must be \"blind\" or \"aware\".\n",
        AllowedValue::Clear => "It must be \"blocked\", \"rx\", \"octets\" or \"red\".\n",
    }
}

/// Writes the sentence for the allowed values of a key. `put_flaw` and `put_allowed_instances` call it.
pub(crate) fn put_allowed(said: &mut Said, allowed: AllowedValue) {
    let (low, high) = match allowed {
        AllowedValue::Between(range) | AllowedValue::Set(range) | AllowedValue::Eight(range) => (
            range.low, range.high,
        ),
        _ => (0, 0),
    };
    let section = referenced_section(allowed).unwrap_or(Section::Top);
    let words = [identifying_key(section).key(), section.name()];
    said.put_template(
        allowed_sentence(allowed),
        &[low, high, LONGEST_CYCLE],
        &words,
    );
}

/// Returns the section to whose instances a value must refer, or `None` if the value needn't refer to an instance. `put_allowed` and
/// `put_allowed_instances` call it.
fn referenced_section(allowed: AllowedValue) -> Option<Section> {
    match allowed {
        AllowedValue::InstanceNumber(section) => Some(section),
        AllowedValue::Ports => Some(Section::Port),
        _ => None,
    }
}

/// Writes the numbers (key `own`) of a section's first sixteen instances. `put_allowed_instances` calls it.
fn put_instance_numbers(said: &mut Said, items: &[Value], own: Field) {
    let mut template = "{0}";
    for item in first_items(items, MAX_NUMBERS) {
        if let Some(number) = unsigned_number(key_value(item.as_table(), own)) {
            fill_with_word(said, template, number, "");
            template = ", {0}";
        }
    }
    if items.len() > MAX_NUMBERS {
        said.put(", ..");
    }
}

/// Writes the allowed values; if they are numbers of instances, also the numbers that the plan has. `put_key_fault` calls it.
fn put_allowed_instances(said: &mut Said, source: SourceText<'_>, allowed: AllowedValue) {
    put_allowed(said, allowed);
    let Some(section) = referenced_section(allowed) else {
        return;
    };
    let items = section_items(source.plan, section);
    if items.is_empty() {
        return fill_with_word(said, "The plan has no `{a}`.\n", 0, section.name());
    }
    let template = if items.len() == 1 {
        "The plan has one `{a}` table: "
    } else {
        "The plan has {0} `{a}` tables: "
    };
    fill_with_word(said, template, items.len() as u64, section.name());
    put_instance_numbers(said, items, identifying_key(section));
    said.put(".\n");
}

/// Writes which earlier instance of the section has the number, VLAN or address of instance `index`. `put_fault` calls it.
fn put_duplicate(said: &mut Said, source: SourceText<'_>, section: Section, index: u32) {
    let (own, address) = (identifying_key(section).key(), Field::Address.key());
    let table = instance_table(source.document, section, index);
    let items = section_items(source.document, section);
    let (twin, keys) = match section {
        Section::Static => (
            find_duplicate(items, table, &[own, address], false),
            "`vid` and `address`",
        ),
        Section::Vlan => (find_duplicate(items, table, &[own], false), "`vid`"),
        _ => (find_duplicate(items, table, &[own], false), "`number`"),
    };
    put_instance_position(said, source, section, index, None);
    put_twin(said, section.name(), twin, keys);
}

/// Writes that instance `twin`, from 1, of the section has equal values of `keys`, and that they must differ. `put_duplicate` calls it.
pub(crate) fn put_twin(said: &mut Said, section: &str, twin: u64, keys: &str) {
    said.put_template(
        "`{a}` {0} of the file has the same {b}. Each `{a}` needs a {b} of its own.\n",
        &[twin],
        &[section, keys],
    );
}
