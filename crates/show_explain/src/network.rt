//! Explains why a network file or a traffic file is refused, for `--explain`.
ghost use Rattle.std.specs.Prelude.{IfOk, string_bytes};
ghost use Rattle.bridge_text.specs.PathPrefix.{StartsWithName};

use crate::net_keys::{net_instance, put_key_value, put_net_place};
use crate::net_names::{put_hops, put_unknown_bridge};
use crate::plan_fault::put_twin;
use crate::reading::read_document;
use bridge_limits::NoMemory;
use bridge_schema::get_value;
use bridge_text::{
    Document, FileKind, KEYS, Said, TextBuilder, fill_with_word, find_duplicate, finish_with_path,
    put_key, put_nearest, put_no_list, put_other_kind, put_stray_section, put_too_many,
    section_instances,
};
use net_file::{
    COUNT_ROW_KEYS, LIMIT_KEYS, MOST_OCTETS, NetFault, NetField, NetKeyLocation, NetSection,
    RATE_ROW_KEYS, TRAFFIC_KEYS, max_instances, section_fields,
};
use std::alloc::Global;
use toml::{Table, Value};

/// Explains why a network file is refused: position of the fault, value there, allowed values, and what to change. The explanation begins
/// with `path`. `explain_refused_network` of `app_networks` calls it.
pub fn explain_network_text(
    alloc: Global,
    path: &str,
    text: &[u8],
    fault: &NetFault,
) -> Result<String, NoMemory>
    ensures { IfOk result (λ said. StartsWithName path.now (string_bytes said)) }
{
    finish_with_path(
        alloc,
        path,
        file_explanation(alloc, path, text, FileKind::Network, fault),
    )
}

/// Explains why a traffic file is refused: position of the fault, value there, allowed values, and what to change. The explanation begins
/// with `path`. `explain_refused_traffic` of `app_networks` calls it.
pub fn explain_traffic_text(
    alloc: Global,
    path: &str,
    text: &[u8],
    fault: &NetFault,
) -> Result<String, NoMemory>
    ensures { IfOk result (λ said. StartsWithName path.now (string_bytes said)) }
{
    finish_with_path(
        alloc,
        path,
        file_explanation(alloc, path, text, FileKind::Traffic, fault),
    )
}

/// Returns the explanation of a file's fault, without the path that precedes it. `explain_network_text` and `explain_traffic_text` call it.
fn file_explanation(
    alloc: Global,
    path: &str,
    octets: &[u8],
    kind: FileKind,
    fault: &NetFault,
) -> Said {
    let mut said = TextBuilder::new(alloc);
    put_other_kind(&mut said, path, octets, kind);
    match fault {
        NetFault::TooLong => fill_with_word(
            &mut said,
            ": the file has more than {0} octets. Remove comments or tables.\n",
            MOST_OCTETS as u64,
            "",
        ),
        NetFault::NoMemory => said.put(": there is not enough memory to read it.\n"),
        _ => {
            if let Some((text, table)) = read_document(alloc, &mut said, octets) {
                let document = Document {
                    text,
                    table: &table,
                };
                put_net_fault(alloc, &mut said, document, kind, fault);
            }
        }
    }
    said
}

/// Writes the explanation of a network or traffic file's fault, to follow the path. Calls the function for its kind. `file_explanation`
/// calls it.
fn put_net_fault(
    alloc: Global,
    said: &mut Said,
    document: Document<'_>,
    kind: FileKind,
    fault: &NetFault,
) {
    match *fault {
        NetFault::UnknownKey(NetSection::Top, _) => put_top_key(alloc, said, document, kind),
        NetFault::UnknownKey(section, index) => {
            put_stray_key(alloc, said, document, section, index)
        }
        NetFault::NotAList(section) => put_no_list(said, document, section.name()),
        NetFault::Missing(
            NetKeyLocation {
                section: NetSection::Top,
                ..
            },
        ) => said.put(": the file has no bridge. Add a `[[bridge]]` with its `name` and `plan`.\n"),
        NetFault::Missing(place) | NetFault::WrongKind(place) | NetFault::OutOfRange(place) => {
            put_key_explanation(said, document, place)
        }
        NetFault::Duplicate(section, index) => put_duplicate(said, document, section, index),
        NetFault::Unresolved(place) => {
            put_net_place(
                said,
                document,
                place.section,
                place.index,
                Some(place.field.key()),
            );
            put_unknown_bridge(alloc, said, document, place);
        }
        NetFault::TooMany(section) => {
            put_too_many(said, document, section.name(), max_instances(section));
            said.put("Split the file into several files.\n");
        }
        NetFault::Syntax | NetFault::TooLong | NetFault::NoMemory => said.put(
            ": the text can't be read.\n",
        ),
    }
}

/// Writes which key at the top level is unknown, and the nearest section of this kind of file. `put_net_fault` calls it.
fn put_top_key(alloc: Global, said: &mut Said, document: Document<'_>, kind: FileKind) {
    let (bridge, link, stream) = (
        NetSection::Bridge.name(),
        NetSection::Link.name(),
        NetSection::Stream.name(),
    );
    match kind {
        FileKind::Traffic => put_stray_section(
            alloc,
            said,
            document,
            &[NetSection::Traffic.name()],
        ),
        _ => put_stray_section(alloc, said, document, &[bridge, link, stream]),
    }
}

/// Returns whether a word is the spelling of one of these keys. `excluded_key` and `put_stray_key` call it.
fn is_known(keys: &[NetField], word: &str) -> bool {
    for key in keys {
        if key.key() == word {
            return true;
        }
    }
    false
}

/// Writes which key of instance `index` is unknown, and the nearest key. If all keys are known, writes which key another one excludes.
/// `put_net_fault` calls it.
fn put_stray_key(
    alloc: Global,
    said: &mut Said,
    document: Document<'_>,
    section: NetSection,
    index: u32,
) {
    let keys = section_fields(section);
    let Some(table) = net_instance(document, section, index).table() else {
        return put_net_place(said, document, section, index, None);
    };
    for (key, _) in table.iter() {
        let key = key.as_str();
        if !is_known(keys, key) {
            put_net_place(said, document, section, index, Some(key));
            put_key(said, key);
            fill_with_word(said, " isn't a key of `{a}`.\n", 0, section.name());
            return put_nearest_key(alloc, said, key, keys);
        }
    }
    put_excluded_key(said, document, section, index, table);
}

/// Writes which key of traffic row `index`, from 1, another key excludes. `put_stray_key` calls it if the row has only known keys.
fn put_excluded_key(
    said: &mut Said,
    document: Document<'_>,
    section: NetSection,
    index: u32,
    table: &Table,
) {
    let Some((key, other)) = excluded_key(table) else {
        return put_net_place(said, document, section, index, None);
    };
    put_net_place(said, document, section, index, Some(key.key()));
    put_key(said, key.key());
    fill_with_word(
        said,
        " can't be in the same table as `{a}`.\n",
        0,
        other.key(),
    );
}

/// Returns the first key of a traffic row that its limit (burst or frames) excludes, and the first key of this limit. Returns `None` if no
/// key is excluded. `put_excluded_key` calls it.
fn excluded_key(table: &Table) -> Option<(NetField, NetField)> {
    let limit = first_present(table, &LIMIT_KEYS)?;
    let allowed: &[NetField] = if let NetField::Frames = limit {
        &COUNT_ROW_KEYS
    } else {
        &RATE_ROW_KEYS
    };
    for key in &TRAFFIC_KEYS {
        if get_value(table, key.key()).is_some() && !is_known(allowed, key.key()) {
            return Some((*key, limit));
        }
    }
    None
}

/// Returns the first of these keys that a table has. `None` if the table has none of them. `excluded_key` calls it.
fn first_present(table: &Table, keys: &[NetField]) -> Option<NetField> {
    for key in keys {
        if get_value(table, key.key()).is_some() {
            return Some(*key);
        }
    }
    None
}

/// Writes the key in `keys` that is nearest to `word`, or all keys if no key is near. `put_stray_key` calls it.
fn put_nearest_key(alloc: Global, said: &mut Said, word: &str, keys: &[NetField]) {
    let (mut names, mut is_refused) = (Vec::new(alloc), false);
    for key in keys {
        is_refused |= names.push(key.key()).is_err();
    }
    if is_refused {
        said.discard();
    }
    put_nearest(alloc, said, word, &names, KEYS);
}

/// Writes the position and value of an instance's key with the allowed values. For an array of hops, writes its first wrong hop.
/// `put_net_fault` calls it.
fn put_key_explanation(said: &mut Said, document: Document<'_>, place: NetKeyLocation) {
    let key = place.field.key();
    put_net_place(said, document, place.section, place.index, Some(key));
    let instance = net_instance(document, place.section, place.index);
    match (place.field, instance.value(key)) {
        (NetField::Hops, Some(Value::Array(items))) => put_hops(said, document, items),
        _ => put_key_value(said, instance, place.section, place.field),
    }
}

/// Writes which earlier instance of the section has the name or filter of instance `index`. `put_net_fault` calls it.
fn put_duplicate(said: &mut Said, document: Document<'_>, section: NetSection, index: u32) {
    let key = match section {
        NetSection::Traffic => NetField::Filter.key(),
        _ => NetField::Name.key(),
    };
    put_net_place(said, document, section, index, Some(key));
    let table = net_instance(document, section, index).table();
    let twin = find_duplicate(
        section_instances(document.table, section.name()),
        table,
        &[key],
        true,
    );
    match section {
        NetSection::Traffic => fill_with_word(
            said,
            "`{a}` {0} of the file has the same filter. A filter has one talker: remove one of the two.\n",
            twin,
            section.name(),
        ),
        _ => put_twin(said, section.name(), twin, "`name`"),
    }
}
