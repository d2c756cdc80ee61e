//! Explains the names of ports and filters in a network's links and hops.

use crate::net_keys::{example_bridge, net_instance};
use bridge_schema::NUMBER;
use bridge_text::{
    BRIDGES, Document, Said, fill_with_word, put_nearest, put_text, put_value_sentence,
    section_instances, table_value, value_items,
};
use net_file::{MAX_HOPS, NetField, NetKeyLocation, NetSection, is_numbered_name};
use std::alloc::Global;
use toml::Value;

/// Returns whether a value is a text, which each hop of a stream must be. `put_hops` calls it.
fn is_text(value: &Value) -> bool {
    matches!(value, Value::String(_))
}

/// Returns whether a value is a text that ends in a dot and a filter number, such as `left.10`. `put_hops` calls it.
fn is_hop(value: &Value) -> bool {
    match value {
        Value::String(text) => is_numbered_name(text.as_str(), 0, u32::MAX),
        _ => false,
    }
}

/// Writes why an array of hops is refused: an item that isn't a text, its length, or an item that names no filter. `put_key_explanation`
/// calls it.
pub(crate) fn put_hops(said: &mut Said, document: Document<'_>, items: &[Value]) {
    let are_texts = items.iter().all(|item| is_text(item));
    let count = items.len();
    if are_texts && (count == 0 || count > MAX_HOPS) {
        return said.put_template(
            "`{a}` has {0} items.\nA stream has 1 to {1} hops.\n",
            &[count as u64, MAX_HOPS as u64],
            &[NetField::Hops.key()],
        );
    }
    let mut number = 0u64;
    for item in items {
        number = number.saturating_add(1);
        if !is_text(item) || are_texts && !is_hop(item) {
            return put_hop(said, document, number, item);
        }
    }
}

/// Writes item `number`, from 1, of an array of hops, which isn't a hop, and the form of a hop. `put_hops` calls it.
fn put_hop(said: &mut Said, document: Document<'_>, number: u64, item: &Value) {
    let key = NetField::Hops.key();
    put_value_sentence(said, "Item {0} of `{a}` is ", number, key, Some(item), "");
    said.put_template(
        "It must be a bridge's name, a dot and a filter's number from {0} to {1}, for example \"{a}.10\".\n",
        &[NUMBER.low, NUMBER.high],
        &[example_bridge(document)],
    );
}

/// Returns the names of a network's bridges. If memory runs out, the explanation is discarded. `put_unknown_bridge` calls it.
fn bridge_names<'a>(alloc: Global, said: &mut Said, document: Document<'a>) -> Vec<&'a str> {
    let mut names = Vec::new(alloc);
    for bridge in section_instances(document.table, NetSection::Bridge.name()) {
        if let Some(Value::String(name)) = table_value(bridge.as_table(), NetField::Name.key()) {
            if names.push(name.as_str()).is_err() {
                said.discard();
            }
        }
    }
    names
}

/// Returns the name of a bridge in a text: the part before its first dot. `put_unknown` and `put_unknown_bridge` call it.
fn bridge_part(text: &str) -> &str {
    match text.split_once('.') {
        Some((name, _)) => name,
        None => text,
    }
}

/// Writes which bridge an instance's key names although the network lacks it, the nearest bridge, and what to do. `put_net_fault` calls it.
pub(crate) fn put_unknown_bridge(
    alloc: Global,
    said: &mut Said,
    document: Document<'_>,
    place: NetKeyLocation,
) {
    let key = place.field.key();
    let names = bridge_names(alloc, said, document);
    let value = net_instance(document, place.section, place.index).value(key);
    if let Some(Value::String(text)) = value {
        fill_with_word(said, "`{a}` is ", 0, key);
        return put_unknown(alloc, said, text.as_str(), &names);
    }
    let mut number = 0u64;
    for item in value_items(value) {
        number = number.saturating_add(1);
        if let Value::String(text) = item {
            let text = text.as_str();
            if !names.contains(&bridge_part(text)) {
                fill_with_word(said, "Item {0} of `{a}` is ", number, key);
                return put_unknown(alloc, said, text, &names);
            }
        }
    }
}

/// Writes that the file has no bridge with the name in `text`, then the nearest of `names`, and a remedy. `put_unknown_bridge` calls it.
fn put_unknown(alloc: Global, said: &mut Said, text: &str, names: &[&str]) {
    let name = bridge_part(text);
    put_text(said, text);
    said.put(", but the file has no bridge ");
    put_text(said, name);
    said.put(".\n");
    put_nearest(alloc, said, name, names, BRIDGES);
    said.put("Correct the name, or add a `[[bridge]]` with this name.\n");
}
