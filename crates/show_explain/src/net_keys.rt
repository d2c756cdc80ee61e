//! Explains values of keys in network files and traffic files, and the allowed values.

use bridge_schema::NumberRange;
use bridge_text::{
    Document, Instance, Said, fill_with_word, put_value_sentence, section_instances, table_value,
    unsigned_number,
};
use net_file::{
    FIRST_PORT, LAST_PORT, LONGEST_NAME, MAX_HOPS, NetAllowed, NetField, NetSection, OCTETS,
    TALKER_KEYS, allowed_value,
};
use toml::Value;

/// Returns instance `index`, counted from 1, of a section of a network or traffic file. `put_net_place`, `put_unknown_bridge` and 3 more
/// call it.
pub(crate) fn net_instance<'a>(
    document: Document<'a>,
    section: NetSection,
    index: u32,
) -> Instance<'a> {
    Instance {
        document,
        section: section.name(),
        index,
    }
}

/// Writes the position of instance `index`, from 1, of a section, or of its key `key`, and the instance's name, ends or filter.
/// Explanations in `network` begin with this position.
///
/// `put_net_fault`, `put_stray_key` and 3 more call it.
pub(crate) fn put_net_place(
    said: &mut Said,
    document: Document<'_>,
    section: NetSection,
    index: u32,
    key: Option<&str>,
) {
    let instance = net_instance(document, section, index);
    match section {
        NetSection::Link => {
            instance.put_place(said, &[NetField::One.key(), NetField::Other.key()], key)
        }
        NetSection::Traffic => instance.put_place(said, &[NetField::Filter.key()], key),
        _ => instance.put_place(said, &[NetField::Name.key()], key),
    }
}

/// Returns the name of a network's first bridge, for examples in explanations. Returns `NAME` if it has none. `put_allowed` and `put_hop`
/// call it.
pub(crate) fn example_bridge<'a>(document: Document<'a>) -> &'a str {
    let bridges = section_instances(document.table, NetSection::Bridge.name());
    let first = match bridges.first() {
        Some(first) => first.as_table(),
        None => None,
    };
    match table_value(first, NetField::Name.key()) {
        Some(Value::String(name)) => name.as_str(),
        _ => "NAME",
    }
}

/// Writes the value of an instance's key and the allowed values. If a talker's key is missing, writes which keys it needs.
/// `put_key_explanation` calls it.
pub(crate) fn put_key_value(
    said: &mut Said,
    instance: Instance<'_>,
    section: NetSection,
    field: NetField,
) {
    let value = instance.value(field.key());
    put_value_sentence(said, "`{a}` is ", 0, field.key(), value, "missing");
    put_allowed(said, instance, field);
    if value.is_none() && matches!(section, NetSection::Stream) && is_of_talker(field) {
        put_talker_keys(said);
    }
    if value.is_none() && matches!(section, NetSection::Traffic) && is_of_phases(field) {
        said.put(
            "A row has `period`, `from` and `to`. The row of a group's filter has `burst` and `rate`, or `frames` and `period`.\n",
        );
    }
}

/// Returns whether a key is `period`, `from` or `to`. Only a row of periodic traffic needs all three. `put_key_value` calls it.
fn is_of_phases(field: NetField) -> bool {
    matches!(field, NetField::Period | NetField::From | NetField::To)
}

/// Returns whether a key is a key of a stream's talker. `put_key_value` calls it.
fn is_of_talker(field: NetField) -> bool {
    for key in &TALKER_KEYS {
        if *key == field {
            return true;
        }
    }
    false
}

/// Writes that a stream has all keys of a talker or none of them, because one is missing. `put_key_value` calls it.
fn put_talker_keys(said: &mut Said) {
    let mut template = "A stream has all of `{a}`";
    for key in &TALKER_KEYS {
        fill_with_word(said, template, 0, key.key());
        template = ", `{a}`";
    }
    said.put(", or none of these keys.\n");
}

/// Writes the allowed values for key `field` of an instance. Numbers also depend on other keys of the instance. `put_key_value` calls it.
fn put_allowed(said: &mut Said, instance: Instance<'_>, field: NetField) {
    let example = example_bridge(instance.document);
    match allowed_value(field) {
        NetAllowed::Tables => {}
        NetAllowed::Name => fill_with_word(
            said,
            "It must be 1 to {0} letters, digits, `-` and `_`, in quotation marks.\n",
            LONGEST_NAME as u64,
            "",
        ),
        NetAllowed::Path => said.put(
            "It must be the path of the bridge's plan, in quotation marks, for example \"plan.toml\".\n",
        ),
        NetAllowed::Port => said.put_template(
            "It must be a bridge's name, a dot and a port's number from {0} to {1}, for example \"{a}.{0}\".\n",
            &[u64::from(FIRST_PORT), u64::from(LAST_PORT)],
            &[example],
        ),
        NetAllowed::Hops => fill_with_word(
            said,
            "It must be an array of 1 to {0} hops, each a bridge's name, a dot and a filter's number, for example [\"{a}.10\"].\n",
            MAX_HOPS as u64,
            example,
        ),
        NetAllowed::Number(range) => said.put_template(
            "It must be the number of a protected or grouped filter of the plan, from {0} to {1}.\n",
            &[range.low, range.high],
            &[],
        ),
        NetAllowed::Time(range) => put_range(said, instance, field, range, "ns"),
        NetAllowed::Octets(range) => put_range(said, instance, field, range, "octets"),
        NetAllowed::Burst(range) => put_range(said, instance, field, range, "metered octets"),
        NetAllowed::Rate(range) => put_range(said, instance, field, range, "bit/s"),
        NetAllowed::Frames(range) => put_range(said, instance, field, range, "frames"),
    }
}

/// Returns the value of an instance's numeric key, or `None` if the value is missing or not allowed. `lower_limit` and `upper_limit` then
/// ignore the key.
fn allowed_number(instance: Instance<'_>, field: NetField) -> Option<u64> {
    let number = unsigned_number(instance.value(field.key()))?;
    let (NetAllowed::Number(range)
    | NetAllowed::Time(range)
    | NetAllowed::Octets(range)
    | NetAllowed::Burst(range)) = allowed_value(field) else {
        return None;
    };
    if range.low <= number && number <= range.high {
        Some(number)
    } else {
        None
    }
}

/// Returns the key that limits `field` from below, its value, and the least value of `field`. Returns `None` if no key limits `field`, or
/// if the key's value isn't allowed. `put_range` calls it.
fn lower_limit(instance: Instance<'_>, field: NetField) -> Option<(NetField, u64, u64)> {
    let (key, more) = match field {
        NetField::Period => (NetField::From, 1),
        NetField::To => (NetField::From, 0),
        NetField::Longest => (NetField::Least, 0),
        _ => return None,
    };
    let value = allowed_number(instance, key)?;
    Some((key, value, value.saturating_add(more)))
}

/// Returns the key that limits `field` from above (period or burst), its value, and the greatest value of `field`.
///
/// Returns `None` if no key limits `field`, or if the key's value is missing or doesn't limit.
///
/// `put_range` calls it.
fn upper_limit(instance: Instance<'_>, field: NetField) -> Option<(NetField, u64, u64)> {
    let (key, less) = match field {
        NetField::From | NetField::To => (NetField::Period, 1),
        NetField::Longest => (NetField::Burst, 4),
        _ => return None,
    };
    let value = allowed_number(instance, key)?;
    let most = value.saturating_sub(less);
    if matches!(field, NetField::Longest) && OCTETS.high <= most {
        return None;
    }
    Some((key, value, most))
}

/// Writes the range of the allowed numbers of key `field`, in `unit`, and the other keys that limit it. Says if no number fits.
/// `put_allowed` calls it.
fn put_range(
    said: &mut Said,
    instance: Instance<'_>,
    field: NetField,
    range: NumberRange,
    unit: &str,
) {
    let lower = lower_limit(instance, field);
    let upper = upper_limit(instance, field);
    let low = match lower {
        Some((_, _, low)) => low,
        None => range.low,
    };
    let high = match upper {
        Some((_, _, high)) => high,
        None => range.high,
    };
    if high < low {
        return said.put_template(
            "No length fits: `burst` must be at least {0}, which is `least` and a frame check sequence of 4 octets.\n",
            &[low.saturating_add(4)],
            &[],
        );
    }
    said.put_template(
        "It must be a whole number from {0} to {1} ({a})",
        &[low, high],
        &[unit],
    );
    let mut template = ", because `{a}` is {0}";
    if let Some((key, value, _)) = lower {
        fill_with_word(said, template, value, key.key());
        template = " and `{a}` is {0}";
    }
    if let Some((key, value, _)) = upper {
        fill_with_word(said, template, value, key.key());
    }
    said.put(".\n");
}
