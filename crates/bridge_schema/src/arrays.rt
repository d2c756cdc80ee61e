//! Reads arrays of numbers, such as ports, and tests arrays of tables.
ghost use Rattle.std.specs.Prelude.{◌≡◌, ◌≤◌, ◌<◌, ◌+◌, ◌-◌, ◌^◌, true, length, nat_eq, bit_or};
ghost use Rattle.toml.specs.View.{view, items_view};
ghost use Rattle.bridge_schema.specs.Readers as spec;

use crate::plan_fault::Flaw;
use crate::value_kinds::ValueKind;
use toml::Value;

/// Whether each item is an integer, of any size and sign. If not, an array is `WrongKind`. `numbers_flaw` and `KnownPorts::read` call it.
fn are_integers(items: &[Value]) -> bool
    ensures { result ≡ spec.are_integers (items_view items.now) }
{
    'items: for item in items {
        if !matches!(item, Value::Integer(_)) {
            return false;
        }
    }
    true
}

/// Whether each item is an integer from `low` to `high`. If not, an array is refused. `numbers_flaw` and `KnownPorts::read` call it.
fn are_in_range(items: &[Value], low: u64, high: u64) -> bool
    ensures { result ≡ spec.are_in_range low high (items_view items.now) }
{
    'items: for item in items {
        match item {
            Value::Integer(number) => {
                if *number < 0 || (*number as u64) < low || (*number as u64) > high {
                    return false;
                }
            }
            _ => return false,
        }
    }
    true
}

/// Whether each item of an array is a table. Only such an array is a section or a list. `array_items` and `read_list` call it.
pub fn are_tables(items: &[Value]) -> bool
    ensures tables { result ≡ spec.are_tables (items_view items.now) }
{
    'items: for item in items {
        if !matches!(item, Value::Table(_)) {
            return false;
        }
    }
    true
}

/// Returns why an array is refused; `None` if all items are integers from `low` to `high`. An item of a wrong kind is reported before an
/// integer out of range.
///
/// `NumberSet::read`, `Classes::read` and `Rooms::read` call it.
fn numbers_flaw(items: &[Value], low: u64, high: u64) -> Option<Flaw>
    ensures { result ≡ spec.numbers_flaw low high (items_view items.now) }
{
    if !are_integers(items) {
        Some(Flaw::WrongKind)
    } else if !are_in_range(items, low, high) {
        Some(Flaw::OutOfRange)
    } else {
        None
    }
}

/// Returns an item's integer, or 0 for any other item. Callers have tested that the item is an integer in range. `value_set`,
/// `read_classes` and `read_rooms` call it.
fn value_number(value: &Value) -> u64
    ensures { result ≡ spec.value_number (view value.now) }
{
    match value {
        Value::Integer(number) if *number >= 0 => *number as u64,
        _ => 0,
    }
}

/// Returns the set `bits` with bit `k` set to 1. `value_set` and `port_set` of `bridge_config` call it.
#[tactic(auto, using(crate::proofs::Sets::shifted))]
pub fn with_bit(bits: u16, k: u64) -> u16
    requires few { k < 16 }
    ensures bits { result ≡ bit_or bits (2 ^ k) }
{
    bits | 1 << k
}

/// Returns the numbers in `items` as a set: bit `n - low` is set if number `n` is among them. The caller has tested that each is from `low`
/// to `high`.
///
/// `NumberSet::read` and `KnownPorts::read` call it.
fn value_set(items: &[Value], low: u64, high: u64) -> u16
    requires order { low ≤ high }
    requires few { high < low + 16 }
    requires between { spec.are_in_range low high (items_view items.now) ≡ true }
    ensures set { result ≡ spec.add_to_set low 0 (spec.item_numbers (items_view items.now)) }
    ensures fits { result < 2 ^ (high - low + 1) }
{
    let mut bits: u16 = 0;
    'items: for item in items {
        let number = value_number(item);
        bits = with_bit(bits, number - low);
    }
    bits
}

/// Array of integers from `low` to `high` as a set: bit `n - low` is set if the array has `n`. At most 16 different numbers; repetitions
/// are ignored.
pub struct NumberSet {
    /// Least number that an item may have.
    pub low: u64,
    /// Greatest number that an item may have.
    pub high: u64,
    ghost order: { low ≤ high },
    ghost few: { high < low + 16 },
}

impl ValueKind for NumberSet {
    type Out = u16;

    ghost reading = { λ k. spec.number_set k.low k.high };

    ghost Fits = { λ k n. n < 2 ^ (k.high - k.low + 1) };

    #[tactic(auto, unfolding(crate::specs::Readers::number_array, crate::specs::Readers::number_set))]
    fn read(&self, value: &Value) -> Result<u16, Flaw> {
        match value {
            Value::Array(items) => match numbers_flaw(items, self.low, self.high) {
                Some(flaw) => Err(flaw),
                None => Ok(value_set(items, self.low, self.high)),
            },
            _ => Err(Flaw::WrongKind),
        }
    }
}

/// Array of numbers of ports that the plan has, as a set: bit n - 1 is set if the array has n. An array with any other integer is
/// `Unresolved`.
#[derive(Clone, Copy)]
pub struct KnownPorts {
    /// Ports of the plan: bit n - 1 is set if the plan has port n.
    pub all: u16,
}

impl ValueKind for KnownPorts {
    type Out = u16;

    ghost reading = { λ k. spec.known_ports k.all };

    ghost Fits = { λ k ports. spec.is_subset ports k.all ≡ true };

    #[tactic(auto, unfolding(crate::specs::Readers::known_ports))]
    fn read(&self, value: &Value) -> Result<u16, Flaw> {
        match value {
            Value::Array(items) => {
                if !are_integers(items) {
                    return Err(Flaw::WrongKind);
                }
                if !are_in_range(items, 1, 16) {
                    return Err(Flaw::Unresolved);
                }
                let ports = value_set(items, 1, 16);
                if ports & self.all == ports {
                    Ok(ports)
                } else {
                    Err(Flaw::Unresolved)
                }
            }
            _ => Err(Flaw::WrongKind),
        }
    }
}

/// Whether an array has eight items: one for each priority or class. If not, `Classes::read` and `Rooms::read` refuse the array.
#[tactic(auto, using(crate::proofs::Sets::count_of_view))]
fn has_eight(items: &[Value]) -> bool
    ensures numbers { result ≡ nat_eq (length (spec.item_numbers (items_view items.now))) 8 }
    ensures items { result ≡ true → length items.now ≡ 8 }
{
    items.len() == 8
}

/// Returns the class of each priority, from priority 0. The caller has tested that `items` are eight integers from 0 to 7. `Classes::read`
/// calls it.
fn read_classes(items: &[Value]) -> [u8; 8]
    requires eight { length items.now ≡ 8 }
    requires between { spec.are_in_range 0 7 (items_view items.now) ≡ true }
    ensures numbers { result ≡ spec.item_numbers (items_view items.now) }
    ensures fits { spec.are_numbers_in_range 0 7 result ≡ true }
{
    let mut out = [0; 8];
    'items: for (i, item) in items.iter().enumerate() {
        out[i] = value_number(item) as u8;
    }
    out
}

/// Returns the queue capacity of each class in frames, from class 0. The caller has tested that `items` are eight integers from 1 to 4,096.
/// `Rooms::read` calls it.
fn read_rooms(items: &[Value]) -> [u16; 8]
    requires eight { length items.now ≡ 8 }
    requires between { spec.are_in_range 1 4096 (items_view items.now) ≡ true }
    ensures numbers { result ≡ spec.item_numbers (items_view items.now) }
    ensures fits { spec.are_numbers_in_range 1 4096 result ≡ true }
{
    let mut out = [0; 8];
    'items: for (i, item) in items.iter().enumerate() {
        out[i] = value_number(item) as u16;
    }
    out
}

/// Eight numbers from 0 to 7: the class of each priority, from priority 0 (IEEE 802.1Q-2018, 8.6.6).
#[derive(Clone, Copy)]
pub struct Classes;

impl ValueKind for Classes {
    type Out = [u8; 8];

    ghost reading = { λ _. spec.eight_in_range 0 7 };

    ghost Fits = { λ _ classes. spec.are_numbers_in_range 0 7 classes ≡ true };

    #[tactic(auto, unfolding(crate::specs::Readers::number_array, crate::specs::Readers::eight_in_range))]
    fn read(&self, value: &Value) -> Result<[u8; 8], Flaw> {
        match value {
            Value::Array(items) => match numbers_flaw(items, 0, 7) {
                Some(flaw) => Err(flaw),
                None => {
                    if has_eight(items) {
                        Ok(read_classes(items))
                    } else {
                        Err(Flaw::OutOfRange)
                    }
                }
            },
            _ => Err(Flaw::WrongKind),
        }
    }
}

/// Eight numbers from 1 to 4,096: the queue capacity of each class in frames, from class 0.
#[derive(Clone, Copy)]
pub struct Rooms;

impl ValueKind for Rooms {
    type Out = [u16; 8];

    ghost reading = { λ _. spec.eight_in_range 1 4096 };

    ghost Fits = { λ _ rooms. spec.are_numbers_in_range 1 4096 rooms ≡ true };

    #[tactic(auto, unfolding(crate::specs::Readers::number_array, crate::specs::Readers::eight_in_range))]
    fn read(&self, value: &Value) -> Result<[u16; 8], Flaw> {
        match value {
            Value::Array(items) => match numbers_flaw(items, 1, 4096) {
                Some(flaw) => Err(flaw),
                None => {
                    if has_eight(items) {
                        Ok(read_rooms(items))
                    } else {
                        Err(Flaw::OutOfRange)
                    }
                }
            },
            _ => Err(Flaw::WrongKind),
        }
    }
}
