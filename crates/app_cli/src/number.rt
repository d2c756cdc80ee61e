//! Reads numbers and lists of numbers from arguments.
ghost use Rattle.std.specs.Prelude.{◌<◌, ◌^◌, MatchOption};
ghost use Rattle.std.specs.Option.{SomeIff};
ghost use Rattle.std.specs.Str.Parse.{IsNumeral, digits_value};
ghost use Rattle.bridge_frame.specs.declared.Speed.{Speed};
ghost use Rattle.app_cli.specs.Numbers.{IsMoment, IsRoom, IsSpeed};

use bridge_frame::Speed;
use bridge_limits::{END_OF_TIME, NoMemory};
use bridge_port::LARGEST_ROOM;
use std::alloc::Global;

/// Reads a number below 2^32 from one or more decimal digits. Returns `None` for a sign, other characters, or a larger number.
/// `parse_room`, `parse_speed` and 2 more call it.
fn parse_number(word: &str) -> Option<u32>
    ensures { SomeIff result (IsNumeral 10 word.now × (digits_value 10 word.now < 2 ^ 32)) (digits_value 10 word.now) }
{
    if word.as_bytes().first() == Some(&b'+') {
        return None;
    }
    match word.parse::<u32>() {
        Ok(number) => Some(number),
        Err(_) => None,
    }
}

/// Reads a queue capacity from decimal digits: 1 to 4,096 frames. Returns `None` for other arguments. `wire_job` calls it.
pub fn parse_room(word: &str) -> Option<u16>
    ensures { SomeIff result (IsRoom word.now) (digits_value 10 word.now) }
{
    let number = parse_number(word)?;
    if number == 0 {
        return None;
    }
    if number > LARGEST_ROOM as u32 {
        return None;
    }
    Some(number as u16)
}

/// Reads a link speed from decimal digits: 10, 100, 1000, 2500 or 10000 Mb/s. Returns `None` for other arguments. `wire_job` calls it.
pub fn parse_speed(word: &str) -> Option<Speed>
    ensures { MatchOption result ((speed : Speed) → ¬ IsSpeed word.now speed) (IsSpeed word.now) }
{
    match parse_number(word) {
        Some(number) => Speed::of(number),
        None => None,
    }
}

/// Reads a time in ns from decimal digits: below 4 * 10^18. Returns `None` for other arguments. `optional_time` calls it.
pub fn parse_time(word: &str) -> Option<u64>
    ensures { SomeIff result (IsMoment word.now) (digits_value 10 word.now) }
{
    if word.as_bytes().first() == Some(&b'+') {
        return None;
    }
    match word.parse::<u64>() {
        Ok(moment) if moment < END_OF_TIME => Some(moment),
        _ => None,
    }
}

/// Returns whether an argument is a list of numbers below 2^32, separated by commas. `has_valid_list` calls it.
pub(crate) fn is_number_list(word: &str) -> bool {
    for part in word.split(',') {
        if parse_number(part).is_none() {
            return false;
        }
    }
    true
}

/// Returns the numbers of a list separated by commas. Skips parts that aren't numbers below 2^32. `parse_numbers` of `app_commands` calls
/// it.
pub fn parse_number_list(alloc: Global, list: &str) -> Result<Vec<u32>, NoMemory> {
    let mut numbers = Vec::new(alloc);
    for part in list.split(',') {
        if let Some(number) = parse_number(part) {
            numbers.push(number)?;
        }
    }
    Ok(numbers)
}
