//! Fault lines of refused network and traffic files, which commands print.
ghost use Rattle.std.specs.Prelude.{◌≡◌, IfOk, codes, string_bytes};
ghost use Rattle.net_file.specs.Lines.{instance_text, key_text, refusal_line, fault_line, refusal_text, located_refusal};

use crate::fault::{NetFault, NetKeyLocation, NetSection};
use bridge_limits::NoMemory;
use std::alloc::Allocator;

/// Returns the fault line of a network without line feed, for example `network refused: OutOfRange link 2 delay` or `no memory`.
/// `check_periods` and `refused_text_fault` of `net_check`, and `traffic_refusal` of `net_latency` call it.
pub fn fault_line<A: Allocator + Copy>(alloc: A, fault: &NetFault) -> Result<String<A>, NoMemory>
    ensures { IfOk result (λ line. string_bytes line ≡ fault_line fault.now) }
{
    refusal_line(alloc, "network", fault)
}

/// Returns a file's fault line without line feed, for example `traffic refused: OutOfRange traffic 2 period` or `no memory`. `kind` is
/// `network` or `traffic`. `fault_line` and `traffic_fault_line` call it.
pub fn refusal_line<A: Allocator + Copy>(
    alloc: A,
    kind: &str,
    fault: &NetFault,
) -> Result<String<A>, NoMemory>
    ensures { IfOk result (λ line. string_bytes line ≡ refusal_line kind.now fault.now) }
{
    match fault {
        NetFault::Syntax => refusal_text(alloc, kind, "Syntax"),
        NetFault::TooLong => refusal_text(alloc, kind, "TooLong"),
        NetFault::UnknownKey(section, index) => {
            instance_refusal(alloc, kind, "UnknownKey", *section, *index)
        }
        NetFault::NotAList(section) => located_refusal(alloc, kind, "NotAList", section.name()),
        NetFault::Missing(place) => key_refusal(alloc, kind, "Missing", place),
        NetFault::WrongKind(place) => key_refusal(alloc, kind, "WrongKind", place),
        NetFault::OutOfRange(place) => key_refusal(alloc, kind, "OutOfRange", place),
        NetFault::Duplicate(section, index) => {
            instance_refusal(alloc, kind, "Duplicate", *section, *index)
        }
        NetFault::Unresolved(place) => key_refusal(alloc, kind, "Unresolved", place),
        NetFault::TooMany(section) => located_refusal(alloc, kind, "TooMany", section.name()),
        NetFault::NoMemory => no_memory_line(alloc),
    }
}

/// Returns the line `no memory`, which names no kind of file. Returns `NoMemory` if memory runs out for the line. `refusal_line` calls it.
fn no_memory_line<A: Allocator + Copy>(alloc: A) -> Result<String<A>, NoMemory>
    ensures { IfOk result (λ line. string_bytes line ≡ codes "no memory") }
{
    match String::from_str(alloc, "no memory") {
        Ok(line) => Ok(line),
        Err(_) => Err(NoMemory),
    }
}

/// Returns the line `KIND refused: NAME`, with `kind` for `KIND`, of a fault without location, such as `network refused: Syntax`.
/// `refusal_line` calls it.
fn refusal_text<A: Allocator + Copy>(
    alloc: A,
    kind: &str,
    name: &str,
) -> Result<String<A>, NoMemory>
    ensures { IfOk result (λ line. string_bytes line ≡ refusal_text kind.now name.now) }
{
    match format!(in alloc; "{kind} refused: {name}") {
        Ok(line) => Ok(line),
        Err(_) => Err(NoMemory),
    }
}

/// Returns the fault line `KIND refused: NAME PLACE`: `kind` is `network` or `traffic`, `name` the fault, `place` its location, such as
/// `link 2 delay`. `refusal_line`, `instance_refusal` and `key_refusal` call it.
fn located_refusal<A: Allocator + Copy>(
    alloc: A,
    kind: &str,
    name: &str,
    place: &str,
) -> Result<String<A>, NoMemory>
    ensures { IfOk result (λ line. string_bytes line ≡ located_refusal kind.now name.now place.now) }
{
    match format!(in alloc; "{kind} refused: {name} {place}") {
        Ok(line) => Ok(line),
        Err(_) => Err(NoMemory),
    }
}

/// Returns the fault line of an instance, such as `network refused: Duplicate bridge 3`. If the number `index` is 0, the line names only
/// the section. `refusal_line` calls it.
fn instance_refusal<A: Allocator + Copy>(
    alloc: A,
    kind: &str,
    name: &str,
    section: NetSection,
    index: u32,
) -> Result<String<A>, NoMemory>
    ensures { IfOk result (λ line. string_bytes line
        ≡ located_refusal kind.now name.now (instance_text section index)) }
{
    let Ok(words) = instance_words(alloc, section, index) else {
        return Err(NoMemory);
    };
    located_refusal(alloc, kind, name, words.as_str())
}

/// Returns the fault line of an instance's key, such as `network refused: OutOfRange link 2 delay`. `refusal_line` calls it.
fn key_refusal<A: Allocator + Copy>(
    alloc: A,
    kind: &str,
    name: &str,
    place: &NetKeyLocation,
) -> Result<String<A>, NoMemory>
    ensures { IfOk result (λ line. string_bytes line ≡ located_refusal kind.now name.now (key_text place.now)) }
{
    let Ok(words) = instance_words(alloc, place.section, place.index) else {
        return Err(NoMemory);
    };
    let key = place.field.key();
    let Ok(key_words) = format!(in alloc; "{words} {key}") else {
        return Err(NoMemory);
    };
    located_refusal(alloc, kind, name, key_words.as_str())
}

/// Returns the section's name and the instance's number `index`, from 1, such as `link 2`. If the number is 0, returns only the name.
/// `instance_refusal` and `key_refusal` call it.
fn instance_words<A: Allocator + Copy>(
    alloc: A,
    section: NetSection,
    index: u32,
) -> Result<String<A>, NoMemory>
    ensures { IfOk result (λ words. string_bytes words ≡ instance_text section index) }
{
    let name = section.name();
    if index == 0 {
        return Ok(String::from_str(alloc, name)?);
    }
    Ok(format!(in alloc; "{name} {index}")?)
}
