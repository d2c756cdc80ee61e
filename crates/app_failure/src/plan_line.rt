//! Writes the fault line of a plan that is refused.
ghost use Rattle.bridge_text.specs.Growth.{HasGrown};
ghost use Rattle.app_failure.specs.PlanLines.{instance_text, key_text, list_fault_line, plan_fault_line, list_refused, plan_refused, plan_refused_section};

use bridge_cycle::ListFault;
use bridge_schema::{KeyLocation, PlanFault, Section};
use bridge_text::TextBuilder;
use std::alloc::Allocator;

/// Writes the fault line of a refused plan: the fault's name and the part at fault. `put_fault` and `plan_fault_line` call it.
pub fn put_plan_fault<A: Allocator>(text: &mut TextBuilder<A>, fault: &PlanFault)
    ensures { HasGrown text.old (plan_fault_line fault.now) text.new }
{
    match fault {
        PlanFault::Syntax => put_refused_plan(text, "Syntax"),
        PlanFault::TooLong => put_refused_plan(text, "TooLong"),
        PlanFault::UnknownKey(section, index) => {
            put_instance(text, "UnknownKey", *section, *index)
        }
        PlanFault::NotAList(section) => put_refused_section(text, "NotAList", section.name()),
        PlanFault::Missing(place) => put_key(text, "Missing", place),
        PlanFault::WrongKind(place) => put_key(text, "WrongKind", place),
        PlanFault::OutOfRange(place) => put_key(text, "OutOfRange", place),
        PlanFault::Duplicate(section, index) => put_instance(text, "Duplicate", *section, *index),
        PlanFault::Unresolved(place) => put_key(text, "Unresolved", place),
        PlanFault::TooMany(section) => put_refused_section(text, "TooMany", section.name()),
        PlanFault::BadList(section, index, fault) => put_list_fault(text, *section, *index, fault),
        PlanFault::NoPorts => put_refused_plan(text, "NoPorts"),
        PlanFault::NoMemory => text.put("no memory"),
    }
}

/// Writes the fault line of a refused list of an instance, `BadList`, with the list's fault. `put_plan_fault` calls it.
fn put_list_fault<A: Allocator>(
    text: &mut TextBuilder<A>,
    section: Section,
    index: u32,
    fault: &ListFault,
)
    ensures { HasGrown text.old (list_fault_line section index fault.now) text.new }
{
    match fault {
        ListFault::Empty => put_list(text, section, index, "Empty"),
        ListFault::ZeroInterval => put_list(text, section, index, "ZeroInterval"),
        ListFault::OverCycle => put_list(text, section, index, "OverCycle"),
        ListFault::CycleOutOfRange => put_list(text, section, index, "CycleOutOfRange"),
        ListFault::TooManyEntries => put_list(text, section, index, "TooManyEntries"),
        ListFault::NoMemory => text.put("no memory"),
    }
}

/// Writes the start of the fault line: `plan refused: NAME`. `put_plan_fault`, `put_refused_section` and 3 more call it.
fn put_refused_plan<A: Allocator>(text: &mut TextBuilder<A>, name: &str)
    ensures { HasGrown text.old (plan_refused name.now) text.new }
{
    text.put("plan refused: ");
    text.put(name);
}

/// Writes the fault line of a section: `plan refused: NAME SECTION`. `put_plan_fault` calls it.
fn put_refused_section<A: Allocator>(text: &mut TextBuilder<A>, name: &str, place: &str)
    ensures { HasGrown text.old (plan_refused_section name.now place.now) text.new }
{
    put_refused_plan(text, name);
    text.put(" ");
    text.put(place);
}

/// Writes the fault line of an instance: `plan refused: NAME SECTION NUMBER`. `put_plan_fault` calls it.
fn put_instance<A: Allocator>(text: &mut TextBuilder<A>, name: &str, section: Section, index: u32)
    ensures { HasGrown text.old (plan_refused_section name.now (instance_text section index)) text.new }
{
    put_refused_plan(text, name);
    text.put(" ");
    put_section_instance(text, section, index);
}

/// Writes the fault line of a key: `plan refused: NAME SECTION NUMBER KEY`. `put_plan_fault` calls it.
fn put_key<A: Allocator>(text: &mut TextBuilder<A>, name: &str, place: &KeyLocation)
    ensures { HasGrown text.old (plan_refused_section name.now (key_text place.now)) text.new }
{
    put_refused_plan(text, name);
    text.put(" ");
    put_section_instance(text, place.section, place.index);
    text.put(" ");
    text.put(place.field.key());
}

/// Writes the fault line of a list: `plan refused: BadList SECTION NUMBER NAME`. `put_list_fault` calls it.
fn put_list<A: Allocator>(text: &mut TextBuilder<A>, section: Section, index: u32, name: &str)
    ensures { HasGrown text.old (list_refused section index name.now) text.new }
{
    put_refused_plan(text, "BadList");
    text.put(" ");
    put_section_instance(text, section, index);
    text.put(" ");
    text.put(name);
}

/// Writes the section and the number of the instance, from 1. The number 0 stands for the section itself. `put_instance`, `put_key` and
/// `put_list` call it.
fn put_section_instance<A: Allocator>(text: &mut TextBuilder<A>, section: Section, index: u32)
    ensures { HasGrown text.old (instance_text section index) text.new }
{
    text.put(section.name());
    if index > 0 {
        text.put(" ");
        text.put_number(u64::from(index));
    }
}
