//! Compares the result of a case's text with the wanted result.
ghost use Rattle.std.specs.Prelude.{◌≡◌, IfOk, string_bytes};
ghost use Rattle.app_failure.specs.Lines.{fault_line};
ghost use Rattle.gate_cases.specs.Outcomes.{IsCommandsLine, IsPlanLine};

use crate::bases::Bases;
use crate::case::{expand_forms, split_heading};
use crate::networks::put_network_outcome;
use crate::text_pieces::add;
use app_failure::{Failure, fault_line};
use bridge_config::{Plan, commands_of, plan_of};
use bridge_text::TextBuilder;
use std::alloc::{AllocError, Allocator, Global};

/// Finding on a part of a file.
#[derive(Drop)]
pub enum Finding {
    /// The part is a remark.
    Remark,
    /// The part is a case with the wanted result.
    Holds,
    /// The case has another result, or the part is no case. The text is the message.
    Differs(Result<String, AllocError>),
}

/// Judges a part of a file.
pub fn judge_part(alloc: Global, bases: &Bases, part: &str) -> Finding {
    if part.starts_with('#') || part.starts_with(" #") {
        return Finding::Remark;
    }
    let (heading, lines) = split_heading(part);
    match heading.split_once(": ") {
        Some((place, wanted)) => judge_case(alloc, bases, place, wanted, lines),
        None => differs(alloc, "the heading is none of a case"),
    }
}

fn differs(alloc: Global, said: &str) -> Finding {
    Finding::Differs(String::from_str(alloc, said))
}

/// Judges a case: `lines` at `place`, and the wanted result.
fn judge_case(alloc: Global, bases: &Bases, place: &str, wanted: &str, lines: &str) -> Finding {
    let mut line = TextBuilder::new(alloc);
    let has_text = put_outcome(alloc, &mut line, bases, place, lines);
    match line.finish() {
        Ok(line) if has_text => compare_outcome(alloc, fault_words(line.as_str()), wanted),
        Ok(_) => differs(alloc, "no such place, or what is repeated has no end"),
        Err(_) => Finding::Differs(Err(AllocError)),
    }
}

/// Compares the result of a case with the wanted result.
fn compare_outcome(alloc: Global, got: &str, wanted: &str) -> Finding {
    if got == wanted {
        return Finding::Holds;
    }
    Finding::Differs(format!(in alloc; "got {got}, wanted {wanted}"))
}

/// Returns a fault line without its subject and ` refused: `.
fn fault_words(line: &str) -> &str {
    match line.split_once(" refused: ") {
        Some((_, words)) => words,
        None => line,
    }
}

/// Expands `lines`, and adds the line of the text at `place`. Returns whether lines and place are valid.
fn put_outcome(
    alloc: Global,
    line: &mut TextBuilder<Global>,
    bases: &Bases,
    place: &str,
    lines: &str,
) -> bool {
    match expand_forms(alloc, line, lines) {
        Some(lines) => put_text_outcome(alloc, line, bases, place, lines.as_str()),
        None => false,
    }
}

/// Adds the line of the text with `lines` at `place`. Returns whether the place exists.
fn put_text_outcome(
    alloc: Global,
    line: &mut TextBuilder<Global>,
    bases: &Bases,
    place: &str,
    lines: &str,
) -> bool {
    if place == " commands" {
        add(line, commands_outcome(alloc, lines, &bases.plan));
        true
    } else if place == " alone" {
        add(line, plan_outcome(alloc, alloc, lines));
        true
    } else {
        put_network_outcome(alloc, line, place, lines)
            || put_changed(alloc, line, bases, place, lines)
    }
}

/// Adds the line of the base plan with `lines` at `place`. Returns whether the place exists.
fn put_changed(
    alloc: Global,
    line: &mut TextBuilder<Global>,
    bases: &Bases,
    place: &str,
    lines: &str,
) -> bool {
    let mut text = TextBuilder::new(alloc);
    let is_there = bases.put_changed_plan(&mut text, place, lines);
    match text.finish() {
        Ok(text) => add(line, plan_outcome(alloc, alloc, text.as_str())),
        Err(_) => line.discard(),
    }
    is_there
}

/// Returns `accepted`, or the fault line of a refused plan.
fn plan_outcome<A: Allocator + Copy>(
    alloc: A,
    heap: Global,
    text: &str,
) -> Result<String<A>, AllocError>
    ensures { IfOk result (λ line. IsPlanLine A text.now (string_bytes line)) }
{
    match plan_of(alloc, heap, text.as_bytes()) {
        Ok(plan) => {
            drop(plan);
            String::from_str(alloc, "accepted")
        }
        Err(fault) => fault_text(alloc, &Failure::Plan(fault)),
    }
}

/// Returns the number of commands for `plan`, or the fault line of refused commands.
fn commands_outcome(alloc: Global, text: &str, plan: &Plan<Global>) -> Result<String, AllocError>
    ensures { IfOk result (λ line. IsCommandsLine plan.now text.now (string_bytes line)) }
{
    match commands_of(alloc, alloc, text.as_bytes(), plan) {
        Ok(commands) => format!(in alloc; "{} commands", commands.len()),
        Err(fault) => fault_text(alloc, &Failure::Commands(fault)),
    }
}

/// Returns the line of a fault.
fn fault_text<A: Allocator + Copy>(alloc: A, fault: &Failure) -> Result<String<A>, AllocError>
    ensures { IfOk result (λ line. string_bytes line ≡ fault_line fault.now) }
{
    match fault_line(alloc, fault) {
        Ok((line, _)) => Ok(line),
        Err(_) => Err(AllocError),
    }
}
