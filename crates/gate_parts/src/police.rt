//! Asks stream filters for verdicts, counters, flags and buckets.
ghost use Rattle.std.specs.Prelude.{◌≡◌, true, IfOk};
ghost use Rattle.bridge_filter.specs.Plans.{KeepsNumbers, is_listed};

use crate::consistency::{go_together, is_listed};
use crate::gates::parse_gate_plan;
use crate::meters::parse_meter_plan;
use crate::parts::collect_parts;
use crate::words::{
    Fault, Output, answer, first_word, has_word, number_by_name, number_or_max, show,
    split_first_line, tell, u32_or_max, word_at_index,
};
use bridge_filter::{Clear, FilterPlan, Police, Ruling};
use bridge_gate::GatePlan;
use bridge_limits::END_OF_TIME;
use bridge_meter::MeterPlan;
use std::alloc::{AllocError, Allocator, Global};

/// Reads the number and the plan of a line `filter NUMBER gate NUMBER ..`.
fn parse_filter(line: &str) -> Option<(u32, FilterPlan)> {
    if first_word(line) != "filter" {
        return None;
    }
    let plan = FilterPlan {
        handle: number_by_name(line, "handle"),
        priority: number_by_name(line, "priority"),
        gate: number_by_name(line, "gate").unwrap_or(0),
        max_sdu: number_by_name(line, "max_sdu"),
        meter: number_by_name(line, "meter"),
        block_oversize: has_word(line, "block_oversize"),
        protected: has_word(line, "protected"),
        group: None,
    };
    Some((u32_or_max(line, 1), plan))
}

/// Reads the number and the plan of a line `meter NUMBER ..`.
fn parse_meter_row(line: &str) -> Option<(u32, MeterPlan)> {
    if first_word(line) != "meter" {
        return None;
    }
    Some((u32_or_max(line, 1), parse_meter_plan(line)))
}

/// Gates of lines `gate NUMBER ..`, with their numbers.
pub type Gates<A> = Vec<(u32, GatePlan<A>), A>;

/// Adds the gate of a line with its number.
pub fn push_gate<A: Allocator + Copy>(
    alloc: A,
    gates: &mut Gates<A>,
    number: u32,
    line: &str,
) -> Result<(), Fault> {
    let plan = parse_gate_plan(alloc, line)?;
    match gates.push((number, plan)) {
        Ok(()) => Ok(()),
        Err(_) => Err(Fault::NoMemory),
    }
}

fn push_gates<A: Allocator + Copy>(
    alloc: A,
    gates: &mut Gates<A>,
    lines: &str,
) -> Result<(), Fault> {
    for line in lines.lines() {
        if first_word(line) == "gate" {
            push_gate(alloc, gates, u32_or_max(line, 1), line)?;
        }
    }
    Ok(())
}

fn parse_gates<A: Allocator + Copy>(alloc: A, lines: &str) -> Result<Gates<A>, Fault> {
    let mut gates = Vec::with_capacity(alloc, lines.lines().count())?;
    match push_gates(alloc, &mut gates, lines) {
        Ok(()) => Ok(gates),
        Err(fault) => Err(fault),
    }
}

/// Stream filters, and whether they have gate 1 and meter 5. Only then lines can clear flags.
#[derive(Drop)]
pub struct MadePolice<A: Allocator + Copy> {
    police: Police<A>,
    has_both: bool,
}

/// Makes the stream filters of lines, with their gates and meters.
pub fn parse_police<A: Allocator + Copy>(alloc: A, lines: &str) -> Result<MadePolice<A>, Fault>
    ensures gate { IfOk result (λ m. m.has_both ≡ true → is_listed 1 m.police.gates ≡ true) }
    ensures meter { IfOk result (λ m. m.has_both ≡ true → is_listed 5 m.police.meters ≡ true) }
{
    let filters = collect_parts(alloc, lines, '\n', parse_filter)?;
    let meters = collect_parts(alloc, lines, '\n', parse_meter_row)?;
    let gates = parse_gates(alloc, lines)?;
    let has_both = is_listed(&gates, 1) & is_listed(&meters, 5);
    match make_police(alloc, filters, gates, meters) {
        Ok(police) => Ok(MadePolice { police, has_both }),
        Err(fault) => Err(fault),
    }
}

/// Makes stream filters, if filters, gates and meters fit together.
pub fn make_police<A: Allocator + Copy>(
    alloc: A,
    filters: Vec<(u32, FilterPlan), A>,
    gates: Gates<A>,
    meters: Vec<(u32, MeterPlan), A>,
) -> Result<Police<A>, Fault>
    ensures gates { IfOk result (λ p. KeepsNumbers gates.items p.gates) }
    ensures meters { IfOk result (λ p. KeepsNumbers meters.items p.meters) }
    ensures fresh { IfOk result (λ p. (p.calls ≡ 0) × (p.earliest ≡ 0)) }
{
    if go_together(&filters, &gates, &meters) {
        match Police::new(alloc, filters, gates, meters) {
            Ok(police) => Ok(police),
            Err(_) => Err(Fault::NoMemory),
        }
    } else {
        Err(Fault::NotAllowed)
    }
}

/// Makes stream filters, and asks them line by line.
pub fn police(said: &mut Output, text: &str) {
    let (head, lines) = split_first_line(text);
    match parse_police(said.alloc, lines) {
        Ok(made) => ask_made(said, made, head, lines),
        Err(fault) => tell(said, head, &fault),
    }
}

fn ask_made(said: &mut Output, mut made: MadePolice<Global>, head: &str, lines: &str)
    requires gate { made.has_both ≡ true → is_listed 1 made.police.gates ≡ true }
    requires meter { made.has_both ≡ true → is_listed 5 made.police.meters ≡ true }
{
    ask_all(said, &mut made.police, made.has_both, head, lines);
    drop(made)
}

fn ask_all(said: &mut Output, police: &mut Police<Global>, has_both: bool, head: &str, lines: &str)
    requires gate { has_both ≡ true → is_listed 1 police.old.gates ≡ true }
    requires meter { has_both ≡ true → is_listed 5 police.old.meters ≡ true }
{
    said.text.put_template("{a} -> made\n", &[], &[head]);
    for line in lines.lines() {
        ask(said, police, has_both, line);
    }
}

fn ask(said: &mut Output, police: &mut Police<Global>, has_both: bool, line: &str)
    requires gate { has_both ≡ true → is_listed 1 police.old.gates ≡ true }
    requires meter { has_both ≡ true → is_listed 5 police.old.meters ≡ true }
    ensures gates { KeepsNumbers police.old.gates police.new.gates }
    ensures meters { KeepsNumbers police.old.meters police.new.meters }
{
    match first_word(line) {
        "frame" => answer(said, line, frame_ruling(police, line)),
        "clear" => clear(said, police, has_both, line),
        _ => look(said, police, line),
    }
}

/// Returns the ruling of a frame: `frame MOMENT sdu OCTETS`, with handle and priority after their names.
fn frame_ruling(police: &mut Police<Global>, line: &str) -> Result<Option<Ruling>, Fault>
    ensures gates { KeepsNumbers police.old.gates police.new.gates }
    ensures meters { KeepsNumbers police.old.meters police.new.meters }
{
    let t = number_or_max(line, 1);
    if t < police.earliest() || t >= END_OF_TIME || police.calls() >= 1_000 {
        return Err(Fault::NotAllowed);
    }
    let handle = number_by_name(line, "handle");
    let priority = number_by_name(line, "priority").unwrap_or(0);
    let sdu = number_by_name(line, "sdu").unwrap_or(0);
    Ok(police.pass(t, handle, priority, false, sdu, 64))
}

/// Clears a flag, if the filters have gate 1 and meter 5: `clear blocked|rx|octets|red`.
fn clear(said: &mut Output, police: &mut Police<Global>, has_both: bool, line: &str)
    requires gate { has_both ≡ true → is_listed 1 police.old.gates ≡ true }
    requires meter { has_both ≡ true → is_listed 5 police.old.meters ≡ true }
    ensures gates { KeepsNumbers police.old.gates police.new.gates }
    ensures meters { KeepsNumbers police.old.meters police.new.meters }
{
    if !has_both {
        return tell(said, line, &Fault::NotAllowed);
    }
    clear_flag(police, word_at_index(line, 1));
    show(said, line)
}

/// Clears a flag of gate 1, of meter 5, or of the filter of frames with handle 1.
fn clear_flag(police: &mut Police<Global>, flag: &str)
    requires gate { is_listed 1 police.old.gates ≡ true }
    requires meter { is_listed 5 police.old.meters ≡ true }
    ensures gates { KeepsNumbers police.old.gates police.new.gates }
    ensures meters { KeepsNumbers police.old.meters police.new.meters }
{
    match flag {
        "rx" => police.clear(Clear::Rx, 1),
        "octets" => police.clear(Clear::Octets, 1),
        "red" => police.clear(Clear::Red, 5),
        _ => clear_blocked(police),
    }
}

fn clear_blocked(police: &mut Police<Global>)
    ensures gates { KeepsNumbers police.old.gates police.new.gates }
    ensures meters { KeepsNumbers police.old.meters police.new.meters }
{
    if let Some(filter) = police.filter_number(Some(1), 0) {
        police.clear(Clear::Blocked, filter);
    }
}

/// Adds the counts of all filters, or the state of the filter of frames with handle 1, with its number.
fn look(said: &mut Output, police: &Police<Global>, line: &str) {
    match (first_word(line), police.filter_number(Some(1), 0)) {
        ("came", _) => tell(said, line, &(police.earliest(), police.calls())),
        ("flags", Some(filter)) => tell(said, line, &(filter, police.flags(filter))),
        ("counts", Some(filter)) => tell(said, line, &(filter, police.counters(filter))),
        ("holds", Some(filter)) => tell(said, line, &(filter, police.buckets(filter))),
        _ => show(said, line),
    }
}
