//! Reads the commands of a run from their text.
ghost use Rattle.std.specs.Prelude.{◌≡◌, ◌<◌, ◌≤◌, IfErr, IfOk, All, true, length};
ghost use Rattle.toml.specs.View.{table_view, items_view};
ghost use Rattle.bridge_limits.specs.declared.TheConstants.{END_OF_TIME};
ghost use Rattle.bridge_schema.specs.declared.plan_fault.PlanFault.TheVariants.{NoMemory};
ghost use Rattle.bridge_schema.specs.declared.plan_fault.Section.TheVariants as the_section;
ghost use Rattle.bridge_schema.specs.Keys.{limit_of};
ghost use Rattle.bridge_schema.specs.Readers.{MatchesReading, MatchesReadingView};
ghost use Rattle.bridge_config.specs.Commands as spec;
ghost use Rattle.bridge_config.specs.Commands.{AreCommands};
ghost use Rattle.bridge_config.specs.Document as doc;
ghost use Rattle.bridge_config.specs.Texts as texts;

use crate::command::Command;
use crate::first_fault::FirstFault;
use crate::numbers::has_number;
use crate::plan::{Plan, read_document};
use bridge_filter::Clear;
use bridge_schema::{
    COMMAND_KEYS, COMMAND_SECTIONS, Field, InstanceTable, KnownNumber, LAST_TIME, NUMBER,
    NumberLookup, NumberRange, PlanFault, Section, SectionReader, TextMeaning, TextValue,
    has_allowed_keys, has_only, read_instances, section_items,
};
use std::alloc::{Allocator, Global};
use toml::{Table, Value};

/// Texts of the key `clear`, which names the flag that a command clears: `blocked`, `rx`, `octets` or `red`.
#[derive(Clone, Copy)]
struct ClearText;

impl TextMeaning for ClearText {
    type Out = Clear;

    ghost meaning = { λ _. texts.parse_flag };

    fn parse_text(&self, text: &str) -> Option<Clear> {
        if text == "blocked" {
            Some(Clear::Blocked)
        } else if text == "rx" {
            Some(Clear::Rx)
        } else if text == "octets" {
            Some(Clear::Octets)
        } else if text == "red" {
            Some(Clear::Red)
        } else {
            None
        }
    }
}

/// Numbers that a command may name: the plan's instances that have the flag `clear`.
#[derive(Clone, Copy)]
struct CommandTargets<'a, B: Allocator + Copy> {
    /// Plan of the bridge that gets the command.
    plan: &'a Plan<B>,
    /// Flag that the command clears.
    clear: Clear,
}

impl<'a, B: Allocator + Copy> NumberLookup for CommandTargets<'a, B> {
    ghost among = { λ s. spec.has_instance s.plan.now s.clear };

    fn has(&self, number: u64) -> bool {
        match self.clear {
            Clear::Blocked => has_number(self.plan.filters(), number),
            Clear::Rx | Clear::Octets => has_number(self.plan.gates(), number),
            Clear::Red => has_number(self.plan.meters(), number),
        }
    }
}

/// Returns the time of the last command in ns, or 0 without commands. `read_command` calls it, because the next command may not be earlier.
#[tactic(auto, using(crate::proofs::Commanded::last_some, crate::proofs::Commanded::last_none))]
fn last_time(commands: &[Command]) -> u64
    ensures { result ≡ spec.last_time 0 commands.now }
{
    match commands.last() {
        Some(command) => command.at,
        None => 0,
    }
}

/// Whether a `[[command]]` table has only keys of a command; otherwise its fault is `UnknownKey`. `read_command` calls it.
fn has_command_keys(table: &Table) -> bool
    ensures { result ≡ spec.has_command_keys (table_view table.now) }
{
    has_allowed_keys(table, &COMMAND_KEYS, false)
}

/// Reads the command in a table. The command may not be earlier than the last of `commands`, and must name an instance of the plan. If the
/// command is refused, returns its fault.
///
/// `CommandSection::read` calls it.
fn read_command<B: Allocator + Copy>(
    plan: &Plan<B>,
    commands: &[Command],
    index: u32,
    table: &Table,
) -> Result<Command, PlanFault>
    ensures reads { MatchesReading result (spec.read_command plan.now commands.now index (table_view table.now)) }
    ensures not_before { IfOk result (λ c. spec.last_time 0 commands.now ≤ c.at) }
    ensures in_time { IfOk result (λ c. c.at < END_OF_TIME) }
    ensures instance { IfOk result (λ c. spec.has_instance plan.now c.clear c.number ≡ true) }
{
    let row = InstanceTable {
        table,
        section: Section::Command,
        index,
    };
    let unknown = PlanFault::UnknownKey(Section::Command, index);
    let mut first = FirstFault::begin(has_command_keys(table), unknown);
    let moments = NumberRange {
        low: last_time(commands),
        high: LAST_TIME,
    };
    let moment = first.read_required(row, Field::At, &moments, 0);
    let flags = TextValue { meaning: ClearText };
    let clear = first.read_required(row, Field::Clear, &flags, Clear::Blocked);
    let named = KnownNumber {
        among: CommandTargets { plan, clear },
        range: NUMBER,
    };
    let number = first.read_required(row, Field::Number, &named, 0);
    first.finish(Command {
        at: moment,
        clear,
        number: number as u32,
    })
}

/// Reads the section of commands for the bridge of a plan.
#[derive(Clone, Copy)]
struct CommandSection<'a, B: Allocator + Copy> {
    /// Plan of the bridge.
    plan: &'a Plan<B>,
}

impl<'a, A: Allocator + Copy, B: Allocator + Copy> SectionReader<A> for CommandSection<'a, B> {
    type Fault = PlanFault;

    type Instance = Command;

    ghost reading = { λ s. spec.read_command s.plan.now };

    ghost Keeps = { λ s commands. AreCommands s.plan.now commands × All (λ c. c.at < END_OF_TIME) commands };

    #[tactic(auto, using(crate::proofs::Commanded::commands_push))]
    fn read(
        &self,
        _alloc: A,
        earlier: &[Command],
        index: u32,
        table: &Table,
    ) -> Result<Command, PlanFault> {
        read_command(self.plan, earlier, index, table)
    }
}

/// Returns the `[[command]]` tables of a document, or a fault: another section, no list of tables, or too many tables. Allocates no memory.
/// `commands_of` calls it.
#[tactic(auto, unfolding(crate::specs::Document::command_items))]
fn command_items<'a>(table: &'a Table) -> Result<&'a [Value], PlanFault>
    ensures reads { MatchesReadingView (λ x. items_view x.now) result (doc.command_items (table_view table.now)) }
    ensures few { IfOk result (λ x. length x.now ≤ limit_of the_section.Command) }
    ensures takes_no_memory { IfErr result (λ e. ¬ (e ≡ NoMemory)) }
{
    if !has_only(table, &COMMAND_SECTIONS) {
        return Err(PlanFault::UnknownKey(Section::Top, 0));
    }
    section_items(Section::Command, table)
}

/// Reads the commands of a TOML text for the bridge of a plan, or returns the first fault. The document uses `heap`, the commands
/// `alloc`.
///
/// Order of faults: `TooLong`, `Syntax`, an unknown section, `NotAList`, `TooMany`, then each command key by key.
///
/// A time before the previous command's time is `OutOfRange`. A number that the plan lacks is `Unresolved`. `read_commands` of
/// `app_failure`, and `explain_bridge_commands` and `bridge_commands` of `app_networks` call it.
pub fn commands_of<A: Allocator + Copy, B: Allocator + Copy>(
    alloc: A,
    heap: Global,
    text: &[u8],
    plan: &Plan<B>,
) -> Result<Vec<Command, A>, PlanFault>
    ensures reads { MatchesReadingView (λ v. v.items) result (doc.text_commands plan.now text.now) }
    ensures commands { IfOk result (λ v. AreCommands plan.now v.items) }
    ensures in_time { IfOk result (λ v. All (λ c. c.at < END_OF_TIME) v.items) }
{
    let document = read_document(heap, text)?;
    let items = command_items(&document)?;
    read_instances(alloc, &CommandSection { plan }, items)
}
