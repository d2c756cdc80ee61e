//! Reads the section `meter` of a plan: flow meters.
ghost use Rattle.std.specs.Prelude.{◌≡◌, IfOk, false, true};
ghost use Rattle.toml.specs.View.{table_view};
ghost use Rattle.bridge_meter.specs.Colours.{is_within_limits};
ghost use Rattle.bridge_schema.specs.Readers.{MatchesReading};
ghost use Rattle.bridge_config.specs.Sections as sections;
ghost use Rattle.bridge_config.specs.Texts as texts;
ghost use Rattle.bridge_config.specs.Rules as rules;

use crate::first_fault::FirstFault;
use crate::numbers::has_number;
use bridge_meter::MeterPlan;
use bridge_schema::{
    BURST, Field, InstanceTable, METER_KEYS, NUMBER, PlanFault, RATE, Section, SectionReader,
    Switch, TextMeaning, TextValue, has_allowed_keys,
};
use std::alloc::Allocator;
use toml::Table;

/// Texts of the key `colour`: `aware` if the meter uses a frame's drop eligible indication, otherwise `blind`.
#[derive(Clone, Copy)]
struct ColourText;

impl TextMeaning for ColourText {
    type Out = bool;

    ghost meaning = { λ _. texts.parse_awareness };

    fn parse_text(&self, text: &str) -> Option<bool> {
        if text == "aware" {
            Some(true)
        } else if text == "blind" {
            Some(false)
        } else {
            None
        }
    }
}

/// Whether a `[[meter]]` table has only keys of a meter; otherwise its fault is `UnknownKey`. `read_meter` calls it.
fn has_meter_keys(table: &Table) -> bool
    ensures { result ≡ sections.has_meter_keys (table_view table.now) }
{
    has_allowed_keys(table, &METER_KEYS, false)
}

/// Reads a meter and its number, which none of the meters before it may have. If the meter is refused, returns its fault.
/// `MeterSection::read` calls it.
fn read_meter(
    meters: &[(u32, MeterPlan)],
    index: u32,
    table: &Table,
) -> Result<(u32, MeterPlan), PlanFault>
    ensures reads { MatchesReading result (sections.read_meter meters.now index (table_view table.now)) }
    ensures own { IfOk result (λ m. sections.has_number meters.now m.0 ≡ false) }
    ensures limits { IfOk result (λ m. is_within_limits m.1 ≡ true) }
{
    let row = InstanceTable {
        table,
        section: Section::Meter,
        index,
    };
    let unknown = PlanFault::UnknownKey(Section::Meter, index);
    let mut first = FirstFault::begin(has_meter_keys(table), unknown);
    let number = first.read_required(row, Field::Number, &NUMBER, 0);
    let cir = first.read_required(row, Field::Cir, &RATE, 0);
    let cbs = first.read_required(row, Field::Cbs, &BURST, 0);
    let eir = first.read_required(row, Field::Eir, &RATE, 0);
    let ebs = first.read_required(row, Field::Ebs, &BURST, 0);
    let coupling = first.read_or_default(row, Field::Coupling, &Switch, false);
    let colour = TextValue {
        meaning: ColourText,
    };
    let aware = first.read_or_default(row, Field::Colour, &colour, false);
    let drop_yellow = first.read_or_default(row, Field::DropYellow, &Switch, false);
    let mark_all_red = first.read_or_default(row, Field::MarkAllRed, &Switch, false);
    first.expect(
        !has_number(meters, number),
        PlanFault::Duplicate(Section::Meter, index),
    );
    let plan = MeterPlan {
        cir,
        cbs,
        eir,
        ebs,
        coupling,
        aware,
        drop_yellow,
        mark_all_red,
    };
    first.finish((number as u32, plan))
}

/// Reads the section of meters.
#[derive(Clone, Copy)]
pub(crate) struct MeterSection;

impl<A: Allocator + Copy> SectionReader<A> for MeterSection {
    type Fault = PlanFault;

    type Instance = (u32, MeterPlan);

    ghost reading = { λ _. sections.read_meter };

    ghost Keeps = { λ _. rules.AreMeters };

    #[tactic(auto, using(crate::proofs::Own::meters_push))]
    fn read(
        &self,
        _alloc: A,
        earlier: &[(u32, MeterPlan)],
        index: u32,
        table: &Table,
    ) -> Result<(u32, MeterPlan), PlanFault> {
        read_meter(earlier, index, table)
    }
}
