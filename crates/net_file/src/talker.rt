//! Periodic talkers of streams: the keys `period`, `from`, `to`, `least` and `longest` of the section `stream`.
ghost use Rattle.std.specs.Prelude.{◌≡◌, IfErr, IfOk, false, option_map, true};
ghost use Rattle.std.specs.Option.{ForSome};
ghost use Rattle.toml.specs.View.{view, table_view};
ghost use Rattle.net_file.specs.declared.fault.NetFault.TheVariants.{NoMemory};
ghost use Rattle.net_file.specs.declared.fault.NetSection.TheVariants as the_section;
ghost use Rattle.net_file.specs.Keys.{Gives};
ghost use Rattle.net_file.specs.Rules.{IsTalker};
ghost use Rattle.net_file.specs.Sections as sections;

use crate::fault::{NetFault, NetField, NetKeyLocation, NetSection};
use crate::keys::{OCTETS, PERIOD, PHASE, TALKER_KEYS};
use crate::reading::read_required;
use bridge_schema::{NumberRange, get_value};
use toml::{Table, Value};

/// Periodic traffic of a stream: at most one frame in each period, between two phases and between two lengths. Periods begin at multiples
/// of the period.
#[derive(Clone, Copy)]
pub struct Talker {
    /// Period in ns.
    pub period: u64,
    /// First phase at which a frame may arrive at the first hop, in ns from the start of its period.
    pub from: u64,
    /// Last phase at which a frame may arrive at the first hop, in ns from the start of its period.
    pub to: u64,
    /// Captured length of the shortest frame in octets.
    pub least: u32,
    /// Captured length of the longest frame in octets.
    pub longest: u32,
}

/// Returns whether an optional value is present. `has_any_key` calls it for the value of each key.
fn is_present(value: Option<&Value>) -> bool
    ensures { result ≡ sections.is_present (option_map (λ v. view v.now) value.entry) }
{
    match value {
        None => false,
        Some(_) => true,
    }
}

/// Returns whether a table has at least one of these keys. A stream with such a key has a talker, and a traffic row a limit. `is_limited`,
/// `has_limited_keys` and 2 more call it.
pub(crate) fn has_any_key(table: &Table, keys: &[NetField]) -> bool
    ensures { result ≡ sections.has_any_key keys.now (table_view table.now) }
{
    keys.iter().any(|f| is_present(get_value(table, f.key())))
}

/// Reads the talker of stream `index`, from 1, or returns its first fault. All keys of a talker are required. Phases and lengths must be in
/// order, and phases less than the period.
///
/// `read_optional_talker` calls it.
#[tactic(auto, unfolding(crate::specs::Sections::read_talker))]
fn read_talker(index: u32, table: &Table) -> Result<Talker, NetFault>
    ensures reads { Gives result (sections.read_talker index (table_view table.now)) }
    ensures talker { IfOk result IsTalker }
    ensures takes_no_memory { IfErr result (λ e. ¬ (e ≡ NoMemory)) }
{
    let at = |field: NetField| -> NetKeyLocation
        ensures { result ≡ record { section = the_section.Stream; index = index; field = field } }
    {
        NetKeyLocation {
            section: NetSection::Stream,
            index,
            field,
        }
    };
    let period = read_required(table, at(NetField::Period), &PERIOD)?;
    let from = read_required(table, at(NetField::From), &PHASE)?;
    if from >= period {
        return Err(NetFault::OutOfRange(at(NetField::Period)));
    }
    let to = read_required(
        table,
        at(NetField::To),
        &NumberRange {
            low: from,
            high: period - 1,
        },
    )?;
    let least = read_required(table, at(NetField::Least), &OCTETS)?;
    let longer = NumberRange {
        low: least,
        high: OCTETS.high,
    };
    let longest = read_required(table, at(NetField::Longest), &longer)?;
    Ok(Talker {
        period,
        from,
        to,
        least: least as u32,
        longest: longest as u32,
    })
}

/// Reads the talker of stream `index`, from 1. Returns `None` if the stream's table has no key of a talker. Allocates no memory. If the
/// talker is refused, returns its fault. `read_stream` calls it.
pub(crate) fn read_optional_talker(index: u32, table: &Table) -> Result<Option<Talker>, NetFault>
    ensures reads { Gives result (sections.read_optional_talker index (table_view table.now)) }
    ensures talker { IfOk result (λ t. ForSome t IsTalker) }
    ensures takes_no_memory { IfErr result (λ e. ¬ (e ≡ NoMemory)) }
{
    if !has_any_key(table, &TALKER_KEYS) {
        return Ok(None);
    }
    let talker = read_talker(index, table)?;
    Ok(Some(talker))
}
