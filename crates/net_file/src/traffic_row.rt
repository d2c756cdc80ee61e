//! Rows of a traffic file: the section `traffic`. `parse_traffic` reads it.
ghost use Rattle.std.specs.Prelude.{◌≡◌, IfErr, IfOk, false};
ghost use Rattle.toml.specs.View.{table_view};
ghost use Rattle.net_file.specs.declared.fault.NetFault.TheVariants.{NoMemory};
ghost use Rattle.net_file.specs.declared.fault.NetSection.TheVariants as the_section;
ghost use Rattle.net_file.specs.Keys.{Gives};
ghost use Rattle.net_file.specs.TrafficRows as spec;
ghost use Rattle.net_file.specs.TrafficRows.{AreRows, IsRow, IsTalkerRow};

use crate::fault::{NetFault, NetField, NetKeyLocation, NetSection};
use crate::keys::{DEADLINE, OCTETS, PERIOD, PERIODIC_ROW_KEYS, PHASE};
use crate::limited_row::{LimitedRow, is_limited, read_limited_row};
use crate::reading::{read_optional, read_required};
use bridge_bounds::Traffic;
use bridge_schema::{NUMBER, NumberRange, SectionReader, has_only};
use std::alloc::Allocator;
use toml::Table;

/// A periodic row of a traffic file: the periodic traffic of one filter, and an optional deadline. The filter must be protected in the
/// plan.
#[derive(Clone, Copy)]
pub struct TrafficRow {
    /// Number of the filter whose frames the row describes.
    pub filter: u32,
    /// Period, phases and lengths of the filter's frames.
    pub traffic: Traffic,
    /// Largest allowed delay in each queue in ns, from arrival to the end of transmission. `None` means no limit.
    pub deadline: Option<u64>,
}

/// A row of a traffic file: periodic traffic, or frames within a limit.
#[derive(Clone, Copy)]
pub enum TalkerRow {
    /// At most one frame in each period, between two phases.
    Periodic(TrafficRow),
    /// Frames within a burst and a rate, or at most a number of frames in any period.
    Limited(LimitedRow),
}

impl TalkerRow {
    /// Returns the number of the row's filter. `queue_timings` of `net_latency` needs it.
    pub fn filter(&self) -> u32
        ensures { result ≡ spec.row_filter self.now }
    {
        match self {
            TalkerRow::Periodic(row) => row.filter,
            TalkerRow::Limited(row) => row.filter,
        }
    }
}

/// Returns the location of a key of row `index`, from 1, for a fault. `read_rate`, `read_count` and 2 more call it.
pub(crate) fn row_key(index: u32, field: NetField) -> NetKeyLocation
    ensures { result ≡ record { section = the_section.Traffic; index = index; field = field } }
{
    NetKeyLocation {
        section: NetSection::Traffic,
        index,
        field,
    }
}

/// Reads periodic row `index`, from 1, from its table, or returns the row's first fault. `read_talker_row` calls it.
#[tactic(auto, unfolding(crate::specs::TrafficRows::read_row))]
fn read_row(index: u32, table: &Table) -> Result<TrafficRow, NetFault>
    ensures reads { Gives result (spec.read_row index (table_view table.now)) }
    ensures row { IfOk result IsRow }
    ensures takes_no_memory { IfErr result (λ e. ¬ (e ≡ NoMemory)) }
{
    if !has_only(table, &PERIODIC_ROW_KEYS) {
        return Err(NetFault::UnknownKey(NetSection::Traffic, index));
    }
    let filter = read_required(table, row_key(index, NetField::Filter), &NUMBER)?;
    let period = read_required(table, row_key(index, NetField::Period), &PERIOD)?;
    let from = read_required(table, row_key(index, NetField::From), &PHASE)?;
    if from >= period {
        return Err(NetFault::OutOfRange(row_key(index, NetField::Period)));
    }
    let to = read_required(
        table,
        row_key(index, NetField::To),
        &NumberRange {
            low: from,
            high: period - 1,
        },
    )?;
    let least = read_required(table, row_key(index, NetField::Least), &OCTETS)?;
    let longer = NumberRange {
        low: least,
        high: OCTETS.high,
    };
    let longest = read_required(table, row_key(index, NetField::Longest), &longer)?;
    let deadline = read_optional(table, row_key(index, NetField::Deadline), &DEADLINE)?;
    Ok(TrafficRow {
        filter: filter as u32,
        traffic: Traffic {
            period,
            from,
            to,
            least: least as u32,
            longest: longest as u32,
        },
        deadline,
    })
}

/// Reads row `index`, from 1, from its table, or returns the row's first fault. The row is limited if the table has one of a limit's keys,
/// otherwise periodic.
///
/// `next_row` calls it, and compares the row with earlier rows.
fn read_talker_row(index: u32, table: &Table) -> Result<TalkerRow, NetFault>
    ensures reads { Gives result (spec.read_talker_row index (table_view table.now)) }
    ensures row { IfOk result IsTalkerRow }
    ensures takes_no_memory { IfErr result (λ e. ¬ (e ≡ NoMemory)) }
{
    if is_limited(table) {
        let row = read_limited_row(index, table)?;
        return Ok(TalkerRow::Limited(row));
    }
    let row = read_row(index, table)?;
    Ok(TalkerRow::Periodic(row))
}

/// Returns whether one of these rows is for filter `filter`. If so, `next_row`, which calls it, refuses another row of this filter as
/// `Duplicate`.
fn has_filter(rows: &[TalkerRow], filter: u32) -> bool
    ensures { result ≡ spec.has_filter rows.now filter }
{
    rows.iter().any(|row| row.filter() == filter)
}

/// Reads row `index`, from 1, from its table. If a row in `earlier` has the same filter, the fault is `Duplicate`. `read` calls it.
fn next_row(earlier: &[TalkerRow], index: u32, table: &Table) -> Result<TalkerRow, NetFault>
    ensures reads { Gives result (spec.read_row_in_list earlier.now index (table_view table.now)) }
    ensures own { IfOk result (λ r. spec.has_filter earlier.now (spec.row_filter r) ≡ false) }
    ensures row { IfOk result IsTalkerRow }
{
    let row = read_talker_row(index, table)?;
    if has_filter(earlier, row.filter()) {
        return Err(NetFault::Duplicate(NetSection::Traffic, index));
    }
    Ok(row)
}

/// Reads the section `traffic` for `read_instances`, one table at a time.
#[derive(Clone, Copy)]
pub(crate) struct TrafficSection;

impl<A: Allocator + Copy> SectionReader<A> for TrafficSection {
    type Fault = NetFault;

    type Instance = TalkerRow;

    ghost reading = { λ _. spec.read_row_in_list };

    ghost Keeps = { λ _. AreRows };

    #[tactic(auto, using(crate::proofs::OwnTraffic::rows_push))]
    fn read(
        &self,
        _alloc: A,
        earlier: &[TalkerRow],
        index: u32,
        table: &Table,
    ) -> Result<TalkerRow, NetFault> {
        next_row(earlier, index, table)
    }
}
