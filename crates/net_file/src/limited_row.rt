//! Rows of a traffic file with a limit of the talker's frames: a burst and a rate, or a number of frames in any period.
ghost use Rattle.std.specs.Prelude.{◌≡◌, IfErr, IfOk};
ghost use Rattle.toml.specs.View.{table_view};
ghost use Rattle.net_file.specs.declared.fault.NetFault.TheVariants.{NoMemory};
ghost use Rattle.net_file.specs.Keys.{Gives};
ghost use Rattle.net_file.specs.LimitedRows as spec;
ghost use Rattle.net_file.specs.LimitedRows.{IsFrameLimit, IsLimitedRow};

use crate::fault::{NetFault, NetField, NetSection};
use crate::keys::{
    COUNT_ROW_KEYS, DEADLINE, FRAMES, LIMIT_KEYS, OCTETS, PERIOD, RATE_KEYS, RATE_ROW_KEYS,
    TALKER_BURST, TALKER_RATE,
};
use crate::reading::{read_optional, read_required};
use crate::talker::has_any_key;
use crate::traffic_row::row_key;
use bridge_schema::{NUMBER, NumberRange, has_only};
use toml::Table;

/// Limit of the frames that a talker sends: a burst and a rate, or a number of frames in any period.
#[derive(Clone, Copy)]
pub enum FrameLimit {
    /// In any time of w ns, at most the metered octets of the burst and the octets that the rate allows in w ns.
    Rate {
        /// Burst in metered octets: frames with their frame check sequences, each at least 64.
        burst: u64,
        /// Rate in bit/s.
        rate: u64,
    },
    /// A number of frames in any period.
    Count {
        /// Largest number of frames that the talker sends in less than `period` ns.
        frames: u64,
        /// Length of the period in ns.
        period: u64,
    },
}

/// A row of a traffic file with a limit of its filter's frames. The filter must belong to a group of the plan.
#[derive(Clone, Copy)]
pub struct LimitedRow {
    /// Number of the filter whose frames the row describes.
    pub filter: u32,
    /// Limit of the filter's frames.
    pub limit: FrameLimit,
    /// Captured length of the shortest frame in octets.
    pub least: u32,
    /// Captured length of the longest frame in octets.
    pub longest: u32,
    /// Largest allowed delay in each queue in ns, from arrival to the end of transmission. `None` means no limit.
    pub deadline: Option<u64>,
}

/// Returns whether a row's table has a key that limits the frames (`LIMIT_KEYS`). Otherwise `read_talker_row` reads a periodic row.
pub(crate) fn is_limited(table: &Table) -> bool
    ensures { result ≡ spec.is_limited (table_view table.now) }
{
    has_any_key(table, &LIMIT_KEYS)
}

/// Returns whether a row with a limit has only keys that suit the limit. With a burst or a rate, it can't have `frames` and `period`.
/// `read_limited_row` calls it.
fn has_limited_keys(table: &Table) -> bool
    ensures { result ≡ spec.has_limited_keys (table_view table.now) }
{
    if has_any_key(table, &RATE_KEYS) {
        has_only(table, &RATE_ROW_KEYS)
    } else {
        has_only(table, &COUNT_ROW_KEYS)
    }
}

/// Reads the burst and the rate of row `index`, from 1, or returns the first fault. `read_limit` calls it.
#[tactic(auto, unfolding(crate::specs::LimitedRows::read_rate))]
fn read_rate(index: u32, table: &Table) -> Result<FrameLimit, NetFault>
    ensures reads { Gives result (spec.read_rate index (table_view table.now)) }
    ensures limit { IfOk result IsFrameLimit }
    ensures takes_no_memory { IfErr result (λ e. ¬ (e ≡ NoMemory)) }
{
    let burst = read_required(table, row_key(index, NetField::Burst), &TALKER_BURST)?;
    let rate = read_required(table, row_key(index, NetField::Rate), &TALKER_RATE)?;
    Ok(FrameLimit::Rate { burst, rate })
}

/// Reads the number of frames and the period of row `index`, from 1, or returns the first fault. `read_limit` calls it.
#[tactic(auto, unfolding(crate::specs::LimitedRows::read_count))]
fn read_count(index: u32, table: &Table) -> Result<FrameLimit, NetFault>
    ensures reads { Gives result (spec.read_count index (table_view table.now)) }
    ensures limit { IfOk result IsFrameLimit }
    ensures takes_no_memory { IfErr result (λ e. ¬ (e ≡ NoMemory)) }
{
    let frames = read_required(table, row_key(index, NetField::Frames), &FRAMES)?;
    let period = read_required(table, row_key(index, NetField::Period), &PERIOD)?;
    Ok(FrameLimit::Count { frames, period })
}

/// Reads the limit of row `index`: burst and rate if the table has one of these keys, otherwise a number of frames in any period. If the
/// limit is refused, returns its fault.
///
/// `read_limited_row` calls it.
fn read_limit(index: u32, table: &Table) -> Result<FrameLimit, NetFault>
    ensures reads { Gives result (spec.read_limit index (table_view table.now)) }
    ensures limit { IfOk result IsFrameLimit }
    ensures takes_no_memory { IfErr result (λ e. ¬ (e ≡ NoMemory)) }
{
    if has_any_key(table, &RATE_KEYS) {
        read_rate(index, table)
    } else {
        read_count(index, table)
    }
}

/// Returns the captured length in octets of the longest frame that can keep a limit. A burst must contain the frame and its frame check
/// sequence of 4 octets. `read_limited_row` calls it.
fn limit_longest(limit: FrameLimit) -> u64
    requires limit { IsFrameLimit limit }
    ensures { result ≡ spec.limit_longest limit }
{
    match limit {
        FrameLimit::Rate { burst, rate: _ } => OCTETS.high.min(burst - 4),
        FrameLimit::Count { .. } => OCTETS.high,
    }
}

/// Reads traffic row `index`, from 1, from its table: a row that limits the filter's frames. Returns the row's first fault if it has one.
/// `read_talker_row` calls it.
#[tactic(auto, unfolding(crate::specs::LimitedRows::read_limited_row))]
pub(crate) fn read_limited_row(index: u32, table: &Table) -> Result<LimitedRow, NetFault>
    ensures reads { Gives result (spec.read_limited_row index (table_view table.now)) }
    ensures row { IfOk result IsLimitedRow }
    ensures takes_no_memory { IfErr result (λ e. ¬ (e ≡ NoMemory)) }
{
    if !has_limited_keys(table) {
        return Err(NetFault::UnknownKey(NetSection::Traffic, index));
    }
    let filter = read_required(table, row_key(index, NetField::Filter), &NUMBER)?;
    let limit = read_limit(index, table)?;
    let least = read_required(table, row_key(index, NetField::Least), &OCTETS)?;
    let longer = NumberRange {
        low: least,
        high: limit_longest(limit),
    };
    let longest = read_required(table, row_key(index, NetField::Longest), &longer)?;
    let deadline = read_optional(table, row_key(index, NetField::Deadline), &DEADLINE)?;
    Ok(LimitedRow {
        filter: filter as u32,
        limit,
        least: least as u32,
        longest: longest as u32,
        deadline,
    })
}
