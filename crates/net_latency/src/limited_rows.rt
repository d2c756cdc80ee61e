//! Delays of a group's talkers in shared queues, and the test whether their filters' gates and meters admit the talkers. `bounds --traffic`
//! prints them.
ghost use Rattle.std.specs.Prelude.{◌≡◌, ◌*◌, ◌++◌, ◌∷◌, ◌≤◌, IfOk, List, OnOk, Some, [], nat_eq};
ghost use Rattle.std.specs.Int.{div_ceil};
ghost use Rattle.std.specs.Map.{lookup};
ghost use Rattle.bridge_limits.specs.declared.TheConstants.{LONGEST_FRAME};
ghost use Rattle.bridge_meter.specs.Colours.{octet_units};
ghost use Rattle.bridge_semantics.specs.Events.{metered_octets};
ghost use Rattle.bridge_check.specs.ReachTables.{filter_reach};
ghost use Rattle.bridge_groups.specs.SharedQueues.{IsSharedQueue};
ghost use Rattle.bridge_groups.specs.declared.shared_queues.SharedQueue.{SharedQueue};
ghost use Rattle.bridge_groups.specs.GroupRows.{AreSharedQueues};
ghost use Rattle.net_file.specs.LimitedRows.{IsFrameLimit, IsLimitedRow};
ghost use Rattle.net_latency.specs.LimitedTraffic as spec;
ghost use Rattle.net_latency.specs.LimitedTraffic.{AreLimitedTimings};

use crate::bounds::is_reached;
use crate::shared_lines::is_lossy;
use crate::timings::QueueTiming;
use bridge_bounds::{Timing, find_filter, longest_sdu};
use bridge_check::{Accepted, Reach, filter_reach};
use bridge_config::Plan;
use bridge_filter::FilterPlan;
use bridge_frame::occupation;
use bridge_groups::{SharedQueue, admits_talker};
use bridge_limits::NoMemory;
use bridge_meter::UNITS_PER_OCTET;
use net_file::{FrameLimit, LimitedRow};
use std::alloc::Allocator;

/// Returns the metered octets of `frames` frames of `longest` octets: each is padded to 60 octets and has a check sequence of 4.
/// `limit_burst` and `limit_rate` call it.
fn metered_frames(frames: u64, longest: u32) -> u64
    requires frames { frames ≤ 1024 }
    requires longest { longest ≤ LONGEST_FRAME }
    ensures octets { result ≡ metered_octets longest * frames }
    ensures few { result ≤ 9_441_280 }
{
    u64::from(longest.max(60) + 4) * frames
}

/// Returns the largest burst, in metered octets, of a talker that keeps `limit` with frames of at most `longest` octets. Its filter's meter
/// must pass this burst. `admits_row` and `put_lacking_tokens` call it.
pub(crate) fn limit_burst(limit: FrameLimit, longest: u32) -> u64
    requires limit { IsFrameLimit limit }
    requires longest { longest ≤ LONGEST_FRAME }
    ensures { result ≡ spec.limit_burst limit longest }
{
    match limit {
        FrameLimit::Rate { burst, rate: _ } => burst,
        FrameLimit::Count { frames, period: _ } => metered_frames(frames, longest),
    }
}

/// Returns the least rate in bit/s, rounded up, with which `octets` octets are sent in any `period` ns. `limit_rate` calls it.
fn least_rate(octets: u64, period: u64) -> u64
    requires octets { octets ≤ 9_441_280 }
    requires some { 1 ≤ period }
    ensures { result ≡ div_ceil (octets * octet_units) period }
{
    (octets * UNITS_PER_OCTET as u64).div_ceil(period)
}

/// Returns the least rate in bit/s that suffices for a talker that keeps `limit` with frames of at most `longest` octets. Its filter's
/// meter must have this rate. `admits_row` and `put_lacking_tokens` call it.
pub(crate) fn limit_rate(limit: FrameLimit, longest: u32) -> u64
    requires limit { IsFrameLimit limit }
    requires longest { longest ≤ LONGEST_FRAME }
    ensures { result ≡ spec.limit_rate limit longest }
{
    match limit {
        FrameLimit::Rate { burst: _, rate } => rate,
        FrameLimit::Count { frames, period } => least_rate(metered_frames(frames, longest), period),
    }
}

/// Returns whether a filter passes each frame of a row's talker, by the filter's gate, SDU limit and meter. `limited_timings` calls it.
fn admits_row<A: Allocator + Copy>(plan: &Plan<A>, row: &LimitedRow, filter: &FilterPlan) -> bool
    requires row { IsLimitedRow row.now }
    ensures { result ≡ spec.admits_row plan.now row.now (Some filter.now) }
{
    let most = longest_sdu(plan, filter.handle, row.longest);
    let burst = limit_burst(row.limit, row.longest);
    let rate = limit_rate(row.limit, row.longest);
    admits_talker(plan, filter, most, burst, rate)
}

/// Returns whether a filter is in the group of a shared queue, and its frames can enter this queue. `reach` is the filter's reach.
/// `push_limited_timing` calls it.
fn shares_queue<A: Allocator + Copy>(
    plan: &Plan<A>,
    shared: &SharedQueue,
    filter: &FilterPlan,
    reach: &Reach,
) -> bool
    requires reach { reach.now ≡ filter_reach plan.now filter.now }
    requires from { 1 ≤ shared.now.port }
    requires to { shared.now.port ≤ 16 }
    ensures { result ≡ spec.shares_queue plan.now shared.now (Some filter.now) }
{
    match filter.group {
        Some(own) => own == shared.group
            && is_reached(plan, filter, reach, shared.port, shared.class),
        None => false,
    }
}

/// A row with a frame limit, its filter, and whether the filter admits the row's talker.
#[derive(Clone, Copy)]
struct TestedRow {
    /// Number of the row in the file, from 1.
    index: u32,
    /// Row of the file.
    row: LimitedRow,
    /// Filter of the row.
    filter: FilterPlan,
    /// Which queues the filter's frames can enter, computed once for all queues.
    reach: Reach,
    /// Whether the filter admits the talker.
    admits: bool,
}

/// Appends the delays of a tested row in a shared queue to `made`, if frames of the row's filter can enter the queue. `tested_timings`
/// calls it.
fn push_limited_timing<A: Allocator + Copy>(
    accepted: &Accepted<A>,
    shared: &SharedQueue,
    tested: &TestedRow,
    made: &mut Vec<QueueTiming, A>,
) -> Result<(), NoMemory>
    requires shared { IsSharedQueue accepted.now shared.now }
    requires filter { lookup (nat_eq tested.now.row.filter) accepted.now.filters ≡ Some tested.now.filter }
    requires reach { tested.now.reach ≡ filter_reach accepted.now tested.now.filter }
    requires admits { tested.now.admits ≡ spec.admits_row accepted.now tested.now.row (Some tested.now.filter) }
    ensures one_more { OnOk result ((queues : List SharedQueue)
        → AreLimitedTimings accepted.now tested.now.index tested.now.row queues made.old.items
        → AreLimitedTimings accepted.now tested.now.index tested.now.row (queues ++ shared.now ∷ []) made.new.items) }
{
    let plan = accepted.plan();
    let Some(port) = plan.port(shared.port) else {
        return Ok(());
    };
    if !shares_queue(plan, shared, &tested.filter, &tested.reach) {
        return Ok(());
    }
    made.push(QueueTiming {
        row: tested.index,
        filter: tested.row.filter,
        port: shared.port,
        class: shared.class,
        passes: tested.admits & !is_lossy(shared.room, shared.capacity),
        timing: Timing {
            worst: shared.bound,
            best: occupation(tested.row.least, port.speed).min(shared.bound),
            phases: None,
        },
        deadline: tested.row.deadline,
    })?;
    Ok(())
}

/// Returns the delays of a tested row, one item for each shared queue that frames of its filter can enter. `limited_timings` calls it.
fn tested_timings<A: Allocator + Copy>(
    alloc: A,
    accepted: &Accepted<A>,
    shared: &[SharedQueue],
    tested: &TestedRow,
) -> Result<Vec<QueueTiming, A>, NoMemory>
    requires shared { AreSharedQueues accepted.now shared.now }
    requires filter { lookup (nat_eq tested.now.row.filter) accepted.now.filters ≡ Some tested.now.filter }
    requires reach { tested.now.reach ≡ filter_reach accepted.now tested.now.filter }
    requires admits { tested.now.admits ≡ spec.admits_row accepted.now tested.now.row (Some tested.now.filter) }
    ensures { IfOk result (λ v. AreLimitedTimings accepted.now tested.now.index tested.now.row shared.now v.items) }
{
    let mut made = Vec::new(alloc);
    for queue in shared {
        let Ok(()) = push_limited_timing(accepted, queue, tested, &mut made) else {
            return Err(NoMemory);
        };
    }
    Ok(made)
}

/// Returns the delays of row `index`, one item for each shared queue that frames of its filter can enter. Returns an empty list if the plan
/// lacks the filter. `talker_row_timings` calls it.
#[tactic(auto, using(crate::proofs::LimitedRows::limited_none))]
pub(crate) fn limited_timings<A: Allocator + Copy>(
    alloc: A,
    accepted: &Accepted<A>,
    shared: &[SharedQueue],
    index: u32,
    row: &LimitedRow,
) -> Result<Vec<QueueTiming, A>, NoMemory>
    requires shared { AreSharedQueues accepted.now shared.now }
    requires row { IsLimitedRow row.now }
    ensures { IfOk result (λ v. AreLimitedTimings accepted.now index row.now shared.now v.items) }
{
    let plan = accepted.plan();
    let Some(filter) = find_filter(plan.filters(), row.filter) else {
        return Ok(Vec::new(alloc));
    };
    let reach = filter_reach(plan, &filter);
    let tested = TestedRow {
        index,
        row: *row,
        filter,
        reach,
        admits: admits_row(plan, row, &filter),
    };
    tested_timings(alloc, accepted, shared, &tested)
}
