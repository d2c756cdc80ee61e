//! Copies of a filter's frames, sorted by frame number. The record lists copies in the order of the run, but the table of frames by frame.
ghost use Rattle.std.specs.Prelude.{◌≡◌, ℕ, IfOk};
ghost use Rattle.std.specs.List.Sorted.{IsNonDecreasingBy};
ghost use Rattle.show_tables.specs.FrameTable.{frame_drops, frame_departures};

use bridge_limits::NoMemory;
use bridge_semantics::{
    Departure, Dropped, StoredDeparture, StoredDrop, unpack_departures, unpack_drops,
};
use std::alloc::Allocator;

/// Returns the departures of a filter, sorted by rising frame number. Departures of one frame keep their order. `put_filter_frames` calls
/// it.
pub(crate) fn departures_by_frame<A: Allocator>(
    alloc: A,
    departures: &[StoredDeparture],
) -> Result<Vec<Departure, A>, NoMemory>
    ensures rising { IfOk result (λ sorted. IsNonDecreasingBy (λ (d : Departure). d.own) sorted.items) }
    ensures same { (own : ℕ) → IfOk result (λ sorted. frame_departures own sorted.items
        ≡ frame_departures own departures.now) }
{
    let mut sorted = unpack_departures(alloc, departures)?;
    sorted.sort_by_key(|d| d.own)?;
    Ok(sorted)
}

/// Returns the dropped copies of a filter, sorted by rising frame number. Dropped copies of one frame keep their order. `put_filter_frames`
/// calls it.
pub(crate) fn drops_by_frame<A: Allocator>(
    alloc: A,
    drops: &[StoredDrop],
) -> Result<Vec<Dropped, A>, NoMemory>
    ensures rising { IfOk result (λ sorted. IsNonDecreasingBy (λ (d : Dropped). d.own) sorted.items) }
    ensures same { (own : ℕ) → IfOk result (λ sorted. frame_drops own sorted.items ≡ frame_drops own drops.now) }
{
    let mut sorted = unpack_drops(alloc, drops)?;
    sorted.sort_by_key(|d| d.own)?;
    Ok(sorted)
}

/// Returns the departures of the frame with number `own`. The list must rise by frame number, so a binary search finds them.
/// `put_sorted_frame` calls it.
pub(crate) fn frame_departures(sorted: &[Departure], own: u64) -> &[Departure]
    requires { IsNonDecreasingBy (λ (d : Departure). d.own) sorted.now }
    ensures { result.now ≡ frame_departures own sorted.now }
{
    let first = sorted.partition_point(|d| d.own < own);
    let end = sorted.partition_point(|d| d.own <= own);
    &sorted[first..end]
}

/// Returns the dropped copies of the frame with number `own`. The list must rise by frame number, so a binary search finds them.
/// `put_sorted_frame` calls it.
pub(crate) fn frame_drops(sorted: &[Dropped], own: u64) -> &[Dropped]
    requires { IsNonDecreasingBy (λ (d : Dropped). d.own) sorted.now }
    ensures { result.now ≡ frame_drops own sorted.now }
{
    let first = sorted.partition_point(|d| d.own < own);
    let end = sorted.partition_point(|d| d.own <= own);
    &sorted[first..end]
}
