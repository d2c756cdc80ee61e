//! The recorders of all filters of a bridge, and quick look-ups of a recorder by its filter's number.
ghost use Rattle.std.specs.Prelude.{◌≡◌, ◌<◌, true, ◌+◌, nat_eq, Some, OnOk, OnErr, IfOk, IfSome, IsSome, length, slice_get};
ghost use Rattle.std.specs.Map.{keys_of, lookup};
ghost use Rattle.bridge_filter.specs.Verdicts.{HasValidPriority};
ghost use Rattle.bridge_filter.specs.Plans.{are_numbers_distinct, is_listed};
ghost use Rattle.bridge_relay.specs.Records.{empty_recorder, empty_recorders, HasRecorded};
ghost use Rattle.bridge_relay.specs.Recorders.{RecorderState, update_number, update_if_some, recorders_with_answer, with_departure, with_verdict, without_room, with_room, AwaitsVerdict, CanReserve, OwesCopy, OwesCopies};

use crate::filter_recorder::{FilterRecord, FilterRecorder};
use bridge_cycle::NoMemory;
use bridge_filter::{FilterPlan, Verdict};
use bridge_port::Refusal;
use bridge_semantics::{Origin, StoredDeparture, StoredDrop};
use indexmap::IndexMap;
use std::alloc::{AllocError, Allocator};
use std::hash::{BuildHasherDefault, FoldHasher};

/// Recorders of all filters of a relay, by filter number.
pub type FilterRecorders<A> = IndexMap<u32, FilterRecorder<A>, BuildHasherDefault<FoldHasher>, A>;

/// Returns an empty recorder for each filter of a plan. Fails only if memory runs out. `Relay::new` calls it.
pub fn make_recorders<A: Allocator + Copy>(
    alloc: A,
    filters: &[(u32, FilterPlan)],
) -> Result<FilterRecorders<A>, AllocError>
    requires { are_numbers_distinct filters.now ≡ true }
    ensures { IfOk result (λ tables. tables.entries ≡ empty_recorders filters.now) }
{
    let Ok(mut tables) = IndexMap::with_capacity(alloc, filters.len()) else {
        return Err(AllocError);
    };
    for (number, _) in filters {
        let Ok(_) = tables.insert(*number, FilterRecorder::new(alloc)) else {
            return Err(AllocError);
        };
    }
    Ok(tables)
}

/// Returns the difference of the first two filter numbers, at least 1. `index_by_guess` assumes that all numbers rise by this step.
#[inline(always)]
fn number_step<A: Allocator + Copy>(tables: &FilterRecorders<A>, first: u32) -> u32
    ensures { 0 < result }
{
    match tables.get_index(1) {
        Some((second, _)) => second.saturating_sub(first).max(1),
        None => 1,
    }
}

/// Returns `apart` divided by `step`, rounded down. The steps 1, 10 and 100 are common, and division by a constant is faster than by a
/// variable. `index_by_guess` calls it.
#[inline(always)]
fn whole_steps(apart: u32, step: u32) -> u32
    requires { 0 < step }
{
    match step {
        1 => apart,
        10 => apart / 10,
        100 => apart / 100,
        _ => apart / step,
    }
}

/// Returns `place` if the recorder at this index has number `number`, otherwise `None`. Look-ups test hints and guesses by it.
/// `index_by_guess` and `recorder_index_by_hint` call it.
#[inline(always)]
fn index_if_number<A: Allocator + Copy>(
    tables: &FilterRecorders<A>,
    place: usize,
    number: u32,
) -> Option<usize>
    ensures { IfSome result (λ place. slice_get (keys_of tables.now.entries) place ≡ Some number) }
{
    match tables.get_index(place) {
        Some((own, _)) if *own == number => Some(place),
        _ => None,
    }
}

/// Returns the index of the recorder with number `number` without a hash, or `None` if the guess is wrong. Numbers often rise in equal
/// steps; the catch-all filter is often last. `recorder_index` calls it.
#[inline(always)]
fn index_by_guess<A: Allocator + Copy>(tables: &FilterRecorders<A>, number: u32) -> Option<usize>
    ensures { IfSome result (λ place. slice_get (keys_of tables.now.entries) place ≡ Some number) }
{
    let (first, _) = tables.get_index(0)?;
    let apart = number.saturating_sub(*first);
    let place = whole_steps(apart, number_step(tables, *first)) as usize;
    match index_if_number(tables, place, number) {
        Some(place) => Some(place),
        None => index_if_number(tables, tables.len().saturating_sub(1), number),
    }
}

/// Returns the index of the recorder with number `number`, which must exist, by its hash. `recorder_index` calls it after a wrong guess.
#[inline(never)]
fn index_by_hash<A: Allocator + Copy>(tables: &FilterRecorders<A>, number: u32) -> usize
    requires { IsSome (lookup (nat_eq number) tables.now.entries) }
    ensures { slice_get (keys_of tables.now.entries) result ≡ Some number }
{
    match tables.get_index_of(&number) {
        Some(place) => place,
        None => unreachable!(),
    }
}

/// Returns the index of the recorder with number `number`, which must exist. Guesses the index before it uses the hash.
/// `recorder_index_by_hint` calls it after a wrong hint.
#[inline(always)]
fn recorder_index<A: Allocator + Copy>(tables: &FilterRecorders<A>, number: u32) -> usize
    requires { IsSome (lookup (nat_eq number) tables.now.entries) }
    ensures { slice_get (keys_of tables.now.entries) result ≡ Some number }
{
    match index_by_guess(tables, number) {
        Some(place) => place,
        None => index_by_hash(tables, number),
    }
}

/// Returns the index of the recorder with number `number`, which must exist. Tries the index `hint` first. `record_departure`,
/// `record_answer` and 3 more call it.
#[inline(always)]
fn recorder_index_by_hint<A: Allocator + Copy>(
    tables: &FilterRecorders<A>,
    hint: usize,
    number: u32,
) -> usize
    requires { IsSome (lookup (nat_eq number) tables.now.entries) }
    ensures { slice_get (keys_of tables.now.entries) result ≡ Some number }
{
    match index_if_number(tables, hint, number) {
        Some(place) => place,
        None => recorder_index(tables, number),
    }
}

/// Records that a copy of a frame of filter `flow` left, `delay` ns after the frame's arrival. Does nothing for an unfiltered frame
/// (`None`). Tries index `hint` first. `advance` calls it.
#[inline(always)]
pub fn record_departure<A: Allocator + Copy>(
    tables: &mut FilterRecorders<A>,
    flow: Option<u32>,
    hint: usize,
    departure: StoredDeparture,
    delay: u64,
)
    requires { IfSome flow (OwesCopy tables.old.entries) }
    ensures { tables.new.entries ≡ update_if_some flow (λ t. with_departure t departure delay) tables.old.entries }
{
    if let Some(number) = flow {
        let place = recorder_index_by_hint(tables, hint, number);
        let (_, table) = tables.pair_mut(place);
        table.record_departure(departure, delay);
    }
}

/// If `answer` is a refusal by port `port`, records a dropped copy of frame `own` of filter `flow`. Tries index `hint` first. Does nothing
/// for an unfiltered frame. `offer_to_port` calls it.
#[inline(always)]
pub fn record_answer<A: Allocator + Copy>(
    tables: &mut FilterRecorders<A>,
    flow: Option<u32>,
    hint: usize,
    own: u32,
    port: u8,
    answer: Result<(), Refusal>,
)
    requires { IfSome flow (OwesCopy tables.old.entries) }
    ensures { tables.new.entries ≡ recorders_with_answer tables.old.entries flow own port answer }
{
    if let Err(refusal) = answer
        && let Some(number) = flow
    {
        let place = recorder_index_by_hint(tables, hint, number);
        let (_, table) = tables.pair_mut(place);
        table.record_drop(StoredDrop::new(own, port, refusal));
    }
}

/// Reserves capacity for a verdict of filter `flow` and for `copies` copies of its frame. Does nothing for an unfiltered frame (`None`).
/// Tries index `hint` first. `prepare_copies` calls it.
#[inline(always)]
pub fn reserve_room<A: Allocator + Copy>(
    tables: &mut FilterRecorders<A>,
    flow: Option<u32>,
    hint: usize,
    copies: usize,
) -> Result<(), NoMemory>
    requires there { IfSome flow (CanReserve tables.old.entries copies) }
    ensures ok { OnOk result (tables.new.entries ≡ update_if_some flow (λ t. with_room t copies) tables.old.entries) }
    ensures err { OnErr result (tables.new.entries ≡ tables.old.entries) }
{
    match flow {
        Some(number) => {
            let place = recorder_index_by_hint(tables, hint, number);
            let (_, table) = tables.pair_mut(place);
            table.reserve_room(copies)
        }
        None => Ok(()),
    }
}

/// Records a verdict of filter `number` and its frame's origin, and returns the frame's number among the filter's frames. Tries the index
/// `hint` first. `police_frame` calls it.
#[inline(always)]
pub fn record_verdict<A: Allocator + Copy>(
    tables: &mut FilterRecorders<A>,
    number: u32,
    hint: usize,
    verdict: Verdict,
    origin: Origin,
) -> u32
    requires open { AwaitsVerdict tables.old.entries number }
    requires priority { HasValidPriority verdict }
    ensures told { tables.new.entries ≡ update_number number (λ t. with_verdict t verdict origin) tables.old.entries }
    ensures own { (t : RecorderState) → lookup (nat_eq number) tables.old.entries ≡ Some t
        → result ≡ length t.verdicts + 1 }
{
    let place = recorder_index_by_hint(tables, hint, number);
    let (_, table) = tables.pair_mut(place);
    table.record_verdict(verdict, origin)
}

/// Releases the reservation of `copies` copies of a frame that filter `number` refused. Tries the index `hint` first. `Relay::release_room`
/// calls it.
#[inline(always)]
pub fn release_room<A: Allocator + Copy>(
    tables: &mut FilterRecorders<A>,
    number: u32,
    hint: usize,
    copies: usize,
)
    requires { OwesCopies tables.old.entries copies number }
    ensures { tables.new.entries ≡ update_number number (λ t. without_room t copies) tables.old.entries }
{
    let place = recorder_index_by_hint(tables, hint, number);
    let (_, table) = tables.pair_mut(place);
    table.release_room(copies);
}

/// Returns the record of filter `number`, and leaves an empty recorder. Allocates no memory. `make_view` calls it at the end of a run.
pub fn take_filter_record<A: Allocator + Copy>(
    tables: &mut FilterRecorders<A>,
    alloc: A,
    number: u32,
) -> FilterRecord<A>
    requires { is_listed number tables.old.entries ≡ true }
    ensures told { (t : RecorderState) → lookup (nat_eq number) tables.old.entries ≡ Some t → HasRecorded t result }
    ensures fresh { tables.new.entries ≡ update_number number (λ _. empty_recorder) tables.old.entries }
{
    match tables.get_mut(&number) {
        Some(table) => table.take_record(alloc),
        None => unreachable!(),
    }
}
