//! Earliest starts of a port's heads. A head is the oldest item of a queue. The best head can start earliest; at equal times, it has the
//! highest class.
ghost use Rattle.std.specs.Prelude.{◌≡◌, ◌+◌, ◌<◌, ◌≤◌, ℕ, false, true, None, IsSome, [], vec_len, slice_index_or, slice_set};
ghost use Rattle.bridge_port.specs.GateSchedule.{can_fit};
ghost use Rattle.bridge_port.specs.Rings.{ring_queues};
ghost use Rattle.bridge_port.specs.StandsFor.{AreStartable};
ghost use Rattle.bridge_port.specs.Heads as heads;

use crate::item::Item;
use crate::queues::queue_head;
use crate::transmission_gates::TransmissionGates;
use bridge_frame::{Speed, occupation};
use circular_buffer::HeapCircularBuffer;
use std::alloc::Allocator;

/// Returns the better of the head `best` and the head of `class` with the earliest start `fit` in ns. The earlier start is better; at equal
/// times, the higher class.
///
/// `sooner_optional_head` and `add_item_fit` call it.
#[inline(always)]
fn sooner_head(best: Option<(u64, usize)>, fit: u64, class: usize) -> Option<(u64, usize)>
    ensures { result ≡ heads.sooner_head best fit class }
{
    match best {
        Some(found) if found.0 < fit || (found.0 == fit && class < found.1) => Some(found),
        _ => Some((fit, class)),
    }
}

/// Returns the better of the head `best` and the head of `class` with the earliest start `fit` in ns. If the class has no head (`None`),
/// returns `best`. `sooner_head` compares them.
///
/// `refresh_fits` calls it for each class.
fn sooner_optional_head(
    best: Option<(u64, usize)>,
    fit: Option<u64>,
    class: usize,
) -> Option<(u64, usize)>
    ensures { result ≡ heads.sooner_optional_head best fit class }
{
    match fit {
        None => best,
        Some(fit) => sooner_head(best, fit, class),
    }
}

/// Returns the earliest start in ns, `from` or later, of the head of `class`; `None` if the queue is empty.
///
/// `refresh_fit` calls it if the stored start is too early.
// Not inlined, so that the loop of `refresh_fits` stays small.
#[inline(never)]
fn head_fit<T: Drop, A: Allocator + Copy>(
    gates: &mut TransmissionGates<A>,
    speed: Speed,
    rings: &Vec<HeapCircularBuffer<Item<T>, A>, A>,
    class: usize,
    from: u64,
) -> Option<u64>
    requires class { class < 8 }
    requires eight { vec_len rings.now ≡ 8 }
    requires from { from < 9_000_000_000_000_000_000 }
    requires startable { AreStartable gates.old speed class (slice_index_or (ring_queues rings.now.items) class []) }
    ensures fit { heads.IsHeadFit gates.old speed from class (slice_index_or (ring_queues rings.now.items) class [])
        result }
    ensures same { gates.new ≡ gates.old }
{
    match queue_head(rings, class) {
        None => None,
        Some(item) => {
            let occ = occupation(item.len, speed);
            Some(gates.earliest_fit(class, occ, from))
        }
    }
}

/// Returns the earliest time in ns, `from` or later, at which the head of `class` can start; `None` if the queue is empty. Recomputes the
/// stored start only if it is before `from`.
///
/// `refresh_fits` calls it.
#[inline(always)]
fn refresh_fit<T: Drop, A: Allocator + Copy>(
    fits: &mut [Option<u64>; 8],
    gates: &mut TransmissionGates<A>,
    speed: Speed,
    rings: &Vec<HeapCircularBuffer<Item<T>, A>, A>,
    class: usize,
    from: u64,
) -> Option<u64>
    requires class { class < 8 }
    requires eight { vec_len rings.now ≡ 8 }
    requires from { from < 9_000_000_000_000_000_000 }
    requires startable { AreStartable gates.old speed class (slice_index_or (ring_queues rings.now.items) class []) }
    requires kept { heads.is_past (slice_index_or fits.old class None) from ≡ false
        → heads.IsHeadFit gates.old speed from class (slice_index_or (ring_queues rings.now.items) class [])
        (slice_index_or fits.old class None) }
    ensures fit { heads.IsHeadFit gates.old speed from class (slice_index_or (ring_queues rings.now.items) class [])
        result }
    ensures fits { fits.new ≡ slice_set fits.old class result }
    ensures same { gates.new ≡ gates.old }
{
    match fits[class] {
        None => None,
        Some(kept) if from <= kept => Some(kept),
        Some(_) => {
            let fit = head_fit(gates, speed, rings, class, from);
            fits[class] = fit;
            fit
        }
    }
}

/// Recomputes each start time in `fits` that is earlier than `from`, in ns. Returns the earliest start time and its class, on a tie the
/// higher class; `None` if all queues are empty.
///
/// `refresh_after_start` calls it.
pub fn refresh_fits<T: Drop, A: Allocator + Copy>(
    fits: &mut [Option<u64>; 8],
    gates: &mut TransmissionGates<A>,
    speed: Speed,
    rings: &Vec<HeapCircularBuffer<Item<T>, A>, A>,
    from: u64,
) -> Option<(u64, usize)>
    requires eight { vec_len rings.now ≡ 8 }
    requires from { from < 9_000_000_000_000_000_000 }
    requires startable { (c : ℕ) → AreStartable gates.old speed c (slice_index_or (ring_queues rings.now.items) c []) }
    requires kept { (c : ℕ) → heads.is_past (slice_index_or fits.old c None) from ≡ false
        → heads.IsHeadFit gates.old speed from c (slice_index_or (ring_queues rings.now.items) c [])
        (slice_index_or fits.old c None) }
    ensures fits { (c : ℕ)
        → heads.IsHeadFit gates.old speed from c (slice_index_or (ring_queues rings.now.items) c [])
        (slice_index_or fits.new c None) }
    ensures best { heads.IsBestHead fits.new 8 result }
    ensures same { gates.new ≡ gates.old }
{
    let mut best = None;
    for class in 0..8usize {
        let fit = refresh_fit(fits, gates, speed, rings, class, from);
        best = sooner_optional_head(best, fit, class);
    }
    best
}

/// If the queue of `class` is empty, stores in `fits` the earliest start in ns, `from` or later, of a new item of `occ` ns.
///
/// Returns the best head (time and class): `best`, or the new item. `offer` calls it.
#[inline(always)]
pub fn add_item_fit<A: Allocator + Copy>(
    fits: &mut [Option<u64>; 8],
    best: Option<(u64, usize)>,
    gates: &mut TransmissionGates<A>,
    class: usize,
    occ: u64,
    from: u64,
) -> Option<(u64, usize)>
    requires class { class < 8 }
    requires from { from < 9_000_000_000_000_000_000 }
    requires occ { occ ≤ 1_000_000_000 }
    requires ever { can_fit gates.old class occ ≡ true }
    ensures behind { IsSome (slice_index_or fits.old class None) → (fits.new ≡ fits.old) × (result ≡ best) }
    ensures gained { slice_index_or fits.old class None ≡ None
        → heads.GainsHead gates.old from class occ fits.old fits.new best result }
    ensures same { gates.new ≡ gates.old }
{
    match fits[class] {
        Some(_) => best,
        None => {
            let fit = gates.earliest_fit(class, occ, from);
            fits[class] = Some(fit);
            sooner_head(best, fit, class)
        }
    }
}

/// Recomputes the earliest start times after a frame of `class` has started. The link is free from time `from` in ns on, and `left` items
/// remain.
///
/// Returns time and class of the best head; `None` if no item remains.
///
/// `start` calls it.
#[inline(always)]
pub fn refresh_after_start<T: Drop, A: Allocator + Copy>(
    fits: &mut [Option<u64>; 8],
    gates: &mut TransmissionGates<A>,
    speed: Speed,
    rings: &Vec<HeapCircularBuffer<Item<T>, A>, A>,
    class: usize,
    left: u64,
    from: u64,
) -> Option<(u64, usize)>
    requires class { class < 8 }
    requires eight { vec_len rings.now ≡ 8 }
    requires from { from < 9_000_000_000_000_000_000 }
    requires startable { (c : ℕ) → AreStartable gates.old speed c (slice_index_or (ring_queues rings.now.items) c []) }
    requires kept { (c : ℕ) → heads.is_past (slice_index_or fits.old c None) from ≡ false
        → heads.IsHeadFit gates.old speed from c (slice_index_or (ring_queues rings.now.items) c [])
        (slice_index_or fits.old c None) }
    requires none { left ≡ 0 → (c : ℕ)
        → heads.IsHeadFit gates.old speed from c (slice_index_or (ring_queues rings.now.items) c [])
        (slice_index_or (slice_set fits.old class None) c None) }
    requires no_head { left ≡ 0 → (c : ℕ) → slice_index_or (slice_set fits.old class None) c None ≡ None }
    ensures fits { (c : ℕ)
        → heads.IsHeadFit gates.old speed from c (slice_index_or (ring_queues rings.now.items) c [])
        (slice_index_or fits.new c None) }
    ensures best { heads.IsBestHead fits.new 8 result }
    ensures same { gates.new ≡ gates.old }
{
    if left == 0 {
        fits[class] = None;
        return None;
    }
    refresh_fits(fits, gates, speed, rings, from)
}
