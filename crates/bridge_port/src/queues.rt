//! Queues of an egress port, one for each class, as rings of limited capacity.
ghost use Rattle.std.specs.Prelude.{◌≡◌, nat_le, ◌<◌, [], ◌∷◌, ◌++◌, Option, length, replicate, IfOk, slice_get, slice_index_or, slice_set, drop, vec_len};
ghost use Rattle.std.specs.Option.{option_copied};
ghost use Rattle.bridge_port.specs.GateSchedule.{are_valid_rooms};
ghost use Rattle.bridge_port.specs.Rings.{ring_queues, ring_rooms};

use crate::item::Item;
use bridge_cycle::NoMemory;
use circular_buffer::HeapCircularBuffer;
use std::alloc::Allocator;

/// Largest queue capacity in frames.
pub const LARGEST_ROOM: u16 = 4_096;

/// Whether each queue capacity is 1 to `LARGEST_ROOM` frames. A port is made only with valid capacities.
pub fn are_valid_rooms(rooms: &[u16; 8]) -> bool
    ensures { result ≡ are_valid_rooms rooms.now }
{
    rooms.iter().all(|room| 1 <= *room && *room <= LARGEST_ROOM)
}

/// Makes eight empty rings with these capacities in frames; memory is reserved now, so queueing can't fail. `new` calls it.
pub fn with_rooms<T: Drop, A: Allocator + Copy>(
    alloc: A,
    rooms: &[u16; 8],
) -> Result<Vec<HeapCircularBuffer<Item<T>, A>, A>, NoMemory>
    ensures queues { IfOk result (λ rings. ring_queues rings.items ≡ replicate 8 []) }
    ensures rooms { IfOk result (λ rings. ring_rooms rings.items ≡ rooms.now) }
{
    let Ok(mut rings) = Vec::with_capacity(alloc, 8) else {
        return Err(NoMemory);
    };
    for room in rooms {
        let Ok(ring) = HeapCircularBuffer::with_capacity(alloc, *room as usize) else {
            return Err(NoMemory);
        };
        let Ok(()) = rings.push(ring) else {
            return Err(NoMemory);
        };
    }
    Ok(rings)
}

/// Returns the head of the queue of `class`, its oldest item; `None` if the queue is empty. `head_fit` calls it.
#[inline(always)]
pub fn queue_head<T, A: Allocator + Copy>(
    rings: &Vec<HeapCircularBuffer<Item<T>, A>, A>,
    class: usize,
) -> Option<&Item<T>>
    requires { class < vec_len rings.now }
    ensures { option_copied result ≡ slice_get (slice_index_or (ring_queues rings.now.items) class []) 0 }
{
    rings[class].front()
}

/// Whether the queue of `class` is full. If so, the port drops the next copy. `Port::refusal` calls it.
#[inline(always)]
pub fn is_full<T, A: Allocator + Copy>(
    rings: &Vec<HeapCircularBuffer<Item<T>, A>, A>,
    class: usize,
) -> bool
    requires { class < vec_len rings.now }
    ensures { result ≡ nat_le (slice_index_or (ring_rooms rings.now.items) class 0)
        (length (slice_index_or (ring_queues rings.now.items) class [])) }
{
    rings[class].len() >= rings[class].capacity()
}

/// Adds an item at the end of the queue of `class`, which must not be full. `offer` calls it.
#[inline(always)]
pub fn push_item<T: Drop, A: Allocator + Copy>(
    rings: &mut Vec<HeapCircularBuffer<Item<T>, A>, A>,
    class: usize,
    item: Item<T>,
)
    requires class { class < vec_len rings.old }
    requires room { length (slice_index_or (ring_queues rings.old.items) class [])
        < slice_index_or (ring_rooms rings.old.items) class 0 }
    ensures queues { ring_queues rings.new.items ≡ slice_set (ring_queues rings.old.items) class
        (slice_index_or (ring_queues rings.old.items) class [] ++ item ∷ []) }
    ensures rooms { ring_rooms rings.new.items ≡ ring_rooms rings.old.items }
{
    let ring = &mut rings[class];
    match ring.try_push_back(item) {
        Ok(()) => {}
        Err(_) => unreachable!(),
    }
}

/// Removes the head of the queue of `class`, and returns it; `None` if the queue is empty. `start` calls it.
#[inline(always)]
pub fn pop_item<T: Drop, A: Allocator + Copy>(
    rings: &mut Vec<HeapCircularBuffer<Item<T>, A>, A>,
    class: usize,
) -> Option<Item<T>>
    requires { class < vec_len rings.old }
    ensures head { result ≡ slice_get (slice_index_or (ring_queues rings.old.items) class []) 0 }
    ensures queues { ring_queues rings.new.items ≡ slice_set (ring_queues rings.old.items) class
        (drop 1 (slice_index_or (ring_queues rings.old.items) class [])) }
    ensures rooms { ring_rooms rings.new.items ≡ ring_rooms rings.old.items }
{
    let ring = &mut rings[class];
    ring.pop_front()
}
