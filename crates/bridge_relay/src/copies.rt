//! Copies of a frame's octets, in buffers from the pool of spare buffers.
ghost use Rattle.std.specs.Prelude.{◌≡◌, [], length, IfOk, All};
ghost use Rattle.bridge_semantics.specs.Offers.{leaving_octets};

use bridge_capture::BufferPool;
use bridge_cycle::NoMemory;
use bridge_frame::mark_drop_eligible;
use std::alloc::{AllocError, Allocator};
use std::mem;

/// Returns a copy of `octets`, in a spare buffer of the pool, or in a new buffer if the pool is empty. `fill_copies` calls it for each
/// copy.
fn copy_octets<A: Allocator + Copy>(
    octets: &[u8],
    spares: &mut BufferPool<A>,
) -> Result<Vec<u8, A>, AllocError>
    ensures { IfOk result (λ v. v.items ≡ octets.now) }
{
    let mut copy = spares.take();
    copy.extend_from_slice(octets)?;
    Ok(copy)
}

/// Returns the empty list `list` with `count` copies of `octets`, in spare buffers as far as the pool has any. `make_copies` calls it.
fn fill_copies<A: Allocator + Copy>(
    list: Vec<Vec<u8, A>, A>,
    octets: &[u8],
    count: usize,
    spares: &mut BufferPool<A>,
) -> Result<Vec<Vec<u8, A>, A>, NoMemory>
    requires none { list.items ≡ [] }
    ensures count { IfOk result (λ copies. length copies.items ≡ count) }
    ensures octets { IfOk result (λ copies. All (λ v. v.items ≡ octets.now) copies.items) }
{
    let mut copies = list;
    let Ok(()) = copies.reserve(count) else {
        return Err(NoMemory);
    };
    for _ in 0..count {
        let Ok(copy) = copy_octets(octets, spares) else {
            return Err(NoMemory);
        };
        copies.push_reserved(copy);
    }
    Ok(copies)
}

/// Returns `count` copies of `octets`, in spare buffers as far as the pool has any. Unless `count` is 0, the result uses the memory of
/// `list`, which is moved out. `prepare_copies` calls it.
#[inline(always)]
pub fn make_copies<A: Allocator + Copy>(
    alloc: A,
    list: &mut Vec<Vec<u8, A>, A>,
    octets: &[u8],
    count: usize,
    spares: &mut BufferPool<A>,
) -> Result<Vec<Vec<u8, A>, A>, NoMemory>
    ensures count { IfOk result (λ copies. length copies.items ≡ count) }
    ensures octets { IfOk result (λ copies. All (λ v. v.items ≡ octets.now) copies.items) }
{
    if count == 0 {
        return Ok(Vec::new(alloc));
    }
    let mut list = mem::replace(list, Vec::new(alloc));
    list.clear();
    fill_copies(list, octets, count, spares)
}

/// Puts the copies of a refused frame back into the pool `spares`. Returns their list, now empty, for the next frame. `keep_copies` calls
/// it.
pub fn return_copies<A: Allocator + Copy>(
    copies: Vec<Vec<u8, A>, A>,
    spares: &mut BufferPool<A>,
) -> Vec<Vec<u8, A>, A> {
    let mut list = copies;
    for _ in 0..list.len() {
        if let Some(octets) = list.pop() {
            spares.put(octets);
        }
    }
    list
}

/// Returns the frame's octets. If `eligible` is true and the frame has a tag, the tag is marked drop eligible. `offer_copy` calls it before
/// the port gets the copy.
#[inline(always)]
pub fn mark_if_eligible<A: Allocator + Copy>(octets: Vec<u8, A>, eligible: bool) -> Vec<u8, A>
    ensures marked { result.items ≡ leaving_octets eligible octets.items }
    ensures kept { length result.items ≡ length octets.items }
{
    let mut octets = octets;
    if eligible {
        let _tagged = mark_drop_eligible(&mut octets);
    }
    octets
}
