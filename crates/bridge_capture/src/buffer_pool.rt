//! Pool of buffers of frames that left, for reuse.
ghost use Rattle.std.specs.Prelude.{◌≡◌, [], ◌≤◌, ◌+◌, ◌-◌, IfOk};

use bridge_limits::NoMemory;
use std::alloc::Allocator;
use std::marker::Model;

/// Largest number of pooled buffers.
const MAX_BUFFERS: usize = 4096;

/// Pool of up to 4,096 buffers. Their contents are never read.
#[derive(Drop)]
pub struct BufferPool<A: Allocator + Copy> {
    /// Allocator of new buffers.
    alloc: A,
    /// Buffers that `take` returns.
    kept: Vec<Vec<u8, A>, A>,
}

impl<A: Allocator + Copy> Model for BufferPool<A> {
    ghost use Rattle.std.specs.Prelude.{ℕ, length};

    /// Number of pooled buffers.
    ghost Value = { ℕ };

    ghost view = { λ spares. length spares.kept.items };
}

impl<A: Allocator + Copy> BufferPool<A> {
    /// Makes a pool of capacity 0: `put` drops each buffer, and `take` returns new ones. Allocates no memory. `Bridge::new` of
    /// `bridge_core` calls it.
    pub fn without_capacity(alloc: A) -> BufferPool<A>
        ensures { result ≡ 0 }
    {
        BufferPool {
            alloc,
            kept: Vec::new(alloc),
        }
    }

    /// Makes an empty pool. Allocates memory once, for the list of buffers. `make_buffer_pool` of `bridge_core` calls it.
    pub fn new(alloc: A) -> Result<BufferPool<A>, NoMemory>
        ensures none { IfOk result (λ spares. spares ≡ 0) }
    {
        let kept = Vec::with_capacity(alloc, MAX_BUFFERS)?;
        Ok(BufferPool { alloc, kept })
    }

    /// Returns an emptied buffer from the pool, or a new one. Allocates no memory. A run takes from here the buffer for the next frame that
    /// it reads.
    #[inline(always)]
    pub fn take(&mut self) -> Vec<u8, A>
        ensures fewer { self.new ≡ self.old - 1 }
        ensures empty { result.items ≡ [] }
    {
        match self.kept.pop() {
            Some(mut octets) => {
                // The caller overwrites the contents. Clearing makes the length a separate value, so that no load waits for the
                // last store into the list.
                octets.clear();
                octets
            }
            None => Vec::new(self.alloc),
        }
    }

    /// Adds a buffer to the pool, so that a later frame needs no allocation. Drops it if the pool is full. Allocates no memory.
    #[inline(always)]
    pub fn put(&mut self, octets: Vec<u8, A>)
        ensures kept { (self.old ≤ self.new) × (self.new ≤ self.old + 1) }
    {
        if self.kept.len() < self.kept.capacity() {
            match self.kept.push(octets) {
                Ok(()) => {}
                Err(_) => unreachable!(),
            }
        }
    }
}
