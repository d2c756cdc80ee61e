//! An allocator that refuses a single allocation. Tests use it to refuse each allocation of a call.
use std::alloc::{AllocError, Allocator};
use std::cell::Cell;

/// Passes calls to another allocator, and refuses a single allocation.
pub struct RefusesOne<B: Allocator> {
    inner: B,
    /// Number of allocations up to the refused one, itself included.
    until: Cell<u64>,
}

impl<B: Allocator> RefusesOne<B> {
    /// Refuses allocation number `n`, from 1.
    pub fn new(inner: B, n: u64) -> RefusesOne<B> {
        RefusesOne {
            inner,
            until: Cell::new(n),
        }
    }

    /// Whether the allocation was refused.
    pub fn has_refused(&self) -> bool {
        let until = self.until.get();
        until == 0 || until > u64::MAX / 2
    }

    /// Returns the number of allocations up to the refused one, itself included. A call's allocations are the difference before and after
    /// it.
    pub fn growths_left(&self) -> u64 {
        self.until.get()
    }

    /// Returns the inner allocator.
    pub fn inner(&self) -> &B {
        &self.inner
    }
}

impl<B: Allocator> Drop for RefusesOne<B> {
    fn drop(self) {
        let Self { inner: _, until: _ } = self;
    }
}

/// Counts an allocation down, and returns whether it is refused.
fn count_down(until: &Cell<u64>) -> bool {
    let n = until.get();
    until.set(n.wrapping_sub(1));
    n == 1
}

unsafe impl<B: Allocator> Allocator for RefusesOne<B> {
    ghost dealloc_token = { λ heap ty ptr. B.dealloc_token heap.inner ty ptr };

    fn allocate(&self, size: usize, align: usize) -> Result<*mut u8, AllocError> {
        if count_down(&self.until) {
            return Err(AllocError);
        }
        self.inner.allocate(size, align)
    }

    unsafe fn deallocate(&self, ptr: *mut u8, size: usize, align: usize) {
        self.inner.deallocate(ptr, size, align);
    }
}
