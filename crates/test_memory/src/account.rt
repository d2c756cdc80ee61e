//! A heap that counts allocations and octets.
use fixture_bridge::RefusesOne;
use linked_list_allocator::LocalHeap;
use std::alloc::{AllocError, Allocator, Global};
use std::process::Abort;

/// A separate heap that counts allocations and octets in use.
pub(crate) type Counting = RefusesOne<LocalHeap>;

/// Number of an allocation that no test reaches.
pub(crate) const NEVER: u64 = 1_000_000;

/// Size of a heap in octets.
const ROOM: usize = 262_144;

/// Account of a heap: number of allocations up to the refused one, and octets in use.
#[derive(Clone, Copy, PartialEq, Eq)]
pub(crate) struct Account {
    pub(crate) left: u64,
    pub(crate) used: usize,
}

/// Returns a heap that refuses allocation number `n`, from 1.
pub(crate) fn counting_heap(alloc: Global, n: u64) -> Result<Counting, AllocError> {
    Ok(RefusesOne::new(LocalHeap::new(alloc, ROOM)?, n))
}

/// An allocator with an account.
pub(crate) trait HasAccount {
    /// Returns the account.
    fn account(&self) -> Account;
}

/// Tests that an allocator's account still equals `told`.
pub(crate) fn is_untouched<H: Allocator + Copy + HasAccount>(
    rt: &impl Abort,
    heap: H,
    told: Account,
) {
    assert!(rt; heap.account() == told);
}

impl HasAccount for &Counting {
    fn account(&self) -> Account {
        Account {
            left: self.growths_left(),
            used: self.inner().used(),
        }
    }
}
