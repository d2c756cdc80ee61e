//! Refuses the allocations of a call, one by one.
use crate::refuses_one::RefusesOne;
use std::alloc::Allocator;
use std::test::Fail;

/// How a call ended.
#[derive(Clone, Copy, Debug)]
pub enum Ending {
    /// The result equals the result with enough memory.
    Whole,
    /// The call reported that memory ran out.
    NoMemory,
    /// The call had another result, which is an error.
    Wrong,
}

impl Ending {
    /// Returns `Whole` if `is_whole` is true, otherwise `NoMemory` if `is_no_memory` is true, otherwise `Wrong`.
    pub fn from_flags(is_whole: bool, is_no_memory: bool) -> Ending {
        if is_whole {
            return Ending::Whole;
        }
        if is_no_memory {
            return Ending::NoMemory;
        }
        Ending::Wrong
    }
}

/// Repeats a call, each time with the next allocation refused, until none is refused. A refusal must end in `NoMemory`, the last call in
/// `Whole`. Returns the number of allocations.
pub fn refuse_each<A: Allocator + Copy, F: FnMut(&RefusesOne<A>) -> Ending>(
    alloc: A,
    mut call: F,
) -> Result<u64, Fail>
    requires { F.IsAlwaysCallable call }
{
    for n in 1..100_000u64 {
        let gate = RefusesOne::new(alloc, n);
        let ending = call(&gate);
        match (ending, gate.has_refused()) {
            (Ending::Whole, false) => return Ok(n - 1),
            (Ending::NoMemory, true) => {}
            (ending, refused) => {
                return Err(Fail::new(format_args!("growth {n}: {ending:?}, refused {refused}")));
            }
        }
    }
    Err(Fail::from("some growth was always refused"))
}
