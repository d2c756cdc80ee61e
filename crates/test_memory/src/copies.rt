//! Tests that values are allocated by the allocator of their call, independently of the allocator of their parts.
use crate::account::{Account, HasAccount, NEVER, counting_heap};
use crate::parts::{HALVES, make_list, make_plan, make_window_gate};
use bridge_cycle::CyclicList;
use std::alloc::{Allocator, Global};
use std::process::Abort;
use std::test::Fail;

/// Kinds of values that are made from a value in another heap.
#[derive(Clone, Copy, Debug)]
enum Made {
    List,
    ListCopy,
    ScheduleCopy,
    GatePlanCopy,
    PortNumbers,
}

const MADE: [Made; 5] = [
    Made::List,
    Made::ListCopy,
    Made::ScheduleCopy,
    Made::GatePlanCopy,
    Made::PortNumbers,
];

/// Accounts of the first heap before and after a value is made in the second heap, and the value's octets.
#[derive(Clone, Copy)]
struct Making {
    before: Account,
    after: Account,
    made: usize,
}

fn new_making<H: Allocator + Copy + HasAccount>(from: H, to: H, before: Account) -> Making {
    Making {
        before,
        after: from.account(),
        made: to.account().used,
    }
}

/// Drops the value, and returns the accounts if the value was made.
fn finish_making<T: Drop, E>(made: Result<T, E>, making: Making) -> Result<Making, E> {
    match made {
        Ok(made) => {
            drop(made);
            Ok(making)
        }
        Err(fault) => Err(fault),
    }
}

fn new_list<H: Allocator + Copy + HasAccount>(from: H, to: H) -> Result<Making, Fail> {
    let entries = Vec::from_slice(from, &HALVES)?;
    let before = from.account();
    let list = CyclicList::new(to, 0, 1_000_000, entries)?;
    let making = new_making(from, to, before);
    drop(list);
    Ok(making)
}

fn list_copy<H: Allocator + Copy + HasAccount>(from: H, to: H) -> Result<Making, Fail> {
    let list = make_list(from)?;
    let before = from.account();
    let copied = list.copy(to);
    let making = new_making(from, to, before);
    drop(list);
    Ok(finish_making(copied, making)?)
}

fn schedule_copy<H: Allocator + Copy + HasAccount>(from: H, to: H) -> Result<Making, Fail> {
    let plan = make_window_gate(from)?;
    let before = from.account();
    let copied = plan.schedule.copy(to);
    let making = new_making(from, to, before);
    drop(plan);
    Ok(finish_making(copied, making)?)
}

fn gate_plan_copy<H: Allocator + Copy + HasAccount>(from: H, to: H) -> Result<Making, Fail> {
    let plan = make_window_gate(from)?;
    let before = from.account();
    let copied = plan.copy(to);
    let making = new_making(from, to, before);
    drop(plan);
    Ok(finish_making(copied, making)?)
}

fn port_numbers<H: Allocator + Copy + HasAccount>(
    from: H,
    to: H,
    document: Global,
) -> Result<Making, Fail> {
    let plan = make_plan(from, document)?;
    let before = from.account();
    let numbers = plan.port_numbers(to);
    let making = new_making(from, to, before);
    drop(plan);
    Ok(finish_making(numbers, making)?)
}

fn make<H: Allocator + Copy + HasAccount>(
    made: Made,
    from: H,
    to: H,
    document: Global,
) -> Result<Making, Fail> {
    match made {
        Made::List => new_list(from, to),
        Made::ListCopy => list_copy(from, to),
        Made::ScheduleCopy => schedule_copy(from, to),
        Made::GatePlanCopy => gate_plan_copy(from, to),
        Made::PortNumbers => port_numbers(from, to, document),
    }
}

/// Makes a value in a separate heap from a value in another heap, and tests the accounts.
fn lies_apart(rt: &impl Abort, document: Global, made: Made) -> Result<(), Fail> {
    let from = counting_heap(document, NEVER)?;
    let to = counting_heap(document, NEVER)?;
    let making = make(made, &from, &to, document)?;
    let is_so = (making.after == making.before)
        & (making.made > 0)
        & (from.inner().used() == 0)
        & (to.inner().used() == 0);
    drop(from);
    drop(to);
    assert!(rt; is_so, "{made:?}");
    Ok(())
}

#[test]
fn a_copy_lies_in_the_allocator_of_its_call(rt: HostRuntime) -> Result<(), Fail> {
    for made in &MADE {
        lies_apart(&rt, rt.alloc(), *made)?;
    }
    Ok(())
}
