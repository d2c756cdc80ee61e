//! Makes values in a counting heap, and tests their use.
use crate::account::{HasAccount, NEVER, counting_heap};
use crate::bridges::gives_all_back;
use crate::calls::{have_port, use_database, use_gate, use_ident, use_joined, use_list, use_plan};
use crate::police::use_police;
use std::alloc::{Allocator, Global};
use std::process::Abort;
use std::test::Fail;

/// Kinds of values whose use is tested.
#[derive(Clone, Copy)]
enum Made {
    List,
    Change,
    Gate,
    Identification,
    Database,
    Police,
    Port,
    Plan,
    Bridge,
}

/// Makes a value, and tests its use.
fn use_made<H: Allocator + Copy + HasAccount>(
    rt: &impl Abort,
    heap: H,
    document: Global,
    made: Made,
) -> Result<(), Fail> {
    match made {
        Made::List => require_used(use_list(rt, heap)),
        Made::Change => require_used(use_joined(rt, heap)),
        Made::Gate => require_used(use_gate(rt, heap)),
        Made::Identification => require_used(use_ident(rt, heap)),
        Made::Database => require_used(use_database(rt, heap)),
        Made::Police => require_used(use_police(rt, heap)),
        Made::Port => require_used(have_port(rt, heap)),
        Made::Plan => use_plan(rt, heap, document),
        Made::Bridge => gives_all_back(rt, heap, document),
    }
}

/// Returns a failure if a part wasn't made.
fn require_used<E: Drop>(used: Result<(), E>) -> Result<(), Fail> {
    match used {
        Ok(()) => Ok(()),
        Err(_) => Err(Fail::from("a part that is not made")),
    }
}

/// Makes a value in a separate heap, and tests its use. The tests call this function, because the heap's type is long.
fn takes_no_memory(rt: &impl Abort, document: Global, made: Made) -> Result<(), Fail> {
    let heap = counting_heap(document, NEVER)?;
    use_made(rt, &heap, document, made)
}

#[test]
fn a_list_takes_no_memory(rt: HostRuntime) -> Result<(), Fail> {
    takes_no_memory(&rt, rt.alloc(), Made::List)
}

#[test]
fn lists_that_are_exchanged_take_no_memory(rt: HostRuntime) -> Result<(), Fail> {
    takes_no_memory(&rt, rt.alloc(), Made::Change)
}

#[test]
fn a_gate_takes_no_memory(rt: HostRuntime) -> Result<(), Fail> {
    takes_no_memory(&rt, rt.alloc(), Made::Gate)
}

#[test]
fn an_identification_takes_no_memory(rt: HostRuntime) -> Result<(), Fail> {
    takes_no_memory(&rt, rt.alloc(), Made::Identification)
}

#[test]
fn a_database_takes_no_memory(rt: HostRuntime) -> Result<(), Fail> {
    takes_no_memory(&rt, rt.alloc(), Made::Database)
}

#[test]
fn a_police_takes_no_memory(rt: HostRuntime) -> Result<(), Fail> {
    takes_no_memory(&rt, rt.alloc(), Made::Police)
}

#[test]
fn a_port_takes_no_memory(rt: HostRuntime) -> Result<(), Fail> {
    takes_no_memory(&rt, rt.alloc(), Made::Port)
}

#[test]
fn a_plan_takes_no_memory(rt: HostRuntime) -> Result<(), Fail> {
    takes_no_memory(&rt, rt.alloc(), Made::Plan)
}

#[test]
fn a_bridge_takes_no_memory(rt: HostRuntime) -> Result<(), Fail> {
    takes_no_memory(&rt, rt.alloc(), Made::Bridge)
}
