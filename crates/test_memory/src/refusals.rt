//! Tests that a refused allocation frees all arguments of its call.
use crate::account::counting_heap;
use crate::bridges::{is_bridge_made, is_frame_back, is_frame_relayed};
use crate::parts::{
    make_database, make_ident, make_list, make_plan, make_police, make_port, make_window_gate,
    wrong_list,
};
use bridge_check::check;
use bridge_core::{RowAgenda, TreeAgenda};
use std::alloc::{Allocator, Global};
use std::process::Abort;
use std::test::Fail;

/// Kinds of values that are made from other values.
#[derive(Clone, Copy, Debug)]
enum Made {
    List,
    WrongList,
    ListCopy,
    GatePlanCopy,
    Ident,
    Database,
    Police,
    Port,
    Plan,
    Accepted,
    RowBridge,
    TreeBridge,
    Relayed,
}

const MADE: [Made; 13] = [
    Made::List,
    Made::WrongList,
    Made::ListCopy,
    Made::GatePlanCopy,
    Made::Ident,
    Made::Database,
    Made::Police,
    Made::Port,
    Made::Plan,
    Made::Accepted,
    Made::RowBridge,
    Made::TreeBridge,
    Made::Relayed,
];

/// Whether a value was made. The value is dropped.
fn was_made<T: Drop, E: Drop>(made: Result<T, E>) -> bool {
    made.is_ok()
}

fn makes_list<A: Allocator + Copy>(heap: A) -> bool {
    was_made(make_list(heap))
}

fn makes_wrong_list<A: Allocator + Copy>(heap: A) -> bool {
    was_made(wrong_list(heap))
}

fn copies_list<A: Allocator + Copy>(heap: A) -> bool {
    match make_list(heap) {
        Ok(list) => {
            let copied = list.copy(heap);
            drop(list);
            was_made(copied)
        }
        Err(_) => false,
    }
}

fn copies_gate_plan<A: Allocator + Copy>(heap: A) -> bool {
    match make_window_gate(heap) {
        Ok(plan) => {
            let copied = plan.copy(heap);
            drop(plan);
            was_made(copied)
        }
        Err(_) => false,
    }
}

fn makes_ident<A: Allocator + Copy>(heap: A) -> bool {
    was_made(make_ident(heap))
}

fn makes_database<A: Allocator + Copy>(heap: A) -> bool {
    was_made(make_database(heap))
}

fn makes_police<A: Allocator + Copy>(heap: A) -> bool {
    was_made(make_police(heap))
}

fn makes_port<A: Allocator + Copy>(heap: A) -> bool {
    was_made(make_port(heap))
}

fn makes_plan<A: Allocator + Copy>(heap: A, document: Global) -> bool {
    was_made(make_plan(heap, document))
}

fn accepts<A: Allocator + Copy>(heap: A, document: Global) -> bool {
    match make_plan(heap, document) {
        Ok(plan) => was_made(check(heap, plan)),
        Err(_) => false,
    }
}

/// Whether a value can be made. Each value is dropped in a function of its own.
fn is_made<A: Allocator + Copy>(made: Made, heap: A, document: Global) -> bool {
    match made {
        Made::List => makes_list(heap),
        Made::WrongList => makes_wrong_list(heap),
        Made::ListCopy => copies_list(heap),
        Made::GatePlanCopy => copies_gate_plan(heap),
        Made::Ident => makes_ident(heap),
        Made::Database => makes_database(heap),
        Made::Police => makes_police(heap),
        Made::Port => makes_port(heap),
        Made::Plan => makes_plan(heap, document),
        Made::Accepted => accepts(heap, document),
        Made::RowBridge => is_bridge_made::<RowAgenda, A>(heap, document),
        Made::TreeBridge => is_bridge_made::<TreeAgenda, A>(heap, document),
        Made::Relayed => is_frame_relayed::<TreeAgenda, A>(heap, document),
    }
}

/// Makes a value with allocation `n` refused, and tests that no memory stays in use. Returns whether the allocation was requested.
fn is_refused(rt: &impl Abort, document: Global, made: Made, n: u64) -> Result<bool, Fail> {
    let heap = counting_heap(document, n)?;
    let is_made = is_made(made, &heap, document);
    let is_refused = heap.has_refused();
    let used = heap.inner().used();
    drop(heap);
    let wanted = !is_refused && made != Made::WrongList;
    assert!(rt; used == 0 && is_made == wanted, "{made:?}, growth {n}");
    Ok(is_refused)
}

/// Refuses each allocation in turn, and tests that no memory stays in use.
fn refuse_each(rt: &impl Abort, document: Global, made: Made) -> Result<(), Fail> {
    for n in 1..1_000 {
        if !is_refused(rt, document, made, n)? {
            assert!(rt; n > 1, "{made:?}");
            return Ok(());
        }
    }
    Err(Fail::from("some growth was always refused"))
}

#[test]
fn what_is_refused_gives_all_back(rt: HostRuntime) -> Result<(), Fail> {
    for made in &MADE {
        refuse_each(&rt, rt.alloc(), *made)?;
    }
    Ok(())
}

/// Refuses each allocation in turn, and returns how often a bridge returned the frame.
fn count_returned_frames(document: Global, again: bool, over_tree: bool) -> Result<u32, Fail> {
    let mut backs = 0u32;
    for n in 1..1_000 {
        let heap = counting_heap(document, n)?;
        let back = is_frame_back(&heap, document, again, over_tree);
        let is_refused = heap.has_refused();
        drop(heap);
        if back? {
            backs = backs.saturating_add(1);
        }
        if !is_refused {
            return Ok(backs);
        }
    }
    Err(Fail::from("some growth was always refused"))
}

/// Tests that a bridge without memory returns the frame unchanged, and can accept it later.
#[test]
fn a_frame_comes_back_where_memory_runs_out(rt: HostRuntime) -> Result<(), Fail> {
    for over_tree in [false, true] {
        assert!(rt; count_returned_frames(rt.alloc(), false, over_tree)? > 3);
        assert!(rt; count_returned_frames(rt.alloc(), true, over_tree)? > 3);
    }
    Ok(())
}
