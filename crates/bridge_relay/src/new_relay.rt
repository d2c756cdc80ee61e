//! Makes a relay from an accepted plan, before a run.
ghost use Rattle.std.specs.Prelude.{◌≡◌, ℕ, [], None, IfOk};
ghost use Rattle.bridge_filter.specs.Plans.{KeepsNumbers};
ghost use Rattle.bridge_filter.specs.StandsFor as standing;
ghost use Rattle.bridge_semantics.specs.Events as events;
ghost use Rattle.bridge_relay.specs.RelayState.{RelayStandsFor};

use crate::filter_recorders::make_recorders;
use crate::ports::Ports;
use crate::relay::Relay;
use bridge_check::Accepted;
use bridge_config::Plan;
use bridge_cycle::NoMemory;
use bridge_events::Agenda;
use bridge_filter::Police;
use bridge_gate::GatePlan;
use bridge_ident::{Ident, StreamEntry};
use std::alloc::Allocator;

/// Returns copies of stream gates with their numbers: the relay owns its gates, and only borrows the plan. `make_police` calls it.
fn copy_gates<A: Allocator + Copy>(
    alloc: A,
    gates: &[(u32, GatePlan<A>)],
) -> Result<Vec<(u32, GatePlan<A>), A>, NoMemory>
    ensures { IfOk result (λ copies. copies.items ≡ gates.now) }
{
    let Ok(mut copies) = Vec::with_capacity(alloc, gates.len()) else {
        return Err(NoMemory);
    };
    for gate in gates {
        let Ok(copy) = gate.1.copy(alloc) else {
            return Err(NoMemory);
        };
        copies.push_reserved((gate.0, copy));
    }
    Ok(copies)
}

/// Returns the table that finds a frame's stream handle, from the plan's stream entries. `Relay::new` calls it.
fn make_ident<A: Allocator + Copy>(alloc: A, streams: &[StreamEntry]) -> Result<Ident<A>, NoMemory>
    ensures { IfOk result (λ table. table ≡ streams.now) }
{
    let Ok(entries) = Vec::from_slice(alloc, streams) else {
        return Err(NoMemory);
    };
    match Ident::with_index(alloc, entries) {
        Ok(ident) => Ok(ident),
        Err(_) => Err(NoMemory),
    }
}

/// Returns the filters, stream gates and meters of a plan, before any event. `Relay::new` calls it.
fn make_police<A: Allocator + Copy>(alloc: A, plan: &Plan<A>) -> Result<Police<A>, NoMemory>
    ensures stands { IfOk result (λ p. standing.StandsFor (events.plan_police plan.now) p []) }
    ensures gates { IfOk result (λ p. KeepsNumbers plan.now.gates p.gates) }
    ensures meters { IfOk result (λ p. KeepsNumbers plan.now.meters p.meters) }
{
    let Ok(filters) = Vec::from_slice(alloc, plan.filters()) else {
        return Err(NoMemory);
    };
    let Ok(meters) = Vec::from_slice(alloc, plan.meters()) else {
        return Err(NoMemory);
    };
    let Ok(gates) = copy_gates(alloc, plan.gates()) else {
        return Err(NoMemory);
    };
    let Ok(police) = Police::new(alloc, filters, gates, meters) else {
        return Err(NoMemory);
    };
    Ok(police)
}

impl<'a, G: Agenda + Drop, A: Allocator + Copy> Relay<'a, G, A> {
    /// Returns the relay of an accepted plan, before any event. Each run calls it once.
    pub fn new(alloc: A, accepted: &'a Accepted<A>) -> Result<Relay<'a, G, A>, NoMemory>
        ensures stands { IfOk result (λ b. RelayStandsFor accepted.now b [] (λ _. [])) }
        ensures start { IfOk result (λ b. (b.plan ≡ accepted.now) × (b.arrived ≡ 0) × (b.earliest ≡ 0)) }
        ensures none_due { IfOk result (λ b. (q : ℕ) → G.held b.ports.agenda q ≡ None) }
    {
        let plan = accepted.plan();
        let Ok(tables) = make_recorders(alloc, plan.filters()) else {
            return Err(NoMemory);
        };
        let Ok(ident) = make_ident(alloc, plan.streams()) else {
            drop(tables);
            return Err(NoMemory);
        };
        let Ok(ports) = Ports::new(alloc, plan) else {
            drop(tables);
            drop(ident);
            return Err(NoMemory);
        };
        let Ok(police) = make_police(alloc, plan) else {
            drop(tables);
            drop(ident);
            drop(ports);
            return Err(NoMemory);
        };
        Ok(Relay {
            alloc,
            plan,
            ident,
            police,
            ports,
            tables,
            arrived: 0,
            earliest: 0,
            copies: Vec::new(alloc),
        })
    }
}
