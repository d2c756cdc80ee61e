//! Whole runs of one bridge: `simulate` reads captures, and writes the captures of the frames that left.
ghost use Rattle.std.specs.Prelude.{◌≡◌, ◌≢◌, ℕ, ◌<◌, List, Option, [], length, Err, IfOk, IfErr};
ghost use Rattle.bridge_config.specs.Commands.{AreCommands};
ghost use Rattle.bridge_capture.specs.Devices.{HasFailed, AreUnfailing};
ghost use Rattle.bridge_capture.specs.CaptureReaders.{AreOneAhead, HaveRests, HaveTexts};
ghost use Rattle.bridge_core.specs.CaptureWriters.{IsOutOfMemory};
ghost use Rattle.bridge_core.specs.WholeRuns.{AreRunLists, ArePortNumbers, IsReadyToRun, IsolatesFilters, IsolatesGroups, OthersChangeNothing, IsWholeRun, StopsRun, WritesFew};

use crate::capture_writer::{CaptureWriter, begin_writers};
use crate::run::{make_heads, run};
use bridge_capture::{
    BufferPool, ByteSink, ByteSource, CaptureFault, CaptureReader, RunFault, begin_readers,
};
use bridge_check::Accepted;
use bridge_config::{Command, Plan};
use bridge_cycle::NoMemory;
use bridge_events::{Agenda, TreeAgenda};
use bridge_filter::FilterPlan;
use bridge_relay::Relay;
use bridge_semantics::{Outcome, PortCount, View};
use std::alloc::Allocator;

/// Lists that a run needs. `make_run_lists` makes them before the run, so that the end of the run allocates no memory.
#[derive(Drop)]
struct RunLists<A: Allocator + Copy> {
    /// Numbers of the ports, in rising order.
    ports: Vec<u8, A>,
    /// Filters by rising number.
    order: Vec<(u32, FilterPlan), A>,
    /// Empty list with capacity for the writers of all ports.
    lines: Vec<CaptureWriter, A>,
    /// Empty list with capacity for the records of all filters.
    views: Vec<(u32, View<A>), A>,
    /// Empty list with capacity for the counts of all ports.
    counts: Vec<(u8, PortCount), A>,
}

/// Makes the lists that a run of `plan` needs. Fails only if memory runs out. `simulate_with_agenda` calls it first.
fn make_run_lists<A: Allocator + Copy>(alloc: A, plan: &Plan<A>) -> Result<RunLists<A>, NoMemory>
    ensures { IfOk result (AreRunLists plan.now) }
{
    let Ok(ports) = plan.port_numbers(alloc) else {
        return Err(NoMemory);
    };
    let Ok(order) = plan.filters_in_order(alloc) else {
        return Err(NoMemory);
    };
    let Ok(lines) = Vec::with_capacity(alloc, ports.len()) else {
        return Err(NoMemory);
    };
    let Ok(views) = Vec::with_capacity(alloc, order.len()) else {
        return Err(NoMemory);
    };
    let Ok(counts) = Vec::with_capacity(alloc, 16) else {
        return Err(NoMemory);
    };
    Ok(RunLists {
        ports,
        order,
        lines,
        views,
        counts,
    })
}

/// Returns an empty pool of buffers, in which a run reuses the memory of frames that have left. `simulate_with_agenda` calls it.
fn make_buffer_pool<A: Allocator + Copy>(alloc: A) -> Result<BufferPool<A>, NoMemory> {
    match BufferPool::new(alloc) {
        Ok(spares) => Ok(spares),
        Err(_) => Err(NoMemory),
    }
}

/// Completes a prepared run: writes the captures' headers, handles all frames and commands in order, and writes all departures. Fails if a
/// capture is refused, a source or sink fails, or memory runs out.
///
/// `simulate_with_agenda` calls it last.
fn run_prepared<R: ByteSource, W: ByteSink, G: Agenda + Drop, A: Allocator + Copy>(
    commands: &[Command],
    mut relay: Relay<'_, G, A>,
    lists: RunLists<A>,
    mut lanes: Vec<CaptureReader<A>, A>,
    mut spares: BufferPool<A>,
    sources: &mut [R],
    sinks: &mut [W],
) -> Result<Outcome<A>, RunFault>
    requires set_up { IsReadyToRun relay.plan relay lists lanes.items }
    requires sources { length sources.old ≡ length relay.plan.ports }
    requires sinks { length sinks.old ≡ length relay.plan.ports }
    requires commands { AreCommands relay.plan commands.now }
    ensures ok { (ports : List ℕ) (texts : ℕ → List ℕ) → ArePortNumbers relay.entry.plan ports
        → AreOneAhead R.remaining texts (λ _. []) lanes.items sources.old →
        IfOk result (IsWholeRun relay.entry.plan ports commands.now texts W.contents sinks.old sinks.new) }
    ensures err { (ports : List ℕ) (texts : ℕ → List ℕ) (rests : ℕ → Option (List ℕ))
        → ArePortNumbers relay.entry.plan ports → AreOneAhead R.remaining texts (λ _. []) lanes.items sources.old
        → HaveRests R.remaining ports rests sources.new →
        IfErr result (StopsRun relay.entry.plan ports commands.now texts rests W.contents W.has_failed
        sinks.old sinks.new) }
    ensures read { (ports : List ℕ) (port : ℕ) → ArePortNumbers relay.entry.plan ports →
        result ≡ Err (RunFault.Capture port CaptureFault.Read) → HasFailed R.has_failed ports port sources.new }
    ensures sure { AreUnfailing R.never_fails sources.old → (port : ℕ)
        → result ≢ Err (RunFault.Capture port CaptureFault.Read) }
    ensures wrote { (ports : List ℕ) (port : ℕ) → ArePortNumbers relay.entry.plan ports →
        result ≡ Err (RunFault.Write port) → HasFailed W.has_failed ports port sinks.new }
    ensures sound { (ports : List ℕ) (port : ℕ) → ArePortNumbers relay.entry.plan ports
        → AreUnfailing W.never_fails sinks.old → result ≡ Err (RunFault.Write port)
        → IsOutOfMemory W.ran_out ports port sinks.new }
{
    let RunLists {
        ports,
        order,
        lines,
        views,
        counts,
    } = lists;
    let mut lines = match begin_writers(&ports, lines, sinks) {
        Ok(lines) => lines,
        Err(fault) => {
            drop(spares);
            drop(lanes);
            drop(relay);
            return Err(fault);
        }
    };
    let mut heads = make_heads::<G, A>(&lanes);
    let done = run(
        commands,
        &mut relay,
        &mut heads,
        &mut lanes,
        &mut lines,
        sources,
        sinks,
        &mut spares,
    );
    drop(spares);
    drop(lanes);
    drop(heads);
    match done {
        Ok(()) => Ok(relay.finish(&order, views, counts)),
        Err(fault) => {
            drop(relay);
            Err(fault)
        }
    }
}

/// Runs captures and commands through the bridge of an accepted plan, with agenda type `G`. `sources` and `sinks` are in port order.
///
/// Writes a capture for each port, in which the time of a frame is its end of transmission.
///
/// A protected filter's record depends on its own frames and commands only, a grouped filter's record on those of its group only.
///
/// Fails if a capture is refused, a source or sink fails, or memory runs out. `simulate` calls it.
pub fn simulate_with_agenda<R: ByteSource, W: ByteSink, G: Agenda + Drop, A: Allocator + Copy>(
    alloc: A,
    accepted: &Accepted<A>,
    commands: &[Command],
    sources: &mut [R],
    sinks: &mut [W],
) -> Result<Outcome<A>, RunFault>
    requires sources { length sources.old ≡ length accepted.now.ports }
    requires sinks { length sinks.old ≡ length accepted.now.ports }
    requires commands { AreCommands accepted.now commands.now }
    ensures ok { (ports : List ℕ) (texts : ℕ → List ℕ) → ArePortNumbers accepted.now ports
        → HaveTexts R.remaining ports texts sources.old →
        IfOk result (IsWholeRun accepted.now ports commands.now texts W.contents sinks.old sinks.new) }
    ensures err { (ports : List ℕ) (texts : ℕ → List ℕ) (rests : ℕ → Option (List ℕ))
        → ArePortNumbers accepted.now ports →
        HaveTexts R.remaining ports texts sources.old → HaveRests R.remaining ports rests sources.new →
        IfErr result (StopsRun accepted.now ports commands.now texts rests W.contents W.has_failed sinks.old
        sinks.new) }
    ensures isolated { (ports : List ℕ) (texts : ℕ → List ℕ) →
        IfOk result (IsolatesFilters accepted.now ports commands.now texts W.contents sinks.old sinks.new) }
    ensures others_change_nothing { (ports : List ℕ) (texts : ℕ → List ℕ) →
        IfOk result (OthersChangeNothing accepted.now ports commands.now texts W.contents sinks.old sinks.new) }
    ensures isolated_groups { (ports : List ℕ) (texts : ℕ → List ℕ) →
        IfOk result (IsolatesGroups accepted.now ports commands.now texts W.contents sinks.old sinks.new) }
    ensures few { (ports : List ℕ) (texts : ℕ → List ℕ) →
        IfOk result (WritesFew accepted.now ports commands.now texts W.contents sinks.old sinks.new) }
    ensures read { (ports : List ℕ) (port : ℕ) → ArePortNumbers accepted.now ports →
        result ≡ Err (RunFault.Capture port CaptureFault.Read) → HasFailed R.has_failed ports port sources.new }
    ensures sure { AreUnfailing R.never_fails sources.old → (port : ℕ)
        → result ≢ Err (RunFault.Capture port CaptureFault.Read) }
    ensures wrote { (ports : List ℕ) (port : ℕ) → ArePortNumbers accepted.now ports →
        result ≡ Err (RunFault.Write port) → HasFailed W.has_failed ports port sinks.new }
    ensures sound { (ports : List ℕ) (port : ℕ) → ArePortNumbers accepted.now ports
        → AreUnfailing W.never_fails sinks.old →
        result ≡ Err (RunFault.Write port) → IsOutOfMemory W.ran_out ports port sinks.new }
{
    let Ok(lists) = make_run_lists(alloc, accepted.plan()) else {
        return Err(RunFault::NoMemory);
    };
    let Ok(spares) = make_buffer_pool(alloc) else {
        drop(lists);
        return Err(RunFault::NoMemory);
    };
    let lanes = match begin_readers(alloc, &lists.ports, sources) {
        Ok(lanes) => lanes,
        Err(fault) => {
            drop(lists);
            drop(spares);
            return Err(fault);
        }
    };
    let Ok(relay) = Relay::<G, A>::new(alloc, accepted) else {
        drop(lists);
        drop(spares);
        drop(lanes);
        return Err(RunFault::NoMemory);
    };
    run_prepared(commands, relay, lists, lanes, spares, sources, sinks)
}

/// Runs captures and commands through the bridge of an accepted plan: `simulate_with_agenda` with an ordered tree as agenda.
///
/// Fails if a capture is refused, a source or sink fails, or memory runs out. `run_captures` of `app_commands` and `run_bridge` of
/// `net_run` call it.
pub fn simulate<R: ByteSource, W: ByteSink, A: Allocator + Copy>(
    alloc: A,
    accepted: &Accepted<A>,
    commands: &[Command],
    sources: &mut [R],
    sinks: &mut [W],
) -> Result<Outcome<A>, RunFault>
    requires sources { length sources.old ≡ length accepted.now.ports }
    requires sinks { length sinks.old ≡ length accepted.now.ports }
    requires commands { AreCommands accepted.now commands.now }
    ensures ok { (ports : List ℕ) (texts : ℕ → List ℕ) → ArePortNumbers accepted.now ports
        → HaveTexts R.remaining ports texts sources.old →
        IfOk result (IsWholeRun accepted.now ports commands.now texts W.contents sinks.old sinks.new) }
    ensures err { (ports : List ℕ) (texts : ℕ → List ℕ) (rests : ℕ → Option (List ℕ))
        → ArePortNumbers accepted.now ports →
        HaveTexts R.remaining ports texts sources.old → HaveRests R.remaining ports rests sources.new →
        IfErr result (StopsRun accepted.now ports commands.now texts rests W.contents W.has_failed sinks.old
        sinks.new) }
    ensures isolated { (ports : List ℕ) (texts : ℕ → List ℕ) →
        IfOk result (IsolatesFilters accepted.now ports commands.now texts W.contents sinks.old sinks.new) }
    ensures others_change_nothing { (ports : List ℕ) (texts : ℕ → List ℕ) →
        IfOk result (OthersChangeNothing accepted.now ports commands.now texts W.contents sinks.old sinks.new) }
    ensures isolated_groups { (ports : List ℕ) (texts : ℕ → List ℕ) →
        IfOk result (IsolatesGroups accepted.now ports commands.now texts W.contents sinks.old sinks.new) }
    ensures few { (ports : List ℕ) (texts : ℕ → List ℕ) →
        IfOk result (WritesFew accepted.now ports commands.now texts W.contents sinks.old sinks.new) }
    ensures read { (ports : List ℕ) (port : ℕ) → ArePortNumbers accepted.now ports →
        result ≡ Err (RunFault.Capture port CaptureFault.Read) → HasFailed R.has_failed ports port sources.new }
    ensures sure { AreUnfailing R.never_fails sources.old → (port : ℕ)
        → result ≢ Err (RunFault.Capture port CaptureFault.Read) }
    ensures wrote { (ports : List ℕ) (port : ℕ) → ArePortNumbers accepted.now ports →
        result ≡ Err (RunFault.Write port) → HasFailed W.has_failed ports port sinks.new }
    ensures sound { (ports : List ℕ) (port : ℕ) → ArePortNumbers accepted.now ports
        → AreUnfailing W.never_fails sinks.old →
        result ≡ Err (RunFault.Write port) → IsOutOfMemory W.ran_out ports port sinks.new }
{
    simulate_with_agenda::<R, W, TreeAgenda, A>(alloc, accepted, commands, sources, sinks)
}
