//! Runs captures from readers into writers, one of each for each port.
ghost use Rattle.std.specs.Prelude.{◌≡◌, ℕ, List, Option, Some, length, slice_get, IfOk, IfErr};
ghost use Rattle.bridge_config.specs.Commands.{AreCommands};
ghost use Rattle.bridge_capture.specs.CaptureReaders.{HaveTexts};
ghost use Rattle.bridge_core.specs.WholeRuns.{ArePortNumbers, IsolatesFilters, OthersChangeNothing, IsWholeRun};
ghost use Rattle.app_commands.specs.Flushed.{LosesOutput, StopsFlushed};

use crate::transfer::{buffered_sinks, buffered_sources, finish_sinks};
use bridge_capture::RunFault;
use bridge_check::Accepted;
use bridge_config::Command;
use bridge_core::simulate;
use bridge_semantics::Outcome;
use std::alloc::Allocator;
use std::io::{Read, Write};

/// Why a run stopped, with the flushed writers by rising port: all of them if no flush failed.
#[derive(Drop)]
pub struct StoppedRun<W, A: Allocator> {
    pub fault: RunFault,
    pub writers: Vec<W, A>,
}

/// Runs captures from readers, and commands, through the bridge of an accepted plan into writers, and returns the flushed writers. Readers
/// and writers stand by rising port.
///
/// Flushes every writer by rising port, even after a fault. The first failed flush replaces the run's fault. `run_watched` calls it.
pub fn run_captures<R: Read + Drop, W: Write + Drop, A: Allocator + Copy>(
    alloc: A,
    accepted: &Accepted<A>,
    commands: &[Command],
    readers: Vec<R, A>,
    writers: Vec<W, A>,
) -> Result<(Outcome<A>, Vec<W, A>), StoppedRun<W, A>>
    requires readers { length readers.items ≡ length accepted.now.ports }
    requires writers { length writers.items ≡ length accepted.now.ports }
    requires commands { AreCommands accepted.now commands.now }
    ensures ok { (ports : List ℕ) (texts : ℕ → List ℕ) → ArePortNumbers accepted.now ports
        → HaveTexts R.remaining ports texts readers.items →
        IfOk result (λ done. IsWholeRun accepted.now ports commands.now texts W.contents writers.items done.1.items
        done.0) }
    ensures err { (ports : List ℕ) (texts : ℕ → List ℕ) → ArePortNumbers accepted.now ports
        → HaveTexts R.remaining ports texts readers.items →
        IfErr result (λ halted. length halted.writers.items ≡ length ports → (rests : ℕ → Option (List ℕ)) ×
        StopsFlushed accepted.now ports commands.now texts rests W.contents writers.items
        halted.writers.items halted.fault) }
    ensures lost { (ports : List ℕ) (port : ℕ) → ArePortNumbers accepted.now ports →
        IfErr result (λ halted. slice_get ports (length halted.writers.items) ≡ Some port
        → LosesOutput port (length halted.writers.items) halted.fault) }
    ensures isolated { (ports : List ℕ) (texts : ℕ → List ℕ) →
        IfOk result (λ done. IsolatesFilters accepted.now ports commands.now texts W.contents
        writers.items done.1.items done.0) }
    ensures others_change_nothing { (ports : List ℕ) (texts : ℕ → List ℕ) →
        IfOk result (λ done. OthersChangeNothing accepted.now ports commands.now texts W.contents
        writers.items done.1.items done.0) }
{
    let Ok(ports) = accepted.plan().port_numbers(alloc) else {
        return Err(StoppedRun {
            fault: RunFault::NoMemory,
            writers,
        });
    };
    let Ok(room) = Vec::with_capacity(alloc, writers.len()) else {
        return Err(StoppedRun {
            fault: RunFault::NoMemory,
            writers,
        });
    };
    let Ok(mut sources) = buffered_sources(alloc, readers) else {
        return Err(StoppedRun {
            fault: RunFault::NoMemory,
            writers,
        });
    };
    let Ok(mut sinks) = buffered_sinks(alloc, writers) else {
        return Err(StoppedRun {
            fault: RunFault::NoMemory,
            writers: room,
        });
    };
    let ran = simulate(alloc, accepted, commands, &mut sources, &mut sinks);
    let writers = finish_sinks(sinks, room);
    if let Some(port) = failed_port(&ports, writers.len()) {
        return Err(StoppedRun {
            fault: RunFault::Write { port },
            writers,
        });
    }
    match ran {
        Ok(outcome) => Ok((outcome, writers)),
        Err(fault) => Err(StoppedRun { fault, writers }),
    }
}

/// Returns the port of the writer with index `count`, whose flush failed; the writers before it were flushed. Returns `None` if all writers
/// were flushed. `run_captures` calls it.
fn failed_port(ports: &[u8], count: usize) -> Option<u8>
    ensures { result ≡ slice_get ports.now count }
{
    ports.get(count).copied()
}
