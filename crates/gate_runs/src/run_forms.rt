//! Runs a bridge by each call that the crates offer.
ghost use Rattle.std.specs.Prelude.{◌≡◌, IfSome, length};
ghost use Rattle.bridge_config.specs.Commands.{AreCommands};

use crate::case::Case;
use crate::line_output::LineOutput;
use app_commands::{StoppedRun, run_captures};
use bridge_capture::{ByteSink, ByteSource, SliceSource, VecSink};
use bridge_check::Accepted;
use bridge_config::{Command, commands_of};
use bridge_core::{Outcome, RowAgenda, RunFault, TreeAgenda, simulate, simulate_with_agenda};
use std::alloc::{AllocError, Allocator, Global};
use std::io::{Read, Write};

/// Call that runs a bridge from sources to sinks.
#[derive(Clone, Copy)]
pub enum Form {
    /// `simulate`, which the program calls.
    Plain,
    /// `simulate_with_agenda` with an agenda that is a row.
    Row,
    /// `simulate_with_agenda` with an agenda that is a tree.
    Tree,
}

/// Each form with its name.
pub const FORMS: &[(Form, &str)] = &[
    (Form::Plain, "Plain"),
    (Form::Row, "Row"),
    (Form::Tree, "Tree"),
];

/// How many octets sources and sinks transfer for each call.
#[derive(Clone, Copy)]
pub enum Moves {
    /// All octets asked for.
    AtOnce,
    /// A single octet.
    ByOctets,
    /// All octets, but the source of `port` fails after `count` octets.
    UntilSource { port: u64, count: usize },
    /// All octets, but the sink of `port` fails after `count` octets.
    UntilSink { port: u64, count: usize },
}

/// Transfers without failure, with their names.
pub const MOVES: &[(Moves, &str)] = &[(Moves::AtOnce, " AtOnce"), (Moves::ByOctets, " ByOctets")];

/// Returns the commands of a case for a plan. If a command is refused, the line fails and the result is `None`.
pub fn case_commands<A: Allocator + Copy>(
    said: &mut LineOutput,
    accepted: &Accepted<A>,
    case: &Case,
) -> Option<Vec<Command>>
    ensures { IfSome result (λ all. AreCommands accepted.now all.items) }
{
    let heap = said.alloc;
    match commands_of(heap, heap, case.commands.as_bytes(), accepted.plan()) {
        Ok(commands) => Some(commands),
        Err(_) => {
            said.stop("a command that is refused");
            None
        }
    }
}

/// Returns the source of a port's input.
fn port_source(text: &[u8], at: u64, moves: Moves) -> SliceSource<'_> {
    match moves {
        Moves::ByOctets => SliceSource::with_single_octets(text),
        Moves::UntilSource { port, count } if port == at => SliceSource::with_allowance(
            text, count,
        ),
        _ => SliceSource::new(text),
    }
}

/// Returns the sink of a port's output.
fn port_sink(heap: Global, at: u64, moves: Moves) -> VecSink<Global> {
    match moves {
        Moves::ByOctets => VecSink::with_single_octets(heap),
        Moves::UntilSink { port, count } if port == at => VecSink::with_allowance(heap, count),
        _ => VecSink::new(heap),
    }
}

/// Returns the sinks of ports 1, 2 and 3.
pub fn port_sinks(heap: Global, moves: Moves) -> [VecSink<Global>; 3] {
    [
        port_sink(heap, 1, moves),
        port_sink(heap, 2, moves),
        port_sink(heap, 3, moves),
    ]
}

/// Returns the contents of sinks.
pub fn sink_octets<'a>(sinks: &'a [VecSink<Global>; 3]) -> [&'a [u8]; 3] {
    [sinks[0].octets(), sinks[1].octets(), sinks[2].octets()]
}

/// Runs a bridge by the call `form`.
fn run_form<R: ByteSource, W: ByteSink, A: Allocator + Copy>(
    alloc: A,
    accepted: &Accepted<A>,
    commands: &[Command],
    form: Form,
    sources: &mut [R],
    sinks: &mut [W],
) -> Result<Outcome<A>, RunFault>
    requires sources { length sources.old ≡ length accepted.now.ports }
    requires sinks { length sinks.old ≡ length accepted.now.ports }
    requires commands { AreCommands accepted.now commands.now }
{
    match form {
        Form::Plain => simulate(alloc, accepted, commands, sources, sinks),
        Form::Row => simulate_with_agenda::<R, W, RowAgenda, A>(
            alloc, accepted, commands, sources, sinks,
        ),
        Form::Tree => simulate_with_agenda::<R, W, TreeAgenda, A>(
            alloc, accepted, commands, sources, sinks,
        ),
    }
}

/// Runs a bridge over the inputs of three ports, into sinks. If the plan has other ports or a command is refused, the line fails.
pub fn run_into_sinks<A: Allocator + Copy>(
    alloc: A,
    said: &mut LineOutput,
    accepted: &Accepted<A>,
    case: &Case,
    form: Form,
    moves: Moves,
    sinks: &mut [VecSink<Global>],
) -> Result<Outcome<A>, RunFault> {
    let Some(commands) = case_commands(said, accepted, case) else {
        return Err(RunFault::NoMemory);
    };
    let [first, second, third] = case.texts();
    let mut sources = [
        port_source(first, 1, moves),
        port_source(second, 2, moves),
        port_source(third, 3, moves),
    ];
    let ports = accepted.plan().ports().len();
    if ports != sources.len() || ports != sinks.len() {
        said.stop("a plan of other ports");
        return Err(RunFault::NoMemory);
    }
    run_form(alloc, accepted, &commands, form, &mut sources, sinks)
}

/// Runs a bridge from readers to writers, as the program does over files. If their number is wrong or a command is refused, the line fails.
pub fn run_over_writers<R: Read + Drop, W: Write + Drop, A: Allocator + Copy>(
    alloc: A,
    said: &mut LineOutput,
    accepted: &Accepted<A>,
    case: &Case,
    readers: Vec<R, A>,
    writers: Vec<W, A>,
) -> Result<(Outcome<A>, Vec<W, A>), StoppedRun<W, A>> {
    let fault = RunFault::NoMemory;
    let Some(commands) = case_commands(said, accepted, case) else {
        return Err(StoppedRun { fault, writers });
    };
    let ports = accepted.plan().ports().len();
    if readers.len() != ports || writers.len() != ports {
        said.stop("a plan of other ports");
        return Err(StoppedRun { fault, writers });
    }
    run_captures(alloc, accepted, &commands, readers, writers)
}

/// Returns three readers or writers, by rising port.
pub fn vec_of_three<T: Drop, A: Allocator + Copy>(
    alloc: A,
    first: T,
    second: T,
    third: T,
) -> Result<Vec<T, A>, AllocError> {
    let mut all = Vec::with_capacity(alloc, 3)?;
    all.push(first)?;
    all.push(second)?;
    all.push(third)?;
    Ok(all)
}

/// Runs a bridge from readers of three ports to writers that grow. Returns `NoMemory` if they can't be made.
pub fn run_with_growing_writers<A: Allocator + Copy>(
    alloc: A,
    said: &mut LineOutput,
    accepted: &Accepted<A>,
    case: &Case,
) -> Result<(Outcome<A>, Vec<Vec<u8, A>, A>), StoppedRun<Vec<u8, A>, A>> {
    let fault = RunFault::NoMemory;
    let empty = Vec::<u8, A>::new(alloc);
    let Ok(writers) = vec_of_three(alloc, empty, Vec::new(alloc), Vec::new(alloc)) else {
        return Err(StoppedRun {
            fault,
            writers: Vec::new(alloc),
        });
    };
    let [first, second, third] = case.texts();
    let Ok(readers) = vec_of_three(alloc, first, second, third) else {
        return Err(StoppedRun { fault, writers });
    };
    run_over_writers(alloc, said, accepted, case, readers, writers)
}
