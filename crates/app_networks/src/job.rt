//! The command `net`: reads the inputs of a network run from one folder, opens the outputs in another, runs the network, and writes the
//! outputs.
ghost use Rattle.std.specs.Prelude.{◌≡◌, ◌≤◌, All, IfOk, IfErr, IfSome, None, Some, false, true, length, option_map, string_bytes};
ghost use Rattle.app_files.specs.Folders.{HavePaths};
ghost use Rattle.app_networks.specs.Losing.{AreToldLines, AreWarningsIf, PrintsRunLosses, PrintsWarnings, TellsRunLosses, TellsWarnings, has_lines};
ghost use Rattle.net_latency.specs.Bounds.{HasValidPort};
ghost use Rattle.app_networks.specs.InTime.{HaveViews};
ghost use Rattle.net_run.specs.Rounds.{AreBridgeInputs};
ghost use Rattle.app_networks.specs.RunFiles.{IsOutputFile, IsWrittenFile, NamesFile};
ghost use Rattle.app_networks.specs.Folders.{EndsRounds, EndsRun, IsAccepted, IsLine, IsMostRounds, PrintsRounds, PrintsRoundsIn, IsRunLine, TellsRunIn, network_words, rounds_line};
ghost use Rattle.app_files.specs.declared.failed_file.Access.TheVariants.{Writing};

use crate::figures::stream_figures;
use crate::incoming::read_bridge_inputs;
use crate::losing::fault_lines;
use crate::outputs::{Outputs, open_outputs};
use crate::picture::{open_picture, write_picture};
use crate::refusing::run_failure;
use crate::tables::put_tables;
use crate::watching::ProgressPrinter;
use crate::writing::write_bridges;
use app_commands::Flags;
use app_failure::{Failure, file_failure};
use app_files::{CommandFiles, Output, test_folders};
use bridge_limits::NoMemory;
use net_check::{all_warnings, check_network_file, read_network, read_plans};
use net_file::NetworkFile;
use net_latency::{QueueBound, all_queue_bounds};
use net_model::{Network, find_forwarding_loops};
use net_run::{BridgeInput, BridgeResult, run_network};
use std::alloc::Global;
use std::fs::OpenFile;
use std::io::Write;
use std::rt::Files;

/// Number of rounds after which a network run ends although inputs still change, if the network has forwarding loops. Without this limit,
/// it might never end.
const MOST_ROUNDS: u32 = 64;

/// Returns the largest number of rounds of a network run. Without forwarding loops it is 2^32 - 1, because each round settles the inputs up
/// to a later time.
fn most_rounds(alloc: Global, network: &Network<Global>) -> Result<u32, NoMemory>
    requires few { length network.now.plans ≤ 64 }
    ensures { IfOk result (IsMostRounds network.now) }
{
    let loops = find_forwarding_loops(alloc, network.plans(), network.links())?;
    Ok(if loops.is_empty() {
        u32::MAX
    } else {
        MOST_ROUNDS
    })
}

/// Returns the start of a run's line: the numbers of bridges, links and streams. `run_line` calls it.
#[tactic(auto, unfolding(crate::specs::Folders::network_words))]
fn network_words(alloc: Global, file: &NetworkFile<Global>) -> Result<String, NoMemory>
    ensures { IfOk result (λ words. string_bytes words ≡ network_words file.now) }
{
    let bridges = file.bridges().len();
    let links = file.links().len();
    let streams = file.streams().len();
    let mut text = String::new(alloc);
    write!(text, "bridges {bridges} links {links} streams {streams} ")?;
    Ok(text)
}

/// Returns the line of a network run: numbers of bridges, links and streams, frames that arrived at first hops, and frames delivered and
/// lost. `write_results` calls it.
#[tactic(auto, unfolding(crate::specs::Folders::rounds_line))]
fn run_line(
    alloc: Global,
    file: &NetworkFile<Global>,
    frames: u64,
    delivered: u64,
) -> Result<String, NoMemory>
    ensures { IfOk result (λ line. string_bytes line ≡ rounds_line file.now frames delivered) }
{
    let start = network_words(alloc, file)?;
    let lost = frames.saturating_sub(delivered);
    let mut text = String::new(alloc);
    write!(
        text,
        "{start}frames {frames} delivered {delivered} lost {lost}\n"
    )?;
    Ok(text)
}

/// Lines of a complete network run.
#[derive(Drop)]
struct RunLines {
    /// Line with the counts of the run.
    line: String,
    /// Lines about streams with lost frames or missed deadlines; empty unless losses are errors (`--strict`).
    lost: String,
}

/// Returns the lines of streams with lost frames or missed deadlines, if losses are errors; otherwise the empty text. `write_results` calls
/// it.
fn lost_if(
    alloc: Global,
    file: &NetworkFile<Global>,
    network: &Network<Global>,
    settled: &[BridgeResult<Global>],
    is_strict: bool,
) -> Result<String, NoMemory>
    requires { HaveViews settled.now file.now.streams }
    ensures { IfOk result (λ lines. AreToldLines network.now.links settled.now file.now is_strict
        (string_bytes lines)) }
{
    if is_strict {
        fault_lines(alloc, file, network.links(), settled)
    } else {
        Ok(String::new(alloc))
    }
}

/// Writes the captures, reports and tables of a network run, and returns its lines. Fails if an output can't be written.
/// `write_results_and_picture` calls it.
fn write_results<F: Write + OpenFile + Drop>(
    alloc: Global,
    file: &NetworkFile<Global>,
    network: &Network<Global>,
    queues: &[Vec<QueueBound>],
    output: &str,
    settled: &[BridgeResult<Global>],
    outputs: Outputs<F>,
    is_strict: bool,
) -> Result<RunLines, Failure>
    requires placed { All (λ v. All HasValidPort v.items) queues.now }
    requires views { HaveViews settled.now file.now.streams }
    ensures ok { IfOk result (λ lines. IsLine network.now.links settled.now file.now (string_bytes lines.line)) }
    ensures lost { IfOk result (λ lines. AreToldLines network.now.links settled.now file.now is_strict
        (string_bytes lines.lost)) }
    ensures err { IfErr result (NamesFile Writing (IsOutputFile network.now.plans file.now.bridges output.now)) }
{
    let Outputs {
        bridges,
        streams,
        frames,
    } = outputs;
    let Ok(figures) = stream_figures(alloc, network, queues, file.links(), file.streams()) else {
        drop(bridges);
        drop(streams);
        drop(frames);
        return Err(Failure::NoMemory);
    };
    match write_bridges(alloc, network, file.bridges(), output, settled, bridges) {
        Ok(written) => drop(written),
        Err(fault) => {
            drop(streams);
            drop(frames);
            return Err(fault);
        }
    }
    let written = put_tables(
        alloc,
        file,
        network.links(),
        settled,
        &figures,
        output,
        streams,
        frames,
    )?;
    let totals = written.totals;
    drop(written);
    let Ok(lost) = lost_if(alloc, file, network, settled, is_strict) else {
        return Err(Failure::NoMemory);
    };
    match run_line(alloc, file, totals.frames, totals.delivered) {
        Ok(line) => Ok(RunLines { line, lost }),
        Err(_) => Err(Failure::NoMemory),
    }
}

/// Writes the captures, reports, tables and requested picture of a network run to their files, which are already open. Returns the run's
/// lines. Fails if an output can't be written. `run_network_folders` calls it.
fn write_results_and_picture<H: AllocGlobal + Files>(
    rt: &H,
    file: &NetworkFile<Global>,
    network: &Network<Global>,
    output: &str,
    settled: &[BridgeResult<Global>],
    outputs: Outputs<H::File>,
    picture: &Option<String>,
    drawing: Option<Output<H::File>>,
    is_strict: bool,
) -> Result<RunLines, Failure>
    requires views { HaveViews settled.now file.now.streams }
    ensures ok { IfOk result (λ lines. IsLine network.now.links settled.now file.now (string_bytes lines.line)) }
    ensures lost { IfOk result (λ lines. AreToldLines network.now.links settled.now file.now is_strict
        (string_bytes lines.lost)) }
    ensures err { IfErr result (NamesFile Writing (IsWrittenFile network.now.plans file.now.bridges output.now
        (option_map string_bytes picture.now))) }
{
    let Ok(queues) = all_queue_bounds(rt.alloc(), network.plans()) else {
        drop(outputs);
        drop(drawing);
        return Err(Failure::NoMemory);
    };
    let lines = match write_results(
        rt.alloc(),
        file,
        network,
        &queues,
        output,
        settled,
        outputs,
        is_strict,
    ) {
        Ok(lines) => lines,
        Err(fault) => {
            drop(drawing);
            return Err(fault);
        }
    };
    match write_picture(
        rt.alloc(),
        file,
        network,
        &queues,
        settled,
        picture,
        drawing,
    ) {
        Ok(()) => Ok(lines),
        Err(fault) => Err(fault),
    }
}

/// Reads the inputs of a network run, then opens its outputs and the requested picture. So an unreadable input leaves the output folder
/// unchanged.
fn open_run<H: AllocGlobal + Files>(
    files: &mut CommandFiles<'_, H>,
    file: &NetworkFile<Global>,
    network: &Network<Global>,
    job: &NetworkRunRequest<'_>,
) -> Result<
    (
        Vec<BridgeInput<Global>>,
        Outputs<H::File>,
        Option<Output<H::File>>,
    ),
    Failure,
>
    ensures came { IfOk result (λ opened. AreBridgeInputs network.now.plans opened.0.items) }
    ensures named { IfOk result (λ _. HavePaths job.now.input.now job.now.output.now) }
    ensures err { IfErr result (EndsRun network.now file.now.bridges job.now.input.now job.now.output.now
        (option_map string_bytes job.now.picture.now)) }
{
    let (alloc, plans, bridges) = (files.alloc(), network.plans(), file.bridges());
    if let Err(fault) = test_folders(alloc, job.input, job.output) {
        return Err(file_failure(fault));
    }
    let incoming = read_bridge_inputs(alloc, files, network, bridges, job.input)?;
    let outputs = match open_outputs(files, plans, bridges, job.input, job.output) {
        Ok(outputs) => outputs,
        Err(fault) => {
            drop(incoming);
            return Err(fault);
        }
    };
    match open_picture(files, job.picture) {
        Ok(drawing) => Ok((incoming, outputs, drawing)),
        Err(fault) => {
            drop(incoming);
            drop(outputs);
            Err(fault)
        }
    }
}

/// Runs a network with the inputs of one folder, and writes the outputs to another. Returns the lines to print and the number of rounds.
///
/// Fails if a file fails, a capture or commands are refused, or the network doesn't settle. `run_accepted` calls it.
fn run_network_folders<H: AllocGlobal + Eprint + Files>(
    files: &mut CommandFiles<'_, H>,
    file: &NetworkFile<Global>,
    network: &Network<Global>,
    job: &NetworkRunRequest<'_>,
    flags: Flags,
) -> Result<(RunLines, u32), Failure>
    requires few { length network.now.plans ≤ 64 }
    requires accepted { IsAccepted network.now file.now }
    ensures ok { IfOk result (λ ran. IsRunLine network.now file.now (string_bytes ran.0.line)) }
    ensures rounds { IfOk result (λ ran. TellsRunIn network.now file.now (string_bytes ran.0.line) ran.1) }
    ensures lost { IfOk result (λ ran. TellsRunLosses network.now file.now flags.is_strict (string_bytes ran.0.line)
        ran.1 (string_bytes ran.0.lost)) }
    ensures named { IfOk result (λ _. HavePaths job.now.input.now job.now.output.now) }
    ensures err { IfErr result (EndsRun network.now file.now.bridges job.now.input.now job.now.output.now
        (option_map string_bytes job.now.picture.now)) }
{
    let (alloc, bridges) = (files.alloc(), file.bridges());
    let opened = open_run(files, file, network, job)?;
    let (incoming, outputs, drawing) = opened;
    let mut teller = ProgressPrinter::new(files.rt, bridges, &incoming, flags);
    let Ok(rounds) = most_rounds(alloc, network) else {
        drop(incoming);
        drop(outputs);
        drop(drawing);
        return Err(Failure::NoMemory);
    };
    let ran = run_network(alloc, network, incoming, rounds, &mut teller);
    teller.clear();
    match ran {
        Ok(settled) => {
            let rounds = settled.rounds;
            let told = write_results_and_picture(
                files.rt,
                file,
                network,
                job.output,
                &settled.bridges,
                outputs,
                job.picture,
                drawing,
                flags.is_strict,
            );
            drop(settled);
            match told {
                Ok(lines) => Ok((lines, rounds)),
                Err(fault) => Err(fault),
            }
        }
        Err(fault) => {
            drop(outputs);
            drop(drawing);
            Err(run_failure(alloc, bridges, fault))
        }
    }
}

/// Result of the command `net`, from which its output is made.
#[derive(Drop)]
pub struct NetworkRunResult {
    /// Line for standard output. `None` if a warning kept the network from running.
    pub line: Option<String>,
    /// Text for standard error: warnings of `net check`, or lines about streams with lost frames or missed deadlines. It is empty unless
    /// warnings and losses are errors.
    pub told: String,
    /// Whether warnings are errors and the network has one.
    pub is_warned: bool,
    /// Whether losses are errors and a stream lost frames or missed its deadline.
    pub is_lossy: bool,
    /// Number of rounds. The last round changed no port's input. 0 if a warning kept the network from running.
    pub rounds: u32,
}

impl NetworkRunResult {
    ghost use Rattle.std.specs.Prelude.{◌≡◌};
    ghost use Rattle.app_networks.specs.Losing.{status_of};

    /// Returns the exit status: 1 if a warning or a loss is an error, otherwise 0. `output_of_run` calls it.
    pub fn status(&self) -> u8
        ensures { result ≡ status_of self.now.is_warned self.now.is_lossy }
    {
        if self.is_warned || self.is_lossy {
            1
        } else {
            0
        }
    }
}

/// Returns the warnings of `net check`, if warnings are errors; otherwise the empty text. `run_accepted` calls it.
fn warnings_if(
    alloc: Global,
    file: &NetworkFile<Global>,
    network: &Network<Global>,
    is_strict: bool,
) -> Result<String, NoMemory>
    requires few { length network.now.plans ≤ 64 }
    ensures { IfOk result (λ text. AreWarningsIf is_strict file.now network.now (string_bytes text)) }
{
    if !is_strict {
        return Ok(String::new(alloc));
    }
    let bounds = all_queue_bounds(alloc, network.plans())?;
    all_warnings(alloc, alloc, file, network, &bounds)
}

/// Runs an accepted network. If warnings are errors and the network has one, runs nothing and opens no file. Fails if a file fails, a
/// capture or commands are refused, or the network doesn't settle.
///
/// `run_rounds` calls it.
fn run_accepted<H: AllocGlobal + Eprint + Files>(
    files: &mut CommandFiles<'_, H>,
    file: &NetworkFile<Global>,
    network: &Network<Global>,
    job: &NetworkRunRequest<'_>,
    flags: Flags,
) -> Result<NetworkRunResult, Failure>
    requires few { length network.now.plans ≤ 64 }
    requires accepted { IsAccepted network.now file.now }
    ensures ok { IfOk result (λ said. IfSome said.line (λ line. IsRunLine network.now file.now (string_bytes line))) }
    ensures rounds { IfOk result (λ said. IfSome said.line
        (λ line. TellsRunIn network.now file.now (string_bytes line) said.rounds)) }
    ensures told { IfOk result (λ said. IfSome said.line
        (λ line. TellsRunLosses network.now file.now flags.is_strict (string_bytes line) said.rounds
        (string_bytes said.told))) }
    ensures lossy { IfOk result (λ said. IfSome said.line (λ _. said.is_lossy ≡ has_lines (string_bytes said.told))) }
    ensures named { IfOk result (λ said. IfSome said.line (λ _. HavePaths job.now.input.now job.now.output.now)) }
    ensures warned { IfOk result (λ said. said.is_warned ≡ true → said.line ≡ None) }
    ensures idle { IfOk result (λ said. said.line ≡ None → (said.is_warned ≡ true)
        × ((flags.is_strict ≡ true) × TellsWarnings network.now file.now (string_bytes said.told))) }
    ensures err { IfErr result (EndsRun network.now file.now.bridges job.now.input.now job.now.output.now
        (option_map string_bytes job.now.picture.now)) }
{
    let Ok(warnings) = warnings_if(files.alloc(), file, network, flags.is_strict) else {
        return Err(Failure::NoMemory);
    };
    if !warnings.as_str().is_empty() {
        return Ok(NetworkRunResult {
            line: None,
            told: warnings,
            is_warned: true,
            is_lossy: false,
            rounds: 0,
        });
    }
    match run_network_folders(files, file, network, job, flags) {
        Ok((lines, rounds)) => Ok(ran(lines, rounds)),
        Err(fault) => Err(fault),
    }
}

/// Returns the result of `net` after a complete run with these lines and this number of rounds. `run_accepted` calls it.
fn ran(lines: RunLines, rounds: u32) -> NetworkRunResult
    ensures line { result.line ≡ Some lines.line }
    ensures told { result.told ≡ lines.lost }
    ensures warned { result.is_warned ≡ false }
    ensures lossy { result.is_lossy ≡ has_lines (string_bytes lines.lost) }
    ensures rounds { result.rounds ≡ rounds }
{
    let RunLines { line, lost } = lines;
    let is_lossy = !lost.as_str().is_empty();
    NetworkRunResult {
        line: Some(line),
        told: lost,
        is_warned: false,
        is_lossy,
        rounds,
    }
}

/// Requested network run: the paths that the arguments give.
#[derive(Clone, Copy)]
pub struct NetworkRunRequest<'a> {
    /// Path of the network.
    pub network: &'a str,
    /// Path of the input folder.
    pub input: &'a str,
    /// Path of the output folder.
    pub output: &'a str,
    /// Path of the requested picture. `None` if the arguments request none.
    pub picture: &'a Option<String>,
}

/// Runs an accepted network between two folders, and writes captures, reports, tables and the requested picture. Outputs keep their
/// contents until the run is complete.
///
/// If warnings are errors and the network has one, nothing runs. Fails if a file fails, a capture or commands are refused, or the network
/// doesn't settle. `run_network` calls it.
pub fn run_rounds<H: AllocGlobal + Eprint + Files>(
    files: &mut CommandFiles<'_, H>,
    job: &NetworkRunRequest<'_>,
    flags: Flags,
) -> Result<NetworkRunResult, Failure>
    ensures ok { IfOk result (λ said. IfSome said.line (λ line. PrintsRounds Global (string_bytes line))) }
    ensures rounds { IfOk result (λ said. IfSome said.line
        (λ line. PrintsRoundsIn Global (string_bytes line) said.rounds)) }
    ensures told { IfOk result (λ said. IfSome said.line
        (λ line. PrintsRunLosses Global flags.is_strict (string_bytes line) said.rounds (string_bytes said.told))) }
    ensures lossy { IfOk result (λ said. IfSome said.line (λ _. said.is_lossy ≡ has_lines (string_bytes said.told))) }
    ensures named { IfOk result (λ said. IfSome said.line (λ _. HavePaths job.now.input.now job.now.output.now)) }
    ensures warned { IfOk result (λ said. said.is_warned ≡ true → said.line ≡ None) }
    ensures idle { IfOk result (λ said. said.line ≡ None → (said.is_warned ≡ true)
        × ((flags.is_strict ≡ true) × PrintsWarnings Global (string_bytes said.told))) }
    ensures err { IfErr result (EndsRounds Global job.now.network.now job.now.input.now job.now.output.now
        (option_map string_bytes job.now.picture.now)) }
{
    let alloc = files.alloc();
    let file = read_network(alloc, files, job.network)?;
    let plans = read_plans(alloc, files, job.network, file.bridges())?;
    let Ok(()) = files.note_standard_output() else {
        drop(plans);
        return Err(Failure::NoMemory);
    };
    match check_network_file(alloc, alloc, &file, plans) {
        Ok(network) => {
            let told = run_accepted(files, &file, &network, job, flags);
            drop(network);
            told
        }
        Err(fault) => Err(fault),
    }
}
