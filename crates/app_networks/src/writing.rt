//! Writes the outputs of each bridge of a network run.
ghost use Rattle.std.specs.Prelude.{IfErr, IfOk};
ghost use Rattle.std.specs.Io.KnownBytes.{Appends};
ghost use Rattle.bridge_report.specs.Section.{report_text};
ghost use Rattle.app_failure.specs.Reading.{FailsCaptures, IsFileFault};
ghost use Rattle.app_files.specs.Paths.{capture_path, report_path};
ghost use Rattle.app_networks.specs.OutputFiles.{AreWrittenBy, IsBridgeWritten, IsTapWritten};
ghost use Rattle.app_networks.specs.RunFiles.{IsBridgeOutputFile, IsOutputOfBridges, NamesFile};
ghost use Rattle.app_files.specs.declared.failed_file.Access.TheVariants.{Writing};

use crate::outputs::{BridgeOutputs, bridge_folder};
use app_commands::Report;
use app_failure::{Failure, file_failure};
use app_files::{Output, capture_path, report_path, write_content, write_file};
use bridge_capture::VecSink;
use bridge_config::Plan;
use bridge_semantics::Outcome;
use net_file::BridgeRow;
use net_model::Network;
use net_run::BridgeResult;
use std::alloc::Global;
use std::fs::OpenFile;
use std::io::Write;

/// Writes the capture of a bridge's port to the open file `output`, and returns the file. A failure names the file's path in the bridge's
/// folder. `write_captures` calls it.
fn put_tap<F: Write + OpenFile + Drop>(
    alloc: Global,
    folder: &str,
    port: u8,
    output: Output<F>,
    tap: &VecSink<Global>,
) -> Result<Output<F>, Failure>
    ensures written { IfOk result (IsTapWritten ⟦<Output<F> as Write>⟧.contents output tap.now) }
    ensures fails { IfErr result (IsFileFault Writing (capture_path folder.now port)) }
{
    let Ok(path) = capture_path(alloc, folder, port) else {
        drop(output);
        return Err(Failure::NoMemory);
    };
    match write_file(alloc, path.as_str(), output, tap.octets()) {
        Ok(output) => Ok(output),
        Err(fault) => Err(file_failure(fault)),
    }
}

/// Writes the captures of a bridge's ports to their files by rising port, and returns the files. Fails if a capture can't be written.
/// `write_bridge` calls it.
fn write_captures<F: Write + OpenFile + Drop>(
    alloc: Global,
    folder: &str,
    ports: &[u8],
    outputs: Vec<Output<F>>,
    taps: &[VecSink<Global>],
) -> Result<Vec<Output<F>>, Failure>
    ensures written { IfOk result (λ done. AreWrittenBy (IsTapWritten ⟦<Output<F> as Write>⟧.contents) outputs.items
        taps.now done.items) }
    ensures fails { IfErr result (FailsCaptures Writing folder.now ports.now) }
{
    let mut done = Vec::new(alloc);
    for output in outputs {
        let place = done.len();
        if place >= taps.len() || place >= ports.len() {
            drop(output);
            return Err(Failure::NoMemory);
        }
        let written = match put_tap(alloc, folder, ports[place], output, &taps[place]) {
            Ok(written) => written,
            Err(fault) => return Err(fault),
        };
        match done.push(written) {
            Ok(()) => {}
            Err(_) => return Err(Failure::NoMemory),
        }
    }
    Ok(done)
}

/// Writes the report of a bridge to its file, and returns the file. A failure names its path. `write_bridge` calls it.
fn write_report_file<F: Write + OpenFile + Drop>(
    alloc: Global,
    folder: &str,
    outcome: &Outcome<Global>,
    output: Output<F>,
) -> Result<Output<F>, Failure>
    ensures written { IfOk result (λ done. Appends (⟦<Output<F> as Write>⟧.contents output)
        (⟦<Output<F> as Write>⟧.contents done) (report_text outcome.now.filters.items)) }
    ensures fails { IfErr result (IsFileFault Writing (report_path folder.now)) }
{
    let Ok(path) = report_path(alloc, folder) else {
        drop(output);
        return Err(Failure::NoMemory);
    };
    match write_content(alloc, path.as_str(), output, &Report { outcome }) {
        Ok(done) => Ok(done),
        Err(fault) => Err(file_failure(fault)),
    }
}

/// Writes the captures and the report of a bridge to its folder, and returns the files. Fails if a capture or report can't be written.
/// `write_bridges` calls it.
fn write_bridge<F: Write + OpenFile + Drop>(
    alloc: Global,
    plan: &Plan<Global>,
    folder: &str,
    settled: &BridgeResult<Global>,
    outputs: BridgeOutputs<F>,
) -> Result<BridgeOutputs<F>, Failure>
    ensures written { IfOk result (IsBridgeWritten ⟦<Output<F> as Write>⟧.contents outputs settled.now) }
    ensures fails { IfErr result (NamesFile Writing (IsBridgeOutputFile plan.now folder.now)) }
{
    let Ok(ports) = plan.port_numbers(alloc) else {
        drop(outputs);
        return Err(Failure::NoMemory);
    };
    let BridgeOutputs { taps, report } = outputs;
    let taps = match write_captures(alloc, folder, &ports, taps, &settled.taps) {
        Ok(taps) => taps,
        Err(fault) => {
            drop(report);
            return Err(fault);
        }
    };
    match write_report_file(alloc, folder, &settled.outcome, report) {
        Ok(report) => Ok(BridgeOutputs { taps, report }),
        Err(fault) => {
            drop(taps);
            Err(fault)
        }
    }
}

/// Writes the captures and the report of each bridge to its folder in `output`, and returns the files. Fails if a capture or report can't
/// be written. `write_results` calls it.
pub(crate) fn write_bridges<F: Write + OpenFile + Drop>(
    alloc: Global,
    network: &Network<Global>,
    bridges: &[BridgeRow<Global>],
    output: &str,
    settled: &[BridgeResult<Global>],
    outputs: Vec<BridgeOutputs<F>>,
) -> Result<Vec<BridgeOutputs<F>>, Failure>
    ensures written { IfOk result (λ done. AreWrittenBy (IsBridgeWritten ⟦<Output<F> as Write>⟧.contents) outputs.items
        settled.now done.items) }
    ensures fails { IfErr result (NamesFile Writing (IsOutputOfBridges network.now.plans bridges.now output.now)) }
{
    let plans = network.plans();
    let mut done = Vec::new(alloc);
    for opened in outputs {
        let place = done.len();
        if place >= plans.len() || place >= settled.len() || place >= bridges.len() {
            drop(opened);
            return Err(Failure::NoMemory);
        }
        let Ok(folder) = bridge_folder(alloc, output, bridges[place].name()) else {
            drop(opened);
            return Err(Failure::NoMemory);
        };
        let written = match write_bridge(
            alloc,
            plans[place].plan(),
            folder.as_str(),
            &settled[place],
            opened,
        ) {
            Ok(written) => written,
            Err(fault) => return Err(fault),
        };
        match done.push(written) {
            Ok(()) => {}
            Err(_) => return Err(Failure::NoMemory),
        }
    }
    Ok(done)
}
