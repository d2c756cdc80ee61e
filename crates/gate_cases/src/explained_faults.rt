//! Explains faults that no text of a case causes.

use crate::explanation_cases::put_line;
use crate::text_pieces::add;
use app_failure::{Failure, TextFault};
use app_files::Cause;
use bridge_capture::{CaptureFault, RunFault};
use bridge_check::CheckFault;
use bridge_config::plan_of;
use bridge_schema::PlanFault;
use bridge_text::TextBuilder;
use show_explain::{explain_commands, explain_file, explain_plan, explain_run, explain_text};
use show_lint::explain_check;
use std::alloc::Global;

/// Faults of runs.
const RUNS: &[RunFault] = &[
    RunFault::Capture {
        port: 2,
        fault: CaptureFault::TooManyRecords,
    },
    RunFault::Capture {
        port: 2,
        fault: CaptureFault::Read,
    },
    RunFault::Capture {
        port: 2,
        fault: CaptureFault::Write,
    },
    RunFault::Capture {
        port: 2,
        fault: CaptureFault::NoMemory,
    },
    RunFault::Write { port: 2 },
    RunFault::NoMemory,
];

/// Causes of file faults.
const CAUSES: &[Cause] = &[
    Cause::NotFound,
    Cause::NoFolder,
    Cause::Folder,
    Cause::NoFolderButFile,
    Cause::NotReadable,
    Cause::NotWritable,
    Cause::SameFolder,
    Cause::InUse,
    Cause::Standard,
    Cause::Unknown,
];

/// Adds explanations of run faults, of texts that are too long, and of memory that ran out.
pub fn put_faults(alloc: Global, said: &mut TextBuilder<Global>) {
    said.put("== faults without a text\n");
    for fault in RUNS {
        let told = explain_run(alloc, "in/2.pcap", &[], fault);
        put_line(alloc, said, &Failure::Run(*fault), told);
    }
    for fault in &[PlanFault::TooLong, PlanFault::NoMemory] {
        let told = explain_plan(alloc, "plan.toml", &[], fault);
        put_line(alloc, said, &Failure::Plan(*fault), told);
        let told = explain_commands(alloc, "commands.toml", &[], &[], fault);
        put_line(alloc, said, &Failure::Commands(*fault), told);
    }
    put_memory(alloc, said);
    for fault in &[TextFault::TooLong, TextFault::Run(RunFault::NoMemory)] {
        let told = explain_text(alloc, fault);
        put_line(alloc, said, &Failure::Text(*fault), told);
    }
}

/// Adds the explanation of a plan's check that ran out of memory.
fn put_memory(alloc: Global, said: &mut TextBuilder<Global>) {
    let fault = CheckFault::NoMemory;
    if let Ok(plan) = plan_of(alloc, alloc, b"[[port]]\nnumber = 1\nmbps = 10\n") {
        let told = explain_check(alloc, "plan.toml", &[], &plan, &fault);
        put_line(alloc, said, &Failure::Check(fault), told);
    }
}

/// Adds the explanation of each cause of a file fault.
pub fn put_causes(alloc: Global, said: &mut TextBuilder<Global>) {
    said.put("== causes of files\n");
    for cause in CAUSES {
        add(said, explain_file(alloc, "out/2.pcap", *cause));
    }
}
