//! Prints the fault lines and exit statuses of faults of each kind.

use crate::growths::{count_line_growths, count_wire_line_growths, put_growths};
use app_commands::wire_line;
use app_failure::{Failure, TextFault, fault_line, file_failure};
use app_files::open_input;
use bridge_capture::{CaptureFault, RunFault};
use bridge_check::CheckFault;
use bridge_cycle::ListFault;
use bridge_schema::{Field, KeyLocation, PlanFault, Section};
use bridge_text::TextBuilder;
use bridge_wire::WireCount;
use std::alloc::Global;
use std::rt::Files;

/// Faults of captures, with their ports.
const CAPTURES: &[(u8, CaptureFault)] = &[
    (1, CaptureFault::RecordCut(3)),
    (2, CaptureFault::BadMagic),
    (3, CaptureFault::BadVersion),
    (4, CaptureFault::BadLinkType),
    (1, CaptureFault::HeaderCut),
    (1, CaptureFault::LengthsCross(1)),
    (1, CaptureFault::RecordTooLarge(20)),
    (1, CaptureFault::TimeBack(2)),
    (16, CaptureFault::TimeTooLate(1_000_000)),
    (1, CaptureFault::TooManyRecords),
    (2, CaptureFault::Read),
    (2, CaptureFault::Write),
    (1, CaptureFault::NoMemory),
];

/// Speed of a port.
const PORT_SPEED: KeyLocation = KeyLocation {
    section: Section::Port,
    index: 1,
    field: Field::Mbps,
};

/// Base time of a stream gate.
const GATE_BASE: KeyLocation = KeyLocation {
    section: Section::Gate,
    index: 2,
    field: Field::Base,
};

/// Members of a VLAN.
const MEMBERS: KeyLocation = KeyLocation {
    section: Section::Vlan,
    index: 1,
    field: Field::Members,
};

/// Faults of plans.
const PLANS: &[PlanFault] = &[
    PlanFault::Syntax,
    PlanFault::TooLong,
    PlanFault::NoPorts,
    PlanFault::UnknownKey(Section::Top, 0),
    PlanFault::UnknownKey(Section::Gate, 2),
    PlanFault::NotAList(Section::Port),
    PlanFault::Missing(PORT_SPEED),
    PlanFault::WrongKind(PORT_SPEED),
    PlanFault::OutOfRange(GATE_BASE),
    PlanFault::Duplicate(Section::Port, 2),
    PlanFault::Unresolved(MEMBERS),
    PlanFault::TooMany(Section::Gate),
    PlanFault::BadList(Section::Port, 3, ListFault::OverCycle),
    PlanFault::BadList(Section::Gate, 1, ListFault::Empty),
    PlanFault::BadList(Section::Gate, 1024, ListFault::ZeroInterval),
    PlanFault::BadList(Section::Port, 16, ListFault::CycleOutOfRange),
    PlanFault::BadList(Section::Port, 1, ListFault::TooManyEntries),
    PlanFault::BadList(Section::Port, 1, ListFault::NoMemory),
    PlanFault::NoMemory,
];

/// Time of a command.
const COMMAND_MOMENT: KeyLocation = KeyLocation {
    section: Section::Command,
    index: 2,
    field: Field::At,
};

/// Flag of a command.
const COMMAND_FLAG: KeyLocation = KeyLocation {
    section: Section::Command,
    index: 1,
    field: Field::Clear,
};

/// Number of the command with the greatest allowed index.
const COMMAND_NUMBER: KeyLocation = KeyLocation {
    section: Section::Command,
    index: 4096,
    field: Field::Number,
};

/// Faults of commands.
const COMMANDS: &[PlanFault] = &[
    PlanFault::Syntax,
    PlanFault::TooLong,
    PlanFault::UnknownKey(Section::Top, 0),
    PlanFault::UnknownKey(Section::Command, 2),
    PlanFault::NotAList(Section::Command),
    PlanFault::Missing(COMMAND_MOMENT),
    PlanFault::WrongKind(COMMAND_FLAG),
    PlanFault::OutOfRange(COMMAND_MOMENT),
    PlanFault::OutOfRange(COMMAND_FLAG),
    PlanFault::Unresolved(COMMAND_NUMBER),
    PlanFault::TooMany(Section::Command),
    PlanFault::NoMemory,
];

/// Faults of the check of a plan.
const CHECKS: &[CheckFault] = &[
    CheckFault::ProtectedWildcard { filter: 10 },
    CheckFault::NoMaxSdu { filter: 10 },
    CheckFault::GateShared { filter: 10 },
    CheckFault::MeterShared { filter: 10 },
    CheckFault::MaxSduNeverFits {
        filter: 4_294_967_295,
        port: 16,
        class: 0,
    },
    CheckFault::NoMemory,
];

/// Faults of runs other than faults of captures.
const RUNS: &[RunFault] = &[RunFault::Write { port: 3 }, RunFault::NoMemory];

/// Faults of hexadecimal texts.
const TEXTS: &[TextFault] = &[
    TextFault::NotHex,
    TextFault::TooLong,
    TextFault::Run(RunFault::Capture {
        port: 1,
        fault: CaptureFault::HeaderCut,
    }),
];

/// Counts of a run over a capture.
const COUNT: WireCount = WireCount {
    frames: 1_000_000,
    malformed: 9,
    sent: 0,
    full: 999_991,
};

/// Adds the fault line and the exit status of a fault.
pub fn put_status(alloc: Global, said: &mut TextBuilder<Global>, fault: &Failure) {
    match fault_line(alloc, fault) {
        Ok((line, status)) => {
            let status = u64::from(status);
            said.put_template("{a} (status {0})\n", &[status], &[line.as_str()]);
        }
        Err(_) => said.discard(),
    }
}

/// Adds the line and exit status of each fault and the line of counts, each with its number of allocations.
pub fn put_lines_of_faults(rt: &(impl AllocGlobal + Files), said: &mut TextBuilder<Global>) {
    let alloc = rt.alloc();
    said.put("== lines and statuses\n");
    put_runs(alloc, said);
    put_plans(alloc, said);
    put_fault(alloc, said, &Failure::Words);
    put_named(rt, said);
    put_count(alloc, said);
}

/// Adds the faults of texts and of runs.
fn put_runs(alloc: Global, said: &mut TextBuilder<Global>) {
    for fault in TEXTS {
        put_fault(alloc, said, &Failure::Text(*fault));
    }
    for fault in RUNS {
        put_fault(alloc, said, &Failure::Run(*fault));
    }
    for (port, fault) in CAPTURES {
        let fault = RunFault::Capture {
            port: *port,
            fault: *fault,
        };
        put_fault(alloc, said, &Failure::Run(fault));
    }
}

/// Adds the faults of plans, of commands and of checks.
fn put_plans(alloc: Global, said: &mut TextBuilder<Global>) {
    for fault in PLANS {
        put_fault(alloc, said, &Failure::Plan(*fault));
    }
    for fault in COMMANDS {
        put_fault(alloc, said, &Failure::Commands(*fault));
    }
    for fault in CHECKS {
        put_fault(alloc, said, &Failure::Check(*fault));
    }
}

/// Adds the faults that contain a path or a line. The file `a/b.pcap` doesn't exist.
fn put_named(rt: &(impl AllocGlobal + Files), said: &mut TextBuilder<Global>) {
    let alloc = rt.alloc();
    match open_input(rt, "a/b.pcap") {
        Ok(_) => said.discard(),
        Err(fault) => put_fault(alloc, said, &file_failure(fault)),
    }
    match String::from_str(alloc, "network refused: LinkTwice link 2 a.1") {
        Ok(line) => put_fault(alloc, said, &Failure::Network(line)),
        Err(_) => said.discard(),
    }
    match String::from_str(alloc, "network not settled a.3") {
        Ok(line) => put_fault(alloc, said, &Failure::Rounds(line)),
        Err(_) => said.discard(),
    }
}

/// Adds the line of counts, and the number of its allocations.
fn put_count(alloc: Global, said: &mut TextBuilder<Global>) {
    match wire_line(alloc, &COUNT) {
        Ok(line) => {
            said.put_template("{a}, ", &[], &[line.as_str().trim_end()]);
            put_growths(said, count_wire_line_growths(alloc, &COUNT, line.as_str()));
        }
        Err(_) => said.discard(),
    }
}

/// Adds the line and exit status of a fault, and the number of the line's allocations.
fn put_fault(alloc: Global, said: &mut TextBuilder<Global>, fault: &Failure) {
    match fault_line(alloc, fault) {
        Ok((line, status)) => {
            let line = line.as_str();
            said.put_template("{a} (status {0}), ", &[u64::from(status)], &[line]);
            put_growths(said, count_line_growths(alloc, fault, line, status));
        }
        Err(_) => said.discard(),
    }
}
