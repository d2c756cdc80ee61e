//! The report of a run, as the contents of a file.
ghost use Rattle.bridge_report.specs.Section.{report_text};

use app_files::{Content, WriteFault};
use bridge_report::{ReportFault, write_report};
use bridge_semantics::Outcome;
use std::alloc::Global;
use std::io::Write;

/// Report of a run, which `write_content` of `app_files` writes to a file.
#[derive(Drop)]
pub struct Report<'a> {
    /// Result of the run.
    pub outcome: &'a Outcome<Global>,
}

impl Content for Report<'_> {
    ghost octets = { λ report. report_text report.outcome.now.filters.items };

    fn write_to<W: Write + Drop>(&self, alloc: Global, writer: W) -> Result<W, WriteFault> {
        match write_report(alloc, self.outcome, writer) {
            Ok(writer) => Ok(writer),
            Err(ReportFault::Broken) => Err(WriteFault::Broken),
            Err(ReportFault::NoMemory) => Err(WriteFault::NoMemory),
        }
    }
}
