#![tactic(auto)]
//! Writes the report of a run: a section for each stream filter, and the line of counts over all ports.

mod figures;
mod laws;
mod line_block;
mod lines;
mod listed_lines;
mod lists;
mod losses;
mod put_section;
mod report_fault;
mod report_sink;
mod report_writer;
mod sections;
mod summary_line;
mod words;

pub use bridge_limits::NoMemory;
pub use figures::{arrival_time, greatest_delay, least_delay, total_delay};
pub use losses::{
    Losses, Reason, count_full, count_never_fitting, count_refused, lost_lines, put_losses,
    put_reason,
};
pub use report_fault::ReportFault;
pub use sections::{find_view, has_section, report, section, write_report};
pub use summary_line::summary;
pub use words::{refusal_word, verdict_word};
