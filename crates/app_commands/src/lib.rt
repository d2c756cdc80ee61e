#![tactic(auto)]
//! Carries out the commands for one bridge, from arguments to output and exit status: `check`, `run`, `wire` and `picture`. Explains their
//! failures. `app_networks` has the commands for networks and bounds.

mod bounding;
mod captures;
mod check;
mod context;
mod explaining;
mod files;
mod hexadecimal;
mod job;
mod jobs;
mod late;
mod notes;
mod output;
mod picture;
mod picturing;
mod plan;
mod printing;
mod progress;
mod report;
mod run;
mod run_files;
mod running;
mod sparing;
mod strict;
mod tables;
mod transfer;
mod wire;

pub use bounding::unprotected_warning;
pub use captures::StoppedRun as HaltedWire;
pub use check::{check_plan, status_if};
pub use context::{Flags, RunRequest, Texts};
pub use explaining::{
    explain_capture_file, explain_file_cause, explain_file_fault, explain_plan_fault,
    explain_run_fault, explain_wire_fault, explain_words_fault,
};
pub use hexadecimal::{send_text, wire_text};
pub use jobs::wire_job;
pub use output::{Output, print_text, report_fault};
pub use picture::draw_plan;
pub use picturing::{picture_apart, write_picture_file};
pub use plan::{is_network, read_file_text};
pub use printing::{put_stdout, report_words, tell, words_failure};
pub use progress::{LONG_INPUT, clear_line};
pub use report::Report;
pub use run::{line_or_nothing, run_bridge};
pub use run_files::Sent;
pub use running::{StoppedRun, run_captures};
pub use wire::{send_capture, wire_line};
