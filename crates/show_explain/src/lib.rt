#![tactic(auto)]
//! Explains faults of texts, files, captures and arguments: the fault's position, the value there, the allowed values, and what to change.

mod arguments;
mod capture;
mod document;
mod entries;
mod explanation;
mod file;
mod misplaced_keys;
mod net_keys;
mod net_names;
mod network;
mod plan;
mod plan_fault;
mod reading;
mod run;

pub use arguments::{explain_arguments, explain_part};
pub use bridge_limits::NoMemory;
pub use capture::explain_capture;
pub use file::{explain_file, warn_unread_capture};
pub use network::{explain_network_text, explain_traffic_text};
pub use plan::{explain_commands, explain_plan};
pub use run::{explain_run, explain_text};
