#![tactic(auto)]
//! Checks of network files: faults, warnings, streams with their delays, and explanations.

mod changes;
mod deadline_search;
mod explained_streams;
mod explaining;
mod hop_lines;
mod hop_times;
mod late_streams;
mod link_faults;
mod network;
mod open_streams;
mod refusable_streams;
mod refusing;
mod warning_lines;
mod warnings;

pub use explained_streams::explain_streams;
pub use explaining::{explain_loops, explain_network};
pub use network::{
    NetworkOutput, check_network_file, network_job, network_paths, read_network, read_plans,
    sibling_path,
};
pub use warnings::all_warnings;
