#![tactic(auto)]
//! Defines why a command fails (`Failure`), with the fault line and the exit status of each failure. Reads and checks plans and commands
//! from readers.

mod accepting;
mod commanding;
mod fault;
mod isolation_line;
mod jobs;
mod line;
mod plan_line;
mod refused_commands;
mod status;

pub use accepting::{accepted_plan, check_line};
pub use bridge_limits::NoMemory;
pub use commanding::read_commands_and_check;
pub use fault::{Failure, TextFault, file_failure};
pub use jobs::{read_accepted_plan, read_plan};
pub use line::{fault_line, print, print_fault};
