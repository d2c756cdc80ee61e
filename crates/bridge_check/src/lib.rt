#![tactic(auto)]
//! Tests whether a plan isolates its protected filters and its groups. A protected filter needs its stream gate, meter, queues and windows
//! for itself; a grouped filter shares its queues with its group.
//!
//! A refused plan has a first fault: by filter number, then by test, port and class.

mod check_fault;
mod faults;
mod filter_tests;
pub mod laws;
mod reach;
mod reaches;
mod validator;
mod windows;

pub use check_fault::CheckFault;
pub use faults::all_faults;
pub use reach::{Reach, can_wait, can_wait_in_reach, filter_reach, find_gate};
pub use validator::{Accepted, Refused, check};
