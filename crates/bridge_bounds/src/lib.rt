#![tactic(auto)]
//! Delays of a protected filter's frames in each queue: bounds that hold whatever the talker sends, and phases and delays of periodic
//! talkers.

mod coarse;
mod common_cycle;
mod gate_frames;
mod interval_time;
pub mod latency;
pub mod laws;
mod longest_time;
mod openings;
mod passing;
pub mod periodic_laws;
mod queue_bounds;
mod tight_bound;
mod timing;
mod traffic;
mod waits;

pub use coarse::is_coarse;
pub use passing::{longest_sdu, passes};
pub use queue_bounds::{class_bound, find_filter, queue_bound};
pub use tight_bound::tight_queue_bound;
pub use timing::{Phases, Timing, queue_timing};
pub use traffic::Traffic;
