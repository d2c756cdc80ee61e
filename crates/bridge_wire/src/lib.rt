#![tactic(auto)]
//! Sends one capture through one queue.

mod departures;
mod one_queue;
mod open_queue;
mod wire_count;

pub use bridge_capture::RunFault;
pub use one_queue::wire;
pub use wire_count::WireCount;
