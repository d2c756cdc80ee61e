#![tactic(auto)]
//! Relays frames through a bridge: frames arrive, are policed and queued, and leave. Keeps the ports with their queues and next starts, and
//! the record of each stream filter.

pub mod copies;
pub mod filter_recorder;
pub mod filter_recorders;
mod finish;
mod new_relay;
pub mod port_state;
pub mod ports;
mod relay;

pub use bridge_limits::NoMemory;
pub use port_state::Ingress;
pub use ports::Ports;
pub use relay::{Relay, Sent};
