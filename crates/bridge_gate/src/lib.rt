#![tactic(auto)]
//! Stream gates (IEEE 802.1Q-2018, 8.6.5.1.2): which frames of a stream pass, by time and by an octet limit in each interval.

pub mod schedule;
pub mod stream_gate;

pub use bridge_cycle::NoMemory;
pub use schedule::{GateEntry, GatePlan, Schedule};
pub use stream_gate::{GateAnswer, StreamGate};
