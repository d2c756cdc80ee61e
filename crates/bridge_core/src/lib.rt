#![tactic(auto)]
//! A time-aware bridge that handles frames and commands one by one (`Bridge`), and whole runs of captures and commands (`simulate`).
//!
//! A run reads each capture one record ahead.

mod bridge;
mod capture_writer;
mod run;
mod simulation;

pub use bridge::Bridge;
pub use bridge_capture::RunFault;
pub use bridge_events::{Agenda, RowAgenda, TreeAgenda};
pub use bridge_limits::NoMemory;
pub use bridge_relay::Sent;
pub use bridge_semantics::{Departure, Dropped, Outcome, PortCount, View};
pub use bridge_wire::{WireCount, wire};
pub use simulation::{simulate, simulate_with_agenda};
