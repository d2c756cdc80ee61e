#![tactic(auto)]
//! Plan of a bridge (ports, VLANs, streams, gates, meters and filters), and commands to the bridge.

mod changes;
mod command;
mod commands;
mod filters;
mod first_fault;
mod gates;
mod lists;
mod meters;
mod numbers;
mod plan;
mod ports;
mod section_arrays;
mod statics;
mod streams;
mod vlans;

pub use bridge_forward::PortSet;
pub use bridge_schema::{PlanFault, max_instances};
pub use command::Command;
pub use commands::commands_of;
pub use plan::{Plan, plan_of};
pub use ports::PortPlan;
