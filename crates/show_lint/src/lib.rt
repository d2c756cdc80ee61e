#![tactic(auto)]
//! Explains plans to planners. For a refused plan: which tests it fails, and what to change.
//!
//! For an accepted plan: queues of protected filters, their delay bounds, and warnings about likely mistakes.

mod changing;
mod check_explanation;
mod closed;
mod gate_openings;
mod gate_waits;
mod group_description;
mod hidden_stream;
mod hypercycle;
mod lint;
mod meters;
mod not_forwarded;
mod plan_description;
mod queue_sentences;
mod queue_warnings;
mod queues;
mod route_cause;
mod sentence;
mod unused_parts;
mod warning;
mod windows;

pub use bridge_limits::NoMemory;
pub use changing::idle_change;
pub use check_explanation::explain_check;
pub use hypercycle::Hypercycle;
pub use plan_description::{describe_plan, write_warnings};
pub use sentence::put_warning;
pub use warning::{OtherVlan, Warning};
