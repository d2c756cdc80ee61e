#![tactic(auto)]
//! Groups of stream filters that share queues: other traffic doesn't change their records, and each frame leaves in time.
//!
//! The laws of one queue give delay bounds and capacities for frames with an arrival curve, as flow meters enforce it.
//!
//! Work is transmission time in ns. A fit is a time at which a transmission fits into the open times of a class. Successive fits, one each
//! ns, are a run of fits.

mod admission;
mod apart_gates;
mod cost_search;
mod count_curves;
mod delay_bound;
mod fit_runs;
mod frame_costs;
mod gate_bounds;
mod group_gates;
mod group_rows;
pub mod laws;
mod least_bounds;
mod leave_times;
mod linear_curve;
mod merged_gates;
mod meter_curves;
mod opening_bound;
mod openings;
pub mod queue_laws;
mod room;
mod shared_queues;
mod sharers;
mod span_search;

pub use admission::{admits_talker, committed_tokens, is_open_gate};
pub use delay_bound::list_delay_bound;
pub use group_rows::plan_shared_queues;
pub use least_bounds::{
    is_bounded_by_gates, least_bound, least_queue_bound, least_shared_bound, padded_bound,
    padded_shared_bound,
};
pub use linear_curve::{LARGEST_BURST, LinearCurve};
pub use opening_bound::gate_delay_bound;
pub use room::sufficient_room;
pub use shared_queues::SharedQueue;
