#![tactic(auto)]
//! Delay bounds of queues, delays of periodic talkers at one bridge and over several hops, and their lines and faults.

mod bounds;
mod cycles;
pub mod delivered;
mod entering;
mod hop_faults;
mod hops;
mod latency;
pub mod laws;
mod limited_rows;
mod marked_queues;
mod next_hop;
mod printing;
mod queue_exit;
mod refusable;
mod reporting;
mod shared_lines;
mod streams;
mod talkers;
mod texts;
mod tight;
mod timings;
mod traffic;
mod tree;

pub use bounds::{QueueBound, queue_bounds};
pub use cycles::{explain_period, explain_traffic};
pub use entering::can_others_enter;
pub use hop_faults::explain_hop_fault;
pub use hops::stream_hops;
pub use latency::StreamLatency;
pub use marked_queues::shared_warnings;
pub use printing::bounds_job;
pub use refusable::{explain_refusable, put_reason};
pub use reporting::{TrafficReport, traffic_job};
pub use streams::{
    StreamLines, all_queue_bounds, bounds_of_bridge, stream_bound, stream_bounds, stream_lines,
};
pub use talkers::{first_misfit, latency_through_hops, talker_latency};
pub use texts::{NetworkText, put_numbers, reread_text};
pub use tight::{TightBound, tight_queue_bounds};
pub use timings::{QueueTiming, TrafficFigures, are_in_time, queue_timings};
pub use traffic::traffic_fault;
