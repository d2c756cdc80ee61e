#![tactic(auto)]
//! Report of a network run: source frames, delays, losses and tables. Pictures of networks and runs.

mod copy_counting;
mod frame_table;
mod hop_counting;
mod hops;
mod lanes;
mod losing;
mod network_picture;
mod rows;
mod run_picture;
mod sources;
mod statistics;
mod stream_table;
mod tables;
mod windows;

pub use copy_counting::{HopRun, count_copies};
pub use frame_table::FRAMES_HEADER;
pub use hop_counting::{HopCounts, hop_counts};
pub use losing::{HopLosses, put_faults};
pub use network_picture::draw_network;
pub use run_picture::RunPicture;
pub use sources::{SourceFrame, trace_source_frames};
pub use stream_table::{STREAMS_HEADER, delivered_frames, stream_line};
pub use tables::{Heading, Table, TableFault, put_table, stream_delays, write_stream};
