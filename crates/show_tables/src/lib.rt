#![tactic(auto)]
//! Writes tables of a run of one bridge: each frame's fate, and the delays of each filter's frames.

mod copies;
mod delay_figures;
mod delays;
mod frame_rows;
mod frames;
mod group_bounds;
mod losses;
mod port_bounds;

pub use bridge_limits::NoMemory;
pub use delays::delay_table;
pub use frame_rows::FRAMES_HEADER;
pub use frames::frame_table;
