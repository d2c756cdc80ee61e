#![tactic(auto)]
//! Draws pictures of plans and runs as SVG text: windows and stream gates by time, and frames that left each port.
//!
//! This crate computes positions, styles and words; `bridge_text` writes the markup. Colours follow the reader's light or dark scheme.

mod frame_selection;
mod lane;
mod legend;
mod picture;
mod plan_picture;
mod run_picture;
mod selection;

pub use bridge_limits::NoMemory;
pub use plan_picture::draw_plan;
pub use run_picture::draw_run;
pub use selection::Selection;
