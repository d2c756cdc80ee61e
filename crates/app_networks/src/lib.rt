#![tactic(auto)]
//! The program from its arguments to its output and exit status. It has the commands for networks and bounds; `app_commands` has all other
//! commands.

mod again;
mod bounds;
mod drawing;
mod explaining;
mod failing;
mod figures;
mod incoming;
mod job;
pub mod laws;
mod losing;
mod networks;
mod outputs;
mod picture;
mod program;
mod refusing;
pub mod table_laws;
mod tables;
mod watching;
mod writing;

pub use app_commands::Output;
pub use drawing::network_picture;
pub use program::perform;
