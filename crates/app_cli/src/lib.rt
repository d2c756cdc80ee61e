#![tactic(auto)]
//! Reads the arguments: the requested command, its options, the usage of each command, and the help.

mod command;
mod helping;
mod job;
mod manual;
mod number;
mod picture_request;
mod request;
mod table_request;
mod usage;
mod words_fault;

pub use command::OPTIONS;
pub use helping::requested_help;
pub use job::Command;
pub use manual::help_text;
pub use number::parse_number_list;
pub use picture_request::PictureRequest;
pub use request::{Request, parse_request, read_arguments, wants_explanation};
pub use table_request::TableRequest;
pub use usage::{Usage, command_names, find_usage, has_value, option_names};
pub use words_fault::ArgumentsFault;
