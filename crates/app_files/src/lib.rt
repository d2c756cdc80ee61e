#![tactic(auto)]
//! Opens, reads and writes the files of a command, protects files in use, and finds why a file fails.

mod cause;
mod command_files;
mod failed_file;
mod output;
mod paths;
mod reading;
mod writing;

pub use cause::{Cause, is_file, read_cause};
pub use command_files::{
    CommandFiles, ReadFiles, create_apart, make_folder, open_capture, open_captures, open_input,
    read_open, refuse_same_folder,
};
pub use failed_file::{Access, FileError, FileFault};
pub use output::{FileId, Output, Said, is_standard, open_file_id, path_file_id};
pub use paths::{capture_path, parent_folder, report_path, test_folders};
pub use reading::{MOST_TEXT, ReadFault, read_at_most, read_named, read_standard, read_text};
pub use writing::{
    Content, WriteFault, flush_file, give_up_file, print_text, standard_output_fault,
    write_content, write_file, write_standard,
};
