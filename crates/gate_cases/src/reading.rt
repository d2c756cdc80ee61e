//! Reads files as texts.
use app_failure::{Failure, file_failure};
use app_files::{FileFault, open_input, read_open};
use std::rt::Files;

/// Reads the text of a file. Fails with `Words` if it isn't UTF-8.
pub fn read_text(rt: &(impl AllocGlobal + Files), path: &str) -> Result<String, Failure> {
    match read_octets(rt, path) {
        Ok(octets) => match String::from_utf8(octets) {
            Ok(text) => Ok(text),
            Err(_) => Err(Failure::Words),
        },
        Err(fault) => Err(file_failure(fault)),
    }
}

/// Reads a whole file.
fn read_octets(rt: &(impl AllocGlobal + Files), path: &str) -> Result<Vec<u8>, FileFault> {
    let reader = open_input(rt, path)?;
    read_open(rt, path, reader, u64::MAX)
}
