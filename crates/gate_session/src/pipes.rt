//! Makes paths that lead to pipes.

use bridge_text::TextBuilder;
use std::alloc::Global;
use std::io::{PipeReader, Write, pipe};
use std::os::fd::AsRawFd;
use std::os::unix::fs::symlink;
use std::rt::Files;

/// Makes `path` a link to a pipe that contains `octets`. The caller keeps the returned end while the pipe is in use.
pub fn put_pipe<H: AllocGlobal + Files>(
    rt: &H,
    said: &mut TextBuilder<Global>,
    octets: &[u8],
    path: &str,
) -> Option<PipeReader> {
    let Ok((end, writer)) = pipe(rt) else {
        said.discard();
        return None;
    };
    let mut writer = writer;
    if writer.write_all(octets).is_err() {
        said.discard();
    }
    drop(writer);
    put_link(rt, said, end.as_raw_fd(), path);
    Some(end)
}

/// Makes `path` a symbolic link to file descriptor `number`, an end of a pipe.
fn put_link<H: AllocGlobal + Files>(
    rt: &H,
    said: &mut TextBuilder<Global>,
    number: i32,
    path: &str,
) {
    let is_put = match format!(in rt.alloc(); "/dev/fd/{number}") {
        Ok(place) => symlink(rt, place.as_str(), path).is_ok(),
        Err(_) => false,
    };
    if !is_put {
        said.discard();
    }
}
