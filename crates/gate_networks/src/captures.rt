//! Writes captures frame by frame.
use bridge_capture::{VecSink, Writer};
use std::alloc::Global;

/// Latest arrival time of a frame in ns.
const LATEST: u64 = 1_000_000_000_000;

/// Greatest number of captured octets of a frame.
const MOST: usize = 22;

/// A capture under construction. After refused memory, it accepts no frames and has no octets.
#[derive(Drop)]
pub struct Recording {
    sink: VecSink<Global>,
    writer: Option<Writer>,
}

impl Recording {
    /// Returns a capture without frames.
    pub fn new(alloc: Global) -> Recording {
        let mut sink = VecSink::new(alloc);
        let writer = Writer::begin(&mut sink).ok();
        Recording { sink, writer }
    }

    /// Adds a frame of `len` octets that arrives at `at` ns. If `octets` has more than 22 octets, none are captured.
    pub fn put(&mut self, at: u64, len: u32, octets: &[u8]) {
        let octets = if octets.len() > MOST { &[] } else { octets };
        let len = len.max(octets.len() as u32);
        let is_refused = match &mut self.writer {
            Some(writer) => writer
                .put(&mut self.sink, at.min(LATEST), len, octets)
                .is_err(),
            None => false,
        };
        if is_refused {
            self.writer = None;
        }
    }

    /// Returns the capture's octets, or none after refused memory.
    pub fn octets(&self) -> &[u8] {
        if self.writer.is_some() {
            self.sink.octets()
        } else {
            &[]
        }
    }
}
