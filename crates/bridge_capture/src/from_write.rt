//! Makes a sink for captures from a writer of the standard library.
ghost use Rattle.std.specs.Prelude.{◌≡◌, false};

use crate::byte_sink::ByteSink;
use crate::byte_source::Broken;
use std::io::Write;

/// Writer as a sink. Each error of the writer is permanent, even an interrupted call or a write of 0 octets.
#[derive(Drop)]
pub struct FromWrite<W: Write> {
    /// Writer that accepts the octets.
    writer: W,
    /// Whether the writer has failed.
    is_broken: bool,
}

impl<W: Write> FromWrite<W> {
    /// Makes a sink of a writer that hasn't failed. `with_block` calls it.
    pub fn new(writer: W) -> FromWrite<W>
        ensures contents { ⟦<FromWrite<W> as ByteSink>⟧.contents result ≡ W.contents writer }
        ensures sound { ⟦<FromWrite<W> as ByteSink>⟧.has_failed result ≡ false }
    {
        FromWrite {
            writer,
            is_broken: false,
        }
    }

    /// Returns the writer, which has accepted the octets. The information whether the sink has failed is lost. `WriteBehind::finish` calls
    /// it, and then flushes the writer.
    pub fn into_inner(self) -> W
        ensures { W.contents result ≡ ⟦<FromWrite<W> as ByteSink>⟧.contents self }
    {
        let FromWrite { writer, .. } = self;
        writer
    }
}

impl<W: Write> ByteSink for FromWrite<W> {
    ghost contents = { λ s. W.contents s.writer };

    ghost has_failed = { λ s. s.is_broken };

    ghost never_fails = { λ _. false };

    ghost ran_out = { λ _. false };

    fn write(&mut self, octets: &[u8]) -> Result<usize, Broken> {
        if self.is_broken {
            return Err(Broken);
        }
        match self.writer.write(octets) {
            Ok(count) if count > 0 || octets.is_empty() => Ok(count),
            _ => {
                self.is_broken = true;
                Err(Broken)
            }
        }
    }

    fn write_words(&mut self, _first: u64, _second: u64, _octets: &[u8]) -> bool {
        false
    }

    fn failed(&self) -> bool {
        self.is_broken
    }
}
