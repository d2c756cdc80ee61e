//! Makes a source of captures from a reader of the standard library.
ghost use Rattle.std.specs.Prelude.{◌≡◌, [], false};

use crate::byte_source::{Broken, ByteSource};
use std::io::Read;

/// Reader as a source. Each error of the reader is permanent, even an interrupted call.
#[derive(Drop)]
pub struct FromRead<R: Read> {
    /// Reader that gives the octets.
    reader: R,
    /// Whether the reader has failed.
    is_broken: bool,
}

impl<R: Read> FromRead<R> {
    /// Makes a source of a reader that hasn't failed. `with_width` calls it.
    pub fn new(reader: R) -> FromRead<R>
        ensures remaining { ⟦<FromRead<R> as ByteSource>⟧.remaining result ≡ R.remaining reader }
        ensures sound { ⟦<FromRead<R> as ByteSource>⟧.has_failed result ≡ false }
    {
        FromRead {
            reader,
            is_broken: false,
        }
    }

    /// Returns the reader, which has the remaining octets. The information whether the source has failed is lost. A caller that used the
    /// source for a while gets its reader back.
    pub fn into_inner(self) -> R
        ensures { R.remaining result ≡ ⟦<FromRead<R> as ByteSource>⟧.remaining self }
    {
        let FromRead { reader, .. } = self;
        reader
    }
}

impl<R: Read> ByteSource for FromRead<R> {
    ghost remaining = { λ s. R.remaining s.reader };

    ghost has_failed = { λ s. s.is_broken };

    ghost never_fails = { λ _. false };

    ghost at_hand = { λ _. [] };

    fn read(&mut self, buf: &mut [u8]) -> Result<usize, Broken> {
        if self.is_broken {
            return Err(Broken);
        }
        match self.reader.read(buf) {
            Ok(count) => Ok(count),
            Err(_) => {
                self.is_broken = true;
                Err(Broken)
            }
        }
    }

    fn failed(&self) -> bool {
        self.is_broken
    }

    fn buffered_octets(&self) -> &[u8] {
        &[]
    }

    fn consume(&mut self, _count: usize) {}
}
