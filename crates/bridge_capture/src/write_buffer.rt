//! Buffer of octets that a sink holds back until a block is full.
ghost use Rattle.std.specs.Prelude.{◌≡◌, ◌≤◌, ◌<◌, ◌+◌, ◌++◌, length, vec_len};
ghost use Rattle.std.specs.Int.{w64, to_le_bytes};
ghost use Rattle.bridge_capture.specs.declared.write_buffer.TheConstants.{MAX_BLOCK, MAX_RECORD_OCTETS};

use bridge_limits::NoMemory;
use std::alloc::Allocator;

/// Largest block in octets: whole pages of a file.
pub const MAX_BLOCK: usize = 131_072;

/// Length of the longest written record in octets. An incomplete block always has room for one more record.
const MAX_RECORD_OCTETS: usize = 65_552;

/// Octets held back until they make a block: the first `count` of a buffer.
#[derive(Drop)]
pub struct WriteBuffer<A: Allocator> {
    /// Buffer; only its first `count` octets have a meaning.
    octets: Vec<u8, A>,
    /// Number of octets held back.
    count: usize,
    /// Number of octets that are written at once.
    block: usize,
    ghost wide: { vec_len octets ≡ block + MAX_RECORD_OCTETS },
    ghost within: { count ≤ vec_len octets },
    ghost some: { 0 < block },
    ghost most: { block ≤ MAX_BLOCK },
}

impl<A: Allocator> WriteBuffer<A> {
    ghost use Rattle.std.specs.Prelude.{◌-◌, [], true, drop, IfOk};
    ghost use Rattle.bridge_capture.specs.Buffers.{held_octets};

    /// Makes an empty buffer with blocks of `block` octets. Allocates memory once. `with_block` calls it.
    pub fn new(alloc: A, block: usize) -> Result<WriteBuffer<A>, NoMemory>
        requires some { 0 < block }
        requires most { block ≤ MAX_BLOCK }
        ensures none { IfOk result (λ held. held_octets held ≡ []) }
        ensures block { IfOk result (λ held. held.block ≡ block) }
    {
        match Vec::from_elem(alloc, 0u8, block + MAX_RECORD_OCTETS) {
            Ok(octets) => Ok(WriteBuffer {
                octets,
                count: 0,
                block,
            }),
            Err(_) => Err(NoMemory),
        }
    }

    /// Returns the number of octets of a block, which the sink writes at once. `write_with_flush` calls it.
    pub fn block_len(&self) -> usize
        ensures block { result ≡ self.now.block }
        ensures rest { self.now.count - result ≤ MAX_RECORD_OCTETS }
    {
        let _octets = &self.octets;
        self.block
    }

    /// Returns the number of octets held back. `WriteBehind` writes them when a block is full.
    #[inline(always)]
    pub fn len(&self) -> usize
        ensures count { result ≡ self.now.count }
        ensures most { result ≤ MAX_BLOCK + MAX_RECORD_OCTETS }
    {
        self.count
    }

    /// Returns the number of octets that the buffer can still accept. `write_with_flush` calls it.
    pub fn room(&self) -> usize
        ensures room { result ≡ vec_len self.now.octets - self.now.count }
        ensures some { self.now.count ≤ MAX_RECORD_OCTETS → 0 < result }
    {
        self.octets.len() - self.count
    }

    /// Whether the sink may add `more` octets before it writes a block: the buffer contains less than a block, and `more` is at most the
    /// longest record's length.
    ///
    /// `WriteBehind::write` and `WriteBehind::write_words` call it.
    #[inline(always)]
    pub fn has_room(&self, more: usize) -> bool
        ensures { result ≡ true → more ≤ vec_len self.now.octets - self.now.count }
    {
        self.count < self.block && more <= MAX_RECORD_OCTETS
    }

    /// Returns the octets held back. `WriteBehind` writes them to its sink.
    pub fn octets(&self) -> &[u8]
        ensures { result.now ≡ held_octets self.now }
    {
        &self.octets[..self.count]
    }

    /// Adds octets, for which the buffer must have capacity. `WriteBehind` calls it after it has made room.
    #[inline(always)]
    pub fn put(&mut self, octets: &[u8])
        requires { length octets.now ≤ vec_len self.old.octets - self.old.count }
        ensures octets { held_octets self.new ≡ held_octets self.old ++ octets.now }
        ensures width { vec_len self.new.octets ≡ vec_len self.old.octets }
        ensures count { self.new.count ≡ self.old.count + length octets.now }
    {
        let from = self.count;
        let to = from + octets.len();
        self.octets.as_mut_slice()[from..to].copy_from_slice(octets);
        self.count = to;
    }

    /// Adds `first` and `second`, each as eight little-endian octets, then `octets`. The buffer must have capacity for all.
    /// `WriteBehind::write_words` calls it.
    #[inline(always)]
    pub fn put_record(&mut self, first: u64, second: u64, octets: &[u8])
        requires { 16 + length octets.now ≤ vec_len self.old.octets - self.old.count }
        ensures octets { held_octets self.new ≡ held_octets self.old
            ++ ((to_le_bytes w64 first ++ to_le_bytes w64 second) ++ octets.now) }
        ensures width { vec_len self.new.octets ≡ vec_len self.old.octets }
        ensures count { self.new.count ≡ self.old.count + (16 + length octets.now) }
    {
        let from = self.count;
        let to = from + 16 + octets.len();
        fill_record(
            &mut self.octets.as_mut_slice()[from..to],
            first,
            second,
            octets,
        );
        self.count = to;
    }

    /// Drops the first `count` octets, after they were written. `flush_octets` calls it.
    pub fn skip(&mut self, count: usize)
        requires { count ≤ self.old.count }
        ensures octets { held_octets self.new ≡ drop count (held_octets self.old) }
        ensures width { vec_len self.new.octets ≡ vec_len self.old.octets }
        ensures count { self.new.count ≡ self.old.count - count }
    {
        let from = self.count;
        self.octets.as_mut_slice().copy_within(count..from, 0);
        self.count = from - count;
    }
}

/// Fills `place` with `first` and `second`, each as eight little-endian octets, then `octets`. `place` has exactly this length.
/// `put_record` calls it.
#[inline(always)]
fn fill_record(place: &mut [u8], first: u64, second: u64, octets: &[u8])
    requires { length place.old ≡ 16 + length octets.now }
    ensures { place.new ≡ (to_le_bytes w64 first ++ to_le_bytes w64 second) ++ octets.now }
{
    let (words, rest) = place.split_at_mut(16);
    words[..8].copy_from_slice(&first.to_le_bytes());
    words[8..].copy_from_slice(&second.to_le_bytes());
    rest.copy_from_slice(octets);
}
