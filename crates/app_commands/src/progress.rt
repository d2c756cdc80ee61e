//! Shows on a terminal how far a long run is: one line of standard error, which is gone when the run ends.
ghost use Rattle.std.specs.Prelude.{◌≡◌, ◌<◌, length, IfOk};

use bridge_limits::NoMemory;
use std::alloc::Global;
use std::cell::Cell;
use std::fs::OpenFile;
use std::io;
use std::io::Read;
use std::rt::Clock;
use std::time::Instant;

/// Number of input octets from which a run shows its progress. Shorter runs are quick.
pub const LONG_INPUT: u64 = 8_388_608;

/// Number of input octets after which the line is written again.
const STEP: u64 = 8_388_608;

/// Length of a capture's header in octets.
const HEADER_LENGTH: u64 = 24;

/// First octet of a capture with big-endian words.
const BIG_ENDIAN: u8 = 0xa1;

/// Length of a record's header in octets.
const RECORD_HEADER_LENGTH: usize = 16;

/// Removes the progress line from standard error. `Progress::clear` and `ProgressPrinter::clear` of `app_networks` call it.
pub fn clear_line(rt: &impl Eprint) {
    let _ = eprint!(rt; "\r\x1b[K");
}

/// How far a run is: the octets and frames that it has read from all inputs.
#[derive(Drop)]
pub(crate) struct Progress<'a, H> {
    /// System with the clock and standard error.
    rt: &'a H,
    /// Number of octets in all inputs; 0 if it is unknown.
    total: u64,
    /// Start of the run. `None` if the run shows no progress.
    start: Option<Instant>,
    /// Number of octets read so far.
    octets: Cell<u64>,
    /// Number of records read so far.
    frames: Cell<u64>,
    /// Number of octets after which the line is written.
    next: Cell<u64>,
}

impl<'a, H: Clock + Eprint> Progress<'a, H> {
    /// Returns the progress of a run that hasn't read any octet of `total`. Shows nothing unless `is_watched` is true and the input is
    /// long. `wire_files` and `run_watched` call it.
    pub(crate) fn new(rt: &'a H, total: u64, is_watched: bool) -> Progress<'a, H> {
        let is_wanted = is_watched && (total >= LONG_INPUT || total == 0);
        let start = if is_wanted {
            Instant::now(rt).ok()
        } else {
            None
        };
        Progress {
            rt,
            total,
            start,
            octets: Cell::new(0),
            frames: Cell::new(0),
            next: Cell::new(STEP),
        }
    }

    /// Adds read octets and records, and writes the line after each `STEP` octets. `WatchedReader::read` calls it.
    fn add(&self, start: Instant, octets: u64, frames: u64) {
        let read = self.octets.get().saturating_add(octets);
        self.octets.set(read);
        self.frames.set(self.frames.get().saturating_add(frames));
        if read >= self.next.get() {
            self.next.set(read.saturating_add(STEP));
            self.show(start, read);
        }
    }

    /// Writes the line: frames, and the share of the input and the time left if the input's length is known. `Progress::add` calls it.
    fn show(&self, start: Instant, read: u64) {
        let frames = self.frames.get();
        if self.total == 0 {
            let _ = eprint!(self.rt; "\r{frames} frames\x1b[K");
            return;
        }
        let share = read.saturating_mul(100) / self.total;
        let left = self.seconds_left(start, read);
        let _ = eprint!(self.rt; "\r{frames} frames, {share} % of the input, {left} s left\x1b[K");
    }

    /// Returns the seconds until the end, if the rest of the input takes as long for each octet as the octets before. `show` calls it.
    fn seconds_left(&self, start: Instant, read: u64) -> u64 {
        let Ok(now) = Instant::now(self.rt) else {
            return 0;
        };
        let seconds = now.duration_since(start).as_secs();
        if read == 0 {
            return 0;
        }
        seconds.saturating_mul(self.total.saturating_sub(read)) / read
    }

    /// Removes the line, if one was written, before other lines appear on standard error. `wire_files` and `run_watched` call it.
    pub(crate) fn clear(&self) {
        if self.start.is_some() && self.octets.get() >= STEP {
            clear_line(self.rt);
        }
    }
}

/// Counts the records of a capture, block by block, for progress only: it tests nothing.
#[derive(Clone, Copy, Drop)]
struct RecordCounter {
    /// Octets before the next record's header.
    skip: u64,
    /// Octets 8 to 11 of a header that a block's end cut: the captured length.
    word: [u8; 4],
    /// Number of this header's octets in earlier blocks.
    seen: usize,
    /// Whether the capture's words are big-endian; `None` before its first octet.
    is_big: Option<bool>,
}

impl RecordCounter {
    /// Returns the counter before the first octet of a capture. `WatchedReader::new` calls it.
    fn new() -> RecordCounter {
        RecordCounter {
            skip: HEADER_LENGTH,
            word: [0; 4],
            seen: 0,
            is_big: None,
        }
    }

    /// Returns the captured length in octets that the four octets `word` of a record's header encode. `pass_part` and `pass_header_octet`
    /// call it.
    fn captured_length(&self, word: [u8; 4]) -> u64 {
        if self.is_big == Some(true) {
            u32::from_be_bytes(word) as u64
        } else {
            u32::from_le_bytes(word) as u64
        }
    }

    /// Skips a part of `octets`: the rest of a record, a whole header, or one octet of a cut header. Returns the octets after it, and
    /// whether a header ended there. `count` calls it.
    fn pass_part<'b>(&mut self, octets: &'b [u8]) -> (&'b [u8], bool)
        requires { 0 < length octets.now }
        ensures { length result.0.now < length octets.entry.now }
    {
        if self.skip > 0 {
            let passed = (octets.len() as u64).min(self.skip);
            self.skip -= passed;
            return (&octets[passed as usize..], false);
        }
        if self.seen == 0 && octets.len() >= RECORD_HEADER_LENGTH {
            self.skip = self.captured_length([octets[8], octets[9], octets[10], octets[11]]);
            return (&octets[RECORD_HEADER_LENGTH..], true);
        }
        (&octets[1..], self.pass_header_octet(octets[0]))
    }

    /// Reads one octet of a header that a block's end cut. Returns whether the header ends there. `pass_part` calls it.
    fn pass_header_octet(&mut self, octet: u8) -> bool {
        if self.seen >= 8 && self.seen < 12 {
            self.word[self.seen - 8] = octet;
        }
        if self.seen < RECORD_HEADER_LENGTH - 1 {
            self.seen += 1;
            return false;
        }
        self.skip = self.captured_length(self.word);
        self.seen = 0;
        true
    }

    /// Returns the number of record headers that end in the next octets of the capture. `WatchedReader::read` calls it.
    fn count(&mut self, octets: &[u8]) -> u64 {
        if self.is_big.is_none() && !octets.is_empty() {
            self.is_big = Some(octets[0] == BIG_ENDIAN);
        }
        let mut frames = 0u64;
        let mut left = octets;
        while !left.is_empty() {
            let (rest, is_header) = self.pass_part(left);
            if is_header {
                frames = frames.saturating_add(1);
            }
            left = rest;
        }
        frames
    }
}

/// Reader of one input of a run. It returns all octets of the input unchanged, and adds them to the run's progress.
#[derive(Drop)]
pub(crate) struct WatchedReader<'a, R, H> {
    /// Reader of the input.
    reader: R,
    /// Records of the input so far.
    records: RecordCounter,
    /// Progress of the run.
    progress: &'a Progress<'a, H>,
}

impl<'a, R: Read, H: Clock + Eprint> WatchedReader<'a, R, H> {
    /// Wraps `reader`, so that `progress` counts all octets and records that it reads.
    pub(crate) fn new(reader: R, progress: &'a Progress<'a, H>) -> WatchedReader<'a, R, H>
        ensures { result.reader ≡ reader }
    {
        WatchedReader {
            reader,
            records: RecordCounter::new(),
            progress,
        }
    }
}

impl<R: Read, H: Clock + Eprint> Read for WatchedReader<'_, R, H> {
    ghost remaining = { λ watched. R.remaining watched.reader };

    fn read(&mut self, buf: &mut [u8]) -> io::Result<usize> {
        let count = self.reader.read(buf)?;
        if let Some(start) = self.progress.start {
            let frames = self.records.count(&buf[..count]);
            self.progress.add(start, count as u64, frames);
        }
        Ok(count)
    }
}

/// Wraps each capture's reader in a `WatchedReader`, in list order. Then one progress line counts the octets of all inputs of the command
/// `run`. `run_watched` calls it.
pub(crate) fn watched_readers<'a, R: Read + Drop, H: Clock + Eprint>(
    alloc: Global,
    readers: Vec<R>,
    progress: &'a Progress<'a, H>,
) -> Result<Vec<WatchedReader<'a, R, H>>, NoMemory>
    ensures { IfOk result (λ watched. length watched.items ≡ length readers.items) }
{
    let mut watched = Vec::with_capacity(alloc, readers.len())?;
    for reader in readers {
        watched.push(WatchedReader::new(reader, progress))?;
    }
    Ok(watched)
}

/// Returns the number of octets in an open file, or `None` for a pipe or a device. `input_octets` and `all_input_octets` call it.
fn file_octets(file: &impl OpenFile) -> Option<u64> {
    match file.metadata() {
        Ok(metadata) if metadata.is_file() => Some(metadata.len()),
        _ => None,
    }
}

/// Returns the number of octets of one input, or 0 if it is unknown. `wire_files` calls it.
pub(crate) fn input_octets(file: &impl OpenFile) -> u64 {
    file_octets(file).unwrap_or(0)
}

/// Returns the number of octets of all inputs, or 0 if one of them is unknown. `run_watched` calls it.
pub(crate) fn all_input_octets<F: OpenFile>(files: &[F]) -> u64 {
    let mut all = 0u64;
    for file in files {
        match file_octets(file) {
            Some(octets) => all = all.saturating_add(octets),
            None => return 0,
        }
    }
    all
}
