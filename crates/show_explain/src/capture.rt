//! Explains why a capture is refused, for `--explain`: by the file's first octets and the fault.
ghost use Rattle.std.specs.Prelude.{IfOk, string_bytes};
ghost use Rattle.bridge_text.specs.PathPrefix.{StartsWithName};

use crate::explanation::fill_with_two_words;
use bridge_capture::CaptureFault;
use bridge_limits::NoMemory;
use bridge_text::{TextBuilder, finish_with_path};
use std::alloc::Global;

/// Length of a capture's header in octets.
const HEADER_LENGTH: u64 = 24;

/// Returns whether all octets are printable text: the user may have given a text file as capture. `capture_sentence` calls it.
fn is_text(octets: &[u8]) -> bool {
    for octet in octets {
        if !matches!(*octet, b' '..=b'~' | b'\n' | b'\r' | b'\t') {
            return false;
        }
    }
    true
}

/// Returns the kind of a file whose contents begin with `octets`, if another program can convert it to a capture. Returns `None` for other
/// files. `capture_sentence` and `explain_capture` call it.
fn file_kind(octets: &[u8]) -> Option<&'static str> {
    match octets {
        [0x0A, 0x0D, 0x0D, 0x0A, ..] => Some("a pcapng file"),
        [0xA1, 0xB2, 0xCD, 0x34, ..] | [0x34, 0xCD, 0xB2, 0xA1, ..] => Some("a modified capture"),
        [0x1F, 0x8B, ..] => Some("a gzip file"),
        [0x28, 0xB5, 0x2F, 0xFD, ..] => Some("a zstd file"),
        _ => None,
    }
}

/// Explains why the capture at `path` is refused by `fault`: the kind of the file, and a command that converts it. `octets` are the file's
/// first octets. The explanation begins with `path`. `explain_run` calls it.
pub fn explain_capture(
    alloc: Global,
    path: &str,
    octets: &[u8],
    fault: &CaptureFault,
) -> Result<String, NoMemory>
    ensures { IfOk result (λ said. StartsWithName path.now (string_bytes said)) }
{
    let mut said = TextBuilder::new(alloc);
    let numbers = [
        octets.len() as u64,
        HEADER_LENGTH,
        fault_record(fault),
        read_u16(octets, 4),
        read_u16(octets, 6),
        link_type(octets).0,
    ];
    let (sentence, looks) = (
        capture_sentence(octets, fault),
        file_kind(octets).unwrap_or(""),
    );
    fill_with_two_words(&mut said, sentence, &numbers, path, looks);
    finish_with_path(alloc, path, said)
}

/// Returns the sentence for a capture's fault. Marks: path `{a}`, kind `{b}`, lengths of file `{0}` and header `{1}`, record `{2}`, version
/// `{3}.{4}`, link type `{5}`. `explain_capture` calls it.
fn capture_sentence(octets: &[u8], fault: &CaptureFault) -> &'static str {
    match fault {
        CaptureFault::BadMagic if file_kind(octets).is_some() =>
            ": it looks like {b}, and must be a classic capture (pcap). Convert it: editcap -F nsecpcap {a} NEW.pcap\n",
        CaptureFault::BadMagic if octets.is_empty() =>
            ": it is empty, and must be a classic capture (pcap).\n",
        CaptureFault::BadMagic if is_text(octets) =>
            ": it looks like text, and must be a classic capture (pcap). If it is a hexadecimal dump: text2pcap -F nsecpcap {a} NEW.pcap\n",
        CaptureFault::BadMagic =>
            ": not a capture file. The command needs a classic capture (pcap).\n",
        CaptureFault::BadVersion =>
            ": its version is {3}.{4}, and must be 2.4. Convert it: editcap -F nsecpcap {a} NEW.pcap\n",
        CaptureFault::BadLinkType if link_type(octets).0 != 1 =>
            ": its link type is {5}, and must be 1 (Ethernet). Capture at an Ethernet interface.\n",
        CaptureFault::BadLinkType if link_type(octets).1 & 0x0400 != 0 =>
            ": its header says that frames end with a frame check sequence. Remove the sequence: editcap -F nsecpcap -L -C -4 {a} NEW.pcap\n",
        CaptureFault::BadLinkType =>
            ": its link type is 1 (Ethernet), but the upper half of that word isn't 0. Convert the file: editcap -F nsecpcap {a} NEW.pcap\n",
        CaptureFault::HeaderCut
            if file_kind(octets).is_none() && !octets.is_empty() && is_text(octets) =>
            ": it has {0} octets and looks like text. A capture begins with a header of {1} octets.\n",
        CaptureFault::HeaderCut =>
            ": it has {0} octets, but a capture begins with a header of {1} octets. Check that the file is complete.\n",
        CaptureFault::RecordCut(_) =>
            ": the file ends inside record {2}. Check that it is complete, or keep its complete records: editcap -F nsecpcap {a} NEW.pcap\n",
        CaptureFault::LengthsCross(_) =>
            ": record {2} is damaged: its captured length exceeds its original length.\n",
        CaptureFault::RecordTooLarge(_) =>
            ": record {2} has more than 262144 captured octets. Cut the frames: editcap -F nsecpcap -s 262144 {a} NEW.pcap\n",
        CaptureFault::TimeBack(_) =>
            ": record {2} is earlier than the record before it. Sort the records: reordercap {a} NEW.pcap\n",
        CaptureFault::TimeTooLate(_) =>
            ": the time of record {2} is 4000000000 seconds or more. Shift the times: editcap -F nsecpcap -t -SECONDS {a} NEW.pcap\n",
        CaptureFault::TooManyRecords =>
            ": it has more than 1000000 records. Take a part: editcap -F nsecpcap -r {a} NEW.pcap 1-1000000\n",
        CaptureFault::Read => ": a read failed inside the file. Check the disk or the network.\n",
        CaptureFault::Write => ": a write failed. Check whether the disk is full.\n",
        CaptureFault::NoMemory => ": there is not enough memory for it.\n",
    }
}

/// Returns the number, from 1, of the record that a fault names; 0 if it names none. `explain_capture` calls it.
fn fault_record(fault: &CaptureFault) -> u64 {
    match fault {
        CaptureFault::RecordCut(n)
        | CaptureFault::LengthsCross(n)
        | CaptureFault::RecordTooLarge(n)
        | CaptureFault::TimeBack(n)
        | CaptureFault::TimeTooLate(n) => u64::from(*n),
        _ => 0,
    }
}

/// Returns two numbers from the header of the capture `octets`: the link type, and the upper half of its word, which must be 0.
/// `capture_sentence` and `explain_capture` call it.
fn link_type(octets: &[u8]) -> (u64, u64) {
    let (one, other) = (read_u16(octets, 20), read_u16(octets, 22));
    if is_little_endian(octets) {
        (one, other)
    } else {
        (other, one)
    }
}

/// Returns whether the numbers in the headers of the capture `octets` are little-endian; its first octet shows this. `link_type` and
/// `read_u16` call it.
fn is_little_endian(octets: &[u8]) -> bool {
    octets.first() == Some(&0xD4) || octets.first() == Some(&0x4D)
}

/// Returns the number in the two octets from index `place` on, in the byte order of the capture. Missing octets count as 0.
/// `explain_capture` and `link_type` call it.
fn read_u16(octets: &[u8], place: usize) -> u64 {
    let one = octets.get(place).copied().unwrap_or(0);
    let other = octets.get(place.saturating_add(1)).copied().unwrap_or(0);
    if is_little_endian(octets) {
        u64::from(other) * 256 + u64::from(one)
    } else {
        u64::from(one) * 256 + u64::from(other)
    }
}
