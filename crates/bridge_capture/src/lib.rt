#![tactic(auto)]
//! Classic capture files: reads and writes captures record by record. Also reads captures of several ports one record ahead, and
//! prints captures in hexadecimal.
//!
//! A capture has a header of 24 octets, then records: four 32-bit words and the captured octets. The reader accepts both byte
//! orders, and fractions in microseconds or nanoseconds. The writer writes little-endian nanoseconds.

mod allowance;
mod buffer_pool;
mod byte_sink;
mod byte_source;
mod capture;
mod capture_fault;
mod capture_reader;
mod fault;
mod format;
mod from_read;
mod from_write;
mod header;
mod hex_fault;
mod hex_octets;
mod hex_texts;
mod laws;
mod packet;
mod progress;
mod read_ahead;
mod read_buffer;
mod record;
mod slice_source;
mod transfer;
mod vec_sink;
mod write_behind;
mod write_buffer;
mod writer;

pub use bridge_limits::NoMemory;
pub use buffer_pool::BufferPool;
pub use byte_sink::ByteSink;
pub use byte_source::{Broken, ByteSource};
pub use capture::Capture;
pub use capture_fault::CaptureFault;
pub use capture_reader::{CaptureReader, begin_readers, run_fault};
pub use fault::RunFault;
pub use from_read::FromRead;
pub use from_write::FromWrite;
pub use hex_fault::HexFault;
pub use hex_octets::parse_octets;
pub use hex_texts::hex_lines;
pub use laws::{each_text_reads_one_way, the_limits, written_is_read};
pub use packet::{Packet, PacketInfo};
pub use read_ahead::ReadAhead;
pub use record::{MAX_RECORDS, SNAP_LENGTH};
pub use slice_source::SliceSource;
pub use vec_sink::VecSink;
pub use write_behind::WriteBehind;
pub use writer::Writer;
