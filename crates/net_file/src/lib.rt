#![tactic(auto)]
//! Network files: bridges with their plans, links between ports, and streams. Traffic files: the frames that talkers send.

mod bridge_row;
mod fault;
mod fault_lines;
mod keys;
mod limited_row;
mod link_row;
mod names;
mod network_file;
mod reading;
mod stream_row;
mod talker;
mod traffic;
mod traffic_fault;
mod traffic_row;

pub use bridge_row::BridgeRow;
pub use bridge_schema::MOST_OCTETS;
pub use fault::{NetFault, NetField, NetKeyLocation, NetSection, max_instances};
pub use fault_lines::{fault_line, refusal_line};
pub use keys::{
    COUNT_ROW_KEYS, FIRST_PORT, LAST_PORT, LIMIT_KEYS, LONGEST_NAME, MAX_HOPS, NetAllowed, OCTETS,
    RATE_ROW_KEYS, STREAM_KEYS, TALKER_KEYS, TRAFFIC_KEYS, allowed_value, section_fields,
};
pub use limited_row::{FrameLimit, LimitedRow};
pub use link_row::LinkRow;
pub use names::is_numbered_name;
pub use network_file::{NetworkFile, parse_network, read_document};
pub use reading::{read_optional, read_required};
pub use stream_row::StreamRow;
pub use talker::Talker;
pub use traffic::parse_traffic;
pub use traffic_fault::{TrafficFault, traffic_fault_line};
pub use traffic_row::{TalkerRow, TrafficRow};
