#![tactic(auto)]
//! Stream filters with their gates and meters (per-stream filtering and policing, IEEE 802.1Q-2018, 8.6.5.1): verdicts on frames,
//! and counters.

mod clear_flags;
mod filter_state;
mod frame_verdict;
mod gates_and_meters;
pub mod laws;
mod make_instances;
mod police;
mod route;
mod route_rows;

pub use bridge_cycle::NoMemory;
pub use police::Police;
pub use route::{Route, is_handle_match, is_priority_match};

/// Settings of a stream filter (IEEE 802.1Q-2018, 8.6.5.1.1).
#[derive(Clone, Copy, Debug, PartialEq, Eq)]
pub struct FilterPlan {
    /// Stream handle of matching frames; `None` matches all frames, also frames without a handle.
    pub handle: Option<u32>,
    /// Priority of matching frames, 0 to 7; `None` matches all priorities.
    pub priority: Option<u8>,
    /// Number of the stream gate.
    pub gate: u32,
    /// Largest SDU of a frame in octets; `None` for no limit.
    pub max_sdu: Option<u32>,
    /// Number of the meter; `None` without a meter.
    pub meter: Option<u32>,
    /// Whether an oversize frame blocks all later frames of the filter, until a command clears the blocked flag.
    pub block_oversize: bool,
    /// Whether the plan asks for isolation of this filter. The setting changes no verdict.
    pub protected: bool,
    /// Number of the group with which the filter shares queues; `None` without a group. The setting changes no verdict.
    pub group: Option<u32>,
}

/// Frame that the stream filters judge (IEEE 802.1Q-2018, 8.6.5.1.1).
#[derive(Clone, Copy, Debug, PartialEq, Eq)]
pub struct FilterInput {
    /// Arrival time in ns.
    pub at: u64,
    /// Stream handle; `None` if no stream entry matches the frame.
    pub handle: Option<u32>,
    /// Priority, 0 to 7.
    pub priority: u8,
    /// Drop eligible indication.
    pub dei: bool,
    /// Length of the SDU in octets.
    pub sdu: u32,
    /// Octets that a meter counts: the frame's length, at least 60, and the check sequence (4).
    pub octets: u32,
}

/// Verdict of a stream filter on a frame: the frame passes, or the reason why it is refused.
#[derive(Clone, Copy, Debug, PartialEq, Eq)]
pub enum Verdict {
    /// An earlier oversize frame blocked the filter.
    Blocked,
    /// The SDU exceeds the filter's maximum.
    Oversize,
    /// The stream gate is closed.
    GateClosed,
    /// An earlier frame at the closed stream gate shut the gate.
    ShutByRx,
    /// An earlier frame over the octet limit shut the stream gate.
    ShutByOctets,
    /// The frame exceeds the octet limit of the stream gate's interval.
    OctetsExceeded,
    /// The meter made the frame red.
    Red,
    /// The meter made the frame yellow, and the plan drops yellow frames.
    YellowDropped,
    /// The frame passes. `ipv` is the gate's internal priority value, if any. `eligible` marks a yellow frame as drop eligible.
    Pass { ipv: Option<u8>, eligible: bool },
}

/// Filter of a frame, and its verdict.
#[derive(Clone, Copy, Debug, PartialEq, Eq)]
pub struct Ruling {
    /// Number of the filter that the frame matches.
    pub filter: u32,
    /// The filter's verdict on the frame.
    pub verdict: Verdict,
}

/// Counters of a stream filter (IEEE 802.1Q-2018, 8.6.5.1.1).
#[derive(Clone, Copy, Debug, PartialEq, Eq)]
pub struct Counters {
    /// All frames of the filter.
    pub matching: u64,
    /// Frames that reached the stream gate: neither blocked nor oversize.
    pub sdu_passed: u64,
    /// Oversize frames.
    pub sdu_refused: u64,
    /// Frames that the stream gate passed.
    pub gate_passed: u64,
    /// Frames that the stream gate refused.
    pub gate_refused: u64,
    /// Frames that the meter refused: red frames, and yellow ones if the meter drops them.
    pub red: u64,
}

/// Flags of a filter, its stream gate and its meter, which stay set until a command clears them.
#[derive(Clone, Copy, Debug, PartialEq, Eq)]
pub struct Flags {
    /// An oversize frame blocked the filter.
    pub blocked: bool,
    /// A frame at the closed stream gate shut the gate.
    pub rx: bool,
    /// A frame over the octet limit shut the stream gate.
    pub octets: bool,
    /// The meter makes all later frames red.
    pub red: bool,
}

/// Flag that a command clears: the blocked flag of a filter, a flag of a stream gate, or the red flag of a meter.
#[derive(Clone, Copy, Debug, PartialEq, Eq)]
pub enum Clear {
    /// Blocked flag of a filter.
    Blocked,
    /// Receive flag of a stream gate.
    Rx,
    /// Octets flag of a stream gate.
    Octets,
    /// Red flag of a meter.
    Red,
}
