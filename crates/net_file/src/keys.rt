//! Keys of the tables of network and traffic files, and the ranges of their values. The readers and the explanations of faults use them.

use crate::fault::{NetField, NetSection};
use bridge_limits::{END_OF_TIME, LONGEST_FRAME};
use bridge_schema::{BURST, NUMBER, NumberRange, RATE};

/// Largest length of a name in octets.
pub const LONGEST_NAME: usize = 32;

/// Largest number of a stream's hops.
pub const MAX_HOPS: usize = 64;

/// Lowest port number of a bridge.
pub const FIRST_PORT: u32 = 1;

/// Highest port number of a bridge.
pub const LAST_PORT: u32 = 16;

/// Allowed delays of a link in ns, at most 1 s.
pub const DELAY: NumberRange = NumberRange {
    low: 0,
    high: 1_000_000_000,
};

/// Allowed periods of periodic traffic in ns.
pub const PERIOD: NumberRange = NumberRange {
    low: 1,
    high: END_OF_TIME,
};

/// Allowed phases in ns: the time from the start of a period to an arrival.
pub const PHASE: NumberRange = NumberRange {
    low: 0,
    high: END_OF_TIME - 1,
};

/// Allowed captured lengths of a frame in octets.
pub const OCTETS: NumberRange = NumberRange {
    low: 1,
    high: LONGEST_FRAME as u64,
};

/// Allowed bursts of a talker in metered octets. The shortest frame has 64.
pub const TALKER_BURST: NumberRange = NumberRange {
    low: 64,
    high: BURST.high,
};

/// Allowed rates of a talker in bit/s.
pub const TALKER_RATE: NumberRange = RATE;

/// Allowed numbers of a talker's frames in any period.
pub const FRAMES: NumberRange = NumberRange {
    low: 1,
    high: 1_024,
};

/// Allowed deadlines in ns: the largest allowed delay of a frame.
pub const DEADLINE: NumberRange = NumberRange {
    low: 0,
    high: END_OF_TIME,
};

/// Keys that a bridge's table may have.
pub const BRIDGE_KEYS: [NetField; 2] = [NetField::Name, NetField::Plan];

/// Keys that a link's table may have.
pub const LINK_KEYS: [NetField; 3] = [NetField::One, NetField::Other, NetField::Delay];

/// Keys that a stream's table may have.
pub const STREAM_KEYS: [NetField; 8] = [
    NetField::Name,
    NetField::Hops,
    NetField::Period,
    NetField::From,
    NetField::To,
    NetField::Least,
    NetField::Longest,
    NetField::Deadline,
];

/// Keys of a stream's periodic talker. A stream has all of them or none.
pub const TALKER_KEYS: [NetField; 5] = [
    NetField::Period,
    NetField::From,
    NetField::To,
    NetField::Least,
    NetField::Longest,
];

/// All keys of traffic rows, in the order of explanations. No row can have all of them, because its kind of traffic excludes some.
pub const TRAFFIC_KEYS: [NetField; 10] = [
    NetField::Filter,
    NetField::Burst,
    NetField::Rate,
    NetField::Frames,
    NetField::Period,
    NetField::From,
    NetField::To,
    NetField::Least,
    NetField::Longest,
    NetField::Deadline,
];

/// Keys that the table of a periodic row may have.
pub const PERIODIC_ROW_KEYS: [NetField; 7] = [
    NetField::Filter,
    NetField::Period,
    NetField::From,
    NetField::To,
    NetField::Least,
    NetField::Longest,
    NetField::Deadline,
];

/// Keys that the table of a row with a burst and a rate may have.
pub const RATE_ROW_KEYS: [NetField; 6] = [
    NetField::Filter,
    NetField::Burst,
    NetField::Rate,
    NetField::Least,
    NetField::Longest,
    NetField::Deadline,
];

/// Keys that the table of a row with a number of frames in any period may have.
pub const COUNT_ROW_KEYS: [NetField; 6] = [
    NetField::Filter,
    NetField::Frames,
    NetField::Period,
    NetField::Least,
    NetField::Longest,
    NetField::Deadline,
];

/// Keys of a burst and a rate. A row with one of them needs both.
pub const RATE_KEYS: [NetField; 2] = [NetField::Burst, NetField::Rate];

/// Keys that limit a talker's frames. A traffic row with none of them has periodic traffic.
pub const LIMIT_KEYS: [NetField; 3] = [NetField::Burst, NetField::Rate, NetField::Frames];

/// Returns the keys that the tables of a section may have, in the order in which explanations list them. The top has none. `put_stray_key`
/// of `show_explain` calls it.
pub fn section_fields(section: NetSection) -> &'static [NetField] {
    match section {
        NetSection::Top => &[],
        NetSection::Bridge => &BRIDGE_KEYS,
        NetSection::Link => &LINK_KEYS,
        NetSection::Stream => &STREAM_KEYS,
        NetSection::Traffic => &TRAFFIC_KEYS,
    }
}

/// Values that a key allows, in the form that `show_explain` prints.
#[derive(Clone, Copy)]
pub enum NetAllowed {
    /// Array of tables: the value is a section.
    Tables,
    /// Name of a bridge or stream.
    Name,
    /// Path of a plan's file.
    Path,
    /// Name of a bridge, dot and port number.
    Port,
    /// List of filters: each has the name of a bridge, a dot and a filter number.
    Hops,
    /// Filter number, in this range.
    Number(NumberRange),
    /// Time in ns, in this range.
    Time(NumberRange),
    /// Length of frames in octets, in this range.
    Octets(NumberRange),
    /// Burst in metered octets, in this range.
    Burst(NumberRange),
    /// Rate in bit/s, in this range.
    Rate(NumberRange),
    /// Number of frames, in this range.
    Frames(NumberRange),
}

/// Returns the values that a key allows, for explanations of faults. Other keys can restrict them further: a talker's phases must be less
/// than its period. `put_allowed` and `allowed_number` of `show_explain` call it.
pub fn allowed_value(field: NetField) -> NetAllowed {
    match field {
        NetField::Bridge => NetAllowed::Tables,
        NetField::Name => NetAllowed::Name,
        NetField::Plan => NetAllowed::Path,
        NetField::One | NetField::Other => NetAllowed::Port,
        NetField::Hops => NetAllowed::Hops,
        NetField::Filter => NetAllowed::Number(NUMBER),
        NetField::Delay => NetAllowed::Time(DELAY),
        NetField::Period => NetAllowed::Time(PERIOD),
        NetField::From | NetField::To => NetAllowed::Time(PHASE),
        NetField::Least | NetField::Longest => NetAllowed::Octets(OCTETS),
        NetField::Deadline => NetAllowed::Time(DEADLINE),
        NetField::Burst => NetAllowed::Burst(TALKER_BURST),
        NetField::Rate => NetAllowed::Rate(TALKER_RATE),
        NetField::Frames => NetAllowed::Frames(FRAMES),
    }
}
