//! Faults of plans and commands, with the sections and keys in which they are.
ghost use Rattle.std.specs.Prelude.{◌≡◌};
ghost use Rattle.bridge_schema.specs.declared.plan_fault.PlanFault.TheVariants.{NoMemory};
ghost use Rattle.bridge_schema.specs.Keys.{key_name, section_name};
ghost use Rattle.bridge_schema.specs.FaultCodes.{fault_code};

use bridge_cycle::ListFault;
use std::alloc::{AllocError, AllocFailed};
use thiserror::Error;

/// Section of a plan, in reading order, or of a file of commands.
#[derive(Clone, Copy, Debug, PartialEq, Eq)]
pub enum Section {
    /// Top level of a plan.
    Top,
    /// Schedule change, at most one.
    Change,
    /// Ports, at most 16.
    Port,
    /// VLANs.
    Vlan,
    /// Static filtering entries.
    Static,
    /// Stream identifications.
    Stream,
    /// Stream gates.
    Gate,
    /// Flow meters.
    Meter,
    /// Stream filters.
    Filter,
    /// Commands, in a file of their own.
    Command,
}

impl Section {
    /// Returns the name of a section, as in files and fault lines; `top` for the top level. Readers and fault lines use it.
    pub fn name(self) -> &'static str
        ensures name { result.now ≡ section_name self }
    {
        match self {
            Section::Top => "top",
            Section::Change => "change",
            Section::Port => "port",
            Section::Vlan => "vlan",
            Section::Static => "static",
            Section::Stream => "stream",
            Section::Gate => "gate",
            Section::Meter => "meter",
            Section::Filter => "filter",
            Section::Command => "command",
        }
    }
}

/// Keys of plans, of entries of lists, and of commands.
#[derive(Clone, Copy, Debug, PartialEq, Eq)]
pub enum Field {
    /// Number of a port, gate, meter or filter.
    Number,
    /// Speed of a port in Mb/s.
    Mbps,
    /// VLAN identifier.
    Vid,
    /// Priority code point.
    Priority,
    /// Class of each priority.
    Classes,
    /// Queue capacity of each class in frames.
    Rooms,
    /// Base time in ns.
    Base,
    /// Cycle time in ns.
    Cycle,
    /// Gate control list of a port.
    Gates,
    /// Base time in ns of the list after the schedule change.
    NextBase,
    /// Cycle time in ns of the list after the schedule change.
    NextCycle,
    /// Gate control list of a port after the schedule change.
    NextGates,
    /// Open classes of a port's entry, or the state of a stream gate's entry.
    Open,
    /// Length of a list entry in ns.
    Ns,
    /// Member ports of a VLAN.
    Members,
    /// MAC address.
    Address,
    /// Egress ports of a static filtering entry.
    Ports,
    /// Stream handle.
    Handle,
    /// Ingress port at which a stream is identified.
    Port,
    /// Kind of stream identification: by destination or by source address.
    Kind,
    /// Whether identified frames are tagged, priority-tagged or untagged, or any of these.
    Tag,
    /// Whether a frame at a closed stream gate shuts the gate until a command.
    ShutOnRx,
    /// Whether a frame over the octet limit shuts the stream gate until a command.
    ShutOnOctets,
    /// State of a stream gate without a list.
    State,
    /// Internal priority value of a stream gate, or of an entry of its list.
    Ipv,
    /// List of a stream gate.
    Entries,
    /// List of a stream gate after the schedule change.
    NextEntries,
    /// Limit of octets that a stream gate passes in an interval.
    Octets,
    /// Committed information rate in bit/s.
    Cir,
    /// Committed burst size in octets.
    Cbs,
    /// Excess information rate in bit/s.
    Eir,
    /// Excess burst size in octets.
    Ebs,
    /// Whether overflow of a meter's committed bucket enters its excess bucket.
    Coupling,
    /// Colour mode of a meter: colour-aware or colour-blind.
    Colour,
    /// Whether a meter drops yellow frames.
    DropYellow,
    /// Whether a red frame sets the meter's red flag.
    MarkAllRed,
    /// Number of a filter's stream gate.
    Gate,
    /// Largest SDU of a filter in octets.
    MaxSdu,
    /// Number of a filter's meter.
    Meter,
    /// Whether an oversize frame blocks the filter.
    BlockOversize,
    /// Whether a filter is protected.
    Protected,
    /// Number of the group with which a filter shares queues.
    Group,
    /// Time in ns of a command or of the schedule change.
    At,
    /// Flag that a command clears.
    Clear,
}

/// Names of the keys, in the order of the variants of `Field`.
const KEYS: [&str; 44] = [
    "number",
    "mbps",
    "vid",
    "priority",
    "classes",
    "rooms",
    "base",
    "cycle",
    "gates",
    "next_base",
    "next_cycle",
    "next_gates",
    "open",
    "ns",
    "members",
    "address",
    "ports",
    "handle",
    "port",
    "kind",
    "tag",
    "shut_on_rx",
    "shut_on_octets",
    "state",
    "ipv",
    "entries",
    "next_entries",
    "octets",
    "cir",
    "cbs",
    "eir",
    "ebs",
    "coupling",
    "colour",
    "drop_yellow",
    "mark_all_red",
    "gate",
    "max_sdu",
    "meter",
    "block_oversize",
    "protected",
    "group",
    "at",
    "clear",
];

impl Field {
    /// Returns the name of a key, as in files and fault lines. Readers and fault lines use it.
    pub fn key(self) -> &'static str
        ensures spelling { result.now ≡ key_name self }
    {
        KEYS[self as usize]
    }
}

/// Why the value of a key is refused, without its location. Readers turn it into a fault of the plan or network.
#[derive(Clone, Copy, Debug, PartialEq, Eq, Error)]
pub enum Flaw {
    /// The value has another kind than the key allows.
    #[error("a value of a wrong kind")]
    WrongKind,
    /// A number, a text or the length of an array isn't allowed.
    #[error("a value that is not allowed")]
    OutOfRange,
    /// No earlier instance of the plan has this number.
    #[error("a number that the plan doesn't have")]
    Unresolved,
}

/// Location of a key in an instance of a section.
#[derive(Clone, Copy, Debug, PartialEq, Eq)]
pub struct KeyLocation {
    /// Section that has the instance.
    pub section: Section,
    /// Index of the instance in its section, from 1.
    pub index: u32,
    /// Key. For a key of an entry, this is the key of the list.
    pub field: Field,
}

/// Reason why a text isn't a plan, or isn't a file of commands. An index counts the instances of a section from 1; at the top level it is
/// 0.
#[derive(Clone, Copy, Debug, PartialEq, Eq, Error)]
pub enum PlanFault {
    /// The text isn't a TOML document in UTF-8.
    #[error("the text isn't a TOML document")]
    Syntax,
    /// The text has more than 1,048,576 octets.
    #[error("the text is too long")]
    TooLong,
    /// A table of the section has a key that is unknown, or not allowed next to its other keys.
    #[error("an unknown key")]
    UnknownKey(Section, u32),
    /// A section isn't an array of tables.
    #[error("a section that isn't an array of tables")]
    NotAList(Section),
    /// A required key is absent.
    #[error("a required key is absent")]
    Missing(KeyLocation),
    /// A value has another kind than the key allows.
    #[error("a value of a wrong kind")]
    WrongKind(KeyLocation),
    /// A number, a text or the length of an array isn't allowed.
    #[error("a value that is not allowed")]
    OutOfRange(KeyLocation),
    /// An earlier instance of the section has equal identifying keys. The index is the later instance's.
    #[error("a repeated instance")]
    Duplicate(Section, u32),
    /// The plan lacks the port, VLAN, gate, meter or filter that this key names.
    #[error("a number that the plan doesn't have")]
    Unresolved(KeyLocation),
    /// A section has more instances than its limit.
    #[error("too many instances")]
    TooMany(Section),
    /// A gate control list of an instance breaks this rule of lists.
    #[error("a refused list")]
    BadList(Section, u32, ListFault),
    /// The plan has no ports.
    #[error("a plan without a port")]
    NoPorts,
    /// Memory ran out.
    #[error("no memory")]
    NoMemory,
}

impl PlanFault {
    /// Returns the number of the fault, 1 to 13, in the order of the variants. Contracts compare faults by it.
    pub fn number(self) -> u8
        ensures { result ≡ fault_code self }
    {
        match self {
            PlanFault::Syntax => 1,
            PlanFault::TooLong => 2,
            PlanFault::UnknownKey(_, _) => 3,
            PlanFault::NotAList(_) => 4,
            PlanFault::Missing(_) => 5,
            PlanFault::WrongKind(_) => 6,
            PlanFault::OutOfRange(_) => 7,
            PlanFault::Duplicate(_, _) => 8,
            PlanFault::Unresolved(_) => 9,
            PlanFault::TooMany(_) => 10,
            PlanFault::BadList(_, _, _) => 11,
            PlanFault::NoPorts => 12,
            PlanFault::NoMemory => 13,
        }
    }
}

impl From<AllocError> for PlanFault {
    ghost from_gives = { λ _ e. e ≡ NoMemory };

    fn from(_e: AllocError) -> PlanFault {
        PlanFault::NoMemory
    }
}

impl<T: Drop> From<AllocFailed<T>> for PlanFault {
    ghost from_gives = { λ _ e. e ≡ NoMemory };

    fn from(_e: AllocFailed<T>) -> PlanFault {
        PlanFault::NoMemory
    }
}
