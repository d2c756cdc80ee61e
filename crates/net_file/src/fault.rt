//! Faults of a network file or a traffic file, with their locations.
ghost use Rattle.std.specs.Prelude.{◌≡◌};
ghost use Rattle.net_file.specs.declared.fault.NetFault.TheVariants as the_fault;
ghost use Rattle.net_file.specs.declared.fault.NetFault.TheVariants.{NoMemory};
ghost use Rattle.net_file.specs.Faults.{key_name, section_name, fault_code};
ghost use Rattle.net_file.specs.Keys as spec;

use bridge_schema::{Flaw, ReaderFault, Spell, TextSection};
use std::alloc::{AllocError, AllocFailed};
use thiserror::Error;

/// Sections of files: the top of a file, the three sections of network files in the order of reading, and the section of traffic files.
#[derive(Clone, Copy, Debug)]
pub enum NetSection {
    /// Top of the file.
    Top,
    /// Bridges, 1 to 64.
    Bridge,
    /// Links, at most 512.
    Link,
    /// Streams, at most 1,024.
    Stream,
    /// Traffic, at most 1,024 rows.
    Traffic,
}

impl NetSection {
    /// Returns the section's name, as files and fault lines spell it. The top of a file has the name `top`. `NetSection::spell` calls it.
    pub fn name(self) -> &'static str
        ensures name { result.now ≡ section_name self }
    {
        match self {
            NetSection::Top => "top",
            NetSection::Bridge => "bridge",
            NetSection::Link => "link",
            NetSection::Stream => "stream",
            NetSection::Traffic => "traffic",
        }
    }
}

/// Keys of the tables of network and traffic files, and `bridge`, the only required key at the top of a network file.
#[derive(Clone, Copy, Debug, PartialEq, Eq)]
pub enum NetField {
    /// Section of bridges, at the top.
    Bridge,
    /// Name of a bridge or of a stream.
    Name,
    /// Path of the file of a bridge's plan.
    Plan,
    /// Port at one end of a link.
    One,
    /// Port at the other end of a link.
    Other,
    /// Delay of a link in ns.
    Delay,
    /// Filters of a stream, from talker to listener.
    Hops,
    /// Filter of a row of traffic.
    Filter,
    /// Burst of a talker in metered octets.
    Burst,
    /// Rate of a talker in bit/s.
    Rate,
    /// Largest number of frames that a talker sends in any period.
    Frames,
    /// Period in ns.
    Period,
    /// First phase at which a frame may arrive, in ns.
    From,
    /// Last phase at which a frame may arrive, in ns.
    To,
    /// Captured length of the shortest frame in octets.
    Least,
    /// Captured length of the longest frame in octets.
    Longest,
    /// Largest allowed delay of a frame in ns.
    Deadline,
}

impl NetField {
    /// Returns the key as files and fault lines spell it. Readers, fault lines and explanations call it.
    pub fn key(self) -> &'static str
        ensures spelling { result.now ≡ key_name self }
    {
        match self {
            NetField::Bridge => "bridge",
            NetField::Name => "name",
            NetField::Plan => "plan",
            NetField::One => "one",
            NetField::Other => "other",
            NetField::Delay => "delay",
            NetField::Hops => "hops",
            NetField::Filter => "filter",
            NetField::Burst => "burst",
            NetField::Rate => "rate",
            NetField::Frames => "frames",
            NetField::Period => "period",
            NetField::From => "from",
            NetField::To => "to",
            NetField::Least => "least",
            NetField::Longest => "longest",
            NetField::Deadline => "deadline",
        }
    }
}

/// Location of a key in a network file or traffic file: section, instance and key. Faults name it.
#[derive(Clone, Copy, Debug)]
pub struct NetKeyLocation {
    /// Section of the key.
    pub section: NetSection,
    /// Number of the instance in its section, from 1; 0 at the top.
    pub index: u32,
    /// Key of the instance.
    pub field: NetField,
}

/// Why a network file or a traffic file is refused. Instances are counted in their section from 1; the top has 0.
#[derive(Clone, Copy, Debug, Error)]
pub enum NetFault {
    /// The file isn't a TOML document in UTF-8.
    #[error("the text isn't a TOML document")]
    Syntax,
    /// The file has more than 1,048,576 octets.
    #[error("the text is too long")]
    TooLong,
    /// The instance has a key that isn't allowed there.
    #[error("an unknown key")]
    UnknownKey(NetSection, u32),
    /// The section isn't an array of tables, such as `[[bridge]]`.
    #[error("a section that isn't an array of tables")]
    NotAList(NetSection),
    /// A required key is absent. At the top, this is the section of bridges.
    #[error("a required key is absent")]
    Missing(NetKeyLocation),
    /// The key's value is of a wrong kind.
    #[error("a value of a wrong kind")]
    WrongKind(NetKeyLocation),
    /// The key's number, text or array length isn't allowed.
    #[error("a value that is not allowed")]
    OutOfRange(NetKeyLocation),
    /// An earlier bridge or stream has the name, or an earlier row of traffic has the filter.
    #[error("a repeated instance")]
    Duplicate(NetSection, u32),
    /// A link's end or a hop names a bridge that the network lacks.
    #[error("a name that the network doesn't have")]
    Unresolved(NetKeyLocation),
    /// The section has more instances than its limit.
    #[error("too many instances")]
    TooMany(NetSection),
    /// Memory ran out.
    #[error("no memory")]
    NoMemory,
}

impl NetFault {
    /// Returns the fault's number, 1 to 11 in the order of the variants. Contracts compare faults by this number.
    pub fn number(self) -> u8
        ensures { result ≡ fault_code self }
    {
        match self {
            NetFault::Syntax => 1,
            NetFault::TooLong => 2,
            NetFault::UnknownKey(_, _) => 3,
            NetFault::NotAList(_) => 4,
            NetFault::Missing(_) => 5,
            NetFault::WrongKind(_) => 6,
            NetFault::OutOfRange(_) => 7,
            NetFault::Duplicate(_, _) => 8,
            NetFault::Unresolved(_) => 9,
            NetFault::TooMany(_) => 10,
            NetFault::NoMemory => 11,
        }
    }
}

impl From<AllocError> for NetFault {
    ghost from_gives = { λ _ e. e ≡ NoMemory };

    fn from(_e: AllocError) -> NetFault {
        NetFault::NoMemory
    }
}

impl<T: Drop> From<AllocFailed<T>> for NetFault {
    ghost from_gives = { λ _ e. e ≡ NoMemory };

    fn from(_e: AllocFailed<T>) -> NetFault {
        NetFault::NoMemory
    }
}

/// Returns the largest number of instances of a section; 0 for the top, which has none. More instances are the fault `TooMany`.
/// `NetSection::limit`, and `put_net_fault` of `show_explain` call it.
pub fn max_instances(section: NetSection) -> usize
    ensures { result ≡ spec.max_instances section }
{
    match section {
        NetSection::Top => 0,
        NetSection::Bridge => 64,
        NetSection::Link => 512,
        NetSection::Stream => 1024,
        NetSection::Traffic => 1024,
    }
}

impl Spell for NetSection {
    ghost spelling = { section_name };

    fn spell(&self) -> &'static str {
        self.name()
    }
}

impl TextSection for NetSection {
    ghost limit = { spec.max_instances };

    fn limit(&self) -> usize {
        max_instances(*self)
    }
}

impl Spell for NetField {
    ghost spelling = { key_name };

    fn spell(&self) -> &'static str {
        self.key()
    }
}

impl ReaderFault for NetFault {
    type Section = NetSection;

    type Place = NetKeyLocation;

    ghost is_memory = { spec.is_no_memory };

    ghost memory = { NoMemory };

    ghost too_long = { the_fault.TooLong };

    ghost syntax = { the_fault.Syntax };

    ghost not_a_list = { λ section. the_fault.NotAList section };

    ghost too_many = { λ section. the_fault.TooMany section };

    ghost missing = { λ place. the_fault.Missing place };

    ghost flawed = { spec.flaw_fault };

    fn no_memory() -> NetFault {
        NetFault::NoMemory
    }

    fn too_long() -> NetFault {
        NetFault::TooLong
    }

    fn syntax() -> NetFault {
        NetFault::Syntax
    }

    fn not_a_list(section: NetSection) -> NetFault {
        NetFault::NotAList(section)
    }

    fn too_many(section: NetSection) -> NetFault {
        NetFault::TooMany(section)
    }

    fn missing_key(place: NetKeyLocation) -> NetFault {
        NetFault::Missing(place)
    }

    fn flaw_fault(place: NetKeyLocation, flaw: Flaw) -> NetFault {
        match flaw {
            Flaw::WrongKind => NetFault::WrongKind(place),
            Flaw::OutOfRange => NetFault::OutOfRange(place),
            Flaw::Unresolved => NetFault::Unresolved(place),
        }
    }
}
