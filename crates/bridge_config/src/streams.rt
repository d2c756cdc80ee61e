//! Reads the section `stream` of a plan: stream identifications.
ghost use Rattle.std.specs.Prelude.{◌≡◌, ◌≤◌, true, IfOk, All};
ghost use Rattle.toml.specs.View.{table_view};
ghost use Rattle.bridge_schema.specs.Readers.{MatchesReading};
ghost use Rattle.bridge_config.specs.Sections as sections;
ghost use Rattle.bridge_config.specs.Texts as texts;
ghost use Rattle.bridge_config.specs.Rules as rules;

use crate::first_fault::FirstFault;
use crate::ports::{PortNumbers, PortPlan};
use bridge_ident::{Kind, StreamEntry, TagKind};
use bridge_schema::{
    Address, Field, InstanceTable, KnownNumber, NUMBER, NumberLookup, PORT, PlanFault, STREAM_KEYS,
    Section, SectionReader, TextMeaning, TextValue, VID, has_allowed_keys,
};
use std::alloc::Allocator;
use toml::Table;

/// Texts of the key `kind`, which selects the address that an entry compares: `null` or `source`.
#[derive(Clone, Copy)]
struct KindText;

impl TextMeaning for KindText {
    type Out = Kind;

    ghost meaning = { λ _. texts.parse_ident_kind };

    fn parse_text(&self, text: &str) -> Option<Kind> {
        if text == "null" {
            Some(Kind::Null)
        } else if text == "source" {
            Some(Kind::Source)
        } else {
            None
        }
    }
}

/// Texts of the key `tag`, which selects the tags of matching frames: `tagged`, `priority` or `all`.
#[derive(Clone, Copy)]
struct TagText;

impl TextMeaning for TagText {
    type Out = TagKind;

    ghost meaning = { λ _. texts.parse_tag_kind };

    fn parse_text(&self, text: &str) -> Option<TagKind> {
        if text == "tagged" {
            Some(TagKind::Tagged)
        } else if text == "priority" {
            Some(TagKind::Priority)
        } else if text == "all" {
            Some(TagKind::All)
        } else {
            None
        }
    }
}

/// Whether a `[[stream]]` table has only keys of a stream identification; otherwise its fault is `UnknownKey`. `read_stream_by_lookup`
/// calls it.
fn has_stream_keys(table: &Table) -> bool
    ensures { result ≡ sections.has_stream_keys (table_view table.now) }
{
    has_allowed_keys(table, &STREAM_KEYS, false)
}

/// Reads a stream identification. Its `port` must be a number that `ports` contains; `read_stream` passes the plan's ports. If the
/// identification is refused, returns its fault.
fn read_stream_by_lookup<P: NumberLookup + Copy>(
    ports: P,
    index: u32,
    table: &Table,
) -> Result<StreamEntry, PlanFault>
    ensures reads { MatchesReading result (sections.read_stream_by_lookup (P.among ports) index
        (table_view table.now)) }
    ensures port { IfOk result (λ s. P.among ports s.port ≡ true) }
    ensures port_from { IfOk result (λ s. 1 ≤ s.port) }
    ensures port_to { IfOk result (λ s. s.port ≤ 16) }
    ensures vid_from { IfOk result (λ s. 1 ≤ s.vid) }
    ensures vid_to { IfOk result (λ s. s.vid ≤ 4094) }
{
    let row = InstanceTable {
        table,
        section: Section::Stream,
        index,
    };
    let unknown = PlanFault::UnknownKey(Section::Stream, index);
    let mut first = FirstFault::begin(has_stream_keys(table), unknown);
    let handle = first.read_required(row, Field::Handle, &NUMBER, 0);
    let known_ports = KnownNumber {
        among: ports,
        range: PORT,
    };
    let port = first.read_required(row, Field::Port, &known_ports, 1);
    let kinds = TextValue { meaning: KindText };
    let kind = first.read_required(row, Field::Kind, &kinds, Kind::Null);
    let addresses = TextValue { meaning: Address };
    let address = first.read_required(row, Field::Address, &addresses, [0; 6]);
    let vid = first.read_required(row, Field::Vid, &VID, 1);
    let tags = TextValue { meaning: TagText };
    let tag = first.read_required(row, Field::Tag, &tags, TagKind::All);
    first.finish(StreamEntry {
        handle: handle as u32,
        port: port as u8,
        kind,
        address,
        vid: vid as u16,
        tag,
    })
}

/// Reads a stream identification, whose port must be one of `ports`. The earlier identifications have no influence on it. If the
/// identification is refused, returns its fault. `StreamSection::read` calls it.
fn read_stream<A: Allocator + Copy>(
    ports: &[PortPlan<A>],
    earlier: &[StreamEntry],
    index: u32,
    table: &Table,
) -> Result<StreamEntry, PlanFault>
    ensures reads { MatchesReading result (sections.read_stream ports.now earlier.now index (table_view table.now)) }
    ensures stream { IfOk result (λ s. rules.IsStream ports.now s) }
{
    read_stream_by_lookup(PortNumbers { ports }, index, table)
}

/// Reads the section of stream identifications. An identification may name only these ports.
#[derive(Clone, Copy)]
pub(crate) struct StreamSection<'a, A: Allocator + Copy> {
    /// Ports that were read before.
    pub ports: &'a [PortPlan<A>],
}

impl<'a, A: Allocator + Copy> SectionReader<A> for StreamSection<'a, A> {
    type Fault = PlanFault;

    type Instance = StreamEntry;

    ghost reading = { λ s. sections.read_stream s.ports.now };

    ghost Keeps = { λ s streams. All (rules.IsStream s.ports.now) streams };

    #[tactic(auto, using(bridge_limits::proofs::Lists::each_push))]
    fn read(
        &self,
        _alloc: A,
        earlier: &[StreamEntry],
        index: u32,
        table: &Table,
    ) -> Result<StreamEntry, PlanFault> {
        read_stream(self.ports, earlier, index, table)
    }
}
