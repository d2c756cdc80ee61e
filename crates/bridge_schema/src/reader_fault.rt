//! Faults of the readers that plans and network files share. By these traits, plans and network files each define their own faults,
//! sections and locations.
ghost use Rattle.std.specs.Prelude.{◌≡◌, ℕ, Bool, List, true, false};
ghost use Rattle.bridge_schema.specs.declared.plan_fault.Flaw.{Flaw};
ghost use Rattle.bridge_schema.specs.declared.plan_fault.PlanFault.TheVariants as the_fault;
ghost use Rattle.bridge_schema.specs.Keys.{limit_of, section_name};
ghost use Rattle.bridge_schema.specs.Readers as spec;

use crate::plan_fault::{Flaw, KeyLocation, PlanFault, Section};

/// Name of a section or key, with its spelling in a text. The readers that plans and network files share compare it with the names in the
/// document.
pub trait Spell {
    /// Spelling of the name.
    ghost spelling: { Self → List ℕ };

    /// Returns the spelling of a section or key in a text. Readers compare the keys of a document with it.
    fn spell(&self) -> &'static str
        ensures spelling { result.now ≡ spelling self.now };
}

/// Section of a text: an array of tables with a limited number of instances.
pub trait TextSection: Spell {
    /// Largest number of instances.
    ghost limit: { Self → ℕ };

    /// Returns the largest number of instances of a section; `are_few` refuses a section with more.
    fn limit(&self) -> usize
        ensures limit { result ≡ limit self.now };
}

/// Faults of one kind of text: plans or networks.
pub trait ReaderFault {
    /// Section of the text.
    type Section: TextSection + Drop;

    /// Location of a key, which faults name.
    type Place: Drop;

    /// Whether the fault means that memory ran out.
    ghost is_memory: { Self → Bool };

    /// Fault for memory that ran out.
    ghost memory: { Self };

    /// Fault of a text that is too long.
    ghost too_long: { Self };

    /// Fault of a text that isn't TOML in UTF-8.
    ghost syntax: { Self };

    /// Fault of a section that isn't an array of tables.
    ghost not_a_list: { Self.Section → Self };

    /// Fault of a section with too many instances.
    ghost too_many: { Self.Section → Self };

    /// Fault of a required key that is absent at this location.
    ghost missing: { Self.Place → Self };

    /// Fault of a refused value, by its location and the reason of the refusal.
    ghost flawed: { Self.Place → Flaw → Self };

    /// Returns the fault that means that memory ran out. `read_document` and `read_instances` call it.
    fn no_memory() -> Self
        ensures fault { is_memory result ≡ true };

    /// Returns the fault of a text that is too long. `read_document` calls it.
    fn too_long() -> Self
        ensures fault { result ≡ too_long }
        ensures told { is_memory result ≡ false };

    /// Returns the fault of a text that isn't TOML in UTF-8. `read_document` calls it.
    fn syntax() -> Self
        ensures fault { result ≡ syntax }
        ensures told { is_memory result ≡ false };

    /// Returns the fault of a section that isn't an array of tables. `array_items` calls it.
    fn not_a_list(section: Self::Section) -> Self
        ensures fault { result ≡ not_a_list section }
        ensures told { is_memory result ≡ false }
        ensures takes_no_memory { ¬ (result ≡ memory) };

    /// Returns the fault of a section with too many instances. `array_items` calls it.
    fn too_many(section: Self::Section) -> Self
        ensures fault { result ≡ too_many section }
        ensures told { is_memory result ≡ false }
        ensures takes_no_memory { ¬ (result ≡ memory) };

    /// Returns the fault of an absent required key. `required_value` calls it.
    fn missing_key(place: Self::Place) -> Self
        ensures fault { result ≡ missing place }
        ensures told { is_memory result ≡ false }
        ensures takes_no_memory { ¬ (result ≡ memory) };

    /// Returns the fault of the value at `place`, which a reader refused because of `flaw`.
    fn flaw_fault(place: Self::Place, flaw: Flaw) -> Self
        ensures fault { result ≡ flawed place flaw }
        ensures told { is_memory result ≡ false }
        ensures takes_no_memory { ¬ (result ≡ memory) };
}

/// Returns the largest number of instances of a section. A section with more is the fault `TooMany`. `Section::limit` calls it.
pub fn max_instances(section: Section) -> usize
    ensures { result ≡ limit_of section }
{
    match section {
        Section::Top => 0,
        Section::Change => 1,
        Section::Port => 16,
        Section::Vlan => 4094,
        Section::Static => 4096,
        Section::Stream => 4096,
        Section::Gate => 1024,
        Section::Meter => 1024,
        Section::Filter => 1024,
        Section::Command => 4096,
    }
}

impl Spell for Section {
    ghost spelling = { section_name };

    fn spell(&self) -> &'static str {
        self.name()
    }
}

impl TextSection for Section {
    ghost limit = { limit_of };

    fn limit(&self) -> usize {
        max_instances(*self)
    }
}

impl ReaderFault for PlanFault {
    type Section = Section;

    type Place = KeyLocation;

    ghost is_memory = { spec.is_no_memory };

    ghost memory = { the_fault.NoMemory };

    ghost too_long = { the_fault.TooLong };

    ghost syntax = { the_fault.Syntax };

    ghost not_a_list = { λ section. the_fault.NotAList section };

    ghost too_many = { λ section. the_fault.TooMany section };

    ghost missing = { λ place. the_fault.Missing place };

    ghost flawed = { spec.flaw_fault };

    fn no_memory() -> PlanFault {
        PlanFault::NoMemory
    }

    fn too_long() -> PlanFault {
        PlanFault::TooLong
    }

    fn syntax() -> PlanFault {
        PlanFault::Syntax
    }

    fn not_a_list(section: Section) -> PlanFault {
        PlanFault::NotAList(section)
    }

    fn too_many(section: Section) -> PlanFault {
        PlanFault::TooMany(section)
    }

    fn missing_key(place: KeyLocation) -> PlanFault {
        PlanFault::Missing(place)
    }

    fn flaw_fault(place: KeyLocation, flaw: Flaw) -> PlanFault {
        match flaw {
            Flaw::WrongKind => PlanFault::WrongKind(place),
            Flaw::OutOfRange => PlanFault::OutOfRange(place),
            Flaw::Unresolved => PlanFault::Unresolved(place),
        }
    }
}
