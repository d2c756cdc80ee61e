//! Table that describes an instance of a section; its keys are read one after another.
ghost use Rattle.std.specs.Prelude.{◌≡◌, IfOk, IfErr};
ghost use Rattle.bridge_schema.specs.declared.plan_fault.PlanFault.TheVariants.{NoMemory};
ghost use Rattle.std.specs.Option.{ForSome};
ghost use Rattle.toml.specs.View.{table_view};
ghost use Rattle.bridge_schema.specs.Readers as spec;
ghost use Rattle.bridge_schema.specs.Readers.{MatchesReading};

use crate::plan_fault::{Field, KeyLocation, PlanFault, Section};
use crate::presence::{
    read_optional, read_or_default, read_required, read_required_if_absent,
    read_required_if_present,
};
use crate::value_kinds::ValueKind;
use toml::Table;

/// Table of an instance of a section, and its location. Section readers read keys from it; faults name the location.
#[derive(Clone, Copy)]
pub struct InstanceTable<'t> {
    /// Table whose keys are read.
    pub table: &'t Table,
    /// Section that has the table.
    pub section: Section,
    /// Index of the instance in its section, from 1.
    pub index: u32,
}

impl<'t> InstanceTable<'t> {
    /// Returns the location of `key`, for faults. `read_required`, `read_list_parts` of `bridge_config` and 4 more call it.
    pub fn locate_key(&self, key: Field) -> KeyLocation
        ensures { result ≡ record { section = self.now.section; index = self.now.index; field = key } }
    {
        KeyLocation {
            section: self.section,
            index: self.index,
            field: key,
        }
    }

    /// Reads a required key. Returns `Missing` if the table lacks it, or the fault of a refused value. Allocates no memory. Readers of
    /// sections call it.
    pub fn read_required<K: ValueKind>(&self, key: Field, kind: &K) -> Result<K::Out, PlanFault>
        ensures reads { MatchesReading result (spec.read_required (record {
          section = self.now.section;
          index = self.now.index;
          field = key;
        }) key (K.reading kind.now) (table_view self.now.table.now)) }
        ensures fits { IfOk result (K.Fits kind.now) }
        ensures takes_no_memory { IfErr result (λ e. ¬ (e ≡ NoMemory)) }
    {
        read_required(self.table, self.locate_key(key), key, kind)
    }

    /// Reads an optional key. Returns `None` if the table lacks it, or the fault of a refused value. Allocates no memory. Readers of
    /// sections call it.
    pub fn read_optional<K: ValueKind>(
        &self,
        key: Field,
        kind: &K,
    ) -> Result<Option<K::Out>, PlanFault>
        ensures reads { MatchesReading result (spec.read_optional (record {
          section = self.now.section;
          index = self.now.index;
          field = key;
        }) key (K.reading kind.now) (table_view self.now.table.now)) }
        ensures fits { IfOk result (λ x. ForSome x (K.Fits kind.now)) }
        ensures takes_no_memory { IfErr result (λ e. ¬ (e ≡ NoMemory)) }
    {
        read_optional(self.table, self.locate_key(key), key, kind)
    }

    /// Reads an optional key, or returns `default` if the table lacks it. A refused value is a fault. Allocates no memory. Readers of
    /// sections call it.
    pub fn read_or_default<K: ValueKind>(
        &self,
        default: K::Out,
        key: Field,
        kind: &K,
    ) -> Result<K::Out, PlanFault>
    where
        K::Out: Drop,
        requires fits { K.Fits kind.now default }
        ensures reads { MatchesReading result (spec.read_or_default default (record {
          section = self.now.section;
          index = self.now.index;
          field = key;
        }) key (K.reading kind.now) (table_view self.now.table.now)) }
        ensures fits { IfOk result (K.Fits kind.now) }
        ensures takes_no_memory { IfErr result (λ e. ¬ (e ≡ NoMemory)) }
    {
        read_or_default(default, self.table, self.locate_key(key), key, kind)
    }

    /// If the table has the key `other`, reads `key`, which is then required. Otherwise returns `absent`. Allocates no memory. If the value
    /// is missing or refused, returns its fault. Readers of lists call it.
    pub fn read_required_if_present<K: ValueKind>(
        &self,
        other: Field,
        absent: K::Out,
        key: Field,
        kind: &K,
    ) -> Result<K::Out, PlanFault>
    where
        K::Out: Drop,
        requires fits { K.Fits kind.now absent }
        ensures reads { MatchesReading result (spec.read_if_present other absent (spec.read_required (record {
          section = self.now.section;
          index = self.now.index;
          field = key;
        }) key (K.reading kind.now) (table_view self.now.table.now)) (table_view self.now.table.now)) }
        ensures fits { IfOk result (K.Fits kind.now) }
        ensures takes_no_memory { IfErr result (λ e. ¬ (e ≡ NoMemory)) }
    {
        read_required_if_present(other, absent, self.table, self.locate_key(key), key, kind)
    }

    /// If the table lacks the key `other`, reads `key`, which is then required. Otherwise returns `absent`. Allocates no memory. If the
    /// value is missing or refused, returns its fault. Readers of lists call it.
    pub fn read_required_if_absent<K: ValueKind>(
        &self,
        other: Field,
        absent: K::Out,
        key: Field,
        kind: &K,
    ) -> Result<K::Out, PlanFault>
    where
        K::Out: Drop,
        requires fits { K.Fits kind.now absent }
        ensures reads { MatchesReading result (spec.read_if_absent other absent (spec.read_required (record {
          section = self.now.section;
          index = self.now.index;
          field = key;
        }) key (K.reading kind.now) (table_view self.now.table.now)) (table_view self.now.table.now)) }
        ensures fits { IfOk result (K.Fits kind.now) }
        ensures takes_no_memory { IfErr result (λ e. ¬ (e ≡ NoMemory)) }
    {
        read_required_if_absent(other, absent, self.table, self.locate_key(key), key, kind)
    }
}
