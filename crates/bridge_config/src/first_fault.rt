//! First fault of a table whose keys are read one after another. It is returned once, at the end, so a reader needs no return after
//! each key.
ghost use Rattle.std.specs.Prelude.{◌≡◌, IfOk, None};
ghost use Rattle.std.specs.Option.{ForSome};
ghost use Rattle.toml.specs.View.{table_view};
ghost use Rattle.bridge_schema.specs.Readers as spec;
ghost use Rattle.bridge_config.specs.FirstFaults.{EndsReading, Expects, TakesRead, key_location};

use bridge_schema::{Field, InstanceTable, PlanFault, ValueKind};
use std::marker::Model;

/// First fault so far of the table that is being read, if any. Values read after a fault have no meaning.
#[derive(Drop)]
pub(crate) struct FirstFault {
    /// The fault; `None` while each read and each rule succeeded.
    fault: Option<PlanFault>,
}

impl Model for FirstFault {
    ghost use Rattle.std.specs.Prelude.{Option};
    ghost use Rattle.bridge_schema.specs.declared.plan_fault.PlanFault.{PlanFault as Fault};

    ghost Value = { Option Fault };

    ghost view = { λ f. f.fault };
}

impl FirstFault {
    /// Starts with `fault` if `holds` is false, otherwise without a fault. The readers of tables call it first.
    pub fn begin(holds: bool, fault: PlanFault) -> FirstFault
        ensures { Expects None holds fault result }
    {
        let fault = if holds { None } else { Some(fault) };
        FirstFault { fault }
    }

    /// Stores `fault` if `holds` is false and there is no earlier fault. `value_or` and the readers of tables call it.
    pub fn expect(&mut self, holds: bool, fault: PlanFault)
        ensures { Expects self.old holds fault self.new }
    {
        if !holds && self.fault.is_none() {
            self.fault = Some(fault);
        }
    }

    /// Returns the value of `read`. If `read` is a fault, stores it and returns `other`. `read_required`, `read_optional`,
    /// `read_or_default` and readers of tables call it.
    pub fn value_or<T: Copy>(&mut self, read: Result<T, PlanFault>, other: T) -> T
        ensures { TakesRead self.old other read self.new result }
    {
        match read {
            Ok(value) => value,
            Err(fault) => {
                self.expect(false, fault);
                other
            }
        }
    }

    /// Reads a required key. If that fails, stores the fault and returns `other`. Readers of sections then go on to the next key.
    pub fn read_required<K: ValueKind>(
        &mut self,
        row: InstanceTable<'_>,
        key: Field,
        kind: &K,
        other: K::Out,
    ) -> K::Out
    where
        K::Out: Copy,
        ensures takes { TakesRead self.old other (spec.read_required (key_location row.entry key) key
            (K.reading kind.now)
            (table_view row.entry.table.now)) self.new result }
        ensures fits { IfOk (spec.read_required (key_location row.entry key) key (K.reading kind.now)
            (table_view row.entry.table.now)) (K.Fits kind.now) }
    {
        self.value_or(row.read_required(key, kind), other)
    }

    /// Reads an optional key. If that fails, stores the fault and returns `None`. Readers of sections then go on to the next key.
    pub fn read_optional<K: ValueKind>(
        &mut self,
        row: InstanceTable<'_>,
        key: Field,
        kind: &K,
    ) -> Option<K::Out>
    where
        K::Out: Copy,
        ensures takes { TakesRead self.old None (spec.read_optional (key_location row.entry key) key
            (K.reading kind.now)
            (table_view row.entry.table.now)) self.new result }
        ensures fits { ForSome result (K.Fits kind.now) }
    {
        self.value_or(row.read_optional(key, kind), None)
    }

    /// Reads an optional key with a default. If that fails, stores the fault and returns the default. Readers of sections then go on to the
    /// next key.
    pub fn read_or_default<K: ValueKind>(
        &mut self,
        row: InstanceTable<'_>,
        key: Field,
        kind: &K,
        default: K::Out,
    ) -> K::Out
    where
        K::Out: Copy,
        requires fits { K.Fits kind.now default }
        ensures takes { TakesRead self.old default (spec.read_or_default default (key_location row.entry key) key
            (K.reading kind.now) (table_view row.entry.table.now)) self.new result }
        ensures fits { K.Fits kind.now result }
    {
        self.value_or(row.read_or_default(default, key, kind), default)
    }

    /// Returns the first fault so far; `None` without a fault. `take_port_lists` and `take_gate_lists` read lists only without a fault.
    pub fn fault(&self) -> Option<PlanFault>
        ensures { result ≡ self.now }
    {
        self.fault
    }

    /// Ends the reading of a table: returns the first fault, or `value` without a fault. Readers of sections call it after the last key.
    pub fn finish<T: Drop>(self, value: T) -> Result<T, PlanFault>
        ensures { EndsReading self value result }
    {
        match self.fault {
            None => Ok(value),
            Some(fault) => Err(fault),
        }
    }
}
