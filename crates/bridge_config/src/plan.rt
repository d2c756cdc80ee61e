//! Defines the plan of a bridge, and reads a plan's text.
ghost use Rattle.std.specs.Prelude.{◌≡◌, ◌<◌, ◌≤◌, ◌↔◌, ℕ, Some, true, false, IfOk, map, nat_eq, option_map};
ghost use Rattle.std.specs.Map.{lookup};
ghost use Rattle.toml.specs.View.{table_view};
ghost use Rattle.bridge_limits.specs.Members.{IsOrdered};
ghost use Rattle.bridge_forward.specs.Forward.{forward};
ghost use Rattle.bridge_forward.specs.Ports.{has_port, IsEmpty};
ghost use Rattle.bridge_schema.specs.Readers.{MatchesReading, MatchesReadingView};
ghost use Rattle.bridge_config.specs.declared.ports.PortPlan.{PortPlan};
ghost use Rattle.bridge_config.specs.Model as model;
ghost use Rattle.bridge_config.specs.Rules as rules;
ghost use Rattle.bridge_config.specs.Document as doc;
ghost use Rattle.bridge_config.specs.Arrays.{array_items, AreWithinLimits};

use crate::changes::read_change;
use crate::filters::read_filters;
use crate::gates::GateSection;
use crate::meters::MeterSection;
use crate::ports::{PortPlan, PortSection};
use crate::section_arrays::{SectionArrays, read_arrays};
use crate::statics::StaticSection;
use crate::streams::StreamSection;
use crate::vlans::VlanSection;
use bridge_filter::FilterPlan;
use bridge_forward::{Forwarding, PortSet, StaticEntry, Vlan};
use bridge_gate::GatePlan;
use bridge_ident::StreamEntry;
use bridge_limits::NoMemory;
use bridge_meter::MeterPlan;
use bridge_schema::{PlanFault, read_instances, with_bit};
use std::alloc::{Allocator, Global};
use std::marker::Model;
use toml::Table;

/// Plan of a bridge. Only `plan_of` makes plans, and each plan follows the rules of `IsPlan`.
#[derive(Drop)]
pub struct Plan<A: Allocator + Copy> {
    /// Ports, in file order.
    ports: Vec<PortPlan<A>, A>,
    /// VLANs and static filtering entries.
    forwarding: Forwarding<A>,
    /// Stream identifications, in file order.
    streams: Vec<StreamEntry, A>,
    /// Stream gates with their numbers, in file order.
    gates: Vec<(u32, GatePlan<A>), A>,
    /// Flow meters with their numbers, in file order.
    meters: Vec<(u32, MeterPlan), A>,
    /// Stream filters with their numbers, in file order.
    filters: Vec<(u32, FilterPlan), A>,
}

impl<A: Allocator + Copy> Model for Plan<A> {
    ghost Value = { model.Plan A };

    ghost view = { λ p. record {
      ports = p.ports.items;
      database = p.forwarding;
      streams = p.streams.items;
      gates = p.gates.items;
      meters = p.meters.items;
      filters = p.filters.items;
    } };

    ghost invariant = { λ p. rules.IsPlan {A = A} (record {
      ports = p.ports.items;
      database = p.forwarding;
      streams = p.streams.items;
      gates = p.gates.items;
      meters = p.meters.items;
      filters = p.filters.items;
    }) };
}

impl<A: Allocator + Copy> Plan<A> {
    /// Returns the ports, in file order. `note_captures` of `app_commands`, `check` of `bridge_check` and many more call it.
    pub fn ports(&self) -> &[PortPlan<A>]
        ensures ports { result.now ≡ self.now.ports }
        ensures rules { rules.IsPlan self.now }
    {
        &self.ports
    }

    /// Returns the port with number `number`; `None` if the plan lacks it. Checks, bounds and pictures call it.
    pub fn port(&self, number: u8) -> Option<&PortPlan<A>>
        ensures port { option_map (λ p. p.now) result ≡ rules.find_port self.now.ports number }
        ensures rules { rules.IsPlan self.now }
    {
        find_port(&self.ports, number)
    }

    /// Returns the numbers of the ports in rising order. `send_named` of `app_commands`, `read_bridge_input` of `app_networks` and 5 more
    /// call it.
    pub fn port_numbers<B: Allocator + Copy>(&self, alloc: B) -> Result<Vec<u8, B>, NoMemory>
        ensures { IfOk result (λ v. rules.IsSortedCopy (map (λ p. p.number) self.now.ports) v.items) }
    {
        let mut ports = collect_port_numbers(alloc, &self.ports)?;
        ports.sort()?;
        Ok(ports)
    }

    /// Returns the VLANs, in file order. Warnings and searches for loops need them.
    pub fn vlans(&self) -> &[Vlan]
        ensures { result.now ≡ self.now.database.vlans }
    {
        self.forwarding.vlans()
    }

    /// Returns the static filtering entries, in file order. Warnings and searches for loops need them.
    pub fn statics(&self) -> &[StaticEntry]
        ensures { result.now ≡ self.now.database.statics }
    {
        self.forwarding.statics()
    }

    /// Returns the stream identifications, in file order. Checks, warnings and network tests need them.
    pub fn streams(&self) -> &[StreamEntry]
        ensures streams { result.now ≡ self.now.streams }
        ensures rules { rules.IsPlan self.now }
    {
        &self.streams
    }

    /// Returns the stream gates with their numbers, in file order. `CommandTargets::has`, `is_coarse` of `bridge_bounds` and many more call
    /// it.
    pub fn gates(&self) -> &[(u32, GatePlan<A>)]
        ensures gates { result.now ≡ self.now.gates }
        ensures rules { rules.IsPlan self.now }
    {
        &self.gates
    }

    /// Returns the flow meters with their numbers, in file order. `CommandTargets::has`, `committed_tokens` of `bridge_groups` and 5 more
    /// call it.
    pub fn meters(&self) -> &[(u32, MeterPlan)]
        ensures meters { result.now ≡ self.now.meters }
        ensures rules { rules.IsPlan self.now }
    {
        &self.meters
    }

    /// Returns the stream filters with their numbers, in file order. `CommandTargets::has`, `unprotected_warning` of `app_commands` and
    /// many more call it.
    pub fn filters(&self) -> &[(u32, FilterPlan)]
        ensures filters { result.now ≡ self.now.filters }
        ensures rules { rules.IsPlan self.now }
    {
        &self.filters
    }

    /// Returns the stream filters with their numbers, by rising number. Results of runs and delay bounds list filters in this order.
    ///
    /// `Bridge::new` and `make_run_lists` of `bridge_core`, and `queue_bounds` of `net_latency` call it.
    pub fn filters_in_order<B: Allocator + Copy>(
        &self,
        alloc: B,
    ) -> Result<Vec<(u32, FilterPlan), B>, NoMemory>
        ensures rises { IfOk result (λ v. IsOrdered (λ x y. x.0 < y.0) v.items) }
        ensures same { IfOk result (λ v. (n : ℕ) → lookup (nat_eq n) v.items ≡ lookup (nat_eq n) self.now.filters) }
    {
        let mut filters = Vec::from_slice(alloc, &self.filters)?;
        filters.sort_by_key(|filter| filter.0)?;
        Ok(filters)
    }

    /// Returns the egress ports of a frame to `da` in VLAN `vid` that arrived on `port` (IEEE 802.1Q-2018, 8.6.2 to 8.6.4).
    ///
    /// The call makes two look-ups in tables, and allocates no memory.
    #[inline(always)]
    pub fn forward(&self, port: u8, vid: u16, da: &[u8; 6]) -> PortSet
        requires from { 1 ≤ port }
        requires to { port ≤ 16 }
        ensures ports { result ≡ forward self.now.database port vid da.now }
        ensures of_plan { (q : ℕ)
            → 1 ≤ q
            → has_port result q ≡ true
            → (out : PortPlan A) × (rules.find_port self.now.ports q ≡ Some out) }
        ensures not_back { has_port result port ≡ false }
        ensures empty { IsEmpty result ↔ ((q : ℕ) (out : PortPlan A)
            → rules.find_port self.now.ports q ≡ Some out
            → has_port result q ≡ false) }
    {
        self.forwarding.forward(port, vid, da)
    }
}

/// Returns the first port with number `number`; `None` if no port has it. `Plan::port` calls it.
fn find_port<A: Allocator + Copy>(ports: &[PortPlan<A>], number: u8) -> Option<&PortPlan<A>>
    ensures { option_map (λ p. p.now) result ≡ rules.find_port ports.now number }
{
    for port in ports {
        if port.number == number {
            return Some(port);
        }
    }
    None
}

/// Returns the numbers of the ports, in file order. `Plan::port_numbers` sorts them.
fn collect_port_numbers<A: Allocator + Copy, B: Allocator + Copy>(
    alloc: B,
    ports: &[PortPlan<A>],
) -> Result<Vec<u8, B>, NoMemory>
    ensures { IfOk result (λ v. v.items ≡ map (λ p. p.number) ports.now) }
{
    let mut numbers = Vec::with_capacity(alloc, ports.len())?;
    for port in ports {
        let Ok(()) = numbers.push(port.number) else {
            return Err(NoMemory);
        };
    }
    Ok(numbers)
}

/// Returns the set of the ports' numbers: bit n - 1 is set if a port has number n. VLANs and static entries may name only these ports.
/// `read_plan` calls it.
fn port_set<A: Allocator + Copy>(ports: &[PortPlan<A>]) -> u16
    requires { rules.ArePorts ports.now }
    ensures { result ≡ rules.port_set ports.now }
{
    let mut bits: u16 = 0;
    'ports: for port in ports {
        bits = with_bit(bits, port.number as u64 - 1);
    }
    bits
}

/// Stream gates, meters and filters of a plan, which `read_policing` reads for `read_plan`.
#[derive(Drop)]
struct Policing<A: Allocator + Copy> {
    /// Stream gates with their numbers.
    gates: Vec<(u32, GatePlan<A>), A>,
    /// Flow meters with their numbers.
    meters: Vec<(u32, MeterPlan), A>,
    /// Stream filters with their numbers.
    filters: Vec<(u32, FilterPlan), A>,
}

impl<A: Allocator + Copy> Model for Policing<A> {
    ghost Value = { model.Policing A };

    ghost view = { λ p. record { gates = p.gates.items; meters = p.meters.items; filters = p.filters.items } };

    ghost invariant = { λ p. rules.IsPolicing {A = A} (record {
      gates = p.gates.items;
      meters = p.meters.items;
      filters = p.filters.items;
    }) };
}

/// Reads the stream gates and meters, then the filters, which name them. `change` is the time of the schedule change in ns. `change` is
/// `None` if the plan has no schedule change.
///
/// Returns the first fault of a section, or `NoMemory`. `read_plan` calls it.
#[tactic(auto, unfolding(crate::specs::Document::read_policing))]
fn read_policing<A: Allocator + Copy>(
    alloc: A,
    change: Option<u64>,
    arrays: SectionArrays<'_>,
) -> Result<Policing<A>, PlanFault>
    requires change { rules.IsChangeInTime change }
    requires few { AreWithinLimits arrays }
    ensures { MatchesReading result (doc.read_policing change (array_items arrays.entry)) }
{
    let gates = read_instances(alloc, &GateSection { change }, arrays.gates)?;
    let meters = read_instances(alloc, &MeterSection, arrays.meters)?;
    let filters = read_filters(alloc, &gates, &meters, arrays.filters)?;
    Ok(Policing {
        gates,
        meters,
        filters,
    })
}

/// Reads a plan from the arrays of its sections, or returns the first fault. Sections with named instances precede the sections that name
/// them. `plan_of` calls it.
#[tactic(auto, unfolding(crate::specs::Document::read_plan))]
fn read_plan<A: Allocator + Copy>(alloc: A, arrays: SectionArrays<'_>) -> Result<Plan<A>, PlanFault>
    requires { AreWithinLimits arrays }
    ensures { MatchesReading result (doc.read_plan (array_items arrays.entry)) }
{
    let change = read_change(arrays.changes)?;
    let ports = read_instances(alloc, &PortSection { change }, arrays.ports)?;
    let all = port_set(&ports);
    let vlans = read_instances(alloc, &VlanSection { all }, arrays.vlans)?;
    let statics = read_instances(alloc, &StaticSection { all, vlans: &vlans }, arrays.statics)?;
    let streams = read_instances(alloc, &StreamSection { ports: &ports }, arrays.streams)?;
    let policing = read_policing(alloc, change, arrays)?;
    let Ok(forwarding) = Forwarding::new(alloc, vlans, statics) else {
        return Err(PlanFault::NoMemory);
    };
    Ok(Plan {
        ports,
        forwarding,
        streams,
        gates: policing.gates,
        meters: policing.meters,
        filters: policing.filters,
    })
}

/// Parses a text as a TOML document; a fault is the fault of a plan. The readers of plans and of commands share this function.
/// `commands_of` and `plan_of` call it.
#[tactic(auto, unfolding(crate::specs::Document::read_document))]
pub(crate) fn read_document(heap: Global, text: &[u8]) -> Result<Table, PlanFault>
    ensures { MatchesReadingView table_view result (doc.read_document text.now) }
{
    bridge_schema::read_document(heap, text)
}

/// Reads the plan of a TOML text, or returns its first fault. The document uses `heap`, the plan `alloc`.
///
/// Order of faults: `TooLong`, `Syntax`, an unknown section, then `NotAList`, `TooMany` and `NoPorts` of the sections, then each
/// instance key by key.
///
/// Sections follow the order of `PLAN_SECTIONS`. `explain_check_fault` of `app_commands`, `accepted_plan` of `app_failure` and 2 more call
/// it.
pub fn plan_of<A: Allocator + Copy>(
    alloc: A,
    heap: Global,
    text: &[u8],
) -> Result<Plan<A>, PlanFault>
    ensures reads { MatchesReading result (doc.text_plan text.now) }
    ensures rules { IfOk result rules.IsPlan }
{
    let document = read_document(heap, text)?;
    let arrays = read_arrays(&document)?;
    read_plan(alloc, arrays)
}
