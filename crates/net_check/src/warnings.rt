//! All warnings of an accepted network, which `net check` and `net` print: warnings of `warning_lines`, then warnings about hops of
//! streams.
ghost use Rattle.std.specs.Prelude.{◌≡◌, ◌<◌, ◌≤◌, ◌++◌, All, IfOk, OnOk, Some, length, string_bytes, true};
ghost use Rattle.net_latency.specs.Streams.{AreQueueBoundsOfPlans, stream_hop_value};
ghost use Rattle.net_check.specs.Warnings as spec;
ghost use Rattle.net_check.specs.Warnings.{AreWarnings, entering_line, nowhere_line};

use crate::refusing::bridge_name;
use crate::warning_lines::network_warnings;
use bridge_config::{Plan, PortPlan};
use bridge_limits::NoMemory;
use net_file::{NetworkFile, StreamRow};
use net_latency::{QueueBound, bounds_of_bridge, can_others_enter, stream_hops};
use net_model::{Network, StreamHop, find_plan};
use std::alloc::{AllocError, Allocator, Global};

/// Appends the warning `may also come in` about hop `k` of stream `i`, indexes from 0. Other devices' frames can arrive at port `port` of
/// bridge `name`. `push_entering` calls it.
#[tactic(auto, unfolding(crate::specs::Warnings::entering_line))]
fn push_entering_line(
    text: &mut String,
    i: usize,
    k: usize,
    name: &str,
    port: u8,
) -> Result<(), AllocError>
    requires stream { i < 1024 }
    requires hop { k < 64 }
    ensures { OnOk result (string_bytes text.new ≡ string_bytes text.old ++ entering_line i k name.now port) }
{
    let stream = i + 1;
    let hop = k + 1;
    write!(
        text,
        "may also come in: stream {stream} hop {hop} {name}.{port}\n"
    )
}

/// Appends the warning `leads nowhere` about hop `k` of stream `i`, both indexes from 0: its frames have no reachable queue. `push_nowhere`
/// calls it.
#[tactic(auto, unfolding(crate::specs::Warnings::nowhere_line))]
fn push_nowhere_line(text: &mut String, i: usize, k: usize) -> Result<(), AllocError>
    requires stream { i < 1024 }
    requires hop { k < 64 }
    ensures { OnOk result (string_bytes text.new ≡ string_bytes text.old ++ nowhere_line i k) }
{
    let stream = i + 1;
    let hop = k + 1;
    write!(text, "leads nowhere: stream {stream} hop {hop}\n")
}

/// An accepted network, and its network file, which has the names of the bridges. Warnings need both.
#[derive(Clone, Copy)]
pub(crate) struct Named<'a, A: Allocator + Copy> {
    file: &'a NetworkFile<A>,
    network: &'a Network<A>,
}

impl<'a, A: Allocator + Copy> Named<'a, A> {
    /// Appends the warning `may also come in` if frames of other devices can get the handle of hop `k` of stream `i` at port `on`. Both
    /// indexes count from 0. `push_entry_warnings` calls it.
    fn push_entering(
        &self,
        text: &mut String,
        i: usize,
        k: usize,
        hop: StreamHop,
        plan: &Plan<A>,
        on: &PortPlan<A>,
    ) -> Result<(), AllocError>
        requires stream { i < 1024 }
        requires hop { k < 64 }
        ensures { OnOk result (string_bytes text.new ≡ string_bytes text.old
            ++ spec.entering_text self.now.file.now self.now.network.now i k hop plan.now on.now) }
    {
        if !can_others_enter(self.network.links(), k == 0, hop, plan, on) {
            return Ok(());
        }
        let name = bridge_name(self.file.bridges(), hop.bridge);
        push_entering_line(text, i, k, name, on.number)
    }

    /// Appends a warning for each port at which other devices' frames can get the handle of hop `k` of stream `i`, both indexes from 0.
    /// `push_entering_hop` calls it.
    fn push_entry_warnings(
        &self,
        text: &mut String,
        i: usize,
        k: usize,
        hop: StreamHop,
        plan: &Plan<A>,
    ) -> Result<(), AllocError>
        requires stream { i < 1024 }
        requires hop { k < 64 }
        ensures { OnOk result (string_bytes text.new ≡ string_bytes text.old
            ++ spec.entering_at self.now.file.now self.now.network.now i k hop (Some plan.now)) }
    {
        for on in plan.ports() {
            let Ok(()) = self.push_entering(text, i, k, hop, plan, on) else {
                return Err(AllocError);
            };
        }
        Ok(())
    }

    /// Appends the warnings `may also come in` about hop `k` of stream `i`, both indexes from 0. The stream's talker must be periodic.
    /// Appends nothing if the plan is missing. `push_hop` calls it.
    fn push_entering_hop(
        &self,
        text: &mut String,
        i: usize,
        k: usize,
        hop: StreamHop,
    ) -> Result<(), AllocError>
        requires stream { i < 1024 }
        requires hop { k < 64 }
        ensures { OnOk result (string_bytes text.new ≡ string_bytes text.old
            ++ spec.entering_if self.now.file.now self.now.network.now i true k hop) }
    {
        match find_plan(self.network.plans(), hop.bridge) {
            None => Ok(()),
            Some(plan) => self.push_entry_warnings(text, i, k, hop, plan),
        }
    }

    /// Appends the warnings about hop `k` of stream `i`: ports at which other devices' frames can enter, and a missing reachable queue. The
    /// former need a `periodic` talker. `push_hops` calls it.
    fn push_hop(
        &self,
        text: &mut String,
        bounds: &[Vec<QueueBound, A>],
        i: usize,
        periodic: bool,
        k: usize,
        hop: StreamHop,
    ) -> Result<(), AllocError>
        requires stream { i < 1024 }
        requires hop { k < 64 }
        ensures { OnOk result (string_bytes text.new ≡ string_bytes text.old
            ++ spec.hop_text self.now.file.now self.now.network.now bounds.now i periodic k hop) }
    {
        if periodic {
            self.push_entering_hop(text, i, k, hop)?;
        }
        push_nowhere(text, bounds, i, k, hop)
    }

    /// Appends the warnings about all hops of stream `i`, in order. `periodic` is true if the stream has a periodic talker. `push_stream`
    /// calls it.
    fn push_hops(
        &self,
        text: &mut String,
        bounds: &[Vec<QueueBound, A>],
        i: usize,
        periodic: bool,
        hops: &[StreamHop],
    ) -> Result<(), AllocError>
        requires stream { i < 1024 }
        requires few { length hops.now ≤ 64 }
        ensures { OnOk result (string_bytes text.new ≡ string_bytes text.old
            ++ spec.hops_text self.now.file.now self.now.network.now bounds.now i periodic hops.now) }
    {
        for k in 0..hops.len() {
            let Ok(()) = self.push_hop(text, bounds, i, periodic, k, hops[k]) else {
                return Err(AllocError);
            };
        }
        Ok(())
    }

    /// Appends the warnings about the hops of stream `i`, from 0. Ports where other devices' frames can enter count only for periodic
    /// talkers. `push_streams` calls it.
    fn push_stream(
        &self,
        alloc: A,
        text: &mut String,
        bounds: &[Vec<QueueBound, A>],
        i: usize,
        stream: &StreamRow<A>,
    ) -> Result<(), NoMemory>
        requires stream { i < 1024 }
        requires few { length stream.now.hops ≤ 64 }
        ensures { OnOk result (string_bytes text.new ≡ string_bytes text.old
            ++ spec.stream_text self.now.file.now self.now.network.now bounds.now i stream.now) }
    {
        let hops = stream_hops(alloc, stream.hops())?;
        let periodic = stream.talker().is_some();
        match self.push_hops(text, bounds, i, periodic, &hops) {
            Ok(()) => Ok(()),
            Err(_) => Err(NoMemory),
        }
    }

    /// Appends the warnings of all streams, in file order. `push_warnings` calls it.
    fn push_streams(
        &self,
        alloc: A,
        text: &mut String,
        bounds: &[Vec<QueueBound, A>],
        streams: &[StreamRow<A>],
    ) -> Result<(), NoMemory>
        requires few { length streams.now ≤ 1024 }
        requires each { All (λ s. length s.hops ≤ 64) streams.now }
        ensures { OnOk result (string_bytes text.new ≡ string_bytes text.old
            ++ spec.streams_text self.now.file.now self.now.network.now bounds.now 0 streams.now) }
    {
        for i in 0..streams.len() {
            let Ok(()) = self.push_stream(alloc, text, bounds, i, &streams[i]) else {
                return Err(NoMemory);
            };
        }
        Ok(())
    }
}

/// Returns whether a hop's filter has a reachable queue. `bounds` has an item for each reachable queue; if the filter has none, the hop's
/// frames can't leave the bridge. `push_nowhere` calls it.
fn has_queue<A: Allocator + Copy>(bounds: &[Vec<QueueBound, A>], hop: StreamHop) -> bool
    ensures { result ≡ spec.has_queue bounds.now hop }
{
    let rows = bounds_of_bridge(bounds, hop.bridge);
    rows.iter().any(|row| row.filter == hop.filter)
}

/// Appends the warning `leads nowhere` if the frames of hop `k` of stream `i` have no reachable queue. `push_hop` calls it.
fn push_nowhere<A: Allocator + Copy>(
    text: &mut String,
    bounds: &[Vec<QueueBound, A>],
    i: usize,
    k: usize,
    hop: StreamHop,
) -> Result<(), AllocError>
    requires stream { i < 1024 }
    requires hop { k < 64 }
    ensures { OnOk result (string_bytes text.new ≡ string_bytes text.old ++ spec.nowhere_text bounds.now i k hop) }
{
    if has_queue(bounds, hop) {
        return Ok(());
    }
    push_nowhere_line(text, i, k)
}

/// Appends the warnings about the hops of the network's streams. `all_warnings` calls it after `network_warnings`.
fn push_warnings<A: Allocator + Copy>(
    alloc: A,
    text: &mut String,
    file: &NetworkFile<A>,
    network: &Network<A>,
    bounds: &[Vec<QueueBound, A>],
) -> Result<(), NoMemory>
    ensures { OnOk result (string_bytes text.new ≡ string_bytes text.old
        ++ spec.streams_text file.now network.now bounds.now 0 file.now.streams) }
{
    let named = Named { file, network };
    named.push_streams(alloc, text, bounds, file.streams())
}

/// Returns the warning lines of an accepted network, for `net check` and `net`. After the lines of `network_warnings`, each stream has
/// lines about ports where other devices' frames can enter, and hops without queue.
///
/// `describe_network` and `warnings_if` of `app_networks` call it.
pub fn all_warnings<A: Allocator + Copy>(
    alloc: A,
    heap: Global,
    file: &NetworkFile<A>,
    network: &Network<A>,
    bounds: &[Vec<QueueBound, A>],
) -> Result<String, NoMemory>
    requires few { length network.now.plans ≤ 64 }
    requires bounds { AreQueueBoundsOfPlans network.now.plans bounds.now }
    ensures { IfOk result (λ text. AreWarnings file.now network.now (string_bytes text)) }
{
    let mut text = network_warnings(alloc, heap, file, network)?;
    push_warnings(alloc, &mut text, file, network, bounds)?;
    Ok(text)
}
