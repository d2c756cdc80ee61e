//! Complete runs of networks in rounds: `run_network`, its result and its fault.
ghost use Rattle.std.specs.Prelude.{◌≡◌, ◌<◌, ℕ, All, Some, None, false, true, length, map, option_map, slice_get, IfOk, IfErr, OnErr, OnOk, Ok, Err};
ghost use Rattle.net_model.specs.Checked.{AreClosed};
ghost use Rattle.net_model.specs.Networks.{IsNetwork};
ghost use Rattle.net_model.specs.NetworkParts.{network_value, sender_value};
ghost use Rattle.net_run.specs.BridgeRuns.{AreUpToDate, NeedsRound, HasRun, HaveRun, IsDelayedCapture, IsBridgeRun, BridgeRunState, constant_part, sent_capture, run_texts};
ghost use Rattle.net_run.specs.Delivery.{AreBridgesFed, AreOthersFed, AreRunsFed, IsBridgeFed, AreUnchanged, IsPortFed};
ghost use Rattle.net_run.specs.EndedRuns.{AreEndedRuns, AreResultsOfRuns};
ghost use Rattle.net_run.specs.Rounds.{AreInitialRuns, AreBridgeInputs, AreBridgeResults, HaveTaps, IsFaultAt, IsolatesStreams, OthersChangeNothing, RunsNetwork, SettlesIn, StopsRound, StopsNetworkRun};

use crate::bridge_run::{BridgeInput, BridgeRun};
use crate::input_capture::{InputCapture, SharedCapture, sinks_of_captures};
use bridge_capture::{RunFault, VecSink};
use bridge_limits::NoMemory;
use bridge_semantics::Outcome;
use net_model::{Network, Sender};
use std::alloc::Allocator;

/// Observer of a network run's progress. `app_networks` implements it to show progress on a terminal.
pub trait RoundObserver {
    /// Reports that bridge `bridge` begins to run in round `round`. Both are counted from 0. `announce_start` calls it before the bridge
    /// runs.
    fn bridge_starts(&mut self, round: u32, bridge: usize);
}

/// Observer that ignores all reports. Tests use it.
#[derive(Clone, Copy)]
pub struct NoObserver;

impl RoundObserver for NoObserver {
    fn bridge_starts(&mut self, _round: u32, _bridge: usize) {}
}

/// Why a network run ends without result. `run_network` returns it.
#[derive(Clone, Copy, Debug, PartialEq, Eq)]
pub enum RoundsFault {
    /// Bridge `bridge`, an index from 0, refuses a capture: it is the first bridge of the round with a fault. `fault` is never a failed
    /// read or write, because all captures are in memory.
    Bridge { bridge: usize, fault: RunFault },
    /// In the last allowed round, the input of linked port `port` of bridge `bridge`, an index from 0, still changed. It is the first port
    /// whose input still changed.
    ///
    /// With 0 rounds, both numbers are 0.
    NotSettled { bridge: usize, port: u8 },
    /// Memory ran out.
    NoMemory,
}

/// Result of one bridge of a network, and the captures of the frames that its ports sent. `SettledNetwork` has one for each bridge.
#[derive(Drop)]
pub struct BridgeResult<A: Allocator + Copy> {
    /// Everything that the bridge's run reports.
    pub outcome: Outcome<A>,
    /// Captures of the sent frames, one for each port by rising number.
    pub taps: Vec<VecSink<A>, A>,
}

/// Results of a complete network run: after the last round, each link delivers exactly the frames that its sender sent.
#[derive(Drop)]
pub struct SettledNetwork<A: Allocator + Copy> {
    /// Results of the bridges, in the order of the network.
    pub bridges: Vec<BridgeResult<A>, A>,
    /// Number of rounds, from 1. The last round is the first after which no port's input changed.
    pub rounds: u32,
}

/// Returns the input capture that a link delivers from `sender`: its sent frames, later by the link's delay. The capture has no octets if
/// the sending bridge is missing. `deliver_capture` calls it.
fn capture_over_link<A: Allocator + Copy>(
    alloc: A,
    stations: &[BridgeRun<'_, A>],
    sender: Sender,
) -> Result<InputCapture<A>, NoMemory>
    ensures { IfOk result (IsDelayedCapture sender.delay
        (sent_capture (slice_get stations.now sender.from.bridge) sender.from.port)) }
{
    let Some(station) = stations.get(sender.from.bridge as usize) else {
        return Ok(InputCapture::from_octets(Vec::new(alloc)));
    };
    station.delivered_capture(alloc, sender.from.port, sender.delay)
}

/// Returns whether `bridge` skipped this round, because its inputs hadn't changed. `ran` has for each bridge whether it ran. Returns false
/// for a missing bridge. `feed_port` calls it.
fn has_skipped_round(ran: &[bool], bridge: u16) -> bool
    ensures { result ≡ true → slice_get ran.now bridge ≡ Some false }
{
    match ran.get(bridge as usize) {
        Some(ran) => !*ran,
        None => false,
    }
}

/// Delivers to the linked port with index `place` of bridge `bridge` the frames that its sender sent. Returns the port's number if its
/// input changed, otherwise `None`. `feed_port` calls it.
fn deliver_capture<A: Allocator + Copy>(
    alloc: A,
    stations: &mut [BridgeRun<'_, A>],
    bridge: usize,
    place: usize,
    sender: Sender,
) -> Result<Option<u8>, NoMemory>
    requires bridge { bridge < length stations.old }
    requires place { (x : BridgeRunState A) → slice_get stations.old bridge ≡ Some x → place < length x.ports }
    requires linked { (x : BridgeRunState A) → slice_get stations.old bridge ≡ Some x
        → slice_get x.senders place ≡ Some (Some (sender_value sender)) }
    ensures { IfOk result (λ found. IsPortFed stations.old stations.new bridge place found) }
{
    let input = capture_over_link(alloc, stations, sender)?;
    let station = &mut stations[bridge];
    let is_same = station.has_input(alloc, place, &input)?;
    if is_same {
        return Ok(None);
    }
    let port = station.port(place);
    station.set_input(place, input);
    Ok(Some(port))
}

/// Delivers to port index `place` of bridge `bridge` the frames sent to it, unless its sender skipped this round. `ran` has for each bridge
/// whether it ran.
///
/// Returns the port's number if its input changed, otherwise `None`. `feed_bridge` calls it.
fn feed_port<A: Allocator + Copy>(
    alloc: A,
    stations: &mut [BridgeRun<'_, A>],
    ran: &[bool],
    bridge: usize,
    place: usize,
) -> Result<Option<u8>, NoMemory>
    requires bridge { bridge < length stations.old }
    requires place { (x : BridgeRunState A) → slice_get stations.old bridge ≡ Some x → place < length x.ports }
    requires fed { AreOthersFed ran.now stations.old }
    ensures { IfOk result (λ found. IsPortFed stations.old stations.new bridge place found) }
{
    let Some(sender) = stations[bridge].sender(place) else {
        return Ok(None);
    };
    if has_skipped_round(ran, sender.from.bridge) {
        return Ok(None);
    }
    deliver_capture(alloc, stations, bridge, place, sender)
}

/// Delivers to each linked port of bridge `bridge` the frames that senders sent in this round (`ran`). Returns the first port whose input
/// changed, or `None` if no input changed. `feed_bridges` calls it.
fn feed_bridge<A: Allocator + Copy>(
    alloc: A,
    stations: &mut [BridgeRun<'_, A>],
    ran: &[bool],
    bridge: usize,
) -> Result<Option<u8>, NoMemory>
    requires bridge { bridge < length stations.old }
    requires fed { AreOthersFed ran.now stations.old }
    ensures { IfOk result (λ found. IsBridgeFed stations.old stations.new bridge found) }
{
    let mut first = None;
    for place in 0..stations[bridge].port_count() {
        let found = feed_port(alloc, stations, ran, bridge, place)?;
        first = first.or(found);
    }
    Ok(first)
}

/// Returns bridge index and port as a pair, or `None` without a port. `feed_bridges` returns the pair, and the fault `NotSettled` names it.
fn with_bridge(bridge: usize, port: Option<u8>) -> Option<(usize, u8)>
    ensures { result ≡ option_map (λ q. (bridge, q)) port }
{
    match port {
        Some(port) => Some((bridge, port)),
        None => None,
    }
}

/// Delivers to every linked port the frames sent to it in this round (`ran`). Returns the first bridge and port whose input changed, or
/// `None` if no input changed. `run_round` calls it.
fn feed_bridges<A: Allocator + Copy>(
    alloc: A,
    stations: &mut [BridgeRun<'_, A>],
    ran: &[bool],
) -> Result<Option<(usize, u8)>, NoMemory>
    requires { AreOthersFed ran.now stations.old }
    ensures { IfOk result (λ found. AreBridgesFed stations.old stations.new found) }
{
    let mut first = None;
    for bridge in 0..stations.len() {
        let found = feed_bridge(alloc, stations, ran, bridge)?;
        first = first.or(with_bridge(bridge, found));
    }
    Ok(first)
}

/// Reports to the observer `watch` that a bridge begins to run in round `turn`. Reports nothing if the bridge has a result, because it then
/// skips the round. `run_bridges` calls it.
fn announce_start<A: Allocator + Copy, W: RoundObserver>(
    stations: &[BridgeRun<'_, A>],
    bridge: usize,
    turn: u32,
    watch: &mut W,
) {
    if let Some(station) = stations.get(bridge) {
        if !station.has_run() {
            watch.bridge_starts(turn, bridge);
        }
    }
}

/// Returns the fault of a network run in which bridge `bridge` stopped with `fault`: `Bridge` with both, or `NoMemory` if memory ran out.
/// `run_bridges` calls it.
fn bridge_fault(bridge: usize, fault: RunFault) -> RoundsFault
    ensures { IsFaultAt bridge fault result }
{
    match fault {
        RunFault::NoMemory => RoundsFault::NoMemory,
        fault => RoundsFault::Bridge { bridge, fault },
    }
}

/// Runs each bridge of `stations` that has no result for its inputs, in round `turn`. Returns for each bridge whether it ran. Stops at the
/// first bridge with a fault. `run_round` calls it.
fn run_bridges<A: Allocator + Copy, W: RoundObserver>(
    alloc: A,
    stations: &mut [BridgeRun<'_, A>],
    turn: u32,
    watch: &mut W,
) -> Result<Vec<bool, A>, RoundsFault>
    ensures ground { OnOk result (map constant_part stations.new ≡ map constant_part stations.old) }
    ensures texts { OnOk result (map run_texts stations.new ≡ map run_texts stations.old) }
    ensures runs { OnOk result (All HasRun stations.new) }
    ensures kept { IfOk result (λ ran. AreUnchanged ran.items stations.old stations.new) }
    ensures stops { IfErr result (StopsRound stations.old) }
{
    let Ok(mut all) = Vec::with_capacity(alloc, stations.len()) else {
        return Err(RoundsFault::NoMemory);
    };
    for bridge in 0..stations.len() {
        announce_start(stations, bridge, turn, watch);
        let ran = match stations[bridge].run(alloc) {
            Ok(ran) => ran,
            Err(fault) => return Err(bridge_fault(bridge, fault)),
        };
        let Ok(()) = all.push(ran) else {
            return Err(RoundsFault::NoMemory);
        };
    }
    Ok(all)
}

/// Result of a bridge that has ended, and the captures of the frames that its ports sent. When all bridges have ended, no input shares
/// these captures.
#[derive(Drop)]
struct EndedRun<A: Allocator + Copy> {
    outcome: Outcome<A>,
    taps: Vec<SharedCapture<A>, A>,
}

/// Returns the results and sent captures of bridges that have run, in the order of the network. Drops their inputs. `bridge_results` calls
/// it.
fn ended_runs<A: Allocator + Copy>(
    alloc: A,
    stations: Vec<BridgeRun<'_, A>, A>,
) -> Result<Vec<EndedRun<A>, A>, NoMemory>
    requires { All HasRun stations.items }
    ensures { IfOk result (λ all. AreEndedRuns stations.entry.items all.items) }
{
    let mut all = Vec::with_capacity(alloc, stations.len())?;
    for station in stations {
        let (outcome, taps) = station.finish();
        all.push(EndedRun { outcome, taps })?;
    }
    Ok(all)
}

/// Converts the ended runs of bridges to their results, in order: each sent capture becomes a sink. `bridge_results` calls it.
fn results_of_runs<A: Allocator + Copy>(
    alloc: A,
    ended: Vec<EndedRun<A>, A>,
) -> Result<Vec<BridgeResult<A>, A>, NoMemory>
    ensures { IfOk result (λ all. AreResultsOfRuns ended.items all.items) }
{
    let mut all = Vec::with_capacity(alloc, ended.len())?;
    for run in ended {
        let EndedRun { outcome, taps } = run;
        let taps = sinks_of_captures(alloc, taps)?;
        all.push(BridgeResult { outcome, taps })?;
    }
    Ok(all)
}

/// Returns the results and sent captures of bridges that have run, in the order of the network. `finish_bridges` calls it.
fn bridge_results<A: Allocator + Copy>(
    alloc: A,
    stations: Vec<BridgeRun<'_, A>, A>,
) -> Result<Vec<BridgeResult<A>, A>, NoMemory>
    requires { All HasRun stations.items }
    ensures { IfOk result (λ all. AreBridgeResults stations.entry.items all.items) }
{
    let ended = ended_runs(alloc, stations)?;
    let results = results_of_runs(alloc, ended)?;
    Ok(results)
}

/// Returns the bridges of a network before the first round. `incoming` has their inputs from outside; no frame has arrived over a link.
/// `run_network` calls it.
fn initial_bridge_runs<'a, A: Allocator + Copy>(
    alloc: A,
    network: &'a Network<A>,
    incoming: Vec<BridgeInput<A>, A>,
) -> Result<Vec<BridgeRun<'a, A>, A>, NoMemory>
    requires { AreBridgeInputs network.now.plans incoming.items }
    ensures { IfOk result (λ stations. AreInitialRuns network.entry.now incoming.items stations.items) }
{
    let mut stations = Vec::with_capacity(alloc, incoming.len())?;
    let mut bridge = 0usize;
    for came in incoming {
        let station = BridgeRun::begin(
            alloc,
            &network.plans()[bridge],
            network.links(),
            bridge,
            came,
        )?;
        stations.push(station)?;
        bridge += 1;
    }
    Ok(stations)
}

/// Does nothing at run time: each call of `port_count` gives the prover the properties of a bridge. `run_round` calls it.
fn assert_bridge_runs<A: Allocator + Copy>(stations: &[BridgeRun<'_, A>])
    ensures { All IsBridgeRun stations.now }
{
    for station in stations {
        let _size = station.port_count();
    }
}

/// Runs round `turn`: each bridge with changed inputs runs, and each linked port gets the frames sent to it. Returns the first bridge and
/// port whose input changed, if any.
///
/// Fails if a bridge refuses a capture, or if memory runs out. `run_network` calls it.
fn run_round<A: Allocator + Copy, W: RoundObserver>(
    alloc: A,
    stations: &mut [BridgeRun<'_, A>],
    turn: u32,
    watch: &mut W,
) -> Result<Option<(usize, u8)>, RoundsFault>
    requires { AreRunsFed stations.old }
    ensures ground { OnOk result (map constant_part stations.new ≡ map constant_part stations.old) }
    ensures fed { OnOk result (AreUpToDate stations.new) }
    ensures runs { result ≡ Ok None → HaveRun stations.old stations.new }
    ensures goes_on { (b q : ℕ) → result ≡ Ok (Some (b, q)) → NeedsRound stations.old stations.new b q }
    ensures stops { IfErr result (StopsRound stations.old) }
{
    let ran = run_bridges(alloc, stations, turn, watch)?;
    assert_bridge_runs(stations);
    match feed_bridges(alloc, stations, &ran) {
        Ok(first) => Ok(first),
        Err(_) => Err(RoundsFault::NoMemory),
    }
}

/// Does nothing at run time: the calls give the prover the properties of an accepted network. `run_network` calls it.
fn assert_network<A: Allocator + Copy>(network: &Network<A>)
    ensures network { IsNetwork (network_value network.now) }
    ensures closed { AreClosed network.now }
{
    let _plans = network.plans();
    let _streams = network.streams();
}

/// Runs a network in at most `rounds` rounds, until each link delivers exactly the frames that its sender sent. If an input still changes
/// after the last round, returns `NotSettled`.
///
/// `watch` gets a report before each bridge's run. Fails if a bridge refuses a capture, or if memory runs out. `run_network_folders` of
/// `app_networks` calls it for `net`.
pub fn run_network<A: Allocator + Copy, W: RoundObserver>(
    alloc: A,
    network: &Network<A>,
    incoming: Vec<BridgeInput<A>, A>,
    rounds: u32,
    watch: &mut W,
) -> Result<SettledNetwork<A>, RoundsFault>
    requires { AreBridgeInputs network.now.plans incoming.items }
    ensures ok { IfOk result (λ settled. RunsNetwork network.now incoming.items settled.bridges.items) }
    ensures alone { IfOk result (λ settled. IsolatesStreams network.now incoming.items settled.bridges.items) }
    ensures others_change_nothing { IfOk result (λ settled. OthersChangeNothing network.now incoming.items
        settled.bridges.items) }
    ensures taps { IfOk result (λ settled. HaveTaps network.now.plans settled.bridges.items) }
    ensures rounds { IfOk result (λ settled. SettlesIn network.now incoming.items settled.rounds) }
    ensures stops { IfErr result (StopsNetworkRun network.now incoming.items rounds) }
{
    assert_network(network);
    let Ok(mut stations) = initial_bridge_runs(alloc, network, incoming) else {
        return Err(RoundsFault::NoMemory);
    };
    let mut last = (0usize, 0u8);
    for turn in 0..rounds {
        match run_round(alloc, &mut stations, turn, watch) {
            Ok(None) => return finish_bridges(alloc, stations, turn + 1),
            Ok(Some(port)) => last = port,
            Err(fault) => {
                drop(stations);
                return Err(fault);
            }
        }
    }
    drop(stations);
    let (bridge, port) = last;
    Err(RoundsFault::NotSettled { bridge, port })
}

/// Returns the results of the bridges after the last round, with the number of rounds. Fails only if memory runs out. `run_network` calls
/// it.
fn finish_bridges<A: Allocator + Copy>(
    alloc: A,
    stations: Vec<BridgeRun<'_, A>, A>,
    rounds: u32,
) -> Result<SettledNetwork<A>, RoundsFault>
    requires { All HasRun stations.items }
    ensures settled { IfOk result (λ all. AreBridgeResults stations.entry.items all.bridges.items) }
    ensures rounds { IfOk result (λ all. all.rounds ≡ rounds) }
    ensures memory { OnErr result (result ≡ Err RoundsFault.NoMemory) }
{
    match bridge_results(alloc, stations) {
        Ok(bridges) => Ok(SettledNetwork { bridges, rounds }),
        Err(_) => Err(RoundsFault::NoMemory),
    }
}
