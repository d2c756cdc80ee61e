//! A bridge in a network run: its inputs, the captures of its sent frames, and its result.
ghost use Rattle.std.specs.Prelude.{◌≡◌, ◌≢◌, ◌+◌, ◌<◌, ℕ, All, List, [], Some, is_some, length, map, option_map, slice_get, slice_set, IfOk, IfErr, OnOk, Ok, true, false};
ghost use Rattle.bridge_capture.specs.Memory.{is_unfailing_source};
ghost use Rattle.bridge_config.specs.Commands.{AreCommands};
ghost use Rattle.bridge_core.specs.WholeRuns.{ArePortNumbers};
ghost use Rattle.net_model.specs.Networks as networks;
ghost use Rattle.net_run.specs.BridgeRuns.{HasCompleteRun, HasRun, IsDelayedCapture, IsInitialRun, IsBridgeInput, IsBridgeRun, NoInput, NoInputBeforeIndex, RunsBridge, StopsBridge, constant_part, as_memory_fault, open_texts, sender_values, sink_octets, text_of_port, text_octets};
ghost use Rattle.net_run.specs.InputCaptures.{sent_octets};
ghost use Rattle.net_model.specs.NetworkParts.{link_value, sender_value};

use crate::input_capture::{
    InputCapture, SharedCapture, copy_inputs, input_captures, share_captures,
};
use bridge_capture::{RunFault, SliceSource, VecSink};
use bridge_check::Accepted;
use bridge_config::Command;
use bridge_core::simulate;
use bridge_limits::NoMemory;
use bridge_semantics::Outcome;
use net_model::{Link, Sender, find_sender};
use std::alloc::Allocator;
use std::marker::Model;

/// Returns one source for each capture in `texts`, in the same order, because `simulate` (bridge_core) reads captures from sources.
/// `run_bridge` calls it.
fn capture_sources<'a, A: Allocator + Copy>(
    alloc: A,
    texts: &'a [Vec<u8, A>],
) -> Result<Vec<SliceSource<'a>, A>, NoMemory>
    ensures texts { IfOk result (λ sources. sink_octets sources.items ≡ text_octets texts.entry.now) }
    ensures sure { IfOk result (λ sources. All (λ d. is_unfailing_source d ≡ true) sources.items) }
{
    let mut sources = Vec::with_capacity(alloc, texts.len())?;
    for text in texts {
        sources.push(SliceSource::new(text))?;
    }
    Ok(sources)
}

/// Returns `count` empty sinks in memory, one for each port's sent frames. `simulate` writes into them.
fn empty_sinks<A: Allocator + Copy>(alloc: A, count: usize) -> Result<Vec<VecSink<A>, A>, NoMemory>
    ensures many { IfOk result (λ sinks. length sinks.items ≡ count) }
    ensures empty { IfOk result (λ sinks. All (λ d. d.octets ≡ []) sinks.items) }
{
    let mut sinks = Vec::with_capacity(alloc, count)?;
    for place in 0..count {
        let _place = place;
        sinks.push(VecSink::new(alloc))?;
    }
    Ok(sinks)
}

/// Everything that a bridge's run yields: its result, and the captures (`taps`) of the frames that its ports sent, by rising port number.
#[derive(Drop)]
pub(crate) struct RunOutput<A: Allocator + Copy> {
    outcome: Outcome<A>,
    taps: Vec<VecSink<A>, A>,
}

/// Runs the bridge of an accepted plan over these commands and input captures. `texts` has one capture for each port in `ports`. Fails if a
/// capture is refused or memory runs out. `run_over_inputs` calls it.
pub(crate) fn run_bridge<A: Allocator + Copy>(
    alloc: A,
    accepted: &Accepted<A>,
    ports: &[u8],
    commands: &[Command],
    texts: &[Vec<u8, A>],
) -> Result<RunOutput<A>, RunFault>
    requires numbers { ArePortNumbers accepted.now ports.now }
    requires commands { AreCommands accepted.now commands.now }
    requires texts { length texts.now ≡ length ports.now }
    ensures runs { IfOk result (λ ran. RunsBridge accepted.now ports.now commands.now (text_octets texts.now)
        (sink_octets ran.taps.items) ran.outcome) }
    ensures many { IfOk result (λ ran. length ran.taps.items ≡ length ports.now) }
    ensures stops { IfErr result (StopsBridge accepted.now ports.now commands.now (text_octets texts.now)) }
{
    let Ok(mut sources) = capture_sources(alloc, texts) else {
        return Err(RunFault::NoMemory);
    };
    let Ok(mut sinks) = empty_sinks(alloc, ports.len()) else {
        drop(sources);
        return Err(RunFault::NoMemory);
    };
    let ran = simulate(alloc, accepted, commands, &mut sources, &mut sinks);
    drop(sources);
    match ran {
        Ok(outcome) => Ok(RunOutput {
            outcome,
            taps: sinks,
        }),
        Err(fault) => {
            drop(sinks);
            Err(as_memory_fault(fault))
        }
    }
}

/// Returns `NoMemory` for a write fault: a sink in memory fails only if memory runs out. Returns every other fault unchanged. `run_bridge`
/// calls it.
fn as_memory_fault(fault: RunFault) -> RunFault
    ensures { result ≡ as_memory_fault fault }
{
    match fault {
        RunFault::Write { .. } => RunFault::NoMemory,
        fault => fault,
    }
}

/// Runs a bridge over copies of its input captures, one for each port in `ports`. Returns its result, and the captures of the frames that
/// each port sent.
///
/// Fails if a capture is refused or memory runs out. `run` calls it.
fn run_over_inputs<A: Allocator + Copy>(
    alloc: A,
    accepted: &Accepted<A>,
    ports: &[u8],
    commands: &[Command],
    inputs: &[InputCapture<A>],
) -> Result<(Outcome<A>, Vec<SharedCapture<A>, A>), RunFault>
    requires numbers { ArePortNumbers accepted.now ports.now }
    requires commands { AreCommands accepted.now commands.now }
    requires inputs { length inputs.now ≡ length ports.now }
    ensures runs { IfOk result (λ ran. RunsBridge accepted.now ports.now commands.now inputs.now
        (sink_octets ran.1.items) ran.0) }
    ensures many { IfOk result (λ ran. length ran.1.items ≡ length ports.now) }
    ensures stops { IfErr result (StopsBridge accepted.now ports.now commands.now inputs.now) }
{
    let Ok(texts) = copy_inputs(alloc, inputs) else {
        return Err(RunFault::NoMemory);
    };
    let ran = run_bridge(alloc, accepted, ports, commands, &texts);
    drop(texts);
    let RunOutput { outcome, taps } = match ran {
        Ok(ran) => ran,
        Err(fault) => return Err(fault),
    };
    let Ok(taps) = share_captures(alloc, taps) else {
        drop(outcome);
        return Err(RunFault::NoMemory);
    };
    Ok((outcome, taps))
}

/// Returns the capture in `taps` of the frames that port `port` of `ports` sent. Returns `None` if the port is missing, or if the bridge
/// hasn't run. `delivered_capture` calls it.
fn find_port_capture<'a, A: Allocator + Copy>(
    ports: &[u8],
    taps: &'a [SharedCapture<A>],
    port: u8,
) -> Option<&'a SharedCapture<A>>
    ensures { sent_octets (option_map (λ d. d.now) result) ≡ text_of_port ports.now (sink_octets taps.entry.now) port }
{
    for place in 0..ports.len() {
        if place >= taps.len() {
            return None;
        }
        if ports[place] == port {
            return Some(&taps[place]);
        }
    }
    None
}

/// Input of one bridge of a network from outside: its commands, and a capture for each port.
#[derive(Drop)]
pub struct BridgeInput<A: Allocator> {
    /// Commands by rising time.
    pub commands: Vec<Command, A>,
    /// One capture for each port, by rising port number. The run doesn't read the captures of linked ports.
    pub captures: Vec<Vec<u8, A>, A>,
}

/// Returns whether a port of the bridge with index `bridge`, from 0, has a link. `app_networks` reads captures only for other ports.
pub fn is_linked(links: &[Link], bridge: usize, port: u8) -> bool
    ensures { result ≡ is_some (networks.sender (map link_value links.now) bridge port) }
{
    find_sender(links, bridge, port).is_some()
}

/// Returns for each port in `ports` of a bridge the port that sends to it over a link, or `None` for an open port. `begin` calls it.
fn port_senders<A: Allocator + Copy>(
    alloc: A,
    links: &[Link],
    bridge: usize,
    ports: &[u8],
) -> Result<Vec<Option<Sender>, A>, NoMemory>
    ensures { IfOk result (λ senders. sender_values senders.items
        ≡ map (networks.sender (map link_value links.now) bridge) ports.now) }
{
    let mut senders = Vec::with_capacity(alloc, ports.len())?;
    for port in ports {
        senders.push(find_sender(links, bridge, *port))?;
    }
    Ok(senders)
}

/// Capture without frames: only the 24 octets of a header.
const EMPTY_CAPTURE: [u8; 24] = [
    0x4d, 0x3c, 0xb2, 0xa1, 2, 0, 4, 0, 0, 0, 0, 0, 0, 0, 0, 0, 0xff, 0xff, 0, 0, 1, 0, 0, 0,
];

/// Replaces the capture in `texts` of the port with index `place` by one without frames if the port has a link. Before the first round, no
/// frame has arrived over a link. `clear_linked_ports` calls it.
fn clear_linked_port<A: Allocator + Copy>(
    alloc: A,
    senders: &[Option<Sender>],
    place: usize,
    texts: Vec<Vec<u8, A>, A>,
) -> Result<Vec<Vec<u8, A>, A>, NoMemory>
    requires place { place < length senders.now }
    requires many { length texts.items ≡ length senders.now }
    ensures many { IfOk result (λ new. length new.items ≡ length senders.now) }
    ensures from_outside { IfOk result (λ new. open_texts (sender_values senders.now) (text_octets new.items)
        ≡ open_texts (sender_values senders.now) (text_octets texts.items)) }
    ensures empty { IfOk result (λ new. NoInputBeforeIndex place (sender_values senders.now) (text_octets texts.items)
        → NoInputBeforeIndex (place + 1) (sender_values senders.now) (text_octets new.items)) }
{
    let Some(_) = senders[place] else {
        return Ok(texts);
    };
    let mut texts = texts;
    texts[place] = Vec::from_slice(alloc, &EMPTY_CAPTURE)?;
    Ok(texts)
}

/// Replaces the captures in `texts` of all linked ports by captures without frames. `senders` has `None` for open ports. `begin` calls it.
fn clear_linked_ports<A: Allocator + Copy>(
    alloc: A,
    senders: &[Option<Sender>],
    texts: Vec<Vec<u8, A>, A>,
) -> Result<Vec<Vec<u8, A>, A>, NoMemory>
    requires { length texts.items ≡ length senders.now }
    ensures many { IfOk result (λ new. length new.items ≡ length senders.now) }
    ensures from_outside { IfOk result (λ new. open_texts (sender_values senders.now) (text_octets new.items)
        ≡ open_texts (sender_values senders.now) (text_octets texts.items)) }
    ensures empty { IfOk result (λ new. NoInput (sender_values senders.now) (text_octets new.items)) }
{
    let mut texts = texts;
    for place in 0..senders.len() {
        texts = clear_linked_port(alloc, senders, place, texts)?;
    }
    Ok(texts)
}

/// A bridge in a network run: its inputs by port, its commands, the captures of its sent frames, and its result. The result is `None`
/// before the first run, and after an input has changed.
#[derive(Drop)]
pub(crate) struct BridgeRun<'a, A: Allocator + Copy> {
    accepted: &'a Accepted<A>,
    commands: Vec<Command, A>,
    ports: Vec<u8, A>,
    senders: Vec<Option<Sender>, A>,
    texts: Vec<InputCapture<A>, A>,
    taps: Vec<SharedCapture<A>, A>,
    outcome: Option<Outcome<A>>,
}

impl<'a, A: Allocator + Copy> Model for BridgeRun<'a, A> {
    ghost use Rattle.net_run.specs.BridgeRuns.{IsBridgeRun, BridgeRunState, sender_values, sink_octets};

    ghost Value = { BridgeRunState A };

    ghost view = { λ s. record {
      plan = s.accepted.now;
      commands = s.commands.items;
      ports = s.ports.items;
      senders = sender_values s.senders.items;
      texts = s.texts.items;
      taps = sink_octets s.taps.items;
      outcome = s.outcome;
    } };

    ghost invariant = { λ s. IsBridgeRun {A = A} (record {
      plan = s.accepted.now;
      commands = s.commands.items;
      ports = s.ports.items;
      senders = sender_values s.senders.items;
      texts = s.texts.items;
      taps = sink_octets s.taps.items;
      outcome = s.outcome;
    }) };
}

impl<'a, A: Allocator + Copy> BridgeRun<'a, A> {
    /// Returns the bridge with index `bridge` before the first round, with its inputs `came` from outside. No frame has arrived over a
    /// link. `initial_bridge_runs` calls it.
    pub(crate) fn begin(
        alloc: A,
        accepted: &'a Accepted<A>,
        links: &[Link],
        bridge: usize,
        came: BridgeInput<A>,
    ) -> Result<BridgeRun<'a, A>, NoMemory>
        requires { IsBridgeInput accepted.now came }
        ensures { IfOk result (IsInitialRun accepted.entry.now links.now bridge came) }
    {
        let ports = accepted.plan().port_numbers(alloc)?;
        let senders = port_senders(alloc, links, bridge, &ports)?;
        let BridgeInput { commands, captures } = came;
        let captures = clear_linked_ports(alloc, &senders, captures)?;
        let texts = input_captures(alloc, captures)?;
        Ok(BridgeRun {
            accepted,
            commands,
            ports,
            senders,
            texts,
            taps: Vec::new(alloc),
            outcome: None,
        })
    }

    /// Returns the result of the run, and the captures of the frames that the ports sent. Called after the last round, when each bridge has
    /// a result. `ended_runs` calls it.
    pub(crate) fn finish(self) -> (Outcome<A>, Vec<SharedCapture<A>, A>)
        requires { HasRun self }
        ensures { (self.entry.outcome ≡ Some result.0) × (self.entry.taps ≡ sink_octets result.1.items) }
    {
        let BridgeRun { outcome, taps, .. } = self;
        match outcome {
            Some(outcome) => (outcome, taps),
            None => unreachable!(),
        }
    }

    /// Returns whether the bridge has run over its current inputs. If not, it runs in the next round. `announce_start` asks it.
    pub(crate) fn has_run(&self) -> bool {
        self.outcome.is_some()
    }

    /// Returns the number of the bridge's ports. Methods with a parameter `place` accept only indexes below it. `feed_bridge` visits each
    /// port.
    pub(crate) fn port_count(&self) -> usize
        ensures size { result ≡ length self.now.ports }
        ensures kept { IsBridgeRun self.now }
    {
        self.ports.len()
    }

    /// Returns the number of the port with index `place`. `deliver_capture` returns it if the port's input changed.
    pub(crate) fn port(&self, place: usize) -> u8
        requires { place < length self.now.ports }
        ensures { slice_get self.now.ports place ≡ Some result }
    {
        self.ports[place]
    }

    /// Returns the sender of the port with index `place`: the port at the other end of its link. Returns `None` for an open port.
    /// `feed_port` calls it.
    pub(crate) fn sender(&self, place: usize) -> Option<Sender>
        requires { place < length self.now.ports }
        ensures { slice_get self.now.senders place ≡ Some (option_map sender_value result) }
    {
        self.senders[place]
    }

    /// Returns the input capture of the port with index `place`. `has_input` calls it.
    pub(crate) fn input_capture(&self, place: usize) -> &InputCapture<A>
        requires { place < length self.now.ports }
        ensures { slice_get self.now.texts place ≡ Some result.now }
    {
        &self.texts[place]
    }

    /// Returns the input capture for the port at the other end of a link: the frames that `port` sent, delayed by `delay` ns. The capture
    /// has no octets if the bridge sent none.
    ///
    /// `capture_over_link` calls it.
    pub(crate) fn delivered_capture(
        &self,
        alloc: A,
        port: u8,
        delay: u64,
    ) -> Result<InputCapture<A>, NoMemory>
        ensures { IfOk result (IsDelayedCapture delay (text_of_port self.now.ports self.now.taps port)) }
    {
        match find_port_capture(&self.ports, &self.taps, port) {
            Some(sent) => InputCapture::over_link(alloc, sent, delay),
            None => Ok(InputCapture::from_octets(Vec::new(alloc))),
        }
    }

    /// Sets the input capture of the linked port with index `place`. Drops the result of the bridge's last run, so that the bridge runs
    /// again in the next round. `deliver_capture` calls it.
    pub(crate) fn set_input(&mut self, place: usize, input: InputCapture<A>)
        requires place { place < length self.old.ports }
        requires linked { (s : networks.Sender) × (slice_get self.old.senders place ≡ Some (Some s)) }
        ensures ground { constant_part self.new ≡ constant_part self.old }
        ensures texts { self.new.texts ≡ slice_set self.old.texts place input }
        ensures taps { self.new.taps ≡ self.old.taps }
    {
        self.outcome = None;
        self.texts[place] = input;
    }

    /// Returns whether the input capture of the port with index `place` has the octets of `input`. If so, the frames from the port's sender
    /// haven't changed. `deliver_capture` calls it.
    pub(crate) fn has_input(
        &self,
        alloc: A,
        place: usize,
        input: &InputCapture<A>,
    ) -> Result<bool, NoMemory>
        requires { place < length self.now.ports }
        ensures same { IfOk result (λ is_same. is_same ≡ true → slice_get self.now.texts place ≡ Some input.now) }
        ensures other { IfOk result (λ is_same. is_same ≡ false → (here : List ℕ)
            × (slice_get self.now.texts place ≡ Some here) × (here ≢ input.now)) }
    {
        self.input_capture(place).has_same_octets(alloc, input)
    }

    /// Runs the bridge over its inputs, and stores its result and sent captures, unless it has a result for these inputs. Returns whether
    /// it ran. Fails if a capture is refused or memory runs out.
    ///
    /// `run_bridges` calls it in each round.
    pub(crate) fn run(&mut self, alloc: A) -> Result<bool, RunFault>
        ensures same { OnOk result ((constant_part self.new ≡ constant_part self.old)
            × (self.new.texts ≡ self.old.texts)) }
        ensures runs { OnOk result (HasRun self.new) }
        ensures complete { OnOk result (HasCompleteRun self.old) }
        ensures kept { result ≡ Ok false → self.new ≡ self.old }
        ensures stops { IfErr result (StopsBridge self.old.plan self.old.ports self.old.commands self.old.texts) }
    {
        if self.outcome.is_some() {
            return Ok(false);
        }
        let ran = match run_over_inputs(
            alloc,
            self.accepted,
            &self.ports,
            &self.commands,
            &self.texts,
        ) {
            Ok(ran) => ran,
            Err(fault) => return Err(fault),
        };
        let (outcome, taps) = ran;
        self.taps = taps;
        self.outcome = Some(outcome);
        Ok(true)
    }
}
