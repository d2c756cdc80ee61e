//! Captures between two rounds: each port's input, and the captures that ports sent. A link's input shares the sent capture, so that its
//! octets are in memory once.
ghost use Rattle.std.specs.Prelude.{◌≡◌, ◌≢◌, true, false, IfOk};
ghost use Rattle.net_run.specs.BridgeRuns.{sink_octets, text_octets};
ghost use Rattle.net_run.specs.DelayedCapture.{delayed_text};

use crate::delayed_capture::delay_capture;
use bridge_capture::{ByteSink, VecSink};
use bridge_limits::NoMemory;
use std::alloc::Allocator;
use std::marker::Model;
use std::rc::Rc;

/// Capture of the frames that a port sent. Inputs of other bridges share its octets.
#[derive(Drop)]
pub(crate) struct SharedCapture<A: Allocator + Copy> {
    sink: Rc<VecSink<A>, A>,
}

impl<A: Allocator + Copy> Model for SharedCapture<A> {
    ghost use Rattle.std.specs.Rc.{rc_value};
    ghost use Rattle.bridge_capture.specs.Memory.{MemoryDevice};

    ghost Value = { MemoryDevice };

    ghost view = { λ s. rc_value s.sink };
}

impl<A: Allocator + Copy> SharedCapture<A> {
    /// Returns a capture that inputs can share. Its copy of the octets has no spare capacity, unlike the sink that grew frame by frame.
    /// `share_captures` calls it.
    fn new(alloc: A, sink: VecSink<A>) -> Result<SharedCapture<A>, NoMemory>
        ensures { IfOk result (λ shared. shared.octets ≡ sink.octets) }
    {
        let copy = copy_sink(alloc, sink.octets())?;
        drop(sink);
        Ok(SharedCapture {
            sink: Rc::new(alloc, copy)?,
        })
    }

    /// Returns the octets of the capture. The input of the linked port is made from them.
    pub(crate) fn octets(&self) -> &[u8]
        ensures { result.now ≡ self.now.octets }
    {
        self.sink.octets()
    }

    /// Returns the sink of the capture. Copies its octets only if an input still shares them. `sinks_of_captures` calls it.
    fn into_sink(self, alloc: A) -> Result<VecSink<A>, NoMemory>
        ensures { IfOk result (λ sink. sink.octets ≡ self.octets) }
    {
        match Rc::try_unwrap(self.sink) {
            Ok(sink) => Ok(sink),
            Err(shared) => copy_sink(alloc, shared.octets()),
        }
    }
}

/// Returns a sink with these octets. Returns `NoMemory` unless the sink accepts all octets in one call. `into_sink` and `new` call it.
fn copy_sink<A: Allocator + Copy>(alloc: A, octets: &[u8]) -> Result<VecSink<A>, NoMemory>
    ensures { IfOk result (λ sink. sink.octets ≡ octets.now) }
{
    let mut sink = VecSink::new(alloc);
    match sink.write(octets) {
        Ok(count) => {
            if count == octets.len() {
                Ok(sink)
            } else {
                Err(NoMemory)
            }
        }
        Err(_) => Err(NoMemory),
    }
}

/// Input capture of a port: octets, or the capture that a link's sender sent.
#[derive(Drop)]
pub(crate) struct InputCapture<A: Allocator + Copy> {
    /// Octets of the capture if `sent` is `None`.
    octets: Vec<u8, A>,
    /// Capture that the link's sender sent; `None` if the input has octets of its own.
    sent: Option<SharedCapture<A>>,
    /// Delay of the link in ns; 0 if `sent` is `None`.
    delay: u64,
}

impl<A: Allocator + Copy> Model for InputCapture<A> {
    ghost use Rattle.std.specs.Prelude.{ℕ, List};
    ghost use Rattle.net_run.specs.InputCaptures.{input_octets};

    ghost Value = { List ℕ };

    ghost view = { λ c. input_octets c.octets.items c.sent c.delay };
}

impl<A: Allocator + Copy> InputCapture<A> {
    /// Returns the input capture with these octets: for an open port, or if no bridge has sent a capture to the port. `delivered_capture`,
    /// `input_captures` and `capture_over_link` call it.
    pub(crate) fn from_octets(octets: Vec<u8, A>) -> InputCapture<A>
        ensures { result ≡ octets.items }
    {
        InputCapture {
            octets,
            sent: None,
            delay: 0,
        }
    }

    /// Returns the input capture of the port at the end of a link of `delay` ns over which the frames of `sent` arrive. It shares the
    /// octets of `sent`. `delivered_capture` calls it.
    pub(crate) fn over_link(
        alloc: A,
        sent: &SharedCapture<A>,
        delay: u64,
    ) -> Result<InputCapture<A>, NoMemory>
        ensures { IfOk result (λ input. input ≡ delayed_text delay sent.now.octets) }
    {
        let sink = sent.sink.clone()?;
        Ok(InputCapture {
            octets: Vec::new(alloc),
            sent: Some(SharedCapture { sink }),
            delay,
        })
    }

    /// Returns a copy of the input's octets, with the delay of the link applied to the frames' times. `copy_inputs` and `has_same_octets`
    /// call it.
    pub(crate) fn copy_octets(&self, alloc: A) -> Result<Vec<u8, A>, NoMemory>
        ensures { IfOk result (λ text. text.items ≡ self.now) }
    {
        match &self.sent {
            Some(sent) => delay_capture(alloc, sent.octets(), self.delay),
            None => Ok(Vec::from_slice(alloc, &self.octets)?),
        }
    }

    /// Returns whether both inputs arrive over links with equal delays from captures with equal octets. Then both inputs have equal octets,
    /// and `has_same_octets` needn't copy them.
    fn has_same_sender_octets(&self, other: &InputCapture<A>) -> bool
        ensures { result ≡ true → self.now ≡ other.now }
    {
        match (&self.sent, &other.sent) {
            (Some(own), Some(sent)) => {
                self.delay == other.delay && own.octets() == sent.octets()
            }
            _ => false,
        }
    }

    /// Returns whether both inputs have the same octets. `has_input` calls it.
    pub(crate) fn has_same_octets(
        &self,
        alloc: A,
        other: &InputCapture<A>,
    ) -> Result<bool, NoMemory>
        ensures same { IfOk result (λ is_same. is_same ≡ true → self.now ≡ other.now) }
        ensures other { IfOk result (λ is_same. is_same ≡ false → self.now ≢ other.now) }
    {
        if self.has_same_sender_octets(other) {
            return Ok(true);
        }
        let own = self.copy_octets(alloc)?;
        let octets = other.copy_octets(alloc)?;
        Ok(own.as_slice() == octets.as_slice())
    }
}

/// Returns one input capture for each of these captures, in order, for the ports of a bridge. `begin` of `BridgeRun` calls it.
pub(crate) fn input_captures<A: Allocator + Copy>(
    alloc: A,
    texts: Vec<Vec<u8, A>, A>,
) -> Result<Vec<InputCapture<A>, A>, NoMemory>
    ensures { IfOk result (λ inputs. inputs.items ≡ text_octets texts.items) }
{
    let mut inputs = Vec::with_capacity(alloc, texts.len())?;
    for text in texts {
        inputs.push(InputCapture::from_octets(text))?;
    }
    Ok(inputs)
}

/// Returns a copy of each input's octets, link delays included. `run_over_inputs` runs a bridge over the copies.
pub(crate) fn copy_inputs<A: Allocator + Copy>(
    alloc: A,
    inputs: &[InputCapture<A>],
) -> Result<Vec<Vec<u8, A>, A>, NoMemory>
    ensures { IfOk result (λ texts. text_octets texts.items ≡ inputs.now) }
{
    let mut texts = Vec::with_capacity(alloc, inputs.len())?;
    for input in inputs {
        texts.push(input.copy_octets(alloc)?)?;
    }
    Ok(texts)
}

/// Returns one shared capture for each sink, in order, after a bridge has run. `run_over_inputs` calls it.
pub(crate) fn share_captures<A: Allocator + Copy>(
    alloc: A,
    sinks: Vec<VecSink<A>, A>,
) -> Result<Vec<SharedCapture<A>, A>, NoMemory>
    ensures { IfOk result (λ taps. sink_octets taps.items ≡ sink_octets sinks.items) }
{
    let mut taps = Vec::with_capacity(alloc, sinks.len())?;
    for sink in sinks {
        taps.push(SharedCapture::new(alloc, sink)?)?;
    }
    Ok(taps)
}

/// Returns the sinks of these captures, in order, for the results after the last round. `results_of_runs` calls it.
pub(crate) fn sinks_of_captures<A: Allocator + Copy>(
    alloc: A,
    taps: Vec<SharedCapture<A>, A>,
) -> Result<Vec<VecSink<A>, A>, NoMemory>
    ensures { IfOk result (λ sinks. sink_octets sinks.items ≡ sink_octets taps.items) }
{
    let mut sinks = Vec::with_capacity(alloc, taps.len())?;
    for tap in taps {
        sinks.push(tap.into_sink(alloc)?)?;
    }
    Ok(sinks)
}
