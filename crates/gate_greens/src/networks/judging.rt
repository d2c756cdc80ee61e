//! Judges whether a run of a network refutes a stream's line.
use crate::networks::line::Line;
use crate::networks::shape::{Hop, Net, Route, Twist};
use crate::plans::{add_if, is_pass};
use crate::runs::filter_view;
use bridge_core::View;
use bridge_semantics::{Departure, Origin};
use net_run::BridgeResult;
use std::alloc::Global;

/// Counts of a stream in a run.
#[derive(Clone, Copy, Default)]
pub struct Seen {
    /// Number of frames at the first hop, and of delivered copies.
    pub frames: u64,
    pub delivered: u64,
    /// Number of frames at the first hop that break the talker's promise. These frames are mistakes of the generator.
    pub stray: u64,
    /// Number of facts that contradict the line.
    pub refuted: u64,
    /// Number of refused frames and dropped copies.
    pub lost: u64,
    /// Whether a delay equals the line's worst delay, and whether a delay equals its best delay.
    pub reaches_worst: bool,
    pub reaches_best: bool,
}

/// A run of a network, with a stream and its line.
#[derive(Clone, Copy)]
struct Run<'a> {
    net: &'a Net,
    route: &'a Route,
    settled: &'a [BridgeResult<Global>],
    line: Line,
}

/// Returns the port at the other end of a port's link, and the link's delay in ns.
fn far_end(net: &Net, bridge: u64, port: u64) -> Option<((u64, u64), u64)> {
    for cable in &net.cables {
        if cable.one == (bridge, port) {
            return Some((cable.other, cable.delay));
        }
        if cable.other == (bridge, port) {
            return Some((cable.one, cable.delay));
        }
    }
    None
}

impl<'a> Run<'a> {
    /// Returns the record of the stream's filter at `bridge`.
    fn view(&self, bridge: u64) -> Option<&'a View<Global>> {
        let settled = self.settled.get(bridge as usize)?;
        let filter = u32::try_from(self.route.filter()).ok()?;
        filter_view(&settled.outcome, filter)
    }

    /// Returns the number of hops in the network file. The twist `Shortened` omits the last hop of the first stream.
    fn hops(&self) -> usize {
        let count = self.route.hops.len();
        if self.net.twist == Twist::Shortened && self.route.place == 0 {
            count.saturating_sub(1)
        } else {
            count
        }
    }

    /// Returns the index of the stream's hop at `bridge`.
    fn bridge_hop(&self, bridge: u64) -> Option<usize> {
        let mut index = 0usize;
        for hop in &self.route.hops {
            if hop.bridge == bridge && index < self.hops() {
                return Some(index);
            }
            index = index.saturating_add(1);
        }
        None
    }

    /// Returns the departure that led to an arrival over a link: the sending bridge, and the frame's number in its filter there.
    fn sender(&self, bridge: u64, origin: &Origin) -> Option<(u64, u64)> {
        let (far, delay) = far_end(self.net, bridge, u64::from(origin.port))?;
        let view = self.view(far.0)?;
        for stored in &view.departures {
            let departure = stored.departure();
            let arrives = departure.done.saturating_add(delay);
            if u64::from(departure.port) == far.1 && arrives == origin.at {
                return Some((far.0, departure.own));
            }
        }
        None
    }

    /// Returns the arrival time at the first hop of a frame, found by its number `own` in the filter at `bridge`.
    fn first_arrival(&self, bridge: u64, own: u64) -> Option<u64> {
        let mut bridge = bridge;
        let mut own = own;
        for _ in 0..4 {
            let view = self.view(bridge)?;
            let origin = view.origins.get(own.saturating_sub(1) as usize)?.origin();
            if self.bridge_hop(bridge) == Some(0) {
                return Some(origin.at);
            }
            let before = self.sender(bridge, &origin)?;
            bridge = before.0;
            own = before.1;
        }
        None
    }

    /// Whether a port leads to a hop of the stream.
    fn is_route_port(&self, bridge: u64, port: u8) -> bool {
        match far_end(self.net, bridge, u64::from(port)) {
            Some((far, _)) => self.bridge_hop(far.0).is_some(),
            None => false,
        }
    }

    /// Adds a delivered copy, and the facts by which it contradicts the line.
    fn judge_delivery(&self, bridge: u64, departure: &Departure, seen: &mut Seen) {
        seen.delivered = seen.delivered.saturating_add(1);
        match self.first_arrival(bridge, departure.own) {
            Some(at) => {
                let delay = departure.done.saturating_sub(at);
                add_if(&mut seen.refuted, !self.line.allows(delay));
                add_if(&mut seen.refuted, !self.has_phase(departure.done));
                seen.reaches_worst = seen.reaches_worst || self.line.worst == Some(delay);
                seen.reaches_best = seen.reaches_best || self.line.best == Some(delay);
            }
            None => add_if(&mut seen.refuted, self.line.worst.is_some()),
        }
    }

    /// Whether an end of transmission lies between the phases of the line in a period.
    fn has_phase(&self, done: u64) -> bool {
        let (Some(from), Some(to)) = (self.line.from, self.line.to) else {
            return true;
        };
        let later = done.saturating_sub(from) % self.net.period.max(1);
        from <= done && later <= to.saturating_sub(from)
    }

    /// Adds the deliveries and losses at a hop, and the facts that contradict the line.
    fn judge_hop(&self, hop: &Hop, frames: u64, seen: &mut Seen) {
        let Some(view) = self.view(hop.bridge) else {
            add_if(&mut seen.stray, true);
            return;
        };
        let lost = count_lost(view);
        seen.lost = seen.lost.saturating_add(lost);
        for stored in &view.departures {
            let departure = stored.departure();
            if !self.is_route_port(hop.bridge, departure.port) {
                self.judge_delivery(hop.bridge, &departure, seen);
            }
        }
        if self.line.passes() {
            let [_, other] = hop.egress;
            let copies = if other > 0 {
                frames.saturating_mul(2)
            } else {
                frames
            };
            seen.refuted = seen.refuted.saturating_add(lost);
            add_if(&mut seen.refuted, view.origins.len() as u64 != frames);
            add_if(&mut seen.refuted, view.departures.len() as u64 != copies);
        }
    }
}

/// Returns the number of refused frames and dropped copies.
fn count_lost(view: &View<Global>) -> u64 {
    let mut lost = view.drops.len() as u64;
    for verdict in &view.verdicts {
        add_if(&mut lost, !is_pass(verdict.verdict()));
    }
    lost
}

/// Returns the number of arrivals at the talker's port that break the talker's promise.
fn count_strays(net: &Net, route: &Route, ingress: u64, view: &View<Global>) -> u64 {
    let mut strays = 0u64;
    let mut earlier = None;
    for stored in &view.origins {
        let origin = stored.origin();
        if u64::from(origin.port) != ingress {
            continue;
        }
        let period = net.period.max(1);
        let phase = origin.at % period;
        let index = Some(origin.at / period);
        let keeps = route.from <= phase && phase <= route.to;
        add_if(&mut strays, !keeps || index == earlier);
        earlier = index;
    }
    strays
}

/// Returns the counts of a stream, compared with its line.
pub fn judge(net: &Net, route: &Route, settled: &[BridgeResult<Global>], line: Line) -> Seen {
    let run = Run {
        net,
        route,
        settled,
        line,
    };
    let mut seen = Seen::default();
    let Some(hop) = route.hops.first() else {
        return seen;
    };
    let Some(first) = run.view(hop.bridge) else {
        add_if(&mut seen.stray, true);
        return seen;
    };
    seen.frames = first.origins.len() as u64;
    seen.stray = count_strays(net, route, hop.ingress, first);
    let frames = seen.frames;
    let mut index = 0usize;
    for hop in &route.hops {
        if index < run.hops() {
            run.judge_hop(hop, frames, &mut seen);
        }
        index = index.saturating_add(1);
    }
    seen
}
