//! Lists of stream gates and ports before and after a schedule change, and the frames that a stream gate's entries can pass. Searches for
//! warnings about meters and queues use them.

use crate::warning::ScheduleStage;
use bridge_config::{Plan, PortPlan};
use bridge_cycle::{CyclicList, Egress, Timeline};
use bridge_frame::occupation;
use bridge_gate::{GateEntry, Schedule};
use bridge_limits::LONGEST_FRAME;
use std::alloc::{AllocError, Allocator, Global};

/// Returns the list that a stream gate has at `stage`: before a schedule change, after it, or always. Returns `None` for a gate with a
/// fixed state. Searches for warnings call it.
pub(crate) fn gate_list<A: Allocator + Copy>(
    schedule: &Schedule<A>,
    stage: ScheduleStage,
) -> Option<&CyclicList<GateEntry, A>> {
    match schedule {
        Schedule::Fixed { .. } => None,
        Schedule::Cyclic(list) => Some(list),
        Schedule::Joined(joined) => {
            let (old, new) = joined.lists();
            match stage {
                ScheduleStage::AfterChange => Some(new),
                _ => Some(old),
            }
        }
    }
}

/// Returns the gate control list that a port has at `stage`: before a schedule change, after it, or always. Returns `None` if the port has
/// no list: it is always open. Warnings need it.
pub(crate) fn port_list<A: Allocator + Copy>(
    port: &PortPlan<A>,
    stage: ScheduleStage,
) -> Option<&CyclicList<u8, A>> {
    match &port.list {
        None => None,
        Some(Egress::Cyclic(list)) => Some(list),
        Some(Egress::Joined(joined)) => {
            let (old, new) = joined.lists();
            match stage {
                ScheduleStage::AfterChange => Some(new),
                _ => Some(old),
            }
        }
    }
}

/// Returns whether a stream gate has a schedule change. If so, searches for warnings look at both lists. `find_port_warnings` and
/// `find_rates` call it.
pub(crate) fn has_gate_change<A: Allocator + Copy>(schedule: &Schedule<A>) -> bool {
    matches!(schedule, Schedule::Joined(_))
}

/// Returns whether a port has a schedule change. If so, searches for warnings look at both lists. `find_class` and `find_port_warnings`
/// call it.
pub(crate) fn has_port_change<A: Allocator + Copy>(port: &PortPlan<A>) -> bool {
    matches!(&port.list, Some(Egress::Joined(_)))
}

/// Returns the stages for which callers look for warnings: before and after the schedule change if `is_changed` is true, otherwise
/// `Always`. `find_class`, `find_rates` and `find_port_warnings` call it.
pub(crate) fn change_stages(is_changed: bool) -> &'static [ScheduleStage] {
    if is_changed {
        &[ScheduleStage::BeforeChange, ScheduleStage::AfterChange]
    } else {
        &[ScheduleStage::Always]
    }
}

/// Greatest load of a filter: the filter's longest frames, back to back on each link by which the filter's streams enter.
#[derive(Clone, Copy)]
pub(crate) struct OfferedLoad {
    /// SDU octets of a longest frame.
    pub sdu: u32,
    /// Captured length of a longest frame in octets, without check sequence: `sdu` + 16, at most 9,216.
    pub length: u32,
    /// Transmission time in ns of a longest frame at each ingress port, from port 1; 0 if no stream of the filter enters there.
    pub times: [u64; 16],
}

/// Returns the length in octets of the longest frame with `sdu` SDU octets: 16 octets of header more, but at most 9,216 octets.
/// `find_meter_warnings` and `offered_load` call it.
pub(crate) fn longest_length(sdu: u32) -> u32 {
    sdu.saturating_add(16).min(LONGEST_FRAME)
}

/// Returns the greatest load of a filter with handle `handle` and a largest SDU of `sdu` octets. Searches for warnings about meters and
/// queues call it.
pub(crate) fn offered_load<A: Allocator + Copy>(
    plan: &Plan<A>,
    handle: u32,
    sdu: u32,
) -> OfferedLoad {
    let length = longest_length(sdu);
    let mut times = [0u64; 16];
    for stream in plan.streams() {
        if stream.handle == handle {
            if let Some(port) = plan.port(stream.port) {
                set_port_time(&mut times, stream.port, occupation(length, port.speed));
            }
        }
    }
    OfferedLoad { sdu, length, times }
}

/// Sets the transmission time in ns of a frame at port `port`, 1 to 16. `offered_load` calls it for each ingress port of a filter's
/// streams.
fn set_port_time(times: &mut [u64; 16], port: u8, time: u64) {
    if let Some(there) = times.get_mut(usize::from(port).saturating_sub(1)) {
        *there = time;
    }
}

/// Duration of an open entry and its cycle time, in ns. `is_alone` is true if no other entry opens the stream gate; then frames may begin
/// before the entry.
#[derive(Clone, Copy)]
struct OpeningSpan {
    duration: u64,
    cycle: u64,
    is_alone: bool,
}

impl OpeningSpan {
    /// Returns how many frames of transmission time `time` in ns can arrive on one link during the entry. If other entries also open the
    /// stream gate, each frame's transmission must lie within the entry.
    ///
    /// `frames_on_all_links` calls it.
    fn frames_on_link(self, time: u64) -> u64 {
        if time == 0 {
            return 0;
        }
        if self.is_alone {
            return self.duration.div_ceil(time).min(self.cycle / time);
        }
        self.duration / time
    }
}

impl OfferedLoad {
    /// Returns how many longest frames can arrive on all links during the entry of one cycle. `limited_count` calls it.
    fn frames_on_all_links(&self, span: OpeningSpan) -> u64 {
        let mut count = 0u64;
        for time in &self.times {
            if *time > 0 {
                count = count.saturating_add(span.frames_on_link(*time));
            }
        }
        count
    }

    /// Returns how many longest frames pass during the entry: its octet limit `limit` and the links bound this number. Returns 0 without an
    /// octet limit. `gate_openings` calls it.
    fn limited_count(&self, limit: Option<u32>, span: OpeningSpan) -> u64 {
        match limit {
            Some(octets) if self.sdu > 0 => {
                let most = u64::from(octets / self.sdu);
                most.min(self.frames_on_all_links(span))
            }
            _ => 0,
        }
    }
}

/// Entry in which a stream gate is open: its offset in the cycle, and the frames that queues receive in a burst during the entry.
#[derive(Clone, Copy)]
pub(crate) struct GateOpening {
    /// Offset of the entry from the cycle's start in ns.
    pub phase: u64,
    /// Duration of the entry in ns.
    pub lasting: u64,
    /// Internal priority value that the entry gives to frames.
    pub ipv: Option<u8>,
    /// Number of longest frames that can pass in the entry, by its octet limit and the links; 0 without an octet limit.
    pub count: u64,
}

/// Returns the open entries of a stream gate's list, with the number of frames of load `feed` that each passes. The last entry lasts to the
/// cycle's end. `low_rate` and `find_queue_stage_warnings` call it.
pub(crate) fn gate_openings<A: Allocator + Copy>(
    alloc: Global,
    list: &CyclicList<GateEntry, A>,
    feed: &OfferedLoad,
) -> Result<Vec<GateOpening>, AllocError> {
    let cycle = list.cycle();
    let entries = list.entries();
    let mut openings = Vec::new(alloc);
    let mut phase = 0u64;
    let mut left = entries.len();
    let is_alone = entries.iter().filter(|entry| entry.0.lets).count() == 1;
    for (entry, ns) in entries {
        left = left.saturating_sub(1);
        let lasting = if left == 0 {
            cycle.saturating_sub(phase)
        } else {
            *ns
        };
        if entry.lets {
            let span = OpeningSpan {
                duration: lasting,
                cycle,
                is_alone,
            };
            let opening = GateOpening {
                phase,
                lasting,
                ipv: entry.ipv,
                count: feed.limited_count(entry.octets, span),
            };
            if openings.push(opening).is_err() {
                return Err(AllocError);
            }
        }
        phase = phase.saturating_add(*ns);
    }
    Ok(openings)
}

/// Returns the number of longest frames that all openings of a stream gate's cycle pass together. `low_rate` and `find_overload` call it.
pub(crate) fn total_count(openings: &[GateOpening]) -> u64 {
    let mut count = 0u64;
    for opening in openings {
        count = count.saturating_add(opening.count);
    }
    count
}
