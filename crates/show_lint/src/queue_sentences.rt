//! Sentences of warnings about meters and queues, with remedies. `put_warning` calls the functions.
use crate::warning::{
    CycleMismatch, LongWait, LowRate, NeverOpen, QueueOverload, ScheduleStage, SmallBurst,
    SmallQueue,
};
use bridge_text::TextBuilder;
use std::alloc::Allocator;

const BURST: &str =
    "Warning: meter {0} refuses the longest frame of filter {1}, which has {2} octets with the frame check sequence: ";

const BURST_GREEN: &str =
    "`cbs` is {3}, and the meter drops yellow frames. Raise `cbs` to at least {2}.\n";

const BURST_ANY: &str = "`cbs` is {3} and `ebs` is {4}. Raise one of them to at least {2}.\n";

const RATE: &str =
    "meter {5} is slower than gate {0}. In each cycle of {3} ns the gate can pass {1} of the longest frames of filter {2}, together {4} octets, ";

const RATE_GREEN: &str =
    "but `cir` supplies only {6} octets. Frames turn yellow or red once the bucket is empty. Raise `cir`, or lower `octets` of the gate.\n";

const RATE_ANY: &str =
    "but `cir` and `eir` supply only {6} octets. Frames turn red once the buckets are empty. Raise `cir` or `eir`, or lower `octets` of the gate.\n";

const OVERLOAD: &str =
    "window too short. In each cycle of {3} ns, gate {0} can pass {1} of the longest frames of filter {2}. They need {5} ns at port {4}, but class {6} is open for only {7} ns of each {8} ns. A full queue drops frames. Lengthen the window, or lower `octets`.\n";

const SMALL_QUEUE: &str =
    "queue capacity too small. In the entry at offset {3} ns, gate {0} can pass {1} of the longest frames of filter {2}. When the entry ends, {4} of them would wait at port {5}, class {6}, but the queue holds only {7}. Raise `rooms`, or lower `octets`.\n";

const LONG_WAIT: &str =
    "gate {0} (filter {1}) is open from offset {2} ns for {3} ns, while class {4} of port {5} can't send. The offset counts from the gate's base time {7} ns, the port's list from base time {8} ns. A frame that arrives as the gate opens waits at least {6} ns. Shift the gate or the port by `base`, or reorder the entries of one.\n";

const NEVER_OPEN: &str =
    "class {1} of port {0} never opens, so frames of filter {2} (unprotected) in its queue can't leave. Open the class in an entry of the port's list, or give these frames another class by `ipv` in the gate of filter {2}.\n";

const CYCLES: &str =
    "gate {0} of filter {1} has a cycle of {2} ns, and port {3} has {4} ns. Neither is a multiple of the other, so the delay pattern repeats only every {5} ns. Make one cycle a multiple of the other.\n";

/// Returns the start of a warning's sentence: `Warning: `, and whether the old or the new schedule is concerned, if the schedule changes.
/// `put_low_rate`, `put_overload` and 4 more call it.
fn stage_prefix(stage: ScheduleStage) -> &'static str {
    match stage {
        ScheduleStage::Always => "Warning: ",
        ScheduleStage::BeforeChange => "Warning: (old schedule) ",
        ScheduleStage::AfterChange => "Warning: (new schedule) ",
    }
}

/// Writes that a meter's buckets are too small for a filter's longest frame. `put_warning` calls it.
pub(crate) fn put_small_burst<A: Allocator>(said: &mut TextBuilder<A>, burst: &SmallBurst) {
    let numbers = [
        u64::from(burst.meter),
        u64::from(burst.filter),
        u64::from(burst.octets),
        burst.cbs,
        burst.ebs,
    ];
    said.put_template(BURST, &numbers, &[]);
    let rest = if burst.drops_yellow {
        BURST_GREEN
    } else {
        BURST_ANY
    };
    said.put_template(rest, &numbers, &[]);
}

/// Writes that a meter's rate is too low for the frames that the stream gate passes. `put_warning` calls it.
pub(crate) fn put_low_rate<A: Allocator>(said: &mut TextBuilder<A>, rate: &LowRate) {
    let numbers = [
        u64::from(rate.gate),
        rate.count,
        u64::from(rate.filter),
        rate.cycle,
        rate.octets,
        u64::from(rate.meter),
        rate.tokens,
    ];
    said.put(stage_prefix(rate.stage));
    said.put_template(RATE, &numbers, &[]);
    let rest = if rate.drops_yellow {
        RATE_GREEN
    } else {
        RATE_ANY
    };
    said.put_template(rest, &numbers, &[]);
}

/// Writes that frames enter a queue faster than its class has time to send them. `put_warning` calls it.
pub(crate) fn put_overload<A: Allocator>(said: &mut TextBuilder<A>, flood: &QueueOverload) {
    let numbers = [
        u64::from(flood.spot.gate),
        flood.count,
        u64::from(flood.spot.filter),
        flood.cycle,
        u64::from(flood.spot.port),
        flood.occupied,
        u64::from(flood.spot.class),
        flood.open,
        flood.port_cycle,
    ];
    said.put(stage_prefix(flood.spot.stage));
    said.put_template(OVERLOAD, &numbers, &[]);
}

/// Writes that a queue gets more frames from a stream gate's entry than its capacity. `put_warning` calls it.
pub(crate) fn put_small_queue<A: Allocator>(said: &mut TextBuilder<A>, rooms: &SmallQueue) {
    let numbers = [
        u64::from(rooms.spot.gate),
        rooms.count,
        u64::from(rooms.spot.filter),
        rooms.phase,
        rooms.left,
        u64::from(rooms.spot.port),
        u64::from(rooms.spot.class),
        u64::from(rooms.room),
    ];
    said.put(stage_prefix(rooms.spot.stage));
    said.put_template(SMALL_QUEUE, &numbers, &[]);
}

/// Writes that a queue's class isn't open while the stream gate is, so that frames wait. `put_warning` calls it.
pub(crate) fn put_long_wait<A: Allocator>(said: &mut TextBuilder<A>, pause: &LongWait) {
    let numbers = [
        u64::from(pause.spot.gate),
        u64::from(pause.spot.filter),
        pause.phase,
        pause.lasting,
        u64::from(pause.spot.class),
        u64::from(pause.spot.port),
        pause.wait,
        pause.base,
        pause.port_base,
    ];
    said.put(stage_prefix(pause.spot.stage));
    said.put_template(LONG_WAIT, &numbers, &[]);
}

/// Writes that a class never opens although frames of an unprotected filter can enter it. `put_warning` calls it.
pub(crate) fn put_never_open<A: Allocator>(said: &mut TextBuilder<A>, never: &NeverOpen) {
    let numbers = [
        u64::from(never.port),
        u64::from(never.class),
        u64::from(never.filter),
    ];
    said.put(stage_prefix(never.stage));
    said.put_template(NEVER_OPEN, &numbers, &[]);
}

/// Writes that neither the stream gate's nor the port's cycle is a multiple of the other. `put_warning` calls it.
pub(crate) fn put_cycle_mismatch<A: Allocator>(said: &mut TextBuilder<A>, cycles: &CycleMismatch) {
    let numbers = [
        u64::from(cycles.gate),
        u64::from(cycles.filter),
        cycles.cycle,
        u64::from(cycles.port),
        cycles.port_cycle,
        cycles.hypercycle,
    ];
    said.put(stage_prefix(cycles.stage));
    said.put_template(CYCLES, &numbers, &[]);
}
