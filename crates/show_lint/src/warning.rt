//! Warnings about accepted plans: the values that the searches find and `put_warning` writes.

/// Warning about an accepted plan: a likely mistake. Lengths and limits are in octets, times in ns.
#[derive(Clone, Copy)]
pub enum Warning {
    /// A schedule change stands in line `line`, from 1, but no port or stream gate has a new list.
    IdleChange { line: usize },
    /// No filter is protected or grouped.
    NoneProtected,
    /// A stream asks for untagged frames in a VLAN other than its port's VLAN.
    OtherVlan(OtherVlan),
    /// A stream's static entry names its ingress port.
    OwnPort(StaticToIngress),
    /// A stream gate is always closed.
    ClosedGate { gate: u32 },
    /// The stream gate of a protected or grouped filter is closed from the schedule change on.
    ClosedFrom(ClosedFrom),
    /// A meter never has enough tokens for the shortest frame.
    NoToken { meter: u32 },
    /// A meter never refills its buckets.
    NoTokenRefill { meter: u32 },
    /// A filter names a handle that no stream has.
    NoStream { filter: u32, handle: u32 },
    /// A filter gets no frame: a filter with a lower number matches all its frames.
    HiddenFilter(HiddenFilter),
    /// A filter gets no frame: several filters with lower numbers together match all its frames.
    TakenTogether(TakenTogether),
    /// The largest SDU of a filter is less than the SDU of every frame.
    NoLength { filter: u32, sdu: u32 },
    /// An open entry of a stream gate passes fewer octets than the filter's longest frame has.
    LowOctetLimit(LowOctetLimit),
    /// An earlier stream matches all frames of a stream.
    HiddenStream(HiddenStream),
    /// Two earlier streams together match all frames of a stream.
    HiddenTogether(HiddenTogether),
    /// A class never opens although frames of an unprotected filter can enter it.
    NeverOpen(NeverOpen),
    /// A protected stream has no static entry, so its frames leave by all members of the stream's VLAN.
    Flooded(Flooded),
    /// A stream of a protected filter isn't forwarded.
    NotForwarded(NotForwarded),
    /// A protected stream doesn't leave by a port of its static entry, because the port isn't a member of the stream's VLAN.
    NonMemberPort(NonMemberPort),
    /// The longest frames of a protected or grouped filter are always red.
    SmallBurst(SmallBurst),
    /// The meter of a protected or grouped filter gets fewer tokens in a cycle of the stream gate than the gate passes octets.
    LowRate(LowRate),
    /// A protected filter's stream gate passes more frames in a cycle than a queue has time for.
    QueueOverload(QueueOverload),
    /// A protected filter's stream gate passes more frames in an entry than a queue's capacity.
    SmallQueue(SmallQueue),
    /// Frames of a protected filter wait longer than their stream gate's entry lasts.
    LongWait(LongWait),
    /// The stream gate's cycle and the port's cycle aren't multiples of each other.
    CycleMismatch(CycleMismatch),
}

/// Schedule that a warning concerns: the old one, the new one, or the only one.
#[derive(Clone, Copy)]
pub enum ScheduleStage {
    /// Always: the schedule doesn't change.
    Always,
    /// Before the schedule change.
    BeforeChange,
    /// From the schedule change on.
    AfterChange,
}

/// Stream whose static entry names its ingress port. A bridge never sends a frame back to its ingress port.
#[derive(Clone, Copy)]
pub struct StaticToIngress {
    /// Number of the stream in the file, from 1.
    pub place: usize,
    /// Handle of the stream.
    pub handle: u32,
    /// Ingress port of the stream.
    pub port: u8,
}

/// Stream that asks for frames without a VLAN, and for a VLAN other than its port's VLAN.
#[derive(Clone, Copy)]
pub struct OtherVlan {
    /// Position of the stream in the file, from 1.
    pub place: usize,
    /// Handle of the stream.
    pub handle: u32,
    /// Ingress port of the stream.
    pub port: u8,
    /// VLAN of the port's untagged frames.
    pub own: u16,
    /// VLAN that the stream asks for.
    pub vid: u16,
}

/// Stream gate of a protected or grouped filter that never opens from the schedule change on.
#[derive(Clone, Copy)]
pub struct ClosedFrom {
    /// Number of the stream gate.
    pub gate: u32,
    /// Number of the first protected or grouped filter that uses the stream gate.
    pub filter: u32,
    /// Time of the change in ns.
    pub at: u64,
}

/// Filter whose frames several filters with lower numbers match together.
#[derive(Clone, Copy)]
pub struct TakenTogether {
    /// Number of the filter that matches no frame.
    pub filter: u32,
    /// Number of the filter that matches the frames of each priority, from 0.
    pub takers: [u32; 8],
}

/// Filter whose frames another filter matches.
#[derive(Clone, Copy)]
pub struct HiddenFilter {
    /// Number of the filter that matches no frame.
    pub filter: u32,
    /// Number of the filter that matches all these frames; it is lower.
    pub lower: u32,
}

/// Gate entry with an octet limit less than a filter's largest SDU.
#[derive(Clone, Copy)]
pub struct LowOctetLimit {
    /// Number of the stream gate.
    pub gate: u32,
    /// Octet limit of the entry.
    pub octets: u32,
    /// Largest SDU of the filter in octets.
    pub sdu: u32,
    /// Number of the filter.
    pub filter: u32,
}

/// Stream whose frames an earlier stream matches.
#[derive(Clone, Copy)]
pub struct HiddenStream {
    /// Number of the stream in the file, from 1.
    pub place: usize,
    /// Handle of the stream.
    pub handle: u32,
    /// Number of the earlier stream, from 1.
    pub earlier: usize,
    /// Handle of the earlier stream.
    pub other: u32,
}

/// Stream whose frames two earlier streams match together.
#[derive(Clone, Copy)]
pub struct HiddenTogether {
    /// Number of the stream in the file, from 1.
    pub place: usize,
    /// Handle of the stream.
    pub handle: u32,
    /// Number of the earlier stream that matches the frames with a VLAN, from 1.
    pub tagged: usize,
    /// Number of the earlier stream that matches the other frames, from 1.
    pub untagged: usize,
}

/// Class of a port that never opens although frames of an unprotected filter can enter it.
#[derive(Clone, Copy)]
pub struct NeverOpen {
    /// Schedule for which the warning holds.
    pub stage: ScheduleStage,
    /// Number of the first unprotected filter whose frames can enter the queue.
    pub filter: u32,
    /// Port number, 1 to 16.
    pub port: u8,
    /// Class that never opens, 0 to 7.
    pub class: u8,
}

/// Stream of a protected filter without a static entry, which leaves by several ports of its VLAN.
#[derive(Clone, Copy)]
pub struct Flooded {
    /// Number of the protected filter.
    pub filter: u32,
    /// Number of the stream in the file, from 1.
    pub place: usize,
    /// VLAN of the stream.
    pub vid: u16,
}

/// Why a stream isn't forwarded.
#[derive(Clone, Copy)]
pub enum NotForwardedCause {
    /// No bridge forwards the stream's address.
    Reserved,
    /// The plan lacks the stream's VLAN.
    NoVlan,
    /// The stream's ingress port isn't a member of its VLAN.
    Ingress,
    /// The stream's static entry names no port.
    NoPorts,
    /// The stream's static entry names only its ingress port.
    OwnPort,
    /// The stream's static entry names a port that isn't a member of the VLAN, and no other egress port.
    Egress { port: u8 },
    /// The stream's ingress port is the only member of its VLAN.
    Alone,
}

/// Stream of a protected filter that isn't forwarded.
#[derive(Clone, Copy)]
pub struct NotForwarded {
    /// Number of the protected filter.
    pub filter: u32,
    /// Number of the stream in the file, from 1.
    pub place: usize,
    /// Ingress port of the stream.
    pub port: u8,
    /// VLAN of the stream.
    pub vid: u16,
    /// Why the stream isn't forwarded.
    pub reason: NotForwardedCause,
}

/// Port of a static entry by which a protected filter's stream doesn't leave.
#[derive(Clone, Copy)]
pub struct NonMemberPort {
    /// Number of the protected filter.
    pub filter: u32,
    /// Number of the stream in the file, from 1.
    pub place: usize,
    /// Port that isn't a member of the VLAN.
    pub port: u8,
    /// VLAN of the stream.
    pub vid: u16,
}

/// Meter whose buckets are smaller than the longest frame of a protected or grouped filter.
#[derive(Clone, Copy)]
pub struct SmallBurst {
    /// Number of the protected or grouped filter.
    pub filter: u32,
    /// Number of the meter.
    pub meter: u32,
    /// Committed burst size of the meter in octets.
    pub cbs: u64,
    /// Excess burst size of the meter in octets.
    pub ebs: u64,
    /// Whether the meter drops yellow frames, so that `ebs` has no effect.
    pub drops_yellow: bool,
    /// Octets that the meter counts for the longest frame.
    pub octets: u32,
}

/// Meter of a protected or grouped filter that gets fewer tokens in a cycle of the stream gate than the gate passes octets.
#[derive(Clone, Copy)]
pub struct LowRate {
    /// Schedule to which the stream gate's cycle belongs.
    pub stage: ScheduleStage,
    /// Number of the protected or grouped filter.
    pub filter: u32,
    /// Number of the meter.
    pub meter: u32,
    /// Number of the stream gate.
    pub gate: u32,
    /// Cycle of the stream gate in ns.
    pub cycle: u64,
    /// Number of longest frames that the stream gate passes in a cycle.
    pub count: u64,
    /// Octets that the meter counts for `count` longest frames.
    pub octets: u64,
    /// Octets for which the meter gets tokens in a cycle.
    pub tokens: u64,
    /// Whether the meter drops yellow frames, so that `eir` has no effect.
    pub drops_yellow: bool,
}

/// Queue of a protected filter, and the stream gate that its frames pass.
#[derive(Clone, Copy)]
pub struct QueueId {
    /// Schedule for which the warning holds.
    pub stage: ScheduleStage,
    /// Number of the protected filter.
    pub filter: u32,
    /// Number of the filter's stream gate.
    pub gate: u32,
    /// Port number, 1 to 16.
    pub port: u8,
    /// Class of the queue, 0 to 7.
    pub class: u8,
}

/// Queue whose class is open too briefly to send the frames that its stream gate passes.
#[derive(Clone, Copy)]
pub struct QueueOverload {
    /// Queue, filter and stream gate.
    pub spot: QueueId,
    /// Cycle of the stream gate in ns.
    pub cycle: u64,
    /// Number of longest frames that the stream gate passes in a cycle.
    pub count: u64,
    /// Transmission time in ns of `count` longest frames.
    pub occupied: u64,
    /// Time in ns for which the class is open in a cycle of the port.
    pub open: u64,
    /// Cycle of the port in ns.
    pub port_cycle: u64,
}

/// Queue that gets more frames from a stream gate's entry than its capacity.
#[derive(Clone, Copy)]
pub struct SmallQueue {
    /// Queue, filter and stream gate.
    pub spot: QueueId,
    /// Offset of the entry from the start of the stream gate's cycle in ns.
    pub phase: u64,
    /// Number of longest frames that the stream gate passes in the entry.
    pub count: u64,
    /// Least number of these frames that wait when the entry ends.
    pub left: u64,
    /// Queue capacity in frames.
    pub room: u16,
}

/// Queue whose frames wait longer than the stream gate's entry lasts: none leaves before the gate closes.
#[derive(Clone, Copy)]
pub struct LongWait {
    /// Queue, filter and stream gate.
    pub spot: QueueId,
    /// Start of a stream gate's cycle in ns.
    pub base: u64,
    /// Start of a port cycle in ns.
    pub port_base: u64,
    /// Offset of an entry from the start of the stream gate's cycle, in ns.
    pub phase: u64,
    /// Duration of the entry in ns.
    pub lasting: u64,
    /// Least wait in ns of a frame that arrives when the entry begins.
    pub wait: u64,
}

/// Cycles of a stream gate and of a port that aren't multiples of each other.
#[derive(Clone, Copy)]
pub struct CycleMismatch {
    /// Schedule to which both cycles belong.
    pub stage: ScheduleStage,
    /// Number of the protected filter.
    pub filter: u32,
    /// Number of the stream gate.
    pub gate: u32,
    /// Port number, 1 to 16.
    pub port: u8,
    /// Cycle of the stream gate in ns.
    pub cycle: u64,
    /// Cycle of the port in ns.
    pub port_cycle: u64,
    /// Time in ns after which both begin together again.
    pub hypercycle: u64,
}
