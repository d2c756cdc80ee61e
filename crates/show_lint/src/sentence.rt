//! Writes the sentences of warnings, with remedies: `put_warning` writes the sentence of any warning.
use crate::queue_sentences::{
    put_cycle_mismatch, put_long_wait, put_low_rate, put_never_open, put_overload, put_small_burst,
    put_small_queue,
};
use crate::unused_parts::SHORTEST;
use crate::warning::{
    ClosedFrom, Flooded, HiddenStream, HiddenTogether, LowOctetLimit, NonMemberPort, NotForwarded,
    NotForwardedCause, OtherVlan, StaticToIngress, TakenTogether, Warning,
};
use bridge_text::TextBuilder;
use std::alloc::{Allocator, Global};

const IDLE: &str =
    "Warning: the `[[change]]` in line {0} changes nothing, because no `port` has `next_gates` and no `gate` has `next_entries`. Add one of these lists, or remove the `[[change]]`.\n";

const NONE_PROTECTED: &str =
    "Warning: no filter is protected, so the plan isolates no stream and bounds no delay. Add `protected = true` to the filter of each stream that needs a guarantee.\n";

const OTHER_VLAN: &str =
    "Warning: `stream` {0} (handle {1}) matches no frame, because `tag = \"priority\"` asks for frames without a VLAN. Port {2} puts these frames into VLAN {4}, not into VLAN {3}. Change the `vid` of `stream` {0} to {4}, or the `vid` of port {2} to {3}.\n";

const OWN_PORT: &str =
    "Warning: the `static` entry of `stream` {0} (handle {1}) names port {2}, where the stream enters. No frame leaves by its ingress port. Remove the port from `ports`, unless another stream needs it.\n";

const CLOSED: &str =
    "Warning: gate {0} is always closed, so its filters refuse all their frames. Open it, unless it is there to refuse stray frames.\n";

const CLOSED_FROM: &str =
    "Warning: gate {0} never opens from the schedule change at {1} ns on, so filter {2} then refuses all its frames. Open an entry of `next_entries`.\n";

const NO_TOKEN: &str =
    "Warning: meter {0} marks every frame red, because `cbs` and `ebs` are below {1} octets, the shortest frame. Raise one of them.\n";

const NO_TOKEN_REFILL: &str =
    "Warning: meter {0} never refills its buckets, because `cir` and `eir` are 0. When they are empty, every frame is red. Raise one of the rates.\n";

const NO_STREAM: &str =
    "Warning: filter {0} is unused, because its handle {1} is missing from all `stream` tables. Add a `stream` with this handle.\n";

const HIDDEN_FILTER: &str =
    "Warning: filter {0} matches no frame, because filter {1} has a lower number and matches all its frames. Remove it, or give it a lower number.\n";

const TAKEN_TOGETHER: &str =
    "Warning: filter {0} matches no frame, because filters with lower numbers together match all its frames. The frames with priority 0 to 7 go to filters {1}, {2}, {3}, {4}, {5}, {6}, {7} and {8}. Remove filter {0}, or give it a lower number.\n";

const NO_LENGTH: &str =
    "Warning: filter {0} refuses every frame, because its `max_sdu` is {1}. The SDU of every frame has at least 2 octets, its EtherType. Raise `max_sdu`.\n";

const LIMIT: &str =
    "Warning: an entry of gate {0} refuses the longest frames of filter {3}, because its `octets` {1} are less than `max_sdu` {2}. Raise `octets`, or lower `max_sdu`.\n";

const HIDDEN_STREAM: &str =
    "Warning: `stream` {0} (handle {1}) matches no frame, because `stream` {2} (handle {3}) stands earlier in the file and matches every frame that `stream` {0} asks for. Remove one of the two, or change what it asks for.\n";

const HIDDEN_TOGETHER: &str =
    "Warning: `stream` {0} (handle {1}) matches no frame, because two earlier entries together match every frame that it asks for: `stream` {2} the frames with a VLAN, and `stream` {3} the others. Remove `stream` {0}, or move it before one of them.\n";

const NOT_FORWARDED: &str = "Warning: filter {0} (protected) can't forward `stream` {1}: ";

const NON_MEMBER_PORT: &str =
    "Warning: filter {0} (protected) can't send `stream` {2} out of port {1}. The `static` entry names the port, but VLAN {3} doesn't. Add port {1} to `members`.\n";

const FLOODED: &str =
    "Warning: `stream` {1} of filter {0} (protected) leaves by all other ports of VLAN {2}, because no `static` entry has its address. Add a `static` entry with the egress ports.\n";

/// Writes the sentence of warning `advice`: a line that begins with `Warning: `. If the remedy isn't obvious, the line states it.
/// `put_warnings`, and `unprotected_warning` of `app_commands` call it.
pub fn put_warning<A: Allocator>(said: &mut TextBuilder<A>, advice: &Warning) {
    match advice {
        Warning::IdleChange { line } => said.put_template(IDLE, &[*line as u64], &[]),
        Warning::NoneProtected => said.put(NONE_PROTECTED),
        Warning::OtherVlan(other) => put_other_vlan(said, other),
        Warning::OwnPort(own) => put_static_to_ingress(said, own),
        Warning::ClosedGate { gate } => said.put_template(CLOSED, &[u64::from(*gate)], &[]),
        Warning::ClosedFrom(closed) => put_closing_time(said, closed),
        Warning::NoToken { meter } => put_pair(said, NO_TOKEN, u64::from(*meter), SHORTEST),
        Warning::NoTokenRefill { meter } => put_pair(said, NO_TOKEN_REFILL, u64::from(*meter), 0),
        Warning::NoStream { filter, handle } => {
            put_pair(said, NO_STREAM, u64::from(*filter), u64::from(*handle))
        }
        Warning::HiddenFilter(taken) => {
            put_pair(
                said,
                HIDDEN_FILTER,
                u64::from(taken.filter),
                u64::from(taken.lower),
            )
        }
        Warning::TakenTogether(taken) => put_taken(said, taken),
        Warning::NoLength { filter, sdu } => {
            put_pair(said, NO_LENGTH, u64::from(*filter), u64::from(*sdu))
        }
        Warning::LowOctetLimit(below) => put_low_limit(said, below),
        Warning::HiddenStream(hidden) => put_hidden_stream(said, hidden),
        Warning::HiddenTogether(hidden) => put_hidden_together(said, hidden),
        Warning::NeverOpen(never) => put_never_open(said, never),
        Warning::Flooded(flooded) => put_flooded(said, flooded),
        Warning::NotForwarded(stuck) => put_not_forwarded(said, stuck),
        Warning::NonMemberPort(outside) => put_non_member_port(said, outside),
        Warning::SmallBurst(burst) => put_small_burst(said, burst),
        Warning::LowRate(rate) => put_low_rate(said, rate),
        Warning::QueueOverload(flood) => put_overload(said, flood),
        Warning::SmallQueue(rooms) => put_small_queue(said, rooms),
        Warning::LongWait(pause) => put_long_wait(said, pause),
        Warning::CycleMismatch(cycles) => put_cycle_mismatch(said, cycles),
    }
}

/// Writes a sentence whose template has at most the two numbers `first` and `second`. `put_warning` calls it.
fn put_pair<A: Allocator>(said: &mut TextBuilder<A>, template: &str, first: u64, second: u64) {
    said.put_template(template, &[first, second], &[]);
}

/// Writes that frames of a stream leave by all other ports of their VLAN. `put_warning` calls it.
fn put_flooded<A: Allocator>(said: &mut TextBuilder<A>, flooded: &Flooded) {
    let numbers = [
        u64::from(flooded.filter),
        flooded.place as u64,
        u64::from(flooded.vid),
    ];
    said.put_template(FLOODED, &numbers, &[]);
}

/// Writes that a stream asks for frames without a VLAN, but its port puts them into another VLAN. `put_warning` calls it.
fn put_other_vlan<A: Allocator>(said: &mut TextBuilder<A>, other: &OtherVlan) {
    let numbers = [
        other.place as u64,
        u64::from(other.handle),
        u64::from(other.port),
        u64::from(other.vid),
        u64::from(other.own),
    ];
    said.put_template(OTHER_VLAN, &numbers, &[]);
}

/// Writes that a stream gate is closed from the schedule change on. `put_warning` calls it.
fn put_closing_time<A: Allocator>(said: &mut TextBuilder<A>, closed: &ClosedFrom) {
    let numbers = [u64::from(closed.gate), closed.at, u64::from(closed.filter)];
    said.put_template(CLOSED_FROM, &numbers, &[]);
}

/// Writes that filters with lower numbers together match all frames of a filter. `put_warning` calls it.
fn put_taken<A: Allocator>(said: &mut TextBuilder<A>, taken: &TakenTogether) {
    let [a, b, c, d, e, f, g, h] = taken.takers;
    let numbers = [
        u64::from(taken.filter),
        u64::from(a),
        u64::from(b),
        u64::from(c),
        u64::from(d),
        u64::from(e),
        u64::from(f),
        u64::from(g),
        u64::from(h),
    ];
    said.put_template(TAKEN_TOGETHER, &numbers, &[]);
}

/// Writes that two earlier streams together match all frames of a stream. `put_warning` calls it.
fn put_hidden_together<A: Allocator>(said: &mut TextBuilder<A>, hidden: &HiddenTogether) {
    let numbers = [
        hidden.place as u64,
        u64::from(hidden.handle),
        hidden.tagged as u64,
        hidden.untagged as u64,
    ];
    said.put_template(HIDDEN_TOGETHER, &numbers, &[]);
}

/// Writes that a stream's static entry names its ingress port. `put_warning` calls it.
fn put_static_to_ingress<A: Allocator>(said: &mut TextBuilder<A>, own: &StaticToIngress) {
    let numbers = [own.place as u64, u64::from(own.handle), u64::from(own.port)];
    said.put_template(OWN_PORT, &numbers, &[]);
}

/// Writes that a stream gate's entry has an octet limit less than a filter's largest SDU. `put_warning` calls it.
fn put_low_limit<A: Allocator>(said: &mut TextBuilder<A>, below: &LowOctetLimit) {
    let numbers = [
        u64::from(below.gate),
        u64::from(below.octets),
        u64::from(below.sdu),
        u64::from(below.filter),
    ];
    said.put_template(LIMIT, &numbers, &[]);
}

/// Writes that an earlier stream matches all frames of a stream. `put_warning` calls it.
fn put_hidden_stream<A: Allocator>(said: &mut TextBuilder<A>, hidden: &HiddenStream) {
    let numbers = [
        hidden.place as u64,
        u64::from(hidden.handle),
        hidden.earlier as u64,
        u64::from(hidden.other),
    ];
    said.put_template(HIDDEN_STREAM, &numbers, &[]);
}

/// Writes why a protected filter's stream isn't forwarded, and what to change. `put_warning` calls it.
fn put_not_forwarded<A: Allocator>(said: &mut TextBuilder<A>, stuck: &NotForwarded) {
    said.put_template(
        NOT_FORWARDED,
        &[u64::from(stuck.filter), stuck.place as u64],
        &[],
    );
    let named = match stuck.reason {
        NotForwardedCause::Egress { port } => port,
        _ => 0,
    };
    let numbers = [
        u64::from(stuck.port),
        u64::from(stuck.vid),
        u64::from(named),
    ];
    said.put_template(cause_sentence(stuck.reason), &numbers, &[]);
}

/// Returns the sentence of a cause with its remedy. In it, `{0}` is the stream's ingress port, `{1}` its VLAN and `{2}` an egress port.
/// `put_not_forwarded` calls it.
fn cause_sentence(reason: NotForwardedCause) -> &'static str {
    match reason {
        NotForwardedCause::Reserved =>
            "no bridge forwards the addresses 01-80-C2-00-00-00 to 01-80-C2-00-00-0F. Use another address.\n",
        NotForwardedCause::NoVlan =>
            "the plan has no VLAN {1}. Add it, with ingress port {0} and the egress ports as `members`.\n",
        NotForwardedCause::Ingress =>
            "its ingress port {0} isn't in VLAN {1}. Add port {0} to `members`.\n",
        NotForwardedCause::NoPorts =>
            "its `static` entry has empty `ports`. Add the egress ports.\n",
        NotForwardedCause::OwnPort =>
            "its `static` entry names only the ingress port {0}. Add the egress ports.\n",
        NotForwardedCause::Egress { .. } =>
            "its `static` entry names port {2}, which isn't in VLAN {1}. Add port {2} to `members`.\n",
        NotForwardedCause::Alone =>
            "the ingress port {0} is the only member of VLAN {1}. Add the egress ports.\n",
    }
}

/// Writes that a stream doesn't leave by a port of its static entry, because the port isn't a member of the stream's VLAN. `put_warning`
/// calls it.
fn put_non_member_port<A: Allocator>(said: &mut TextBuilder<A>, outside: &NonMemberPort) {
    let numbers = [
        u64::from(outside.filter),
        u64::from(outside.port),
        outside.place as u64,
        u64::from(outside.vid),
    ];
    said.put_template(NON_MEMBER_PORT, &numbers, &[]);
}

/// Text of an explanation or of warnings, as written up to now.
pub(crate) type LintText = TextBuilder<Global>;
