//! Describes an accepted plan for `check --explain`: queues with windows and delay bounds, then warnings.
ghost use Rattle.std.specs.Prelude.{◌<◌, ◌≤◌};

use crate::group_description::{first_of_group, put_group, shared_queues};
use crate::lint::find_warnings;
use crate::sentence::{LintText, put_warning};
use crate::warning::Warning;
use crate::windows::{longest_frame_of_class, put_open_windows};
use bridge_bounds::{is_coarse, queue_bound};
use bridge_check::{Accepted, can_wait};
use bridge_config::PortPlan;
use bridge_filter::FilterPlan;
use bridge_frame::occupation;
use bridge_groups::{SharedQueue, least_queue_bound, padded_bound};
use bridge_limits::{LONGEST_FRAME, NoMemory};
use bridge_text::TextBuilder;
use std::alloc::{Allocator, Global};

const BOUND: &str =
    "Delay bound: {0} ns from arrival to the end of transmission (queue for {1} frames of up to {2} octets, {3} ns each).\n";

const TIGHT: &str = "With the octet limit of its gate the bound is {0} ns.\n";

const PADDED: &str = "For frames of at least 60 octets the bound is {0} ns.\n";

/// Describes an accepted plan: the queues of each protected filter and group, with windows, longest fitting frame and delay bound, then all
/// warnings. `idle` is the line of a schedule change without effect (`idle_change`).
///
/// `warnings_of_run` and `plan_notes` of `app_commands` call it.
pub fn describe_plan(
    alloc: Global,
    accepted: &Accepted<Global>,
    idle: Option<usize>,
) -> Result<String, NoMemory> {
    let mut said = TextBuilder::new(alloc);
    let rows = shared_queues(alloc, &mut said, accepted);
    put_filters(&mut said, accepted, &rows);
    put_warnings(alloc, &mut said, accepted, idle);
    said.finish()
}

/// Returns the warnings of an accepted plan, one for each line. `idle` is the line of a schedule change without effect (`idle_change`).
/// `plan_notes` of `app_commands` calls it.
pub fn write_warnings<A: Allocator + Copy>(
    alloc: Global,
    accepted: &Accepted<A>,
    idle: Option<usize>,
) -> Result<String, NoMemory> {
    let mut said = TextBuilder::new(alloc);
    put_warnings(alloc, &mut said, accepted, idle);
    said.finish()
}

/// Writes the warnings of a plan, one for each line. A schedule change without effect, in line `idle`, comes first. `describe_plan` and
/// `write_warnings` call it.
fn put_warnings<A: Allocator + Copy>(
    alloc: Global,
    said: &mut LintText,
    accepted: &Accepted<A>,
    idle: Option<usize>,
) {
    if let Some(line) = idle {
        put_warning(said, &Warning::IdleChange { line });
    }
    match find_warnings(alloc, accepted) {
        Ok(found) => {
            for advice in &found {
                put_warning(said, advice);
            }
        }
        Err(_) => said.discard(),
    }
}

/// Writes the queues of each protected filter and each group, with windows and bounds. The queues of a group in `rows` stand at its first
/// filter. `describe_plan` calls it.
fn put_filters<A: Allocator + Copy>(
    said: &mut LintText,
    accepted: &Accepted<A>,
    rows: &[SharedQueue],
) {
    let plan = accepted.plan();
    for (number, filter) in plan.filters() {
        let own = u64::from(*number);
        if filter.protected {
            said.put_template("Filter {0} is protected.\n", &[own], &[]);
            put_ports(said, accepted, *number, filter);
        } else if let Some(group) = filter.group {
            if first_of_group(plan.filters(), group) == *number {
                put_group(said, plan, rows, group);
            }
        }
    }
}

/// Writes the reachable queues of protected filter `number` at all ports, by rising port. `put_filters` calls it.
fn put_ports<A: Allocator + Copy>(
    said: &mut LintText,
    accepted: &Accepted<A>,
    number: u32,
    filter: &FilterPlan,
) {
    for port in 1..17u8 {
        if let Some(found) = accepted.plan().port(port) {
            put_classes(said, accepted, number, filter, port, found);
        }
    }
}

/// Writes the reachable queues of protected filter `number` at port `port`, by rising class: windows and delay bounds. `put_ports` calls
/// it.
fn put_classes<A: Allocator + Copy>(
    said: &mut LintText,
    accepted: &Accepted<A>,
    number: u32,
    filter: &FilterPlan,
    port: u8,
    found: &PortPlan<A>,
)
    requires from { 1 ≤ port }
    requires to { port ≤ 16 }
{
    for class in 0..8u8 {
        if can_wait(accepted.plan(), filter, port, class) {
            put_queue(said, port, found, class);
            if let Some(bound) = queue_bound(accepted, number, port, class) {
                put_bound(said, filter, found, class, bound);
                put_gate_bounds(said, accepted, number, port, class, bound);
            }
        }
    }
}

/// Writes the windows of the queue of class `class` at port `number`, and the longest frame that fits. `put_classes` and `put_shared_queue`
/// call it.
pub(crate) fn put_queue<A: Allocator + Copy>(
    said: &mut LintText,
    number: u8,
    port: &PortPlan<A>,
    class: u8,
)
    requires { class < 8 }
{
    said.put_template(
        "Port {0}, class {1}: ",
        &[u64::from(number), u64::from(class)],
        &[],
    );
    put_open_windows(said, port, class);
    match longest_frame_of_class(port, class) {
        Some(longest) => said.put_template(
            ". The longest frame that fits has {0} octets.\n",
            &[u64::from(longest)],
            &[],
        ),
        None => said.put(". No frame fits.\n"),
    }
}

/// Writes the delay bound `bound` in ns of a queue of class `class` by its capacity, with the frames that it assumes. Writes nothing
/// without a largest SDU. `put_classes` calls it.
fn put_bound<A: Allocator + Copy>(
    said: &mut LintText,
    filter: &FilterPlan,
    port: &PortPlan<A>,
    class: u8,
    bound: u64,
)
    requires { class < 8 }
{
    if let Some(sdu) = filter.max_sdu {
        let length = sdu.saturating_add(16).min(LONGEST_FRAME);
        let room = u64::from(port.rooms[class as usize]);
        let occupied = occupation(length, port.speed);
        said.put_template(BOUND, &[bound, room, u64::from(length), occupied], &[]);
    }
}

/// Writes the two bounds by octet limits if they are below `bound`, the bound by capacity in ns. One bound is for any capture, one for
/// frames of at least 60 octets.
///
/// `put_classes` calls it for each reachable queue.
fn put_gate_bounds<A: Allocator + Copy>(
    said: &mut LintText,
    accepted: &Accepted<A>,
    number: u32,
    port: u8,
    class: u8,
    bound: u64,
)
    requires from { 1 ≤ port }
    requires to { port ≤ 16 }
    requires class { class < 8 }
{
    let Some(least) = least_queue_bound(accepted, number, port, class) else {
        return;
    };
    if least < bound {
        said.put_template(TIGHT, &[least], &[]);
    }
    let coarse = is_coarse(accepted, number, port);
    if let Some(padded) = padded_bound(accepted, number, port, class, least, coarse) {
        said.put_template(PADDED, &[padded], &[]);
    }
}
