//! Explains which tests a refused plan fails, and what to change, for `check --explain`.
ghost use Rattle.std.specs.Prelude.{◌≡◌, ◌<◌, IfOk, nat_eq, string_bytes};
ghost use Rattle.show_lint.specs.Filters as spec;
ghost use Rattle.bridge_text.specs.PathPrefix.{StartsWithName};

use crate::route_cause::{put_other_way, put_route};
use crate::sentence::LintText;
use crate::windows::{class_run, longest_frame_of_class, put_open_windows};
use bridge_bounds::find_filter;
use bridge_check::{CheckFault, all_faults};
use bridge_config::{Plan, PortPlan};
use bridge_cycle::{Egress, Run, is_open};
use bridge_filter::FilterPlan;
use bridge_frame::occupation;
use bridge_limits::{LONGEST_FRAME, NoMemory};
use bridge_text::{
    Position, TextBuilder, finish_with_path, key_position, put_position, table_position,
};
use std::alloc::{Allocator, Global};

const NO_HANDLE: &str =
    "Filter {0} is {a} but has no `handle`, so it matches every stream.\nAdd the `handle` of its stream, or remove `{b}`.\n";

const NO_LENGTH: &str =
    "Filter {0} is {a} but has no `max_sdu`. Without it, nobody can tell whether its longest frame fits its windows.\nAdd a `max_sdu`.\n";

const GATE_SHARED: &str =
    "Filters {0} ({b}) and {1} ({a}) share gate {2}. Frames of filter {1} can use up its octets, or shut it.\nGive filter {0} a gate of its own.\n";

const METER_SHARED: &str =
    "Filters {0} ({b}) and {1} ({a}) share meter {2}. Frames of filter {1} can use up its tokens.\nGive filter {0} a meter of its own, or remove its `meter`.\n";

const NO_CATCH_ALL: &str =
    "Filter {1} has the greatest number but doesn't match every frame, so some frames may bypass the filters and enter the queues of filter {0}.\nAdd a filter with a number above {1}, without `handle` and `priority`. Give it a gate of its own, with an `ipv` of another class.\n";

const QUEUE_SHARED: &str = "Filters {0} ({b}) and {1} ({a}) share a queue: port {2}, class {3}.\n";

const JOIN_GROUP: &str = "Add filter {1} to the group by `group = {4}`, or keep the queues apart. ";

const SEPARATE_QUEUES: &str =
    "Give one of them another class, by `ipv` in its gate, by its `priority`, or by the `classes` of the port. Or give one of them another route.\n";

const WINDOW_SHARED: &str = "Port {1} opens several classes together from offset {3} ns: ";

const NEXT_SHARED: &str =
    "`next_gates` of port {1} opens several classes together from offset {3} ns: ";

const NEXT_SHARED_AT: &str =
    "`next_gates` of port {1}, in line {4}, opens several classes together from offset {3} ns: ";

const NO_WINDOW: &str =
    "Port {1} has no gate control list, so other classes can delay filter {0} (class {2}).\n";

const TOO_LONG: &str =
    "Filter {0}'s longest frame doesn't fit. It has {1} octets (`max_sdu` {2} and 16 octets of header; no frame exceeds {3}) and needs {5} ns at port {4}.\nClass {6} there is ";

/// Explains why a plan isn't accepted: `fault`, then every other failed test, and what to change. Each finding begins with `path` and the
/// filter's line, if known. `check --explain` prints it.
///
/// `explain_check_fault` of `app_commands` calls it.
pub fn explain_check(
    alloc: Global,
    path: &str,
    text: &[u8],
    plan: &Plan<Global>,
    fault: &CheckFault,
) -> Result<String, NoMemory>
    ensures { IfOk result (λ said. StartsWithName path.now (string_bytes said)) }
{
    let mut said = TextBuilder::new(alloc);
    if matches!(fault, CheckFault::NoMemory) {
        said.put(": there is not enough memory to check the plan.\n");
        return finish_with_path(alloc, path, said);
    }
    put_finding(&mut said, text, plan, *fault);
    match all_faults(alloc, plan) {
        Ok(faults) => put_other_findings(&mut said, path, text, plan, *fault, &faults),
        Err(_) => said.discard(),
    }
    finish_with_path(alloc, path, said)
}

/// Writes the findings of all failed tests except `first`, which `explain_check` has written. Each begins with `path`.
fn put_other_findings<A: Allocator + Copy>(
    said: &mut LintText,
    path: &str,
    text: &[u8],
    plan: &Plan<A>,
    first: CheckFault,
    faults: &[CheckFault],
) {
    for fault in faults {
        if *fault != first {
            said.put(path);
            put_finding(said, text, plan, *fault);
        }
    }
}

/// Returns the position of filter `number` in the text of its plan. Returns `None` if the plan lacks the filter, or the text lacks its
/// table. `put_finding` calls it.
fn filter_position(text: &[u8], filters: &[(u32, FilterPlan)], number: u32) -> Option<Position> {
    let mut index = 0u32;
    for filter in filters {
        index = index.saturating_add(1);
        if filter.0 == number {
            let text = str::from_utf8(text).ok()?;
            return table_position(text, "filter", index, filters.len());
        }
    }
    None
}

/// Writes the finding of a failed test, which follows the path of the plan: line and column of the filter, and the explanation. Writes only
/// the position if the plan lacks the filter.
///
/// `explain_check` and `put_other_findings` call it.
fn put_finding<A: Allocator + Copy>(
    said: &mut LintText,
    text: &[u8],
    plan: &Plan<A>,
    fault: CheckFault,
) {
    let number = fault.filter().unwrap_or(0);
    put_position(said, filter_position(text, plan.filters(), number));
    if let Some(filter) = find_filter(plan.filters(), number) {
        put_check(said, text, plan, number, &filter, fault);
    }
}

/// Writes the explanation of a test that filter `number`, protected or grouped, fails. Calls the function for this test. `put_finding`
/// calls it.
fn put_check<A: Allocator + Copy>(
    said: &mut LintText,
    text: &[u8],
    plan: &Plan<A>,
    number: u32,
    filter: &FilterPlan,
    fault: CheckFault,
) {
    let filters = plan.filters();
    match fault {
        CheckFault::ProtectedWildcard { .. } => said.put_template(
            NO_HANDLE,
            &[u64::from(number)],
            &[kind_word(filter), kind_key(filter)],
        ),
        CheckFault::NoMaxSdu { .. } => said.put_template(
            NO_LENGTH,
            &[u64::from(number)],
            &[kind_word(filter)],
        ),
        CheckFault::GateShared { .. } => put_shared_gate(said, filters, number, filter.gate),
        CheckFault::MeterShared { .. } => put_shared_meter(said, filters, number, filter.meter),
        CheckFault::NoCatchAll { .. } => put_no_catch_all(said, filters, number),
        CheckFault::QueueShared {
            port,
            class,
            other,
            ..
        } => put_shared_queue(said, plan, number, filter, port, class, other),
        CheckFault::WindowShared {
            port,
            class,
            at,
            ..
        } => {
            let window = Window {
                filter: number,
                port,
                class,
                at,
            };
            put_window(said, text, plan, filter, window);
        }
        CheckFault::MaxSduNeverFits { port, class, .. } => {
            put_unfit_length(said, plan, number, filter, port, class);
        }
        CheckFault::NoMemory => {}
    }
}

/// Explains that frames without a matching filter would pass unfiltered: a catch-all filter is missing. Filter `number` fails the test.
/// `put_check` calls it.
fn put_no_catch_all(said: &mut LintText, filters: &[(u32, FilterPlan)], number: u32) {
    let greatest = greatest_filter_number(filters);
    put_shared_part(said, filters, NO_CATCH_ALL, number, greatest, 0);
}

/// Returns the number of the first filter, other than `number`, that uses stream gate `gate`. `None` if no other filter uses the gate.
/// `put_shared_gate` names this filter.
fn other_with_gate(filters: &[(u32, FilterPlan)], number: u32, gate: u32) -> Option<u32>
    ensures { result ≡ spec.first_other_filter (λ f. nat_eq f.gate gate) number filters.now }
{
    for filter in filters {
        if filter.0 != number && filter.1.gate == gate {
            return Some(filter.0);
        }
    }
    None
}

/// Returns whether a filter uses meter `meter`, and false without a meter. `other_with_meter` calls it.
fn has_meter(filter: &FilterPlan, meter: u32) -> bool
    ensures { result ≡ spec.has_meter meter filter.now }
{
    match filter.meter {
        Some(own) => own == meter,
        None => false,
    }
}

/// Returns the number of the first filter, other than `number`, that uses meter `meter`. `None` if no other filter uses the meter.
/// `put_shared_meter` names this filter.
fn other_with_meter(filters: &[(u32, FilterPlan)], number: u32, meter: u32) -> Option<u32>
    ensures { result ≡ spec.first_other_filter (spec.has_meter meter) number filters.now }
{
    for filter in filters {
        if filter.0 != number && has_meter(&filter.1, meter) {
            return Some(filter.0);
        }
    }
    None
}

/// Returns the greatest filter number, or 0 without filters. `put_no_catch_all` asks for a catch-all filter with a greater number.
fn greatest_filter_number(filters: &[(u32, FilterPlan)]) -> u32 {
    let mut last = 0u32;
    for filter in filters {
        last = last.max(filter.0);
    }
    last
}

/// Returns the word for a filter's kind: `protected`, `grouped` or `unprotected`. `put_check`, `kind_of_number` and `put_shared_queue` call
/// it.
fn kind_word(filter: &FilterPlan) -> &'static str {
    if filter.protected {
        "protected"
    } else if filter.group.is_some() {
        "grouped"
    } else {
        "unprotected"
    }
}

/// Returns the key that makes `check` test a filter: `protected` or `group`. Explanations advise to remove it. `put_check` calls it.
fn kind_key(filter: &FilterPlan) -> &'static str {
    if filter.protected {
        "protected"
    } else {
        "group"
    }
}

/// Returns the word for the kind of filter `number`; `unprotected` if the plan lacks it. `put_shared_part` and `put_shared_queue` call it.
fn kind_of_number(filters: &[(u32, FilterPlan)], number: u32) -> &'static str {
    match find_filter(filters, number) {
        Some(filter) => kind_word(&filter),
        None => "unprotected",
    }
}

/// Writes the sentence of `template` about filters `number` and `other`, with their kinds. `own` is the stream gate or meter that both use,
/// or 0 for none. `put_no_catch_all`, `put_shared_gate` and `put_shared_meter` call it.
fn put_shared_part(
    said: &mut LintText,
    filters: &[(u32, FilterPlan)],
    template: &str,
    number: u32,
    other: u32,
    own: u32,
) {
    let numbers = [u64::from(number), u64::from(other), u64::from(own)];
    let kinds = [
        kind_of_number(filters, other),
        kind_of_number(filters, number),
    ];
    said.put_template(template, &numbers, &kinds);
}

/// Writes the explanation of stream gate `gate`, which filter `number` shares with another filter. `put_check` calls it.
fn put_shared_gate(said: &mut LintText, filters: &[(u32, FilterPlan)], number: u32, gate: u32) {
    let other = other_with_gate(filters, number, gate).unwrap_or(0);
    put_shared_part(said, filters, GATE_SHARED, number, other, gate);
}

/// Writes the explanation of meter `meter`, which filter `number` shares with another filter. `put_check` calls it.
fn put_shared_meter(
    said: &mut LintText,
    filters: &[(u32, FilterPlan)],
    number: u32,
    meter: Option<u32>,
) {
    let meter = meter.unwrap_or(0);
    let other = other_with_meter(filters, number, meter).unwrap_or(0);
    put_shared_part(said, filters, METER_SHARED, number, other, meter);
}

/// Writes the explanation of the queue of class `class` that filters `number` and `other` share: why both filters' frames can reach the
/// port, and remedies. `put_check` calls it.
fn put_shared_queue<A: Allocator + Copy>(
    said: &mut LintText,
    plan: &Plan<A>,
    number: u32,
    filter: &FilterPlan,
    port: u8,
    class: u8,
    other: u32,
) {
    let numbers = [
        u64::from(number),
        u64::from(other),
        u64::from(port),
        u64::from(class),
        u64::from(filter.group.unwrap_or(0)),
    ];
    let kinds = [kind_of_number(plan.filters(), other), kind_word(filter)];
    said.put_template(QUEUE_SHARED, &numbers, &kinds);
    put_route(said, plan, number, filter, port);
    if let Some(found) = find_filter(plan.filters(), other) {
        put_route(said, plan, other, &found, port);
    }
    if !filter.protected {
        said.put_template(JOIN_GROUP, &numbers, &[]);
    }
    said.put(SEPARATE_QUEUES);
}

/// Writes the numbers of the classes that are open in a state of a port's transmission gates. `put_window` calls it.
fn put_open_classes(said: &mut LintText, state: u8) {
    let mut is_first = true;
    for class in 0..8u8 {
        if is_open(state, class) {
            said.put_comma(is_first);
            said.put_number(u64::from(class));
            is_first = false;
        }
    }
}

/// Returns the state of the entry that begins at offset `at` in ns, if it opens class `class` and another class. Otherwise returns `None`.
/// `shared_state` calls it.
fn shared_entry_state(entries: &[(u8, u64)], class: u8, at: u64) -> Option<u8>
    requires { class < 8 }
{
    let mut start = 0u64;
    for entry in entries {
        if start == at && is_open(entry.0, class) && entry.0.count_ones() > 1 {
            return Some(entry.0);
        }
        start = start.saturating_add(entry.1);
    }
    None
}

/// Returns the gate state of a port's list at offset `at` ns that opens `class` and another class. `None` if no entry that starts there
/// does.
///
/// The flag is true if only the port's new list has it. `shared_state_of_port` calls it.
fn shared_state<A: Allocator + Copy>(port: &PortPlan<A>, class: u8, at: u64) -> Option<(u8, bool)>
    requires { class < 8 }
{
    match &port.list {
        None => None,
        Some(Egress::Cyclic(list)) => Some((shared_entry_state(list.entries(), class, at)?, false)),
        Some(Egress::Joined(joined)) => {
            let (old, new) = joined.lists();
            match shared_entry_state(old.entries(), class, at) {
                Some(state) => Some((state, false)),
                None => Some((shared_entry_state(new.entries(), class, at)?, true)),
            }
        }
    }
}

/// Returns the gate state at offset `at` ns of port `port` that opens `class` and another class, and whether only the new list has it.
///
/// Returns `None` if the port, its list, the entry or the class is missing. `put_window` calls the function; for `None` it writes that the
/// port has no gate control list.
fn shared_state_of_port<A: Allocator + Copy>(
    plan: &Plan<A>,
    port: u8,
    class: u8,
    at: u64,
) -> Option<(u8, bool)> {
    match plan.port(port) {
        Some(there) if class < 8 => shared_state(there, class, at),
        _ => None,
    }
}

/// Returns the line, from 1, of key `key` of port `number` in the text of its plan, or `None` if the text lacks it. `put_shared_window`
/// calls it.
fn port_key_line<A: Allocator + Copy>(
    text: &[u8],
    ports: &[PortPlan<A>],
    number: u8,
    key: &str,
) -> Option<usize> {
    let mut index = 0u32;
    for port in ports {
        index = index.saturating_add(1);
        if port.number == number {
            let text = str::from_utf8(text).ok()?;
            let header = table_position(text, "port", index, ports.len())?;
            return Some(key_position(text, "port", header.line, key)?.line);
        }
    }
    None
}

/// Writes that a port opens a class together with others from an offset on. The list is the port's new list (`is_next`), or its first list.
/// `put_window` calls it.
fn put_shared_window<A: Allocator + Copy>(
    said: &mut LintText,
    text: &[u8],
    plan: &Plan<A>,
    window: Window,
    is_next: bool,
) {
    let Window {
        filter,
        port,
        class,
        at,
    } = window;
    let line = port_key_line(text, plan.ports(), port, "next_gates");
    let template = match line {
        _ if !is_next => WINDOW_SHARED,
        Some(_) => NEXT_SHARED_AT,
        None => NEXT_SHARED,
    };
    let numbers = [
        u64::from(filter),
        u64::from(port),
        u64::from(class),
        at,
        line.unwrap_or(0) as u64,
    ];
    said.put_template(template, &numbers, &[]);
}

/// The window at fault: a class of a port that a filter needs for itself. From offset `at` in ns on, another class is open too.
#[derive(Clone, Copy)]
struct Window {
    filter: u32,
    port: u8,
    class: u8,
    at: u64,
}

/// Writes the explanation of a window that two classes share: port and offset, why the filter's frames reach the port, and remedies.
/// `put_check` calls it.
fn put_window<A: Allocator + Copy>(
    said: &mut LintText,
    text: &[u8],
    plan: &Plan<A>,
    filter: &FilterPlan,
    window: Window,
) {
    let Window {
        filter: number,
        port,
        class,
        at,
    } = window;
    let numbers = [u64::from(number), u64::from(port), u64::from(class), at];
    let state = shared_state_of_port(plan, port, class, at);
    match state {
        Some((state, is_next)) => {
            put_shared_window(said, text, plan, window, is_next);
            put_open_classes(said, state);
            said.put(".\n");
        }
        None => said.put_template(NO_WINDOW, &numbers, &[]),
    }
    put_route(said, plan, number, filter, port);
    let is_other = put_other_way(said, plan, filter, port);
    said.put_template(window_remedy(state.is_some(), is_other), &numbers, &[]);
}

/// Returns the remedy for a shared window: class `{2}` of port `{1}` gets its own window. `has_list` is true if the port has a list,
/// `is_second` if another remedy precedes.
///
/// `put_window` calls it.
fn window_remedy(has_list: bool, is_second: bool) -> &'static str {
    match (has_list, is_second) {
        (true, false) =>
            "Filter {0} needs class {2} to be open by itself. Move the other classes into another entry.\n",
        (true, true) =>
            "If port {1} has to send these frames, move the other classes into another entry: filter {0} needs class {2} to be open by itself.\n",
        (false, false) =>
            "Give port {1} `cycle` and `gates`, with an entry that opens only class {2}.\n",
        (false, true) =>
            "If port {1} has to send these frames, give it `cycle` and `gates`, with an entry that opens only class {2}.\n",
    }
}

/// Writes the explanation of a longest frame of filter `number` that never fits: its transmission time, the class's windows, and what to
/// change. `put_check` calls it.
fn put_unfit_length<A: Allocator + Copy>(
    said: &mut LintText,
    plan: &Plan<A>,
    number: u32,
    filter: &FilterPlan,
    port: u8,
    class: u8,
) {
    if let (Some(there), true) = (plan.port(port), class < 8) {
        put_too_long(said, there, number, filter.max_sdu.unwrap_or(0), class);
        put_route(said, plan, number, filter, port);
        put_remedy(said, there, class);
    }
}

/// Writes the transmission time of filter `number`'s longest frame, which has `sdu` SDU octets, and the windows of class `class`.
/// `put_unfit_length` calls it.
fn put_too_long<A: Allocator + Copy>(
    said: &mut LintText,
    port: &PortPlan<A>,
    number: u32,
    sdu: u32,
    class: u8,
)
    requires { class < 8 }
{
    let length = sdu.saturating_add(16).min(LONGEST_FRAME);
    let numbers = [
        u64::from(number),
        u64::from(length),
        u64::from(sdu),
        u64::from(LONGEST_FRAME),
        u64::from(port.number),
        occupation(length, port.speed),
        u64::from(class),
    ];
    said.put_template(TOO_LONG, &numbers, &[]);
    put_open_windows(said, port, class);
    said.put(".\n");
}

/// Writes what to change if a filter's longest frame doesn't fit the windows of a class: open, lengthen or shorten. `put_unfit_length`
/// calls it.
fn put_remedy<A: Allocator + Copy>(said: &mut LintText, port: &PortPlan<A>, class: u8)
    requires { class < 8 }
{
    let longest = longest_frame_of_class(port, class).unwrap_or(0);
    let template = match class_run(port, class) {
        Run::Never => "Open class {0} in an entry of `gates`.\n",
        _ if longest > 16 => "Lengthen a window of class {0}, or set `max_sdu` to at most {1}.\n",
        _ => "Lengthen a window of class {0}.\n",
    };
    let most = u64::from(longest.saturating_sub(16));
    said.put_template(template, &[u64::from(class), most], &[]);
}
