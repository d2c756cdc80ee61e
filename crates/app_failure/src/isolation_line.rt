//! Writes the fault line of a plan that doesn't isolate a protected filter.
ghost use Rattle.bridge_text.specs.Growth.{HasGrown};
ghost use Rattle.app_failure.specs.CheckLines.{filter_refused, check_fault_line, queue_refused, queue_shared, window_shared};

use bridge_check::CheckFault;
use bridge_text::TextBuilder;
use std::alloc::Allocator;

/// Writes the fault line of a plan that doesn't isolate a protected filter: the failed test, the filter, and the queue if there is one.
/// `put_fault` calls it.
pub fn put_check_fault<A: Allocator>(text: &mut TextBuilder<A>, fault: &CheckFault)
    ensures { HasGrown text.old (check_fault_line fault.now) text.new }
{
    match *fault {
        CheckFault::ProtectedWildcard { filter } => put_filter_fault(
            text,
            "ProtectedWildcard",
            filter,
        ),
        CheckFault::NoMaxSdu { filter } => put_filter_fault(text, "NoMaxSdu", filter),
        CheckFault::GateShared { filter } => put_filter_fault(text, "GateShared", filter),
        CheckFault::MeterShared { filter } => put_filter_fault(text, "MeterShared", filter),
        CheckFault::NoCatchAll { filter } => put_filter_fault(text, "NoCatchAll", filter),
        CheckFault::QueueShared {
            filter,
            port,
            class,
            other,
        } => put_shared_queue(text, filter, port, class, other),
        CheckFault::WindowShared {
            filter,
            port,
            class,
            at,
        } => put_shared_window(text, filter, port, class, at),
        CheckFault::MaxSduNeverFits {
            filter,
            port,
            class,
        } => put_queue_fault(text, "MaxSduNeverFits", filter, port, class),
        CheckFault::NoMemory => text.put("no memory"),
    }
}

/// Writes the fault line `plan refused: NAME filter NUMBER`, for tests that concern no queue. `put_check_fault` calls it.
fn put_filter_fault<A: Allocator>(text: &mut TextBuilder<A>, name: &str, filter: u32)
    ensures { HasGrown text.old (filter_refused name.now filter) text.new }
{
    text.put("plan refused: ");
    text.put(name);
    text.put(" filter ");
    text.put_number(u64::from(filter));
}

/// Writes the fault line `plan refused: NAME filter NUMBER ..` with port and class of a reachable queue. `put_check_fault` calls it.
fn put_queue_fault<A: Allocator>(
    text: &mut TextBuilder<A>,
    name: &str,
    filter: u32,
    port: u8,
    class: u8,
)
    ensures { HasGrown text.old (queue_refused name.now filter port class) text.new }
{
    text.put("plan refused: ");
    text.put(name);
    text.put(" filter ");
    text.put_number(u64::from(filter));
    text.put(" port ");
    text.put_number(u64::from(port));
    text.put(" class ");
    text.put_number(u64::from(class));
}

/// Writes the fault line `QueueShared`: the filter, its queue, and the other filter that can reach the queue. `put_check_fault` calls it.
fn put_shared_queue<A: Allocator>(
    text: &mut TextBuilder<A>,
    filter: u32,
    port: u8,
    class: u8,
    other: u32,
)
    ensures { HasGrown text.old (queue_shared filter port class other) text.new }
{
    text.put("plan refused: QueueShared filter ");
    text.put_number(u64::from(filter));
    text.put(" port ");
    text.put_number(u64::from(port));
    text.put(" class ");
    text.put_number(u64::from(class));
    text.put(" other ");
    text.put_number(u64::from(other));
}

/// Writes the fault line `WindowShared`: the filter, its queue, and the offset `at` in ns from which another class is open too.
/// `put_check_fault` calls it.
fn put_shared_window<A: Allocator>(
    text: &mut TextBuilder<A>,
    filter: u32,
    port: u8,
    class: u8,
    at: u64,
)
    ensures { HasGrown text.old (window_shared filter port class at) text.new }
{
    text.put("plan refused: WindowShared filter ");
    text.put_number(u64::from(filter));
    text.put(" port ");
    text.put_number(u64::from(port));
    text.put(" class ");
    text.put_number(u64::from(class));
    text.put(" at ");
    text.put_number(at);
}
