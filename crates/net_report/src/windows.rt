//! Windows of a queue: the times during which gate control lists open its class. Pictures of runs show them.
ghost use Rattle.std.specs.Prelude.{◌≡◌, ◌≤◌, ◌<◌};

use bridge_cycle::{END_OF_TURNS, Egress, MAX_ENTRIES, Timeline, is_open};
use bridge_text::Span;
use std::alloc::Allocator;

/// Largest number of intervals that a search examines until a class opens or closes. They suffice for the old and the new list of a
/// schedule change.
const MAX_TURNS: usize = 8 * MAX_ENTRIES;

/// Returns whether the gate control lists open a class at time `at` in ns. `put_windows`, `count_windows` and `next_gate_change` call it.
pub(crate) fn is_class_open<A: Allocator + Copy>(list: &Egress<A>, class: u8, at: u64) -> bool
    requires class { class < 8 }
    requires soon { at < END_OF_TURNS }
{
    is_open(list.turn(at).state, class)
}

/// Returns the cycle time in ns of the list in force at time `at`, and the time at which this list ends. `count_windows` and
/// `next_gate_change` call it.
fn active_list<A: Allocator + Copy>(list: &Egress<A>, at: u64) -> (u64, u64)
    ensures cycle { 1 ≤ result.0 }
    ensures until { result.1 ≤ END_OF_TURNS }
{
    match list {
        Egress::Cyclic(list) => (list.cycle().max(1), END_OF_TURNS),
        Egress::Joined(joined) => {
            let (old, new) = joined.lists();
            if at < joined.change_time() {
                (old.cycle().max(1), joined.change_time().min(END_OF_TURNS))
            } else {
                (new.cycle().max(1), END_OF_TURNS)
            }
        }
    }
}

/// Returns the number of times that a class opens after time `after` and up to time `to`, both in ns. The time between them must be at most
/// one cycle of a list. The function examines at most `MAX_TURNS` intervals, so for a longer time it can count too few.
///
/// `count_list_openings` and `count_windows` call it.
fn count_openings<A: Allocator + Copy>(list: &Egress<A>, class: u8, after: u64, to: u64) -> u64
    requires class { class < 8 }
    requires soon { to < END_OF_TURNS }
{
    if after >= to {
        return 0;
    }
    let first = list.turn(after);
    let (mut was, mut at) = (is_open(first.state, class), first.end);
    let mut count = 0u64;
    for _ in 0..MAX_TURNS {
        if at > to {
            break;
        }
        let turn = list.turn(at);
        let is = is_open(turn.state, class);
        if is && !was {
            count = count.saturating_add(1);
        }
        was = is;
        at = turn.end;
    }
    count
}

/// Returns the number of times that a class opens after time `after` and up to time `to` in ns, while one list is in force. The function
/// counts one cycle and multiplies. `count_windows` calls it.
fn count_list_openings<A: Allocator + Copy>(
    list: &Egress<A>,
    class: u8,
    cycle: u64,
    after: u64,
    to: u64,
) -> u64
    requires class { class < 8 }
    requires cycle { 1 ≤ cycle }
    requires soon { to < END_OF_TURNS }
{
    let whole = to.saturating_sub(after) / cycle;
    let rest = after.saturating_add(whole.saturating_mul(cycle));
    let each = match whole {
        0 => 0,
        _ => count_openings(list, class, after, after.saturating_add(cycle).min(to)),
    };
    whole
        .saturating_mul(each)
        .saturating_add(count_openings(list, class, rest, to))
}

/// Returns the number of windows of a class in a time span; a window that begins before the span counts. The cost doesn't depend on the
/// span's length. `put_windows` calls it.
pub(crate) fn count_windows<A: Allocator + Copy>(list: &Egress<A>, class: u8, span: Span) -> u64
    requires { class < 8 }
{
    let end = span.to.min(END_OF_TURNS);
    let mut at = span.from;
    if at >= end {
        return 0;
    }
    let mut count = u64::from(is_class_open(list, class, at));
    for _ in 0..2 {
        let (cycle, until) = active_list(list, at);
        let last = until.min(end).saturating_sub(1);
        count = count.saturating_add(count_list_openings(list, class, cycle, at, last));
        if until >= end {
            break;
        }
        count = count.saturating_add(count_openings(list, class, last, until));
        at = until;
    }
    count
}

/// Returns the first time in ns after `from` at which a class opens or closes, but at most `end`. If nothing changes for a cycle, continues
/// with the next list. `put_windows` calls it.
pub(crate) fn next_gate_change<A: Allocator + Copy>(
    list: &Egress<A>,
    class: u8,
    from: u64,
    end: u64,
) -> u64
    requires class { class < 8 }
    requires soon { end ≤ END_OF_TURNS }
    ensures { result ≤ end }
{
    if from >= end {
        return end;
    }
    let was = is_class_open(list, class, from);
    let (mut at, mut since) = (from, from);
    for _ in 0..MAX_TURNS {
        if at >= end {
            return end;
        }
        let turn = list.turn(at);
        if is_open(turn.state, class) != was {
            return at;
        }
        let (cycle, until) = active_list(list, at);
        at = if at.saturating_sub(since) > cycle {
            until
        } else {
            turn.end
        };
        if at >= until {
            since = until;
        }
    }
    end
}
