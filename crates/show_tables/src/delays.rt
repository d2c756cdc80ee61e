//! The table of `run --delays`: the delays of each filter's frames at each egress port, and its losses.
ghost use Rattle.std.specs.Prelude.{IfOk, OnOk, List, ℕ, string_bytes};
ghost use Rattle.bridge_text.specs.Growth.{HasGrown};
ghost use Rattle.bridge_groups.specs.GroupRows.{AreSharedQueues};
ghost use Rattle.show_tables.specs.DelayTable as spec;

use crate::delay_figures::{port_delays, put_figures};
use crate::frame_rows::put_field;
use crate::group_bounds::filter_bounds;
use crate::losses::{count_full_on_port, count_never_on_port, put_losses};
use crate::port_bounds::bound_by_port;
use bridge_check::Accepted;
use bridge_groups::{SharedQueue, plan_shared_queues};
use bridge_limits::NoMemory;
use bridge_report::{count_full, count_never_fitting};
use bridge_semantics::{Outcome, View};
use bridge_text::TextBuilder;
use std::alloc::Allocator;

/// Header line of the table: filter, egress port, departures and their delays, delay bound, refused frames by reason, and dropped copies by
/// reason. The mean is rounded down. Times are in ns.
pub const DELAYS_HEADER: &str =
    "filter,port,frames,least,mean,greatest,jitter,bound,blocked,oversize,gate-closed,shut-rx,shut-octets,octets-exceeded,red,yellow-dropped,full,never\n";

/// Writes the field of a delay bound in ns; an empty field if the port has none. `put_port_row` calls it.
fn put_bound<A: Allocator>(text: &mut TextBuilder<A>, bound: Option<u64>)
    ensures { HasGrown text.old (spec.bound_field bound) text.new }
{
    match bound {
        Some(bound) => put_field(text, bound),
        None => text.put(","),
    }
}

/// Writes the row of a filter at a port that sent copies of its frames: number and figures of `delays`, the bound in ns, losses.
/// `put_row_if_any` calls it.
fn put_port_row<A: Allocator>(
    text: &mut TextBuilder<A>,
    filter: u32,
    view: &View<A>,
    port: u8,
    bound: Option<u64>,
    delays: &[u64],
)
    ensures { HasGrown text.old (spec.port_row filter view.now port bound delays.now) text.new }
{
    put_field(text, u64::from(filter));
    put_field(text, u64::from(port));
    put_field(text, delays.len() as u64);
    put_figures(text, delays);
    put_bound(text, bound);
    let drops = &view.drops;
    put_losses(
        text,
        &view.verdicts,
        count_full_on_port(port, drops),
        count_never_on_port(port, drops),
    );
}

/// Writes the row of a filter whose frames left by no port: an empty port, 0 frames, no delays, and its losses. `put_filter_rows` calls it.
fn put_unsent_row<A: Allocator>(text: &mut TextBuilder<A>, filter: u32, view: &View<A>)
    ensures { HasGrown text.old (spec.unsent_row filter view.now) text.new }
{
    put_field(text, u64::from(filter));
    text.put(",0,,,,,,");
    let drops = &view.drops;
    put_losses(
        text,
        &view.verdicts,
        count_full(drops),
        count_never_fitting(drops),
    );
}

/// Writes the row of a filter at a port, if copies of its frames left by port `port` (`delays` has items). `bound` is the delay bound in
/// ns. `put_row_of_port` calls it.
fn put_row_if_any<A: Allocator>(
    text: &mut TextBuilder<A>,
    filter: u32,
    view: &View<A>,
    port: u8,
    bound: Option<u64>,
    delays: &[u64],
)
    ensures { HasGrown text.old (spec.row_if_any filter view.now port bound delays.now) text.new }
{
    if !delays.is_empty() {
        put_port_row(text, filter, view, port, bound, delays);
    }
}

/// Writes the row of a filter at port `port`, if copies of its frames left there. `bounds` has the delay bounds of all ports.
/// `put_port_rows` calls it.
fn put_row_of_port<A: Allocator + Copy>(
    alloc: A,
    text: &mut TextBuilder<A>,
    filter: u32,
    view: &View<A>,
    bounds: &[Option<u64>],
    port: u8,
)
    ensures { HasGrown text.old (spec.row_of_port filter view.now bounds.now port) text.new }
{
    match port_delays(alloc, &view.origins, port, &view.departures) {
        Ok(delays) => put_row_if_any(
            text,
            filter,
            view,
            port,
            bound_by_port(bounds, port),
            &delays,
        ),
        Err(_) => text.discard(),
    }
}

/// Writes the rows of a filter by rising port, for ports by which copies of its frames left. `bounds` has the delay bounds of all ports.
/// `put_filter_rows` calls it.
fn put_port_rows<A: Allocator + Copy>(
    alloc: A,
    text: &mut TextBuilder<A>,
    filter: u32,
    view: &View<A>,
    bounds: &[Option<u64>],
)
    ensures { HasGrown text.old (spec.port_rows filter view.now bounds.now) text.new }
{
    for port in 1..17u8 {
        put_row_of_port(alloc, text, filter, view, bounds, port);
    }
}

/// Writes the rows of a filter by rising port, with the ports' `bounds`. If no copy left, writes one row without a port. A filter without
/// frames has no row. `put_filter_with_bounds` calls it.
fn put_filter_rows<A: Allocator + Copy>(
    alloc: A,
    text: &mut TextBuilder<A>,
    filter: u32,
    view: &View<A>,
    bounds: &[Option<u64>],
)
    ensures { HasGrown text.old (spec.rows_or_unsent filter view.now (spec.port_rows filter view.now bounds.now))
        text.new }
{
    let before = text.len();
    put_port_rows(alloc, text, filter, view, bounds);
    if text.len() == before && !view.verdicts.is_empty() {
        put_unsent_row(text, filter, view);
    }
}

/// Writes the rows of a filter to the table of delays. Computes the delay bounds of its ports first; `queues` has the plan's shared queues.
/// `put_filters` calls it.
fn put_filter_with_bounds<A: Allocator + Copy>(
    alloc: A,
    accepted: &Accepted<A>,
    queues: &[SharedQueue],
    text: &mut TextBuilder<A>,
    filter: u32,
    view: &View<A>,
) -> Result<(), NoMemory>
    requires shared { AreSharedQueues accepted.now queues.now }
    ensures { OnOk result ((rows : List ℕ) × spec.AreFilterRows accepted.now filter view.now rows
        × HasGrown text.old rows text.new) }
{
    let bounds = filter_bounds(alloc, accepted, queues, filter)?;
    put_filter_rows(alloc, text, filter, view, &bounds);
    Ok(())
}

/// Writes the rows of `filters`, in list order. `queues` has the plan's shared queues, from which the bounds of groups come. `delay_table`
/// calls it.
fn put_filters<A: Allocator + Copy>(
    alloc: A,
    accepted: &Accepted<A>,
    queues: &[SharedQueue],
    text: &mut TextBuilder<A>,
    filters: &[(u32, View<A>)],
) -> Result<(), NoMemory>
    requires shared { AreSharedQueues accepted.now queues.now }
    ensures { OnOk result ((rows : List ℕ) × spec.AreFiltersRows accepted.now filters.now rows
        × HasGrown text.old rows text.new) }
{
    let mut left = filters;
    while let Some((first, rest)) = left.split_first() {
        put_filter_with_bounds(alloc, accepted, queues, text, first.0, &first.1)?;
        left = rest;
    }
    Ok(())
}

/// Returns the table of `run --delays` as CSV: a header line, then rows by filter and port. A filter with frames but without departures has
/// one row. `write_delay_table` of `app_commands` calls it.
pub fn delay_table<A: Allocator + Copy>(
    alloc: A,
    accepted: &Accepted<A>,
    outcome: &Outcome<A>,
) -> Result<String<A>, NoMemory>
    ensures { IfOk result (λ table. spec.IsDelayTable accepted.now outcome.now.filters.items (string_bytes table)) }
{
    let queues = plan_shared_queues(alloc, accepted)?;
    let mut text = TextBuilder::new(alloc);
    text.put(DELAYS_HEADER);
    put_filters(alloc, accepted, &queues, &mut text, &outcome.filters)?;
    text.finish()
}
