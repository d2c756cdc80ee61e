//! Lines of `net check --explain` with changes by which late streams meet their deadlines.
use crate::changes::{Changes, SendShift, changed_phases};
use crate::deadline_search::port_list;
use crate::hop_times::{ListShift, shift_of_port};
use bridge_check::Accepted;
use bridge_config::PortPlan;
use bridge_cycle::{CyclicList, Timeline};
use bridge_text::TextBuilder;
use net_file::{BridgeRow, NetworkFile, StreamRow};
use net_model::Network;
use std::alloc::Global;

/// Appends the changes that `find_changes` returned, after a heading. For `None`, appends that no changes were found, and a remedy.
/// `explain_network_streams` calls it.
pub(crate) fn put_changes(
    said: &mut TextBuilder<Global>,
    file: &NetworkFile<Global>,
    network: &Network<Global>,
    changes: &Option<Changes>,
) {
    let Some(changes) = changes else {
        return said.put(
            "No changes of `base`, `from` and `to` were found that meet these deadlines together. Give late streams more windows in a cycle, or raise deadlines.\n",
        );
    };
    said.put(
        "These changes together meet all deadlines above, except of streams that are `refusable` or can't meet theirs:\n",
    );
    put_lists(said, file.bridges(), network.plans(), &changes.shifts);
    put_talkers(said, file.streams(), &changes.sends);
}

/// Appends a line for each shifted list, ordered by bridge and port. `put_changes` calls it.
fn put_lists(
    said: &mut TextBuilder<Global>,
    bridges: &[BridgeRow<Global>],
    plans: &[Accepted<Global>],
    shifts: &[ListShift],
) {
    let mut bridge: u16 = 0;
    for row in bridges {
        if let Some(accepted) = plans.get(bridge as usize) {
            put_lists_of_bridge(said, row, bridge, accepted.plan().ports(), shifts);
        }
        bridge = bridge.saturating_add(1);
    }
}

/// Appends a line for each shifted list of the bridge of `row`, which has index `bridge`. `put_lists` calls it.
fn put_lists_of_bridge(
    said: &mut TextBuilder<Global>,
    row: &BridgeRow<Global>,
    bridge: u16,
    ports: &[PortPlan<Global>],
    shifts: &[ListShift],
) {
    for port in ports {
        let earlier = shift_of_port(shifts, bridge, port.number);
        if earlier > 0 {
            if let Some(list) = port_list(port) {
                put_list_shift(said, row, port.number, list, earlier);
            }
        }
    }
}

/// Appends the line that proposes to let `list` begin `earlier` ns before its present start. It names the plan, the port, and the new base
/// time in ns, below the cycle time. `put_lists_of_bridge` calls it.
fn put_list_shift(
    said: &mut TextBuilder<Global>,
    row: &BridgeRow<Global>,
    port: u8,
    list: &CyclicList<u8, Global>,
    earlier: u64,
) {
    let cycle = list.cycle().max(1);
    let shift = cycle.saturating_sub(earlier);
    let base = (list.base() % cycle).saturating_add(shift) % cycle;
    said.put_template(
        "{a}, port {0}: `base = {1}` (list {2} ns earlier)\n",
        &[u64::from(port), base, earlier],
        &[row.plan()],
    );
}

/// Appends a line for each talker that has new phases. `put_changes` calls it.
fn put_talkers(said: &mut TextBuilder<Global>, streams: &[StreamRow<Global>], sends: &[SendShift]) {
    let mut index = 0usize;
    for stream in streams {
        put_talker(said, stream, index, sends);
        index = index.saturating_add(1);
    }
}

/// Appends the new phases of the talker of the stream with index `index`, and by how many ns it sends later. Appends nothing if its phases
/// stay. `put_talkers` calls it.
fn put_talker(
    said: &mut TextBuilder<Global>,
    stream: &StreamRow<Global>,
    index: usize,
    sends: &[SendShift],
) {
    let Some(talker) = stream.talker() else {
        return;
    };
    let phases = changed_phases(sends, index, &talker);
    if phases.from == talker.from {
        return;
    }
    let later = match phases.from.checked_sub(talker.from) {
        Some(later) => later,
        None => phases
            .from
            .saturating_add(talker.period)
            .saturating_sub(talker.from),
    };
    said.put_template(
        "stream {a}: `from = {0}` and `to = {1}` (talker {2} ns later)\n",
        &[phases.from, phases.to, later],
        &[stream.name()],
    );
}
