//! Changes of gate control lists and talkers by which late streams meet their deadlines. `deadline_search` finds the changes, and
//! `late_streams` prints them for `--explain`.
use crate::hop_times::{HopTimes, ListShift};
use bridge_bounds::Phases;
use net_file::Talker;

/// New phases of a stream's talker, which an explanation proposes. `put_talkers` prints them.
#[derive(Clone, Copy)]
pub(crate) struct SendShift {
    /// Index of the stream, from 0.
    pub stream: usize,
    /// Earliest and latest arrival at the first hop, in ns from the start of a period.
    pub phases: Phases,
}

/// Proposed changes: at most one list shift for each port, and at most one talker's phases for each stream. `find_changes` collects them,
/// and `put_changes` prints them.
#[derive(Drop)]
pub(crate) struct Changes {
    /// Shifts of ports' lists.
    pub shifts: Vec<ListShift>,
    /// New phases of talkers.
    pub sends: Vec<SendShift>,
}

/// Returns the phases of a stream's talker after the changes. They are the new phases in `sends`, or the talker's own if `sends` has none
/// for it. `can_meet`, `changed_times`, `relieve_talker` and `put_talker` call it.
pub(crate) fn changed_phases(sends: &[SendShift], stream: usize, talker: &Talker) -> Phases {
    let mut phases = Phases {
        from: talker.from,
        to: talker.to,
    };
    for send in sends {
        if send.stream == stream {
            phases = send.phases;
        }
    }
    phases
}

/// Returns the index in `sends` of the item for stream `stream`, or the length of `sends` if it has no such item. `put_phases` then
/// replaces the item or appends one.
fn index_of_stream(sends: &[SendShift], stream: usize) -> usize {
    let mut index = 0usize;
    for send in sends {
        if send.stream == stream {
            return index;
        }
        index = index.saturating_add(1);
    }
    index
}

/// Returns the index in `shifts` of the item for port `port` of bridge `bridge`, or the length of `shifts` if it has no such item.
/// `put_shift` then replaces the item or appends one.
fn index_of_port(shifts: &[ListShift], bridge: u16, port: u8) -> usize {
    let mut index = 0usize;
    for shift in shifts {
        if shift.bridge == bridge && shift.port == port {
            return index;
        }
        index = index.saturating_add(1);
    }
    index
}

/// Sets the phases of the talker of stream `stream` in `changes`: replaces the stream's item or appends one. Returns `None` if memory runs
/// out. `relieve_talker` calls it.
pub(crate) fn put_phases(changes: &mut Changes, stream: usize, phases: Phases) -> Option<()> {
    let index = index_of_stream(&changes.sends, stream);
    let send = SendShift { stream, phases };
    match changes.sends.get_mut(index) {
        Some(earlier) => {
            *earlier = send;
            Some(())
        }
        None => changes.sends.push(send).ok(),
    }
}

/// Sets the shift of the list at the hop's port in `changes` to `earlier` ns: replaces the port's item or appends one.
///
/// `pass` is the pass in which a late stream uses the port, or `PASSES`.
///
/// Returns `None` if memory runs out. `relieve_list` and `keep_ports` call it.
pub(crate) fn put_shift(
    changes: &mut Changes,
    hop: &HopTimes,
    earlier: u64,
    pass: u32,
) -> Option<()> {
    let index = index_of_port(&changes.shifts, hop.hop.bridge, hop.port);
    let shift = ListShift {
        bridge: hop.hop.bridge,
        port: hop.port,
        earlier,
        pass,
    };
    match changes.shifts.get_mut(index) {
        Some(before) => {
            *before = shift;
            Some(())
        }
        None => changes.shifts.push(shift).ok(),
    }
}
