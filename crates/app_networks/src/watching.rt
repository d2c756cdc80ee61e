//! Shows the progress of a network run on one line of standard error.
use crate::refusing::bridge_name;
use app_commands::{Flags, LONG_INPUT, clear_line};
use net_file::BridgeRow;
use net_run::{BridgeInput, RoundObserver};
use std::alloc::Global;

/// Observer of a network run. It shows the current round and bridge on standard error. Shows nothing unless `is_wanted` is true.
#[derive(Drop)]
pub(crate) struct ProgressPrinter<'a, H> {
    pub(crate) rt: &'a H,
    pub(crate) bridges: &'a [BridgeRow<Global>],
    pub(crate) is_wanted: bool,
}

impl<H: Eprint> RoundObserver for ProgressPrinter<'_, H> {
    fn bridge_starts(&mut self, round: u32, bridge: usize) {
        if !self.is_wanted {
            return;
        }
        let number = round.saturating_add(1);
        let (index, count) = (bridge.saturating_add(1), self.bridges.len());
        let name = bridge_name(self.bridges, bridge);
        let _ = eprint!(self.rt; "\rround {number}, bridge {index} of {count}: {name}\x1b[K");
    }
}

impl<'a, H: Eprint> ProgressPrinter<'a, H> {
    /// Makes the observer of a run with these inputs. It shows lines if the user watches and the inputs are long. `run_network_folders`
    /// calls it.
    pub(crate) fn new(
        rt: &'a H,
        bridges: &'a [BridgeRow<Global>],
        incoming: &[BridgeInput<Global>],
        flags: Flags,
    ) -> ProgressPrinter<'a, H> {
        ProgressPrinter {
            rt,
            bridges,
            is_wanted: flags.is_watched && is_long_run(incoming),
        }
    }

    /// Removes the progress line from standard error, if the observer shows one. Lines that follow on standard error then begin at the
    /// left.
    pub(crate) fn clear(&self) {
        if self.is_wanted {
            clear_line(self.rt);
        }
    }
}

/// Returns the number of octets in all captures. `is_long_run` calls it.
fn capture_octets(captures: &[Vec<u8>]) -> u64 {
    let mut octets = 0u64;
    for capture in captures {
        octets = octets.saturating_add(capture.len() as u64);
    }
    octets
}

/// Returns whether a network's run may be long: its input captures have at least `LONG_INPUT` octets. `new` calls it.
fn is_long_run(incoming: &[BridgeInput<Global>]) -> bool {
    let mut octets = 0u64;
    for came in incoming {
        octets = octets.saturating_add(capture_octets(&came.captures));
    }
    octets >= LONG_INPUT
}
