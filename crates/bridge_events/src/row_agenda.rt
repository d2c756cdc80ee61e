//! Agenda of the ports' next transmissions as a list of 16 times.
ghost use Rattle.std.specs.Prelude.{◌<◌, length};
ghost use Rattle.bridge_events.specs.Least.{IsLeast, row_time};

use crate::agenda::{Agenda, earlier_entry, entry};

/// Times of the ports 1 to 16 in a list. Each search for the least time reads the whole list.
#[derive(Debug, Drop)]
pub struct RowAgenda {
    /// Time of each port, from port 1.
    row: [Option<u64>; 16],
}

impl Agenda for RowAgenda {
    ghost held = { λ a. row_time a.row };

    fn empty() -> Self {
        RowAgenda { row: [None; 16] }
    }

    fn set(&mut self, port: u8, t: u64) {
        self.row[port as usize - 1] = Some(t);
    }

    fn clear(&mut self, port: u8) {
        self.row[port as usize - 1] = None;
    }

    fn least(&self) -> Option<(u8, u64)> {
        least_entry(&self.row)
    }
}

/// Returns the port with the least time, and this time; `None` if no port has a time. `RowAgenda::least` calls it.
fn least_entry(row: &[Option<u64>]) -> Option<(u8, u64)>
    requires { length row.now < 256 }
    ensures { IsLeast (row_time row.now) result }
{
    let mut best: Option<(u8, u64)> = None;
    for place in 0..row.len() {
        best = earlier_entry(best, entry(place as u8 + 1, row[place]));
    }
    best
}
