//! Faults of a traffic file: of its text, or found by comparison with its plan.
ghost use Rattle.std.specs.Prelude.{◌≡◌, IfOk, string_bytes};
ghost use Rattle.net_file.specs.TrafficFaults.{traffic_line};

use crate::fault::NetFault;
use crate::fault_lines::refusal_line;
use bridge_limits::NoMemory;
use std::alloc::Allocator;
use thiserror::Error;

/// Why a traffic file is refused for a plan: a fault of its text, or found by comparison with the plan. Rows are counted from 1.
#[derive(Clone, Copy, Debug, Error)]
pub enum TrafficFault {
    /// Fault of the text, or of the comparison with the plan. The latter is `Unresolved` if the filter is missing, `OutOfRange` if the
    /// period isn't a multiple of a cycle time.
    #[error("the text isn't traffic")]
    Text(NetFault),
    /// The row with this number, from 1, has periodic traffic, and its filter isn't protected.
    #[error("a filter that isn't protected")]
    NotProtected(u32),
    /// The row with this number, from 1, has a limit of its frames, and its filter belongs to no group.
    #[error("a filter that belongs to no group")]
    NotGrouped(u32),
}

/// Returns the fault line without line feed, for example `traffic refused: NotProtected traffic 1` or `no memory`. The failure of `bounds
/// --traffic` contains it.
pub fn traffic_fault_line<A: Allocator + Copy>(
    alloc: A,
    fault: &TrafficFault,
) -> Result<String<A>, NoMemory>
    ensures { IfOk result (λ line. string_bytes line ≡ traffic_line fault.now) }
{
    match fault {
        TrafficFault::Text(fault) => refusal_line(alloc, "traffic", fault),
        TrafficFault::NotProtected(index) => {
            Ok(format!(in alloc; "traffic refused: NotProtected traffic {index}")?)
        }
        TrafficFault::NotGrouped(index) => {
            Ok(format!(in alloc; "traffic refused: NotGrouped traffic {index}")?)
        }
    }
}
