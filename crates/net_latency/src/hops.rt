//! Conversion of a stream's hops from the form of network files to the form of `net_model`, for checks and delays.
ghost use Rattle.std.specs.Prelude.{◌≡◌, map, IfOk};
ghost use Rattle.net_latency.specs.Streams.{stream_hop_value};

use bridge_limits::NoMemory;
use net_model::StreamHop;
use std::alloc::Allocator;

/// Returns the hops of a network file's stream as hops of `net_model`: pairs become values of `StreamHop`. Checks and computations of
/// delays need this form. `talker_latency`, `is_searched` of `net_check` and 5 more call it.
pub fn stream_hops<A: Allocator + Copy>(
    alloc: A,
    rows: &[(u16, u32)],
) -> Result<Vec<StreamHop, A>, NoMemory>
    ensures { IfOk result (λ hops. hops.items ≡ map stream_hop_value rows.now) }
{
    let mut hops = Vec::new(alloc);
    for row in rows {
        let hop = StreamHop {
            bridge: row.0,
            filter: row.1,
        };
        let Ok(()) = hops.push(hop) else {
            return Err(NoMemory);
        };
    }
    Ok(hops)
}
