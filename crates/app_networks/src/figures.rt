//! Figures of streams for the table `streams.csv`: the bound and the worst delay that `net check` prints for each stream.
ghost use Rattle.std.specs.Prelude.{◌≡◌, ◌≤◌, All, IfOk, OnOk, length};
ghost use Rattle.std.specs.Option.{ForSome};
ghost use Rattle.net_file.specs.Model.{Stream};
ghost use Rattle.net_file.specs.Rules.{IsTalker};
ghost use Rattle.net_latency.specs.Bounds.{HasValidPort};
ghost use Rattle.net_latency.specs.Streams.{stream_hop_value};
ghost use Rattle.net_latency.specs.Talkers.{IsTalkerLatency};
ghost use Rattle.app_networks.specs.Figures as spec;
ghost use Rattle.app_networks.specs.Figures.{AreFigures};

use bridge_limits::NoMemory;
use net_file::{LinkRow, StreamRow};
use net_latency::{QueueBound, StreamLatency, stream_bound, talker_latency};
use net_model::Network;
use std::alloc::Global;

/// Bound and worst delay of a stream.
#[derive(Clone, Copy)]
pub(crate) struct StreamFigures {
    /// Delay bound in ns, whatever talkers send.
    pub(crate) bound: u128,
    /// Worst delay of the talker's frames in ns. `None` without a periodic talker, or if the delays are unknown.
    pub(crate) worst: Option<u128>,
}

/// Returns the worst delay in ns, or `None` if the delays are unknown. `figures_of_stream` calls it.
fn worst_if_known(course: Option<StreamLatency>) -> Option<u128>
    ensures { result ≡ spec.worst_if_known course }
{
    match course {
        None => None,
        Some(course) => Some(course.worst),
    }
}

/// Returns the figures of a stream with the delays `course`. `bounds` has the delay bounds of each bridge's queues. `stream_figures` calls
/// it.
fn figures_of_stream(
    bounds: &[Vec<QueueBound>],
    links: &[LinkRow],
    stream: &StreamRow<Global>,
    course: Option<StreamLatency>,
) -> StreamFigures
    requires some { 1 ≤ length stream.now.hops }
    requires few { length stream.now.hops ≤ 64 }
    ensures { result ≡ spec.figures_of_stream bounds.now links.now (stream.now, course) }
{
    StreamFigures {
        bound: stream_bound(bounds, links, stream.hops()),
        worst: worst_if_known(course),
    }
}

/// Returns the figures of each stream, in file order. `bounds` has the delay bounds of each bridge's queues. `write_results` calls it.
pub(crate) fn stream_figures(
    alloc: Global,
    network: &Network<Global>,
    bounds: &[Vec<QueueBound>],
    links: &[LinkRow],
    streams: &[StreamRow<Global>],
) -> Result<Vec<StreamFigures>, NoMemory>
    requires placed { All (λ v. All HasValidPort v.items) bounds.now }
    requires some { All (λ s. 1 ≤ length s.hops) streams.now }
    requires few { All (λ s. length s.hops ≤ 64) streams.now }
    requires talkers { All (λ s. ForSome s.talker IsTalker) streams.now }
    ensures many { IfOk result (λ rows. length rows.items ≡ length streams.now) }
    ensures figures { IfOk result (λ rows. AreFigures network.now.plans network.now.links bounds.now links.now
        streams.now rows.items) }
{
    let mut rows = Vec::new(alloc);
    for stream in streams {
        let Ok(course) = talker_latency(alloc, network.plans(), network.links(), bounds, stream)
        else {
            return Err(NoMemory);
        };
        let Ok(()) = rows.push(figures_of_stream(bounds, links, stream, course)) else {
            return Err(NoMemory);
        };
    }
    Ok(rows)
}
