//! Explanations of an accepted network's streams: why frames may be refused, times at each hop, and changes by which late streams meet
//! their deadlines.
ghost use Rattle.std.specs.Prelude.{◌≤◌, All, length};
ghost use Rattle.std.specs.Option.{ForSome};
ghost use Rattle.net_file.specs.Rules.{IsTalker};
ghost use Rattle.net_latency.specs.Bounds.{HasValidPort};

use crate::deadline_search::find_changes;
use crate::hop_lines::put_stream_times;
use crate::late_streams::put_changes;
use crate::network::{check_network_file, read_network, read_plans};
use crate::refusable_streams::put_refusable_streams;
use app_files::CommandFiles;
use bridge_text::TextBuilder;
use net_file::NetworkFile;
use net_latency::all_queue_bounds;
use net_model::Network;
use std::alloc::Global;
use std::rt::Files;

/// Explains the streams of an accepted network for `net check --explain` (`check_network` of `app_networks`). Reads the network's files
/// again. Returns `None` if this fails or memory runs out. `stream_explanations` of `app_networks` calls it.
pub fn explain_streams<H: AllocGlobal + Files>(rt: &H, path: &str) -> Option<String> {
    let alloc = rt.alloc();
    let mut files = CommandFiles::new(rt);
    let Ok(file) = read_network(alloc, &mut files, path) else {
        return None;
    };
    let Ok(plans) = read_plans(alloc, &mut files, path, file.bridges()) else {
        return None;
    };
    let Ok(network) = check_network_file(alloc, alloc, &file, plans) else {
        return None;
    };
    let said = explain_network_streams(alloc, &file, &network);
    drop(network);
    said
}

/// Explains the streams of an accepted network: refusable streams, times at each hop, then changes for late streams. Returns `None` if
/// memory runs out. `explain_streams` calls it.
fn explain_network_streams(
    alloc: Global,
    file: &NetworkFile<Global>,
    network: &Network<Global>,
) -> Option<String> {
    let bounds = all_queue_bounds(alloc, network.plans()).ok()?;
    let mut said = TextBuilder::new(alloc);
    put_refusable_streams(alloc, &mut said, file, network, &bounds, file.streams());
    if put_stream_times(alloc, &mut said, file, network, &bounds, file.streams()) {
        let changes = find_changes(alloc, network, &bounds, file.streams());
        put_changes(&mut said, file, network, &changes);
    }
    said.finish().ok()
}
