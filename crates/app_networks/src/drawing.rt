//! The picture of the network of a file, for the command `picture`.
ghost use Rattle.std.specs.Prelude.{◌≤◌, IfOk, IfErr, length, string_bytes};
ghost use Rattle.net_check.specs.Networks.{EndsNetwork};

use app_failure::{Failure, NoMemory};
use app_files::ReadFiles;
use bridge_check::Accepted;
use net_check::{check_network_file, read_network, read_plans};
use net_file::NetworkFile;
use net_latency::{all_queue_bounds, stream_bounds};
use net_report::draw_network;
use std::alloc::Global;

/// Returns the picture of a network, with the delay bounds of its streams. `network_picture` calls it.
fn draw_with_bounds(
    alloc: Global,
    file: &NetworkFile<Global>,
    plans: &[Accepted<Global>],
) -> Result<String, NoMemory>
    ensures { IfOk result (λ text. length (string_bytes text) ≤ 2000000) }
{
    let bounds = all_queue_bounds(alloc, plans)?;
    let rows = stream_bounds(alloc, &bounds, file.links(), file.streams())?;
    draw_network(alloc, file.bridges(), file.links(), file.streams(), &rows)
}

/// Returns the picture of an accepted network as SVG text of at most 2,000,000 octets: bridges, links, and streams with their delay bounds.
/// Its failures are the failures of `network_job`. `draw_network` calls it.
pub fn network_picture<F: ReadFiles>(
    alloc: Global,
    files: &mut F,
    path: &str,
) -> Result<String, Failure>
    ensures ok { IfOk result (λ picture. length (string_bytes picture) ≤ 2000000) }
    ensures err { IfErr result (EndsNetwork Global path.now) }
{
    let file = read_network(alloc, files, path)?;
    let plans = read_plans(alloc, files, path, file.bridges())?;
    match check_network_file(alloc, alloc, &file, plans) {
        Ok(network) => {
            let text = draw_with_bounds(alloc, &file, network.plans());
            drop(network);
            match text {
                Ok(text) => Ok(text),
                Err(_) => Err(Failure::NoMemory),
            }
        }
        Err(fault) => Err(fault),
    }
}
