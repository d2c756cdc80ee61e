//! Counts the frames that the meters of several filters can pass together: the sum of one curve for each filter.
ghost use Rattle.std.specs.Prelude.{◌≡◌, ℕ, All, true, ◌↔◌, ◌<◌, ◌≤◌, length};
ghost use Rattle.bridge_groups.specs.LinearCurves.{IsCountCurve, count_at};

use crate::linear_curve::LinearCurve;

/// Longest span in ns that the search of `first_frames_time` examines, about 36 minutes.
const END_OF_COUNTS: u64 = 2_199_023_255_552;

/// Whether the curves `counts` together allow at least `frames` frames in `w` ns. `first_frames_time` calls it.
fn has_frames(counts: &[LinearCurve], w: u64, frames: u64) -> bool
    requires counts { All IsCountCurve counts.now }
    requires time { w ≤ END_OF_COUNTS }
    ensures { (result ≡ true) ↔ (frames ≤ count_at counts.now w) }
{
    let mut left = frames;
    for count in counts {
        let own = count.at(w);
        if own >= left {
            return true;
        }
        left -= own;
    }
    left == 0
}

/// Returns a length in ns: in each shorter span, the curves `counts` together allow fewer than `frames` frames. It is the greatest such
/// length, but at most `END_OF_COUNTS`. `shortest_span` calls it.
pub(crate) fn first_frames_time(counts: &[LinearCurve], frames: u64) -> u64
    requires counts { All IsCountCurve counts.now }
    ensures earlier { (w : ℕ) → w < result → count_at counts.now w < frames }
    ensures bounded { result ≤ END_OF_COUNTS }
{
    if has_frames(counts, 0, frames) {
        return 0;
    }
    let mut low = 0;
    let mut high = END_OF_COUNTS;
    while low + 1 < high {
        let middle = low + (high - low) / 2;
        if has_frames(counts, middle, frames) {
            high = middle;
        } else {
            low = middle;
        }
    }
    low + 1
}
