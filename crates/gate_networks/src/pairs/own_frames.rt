//! Finds the frames that a bridge sends over its link and that a hop takes although they don't belong to the stream.
use crate::pairs::sample_frames::{FRAMES, SentFrame, frame_number};
use crate::runs::find_view;
use net_model::StreamHop;
use net_run::BridgeResult;
use std::alloc::Global;

/// Whether each frame, by its number, belongs to a hop of the stream.
pub type OwnFrames = [bool; FRAMES];

/// Marks the frames of a filter.
fn mark_own_frames(own: &mut OwnFrames, ran: &BridgeResult<Global>, filter: u32) {
    let Some(view) = find_view(ran, filter) else {
        return;
    };
    for stored in &view.origins {
        let origin = stored.origin();
        if let Some(place) = own.get_mut(frame_number(origin.at) as usize) {
            *place = true;
        }
    }
}

/// Returns which frames belong to hops of the stream at `bridge`.
pub fn own_frames(ran: &BridgeResult<Global>, bridge: u16, hops: &[StreamHop]) -> OwnFrames {
    let mut own = [false; FRAMES];
    for hop in hops {
        if hop.bridge == bridge {
            mark_own_frames(&mut own, ran, hop.filter);
        }
    }
    own
}

/// Whether frame `number` belongs to none of the stream's filters.
pub fn is_foreign(own: &OwnFrames, number: u32) -> bool {
    !own.get(number as usize).copied().unwrap_or(false)
}

/// Returns the frame whose transmission ended at `moment`, in ns.
fn find_sent_frame(sent: &[SentFrame], moment: u64) -> Option<SentFrame> {
    for left in sent {
        if left.done == moment {
            return Some(*left);
        }
    }
    None
}

/// Whether the frame whose transmission ended at `moment` is foreign, or no frame ended then.
fn is_foreign_if_sent(sent: &[SentFrame], moment: u64, own: &OwnFrames) -> bool {
    match find_sent_frame(sent, moment) {
        Some(left) => is_foreign(own, left.number),
        None => true,
    }
}

/// Returns the number of foreign frames that arrived at `port` over the link and that the hop's filter took.
pub fn count_foreign_taken(
    hop: &BridgeResult<Global>,
    port: u8,
    filter: u32,
    sent: &[SentFrame],
    own: &OwnFrames,
) -> u64 {
    let Some(view) = find_view(hop, filter) else {
        return 0;
    };
    let mut count = 0u64;
    for stored in &view.origins {
        let origin = stored.origin();
        if origin.port == port && is_foreign_if_sent(sent, origin.at, own) {
            count = count.saturating_add(1);
        }
    }
    count
}
