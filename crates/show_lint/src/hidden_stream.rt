//! Finds streams that match no frame, because earlier streams match all their frames or their port gives another VLAN. A stream is an entry
//! of the plan.
ghost use Rattle.std.specs.Prelude.{◌≡◌, true};
ghost use Rattle.show_lint.specs.Streams as spec;

use crate::lint::push_warning;
use crate::warning::{HiddenStream, HiddenTogether, OtherVlan, Warning};
use bridge_config::Plan;
use bridge_ident::{Kind, StreamEntry, TagKind};
use std::alloc::{AllocError, Allocator};

/// Returns whether tag kind `one` accepts each frame that tag kind `other` accepts. `hides` calls it.
fn covers_tag(one: TagKind, other: TagKind) -> bool
    ensures { result ≡ spec.covers_tag one other }
{
    match (one, other) {
        (TagKind::All, _) => true,
        (TagKind::Tagged, TagKind::Tagged) => true,
        (TagKind::Priority, TagKind::Priority) => true,
        _ => false,
    }
}

/// Returns whether both kinds of stream identification compare the destination address, or both compare the source address. `hides` and
/// `is_place` call it.
fn is_same_kind(one: Kind, other: Kind) -> bool
    ensures { result ≡ spec.is_same_kind one other }
{
    match (one, other) {
        (Kind::Null, Kind::Null) => true,
        (Kind::Source, Kind::Source) => true,
        _ => false,
    }
}

/// Returns whether entry `one` matches each frame that `other` matches: equal port, VLAN and address, and a tag kind that covers the
/// other's. `first_hiding_stream` calls it.
#[tactic(auto, using(crate::proofs::Hiding::hides_frames))]
pub fn hides(one: &StreamEntry, other: &StreamEntry) -> bool
    ensures asks { result ≡ spec.hides one.now other.now }
    ensures frames { result ≡ true → spec.Hides one.now other.now }
{
    one.port == other.port
        && one.vid == other.vid
        && one.address == other.address
        && is_same_kind(one.kind, other.kind)
        && covers_tag(one.tag, other.tag)
}

/// Returns whether both entries have equal port, VLAN and address, and compare the same address of a frame. Their tags may differ. `covers`
/// and `first_covering_entry` call it.
fn is_place(one: &StreamEntry, other: &StreamEntry) -> bool
    ensures { result ≡ spec.is_place one.now other.now }
{
    one.port == other.port
        && one.vid == other.vid
        && one.address == other.address
        && is_same_kind(one.kind, other.kind)
}

/// Returns whether tag kind `tag` accepts frames whose tag names a VLAN (`named` true), or other frames (`named` false). `covers` and
/// `first_covering_entry` call it.
fn takes_named(tag: TagKind, named: bool) -> bool
    ensures { result ≡ spec.takes_named tag named }
{
    match tag {
        TagKind::All => true,
        TagKind::Tagged => named,
        TagKind::Priority => !named,
    }
}

/// Returns whether an earlier entry matches each frame of `other` that names a VLAN (`named` true), or each other frame (`named` false).
/// `hide_together` calls it.
fn covers(earlier: &[StreamEntry], other: &StreamEntry, named: bool) -> bool
    ensures { result ≡ spec.covers earlier.now other.now named }
{
    for one in earlier {
        if is_place(one, other) && takes_named(one.tag, named) {
            return true;
        }
    }
    false
}

/// Returns whether earlier entries together match each frame that `other` matches. `find_hiders` then adds the warning `HiddenTogether`.
#[tactic(auto, using(crate::proofs::Hiding::cover_frames))]
pub fn hide_together(earlier: &[StreamEntry], other: &StreamEntry) -> bool
    ensures asks { result ≡ spec.cover earlier.now other.now }
    ensures frames { result ≡ true → spec.HideTogether earlier.now other.now }
{
    covers(earlier, other, true) && covers(earlier, other, false)
}

/// Returns which tags frames have that `stream` can match on its port, whose default VLAN is `own`. Returns `None` if no frame can match.
/// `find_unmatched` calls it.
fn port_tags(own: u16, stream: &StreamEntry) -> Option<TagKind>
    ensures { result ≡ spec.tag_on own stream.now }
{
    if own == stream.vid {
        return Some(stream.tag);
    }
    match stream.tag {
        TagKind::All | TagKind::Tagged => Some(TagKind::Tagged),
        TagKind::Priority => None,
    }
}

/// Returns the number in the plan, from 1, and the handle of the first earlier entry that hides `stream`; `None` if no entry hides it.
/// `find_hiders` calls it.
fn first_hiding_stream(earlier: &[StreamEntry], stream: &StreamEntry) -> Option<(usize, u32)> {
    let mut place = 0usize;
    for one in earlier {
        place = place.saturating_add(1);
        if hides(one, stream) {
            return Some((place, one.handle));
        }
    }
    None
}

/// Returns the number in the plan, from 1, of the first earlier entry that matches each frame of `stream` with a VLAN (`named`) or without.
/// Returns 0 if no entry matches them. `find_hiders` calls it.
fn first_covering_entry(earlier: &[StreamEntry], stream: &StreamEntry, named: bool) -> usize {
    let mut place = 0usize;
    for one in earlier {
        place = place.saturating_add(1);
        if is_place(one, stream) && takes_named(one.tag, named) {
            return place;
        }
    }
    0
}

/// Adds a warning if earlier streams match all frames of `stream`, which has number `place` in the plan, from 1. `find_unmatched` calls it.
fn find_hiders(
    found: &mut Vec<Warning>,
    earlier: &[StreamEntry],
    stream: &StreamEntry,
    place: usize,
) -> Result<(), AllocError> {
    let handle = stream.handle;
    if let Some((earlier, other)) = first_hiding_stream(earlier, stream) {
        let hidden = HiddenStream {
            place,
            handle,
            earlier,
            other,
        };
        return push_warning(found, Warning::HiddenStream(hidden));
    }
    if !hide_together(earlier, stream) {
        return Ok(());
    }
    let hidden = HiddenTogether {
        place,
        handle,
        tagged: first_covering_entry(earlier, stream, true),
        untagged: first_covering_entry(earlier, stream, false),
    };
    push_warning(found, Warning::HiddenTogether(hidden))
}

/// Adds a warning if `stream`, number `place` of the plan from 1, matches no frame. The cause is its port's VLAN `own`, or earlier streams.
/// `find_hidden_streams` calls it.
fn find_unmatched(
    found: &mut Vec<Warning>,
    own: u16,
    earlier: &[StreamEntry],
    stream: &StreamEntry,
    place: usize,
) -> Result<(), AllocError> {
    let Some(tag) = port_tags(own, stream) else {
        let StreamEntry {
            handle,
            port,
            vid,
            ..
        } = *stream;
        let other = OtherVlan {
            place,
            handle,
            port,
            own,
            vid,
        };
        return push_warning(found, Warning::OtherVlan(other));
    };
    let asked = StreamEntry { tag, ..*stream };
    find_hiders(found, earlier, &asked, place)
}

/// Adds a warning for each stream that matches no frame, because of the port's VLAN, or because earlier streams match all its frames.
/// `find_plan_warnings` calls it.
pub(crate) fn find_hidden_streams<A: Allocator + Copy>(
    found: &mut Vec<Warning>,
    plan: &Plan<A>,
) -> Result<(), AllocError> {
    let streams = plan.streams();
    let mut before = 0usize;
    for stream in streams {
        let earlier = streams.get(..before).unwrap_or(&[]);
        before = before.saturating_add(1);
        let own = match plan.port(stream.port) {
            Some(port) => port.vid,
            None => stream.vid,
        };
        find_unmatched(found, own, earlier, stream, before)?;
    }
    Ok(())
}
