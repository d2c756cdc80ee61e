//! Groups of frames that the bridges of a network forward alike. The search for loops runs once for each group.
ghost use Rattle.std.specs.Prelude.{◌≡◌, IfOk, OnOk, fold};
ghost use Rattle.net_model.specs.FrameGroups as spec;
ghost use Rattle.net_model.specs.FrameGroups.{all_groups, with_group, with_static_entry, with_plan, with_vlan};

use bridge_check::Accepted;
use bridge_config::Plan;
use bridge_forward::{StaticEntry, Vlan};
use bridge_limits::NoMemory;
use std::alloc::Allocator;

/// Frames that bridges forward alike: by VLAN and destination. No bridge changes these two, so the group keeps its frames along the route.
#[derive(Clone, Copy)]
pub struct FrameGroup {
    /// VLAN of the frames' tag. `None` if no tag names a VLAN; the port of arrival then classifies the frame.
    pub vlan: Option<u16>,
    /// Destination of the frames. `None` for every destination without a static entry.
    pub destination: Option<[u8; 6]>,
}

/// Returns whether two optional VLANs are equal; `None` equals only `None`. `is_same_group` calls it.
fn is_same_vlan(a: Option<u16>, b: Option<u16>) -> bool
    ensures { result ≡ spec.is_same_vlan a b }
{
    match (a, b) {
        (None, None) => true,
        (Some(a), Some(b)) => a == b,
        _ => false,
    }
}

/// Returns whether two optional destinations are equal; `None` equals only `None`. `is_same_group` calls it.
fn is_same_destination(a: Option<[u8; 6]>, b: Option<[u8; 6]>) -> bool
    ensures { result ≡ spec.is_same_destination a b }
{
    match (a, b) {
        (None, None) => true,
        (Some(a), Some(b)) => a == b,
        _ => false,
    }
}

/// Returns whether two groups have equal VLANs and destinations. `has_group` calls it.
fn is_same_group(a: &FrameGroup, b: &FrameGroup) -> bool
    ensures { result ≡ spec.is_same_group a.now b.now }
{
    is_same_vlan(a.vlan, b.vlan) && is_same_destination(a.destination, b.destination)
}

/// Returns whether `groups` contains `group`. `add_group` calls it.
fn has_group(groups: &[FrameGroup], group: &FrameGroup) -> bool
    ensures { result ≡ spec.has_group groups.now group.now }
{
    groups.iter().any(|known| is_same_group(known, group))
}

/// Appends `group` to `groups` unless `groups` contains it. So the search for loops examines each group once, and `net check` warns once.
/// `add_entry_groups`, `add_vlan_groups` and `all_groups` call it.
fn add_group<A: Allocator + Copy>(
    groups: &mut Vec<FrameGroup, A>,
    group: FrameGroup,
) -> Result<(), NoMemory>
    ensures { OnOk result (groups.new.items ≡ with_group groups.old.items group) }
{
    if has_group(groups.as_slice(), &group) {
        return Ok(());
    }
    groups.push(group)?;
    Ok(())
}

/// Adds to `groups` the groups of the static entries' destinations: in the entry's VLAN, and without VLAN. `add_plan_groups` calls it.
fn add_static_groups<A: Allocator + Copy>(
    groups: &mut Vec<FrameGroup, A>,
    statics: &[StaticEntry],
) -> Result<(), NoMemory>
    ensures { OnOk result (groups.new.items ≡ fold with_static_entry groups.old.items statics.now) }
{
    for entry in statics {
        add_entry_groups(groups, entry)?;
    }
    Ok(())
}

/// Adds to `groups` the two groups of a static entry: the entry's destination in the entry's VLAN, and the destination without VLAN.
/// `add_static_groups` calls it.
fn add_entry_groups<A: Allocator + Copy>(
    groups: &mut Vec<FrameGroup, A>,
    entry: &StaticEntry,
) -> Result<(), NoMemory>
    ensures { OnOk result (groups.new.items ≡ with_static_entry groups.old.items entry.now) }
{
    add_group(
        groups,
        FrameGroup {
            vlan: Some(entry.vid),
            destination: Some(entry.address),
        },
    )?;
    add_group(
        groups,
        FrameGroup {
            vlan: None,
            destination: Some(entry.address),
        },
    )
}

/// Adds to `groups`, for each VLAN in `vlans`, the group of all destinations without a static entry. `add_plan_groups` calls it.
fn add_vlan_groups<A: Allocator + Copy>(
    groups: &mut Vec<FrameGroup, A>,
    vlans: &[Vlan],
) -> Result<(), NoMemory>
    ensures { OnOk result (groups.new.items ≡ fold with_vlan groups.old.items vlans.now) }
{
    for vlan in vlans {
        add_group(
            groups,
            FrameGroup {
                vlan: Some(vlan.vid),
                destination: None,
            },
        )?;
    }
    Ok(())
}

/// Adds to `groups` the groups that a plan names by its static entries and its VLANs. `all_groups` calls it.
fn add_plan_groups<A: Allocator + Copy>(
    groups: &mut Vec<FrameGroup, A>,
    plan: &Plan<A>,
) -> Result<(), NoMemory>
    ensures { OnOk result (groups.new.items ≡ with_plan groups.old.items plan.now) }
{
    add_static_groups(groups, plan.statics())?;
    add_vlan_groups(groups, plan.vlans())
}

/// Returns the groups that the plans name by VLANs and static entries, and the group without VLAN and destination. No group is repeated.
/// `find_forwarding_loops` searches each.
pub(crate) fn all_groups<A: Allocator + Copy>(
    alloc: A,
    plans: &[Accepted<A>],
) -> Result<Vec<FrameGroup, A>, NoMemory>
    ensures { IfOk result (λ groups. groups.items ≡ all_groups plans.now) }
{
    let mut groups = Vec::new(alloc);
    for accepted in plans {
        add_plan_groups(&mut groups, accepted.plan())?;
    }
    add_group(
        &mut groups,
        FrameGroup {
            vlan: None,
            destination: None,
        },
    )?;
    Ok(groups)
}
