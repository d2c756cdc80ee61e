//! Explanations of a refused link: a missing port, a port with two links, or two speeds.

use bridge_check::Accepted;
use bridge_text::TextBuilder;
use net_file::{NetField, NetSection};
use net_latency::{NetworkText, put_numbers};
use net_model::{BridgePort, Link, NetworkFault, RefusedNetwork};
use std::alloc::Global;

/// Explains the fault of link `place`, counted from 1, in a refused network. `explain_refusal` calls it. Returns `None` if the link is
/// missing or memory runs out.
pub(crate) fn explain_link_fault(
    alloc: Global,
    asked: NetworkText<'_>,
    refused: &RefusedNetwork<Global>,
    place: usize,
) -> Option<String> {
    let links = refused.links.as_slice();
    let link = *links.get(place.checked_sub(1)?)?;
    let plans = refused.plans.as_slice();
    let mut said = TextBuilder::new(alloc);
    match refused.fault {
        NetworkFault::LinkTwice { end, .. } => {
            put_twice(&mut said, asked, links, place, link, end);
            put_free_ports(alloc, &mut said, asked, refused, end);
        }
        NetworkFault::SpeedsDiffer { .. } => put_speeds(&mut said, asked, plans, place, link),
        _ => put_ports(alloc, &mut said, asked, plans, place, link),
    }
    said.finish().ok()
}

/// Returns whether two ends of links are the same bridge port. `first_link_index` and functions for ports with two links call it.
fn is_one_port(one: BridgePort, other: BridgePort) -> bool {
    one.bridge == other.bridge && one.port == other.port
}

/// Returns the name of the bridge at this end of a link, or an empty text if the bridge is missing. `put_link_end`, `put_speeds` and
/// `put_ports` call it.
fn bridge_name<'a>(asked: NetworkText<'a>, end: BridgePort) -> &'a str {
    match asked.bridge(end.bridge) {
        Some(bridge) => bridge.name(),
        None => "",
    }
}

/// Returns the path of the plan of the bridge at this end of a link, as the network file writes it. Empty if the bridge is missing.
/// `put_ports`, `put_remedy_heading` and others call it.
pub(crate) fn bridge_plan<'a>(asked: NetworkText<'a>, end: BridgePort) -> &'a str {
    match asked.bridge(end.bridge) {
        Some(bridge) => bridge.plan(),
        None => "",
    }
}

/// Returns the number, from 1, of the first link that ends at port `end`; 0 if the port has no link. `put_twice` calls it.
fn first_link_index(links: &[Link], end: BridgePort) -> u64 {
    let mut place = 0u64;
    for link in links {
        place = place.saturating_add(1);
        if is_one_port(link.one, end) || is_one_port(link.other, end) {
            return place;
        }
    }
    0
}

/// Appends the position of key `field` of link `place`, from 1, in the network file, and the end that the key names. `put_ports` and
/// `put_twice` call it.
fn put_link_end(
    said: &mut TextBuilder<Global>,
    asked: NetworkText<'_>,
    place: usize,
    field: NetField,
    end: BridgePort,
) {
    asked.put_place(said, NetSection::Link, place, Some(field.key()));
    said.put_template("`{a}` of `link` {0} is ", &[place as u64], &[field.key()]);
    said.put_template(
        "\"{a}.{0}\", ",
        &[u64::from(end.port)],
        &[bridge_name(asked, end)],
    );
}

/// Explains a port with two links. `end`, an end of link `place` (from 1), is also an end of an earlier link, or both ends of link `place`
/// are this port. `explain_link_fault` calls it.
fn put_twice(
    said: &mut TextBuilder<Global>,
    asked: NetworkText<'_>,
    links: &[Link],
    place: usize,
    link: Link,
    end: BridgePort,
) {
    let earlier = first_link_index(links, end);
    if earlier < place as u64 {
        let field = if is_one_port(link.one, end) {
            NetField::One
        } else {
            NetField::Other
        };
        put_link_end(said, asked, place, field, end);
        return put_earlier_link(said, asked, links, earlier, end);
    }
    put_link_end(said, asked, place, NetField::Other, end);
    said.put("and so is `one`.\nA link joins two ports: correct one of its ends.\n");
}

/// Appends which earlier link ends at port `end`: its number `earlier`, the key and its line. Then appends a remedy. `put_twice` calls it.
fn put_earlier_link(
    said: &mut TextBuilder<Global>,
    asked: NetworkText<'_>,
    links: &[Link],
    earlier: u64,
    end: BridgePort,
) {
    let place = earlier as usize;
    let key = match links.get(place.wrapping_sub(1)) {
        Some(link) if is_one_port(link.one, end) => NetField::One.key(),
        _ => NetField::Other.key(),
    };
    said.put_template("but so is `{a}` of `link` {0}", &[earlier], &[key]);
    asked.put_line(said, NetSection::Link, place, key);
    said.put(".\nA port has at most one link: correct one of the two.\n");
}

/// Returns whether one of these links ends at port `end`. `put_free_ports` calls it.
fn has_link(links: &[Link], end: BridgePort) -> bool {
    for link in links {
        if is_one_port(link.one, end) || is_one_port(link.other, end) {
            return true;
        }
    }
    false
}

/// Appends a sentence with the ports of the bridge of `end` that have no link. Discards the whole explanation if memory runs out.
/// `explain_link_fault` calls it.
fn put_free_ports(
    alloc: Global,
    said: &mut TextBuilder<Global>,
    asked: NetworkText<'_>,
    refused: &RefusedNetwork<Global>,
    end: BridgePort,
) {
    let Some(accepted) = refused.plans.get(end.bridge as usize) else {
        return;
    };
    let mut numbers = Vec::new(alloc);
    for port in accepted.plan().ports() {
        let own = BridgePort {
            bridge: end.bridge,
            port: port.number,
        };
        let is_free = !has_link(refused.links.as_slice(), own);
        if is_free && numbers.push(u64::from(port.number)).is_err() {
            return said.discard();
        }
    }
    let words = [bridge_name(asked, end), bridge_plan(asked, end)];
    if numbers.is_empty() {
        return said.put_template("Each port of {a} ({b}) has a link.\n", &[], &words);
    }
    said.put_template("Ports of {a} ({b}) without a link: ", &[], &words);
    put_numbers(said, &numbers);
    said.put(".\n");
}

/// Returns the speed in Mb/s of the port at this end of a link, or 0 if the plan lacks the port. `put_speeds` calls it.
fn port_mbps(plans: &[Accepted<Global>], end: BridgePort) -> u64 {
    let Some(accepted) = plans.get(end.bridge as usize) else {
        return 0;
    };
    match accepted.plan().port(end.port) {
        Some(port) => port.speed.megabits(),
        None => 0,
    }
}

/// Explains link `place`, from 1, between ports of different speeds: appends both speeds, and the plans to correct. `explain_link_fault`
/// calls it.
fn put_speeds(
    said: &mut TextBuilder<Global>,
    asked: NetworkText<'_>,
    plans: &[Accepted<Global>],
    place: usize,
    link: Link,
) {
    let Link { one, other, .. } = link;
    asked.put_place(said, NetSection::Link, place, None);
    said.put_template(
        "`link` {0} joins port {1} of {a} (`mbps` {2} in {b}) ",
        &[place as u64, u64::from(one.port), port_mbps(plans, one)],
        &[bridge_name(asked, one), bridge_plan(asked, one)],
    );
    said.put_template(
        "and port {0} of {a} (`mbps` {1} in {b}).\nGive both ports the same `mbps`.\n",
        &[u64::from(other.port), port_mbps(plans, other)],
        &[bridge_name(asked, other), bridge_plan(asked, other)],
    );
}

/// Returns whether the plan of the bridge at this end of a link has the port. `put_ports` calls it.
fn has_port(plans: &[Accepted<Global>], end: BridgePort) -> bool {
    match plans.get(end.bridge as usize) {
        Some(accepted) => accepted.plan().port(end.port).is_some(),
        None => false,
    }
}

/// Explains link `place`, from 1, one end of which is a missing port: appends this end, and the ports that its bridge has. If memory runs
/// out, discards the whole text. `explain_link_fault` calls it.
fn put_ports(
    alloc: Global,
    said: &mut TextBuilder<Global>,
    asked: NetworkText<'_>,
    plans: &[Accepted<Global>],
    place: usize,
    link: Link,
) {
    let (field, end) = if has_port(plans, link.one) {
        (NetField::Other, link.other)
    } else {
        (NetField::One, link.one)
    };
    put_link_end(said, asked, place, field, end);
    said.put_template(
        "but the plan of {a} ({b}) has no port {0}.\n",
        &[u64::from(end.port)],
        &[bridge_name(asked, end), bridge_plan(asked, end)],
    );
    let mut numbers = Vec::new(alloc);
    if let Some(accepted) = plans.get(end.bridge as usize) {
        for port in accepted.plan().ports() {
            if numbers.push(u64::from(port.number)).is_err() {
                return said.discard();
            }
        }
    }
    said.put("Its ports: ");
    put_numbers(said, &numbers);
    said.put(".\nCorrect the number, or add the port to the plan.\n");
}
