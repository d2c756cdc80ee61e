//! The tests that a network must pass to be accepted: three for links, then four for hops. `check_network` runs them.
ghost use Rattle.std.specs.Prelude.{◌≡◌, ◌+◌, ◌<◌, Some, IfSome, length, option_map, slice_get};
ghost use Rattle.bridge_config.specs.Rules.{IsPlan};
ghost use Rattle.bridge_check.specs.Faults.{first_option};
ghost use Rattle.net_model.specs.ClosedTest.{is_protected};
ghost use Rattle.net_model.specs.FrameSearch.{first_taken_of_sender};
ghost use Rattle.net_model.specs.NetworkParts.{end_value, stream_value};
ghost use Rattle.net_model.specs.Faults as spec;
ghost use Rattle.net_model.specs.TestedNetwork.{IsTestedHop, tested_parts, first_taken_from_end};

use crate::entry_ports::entry_ports;
use crate::fault::NetworkFault;
use crate::links::{BridgePort, Link, StreamHop, has_hop, peer_port};
use crate::sending_port::{FoundFrames, FrameQuery, SendingPort};
use crate::taking_filter::TakingFilter;
use bridge_check::Accepted;
use bridge_config::{Plan, PortPlan};
use bridge_filter::FilterPlan;
use bridge_frame::Speed;
use std::alloc::Allocator;

/// Tests of a link, in the order in which they run. Each test runs over all links before the next test.
#[derive(Clone, Copy)]
pub(crate) enum LinkTest {
    /// The ports at both ends exist.
    PortsExist,
    /// The ports have no earlier link, and the link joins two different ports.
    SingleLink,
    /// Both ports have one speed.
    SameSpeed,
}

/// Tests of a hop, in the order in which they run. Each test runs over all hops before the next test.
#[derive(Clone, Copy)]
pub(crate) enum HopTest {
    /// The hop's bridge exists and has a protected filter with the hop's number.
    Protected,
    /// No earlier hop of any stream has the bridge and filter of the hop.
    Unique,
    /// Over links, the hop accepts only frames of its stream's hops.
    Closed,
    /// Frames of the stream can reach the hop.
    Fed,
}

/// The parts of a network under test. `first_fault` of `network.rt` builds it to run the tests.
#[derive(Clone, Copy)]
pub(crate) struct TestedNetwork<'a, A: Allocator + Copy> {
    pub plans: &'a [Accepted<A>],
    pub links: &'a [Link],
    pub streams: &'a [Vec<StreamHop, A>],
}

/// Returns the plan of the bridge with index `place`, from 0. Returns `None` if the network lacks the bridge. `is_received_by_next_hop`,
/// `hop_sdu` of `net_check` and 8 more call it.
pub fn find_plan<'a, A: Allocator + Copy>(
    plans: &'a [Accepted<A>],
    place: u16,
) -> Option<&'a Plan<A>>
    ensures plan { option_map (λ p. p.now) result ≡ slice_get plans.now place }
    ensures rules { IfSome result (λ p. IsPlan p.now) }
{
    let place = place as usize;
    if place < plans.len() {
        Some(plans[place].plan())
    } else {
        None
    }
}

/// Returns the plan of the port that `end` names, or `None` if its bridge or port is missing. `has_one_speed` and `link_test_fault` call
/// it.
fn end_port<'a, A: Allocator + Copy>(
    plans: &'a [Accepted<A>],
    end: BridgePort,
) -> Option<&'a PortPlan<A>>
    ensures { option_map (λ p. p.now) result ≡ spec.end_port plans.now end }
{
    match find_plan(plans, end.bridge) {
        Some(plan) => plan.port(end.port),
        None => None,
    }
}

/// Returns whether the port that `end` names has a link. A port without a link is open. `doubly_linked_end` and `is_entry_port` call it.
fn is_linked(links: &[Link], end: BridgePort) -> bool
    ensures { result ≡ spec.is_linked links.now end }
{
    peer_port(links, end.bridge, end.port).is_some()
}

/// Returns the first end of `link` whose port has a link in `before`. `None` if neither end is linked. If the link joins a port to itself,
/// its end `other` counts. `link_test_fault` calls it.
fn doubly_linked_end(before: &[Link], link: &Link) -> Option<BridgePort>
    ensures { result ≡ spec.doubly_linked_end before.now link.now }
{
    if is_linked(before, link.one) {
        return Some(link.one);
    }
    if is_linked(before, link.other) || link.one == link.other {
        return Some(link.other);
    }
    None
}

/// Returns a speed in Mb/s, so that two speeds can be compared as numbers. `has_one_speed` calls it.
fn speed_mbps(speed: Speed) -> u32
    ensures { result ≡ spec.speed_mbps speed }
{
    match speed {
        Speed::Mbps10 => 10,
        Speed::Mbps100 => 100,
        Speed::Mbps1000 => 1000,
        Speed::Mbps2500 => 2500,
        Speed::Mbps10000 => 10000,
    }
}

/// Returns whether both ports of a link have one speed. Returns true if a port is missing, because the test `PortsExist` reports this.
/// `link_test_fault` calls it.
fn has_one_speed<A: Allocator + Copy>(plans: &[Accepted<A>], link: &Link) -> bool
    ensures { result ≡ spec.is_one_speed (spec.end_port plans.now link.now.one)
        (spec.end_port plans.now link.now.other) }
{
    match (end_port(plans, link.one), end_port(plans, link.other)) {
        (Some(one), Some(other)) => speed_mbps(one.speed) == speed_mbps(other.speed),
        _ => true,
    }
}

/// Returns whether a plan has a protected filter with number `number`. `is_protected_hop` calls it.
fn is_protected<A: Allocator + Copy>(plan: &Plan<A>, number: u32) -> bool
    ensures { result ≡ is_protected plan.now number }
{
    plan.filters()
        .iter()
        .any(|f| f.0 == number && f.1.protected)
}

/// Returns whether `hop` is a protected filter of its bridge. `hop_test_fault` calls it.
fn is_protected_hop<A: Allocator + Copy>(plans: &[Accepted<A>], hop: &StreamHop) -> bool
    ensures { result ≡ spec.is_protected_hop (slice_get plans.now hop.now.bridge) hop.now.filter }
{
    match find_plan(plans, hop.bridge) {
        Some(plan) => is_protected(plan, hop.filter),
        None => false,
    }
}

/// Returns whether `hop` is a hop of one of the earlier `streams`, or one of the earlier `hops` of its own stream. `hop_test_fault` calls
/// it.
fn is_repeated_hop<A: Allocator + Copy>(
    streams: &[Vec<StreamHop, A>],
    hops: &[StreamHop],
    hop: &StreamHop,
) -> bool
    ensures { result ≡ spec.is_repeated_hop streams.now hops.now hop.now }
{
    for stream in streams {
        if has_hop(stream.as_slice(), hop.bridge, hop.filter) {
            return true;
        }
    }
    has_hop(hops, hop.bridge, hop.filter)
}

/// Returns the stream handle of the protected filter with number `number`. Returns `None` if the filter is missing, unprotected or names no
/// handle.
///
/// `receives_every_frame`, `can_others_enter` of `net_latency` and 2 more call it.
pub fn protected_handle(filters: &[(u32, FilterPlan)], number: u32) -> Option<u32>
    ensures { result ≡ spec.protected_handle filters.now number }
{
    for filter in filters {
        if filter.0 == number && filter.1.protected {
            return filter.1.handle;
        }
    }
    None
}

/// Returns whether the plan has a stream entry with handle `handle` on port `port`. If the plan has none, no frame gets the handle there.
/// `is_entry_port` and `enters` of `net_latency` call it.
pub fn has_entry<A: Allocator + Copy>(plan: &Plan<A>, port: u8, handle: u32) -> bool
    ensures { result ≡ spec.has_entry plan.now port handle }
{
    plan.streams()
        .iter()
        .any(|e| e.port == port && e.handle == handle)
}

/// A hop under test, with the parts of the network that the tests `Closed` and `Fed` need.
#[derive(Drop)]
pub(crate) struct TestedHop<'a, A: Allocator + Copy> {
    /// The network under test.
    pub case: TestedNetwork<'a, A>,
    /// Stream of the hop.
    pub stream: &'a [StreamHop],
    /// Hop under test.
    pub hop: StreamHop,
    /// Plan of the hop's bridge.
    pub next: &'a Plan<A>,
    /// Stream handle of the hop's filter. Entries give frames this handle.
    pub handle: u32,
    /// A flag for each port of the hop's bridge, from port 1: whether an entry gives the handle there.
    pub ports: [bool; 16],
}

impl<'a, A: Allocator + Copy> TestedHop<'a, A> {
    /// Returns whether a stream entry gives the hop's handle to frames on port `j` + 1 of the hop's bridge. `first_or_frame_on_port` skips
    /// other ports.
    fn is_entry_index(&self, j: u8) -> bool
        requires case { IsTestedHop self.now }
        requires index { j < 16 }
        ensures { result ≡ spec.has_entry self.now.next.now (j + 1) self.now.handle }
    {
        self.ports[j as usize]
    }

    /// Returns an example of the frames that `question` asks for, which `plan` can send from `end` to the hop's port `on`. Returns `None`
    /// if there are none or the sending port is missing.
    fn first_frame_of_sender(
        &self,
        question: FrameQuery,
        on: &PortPlan<A>,
        end: BridgePort,
        plan: &Plan<A>,
    ) -> Option<FoundFrames>
        requires { IsTestedHop self.now }
        ensures { result ≡ first_taken_of_sender question (Some plan.now) (stream_value self.now.stream.now)
            (end_value end) self.now.next.now on.now self.now.hop.filter }
    {
        match plan.port(end.port) {
            Some(_) => {
                let sending = SendingPort {
                    plan,
                    end,
                    stream: self.stream,
                    question,
                };
                let taking = TakingFilter {
                    sending,
                    next: self.next,
                    on,
                    filter: self.hop.filter,
                    handle: self.handle,
                };
                taking.first_taken_frame()
            }
            None => None,
        }
    }

    /// Returns an example of the frames that `question` asks for, which the hop can accept over a link from `end`. Returns `None` if there
    /// are none or the sending bridge is missing.
    fn first_frame_from_peer(
        &self,
        question: FrameQuery,
        on: &PortPlan<A>,
        end: BridgePort,
    ) -> Option<FoundFrames>
        requires { IsTestedHop self.now }
        ensures { result ≡ first_taken_from_end self.now question on.now (end_value end) }
    {
        match find_plan(self.case.plans, end.bridge) {
            Some(plan) => self.first_frame_of_sender(question, on, end, plan),
            None => None,
        }
    }

    /// Returns an example of the frames that `question` asks for, which the hop can accept over the link of port `on`.
    ///
    /// Returns `None` if the search finds no frames, or if the port has no link.
    fn first_frame_over_link(&self, question: FrameQuery, on: &PortPlan<A>) -> Option<FoundFrames>
        requires { IsTestedHop self.now }
        ensures { result ≡ spec.first_taken_at_port question (tested_parts self.now.case) self.now.stream.now
            self.now.hop
            self.now.next.now (Some on.now) }
    {
        match peer_port(self.case.links, self.hop.bridge, on.number) {
            Some(end) => self.first_frame_from_peer(question, on, end),
            None => None,
        }
    }

    /// Returns the number `port` and an example of the frames that `question` asks for, which can arrive there over a link.
    ///
    /// Returns `None` if the search finds no frames, or if the bridge lacks the port.
    fn first_frame_on_port(&self, question: FrameQuery, port: u8) -> Option<(u8, FoundFrames)>
        requires { IsTestedHop self.now }
        ensures { result ≡ spec.first_taken_at_port_number question (tested_parts self.now.case) self.now.stream.now
            self.now.hop
            self.now.next.now port }
    {
        match self.next.port(port) {
            Some(on) => {
                let found = self.first_frame_over_link(question, on)?;
                Some((port, found))
            }
            None => None,
        }
    }

    /// Returns `before` if present, otherwise an example of the frames that `question` asks for at port `j` + 1. Returns `None` if no stream
    /// entry gives the hop's handle there, or no frame exists.
    ///
    /// `first_frame_by_port` calls it.
    fn first_or_frame_on_port(
        &self,
        before: Option<(u8, FoundFrames)>,
        question: FrameQuery,
        j: u8,
    ) -> Option<(u8, FoundFrames)>
        requires case { IsTestedHop self.now }
        requires index { j < 16 }
        ensures { result ≡ first_option before (spec.first_taken_at_port_number question
            (tested_parts self.now.case) self.now.stream.now self.now.hop self.now.next.now (j + 1)) }
    {
        if before.is_some() {
            return before;
        }
        if !self.is_entry_index(j) {
            return before;
        }
        self.first_frame_on_port(question, j + 1)
    }

    /// Returns the lowest port at which the hop can accept frames that `question` asks for over a link, with an example. Returns `None` if
    /// no port can.
    #[tactic(auto, using(bridge_check::proofs::Told::first_none, bridge_check::proofs::Told::first_more))]
    fn first_frame_by_port(&self, question: FrameQuery) -> Option<(u8, FoundFrames)>
        requires { IsTestedHop self.now }
        ensures { result ≡ spec.first_taken_by_port question (tested_parts self.now.case) self.now.stream.now
            self.now.hop
            self.now.next.now }
    {
        let mut first = None;
        for j in 0..16u8 {
            first = self.first_or_frame_on_port(first, question, j);
        }
        first
    }

    /// Returns whether `on` is an open port of the hop's bridge and has a stream entry with the hop's handle. `has_entry_port` calls it for
    /// each port.
    fn is_entry_port(&self, on: &PortPlan<A>) -> bool
        ensures { result ≡ spec.is_entry_port self.now.case.links.now self.now.hop.bridge self.now.next.now
            self.now.handle
            on.now }
    {
        let bridge = self.hop.bridge;
        let port = on.number;
        if is_linked(self.case.links, BridgePort { bridge, port }) {
            return false;
        }
        has_entry(self.next, port, self.handle)
    }

    /// Returns whether an open port has a stream entry with the hop's handle, so that frames from outside can feed the hop. `is_reached`
    /// calls it.
    fn has_entry_port(&self) -> bool
        ensures { result ≡ spec.has_entry_port self.now.case.links.now self.now.hop.bridge self.now.next.now
            self.now.handle }
    {
        for on in self.next.ports() {
            if self.is_entry_port(on) {
                return true;
            }
        }
        false
    }

    /// Returns whether frames of the stream can reach its hop with index `place`. They arrive on an open port if the index is 0, otherwise
    /// over a link. `frames_test_fault` calls it.
    fn is_reached(&self, place: usize) -> bool
        requires { IsTestedHop self.now }
        ensures { result ≡ spec.is_reached (tested_parts self.now.case) self.now.stream.now place self.now.hop
            self.now.next.now self.now.handle }
    {
        if place == 0 {
            self.has_entry_port()
        } else {
            self.first_frame_by_port(FrameQuery::Own).is_some()
        }
    }

    /// Returns the fault of the test `Closed` or `Fed` for hop `k` of stream `i`. `None` if the hop passes the test.
    /// `hop_test_fault_in_plan` calls it.
    ///
    /// `k` and `i` are indexes from 0; the fault counts from 1.
    fn frames_test_fault(&self, test: HopTest, i: usize, k: usize) -> Option<NetworkFault>
        requires case { IsTestedHop self.now }
        requires stream { i < 18446744073709551615 }
        requires hop { k < 18446744073709551615 }
        ensures { result ≡ spec.frames_test_fault (tested_parts self.now.case) test i self.now.stream.now k self.now.hop
            self.now.next.now self.now.handle }
    {
        match test {
            HopTest::Protected => None,
            HopTest::Unique => None,
            HopTest::Closed => {
                let (port, found) = self.first_frame_by_port(FrameQuery::Strays)?;
                Some(NetworkFault::NotClosed {
                    stream: i + 1,
                    hop: k + 1,
                    bridge: self.hop.bridge,
                    port,
                    filter: found.filter,
                    from: found.from,
                })
            }
            HopTest::Fed => {
                if self.is_reached(k) {
                    return None;
                }
                Some(NetworkFault::NotFed {
                    stream: i + 1,
                    hop: k + 1,
                })
            }
        }
    }
}

impl<'a, A: Allocator + Copy> TestedNetwork<'a, A> {
    /// Returns the fault of `test` for the link with index `i`, or `None` if the link passes. The fault counts links from 1.
    /// `first_or_link_test_fault` calls it.
    fn link_test_fault(&self, test: LinkTest, i: usize, link: &Link) -> Option<NetworkFault>
        requires { i < length self.now.links.now }
        ensures { result ≡ spec.link_test_fault (tested_parts self.now) test i link.now }
    {
        match test {
            LinkTest::PortsExist => {
                if end_port(self.plans, link.one).is_some()
                    && end_port(self.plans, link.other).is_some()
                {
                    return None;
                }
                Some(NetworkFault::Unresolved { link: i + 1 })
            }
            LinkTest::SingleLink => {
                let end = doubly_linked_end(&self.links[..i], link)?;
                Some(NetworkFault::LinkTwice { link: i + 1, end })
            }
            LinkTest::SameSpeed => {
                if has_one_speed(self.plans, link) {
                    return None;
                }
                Some(NetworkFault::SpeedsDiffer { link: i + 1 })
            }
        }
    }

    /// Returns `before` if it is a fault, otherwise the fault of the link with index `i`. It is one step of the loop in `link_fault`.
    #[tactic(auto, using(crate::proofs::Firsts::item_at))]
    fn first_or_link_test_fault(
        &self,
        before: Option<NetworkFault>,
        test: LinkTest,
        i: usize,
    ) -> Option<NetworkFault>
        requires { i < length self.now.links.now }
        ensures { result ≡ first_option before (spec.if_some (spec.link_test_fault (tested_parts self.now) test i)
            (slice_get self.now.links.now i)) }
    {
        if before.is_some() {
            return before;
        }
        self.link_test_fault(test, i, &self.links[i])
    }

    /// Returns the fault of the first link that fails `test`, or `None` if all links pass. `fault` calls it.
    #[tactic(auto, using(bridge_check::proofs::Told::first_none, bridge_check::proofs::Told::first_more))]
    fn link_fault(&self, test: LinkTest) -> Option<NetworkFault>
        ensures { result ≡ spec.link_fault (tested_parts self.now) test }
    {
        let mut first = None;
        for i in 0..self.links.len() {
            first = self.first_or_link_test_fault(first, test, i);
        }
        first
    }
}

impl<'a, A: Allocator + Copy> TestedNetwork<'a, A> {
    /// Returns the fault of `test` (`Closed` or `Fed`) for hop `k` of stream `i`, at the bridge with plan `next`. Returns `None` if the hop
    /// passes or its filter names no handle. `hop_test_fault_by_handle` calls it.
    fn hop_test_fault_in_plan(
        &self,
        test: HopTest,
        i: usize,
        stream: &[StreamHop],
        k: usize,
        hop: StreamHop,
        next: &Plan<A>,
    ) -> Option<NetworkFault>
        requires stream { i < 18446744073709551615 }
        requires hop { k < 18446744073709551615 }
        ensures { result ≡ spec.hop_test_fault_by_handle (tested_parts self.now) test i stream.now k hop
            (Some next.now) }
    {
        let filters = next.filters();
        match protected_handle(filters, hop.filter) {
            Some(handle) => {
                let case = TestedHop {
                    case: *self,
                    stream,
                    hop,
                    next,
                    handle,
                    ports: entry_ports(next, handle),
                };
                case.frames_test_fault(test, i, k)
            }
            None => None,
        }
    }

    /// Returns the fault of `test` (`Closed` or `Fed`) for hop `k` of stream `i`. Returns `None` if the hop passes, its bridge is missing
    /// or its filter names no handle. `hop_test_fault` calls it.
    fn hop_test_fault_by_handle(
        &self,
        test: HopTest,
        i: usize,
        stream: &[StreamHop],
        k: usize,
        hop: StreamHop,
    ) -> Option<NetworkFault>
        requires stream { i < 18446744073709551615 }
        requires hop { k < 18446744073709551615 }
        ensures { result ≡ spec.hop_test_fault_by_handle (tested_parts self.now) test i stream.now k hop
            (slice_get self.now.plans.now hop.bridge) }
    {
        match find_plan(self.plans, hop.bridge) {
            Some(next) => self.hop_test_fault_in_plan(test, i, stream, k, hop, next),
            None => None,
        }
    }

    /// Returns the fault of `test` for hop `k` of stream `i`, both indexes from 0, or `None` if the hop passes. The fault counts from 1.
    /// `first_or_hop_test_fault` calls it.
    fn hop_test_fault(
        &self,
        test: HopTest,
        i: usize,
        stream: &[StreamHop],
        k: usize,
        hop: StreamHop,
    ) -> Option<NetworkFault>
        requires stream { i < length self.now.streams.now }
        requires hop { k < length stream.now }
        ensures { result ≡ spec.hop_test_fault (tested_parts self.now) test i stream.now k hop }
    {
        match test {
            HopTest::Protected => {
                if is_protected_hop(self.plans, &hop) {
                    return None;
                }
                Some(NetworkFault::NotProtected {
                    stream: i + 1,
                    hop: k + 1,
                })
            }
            HopTest::Unique => {
                if !is_repeated_hop(&self.streams[..i], &stream[..k], &hop) {
                    return None;
                }
                Some(NetworkFault::HopTwice {
                    stream: i + 1,
                    hop: k + 1,
                })
            }
            HopTest::Closed => self.hop_test_fault_by_handle(test, i, stream, k, hop),
            HopTest::Fed => self.hop_test_fault_by_handle(test, i, stream, k, hop),
        }
    }

    /// Returns `before` if it is a fault, otherwise the fault of hop `k` of stream `i`. It is one step of the loop in `stream_test_fault`.
    #[tactic(auto, using(crate::proofs::Firsts::item_at))]
    fn first_or_hop_test_fault(
        &self,
        before: Option<NetworkFault>,
        test: HopTest,
        i: usize,
        stream: &[StreamHop],
        k: usize,
    ) -> Option<NetworkFault>
        requires stream { i < length self.now.streams.now }
        requires hop { k < length stream.now }
        ensures { result ≡ first_option before (spec.if_some
            (spec.hop_test_fault (tested_parts self.now) test i stream.now k)
            (slice_get stream.now k)) }
    {
        if before.is_some() {
            return before;
        }
        self.hop_test_fault(test, i, stream, k, stream[k])
    }

    /// Returns the first fault of `test` among the hops of stream `i`, or `None` if all pass. `first_or_stream_test_fault` calls it.
    #[tactic(auto, using(bridge_check::proofs::Told::first_none, bridge_check::proofs::Told::first_more))]
    fn stream_test_fault(
        &self,
        test: HopTest,
        i: usize,
        stream: &[StreamHop],
    ) -> Option<NetworkFault>
        requires { i < length self.now.streams.now }
        ensures { result ≡ spec.stream_test_fault (tested_parts self.now) test i stream.now }
    {
        let mut first = None;
        for k in 0..stream.len() {
            first = self.first_or_hop_test_fault(first, test, i, stream, k);
        }
        first
    }

    /// Returns `before` if it is a fault, otherwise the first fault of stream `i`. It is one step of the loop in `hop_fault`.
    #[tactic(auto, using(crate::proofs::Firsts::item_at))]
    fn first_or_stream_test_fault(
        &self,
        before: Option<NetworkFault>,
        test: HopTest,
        i: usize,
    ) -> Option<NetworkFault>
        requires { i < length self.now.streams.now }
        ensures { result ≡ first_option before (spec.if_some
            (λ s. spec.stream_test_fault (tested_parts self.now) test i s.items)
            (slice_get self.now.streams.now i)) }
    {
        if before.is_some() {
            return before;
        }
        self.stream_test_fault(test, i, self.streams[i].as_slice())
    }

    /// Returns the first fault of `test` among all hops, by stream and then by hop, or `None` if all hops pass. `first_hop_fault` calls it.
    #[tactic(auto, using(bridge_check::proofs::Told::first_none, bridge_check::proofs::Told::first_more))]
    fn hop_fault(&self, test: HopTest) -> Option<NetworkFault>
        ensures { result ≡ spec.hop_fault (tested_parts self.now) test }
    {
        let mut first = None;
        for i in 0..self.streams.len() {
            first = self.first_or_stream_test_fault(first, test, i);
        }
        first
    }

    /// Returns the first fault of a hop. `None` if every hop passes all tests. Finishes each test for all hops before the next test.
    /// `fault` calls it.
    fn first_hop_fault(&self) -> Option<NetworkFault>
        ensures { result ≡ spec.first_hop_fault (tested_parts self.now) }
    {
        let protected = self.hop_fault(HopTest::Protected);
        if protected.is_some() {
            return protected;
        }
        let twice = self.hop_fault(HopTest::Unique);
        if twice.is_some() {
            return twice;
        }
        let closed = self.hop_fault(HopTest::Closed);
        if closed.is_some() {
            return closed;
        }
        self.hop_fault(HopTest::Fed)
    }

    /// Returns the first fault of the network: tests of links come before tests of hops. `None` if the network passes all tests.
    /// `first_fault` calls it for `check_network`.
    pub(crate) fn fault(&self) -> Option<NetworkFault>
        ensures { result ≡ spec.first_fault (tested_parts self.now) }
    {
        let there = self.link_fault(LinkTest::PortsExist);
        if there.is_some() {
            return there;
        }
        let twice = self.link_fault(LinkTest::SingleLink);
        if twice.is_some() {
            return twice;
        }
        let speeds = self.link_fault(LinkTest::SameSpeed);
        if speeds.is_some() {
            return speeds;
        }
        self.first_hop_fault()
    }
}
