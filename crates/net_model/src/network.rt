//! Accepted networks, and the first fault of a refused network.
ghost use Rattle.std.specs.Prelude.{◌≡◌, All, Some, None, IfOk, IfErr};
ghost use Rattle.net_model.specs.Networks.{IsNetwork};
ghost use Rattle.net_model.specs.NetworkParts.{AreHandedBack, network_value, network_parts};
ghost use Rattle.net_model.specs.Checked.{AreClosed, IsAccepted};
ghost use Rattle.net_model.specs.Faults.{first_fault};

use crate::fault::NetworkFault;
use crate::links::{Link, StreamHop};
use crate::network_tests::TestedNetwork;
use bridge_check::Accepted;
use std::alloc::Allocator;
use std::marker::Model;

/// Accepted plans of bridges, links between their ports, and closed streams. Only `check_network` creates a value, so a holder of a value
/// needs no tests of its own.
#[derive(Drop)]
pub struct Network<A: Allocator + Copy> {
    plans: Vec<Accepted<A>, A>,
    links: Vec<Link, A>,
    streams: Vec<Vec<StreamHop, A>, A>,
}

impl<A: Allocator + Copy> Model for Network<A> {
    ghost use Rattle.net_model.specs.NetworkParts.{NetworkParts};
    ghost use Rattle.net_model.specs.Checked.{IsChecked};

    ghost Value = { NetworkParts A };

    ghost view = { λ n. record { plans = n.plans.items; links = n.links.items; streams = n.streams.items } };

    ghost invariant = { λ n. IsChecked {A = A} (record {
      plans = n.plans.items;
      links = n.links.items;
      streams = n.streams.items;
    }) };
}

impl<A: Allocator + Copy> Network<A> {
    /// Returns the bridges' plans. Links and hops name a bridge by its index in this list. Functions of `app_networks`, `net_check`,
    /// `net_latency` and other crates call it.
    pub fn plans(&self) -> &[Accepted<A>]
        ensures plans { result.now ≡ self.now.plans }
        ensures network { IsNetwork (network_value self.now) }
    {
        self.plans.as_slice()
    }

    /// Returns the links between the bridges' ports. No port has two links. Runs, tables and delays of networks depend on them.
    pub fn links(&self) -> &[Link]
        ensures { result.now ≡ self.now.links }
    {
        self.links.as_slice()
    }

    /// Returns the streams, each as a list of hops. Runs, tables and delays of networks depend on them.
    pub fn streams(&self) -> &[Vec<StreamHop, A>]
        ensures streams { result.now ≡ self.now.streams }
        ensures closed { AreClosed self.now }
    {
        self.streams.as_slice()
    }
}

/// A refused network: its unchanged parts and its first fault. `--explain` needs the parts to explain the fault.
#[derive(Drop)]
pub struct RefusedNetwork<A: Allocator + Copy> {
    /// Plans of the bridges, unchanged.
    pub plans: Vec<Accepted<A>, A>,
    /// Links between the bridges' ports, unchanged.
    pub links: Vec<Link, A>,
    /// Streams, each as a list of hops, unchanged.
    pub streams: Vec<Vec<StreamHop, A>, A>,
    /// First fault, in the order of the tests.
    pub fault: NetworkFault,
}

/// Does nothing at run time: each call of `plan` gives the prover the fact that the plan is accepted, for `first_fault`.
fn assert_accepted<A: Allocator + Copy>(plans: &[Accepted<A>])
    ensures { All IsAccepted plans.now }
{
    for accepted in plans {
        let _plan = accepted.plan();
    }
}

/// Returns the first fault of the network, or `None` if it passes all tests. `check_network` calls this before it moves the parts into a
/// `Network`.
fn first_fault<A: Allocator + Copy>(
    plans: &[Accepted<A>],
    links: &[Link],
    streams: &[Vec<StreamHop, A>],
) -> Option<NetworkFault>
    ensures rules { All IsAccepted plans.now }
    ensures fault { result ≡ first_fault (record { plans = plans.now; links = links.now; streams = streams.now }) }
{
    assert_accepted(plans);
    let case = TestedNetwork {
        plans,
        links,
        streams,
    };
    case.fault()
}

/// Accepts a network that passes all tests of its links and streams. Otherwise returns the first fault and the unchanged parts. Allocates
/// no memory. `check_network_file` of `net_check` calls it.
pub fn check_network<A: Allocator + Copy>(
    plans: Vec<Accepted<A>, A>,
    links: Vec<Link, A>,
    streams: Vec<Vec<StreamHop, A>, A>,
) -> Result<Network<A>, RefusedNetwork<A>>
    ensures accepted { IfOk result (λ n. (n ≡ network_parts plans links streams) × (first_fault n ≡ None)) }
    ensures network { IfOk result (λ n. IsNetwork (network_value n)) }
    ensures closed { IfOk result AreClosed }
    ensures refused { IfErr result (λ r. first_fault (network_parts plans links streams) ≡ Some r.fault) }
    ensures handed_back { IfErr result (λ r. AreHandedBack plans links streams r.plans r.links r.streams) }
{
    match first_fault(plans.as_slice(), links.as_slice(), streams.as_slice()) {
        None => Ok(Network {
            plans,
            links,
            streams,
        }),
        Some(fault) => Err(RefusedNetwork {
            plans,
            links,
            streams,
            fault,
        }),
    }
}
