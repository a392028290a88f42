//! The demands of a node's stages.

ghost use Rattle.std.specs.Prelude.{◌≡◌, ◌<◌, length};
ghost use Rattle.transyt_net.specs.Parts.{node_of};
ghost use Rattle.transyt_equisat.specs.Sharing.{demands_of, AskedValue, IsAsked, asked_of};

use crate::demand::Demand;
use std::marker::Model;
use transyt_net::Net;
use transyt_parts::Stage;

/// The demands of a node's stages: the steps of the cycle, the stages, and for each the demand of its counted links.
#[derive(Drop)]
pub(crate) struct Asked<'a> {
    steps: u32,
    stages: &'a [Stage],
    demands: &'a [Demand],
}

impl<'a> Model for Asked<'a> {
    ghost use Rattle.transyt_equisat.specs.Sharing.{AskedValue, IsAsked};

    ghost Value = { AskedValue };

    ghost view = { λ a. record { steps = a.steps; stages = a.stages.now; demands = a.demands.now } };

    ghost invariant = { λ a. IsAsked
        (record { steps = a.steps; stages = a.stages.now; demands = a.demands.now }) };
}

impl<'a> Asked<'a> {
    /// The demands of the stages of the node at a place, where these are theirs.
    pub(crate) fn new(net: &'a Net, node: usize, demands: &'a [Demand]) -> Asked<'a>
        requires node { node < length net.now.nodes }
        requires demands { demands.now ≡ demands_of net.now (node_of net.now node).number
            (length (node_of net.now node).stages) }
        ensures { result ≡ asked_of net.now (node_of net.now node) }
    {
        let here = &net.nodes()[node];
        Asked {
            steps: net.frame().step_count,
            stages: &here.stages,
            demands,
        }
    }

    /// The steps of the cycle.
    pub(crate) fn steps(&self) -> u32
        ensures value { result ≡ self.now.steps }
        ensures asked { IsAsked self.now }
    {
        self.steps
    }

    /// The stages, in order.
    pub(crate) fn stages(&self) -> &[Stage]
        ensures value { result.now ≡ self.now.stages }
        ensures asked { IsAsked self.now }
    {
        self.stages
    }

    /// For each stage what its counted links ask.
    pub(crate) fn demands(&self) -> &[Demand]
        ensures value { result.now ≡ self.now.demands }
        ensures asked { IsAsked self.now }
    {
        self.demands
    }
}
