//! The network.

ghost use Rattle.std.specs.Prelude.{◌≡◌, ℕ, ◌+◌, ◌*◌, ◌/◌, ◌<◌, ◌≤◌, ◌^◌, length, map, IfSome, IfNone, IfOk, ◌↔◌, IsTrue, false};
ghost use Rattle.std.specs.Option.{option_map};
ghost use Rattle.transyt_net.specs.Valid.{node_numbers, link_numbers, place_of, is_among, IsLink, IsValid};
ghost use Rattle.transyt_net.specs.Parts.{SameShape, perstep, with_cycle, with_signals, node_of, link_of};
ghost use Rattle.transyt_parts.specs.Parts.{total_flow};
ghost use Rattle.transyt_net.specs.Edits.{the_node};
ghost use Rattle.transyt_parts.specs.Valid.{IsNode};

mod apply;
mod judge;

use crate::both::both;
use crate::places::{Numbers, node_at};
use std::alloc::{AllocError, Global};
use std::marker::Model;
use transyt_parts::{
    ClimbPlan, Frame, Link, Node, copy_links, copy_nodes, copy_plan, same_frame, same_links,
    same_nodes, same_plan, take_links, take_nodes,
};

/// A network that is valid at all times.
///
/// A contract sees its frame, its nodes, its links and its climb plan or none, in card order. That
/// it is valid is told by the clause `valid` of the accessors.
pub struct Net {
    pub(crate) frame: Frame,
    pub(crate) nodes: Vec<Node>,
    pub(crate) links: Vec<Link>,
    /// The total flow of each link, in card order, in vehicles per hour.
    pub(crate) totals: Vec<u32>,
    pub(crate) plan: Option<ClimbPlan>,
    pub(crate) node_places: Numbers,
    pub(crate) link_places: Numbers,
}

impl Drop for Net {
    // Written out: a derived one is proved again in each crate that lets a value go.
    fn drop(self) {
        let Net {
            frame: _,
            nodes: _,
            links: _,
            totals: _,
            plan: _,
            node_places: _,
            link_places: _,
        } = self;
    }
}

impl Model for Net {
    ghost use Rattle.std.specs.Prelude.{◌≡◌, map};
    ghost use Rattle.transyt_net.specs.Parts.{Network, network_of};

    ghost Value = { Network };

    ghost use Rattle.transyt_net.specs.Valid.{IsValid, node_numbers, link_numbers};
    ghost use Rattle.transyt_parts.specs.Parts.{total_flow};

    ghost view = { λ n. network_of n.frame n.nodes.items n.links.items n.plan };

    ghost invariant = { λ n.
        IsValid (network_of n.frame n.nodes.items n.links.items n.plan)
        × (n.node_places ≡ node_numbers n.nodes.items)
        × (n.link_places ≡ link_numbers n.links.items)
        × (n.totals.items ≡ map total_flow n.links.items) };
}

impl Net {
    /// The numbers of the whole network.
    pub fn frame(&self) -> Frame
        ensures value { result ≡ self.now.frame }
        ensures valid { IsValid self.now }
    {
        self.frame
    }

    /// The nodes in card order.
    pub fn nodes(&self) -> &[Node]
        ensures value { result.now ≡ self.now.nodes }
        ensures valid { IsValid self.now }
    {
        &self.nodes
    }

    /// The links in card order.
    pub fn links(&self) -> &[Link]
        ensures value { result.now ≡ self.now.links }
        ensures valid { IsValid self.now }
    {
        &self.links
    }

    /// The link at a place, from 0 in card order.
    pub fn link(&self, place: usize) -> &Link
        requires { place < length self.now.links }
        ensures value { result.now ≡ link_of self.now place }
        ensures kept { IsLink self.now.frame.step_count self.now.nodes
            (link_numbers self.now.links) result.now }
    {
        &self.links[place]
    }

    /// The node at whose stop line the link at a place ends.
    pub fn node_of(&self, link: usize) -> &Node
        requires { link < length self.now.links }
        ensures value { result.now ≡ the_node self.now (link_of self.now link).node }
        ensures kept { IsNode self.now.frame.step_count result.now }
    {
        let number = self.link(link).node;
        match node_at(&self.node_places, &self.nodes, number) {
            Some(node) => node,
            None => unreachable!(),
        }
    }

    /// The climb plan, if there is one.
    pub fn plan(&self) -> Option<&ClimbPlan>
        ensures value { option_map (λ p. p.now) result ≡ self.now.plan }
        ensures valid { IsValid self.now }
    {
        self.plan.as_ref()
    }

    /// The place of a node's number, from 0 in card order.
    pub fn node_place(&self, number: u32) -> Option<usize>
        ensures place { result ≡ place_of (node_numbers self.now.nodes) number }
        ensures found { IfSome result (λ p.
            (p < length self.now.nodes) × ((node_of self.now p).number ≡ number)) }
        ensures absent { IfNone result (is_among (node_numbers self.now.nodes) number ≡ false) }
    {
        self.node_places.place(number)
    }

    /// The place of a link's number, from 0 in card order.
    pub fn link_place(&self, number: u32) -> Option<usize>
        ensures place { result ≡ place_of (link_numbers self.now.links) number }
        ensures found { IfSome result (λ p.
            (p < length self.now.links) × ((link_of self.now p).number ≡ number)) }
        ensures absent { IfNone result (is_among (link_numbers self.now.links) number ≡ false) }
    {
        self.link_places.place(number)
    }

    /// A flow in vehicles per hour as units per step, rounded down. A unit is a millionth of a
    /// vehicle.
    ///
    /// Both terms are 400 times smaller than in the definition: a quotient of 32 bits takes a third of the time.
    #[tactic(auto, using(crate::proofs::FlowLaws::perstep_is))]
    pub fn per_step(&self, flow: u32) -> u64
        requires { flow ≤ 100000 }
        ensures value { result ≡ perstep self.now.frame flow }
        ensures small { result < 2 ^ 30 }
    {
        flow as u64 * self.frame.cycle as u64 * 2500 / (9 * self.frame.step_count as u64)
    }

    /// The entry flow of the link at a place and the flows of its feeds, in vehicles per hour.
    #[tactic(auto, using(crate::proofs::TotalLaws::total_at))]
    pub fn total_flow(&self, link: usize) -> u32
        requires { link < length self.now.links }
        ensures value { result ≡ total_flow (link_of self.now link) }
        ensures small { result ≤ 89991 }
    {
        self.totals[link]
    }

    /// Whether the two differ at most in numbers that an edit sets.
    pub fn same_shape(&self, other: &Net) -> bool
        ensures { IsTrue result ↔ SameShape self.now other.now }
    {
        same_frame(self.frame, other.frame)
            && same_nodes(&self.nodes, &other.nodes)
            && same_links(&self.links, &other.links)
            && same_plan(&self.plan, &other.plan)
    }

    /// Becomes equal to `from`, which has the same shape. It takes no memory.
    pub fn take_numbers(&mut self, from: &Net)
        requires { SameShape self.old from.now }
        ensures { self.new ≡ from.now }
    {
        take_nodes(&mut self.nodes, &from.nodes);
        take_links(&mut self.links, &from.links);
        self.totals.copy_from_slice(&from.totals);
    }

    /// An equal network, with memory of its own.
    pub fn copy(&self, alloc: Global) -> Result<Net, AllocError>
        ensures { IfOk result (λ net. net ≡ self.now) }
    {
        self.with_signals(alloc, self.frame, &self.nodes)
    }

    /// A network with this frame and these nodes, and with the links and the climb plan that are here.
    ///
    /// The nodes have the card numbers of those here, in the same order. It fails only when out of memory.
    pub fn with_signals(
        &self,
        alloc: Global,
        frame: Frame,
        nodes: &[Node],
    ) -> Result<Net, AllocError>
        requires numbers { node_numbers nodes.now ≡ node_numbers self.now.nodes }
        requires valid { IsValid (with_signals self.now frame nodes.now) }
        ensures { IfOk result (λ net. net ≡ with_signals self.now frame nodes.now) }
    {
        let places = both(self.node_places.copy(alloc), self.link_places.copy(alloc));
        let counts = both(
            Vec::from_slice(alloc, &self.totals),
            copy_plan(alloc, &self.plan),
        );
        let parts = both(copy_nodes(alloc, nodes), copy_links(alloc, &self.links));
        let ((places, counts), (nodes, links)) = both(both(places, counts), parts)?;
        let (node_places, link_places) = places;
        let (totals, plan) = counts;
        Ok(Net {
            frame,
            nodes,
            links,
            totals,
            plan,
            node_places,
            link_places,
        })
    }

    /// A copy of the network with this cycle, in seconds, in its frame.
    pub fn with_cycle(&self, alloc: Global, cycle: u32) -> Result<Net, AllocError>
        requires low { 30 ≤ cycle }
        requires high { cycle ≤ 240 }
        ensures { IfOk result (λ net. net ≡ with_cycle self.now cycle) }
    {
        let mut net = self.copy(alloc)?;
        net.frame.cycle = cycle;
        Ok(net)
    }
}
