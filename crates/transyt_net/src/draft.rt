//! A network that is being made.

ghost use Rattle.std.specs.Prelude.{◌≡◌, ℕ, ◌-◌, ◌<◌, ◌≤◌, length, Some, None, IfErr, IfOk, OnOk, OnErr, IsTrue, IsOk, ◌↔◌};
ghost use Rattle.transyt_net.specs.Valid.{IsValid};
ghost use Rattle.transyt_net.specs.Faults.{Refuses, empty, node_fault, with_node, stage_fault, with_stage, link_fault};
ghost use Rattle.transyt_net.specs.Faults.{with_link, feed_fault, with_feed, rule_fault, with_rule, climb_fault};
ghost use Rattle.transyt_net.specs.Faults.{with_plan};
ghost use Rattle.transyt_parts.specs.Valid.{is_frame};
ghost use Rattle.transyt_parts.specs.Plan.{first_fault};
ghost use Rattle.transyt_parts.specs.Made.{new_stage, link_from, new_feed, new_rule, new_plan};

mod fault;

use crate::net::Net;
use crate::places::Numbers;
use std::alloc::{AllocError, AllocFailed, Global};
use std::marker::Model;
use transyt_parts::{
    ClimbPlan, Feed, Frame, GiveWay, Link, NewLink, Node, PlanFault, Stage, add_feed, add_stage,
    all_flow, first_fault, is_frame_in_range, set_rule,
};

/// Why a draft refuses, in the order in which the faults are asked for.
#[derive(Clone, Copy, Debug, PartialEq, Eq)]
pub enum DraftFault {
    /// The number, the feeder or the rule is there already, or a stage stands twice in one link
    /// (16).
    Twice,
    /// The node, the stage or the link is unknown (17).
    Unknown,
    /// A number is out of its range (14).
    Range,
    /// No more of these fit: 200 nodes, 8 stages of a node, 1,000 links, 8 feeds of a link (20).
    TooMany,
    /// Out of memory. It comes only where no other fault holds.
    Memory,
}

impl<T: Drop> From<AllocFailed<T>> for DraftFault {
    ghost use Rattle.transyt_net.specs.declared.draft.DraftFault.TheVariants.{Memory};

    ghost from_gives = { λ _ fault. fault ≡ Memory };

    /// Out of memory.
    fn from(_e: AllocFailed<T>) -> DraftFault {
        DraftFault::Memory
    }
}

impl From<AllocError> for DraftFault {
    ghost use Rattle.transyt_net.specs.declared.draft.DraftFault.TheVariants.{Memory};

    ghost from_gives = { λ _ fault. fault ≡ Memory };

    /// Out of memory.
    fn from(_e: AllocError) -> DraftFault {
        DraftFault::Memory
    }
}

/// A network that is being made: always valid, but for its stage plans.
///
/// Each call refuses with the first fault that holds, in the order of `DraftFault`, and a refusal
/// changes nothing, out of memory included. The calls may come in any order that their conditions
/// leave.
pub struct Draft {
    alloc: Global,
    frame: Frame,
    nodes: Vec<Node>,
    links: Vec<Link>,
    /// The total flow of each link, in card order, in vehicles per hour.
    totals: Vec<u32>,
    plan: Option<ClimbPlan>,
    node_places: Numbers,
    link_places: Numbers,
}

impl Drop for Draft {
    // Written out: a derived one is proved again in each crate that lets a value go.
    fn drop(self) {
        let Draft {
            alloc: _,
            frame: _,
            nodes: _,
            links: _,
            totals: _,
            plan: _,
            node_places: _,
            link_places: _,
        } = self;
    }
}

impl Model for Draft {
    ghost use Rattle.std.specs.Prelude.{◌≡◌, map};
    ghost use Rattle.transyt_net.specs.Parts.{Network, network_of};

    ghost Value = { Network };

    ghost use Rattle.transyt_net.specs.Valid.{IsSound, node_numbers, link_numbers};
    ghost use Rattle.transyt_parts.specs.Parts.{total_flow};

    ghost view = { λ n. network_of n.frame n.nodes.items n.links.items n.plan };

    ghost invariant = { λ n.
        IsSound (network_of n.frame n.nodes.items n.links.items n.plan)
        × (n.node_places ≡ node_numbers n.nodes.items)
        × (n.link_places ≡ link_numbers n.links.items)
        × (n.totals.items ≡ map total_flow n.links.items) };
}

impl Draft {
    /// An empty draft with this frame, or Range where a number of the frame is out of range. It
    /// takes no memory; `alloc` serves the later calls.
    pub fn new(alloc: Global, frame: Frame) -> Result<Draft, DraftFault>
        ensures ok { IfOk result (λ draft. draft ≡ empty frame) }
        ensures err { IfErr result (λ fault. fault ≡ DraftFault.Range) }
        ensures fault { IsOk result ↔ IsTrue (is_frame frame) }
    {
        if !is_frame_in_range(frame) {
            return Err(DraftFault::Range);
        }
        Ok(Draft {
            alloc,
            frame,
            nodes: Vec::new(alloc),
            links: Vec::new(alloc),
            totals: Vec::new(alloc),
            plan: None,
            node_places: Numbers::new(alloc),
            link_places: Numbers::new(alloc),
        })
    }

    /// Adds a node, which has no stage yet. `offset` is in steps.
    ///
    /// Twice where a node has this number, Range, TooMany where there are 200 nodes, in this order.
    pub fn node(&mut self, number: u32, offset: u32) -> Result<(), DraftFault>
        ensures refuses { Refuses result (node_fault self.old number offset)
            (Some DraftFault.Memory) }
        ensures ok { OnOk result (self.new ≡ with_node self.old number offset) }
        ensures err { OnErr result (self.new ≡ self.old) }
    {
        if let Some(fault) = self.node_fault(number, offset) {
            return Err(fault);
        }
        self.nodes.reserve(1)?;
        self.node_places.push(number)?;
        self.nodes.push_reserved(Node {
            number,
            offset,
            stages: Vec::new(self.alloc),
        });
        Ok(())
    }

    /// Adds a stage to the last node. All three are in steps.
    ///
    /// Range, or else TooMany where the node has 8 stages.
    pub fn stage(&mut self, change: u32, intergreen: u32, least: u32) -> Result<(), DraftFault>
        requires { 0 < length self.old.nodes }
        ensures refuses { Refuses result (stage_fault self.old (new_stage change intergreen least))
            (Some DraftFault.Memory) }
        ensures ok { OnOk result (self.new ≡ with_stage self.old
            (new_stage change intergreen least)) }
        ensures err { OnErr result (self.new ≡ self.old) }
        ensures count { length self.new.nodes ≡ length self.old.nodes }
    {
        let stage = Stage {
            change,
            intergreen,
            least,
        };
        if let Some(fault) = self.stage_fault(stage) {
            return Err(fault);
        }
        let last = self.nodes.len() - 1;
        let node = &mut self.nodes[last];
        add_stage(node, stage)?;
        Ok(())
    }

    /// Adds a link, which has neither feeds nor a rule yet.
    ///
    /// Flows are in vehicles per hour, lags in steps, and `stages` are the stages of its node in
    /// which it runs, each from 1. Twice where a link has this number or a stage stands twice;
    /// Unknown where there is no such node, or it hasn't one of the stages; Range; TooMany where
    /// there are 1,000 links; in this order.
    pub fn link(&mut self, link: NewLink, stages: &[u32]) -> Result<(), DraftFault>
        requires some { 1 ≤ length stages.now }
        requires most { length stages.now ≤ 8 }
        ensures refuses { Refuses result (link_fault self.old (link_from link stages.now))
            (Some DraftFault.Memory) }
        ensures ok { OnOk result (self.new ≡ with_link self.old (link_from link stages.now)) }
        ensures err { OnErr result (self.new ≡ self.old) }
    {
        if let Some(fault) = self.link_fault(link, stages) {
            return Err(fault);
        }
        self.links.reserve(1)?;
        self.totals.reserve(1)?;
        let stages = Vec::from_slice(self.alloc, stages)?;
        self.link_places.push(link.number)?;
        self.totals.push_reserved(link.entry);
        self.links.push_reserved(Link {
            number: link.number,
            node: link.node,
            entry: link.entry,
            saturation: link.saturation,
            weights: link.weights,
            start_lag: link.start_lag,
            end_lag: link.end_lag,
            stages,
            feeds: Vec::new(self.alloc),
            gives_way: None,
        });
        Ok(())
    }

    /// Adds a feed of a link, after those that it has. `flow` is in vehicles per hour, `cruise` in
    /// seconds.
    ///
    /// Twice where this feeder feeds the link already, Unknown where one of the two is no link,
    /// Range, TooMany where the link has 8 feeds, in this order.
    pub fn feed(&mut self, link: u32, feeder: u32, flow: u32, cruise: u32) -> Result<(), DraftFault>
        ensures refuses { Refuses result (feed_fault self.old link (new_feed feeder flow cruise))
            (Some DraftFault.Memory) }
        ensures ok { OnOk result (self.new ≡ with_feed self.old link
            (new_feed feeder flow cruise)) }
        ensures err { OnErr result (self.new ≡ self.old) }
    {
        let feed = Feed {
            feeder,
            flow,
            cruise,
        };
        if let Some(fault) = self.feed_fault(link, feed) {
            return Err(fault);
        }
        let Some(place) = self.link_places.place(link) else {
            unreachable!();
        };
        let owner = &mut self.links[place];
        add_feed(owner, feed)?;
        self.totals[place] = all_flow(owner);
        Ok(())
    }

    /// Sets the give-way rule of a link. It takes no memory.
    ///
    /// Twice where the link has a rule already, Unknown where one of the two is no link, Range
    /// where `percent` is above 400, in this order.
    pub fn give_way(&mut self, link: u32, other: u32, percent: u32) -> Result<(), DraftFault>
        ensures refuses { Refuses result (rule_fault self.old link (new_rule other percent)) None }
        ensures ok { OnOk result (self.new ≡ with_rule self.old link (new_rule other percent)) }
        ensures err { OnErr result (self.new ≡ self.old) }
    {
        let rule = GiveWay { other, percent };
        if let Some(fault) = self.rule_fault(link, rule) {
            return Err(fault);
        }
        let Some(place) = self.link_places.place(link) else {
            unreachable!();
        };
        let owner = &mut self.links[place];
        set_rule(owner, rule);
        Ok(())
    }

    /// Sets the climb plan. `sizes` are in steps, each from 1 and below the number of steps.
    ///
    /// Range where the budget or a size isn't in its range.
    pub fn plan(&mut self, budget: u32, sizes: &[u32]) -> Result<(), DraftFault>
        requires unset { self.old.plan ≡ None }
        requires some { 1 ≤ length sizes.now }
        requires most { length sizes.now ≤ 16 }
        ensures refuses { Refuses result (climb_fault self.old (new_plan budget sizes.now))
            (Some DraftFault.Memory) }
        ensures ok { OnOk result (self.new ≡ with_plan self.old (new_plan budget sizes.now)) }
        ensures err { OnErr result (self.new ≡ self.old) }
    {
        if let Some(fault) = self.climb_fault(budget, sizes) {
            return Err(fault);
        }
        let sizes = Vec::from_slice(self.alloc, sizes)?;
        self.plan = Some(ClimbPlan { budget, sizes });
        Ok(())
    }

    /// The first fault of the nodes' plans, node by node in order; none exactly where the draft is
    /// a valid network.
    #[tactic(auto, using(transyt_parts::proofs::PlanLaws::all_planned, transyt_parts::proofs::PlanLaws::none_first))]
    pub fn judge(&self) -> Option<PlanFault>
        ensures value { result ≡ first_fault self.now.frame.step_count self.now.nodes }
        ensures valid { result ≡ None ↔ IsValid self.now }
    {
        first_fault(self.frame.step_count, &self.nodes)
    }

    /// The frame.
    pub fn frame(&self) -> Frame
        ensures { result ≡ self.now.frame }
    {
        self.frame
    }

    /// The nodes so far, in card order.
    pub fn nodes(&self) -> &[Node]
        ensures { result.now ≡ self.now.nodes }
    {
        &self.nodes
    }

    /// The links so far, in card order.
    pub fn links(&self) -> &[Link]
        ensures { result.now ≡ self.now.links }
    {
        &self.links
    }

    /// The network that was made. It takes no memory.
    #[tactic(auto, using(transyt_parts::proofs::PlanLaws::all_planned))]
    pub fn close(self) -> Net
        requires { first_fault self.frame.step_count self.nodes ≡ None }
        ensures { result ≡ self }
    {
        let Draft {
            alloc: _,
            frame,
            nodes,
            links,
            totals,
            plan,
            node_places,
            link_places,
        } = self;
        Net {
            frame,
            nodes,
            links,
            totals,
            plan,
            node_places,
            link_places,
        }
    }
}
