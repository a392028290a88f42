//! The first fault of each call of a draft.

ghost use Rattle.std.specs.Prelude.{is_some, ◌≡◌, ◌-◌, ◌<◌, length, slice_get};
ghost use Rattle.transyt_net.specs.Valid.{feeds_at, rule_at, stage_total};
ghost use Rattle.transyt_net.specs.Faults.{node_fault, last_place, stage_fault, link_fault, are_links, feed_fault, rule_fault, climb_fault};
ghost use Rattle.transyt_parts.specs.Made.{link_from, new_plan};

use super::{Draft, DraftFault};
use crate::places::{is_fed, link_at, stages_at};
use transyt_parts::{
    Feed, GiveWay, NewLink, Stage, all_differ, all_within, is_budget, is_feed_in_range,
    is_link_in_range, is_node_in_range, is_percent, is_stage_in_range,
};

impl Draft {
    /// The first fault of a new node.
    pub(super) fn node_fault(&self, number: u32, offset: u32) -> Option<DraftFault>
        ensures { result ≡ node_fault self.now number offset }
    {
        if self.node_places.contains(number) {
            return Some(DraftFault::Twice);
        }
        if !is_node_in_range(self.frame.step_count, number, offset) {
            return Some(DraftFault::Range);
        }
        if self.nodes.len() >= 200 {
            return Some(DraftFault::TooMany);
        }
        None
    }

    /// The first fault of a new stage of the last node.
    pub(super) fn stage_fault(&self, stage: Stage) -> Option<DraftFault>
        requires { 0 < length self.now.nodes }
        ensures { result ≡ stage_fault self.now stage }
    {
        if !is_stage_in_range(self.frame.step_count, stage) {
            return Some(DraftFault::Range);
        }
        if self.last_stages() >= 8 {
            return Some(DraftFault::TooMany);
        }
        None
    }

    /// How many stages the last node has; 0 where there is no node.
    fn last_stages(&self) -> usize
        ensures { result ≡ stage_total (slice_get self.now.nodes (last_place self.now.nodes)) }
    {
        match self.nodes.last() {
            Some(last) => last.stages.len(),
            None => 0,
        }
    }

    /// Whether the link of this number has a give-way rule.
    fn has_rule(&self, link: u32) -> bool
        ensures { result ≡ is_some (rule_at self.now.links link) }
    {
        match link_at(&self.link_places, &self.links, link) {
            Some(owner) => owner.gives_way.is_some(),
            None => false,
        }
    }

    /// How many feeds the link of this number has.
    fn feed_count(&self, link: u32) -> usize
        ensures { result ≡ length (feeds_at self.now.links link) }
    {
        match link_at(&self.link_places, &self.links, link) {
            Some(owner) => owner.feeds.len(),
            None => 0,
        }
    }

    /// Whether both are numbers of links.
    fn are_links(&self, a: u32, b: u32) -> bool
        ensures { result ≡ are_links self.now a b }
    {
        self.link_places.contains(a) && self.link_places.contains(b)
    }

    /// The first fault of a new link.
    pub(super) fn link_fault(&self, link: NewLink, stages: &[u32]) -> Option<DraftFault>
        ensures { result ≡ link_fault self.now (link_from link stages.now) }
    {
        if self.link_places.contains(link.number) || !all_differ(stages) {
            return Some(DraftFault::Twice);
        }
        let count = stages_at(&self.node_places, &self.nodes, link.node);
        if !(self.node_places.contains(link.node) && all_within(1, count, stages)) {
            return Some(DraftFault::Unknown);
        }
        if !is_link_in_range(self.frame.step_count, link) {
            return Some(DraftFault::Range);
        }
        if self.links.len() >= 1000 {
            return Some(DraftFault::TooMany);
        }
        None
    }

    /// The first fault of a new feed.
    pub(super) fn feed_fault(&self, link: u32, feed: Feed) -> Option<DraftFault>
        ensures { result ≡ feed_fault self.now link feed }
    {
        if is_fed(&self.link_places, &self.links, link, feed.feeder) {
            return Some(DraftFault::Twice);
        }
        if !self.are_links(link, feed.feeder) {
            return Some(DraftFault::Unknown);
        }
        if !is_feed_in_range(feed) {
            return Some(DraftFault::Range);
        }
        if self.feed_count(link) >= 8 {
            return Some(DraftFault::TooMany);
        }
        None
    }

    /// The first fault of a new give-way rule.
    pub(super) fn rule_fault(&self, link: u32, rule: GiveWay) -> Option<DraftFault>
        ensures { result ≡ rule_fault self.now link rule }
    {
        if self.has_rule(link) {
            return Some(DraftFault::Twice);
        }
        if !self.are_links(link, rule.other) {
            return Some(DraftFault::Unknown);
        }
        if !is_percent(rule.percent) {
            return Some(DraftFault::Range);
        }
        None
    }

    /// The fault of a climb plan.
    pub(super) fn climb_fault(&self, budget: u32, sizes: &[u32]) -> Option<DraftFault>
        ensures { result ≡ climb_fault self.now (new_plan budget sizes.now) }
    {
        let most = self.frame.step_count - 1;
        if !(is_budget(budget) && all_within(1, most as usize, sizes)) {
            return Some(DraftFault::Range);
        }
        None
    }
}
