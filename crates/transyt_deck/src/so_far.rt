//! The network so far, and what a card after it lacks.
ghost use Rattle.std.specs.Prelude.{◌≤◌};

use crate::state::State;
use transyt_net::{Link, Node, Stage};
use transyt_syntax::Found;

/// The steps of the cycle, and the nodes and the links so far.
#[derive(Clone, Copy)]
pub(crate) struct SoFar<'a> {
    step_count: u32,
    nodes: &'a [Node],
    links: &'a [Link],
}

impl<'a> SoFar<'a> {
    /// The network of a deck after its cards so far; before its CYCLE card a cycle of one step.
    pub(crate) fn of(state: &'a State) -> SoFar<'a> {
        match state {
            State::Making { draft, .. } => SoFar {
                step_count: draft.frame().step_count,
                nodes: draft.nodes(),
                links: draft.links(),
            },
            _ => SoFar {
                step_count: 1,
                nodes: &[],
                links: &[],
            },
        }
    }

    /// The steps of the cycle, at least 1.
    pub(crate) fn step_count(&self) -> u32
        ensures { 1 ≤ result }
    {
        self.step_count.max(1)
    }

    /// The number of the last node; 0 where there is none.
    pub(crate) fn last_node(&self) -> u32 {
        match self.nodes.last() {
            Some(node) => node.number,
            None => 0,
        }
    }

    /// Whether there is a link with this number.
    pub(crate) fn has_link(&self, number: u32) -> bool {
        self.links.iter().any(|link| link.number == number)
    }

    /// The first of two numbers of links that is none.
    pub(crate) fn missing_link(&self, first: u32, second: u32) -> Found {
        Found::NoLink(if self.has_link(first) { second } else { first })
    }

    /// The node that isn't there, or the first of these stages that it hasn't.
    pub(crate) fn missing_stage(&self, node: u32, stages: &[u32]) -> Found {
        for known in self.nodes {
            if known.number == node {
                let stage = first_past(known.stages.len(), stages);
                return Found::NoStage { node, stage };
            }
        }
        Found::NoNode(node)
    }

    /// Looks whether the stages of each node fit the cycle; what is wrong with the first that don't is what was found.
    pub(crate) fn check_plans(&self) -> Result<(), Found> {
        for node in self.nodes {
            check_plan(node.number, &node.stages, self.step_count)?;
        }
        Ok(())
    }
}

/// The first of these numbers that isn't one of 1 to `count`; 0 where each is.
fn first_past(count: usize, numbers: &[u32]) -> u32 {
    for number in numbers {
        if *number == 0 || *number as usize > count {
            return *number;
        }
    }
    0
}

/// The step at which the stage at a place begins, round the list.
fn change_at(stages: &[Stage], place: usize) -> u32 {
    match stages.get(place) {
        Some(stage) => stage.change,
        None => match stages {
            [first, ..] => first.change,
            [] => 0,
        },
    }
}

/// The length of the stage at a place, in steps.
fn length_at(stages: &[Stage], place: usize, step_count: u32) -> u32 {
    let begin = change_at(stages, place);
    let next = change_at(stages, place.saturating_add(1));
    if next >= begin {
        next - begin
    } else {
        next.saturating_add(step_count).saturating_sub(begin)
    }
}

/// Looks whether the stages of a node fit a cycle of this many steps; what is wrong with them is what was found: they are
/// too few, their lengths don't sum to the cycle, or the first that is shorter than its intergreen and its least green.
pub fn check_plan(node: u32, stages: &[Stage], step_count: u32) -> Result<(), Found> {
    if stages.len() < 2 {
        return Err(Found::FewStages { node });
    }
    let mut sum: u32 = 0;
    for place in 0..stages.len() {
        sum = sum.saturating_add(length_at(stages, place, step_count));
    }
    if sum != step_count {
        return Err(Found::StageSum {
            node,
            sum,
            step_count,
        });
    }
    check_lengths(node, stages, step_count)
}

/// Looks whether each stage has its intergreen and its least green; the first that hasn't is what was found.
fn check_lengths(node: u32, stages: &[Stage], step_count: u32) -> Result<(), Found> {
    let mut number: u32 = 0;
    for (place, stage) in stages.iter().enumerate() {
        number = number.saturating_add(1);
        let length = length_at(stages, place, step_count);
        if length < stage.intergreen.saturating_add(stage.least) {
            return Err(Found::ShortStage {
                node,
                stage: number,
                length,
                intergreen: stage.intergreen,
                least: stage.least,
            });
        }
    }
    Ok(())
}
