//! The parts of a network of signals, each by itself, and the plan of a node's stages.
//!
//! A contract sees a node, a link and a climb plan as the records of `specs/Parts`, with a list in
//! place of each vector: `NodeValue`, `LinkValue` and `PlanValue`; frames, stages, feeds and rules
//! are seen as they are. Cite first: `is_in` and `IsIn` of `specs/Ranges` for ranges, `IsNode`
//! and its like of `specs/Valid` for what a part keeps to, `link_from` and its like of `specs/Made` for parts
//! of given numbers, `bare_node` and `bare_link` there for what no edit changes, `length_at`,
//! `plan_fault` and `first_fault` of `specs/Plan`, and `total_flow` of `specs/Parts`.
//!
//! The parts are those of Robertson's TRANSYT (LR 253); lags, give-way rules, climb plans and all
//! limits are this project's own.
//!
//! - It has each part by itself, with public fields. `specs/Valid` says when a part by itself is valid. `specs/Plan`
//!   has the stage plan, `specs/Made` the parts of given numbers and the shape that no edit changes.
//! - The facts of parts among others are `transyt_net`'s: that numbers differ, and that names are known.
#![tactic(auto)]

mod climb_plan;
mod copy;
mod frame;
mod laws;
mod link;
mod node;
mod range;
mod shape;
mod stage_plan;

pub use climb_plan::ClimbPlan;
pub use copy::{copy_links, copy_nodes, copy_plan};
pub use frame::Frame;
pub use laws::{plans_are_judged, tests_tell, worked_parts};
pub use link::{Feed, GiveWay, Link, NewLink, Weights, add_feed, all_flow, has_feeder, set_rule};
pub use node::{Node, Stage, add_stage};
pub use range::{
    all_differ, all_within, are_weights, is_budget, is_cruise, is_feed_in_range, is_flow,
    is_frame_in_range, is_link_in_range, is_node_in_range, is_number, is_percent, is_saturation,
    is_stage_in_range, is_weight, is_within,
};
pub use shape::{same_frame, same_links, same_nodes, same_plan, take_links, take_nodes};
pub use stage_plan::{PlanFault, first_fault, have_greens, in_order, plan_fault, stage_length};
