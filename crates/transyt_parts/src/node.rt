//! Nodes and their stages.

ghost use Rattle.std.specs.Prelude.{◌≡◌, OnOk, OnErr};
ghost use Rattle.transyt_parts.specs.Made.{add_stage};

use std::alloc::AllocFailed;
use std::marker::Model;

/// A stage of a node. All of it is in steps.
#[derive(Clone, Copy, PartialEq, Eq)]
pub struct Stage {
    /// The step of the cycle at which the stage begins, before the node's offset is added.
    pub change: u32,
    /// The steps after the change in which, of the stage's links, only those run that run in the
    /// stage before too.
    pub intergreen: u32,
    /// The least green, at least 1.
    pub least: u32,
}

/// A node: a junction with signals, its stages in order.
pub struct Node {
    /// The node's card number, 1 to 99,999.
    pub number: u32,
    /// The steps by which the node's plan comes after the network's cycle.
    pub offset: u32,
    /// The stages in order, at most 8. The first follows the last.
    pub stages: Vec<Stage>,
}

impl Drop for Node {
    // Written out: a derived one is proved again in each crate that lets a value go.
    fn drop(self) {
        let Node {
            number: _,
            offset: _,
            stages: _,
        } = self;
    }
}

impl Model for Node {
    ghost use Rattle.transyt_parts.specs.Parts.{NodeValue};

    ghost Value = { NodeValue };

    ghost view = { λ n. record { number = n.number; offset = n.offset; stages = n.stages.items } };
}

/// Adds a stage to a node, after those that it has. Out of memory, the node stays as it is.
pub fn add_stage(node: &mut Node, stage: Stage) -> Result<(), AllocFailed<Stage>>
    ensures ok { OnOk result (node.new ≡ add_stage stage node.old) }
    ensures err { OnErr result (node.new ≡ node.old) }
{
    node.stages.push(stage)
}
