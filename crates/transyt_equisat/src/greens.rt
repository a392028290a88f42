//! The answer of the balance.

use std::marker::Model;

/// The green of a stage, in steps.
#[derive(Clone, Copy, PartialEq, Eq)]
pub struct Share {
    /// The step of the node's clock at which the stage begins.
    pub change: u32,
    /// Its green.
    pub green: u32,
    /// The least green at which each of its counted links is below the peak; 0 where the peak is 0.
    pub need: u32,
}

/// The stage lengths of equal saturation of a node. This project's own.
#[derive(Drop)]
pub struct Greens {
    /// The peak is `top` over `base`: the degree of the link that reaches it.
    pub top: u32,
    /// The peak's base, 1 where the peak is 0.
    pub base: u32,
    /// The card number of the first link that reaches the peak, 0 where the peak is 0.
    pub link: u32,
    /// The shares of the stages, in order.
    pub stages: Vec<Share>,
}

impl Model for Greens {
    ghost use Rattle.transyt_equisat.specs.Balance.{GreensValue};

    ghost Value = { GreensValue };

    ghost view = { λ g. record { top = g.top; base = g.base; link = g.link; stages = g.stages.items } };
}
