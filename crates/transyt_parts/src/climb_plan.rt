//! The plan of a climb.

use std::marker::Model;

/// The sizes that a climb tries, and how often it may look.
pub struct ClimbPlan {
    /// How many moves a climb looks at, at most: 1 to 1,000,000.
    pub budget: u32,
    /// By how many steps the moves shift an offset or a change: 1 to 16 sizes, each below the
    /// number of steps.
    pub sizes: Vec<u32>,
}

impl Drop for ClimbPlan {
    // Written out: a derived one is proved again in each crate that lets a value go.
    fn drop(self) {
        let ClimbPlan {
            budget: _,
            sizes: _,
        } = self;
    }
}

impl Model for ClimbPlan {
    ghost use Rattle.transyt_parts.specs.Parts.{PlanValue};

    ghost Value = { PlanValue };

    ghost view = { λ p. record { budget = p.budget; sizes = p.sizes.items } };
}
