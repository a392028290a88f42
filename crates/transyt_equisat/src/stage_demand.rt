//! The demand of one stage.

ghost use Rattle.std.specs.Prelude.{◌≡◌, ◌<◌, length};
ghost use Rattle.transyt_equisat.specs.Sharing.{green_by_demand, need_by_demand};

use crate::asked::Asked;
use crate::demand::degree_of;
use crate::fraction::{Fraction, is_above};

/// A stage of a node, with what its counted links ask.
#[derive(Clone, Copy)]
pub(crate) struct StageDemand<'a, 'b> {
    /// The demands of the node's stages.
    pub(crate) asked: &'a Asked<'b>,
    /// The place of the stage, in order from 0.
    pub(crate) place: usize,
    ghost inside: { place < length asked.now.stages },
}

impl<'a, 'b> StageDemand<'a, 'b> {
    /// Its least green at which its demand isn't above the peak, in steps.
    #[tactic(auto, using(crate::proofs::SearchLaws::first_skip, crate::proofs::SearchLaws::first_here))]
    pub(crate) fn green(&self, peak: Fraction) -> u32
        ensures { result ≡ green_by_demand self.now.asked.now peak self.now.place }
    {
        let steps = self.asked.steps();
        let least = self.asked.stages()[self.place].least;
        let demand = self.asked.demands()[self.place];
        for green in least..steps {
            if !is_above(degree_of(steps, demand, green), peak) {
                return green;
            }
        }
        steps
    }

    /// Its least green at which its demand is below the peak; 0 where the peak is 0.
    #[tactic(auto, using(crate::proofs::SearchLaws::first_skip, crate::proofs::SearchLaws::first_here))]
    pub(crate) fn need(&self, peak: Fraction) -> u32
        ensures { result ≡ need_by_demand self.now.asked.now peak self.now.place }
    {
        if peak.top == 0 {
            return 0;
        }
        let steps = self.asked.steps();
        let least = self.asked.stages()[self.place].least;
        let demand = self.asked.demands()[self.place];
        for green in least..steps {
            if is_above(peak, degree_of(steps, demand, green)) {
                return green;
            }
        }
        steps
    }
}
