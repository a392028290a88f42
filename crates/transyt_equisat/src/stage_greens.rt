//! Greens of the stages of a node.

ghost use Rattle.std.specs.Prelude.{◌≡◌, ◌+◌, ◌<◌, ◌≤◌, length, sum, All};
ghost use Rattle.transyt_equisat.specs.Peaks.{intergreens};
ghost use Rattle.transyt_equisat.specs.Sharing.{share_by_demand};
ghost use Rattle.transyt_equisat.specs.Balance.{change_at};

use crate::asked::Asked;
use crate::fraction::Fraction;
use crate::greens::Share;
use crate::stage_demand::StageDemand;

/// A green for each stage of a node, none longer than the longest cycle.
#[derive(Clone, Copy)]
pub(crate) struct StageGreens<'a, 'b> {
    /// The demands of the node's stages.
    pub(crate) asked: &'a Asked<'b>,
    /// The greens, in the order of the stages, in steps.
    pub(crate) greens: &'a [u32],
    ghost count: { length greens.now ≡ length asked.now.stages },
    ghost small: { All (λ e. e ≤ 120) greens.now },
}

impl<'a, 'b> StageGreens<'a, 'b> {
    /// The steps that the greens and the intergreens take.
    pub(crate) fn taken(&self) -> u32
        ensures { result ≡ sum self.now.greens.now + intergreens self.now.asked.now.stages }
    {
        let stages = self.asked.stages();
        let mut all = 0;
        for place in 0..stages.len() {
            all += self.greens[place] + stages[place].intergreen;
        }
        all
    }

    /// The step of the node's clock at which the stage at a place begins.
    fn change_at(&self, place: usize) -> u32
        requires { place < length self.now.asked.now.stages }
        ensures { result
            ≡ change_at self.now.asked.now.steps self.now.asked.now.stages self.now.greens.now place }
    {
        let steps = self.asked.steps();
        let stages = self.asked.stages();
        let mut change = stages[0].change;
        for before in 0..place {
            change = (change + self.greens[before] + stages[before].intergreen) % steps;
        }
        change
    }

    /// The share of the stage at a place for a peak.
    pub(crate) fn share(&self, place: usize, peak: Fraction) -> Share
        requires { place < length self.now.asked.now.stages }
        ensures { result ≡ share_by_demand self.now.asked.now peak self.now.greens.now place }
    {
        let asked = self.asked;
        Share {
            change: self.change_at(place),
            green: self.greens[place],
            need: StageDemand { asked, place }.need(peak),
        }
    }
}
