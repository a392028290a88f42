//! A link that counts at a node.

ghost use Rattle.std.specs.Prelude.{◌≡◌, ◌<◌, ◌≤◌, length, true};
ghost use Rattle.transyt_net.specs.Parts.{link_of};
ghost use Rattle.transyt_equisat.specs.Degrees.{is_counted, degree};
ghost use Rattle.transyt_equisat.specs.Peaks.{green_of};

use crate::fraction::Fraction;
use crate::node_greens::NodeGreens;

/// A link that counts at a node: it runs there, in exactly one stage.
#[derive(Clone, Copy)]
pub(crate) struct CountedLink<'a, 'b> {
    /// The greens of the node's stages.
    pub(crate) here: &'a NodeGreens<'b>,
    /// The place of the link, in card order from 0.
    pub(crate) place: usize,
    ghost inside: { place < length here.now.net.now.links },
    ghost counted: { is_counted here.now.number (link_of here.now.net.now place) ≡ true },
}

impl<'a, 'b> CountedLink<'a, 'b> {
    /// Its degree of saturation at the green of its stage.
    pub(crate) fn degree(&self) -> Fraction
        ensures value { result ≡ degree self.now.here.now.net.now.frame.step_count
            (link_of self.now.here.now.net.now self.now.place)
            (green_of self.now.here.now.greens.now (link_of self.now.here.now.net.now self.now.place)) }
        ensures top { result.top ≤ 10798920 }
        ensures base { result.base ≤ 1199880 }
    {
        let net = self.here.net;
        let link = &net.links()[self.place];
        let green = self.here.greens[link.stages[0] as usize - 1];
        Fraction {
            top: u64::from(net.total_flow(self.place)) * u64::from(net.frame().step_count),
            base: u64::from(link.saturation) * u64::from(green),
        }
    }
}
