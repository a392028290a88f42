//! The figures of a link, which are worked out only when they are asked for: all sweeps but the last need none.

ghost use Rattle.std.specs.Prelude.{◌≡◌, ◌<◌, length};
ghost use Rattle.transyt_net.specs.Parts.{link_of};
ghost use Rattle.transyt_sweep.specs.Cell.{terms_frame};
ghost use Rattle.transyt_kept.specs.Cell.{AreSmall};
ghost use Rattle.transyt_sweep.specs.Reading.{reweighed};
ghost use Rattle.transyt_sweep.specs.Scratch.{AreWeights};

use crate::inputs::Inputs;
use transyt_delay::{Figures, TermsFrame, weigh};
use transyt_net::Net;
use transyt_profile::Totals;

/// The terms of a link's figures beside its rows and their sums.
#[derive(Clone, Copy)]
pub(crate) struct Weights {
    /// The numbers of the network's frame.
    pub(crate) frame: TermsFrame,
    /// The link's weights.
    pub(crate) link: transyt_parts::Weights,
}

/// The figures of a link, known or still open.
#[derive(Clone, Copy)]
pub(crate) enum LazyFigures {
    /// These.
    Known(Figures),
    /// Those that the rows give with these weights; the sums of arrivals and of GO over a cycle are known already.
    Open(Weights, Totals),
}

/// The weights of the link of a cell.
pub(crate) fn weights_of(inputs: &Inputs<'_>) -> Weights
    ensures frame { result.frame ≡ terms_frame inputs.now.net.now.frame }
    ensures link { result.link ≡ (link_of inputs.now.net.now inputs.now.link).weights }
    ensures are { AreWeights result }
{
    let frame = inputs.net.frame();
    let at = inputs.net.link(inputs.link);
    Weights {
        frame: TermsFrame {
            cycle: frame.cycle,
            step_count: frame.step_count,
            period: frame.period,
            stop_penalty: frame.stop_penalty,
        },
        link: at.weights,
    }
}

/// The figures of a link with the index that the network's stop penalty and the link's weights give. It is no step.
pub fn reweigh(net: &Net, link: usize, figures: Figures) -> Figures
    requires link { link < length net.now.links }
    requires small { AreSmall figures }
    ensures value { result ≡ reweighed net.now link figures }
    ensures small { AreSmall result }
{
    let at = net.link(link);
    let index = weigh(
        figures.uniform,
        figures.random,
        figures.stops,
        net.frame().stop_penalty,
        at.weights,
    );
    Figures { index, ..figures }
}
