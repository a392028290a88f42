//! The balance of a node.

ghost use Rattle.std.specs.Prelude.{◌≡◌, ℕ, ◌+◌, ◌-◌, ◌<◌, ◌≤◌, length, map, sum, All, IfOk, IfSome, true, option_map, Some};
ghost use Rattle.std.specs.List.{range_with_len, find};
ghost use Rattle.transyt_net.specs.Parts.{node_of, link_of};
ghost use Rattle.transyt_equisat.specs.Degrees.{is_counted};
ghost use Rattle.transyt_equisat.specs.Peaks.{intergreens};
ghost use Rattle.transyt_equisat.specs.Sharing.{green_by_demand, share_by_demand, IsLeastPeak};
ghost use Rattle.transyt_equisat.specs.Balance.{balance, balance_at, greens_at, is_same, first_more, reaches, reaching};
ghost use Rattle.transyt_equisat.specs.Balance.{peak_of, IsBalanced};

use crate::asked::Asked;
use crate::counted_link::CountedLink;
use crate::demand::demands_of;
use crate::fraction::Fraction;
use crate::greens::{Greens, Share};
use crate::node_demand::NodeDemand;
use crate::node_greens::NodeGreens;
use crate::sharing::least_peak;
use crate::stage_demand::StageDemand;
use crate::stage_greens::StageGreens;
use std::alloc::{AllocError, Global};
use transyt_net::{Link, Net};

/// Whether two fractions are equal.
fn is_same(a: Fraction, b: Fraction) -> bool
    ensures { result ≡ is_same a b }
{
    u128::from(a.top) * u128::from(b.base) == u128::from(b.top) * u128::from(a.base)
}

/// Whether a link counts at a node: it runs there, in exactly one stage.
fn is_counted(link: &Link, number: u32) -> bool
    ensures { result ≡ is_counted number link.now }
{
    link.node == number && link.stages.len() == 1
}

/// The least greens of the stages for a peak.
#[tactic(auto, using(crate::proofs::AskedLaws::range_next))]
fn greens_for(alloc: Global, asked: &Asked, peak: Fraction) -> Result<Vec<u32>, AllocError>
    ensures { IfOk result (λ greens. greens.items ≡
        map (green_by_demand asked.now peak) (range_with_len 0 (length asked.now.stages))) }
{
    let count = asked.stages().len();
    let mut greens = Vec::with_capacity(alloc, count)?;
    for place in 0..count {
        greens.push(StageDemand { asked, place }.green(peak))?;
    }
    Ok(greens)
}

/// The shares of the stages for a peak and greens.
#[tactic(auto, using(crate::proofs::AskedLaws::range_next))]
fn shares_for(
    alloc: Global,
    here: &StageGreens<'_, '_>,
    peak: Fraction,
) -> Result<Vec<Share>, AllocError>
    ensures { IfOk result (λ shares. shares.items
        ≡ map (share_by_demand here.now.asked.now peak here.now.greens.now)
        (range_with_len 0 (length here.now.asked.now.stages))) }
{
    let count = here.asked.stages().len();
    let mut shares = Vec::with_capacity(alloc, count)?;
    for place in 0..count {
        shares.push(here.share(place, peak))?;
    }
    Ok(shares)
}

/// Greens with what is left of the cycle given to the first stage.
fn filled(asked: &Asked, greens: Vec<u32>) -> Vec<u32>
    requires count { length greens.items ≡ length asked.now.stages }
    requires room { sum greens.items + intergreens asked.now.stages ≤ asked.now.steps }
    ensures value { result.items
        ≡ first_more (asked.now.steps - (sum greens.items + intergreens asked.now.stages))
        greens.items }
    ensures small { All (λ e. e ≤ 120) result.items }
{
    let used = StageGreens {
        asked,
        greens: &greens,
    };
    let left = asked.steps() - used.taken();
    let mut filled = greens;
    filled[0] += left;
    filled
}

/// Whether the link at a place counts at the node, and reaches the peak.
fn reaches(here: &NodeGreens<'_>, place: usize, peak: Fraction) -> bool
    requires { place < length here.now.net.now.links }
    ensures { result ≡ reaches here.now.net.now here.now.number peak here.now.greens.now
        (link_of here.now.net.now place) }
{
    let link = &here.net.links()[place];
    is_counted(link, here.number) && is_same(CountedLink { here, place }.degree(), peak)
}

/// The place of the first counted link that reaches the peak.
#[tactic(auto, using(crate::proofs::SearchLaws::find_skip))]
fn reaching(here: &NodeGreens<'_>, peak: Fraction) -> Option<usize>
    ensures value { option_map (link_of here.now.net.now) result
        ≡ find (reaches here.now.net.now here.now.number peak here.now.greens.now)
        here.now.net.now.links }
    ensures inside { IfSome result (λ p. (p < length here.now.net.now.links)
        × (is_counted here.now.number (link_of here.now.net.now p) ≡ true)) }
{
    for place in 0..here.net.links().len() {
        if reaches(here, place, peak) {
            return Some(place);
        }
    }
    None
}

/// The peak as an answer tells it.
struct Peak {
    top: u32,
    base: u32,
    link: u32,
}

/// The peak as a link has it.
fn peak_of(counted: &CountedLink<'_, '_>) -> Peak
    ensures { result ≡ peak_of counted.now.here.now.net.now.frame.step_count
        counted.now.here.now.greens.now
        (Some (link_of counted.now.here.now.net.now counted.now.place)) }
{
    let net = counted.here.net;
    let link = &net.links()[counted.place];
    let degree = counted.degree();
    Peak {
        top: degree.top as u32,
        base: degree.base as u32,
        link: link.number,
    }
}

/// The peak as the first link has it that reaches it.
fn peak_told(here: &NodeGreens<'_>, peak: Fraction) -> Peak
    ensures { result ≡ peak_of here.now.net.now.frame.step_count here.now.greens.now
        (reaching here.now.net.now here.now.number peak here.now.greens.now) }
{
    if peak.top == 0 {
        return Peak {
            top: 0,
            base: 1,
            link: 0,
        };
    }
    match reaching(here, peak) {
        None => Peak {
            top: 0,
            base: 1,
            link: 0,
        },
        Some(place) => peak_of(&CountedLink { here, place }),
    }
}

/// The greens of the stages for a least peak: the least ones, and what is left of the cycle for the first.
fn greens_at(
    alloc: Global,
    here: &NodeDemand<'_, '_>,
    peak: Fraction,
) -> Result<Vec<u32>, AllocError>
    requires { IsLeastPeak here.now.asked.now peak }
    ensures value { IfOk result (λ greens. greens.items
        ≡ greens_at here.now.net.now (node_of here.now.net.now here.now.node) peak) }
    ensures small { IfOk result (λ greens. All (λ e. e ≤ 120) greens.items) }
{
    let _nodes = here.net.nodes();
    let least = greens_for(alloc, here.asked, peak)?;
    Ok(filled(here.asked, least))
}

/// The answer for a least peak.
fn answer_for(
    alloc: Global,
    here: &NodeDemand<'_, '_>,
    peak: Fraction,
) -> Result<Greens, AllocError>
    requires { IsLeastPeak here.now.asked.now peak }
    ensures { IfOk result (λ g. g
        ≡ balance_at here.now.net.now (node_of here.now.net.now here.now.node) peak) }
{
    let filled = greens_at(alloc, here, peak)?;
    let node = &here.net.nodes()[here.node];
    let set = NodeGreens {
        net: here.net,
        number: node.number,
        greens: &filled,
    };
    let green = StageGreens {
        asked: here.asked,
        greens: &filled,
    };
    let shares = shares_for(alloc, &green, peak)?;
    let Peak { top, base, link } = peak_told(&set, peak);
    Ok(Greens {
        top,
        base,
        link,
        stages: shares,
    })
}

/// The stage lengths of equal saturation of the node at a place.
///
/// Of all allowed plans with the node's intergreens and least greens it takes one whose peak, the
/// greatest degree of its counted links, is least. The greens are the least ones for that peak, and
/// the rest of the cycle goes to the first stage. Lags and give-way rules aren't looked at.
pub fn balance(alloc: Global, net: &Net, node: usize) -> Result<Greens, AllocError>
    requires { node < length net.now.nodes }
    ensures value { IfOk result (λ g. g ≡ balance net.now node) }
    ensures worth { IfOk result (λ g. IsBalanced net.now (node_of net.now node) g) }
{
    let here = &net.nodes()[node];
    let demands = demands_of(alloc, net, here.number, here.stages.len())?;
    let asked = Asked::new(net, node, &demands);
    let peak = least_peak(alloc, &asked)?;
    let here = NodeDemand {
        net,
        node,
        asked: &asked,
    };
    answer_for(alloc, &here, peak)
}
