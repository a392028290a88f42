//! How the steps of the cycle are shared out among the stages.

ghost use Rattle.std.specs.Prelude.{◌≡◌, ◌<◌, ◌≤◌, length, map, All, IfOk, false};
ghost use Rattle.transyt_equisat.specs.Degrees.{is_above};
ghost use Rattle.transyt_equisat.specs.Peaks.{Fits};
ghost use Rattle.transyt_equisat.specs.Sharing.{IsAsked, AreEnough, degree_at, IsUnder, IsBest, IsLeastPeak};

use crate::asked::Asked;
use crate::demand::degree_of;
use crate::fraction::{Fraction, is_above};
use crate::stage_greens::StageGreens;
use std::alloc::{AllocError, Global};
use transyt_parts::Stage;

/// The degree of the stage at a place.
fn degree_at(here: &StageGreens<'_, '_>, place: usize) -> Fraction
    requires { place < length here.now.asked.now.stages }
    ensures value { result ≡ degree_at here.now.asked.now here.now.greens.now place }
    ensures asked { IsAsked here.now.asked.now }
{
    degree_of(
        here.asked.steps(),
        here.asked.demands()[place],
        here.greens[place],
    )
}

/// Of two places that of the stage with the greater degree, the first where they are equal.
fn busier(here: &StageGreens<'_, '_>, a: usize, b: usize) -> usize
    requires a { a < length here.now.asked.now.stages }
    requires b { b < length here.now.asked.now.stages }
    ensures inside { result < length here.now.asked.now.stages }
    ensures over_a { is_above (degree_at here.now.asked.now here.now.greens.now a)
        (degree_at here.now.asked.now here.now.greens.now result) ≡ false }
    ensures over_b { is_above (degree_at here.now.asked.now here.now.greens.now b)
        (degree_at here.now.asked.now here.now.greens.now result) ≡ false }
{
    if is_above(degree_at(here, b), degree_at(here, a)) {
        return b;
    }
    a
}

/// The place of the stage with the greatest degree.
fn busiest(here: &StageGreens<'_, '_>) -> usize
    requires { AreEnough here.now.asked.now here.now.greens.now }
    ensures inside { result < length here.now.asked.now.stages }
    ensures greatest { IsUnder here.now.asked.now here.now.greens.now
        (degree_at here.now.asked.now here.now.greens.now result) }
{
    let mut best = 0;
    for place in 1..here.asked.stages().len() {
        best = busier(here, best, place);
    }
    best
}

/// The least greens of these stages.
fn least_greens(alloc: Global, stages: &[Stage]) -> Result<Vec<u32>, AllocError>
    ensures { IfOk result (λ greens. greens.items ≡ map (λ s. s.least) stages.now) }
{
    stages.iter().map(|s| s.least).collect(alloc)
}

/// Gives the steps that are left one by one, each to the stage with the greatest degree.
#[tactic(auto, using(crate::proofs::SharingLaws::least_short))]
fn share_out(asked: &Asked, greens: &mut [u32])
    requires { greens.old ≡ map (λ s. s.least) asked.now.stages }
    ensures fits { Fits asked.now.steps asked.now.stages greens.new }
    ensures best { IsBest asked.now greens.new }
    ensures small { All (λ e. e ≤ 120) greens.new }
{
    let steps = asked.steps();
    let used = StageGreens { asked, greens }.taken();
    for turn in used..steps {
        let place = busiest(&StageGreens { asked, greens });
        greens[place] += 1;
    }
}

/// The least peak of all greens that fill the cycle; `greens` are the least ones.
#[tactic(auto, using(crate::proofs::SharingLaws::enough_of, crate::proofs::SharingLaws::peak_is_least))]
fn peak_by_sharing(asked: &Asked, greens: &mut [u32]) -> Fraction
    requires { greens.old ≡ map (λ s. s.least) asked.now.stages }
    ensures { IsLeastPeak asked.now result }
{
    share_out(asked, greens);
    let here = StageGreens { asked, greens };
    degree_at(&here, busiest(&here))
}

/// The least peak of all greens that fill the cycle.
pub fn least_peak(alloc: Global, asked: &Asked) -> Result<Fraction, AllocError>
    ensures { IfOk result (λ v. IsLeastPeak asked.now v) }
{
    let mut greens = least_greens(alloc, asked.stages())?;
    Ok(peak_by_sharing(asked, &mut greens))
}
