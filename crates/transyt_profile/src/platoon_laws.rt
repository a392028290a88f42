//! Laws about the definitions.

ghost use Rattle.std.specs.Prelude.{◌≡◌, map};
ghost use Rattle.transyt_profile.specs.Platoon.{dispersed, mixed, smoothed, travel_steps};
ghost use Rattle.transyt_profile.specs.WorkedPlatoons.{uneven, uneven_start, worked_mixes, worked_platoons, worked_travels};
ghost use Rattle.transyt_profile.specs.WorkedPlatoons.{pulse, worked_pulses};

/// The worked platoons come out as they are written beside the definitions.
#[tactic(auto, using(crate::proofs::KnownValues::starts, crate::proofs::KnownValues::platoons, crate::proofs::KnownValues::pulses))]
pub fn worked_platoons()
    ensures travels { map (λ row. travel_steps row.0.0 row.0.1 row.0.2) worked_travels
        ≡ map (λ row. row.1) worked_travels }
    ensures mixes { map (λ row. mixed row.0.0 row.0.1 row.0.2) worked_mixes
        ≡ map (λ row. row.1) worked_mixes }
    ensures starts { smoothed uneven 160 0 ≡ uneven_start }
    ensures platoons { map (λ row. dispersed uneven row.0.0 row.0.1) worked_platoons
        ≡ map (λ row. row.1) worked_platoons }
    ensures pulses { map (λ row. dispersed pulse row.0.0 row.0.1) worked_pulses
        ≡ map (λ row. row.1) worked_pulses }
{}
