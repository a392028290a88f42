//! The demand of a stage: the green that its counted links ask for.

ghost use Rattle.std.specs.Prelude.{◌≡◌, ℕ, ◌+◌, ◌*◌, ◌<◌, ◌≤◌, length, map, IfOk, if◌then◌else◌, slice_index_or};
ghost use Rattle.std.specs.List.{range_with_len};
ghost use Rattle.transyt_net.specs.Parts.{link_of};
ghost use Rattle.transyt_equisat.specs.Degrees.{counts_in};
ghost use Rattle.transyt_equisat.specs.Sharing.{degree_of, demand_of, heavier, heavier_of, demand_in, demands_of};
ghost use Rattle.transyt_equisat.specs.Sharing.{no_demand};

use crate::fraction::Fraction;
use std::alloc::{AllocError, Global};
use transyt_net::{Link, Net};

/// The flow and the saturation flow of a link, in vehicles per hour.
#[derive(Clone, Copy)]
pub struct Demand {
    pub flow: u32,
    pub saturation: u32,
}

/// The degree of a demand at a green, in a cycle of `steps` steps.
pub fn degree_of(steps: u32, demand: Demand, green: u32) -> Fraction
    ensures { result ≡ degree_of steps demand green }
{
    Fraction {
        top: u64::from(demand.flow) * u64::from(steps),
        base: u64::from(demand.saturation) * u64::from(green),
    }
}

/// Whether a link counts in this stage of this node: it runs there, and in no other stage.
pub fn counts_in(link: &Link, number: u32, stage: u32) -> bool
    ensures { result ≡ counts_in number stage link.now }
{
    link.node == number && link.stages.len() == 1 && link.stages[0] == stage
}

/// Whether `a` asks for more green than `b`.
fn heavier(a: Demand, b: Demand) -> bool
    ensures { result ≡ heavier a b }
{
    u64::from(b.flow) * u64::from(a.saturation) < u64::from(a.flow) * u64::from(b.saturation)
}

/// The demand of the link at a place, where it counts in the stage and asks for more; else `so_far`.
fn heavier_of(net: &Net, place: usize, number: u32, stage: u32, so_far: Demand) -> Demand
    requires { place < length net.now.links }
    ensures { result ≡ heavier_of number stage so_far (link_of net.now place) }
{
    let link = &net.links()[place];
    let demand = Demand {
        flow: net.total_flow(place),
        saturation: link.saturation,
    };
    if counts_in(link, number, stage) && heavier(demand, so_far) {
        return demand;
    }
    so_far
}

/// The demand of the link that asks most of a stage, of those that count in it.
fn demand_in(net: &Net, number: u32, stage: u32) -> Demand
    ensures { result ≡ demand_in net.now number stage }
{
    let mut demand = Demand {
        flow: 0,
        saturation: 1,
    };
    for place in 0..net.links().len() {
        demand = heavier_of(net, place, number, stage, demand);
    }
    demand
}

/// The demands of the first `count` stages of a node.
#[tactic(auto, using(crate::proofs::AskedLaws::range_next))]
pub fn demands_of(
    alloc: Global,
    net: &Net,
    number: u32,
    count: usize,
) -> Result<Vec<Demand>, AllocError>
    requires { count ≤ 8 }
    ensures { IfOk result (λ demands. demands.items ≡ demands_of net.now number count) }
{
    let mut demands = Vec::with_capacity(alloc, count)?;
    for place in 0..count {
        demands.push(demand_in(net, number, place as u32 + 1))?;
    }
    Ok(demands)
}
