//! The making of a network.
ghost use Rattle.std.specs.Prelude.{◌≡◌, ◌≤◌, ◌*◌, IfOk, OnOk};
ghost use Rattle.transyt_net.specs.Faults.{empty};
ghost use Rattle.transyt_make.specs.Made.{made, made_frame};
ghost use Rattle.transyt_make.specs.Works.{node_works, feed_works};

use crate::draws::Draws;
use crate::feeds::put_feeds;
use crate::links::put_links;
use crate::nodes::put_nodes;
use crate::town::Town;
use crate::works::Works;
use std::alloc::{AllocError, Global};
use transyt_net::{Draft, DraftFault, Frame, Net};

/// A draft with nothing in it.
fn empty(alloc: Global) -> Draft
    ensures { result ≡ empty made_frame }
{
    let frame = Frame {
        cycle: 100,
        step_count: 50,
        sweeps: 3,
        period: 60,
        stop_penalty: 100,
        dispersion: 35,
    };
    match Draft::new(alloc, frame) {
        Ok(draft) => draft,
        Err(_) => unreachable!(),
    }
}

/// A town of which nothing is made yet.
fn begin(alloc: Global, town: Town) -> Works
    ensures { result ≡ node_works town 0 }
{
    Works {
        town,
        draws: Draws::new(town.seed),
        draft: empty(alloc),
    }
}

/// Gives a town its climb plan, which has all the rest.
fn put_plan(works: &mut Works) -> Result<(), AllocError>
    requires { works.old ≡ feed_works works.old.town (4 * works.old.town.nodes) }
    ensures { OnOk result (works.new.draft ≡ made works.old.town.seed works.old.town.nodes) }
{
    match works.draft.plan(2000, &[1, 8, 20]) {
        Ok(()) => Ok(()),
        Err(DraftFault::Memory) => Err(AllocError),
        Err(_) => unreachable!(),
    }
}

/// Makes the nodes, the links, their feeds and the climb plan of a town of which nothing is made yet.
fn fill(works: &mut Works) -> Result<(), AllocError>
    requires { works.old ≡ node_works works.old.town 0 }
    ensures { OnOk result (works.new.draft ≡ made works.old.town.seed works.old.town.nodes) }
{
    put_nodes(works)?;
    put_links(works)?;
    put_feeds(works)?;
    put_plan(works)
}

/// The network of a seed: so many junctions in rows of eight, each link but those from outside fed by the neighbour
/// that it comes from.
///
/// It is for measures and tests; its streets and flows are this project's own.
#[tactic(auto, using(crate::proofs::PlanLaws::made_planned))]
pub fn make_net(alloc: Global, seed: u32, nodes: u32) -> Result<Net, AllocError>
    requires seed { seed ≤ 999999999 }
    requires some { 1 ≤ nodes }
    requires most { nodes ≤ 200 }
    ensures { IfOk result (λ net. net ≡ made seed nodes) }
{
    let mut works = begin(alloc, Town { seed, nodes });
    if let Err(e) = fill(&mut works) {
        // dropped by a call, since a draft that falls out of scope is taken apart here
        drop(works);
        return Err(e);
    }
    Ok(works.into_draft().close())
}
