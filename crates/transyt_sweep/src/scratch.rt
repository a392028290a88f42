//! Room for the work on one link.

ghost use Rattle.std.specs.Prelude.{◌≡◌, ◌^◌, ◌<◌, length, All, IfOk};
ghost use Rattle.transyt_delay.specs.Figures.{figures};
ghost use Rattle.transyt_kept.specs.Cell.{AreSmall};
ghost use Rattle.transyt_sweep.specs.Scratch.{CanWeigh, terms_in};

use crate::cell_rows::CellRows;
use crate::factors::Factors;
use crate::figures::{LazyFigures, Weights};
use std::alloc::{AllocError, Global};
use std::marker::Model;
use std::mem::size_of;
use transyt_delay::{Figures, Terms, figures_of};
use transyt_net::Net;
use transyt_profile::{Totals, stopped, total};

/// The bytes of a scratch for each link of its network: eight feeds, and the factors that were worked out last of each.
pub const FACTOR_BYTES: usize = 8 * size_of::<Factors>();

/// Room to work out one link at one sweep, and the cell that was worked out last.
///
/// Figures are worked out only when they are asked for, since all sweeps but the last need none.
pub struct Scratch {
    pub(crate) rows: CellRows,
    // the figures, or what they take beside the rows
    pub(crate) asked: LazyFigures,
    // the work on feeds: two turns of arrivals, four lanes of products, the part of one feed before its travel and
    // after
    pub(crate) room: Vec<u64>,
    // the factors that were worked out last of each feed, eight places a link
    pub(crate) factors: Vec<Factors>,
}

impl Drop for Scratch {
    // Written out: a derived one is proved again in each crate that lets a value go.
    fn drop(self) {
        let Scratch {
            rows: _,
            asked: _,
            room: _,
            factors: _,
        } = self;
    }
}

impl Model for Scratch {
    ghost use Rattle.transyt_sweep.specs.Cell.{CellValue};
    ghost use Rattle.transyt_sweep.specs.Scratch.{IsScratch, cell_in};

    ghost Value = { CellValue };

    ghost view = { λ s. cell_in s.rows s.asked };

    ghost invariant = { λ s. IsScratch s.rows s.asked s.room.items s.factors.items };
}

impl Scratch {
    /// Room for the network's steps. All values in it are 0.
    pub fn open(alloc: Global, net: &Net) -> Result<Scratch, AllocError>
        ensures { IfOk result (λ s. length s.arrivals ≡ net.now.frame.step_count) }
    {
        let step_count = net.frame().step_count as usize;
        let room = vec![in alloc; 0; 8 * step_count]?;
        let factors = vec![in alloc; Factors::none(net); 8 * net.links().len()]?;
        let Ok(rows) = CellRows::empty(alloc, net) else {
            drop(room);
            drop(factors);
            return Err(AllocError);
        };
        Ok(Scratch {
            rows,
            asked: LazyFigures::Known(Figures {
                uniform: 0,
                random: 0,
                stops: 0,
                index: 0,
            }),
            room,
            factors,
        })
    }

    /// The arrivals of the link, before any cut, in millionths of a vehicle per step.
    pub fn arrivals(&self) -> &[u64]
        ensures { result.now ≡ self.now.arrivals }
    {
        &self.rows.arrivals
    }

    /// The GO of the link, in millionths of a vehicle per step.
    pub fn go(&self) -> &[u64]
        ensures value { result.now ≡ self.now.go }
        ensures steps { length result.now ≡ length self.now.arrivals }
    {
        &self.rows.go
    }

    /// The queue at the end of each step, in millionths of a vehicle.
    pub fn queue(&self) -> &[u64]
        ensures value { result.now ≡ self.now.queue }
        ensures steps { length result.now ≡ length self.now.arrivals }
    {
        &self.rows.queue
    }

    /// The departures of the link, in millionths of a vehicle per step.
    pub fn out(&self) -> &[u64]
        ensures value { result.now ≡ self.now.out }
        ensures steps { length result.now ≡ length self.now.arrivals }
        ensures small { All (λ v. v < 2 ^ 30) result.now }
    {
        &self.rows.departures
    }

    /// The figures of the link, in millionths as those of `transyt_delay`. Where they are open they are worked out.
    pub fn figures(&self) -> Figures
        ensures value { result ≡ self.now.figures }
        ensures small { AreSmall result }
    {
        match self.asked {
            LazyFigures::Known(figures) => figures,
            LazyFigures::Open(weights, totals) => work_out(&self.rows, weights, totals),
        }
    }
}

/// The figures of a link from its rows, its weights and the sums of arrivals and of GO over a cycle.
#[tactic(auto, using(crate::proofs::ScratchLaws::sum_small, crate::proofs::ScratchLaws::all_arrives))]
fn work_out(rows: &CellRows, weights: Weights, totals: Totals) -> Figures
    requires { CanWeigh rows.now weights totals }
    ensures value { result ≡ figures (terms_in rows.now.arrivals.items rows.now.go.items
        rows.now.queue.items weights) }
    ensures small { AreSmall result }
{
    let reaching = if totals.more_comes() {
        &rows.cut
    } else {
        &rows.arrivals
    };
    let terms = Terms {
        arrivals: totals.arrivals,
        room: totals.go,
        queued: total(&rows.queue),
        stopped: stopped(reaching, &rows.queue),
        frame: weights.frame,
        weights: weights.link,
    };
    figures_of(&terms)
}
