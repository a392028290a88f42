//! The true lines of a certificate, and given lines judged by them.

ghost use Rattle.std.specs.Prelude.{◌≡◌, ◌+◌, ◌-◌, ◌*◌, ◌<◌, ◌≤◌, ◌&&◌, [], nat_lt, length, slice_index_or};
ghost use Rattle.std.specs.Prelude.{IfOk, OnOk, OnErr, Option};
ghost use Rattle.transyt_moves.specs.Moves.{move_count};
ghost use Rattle.transyt_sweep.specs.Sweeps.{index};
ghost use Rattle.transyt_sweep.specs.Climb.{is_below, lowers, tried_at};
ghost use Rattle.transyt_audit.specs.Certificate.{cert_texts};
ghost use Rattle.transyt_audit.specs.Verdict.{agrees};
ghost use Rattle.transyt_audit.specs.Findings.{finding_of, finding_at, concluded, steps_from};

use crate::verdict::Verdict;
use crate::words::agrees;
use crate::{put_end, put_move};
use std::alloc::{AllocError, Global};
use std::marker::Model;
use std::sync::ledger::Ledger;
use transyt_io::LineBuffer;
use transyt_moves::{move_at, move_count};
use transyt_net::Net;
use transyt_steps::Steps;
use transyt_sweep::full;
use transyt_syntax::Code;

/// The finding on a given line.
#[derive(Clone, Copy)]
pub(crate) enum Finding {
    /// It isn't the true line of its place, or no true line stands there.
    Wrong,
    /// It is the true line, and no move stands there that lowers the index.
    Right,
    /// It is the true line, and the move that stands there lowers the index.
    Lower,
}

/// The true lines of the certificate of a network. Each is made anew when a given line is judged by it.
///
/// Contracts see it as the network. The move that is tried stands in it while the index with that move is worked out,
/// and is taken back before any call ends.
#[derive(Drop)]
pub(crate) struct Truth {
    net: Net,
    places: u32,
    present: u128,
    text: LineBuffer,
}

impl Model for Truth {
    ghost use Rattle.std.specs.Prelude.{◌≡◌};
    ghost use Rattle.transyt_net.specs.Parts.{Network};
    ghost use Rattle.transyt_moves.specs.Moves.{move_count};
    ghost use Rattle.transyt_sweep.specs.Sweeps.{index};

    ghost Value = { Network };

    ghost view = { λ truth. truth.net };

    ghost invariant = { λ truth. (truth.places ≡ move_count truth.net)
        × (truth.present ≡ index truth.net) };
}

impl Truth {
    /// The true lines of a network, of which this takes a copy. It works out each sweep of each link once.
    pub(crate) fn open<L: Ledger>(
        alloc: Global,
        net: &Net,
        steps: &mut Steps<L>,
    ) -> Result<Truth, AllocError>
        ensures value { IfOk result (λ truth. truth ≡ net.now) }
        ensures ok { OnOk result (steps.new
            ≡ steps.old + net.now.frame.sweeps * length net.now.links) }
        ensures err { OnErr result (steps.new ≡ steps.old) }
    {
        let text = LineBuffer::open(alloc)?;
        let Ok(net) = net.copy(alloc) else {
            drop(text);
            return Err(AllocError);
        };
        let Ok(present) = whole_index(alloc, &net, steps) else {
            drop(net);
            drop(text);
            return Err(AllocError);
        };
        Ok(Truth {
            places: move_count(&net),
            net,
            present,
            text,
        })
    }

    /// Judges the given line of a place: a move stands at each place of the list, and the last line at the place after
    /// it.
    pub(crate) fn judge<L: Ledger>(
        &mut self,
        alloc: Global,
        place: u32,
        line: &[u8],
        steps: &mut Steps<L>,
    ) -> Result<Finding, AllocError>
        ensures finding { IfOk result (λ found. found ≡ finding_at self.old place line.now) }
        ensures same { self.new ≡ self.old }
        // the steps so far and those of the moves to come are no more than before
        ensures steps { steps.new + steps_from self.old (place + 1)
            ≤ steps.old + steps_from self.old place }
        ensures more_steps { steps.old ≤ steps.new }
    {
        if place > self.places {
            return Ok(Finding::Wrong);
        }
        if place < self.places {
            return self.judge_move(alloc, place, line, steps);
        }
        put_end(self.places, self.present, &mut self.text);
        Ok(finding_of(agrees(line, self.text.bytes()), false))
    }

    /// Judges the given line at a place in the list of moves.
    fn judge_move<L: Ledger>(
        &mut self,
        alloc: Global,
        place: u32,
        line: &[u8],
        steps: &mut Steps<L>,
    ) -> Result<Finding, AllocError>
        requires place { place < move_count self.old }
        ensures finding { IfOk result (λ found. found ≡ finding_of
            (agrees line.now (slice_index_or (cert_texts self.old) place []))
            (lowers self.old place)) }
        ensures same { self.new ≡ self.old }
        ensures steps { steps.new ≤ steps.old + self.old.frame.sweeps * length self.old.links }
        ensures more_steps { steps.old ≤ steps.new }
    {
        let tried = try_move(alloc, &mut self.net, place, steps)?;
        put_move(place, &move_at(&self.net, place), tried, &mut self.text);
        let lowers = is_below(self.present, tried);
        Ok(finding_of(agrees(line, self.text.bytes()), lowers))
    }

    /// The verdict on given lines of which none was wrong: how many they were, the number of the line after the table's
    /// last, and that of the first line of a move that lowers the index, if there is one.
    pub(crate) fn concluded(&self, given: u32, next: u32, lower: Option<u32>) -> Verdict
        ensures { result ≡ concluded self.now given next lower }
    {
        if given <= self.places {
            return Verdict::No {
                line: next,
                code: Code::OtherLine,
            };
        }
        match lower {
            Some(line) => Verdict::No {
                line,
                code: Code::LowerIndex,
            },
            None => Verdict::Yes {
                places: self.places,
                index: self.present,
            },
        }
    }
}

/// The index with the move at a place made, or None where it is barred. The move is taken back, also where memory is
/// wanting.
fn try_move<L: Ledger>(
    alloc: Global,
    net: &mut Net,
    place: u32,
    steps: &mut Steps<L>,
) -> Result<Option<u128>, AllocError>
    requires { place < move_count net.old }
    ensures tried { IfOk result (λ tried. tried ≡ tried_at net.old place) }
    ensures same { net.new ≡ net.old }
    ensures steps { steps.new ≤ steps.old + net.old.frame.sweeps * length net.old.links }
    ensures more_steps { steps.old ≤ steps.new }
{
    let Ok(back) = net.apply(move_at(net, place)) else {
        return Ok(None);
    };
    let found = whole_index(alloc, net, steps);
    let _ = net.apply(back);
    Ok(Some(found?))
}

/// The index of a network, worked out from nothing: each sweep of each link once.
fn whole_index<L: Ledger>(
    alloc: Global,
    net: &Net,
    steps: &mut Steps<L>,
) -> Result<u128, AllocError>
    ensures value { IfOk result (λ found. found ≡ index net.now) }
    ensures ok { OnOk result (steps.new
        ≡ steps.old + net.now.frame.sweeps * length net.now.links) }
    ensures err { OnErr result (steps.new ≡ steps.old) }
{
    let rows = full(alloc, net, steps)?;
    let found = rows.index();
    drop(rows);
    Ok(found)
}

/// Whether there is an index, and it is below another.
fn is_below(limit: u128, tried: Option<u128>) -> bool
    ensures { result ≡ is_below limit tried }
{
    match tried {
        Some(index) => index < limit,
        None => false,
    }
}

/// The finding on a line that agrees with the true one or not, where a move stands that lowers the index or not.
fn finding_of(agrees: bool, lowers: bool) -> Finding
    ensures { result ≡ finding_of agrees lowers }
{
    if !agrees {
        Finding::Wrong
    } else if lowers {
        Finding::Lower
    } else {
        Finding::Right
    }
}
