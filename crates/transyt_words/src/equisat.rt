//! The word `equisat`.

ghost use Rattle.std.specs.Prelude.{◌≡◌, ◌<◌, ◌++◌, length, IfOk, OnOk};
ghost use Rattle.transyt_words.specs.Equisat.{end_line, equisat_answer, equisat_lines, lines_at, node_line, node_lines};
ghost use Rattle.transyt_words.specs.Equisat.{share_lines, stage_line};

use crate::answer::Answer;
use crate::case::Case;
use crate::deck_word::DeckWord;
use crate::line::{AnswerLine, add};
use std::alloc::{AllocError, Global};
use std::sync::ledger::Ledger;
use std::thread::Threads;
use transyt_equisat::{Greens, Share, balance};
use transyt_io::Sink;
use transyt_net::Net;
use transyt_steps::Steps;

/// Tells stage lengths of equal saturation for each node.
#[derive(Clone, Copy, Drop)]
pub struct EquisatWord;

/// The line of a stage with this number.
fn stage_line(stage: usize, share: Share) -> AnswerLine
    ensures { result ≡ stage_line stage share }
{
    let numbers = [
        stage as u128,
        u128::from(share.change),
        u128::from(share.green),
        u128::from(share.need),
    ];
    AnswerLine::new(b"STAGE # CHANGE # GREEN # NEED #", &numbers)
}

/// Adds a line for each share.
fn add_shares(lines: &mut Vec<AnswerLine>, shares: &[Share]) -> Result<(), AllocError>
    ensures { OnOk result (lines.new.items ≡ lines.old.items ++ share_lines 1 shares.now) }
{
    for place in 0..shares.len() {
        add(lines, stage_line(place + 1, shares[place]))?;
    }
    Ok(())
}

/// The first line of a node with this number.
fn node_line(number: u32, greens: &Greens) -> AnswerLine
    ensures { result ≡ node_line number greens.now }
{
    let numbers = [
        u128::from(number),
        u128::from(greens.top),
        u128::from(greens.base),
        u128::from(greens.link),
    ];
    AnswerLine::new(b"NODE # PEAK # OF # LINK #", &numbers)
}

/// Adds the lines of a node with this number.
fn add_node(lines: &mut Vec<AnswerLine>, number: u32, greens: &Greens) -> Result<(), AllocError>
    ensures { OnOk result (lines.new.items ≡ lines.old.items ++ node_lines number greens.now) }
{
    add(lines, node_line(number, greens))?;
    add_shares(lines, &greens.stages)
}

/// Adds the lines of the node at a place.
fn add_balance(
    alloc: Global,
    lines: &mut Vec<AnswerLine>,
    net: &Net,
    place: usize,
) -> Result<(), AllocError>
    requires { place < length net.now.nodes }
    ensures { OnOk result (lines.new.items ≡ lines.old.items ++ lines_at net.now place) }
{
    let greens = balance(alloc, net, place)?;
    let node = &net.nodes()[place];
    add_node(lines, node.number, &greens)
}

/// The last line.
fn end_line() -> AnswerLine
    ensures { result ≡ end_line }
{
    AnswerLine::new(b"END EQUISAT", &[])
}

/// The lines of a network.
fn equisat_lines(alloc: Global, net: &Net) -> Result<Vec<AnswerLine>, AllocError>
    ensures { IfOk result (λ lines. lines.items ≡ equisat_lines net.now) }
{
    let mut lines = Vec::new(alloc);
    for place in 0..net.nodes().len() {
        add_balance(alloc, &mut lines, net, place)?;
    }
    add(&mut lines, end_line())?;
    Ok(lines)
}

impl DeckWord for EquisatWord {
    ghost fits = { λ self. Unit {0} };

    ghost answer = { λ self. equisat_answer };

    ghost most = { λ self case. 0 };

    fn judge<R: Threads + Sync, K: Sink, L: Ledger>(
        &self,
        case: &Case<'_, R>,
        _sink: &mut K,
        _steps: &mut Steps<L>,
    ) -> Result<Answer, AllocError> {
        Ok(Answer::done(equisat_lines(case.alloc, &case.cut.net)?))
    }
}
