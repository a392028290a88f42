//! A table of plans compared, and the deck of the best: what `starts` and `cycles` have in common.

ghost use Rattle.std.specs.Prelude.{◌≡◌, ◌<◌, IfOk, IfSome};
ghost use Rattle.transyt_words.specs.Plans.{deck_of, plans_answer, best_line, climbed_line, row_line, table_lines};
ghost use Rattle.transyt_words.specs.Whole.{DeckReadsBack, ReadsBack};
ghost use Rattle.transyt_words.specs.declared.table.Numbered.{Numbered};

use crate::answer::Answer;
use crate::case::Case;
use crate::line::AnswerLine;
use std::alloc::{AllocError, Global};
use std::thread::Threads;
use transyt_climbs::{
    BestRow, Climbed, IdleGate, NetworkList, NetworkRow, Work, best, climb_networks,
};
use transyt_io::Sink;
use transyt_net::Net;

/// The numbers of a table's rows.
#[derive(Clone, Copy, Drop)]
pub enum Numbered {
    /// Starts, from 0.
    Starts,
    /// Cycle times, in seconds.
    Cycles,
}

/// A list of networks whose table is written.
pub trait TableList: NetworkList {
    /// The numbers of the rows.
    ghost kind: { Self → Numbered };

    /// The numbers of the rows.
    fn numbered(&self) -> Numbered
        ensures { result ≡ kind self.now };
}

/// The line of a climb.
fn climbed_line(by: Numbered, row: Climbed) -> AnswerLine
    ensures { result ≡ climbed_line by row }
{
    let numbers = [
        u128::from(row.number),
        row.from,
        u128::from(row.took),
        u128::from(row.looked),
        row.to,
    ];
    match (by, row.local) {
        (Numbered::Starts, true) => {
            AnswerLine::new(b"* START # FROM # TOOK # LOCAL # TO #", &numbers)
        }
        (Numbered::Starts, false) => {
            AnswerLine::new(b"* START # FROM # TOOK # BUDGET # TO #", &numbers)
        }
        (Numbered::Cycles, true) => {
            AnswerLine::new(b"* CYCLE # FROM # TOOK # LOCAL # TO #", &numbers)
        }
        (Numbered::Cycles, false) => {
            AnswerLine::new(b"* CYCLE # FROM # TOOK # BUDGET # TO #", &numbers)
        }
    }
}

/// The line of a row.
fn row_line(by: Numbered, row: NetworkRow) -> AnswerLine
    ensures { result ≡ row_line by row }
{
    match row {
        NetworkRow::NoPlan { number } => {
            AnswerLine::new(b"* CYCLE # NONE", &[u128::from(number)])
        }
        NetworkRow::Barred { number, node } => {
            let numbers = [u128::from(number), u128::from(node)];
            AnswerLine::new(b"* CYCLE # BARRED #", &numbers)
        }
        NetworkRow::Climbed(climbed) => climbed_line(by, climbed),
    }
}

/// The last line of a table, by its best row.
fn best_line(best: Option<BestRow>) -> AnswerLine
    ensures { result ≡ best_line best }
{
    match best {
        None => AnswerLine::new(b"* NONE", &[]),
        Some(best) => AnswerLine::new(b"* BEST # #", &[u128::from(best.number), best.to]),
    }
}

/// The lines of a table: each row, and then the best.
fn table_lines(
    alloc: Global,
    by: Numbered,
    rows: &[NetworkRow],
) -> Result<Vec<AnswerLine>, AllocError>
    ensures { IfOk result (λ lines. lines.items ≡ table_lines by rows.now) }
{
    let mut lines = Vec::new(alloc);
    for row in rows {
        lines.push(row_line(by, *row))?;
    }
    lines.push(best_line(best(rows)))?;
    Ok(lines)
}

/// The same network, if there is one, whose deck text is known to read back.
#[tactic(auto, using(transyt_deck::proofs::ReadBack::deck_read_back))]
fn read_back(made: Option<Net>) -> Option<Net>
    ensures same { result ≡ made }
    ensures reads_back { DeckReadsBack result }
{
    let Some(net) = made else {
        return None;
    };
    // That a network is valid is told by its accessors.
    let _ = net.links();
    Some(net)
}

/// The network at the end of the climb of the best row, if there is a best row.
fn deck_of<P: NetworkList>(
    work: &Work<'_, P, IdleGate>,
    best: Option<BestRow>,
) -> Result<Option<Net>, AllocError>
    requires { IfSome best (λ b. b.place < (P.list work.now.asked.now).count) }
    ensures deck { IfOk result (λ deck. deck
        ≡ deck_of (P.list work.now.asked.now) work.now.net.now best) }
    ensures reads_back { IfOk result DeckReadsBack }
{
    let Some(best) = best else {
        return Ok(None);
    };
    let end = work.end_at(best.place)?;
    Ok(read_back(end))
}

/// The answer to a case: the lines of its table, and the deck text of the network at the end of the best climb. The
/// sink is told how far the climbs are.
pub(crate) fn answer_case<R: Threads + Sync, W: TableList, K: Sink>(
    case: &Case<'_, R>,
    asked: &W,
    sink: &mut K,
) -> Result<Answer, AllocError>
    ensures answer { IfOk result
        (λ found. found ≡ plans_answer (W.kind asked.now) (W.list asked.now) case.now.net) }
    ensures reads_back { IfOk result ReadsBack }
    ensures written { K.written sink.new ≡ K.written sink.old }
    ensures faults { K.faults sink.new ≡ K.faults sink.old }
{
    let work = Work {
        alloc: case.alloc,
        asked,
        net: &case.cut.net,
        gate: &IdleGate,
    };
    let rows = climb_networks(case.rt, &work, sink)?;
    let lines = table_lines(case.alloc, asked.numbered(), &rows)?;
    let deck = deck_of(&work, best(&rows))?;
    Ok(Answer::with_deck(lines, deck))
}
