//! The text of an answer. CLIMB and CERT, which look as they write, are no part of this.
ghost use Rattle.std.specs.Prelude.{◌≡◌, true};
ghost use Rattle.transyt_net.specs.Parts.{Network};
ghost use Rattle.transyt_io.specs.Prints.{PrintsOn};
ghost use Rattle.transyt_line_answers.specs.Commands.{done_text, refused_text, answer_text};
ghost use Rattle.transyt_line_answers.specs.Conditions.{IsOf, is_told};
ghost use Rattle.transyt_line_answers.specs.Report.{card_refused, accepted};

use crate::answer::Answer;
use transyt_deck::print_deck;
use transyt_io::{Failed, LineBuffer, Sink, print_form};
use transyt_net::Net;
use transyt_report::{Report, plot, show};
use transyt_session::Session;
use transyt_syntax::{Code, Refusal};

/// A card that is refused: the number of its line, from 1, and its refusal.
#[derive(Drop)]
pub struct RefusedCard {
    /// The number of its line, from 1.
    pub card: u32,
    /// Its refusal.
    pub refusal: Refusal,
}

/// Writes the line of a refused card, `CARD number REFUSED code`. On Failed some first bytes of it were written.
#[tactic(auto, unfolding(crate::specs::Report::card_refused))]
pub fn print_card_refused<K: Sink>(
    refused: &RefusedCard,
    line: &mut LineBuffer,
    sink: &mut K,
) -> Result<(), Failed>
    ensures { PrintsOn K.written K.faults sink.old sink.new result
        (card_refused refused.now.card refused.now.refusal) }
{
    let numbers = [
        u128::from(refused.card),
        u128::from(refused.refusal.number()),
    ];
    print_form(b"CARD # REFUSED #", &numbers, line, sink)
}

/// Writes the line of an accepted END, `ACCEPTED nodes links`. On Failed some first bytes of it were written.
#[tactic(auto, unfolding(crate::specs::Report::accepted))]
pub fn print_accepted<K: Sink>(net: &Net, line: &mut LineBuffer, sink: &mut K) -> Result<(), Failed>
    ensures { PrintsOn K.written K.faults sink.old sink.new result (accepted net.now) }
{
    let numbers = [net.nodes().len() as u128, net.links().len() as u128];
    print_form(b"ACCEPTED # #", &numbers, line, sink)
}

/// Writes the line of an accepted edit, TRIAL, BACK or KEEP.
#[tactic(auto, unfolding(crate::specs::Commands::done_text))]
fn print_done<K: Sink>(line: &mut LineBuffer, sink: &mut K) -> Result<(), Failed>
    ensures { PrintsOn K.written K.faults sink.old sink.new result done_text }
{
    print_form(b"DONE", &[], line, sink)
}

/// Writes the line of a refused command.
#[tactic(auto, unfolding(crate::specs::Commands::refused_text))]
fn print_refused<K: Sink>(code: Code, line: &mut LineBuffer, sink: &mut K) -> Result<(), Failed>
    ensures { PrintsOn K.written K.faults sink.old sink.new result (refused_text code) }
{
    print_form(b"REFUSED #", &[u128::from(code.number())], line, sink)
}

/// Writes the text of an answer other than CLIMB and CERT. On Failed some first bytes of it were written. It takes no
/// memory.
pub fn write_text<K: Sink>(
    answer: &Answer,
    session: &Session,
    line: &mut LineBuffer,
    sink: &mut K,
) -> Result<(), Failed>
    requires of { IsOf session.now answer.now }
    requires told { is_told answer.now ≡ true }
    ensures { PrintsOn K.written K.faults sink.old sink.new result
        (answer_text session.now answer.now) }
{
    match answer {
        Answer::Nothing | Answer::Stop => Ok(()),
        Answer::Done => print_done(line, sink),
        Answer::Refused(refusal) => print_refused(refusal.code(), line, sink),
        Answer::Show(what) => show(*what, session, line, sink),
        Answer::Plot(place) => plot(session, *place, line, sink),
        Answer::Deck => print_deck(session.net(), line, sink),
        Answer::Climb | Answer::Cert => unreachable!(),
    }
}
