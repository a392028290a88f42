//! A line after END is judged into an answer; edits and the commands of a trial are carried out.
ghost use Rattle.std.specs.Prelude.{◌≡◌, ◌+◌, ◌^◌, ◌≤◌, ◌<◌, None, IsSome, IfSome, length};
ghost use Rattle.transyt_net.specs.Valid.{place_of, link_numbers};
ghost use Rattle.transyt_session.specs.Session.{edited, trial_of, back_of, keep_of};
ghost use Rattle.transyt_line_answers.specs.Commands.{about_link, planned, requested, answer_to, judged};
ghost use Rattle.transyt_line_answers.specs.Commands.{line_answer, line_judged};
ghost use Rattle.transyt_line_answers.specs.Conditions.{IsOf};

use crate::answer::Answer;
use crate::refusing::refused_edit;
use std::sync::ledger::Ledger;
use transyt_commands::{Command, Request, read_command};
use transyt_net::Edit;
use transyt_report::Report;
use transyt_session::{Reply, Session};
use transyt_steps::Steps;
use transyt_syntax::{Code, Found, Refusal};

/// The refusal with a code that says all.
fn refused(code: Code) -> Answer
    ensures { result ≡ Answer.Refused code }
{
    Answer::Refused(Refusal::from(code))
}

/// The refusal of a command about a link that isn't there.
fn no_link(link: u32) -> Answer
    ensures { result ≡ Answer.Refused Code.Unknown }
{
    Answer::Refused(Refusal::new(Code::Unknown, Found::NoLink(link)))
}

/// Makes an edit, or refuses it.
fn judge_edit<L: Ledger>(session: &mut Session, edit: Edit, steps: &mut Steps<L>) -> Answer
    requires room { session.old.work ≤ 2 ^ 62 }
    ensures answer { result ≡ answer_to session.old (Command.Edit edit) }
    ensures ready { IsOf session.new result }
    ensures state { session.new ≡ edited edit session.old }
    ensures few { session.new.work ≤ session.old.work + 8000 }
    ensures steps { steps.new + session.old.work ≡ steps.old + session.new.work }
{
    match session.edit(edit, steps) {
        Reply::Done { .. } => Answer::Done,
        Reply::Refused(fault) => Answer::Refused(refused_edit(session.net(), edit, fault)),
    }
}

/// Opens a trial, where none is open.
fn judge_trial(session: &mut Session) -> Answer
    ensures answer { result ≡ answer_to session.old Command.Trial }
    ensures ready { IsOf session.new result }
    ensures state { session.new ≡ trial_of session.old }
{
    match session.trial() {
        Ok(()) => Answer::Done,
        Err(_) => refused(Code::OpenTrial),
    }
}

/// Takes the open trial back, if there is one.
fn judge_back(session: &mut Session) -> Answer
    ensures answer { result ≡ answer_to session.old Command.Back }
    ensures ready { IsOf session.new result }
    ensures state { session.new ≡ back_of session.old }
{
    match session.back() {
        Ok(()) => Answer::Done,
        Err(_) => refused(Code::NoTrial),
    }
}

/// Keeps the open trial, if there is one.
fn judge_keep(session: &mut Session) -> Answer
    ensures answer { result ≡ answer_to session.old Command.Keep }
    ensures ready { IsOf session.new result }
    ensures state { session.new ≡ keep_of session.old }
{
    match session.keep() {
        Ok(()) => Answer::Done,
        Err(_) => refused(Code::NoTrial),
    }
}

/// The answer to CLIMB or CERT, or its refusal.
fn planned(session: &Session, answer: Answer) -> Answer
    requires { IsSome session.now.net.plan → session.now.before ≡ None → IsOf session.now answer }
    ensures answer { result ≡ planned session.now answer }
    ensures ready { IsOf session.now result }
{
    if session.is_trial() {
        return refused(Code::OpenTrial);
    }
    let net = session.net();
    match net.plan() {
        Some(_) => answer,
        None => refused(Code::NoPlan),
    }
}

/// The place of a link's number in the network now.
fn place_of(session: &Session, link: u32) -> Option<usize>
    ensures place { result ≡ place_of (link_numbers session.now.net.links) link }
    ensures found { IfSome result (λ p. p < length session.now.net.links) }
{
    let net = session.net();
    net.link_place(link)
}

/// The answer to PROFILE.
fn judge_profile(session: &Session, link: u32) -> Answer
    ensures answer { result ≡ about_link session.now.net link
        (λ place. Answer.Show (Report.Profile place)) }
    ensures ready { IsOf session.now result }
{
    match place_of(session, link) {
        Some(place) => Answer::Show(Report::Profile { link: place }),
        None => no_link(link),
    }
}

/// The answer to QUEUE.
fn judge_queue(session: &Session, link: u32) -> Answer
    ensures answer { result ≡ about_link session.now.net link
        (λ place. Answer.Show (Report.Queue place)) }
    ensures ready { IsOf session.now result }
{
    match place_of(session, link) {
        Some(place) => Answer::Show(Report::Queue { link: place }),
        None => no_link(link),
    }
}

/// The answer to PLOT.
fn judge_plot(session: &Session, link: u32) -> Answer
    ensures answer { result ≡ about_link session.now.net link Answer.Plot }
    ensures ready { IsOf session.now result }
{
    match place_of(session, link) {
        Some(place) => Answer::Plot(place),
        None => no_link(link),
    }
}

/// The answer to a request.
fn judge_request(session: &Session, request: Request) -> Answer
    ensures answer { result ≡ requested session.now request }
    ensures ready { IsOf session.now result }
{
    match request {
        Request::Climb => planned(session, Answer::Climb),
        Request::Cert => planned(session, Answer::Cert),
        Request::Index => Answer::Show(Report::Index),
        Request::Links => Answer::Show(Report::Links),
        Request::Figures => Answer::Show(Report::Figures),
        Request::Timing => Answer::Show(Report::Timing),
        Request::Profile { link } => judge_profile(session, link),
        Request::Plot { link } => judge_plot(session, link),
        Request::Queue { link } => judge_queue(session, link),
        Request::Chart => Answer::Show(Report::Chart),
        Request::Work => Answer::Show(Report::Work),
        Request::Deck => Answer::Deck,
        Request::Stop => Answer::Stop,
    }
}

/// Judges a command: edits and the commands of a trial are carried out.
fn judge_command<L: Ledger>(session: &mut Session, command: Command, steps: &mut Steps<L>) -> Answer
    requires room { session.old.work ≤ 2 ^ 62 }
    ensures answer { result ≡ answer_to session.old command }
    ensures state { session.new ≡ judged command session.old }
    ensures ready { IsOf session.new result }
    ensures few { session.new.work ≤ session.old.work + 8000 }
    ensures steps { steps.new + session.old.work ≡ steps.old + session.new.work }
{
    match command {
        Command::Edit(edit) => judge_edit(session, edit, steps),
        Command::Trial => judge_trial(session),
        Command::Back => judge_back(session),
        Command::Keep => judge_keep(session),
        Command::Request(request) => judge_request(session, request),
    }
}

/// Judges a line after END into its answer: edits and the commands of a trial are carried out, and the text of the
/// answer isn't written yet. It takes no memory.
pub fn judge<L: Ledger>(session: &mut Session, line: &[u8], steps: &mut Steps<L>) -> Answer
    requires room { session.old.work ≤ 2 ^ 62 }
    ensures answer { result ≡ line_answer session.old line.now }
    ensures state { session.new ≡ line_judged session.old line.now }
    ensures ready { IsOf session.new result }
    ensures few { session.new.work ≤ session.old.work + 8000 }
    ensures steps { steps.new + session.old.work ≡ steps.old + session.new.work }
{
    match read_command(line) {
        Ok(None) => Answer::Nothing,
        Ok(Some(command)) => judge_command(session, command, steps),
        Err(refusal) => Answer::Refused(refusal),
    }
}
