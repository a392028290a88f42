//! How to go on.

use crate::sentence::Sentence;
use transyt_syntax::Code;

/// A few words on a code, where the refused line isn't at hand.
fn meaning(code: Code) -> &'static str {
    match code {
        Code::WrongCount => "it has a wrong count of fields: link, feeder, vehicles, minutes",
        Code::NoNumber => "a field is no number of 1 to 9 digits",
        Code::Range => "vehicles are 0 to 999999, minutes 1 to 1440",
        Code::Twice => "the link, or the link with this feeder, is counted above already",
        Code::Unknown => "there is no such link",
        Code::NoFeeder => "the link is not fed by this feeder",
        Code::CountedFlow => "it comes to more than 9999 vehicles an hour",
        Code::LongLine => "it is longer than 4096 bytes",
        _ => "it can't be read as a row of a table",
    }
}

/// Why a row of counts, with its number from 1, is refused with this code.
pub fn on_row(row: u32, code: Code) -> Sentence {
    let mut sentence = Sentence::on("row", row, code);
    sentence.say(meaning(code));
    sentence
}

/// Why an audit ends with NO at this line of the input, and how to go on.
pub fn on_audit(line: u32, code: Code) -> Sentence {
    let mut sentence = Sentence::on("line", line, code);
    sentence.say(match code {
        Code::NoPlan =>
            "the deck has no STEPS card, so that no move is listed; add one, CLIMB and CERT",
        Code::LowerIndex =>
            "this move lowers the index, so the plan isn't LOCAL; CLIMB until LOCAL, then DECK and CERT",
        _ =>
            "this isn't the certificate's line for this deck; write DECK and CERT once more, one after the other",
    });
    sentence
}

/// A climb ended because it had looked at as many places as its budget allows.
pub fn on_budget(budget: u32) -> Sentence {
    let mut sentence = Sentence::new();
    sentence.say_with("the budget of ", budget);
    sentence.say(" looks is spent before LOCAL: CLIMB again, or raise STEPS' budget");
    sentence
}

/// A certificate is written up to a place: of how many, and how many of those before it have a lower index.
pub fn on_certificate(done: u32, places: u32, lower: u32) -> Sentence {
    let mut sentence = Sentence::new();
    sentence.say_form(
        "certificate: place # of #, # lower so far",
        &[done, places, lower],
    );
    sentence
}

/// A run ended in which this many commands were refused.
pub fn on_refused_commands(count: u32) -> Sentence {
    let mut sentence = Sentence::new();
    sentence.say_number(count);
    sentence.say(if count == 1 {
        " command was refused"
    } else {
        " commands were refused"
    });
    sentence
}

/// Cycle times were compared with all numbers in steps kept.
pub fn on_cycle_times() -> Sentence {
    let mut sentence = Sentence::new();
    sentence.say(
        "intergreens, least greens and lags are in steps, so they last shorter at shorter cycles; ",
    );
    sentence.say("the word cycles keeps their seconds");
    sentence
}
