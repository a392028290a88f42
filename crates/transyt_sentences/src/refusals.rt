//! Why a line was refused.

use crate::kind::Kind;
use crate::sentence::Sentence;
use transyt_syntax::{Code, Found, NumberRange, Refusal, WordFront};

/// Why the card of the line with this number, from 1, is refused.
pub fn on_card(number: u32, refusal: &Refusal) -> Sentence {
    let mut sentence = Sentence::on("line", number, refusal.code());
    say_refusal(&mut sentence, Kind::Card, refusal);
    sentence
}

/// Why the command of the line with this number, from 1, is refused; before it so many were refused that aren't told.
pub fn on_command(number: u32, refusal: &Refusal, untold: u32) -> Sentence {
    let mut sentence = Sentence::on("line", number, refusal.code());
    say_refusal(&mut sentence, Kind::Command, refusal);
    if untold > 0 {
        sentence.say_form(" (and # more that aren't told)", &[untold]);
    }
    sentence
}

/// Says what was found in a line of this kind, or else what its code means.
fn say_refusal(sentence: &mut Sentence, kind: Kind, refusal: &Refusal) {
    match refusal.found() {
        Found::Nothing => sentence.say(meaning(refusal.code())),
        Found::Byte { place, value } => say_byte(sentence, place, value),
        Found::Word(word) => say_word(sentence, kind, refusal.code(), &word),
        Found::Count {
            keyword,
            counts,
            count,
        } => say_count(sentence, &keyword, counts, count),
        Found::OutOfRange { range, number } => say_range(sentence, range, number),
        found => say_found(sentence, found),
    }
}

/// What a code means, where nothing was found beside it.
fn meaning(code: Code) -> &'static str {
    match code {
        Code::LongLine => "the line has more than 4096 bytes",
        Code::NoEnd => "the input ends before the card END",
        Code::NoTrial => "no trial is open; TRIAL opens one",
        Code::OpenTrial => "a trial is open; BACK takes it back, KEEP keeps it",
        Code::NoPlan => "the deck has no STEPS card",
        _ => "the line can't be read",
    }
}

/// Says that a byte may not stand in a line, and how the file is saved where it isn't plain text at all.
fn say_byte(sentence: &mut Sentence, place: u32, value: u8) {
    match (place, value) {
        (1, 0xEF) => sentence.say("a byte-order mark stands first: save it as plain text"),
        (1, 0xFE | 0xFF) => sentence.say("it begins as UTF-16 does: save it as plain text"),
        (_, 0) => sentence.say_form(
            "byte # of the line is 0, as in UTF-16: save it as plain text",
            &[place],
        ),
        _ => sentence.say_form(
            "byte # of the line is #, which is no printable ASCII, blank or tab",
            &[place, u32::from(value)],
        ),
    }
}

/// Says that a word is no number, or no keyword of this kind.
fn say_word(sentence: &mut Sentence, kind: Kind, code: Code, word: &WordFront) {
    if let Code::NoNumber = code {
        sentence.say("'");
        sentence.say_bytes(word.bytes());
        return sentence.say("' is no number of 1 to 9 digits");
    }
    let mut capitals = [0; 20];
    let capitals = in_capitals(word.bytes(), &mut capitals);
    if kind.has(capitals) {
        sentence.say("'");
        sentence.say_bytes(word.bytes());
        sentence.say("' is written ");
        sentence.say_bytes(capitals);
    } else if kind.other().has(capitals) {
        sentence.say_bytes(capitals);
        sentence.say(kind.other().where_it_stands());
    } else {
        sentence.say("no ");
        sentence.say(kind.name());
        sentence.say(" is called '");
        sentence.say_bytes(word.bytes());
        sentence.say("'");
    }
}

/// The front of a word in capitals.
fn in_capitals<'a>(word: &[u8], room: &'a mut [u8; 20]) -> &'a [u8] {
    let mut count: usize = 0;
    for byte in word {
        if let Some(place) = room.get_mut(count) {
            *place = byte.to_ascii_uppercase();
            count = count.saturating_add(1);
        }
    }
    match room.get(..count) {
        Some(capitals) => capitals,
        None => b"",
    }
}

/// A count, or the greatest that is said.
fn said_count(count: usize) -> u32 {
    u32::try_from(count).unwrap_or(u32::MAX)
}

/// Says how many numbers a keyword takes, and how many words there are.
fn say_count(sentence: &mut Sentence, keyword: &WordFront, counts: (usize, usize), count: usize) {
    let (least, most) = counts;
    sentence.say_bytes(keyword.bytes());
    sentence.say_with(" takes ", said_count(least));
    if least != most {
        sentence.say_with(" to ", said_count(most));
    }
    sentence.say(if most == 1 { " number" } else { " numbers" });
    sentence.say_with(", and here are ", said_count(count));
}

/// Says which number is out of its range.
fn say_range(sentence: &mut Sentence, range: NumberRange, number: u32) {
    sentence.say("the ");
    sentence.say(range.name);
    sentence.say_form(" # is not from # to #", &[number, range.least, range.most]);
}

/// Says what was found in the network, or the rule that the line breaks.
fn say_found(sentence: &mut Sentence, found: Found) {
    match found {
        Found::NoNode(node) => sentence.say_with("there is no node ", node),
        Found::NoStage { node, stage } => {
            sentence.say_form("node # has no stage #", &[node, stage]);
        }
        Found::NoLink(link) => sentence.say_with("there is no link ", link),
        Found::NotFed { link, feeder } => {
            sentence.say_form("link # is not fed by link #", &[link, feeder]);
        }
        Found::FewStages { node } => {
            sentence.say_form("node # has fewer than two stages", &[node]);
        }
        Found::StageSum {
            node,
            sum,
            step_count,
        } => sentence.say_form(
            "node #: its stages have # steps in all, and the cycle has #",
            &[node, sum, step_count],
        ),
        Found::ShortStage {
            node,
            stage,
            length,
            intergreen,
            least,
        } => sentence.say_form(
            "node #, stage #: # steps, needs # intergreen and # green",
            &[node, stage, length, intergreen, least],
        ),
        Found::Rule { form, numbers } => sentence.say_form(form, &numbers),
        _ => {}
    }
}
